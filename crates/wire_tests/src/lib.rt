//! Tests of wires: calls with what they answer, the same on each wire.
#![tactic(auto)]

#[cfg(test)]
mod wire_cases;
