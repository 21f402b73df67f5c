//! Tests of boxes: each refusal that a box can give, and rounds closed by hand.
#![tactic(auto)]

#[cfg(test)]
mod box_cases;
