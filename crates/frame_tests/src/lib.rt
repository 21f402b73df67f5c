//! Tests of numbers and frames on worked examples, in bytes.
#![tactic(auto)]

#[cfg(test)]
mod frame_cases;
#[cfg(test)]
mod number_cases;
