//! Tests of scripts: how their bytes are read and answered, how they are played, and the reports.
#![tactic(auto)]

#[cfg(test)]
mod script_cases;
