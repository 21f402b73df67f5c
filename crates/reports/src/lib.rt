//! What is told of a ringing in bytes: a report with a line for each box, and the line of a refusal.
#![tactic(auto)]

mod laws;
mod report;
mod text;

pub use laws::reports_laws;
pub use report::{LONGEST_REFUSAL, LONGEST_REPORT, write_refusal, write_report};
