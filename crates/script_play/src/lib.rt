//! Playing a script: its company rings over a wire, and what comes of it is written as a report.
#![tactic(auto)]

mod answer;
mod laws;
mod run;

pub use answer::write_answer;
pub use laws::play_laws;
pub use run::play;
