//! What every layer stands on: why a call may be refused, and the struct in which a refused call gives back what it was handed.
#![tactic(auto)]

mod laws;
mod refusal;
mod refused;

pub use laws::counts_laws;
pub use refusal::Refusal;
pub use refused::Refused;
