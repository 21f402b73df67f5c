//! The promise of a ringing: lists of calls, accepted or refused, the history that they give, and what holds after each.
#![tactic(auto)]

mod laws;
mod request;

pub use laws::promise_laws;
pub use request::{Reply, Request};
