//! The box: what it holds between rounds, what it sends, and how it hears and closes a round. A box is at rest or listening, and these are two types:
//! only one at rest composes, and only one that listens hears and closes.
#![tactic(auto)]

mod fault;
mod laws;
mod listening;
mod resting;
mod states;

pub use fault::{BoxFault, OwnFault, RoundFault};
pub use laws::boxes_laws;
pub use states::{Closed, Listening, Resting};
