//! A list of calls on a ringing, given as values and made one after another, with the strike orders kept in slots.
#![tactic(auto)]

mod calls;
mod hand;

pub use calls::make_calls;
