//! The ringing: the boxes of a company over a wire, from the making to the round in which they ring, and their strike orders.
#![tactic(auto)]

mod check;
mod exchange;
mod guard;
mod make;
mod ringing;
mod round;
mod strike;

pub use ringing::Ringing;
pub use strike::StrikeOrder;
