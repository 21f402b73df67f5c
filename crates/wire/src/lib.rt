//! The wire: what joins the boxes of a company. A trait, [`Wire`], says what it does, and two types do so: [`Board`] and [`Tape`].
#![tactic(auto)]

mod board;
mod board_wire;
mod roster;
mod span;
mod tape;
mod tape_wire;
mod wire;

pub use board::Board;
pub use tape::Tape;
pub use wire::{Wire, is_postable};
