//! What boxes propose: what a proposal is to the layers above, and two kinds, pieces and calls.
#![tactic(auto)]

mod calls;
mod laws;
mod pieces;
mod proposal;
mod values;

pub use laws::proposals_laws;
pub use proposal::Proposal;
pub use values::{Call, Piece};
