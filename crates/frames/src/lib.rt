//! Frames, which boxes send each other, as bytes: writing and reading them, and how bytes are refused.
#![tactic(auto)]

mod codec;
mod fault;
mod frame;
mod hex;
mod laws;

pub use codec::{read_frame, read_proposal, write_frame};
pub use fault::{Field, FieldFault, FrameFault};
pub use frame::{Frame, LONGEST_FRAME};
pub use hex::HexBytes;
pub use laws::{examples_laws, frames_laws};
