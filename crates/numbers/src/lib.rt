//! Numbers below 2^32 as bytes: writing and reading them, and how bytes are refused.
#![tactic(auto)]

mod codec;
mod laws;

pub use codec::{Decoded, NumberFault, number_len, read_number, write_number, write_numbers};
pub use laws::numbers_laws;
