//! Scripts: a company with its proposals, and which boxes fall in which rounds, read from bytes.
#![tactic(auto)]

mod entry;
mod laws;
mod reader;
mod script;

pub use entry::Entry;
pub use laws::scripts_laws;
pub use reader::read_script;
pub use script::{MOST_FALLS, Script};
