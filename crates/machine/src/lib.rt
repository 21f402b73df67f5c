//! The row of a ringing: what stands at the place of each box, which row is refused, and what each call makes of it, as definitions.
#![tactic(auto)]

mod laws;
mod place;

pub use laws::machine_laws;
pub use place::{Blow, Place, Rung, Standing, is_over};
