//! A third kind of proposal, declared outside the crate of the trait: a check that the trait is enough for code outside. Nothing of the product rests
//! on it.
#![tactic(auto)]

mod medleys;
mod values;

pub use values::Medley;
