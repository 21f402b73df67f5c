//! The rule by which the boxes ring: who hears whom where boxes fall, what each then holds, that all ring at once, and that a box of the
//! crate `boxes` follows it.
#![tactic(auto)]

mod falls;
mod laws;

pub use falls::{Fall, closes, hears};
pub use laws::{box_follows_rule, examples_laws, rule_laws};
