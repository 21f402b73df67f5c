//! Boxes and rounds by number, sets of boxes, and how large a company of boxes may be.
#![tactic(auto)]

mod box_number;
mod company;
mod laws;
mod round_number;
mod set;
mod show;

pub use box_number::BoxNumber;
pub use company::{MOST_COMPANY, is_company, is_company_size};
pub use laws::sets_laws;
pub use round_number::RoundNumber;
pub use set::BoxSet;
