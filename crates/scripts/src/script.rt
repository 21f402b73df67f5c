// What a script holds besides the proposals.
ghost use Rattle.std.specs.Prelude.{◌≡◌, ◌≤◌, length, true};
ghost use Rattle.sets.specs.Companies.{is_company};
ghost use Rattle.scripts.specs.Entries.{entries_fit};

use super::entry::Entry;
use arrayvec::ArrayVec;
use sets::MOST_COMPANY;

/// The most boxes that may fall: one fewer than the largest company has.
pub const MOST_FALLS: usize = MOST_COMPANY as usize - 1;

/// A script but for its proposals: how many boxes the company has, how many of them may fall, and which fall. It keeps the limits: n and t are
/// those of a company, and it has at most t entries, each within the limits and no box in two of them. The proposals lie in places of the
/// caller's.
#[derive(Drop, Debug)]
pub struct Script {
    pub(crate) n: u32,
    pub(crate) t: u32,
    pub(crate) entries: ArrayVec<Entry, MOST_FALLS>,
    // n and t are those of a company.
    ghost size: { is_company n t ≡ true },
    // No more boxes fall than may.
    ghost few: { length entries.items ≤ t },
    // Each entry is within the limits, and no box is in two of them.
    ghost fitting: { entries_fit n t entries.items ≡ true },
}

impl Script {
    /// How many boxes the company has.
    pub fn n(&self) -> u32
        ensures { result ≡ self.now.n }
    {
        self.n
    }

    /// How many boxes may fall.
    pub fn t(&self) -> u32
        ensures { result ≡ self.now.t }
    {
        self.t
    }

    /// Which boxes fall, in the order of the script.
    pub fn entries(&self) -> &[Entry]
        ensures { result.now ≡ self.now.entries.items }
    {
        &self.entries
    }
}
