// Reading a script. Each number or image is judged when it is read, so the fault that is met first is told.
ghost use Rattle.std.specs.Prelude.{◌≡◌, length, true};
ghost use Rattle.std.specs.Result.{result_map_both};
ghost use Rattle.sets.specs.Companies.{is_company};
ghost use Rattle.scripts.specs.Entries.{is_named};
ghost use Rattle.scripts.specs.ScriptValues.{values_of};
ghost use Rattle.scripts.specs.ScriptReading.{number_at, read_head, proposal_at, read_proposals, entry_at, read_entries, read_script, places_after};

use super::entry::Entry;
use super::script::{MOST_FALLS, Script};
use arrayvec::ArrayVec;
use base::Refusal;
use frames::read_proposal;
use numbers::{Decoded, read_number};
use proposals::Proposal;
use sets::{BoxNumber, BoxSet, RoundNumber, is_company};

// The number at a place, and the place behind it.
fn number_at(bytes: &[u8], at: usize) -> Result<Decoded, Refusal>
    ensures { result ≡ number_at bytes.now at }
{
    read_number(bytes, at).map_err(|fault| fault.refusal)
}

// n and t, and the place behind them.
#[derive(Clone, Copy, Debug, PartialEq, Eq)]
struct Head {
    n: u32,
    t: u32,
    next: usize,
}

// n and t at the front of the bytes, where there are so many places for proposals.
#[tactic(auto, unfolding(crate::specs::ScriptReading::read_head))]
fn read_head(bytes: &[u8], places: usize) -> Result<Head, Refusal>
    ensures { result ≡ read_head places bytes.now }
{
    let n = number_at(bytes, 0)?;
    let t = number_at(bytes, n.next)?;
    if !is_company(n.value, t.value) {
        return Err(Refusal::Company);
    }
    if places < n.value as usize {
        return Err(Refusal::Row);
    }
    Ok(Head {
        n: n.value,
        t: t.value,
        next: t.next,
    })
}

// The proposal at a place, and the place behind it.
fn proposal_at<K: Proposal>(bytes: &[u8], at: usize) -> Result<(K, usize), Refusal>
    ensures { result ≡ proposal_at K.kind bytes.now at }
{
    read_proposal(bytes, at).map_err(|fault| fault.refusal())
}

// Judges n proposals from a place on, and tells the place behind the last image.
#[tactic(auto, using(crate::proofs::SeveralRead::reading))]
fn judge_proposals<K: Proposal>(bytes: &[u8], at: usize, n: u32) -> Result<usize, Refusal>
    ensures { let read = read_proposals K.kind bytes.now n at in
        result ≡ result_map_both (λ x. x.1) (λ e. e) read }
{
    let mut next = at;
    for _ in 0..n {
        let (_, end) = proposal_at::<K>(bytes, next)?;
        next = end;
    }
    Ok(next)
}

// Reads a proposal into each of the places, from a place in the bytes on, and tells the place behind the last image.
#[tactic(auto, using(crate::proofs::SeveralRead::reading))]
fn read_proposals<K: Proposal>(bytes: &[u8], at: usize, places: &mut [K]) -> Result<usize, Refusal>
    ensures { let read = read_proposals K.kind bytes.now (length places.old) at in
        result_map_both (λ end. (places.new, end)) (λ e. e) result ≡ read }
{
    let mut next = at;
    for place in places.iter_mut() {
        let (proposal, end) = proposal_at::<K>(bytes, next)?;
        *place = proposal;
        next = end;
    }
    Ok(next)
}

// Whether one of the entries names the box.
fn is_named(entries: &[Entry], q: BoxNumber) -> bool
    ensures { result ≡ is_named q.0 entries.now }
{
    entries.iter().any(|entry| entry.number == q)
}

// The entry at a place, where these entries stand before it, and the place behind it.
#[tactic(auto, unfolding(crate::specs::ScriptReading::entry_at))]
fn read_entry(
    bytes: &[u8],
    at: usize,
    head: Head,
    before: &[Entry],
) -> Result<(Entry, usize), Refusal>
    requires { is_company head.n head.t ≡ true }
    ensures { result ≡ entry_at head.n head.t bytes.now before.now at }
{
    let round = number_at(bytes, at)?;
    if !(1..=head.t + 1).contains(&round.value) {
        return Err(Refusal::Entry);
    }
    let number = number_at(bytes, round.next)?;
    if number.value >= head.n {
        return Err(Refusal::Stranger);
    }
    let q = BoxNumber(number.value);
    if is_named(before, q) {
        return Err(Refusal::Entry);
    }
    let set = number_at(bytes, number.next)?;
    let lost = BoxSet::from_mask(set.value);
    if !lost.is_below(head.n) || lost.contains(q) {
        return Err(Refusal::Set);
    }
    Ok((
        Entry {
            round: RoundNumber(round.value),
            number: q,
            lost,
        },
        set.next,
    ))
}

// The entries, of which the count stands at a place, and the place behind them.
#[tactic(auto, using(crate::proofs::SeveralRead::reading), unfolding(crate::specs::ScriptReading::read_entries))]
fn read_entries(
    bytes: &[u8],
    at: usize,
    head: Head,
) -> Result<(ArrayVec<Entry, MOST_FALLS>, usize), Refusal>
    requires { is_company head.n head.t ≡ true }
    ensures { let read = read_entries head.n head.t bytes.now at in
        result_map_both (λ r. (r.0.items, r.1)) (λ e. e) result ≡ read }
{
    let count = number_at(bytes, at)?;
    if count.value > head.t {
        return Err(Refusal::Entry);
    }
    let mut entries = ArrayVec::new();
    let mut next = count.next;
    for _ in 0..count.value {
        let (entry, end) = read_entry(bytes, next, head, &entries)?;
        entries.push(entry);
        next = end;
    }
    Ok((entries, next))
}

/// Reads the script that all the bytes make, and lays its proposals into the places from the first on. Places behind them keep what they held,
/// and a refused call touches none.
///
/// The bytes are n, t, the images of n proposals, the count of entries, and each entry's round, box and lost set. Every number is refused where it
/// is none: short (1), wide (2) or padded (3). Besides it refuses, in the order in which the bytes are read: company (11) if n or t is outside
/// its limits; row (12) if there are fewer places than n; image (9) if no proposal has an image; entry (21) if there are more entries than t, and
/// for an entry of round 0 or one above t + 1; stranger (5) if its box is not below n; entry (21) if an entry before it names the same box; set
/// (8) if its lost set has a number not below n, or the box itself; surplus (4) if bytes follow.
pub fn read_script<K: Proposal>(bytes: &[u8], places: &mut [K]) -> Result<Script, Refusal>
    ensures answer { let read = read_script K.kind (length places.old) bytes.now in
        result_map_both values_of (λ e. e) result ≡ result_map_both (λ x. x.0) (λ e. e) read }
    ensures places { let read = read_script K.kind (length places.old) bytes.now in
        places.new ≡ places_after read places.old }
{
    // The images are read twice, once to judge and once to lay the proposals, since there is no room for a copy of them.
    let head = read_head(bytes, places.len())?;
    let next = judge_proposals::<K>(bytes, head.next, head.n)?;
    let (entries, end) = read_entries(bytes, next, head)?;
    if end < bytes.len() {
        return Err(Refusal::Surplus);
    }
    let n = head.n as usize;
    read_proposals(bytes, head.next, &mut places[..n])?;
    Ok(Script {
        n: head.n,
        t: head.t,
        entries,
    })
}
