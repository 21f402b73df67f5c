// The roster of a wire: who is up, who falls and who has posted. Its contracts say what a call makes of the meaning of a wire, whatever the
// bytes are.
ghost use Rattle.std.specs.Prelude.{◌≡◌, ℕ, ◌^◌, ◌<◌, ◌≤◌, true};
ghost use Rattle.sets.specs.Masks.{member};
ghost use Rattle.wire.specs.Postable.{set_at, IsFalling};

use super::wire::is_postable;
use base::Refusal;
use sets::{BoxNumber, BoxSet, MOST_COMPANY, is_company_size};

// A place for each box that a company can have.
pub(crate) const PLACES: usize = MOST_COMPANY as usize;

#[derive(Drop, Debug)]
pub(crate) struct Roster {
    pub n: u32,
    pub up: BoxSet,
    pub falling: BoxSet,
    // The lost set of each box, by its number; of no meaning where it is not falling.
    pub lost: [BoxSet; PLACES],
    pub posted: BoxSet,
    // A company has 2 to 32 boxes.
    ghost several: { 2 ≤ n },
    ghost few: { n ≤ 32 },
    // Only its boxes are up, are falling and have posted; one that is falling is up, and its lost set has only others.
    ghost up_within: { up.mask < 2 ^ n },
    ghost losing: { (q : ℕ) → member falling q ≡ true → IsFalling n up q (set_at lost q) },
    ghost posted_within: { posted.mask < 2 ^ n },
}

impl Roster {
    ghost use Rattle.std.specs.Prelude.{List, length, IfOk, OnOk, OnErr, false, ◌||◌, ◌==◌};
    ghost use Rattle.std.specs.Result.{result_map_both};
    ghost use Rattle.base.specs.Results.{answer, or_kept};
    ghost use Rattle.sets.specs.Masks.{set_of};
    ghost use Rattle.wire.specs.Postable.{is_postable};
    ghost use Rattle.wire.specs.WireState.{on_make, on_open, on_close, on_fall, on_post, on_fetch, fetch_answer, fetched_bytes};
    ghost use Rattle.wire.specs.Rosters.{roster_state, ForAnyBytes, ForBytesOf, Becomes, EntersPosted, reach_answer};

    #[tactic(auto, unfolding(crate::specs::WireState::on_make))]
    pub(crate) fn new(n: u32) -> Result<Roster, Refusal>
        ensures made { (frames : ℕ → List ℕ)
            → result_map_both (λ r. roster_state r frames) (λ e. e) result ≡ on_make n }
        ensures posted { IfOk result (λ r. r.posted ≡ set_of (λ _. false)) }
    {
        if !is_company_size(n) {
            return Err(Refusal::Company);
        }
        Ok(Roster {
            n,
            up: BoxSet::all_below(n),
            falling: BoxSet::empty(),
            lost: [BoxSet::empty(); PLACES],
            posted: BoxSet::empty(),
        })
    }

    pub(crate) fn open(&mut self)
        ensures posted { self.new.posted ≡ set_of (λ _. false) }
        ensures meaning { Becomes on_open self.old self.new }
    {
        self.posted = BoxSet::empty();
    }

    pub(crate) fn close(&mut self)
        ensures posted { self.new.posted ≡ self.old.posted }
        ensures meaning { Becomes on_close self.old self.new }
    {
        self.up = self.up.difference(self.falling);
        self.falling = BoxSet::empty();
    }

    #[tactic(auto, unfolding(crate::specs::WireState::on_fall))]
    pub(crate) fn fall(&mut self, q: BoxNumber, lost: BoxSet) -> Result<(), Refusal>
        ensures answer { ForAnyBytes self.old (λ m. result ≡ answer (on_fall q.0 lost m)) }
        ensures posted { self.new.posted ≡ self.old.posted }
        ensures meaning { Becomes (λ m. or_kept m (on_fall q.0 lost m)) self.old self.new }
        ensures refused { OnErr result (self.new ≡ self.old) }
    {
        if q.0 >= self.n {
            return Err(Refusal::Stranger);
        }
        if !lost.is_below(self.n) || lost.contains(q) {
            return Err(Refusal::Set);
        }
        if !self.up.contains(q) || self.falling.contains(q) {
            return Err(Refusal::Down);
        }
        self.lost[q.0 as usize] = lost;
        self.falling = self.falling.with(q);
        Ok(())
    }

    // Whether box q may post the frame, and why not.
    #[tactic(auto, unfolding(crate::specs::WireState::on_post))]
    pub(crate) fn check_posting(&self, q: BoxNumber, frame: &[u8]) -> Result<(), Refusal>
        ensures answer { ForAnyBytes self.now (λ m. result ≡ answer (on_post q.0 frame.now m)) }
        ensures company { OnOk result (q.0 < self.now.n) }
        ensures vacant { OnOk result (member self.now.posted q.0 ≡ false) }
        ensures postable { OnOk result (is_postable frame.now ≡ true) }
    {
        if q.0 >= self.n {
            return Err(Refusal::Stranger);
        }
        if !self.up.contains(q) {
            return Err(Refusal::Down);
        }
        if self.posted.contains(q) {
            return Err(Refusal::Posted);
        }
        if !is_postable(frame) {
            return Err(Refusal::Narrow);
        }
        Ok(())
    }

    // Enters that box q has posted.
    pub(crate) fn enter_posted(&mut self, q: BoxNumber)
        requires { q.0 < self.old.n }
        ensures posted { self.new.posted ≡ set_of (λ i. member self.old.posted i || i == q.0) }
        ensures meaning { EntersPosted q.0 self.old self.new }
    {
        self.posted = self.posted.with(q);
    }

    // Whether there is something that box p hears of box q.
    fn reaches(&self, p: BoxNumber, q: BoxNumber) -> Result<bool, Refusal>
        ensures { ForAnyBytes self.now (λ m. result ≡ reach_answer p.0 q.0 m) }
    {
        if p.0 >= self.n || q.0 >= self.n {
            return Err(Refusal::Stranger);
        }
        let is_lost = self.falling.contains(q) && self.lost[q.0 as usize].contains(p);
        Ok(self.posted.contains(q) && !is_lost)
    }

    // Gives box p what it hears of box q, where `frame` is what q has posted, if it has.
    #[tactic(auto, unfolding(crate::specs::WireState::on_fetch))]
    pub(crate) fn fetch(
        &self,
        p: BoxNumber,
        q: BoxNumber,
        frame: &[u8],
        out: &mut [u8],
    ) -> Result<Option<usize>, Refusal>
        ensures answer { ForBytesOf self.now q.0 frame.now
            (λ m. result ≡ fetch_answer (on_fetch p.0 q.0 (length out.old) m)) }
        ensures bytes { ForBytesOf self.now q.0 frame.now
            (λ m. out.new ≡ fetched_bytes (on_fetch p.0 q.0 (length out.old) m) out.old) }
    {
        if !self.reaches(p, q)? {
            return Ok(None);
        }
        if out.len() < frame.len() {
            return Err(Refusal::Narrow);
        }
        out[..frame.len()].copy_from_slice(frame);
        Ok(Some(frame.len()))
    }
}
