// What the boxes exchange in a round: each that is up posts its frame, and each that is up and not falling hears the others and closes.
ghost use Rattle.std.specs.Prelude.{◌≡◌, ℕ, ◌<◌, ◌≤◌, length, map, Some, None, Ok};
ghost use Rattle.std.specs.List.{slice_get};
ghost use Rattle.std.specs.Result.{result_map_both, result_unwrap_or};
ghost use Rattle.frames.specs.Frames.{frame_bytes};
ghost use Rattle.boxes.specs.Boxes.{frame_of};
ghost use Rattle.boxes.specs.BoxFaults.{refusal_of};
ghost use Rattle.boxes.specs.BoxRounds.{on_hear, outcome};
ghost use Rattle.boxes.specs.ByFrames.{outcome_by_frames};
ghost use Rattle.base.specs.Results.{answer, or_kept};
ghost use Rattle.machine.specs.declared.place.Place.TheVariants as place;
ghost use Rattle.machine.specs.Places.{at_rest, place_state};
ghost use Rattle.base.specs.Numbered.{by_number};
ghost use Rattle.machine.specs.State.{State};
ghost use Rattle.machine.specs.RoundCall.{frames_heard_by, round_to_come, place_after, wire_in_round, state_after_round};
ghost use Rattle.machine.specs.MachineLaws.{RefusesNothing};
ghost use Rattle.ringing.specs.Exchanges.{InRound, on_own_post, notes_when_hearing};

use base::Refusal;
use boxes::{BoxFault, Closed, Listening, Resting, boxes_laws};
use frames::LONGEST_FRAME;
use machine::Place;
use proposals::Proposal;
use sets::{BoxNumber, RoundNumber};
use wire::Wire;

// A box at rest posts its frame.
fn post_frame<W: Wire, K: Proposal>(
    wire: &mut W,
    b: Resting<K>,
    line: &mut [u8],
) -> Result<(), Refusal>
    requires room { LONGEST_FRAME ≤ length line.old }
    ensures answer { result ≡ answer (on_own_post K.kind b.held (W.meaning wire.old)) }
    ensures meaning { let m = W.meaning wire.old in
        W.meaning wire.new ≡ or_kept m (on_own_post K.kind b.held m) }
{
    boxes_laws::<K>();
    let length = b.compose(line)?;
    wire.post(b.number(), &line[..length])
}

// Tells a listening box what was posted.
fn tell<K: Proposal>(listening: &mut Listening<K>, frame: &[u8]) -> Result<(), Refusal>
    ensures resting { listening.new.resting ≡ listening.old.resting }
    ensures answer { let now = listening.old in
        let heard = on_hear K.kind now.resting.held now.notes frame.now in
        result ≡ result_map_both (λ _. tt) refusal_of heard }
    ensures notes { let now = listening.old in
        let heard = on_hear K.kind now.resting.held now.notes frame.now in
        listening.new.notes ≡ result_unwrap_or heard now.notes }
{
    listening.hear(frame).map_err(BoxFault::refusal)
}

// Lets a listening box hear box q.
fn hear_box<W: Wire, K: Proposal>(
    wire: &W,
    listening: &mut Listening<K>,
    q: BoxNumber,
    line: &mut [u8],
) -> Result<(), Refusal>
    requires room { LONGEST_FRAME ≤ length line.old }
    requires sender { q.0 < (W.meaning wire.now).n }
    ensures resting { listening.new.resting ≡ listening.old.resting }
    ensures answer { let m = W.meaning wire.now in
        let now = listening.old in
        now.resting.held.number.0 < m.n
        → result ≡ answer (notes_when_hearing K.kind m now.resting.held now.notes q.0) }
    ensures notes { let m = W.meaning wire.now in
        let now = listening.old in
        now.resting.held.number.0 < m.n
        → listening.new.notes
        ≡ or_kept now.notes (notes_when_hearing K.kind m now.resting.held now.notes q.0) }
{
    match wire.fetch(listening.number(), q, line)? {
        Some(length) => tell(listening, &line[..length]),
        None => Ok(()),
    }
}

// A box opens the round, hears every other box and closes.
fn close_box<W: Wire, K: Proposal>(
    wire: &W,
    b: Resting<K>,
    line: &mut [u8],
) -> Result<Closed<K>, Refusal>
    requires room { LONGEST_FRAME ≤ length line.old }
    ensures { let p = b.held.number.0 in
        (s : State K) → InRound K.kind (W.meaning wire.now) s
        → slice_get s.row p ≡ Some (at_rest b.held)
        → result_map_both outcome (λ e. e) result
        ≡ Ok (outcome_by_frames K.kind b.held (frames_heard_by s p)) }
{
    let mut listening = b.open();
    for q in 0..wire.n() {
        if q != b.number().0 {
            hear_box(wire, &mut listening, BoxNumber(q), line)?;
        }
    }
    match listening.close() {
        Ok(closed) => Ok(closed),
        Err(refused) => Err(refused.fault.refusal()),
    }
}

// Each box at rest posts its frame.
fn post_frames<W: Wire, K: Proposal>(
    wire: &mut W,
    row: &[Place<K>],
    line: &mut [u8],
) -> Result<(), Refusal>
    requires room { LONGEST_FRAME ≤ length line.old }
    ensures { (s : State K) → s.wire ≡ W.meaning wire.old → s.row ≡ map place_state row.now
        → RefusesNothing K.kind s → ((q : ℕ) → s.wire.posted q ≡ None)
        → (result ≡ Ok tt) × (W.meaning wire.new ≡ wire_in_round K.kind s) }
{
    for place in row {
        if let Place::Resting(b) = place {
            post_frame(wire, *b, line)?;
        }
    }
    Ok(())
}

// What stands at a place after the round: a box at rest that falls is down since this round, and any other at rest has closed it.
fn place_after<W: Wire, K: Proposal>(
    wire: &W,
    round: RoundNumber,
    place: Place<K>,
    line: &mut [u8],
) -> Result<Place<K>, Refusal>
    requires room { LONGEST_FRAME ≤ length line.old }
    ensures { (s : State K) (p : ℕ) → InRound K.kind (W.meaning wire.now) s
        → round ≡ round_to_come s
        → slice_get s.row p ≡ Some (place_state place)
        → result_map_both place_state (λ e. e) result
        ≡ Ok (place_after K.kind s p (place_state place)) }
{
    match place {
        Place::Resting(b) => {
            if wire.falling().contains(b.number()) {
                return Ok(Place::Down(round));
            }
            Ok(close_box(wire, b, line)?.into())
        }
        Place::Down(_) | Place::Rung(_) => Ok(place),
    }
}

// Every box at rest closes the round, one after another in its place, or is down if it falls.
fn close_boxes<W: Wire, K: Proposal>(
    wire: &W,
    round: RoundNumber,
    row: &mut [Place<K>],
    line: &mut [u8],
) -> Result<(), Refusal>
    requires room { LONGEST_FRAME ≤ length line.old }
    ensures { (s : State K) → InRound K.kind (W.meaning wire.now) s → round ≡ round_to_come s
        → s.row ≡ map place_state row.old
        → (result ≡ Ok tt) × (map place_state row.new ≡ by_number (place_after K.kind s) s.row) }
{
    for place in row.iter_mut() {
        *place = place_after(wire, round, *place, line)?;
    }
    Ok(())
}

// The whole round on the wire and in the row.
pub(crate) fn exchange_frames<W: Wire, K: Proposal>(
    wire: &mut W,
    round: RoundNumber,
    row: &mut [Place<K>],
    line: &mut [u8],
) -> Result<(), Refusal>
    requires room { LONGEST_FRAME ≤ length line.old }
    ensures { (s : State K) → s.wire ≡ W.meaning wire.old → s.row ≡ map place_state row.old
        → round ≡ round_to_come s → RefusesNothing K.kind s
        → (result ≡ Ok tt)
        × (W.meaning wire.new ≡ (state_after_round K.kind s).wire)
        × (map place_state row.new ≡ (state_after_round K.kind s).row) }
{
    wire.open();
    post_frames(wire, row, line)?;
    close_boxes(wire, round, row, line)?;
    wire.close();
    Ok(())
}
