// The bytes of a report and of a refusal's line, as they are gathered. A number below 2^32 has at most ten digits.
ghost use Rattle.std.specs.Prelude.{◌≡◌, ◌+◌, ◌≤◌, ◌++◌, length, map, codes, decimal};
ghost use Rattle.base.specs.Buffers.{with_front, len_if_room};
ghost use Rattle.base.specs.Limits.{most_company};
ghost use Rattle.machine.specs.Places.{place_state};
ghost use Rattle.reports.specs.Reports.{spaced_numbers, line_numbers, box_line, report_text, refusal_line};

use arrayvec::ArrayVec;
use base::Refusal;
use itoa::Buffer;
use machine::{Place, Standing};
use proposals::Proposal;
use sets::{BoxNumber, MOST_COMPANY};

// Room for a line: the number, the word, the round and four numbers of an image, a space before each but the first, and the end.
const LINE_ROOM: usize = 10 + 7 + 11 + 4 * 11 + 1;

// Room for the line of a refusal: the word, a space, three digits, since the number is a byte, and the end.
const REFUSAL_ROOM: usize = 7 + 1 + 3 + 1;

// Room for a line for each box of the largest company.
const REPORT_ROOM: usize = MOST_COMPANY as usize * LINE_ROOM;

// Appends a space and the number.
fn push_spaced<const N: usize>(text: &mut ArrayVec<u8, N>, n: u32)
    requires { length text.old.items + 11 ≤ N }
    ensures items { text.new.items ≡ text.old.items ++ (codes " " ++ decimal n) }
    ensures len { length text.new.items ≤ length text.old.items + 11 }
{
    text.push(b' ');
    text.try_extend_from_slice(Buffer::new().format(n).as_bytes())
        .unwrap();
}

// Appends the numbers of the image.
#[tactic(auto, using(crate::proofs::LineLengths::tells))]
fn push_image<K: Proposal, const N: usize>(text: &mut ArrayVec<u8, N>, proposal: K)
    requires { length text.old.items + 44 ≤ N }
    ensures items { text.new.items ≡ text.old.items ++ spaced_numbers (K.kind.image proposal) }
    ensures len { length text.new.items ≤ length text.old.items + 44 }
{
    for i in 0..K::SIZE {
        push_spaced(text, proposal.image_number(i));
    }
}

// Appends the numbers that are told behind the word.
#[tactic(auto, using(crate::proofs::LineLengths::tells))]
fn push_told<K: Proposal, const N: usize>(text: &mut ArrayVec<u8, N>, standing: Standing<K>)
    requires { length text.old.items + 55 ≤ N }
    ensures items { let told = spaced_numbers (line_numbers K.kind standing) in
        text.new.items ≡ text.old.items ++ told }
    ensures len { length text.new.items ≤ length text.old.items + 55 }
{
    match standing {
        Standing::Up => {}
        Standing::Down(round) => push_spaced(text, round.0),
        Standing::Rung(rung) => {
            push_spaced(text, rung.round.0);
            push_image(text, rung.proposal);
        }
    }
}

// The line of box p.
#[tactic(auto, unfolding(crate::specs::Reports::box_line))]
fn line<K: Proposal>(p: BoxNumber, standing: Standing<K>) -> ArrayVec<u8, LINE_ROOM>
    ensures { result.items ≡ box_line K.kind p.0 standing }
{
    let mut line = ArrayVec::new();
    line.try_extend_from_slice(Buffer::new().format(p.0).as_bytes())
        .unwrap();
    line.push(b' ');
    line.try_extend_from_slice(standing.word().as_bytes())
        .unwrap();
    push_told(&mut line, standing);
    line.push(b'\n');
    line
}

// The lines of all places of a row.
#[tactic(auto, using(crate::proofs::LineLengths::tells))]
pub(crate) fn report_text<K: Proposal>(row: &[Place<K>]) -> ArrayVec<u8, REPORT_ROOM>
    requires { length row.now ≤ most_company }
    ensures { result.items ≡ report_text K.kind (map place_state row.now) }
{
    let mut text = ArrayVec::new();
    for (p, place) in row.iter().enumerate() {
        let line = line(BoxNumber(p as u32), place.standing());
        text.try_extend_from_slice(&line).unwrap();
    }
    text
}

// The line of a refusal.
#[tactic(auto, unfolding(crate::specs::Reports::refusal_line))]
pub(crate) fn refusal_text(refusal: Refusal) -> ArrayVec<u8, REFUSAL_ROOM>
    ensures { result.items ≡ refusal_line refusal }
{
    let mut text = ArrayVec::new();
    text.try_extend_from_slice(b"refused ").unwrap();
    text.try_extend_from_slice(Buffer::new().format(refusal.number()).as_bytes())
        .unwrap();
    text.push(b'\n');
    text
}

// Puts the text at the front of `out` and tells its length; where there is too little room, nothing is touched.
pub(crate) fn put(text: &[u8], out: &mut [u8]) -> Result<usize, Refusal>
    ensures answer { result ≡ len_if_room text.now out.old }
    ensures bytes { out.new ≡ with_front text.now out.old }
{
    let len = text.len();
    if out.len() < len {
        return Err(Refusal::Narrow);
    }
    out[..len].copy_from_slice(text);
    Ok(len)
}
