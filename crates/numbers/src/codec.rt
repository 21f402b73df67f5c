// Numbers in groups of seven bits, the highest group first, every byte but the last with its top bit set.
ghost use Rattle.std.specs.Prelude.{◌≡◌, length, drop, Some, nat_le};
ghost use Rattle.numbers.specs.Numbers.{number_bytes, numbers_bytes, fault_text, refuse, read_groups, read_number};
ghost use Rattle.base.specs.Buffers.{with_front, len_if_room};

use base::Refusal;
use std::error::Error;
use std::fmt;

/// Why a number was not read, and where.
#[derive(Clone, Copy, Debug, PartialEq, Eq)]
pub struct NumberFault {
    /// Why: reading gives short (1), wide (2) or padded (3).
    pub refusal: Refusal,
    /// The place of the number's first byte, from 0.
    pub place: usize,
}

/// The refusal and the place in decimal, as in `3 padded 4`.
impl fmt::Display for NumberFault {
    ghost output = { λ e. Some (fault_text e) };

    fn fmt<W: fmt::Write>(&self, f: &mut fmt::Formatter<W>) -> fmt::Result {
        write!(f, "{} {}", self.refusal, self.place)
    }
}

impl Error for NumberFault {}

/// A number that was read.
#[derive(Clone, Copy, Debug, PartialEq, Eq)]
pub struct Decoded {
    /// The number.
    pub value: u32,
    /// The place behind its last byte, where the next number may begin.
    pub next: usize,
}

/// How many bytes the number takes, 1 to 5: one for each seven bits begun.
pub fn number_len(n: u32) -> usize
    ensures { result ≡ length (number_bytes n) }
{
    n.max(1).ilog2() as usize / 7 + 1
}

/// Writes the number at the front of `out` and answers how many bytes it takes, 1 to 5; the bytes behind stay. Refuses narrow (19) where `out` has
/// fewer, and then leaves all of it.
#[tactic(auto, using(crate::proofs::Groups::writes))]
pub fn write_number(n: u32, out: &mut [u8]) -> Result<usize, Refusal>
    ensures answer { result ≡ len_if_room (number_bytes n) out.old }
    ensures bytes { out.new ≡ with_front (number_bytes n) out.old }
{
    let len = number_len(n);
    if out.len() < len {
        return Err(Refusal::Narrow);
    }
    out[len - 1] = (n & 0x7f) as u8;
    let mut rest = n >> 7;
    for i in (0..len - 1).rev() {
        out[i] = 0x80 | (rest & 0x7f) as u8;
        rest >>= 7;
    }
    Ok(len)
}

// Whether the numbers take no more bytes than there is room for. Each takes a byte at least, so of more numbers than that none is looked at.
fn fit(numbers: &[u32], room: usize) -> bool
    ensures { result ≡ nat_le (length (numbers_bytes numbers.now)) room }
{
    numbers.len() <= room && numbers.iter().copied().map(number_len).sum::<usize>() <= room
}

/// Writes the numbers at the front of `out`, one after another, and answers how many bytes they take together; the bytes behind stay. Refuses
/// narrow (19) where `out` has fewer, and then leaves all of it: no number is written.
#[tactic(auto, using(crate::proofs::SeveralWritten::lays))]
pub fn write_numbers(numbers: &[u32], out: &mut [u8]) -> Result<usize, Refusal>
    ensures answer { result ≡ len_if_room (numbers_bytes numbers.now) out.old }
    ensures bytes { out.new ≡ with_front (numbers_bytes numbers.now) out.old }
{
    if !fit(numbers, out.len()) {
        return Err(Refusal::Narrow);
    }
    let mut at = 0;
    for n in numbers {
        at += write_number(*n, &mut out[at..])?;
    }
    Ok(at)
}

// The refusal of the number that begins at a place.
fn refuse(refusal: Refusal, place: usize) -> Result<Decoded, NumberFault>
    ensures { result ≡ refuse refusal place }
{
    Err(NumberFault { refusal, place })
}

// The bytes from a place on: none where it is past the end.
fn bytes_from(bytes: &[u8], at: usize) -> &[u8]
    ensures { result.now ≡ drop at bytes.now }
{
    bytes.get(at..).unwrap_or(&[])
}

// The number that the groups from a place on make, and how it is refused. A fifth byte that goes on is too many, whatever stands behind it.
fn read_groups(bytes: &[u8], at: usize) -> Result<Decoded, NumberFault>
    ensures { result ≡ read_groups at (drop at bytes.now) }
{
    let mut high: u32 = 0;
    let mut groups = bytes_from(bytes, at).iter().enumerate();
    let (value, last) = loop {
        let Some((i, &byte)) = groups.next() else {
            return refuse(Refusal::Short, at);
        };
        if byte < 0x80 {
            if high > u32::MAX >> 7 {
                return refuse(Refusal::Wide, at);
            }
            break (high << 7 | u32::from(byte), i);
        }
        if i == 4 {
            return refuse(Refusal::Wide, at);
        }
        high = high << 7 | u32::from(byte & 0x7f);
    };
    Ok(Decoded {
        value,
        next: at + last + 1,
    })
}

/// The number that begins at place `at` of the bytes, from 0; what stands before it and behind it is not looked at. Refuses, at that place: padded
/// (3) where its first byte is 80 (hex); wide (2) where its fifth byte has the top bit set; short (1) where the bytes end before its last group;
/// wide (2) where it is 2^32 or more.
pub fn read_number(bytes: &[u8], at: usize) -> Result<Decoded, NumberFault>
    ensures { result ≡ read_number bytes.now at }
{
    if at < bytes.len() && bytes[at] == 0x80 {
        return refuse(Refusal::Padded, at);
    }
    read_groups(bytes, at)
}
