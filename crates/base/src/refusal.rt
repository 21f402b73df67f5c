// Why a call was refused.
ghost use Rattle.std.specs.Prelude.{◌≡◌, Some};
ghost use Rattle.base.specs.Refusals.{number_of, word_of, refusal_text};

use std::error::Error;
use std::fmt;

/// Why a call was refused: each reason has a number, from 1, and a word. Every refusing call of every layer gives one of these, alone or inside
/// a fault.
#[derive(Clone, Copy, Debug, PartialEq, Eq)]
pub enum Refusal {
    /// 1, "short": the bytes end too soon.
    Short = 1,
    /// 2, "wide": the number is too large.
    Wide = 2,
    /// 3, "padded": a number begins with an empty group, 80 (hex).
    Padded = 3,
    /// 4, "surplus": bytes follow the last field.
    Surplus = 4,
    /// 5, "stranger": a box number is not below n.
    Stranger = 5,
    /// 6, "off beat": the frame is of another round.
    OffBeat = 6,
    /// 7, "heard": this sender was heard in this round.
    Heard = 7,
    /// 8, "set": a set has a bit that it may not have.
    Set = 8,
    /// 9, "image": no proposal has this image.
    Image = 9,
    /// 10, "tally": too many boxes are missing, or one that was heard is told missing.
    Tally = 10,
    /// 11, "company": n or t is outside its limits.
    Company = 11,
    /// 12, "row": the row does not belong to this ringing as it stands, or there are not as many places as are needed.
    Row = 12,
    /// 13, "wire": the wire does not fit a new ringing.
    Wire = 13,
    /// 14, "down": the box is down, falling or missing.
    Down = 14,
    /// 15, "spent": t falls were accepted.
    Spent = 15,
    /// 16, "over": a box of the row rings.
    Over = 16,
    /// 17, "silent": the box, or the ringing, does not ring.
    Silent = 17,
    /// 18, "order": the strike order was drawn already, or is not out.
    Order = 18,
    /// 19, "narrow": too few bytes are given, or a frame to post is empty or too long.
    Narrow = 19,
    /// 20, "posted": the box has posted in this round.
    Posted = 20,
    /// 21, "entry": a script has more entries than t, or one of a round or of a box that it may not have.
    Entry = 21,
}

impl Refusal {
    /// The number of the refusal, from 1 to 21.
    pub fn number(self) -> u8
        ensures { result ≡ number_of self }
    {
        self as u8
    }

    /// The word of the refusal, in small letters.
    pub fn word(self) -> &'static str
        ensures { result.now ≡ word_of self }
    {
        match self {
            Refusal::Short => "short",
            Refusal::Wide => "wide",
            Refusal::Padded => "padded",
            Refusal::Surplus => "surplus",
            Refusal::Stranger => "stranger",
            Refusal::OffBeat => "off beat",
            Refusal::Heard => "heard",
            Refusal::Set => "set",
            Refusal::Image => "image",
            Refusal::Tally => "tally",
            Refusal::Company => "company",
            Refusal::Row => "row",
            Refusal::Wire => "wire",
            Refusal::Down => "down",
            Refusal::Spent => "spent",
            Refusal::Over => "over",
            Refusal::Silent => "silent",
            Refusal::Order => "order",
            Refusal::Narrow => "narrow",
            Refusal::Posted => "posted",
            Refusal::Entry => "entry",
        }
    }
}

/// The number in decimal and the word, with a space between, as in `19 narrow`.
impl fmt::Display for Refusal {
    ghost output = { λ e. Some (refusal_text e) };

    fn fmt<W: fmt::Write>(&self, f: &mut fmt::Formatter<W>) -> fmt::Result {
        write!(f, "{} {}", self.number(), self.word())
    }
}

impl Error for Refusal {}
