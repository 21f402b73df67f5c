// Bytes as text.
ghost use Rattle.std.specs.Prelude.{Some};
ghost use Rattle.frames.specs.ByteTexts.{hex_text};

use std::fmt;

/// Bytes to be shown in hexadecimal.
#[derive(Clone, Copy, Debug, PartialEq, Eq)]
pub struct HexBytes<'a>(pub &'a [u8]);

/// A space and two hexadecimal digits for each byte, as in ` 02 00 04 14`.
impl fmt::Display for HexBytes<'_> {
    ghost output = { λ x. Some (hex_text x.0.now) };

    fn fmt<W: fmt::Write>(&self, f: &mut fmt::Formatter<W>) -> fmt::Result {
        for byte in self.0 {
            write!(f, " {byte:02x}")?;
        }
        Ok(())
    }
}
