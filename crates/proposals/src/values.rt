// Pieces and calls as values. Their limits stand in the types.
ghost use Rattle.std.specs.Prelude.{◌≤◌};

/// A piece to ring, by its number, 0 to 16,383. The smaller number goes first.
#[derive(Clone, Copy, Debug, PartialEq, Eq, PartialOrd, Ord)]
pub struct Piece {
    pub(crate) number: u16,
    ghost most: { number ≤ 16383 },
}

/// A call for a piece, with a rank, 1 to 9. The higher rank goes first, and of equal ranks the smaller piece.
#[derive(Clone, Copy, Debug, PartialEq, Eq)]
pub struct Call {
    pub(crate) rank: u8,
    pub(crate) piece: Piece,
    ghost least: { 1 ≤ rank },
    ghost most: { rank ≤ 9 },
}
