//! Colours, kinds of pieces, and pieces.

ghost use Rattle.std.specs.Prelude.{◌≡◌, ◌<◌};
ghost use Rattle.chess_rules.specs.StepKinds as step_kinds;

/// The two sides. (FIDE Laws 2.2)
#[derive(Clone, Copy, PartialEq, Eq, Debug)]
pub enum Colour {
    White,
    Black,
}

impl Colour {
    ghost use Rattle.chess_rules.specs.Board.{other};

    pub(crate) fn other(self) -> Colour
        ensures { result ≡ other self }
    {
        match self {
            Colour::White => Colour::Black,
            Colour::Black => Colour::White,
        }
    }
}

/// The six kinds of pieces. (FIDE Laws 2.2)
#[derive(Clone, Copy, PartialEq, Eq, Debug)]
pub enum Kind {
    King,
    Queen,
    Rook,
    Bishop,
    Knight,
    Pawn,
}

/// A piece: its colour and its kind.
#[derive(Clone, Copy, PartialEq, Eq, Debug)]
pub struct Piece {
    pub colour: Colour,
    pub kind: Kind,
}

/// What a pawn becomes on the last rank. (FIDE Laws 3.7.3.3)
#[derive(Clone, Copy, PartialEq, Eq, Debug)]
pub enum Promotion {
    Queen,
    Rook,
    Bishop,
    Knight,
}

// Turns a rank into its distance from the colour's home rank, and such a distance into a rank.
pub(crate) fn rank_from(colour: Colour, rank: u8) -> u8
    requires { rank < 8 }
    ensures value { result ≡ step_kinds.rank_from colour rank }
    ensures below { result < 8 }
{
    match colour {
        Colour::White => rank,
        Colour::Black => 7 - rank,
    }
}
