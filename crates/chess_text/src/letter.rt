//! The letters of pieces, and the texts of squares.

ghost use Rattle.std.specs.Prelude.{◌≡◌, ◌+◌, ◌≤◌, ◌++◌, length};
ghost use Rattle.chess_text.specs.Letter as spec;

use arrayvec::ArrayVec;
use chess_rules::{Kind, Square};

// The capital letter of a kind. (PGN 8.2.3.2)
pub(crate) fn letter(kind: Kind) -> u8
    ensures value { result ≡ spec.letter kind }
    ensures capital { result ≤ 90 }
{
    match kind {
        Kind::King => b'K',
        Kind::Queen => b'Q',
        Kind::Rook => b'R',
        Kind::Bishop => b'B',
        Kind::Knight => b'N',
        Kind::Pawn => b'P',
    }
}

// Adds the letter of the file and the digit of the rank. (PGN 8.2.3.1)
pub(crate) fn push_square<const N: usize>(text: &mut ArrayVec<u8, N>, square: Square)
    requires { length text.old.items + 2 ≤ N }
    ensures { text.new.items ≡ text.old.items ++ spec.square_text square }
{
    text.push(b'a' + square.file());
    text.push(b'1' + square.rank());
}
