//! Squares of the board.

ghost use Rattle.std.specs.Prelude.{◌≡◌, ◌<◌, ◌&&◌, nat_lt, Some, None, if◌then◌else◌};
ghost use Rattle.chess_rules.specs.Board.{cell_of};
ghost use Rattle.chess_rules.specs.Reach.{square_at};
ghost use Rattle.chess_rules.specs.Square as spec;

use std::marker::Model;

/// A square: a file from 0 (a) to 7 (h) and a rank from 0 (1) to 7 (8). (FIDE Laws 2.1, 2.4)
#[derive(Clone, Copy, PartialEq, Eq, Debug)]
pub struct Square {
    index: u8,
}

impl Model for Square {
    ghost use Rattle.std.proofs.Common.{ap, arith};
    ghost use Rattle.std.specs.Prelude.{◌<◌, ◌+◌, ◌*◌, ◌/◌, ◌%◌};
    ghost use Rattle.chess_rules.specs.Square as spec;

    ghost Value = { spec.Square };

    ghost view = { λ s. record { file = s.index % 8; rank = s.index / 8 } };

    ghost invariant = { λ s. s.index < 64 };

    ghost inverse = { λ s. record { index = 8 * s.rank + s.file } };

    ghost inverse_ok = { λ a h. ap (λ n. record { index = n }) (omega arith) };
}

impl Default for Square {
    /// Returns a1, which fills the unused elements of an `ArrayVec` of squares.
    fn default() -> Square
        ensures { result ≡ spec.square 0 0 }
    {
        Square { index: 0 }
    }
}

impl Square {
    /// Returns the square on this file and rank, or `None` unless both are 0 to 7.
    pub fn new(file: u8, rank: u8) -> Option<Square>
        ensures { result
            ≡ (if nat_lt file 8 && nat_lt rank 8 then Some (spec.square file rank) else None) }
    {
        if file < 8 && rank < 8 {
            Some(Square::on(file, rank))
        } else {
            None
        }
    }

    /// Returns the file, from 0 (a) to 7 (h).
    pub fn file(self) -> u8
        ensures value { result ≡ self.file }
        ensures below { result < 8 }
    {
        self.index % 8
    }

    /// Returns the rank, from 0 (1) to 7 (8).
    pub fn rank(self) -> u8
        ensures value { result ≡ self.rank }
        ensures below { result < 8 }
    {
        self.index / 8
    }

    // The square on this file and rank.
    pub(crate) fn on(file: u8, rank: u8) -> Square
        requires file { file < 8 }
        requires rank { rank < 8 }
        ensures { result ≡ spec.square file rank }
    {
        Square {
            index: 8 * rank + file,
        }
    }

    // The index of the square: 0 for a1, 1 for b1, and so on, rank by rank, to 63 for h8.
    pub(crate) fn index(self) -> usize
        ensures value { result ≡ cell_of self }
        ensures below { result < 64 }
        ensures again { square_at result ≡ self }
    {
        self.index as usize
    }

    // The square with this index.
    pub(crate) fn nth(index: usize) -> Square
        requires { index < 64 }
        ensures { result ≡ square_at index }
    {
        Square { index: index as u8 }
    }

    // By this call the caller's proof knows that the square is on the board. It has no effect.
    pub(crate) fn recall_invariant(self)
        ensures file { self.file < 8 }
        ensures rank { self.rank < 8 }
    {
        let _ = &self.index;
    }

    // Whether the two are the same square.
    pub(crate) fn is(self, other: Square) -> bool
        ensures { result ≡ spec.same_square self other }
    {
        self.index == other.index
    }
}
