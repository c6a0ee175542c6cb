//! Sets of squares.

ghost use Rattle.std.specs.Prelude.{◌≡◌, ◌<◌, ℕ, ◌+◌, ◌*◌, ◌%◌, ◌^◌, ◌&&◌, ◌||◌, length, nat_lt, not};
ghost use Rattle.chess_rules.specs.Board.{cell_of};
ghost use Rattle.chess_rules.specs.Candidate.{lone};
ghost use Rattle.chess_rules.specs.Reach.{square_at};
ghost use Rattle.chess_rules.specs.Words as spec;
ghost use Rattle.chess_rules.specs.Words.{Bits, FirstOf, IsFrom, IsUpTo, Places, Sets, Takes};

use crate::square::Square;
use std::marker::Model;
use std::ops::{BitAnd, BitOr, Not};

// A set of squares: bit i is set if the square with index i is in it.
#[derive(Clone, Copy)]
pub(crate) struct Squares {
    bits: u64,
}

impl Model for Squares {
    ghost use Rattle.std.specs.Prelude.{ℕ};

    ghost Value = { ℕ };

    ghost view = { λ s. s.bits };

    ghost inverse = { λ n. record { bits = n } };
}

// The squares that are in both sets.
impl BitAnd for Squares {
    type Output = Squares;

    ghost bitand_gives = { λ a b r. Bits r (λ i. spec.has a i && spec.has b i) };

    #[tactic(auto, using(crate::proofs::sets::WordsToCells::has_and))]
    fn bitand(self, rhs: Squares) -> Squares {
        Squares::of_bits(self.bits & rhs.bits)
    }
}

// The squares that are in one of the sets, or in both.
impl BitOr for Squares {
    type Output = Squares;

    ghost bitor_gives = { λ a b r. Bits r (λ i. spec.has a i || spec.has b i) };

    #[tactic(auto, using(crate::proofs::sets::WordsToCells::has_or))]
    fn bitor(self, rhs: Squares) -> Squares {
        Squares::of_bits(self.bits | rhs.bits)
    }
}

// The squares that are not in the set.
impl Not for Squares {
    type Output = Squares;

    ghost not_gives = { λ a r. Bits r (λ i. not (spec.has a i)) };

    #[tactic(auto, using(crate::proofs::sets::WordsToCells::has_not))]
    fn not(self) -> Squares {
        Squares::of_bits(!self.bits)
    }
}

// The word in which the bit of this square alone is set.
fn bit_of(square: Square) -> u64
    ensures bit { result ≡ 2 ^ cell_of square }
    ensures inside { cell_of square < 64 }
{
    1 << square.index()
}

impl Squares {
    // The set with these bits.
    pub(crate) fn of_bits(bits: u64) -> Squares
        ensures { result ≡ bits }
    {
        Squares { bits }
    }

    // The squares before this one, in the order a1, b1 to h8.
    pub(crate) fn before(square: Square) -> Squares
        ensures { Places result (λ s. nat_lt (cell_of s) (cell_of square)) }
    {
        Squares::of_bits(bit_of(square) - 1)
    }

    // Whether the set has the square.
    #[tactic(auto, unfolding(crate::proofs::Words::has))]
    pub(crate) fn has(self, square: Square) -> bool
        ensures value { result ≡ spec.has self (cell_of square) }
        ensures inside { cell_of square < 64 }
        ensures again { square_at (cell_of square) ≡ square }
    {
        self.bits >> square.index() & 1 == 1
    }

    // The squares of a rank that the set has: bit 0 for file a, to bit 7 for file h.
    pub(crate) fn bits_on_rank(self, rank: u8) -> usize
        requires { rank < 8 }
        ensures bits { (i : ℕ) → i < 8 → spec.has result i ≡ spec.has self (8 * rank + i) }
        ensures below { result < 256 }
    {
        (self.bits >> (8 * rank) & 255) as usize
    }

    // Whether the set has no square.
    #[tactic(auto, using(crate::proofs::sets::SetsToSquares::empty_test))]
    pub(crate) fn is_empty(self) -> bool
        ensures { result ≡ not (spec.has_any self) }
    {
        self.bits == 0
    }

    // The set with the square if `member` is true, and else without it.
    pub(crate) fn with(self, square: Square, member: bool) -> Squares
        ensures { Sets self result (cell_of square) member }
    {
        if member {
            Squares::of_bits(self.bits | bit_of(square))
        } else {
            Squares::of_bits(self.bits & !bit_of(square))
        }
    }

    // The squares of the set, each a rank higher, and these of rank 1. Those on rank 8 are dropped.
    #[inline(always)]
    pub(crate) fn with_rank_below(self, rank: u64) -> Squares
        requires { rank < 256 }
        ensures { result ≡ rank + 256 * (self % 2 ^ 56) }
    {
        Squares::of_bits(rank + 256 * (self.bits % 72_057_594_037_927_936))
    }

    // How many squares the set has.
    #[tactic(auto, using(crate::proofs::sets::SetsToSquares::ones_are_members))]
    pub(crate) fn count(self) -> u32
        ensures { result ≡ length (spec.members self) }
    {
        self.bits.count_ones()
    }

    // The first square, if the set has one.
    pub(crate) fn lowest(self) -> Option<Square>
        ensures { FirstOf result self }
    {
        if self.bits == 0 {
            return None;
        }
        Some(Square::nth(self.bits.trailing_zeros() as usize))
    }

    // The one square of the set, if it has exactly one.
    pub(crate) fn only(self) -> Option<Square>
        ensures { result ≡ lone (spec.members self) }
    {
        let first = self.lowest()?;
        self.with(first, false).is_empty().then_some(first)
    }

    // The squares up to the first of the set, with this one; all squares if the set is empty.
    pub(crate) fn up_to_lowest(self) -> Squares
        ensures { IsUpTo self result }
    {
        match self.lowest() {
            None => Squares::of_bits(u64::MAX),
            Some(first) => Squares::of_bits(bit_of(first) | (bit_of(first) - 1)),
        }
    }

    // The squares from the last of the set on, with this one; all squares if the set is empty.
    pub(crate) fn highest_onward(self) -> Squares
        ensures { IsFrom self result }
    {
        if self.bits == 0 {
            return Squares::of_bits(u64::MAX);
        }
        !Squares::before(Square::nth(63 - self.bits.leading_zeros() as usize))
    }

    // Removes and returns the first square, if there is one. Repeated, it returns all in order.
    #[tactic(auto, using(crate::proofs::sets::SetsToSquares::takes_lowest))]
    pub(crate) fn take_lowest(&mut self) -> Option<Square>
        ensures { Takes result self.old self.new }
    {
        let first = self.lowest()?;
        *self = self.with(first, false);
        Some(first)
    }
}
