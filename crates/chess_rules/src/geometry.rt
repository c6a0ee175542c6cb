//! The empty board: what a piece reaches on it, the lines through a square, what lies between two.

ghost use Rattle.std.specs.Prelude.{◌≡◌, ◌<◌};
ghost use Rattle.chess_rules.specs.Codes.{code_reaches};
ghost use Rattle.chess_rules.specs.Reach as reach;
ghost use Rattle.chess_rules.specs.Square as square;
ghost use Rattle.chess_rules.specs.Words.{Places};
ghost use Rattle.chess_rules.specs.declared.piece.Kind.TheVariants.{Pawn};

use crate::piece::Colour;
use crate::square::Square;
use crate::squares::Squares;
use crate::tables::{
    ADJACENT, BETWEEN, BLACK_PAWNS, DIAGONALS, KNIGHT_JUMPS, LINES, REACH, STEEP, WHITE_PAWNS,
};

// The squares a knight's jump away from the target.
pub(crate) fn knights_to(target: Square) -> Squares
    ensures { Places result (λ s. square.is_jump s target) }
{
    Squares::of_bits(KNIGHT_JUMPS[target.index()])
}

// The squares next to the target, on its rank, its file or a diagonal.
pub(crate) fn adjacent(target: Square) -> Squares
    ensures { Places result (λ s. square.is_adjacent s target) }
{
    Squares::of_bits(ADJACENT[target.index()])
}

// The other squares on the rank and the file of the target.
pub(crate) fn rank_and_file(target: Square) -> Squares
    ensures { Places result (λ s. square.in_line s target) }
{
    Squares::of_bits(LINES[target.index()])
}

// The other squares on the diagonals of the target.
pub(crate) fn diagonals(target: Square) -> Squares
    ensures { Places result (λ s. square.on_diagonal s target) }
{
    Squares::of_bits(DIAGONALS[target.index()])
}

// The file of the target and its diagonal that rises to the right, both with the target itself.
pub(crate) fn steep(target: Square) -> Squares
    ensures { Places result (λ s. reach.is_steep s target) }
{
    Squares::of_bits(STEEP[target.index()])
}

// The other squares on the rank, the file and the diagonals of the target.
#[tactic(auto, using(crate::proofs::sets::SetsToSquares::places_or))]
pub(crate) fn aligned(target: Square) -> Squares
    ensures { Places result (λ s. reach.is_aligned s target) }
{
    rank_and_file(target) | diagonals(target)
}

// Whether the two are different squares of one rank, file or diagonal.
pub(crate) fn is_aligned(from: Square, to: Square) -> bool
    ensures { result ≡ reach.is_aligned from to }
{
    aligned(to).has(from)
}

// The squares from which a pawn of the colour attacks the target.
pub(crate) fn pawns_to(by: Colour, target: Square) -> Squares
    ensures { Places result (λ s. reach.reaches Pawn by s target) }
{
    match by {
        Colour::White => Squares::of_bits(WHITE_PAWNS[target.index()]),
        Colour::Black => Squares::of_bits(BLACK_PAWNS[target.index()]),
    }
}

// The squares from which a piece with this code reaches the target, if all squares between are
// empty. A pawn's code has none.
pub(crate) fn origins_by_code(code: usize, target: Square) -> Squares
    requires { code < 8 }
    ensures { Places result (λ s. code_reaches code s target) }
{
    Squares::of_bits(REACH[64 * code + target.index()])
}

// The squares strictly between the two; none if they are not on one rank, file or diagonal.
pub(crate) fn between(from: Square, to: Square) -> Squares
    ensures { Places result (λ s. square.strictly_between from s to) }
{
    Squares::of_bits(BETWEEN[64 * from.index() + to.index()])
}
