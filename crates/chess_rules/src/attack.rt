//! Which squares are attacked on a board.

ghost use Rattle.std.specs.Prelude.{IsTrue, ◌≡◌, ◌&&◌};
ghost use Rattle.std.specs.List.{list_any};
ghost use Rattle.chess_rules.specs.Board.{at, cell_of, has_colour};
ghost use Rattle.chess_rules.specs.Attacks as spec;
ghost use Rattle.chess_rules.specs.Pairs as pairs;
ghost use Rattle.chess_rules.specs.Reach as reach;
ghost use Rattle.chess_rules.specs.Words.{ArePossible, Places, has, members};

use crate::board::{Board, PAWN_CODE};
use crate::geometry::{
    adjacent, between, diagonals, knights_to, origins_by_code, pawns_to, rank_and_file, steep,
};
use crate::piece::{Colour, Kind};
use crate::square::Square;
use crate::squares::Squares;

// Whether all squares strictly between are empty.
pub(crate) fn is_clear(board: &Board, from: Square, to: Square) -> bool
    ensures { result ≡ spec.is_clear board.now from to }
{
    (between(from, to) & board.occupied()).is_empty()
}

// The squares of the set from which the way to the target is clear: all squares between are empty.
pub(crate) fn clear_among(board: &Board, set: Squares, target: Square) -> Squares
    ensures { Places result (λ s. has set (cell_of s) && spec.is_clear board.now s target) }
{
    let mut clear = set;
    let mut left = set;
    while let Some(square) = left.take_lowest() {
        if !is_clear(board, square, target) {
            clear = clear.with(square, false);
        }
    }
    clear
}

// The squares of this line through the origin that are seen from it: those up to the nearest piece
// on either side, with this piece.
fn seen_along(board: &Board, line: Squares, origin: Square) -> Squares
    requires { reach.IsLine (λ s. has line (cell_of s)) origin }
    ensures { Places result (λ s. has line (cell_of s) && spec.is_clear board.now s origin) }
{
    origin.recall_invariant();
    let blocking = line & board.occupied();
    let before = Squares::before(origin);
    line & ((blocking & !before).up_to_lowest() & (blocking & before).highest_onward())
}

// The squares that are seen from the origin along its rank, its file and its two diagonals.
pub(crate) fn seen_from(board: &Board, origin: Square) -> Squares
    ensures { Places result (λ s. reach.is_aligned s origin && spec.is_clear board.now s origin) }
{
    origin.recall_invariant();
    let rank_and_file = rank_and_file(origin);
    let diagonals = diagonals(origin);
    let steep = steep(origin);
    seen_along(board, rank_and_file & steep, origin)
        | seen_along(board, rank_and_file & !steep, origin)
        | seen_along(board, diagonals & steep, origin)
        | seen_along(board, diagonals & !steep, origin)
}

// The rooks, bishops and queens of the colour that would attack the target if all squares between
// were empty.
pub(crate) fn sliders(board: &Board, by: Colour, target: Square) -> Squares
    ensures { Places result (reach.slides board.now by target) }
{
    (rank_and_file(target) & (board.of_kind(Kind::Rook) | board.of_kind(Kind::Queen))
        | diagonals(target) & (board.of_kind(Kind::Bishop) | board.of_kind(Kind::Queen)))
        & board.of_colour(by)
}

// All pieces of the colour that would attack the target if all squares between were empty.
#[inline(always)]
pub(crate) fn possible_attackers(board: &Board, by: Colour, target: Square) -> Squares
    ensures { Places result (reach.may_attack board.now by target) }
{
    let near = knights_to(target) & board.of_kind(Kind::Knight)
        | adjacent(target) & board.of_kind(Kind::King)
        | pawns_to(by, target) & board.of_kind(Kind::Pawn);
    near & board.of_colour(by) | sliders(board, by, target)
}

// Whether the piece on a square, which is of this colour, attacks the target.
#[inline(always)]
pub(crate) fn attacks_from(board: &Board, by: Colour, from: Square, target: Square) -> bool
    requires { IsTrue (has_colour by (at board.now from)) }
    ensures { result ≡ spec.attacks board.now from target }
{
    let code = board.code_at(from);
    if code == PAWN_CODE {
        return pawns_to(by, target).has(from);
    }
    origins_by_code(code, target).has(from) && is_clear(board, from, target)
}

// Whether a piece of the colour attacks the square.
//
// Mostly at most one piece could attack it. Even for several there is no loop: the compiler drops a
// test of legality whose result is unused only if it sees that the test ends.
pub(crate) fn is_attacked(board: &Board, by: Colour, target: Square) -> bool
    ensures { result ≡ spec.is_attacked board.now by target }
{
    is_attacked_by(board, possible_attackers(board, by, target), target)
}

// Whether one of these `possible_attackers` of the target attacks it.
#[inline(always)]
pub(crate) fn is_attacked_by(board: &Board, possible: Squares, target: Square) -> bool
    requires { ArePossible board.now target possible }
    ensures { result ≡ list_any (λ s. spec.is_clear board.now s target) (members possible) }
{
    if possible.is_empty() {
        return false;
    }
    match possible.only() {
        Some(attacker) => is_clear(board, attacker, target),
        None => is_any_in_view(board, possible, target),
    }
}

// The same for several of them.
#[inline(never)]
fn is_any_in_view(board: &Board, possible: Squares, target: Square) -> bool
    requires { ArePossible board.now target possible }
    ensures { result ≡ list_any (λ s. spec.is_clear board.now s target) (members possible) }
{
    !(possible & (seen_from(board, target) | knights_to(target))).is_empty()
}

// The squares of the pieces of the colour that attack the target, and those between the target and
// the first of these; no square if nothing attacks it.
pub(crate) fn evasion_targets(board: &Board, by: Colour, target: Square) -> Squares
    ensures { pairs.MeetsAttack board.now by target result }
{
    let attackers = clear_among(board, possible_attackers(board, by, target), target);
    match attackers.lowest() {
        None => attackers,
        Some(first) => attackers | between(first, target),
    }
}
