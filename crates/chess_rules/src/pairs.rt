//! Trying all pairs of an origin and a target, until one is legal.

ghost use Rattle.std.specs.Prelude.{IsTrue, ◌≡◌, ◌+◌, ◌<◌, ◌^◌, false, length, sum_by};
ghost use Rattle.std.specs.List.{list_any};
ghost use Rattle.chess_rules.specs.Board.{at, has_colour};
ghost use Rattle.chess_rules.specs.Pairs as spec;
ghost use Rattle.chess_rules.specs.Words.{Places, members};

use crate::attack::{clear_among, seen_from};
use crate::geometry::{adjacent, aligned, knights_to};
use crate::legal::try_pair;
use crate::piece::{Kind, Promotion, rank_from};
use crate::position::{Move, Position};
use crate::probes::Probes;
use crate::square::Square;
use crate::squares::Squares;

// The move of a pair. A pawn that reaches the last rank becomes a queen.
pub(crate) fn one_move(position: &Position, from: Square, to: Square) -> Move
    ensures { result ≡ spec.one_move position.now from to }
{
    let side = position.side();
    let is_last = to.rank() == rank_from(side, 7);
    let is_promotion = is_last && position.board().has_piece(from, side, Kind::Pawn);
    let promotion = is_promotion.then_some(Promotion::Queen);
    Move {
        from,
        to,
        promotion,
    }
}

// Whether the pair is legal; this counts as one tried. A pawn that reaches the last rank becomes a
// queen: all four promotions are legal, or none.
#[tactic(auto, unfolding(crate::proofs::Words::is_legal_pair))]
fn is_legal_pair(position: &Position, from: Square, to: Square, probes: &mut Probes) -> bool
    requires { probes.old + 1 < 2 ^ 32 }
    ensures found { result ≡ spec.is_legal_pair position.now from to }
    ensures count { probes.new ≡ probes.old + 1 }
{
    let mv = one_move(position, from, to);
    try_pair(position, mv, probes).is_some()
}

// Whether the pair of one of these origins and the target is legal.
fn has_move_from(position: &Position, origins: Squares, target: Square, probes: &mut Probes) -> bool
    requires { probes.old + length (members origins) < 2 ^ 32 }
    ensures found { result
        ≡ list_any (λ s. spec.is_legal_pair position.now s target) (members origins) }
    ensures count { spec.Counts result probes.old probes.new (length (members origins)) }
{
    let mut left = origins;
    while let Some(from) = left.take_lowest() {
        if is_legal_pair(position, from, target, probes) {
            return true;
        }
    }
    false
}

// The squares next to the king of the side to move that have no piece of its side.
fn king_targets(position: &Position) -> Squares
    ensures { Places result (spec.is_king_step position.now) }
{
    adjacent(position.king()) & !position.board().of_colour(position.side())
}

// Whether a step of the king to one of its `king_targets` is legal.
pub(crate) fn has_king_step(position: &Position, probes: &mut Probes) -> bool
    requires { probes.old + spec.count_king_steps position.now < 2 ^ 32 }
    ensures found { result ≡ spec.has_king_step position.now }
    ensures count { spec.Counts result probes.old probes.new (spec.count_king_steps position.now) }
{
    let mut left = king_targets(position);
    while let Some(target) = left.take_lowest() {
        if is_legal_pair(position, position.king(), target, probes) {
            return true;
        }
    }
    false
}

// Whether a pair for one of the targets is legal, other than those that `has_king_step` tries.
pub(crate) fn has_other_move_to(position: &Position, targets: Squares, probes: &mut Probes) -> bool
    requires { probes.old + sum_by (spec.count_untried position.now) (members targets) < 2 ^ 32 }
    ensures found { result ≡ list_any (spec.has_untried_move position.now) (members targets) }
    ensures count { spec.Counts result probes.old probes.new
        (sum_by (spec.count_untried position.now) (members targets)) }
{
    let mut left = targets;
    while let Some(target) = left.take_lowest() {
        if has_move_from(position, untried(position, target), target, probes) {
            return true;
        }
    }
    false
}

// Tries the pairs for these targets, other than those that `has_king_step` tries.
//
// None of them is legal: the king is in check, and no such move to one of the targets can meet it.
// So all pairs of an origin are tried together, and each counts.
pub(crate) fn rule_out_moves_to(position: &Position, targets: Squares, probes: &mut Probes)
    requires none { list_any (spec.has_untried_move position.now) (members targets) ≡ false }
    requires room { probes.old + sum_by (spec.count_untried position.now) (members targets)
        < 2 ^ 32 }
    ensures { probes.new
        ≡ probes.old + sum_by (spec.count_untried position.now) (members targets) }
{
    let mut left = position.board().of_colour(position.side());
    while let Some(origin) = left.take_lowest() {
        probes.add((targets & untried_from(position, origin)).count());
    }
}

// The targets for which the pair with the origin is still to be tried: see `untried`.
fn untried_from(position: &Position, origin: Square) -> Squares
    requires { IsTrue (has_colour position.now.side (at position.now.board origin)) }
    ensures { Places result (λ t. spec.is_untried position.now t origin) }
{
    position.recall_invariant();
    origin.recall_invariant();
    let board = position.board();
    if board.of_kind(Kind::Knight).has(origin) {
        return knights_to(origin);
    }
    let seen = seen_from(board, origin);
    if origin.is(position.king()) {
        return seen & !king_targets(position);
    }
    seen
}

// The origins still to be tried for the target: the side's knights a jump away, and its other
// pieces on a rank, a file or a diagonal with the target, if the way is clear. The king is not
// among them if `has_king_step` has tried its step to the target.
fn untried(position: &Position, target: Square) -> Squares
    ensures { Places result (spec.is_untried position.now target) }
{
    target.recall_invariant();
    let board = position.board();
    let side = position.side();
    let knights = board.pieces(side, Kind::Knight);
    let mut others = board.of_colour(side) & !knights & aligned(target);
    if king_targets(position).has(target) {
        others = others & !board.pieces(side, Kind::King);
    }
    knights & knights_to(target) | clear_among(board, others, target)
}
