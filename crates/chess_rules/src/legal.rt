//! Which moves are legal, and check.

ghost use Rattle.std.specs.Prelude.{IsTrue, ◌≡◌, ◌+◌, ◌<◌, ◌≤◌, ◌^◌, Some, true, false};
ghost use Rattle.chess_rules.specs.Candidate.{pair_count};
ghost use Rattle.chess_rules.specs.Legal as spec;
ghost use Rattle.chess_rules.specs.Step.{own};
ghost use Rattle.chess_rules.specs.declared.piece.Kind.TheVariants.{Pawn};

use crate::attack::evasion_targets;
use crate::board::{KING_CODE, PAWN_CODE};
use crate::pairs::{has_king_step, has_other_move_to, rule_out_moves_to};
use crate::position::{Move, Position};
use crate::probes::Probes;
use crate::step::{
    StepKind, goes_en_passant, is_pawn_step, is_piece_step, is_step_of_kind, kind_of_step,
};

/// Returns the position after the move, or `None` if the move is not legal. (FIDE Laws 3.10.1)
///
/// This adds 1 to the count of `probes`, which must have room for it.
///
/// # Examples
///
/// ```
/// use chess_rules::{Move, Position, Probes, Square, try_pair};
///
/// let e2 = Square::new(4, 1).unwrap();
/// let e4 = Square::new(4, 3).unwrap();
/// let mv = Move { from: e2, to: e4, promotion: None };
/// let mut probes = Probes::new();
/// let next = try_pair(&Position::initial(), mv, &mut probes).unwrap();
/// assert_eq!(next.at(e2), None);
/// assert!(try_pair(&next, mv, &mut probes).is_none());
/// assert_eq!(probes.count(), 2);
/// ```
#[tactic(auto, using(crate::proofs::moves::PlainStepAttacks::none_when_not))]
#[inline(always)]
pub fn try_pair(position: &Position, mv: Move, probes: &mut Probes) -> Option<Position>
    // Cargo: assert!(u32::MAX - probes.count() >= 1, "the count of Probes has room for 1 more")
    requires { probes.old + 1 < 2 ^ 32 }
    ensures after { result ≡ spec.legal position.now mv }
    ensures count { probes.new ≡ probes.old + 1 }
{
    probes.add_one();
    if is_legal(position, &mv) {
        Some(position_after(position, &mv))
    } else {
        None
    }
}

/// Returns the position after a legal move. (FIDE Laws 3.10.1)
///
/// The move must be legal: this does not test it, and counts no pair.
#[inline(always)]
pub fn position_after(position: &Position, mv: &Move) -> Position
    // Cargo: debug_assert!(is_legal(position, mv), "position_after takes a legal move")
    requires { IsTrue (spec.is_legal position.now mv.now) }
    ensures { spec.legal position.now mv.now ≡ Some result }
{
    position.after(mv, kind_of_step(position, mv))
}

// Whether the move is legal.
//
// A pawn and a king have rules of their own. Any other piece goes where it would go on an empty
// board, if the way is clear.
#[tactic(auto, using(crate::proofs::moves::codes, crate::proofs::moves::decided))]
#[inline(never)]
fn is_legal(position: &Position, mv: &Move) -> bool
    ensures { result ≡ spec.is_legal position.now mv.now }
{
    let board = position.board();
    if !board.has_colour(mv.from, position.side()) {
        return false;
    }
    mv.from.recall_invariant();
    mv.to.recall_invariant();
    let code = board.code_at(mv.from);
    if code == PAWN_CODE {
        return is_legal_for_pawn(position, mv);
    }
    if code == KING_CODE {
        return is_legal_for_king(position, mv);
    }
    is_piece_step(position, mv, code) && position.is_safe_after(mv, StepKind::Plain)
}

// Whether the move is legal, if a pawn of the side to move is on its origin.
#[tactic(auto, using(crate::proofs::moves::decided))]
#[inline(never)]
fn is_legal_for_pawn(position: &Position, mv: &Move) -> bool
    requires { IsTrue (own position.now Pawn mv.now.from) }
    ensures { result ≡ spec.is_legal position.now mv.now }
{
    if goes_en_passant(position, mv) {
        return is_step_of_kind(position, mv, StepKind::EnPassant)
            && position.is_safe_after(mv, StepKind::EnPassant);
    }
    is_pawn_step(position, mv) && position.is_safe_after(mv, StepKind::Plain)
}

// Whether the move is legal, whatever is on its origin. It is called for a king's moves alone.
#[tactic(auto, using(crate::proofs::moves::PlainStepAttacks::none_unless_step))]
#[inline(never)]
fn is_legal_for_king(position: &Position, mv: &Move) -> bool
    ensures { result ≡ spec.is_legal position.now mv.now }
{
    let step_kind = kind_of_step(position, mv);
    is_step_of_kind(position, mv, step_kind) && position.is_safe_after(mv, step_kind)
}

/// Returns whether the king of the side to move is in check. (FIDE Laws 3.9.1)
pub fn in_check(position: &Position) -> bool
    ensures { result ≡ spec.is_check position.now }
{
    position.is_checked()
}

/// Returns whether the side to move has a legal move. (FIDE Laws 1.4, 5.1.1, 5.2.1)
///
/// Without one it is mated or stalemated. This counts the pairs that it tries: at most 1,024, and
/// the count must have room for as many. If no move is legal, it counts one for each kind, each
/// target and each square that `origins` lists for them.
///
/// If a move is legal, it counts at least one pair. How many more depends on the order in which it
/// tries them, which may change.
///
/// # Examples
///
/// ```
/// use chess_rules::{Position, Probes, has_legal_move, in_check};
///
/// let position = Position::initial();
/// let mut probes = Probes::new();
/// let is_over = !has_legal_move(&position, &mut probes);
/// assert!(!is_over && !in_check(&position));
/// assert!(probes.count() <= 1024);
/// ```
pub fn has_legal_move(position: &Position, probes: &mut Probes) -> bool
    // Cargo: assert!(u32::MAX - probes.count() >= 1024,
    // "the count of Probes has room for 1,024 more")
    requires { probes.old + 1024 < 2 ^ 32 }
    ensures found { result ≡ spec.has_legal_move position.now }
    ensures most { probes.new ≤ probes.old + 1024 }
    ensures rises { probes.old ≤ probes.new }
    ensures some { result ≡ true → probes.old < probes.new }
    ensures all { result ≡ false → probes.new ≡ probes.old + pair_count position.now }
{
    position.recall_invariant();
    if has_king_step(position, probes) {
        return true;
    }
    // In check, the targets that may meet the check come first. Of the moves to the others only en
    // passant can meet it. If it cannot, their pairs are counted together, and none is tried alone.
    let first = evasion_targets(position.board(), position.side().other(), position.king());
    let others = !first;
    if has_other_move_to(position, first, probes) {
        return true;
    }
    if position.is_checked() && position.target().is_none() {
        rule_out_moves_to(position, others, probes);
        return false;
    }
    has_other_move_to(position, others, probes)
}
