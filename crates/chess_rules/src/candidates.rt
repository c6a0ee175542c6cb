//! The origins from which a piece may reach a square, seen from that square.

ghost use Rattle.std.specs.Prelude.{◌≡◌, ◌≤◌, ◌≢◌, ◌&&◌, ◌∷◌, [], AllPairs, MatchOption, false, length};
ghost use Rattle.std.specs.List.Sorted.{IsPermutation};
ghost use Rattle.arrayvec.specs.ArrayVec.{array_vec_len};
ghost use Rattle.chess_rules.specs.Candidate.{candidates, lone};
ghost use Rattle.chess_rules.specs.Reach.{may_see};
ghost use Rattle.chess_rules.specs.Step.{own};
ghost use Rattle.chess_rules.specs.Words.{Places, members};

use crate::attack::{clear_among, is_clear};
use crate::geometry::{aligned, knights_to};
use crate::piece::Kind;
use crate::position::Position;
use crate::square::Square;
use crate::squares::Squares;
use arrayvec::ArrayVec;
use std::marker::Model;

/// Returns the squares from which a piece of the kind, of the side to move, sees the target.
///
/// A knight sees the target from a jump away. Every other kind sees it along a rank, a file or a
/// diagonal with no piece in between, even if it does not move that way. From no other square has a
/// piece of the kind a legal move to the target. There are at most 8 squares, each once.
///
/// # Examples
///
/// ```
/// use chess_rules::{Kind, Position, Square, origins};
///
/// let f3 = Square::new(5, 2).unwrap();
/// let g1 = Square::new(6, 0).unwrap();
/// assert_eq!(origins(&Position::initial(), Kind::Knight, f3).as_slice(), [g1]);
/// ```
pub fn origins(position: &Position, kind: Kind, target: Square) -> ArrayVec<Square, 8>
    ensures exactly { IsPermutation (candidates position.now kind target) result.items }
    ensures once { AllPairs ◌≢◌ result.items }
    ensures few { array_vec_len result ≤ 8 }
{
    target.recall_invariant();
    let mut origins = ArrayVec::new();
    let mut left = origin_set(position, kind, target);
    while let Some(origin) = left.take_lowest() {
        origins.push(origin);
    }
    origins
}

/// A search for the squares that [`origins`] lists.
///
/// [`OriginSearch::next`] gives one after another, each once. It looks only then for a piece in
/// between, and stores no list. So it is cheaper than `origins`.
///
/// # Examples
///
/// ```
/// use chess_rules::{Kind, OriginSearch, Position, Square};
///
/// let f3 = Square::new(5, 2).unwrap();
/// let position = Position::initial();
/// let mut origins = OriginSearch::new(&position, Kind::Knight, f3);
/// assert_eq!(origins.next(), Square::new(6, 0));
/// assert_eq!(origins.next(), None);
/// ```
#[derive(Drop)]
pub struct OriginSearch<'a> {
    position: &'a Position,
    target: Square,
    // Those still to come, and others from which a piece in between hides the target.
    left: Squares,
}

impl<'a> Model for OriginSearch<'a> {
    ghost use Rattle.std.specs.Prelude.{List, filter};
    ghost use Rattle.chess_rules.specs.Attacks.{is_clear};
    ghost use Rattle.chess_rules.specs.Square.{Square};
    ghost use Rattle.chess_rules.specs.Words.{members};

    ghost Value = { List Square };

    ghost view = { λ o. filter (λ s. is_clear o.position.now.board s o.target) (members o.left) };
}

impl<'a> OriginSearch<'a> {
    /// Returns all squares that `origins` lists for the kind and the target.
    #[inline(always)]
    pub fn new(position: &'a Position, kind: Kind, target: Square) -> Self
        ensures all { result ≡ candidates position.now kind target }
        ensures few { length result ≤ 8 }
    {
        target.recall_invariant();
        OriginSearch {
            position,
            target,
            left: possible_origins(position, kind, target),
        }
    }

    /// Returns the next square, or `None` if none is left. The order is a1, b1 to h8.
    #[inline(always)]
    pub fn next(&mut self) -> Option<Square>
        ensures { MatchOption result ((self.old ≡ []) × (self.new ≡ []))
            (λ origin. self.old ≡ origin ∷ self.new) }
    {
        let position = self.position;
        let target = self.target;
        while let Some(origin) = self.left.take_lowest() {
            if is_clear(position.board(), origin, target) {
                return Some(origin);
            }
        }
        None
    }
}

/// Returns the one square that `origins` lists, or `None` if it lists none or several.
///
/// For most moves the kind has one origin, and this is then cheaper than `origins`.
pub fn only_origin(position: &Position, kind: Kind, target: Square) -> Option<Square>
    ensures { result ≡ lone (candidates position.now kind target) }
{
    origin_set(position, kind, target).only()
}

// The squares from which a piece of the kind sees the target, as a set.
fn origin_set(position: &Position, kind: Kind, target: Square) -> Squares
    ensures { members result ≡ candidates position.now kind target }
{
    let possible = possible_origins(position, kind, target);
    match kind {
        Kind::Knight => possible,
        _ => clear_among(position.board(), possible, target),
    }
}

// The squares from which a piece of the kind sees the target if all squares between are empty.
#[tactic(auto, using(crate::proofs::trying::SetsToPairs::own_places))]
fn possible_origins(position: &Position, kind: Kind, target: Square) -> Squares
    ensures { Places result (λ s. own position.now kind s && may_see kind s target) }
{
    let own = position.board().pieces(position.side(), kind);
    match kind {
        Kind::Knight => own & knights_to(target),
        _ => own & aligned(target),
    }
}

/// Returns `false` only if `origins` lists at most one square for the kind and the target.
///
/// `true` decides nothing: there may be one origin or none. Pieces in between are ignored. This is
/// cheaper than `origins`, and for most moves it already says that no other piece can go there.
pub fn may_have_two_origins(position: &Position, kind: Kind, target: Square) -> bool
    ensures { result ≡ false → length (candidates position.now kind target) ≤ 1 }
{
    possible_origins(position, kind, target).only().is_none()
}
