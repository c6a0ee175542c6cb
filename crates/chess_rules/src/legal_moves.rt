//! All legal moves of a position, one after another.

ghost use Rattle.std.specs.Prelude.{◌≡◌, ◌≢◌, ◌+◌, ◌<◌, ◌≤◌, ◌^◌, ◌∷◌, ◌↔◌, [], AllPairs, Contains, IsSome, MatchOption, None, Some, map};
ghost use Rattle.chess_rules.specs.Board.{at, has_colour};
ghost use Rattle.chess_rules.specs.Legal.{legal};
ghost use Rattle.chess_rules.specs.LegalMoves.{legal_moves, played};
ghost use Rattle.chess_rules.specs.Tries as spec;
ghost use Rattle.chess_rules.specs.Words.{Places};
ghost use Rattle.chess_rules.specs.declared.position.Move.{Move};
ghost use Rattle.chess_rules.specs.declared.position.Parts.{Parts};

use crate::attack::seen_from;
use crate::geometry::knights_to;
use crate::legal::try_pair;
use crate::pairs::one_move;
use crate::piece::{Kind, Promotion};
use crate::position::{Move, Played, Position};
use crate::probes::Probes;
use crate::square::Square;
use crate::squares::Squares;
use std::marker::Model;

/// The legal moves of a position that are still to come. (FIDE Laws 3.10.1)
///
/// [`LegalMoves::next`] gives one after another, each once. No order is promised.
///
/// # Examples
///
/// ```
/// use chess_rules::{LegalMoves, Position, Probes};
///
/// let position = Position::initial();
/// let mut moves = LegalMoves::new(&position);
/// let mut probes = Probes::new();
/// let mut count = 0;
/// while let Some(played) = moves.next(&mut probes) {
///     assert_ne!(played.mv.from, played.mv.to);
///     count += 1;
/// }
/// assert_eq!(count, 20);
/// ```
#[derive(Drop)]
pub struct LegalMoves<'a> {
    position: &'a Position,
    tries: Tries,
}

// The moves that are still to be tried.
#[derive(Clone, Copy)]
pub(crate) struct Tries {
    // The next move of the current pair of squares, if one is left.
    pub(crate) pending: Option<Move>,
    // The current origin, and those of its targets that are still to come.
    pub(crate) origin: Square,
    pub(crate) targets: Squares,
    // The origins that are still to come.
    pub(crate) origins: Squares,
}

impl<'a> Model for LegalMoves<'a> {
    ghost use Rattle.std.specs.Prelude.{List, ◌≤◌, length};
    ghost use Rattle.chess_rules.specs.declared.position.Played.{Played};
    ghost use Rattle.chess_rules.specs.LegalMoves.{legal_among};
    ghost use Rattle.chess_rules.specs.Tries.{tries_left};

    ghost Value = { List Played };

    ghost view = { λ l. legal_among l.position.now (tries_left l.position.now l.tries) };

    ghost invariant = { λ l. length (tries_left l.position.now l.tries) ≤ 4096 };
}

impl<'a> LegalMoves<'a> {
    /// Returns all legal moves of the position. None is tried yet.
    pub fn new(position: &'a Position) -> Self
        ensures moves { result ≡ legal_moves position.now }
        ensures once { AllPairs ◌≢◌ (map (λ played. played.mv) result) }
        ensures exactly { (mv : Move) (next : Parts) → (legal position.now mv ≡ Some next)
            ↔ Contains result (record { mv = mv; next = next }) }
    {
        position.recall_invariant();
        LegalMoves {
            position,
            tries: Tries::new(position),
        }
    }

    /// Returns the next legal move with the position after it, or `None` if none is left.
    ///
    /// This counts the moves that it tries, until one is legal: at most 4,096, and the count must
    /// have room for as many. Each is a call of [`try_pair`], so that a pair with the four
    /// promotions counts four. How many it tries depends on the order, which may change.
    pub fn next(&mut self, probes: &mut Probes) -> Option<Played>
        // Cargo: assert!(u32::MAX - probes.count() >= 4096,
        // "the count of Probes has room for 4,096 more")
        requires { probes.old + 4096 < 2 ^ 32 }
        ensures next { MatchOption result ((self.old ≡ []) × (self.new ≡ []))
            (λ played. self.old ≡ played ∷ self.new) }
        ensures most { probes.new ≤ probes.old + 4096 }
        ensures rises { probes.old ≤ probes.new }
        ensures some { IsSome result → probes.old < probes.new }
    {
        let position = self.position;
        while let Some(mv) = self.tries.take_next(position) {
            if let Some(played) = play_if_legal(position, &mv, probes) {
                return Some(played);
            }
        }
        None
    }
}

// The move with the position after it, if it is legal. This counts one try.
fn play_if_legal(position: &Position, mv: &Move, probes: &mut Probes) -> Option<Played>
    requires { probes.old + 1 < 2 ^ 32 }
    ensures played { result ≡ played position.now mv.now }
    ensures count { probes.new ≡ probes.old + 1 }
{
    let next = try_pair(position, *mv, probes)?;
    Some(Played { mv: *mv, next })
}

impl Tries {
    // All moves that are tried in the position.
    fn new(position: &Position) -> Tries
        ensures pending { result.pending ≡ None }
        ensures targets { result.targets ≡ 0 }
        ensures origins { Places result.origins
            (λ s. has_colour position.now.side (at position.now.board s)) }
    {
        Tries {
            pending: None,
            origin: position.king(),
            targets: Squares::of_bits(0),
            origins: position.board().of_colour(position.side()),
        }
    }

    // Removes and returns the next move, if there is one.
    fn take_next(&mut self, position: &Position) -> Option<Move>
        ensures { MatchOption result
            ((spec.tries_left position.now self.old ≡ [])
            × (spec.tries_left position.now self.new ≡ []))
            (λ mv. spec.tries_left position.now self.old
            ≡ mv ∷ spec.tries_left position.now self.new) }
    {
        if let Some(mv) = self.pending {
            self.pending = later(&mv);
            return Some(mv);
        }
        loop {
            let mut targets = self.targets;
            if let Some(target) = targets.take_lowest() {
                let mv = one_move(position, self.origin, target);
                self.targets = targets;
                self.pending = later(&mv);
                return Some(mv);
            }
            let mut origins = self.origins;
            let Some(origin) = origins.take_lowest() else {
                return None;
            };
            self.origins = origins;
            self.origin = origin;
            self.targets = targets_of(position, origin);
        }
    }
}

// The move of the same pair that is tried after this one: the same pawn becomes another piece.
fn later(mv: &Move) -> Option<Move>
    ensures { spec.with_later mv.now ≡ mv.now ∷ spec.pending_tries result }
{
    let promotion = match mv.promotion {
        None | Some(Promotion::Knight) => return None,
        Some(Promotion::Queen) => Promotion::Rook,
        Some(Promotion::Rook) => Promotion::Bishop,
        Some(Promotion::Bishop) => Promotion::Knight,
    };
    Some(Move {
        from: mv.from,
        to: mv.to,
        promotion: Some(promotion),
    })
}

// The squares on which the piece of the origin is tried.
fn targets_of(position: &Position, origin: Square) -> Squares
    ensures { Places result (spec.is_tried position.now origin) }
{
    let board = position.board();
    let free = !board.of_colour(position.side());
    if board.has_piece(origin, position.side(), Kind::Knight) {
        return knights_to(origin) & free;
    }
    seen_from(board, origin) & free
}
