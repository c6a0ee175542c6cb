//! From which squares a form's move is a step (pseudo-legal move), and from which it is legal.

ghost use Rattle.std.specs.Prelude.{◌≡◌, ◌+◌, ◌<◌, ◌≤◌, ◌^◌, IsTrue, is_some};
ghost use Rattle.chess_rules.specs.Board.{cell_of};
ghost use Rattle.chess_rules.specs.Step.{step};
ghost use Rattle.chess_text.specs.FormOrigins as spec;
ghost use Rattle.chess_text.specs.MoveOfForm.{describes as is_described, form_pairs};

use crate::form::Form;
use crate::resolution::{Hints, castling_move, has_own, is_castling};
use chess_rules::laws::steps_are_from_candidates;
use chess_rules::{Colour, Kind, Move, Position, Probes, Square, is_step, origins, try_pair};

/// What the rules say of a form's move from one square.
#[derive(Clone, Copy, PartialEq, Eq, Debug)]
pub enum OriginKind {
    /// No step (pseudo-legal move) from the square agrees with the form.
    NoStep,
    /// A step from the square agrees with the form, but its king would be in check.
    Unsafe,
    /// A legal move from the square agrees with the form.
    Legal,
}

impl Form {
    /// Returns the kind of the piece that moves. For castling that is the king.
    pub fn kind(&self) -> Kind
        ensures { result ≡ spec.kind_of_form self.now }
    {
        match *self {
            Form::Castle { .. } => Kind::King,
            Form::Man { kind, .. } => kind,
        }
    }

    /// Returns the target of the move if this side is to move. For castling that is the king's.
    pub fn target(&self, side: Colour) -> Square
        ensures { result ≡ spec.target_of_form side self.now }
    {
        match *self {
            Form::Castle { long } => castling_move(side, long).to,
            Form::Man { to, .. } => to,
        }
    }
}

/// Says of each square whether the form's move is a step from there, and whether it is legal. (FIDE
/// Laws 3.1 to 3.10; PGN 8.2.3)
///
/// This explains a form that `resolve` rejects. The squares come from a1, b1 to h8: the kind of a
/// square is at `8 * rank + file`. A step agrees with the form by the rules of `resolve`: by kind,
/// target, promotion, and the origin's file and rank. So castling agrees with its own form alone.
///
/// `resolve` returns a move exactly if one square is `Legal`. The law
/// [`legal_origins_decide`](crate::laws::legal_origins_decide) says so.
///
/// This counts the pairs that it tries: one for castling, and for another form one for each member
/// of `origins`. From no other square is the form's move a step. The count must have room for 8.
///
/// # Examples
///
/// Both knights can step to e2, but the one on c3 is pinned:
///
/// ```
/// use chess_rules::Probes;
/// use chess_text::{OriginKind, origins_of_form, read_fen, read_form};
///
/// let position = read_fen(b"4k3/8/8/8/1b6/2N5/8/4K1N1 w - - 0 1").unwrap();
/// let form = read_form(b"Ne2").unwrap();
/// let kinds = origins_of_form(&position, &form, &mut Probes::new());
/// assert_eq!(kinds[6], OriginKind::Legal);
/// assert_eq!(kinds[8 * 2 + 2], OriginKind::Unsafe);
/// assert_eq!(kinds[4], OriginKind::NoStep);
/// ```
pub fn origins_of_form(position: &Position, form: &Form, probes: &mut Probes) -> [OriginKind; 64]
    // Cargo: assert!(u32::MAX - probes.count() >= 8, "the count of Probes has room for 8 more")
    requires { probes.old + 8 < 2 ^ 32 }
    ensures kinds { result ≡ spec.origins_of_form position.now form.now }
    ensures count { probes.new ≡ probes.old + form_pairs position.now form.now }
    ensures most { probes.new ≤ probes.old + 8 }
{
    steps_are_from_candidates();
    let mut kinds = [OriginKind::NoStep; 64];
    match *form {
        Form::Castle { long } => {
            let origin = castling_move(position.side(), long).from;
            kinds[place(origin)] = origin_kind(position, form, origin, probes);
        }
        Form::Man { kind, to, .. } => {
            let origins = origins(position, kind, to);
            for origin in origins.as_slice() {
                kinds[place(*origin)] = origin_kind(position, form, *origin, probes);
            }
        }
    }
    kinds
}

// The place of the square among all, rank by rank from a1.
fn place(square: Square) -> usize
    ensures value { result ≡ cell_of square }
    ensures below { result < 64 }
    ensures again { spec.nth_square result ≡ square }
{
    8 * square.rank() as usize + square.file() as usize
}

// What the rules say of the form's move from the square.
fn origin_kind(position: &Position, form: &Form, origin: Square, probes: &mut Probes) -> OriginKind
    requires { probes.old + 1 < 2 ^ 32 }
    ensures kind { result ≡ spec.origin_kind position.now form.now origin }
    ensures count { probes.new ≡ probes.old + 1 }
{
    let mv = form_move(position.side(), form, origin);
    if try_pair(position, mv, probes).is_some() {
        return if describes(position, form, &mv) {
            OriginKind::Legal
        } else {
            OriginKind::NoStep
        };
    }
    if is_step(position, &mv) && describes(position, form, &mv) {
        OriginKind::Unsafe
    } else {
        OriginKind::NoStep
    }
}

// The form's move from the square.
fn form_move(side: Colour, form: &Form, origin: Square) -> Move
    ensures { result ≡ spec.form_move side form.now origin }
{
    let promotion = match *form {
        Form::Castle { .. } => None,
        Form::Man { promotion, .. } => promotion,
    };
    Move {
        from: origin,
        to: form.target(side),
        promotion,
    }
}

// Whether the form says this of its move, which is a step.
#[tactic(auto, using(crate::proofs::forms::CastlingMoves::described))]
fn describes(position: &Position, form: &Form, mv: &Move) -> bool
    requires mv { mv.now ≡ spec.form_move position.now.side form.now mv.now.from }
    requires step { IsTrue (is_some (step position.now mv.now)) }
    ensures { result ≡ is_described position.now form.now mv.now }
{
    match *form {
        Form::Castle { .. } => is_castling(position, mv),
        Form::Man {
            kind,
            file,
            rank,
            ..
        } => {
            has_own(position, kind, mv.from)
                && Hints { file, rank }.fit(mv.from)
                && !is_castling(position, mv)
        }
    }
}
