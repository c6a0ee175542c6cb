//! The move that a form names in a position. (PGN 8.2.3)

ghost use Rattle.std.specs.Prelude.{◌≡◌, ◌≢◌, ◌+◌, ◌<◌, ◌≤◌, ◌^◌, ◌&&◌, Err, IsTrue, Some, length};
ghost use Rattle.std.specs.Prelude.{IfOk, is_some};
ghost use Rattle.chess_rules.specs.Candidate.{candidates};
ghost use Rattle.chess_rules.specs.Legal.{is_legal, legal};
ghost use Rattle.chess_rules.specs.Step.{own, step};
ghost use Rattle.chess_text.specs.declared.form.Form.TheVariants.{Castle, Man};
ghost use Rattle.chess_text.specs.declared.resolution.SanFault.TheVariants.{Ambiguous};
ghost use Rattle.chess_text.specs.MoveOfForm as spec;
ghost use Rattle.chess_text.specs.San.{disambiguation_pairs};

use crate::form::Form;
use chess_rules::laws::candidates_are_complete;
use chess_rules::{
    Colour, Kind, Move, OriginSearch, Played, Position, Probes, Promotion, Square, position_after,
    try_pair,
};

/// Why a form names no single move.
#[derive(Clone, Copy, PartialEq, Eq, Debug)]
pub enum SanFault {
    /// No legal move agrees with the form.
    NoMove,
    /// Two or more legal moves agree with the form.
    Ambiguous,
}

/// Returns the one legal move that agrees with the form, and the position after it. (PGN 8.2.3)
///
/// A legal move agrees if it has the kind, the target and the promotion of the form. Its origin has
/// to be on the file and the rank that the form gives. Castling agrees with the form of that
/// castling and with no other.
///
/// This counts the pairs that it tries, also on an error. That is one for castling, and for another
/// form one for each member of `origins`, also if a hint rules it out. If two moves agree, it is at
/// least two of them. It is at most 8, and the count must have room for 8.
///
/// # Errors
///
/// - `NoMove` exactly if no legal move agrees.
/// - `Ambiguous` exactly if two or more agree.
///
/// # Examples
///
/// ```
/// use chess_rules::{Position, Probes, Square};
/// use chess_text::{SanFault, read_form, resolve};
///
/// let position = Position::initial();
/// let mut probes = Probes::new();
/// let form = read_form(b"Nf3").unwrap();
/// let played = resolve(&position, &form, &mut probes).unwrap();
/// assert_eq!(played.mv.from, Square::new(6, 0).unwrap());
/// let form = read_form(b"Nd2").unwrap();
/// assert_eq!(resolve(&position, &form, &mut probes).err(), Some(SanFault::NoMove));
/// ```
pub fn resolve(position: &Position, form: &Form, probes: &mut Probes) -> Result<Played, SanFault>
    // Cargo: asserted in resolve_move
    requires { probes.old + 8 < 2 ^ 32 }
    ensures answer { result ≡ spec.move_of_form position.now form.now }
    ensures pairs { spec.CountsPairs (spec.form_pairs position.now form.now) result probes.old
        probes.new }
{
    match resolve_move(position, form, probes) {
        Err(fault) => Err(fault),
        Ok(mv) => Ok(play(position, mv)),
    }
}

/// Returns the one legal move that agrees with the form. (PGN 8.2.3)
///
/// It does what `resolve` does, without the position after the move. What `resolve` says of the
/// count holds here too. To find a move it tries at least as many pairs as `write_san` does for it
/// before the mark.
///
/// # Errors
///
/// Those of `resolve`.
pub fn resolve_move(position: &Position, form: &Form, probes: &mut Probes) -> Result<Move, SanFault>
    // Cargo: assert!(u32::MAX - probes.count() >= 8, "the count of Probes has room for 8 more")
    requires { probes.old + 8 < 2 ^ 32 }
    ensures answer { spec.with_next_position position.now result
        ≡ spec.move_of_form position.now form.now }
    ensures legal { IfOk result (λ mv. IsTrue (is_legal position.now mv)) }
    ensures pairs { spec.CountsPairs (spec.form_pairs position.now form.now) result probes.old
        probes.new }
    ensures candidates { IfOk result (λ mv. disambiguation_pairs position.now mv
        ≤ spec.form_pairs position.now form.now) }
{
    match *form {
        Form::Castle { long } => resolve_castling(position, long, probes),
        Form::Man {
            kind,
            file,
            rank,
            to,
            promotion,
        } => resolve_by_kind(position, kind, Hints { file, rank }, to, promotion, probes),
    }
}

// The king's move of castling. (PGN 8.2.3.3)
pub(crate) fn castling_move(side: Colour, long: bool) -> Move
    ensures { result ≡ spec.castling_move side long }
{
    let rank = match side {
        Colour::White => 0,
        Colour::Black => 7,
    };
    let file = if long { 2 } else { 6 };
    Move {
        from: Square::new(4, rank).unwrap(),
        to: Square::new(file, rank).unwrap(),
        promotion: None,
    }
}

// Whether a piece of the kind, of the side to move, is on the square.
pub(crate) fn has_own(position: &Position, kind: Kind, square: Square) -> bool
    ensures { result ≡ own position.now kind square }
{
    match position.at(square) {
        None => false,
        Some(piece) => piece.colour == position.side() && piece.kind == kind,
    }
}

// Whether the step is castling: no other takes a king further than to the next file. (FIDE Laws
// 3.8)
#[tactic(auto, using(crate::proofs::forms::CastlingMoves::castling_by_files))]
pub(crate) fn is_castling(position: &Position, mv: &Move) -> bool
    requires { IsTrue (is_some (step position.now mv.now)) }
    ensures { result ≡ spec.is_castling position.now mv.now }
{
    has_own(position, Kind::King, mv.from) && mv.from.file().abs_diff(mv.to.file()) > 1
}

// Tries the one castling.
fn resolve_castling(position: &Position, long: bool, probes: &mut Probes) -> Result<Move, SanFault>
    requires { probes.old + 1 < 2 ^ 32 }
    ensures answer { spec.with_next_position position.now result
        ≡ spec.move_of_form position.now (Castle long) }
    ensures legal { IfOk result (λ mv. IsTrue (is_legal position.now mv)) }
    ensures single { result ≢ Err Ambiguous }
    ensures count { probes.new ≡ probes.old + 1 }
{
    let mv = castling_move(position.side(), long);
    if try_pair(position, mv, probes).is_none() {
        return Err(SanFault::NoMove);
    }
    if is_castling(position, &mv) {
        Ok(mv)
    } else {
        Err(SanFault::NoMove)
    }
}

// What the text says of the origin (disambiguation).
#[derive(Clone, Copy)]
pub(crate) struct Hints {
    pub file: Option<u8>,
    pub rank: Option<u8>,
}

impl Hints {
    // Whether the hints allow this square. (PGN 8.2.3.4)
    pub(crate) fn fit(self, origin: Square) -> bool
        ensures { result ≡ spec.hints_fit self.file self.rank origin }
    {
        is_fit(self.file, origin.file()) && is_fit(self.rank, origin.rank())
    }
}

// Whether the number is the given one, if one is given.
fn is_fit(hint: Option<u8>, number: u8) -> bool
    ensures { result ≡ spec.hint_fits hint number }
{
    match hint {
        None => true,
        Some(told) => told == number,
    }
}

// Whether the move of a piece of this kind is legal, no castling, and begins where the hints allow.
#[inline(always)]
fn agrees(position: &Position, kind: Kind, hints: Hints, mv: &Move, probes: &mut Probes) -> bool
    requires kind { IsTrue (own position.now kind mv.now.from) }
    requires room { probes.old + 1 < 2 ^ 32 }
    ensures agrees { result ≡ (is_legal position.now mv.now
        && spec.piece_move_fits position.now hints.file hints.rank mv.now) }
    ensures count { probes.new ≡ probes.old + 1 }
{
    if try_pair(position, *mv, probes).is_none() {
        return false;
    }
    hints.fit(mv.from) && !(kind == Kind::King && is_castling(position, mv))
}

// The legal move, with the position after it.
pub(crate) fn play(position: &Position, mv: Move) -> Played
    requires { IsTrue (is_legal position.now mv) }
    ensures { spec.with_next mv (legal position.now mv) ≡ Some result }
{
    let next = position_after(position, &mv);
    Played { mv, next }
}

// Does what `resolve_piece_move` does: each arm is compiled for its kind.
fn resolve_by_kind(
    position: &Position,
    kind: Kind,
    hints: Hints,
    to: Square,
    promotion: Option<Promotion>,
    probes: &mut Probes,
) -> Result<Move, SanFault>
    requires { probes.old + 8 < 2 ^ 32 }
    ensures answer { spec.with_next_position position.now result
        ≡ spec.move_of_form position.now (Man kind hints.file hints.rank to promotion) }
    ensures legal { IfOk result (λ mv. IsTrue (is_legal position.now mv)) }
    ensures pairs { spec.CountsPairs (length (candidates position.now kind to)) result probes.old
        probes.new }
{
    match kind {
        Kind::Pawn => resolve_piece_move(position, Kind::Pawn, hints, to, promotion, probes),
        Kind::Knight => resolve_piece_move(position, Kind::Knight, hints, to, promotion, probes),
        Kind::Bishop => resolve_piece_move(position, Kind::Bishop, hints, to, promotion, probes),
        Kind::Rook => resolve_piece_move(position, Kind::Rook, hints, to, promotion, probes),
        Kind::Queen => resolve_piece_move(position, Kind::Queen, hints, to, promotion, probes),
        Kind::King => resolve_piece_move(position, Kind::King, hints, to, promotion, probes),
    }
}

// Tries the move from each origin, until a second one agrees.
#[inline(always)]
fn resolve_piece_move(
    position: &Position,
    kind: Kind,
    hints: Hints,
    to: Square,
    promotion: Option<Promotion>,
    probes: &mut Probes,
) -> Result<Move, SanFault>
    requires { probes.old + 8 < 2 ^ 32 }
    ensures answer { spec.with_next_position position.now result
        ≡ spec.move_of_form position.now (Man kind hints.file hints.rank to promotion) }
    ensures legal { IfOk result (λ mv. IsTrue (is_legal position.now mv)) }
    ensures pairs { spec.CountsPairs (length (candidates position.now kind to)) result probes.old
        probes.new }
{
    candidates_are_complete();
    let mut origins = OriginSearch::new(position, kind, to);
    let mut found = None;
    while let Some(origin) = origins.next() {
        let mv = Move {
            from: origin,
            to,
            promotion,
        };
        if agrees(position, kind, hints, &mv, probes) {
            if found.is_some() {
                return Err(SanFault::Ambiguous);
            }
            found = Some(mv);
        }
    }
    match found {
        None => Err(SanFault::NoMove),
        Some(mv) => Ok(mv),
    }
}
