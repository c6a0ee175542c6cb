//! One step (pseudo-legal move) of the side to move: its kind, its rules, and the board after it.

ghost use Rattle.std.specs.Prelude.{◌≡◌, ◌≢◌, ◌<◌, ◌||◌, IsTrue, None, Some, false, is_some, true};
ghost use Rattle.chess_rules.specs.Board.{at, has_colour};
ghost use Rattle.chess_rules.specs.Codes.{code_of};
ghost use Rattle.chess_rules.specs.Legal.{legal};
ghost use Rattle.chess_rules.specs.Step as spec;
ghost use Rattle.chess_rules.specs.StepKinds as step_kinds;
ghost use Rattle.chess_rules.specs.declared.piece.Kind.TheVariants.{Pawn};
ghost use Rattle.chess_rules.specs.declared.step.StepKind.TheVariants.{EnPassant, Plain};

use crate::attack::{is_attacked, is_clear};
use crate::board::{Board, PAWN_CODE};
use crate::geometry::{origins_by_code, pawns_to};
use crate::piece::{Colour, Kind, Piece, Promotion, rank_from};
use crate::position::{Move, Position};
use crate::square::Square;

// The kinds of steps, by what they do to the board.
#[derive(Clone, Copy)]
pub(crate) enum StepKind {
    // One piece goes to the target, where a pawn may become another piece.
    Plain,
    // A pawn goes to the en passant target, and captures the pawn beside its origin.
    EnPassant,
    // The king goes two files, and the rook of the h file to the square that the king crosses.
    ShortCastling,
    // The same, with the rook of the a file.
    LongCastling,
}

// The square that the move crosses, if it is a double step.
pub(crate) fn crossed(mv: &Move) -> Square
    ensures { result ≡ spec.crossed mv.now }
{
    Square::on(mv.from.file(), (mv.from.rank() + mv.to.rank()) / 2)
}

// Whether the move is a double step, if a pawn of the side to move makes it. (FIDE Laws 3.7.2)
#[inline(always)]
pub(crate) fn is_double_step(position: &Position, mv: &Move) -> bool
    ensures { result ≡ spec.is_double_step position.now mv.now }
{
    let board = position.board();
    let side = position.side();
    mv.from.file() == mv.to.file()
        && mv.from.rank() == rank_from(side, 1)
        && mv.to.rank() == rank_from(side, 3)
        && board.is_empty(crossed(mv))
        && board.is_empty(mv.to)
}

// Whether the move names a promotion exactly if it ends on the last rank. (FIDE Laws 3.7.3.3)
fn promotion_fits(position: &Position, mv: &Move) -> bool
    ensures { result ≡ spec.promotion_fits position.now mv.now }
{
    (mv.to.rank() == rank_from(position.side(), 7)) == mv.promotion.is_some()
}

// The square of the pawn that is captured en passant.
fn captured_pawn(mv: &Move) -> Square
    ensures { result ≡ spec.captured_pawn mv.now }
{
    Square::on(mv.to.file(), mv.from.rank())
}

// The square of this file on the home rank of the side to move.
fn home(position: &Position, file: u8) -> Square
    requires { file < 8 }
    ensures { result ≡ spec.home position.now file }
{
    Square::on(file, rank_from(position.side(), 0))
}

// The castling rights of the side to move, short and long.
fn own_rights(position: &Position) -> (bool, bool)
    ensures short { result.0 ≡ spec.short_right position.now.side position.now.rights }
    ensures long { result.1 ≡ spec.long_right position.now.side position.now.rights }
{
    let rights = position.rights();
    match position.side() {
        Colour::White => (rights.white_short, rights.white_long),
        Colour::Black => (rights.black_short, rights.black_long),
    }
}

// Whether the other side does not attack `home(position, file)`.
fn is_unattacked(position: &Position, file: u8) -> bool
    requires { file < 8 }
    ensures { result ≡ spec.is_unattacked position.now file }
{
    let by = position.side().other();
    !is_attacked(position.board(), by, home(position, file))
}

// Whether the side has the `right` to castle on this wing, and the move does so. (FIDE Laws 3.8.2)
// `wing` has the files of the rook, of the king's target, and of the square that the king crosses.
fn castles(position: &Position, mv: &Move, right: bool, wing: (u8, u8, u8)) -> bool
    requires rook { wing.0 < 8 }
    requires end { wing.1 < 8 }
    requires crossing { wing.2 < 8 }
    ensures { result ≡ spec.castles position.now mv.now right
        (record { rook = wing.0; end = wing.1; crossing = wing.2 }) }
{
    let board = position.board();
    let side = position.side();
    let (rook_file, end, crossing) = wing;
    let king = home(position, 4);
    let rook = home(position, rook_file);
    right
        && mv.promotion.is_none()
        && mv.from.is(king)
        && mv.to.is(home(position, end))
        && board.has_piece(king, side, Kind::King)
        && board.has_piece(rook, side, Kind::Rook)
        && is_clear(board, king, rook)
        && is_unattacked(position, 4)
        && is_unattacked(position, crossing)
        && is_unattacked(position, end)
}

fn kind_of(promotion: Promotion) -> Kind
    ensures { result ≡ spec.kind_of promotion }
{
    match promotion {
        Promotion::Queen => Kind::Queen,
        Promotion::Rook => Kind::Rook,
        Promotion::Bishop => Kind::Bishop,
        Promotion::Knight => Kind::Knight,
    }
}

// The kind of step that the move is, if it is a step. This does not test whether it is one.
#[tactic(auto, using(crate::proofs::moves::kings), unfolding(crate::specs::StepKinds::step_kind))]
pub(crate) fn kind_of_step(position: &Position, mv: &Move) -> StepKind
    ensures { step_kinds.IsKindOfStep result position.now mv.now }
{
    position.recall_invariant();
    mv.from.recall_invariant();
    mv.to.recall_invariant();
    let board = position.board();
    if mv.from.is(position.king()) && mv.from.file().abs_diff(mv.to.file()) > 1 {
        if mv.to.file() == 6 {
            return StepKind::ShortCastling;
        }
        return StepKind::LongCastling;
    }
    match position.target() {
        Some(target)
            if target.is(mv.to)
                && board.has_piece(mv.from, position.side(), Kind::Pawn)
                && mv.from.file() != mv.to.file()
                && board.is_empty(mv.to) => StepKind::EnPassant,
        _ => StepKind::Plain,
    }
}

// Whether the move is en passant, if it is a step of the pawn on its origin.
#[tactic(auto, using(crate::proofs::moves::KindsOfSteps::pawn_kind))]
#[inline(always)]
pub(crate) fn goes_en_passant(position: &Position, mv: &Move) -> bool
    requires { IsTrue (spec.own position.now Pawn mv.now.from) }
    ensures passing { result ≡ true → step_kinds.IsKindOfStep EnPassant position.now mv.now }
    ensures plain { result ≡ false → step_kinds.IsKindOfStep Plain position.now mv.now }
{
    mv.from.recall_invariant();
    mv.to.recall_invariant();
    if !is_target(position, mv.to) {
        return false;
    }
    mv.from.file() != mv.to.file() && position.board().is_empty(mv.to)
}

// Whether the square is the en passant target.
fn is_target(position: &Position, square: Square) -> bool
    ensures { result ≡ spec.is_target position.now.target square }
{
    match position.target() {
        None => false,
        Some(target) => target.is(square),
    }
}

// Whether the move is a step of the pawn on the origin, except for en passant. (FIDE Laws 3.7)
#[inline(always)]
pub(crate) fn is_pawn_step(position: &Position, mv: &Move) -> bool
    requires { IsTrue (spec.own position.now Pawn mv.now.from) }
    ensures { result ≡ spec.is_pawn_step position.now mv.now }
{
    let board = position.board();
    let side = position.side();
    if !promotion_fits(position, mv) {
        return false;
    }
    if mv.from.file() != mv.to.file() {
        return pawns_to(side, mv.to).has(mv.from) && board.has_colour(mv.to, side.other());
    }
    let is_ahead = rank_from(side, mv.to.rank()) == rank_from(side, mv.from.rank()) + 1;
    is_ahead && board.is_empty(mv.to) || is_double_step(position, mv)
}

// Whether the move is a step of the piece on the origin, except for castling. The piece has this
// code, is of the side to move, and is no pawn. (FIDE Laws 3.2 to 3.6, 3.8.1)
#[tactic(auto, using(crate::proofs::moves::codes))]
#[inline(always)]
pub(crate) fn is_piece_step(position: &Position, mv: &Move, code: usize) -> bool
    requires own { IsTrue (has_colour position.now.side (at position.now.board mv.now.from)) }
    requires code { code ≡ code_of (at position.now.board mv.now.from) }
    requires no_pawn { code ≢ 4 }
    ensures { result ≡ spec.is_piece_step position.now mv.now }
{
    if mv.promotion.is_some() {
        return false;
    }
    let board = position.board();
    if board.has_colour(mv.to, position.side()) {
        return false;
    }
    origins_by_code(code, mv.to).has(mv.from) && is_clear(board, mv.from, mv.to)
}

// Whether the move is a step, but neither en passant nor castling.
#[tactic(auto, using(crate::proofs::moves::codes))]
#[inline(always)]
fn is_plain_step(position: &Position, mv: &Move) -> bool
    ensures { result
        ≡ (spec.is_piece_step position.now mv.now || spec.is_pawn_step position.now mv.now) }
{
    let board = position.board();
    if !board.has_colour(mv.from, position.side()) {
        return false;
    }
    let code = board.code_at(mv.from);
    if code == PAWN_CODE {
        return is_pawn_step(position, mv);
    }
    is_piece_step(position, mv, code)
}

/// Returns whether a move that is not legal is a step (pseudo-legal move). (FIDE Laws 3.1 to 3.8)
///
/// It explains why [`try_pair`](crate::try_pair) returned `None`: a step then leaves its king in
/// check. The move must not be legal: this does not test it, and counts no pair. So of the calls
/// that take a move, [`try_pair`](crate::try_pair) alone tells whether it is legal.
///
/// A piece of the side to move is on the origin, and the rules of movement let it go to the target,
/// with this promotion or without one. Castling is a step only if the other side attacks none of
/// the squares that the king leaves, crosses and reaches (FIDE Laws 3.8.2.2).
///
/// # Examples
///
/// After 1. e4 f6 2. Qh5+ the move a6 is a step, but it leaves the king in check:
///
/// ```
/// use chess_rules::{Move, Position, Probes, Square, is_step, try_pair};
///
/// let square = |file, rank| Square::new(file, rank).unwrap();
/// let mv = |from, to| Move { from, to, promotion: None };
/// let mut probes = Probes::new();
/// let mut position = Position::initial();
/// let e4 = mv(square(4, 1), square(4, 3));
/// let f6 = mv(square(5, 6), square(5, 5));
/// let queen_h5 = mv(square(3, 0), square(7, 4));
/// for mv in [e4, f6, queen_h5] {
///     position = try_pair(&position, mv, &mut probes).unwrap();
/// }
/// let a6 = mv(square(0, 6), square(0, 5));
/// assert!(try_pair(&position, a6, &mut probes).is_none());
/// assert!(is_step(&position, &a6));
/// ```
pub fn is_step(position: &Position, mv: &Move) -> bool
    // Cargo: assert!(crate::try_pair(position, *mv, &mut crate::Probes::new()).is_none(),
    // "is_step takes a move that is not legal")
    requires { legal position.now mv.now ≡ None }
    ensures { result ≡ is_some (spec.step position.now mv.now) }
{
    is_step_of_kind(position, mv, kind_of_step(position, mv))
}

// Whether the move is a step, by the rules of its kind.
#[inline(always)]
pub(crate) fn is_step_of_kind(position: &Position, mv: &Move, step_kind: StepKind) -> bool
    requires { step_kinds.IsKindOfStep step_kind position.now mv.now }
    ensures { result ≡ is_some (spec.board_after position.now mv.now) }
{
    let board = position.board();
    let side = position.side();
    match step_kind {
        StepKind::Plain => is_plain_step(position, mv),
        StepKind::EnPassant => {
            promotion_fits(position, mv)
                && pawns_to(side, mv.to).has(mv.from)
                && board.has_piece(captured_pawn(mv), side.other(), Kind::Pawn)
        }
        StepKind::ShortCastling => castles(position, mv, own_rights(position).0, (7, 6, 5)),
        StepKind::LongCastling => castles(position, mv, own_rights(position).1, (0, 2, 3)),
    }
}

// The board after a step of this kind. This does not test whether the move is a step.
//
// Everything that writes to the board is inlined here. So the compiler sees that a test of legality
// writes to nothing else, and drops the test if its result is unused.
#[inline(always)]
pub(crate) fn board_after(position: &Position, mv: &Move, step_kind: StepKind) -> Board
    requires kind { step_kinds.IsKindOfStep step_kind position.now mv.now }
    requires step { IsTrue (is_some (spec.board_after position.now mv.now)) }
    ensures { spec.board_after position.now mv.now ≡ Some result }
{
    let mut board = *position.board();
    match mv.promotion {
        None => board.move_piece(mv.from, mv.to),
        Some(promotion) => {
            let colour = position.side();
            let kind = kind_of(promotion);
            board.put(mv.from, None);
            board.put(mv.to, Some(Piece { colour, kind }));
        }
    }
    match step_kind {
        StepKind::Plain => {}
        StepKind::EnPassant => board.put(captured_pawn(mv), None),
        StepKind::ShortCastling => board.move_piece(home(position, 7), home(position, 5)),
        StepKind::LongCastling => board.move_piece(home(position, 0), home(position, 3)),
    }
    board
}
