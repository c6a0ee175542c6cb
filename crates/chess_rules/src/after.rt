//! The position after a step (pseudo-legal move), and whether its king is safe there.

ghost use Rattle.std.specs.Prelude.{◌≡◌, ◌<◌, IfSome, IsTrue, Some, is_some};
ghost use Rattle.chess_rules.specs.Board.{other};
ghost use Rattle.chess_rules.specs.Attacks.{king_attacked};
ghost use Rattle.chess_rules.specs.Step as step;
ghost use Rattle.chess_rules.specs.StepKinds.{IsKindOfStep};
ghost use Rattle.chess_rules.specs.Legal.{legal, is_legal};
ghost use Rattle.chess_rules.specs.Reach.{king_square as king_square_of};

use crate::attack::{attacks_from, is_attacked, is_attacked_by, sliders};
use crate::board::Board;
use crate::geometry::is_aligned;
use crate::piece::{Colour, Kind};
use crate::position::{Move, Position, Rights};
use crate::square::Square;
use crate::squares::Squares;
use crate::step::{StepKind, board_after, crossed, is_double_step};

impl Position {
    // Whether the step gives check. `board` is the board after it.
    //
    // A plain step gives check by the piece that moves, or by a rook, a bishop or a queen along a
    // line that this leaves. What gets the board by reference gets a copy of it, so that the board
    // itself stays in registers.
    #[inline(always)]
    fn gives_check(&self, mv: &Move, step_kind: StepKind, board: &Board) -> bool
        requires kind { IsKindOfStep step_kind self.now mv.now }
        requires step { step.board_after self.now mv.now ≡ Some board.now }
        ensures { result ≡ king_attacked board.now (other self.now.side) }
    {
        let king = self.other_king;
        if !matches!(step_kind, StepKind::Plain) {
            let board = *board;
            return is_attacked(&board, self.side, king);
        }
        if attacks_from(board, self.side, mv.to, king) {
            return true;
        }
        if !is_aligned(mv.from, king) {
            return false;
        }
        let board = *board;
        is_attacked_by(&board, sliders(&board, self.side, king), king)
    }

    // Whether the king of the side to move is safe after its step.
    //
    // A plain step of another piece, without check, leaves the king safe if its origin is on no
    // line with the king, or if no rook, bishop or queen would attack it on an empty board.
    pub(crate) fn is_safe_after(&self, mv: &Move, step_kind: StepKind) -> bool
        requires kind { IsKindOfStep step_kind self.now mv.now }
        requires step { IsTrue (is_some (step.board_after self.now mv.now)) }
        ensures { result ≡ is_legal self.now mv.now }
    {
        if self.checked || mv.from.is(self.king) || !matches!(step_kind, StepKind::Plain) {
            return self.is_safe_on_board(mv, step_kind);
        }
        !is_aligned(mv.from, self.king)
            || sliders(&self.board, self.side.other(), self.king).is_empty()
            || self.is_safe_on_board(mv, step_kind)
    }

    // Whether the king of the side to move is safe on the board after its step.
    #[inline(never)]
    fn is_safe_on_board(&self, mv: &Move, step_kind: StepKind) -> bool
        requires kind { IsKindOfStep step_kind self.now mv.now }
        requires step { IsTrue (is_some (step.board_after self.now mv.now)) }
        ensures { result ≡ is_legal self.now mv.now }
    {
        let board = board_after(self, mv, step_kind);
        !is_attacked(&board, self.side.other(), self.king_after(mv))
    }

    // The square of the king of the side to move after the step: the target, if the king moves.
    fn king_after(&self, mv: &Move) -> Square
        requires { IsTrue (step.is_on_board mv.now) }
        ensures { IfSome (step.board_after self.now mv.now)
            (λ board. result ≡ king_square_of self.now.side board) }
    {
        if mv.from.is(self.king) {
            mv.to
        } else {
            self.king
        }
    }

    // The position after a legal move.
    #[inline(always)]
    pub(crate) fn after(&self, mv: &Move, step_kind: StepKind) -> Position
        requires kind { IsKindOfStep step_kind self.now mv.now }
        requires legal { IsTrue (is_legal self.now mv.now) }
        ensures { Some result ≡ legal self.now mv.now }
    {
        let board = board_after(self, mv, step_kind);
        let checked = self.gives_check(mv, step_kind, &board);
        Position {
            board,
            side: self.side.other(),
            rights: rights_after(mv, self.rights),
            target: self.target_after(mv),
            half: self.half_after(mv),
            // One more after Black's move. (PGN 16.1.3.6)
            full: match self.side {
                Colour::White => self.full,
                Colour::Black => counted(self.full),
            },
            king: self.other_king,
            other_king: self.king_after(mv),
            checked,
        }
    }

    // The en passant target after the move: the square that a double step crosses. (PGN 16.1.3.4)
    #[inline(always)]
    fn target_after(&self, mv: &Move) -> Option<Square>
        ensures { result ≡ step.target_after self.now mv.now }
    {
        let is_pawn = self.board.has_piece(mv.from, self.side, Kind::Pawn);
        if is_pawn && is_double_step(self, mv) {
            Some(crossed(mv))
        } else {
            None
        }
    }

    // The halfmove clock after the move. (PGN 16.1.3.5)
    #[inline(always)]
    fn half_after(&self, mv: &Move) -> u32
        ensures { result ≡ step.half_after self.now mv.now }
    {
        if !self.board.is_empty(mv.to) || self.board.has_piece(mv.from, self.side, Kind::Pawn) {
            0
        } else {
            counted(self.half)
        }
    }
}

// One more, up to 99,999.
fn counted(number: u32) -> u32
    ensures { result ≡ step.counted number }
{
    if number < 99_999 { number + 1 } else { 99_999 }
}

// Whether the move keeps the castling right of the king of this rank and the rook of this file.
fn keeps(mv: &Move, file: u8, rank: u8) -> bool
    requires file { file < 8 }
    requires rank { rank < 8 }
    ensures { result ≡ step.keeps mv.now file rank }
{
    let king = Square::on(4, rank);
    let rook = Square::on(file, rank);
    !(mv.from.is(king) || mv.to.is(king) || mv.from.is(rook) || mv.to.is(rook))
}

// The castling rights after the move. (FIDE Laws 3.8.2.1; PGN 16.1.3.3)
#[inline(always)]
fn rights_after(mv: &Move, rights: Rights) -> Rights
    ensures { result ≡ step.rights_after mv.now rights }
{
    // The squares on which kings and rooks begin: a1, e1, h1, a8, e8, h8.
    let homes = Squares::of_bits(0x9100_0000_0000_0091);
    if !homes.has(mv.from) && !homes.has(mv.to) {
        return rights;
    }
    rights_left(mv, rights)
}

// The same, without the quick test of those squares.
#[inline(never)]
fn rights_left(mv: &Move, rights: Rights) -> Rights
    ensures { result ≡ step.rights_after mv.now rights }
{
    Rights {
        white_short: rights.white_short && keeps(mv, 7, 0),
        white_long: rights.white_long && keeps(mv, 0, 0),
        black_short: rights.black_short && keeps(mv, 7, 7),
        black_long: rights.black_long && keeps(mv, 0, 7),
    }
}
