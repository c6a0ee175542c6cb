//! Moves and positions.

ghost use Rattle.std.specs.Prelude.{◌≡◌, ◌<◌, ◌≤◌, IfSome, IsTrue, Some, is_some, length};
ghost use Rattle.chess_rules.specs.Board.{at, other};
ghost use Rattle.chess_rules.specs.Attacks.{king_attacked};
ghost use Rattle.chess_rules.specs.Position as spec;
ghost use Rattle.chess_rules.specs.RankNumbers.{rank_numbers};
ghost use Rattle.chess_rules.specs.Step as step;
ghost use Rattle.chess_rules.specs.StepKinds.{IsKindOfStep};
ghost use Rattle.chess_rules.specs.Legal.{legal, is_legal, is_check};
ghost use Rattle.chess_rules.specs.Reach.{king_square as king_square_of};

use crate::attack::is_attacked;
use crate::board::Board;
use crate::piece::{Colour, Kind, Piece, Promotion, rank_from};
use crate::square::Square;
use crate::squares::Squares;
use std::marker::Model;

/// A move: its origin, its target and what a pawn becomes.
///
/// Castling is the king's move, as e1 to g1.
#[derive(Clone, Copy, PartialEq, Eq, Debug)]
pub struct Move {
    /// The origin: the square that the piece leaves.
    pub from: Square,
    /// The target: the square that the piece goes to.
    pub to: Square,
    /// What a pawn becomes on the last rank; `None` for every other move.
    pub promotion: Option<Promotion>,
}

/// The four castling rights. (FIDE Laws 3.8.2.1)
#[derive(Clone, Copy, PartialEq, Eq, Debug)]
pub struct Rights {
    pub white_short: bool,
    pub white_long: bool,
    pub black_short: bool,
    pub black_long: bool,
}

/// The six parts of a position, as a FEN has them. (PGN 16.1.3)
#[derive(Clone, Copy, PartialEq, Eq, Debug)]
pub struct Parts {
    /// The piece on each square, from a1, b1 to h8: at `8 * rank + file`.
    pub board: [Option<Piece>; 64],
    /// The side to move.
    pub side: Colour,
    /// The castling rights.
    pub rights: Rights,
    /// The en passant target: after a pawn's double step the square that it crossed.
    pub target: Option<Square>,
    /// The halfmove clock: plies since the last pawn move or capture.
    pub half: u32,
    /// The fullmove number, which rises after each move of Black.
    pub full: u32,
}

/// Why parts are no position: the first rule that they break.
#[derive(Clone, Copy, PartialEq, Eq, Debug)]
pub enum PositionFault {
    /// A side has no king, or more than one.
    Kings,
    /// A pawn is on rank 1 or 8.
    PawnOnEdge,
    /// The side to move attacks the other king.
    KingCapturable,
    /// The en passant target is not on rank 6 with White to move, or rank 3 with Black to move.
    TargetRank,
    /// The halfmove clock or the fullmove number is above 99,999.
    NumberRange,
}

/// A position: parts that break none of the rules of `PositionFault`. (FIDE Laws 2, 3.9; PGN
/// 16.1.3)
#[derive(Clone, Copy)]
pub struct Position {
    pub(crate) board: Board,
    pub(crate) side: Colour,
    pub(crate) rights: Rights,
    pub(crate) target: Option<Square>,
    pub(crate) half: u32,
    pub(crate) full: u32,
    // The square of the king of the side to move, and of the other one.
    pub(crate) king: Square,
    pub(crate) other_king: Square,
    // Whether the king of the side to move is attacked.
    pub(crate) checked: bool,
}

impl Model for Position {
    ghost use Rattle.chess_rules.specs.declared.position.Parts.{Parts};

    ghost Value = { Parts };

    ghost use Rattle.chess_rules.specs.StoredPosition.{FitsPosition, parts_of, store_of, store_of_parts};

    ghost view = { parts_of };

    ghost invariant = { FitsPosition };

    ghost inverse = { store_of };

    ghost inverse_ok = { store_of_parts };
}

/// A legal move, and the position after it.
#[derive(Clone, Copy)]
pub struct Played {
    /// The move.
    pub mv: Move,
    /// The position after it.
    pub next: Position,
}

impl Position {
    /// Returns the usual first position. (FIDE Laws 2.3)
    pub fn initial() -> Position
        ensures { result ≡ spec.initial }
    {
        Position {
            board: Board::initial(),
            side: Colour::White,
            rights: Rights {
                white_short: true,
                white_long: true,
                black_short: true,
                black_long: true,
            },
            target: None,
            half: 0,
            full: 1,
            king: Square::nth(4),
            other_king: Square::nth(60),
            checked: false,
        }
    }

    /// Returns the position with these parts.
    ///
    /// # Errors
    ///
    /// The first rule that the parts break, in the order of `PositionFault`.
    ///
    /// # Examples
    ///
    /// ```
    /// use chess_rules::{Colour, Kind, Parts, Piece, Position, PositionFault, Rights};
    ///
    /// let no_rights = Rights {
    ///     white_short: false,
    ///     white_long: false,
    ///     black_short: false,
    ///     black_long: false,
    /// };
    /// let mut parts = Parts {
    ///     board: [None; 64],
    ///     side: Colour::White,
    ///     rights: no_rights,
    ///     target: None,
    ///     half: 0,
    ///     full: 1,
    /// };
    /// assert_eq!(Position::build(&parts).err(), Some(PositionFault::Kings));
    /// parts.board[4] = Some(Piece { colour: Colour::White, kind: Kind::King });
    /// parts.board[60] = Some(Piece { colour: Colour::Black, kind: Kind::King });
    /// assert!(Position::build(&parts).is_ok());
    /// ```
    pub fn build(parts: &Parts) -> Result<Position, PositionFault>
        ensures { result ≡ spec.built parts.now }
    {
        Position::build_on(
            Board::of(&parts.board),
            parts.side,
            parts.rights,
            parts.target,
            parts.half,
            parts.full,
        )
    }

    /// Returns the position with this board and the other five parts, as `build` does.
    ///
    /// # Errors
    ///
    /// The first rule that the parts break, in the order of `PositionFault`.
    pub fn build_on(
        board: Board,
        side: Colour,
        rights: Rights,
        target: Option<Square>,
        half: u32,
        full: u32,
    ) -> Result<Position, PositionFault>
        // No square in all three sets of kinds, and none that is black and empty.
        // Cargo: assert!((board.of_kind(Kind::King) & board.of_kind(Kind::Knight)).is_empty()
        // && (board.of_colour(Colour::Black) & !board.occupied()).is_empty(),
        // "each word of push_rank was that of a rank")
        ensures value { result ≡ spec.built (record {
          board = board;
          side = side;
          rights = rights;
          target = target;
          half = half;
          full = full;
        }) }
        ensures long { length board ≡ 64 }
    {
        board.recall_length();
        let kings = (board.king(side), board.king(side.other()));
        let (Some(king), Some(other_king)) = kings else {
            return Err(PositionFault::Kings);
        };
        if has_pawn_on_edge(&board) {
            return Err(PositionFault::PawnOnEdge);
        }
        if is_attacked(&board, side, other_king) {
            return Err(PositionFault::KingCapturable);
        }
        if !target_fits(side, &target) {
            return Err(PositionFault::TargetRank);
        }
        if half > 99_999 || full > 99_999 {
            return Err(PositionFault::NumberRange);
        }
        let checked = is_attacked(&board, side.other(), king);
        Ok(Position {
            board,
            side,
            rights,
            target,
            half,
            full,
            king,
            other_king,
            checked,
        })
    }

    // The board alone.
    pub(crate) fn board(&self) -> &Board
        ensures { result.now ≡ self.now.board }
    {
        &self.board
    }

    // By this call the caller's proof knows that the parts are a position. It has no effect.
    pub(crate) fn recall_invariant(&self)
        ensures { IsTrue (spec.is_position self.now) }
    {
        let _ = &self.board;
    }

    // The square of the king of the side to move.
    pub(crate) fn king(&self) -> Square
        ensures { result ≡ king_square_of self.now.side self.now.board }
    {
        self.king
    }

    // Whether the king of the side to move is attacked.
    pub(crate) fn is_checked(&self) -> bool
        ensures { result ≡ is_check self.now }
    {
        self.checked
    }

    /// Returns the piece on the square, if there is one.
    pub fn at(&self, square: Square) -> Option<Piece>
        ensures { result ≡ at self.now.board square }
    {
        self.board.at(square)
    }

    /// Returns what is on the squares of a rank, from 0 (1) to 7 (8), a number in each byte.
    ///
    /// The lowest byte is that of file a. A rook has 1, a bishop 2, a queen 3, a pawn 4, a knight
    /// 5, and a king 6. A black piece has 8 more. An empty square has 15 and how many empty squares
    /// in a row end with it. So a rank is written as text without a branch for each square.
    #[inline(always)]
    pub fn rank_numbers(&self, rank: u8) -> u64
        // Cargo: assert!(rank < 8, "a rank is from 0 to 7")
        requires { rank < 8 }
        ensures { result ≡ rank_numbers self.now.board rank }
    {
        self.board.rank_numbers(rank)
    }

    /// Returns the side to move.
    pub fn side(&self) -> Colour
        ensures { result ≡ self.now.side }
    {
        self.side
    }

    /// Returns the castling rights.
    pub fn rights(&self) -> Rights
        ensures { result ≡ self.now.rights }
    {
        self.rights
    }

    /// Returns the en passant target: after a pawn's double step the square that it crossed.
    pub fn target(&self) -> Option<Square>
        ensures { result ≡ self.now.target }
    {
        self.target
    }

    /// Returns the halfmove clock: plies since the last pawn move or capture, up to 99,999.
    pub fn half(&self) -> u32
        ensures value { result ≡ self.now.half }
        ensures limit { result ≤ 99999 }
    {
        self.half
    }

    /// Returns the fullmove number, which rises after each move of Black, up to 99,999.
    pub fn full(&self) -> u32
        ensures value { result ≡ self.now.full }
        ensures limit { result ≤ 99999 }
    {
        self.full
    }
}

// Whether a pawn is on rank 1 or 8.
fn has_pawn_on_edge(board: &Board) -> bool
    ensures { result ≡ spec.pawn_on_edge board.now }
{
    let edges = Squares::of_bits(0xff00_0000_0000_00ff);
    !(edges & board.of_kind(Kind::Pawn)).is_empty()
}

// Whether the target, if there is one, is on the rank that double steps of the other side cross.
fn target_fits(side: Colour, target: &Option<Square>) -> bool
    ensures { result ≡ spec.target_fits side target.now }
{
    match *target {
        None => true,
        Some(square) => {
            square.recall_invariant();
            square.rank() == rank_from(side, 5)
        }
    }
}
