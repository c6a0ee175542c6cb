//! The board: the piece on each of the 64 squares, in four sets of squares.

ghost use Rattle.std.specs.Prelude.{◌≡◌, ◌<◌, ◌*◌, ◌++◌, if◌then◌else◌, is_some, length, replicate, take, drop, None};
ghost use Rattle.chess_rules.specs.Board as spec;
ghost use Rattle.chess_rules.specs.Codes.{code_of};
ghost use Rattle.chess_rules.specs.Position.{initial_board, one_king};
ghost use Rattle.chess_rules.specs.RankNumbers as numbers;
ghost use Rattle.chess_rules.specs.Reach as reach;
ghost use Rattle.chess_rules.specs.Words as words;
ghost use Rattle.chess_rules.specs.declared.piece.Colour.TheVariants.{Black};

use crate::piece::{Colour, Kind, Piece};
use crate::rank_words;
use crate::square::Square;
use crate::squares::Squares;
use crate::tables::{BYTES_OF_BITS, BYTES_OF_RUNS};
use std::marker::Model;

// The codes of a pawn and of a king: see `code_at`.
pub(crate) const PAWN_CODE: usize = 4;

pub(crate) const KING_CODE: usize = 6;

/// A board: the content of each of the 64 squares.
///
/// It is built rank by rank, from rank 8 on, and need not be the board of a position.
///
/// # Examples
///
/// ```
/// use chess_rules::rank_words::{BLACK_KING, WHITE_KING};
/// use chess_rules::{Board, Colour, Position, PositionFault, Rights};
///
/// // A white king on e8, a black one on e7, and no other piece.
/// let mut board = Board::empty();
/// board.push_rank(WHITE_KING << 4);
/// board.push_rank(BLACK_KING << 4);
/// for _ in 0..6 {
///     board.push_rank(0);
/// }
/// let rights = Rights {
///     white_short: false,
///     white_long: false,
///     black_short: false,
///     black_long: false,
/// };
/// let position = Position::build_on(board, Colour::White, rights, None, 0, 1);
/// assert_eq!(position.err(), Some(PositionFault::KingCapturable));
/// ```
// Three sets tell the kinds of pieces apart. A rook is in `straight`, a bishop in `diagonal`, a
// queen in both. Pieces that do not slide are in `near`: a pawn there alone, a knight in `straight`
// too, a king in `diagonal` too. `black` has the black pieces. No set has an empty square.
#[derive(Clone, Copy)]
pub struct Board {
    straight: Squares,
    diagonal: Squares,
    near: Squares,
    black: Squares,
}

impl Model for Board {
    ghost use Rattle.std.specs.Prelude.{List, Option};
    ghost use Rattle.chess_rules.specs.declared.piece.Piece.{Piece};
    ghost use Rattle.chess_rules.specs.Words.{AreWords, cells, words};

    ghost Value = { List (Option Piece) };

    ghost view = { cells };

    ghost invariant = { AreWords };

    ghost inverse = { words };

    ghost inverse_ok = { λ a h. h };
}

// Whether a square with this content is in `straight`, `diagonal`, `near` and `black`.
fn bits_of(content: Option<Piece>) -> (bool, bool, bool, bool)
    ensures straight { result.0 ≡ words.straight_of content }
    ensures diagonal { result.1 ≡ words.diagonal_of content }
    ensures near { result.2 ≡ reach.is_near content }
    ensures black { result.3 ≡ spec.has_colour Black content }
{
    let Some(piece) = content else {
        return (false, false, false, false);
    };
    let black = piece.colour == Colour::Black;
    match piece.kind {
        Kind::King => (false, true, true, black),
        Kind::Queen => (true, true, false, black),
        Kind::Rook => (true, false, false, black),
        Kind::Bishop => (false, true, false, black),
        Kind::Knight => (true, false, true, black),
        Kind::Pawn => (false, false, true, black),
    }
}

impl Board {
    // The squares that are not empty.
    pub(crate) fn occupied(&self) -> Squares
        ensures { words.Places result (λ s. is_some (spec.at self.now s)) }
    {
        self.straight | self.diagonal | self.near
    }

    // The squares with a piece of the kind, of either colour.
    pub(crate) fn of_kind(&self, kind: Kind) -> Squares
        ensures { words.Places result (λ s. reach.has_kind kind (spec.at self.now s)) }
    {
        match kind {
            Kind::King => self.near & self.diagonal,
            Kind::Queen => self.straight & self.diagonal,
            Kind::Rook => self.straight & !self.diagonal & !self.near,
            Kind::Bishop => self.diagonal & !self.straight & !self.near,
            Kind::Knight => self.near & self.straight,
            Kind::Pawn => self.near & !self.straight & !self.diagonal,
        }
    }

    // The squares with a piece of the colour.
    pub(crate) fn of_colour(&self, colour: Colour) -> Squares
        ensures { words.Places result (λ s. spec.has_colour colour (spec.at self.now s)) }
    {
        match colour {
            Colour::White => self.occupied() & !self.black,
            Colour::Black => self.black,
        }
    }

    // The squares with a piece of the colour and the kind.
    pub(crate) fn pieces(&self, colour: Colour, kind: Kind) -> Squares
        ensures { words.Places result (λ s. spec.has_piece colour kind (spec.at self.now s)) }
    {
        self.of_kind(kind) & self.of_colour(colour)
    }

    // The square of the colour's king, if it has exactly one.
    pub(crate) fn king(&self, colour: Colour) -> Option<Square>
        requires { length self.now ≡ 64 }
        ensures { result ≡ (if one_king self.now colour
            then Some (reach.king_square colour self.now) else None) }
    {
        self.pieces(colour, Kind::King).only()
    }

    pub(crate) fn at(&self, square: Square) -> Option<Piece>
        ensures { result ≡ spec.at self.now square }
    {
        let straight = self.straight.has(square);
        let diagonal = self.diagonal.has(square);
        let kind = match (straight, diagonal, self.near.has(square)) {
            (false, false, false) => return None,
            (true, false, false) => Kind::Rook,
            (false, true, false) => Kind::Bishop,
            (true, true, false) => Kind::Queen,
            (false, false, true) => Kind::Pawn,
            (true, false, true) => Kind::Knight,
            (_, true, true) => Kind::King,
        };
        let colour = if self.black.has(square) {
            Colour::Black
        } else {
            Colour::White
        };
        Some(Piece { colour, kind })
    }

    // The code of what is on the square, without its colour: 1 if it is in `straight`, 2 if in
    // `diagonal` and 4 if in `near`, added. So it is 0 for an empty square.
    #[inline(always)]
    pub(crate) fn code_at(&self, square: Square) -> usize
        ensures value { result ≡ code_of (spec.at self.now square) }
        ensures below { result < 8 }
    {
        usize::from(self.straight.has(square))
            + 2 * usize::from(self.diagonal.has(square))
            + 4 * usize::from(self.near.has(square))
    }

    // What is on the squares of a rank, a number in each byte, from file a on.
    //
    // The numbers come from tables. A branch for each square would mostly be mispredicted.
    #[inline(always)]
    pub(crate) fn rank_numbers(&self, rank: u8) -> u64
        requires { rank < 8 }
        ensures { result ≡ numbers.rank_numbers self.now rank }
    {
        let straight = bytes_of_bits(self.straight.bits_on_rank(rank));
        let diagonal = bytes_of_bits(self.diagonal.bits_on_rank(rank));
        let near = bytes_of_bits(self.near.bits_on_rank(rank));
        let black = bytes_of_bits(self.black.bits_on_rank(rank));
        let runs = bytes_of_runs(self.occupied().bits_on_rank(rank));
        straight + 2 * diagonal + 4 * near + 8 * black + runs
    }

    pub(crate) fn is_empty(&self, square: Square) -> bool
        ensures { result ≡ spec.is_empty self.now square }
    {
        !self.occupied().has(square)
    }

    pub(crate) fn has_colour(&self, square: Square, colour: Colour) -> bool
        ensures { result ≡ spec.has_colour colour (spec.at self.now square) }
    {
        self.of_colour(colour).has(square)
    }

    #[inline(always)]
    pub(crate) fn has_piece(&self, square: Square, colour: Colour, kind: Kind) -> bool
        ensures { result ≡ spec.has_piece colour kind (spec.at self.now square) }
    {
        self.pieces(colour, kind).has(square)
    }

    #[inline(always)]
    pub(crate) fn put(&mut self, square: Square, content: Option<Piece>)
        ensures { self.new ≡ spec.put self.old square content }
    {
        let (straight, diagonal, near, black) = bits_of(content);
        *self = Board {
            straight: self.straight.with(square, straight),
            diagonal: self.diagonal.with(square, diagonal),
            near: self.near.with(square, near),
            black: self.black.with(square, black),
        };
    }

    // Moves the content of one square to another.
    #[inline(always)]
    pub(crate) fn move_piece(&mut self, from: Square, to: Square)
        ensures { self.new ≡ spec.put (spec.put self.old from None) to (spec.at self.old from) }
    {
        *self = Board {
            straight: self
                .straight
                .with(from, false)
                .with(to, self.straight.has(from)),
            diagonal: self
                .diagonal
                .with(from, false)
                .with(to, self.diagonal.has(from)),
            near: self.near.with(from, false).with(to, self.near.has(from)),
            black: self.black.with(from, false).with(to, self.black.has(from)),
        };
    }

    // The board of the usual first position.
    pub(crate) fn initial() -> Board
        ensures { result ≡ initial_board }
    {
        Board {
            straight: Squares::of_bits(0xcb00_0000_0000_00cb),
            diagonal: Squares::of_bits(0x3c00_0000_0000_003c),
            near: Squares::of_bits(0x52ff_0000_0000_ff52),
            black: Squares::of_bits(0xffff_0000_0000_0000),
        }
    }

    /// Returns the board with no piece.
    pub fn empty() -> Board
        ensures { result ≡ replicate 64 None }
    {
        let none = Squares::of_bits(0);
        Board {
            straight: none,
            diagonal: none,
            near: none,
            black: none,
        }
    }

    /// Puts a rank below the others, as rank 1. Each other goes up by one, and rank 8 is dropped.
    ///
    /// The word is that of a rank: the sum of those of its pieces, each shifted left by its file.
    /// `rank_words` has them, and says what each bit means.
    #[inline(always)]
    pub fn push_rank(&mut self, lanes: u32)
        // Cargo: debug_assert!(!(lanes | lanes >> 8 | lanes >> 16) & lanes >> 24 == 0
        // && lanes & lanes >> 8 & lanes >> 16 & 255 == 0,
        // "push_rank takes the word of a rank")
        requires { words.AreLanes lanes }
        ensures { (row : spec.Board) → length row ≡ 8 → lanes ≡ words.lanes row
            → self.new ≡ row ++ take 56 self.old }
    {
        *self = Board {
            straight: self.straight.with_rank_below(u64::from(lanes % 256)),
            diagonal: self.diagonal.with_rank_below(u64::from(lanes / 256 % 256)),
            near: self.near.with_rank_below(u64::from(lanes / 65_536 % 256)),
            black: self.black.with_rank_below(u64::from(lanes / 16_777_216)),
        };
    }

    // By this call the caller's proof knows how many squares there are. It has no effect.
    #[tactic(auto, using(crate::proofs::sets::WordsToCells::long_there))]
    pub(crate) fn recall_length(&self)
        ensures { length self.now ≡ 64 }
    {
        let _ = &self.straight;
    }

    // The board with these contents, from a1, b1 to h8.
    pub(crate) fn of(contents: &[Option<Piece>; 64]) -> Board
        ensures { result ≡ contents.now }
    {
        let mut board = Board::empty();
        // The ranks above are read already.
        for above in 0..8 {
            board.push_rank(lanes_of_rank(contents, 7 - above));
        }
        board
    }
}

// Eight bits, a byte for each.
fn bytes_of_bits(bits: usize) -> u64
    requires { bits < 256 }
    ensures { result ≡ numbers.bytes_of_bits 8 bits }
{
    BYTES_OF_BITS[bits]
}

// The numbers of the bits that are not set, a byte for each of eight bits.
fn bytes_of_runs(bits: usize) -> u64
    requires { bits < 256 }
    ensures { result ≡ numbers.bytes_of_runs 8 0 bits }
{
    BYTES_OF_RUNS[bits]
}

// The word of a rank. Its lanes are the sets of its squares: from the lowest one on `straight`,
// `diagonal`, `near` and `black`.
fn lanes_of_rank(contents: &[Option<Piece>; 64], rank: usize) -> u32
    requires { rank < 8 }
    ensures { result ≡ words.lanes (take 8 (drop (8 * rank) contents.now)) }
{
    let mut lanes = 0u32;
    // The files to the right are read already.
    for right in 0..8 {
        lanes = lanes_of(contents[8 * rank + 7 - right]) + 2 * lanes;
    }
    lanes
}

// For each number of a content: the word of a rank with this content on file a alone.
static LANES: [u32; 13] = [
    rank_words::WHITE_KING,
    rank_words::WHITE_QUEEN,
    rank_words::WHITE_ROOK,
    rank_words::WHITE_BISHOP,
    rank_words::WHITE_KNIGHT,
    rank_words::WHITE_PAWN,
    rank_words::BLACK_KING,
    rank_words::BLACK_QUEEN,
    rank_words::BLACK_ROOK,
    rank_words::BLACK_BISHOP,
    rank_words::BLACK_KNIGHT,
    rank_words::BLACK_PAWN,
    0,
];

// The word of a rank with this content on file a alone.
//
// It comes from a table. A branch for each square would mostly be mispredicted.
#[tactic(auto, unfolding(crate::specs::Words::lanes, crate::specs::Words::word))]
fn lanes_of(content: Option<Piece>) -> u32
    ensures { result ≡ words.lanes_of content }
{
    LANES[number_of(content)]
}

// The number of a content: 0 to 5 for a white piece, 6 to 11 for a black one, 12 for none.
//
// It is a sum, so that the compiler makes no branch of it.
fn number_of(content: Option<Piece>) -> usize
    ensures { result ≡ words.number_of content }
{
    // The number of this piece is 0, so no content is 12.
    let piece = content.unwrap_or(Piece {
        colour: Colour::White,
        kind: Kind::King,
    });
    let kind = match piece.kind {
        Kind::King => 0,
        Kind::Queen => 1,
        Kind::Rook => 2,
        Kind::Bishop => 3,
        Kind::Knight => 4,
        Kind::Pawn => 5,
    };
    let colour = match piece.colour {
        Colour::White => 0,
        Colour::Black => 6,
    };
    12 * usize::from(content.is_none()) + colour + kind
}
