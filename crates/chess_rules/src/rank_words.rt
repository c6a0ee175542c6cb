//! The word of each piece on file a of a rank, for `Board::push_rank`.
//!
//! The word of a rank is the sum of those of its pieces, each shifted left by its file, from 0 for
//! file a to 7 for file h. A file has at most one piece. The word of an empty rank is 0.
//!
//! A word has four lanes of eight bits. In each lane the lowest bit is for file a, and the highest
//! one for file h. From the lowest lane on they have:
//!
//! 1. rooks, queens and knights
//! 2. bishops, queens and kings
//! 3. pawns, knights and kings
//! 4. black pieces
//!
//! So no file has its bit in all of the first three lanes, or in the fourth one alone.
//!
//! # Examples
//!
//! ```
//! use chess_rules::rank_words::{BLACK_KING, BLACK_ROOK};
//!
//! // Rooks on files a and h, and a king on file e.
//! let rank = BLACK_ROOK + (BLACK_KING << 4) + (BLACK_ROOK << 7);
//! assert_eq!(rank, 0x9110_1081);
//! ```

// File a in each lane.
const STRAIGHT: u32 = 0x0000_0001;

const DIAGONAL: u32 = 0x0000_0100;

const NEAR: u32 = 0x0001_0000;

const BLACK: u32 = 0x0100_0000;

/// The word of a rank with a white king on file a.
pub const WHITE_KING: u32 = DIAGONAL + NEAR;

/// The word of a rank with a white queen on file a.
pub const WHITE_QUEEN: u32 = STRAIGHT + DIAGONAL;

/// The word of a rank with a white rook on file a.
pub const WHITE_ROOK: u32 = STRAIGHT;

/// The word of a rank with a white bishop on file a.
pub const WHITE_BISHOP: u32 = DIAGONAL;

/// The word of a rank with a white knight on file a.
pub const WHITE_KNIGHT: u32 = STRAIGHT + NEAR;

/// The word of a rank with a white pawn on file a.
pub const WHITE_PAWN: u32 = NEAR;

/// The word of a rank with a black king on file a.
pub const BLACK_KING: u32 = BLACK + WHITE_KING;

/// The word of a rank with a black queen on file a.
pub const BLACK_QUEEN: u32 = BLACK + WHITE_QUEEN;

/// The word of a rank with a black rook on file a.
pub const BLACK_ROOK: u32 = BLACK + WHITE_ROOK;

/// The word of a rank with a black bishop on file a.
pub const BLACK_BISHOP: u32 = BLACK + WHITE_BISHOP;

/// The word of a rank with a black knight on file a.
pub const BLACK_KNIGHT: u32 = BLACK + WHITE_KNIGHT;

/// The word of a rank with a black pawn on file a.
pub const BLACK_PAWN: u32 = BLACK + WHITE_PAWN;
