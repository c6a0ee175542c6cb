//! What a token of movetext means.

use crate::marker::Marker;
use chess_rules::{Move, Probes};

/// What a token of movetext means, once it is accepted.
#[derive(Clone, Copy)]
pub enum Event<'a> {
    /// A move number or a period, which adds nothing (PGN 8.2.2.1).
    Number,
    /// A move, which was played, and the pairs that were tried to find it.
    Move(Move, Probes),
    /// A NAG (numeric annotation glyph, PGN 8.2.4).
    Glyph(u8),
    /// The brace before a comment (PGN 5).
    CommentOpen,
    /// A word of a comment.
    Word(&'a [u8]),
    /// The brace after a comment.
    CommentClose,
    /// The parenthesis before a variation (PGN 8.2.5).
    Open,
    /// The parenthesis after a variation.
    Close,
    /// A marker, which may end the game (PGN 8.2.6).
    Marker(Marker),
}
