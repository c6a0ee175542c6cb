//! Items of games.

use crate::marker::Marker;
use chess_rules::Move;

/// An item of a game, as [`crate::Items`] gives it.
///
/// A game is its `Tags`, then the items of its movetext, then its `Marker`. A game without tag
/// pairs has `Tags` too. Move numbers give no item, nor do comments before a game or inside its tag
/// section. `!`, `??` and the like are NAGs.
#[derive(Clone, Copy, Debug, PartialEq, Eq)]
pub enum Item {
    /// Movetext begins, so the tag section is whole (PGN 8.1). `Items::tag` gives its values.
    Tags,
    /// A move, which is legal where it stands (PGN 8.2.3).
    Move(Move),
    /// A NAG (numeric annotation glyph, PGN 8.2.4).
    Glyph(u8),
    /// A comment begins (PGN 5).
    CommentOpen,
    /// A word of a comment, without the white space around it. `Items::word` gives its text.
    Word,
    /// The comment ends.
    CommentClose,
    /// A variation begins: it replaces the last move (PGN 8.2.5).
    Open,
    /// The variation ends.
    Close,
    /// The marker that ends the game (PGN 8.2.6).
    Marker(Marker),
}
