//! Tests of a token.
ghost use Rattle.std.specs.Prelude.{◌≡◌, ◌||◌, false};
ghost use Rattle.std.specs.List.{list_all};
ghost use Rattle.pgn_lexer.specs.Scanned.{kind_of};
ghost use Rattle.pgn_game.specs.games.FaultTable as spec;

use crate::marker::Marker;
use pgn_lexer::TokenKind;

/// Whether the token belongs to a comment (PGN 5).
#[inline(always)]
pub fn is_comment(kind: TokenKind<'_>) -> bool
    ensures { result ≡ spec.is_comment (kind_of kind.entry) }
{
    match kind {
        TokenKind::CommentOpen => true,
        TokenKind::Word(_) => true,
        TokenKind::CommentClose => true,
        _ => false,
    }
}

/// Whether the token is the end of the input.
#[inline(always)]
pub fn is_end(kind: TokenKind<'_>) -> bool
    ensures { result ≡ spec.is_end (kind_of kind.entry) }
{
    match kind {
        TokenKind::End => true,
        _ => false,
    }
}

/// Whether the bytes are those of a tag name: letters, digits and `_` (PGN 8.1).
pub fn is_tag_name(name: &[u8]) -> bool
    ensures { result ≡ list_all spec.in_name name.now }
{
    name.iter()
        .all(|byte| byte.is_ascii_alphanumeric() || *byte == b'_')
}

/// Whether the text is one of the four markers (PGN 8.2.6).
pub fn is_result(text: &[u8]) -> bool
    ensures { result ≡ spec.is_result text.now }
{
    Marker::of_symbol(text).is_some() || text == b"*".as_slice()
}

/// Whether the text is digits alone, as move numbers are (PGN 8.2.2).
pub fn is_number(text: &[u8]) -> bool
    ensures { result ≡ spec.is_number text.now }
{
    text.iter().all(|byte| byte.is_ascii_digit())
}

/// Whether the text is one of the markers that are symbols, or digits alone: it names no move.
#[inline(always)]
pub fn is_score_or_number(text: &[u8]) -> bool
    ensures { result ≡ (spec.is_score text.now || spec.is_number text.now) }
{
    may_be_score_or_number(text) && (Marker::of_symbol(text).is_some() || is_number(text))
}

/// Whether the first byte of the text allows these: a digit, or no byte at all. Most symbols are
/// moves, and begin with a letter.
#[inline(always)]
pub fn may_be_score_or_number(text: &[u8]) -> bool
    ensures { result ≡ false → (spec.is_score text.now || spec.is_number text.now) ≡ false }
{
    match text.first() {
        Some(byte) => byte.is_ascii_digit(),
        None => true,
    }
}
