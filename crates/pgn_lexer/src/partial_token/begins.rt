//! What a byte between tokens begins.

ghost use Rattle.std.specs.Prelude.{◌≡◌};
ghost use Rattle.pgn_lexer.specs.Begins as spec;
ghost use Rattle.pgn_lexer.specs.Spelling as spelling;

use crate::class::{Set, is_in};
use crate::partial_token::{CommentEnd, LexMode, Sign, Text};
use crate::token::LexReason;

/// What a byte between tokens begins.
#[derive(Clone, Copy)]
pub(crate) enum Begins {
    /// White space, and the mode after it.
    Gap(LexMode),
    /// A text, of which it is the first byte.
    Text(Text),
    /// A string, whose data follow.
    Str,
    /// A NAG, whose digits follow.
    Dollar,
    /// It is a token by itself, and this is the mode after it.
    Alone(Sign, LexMode),
    Refused(LexReason),
}

/// What the byte begins outside strings and comments. A percent sign in the first column begins an
/// escape line, which `take` sees before.
#[inline(always)]
pub(crate) fn begins_outside(byte: u8) -> Begins
    ensures { result ≡ spec.begins_outside (spelling.class byte) }
{
    if is_in(byte, Set::SymbolStart) {
        return Begins::Text(Text::Symbol);
    }
    match byte {
        b'\n' | b'\r' => Begins::Gap(LexMode::LineStart),
        b' ' | b'\t' | 11 | 12 => Begins::Gap(LexMode::Outside),
        b'!' | b'?' => Begins::Text(Text::Suffix),
        b'"' => Begins::Str,
        b'$' => Begins::Dollar,
        b'{' => Begins::Alone(Sign::CommentOpen, LexMode::Comment(CommentEnd::Brace)),
        b';' => Begins::Alone(Sign::CommentOpen, LexMode::Comment(CommentEnd::LineEnd)),
        b'[' => Begins::Alone(Sign::LeftBracket, LexMode::Outside),
        b']' => Begins::Alone(Sign::RightBracket, LexMode::Outside),
        b'(' => Begins::Alone(Sign::LeftParen, LexMode::Outside),
        b')' => Begins::Alone(Sign::RightParen, LexMode::Outside),
        b'.' => Begins::Alone(Sign::Period, LexMode::Outside),
        b'*' => Begins::Alone(Sign::Asterisk, LexMode::Outside),
        b'<' | b'>' => Begins::Refused(LexReason::Reserved),
        0..=31 | 127 => Begins::Refused(LexReason::ControlByte),
        _ => Begins::Refused(LexReason::StrayByte),
    }
}

/// What the byte begins in a comment that ends so.
#[inline(always)]
pub(crate) fn begins_in_comment(byte: u8, close: CommentEnd) -> Begins
    ensures { result ≡ spec.begins_in_comment close (spelling.comment_class byte) }
{
    if is_in(byte, Set::Word) {
        return Begins::Text(Text::Word(close));
    }
    match close {
        CommentEnd::Brace if byte == b'}' => Begins::Alone(Sign::CommentClose, LexMode::Outside),
        CommentEnd::LineEnd if is_in(byte, Set::LineEnd) => Begins::Alone(
            Sign::CommentClose,
            LexMode::LineStart,
        ),
        _ if is_in(byte, Set::Space) => Begins::Gap(LexMode::Comment(close)),
        _ if byte == b'}' => Begins::Refused(LexReason::BraceInLineComment),
        _ => Begins::Refused(LexReason::ControlByte),
    }
}
