//! The current token: its place, its mode, and what was read of it.

ghost use Rattle.std.specs.Prelude.{◌≡◌, ◌==◌, [], if◌then◌else◌, IsTrue};
ghost use Rattle.pgn_lexer.specs.Bytes as bytes;
ghost use Rattle.pgn_lexer.specs.Scanned.{kind_of};
ghost use Rattle.pgn_lexer.specs.Texts as texts;

mod begins;
mod byte;
mod run;
mod whole;

use crate::class::{Set, is_escaped};
use crate::token::{LexFault, LexReason, Token, TokenKind};
use arrayvec::ArrayVec;
use std::marker::Model;

/// The most bytes of a symbol, and the most data of a string (PGN 7).
const LONGEST_TEXT: usize = 255;

/// The most bytes of a word of a comment, so that a line of an export has room for it (PGN 8.2.1).
const LONGEST_WORD: usize = 79;

/// The most bytes of a suffix (PGN 8.2.3.8).
const LONGEST_SUFFIX: usize = 2;

/// What ends a comment (PGN 5).
#[derive(Clone, Copy)]
pub(crate) enum CommentEnd {
    Brace,
    LineEnd,
}

/// A kind of token whose bytes are stored.
#[derive(Clone, Copy)]
pub(crate) enum Text {
    Symbol,
    Str,
    /// A run of `!` and `?`.
    Suffix,
    /// A word of a comment that ends so.
    Word(CommentEnd),
}

/// What the next byte is inside of.
#[derive(Clone, Copy)]
pub(crate) enum LexMode {
    /// Before the first byte of the text.
    Start,
    /// After EF, and after EF BB, at the very start.
    AfterEf,
    AfterEfBb,
    /// Outside all tokens, in the first column.
    LineStart,
    /// Outside all tokens.
    Outside,
    /// After a percent sign in the first column.
    EscapeLine,
    /// In a text of this kind.
    Text(Text),
    /// In a string, after a backslash, which is the last byte stored.
    AfterBackslash,
    /// After a dollar sign.
    Dollar,
    /// After digits, of this value, after a dollar sign.
    Glyph(u8),
    /// Between the words of a comment that ends so.
    Comment(CommentEnd),
    /// The text is rejected for this reason. The place of the fault is that of the partial token.
    Failed(LexReason),
}

/// A token of one byte. It is a type without a text, so that a result is a few bytes.
#[derive(Clone, Copy)]
pub(crate) enum Sign {
    LeftBracket,
    RightBracket,
    LeftParen,
    RightParen,
    Period,
    Asterisk,
    CommentOpen,
    CommentClose,
}

/// A token whose bytes are stored, a token of one byte, or a NAG.
#[derive(Clone, Copy)]
pub(crate) enum TokenForm {
    Text(Text),
    Sign(Sign),
    Glyph(u8),
}

/// The result of one byte, of a piece, or of the end of the text.
#[derive(Clone, Copy)]
pub(crate) enum ByteResult {
    /// It was used, and no token ends.
    Used,
    /// A token ends with the last byte used.
    Ends(TokenForm),
    /// A token ends before a byte that was not used.
    EndsBefore(TokenForm),
    /// The text is rejected for this reason, which the mode keeps.
    Fault(LexReason),
}

/// The current token: its place, and what was read of it.
#[derive(Drop)]
pub(crate) struct PartialToken {
    buffer: ArrayVec<u8, LONGEST_TEXT>,
    mode: LexMode,
    at: u64,
}

impl Model for PartialToken {
    ghost use Rattle.pgn_lexer.specs.PartialToken.{PartialToken, HasRoom};

    ghost Value = { PartialToken };

    ghost view = { λ h. record { mode = h.mode; at = h.at; text = h.buffer.items } };

    ghost invariant = { λ h. HasRoom h.mode h.buffer.items };
}

impl Text {
    ghost use Rattle.pgn_lexer.specs.Texts.{bytes_of, longest_of, too_long_of, kind_of_text, mode_behind, BeginsWithEscape};

    /// The bytes that continue it.
    #[inline(always)]
    pub(crate) fn bytes(self) -> Set
        ensures { result ≡ bytes_of self }
    {
        match self {
            Text::Symbol => Set::Symbol,
            Text::Str => Set::Data,
            Text::Suffix => Set::Suffix,
            Text::Word(_) => Set::Word,
        }
    }

    /// The most bytes of it.
    #[inline(always)]
    pub(crate) fn longest(self) -> usize
        ensures { result ≡ longest_of self }
    {
        match self {
            Text::Symbol | Text::Str => LONGEST_TEXT,
            Text::Suffix => LONGEST_SUFFIX,
            Text::Word(_) => LONGEST_WORD,
        }
    }

    /// Why a longer one is rejected.
    #[inline(always)]
    pub(crate) fn too_long(self) -> LexReason
        ensures { result ≡ too_long_of self }
    {
        match self {
            Text::Symbol => LexReason::SymbolTooLong,
            Text::Str => LexReason::StringTooLong,
            Text::Suffix => LexReason::BadSuffix,
            Text::Word(_) => LexReason::WordTooLong,
        }
    }

    /// The token of these bytes.
    #[inline(always)]
    pub(crate) fn kind<'a>(self, bytes: &'a [u8]) -> TokenKind<'a>
        ensures { kind_of result ≡ kind_of_text self bytes.now }
    {
        match self {
            Text::Symbol => TokenKind::Symbol(bytes),
            Text::Str => TokenKind::Str(bytes),
            Text::Suffix => TokenKind::Glyph(glyph_of(bytes)),
            Text::Word(_) => TokenKind::Word(bytes),
        }
    }

    /// The mode after it.
    #[inline(always)]
    pub(crate) fn mode_behind(self) -> LexMode
        ensures { result ≡ mode_behind self }
    {
        match self {
            Text::Word(close) => LexMode::Comment(close),
            _ => LexMode::Outside,
        }
    }

    /// Whether it is a string, and the bytes begin with an escape.
    #[inline(always)]
    pub(crate) fn has_escape(self, bytes: &[u8]) -> bool
        ensures { IsTrue result → BeginsWithEscape self bytes.now }
    {
        matches!(self, Text::Str) && bytes.len() > 1 && bytes[0] == b'\\' && is_escaped(bytes[1])
    }
}

impl Sign {
    ghost use Rattle.pgn_lexer.specs.Texts.{kind_of_sign};

    #[inline(always)]
    pub(crate) fn kind<'a>(self) -> TokenKind<'a>
        ensures { kind_of result ≡ kind_of_sign self }
    {
        match self {
            Sign::LeftBracket => TokenKind::LeftBracket,
            Sign::RightBracket => TokenKind::RightBracket,
            Sign::LeftParen => TokenKind::LeftParen,
            Sign::RightParen => TokenKind::RightParen,
            Sign::Period => TokenKind::Period,
            Sign::Asterisk => TokenKind::Asterisk,
            Sign::CommentOpen => TokenKind::CommentOpen,
            Sign::CommentClose => TokenKind::CommentClose,
        }
    }
}

impl PartialToken {
    ghost use Rattle.pgn_lexer.specs.PartialToken.{fault_met, kind_in};

    /// Returns the state outside all tokens, before the byte at this place.
    pub(crate) fn begin_at(place: u64, in_first_column: bool) -> PartialToken
        ensures { result ≡ record {
          mode = if place == 0 then LexMode.Start else if in_first_column then LexMode.LineStart
              else LexMode.Outside;
          at = 0;
          text = [];
        } }
    {
        let mode = if place == 0 {
            LexMode::Start
        } else if in_first_column {
            LexMode::LineStart
        } else {
            LexMode::Outside
        };
        PartialToken {
            buffer: ArrayVec::new(),
            mode,
            at: 0,
        }
    }

    /// Returns the error of this reason, at the place in the partial token.
    pub(crate) fn fault(&self, reason: LexReason) -> LexFault
        ensures { result ≡ fault_met reason self.now }
    {
        LexFault {
            at: self.at,
            reason,
        }
    }

    /// Returns the token of this form, with the place and the text in the partial token.
    #[inline(always)]
    pub(crate) fn token(&self, form: TokenForm) -> Token<'_>
        ensures at { result.at ≡ self.now.at }
        ensures kind { kind_of result.kind ≡ kind_in form self.now.text }
    {
        let kind = match form {
            TokenForm::Text(text) => text.kind(self.buffer.as_slice()),
            TokenForm::Sign(sign) => sign.kind(),
            TokenForm::Glyph(number) => TokenKind::Glyph(number),
        };
        Token { at: self.at, kind }
    }
}

// Empties the buffer. Emptying writes a blank over each byte, so an empty one is left alone.
fn clear(buffer: &mut ArrayVec<u8, LONGEST_TEXT>)
    ensures { buffer.new.items ≡ [] }
{
    if !buffer.is_empty() {
        buffer.clear();
    }
}

/// The NAG of a suffix (PGN 8.2.3.8, 10).
fn glyph_of(suffix: &[u8]) -> u8
    ensures { result ≡ texts.glyph_of suffix.now }
{
    match suffix {
        [b'!'] => 1,
        [_] => 2,
        [b'!', b'!', ..] => 3,
        [b'!', ..] => 5,
        [_, b'!', ..] => 6,
        _ => 4,
    }
}

/// The number with one digit more. `None` if it is above 255, the largest NAG (PGN 8.2.4).
#[inline(always)]
pub(crate) fn longer_number(number: u8, digit: u8) -> Option<u8>
    requires { IsTrue (bytes.is_digit digit) }
    ensures { result ≡ texts.longer_number number digit }
{
    number.checked_mul(10)?.checked_add(digit - b'0')
}
