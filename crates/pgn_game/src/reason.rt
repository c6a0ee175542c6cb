//! Why an input is rejected, and where.
ghost use Rattle.std.specs.Prelude.{◌≡◌, ◌+◌, ◌≤◌, ◌++◌, length};
ghost use Rattle.pgn_game.specs.games.Reason.{number_of, words_of, line_of, lexical_number_of, lexical_words_of};

use arrayvec::ArrayVec;
use itoa::Buffer;
use pgn_layout::WriteFault;
use pgn_lexer::LexReason;

/// Why an input is rejected.
///
/// Each reason has a number, and words that `Fault::line` writes.
#[derive(Clone, Copy, Debug, PartialEq, Eq)]
pub enum Reason {
    /// 1 to 12: bytes that spell no token (PGN 7).
    Lexical(LexReason),
    /// 20: after `[` comes another token than a symbol (PGN 8.1).
    ExpectedName,
    /// 21: a tag name has a byte other than letters, digits and `_` (PGN 8.1).
    BadTagName,
    /// 22: the game already has a pair of this name.
    DuplicateTag,
    /// 23: the game has as many pairs as the converter has room for.
    TooManyTags,
    /// 24: after a tag name comes another token than a string (PGN 8.1).
    ExpectedValue,
    /// 25: a Result value is none of the four markers (PGN 8.1.1.7).
    BadResult,
    /// 26: a FEN value is no position; the field is 1 to 6, or 7 if the six fields break a rule
    /// together (PGN 16.1).
    BadFen(u8),
    /// 27: the pair's line would have more than 255 bytes (PGN 4.3).
    TagLineTooLong,
    /// 28: after a tag value comes another token than `]` (PGN 8.1).
    ExpectedBracket,
    /// 30: a SetUp pair is `1`, and there is no FEN pair (PGN 9.7).
    SetUpWithoutFen,
    /// 31: a FEN pair in reduced mode, since that format has no place for it (PGN 3.2.4).
    ReducedFen,
    /// 32: a `[` in movetext.
    TagInMovetext,
    /// 33: a token that has no meaning in movetext (PGN 8.2).
    NotAMove,
    /// 34: no legal move agrees with the text (PGN 8.2.3).
    IllegalMove,
    /// 35: more than one legal move agrees with the text (PGN 8.2.3.4).
    AmbiguousMove,
    /// 36: Black's move with the number 99,999.
    MoveLimit,
    /// 37: a `(` before any move at its level (PGN 8.2.5).
    NoMoveBefore,
    /// 38: a `(` at the greatest depth that the converter has room for (PGN 8.2.5).
    TooDeep,
    /// 39: a `)` that closes no variation (PGN 8.2.5).
    UnmatchedClose,
    /// 40: a marker inside a variation (PGN 8.2.6).
    MarkerInVariation,
    /// 41: a marker that differs from the Result pair (PGN 8.2.6).
    ResultDiffers,
    /// 42: the input ends in a game (PGN 8.2.6).
    UnexpectedEnd,
    /// 50: a read failed.
    ReadFault,
    /// 51: a write failed or took no byte.
    WriteFault,
    /// 52: a byte at place 2^62.
    InputTooLong,
    /// 53: the second reading of an input differs from the first. `convert_checked` reports it.
    Changed,
}

impl From<WriteFault> for Reason {
    ghost use Rattle.pgn_game.specs.declared.reason.Reason.TheVariants as reasons;

    ghost from_gives = { λ _ reason. reason ≡ reasons.WriteFault };

    fn from(_fault: WriteFault) -> Reason {
        Reason::WriteFault
    }
}

impl Reason {
    /// Returns the number of the reason, 1 to 53.
    pub fn number(self) -> u8
        ensures { result ≡ number_of self }
    {
        match self {
            Reason::Lexical(reason) => lexical_number(reason),
            Reason::ExpectedName => 20,
            Reason::BadTagName => 21,
            Reason::DuplicateTag => 22,
            Reason::TooManyTags => 23,
            Reason::ExpectedValue => 24,
            Reason::BadResult => 25,
            Reason::BadFen(_) => 26,
            Reason::TagLineTooLong => 27,
            Reason::ExpectedBracket => 28,
            Reason::SetUpWithoutFen => 30,
            Reason::ReducedFen => 31,
            Reason::TagInMovetext => 32,
            Reason::NotAMove => 33,
            Reason::IllegalMove => 34,
            Reason::AmbiguousMove => 35,
            Reason::MoveLimit => 36,
            Reason::NoMoveBefore => 37,
            Reason::TooDeep => 38,
            Reason::UnmatchedClose => 39,
            Reason::MarkerInVariation => 40,
            Reason::ResultDiffers => 41,
            Reason::UnexpectedEnd => 42,
            Reason::ReadFault => 50,
            Reason::WriteFault => 51,
            Reason::InputTooLong => 52,
            Reason::Changed => 53,
        }
    }

    // The reason in words, without the number of a FEN field.
    fn words(self) -> &'static [u8]
        ensures { result.now ≡ words_of self }
    {
        match self {
            Reason::Lexical(reason) => lexical_words(reason),
            Reason::ExpectedName => b"tag name expected",
            Reason::BadTagName => b"bad tag name",
            Reason::DuplicateTag => b"tag is given twice",
            Reason::TooManyTags => b"too many tags",
            Reason::ExpectedValue => b"tag value expected",
            Reason::BadResult => b"bad result value",
            Reason::BadFen(_) => b"bad FEN, field ",
            Reason::TagLineTooLong => b"tag line is too long",
            Reason::ExpectedBracket => b"closing bracket expected",
            Reason::SetUpWithoutFen => b"SetUp 1 without a FEN tag",
            Reason::ReducedFen => b"FEN tag in reduced mode",
            Reason::TagInMovetext => b"tag in movetext",
            Reason::NotAMove => b"not a move",
            Reason::IllegalMove => b"move is not legal",
            Reason::AmbiguousMove => b"move is ambiguous",
            Reason::MoveLimit => b"move number limit",
            Reason::NoMoveBefore => b"variation without a move before it",
            Reason::TooDeep => b"variations are too deep",
            Reason::UnmatchedClose => b"closing parenthesis without an open one",
            Reason::MarkerInVariation => b"result inside a variation",
            Reason::ResultDiffers => b"result differs from the Result tag",
            Reason::UnexpectedEnd => b"unexpected end of input",
            Reason::ReadFault => b"input cannot be read",
            Reason::WriteFault => b"output cannot be written",
            Reason::InputTooLong => b"input is too long",
            Reason::Changed => b"second reading differs",
        }
    }
}

// The number of a lexical reason, 1 to 12.
fn lexical_number(reason: LexReason) -> u8
    ensures { result ≡ lexical_number_of reason }
{
    match reason {
        LexReason::StrayByte => 1,
        LexReason::ControlByte => 2,
        LexReason::Reserved => 3,
        LexReason::SymbolTooLong => 4,
        LexReason::StringTooLong => 5,
        LexReason::WordTooLong => 6,
        LexReason::LoneDollar => 7,
        LexReason::GlyphRange => 8,
        LexReason::BadSuffix => 9,
        LexReason::BraceInLineComment => 10,
        LexReason::UnclosedString => 11,
        LexReason::UnclosedComment => 12,
    }
}

// A lexical reason in words.
fn lexical_words(reason: LexReason) -> &'static [u8]
    ensures { result.now ≡ lexical_words_of reason }
{
    match reason {
        LexReason::StrayByte => b"stray byte",
        LexReason::ControlByte => b"control byte",
        LexReason::Reserved => b"reserved character",
        LexReason::SymbolTooLong => b"symbol is too long",
        LexReason::StringTooLong => b"string is too long",
        LexReason::WordTooLong => b"comment word is too long",
        LexReason::LoneDollar => b"dollar sign without a number",
        LexReason::GlyphRange => b"glyph is above 255",
        LexReason::BadSuffix => b"unknown move suffix",
        LexReason::BraceInLineComment => b"closing brace in a line comment",
        LexReason::UnclosedString => b"string is not closed",
        LexReason::UnclosedComment => b"comment is not closed",
    }
}

/// Where and why an input is rejected: a byte offset, from 0, and the reason.
#[derive(Clone, Copy, Debug, PartialEq, Eq)]
pub struct Fault {
    pub at: u64,
    pub reason: Reason,
}

impl Fault {
    /// Returns the fault as a line without LF, such as `byte 5: bad FEN, field 1`.
    pub fn line(&self) -> ArrayVec<u8, 96>
        ensures { result.items ≡ line_of self.now }
    {
        let mut line = ArrayVec::new();
        let mut buffer = Buffer::new();
        append(&mut line, b"byte ");
        append(&mut line, buffer.format(self.at).as_bytes());
        append(&mut line, b": ");
        append(&mut line, self.reason.words());
        if let Reason::BadFen(field) = self.reason {
            append(&mut line, buffer.format(field).as_bytes());
        }
        line
    }
}

// Adds the text at the line's end.
fn append(line: &mut ArrayVec<u8, 96>, text: &[u8])
    requires { length line.old.items + length text.now ≤ 96 }
    ensures { line.new.items ≡ line.old.items ++ text.now }
{
    let _ = line.try_extend_from_slice(text);
}
