//! The numbers and the words of the fault table.
use pgn_game::{Fault, LexReason, Reason};
use std::process::Abort;

/// Each reason with its number and its words, but for the field of a FEN value.
#[rattlefmt::skip]
const REASONS: &[(Reason, u8, &[u8])] = &[
    (Reason::Lexical(LexReason::StrayByte), 1, b"stray byte"),
    (Reason::Lexical(LexReason::ControlByte), 2, b"control byte"),
    (Reason::Lexical(LexReason::Reserved), 3, b"reserved character"),
    (Reason::Lexical(LexReason::SymbolTooLong), 4, b"symbol is too long"),
    (Reason::Lexical(LexReason::StringTooLong), 5, b"string is too long"),
    (Reason::Lexical(LexReason::WordTooLong), 6, b"comment word is too long"),
    (Reason::Lexical(LexReason::LoneDollar), 7, b"dollar sign without a number"),
    (Reason::Lexical(LexReason::GlyphRange), 8, b"glyph is above 255"),
    (Reason::Lexical(LexReason::BadSuffix), 9, b"unknown move suffix"),
    (Reason::Lexical(LexReason::BraceInLineComment), 10, b"closing brace in a line comment"),
    (Reason::Lexical(LexReason::UnclosedString), 11, b"string is not closed"),
    (Reason::Lexical(LexReason::UnclosedComment), 12, b"comment is not closed"),
    (Reason::ExpectedName, 20, b"tag name expected"),
    (Reason::BadTagName, 21, b"bad tag name"),
    (Reason::DuplicateTag, 22, b"tag is given twice"),
    (Reason::TooManyTags, 23, b"too many tags"),
    (Reason::ExpectedValue, 24, b"tag value expected"),
    (Reason::BadResult, 25, b"bad result value"),
    (Reason::BadFen(7), 26, b"bad FEN, field 7"),
    (Reason::TagLineTooLong, 27, b"tag line is too long"),
    (Reason::ExpectedBracket, 28, b"closing bracket expected"),
    (Reason::SetUpWithoutFen, 30, b"SetUp 1 without a FEN tag"),
    (Reason::ReducedFen, 31, b"FEN tag in reduced mode"),
    (Reason::TagInMovetext, 32, b"tag in movetext"),
    (Reason::NotAMove, 33, b"not a move"),
    (Reason::IllegalMove, 34, b"move is not legal"),
    (Reason::AmbiguousMove, 35, b"move is ambiguous"),
    (Reason::MoveLimit, 36, b"move number limit"),
    (Reason::NoMoveBefore, 37, b"variation without a move before it"),
    (Reason::TooDeep, 38, b"variations are too deep"),
    (Reason::UnmatchedClose, 39, b"closing parenthesis without an open one"),
    (Reason::MarkerInVariation, 40, b"result inside a variation"),
    (Reason::ResultDiffers, 41, b"result differs from the Result tag"),
    (Reason::UnexpectedEnd, 42, b"unexpected end of input"),
    (Reason::ReadFault, 50, b"input cannot be read"),
    (Reason::WriteFault, 51, b"output cannot be written"),
    (Reason::InputTooLong, 52, b"input is too long"),
    (Reason::Changed, 53, b"second reading differs"),
    (Reason::BadFen(1), 26, b"bad FEN, field 1"),
];

/// The rows, behind a call of its own, so that no proof of a loop sees them all.
fn reasons() -> &'static [(Reason, u8, &'static [u8])] {
    REASONS
}

/// The reason has this number and these words.
fn has_words(rt: &impl Abort, reason: Reason, number: u8, words: &[u8]) {
    assert_eq!(rt; reason.number(), number);
    let line = Fault { at: 5, reason }.line();
    assert!(rt; line.as_slice().starts_with(b"byte 5: "));
    assert!(rt; line.as_slice().ends_with(words));
    assert_eq!(rt; line.len(), words.len().saturating_add(8));
}

#[test]
fn tells_each_reason(rt: HostRuntime) {
    for &(reason, number, words) in reasons() {
        has_words(&rt, reason, number, words);
    }
}

#[test]
fn tells_the_longest_line(rt: HostRuntime) {
    let fault = Fault {
        at: u64::MAX,
        reason: Reason::UnmatchedClose,
    };
    let line = b"byte 18446744073709551615: closing parenthesis without an open one";
    assert!(rt; fault.line().as_slice() == line.as_slice());
}
