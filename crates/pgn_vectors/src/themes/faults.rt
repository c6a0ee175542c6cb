// Written by bin/write_vectors from vectors/faults.toml.
//! Inputs that are rejected.
use crate::{Vector, Verdict};
use pgn_game::{LexReason, Mode, Reason};

/// Bytes that spell no token.
#[rattlefmt::skip]
pub fn tokens() -> &'static [Vector] {
    &[
        Vector { name: "1", mode: Mode::Full, input: " % *",
            output: "", verdict: Verdict::Refused(1, Reason::Lexical(LexReason::StrayByte)) },
        Vector { name: "2", mode: Mode::Full, input: "[A \"\t\"]",
            output: "", verdict: Verdict::Refused(4, Reason::Lexical(LexReason::ControlByte)) },
        Vector { name: "2, at once", mode: Mode::Full, input: "\u{1}",
            output: "", verdict: Verdict::Refused(0, Reason::Lexical(LexReason::ControlByte)) },
        Vector { name: "3", mode: Mode::Full, input: "<1> *",
            output: "", verdict: Verdict::Refused(0, Reason::Lexical(LexReason::Reserved)) },
        Vector { name: "3, at the end", mode: Mode::Full, input: "<",
            output: "", verdict: Verdict::Refused(0, Reason::Lexical(LexReason::Reserved)) },
        Vector { name: "7", mode: Mode::Full, input: "$",
            output: "", verdict: Verdict::Refused(0, Reason::Lexical(LexReason::LoneDollar)) },
        Vector { name: "8", mode: Mode::Full, input: "$256 ",
            output: "", verdict: Verdict::Refused(0, Reason::Lexical(LexReason::GlyphRange)) },
        Vector { name: "9", mode: Mode::Full, input: "!!! ",
            output: "", verdict: Verdict::Refused(0, Reason::Lexical(LexReason::BadSuffix)) },
        Vector { name: "10", mode: Mode::Full, input: ";}",
            output: "", verdict: Verdict::Refused(1, Reason::Lexical(LexReason::BraceInLineComment)) },
        Vector { name: "11", mode: Mode::Full, input: "[A \"x\n",
            output: "", verdict: Verdict::Refused(3, Reason::Lexical(LexReason::UnclosedString)) },
        Vector { name: "11, the end", mode: Mode::Full, input: "[A \"",
            output: "", verdict: Verdict::Refused(3, Reason::Lexical(LexReason::UnclosedString)) },
        Vector { name: "12", mode: Mode::Full, input: "{a",
            output: "", verdict: Verdict::Refused(2, Reason::Lexical(LexReason::UnclosedComment)) },
    ]
}

/// Tokens that are rejected in a tag section.
#[rattlefmt::skip]
pub fn tag_pairs() -> &'static [Vector] {
    &[
        Vector { name: "20", mode: Mode::Full, input: "[\"A\"]",
            output: "", verdict: Verdict::Refused(1, Reason::ExpectedName) },
        Vector { name: "20, the end", mode: Mode::Full, input: "[",
            output: "", verdict: Verdict::Refused(1, Reason::ExpectedName) },
        Vector { name: "21", mode: Mode::Full, input: "[A-B \"x\"]",
            output: "", verdict: Verdict::Refused(1, Reason::BadTagName) },
        Vector { name: "22", mode: Mode::Full, input: "[A \"1\"][A \"2\"]",
            output: "", verdict: Verdict::Refused(8, Reason::DuplicateTag) },
        Vector { name: "24", mode: Mode::Full, input: "[A]",
            output: "", verdict: Verdict::Refused(2, Reason::ExpectedValue) },
        Vector { name: "24, a symbol", mode: Mode::Full, input: "[A B]",
            output: "", verdict: Verdict::Refused(3, Reason::ExpectedValue) },
        Vector { name: "24, the end", mode: Mode::Full, input: "[A ",
            output: "", verdict: Verdict::Refused(3, Reason::ExpectedValue) },
        Vector { name: "25", mode: Mode::Full, input: "[Result \"1\"]",
            output: "", verdict: Verdict::Refused(8, Reason::BadResult) },
        Vector { name: "25, no such result", mode: Mode::Full, input: "[Result \"1-1\"]",
            output: "", verdict: Verdict::Refused(8, Reason::BadResult) },
        Vector { name: "26", mode: Mode::Full, input: "[FEN \"x\"]",
            output: "", verdict: Verdict::Refused(5, Reason::BadFen(1)) },
        Vector { name: "28", mode: Mode::Full, input: "[A \"1\" x]",
            output: "", verdict: Verdict::Refused(7, Reason::ExpectedBracket) },
        Vector { name: "28, a marker", mode: Mode::Full, input: "[A \"1\" *",
            output: "", verdict: Verdict::Refused(7, Reason::ExpectedBracket) },
        Vector { name: "28, the end", mode: Mode::Full, input: "[A \"1\" ",
            output: "", verdict: Verdict::Refused(7, Reason::ExpectedBracket) },
        Vector { name: "30", mode: Mode::Full, input: "[SetUp \"1\"] *",
            output: "", verdict: Verdict::Refused(12, Reason::SetUpWithoutFen) },
        Vector { name: "30, a comment", mode: Mode::Full, input: "[SetUp \"1\"]{a} *",
            output: "", verdict: Verdict::Refused(11, Reason::SetUpWithoutFen) },
    ]
}

/// Tokens that begin no movetext, and moves that are rejected.
#[rattlefmt::skip]
pub fn moves() -> &'static [Vector] {
    &[
        Vector { name: "33", mode: Mode::Full, input: "e9 *",
            output: "", verdict: Verdict::Refused(0, Reason::NotAMove) },
        Vector { name: "33, no castling", mode: Mode::Full, input: "O-0 *",
            output: "", verdict: Verdict::Refused(0, Reason::NotAMove) },
        Vector { name: "33, digits joined to a move", mode: Mode::Full, input: "12e4 *",
            output: "", verdict: Verdict::Refused(0, Reason::NotAMove) },
        Vector { name: "33, a bracket", mode: Mode::Full, input: "] *",
            output: "", verdict: Verdict::Refused(0, Reason::NotAMove) },
        Vector { name: "33, a string", mode: Mode::Full, input: "\"e4\" *",
            output: "", verdict: Verdict::Refused(0, Reason::NotAMove) },
        Vector { name: "34", mode: Mode::Full, input: "Ke2 *",
            output: "", verdict: Verdict::Refused(0, Reason::IllegalMove) },
        Vector { name: "34, a number joined to a move", mode: Mode::Full, input: "1e4 *",
            output: "", verdict: Verdict::Refused(0, Reason::IllegalMove) },
        Vector { name: "34, no letter", mode: Mode::Full, input: "g1f3 *",
            output: "", verdict: Verdict::Refused(0, Reason::IllegalMove) },
        Vector { name: "37", mode: Mode::Full, input: "(e4) *",
            output: "", verdict: Verdict::Refused(0, Reason::NoMoveBefore) },
        Vector { name: "39", mode: Mode::Full, input: ") *",
            output: "", verdict: Verdict::Refused(0, Reason::UnmatchedClose) },
    ]
}

/// Markers and ends, and which fault is reported if two apply.
#[rattlefmt::skip]
pub fn ends_and_order() -> &'static [Vector] {
    &[
        Vector { name: "41, marker-differs", mode: Mode::Full, input: "1-0",
            output: "", verdict: Verdict::Refused(0, Reason::ResultDiffers) },
        Vector { name: "41", mode: Mode::Full, input: "[Result \"1-0\"] 0-1",
            output: "", verdict: Verdict::Refused(15, Reason::ResultDiffers) },
        Vector { name: "41, an asterisk", mode: Mode::Full, input: "[Result \"1-0\"] *",
            output: "", verdict: Verdict::Refused(15, Reason::ResultDiffers) },
        Vector { name: "41, no result", mode: Mode::Full, input: "[Result \"*\"] 1-0",
            output: "", verdict: Verdict::Refused(13, Reason::ResultDiffers) },
        Vector { name: "42", mode: Mode::Full, input: "[A \"1\"]",
            output: "", verdict: Verdict::Refused(7, Reason::UnexpectedEnd) },
        Vector { name: "42, behind a line", mode: Mode::Full, input: "[A \"1\"]\n\n",
            output: "", verdict: Verdict::Refused(9, Reason::UnexpectedEnd) },
        Vector { name: "42 where 30 waits", mode: Mode::Full, input: "[SetUp \"1\"]",
            output: "", verdict: Verdict::Refused(11, Reason::UnexpectedEnd) },
        Vector { name: "21 before 22", mode: Mode::Full, input: "[A-B \"1\"]",
            output: "", verdict: Verdict::Refused(1, Reason::BadTagName) },
        Vector { name: "30 before 33", mode: Mode::Full, input: "[SetUp \"1\"] e9 *",
            output: "", verdict: Verdict::Refused(12, Reason::SetUpWithoutFen) },
        Vector { name: "30 before 41", mode: Mode::Full, input: "[SetUp \"1\"] 1-0",
            output: "", verdict: Verdict::Refused(12, Reason::SetUpWithoutFen) },
        Vector { name: "31", mode: Mode::Reduced, input: "[FEN \"x\"]",
            output: "", verdict: Verdict::Refused(1, Reason::ReducedFen) },
    ]
}

/// Bytes that spell no token, inside movetext.
#[rattlefmt::skip]
pub fn tokens_in_movetext() -> &'static [Vector] {
    &[
        Vector { name: "1, in movetext", mode: Mode::Full, input: "e4 & *",
            output: "[Event \"?\"]\n[Site \"?\"]\n[Date \"????.??.??\"]\n[Round \"?\"]\n[White \"?\"]\n[Black \"?\"]\n[Result \"*\"]\n\n", verdict: Verdict::Refused(3, Reason::Lexical(LexReason::StrayByte)) },
        Vector { name: "2, in movetext", mode: Mode::Full, input: "e4 \u{1}",
            output: "[Event \"?\"]\n[Site \"?\"]\n[Date \"????.??.??\"]\n[Round \"?\"]\n[White \"?\"]\n[Black \"?\"]\n[Result \"*\"]\n\n", verdict: Verdict::Refused(3, Reason::Lexical(LexReason::ControlByte)) },
        Vector { name: "3, in movetext", mode: Mode::Full, input: "e4 <1> *",
            output: "[Event \"?\"]\n[Site \"?\"]\n[Date \"????.??.??\"]\n[Round \"?\"]\n[White \"?\"]\n[Black \"?\"]\n[Result \"*\"]\n\n", verdict: Verdict::Refused(3, Reason::Lexical(LexReason::Reserved)) },
        Vector { name: "7, in movetext", mode: Mode::Full, input: "e4 $ *",
            output: "[Event \"?\"]\n[Site \"?\"]\n[Date \"????.??.??\"]\n[Round \"?\"]\n[White \"?\"]\n[Black \"?\"]\n[Result \"*\"]\n\n", verdict: Verdict::Refused(3, Reason::Lexical(LexReason::LoneDollar)) },
        Vector { name: "8, in movetext", mode: Mode::Full, input: "e4 $256 *",
            output: "[Event \"?\"]\n[Site \"?\"]\n[Date \"????.??.??\"]\n[Round \"?\"]\n[White \"?\"]\n[Black \"?\"]\n[Result \"*\"]\n\n", verdict: Verdict::Refused(3, Reason::Lexical(LexReason::GlyphRange)) },
        Vector { name: "9, in movetext", mode: Mode::Full, input: "e4!!! *",
            output: "[Event \"?\"]\n[Site \"?\"]\n[Date \"????.??.??\"]\n[Round \"?\"]\n[White \"?\"]\n[Black \"?\"]\n[Result \"*\"]\n\n", verdict: Verdict::Refused(2, Reason::Lexical(LexReason::BadSuffix)) },
        Vector { name: "10, in movetext", mode: Mode::Full, input: "e4 ;a}\n*",
            output: "[Event \"?\"]\n[Site \"?\"]\n[Date \"????.??.??\"]\n[Round \"?\"]\n[White \"?\"]\n[Black \"?\"]\n[Result \"*\"]\n\n", verdict: Verdict::Refused(5, Reason::Lexical(LexReason::BraceInLineComment)) },
        Vector { name: "12, in movetext", mode: Mode::Full, input: "e4 {x",
            output: "[Event \"?\"]\n[Site \"?\"]\n[Date \"????.??.??\"]\n[Round \"?\"]\n[White \"?\"]\n[Black \"?\"]\n[Result \"*\"]\n\n", verdict: Verdict::Refused(5, Reason::Lexical(LexReason::UnclosedComment)) },
    ]
}

/// Tokens and moves that are rejected in movetext.
#[rattlefmt::skip]
pub fn misplaced_in_movetext() -> &'static [Vector] {
    &[
        Vector { name: "32", mode: Mode::Full, input: "e4 [A \"1\"] *",
            output: "[Event \"?\"]\n[Site \"?\"]\n[Date \"????.??.??\"]\n[Round \"?\"]\n[White \"?\"]\n[Black \"?\"]\n[Result \"*\"]\n\n", verdict: Verdict::Refused(3, Reason::TagInMovetext) },
        Vector { name: "32, after a number", mode: Mode::Full, input: "1 [A \"x\"] *",
            output: "[Event \"?\"]\n[Site \"?\"]\n[Date \"????.??.??\"]\n[Round \"?\"]\n[White \"?\"]\n[Black \"?\"]\n[Result \"*\"]\n\n", verdict: Verdict::Refused(2, Reason::TagInMovetext) },
        Vector { name: "33, in movetext", mode: Mode::Full, input: "e4 e9 *",
            output: "[Event \"?\"]\n[Site \"?\"]\n[Date \"????.??.??\"]\n[Round \"?\"]\n[White \"?\"]\n[Black \"?\"]\n[Result \"*\"]\n\n", verdict: Verdict::Refused(3, Reason::NotAMove) },
        Vector { name: "33, a hyphen", mode: Mode::Full, input: "e4 N-f6 *",
            output: "[Event \"?\"]\n[Site \"?\"]\n[Date \"????.??.??\"]\n[Round \"?\"]\n[White \"?\"]\n[Black \"?\"]\n[Result \"*\"]\n\n", verdict: Verdict::Refused(3, Reason::NotAMove) },
        Vector { name: "33, a bracket in movetext", mode: Mode::Full, input: "e4 ] *",
            output: "[Event \"?\"]\n[Site \"?\"]\n[Date \"????.??.??\"]\n[Round \"?\"]\n[White \"?\"]\n[Black \"?\"]\n[Result \"*\"]\n\n", verdict: Verdict::Refused(3, Reason::NotAMove) },
        Vector { name: "33, a string in movetext", mode: Mode::Full, input: "e4 \"e5\" *",
            output: "[Event \"?\"]\n[Site \"?\"]\n[Date \"????.??.??\"]\n[Round \"?\"]\n[White \"?\"]\n[Black \"?\"]\n[Result \"*\"]\n\n", verdict: Verdict::Refused(3, Reason::NotAMove) },
        Vector { name: "33, half a marker", mode: Mode::Full, input: "e4 1/2 *",
            output: "[Event \"?\"]\n[Site \"?\"]\n[Date \"????.??.??\"]\n[Round \"?\"]\n[White \"?\"]\n[Black \"?\"]\n[Result \"*\"]\n\n", verdict: Verdict::Refused(3, Reason::NotAMove) },
        Vector { name: "33, a colon", mode: Mode::Full, input: "e4 d5 e:d5 *",
            output: "[Event \"?\"]\n[Site \"?\"]\n[Date \"????.??.??\"]\n[Round \"?\"]\n[White \"?\"]\n[Black \"?\"]\n[Result \"*\"]\n\n", verdict: Verdict::Refused(6, Reason::NotAMove) },
        Vector { name: "34, illegal-king-move", mode: Mode::Full, input: "1. e4 e5 2. Ke3 *",
            output: "[Event \"?\"]\n[Site \"?\"]\n[Date \"????.??.??\"]\n[Round \"?\"]\n[White \"?\"]\n[Black \"?\"]\n[Result \"*\"]\n\n", verdict: Verdict::Refused(12, Reason::IllegalMove) },
        Vector { name: "34, castling", mode: Mode::Full, input: "e4 e5 O-O *",
            output: "[Event \"?\"]\n[Site \"?\"]\n[Date \"????.??.??\"]\n[Round \"?\"]\n[White \"?\"]\n[Black \"?\"]\n[Result \"*\"]\n\n", verdict: Verdict::Refused(6, Reason::IllegalMove) },
        Vector { name: "34, castling after the king moved", mode: Mode::Full, input: "e4 e5 Ke2 Ke7 0-0-0 *",
            output: "[Event \"?\"]\n[Site \"?\"]\n[Date \"????.??.??\"]\n[Round \"?\"]\n[White \"?\"]\n[Black \"?\"]\n[Result \"*\"]\n\n", verdict: Verdict::Refused(14, Reason::IllegalMove) },
        Vector { name: "35", mode: Mode::Full, input: "Nf3 e6 Nd4 e5 c3 e4 Na3 e3 Nc2 *",
            output: "[Event \"?\"]\n[Site \"?\"]\n[Date \"????.??.??\"]\n[Round \"?\"]\n[White \"?\"]\n[Black \"?\"]\n[Result \"*\"]\n\n", verdict: Verdict::Refused(27, Reason::AmbiguousMove) },
        Vector { name: "37, after a glyph", mode: Mode::Full, input: "$1 (e4) *",
            output: "[Event \"?\"]\n[Site \"?\"]\n[Date \"????.??.??\"]\n[Round \"?\"]\n[White \"?\"]\n[Black \"?\"]\n[Result \"*\"]\n\n", verdict: Verdict::Refused(3, Reason::NoMoveBefore) },
    ]
}

/// Markers and ends that are rejected in movetext.
#[rattlefmt::skip]
pub fn ends_in_movetext() -> &'static [Vector] {
    &[
        Vector { name: "37, after a comment", mode: Mode::Full, input: "1. {a} (e4) *",
            output: "[Event \"?\"]\n[Site \"?\"]\n[Date \"????.??.??\"]\n[Round \"?\"]\n[White \"?\"]\n[Black \"?\"]\n[Result \"*\"]\n\n", verdict: Verdict::Refused(7, Reason::NoMoveBefore) },
        Vector { name: "39, in movetext", mode: Mode::Full, input: "e4 ) *",
            output: "[Event \"?\"]\n[Site \"?\"]\n[Date \"????.??.??\"]\n[Round \"?\"]\n[White \"?\"]\n[Black \"?\"]\n[Result \"*\"]\n\n", verdict: Verdict::Refused(3, Reason::UnmatchedClose) },
        Vector { name: "40", mode: Mode::Full, input: "e4 (d4 *",
            output: "[Event \"?\"]\n[Site \"?\"]\n[Date \"????.??.??\"]\n[Round \"?\"]\n[White \"?\"]\n[Black \"?\"]\n[Result \"*\"]\n\n", verdict: Verdict::Refused(7, Reason::MarkerInVariation) },
        Vector { name: "40, another marker", mode: Mode::Full, input: "e4 (d4 1-0) *",
            output: "[Event \"?\"]\n[Site \"?\"]\n[Date \"????.??.??\"]\n[Round \"?\"]\n[White \"?\"]\n[Black \"?\"]\n[Result \"*\"]\n\n", verdict: Verdict::Refused(7, Reason::MarkerInVariation) },
        Vector { name: "40 before 41", mode: Mode::Full, input: "e4 (d4 1-0 *",
            output: "[Event \"?\"]\n[Site \"?\"]\n[Date \"????.??.??\"]\n[Round \"?\"]\n[White \"?\"]\n[Black \"?\"]\n[Result \"*\"]\n\n", verdict: Verdict::Refused(7, Reason::MarkerInVariation) },
        Vector { name: "41, in movetext", mode: Mode::Full, input: "e4 1-0 *",
            output: "[Event \"?\"]\n[Site \"?\"]\n[Date \"????.??.??\"]\n[Round \"?\"]\n[White \"?\"]\n[Black \"?\"]\n[Result \"*\"]\n\n", verdict: Verdict::Refused(3, Reason::ResultDiffers) },
        Vector { name: "42, illegal-king-move", mode: Mode::Full, input: "1. e4",
            output: "[Event \"?\"]\n[Site \"?\"]\n[Date \"????.??.??\"]\n[Round \"?\"]\n[White \"?\"]\n[Black \"?\"]\n[Result \"*\"]\n\n", verdict: Verdict::Refused(5, Reason::UnexpectedEnd) },
        Vector { name: "42, a number", mode: Mode::Full, input: "1",
            output: "[Event \"?\"]\n[Site \"?\"]\n[Date \"????.??.??\"]\n[Round \"?\"]\n[White \"?\"]\n[Black \"?\"]\n[Result \"*\"]\n\n", verdict: Verdict::Refused(1, Reason::UnexpectedEnd) },
        Vector { name: "42, a marker's front", mode: Mode::Full, input: "e4 1",
            output: "[Event \"?\"]\n[Site \"?\"]\n[Date \"????.??.??\"]\n[Round \"?\"]\n[White \"?\"]\n[Black \"?\"]\n[Result \"*\"]\n\n", verdict: Verdict::Refused(4, Reason::UnexpectedEnd) },
        Vector { name: "42, after a comment", mode: Mode::Full, input: "e4 {a}",
            output: "[Event \"?\"]\n[Site \"?\"]\n[Date \"????.??.??\"]\n[Round \"?\"]\n[White \"?\"]\n[Black \"?\"]\n[Result \"*\"]\n\n", verdict: Verdict::Refused(6, Reason::UnexpectedEnd) },
        Vector { name: "42, a line's comment", mode: Mode::Full, input: "e4 ;a",
            output: "[Event \"?\"]\n[Site \"?\"]\n[Date \"????.??.??\"]\n[Round \"?\"]\n[White \"?\"]\n[Black \"?\"]\n[Result \"*\"]\n\n", verdict: Verdict::Refused(5, Reason::UnexpectedEnd) },
    ]
}

/// Faults in a second game, whose first one is written.
#[rattlefmt::skip]
pub fn second_games() -> &'static [Vector] {
    &[
        Vector { name: "34, in a second game", mode: Mode::Full, input: "* 1. e4 e5 2. Ke3 *",
            output: "[Event \"?\"]\n[Site \"?\"]\n[Date \"????.??.??\"]\n[Round \"?\"]\n[White \"?\"]\n[Black \"?\"]\n[Result \"*\"]\n\n*\n\n[Event \"?\"]\n[Site \"?\"]\n[Date \"????.??.??\"]\n[Round \"?\"]\n[White \"?\"]\n[Black \"?\"]\n[Result \"*\"]\n\n", verdict: Verdict::Refused(14, Reason::IllegalMove) },
        Vector { name: "42, in a second game", mode: Mode::Full, input: "* 1. e4",
            output: "[Event \"?\"]\n[Site \"?\"]\n[Date \"????.??.??\"]\n[Round \"?\"]\n[White \"?\"]\n[Black \"?\"]\n[Result \"*\"]\n\n*\n\n[Event \"?\"]\n[Site \"?\"]\n[Date \"????.??.??\"]\n[Round \"?\"]\n[White \"?\"]\n[Black \"?\"]\n[Result \"*\"]\n\n", verdict: Verdict::Refused(7, Reason::UnexpectedEnd) },
        Vector { name: "41, in a second game", mode: Mode::Full, input: "* 1-0",
            output: "[Event \"?\"]\n[Site \"?\"]\n[Date \"????.??.??\"]\n[Round \"?\"]\n[White \"?\"]\n[Black \"?\"]\n[Result \"*\"]\n\n*\n\n", verdict: Verdict::Refused(2, Reason::ResultDiffers) },
        Vector { name: "33, in a second game with a pair", mode: Mode::Full, input: "[Result \"1-0\"] 1-0 [A \"1\"] e9 *",
            output: "[Event \"?\"]\n[Site \"?\"]\n[Date \"????.??.??\"]\n[Round \"?\"]\n[White \"?\"]\n[Black \"?\"]\n[Result \"1-0\"]\n\n1-0\n\n", verdict: Verdict::Refused(27, Reason::NotAMove) },
    ]
}
