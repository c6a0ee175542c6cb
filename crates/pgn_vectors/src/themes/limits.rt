// Written by bin/write_vectors from vectors/limits.toml.
//! Inputs at the limits, and one byte or token above them.
use crate::{Vector, Verdict};
use pgn_game::{LexReason, Mode, Reason};

/// Symbols and tag names.
#[rattlefmt::skip]
pub fn symbols_and_names() -> &'static [Vector] {
    &[
        Vector { name: "a symbol of 255 bytes", mode: Mode::Full, input: "aaaaaaaaaaaaaaaaaaaaaaaaaaaaaaaaaaaaaaaaaaaaaaaaaaaaaaaaaaaaaaaaaaaaaaaaaaaaaaaaaaaaaaaaaaaaaaaaaaaaaaaaaaaaaaaaaaaaaaaaaaaaaaaaaaaaaaaaaaaaaaaaaaaaaaaaaaaaaaaaaaaaaaaaaaaaaaaaaaaaaaaaaaaaaaaaaaaaaaaaaaaaaaaaaaaaaaaaaaaaaaaaaaaaaaaaaaaaaaaaaaaaaaaaaaaaaaa",
            output: "", verdict: Verdict::Refused(0, Reason::NotAMove) },
        Vector { name: "a symbol of 256 bytes", mode: Mode::Full, input: "aaaaaaaaaaaaaaaaaaaaaaaaaaaaaaaaaaaaaaaaaaaaaaaaaaaaaaaaaaaaaaaaaaaaaaaaaaaaaaaaaaaaaaaaaaaaaaaaaaaaaaaaaaaaaaaaaaaaaaaaaaaaaaaaaaaaaaaaaaaaaaaaaaaaaaaaaaaaaaaaaaaaaaaaaaaaaaaaaaaaaaaaaaaaaaaaaaaaaaaaaaaaaaaaaaaaaaaaaaaaaaaaaaaaaaaaaaaaaaaaaaaaaaaaaaaaaaaa",
            output: "", verdict: Verdict::Refused(0, Reason::Lexical(LexReason::SymbolTooLong)) },
        Vector { name: "a name of 249 bytes", mode: Mode::Full, input: "[aaaaaaaaaaaaaaaaaaaaaaaaaaaaaaaaaaaaaaaaaaaaaaaaaaaaaaaaaaaaaaaaaaaaaaaaaaaaaaaaaaaaaaaaaaaaaaaaaaaaaaaaaaaaaaaaaaaaaaaaaaaaaaaaaaaaaaaaaaaaaaaaaaaaaaaaaaaaaaaaaaaaaaaaaaaaaaaaaaaaaaaaaaaaaaaaaaaaaaaaaaaaaaaaaaaaaaaaaaaaaaaaaaaaaaaaaaaaaaaaaaaaaaaaa \"\"] *",
            output: "[Event \"?\"]\n[Site \"?\"]\n[Date \"????.??.??\"]\n[Round \"?\"]\n[White \"?\"]\n[Black \"?\"]\n[Result \"*\"]\n[aaaaaaaaaaaaaaaaaaaaaaaaaaaaaaaaaaaaaaaaaaaaaaaaaaaaaaaaaaaaaaaaaaaaaaaaaaaaaaaaaaaaaaaaaaaaaaaaaaaaaaaaaaaaaaaaaaaaaaaaaaaaaaaaaaaaaaaaaaaaaaaaaaaaaaaaaaaaaaaaaaaaaaaaaaaaaaaaaaaaaaaaaaaaaaaaaaaaaaaaaaaaaaaaaaaaaaaaaaaaaaaaaaaaaaaaaaaaaaaaaaaaaaaaa \"\"]\n\n*\n\n", verdict: Verdict::Converted { games: 1, plies: 0 } },
        Vector { name: "a name of 250 bytes", mode: Mode::Full, input: "[aaaaaaaaaaaaaaaaaaaaaaaaaaaaaaaaaaaaaaaaaaaaaaaaaaaaaaaaaaaaaaaaaaaaaaaaaaaaaaaaaaaaaaaaaaaaaaaaaaaaaaaaaaaaaaaaaaaaaaaaaaaaaaaaaaaaaaaaaaaaaaaaaaaaaaaaaaaaaaaaaaaaaaaaaaaaaaaaaaaaaaaaaaaaaaaaaaaaaaaaaaaaaaaaaaaaaaaaaaaaaaaaaaaaaaaaaaaaaaaaaaaaaaaaaa \"\"] *",
            output: "", verdict: Verdict::Refused(1, Reason::TagLineTooLong) },
    ]
}

/// Values of tags.
#[rattlefmt::skip]
pub fn values() -> &'static [Vector] {
    &[
        Vector { name: "a value of 248 bytes", mode: Mode::Full, input: "[A \"xxxxxxxxxxxxxxxxxxxxxxxxxxxxxxxxxxxxxxxxxxxxxxxxxxxxxxxxxxxxxxxxxxxxxxxxxxxxxxxxxxxxxxxxxxxxxxxxxxxxxxxxxxxxxxxxxxxxxxxxxxxxxxxxxxxxxxxxxxxxxxxxxxxxxxxxxxxxxxxxxxxxxxxxxxxxxxxxxxxxxxxxxxxxxxxxxxxxxxxxxxxxxxxxxxxxxxxxxxxxxxxxxxxxxxxxxxxxxxxxxxxxxxxx\"] *",
            output: "[Event \"?\"]\n[Site \"?\"]\n[Date \"????.??.??\"]\n[Round \"?\"]\n[White \"?\"]\n[Black \"?\"]\n[Result \"*\"]\n[A \"xxxxxxxxxxxxxxxxxxxxxxxxxxxxxxxxxxxxxxxxxxxxxxxxxxxxxxxxxxxxxxxxxxxxxxxxxxxxxxxxxxxxxxxxxxxxxxxxxxxxxxxxxxxxxxxxxxxxxxxxxxxxxxxxxxxxxxxxxxxxxxxxxxxxxxxxxxxxxxxxxxxxxxxxxxxxxxxxxxxxxxxxxxxxxxxxxxxxxxxxxxxxxxxxxxxxxxxxxxxxxxxxxxxxxxxxxxxxxxxxxxxxxxxx\"]\n\n*\n\n", verdict: Verdict::Converted { games: 1, plies: 0 } },
        Vector { name: "a value of 249 bytes", mode: Mode::Full, input: "[A \"xxxxxxxxxxxxxxxxxxxxxxxxxxxxxxxxxxxxxxxxxxxxxxxxxxxxxxxxxxxxxxxxxxxxxxxxxxxxxxxxxxxxxxxxxxxxxxxxxxxxxxxxxxxxxxxxxxxxxxxxxxxxxxxxxxxxxxxxxxxxxxxxxxxxxxxxxxxxxxxxxxxxxxxxxxxxxxxxxxxxxxxxxxxxxxxxxxxxxxxxxxxxxxxxxxxxxxxxxxxxxxxxxxxxxxxxxxxxxxxxxxxxxxxxx\"] *",
            output: "", verdict: Verdict::Refused(3, Reason::TagLineTooLong) },
        Vector { name: "a value of 255 bytes", mode: Mode::Full, input: "[A \"xxxxxxxxxxxxxxxxxxxxxxxxxxxxxxxxxxxxxxxxxxxxxxxxxxxxxxxxxxxxxxxxxxxxxxxxxxxxxxxxxxxxxxxxxxxxxxxxxxxxxxxxxxxxxxxxxxxxxxxxxxxxxxxxxxxxxxxxxxxxxxxxxxxxxxxxxxxxxxxxxxxxxxxxxxxxxxxxxxxxxxxxxxxxxxxxxxxxxxxxxxxxxxxxxxxxxxxxxxxxxxxxxxxxxxxxxxxxxxxxxxxxxxxxxxxxxxx\"] *",
            output: "", verdict: Verdict::Refused(3, Reason::TagLineTooLong) },
        Vector { name: "a value of 256 bytes", mode: Mode::Full, input: "[A \"xxxxxxxxxxxxxxxxxxxxxxxxxxxxxxxxxxxxxxxxxxxxxxxxxxxxxxxxxxxxxxxxxxxxxxxxxxxxxxxxxxxxxxxxxxxxxxxxxxxxxxxxxxxxxxxxxxxxxxxxxxxxxxxxxxxxxxxxxxxxxxxxxxxxxxxxxxxxxxxxxxxxxxxxxxxxxxxxxxxxxxxxxxxxxxxxxxxxxxxxxxxxxxxxxxxxxxxxxxxxxxxxxxxxxxxxxxxxxxxxxxxxxxxxxxxxxxxx\"] *",
            output: "", verdict: Verdict::Refused(3, Reason::Lexical(LexReason::StringTooLong)) },
    ]
}

/// Values with escaped bytes, and the longest line of a pair.
#[rattlefmt::skip]
pub fn escaped_values() -> &'static [Vector] {
    &[
        Vector { name: "124 escaped quotes", mode: Mode::Full, input: "[A \"\\\"\\\"\\\"\\\"\\\"\\\"\\\"\\\"\\\"\\\"\\\"\\\"\\\"\\\"\\\"\\\"\\\"\\\"\\\"\\\"\\\"\\\"\\\"\\\"\\\"\\\"\\\"\\\"\\\"\\\"\\\"\\\"\\\"\\\"\\\"\\\"\\\"\\\"\\\"\\\"\\\"\\\"\\\"\\\"\\\"\\\"\\\"\\\"\\\"\\\"\\\"\\\"\\\"\\\"\\\"\\\"\\\"\\\"\\\"\\\"\\\"\\\"\\\"\\\"\\\"\\\"\\\"\\\"\\\"\\\"\\\"\\\"\\\"\\\"\\\"\\\"\\\"\\\"\\\"\\\"\\\"\\\"\\\"\\\"\\\"\\\"\\\"\\\"\\\"\\\"\\\"\\\"\\\"\\\"\\\"\\\"\\\"\\\"\\\"\\\"\\\"\\\"\\\"\\\"\\\"\\\"\\\"\\\"\\\"\\\"\\\"\\\"\\\"\\\"\\\"\\\"\\\"\\\"\\\"\\\"\\\"\\\"\\\"\\\"\"] *",
            output: "[Event \"?\"]\n[Site \"?\"]\n[Date \"????.??.??\"]\n[Round \"?\"]\n[White \"?\"]\n[Black \"?\"]\n[Result \"*\"]\n[A \"\\\"\\\"\\\"\\\"\\\"\\\"\\\"\\\"\\\"\\\"\\\"\\\"\\\"\\\"\\\"\\\"\\\"\\\"\\\"\\\"\\\"\\\"\\\"\\\"\\\"\\\"\\\"\\\"\\\"\\\"\\\"\\\"\\\"\\\"\\\"\\\"\\\"\\\"\\\"\\\"\\\"\\\"\\\"\\\"\\\"\\\"\\\"\\\"\\\"\\\"\\\"\\\"\\\"\\\"\\\"\\\"\\\"\\\"\\\"\\\"\\\"\\\"\\\"\\\"\\\"\\\"\\\"\\\"\\\"\\\"\\\"\\\"\\\"\\\"\\\"\\\"\\\"\\\"\\\"\\\"\\\"\\\"\\\"\\\"\\\"\\\"\\\"\\\"\\\"\\\"\\\"\\\"\\\"\\\"\\\"\\\"\\\"\\\"\\\"\\\"\\\"\\\"\\\"\\\"\\\"\\\"\\\"\\\"\\\"\\\"\\\"\\\"\\\"\\\"\\\"\\\"\\\"\\\"\\\"\\\"\\\"\\\"\\\"\\\"\"]\n\n*\n\n", verdict: Verdict::Converted { games: 1, plies: 0 } },
        Vector { name: "125 escaped quotes", mode: Mode::Full, input: "[A \"\\\"\\\"\\\"\\\"\\\"\\\"\\\"\\\"\\\"\\\"\\\"\\\"\\\"\\\"\\\"\\\"\\\"\\\"\\\"\\\"\\\"\\\"\\\"\\\"\\\"\\\"\\\"\\\"\\\"\\\"\\\"\\\"\\\"\\\"\\\"\\\"\\\"\\\"\\\"\\\"\\\"\\\"\\\"\\\"\\\"\\\"\\\"\\\"\\\"\\\"\\\"\\\"\\\"\\\"\\\"\\\"\\\"\\\"\\\"\\\"\\\"\\\"\\\"\\\"\\\"\\\"\\\"\\\"\\\"\\\"\\\"\\\"\\\"\\\"\\\"\\\"\\\"\\\"\\\"\\\"\\\"\\\"\\\"\\\"\\\"\\\"\\\"\\\"\\\"\\\"\\\"\\\"\\\"\\\"\\\"\\\"\\\"\\\"\\\"\\\"\\\"\\\"\\\"\\\"\\\"\\\"\\\"\\\"\\\"\\\"\\\"\\\"\\\"\\\"\\\"\\\"\\\"\\\"\\\"\\\"\\\"\\\"\\\"\\\"\\\"\"] *",
            output: "", verdict: Verdict::Refused(3, Reason::TagLineTooLong) },
        Vector { name: "tag-limits", mode: Mode::Full, input: "[Event \"vvvvvvvvvvvvvvvvvvvvvvvvvvvvvvvvvvvvvvvvvvvvvvvvvvvvvvvvvvvvvvvvvvvvvvvvvvvvvvvvvvvvvvvvvvvvvvvvvvvvvvvvvvvvvvvvvvvvvvvvvvvvvvvvvvvvvvvvvvvvvvvvvvvvvvvvvvvvvvvvvvvvvvvvvvvvvvvvvvvvvvvvvvvvvvvvvvvvvvvvvvvvvvvvvvvvvvvvvvvvvvvvvvvvvvvvvvvvvvvvvvvv\"] *",
            output: "[Event \"vvvvvvvvvvvvvvvvvvvvvvvvvvvvvvvvvvvvvvvvvvvvvvvvvvvvvvvvvvvvvvvvvvvvvvvvvvvvvvvvvvvvvvvvvvvvvvvvvvvvvvvvvvvvvvvvvvvvvvvvvvvvvvvvvvvvvvvvvvvvvvvvvvvvvvvvvvvvvvvvvvvvvvvvvvvvvvvvvvvvvvvvvvvvvvvvvvvvvvvvvvvvvvvvvvvvvvvvvvvvvvvvvvvvvvvvvvvvvvvvvvvv\"]\n[Site \"?\"]\n[Date \"????.??.??\"]\n[Round \"?\"]\n[White \"?\"]\n[Black \"?\"]\n[Result \"*\"]\n\n*\n\n", verdict: Verdict::Converted { games: 1, plies: 0 } },
        Vector { name: "tag-limits, one byte more", mode: Mode::Full, input: "[Event \"vvvvvvvvvvvvvvvvvvvvvvvvvvvvvvvvvvvvvvvvvvvvvvvvvvvvvvvvvvvvvvvvvvvvvvvvvvvvvvvvvvvvvvvvvvvvvvvvvvvvvvvvvvvvvvvvvvvvvvvvvvvvvvvvvvvvvvvvvvvvvvvvvvvvvvvvvvvvvvvvvvvvvvvvvvvvvvvvvvvvvvvvvvvvvvvvvvvvvvvvvvvvvvvvvvvvvvvvvvvvvvvvvvvvvvvvvvvvvvvvvvvvv\"] *",
            output: "", verdict: Verdict::Refused(7, Reason::TagLineTooLong) },
    ]
}

/// As many tag pairs as there is room for.
#[rattlefmt::skip]
pub fn pairs() -> &'static [Vector] {
    &[
        Vector { name: "64 pairs", mode: Mode::Full, input: "[T10 \"v\"][T11 \"v\"][T12 \"v\"][T13 \"v\"][T14 \"v\"][T15 \"v\"][T16 \"v\"][T17 \"v\"][T18 \"v\"][T19 \"v\"][T20 \"v\"][T21 \"v\"][T22 \"v\"][T23 \"v\"][T24 \"v\"][T25 \"v\"][T26 \"v\"][T27 \"v\"][T28 \"v\"][T29 \"v\"][T30 \"v\"][T31 \"v\"][T32 \"v\"][T33 \"v\"][T34 \"v\"][T35 \"v\"][T36 \"v\"][T37 \"v\"][T38 \"v\"][T39 \"v\"][T40 \"v\"][T41 \"v\"][T42 \"v\"][T43 \"v\"][T44 \"v\"][T45 \"v\"][T46 \"v\"][T47 \"v\"][T48 \"v\"][T49 \"v\"][T50 \"v\"][T51 \"v\"][T52 \"v\"][T53 \"v\"][T54 \"v\"][T55 \"v\"][T56 \"v\"][T57 \"v\"][T58 \"v\"][T59 \"v\"][T60 \"v\"][T61 \"v\"][T62 \"v\"][T63 \"v\"][T64 \"v\"][T65 \"v\"][T66 \"v\"][T67 \"v\"][T68 \"v\"][T69 \"v\"][T70 \"v\"][T71 \"v\"][T72 \"v\"][T73 \"v\"] *",
            output: "[Event \"?\"]\n[Site \"?\"]\n[Date \"????.??.??\"]\n[Round \"?\"]\n[White \"?\"]\n[Black \"?\"]\n[Result \"*\"]\n[T10 \"v\"]\n[T11 \"v\"]\n[T12 \"v\"]\n[T13 \"v\"]\n[T14 \"v\"]\n[T15 \"v\"]\n[T16 \"v\"]\n[T17 \"v\"]\n[T18 \"v\"]\n[T19 \"v\"]\n[T20 \"v\"]\n[T21 \"v\"]\n[T22 \"v\"]\n[T23 \"v\"]\n[T24 \"v\"]\n[T25 \"v\"]\n[T26 \"v\"]\n[T27 \"v\"]\n[T28 \"v\"]\n[T29 \"v\"]\n[T30 \"v\"]\n[T31 \"v\"]\n[T32 \"v\"]\n[T33 \"v\"]\n[T34 \"v\"]\n[T35 \"v\"]\n[T36 \"v\"]\n[T37 \"v\"]\n[T38 \"v\"]\n[T39 \"v\"]\n[T40 \"v\"]\n[T41 \"v\"]\n[T42 \"v\"]\n[T43 \"v\"]\n[T44 \"v\"]\n[T45 \"v\"]\n[T46 \"v\"]\n[T47 \"v\"]\n[T48 \"v\"]\n[T49 \"v\"]\n[T50 \"v\"]\n[T51 \"v\"]\n[T52 \"v\"]\n[T53 \"v\"]\n[T54 \"v\"]\n[T55 \"v\"]\n[T56 \"v\"]\n[T57 \"v\"]\n[T58 \"v\"]\n[T59 \"v\"]\n[T60 \"v\"]\n[T61 \"v\"]\n[T62 \"v\"]\n[T63 \"v\"]\n[T64 \"v\"]\n[T65 \"v\"]\n[T66 \"v\"]\n[T67 \"v\"]\n[T68 \"v\"]\n[T69 \"v\"]\n[T70 \"v\"]\n[T71 \"v\"]\n[T72 \"v\"]\n[T73 \"v\"]\n\n*\n\n", verdict: Verdict::Converted { games: 1, plies: 0 } },
    ]
}

/// One tag pair more.
#[rattlefmt::skip]
pub fn more_pairs() -> &'static [Vector] {
    &[
        Vector { name: "65 pairs", mode: Mode::Full, input: "[T10 \"v\"][T11 \"v\"][T12 \"v\"][T13 \"v\"][T14 \"v\"][T15 \"v\"][T16 \"v\"][T17 \"v\"][T18 \"v\"][T19 \"v\"][T20 \"v\"][T21 \"v\"][T22 \"v\"][T23 \"v\"][T24 \"v\"][T25 \"v\"][T26 \"v\"][T27 \"v\"][T28 \"v\"][T29 \"v\"][T30 \"v\"][T31 \"v\"][T32 \"v\"][T33 \"v\"][T34 \"v\"][T35 \"v\"][T36 \"v\"][T37 \"v\"][T38 \"v\"][T39 \"v\"][T40 \"v\"][T41 \"v\"][T42 \"v\"][T43 \"v\"][T44 \"v\"][T45 \"v\"][T46 \"v\"][T47 \"v\"][T48 \"v\"][T49 \"v\"][T50 \"v\"][T51 \"v\"][T52 \"v\"][T53 \"v\"][T54 \"v\"][T55 \"v\"][T56 \"v\"][T57 \"v\"][T58 \"v\"][T59 \"v\"][T60 \"v\"][T61 \"v\"][T62 \"v\"][T63 \"v\"][T64 \"v\"][T65 \"v\"][T66 \"v\"][T67 \"v\"][T68 \"v\"][T69 \"v\"][T70 \"v\"][T71 \"v\"][T72 \"v\"][T73 \"v\"][T74 \"v\"] *",
            output: "", verdict: Verdict::Refused(576, Reason::TooManyTags) },
    ]
}

/// The depth of variations.
#[rattlefmt::skip]
pub fn depth() -> &'static [Vector] {
    &[
        Vector { name: "32 variations", mode: Mode::Full, input: "e4 (d4 (d4 (d4 (d4 (d4 (d4 (d4 (d4 (d4 (d4 (d4 (d4 (d4 (d4 (d4 (d4 (d4 (d4 (d4 (d4 (d4 (d4 (d4 (d4 (d4 (d4 (d4 (d4 (d4 (d4 (d4 (d4)))))))))))))))))))))))))))))))) *",
            output: "[Event \"?\"]\n[Site \"?\"]\n[Date \"????.??.??\"]\n[Round \"?\"]\n[White \"?\"]\n[Black \"?\"]\n[Result \"*\"]\n\n1. e4 ( 1. d4 ( 1. d4 ( 1. d4 ( 1. d4 ( 1. d4 ( 1. d4 ( 1. d4 ( 1. d4 ( 1. d4 (\n1. d4 ( 1. d4 ( 1. d4 ( 1. d4 ( 1. d4 ( 1. d4 ( 1. d4 ( 1. d4 ( 1. d4 ( 1. d4 (\n1. d4 ( 1. d4 ( 1. d4 ( 1. d4 ( 1. d4 ( 1. d4 ( 1. d4 ( 1. d4 ( 1. d4 ( 1. d4 (\n1. d4 ( 1. d4 ( 1. d4 ) ) ) ) ) ) ) ) ) ) ) ) ) ) ) ) ) ) ) ) ) ) ) ) ) ) ) ) )\n) ) ) *\n\n", verdict: Verdict::Converted { games: 1, plies: 1 } },
        Vector { name: "32 variations, reduced", mode: Mode::Reduced, input: "e4 (d4 (d4 (d4 (d4 (d4 (d4 (d4 (d4 (d4 (d4 (d4 (d4 (d4 (d4 (d4 (d4 (d4 (d4 (d4 (d4 (d4 (d4 (d4 (d4 (d4 (d4 (d4 (d4 (d4 (d4 (d4 (d4)))))))))))))))))))))))))))))))) *",
            output: "[Event \"?\"]\n[Site \"?\"]\n[Date \"????.??.??\"]\n[Round \"?\"]\n[White \"?\"]\n[Black \"?\"]\n[Result \"*\"]\n\n1. e4 *\n\n", verdict: Verdict::Converted { games: 1, plies: 1 } },
        Vector { name: "33 variations", mode: Mode::Full, input: "e4 (d4 (d4 (d4 (d4 (d4 (d4 (d4 (d4 (d4 (d4 (d4 (d4 (d4 (d4 (d4 (d4 (d4 (d4 (d4 (d4 (d4 (d4 (d4 (d4 (d4 (d4 (d4 (d4 (d4 (d4 (d4 (d4 (d4",
            output: "[Event \"?\"]\n[Site \"?\"]\n[Date \"????.??.??\"]\n[Round \"?\"]\n[White \"?\"]\n[Black \"?\"]\n[Result \"*\"]\n\n1. e4 ( 1. d4 ( 1. d4 ( 1. d4 ( 1. d4 ( 1. d4 ( 1. d4 ( 1. d4 ( 1. d4 ( 1. d4 (\n1. d4 ( 1. d4 ( 1. d4 ( 1. d4 ( 1. d4 ( 1. d4 ( 1. d4 ( 1. d4 ( 1. d4 ( 1. d4 (\n1. d4 ( 1. d4 ( 1. d4 ( 1. d4 ( 1. d4 ( 1. d4 ( 1. d4 ( 1. d4 ( 1. d4 ( 1. d4 (\n", verdict: Verdict::Refused(131, Reason::TooDeep) },
    ]
}

/// Words of comments, and lines that are full.
#[rattlefmt::skip]
pub fn words() -> &'static [Vector] {
    &[
        Vector { name: "long-word", mode: Mode::Full, input: "1. e4 {wwwwwwwwwwwwwwwwwwwwwwwwwwwwwwwwwwwwwwwwwwwwwwwwwwwwwwwwwwwwwwwwwwwwwwwwwwwwwww} *",
            output: "[Event \"?\"]\n[Site \"?\"]\n[Date \"????.??.??\"]\n[Round \"?\"]\n[White \"?\"]\n[Black \"?\"]\n[Result \"*\"]\n\n1. e4 {\nwwwwwwwwwwwwwwwwwwwwwwwwwwwwwwwwwwwwwwwwwwwwwwwwwwwwwwwwwwwwwwwwwwwwwwwwwwwwwww\n} *\n\n", verdict: Verdict::Converted { games: 1, plies: 1 } },
        Vector { name: "long-word, one byte more", mode: Mode::Full, input: "1. e4 {wwwwwwwwwwwwwwwwwwwwwwwwwwwwwwwwwwwwwwwwwwwwwwwwwwwwwwwwwwwwwwwwwwwwwwwwwwwwwwww} *",
            output: "[Event \"?\"]\n[Site \"?\"]\n[Date \"????.??.??\"]\n[Round \"?\"]\n[White \"?\"]\n[Black \"?\"]\n[Result \"*\"]\n\n", verdict: Verdict::Refused(7, Reason::Lexical(LexReason::WordTooLong)) },
        Vector { name: "a line that is full before the fault", mode: Mode::Full, input: "e4 {wwwwwwwwwwwwwwwwwwwwwwwwwwwwwwwwwwwwwwwwwwwwwwwwwwwwwwwwwwwwwwwwwwwwwwww x} e5 Ke3 *",
            output: "[Event \"?\"]\n[Site \"?\"]\n[Date \"????.??.??\"]\n[Round \"?\"]\n[White \"?\"]\n[Black \"?\"]\n[Result \"*\"]\n\n1. e4 {\nwwwwwwwwwwwwwwwwwwwwwwwwwwwwwwwwwwwwwwwwwwwwwwwwwwwwwwwwwwwwwwwwwwwwwwww x }\n", verdict: Verdict::Refused(83, Reason::IllegalMove) },
        Vector { name: "a word that ends with the input", mode: Mode::Full, input: "1. e4 {wwwwwwwwwwwwwwwwwwwwwwwwwwwwwwwwwwwwwwwwwwwwwwwwwwwwwwwwwwwwwwwwwwwwwwwwwwwwwww",
            output: "[Event \"?\"]\n[Site \"?\"]\n[Date \"????.??.??\"]\n[Round \"?\"]\n[White \"?\"]\n[Black \"?\"]\n[Result \"*\"]\n\n1. e4 {\n", verdict: Verdict::Refused(86, Reason::Lexical(LexReason::UnclosedComment)) },
        Vector { name: "a word before a control byte", mode: Mode::Full, input: "1. e4 {wwwwwwwwwwwwwwwwwwwwwwwwwwwwwwwwwwwwwwwwwwwwwwwwwwwwwwwwwwwwwwwwwwwwwwwwwwwwwww\u{1}} *",
            output: "[Event \"?\"]\n[Site \"?\"]\n[Date \"????.??.??\"]\n[Round \"?\"]\n[White \"?\"]\n[Black \"?\"]\n[Result \"*\"]\n\n1. e4 {\n", verdict: Verdict::Refused(86, Reason::Lexical(LexReason::ControlByte)) },
        Vector { name: "a word before a closing brace in a line comment", mode: Mode::Full, input: "1. e4 ;wwwwwwwwwwwwwwwwwwwwwwwwwwwwwwwwwwwwwwwwwwwwwwwwwwwwwwwwwwwwwwwwwwwwwwwwwwwwwww}",
            output: "[Event \"?\"]\n[Site \"?\"]\n[Date \"????.??.??\"]\n[Round \"?\"]\n[White \"?\"]\n[Black \"?\"]\n[Result \"*\"]\n\n1. e4 {\n", verdict: Verdict::Refused(86, Reason::Lexical(LexReason::BraceInLineComment)) },
    ]
}
