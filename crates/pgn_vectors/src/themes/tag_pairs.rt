// Written by bin/write_vectors from vectors/tag_pairs.toml.
//! Games with tag pairs, from the usual first position.
use crate::{Vector, Verdict};
use pgn_game::Mode;

/// The Result tag and the marker.
#[rattlefmt::skip]
pub fn results() -> &'static [Vector] {
    &[
        Vector { name: "fools-mate", mode: Mode::Full, input: "[Result \"0-1\"]\nf3 e5 g4 Qh4 0-1",
            output: "[Event \"?\"]\n[Site \"?\"]\n[Date \"????.??.??\"]\n[Round \"?\"]\n[White \"?\"]\n[Black \"?\"]\n[Result \"0-1\"]\n\n1. f3 e5 2. g4 Qh4# 0-1\n\n", verdict: Verdict::Converted { games: 1, plies: 4 } },
        Vector { name: "White wins", mode: Mode::Full, input: "[Result \"1-0\"]1-0",
            output: "[Event \"?\"]\n[Site \"?\"]\n[Date \"????.??.??\"]\n[Round \"?\"]\n[White \"?\"]\n[Black \"?\"]\n[Result \"1-0\"]\n\n1-0\n\n", verdict: Verdict::Converted { games: 1, plies: 0 } },
        Vector { name: "Black wins", mode: Mode::Full, input: "[Result \"0-1\"]\r\n0-1\r\n",
            output: "[Event \"?\"]\n[Site \"?\"]\n[Date \"????.??.??\"]\n[Round \"?\"]\n[White \"?\"]\n[Black \"?\"]\n[Result \"0-1\"]\n\n0-1\n\n", verdict: Verdict::Converted { games: 1, plies: 0 } },
        Vector { name: "a draw", mode: Mode::Full, input: "[Result \"1/2-1/2\"] 1/2-1/2",
            output: "[Event \"?\"]\n[Site \"?\"]\n[Date \"????.??.??\"]\n[Round \"?\"]\n[White \"?\"]\n[Black \"?\"]\n[Result \"1/2-1/2\"]\n\n1/2-1/2\n\n", verdict: Verdict::Converted { games: 1, plies: 0 } },
        Vector { name: "a draw with moves and glyphs", mode: Mode::Full, input: "[Result \"1/2-1/2\"] e4 $255 e5!? 1/2-1/2 ",
            output: "[Event \"?\"]\n[Site \"?\"]\n[Date \"????.??.??\"]\n[Round \"?\"]\n[White \"?\"]\n[Black \"?\"]\n[Result \"1/2-1/2\"]\n\n1. e4 $255 1... e5 $5 1/2-1/2\n\n", verdict: Verdict::Converted { games: 1, plies: 2 } },
        Vector { name: "no result", mode: Mode::Full, input: "[Result \"*\"] *",
            output: "[Event \"?\"]\n[Site \"?\"]\n[Date \"????.??.??\"]\n[Round \"?\"]\n[White \"?\"]\n[Black \"?\"]\n[Result \"*\"]\n\n*\n\n", verdict: Verdict::Converted { games: 1, plies: 0 } },
        Vector { name: "a game after a result", mode: Mode::Full, input: "[Result \"1-0\"] 1-0 *",
            output: "[Event \"?\"]\n[Site \"?\"]\n[Date \"????.??.??\"]\n[Round \"?\"]\n[White \"?\"]\n[Black \"?\"]\n[Result \"1-0\"]\n\n1-0\n\n[Event \"?\"]\n[Site \"?\"]\n[Date \"????.??.??\"]\n[Round \"?\"]\n[White \"?\"]\n[Black \"?\"]\n[Result \"*\"]\n\n*\n\n", verdict: Verdict::Converted { games: 2, plies: 0 } },
        Vector { name: "two games with pairs", mode: Mode::Full, input: "[A \"1\"] * [B \"2\"] *",
            output: "[Event \"?\"]\n[Site \"?\"]\n[Date \"????.??.??\"]\n[Round \"?\"]\n[White \"?\"]\n[Black \"?\"]\n[Result \"*\"]\n[A \"1\"]\n\n*\n\n[Event \"?\"]\n[Site \"?\"]\n[Date \"????.??.??\"]\n[Round \"?\"]\n[White \"?\"]\n[Black \"?\"]\n[Result \"*\"]\n[B \"2\"]\n\n*\n\n", verdict: Verdict::Converted { games: 2, plies: 0 } },
    ]
}

/// The order of the tag pairs, and bytes that a value escapes.
#[rattlefmt::skip]
pub fn order_and_escapes() -> &'static [Vector] {
    &[
        Vector { name: "tag-order", mode: Mode::Full, input: "[b \"2\"][Site \"x\\\"y\\\\z\\q\"][A \"1\"] *",
            output: "[Event \"?\"]\n[Site \"x\\\"y\\\\z\\\\q\"]\n[Date \"????.??.??\"]\n[Round \"?\"]\n[White \"?\"]\n[Black \"?\"]\n[Result \"*\"]\n[A \"1\"]\n[b \"2\"]\n\n*\n\n", verdict: Verdict::Converted { games: 1, plies: 0 } },
        Vector { name: "tag-order, reduced", mode: Mode::Reduced, input: "[b \"2\"][Site \"x\\\"y\\\\z\\q\"][A \"1\"] *",
            output: "[Event \"?\"]\n[Site \"x\\\"y\\\\z\\\\q\"]\n[Date \"????.??.??\"]\n[Round \"?\"]\n[White \"?\"]\n[Black \"?\"]\n[Result \"*\"]\n\n*\n\n", verdict: Verdict::Converted { games: 1, plies: 0 } },
        Vector { name: "names in byte order", mode: Mode::Full, input: "[b \"2\"][A \"1\"] *",
            output: "[Event \"?\"]\n[Site \"?\"]\n[Date \"????.??.??\"]\n[Round \"?\"]\n[White \"?\"]\n[Black \"?\"]\n[Result \"*\"]\n[A \"1\"]\n[b \"2\"]\n\n*\n\n", verdict: Verdict::Converted { games: 1, plies: 0 } },
        Vector { name: "escapes in a value", mode: Mode::Full, input: "[A \"x\\\"y\\\\z\\q\"] 1. e4 e5 *",
            output: "[Event \"?\"]\n[Site \"?\"]\n[Date \"????.??.??\"]\n[Round \"?\"]\n[White \"?\"]\n[Black \"?\"]\n[Result \"*\"]\n[A \"x\\\"y\\\\z\\\\q\"]\n\n1. e4 e5 *\n\n", verdict: Verdict::Converted { games: 1, plies: 2 } },
        Vector { name: "an empty value", mode: Mode::Full, input: "[A \"\"] *",
            output: "[Event \"?\"]\n[Site \"?\"]\n[Date \"????.??.??\"]\n[Round \"?\"]\n[White \"?\"]\n[Black \"?\"]\n[Result \"*\"]\n[A \"\"]\n\n*\n\n", verdict: Verdict::Converted { games: 1, plies: 0 } },
        Vector { name: "bytes from 128 in a value", mode: Mode::Full, input: "[A \"Müller\"] *",
            output: "[Event \"?\"]\n[Site \"?\"]\n[Date \"????.??.??\"]\n[Round \"?\"]\n[White \"?\"]\n[Black \"?\"]\n[Result \"*\"]\n[A \"Müller\"]\n\n*\n\n", verdict: Verdict::Converted { games: 1, plies: 0 } },
    ]
}

/// Comments inside a tag pair and beside it.
#[rattlefmt::skip]
pub fn comments() -> &'static [Vector] {
    &[
        Vector { name: "comments in a pair", mode: Mode::Full, input: "{a}[A {b} \"1\"{c}] *{d}",
            output: "[Event \"?\"]\n[Site \"?\"]\n[Date \"????.??.??\"]\n[Round \"?\"]\n[White \"?\"]\n[Black \"?\"]\n[Result \"*\"]\n[A \"1\"]\n\n*\n\n", verdict: Verdict::Converted { games: 1, plies: 0 } },
        Vector { name: "comments in a pair, and a move", mode: Mode::Full, input: "{a}[A {b} \"1\"{c}] e4 *{d}",
            output: "[Event \"?\"]\n[Site \"?\"]\n[Date \"????.??.??\"]\n[Round \"?\"]\n[White \"?\"]\n[Black \"?\"]\n[Result \"*\"]\n[A \"1\"]\n\n1. e4 *\n\n", verdict: Verdict::Converted { games: 1, plies: 1 } },
        Vector { name: "a comment after the pairs", mode: Mode::Full, input: "[A \"1\"]{a} *",
            output: "[Event \"?\"]\n[Site \"?\"]\n[Date \"????.??.??\"]\n[Round \"?\"]\n[White \"?\"]\n[Black \"?\"]\n[Result \"*\"]\n[A \"1\"]\n\n{ a } *\n\n", verdict: Verdict::Converted { games: 1, plies: 0 } },
        Vector { name: "comments before and after the pairs", mode: Mode::Full, input: "{a}[A \"1\"]{a} *",
            output: "[Event \"?\"]\n[Site \"?\"]\n[Date \"????.??.??\"]\n[Round \"?\"]\n[White \"?\"]\n[Black \"?\"]\n[Result \"*\"]\n[A \"1\"]\n\n{ a } *\n\n", verdict: Verdict::Converted { games: 1, plies: 0 } },
        Vector { name: "dropped-comments", mode: Mode::Full, input: "{intro} [White \"A\"] {start} 1. e4 *{after}",
            output: "[Event \"?\"]\n[Site \"?\"]\n[Date \"????.??.??\"]\n[Round \"?\"]\n[White \"A\"]\n[Black \"?\"]\n[Result \"*\"]\n\n{ start } 1. e4 *\n\n", verdict: Verdict::Converted { games: 1, plies: 1 } },
    ]
}

/// How a text begins: a byte order mark, an escape line, a pair named as a move.
#[rattlefmt::skip]
pub fn beginnings() -> &'static [Vector] {
    &[
        Vector { name: "byte-order-mark", mode: Mode::Full, input: "\u{feff}%x\r\n;c\r\n[White \"A\"]\r\n1. e4 {a\n%b}*",
            output: "[Event \"?\"]\n[Site \"?\"]\n[Date \"????.??.??\"]\n[Round \"?\"]\n[White \"A\"]\n[Black \"?\"]\n[Result \"*\"]\n\n1. e4 { a %b } *\n\n", verdict: Verdict::Converted { games: 1, plies: 1 } },
        Vector { name: "a byte order mark, and no move", mode: Mode::Full, input: "\u{feff}%x\r\n;c\r\n[White \"A\"]\r\n*",
            output: "[Event \"?\"]\n[Site \"?\"]\n[Date \"????.??.??\"]\n[Round \"?\"]\n[White \"A\"]\n[Black \"?\"]\n[Result \"*\"]\n\n*\n\n", verdict: Verdict::Converted { games: 1, plies: 0 } },
        Vector { name: "a pair on a line", mode: Mode::Full, input: "[White \"A\"]\r\n*",
            output: "[Event \"?\"]\n[Site \"?\"]\n[Date \"????.??.??\"]\n[Round \"?\"]\n[White \"A\"]\n[Black \"?\"]\n[Result \"*\"]\n\n*\n\n", verdict: Verdict::Converted { games: 1, plies: 0 } },
        Vector { name: "a byte order mark, and no pair", mode: Mode::Full, input: "\u{feff}%x\r\n;c\r\n*",
            output: "[Event \"?\"]\n[Site \"?\"]\n[Date \"????.??.??\"]\n[Round \"?\"]\n[White \"?\"]\n[Black \"?\"]\n[Result \"*\"]\n\n*\n\n", verdict: Verdict::Converted { games: 1, plies: 0 } },
        Vector { name: "a pair named as a move", mode: Mode::Full, input: "[e4 \"d4\"] e4 *",
            output: "[Event \"?\"]\n[Site \"?\"]\n[Date \"????.??.??\"]\n[Round \"?\"]\n[White \"?\"]\n[Black \"?\"]\n[Result \"*\"]\n[e4 \"d4\"]\n\n1. e4 *\n\n", verdict: Verdict::Converted { games: 1, plies: 1 } },
    ]
}

/// SetUp, and names like it.
#[rattlefmt::skip]
pub fn set_up() -> &'static [Vector] {
    &[
        Vector { name: "SetUp without a FEN", mode: Mode::Full, input: "[SetUp \"0\"] *",
            output: "[Event \"?\"]\n[Site \"?\"]\n[Date \"????.??.??\"]\n[Round \"?\"]\n[White \"?\"]\n[Black \"?\"]\n[Result \"*\"]\n[SetUp \"0\"]\n\n*\n\n", verdict: Verdict::Converted { games: 1, plies: 0 } },
        Vector { name: "SetUp without a FEN, and a move", mode: Mode::Full, input: "[SetUp \"0\"] e4 *",
            output: "[Event \"?\"]\n[Site \"?\"]\n[Date \"????.??.??\"]\n[Round \"?\"]\n[White \"?\"]\n[Black \"?\"]\n[Result \"*\"]\n[SetUp \"0\"]\n\n1. e4 *\n\n", verdict: Verdict::Converted { games: 1, plies: 1 } },
        Vector { name: "a name that differs in its case", mode: Mode::Full, input: "[setUp \"1\"] *",
            output: "[Event \"?\"]\n[Site \"?\"]\n[Date \"????.??.??\"]\n[Round \"?\"]\n[White \"?\"]\n[Black \"?\"]\n[Result \"*\"]\n[setUp \"1\"]\n\n*\n\n", verdict: Verdict::Converted { games: 1, plies: 0 } },
        Vector { name: "SetUp among names like it", mode: Mode::Full, input: "[a \"1\"][SetUpX \"2\"][SetUp \"x\"][SetU \"3\"] *",
            output: "[Event \"?\"]\n[Site \"?\"]\n[Date \"????.??.??\"]\n[Round \"?\"]\n[White \"?\"]\n[Black \"?\"]\n[Result \"*\"]\n[SetU \"3\"]\n[SetUp \"x\"]\n[SetUpX \"2\"]\n[a \"1\"]\n\n*\n\n", verdict: Verdict::Converted { games: 1, plies: 0 } },
        Vector { name: "a pair outside the roster, reduced", mode: Mode::Reduced, input: "[ECO \"C20\"] *",
            output: "[Event \"?\"]\n[Site \"?\"]\n[Date \"????.??.??\"]\n[Round \"?\"]\n[White \"?\"]\n[Black \"?\"]\n[Result \"*\"]\n\n*\n\n", verdict: Verdict::Converted { games: 1, plies: 0 } },
        Vector { name: "SetUp without a FEN, reduced", mode: Mode::Reduced, input: "[SetUp \"0\"] *",
            output: "[Event \"?\"]\n[Site \"?\"]\n[Date \"????.??.??\"]\n[Round \"?\"]\n[White \"?\"]\n[Black \"?\"]\n[Result \"*\"]\n\n*\n\n", verdict: Verdict::Converted { games: 1, plies: 0 } },
    ]
}
