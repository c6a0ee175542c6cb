// Written by bin/write_vectors from vectors/variations.toml.
//! Games with variations, in full and reduced, and inputs that are rejected in a variation.
use crate::{Vector, Verdict};
use pgn_game::{Mode, Reason};

/// One variation, or two of the same move.
#[rattlefmt::skip]
pub fn one_variation() -> &'static [Vector] {
    &[
        Vector { name: "sibling-variations", mode: Mode::Full, input: "1. e4 (1. d4 d5) (1. c4) e5 *",
            output: "[Event \"?\"]\n[Site \"?\"]\n[Date \"????.??.??\"]\n[Round \"?\"]\n[White \"?\"]\n[Black \"?\"]\n[Result \"*\"]\n\n1. e4 ( 1. d4 d5 ) ( 1. c4 ) 1... e5 *\n\n", verdict: Verdict::Converted { games: 1, plies: 2 } },
        Vector { name: "sibling-variations, reduced", mode: Mode::Reduced, input: "1. e4 (1. d4 d5) (1. c4) e5 *",
            output: "[Event \"?\"]\n[Site \"?\"]\n[Date \"????.??.??\"]\n[Round \"?\"]\n[White \"?\"]\n[Black \"?\"]\n[Result \"*\"]\n\n1. e4 e5 *\n\n", verdict: Verdict::Converted { games: 1, plies: 2 } },
        Vector { name: "a variation of Black's move", mode: Mode::Full, input: "1. e4 e5 (1... c5 2. Nf3) 2. Nf3 *",
            output: "[Event \"?\"]\n[Site \"?\"]\n[Date \"????.??.??\"]\n[Round \"?\"]\n[White \"?\"]\n[Black \"?\"]\n[Result \"*\"]\n\n1. e4 e5 ( 1... c5 2. Nf3 ) 2. Nf3 *\n\n", verdict: Verdict::Converted { games: 1, plies: 3 } },
        Vector { name: "a variation of Black's move, reduced", mode: Mode::Reduced, input: "1. e4 e5 (1... c5 2. Nf3) 2. Nf3 *",
            output: "[Event \"?\"]\n[Site \"?\"]\n[Date \"????.??.??\"]\n[Round \"?\"]\n[White \"?\"]\n[Black \"?\"]\n[Result \"*\"]\n\n1. e4 e5 2. Nf3 *\n\n", verdict: Verdict::Converted { games: 1, plies: 3 } },
        Vector { name: "an empty variation", mode: Mode::Full, input: "1. e4 () e5 *",
            output: "[Event \"?\"]\n[Site \"?\"]\n[Date \"????.??.??\"]\n[Round \"?\"]\n[White \"?\"]\n[Black \"?\"]\n[Result \"*\"]\n\n1. e4 ( ) 1... e5 *\n\n", verdict: Verdict::Converted { games: 1, plies: 2 } },
        Vector { name: "an empty variation, reduced", mode: Mode::Reduced, input: "1. e4 () e5 *",
            output: "[Event \"?\"]\n[Site \"?\"]\n[Date \"????.??.??\"]\n[Round \"?\"]\n[White \"?\"]\n[Black \"?\"]\n[Result \"*\"]\n\n1. e4 e5 *\n\n", verdict: Verdict::Converted { games: 1, plies: 2 } },
    ]
}

/// A variation in a variation, and play that goes on.
#[rattlefmt::skip]
pub fn nested() -> &'static [Vector] {
    &[
        Vector { name: "a variation in a variation", mode: Mode::Full, input: "1. e4 (1. d4 (1. c4)) *",
            output: "[Event \"?\"]\n[Site \"?\"]\n[Date \"????.??.??\"]\n[Round \"?\"]\n[White \"?\"]\n[Black \"?\"]\n[Result \"*\"]\n\n1. e4 ( 1. d4 ( 1. c4 ) ) *\n\n", verdict: Verdict::Converted { games: 1, plies: 1 } },
        Vector { name: "a variation in a variation, reduced", mode: Mode::Reduced, input: "1. e4 (1. d4 (1. c4)) *",
            output: "[Event \"?\"]\n[Site \"?\"]\n[Date \"????.??.??\"]\n[Round \"?\"]\n[White \"?\"]\n[Black \"?\"]\n[Result \"*\"]\n\n1. e4 *\n\n", verdict: Verdict::Converted { games: 1, plies: 1 } },
        Vector { name: "play goes on inside a variation", mode: Mode::Full, input: "e4 e5 (c5 Nf3 (c3 d5) d6) Nf3 Nc6 *",
            output: "[Event \"?\"]\n[Site \"?\"]\n[Date \"????.??.??\"]\n[Round \"?\"]\n[White \"?\"]\n[Black \"?\"]\n[Result \"*\"]\n\n1. e4 e5 ( 1... c5 2. Nf3 ( 2. c3 d5 ) 2... d6 ) 2. Nf3 Nc6 *\n\n", verdict: Verdict::Converted { games: 1, plies: 4 } },
        Vector { name: "play goes on inside a variation, reduced", mode: Mode::Reduced, input: "e4 e5 (c5 Nf3 (c3 d5) d6) Nf3 Nc6 *",
            output: "[Event \"?\"]\n[Site \"?\"]\n[Date \"????.??.??\"]\n[Round \"?\"]\n[White \"?\"]\n[Black \"?\"]\n[Result \"*\"]\n\n1. e4 e5 2. Nf3 Nc6 *\n\n", verdict: Verdict::Converted { games: 1, plies: 4 } },
        Vector { name: "two variations of one move, one move on", mode: Mode::Full, input: "e4 e5 Nf3 (d4) (f4 exf4) Nc6 *",
            output: "[Event \"?\"]\n[Site \"?\"]\n[Date \"????.??.??\"]\n[Round \"?\"]\n[White \"?\"]\n[Black \"?\"]\n[Result \"*\"]\n\n1. e4 e5 2. Nf3 ( 2. d4 ) ( 2. f4 exf4 ) 2... Nc6 *\n\n", verdict: Verdict::Converted { games: 1, plies: 4 } },
        Vector { name: "two variations of one move, one move on, reduced", mode: Mode::Reduced, input: "e4 e5 Nf3 (d4) (f4 exf4) Nc6 *",
            output: "[Event \"?\"]\n[Site \"?\"]\n[Date \"????.??.??\"]\n[Round \"?\"]\n[White \"?\"]\n[Black \"?\"]\n[Result \"*\"]\n\n1. e4 e5 2. Nf3 Nc6 *\n\n", verdict: Verdict::Converted { games: 1, plies: 4 } },
    ]
}

/// What a variation holds beside moves.
#[rattlefmt::skip]
pub fn contents() -> &'static [Vector] {
    &[
        Vector { name: "comments and glyphs about a variation", mode: Mode::Full, input: "e4 $1 {good} ({or} d4 $2 {too}) {back} e5! *",
            output: "[Event \"?\"]\n[Site \"?\"]\n[Date \"????.??.??\"]\n[Round \"?\"]\n[White \"?\"]\n[Black \"?\"]\n[Result \"*\"]\n\n1. e4 $1 { good } ( { or } 1. d4 $2 { too } ) { back } 1... e5 $1 *\n\n", verdict: Verdict::Converted { games: 1, plies: 2 } },
        Vector { name: "comments and glyphs about a variation, reduced", mode: Mode::Reduced, input: "e4 $1 {good} ({or} d4 $2 {too}) {back} e5! *",
            output: "[Event \"?\"]\n[Site \"?\"]\n[Date \"????.??.??\"]\n[Round \"?\"]\n[White \"?\"]\n[Black \"?\"]\n[Result \"*\"]\n\n1. e4 e5 *\n\n", verdict: Verdict::Converted { games: 1, plies: 2 } },
        Vector { name: "numbers alone in a variation", mode: Mode::Full, input: "e4 (1. ...) e5 *",
            output: "[Event \"?\"]\n[Site \"?\"]\n[Date \"????.??.??\"]\n[Round \"?\"]\n[White \"?\"]\n[Black \"?\"]\n[Result \"*\"]\n\n1. e4 ( ) 1... e5 *\n\n", verdict: Verdict::Converted { games: 1, plies: 2 } },
        Vector { name: "numbers alone in a variation, reduced", mode: Mode::Reduced, input: "e4 (1. ...) e5 *",
            output: "[Event \"?\"]\n[Site \"?\"]\n[Date \"????.??.??\"]\n[Round \"?\"]\n[White \"?\"]\n[Black \"?\"]\n[Result \"*\"]\n\n1. e4 e5 *\n\n", verdict: Verdict::Converted { games: 1, plies: 2 } },
        Vector { name: "captures in a variation leave the game as it is", mode: Mode::Full, input: "e4 d5 exd5 (e5 f5 exf6) Qxd5 *",
            output: "[Event \"?\"]\n[Site \"?\"]\n[Date \"????.??.??\"]\n[Round \"?\"]\n[White \"?\"]\n[Black \"?\"]\n[Result \"*\"]\n\n1. e4 d5 2. exd5 ( 2. e5 f5 3. exf6 ) 2... Qxd5 *\n\n", verdict: Verdict::Converted { games: 1, plies: 4 } },
        Vector { name: "captures in a variation leave the game as it is, reduced", mode: Mode::Reduced, input: "e4 d5 exd5 (e5 f5 exf6) Qxd5 *",
            output: "[Event \"?\"]\n[Site \"?\"]\n[Date \"????.??.??\"]\n[Round \"?\"]\n[White \"?\"]\n[Black \"?\"]\n[Result \"*\"]\n\n1. e4 d5 2. exd5 Qxd5 *\n\n", verdict: Verdict::Converted { games: 1, plies: 4 } },
    ]
}

/// More games, and what the reduced format leaves out.
#[rattlefmt::skip]
pub fn games() -> &'static [Vector] {
    &[
        Vector { name: "a variation, and another game", mode: Mode::Full, input: "1. e4 (1. d4 d5 (1... Nf6)) (1. c4) e5 *\r\nd4 *",
            output: "[Event \"?\"]\n[Site \"?\"]\n[Date \"????.??.??\"]\n[Round \"?\"]\n[White \"?\"]\n[Black \"?\"]\n[Result \"*\"]\n\n1. e4 ( 1. d4 d5 ( 1... Nf6 ) ) ( 1. c4 ) 1... e5 *\n\n[Event \"?\"]\n[Site \"?\"]\n[Date \"????.??.??\"]\n[Round \"?\"]\n[White \"?\"]\n[Black \"?\"]\n[Result \"*\"]\n\n1. d4 *\n\n", verdict: Verdict::Converted { games: 2, plies: 3 } },
        Vector { name: "reduced-mode", mode: Mode::Reduced, input: "[ECO \"C20\"] 1. e4 $1 {good} (1. d4) e5 *",
            output: "[Event \"?\"]\n[Site \"?\"]\n[Date \"????.??.??\"]\n[Round \"?\"]\n[White \"?\"]\n[Black \"?\"]\n[Result \"*\"]\n\n1. e4 e5 *\n\n", verdict: Verdict::Converted { games: 1, plies: 2 } },
        Vector { name: "reduced-mode, in full", mode: Mode::Full, input: "[ECO \"C20\"] 1. e4 $1 {good} (1. d4) e5 *",
            output: "[Event \"?\"]\n[Site \"?\"]\n[Date \"????.??.??\"]\n[Round \"?\"]\n[White \"?\"]\n[Black \"?\"]\n[Result \"*\"]\n[ECO \"C20\"]\n\n1. e4 $1 { good } ( 1. d4 ) 1... e5 *\n\n", verdict: Verdict::Converted { games: 1, plies: 2 } },
    ]
}

/// A variation before any move, and a game that ends inside one. All are rejected.
#[rattlefmt::skip]
pub fn unfinished() -> &'static [Vector] {
    &[
        Vector { name: "a variation at once", mode: Mode::Full, input: "1. e4 ((d4)) *",
            output: "[Event \"?\"]\n[Site \"?\"]\n[Date \"????.??.??\"]\n[Round \"?\"]\n[White \"?\"]\n[Black \"?\"]\n[Result \"*\"]\n\n", verdict: Verdict::Refused(7, Reason::NoMoveBefore) },
        Vector { name: "a variation at once, reduced", mode: Mode::Reduced, input: "1. e4 ((d4)) *",
            output: "[Event \"?\"]\n[Site \"?\"]\n[Date \"????.??.??\"]\n[Round \"?\"]\n[White \"?\"]\n[Black \"?\"]\n[Result \"*\"]\n\n", verdict: Verdict::Refused(7, Reason::NoMoveBefore) },
        Vector { name: "a marker in a variation", mode: Mode::Full, input: "1. e4 (1. d4 1-0 ) *",
            output: "[Event \"?\"]\n[Site \"?\"]\n[Date \"????.??.??\"]\n[Round \"?\"]\n[White \"?\"]\n[Black \"?\"]\n[Result \"*\"]\n\n", verdict: Verdict::Refused(13, Reason::MarkerInVariation) },
        Vector { name: "a marker in a variation, reduced", mode: Mode::Reduced, input: "1. e4 (1. d4 1-0 ) *",
            output: "[Event \"?\"]\n[Site \"?\"]\n[Date \"????.??.??\"]\n[Round \"?\"]\n[White \"?\"]\n[Black \"?\"]\n[Result \"*\"]\n\n", verdict: Verdict::Refused(13, Reason::MarkerInVariation) },
        Vector { name: "an asterisk in a variation", mode: Mode::Full, input: "e4 (d4 *",
            output: "[Event \"?\"]\n[Site \"?\"]\n[Date \"????.??.??\"]\n[Round \"?\"]\n[White \"?\"]\n[Black \"?\"]\n[Result \"*\"]\n\n", verdict: Verdict::Refused(7, Reason::MarkerInVariation) },
        Vector { name: "an asterisk in a variation, reduced", mode: Mode::Reduced, input: "e4 (d4 *",
            output: "[Event \"?\"]\n[Site \"?\"]\n[Date \"????.??.??\"]\n[Round \"?\"]\n[White \"?\"]\n[Black \"?\"]\n[Result \"*\"]\n\n", verdict: Verdict::Refused(7, Reason::MarkerInVariation) },
        Vector { name: "the end in a variation", mode: Mode::Full, input: "1. e4 (1. d4",
            output: "[Event \"?\"]\n[Site \"?\"]\n[Date \"????.??.??\"]\n[Round \"?\"]\n[White \"?\"]\n[Black \"?\"]\n[Result \"*\"]\n\n", verdict: Verdict::Refused(12, Reason::UnexpectedEnd) },
        Vector { name: "the end in a variation, reduced", mode: Mode::Reduced, input: "1. e4 (1. d4",
            output: "[Event \"?\"]\n[Site \"?\"]\n[Date \"????.??.??\"]\n[Round \"?\"]\n[White \"?\"]\n[Black \"?\"]\n[Result \"*\"]\n\n", verdict: Verdict::Refused(12, Reason::UnexpectedEnd) },
    ]
}

/// Parentheses, moves and tag pairs that are rejected.
#[rattlefmt::skip]
pub fn misplaced() -> &'static [Vector] {
    &[
        Vector { name: "one too many closed", mode: Mode::Full, input: "e4 (d4)) *",
            output: "[Event \"?\"]\n[Site \"?\"]\n[Date \"????.??.??\"]\n[Round \"?\"]\n[White \"?\"]\n[Black \"?\"]\n[Result \"*\"]\n\n", verdict: Verdict::Refused(7, Reason::UnmatchedClose) },
        Vector { name: "one too many closed, reduced", mode: Mode::Reduced, input: "e4 (d4)) *",
            output: "[Event \"?\"]\n[Site \"?\"]\n[Date \"????.??.??\"]\n[Round \"?\"]\n[White \"?\"]\n[Black \"?\"]\n[Result \"*\"]\n\n", verdict: Verdict::Refused(7, Reason::UnmatchedClose) },
        Vector { name: "a variation after a number", mode: Mode::Full, input: "1. (d4) *",
            output: "[Event \"?\"]\n[Site \"?\"]\n[Date \"????.??.??\"]\n[Round \"?\"]\n[White \"?\"]\n[Black \"?\"]\n[Result \"*\"]\n\n", verdict: Verdict::Refused(3, Reason::NoMoveBefore) },
        Vector { name: "a variation after a number, reduced", mode: Mode::Reduced, input: "1. (d4) *",
            output: "[Event \"?\"]\n[Site \"?\"]\n[Date \"????.??.??\"]\n[Round \"?\"]\n[White \"?\"]\n[Black \"?\"]\n[Result \"*\"]\n\n", verdict: Verdict::Refused(3, Reason::NoMoveBefore) },
        Vector { name: "a move from the position after the variation", mode: Mode::Full, input: "e4 (d4 d5) e5 (d5) exd5 *",
            output: "[Event \"?\"]\n[Site \"?\"]\n[Date \"????.??.??\"]\n[Round \"?\"]\n[White \"?\"]\n[Black \"?\"]\n[Result \"*\"]\n\n", verdict: Verdict::Refused(19, Reason::IllegalMove) },
        Vector { name: "a move from the position after the variation, reduced", mode: Mode::Reduced, input: "e4 (d4 d5) e5 (d5) exd5 *",
            output: "[Event \"?\"]\n[Site \"?\"]\n[Date \"????.??.??\"]\n[Round \"?\"]\n[White \"?\"]\n[Black \"?\"]\n[Result \"*\"]\n\n", verdict: Verdict::Refused(19, Reason::IllegalMove) },
        Vector { name: "a move of the side not to move in a variation", mode: Mode::Full, input: "e4 (e5) *",
            output: "[Event \"?\"]\n[Site \"?\"]\n[Date \"????.??.??\"]\n[Round \"?\"]\n[White \"?\"]\n[Black \"?\"]\n[Result \"*\"]\n\n", verdict: Verdict::Refused(4, Reason::IllegalMove) },
        Vector { name: "a move of the side not to move in a variation, reduced", mode: Mode::Reduced, input: "e4 (e5) *",
            output: "[Event \"?\"]\n[Site \"?\"]\n[Date \"????.??.??\"]\n[Round \"?\"]\n[White \"?\"]\n[Black \"?\"]\n[Result \"*\"]\n\n", verdict: Verdict::Refused(4, Reason::IllegalMove) },
        Vector { name: "a pair in a variation", mode: Mode::Full, input: "e4 (d4 [A \"1\"]) *",
            output: "[Event \"?\"]\n[Site \"?\"]\n[Date \"????.??.??\"]\n[Round \"?\"]\n[White \"?\"]\n[Black \"?\"]\n[Result \"*\"]\n\n", verdict: Verdict::Refused(7, Reason::TagInMovetext) },
        Vector { name: "a pair in a variation, reduced", mode: Mode::Reduced, input: "e4 (d4 [A \"1\"]) *",
            output: "[Event \"?\"]\n[Site \"?\"]\n[Date \"????.??.??\"]\n[Round \"?\"]\n[White \"?\"]\n[Black \"?\"]\n[Result \"*\"]\n\n", verdict: Verdict::Refused(7, Reason::TagInMovetext) },
    ]
}
