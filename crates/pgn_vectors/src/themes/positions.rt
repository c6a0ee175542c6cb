// Written by bin/write_vectors from vectors/positions.toml.
//! Games that begin at the position of a FEN pair.
use crate::{Vector, Verdict};
use pgn_game::Mode;

/// Which origin a move is written with.
#[rattlefmt::skip]
pub fn disambiguation() -> &'static [Vector] {
    &[
        Vector { name: "no move", mode: Mode::Full, input: "[FEN \"4k3/8/8/8/8/8/8/4K3 w - - 0 1\"]\n*",
            output: "[Event \"?\"]\n[Site \"?\"]\n[Date \"????.??.??\"]\n[Round \"?\"]\n[White \"?\"]\n[Black \"?\"]\n[Result \"*\"]\n[FEN \"4k3/8/8/8/8/8/8/4K3 w - - 0 1\"]\n[SetUp \"1\"]\n\n*\n\n", verdict: Verdict::Converted { games: 1, plies: 0 } },
        Vector { name: "pinned-rival", mode: Mode::Full, input: "[FEN \"4k3/8/8/8/1b6/2N5/8/4K1N1 w - - 0 1\"]\nNge2 *",
            output: "[Event \"?\"]\n[Site \"?\"]\n[Date \"????.??.??\"]\n[Round \"?\"]\n[White \"?\"]\n[Black \"?\"]\n[Result \"*\"]\n[FEN \"4k3/8/8/8/1b6/2N5/8/4K1N1 w - - 0 1\"]\n[SetUp \"1\"]\n\n1. Ne2 *\n\n", verdict: Verdict::Converted { games: 1, plies: 1 } },
        Vector { name: "three-queens", mode: Mode::Full, input: "[FEN \"1k6/8/8/8/4Q2Q/8/8/K6Q w - - 0 1\"]\nQh4e1 *",
            output: "[Event \"?\"]\n[Site \"?\"]\n[Date \"????.??.??\"]\n[Round \"?\"]\n[White \"?\"]\n[Black \"?\"]\n[Result \"*\"]\n[FEN \"1k6/8/8/8/4Q2Q/8/8/K6Q w - - 0 1\"]\n[SetUp \"1\"]\n\n1. Qh4e1 *\n\n", verdict: Verdict::Converted { games: 1, plies: 1 } },
        Vector { name: "three-queens, a file", mode: Mode::Full, input: "[FEN \"1k6/8/8/8/4Q2Q/8/8/K6Q w - - 0 1\"]\nQe4e1 *",
            output: "[Event \"?\"]\n[Site \"?\"]\n[Date \"????.??.??\"]\n[Round \"?\"]\n[White \"?\"]\n[Black \"?\"]\n[Result \"*\"]\n[FEN \"1k6/8/8/8/4Q2Q/8/8/K6Q w - - 0 1\"]\n[SetUp \"1\"]\n\n1. Qee1 *\n\n", verdict: Verdict::Converted { games: 1, plies: 1 } },
        Vector { name: "three-queens, a rank", mode: Mode::Full, input: "[FEN \"1k6/8/8/8/4Q2Q/8/8/K6Q w - - 0 1\"]\nQh1e1 *",
            output: "[Event \"?\"]\n[Site \"?\"]\n[Date \"????.??.??\"]\n[Round \"?\"]\n[White \"?\"]\n[Black \"?\"]\n[Result \"*\"]\n[FEN \"1k6/8/8/8/4Q2Q/8/8/K6Q w - - 0 1\"]\n[SetUp \"1\"]\n\n1. Q1e1 *\n\n", verdict: Verdict::Converted { games: 1, plies: 1 } },
    ]
}

/// En passant, pins and stalemate.
#[rattlefmt::skip]
pub fn en_passant() -> &'static [Vector] {
    &[
        Vector { name: "en-passant-answer", mode: Mode::Full, input: "[FEN \"3R1R2/4K3/8/4k3/4p3/8/3P4/8 w - - 0 1\"]\nd4# *",
            output: "[Event \"?\"]\n[Site \"?\"]\n[Date \"????.??.??\"]\n[Round \"?\"]\n[White \"?\"]\n[Black \"?\"]\n[Result \"*\"]\n[FEN \"3R1R2/4K3/8/4k3/4p3/8/3P4/8 w - - 0 1\"]\n[SetUp \"1\"]\n\n1. d4+ *\n\n", verdict: Verdict::Converted { games: 1, plies: 1 } },
        Vector { name: "pinned-or-promoting-answer, pinned", mode: Mode::Full, input: "[FEN \"7k/6np/8/8/8/8/1B6/K3R3 w - - 0 1\"]\nRe8 *",
            output: "[Event \"?\"]\n[Site \"?\"]\n[Date \"????.??.??\"]\n[Round \"?\"]\n[White \"?\"]\n[Black \"?\"]\n[Result \"*\"]\n[FEN \"7k/6np/8/8/8/8/1B6/K3R3 w - - 0 1\"]\n[SetUp \"1\"]\n\n1. Re8# *\n\n", verdict: Verdict::Converted { games: 1, plies: 1 } },
        Vector { name: "pinned-or-promoting-answer, promoting", mode: Mode::Full, input: "[FEN \"7K/3P4/7k/8/8/8/8/4r3 b - - 0 1\"]\nRe8# *",
            output: "[Event \"?\"]\n[Site \"?\"]\n[Date \"????.??.??\"]\n[Round \"?\"]\n[White \"?\"]\n[Black \"?\"]\n[Result \"*\"]\n[FEN \"7K/3P4/7k/8/8/8/8/4r3 b - - 0 1\"]\n[SetUp \"1\"]\n\n1... Re8+ *\n\n", verdict: Verdict::Converted { games: 1, plies: 1 } },
        Vector { name: "stalemate", mode: Mode::Full, input: "[FEN \"7k/5K2/8/8/8/8/8/6Q1 w - - 0 1\"]\nQg6 *",
            output: "[Event \"?\"]\n[Site \"?\"]\n[Date \"????.??.??\"]\n[Round \"?\"]\n[White \"?\"]\n[Black \"?\"]\n[Result \"*\"]\n[FEN \"7k/5K2/8/8/8/8/8/6Q1 w - - 0 1\"]\n[SetUp \"1\"]\n\n1. Qg6 *\n\n", verdict: Verdict::Converted { games: 1, plies: 1 } },
        Vector { name: "en-passant-played", mode: Mode::Full, input: "[FEN \"4k3/8/8/8/3pP3/8/8/4K3 b - e3 0 1\"]\ndxe3 *",
            output: "[Event \"?\"]\n[Site \"?\"]\n[Date \"????.??.??\"]\n[Round \"?\"]\n[White \"?\"]\n[Black \"?\"]\n[Result \"*\"]\n[FEN \"4k3/8/8/8/3pP3/8/8/4K3 b - e3 0 1\"]\n[SetUp \"1\"]\n\n1... dxe3 *\n\n", verdict: Verdict::Converted { games: 1, plies: 1 } },
    ]
}

/// Castling and promotion.
#[rattlefmt::skip]
pub fn castling_and_promotion() -> &'static [Vector] {
    &[
        Vector { name: "castling", mode: Mode::Full, input: "[FEN \"r3k2r/8/8/8/8/8/8/R3K2R w KQkq - 0 1\"]\n0-0 0-0-0 *",
            output: "[Event \"?\"]\n[Site \"?\"]\n[Date \"????.??.??\"]\n[Round \"?\"]\n[White \"?\"]\n[Black \"?\"]\n[Result \"*\"]\n[FEN \"r3k2r/8/8/8/8/8/8/R3K2R w KQkq - 0 1\"]\n[SetUp \"1\"]\n\n1. O-O O-O-O *\n\n", verdict: Verdict::Converted { games: 1, plies: 2 } },
        Vector { name: "castling with letters", mode: Mode::Full, input: "[FEN \"r3k2r/8/8/8/8/8/8/R3K2R w KQkq - 0 1\"]\nO-O-O+ O-O *",
            output: "[Event \"?\"]\n[Site \"?\"]\n[Date \"????.??.??\"]\n[Round \"?\"]\n[White \"?\"]\n[Black \"?\"]\n[Result \"*\"]\n[FEN \"r3k2r/8/8/8/8/8/8/R3K2R w KQkq - 0 1\"]\n[SetUp \"1\"]\n\n1. O-O-O O-O *\n\n", verdict: Verdict::Converted { games: 1, plies: 2 } },
        Vector { name: "bare-promotion", mode: Mode::Full, input: "[FEN \"8/P6k/8/8/8/8/8/K7 w - - 0 1\"]\na8Q *",
            output: "[Event \"?\"]\n[Site \"?\"]\n[Date \"????.??.??\"]\n[Round \"?\"]\n[White \"?\"]\n[Black \"?\"]\n[Result \"*\"]\n[FEN \"8/P6k/8/8/8/8/8/K7 w - - 0 1\"]\n[SetUp \"1\"]\n\n1. a8=Q *\n\n", verdict: Verdict::Converted { games: 1, plies: 1 } },
        Vector { name: "promotion to a knight", mode: Mode::Full, input: "[FEN \"8/P6k/8/8/8/8/8/K7 w - - 0 1\"]\na8=N+ *",
            output: "[Event \"?\"]\n[Site \"?\"]\n[Date \"????.??.??\"]\n[Round \"?\"]\n[White \"?\"]\n[Black \"?\"]\n[Result \"*\"]\n[FEN \"8/P6k/8/8/8/8/8/K7 w - - 0 1\"]\n[SetUp \"1\"]\n\n1. a8=N *\n\n", verdict: Verdict::Converted { games: 1, plies: 1 } },
    ]
}

/// Move numbers, and Black to move.
#[rattlefmt::skip]
pub fn numbers() -> &'static [Vector] {
    &[
        Vector { name: "number-limit", mode: Mode::Full, input: "[FEN \"4k3/8/8/8/8/8/8/4K3 w - - 0 99999\"]\nKd1 *",
            output: "[Event \"?\"]\n[Site \"?\"]\n[Date \"????.??.??\"]\n[Round \"?\"]\n[White \"?\"]\n[Black \"?\"]\n[Result \"*\"]\n[FEN \"4k3/8/8/8/8/8/8/4K3 w - - 0 99999\"]\n[SetUp \"1\"]\n\n99999. Kd1 *\n\n", verdict: Verdict::Converted { games: 1, plies: 1 } },
        Vector { name: "number zero", mode: Mode::Full, input: "[FEN \"4k3/8/8/8/8/8/8/4K3 w - - 0 0\"]\nKd1 Kd8 Ke1 *",
            output: "[Event \"?\"]\n[Site \"?\"]\n[Date \"????.??.??\"]\n[Round \"?\"]\n[White \"?\"]\n[Black \"?\"]\n[Result \"*\"]\n[FEN \"4k3/8/8/8/8/8/8/4K3 w - - 0 0\"]\n[SetUp \"1\"]\n\n0. Kd1 Kd8 1. Ke1 *\n\n", verdict: Verdict::Converted { games: 1, plies: 3 } },
        Vector { name: "Black begins", mode: Mode::Full, input: "[FEN \"4k3/8/8/8/8/8/8/4K3 b - - 0 7\"]\n1. Kd8 Kd1 *",
            output: "[Event \"?\"]\n[Site \"?\"]\n[Date \"????.??.??\"]\n[Round \"?\"]\n[White \"?\"]\n[Black \"?\"]\n[Result \"*\"]\n[FEN \"4k3/8/8/8/8/8/8/4K3 b - - 0 7\"]\n[SetUp \"1\"]\n\n7... Kd8 8. Kd1 *\n\n", verdict: Verdict::Converted { games: 1, plies: 2 } },
        Vector { name: "Black begins in a variation", mode: Mode::Full, input: "[FEN \"4k3/8/8/8/8/8/8/4K3 b - - 0 7\"]\nKd8 (Ke7 Kd1) Ke2 *",
            output: "[Event \"?\"]\n[Site \"?\"]\n[Date \"????.??.??\"]\n[Round \"?\"]\n[White \"?\"]\n[Black \"?\"]\n[Result \"*\"]\n[FEN \"4k3/8/8/8/8/8/8/4K3 b - - 0 7\"]\n[SetUp \"1\"]\n\n7... Kd8 ( 7... Ke7 8. Kd1 ) 8. Ke2 *\n\n", verdict: Verdict::Converted { games: 1, plies: 2 } },
    ]
}

/// Positions that are read loosely, checks and captures.
#[rattlefmt::skip]
pub fn boards() -> &'static [Vector] {
    &[
        Vector { name: "double check is no mate", mode: Mode::Full, input: "[FEN \"4k3/8/8/8/4N3/8/8/K3R3 w - - 0 1\"]\nNf6 *",
            output: "[Event \"?\"]\n[Site \"?\"]\n[Date \"????.??.??\"]\n[Round \"?\"]\n[White \"?\"]\n[Black \"?\"]\n[Result \"*\"]\n[FEN \"4k3/8/8/8/4N3/8/8/K3R3 w - - 0 1\"]\n[SetUp \"1\"]\n\n1. Nf6+ *\n\n", verdict: Verdict::Converted { games: 1, plies: 1 } },
        Vector { name: "a capture written without x", mode: Mode::Full, input: "[FEN \"4k3/8/8/3p4/4P3/8/8/4K3 w - - 0 1\"]\ned5 *",
            output: "[Event \"?\"]\n[Site \"?\"]\n[Date \"????.??.??\"]\n[Round \"?\"]\n[White \"?\"]\n[Black \"?\"]\n[Result \"*\"]\n[FEN \"4k3/8/8/3p4/4P3/8/8/4K3 w - - 0 1\"]\n[SetUp \"1\"]\n\n1. exd5 *\n\n", verdict: Verdict::Converted { games: 1, plies: 1 } },
        Vector { name: "a right without its rook", mode: Mode::Full, input: "[FEN \"4k3/8/8/8/8/8/8/4K3 w KQkq - 0 1\"]\nKe2 *",
            output: "[Event \"?\"]\n[Site \"?\"]\n[Date \"????.??.??\"]\n[Round \"?\"]\n[White \"?\"]\n[Black \"?\"]\n[Result \"*\"]\n[FEN \"4k3/8/8/8/8/8/8/4K3 w KQkq - 0 1\"]\n[SetUp \"1\"]\n\n1. Ke2 *\n\n", verdict: Verdict::Converted { games: 1, plies: 1 } },
        Vector { name: "digits side by side, and zeros", mode: Mode::Full, input: "[FEN \"4k3/44/8/8/8/8/8/4K3 w - - 00 001\"]\nKe2 *",
            output: "[Event \"?\"]\n[Site \"?\"]\n[Date \"????.??.??\"]\n[Round \"?\"]\n[White \"?\"]\n[Black \"?\"]\n[Result \"*\"]\n[FEN \"4k3/44/8/8/8/8/8/4K3 w - - 00 001\"]\n[SetUp \"1\"]\n\n1. Ke2 *\n\n", verdict: Verdict::Converted { games: 1, plies: 1 } },
        Vector { name: "a crowded position", mode: Mode::Full, input: "[FEN \"r3k2r/p1ppqpb1/bn2pnp1/3PN3/1p2P3/2N2Q1p/PPPBBPPP/R3K2R w KQkq - 0 1\"]\n*",
            output: "[Event \"?\"]\n[Site \"?\"]\n[Date \"????.??.??\"]\n[Round \"?\"]\n[White \"?\"]\n[Black \"?\"]\n[Result \"*\"]\n[FEN \"r3k2r/p1ppqpb1/bn2pnp1/3PN3/1p2P3/2N2Q1p/PPPBBPPP/R3K2R w KQkq - 0 1\"]\n[SetUp \"1\"]\n\n*\n\n", verdict: Verdict::Converted { games: 1, plies: 0 } },
    ]
}

/// SetUp beside a FEN.
#[rattlefmt::skip]
pub fn set_up() -> &'static [Vector] {
    &[
        Vector { name: "SetUp 0 before the FEN", mode: Mode::Full, input: "[SetUp \"0\"][FEN \"4k3/8/8/8/8/8/8/4K3 w - - 0 1\"] *",
            output: "[Event \"?\"]\n[Site \"?\"]\n[Date \"????.??.??\"]\n[Round \"?\"]\n[White \"?\"]\n[Black \"?\"]\n[Result \"*\"]\n[FEN \"4k3/8/8/8/8/8/8/4K3 w - - 0 1\"]\n[SetUp \"1\"]\n\n*\n\n", verdict: Verdict::Converted { games: 1, plies: 0 } },
        Vector { name: "SetUp 1 before the FEN", mode: Mode::Full, input: "[SetUp \"1\"]\n[FEN \"4k3/8/8/8/8/8/8/4K3 w - - 0 1\"] *",
            output: "[Event \"?\"]\n[Site \"?\"]\n[Date \"????.??.??\"]\n[Round \"?\"]\n[White \"?\"]\n[Black \"?\"]\n[Result \"*\"]\n[FEN \"4k3/8/8/8/8/8/8/4K3 w - - 0 1\"]\n[SetUp \"1\"]\n\n*\n\n", verdict: Verdict::Converted { games: 1, plies: 0 } },
        Vector { name: "SetUp 1 after the FEN", mode: Mode::Full, input: "[FEN \"4k3/8/8/8/8/8/8/4K3 w - - 0 1\"][SetUp \"1\"] *",
            output: "[Event \"?\"]\n[Site \"?\"]\n[Date \"????.??.??\"]\n[Round \"?\"]\n[White \"?\"]\n[Black \"?\"]\n[Result \"*\"]\n[FEN \"4k3/8/8/8/8/8/8/4K3 w - - 0 1\"]\n[SetUp \"1\"]\n\n*\n\n", verdict: Verdict::Converted { games: 1, plies: 0 } },
        Vector { name: "SetUp without a value after the FEN", mode: Mode::Full, input: "[FEN \"4k3/8/8/8/8/8/8/4K3 w - - 0 1\"][SetUp \"\"] *",
            output: "[Event \"?\"]\n[Site \"?\"]\n[Date \"????.??.??\"]\n[Round \"?\"]\n[White \"?\"]\n[Black \"?\"]\n[Result \"*\"]\n[FEN \"4k3/8/8/8/8/8/8/4K3 w - - 0 1\"]\n[SetUp \"1\"]\n\n*\n\n", verdict: Verdict::Converted { games: 1, plies: 0 } },
    ]
}

/// SetUp among names like it, and a game after one with a FEN.
#[rattlefmt::skip]
pub fn names_like_set_up() -> &'static [Vector] {
    &[
        Vector { name: "names about SetUp in byte order", mode: Mode::Full, input: "[Zeta \"z\"][FEN \"4k3/8/8/8/8/8/8/4K3 w - - 0 1\"][ECO \"A00\"]*",
            output: "[Event \"?\"]\n[Site \"?\"]\n[Date \"????.??.??\"]\n[Round \"?\"]\n[White \"?\"]\n[Black \"?\"]\n[Result \"*\"]\n[ECO \"A00\"]\n[FEN \"4k3/8/8/8/8/8/8/4K3 w - - 0 1\"]\n[SetUp \"1\"]\n[Zeta \"z\"]\n\n*\n\n", verdict: Verdict::Converted { games: 1, plies: 0 } },
        Vector { name: "SetUp added among names like it", mode: Mode::Full, input: "[a \"1\"][SetUpX \"2\"][SetU \"3\"][FEN \"4k3/8/8/8/8/8/8/4K3 w - - 0 1\"] *",
            output: "[Event \"?\"]\n[Site \"?\"]\n[Date \"????.??.??\"]\n[Round \"?\"]\n[White \"?\"]\n[Black \"?\"]\n[Result \"*\"]\n[FEN \"4k3/8/8/8/8/8/8/4K3 w - - 0 1\"]\n[SetU \"3\"]\n[SetUp \"1\"]\n[SetUpX \"2\"]\n[a \"1\"]\n\n*\n\n", verdict: Verdict::Converted { games: 1, plies: 0 } },
        Vector { name: "SetUp changed among names like it", mode: Mode::Full, input: "[a \"1\"][SetUpX \"2\"][SetUp \"x\"][SetU \"3\"][FEN \"4k3/8/8/8/8/8/8/4K3 w - - 0 1\"] *",
            output: "[Event \"?\"]\n[Site \"?\"]\n[Date \"????.??.??\"]\n[Round \"?\"]\n[White \"?\"]\n[Black \"?\"]\n[Result \"*\"]\n[FEN \"4k3/8/8/8/8/8/8/4K3 w - - 0 1\"]\n[SetU \"3\"]\n[SetUp \"1\"]\n[SetUpX \"2\"]\n[a \"1\"]\n\n*\n\n", verdict: Verdict::Converted { games: 1, plies: 0 } },
        Vector { name: "nothing is left of the game before", mode: Mode::Full, input: "[FEN \"4k3/8/8/8/8/8/8/4K3 w - - 0 1\"] Ke2 * e4 (d4) e5 * Nf3 *",
            output: "[Event \"?\"]\n[Site \"?\"]\n[Date \"????.??.??\"]\n[Round \"?\"]\n[White \"?\"]\n[Black \"?\"]\n[Result \"*\"]\n[FEN \"4k3/8/8/8/8/8/8/4K3 w - - 0 1\"]\n[SetUp \"1\"]\n\n1. Ke2 *\n\n[Event \"?\"]\n[Site \"?\"]\n[Date \"????.??.??\"]\n[Round \"?\"]\n[White \"?\"]\n[Black \"?\"]\n[Result \"*\"]\n\n1. e4 ( 1. d4 ) 1... e5 *\n\n[Event \"?\"]\n[Site \"?\"]\n[Date \"????.??.??\"]\n[Round \"?\"]\n[White \"?\"]\n[Black \"?\"]\n[Result \"*\"]\n\n1. Nf3 *\n\n", verdict: Verdict::Converted { games: 3, plies: 4 } },
    ]
}
