//! Moves in UCI, read and written, in worked positions.

use crate::text::position_of;
use chess_rules::Probes;
use chess_text::{UciFault, read_uci, write_fen, write_uci};
use std::process::Abort;

const FIRST: &str = "rnbqkbnr/pppppppp/8/8/8/8/PPPPPPPP/RNBQKBNR w KQkq - 0 1";

const ROOKS: &str = "r3k2r/8/8/8/8/8/8/R3K2R w KQkq - 0 1";

const ROOKS_OF_BLACK: &str = "r3k2r/8/8/8/8/8/8/R3K2R b KQkq - 0 1";

const WITHOUT_RIGHTS: &str = "r3k2r/8/8/8/8/8/8/R3K2R w - - 0 1";

const PROMOTING: &str = "1r6/P6k/8/8/8/8/8/K7 w - - 0 1";

const PINNED: &str = "4k3/8/8/8/1b6/2N5/8/4K1N1 w - - 0 1";

// A position, the text of a move in it, and the position after the move.
#[rattlefmt::skip]
const MOVES: [(&str, &str, &str); 6] = [
    (FIRST, "e2e4", "rnbqkbnr/pppppppp/8/8/4P3/8/PPPP1PPP/RNBQKBNR b KQkq e3 0 1"),
    ("rnbqkbnr/pppppppp/8/8/4P3/8/PPPP1PPP/RNBQKBNR b KQkq e3 0 1", "e7e5",
        "rnbqkbnr/pppp1ppp/8/4p3/4P3/8/PPPP1PPP/RNBQKBNR w KQkq e6 0 2"),
    (FIRST, "g1f3", "rnbqkbnr/pppppppp/8/8/8/5N2/PPPPPPPP/RNBQKB1R b KQkq - 1 1"),
    // the other knight is pinned
    (PINNED, "g1e2", "4k3/8/8/8/1b6/2N5/4N3/4K3 b - - 1 1"),
    // a capture, and en passant
    (ROOKS, "a1a8", "R3k2r/8/8/8/8/8/8/4K2R b Kk - 0 1"),
    ("4k3/8/8/8/3pP3/8/8/4K3 b - e3 0 1", "d4e3", "4k3/8/8/8/8/4p3/8/4K3 w - - 0 2"),
];

// Without a capture, and with one.
#[rattlefmt::skip]
const PROMOTIONS: [(&str, &str, &str); 5] = [
    (PROMOTING, "a7a8q", "Qr6/7k/8/8/8/8/8/K7 b - - 0 1"),
    (PROMOTING, "a7a8r", "Rr6/7k/8/8/8/8/8/K7 b - - 0 1"),
    (PROMOTING, "a7b8b", "1B6/7k/8/8/8/8/8/K7 b - - 0 1"),
    (PROMOTING, "a7b8n", "1N6/7k/8/8/8/8/8/K7 b - - 0 1"),
    ("k7/8/8/8/8/8/p6K/1R6 b - - 0 1", "a2b1q", "k7/8/8/8/8/8/7K/1q6 w - - 0 2"),
];

// Castling, and moves from e1 that are none.
#[rattlefmt::skip]
const CASTLING: [(&str, &str, &str); 7] = [
    (ROOKS, "e1g1", "r3k2r/8/8/8/8/8/8/R4RK1 b kq - 1 1"),
    (ROOKS, "e1c1", "r3k2r/8/8/8/8/8/8/2KR3R b kq - 1 1"),
    (ROOKS_OF_BLACK, "e8g8", "r4rk1/8/8/8/8/8/8/R3K2R w KQ - 1 2"),
    (ROOKS_OF_BLACK, "e8c8", "2kr3r/8/8/8/8/8/8/R3K2R w KQ - 1 2"),
    // the same text for a rook
    ("3k4/8/8/8/8/8/8/K3R3 w KQ - 0 1", "e1g1", "3k4/8/8/8/8/8/8/K5R1 b - - 1 1"),
    (ROOKS, "e1f1", "r3k2r/8/8/8/8/8/8/R4K1R b kq - 1 1"),
    (WITHOUT_RIGHTS, "e1d2", "r3k2r/8/8/8/8/8/3K4/R6R b - - 1 1"),
];

// A position, and the text of a move that is not legal in it.
const ILLEGAL_MOVES: [(&str, &str); 15] = [
    (FIRST, "e2e5"),
    (FIRST, "e7e5"),
    (FIRST, "e4e5"),
    (FIRST, "e2e2"),
    // castling without rights, across an attacked square, and onto the rook's square
    (WITHOUT_RIGHTS, "e1g1"),
    (WITHOUT_RIGHTS, "e1c1"),
    ("4k3/8/8/8/8/5r2/8/4K2R w K - 0 1", "e1g1"),
    (ROOKS, "e1h1"),
    // no letter at the last rank, and a letter where nothing is promoted
    (PROMOTING, "a7a8"),
    (PROMOTING, "a1b1q"),
    (PINNED, "g1e2q"),
    (ROOKS, "e1g1q"),
    (FIRST, "e2e4q"),
    // pinned pieces
    (PINNED, "c3e2"),
    ("8/8/8/K2pP2r/8/8/8/7k w - d6 0 1", "e5d6"),
];

// Texts of no move.
const NO_MOVES: [&str; 17] = [
    "", "e", "e2", "e2e", "a7a8q ", "a7a8qq", "e2-e4", "a7a8=q", "E2E4", "e2E4", "a7a8Q", "a7a8k",
    "a7a8p", "0000", "i2e4", "e2e9", "e0e2",
];

// The text is read as the move that leads to that position, and is written for it. One pair is
// tried.
fn is_read(rt: &impl Abort, fen: &str, text: &str, after: &str) {
    let position = position_of(rt, fen);
    let mut probes = Probes::new();
    match read_uci(&position, text.as_bytes(), &mut probes) {
        Err(fault) => assert!(rt; false, "{text}: {fault:?}"),
        Ok(played) => {
            let (next, written) = (write_fen(&played.next), write_uci(&played.mv));
            assert!(rt; next.as_slice() == after.as_bytes(), "{text}");
            assert!(rt; written.as_slice() == text.as_bytes(), "{text}");
        }
    }
    assert_eq!(rt; probes.count(), 1, "{text}");
}

// The text is refused with that fault, and so many pairs are tried.
fn is_refused(rt: &impl Abort, fen: &str, text: &str, wanted: UciFault, pairs: u32) {
    let position = position_of(rt, fen);
    let mut probes = Probes::new();
    match read_uci(&position, text.as_bytes(), &mut probes) {
        Err(fault) => assert!(rt; fault == wanted, "{text}: {fault:?}"),
        Ok(_) => assert!(rt; false, "{text}"),
    }
    assert_eq!(rt; probes.count(), pairs, "{text}");
}

#[test]
fn reads_and_writes_uci(rt: HostRuntime) {
    for (fen, text, after) in MOVES {
        is_read(&rt, fen, text, after);
    }
}

#[test]
fn reads_and_writes_promotions_of_uci(rt: HostRuntime) {
    for (fen, text, after) in PROMOTIONS {
        is_read(&rt, fen, text, after);
    }
}

#[test]
fn reads_and_writes_castling_of_uci(rt: HostRuntime) {
    for (fen, text, after) in CASTLING {
        is_read(&rt, fen, text, after);
    }
}

#[test]
fn refuses_illegal_moves_of_uci(rt: HostRuntime) {
    for (fen, text) in ILLEGAL_MOVES {
        is_refused(&rt, fen, text, UciFault::IllegalMove, 1);
    }
}

#[test]
fn refuses_texts_of_no_move(rt: HostRuntime) {
    for text in NO_MOVES {
        is_refused(&rt, FIRST, text, UciFault::NotAMove, 0);
        is_refused(&rt, PROMOTING, text, UciFault::NotAMove, 0);
    }
}
