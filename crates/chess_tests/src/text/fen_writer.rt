//! FENs of positions one after another, written by one writer.

use crate::text::{POSITIONS, position_of};
use chess_text::FenWriter;
use std::process::Abort;

// Each from the one before it by a move. Ranks change, change back, and change while others stay.
const GAME: [&str; 10] = [
    "rnbqkbnr/pppppppp/8/8/8/8/PPPPPPPP/RNBQKBNR w KQkq - 0 1",
    // Two knights go out and back: ranks 1, 3, 6 and 8 are as before.
    "rnbqkbnr/pppppppp/8/8/8/5N2/PPPPPPPP/RNBQKB1R b KQkq - 1 1",
    "r1bqkbnr/pppppppp/2n5/8/8/5N2/PPPPPPPP/RNBQKB1R w KQkq - 2 2",
    "r1bqkbnr/pppppppp/2n5/8/8/8/PPPPPPPP/RNBQKBNR b KQkq - 3 2",
    "rnbqkbnr/pppppppp/8/8/8/8/PPPPPPPP/RNBQKBNR w KQkq - 4 3",
    // A pawn of each side: two ranks have the same text, for a while.
    "rnbqkbnr/pppppppp/8/8/4P3/8/PPPP1PPP/RNBQKBNR b KQkq e3 0 3",
    "rnbqkbnr/ppp1pppp/8/3p4/4P3/8/PPPP1PPP/RNBQKBNR w KQkq d6 0 4",
    "rnbqkbnr/ppp1pppp/8/3P4/8/8/PPPP1PPP/RNBQKBNR b KQkq - 0 4",
    "rnb1kbnr/ppp1pppp/8/3q4/8/8/PPPP1PPP/RNBQKBNR w KQkq - 0 5",
    "rnb1kbnr/ppp1pppp/8/3q4/8/2N5/PPPP1PPP/R1BQKBNR b KQkq - 1 5",
];

// The writer writes the position of a canonical text as that text.
fn is_written(rt: &impl Abort, writer: &mut FenWriter, text: &str) {
    let written = writer.write(&position_of(rt, text));
    assert!(rt; written.as_slice() == text.as_bytes(), "{text}");
}

#[test]
fn writes_the_positions_of_a_game(rt: HostRuntime) {
    let mut writer = FenWriter::new();
    for text in GAME {
        is_written(&rt, &mut writer, text);
        is_written(&rt, &mut writer, text);
    }
}

#[test]
fn writes_positions_that_share_few_ranks(rt: HostRuntime) {
    let mut writer = FenWriter::new();
    for text in POSITIONS {
        is_written(&rt, &mut writer, text);
    }
    for text in POSITIONS {
        is_written(&rt, &mut writer, text);
        is_written(&rt, &mut writer, GAME[0]);
    }
}
