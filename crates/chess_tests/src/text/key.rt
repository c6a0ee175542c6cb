//! Keys of positions, in worked positions.

use crate::text::position_of;
use chess_rules::Probes;
use chess_text::write_position_key;
use std::process::Abort;

// A position, its key, and how many pawns may take on the target.
#[rattlefmt::skip]
const KEYS: [(&str, &str, u32); 16] = [
    ("rnbqkbnr/pppppppp/8/8/8/8/PPPPPPPP/RNBQKBNR w KQkq - 0 1",
        "rnbqkbnr/pppppppp/8/8/8/8/PPPPPPPP/RNBQKBNR w KQkq -", 0),
    // After 1. e4 no black pawn is near.
    ("rnbqkbnr/pppppppp/8/8/4P3/8/PPPP1PPP/RNBQKBNR b KQkq e3 0 1",
        "rnbqkbnr/pppppppp/8/8/4P3/8/PPPP1PPP/RNBQKBNR b KQkq -", 0),
    // One pawn takes, from the east, from the west, and at both edges of the board.
    ("4k3/8/8/8/3Pp3/8/8/4K3 b - d3 0 1", "4k3/8/8/8/3Pp3/8/8/4K3 b - d3", 1),
    ("4k3/8/8/8/3pP3/8/8/4K3 b - e3 0 1", "4k3/8/8/8/3pP3/8/8/4K3 b - e3", 1),
    ("4k3/8/8/pP6/8/8/8/4K3 w - a6 0 1", "4k3/8/8/pP6/8/8/8/4K3 w - a6", 1),
    ("4k3/8/8/6Pp/8/8/8/4K3 w - h6 0 1", "4k3/8/8/6Pp/8/8/8/4K3 w - h6", 1),
    // A pawn at the other edge takes nothing.
    ("4k3/8/8/p7/7P/8/8/4K3 w - a6 0 1", "4k3/8/8/p7/7P/8/8/4K3 w - -", 0),
    ("4k3/8/P7/7p/8/8/8/4K3 w - h6 0 1", "4k3/8/P7/7p/8/8/8/4K3 w - -", 0),
    // Two pawns: both may take, or only one, since the other is pinned, or none.
    ("4k3/8/8/3PpP2/8/8/8/4K3 w - e6 0 1", "4k3/8/8/3PpP2/8/8/8/4K3 w - e6", 2),
    ("3rk3/8/8/3PpP2/8/8/8/3K4 w - e6 0 1", "3rk3/8/8/3PpP2/8/8/8/3K4 w - e6", 2),
    ("4k3/8/8/r2Pp2K/8/8/8/8 w - e6 0 1", "4k3/8/8/r2Pp2K/8/8/8/8 w - -", 1),
    // The rank is opened by two pawns that leave it together.
    ("8/8/8/8/k2Pp2Q/8/8/3K4 b - d3 0 1", "8/8/8/8/k2Pp2Q/8/8/3K4 b - -", 1),
    // No pawn is there to be taken.
    ("4k3/8/8/3P4/8/8/8/4K3 w - e6 0 1", "4k3/8/8/3P4/8/8/8/4K3 w - -", 1),
    // A piece is on the target.
    ("4k3/8/4n3/3Pp3/8/8/8/4K3 w - e6 0 1", "4k3/8/4n3/3Pp3/8/8/8/4K3 w - -", 0),
    // Rights whose king or rook is not at home.
    ("r3k2r/8/8/8/8/8/8/R3K2R b KQkq - 0 1", "r3k2r/8/8/8/8/8/8/R3K2R b KQkq -", 0),
    ("r2k3r/8/8/8/8/8/8/B3K2R w KQkq - 9 40", "r2k3r/8/8/8/8/8/8/B3K2R w K -", 0),
];

// The position has this key, and so many pairs are tried for it.
fn has_key(rt: &impl Abort, fen: &str, key: &str, pairs: u32) {
    let position = position_of(rt, fen);
    let mut probes = Probes::new();
    let text = write_position_key(&position, &mut probes);
    assert!(rt; text.as_slice() == key.as_bytes(), "{fen}");
    assert_eq!(rt; probes.count(), pairs, "{fen}");
}

#[test]
fn writes_keys(rt: HostRuntime) {
    for (fen, key, pairs) in KEYS {
        has_key(&rt, fen, key, pairs);
    }
}
