//! From which squares a form's move is a step, and from which it is legal, in worked positions.

use crate::text::position_of;
use OriginKind::{Legal, NoStep, Unsafe};
use chess_rules::Probes;
use chess_text::{OriginKind, origins_of_form, read_form};
use std::process::Abort;

const FIRST: &str = "rnbqkbnr/pppppppp/8/8/8/8/PPPPPPPP/RNBQKBNR w KQkq - 0 1";

// The bishop on b4 pins the knight on c3.
const PINNED: &str = "4k3/8/8/8/1b6/2N5/8/4K1N1 w - - 0 1";

const QUEENS: &str = "1k6/8/8/8/4Q2Q/8/8/K6Q w - - 0 1";

const ROOKS: &str = "r3k2r/8/8/8/8/8/8/R3K2R w KQkq - 0 1";

// The rook on f3 attacks f1.
const CROSSED: &str = "4k3/8/8/8/8/5r2/8/4K2R w K - 0 1";

const PROMOTION: &str = "8/P6k/8/8/8/8/8/K7 w - - 0 1";

// Whether the square with this place among all has that name.
fn is_named(index: usize, name: [u8; 2]) -> bool {
    let file = (index % 8) as u8;
    let rank = (index / 8 % 8) as u8;
    name[0] == b'a'.wrapping_add(file) && name[1] == b'1'.wrapping_add(rank)
}

// The kind that the row gives the square.
fn wanted(index: usize, row: &[([u8; 2], OriginKind)]) -> OriginKind {
    for (name, kind) in row {
        if is_named(index, *name) {
            return *kind;
        }
    }
    NoStep
}

// The text's move is a step from the squares of the row, and from no other. `tried` pairs are
// counted.
fn explains(rt: &impl Abort, fen: &str, text: &str, tried: u32, row: &[([u8; 2], OriginKind)]) {
    let position = position_of(rt, fen);
    let Some(form) = read_form(text.as_bytes()) else {
        assert!(rt; false, "{text}");
        return;
    };
    let mut probes = Probes::new();
    let kinds = origins_of_form(&position, &form, &mut probes);
    for (index, kind) in kinds.iter().enumerate() {
        assert!(rt; *kind == wanted(index, row), "{text}: {index}: {kind:?}");
    }
    assert_eq!(rt; probes.count(), tried, "{text}");
}

#[test]
fn explains_a_pin(rt: HostRuntime) {
    explains(&rt, PINNED, "Ne2", 2, &[(*b"c3", Unsafe), (*b"g1", Legal)]);
    explains(&rt, PINNED, "Nce2", 2, &[(*b"c3", Unsafe)]);
    explains(&rt, PINNED, "N1e2", 2, &[(*b"g1", Legal)]);
    explains(&rt, PINNED, "Nbe2", 2, &[]);
    explains(&rt, PINNED, "Nd5", 1, &[(*b"c3", Unsafe)]);
}

#[test]
fn explains_what_no_piece_can_do(rt: HostRuntime) {
    // a rook on a diagonal (it sees the square, so it is tried), a square with a piece of its own
    // side, and pieces of the other side
    explains(&rt, "4k3/8/8/8/8/8/8/R3K3 w - - 0 1", "Rb2", 1, &[]);
    explains(&rt, FIRST, "Nd2", 1, &[]);
    explains(&rt, FIRST, "Nf6", 0, &[]);
    explains(&rt, FIRST, "e5", 3, &[]);
    explains(&rt, FIRST, "e4", 3, &[(*b"e2", Legal)]);
}

#[test]
fn explains_several_origins(rt: HostRuntime) {
    let all = [(*b"e4", Legal), (*b"h4", Legal), (*b"h1", Legal)];
    explains(&rt, QUEENS, "Qe1", 3, &all);
    explains(&rt, QUEENS, "Qhe1", 3, &[(*b"h4", Legal), (*b"h1", Legal)]);
    explains(&rt, QUEENS, "Qh4e1", 3, &[(*b"h4", Legal)]);
}

#[test]
fn explains_moves_of_the_king(rt: HostRuntime) {
    let text = "3rk3/8/8/8/8/8/8/4K3 w - - 0 1";
    explains(&rt, text, "Kd1", 1, &[(*b"e1", Unsafe)]);
    explains(&rt, text, "Ke2", 1, &[(*b"e1", Legal)]);
    explains(&rt, text, "Ke3", 1, &[]);
}

#[test]
fn explains_castling(rt: HostRuntime) {
    explains(&rt, ROOKS, "O-O", 1, &[(*b"e1", Legal)]);
    explains(&rt, ROOKS, "O-O-O", 1, &[(*b"e1", Legal)]);
    let short = "r3k2r/8/8/8/8/8/8/R4RK1 b kq - 1 1";
    explains(&rt, short, "O-O-O", 1, &[(*b"e8", Legal)]);
    // over an attacked square it is no step
    explains(&rt, short, "O-O", 1, &[]);
    explains(&rt, CROSSED, "O-O", 1, &[]);
    explains(&rt, CROSSED, "Kf1", 1, &[(*b"e1", Unsafe)]);
}

#[test]
fn explains_castling_as_no_move_of_the_king(rt: HostRuntime) {
    explains(&rt, ROOKS, "Kg1", 1, &[]);
    explains(&rt, ROOKS, "Ke1c1", 1, &[]);
    explains(&rt, ROOKS, "Kf1", 1, &[(*b"e1", Legal)]);
}

#[test]
fn explains_en_passant(rt: HostRuntime) {
    let text = "4k3/8/8/8/3pP3/8/8/4K3 b - e3 0 1";
    explains(&rt, text, "dxe3", 1, &[(*b"d4", Legal)]);
    explains(&rt, text, "e3", 1, &[(*b"d4", Legal)]);
    explains(&rt, text, "fxe3", 1, &[]);
    // both pawns leave the rank on which the queen attacks the king
    let bare = "8/8/8/8/k2Pp2Q/8/8/3K4 b - d3 0 1";
    explains(&rt, bare, "exd3", 1, &[(*b"e4", Unsafe)]);
}

#[test]
fn explains_promotions(rt: HostRuntime) {
    explains(&rt, PROMOTION, "a8=Q", 1, &[(*b"a7", Legal)]);
    explains(&rt, PROMOTION, "a8N", 1, &[(*b"a7", Legal)]);
    explains(&rt, PROMOTION, "a8", 1, &[]);
    explains(&rt, PROMOTION, "Ka2=Q", 1, &[]);
}
