//! Outside values: the standard's own texts, positions that are in wide use for tests, and texts
//! that are none.

mod fen_writer;
mod form_origins;
mod key;
mod resolution;
mod san;
mod uci;

use chess_rules::Position;
use chess_text::{FenFault, read_fen, write_fen};
use std::process::Abort;

// Texts that are canonical already.
const POSITIONS: [&str; 30] = [
    // PGN 16.1.4: the first position, and after 1. e4 c5 2. Nf3
    "rnbqkbnr/pppppppp/8/8/8/8/PPPPPPPP/RNBQKBNR w KQkq - 0 1",
    "rnbqkbnr/pppppppp/8/8/4P3/8/PPPP1PPP/RNBQKBNR b KQkq e3 0 1",
    "rnbqkbnr/pp1ppppp/8/2p5/4P3/8/PPPP1PPP/RNBQKBNR w KQkq c6 0 2",
    "rnbqkbnr/pp1ppppp/8/2p5/4P3/5N2/PPPP1PPP/RNBQKB1R b KQkq - 1 2",
    // counts of legal moves
    "r3k2r/p1ppqpb1/bn2pnp1/3PN3/1p2P3/2N2Q1p/PPPBBPPP/R3K2R w KQkq - 0 1",
    "8/2p5/3p4/KP5r/1R3p1k/8/4P1P1/8 w - - 0 1",
    "r3k2r/Pppp1ppp/1b3nbN/nP6/BBP1P3/q4N2/Pp1P2PP/R2Q1RK1 w kq - 0 1",
    "r2q1rk1/pP1p2pp/Q4n2/bbp1p3/Np6/1B3NBn/pPPP1PPP/R3K2R b KQ - 0 1",
    "rnbq1k1r/pp1Pbppp/2p5/8/2B5/8/PPP1NnPP/RNBQK2R w KQ - 1 8",
    "r4rk1/1pp1qppp/p1np1n2/2b1p1B1/2B1P1b1/P1NP1N2/1PP1QPPP/R4RK1 w - - 0 10",
    "n1n5/PPPk4/8/8/8/8/4Kppp/5N1N b - - 0 1",
    "8/8/8/8/k2Pp2Q/8/8/3K4 b - d3 0 1",
    "2r5/3pk3/8/2P5/8/2K5/8/8 w - - 5 4",
    // Bratko and Kopec
    "1k1r4/pp1b1R2/3q2pp/4p3/2B5/4Q3/PPP2B2/2K5 b - - 0 1",
    "3r1k2/4npp1/1ppr3p/p6P/P2PPPP1/1NR5/5K2/2R5 w - - 0 1",
    "2q1rr1k/3bbnnp/p2p1pp1/2pPp3/PpP1P1P1/1P2BNNP/2BQ1PRK/7R b - - 0 1",
    "rnbqkb1r/p3pppp/1p6/2ppP3/3N4/2P5/PPP1QPPP/R1B1KB1R w KQkq - 0 1",
    "r1b2rk1/2q1b1pp/p2ppn2/1p6/3QP3/1BN1B3/PPP3PP/R4RK1 w - - 0 1",
    "2r3k1/pppR1pp1/4p3/4P1P1/5P2/1P4K1/P1P5/8 w - - 0 1",
    "1nk1r1r1/pp2n1pp/4p3/q2pPp1N/b1pP1P2/B1P2R2/2P1B1PP/R2Q2K1 w - - 0 1",
    "4b3/p3kp2/6p1/3pP2p/2pP1P2/4K1P1/P3N2P/8 w - - 0 1",
    "2kr1bnr/pbpq4/2n1pp2/3p3p/3P1P1B/2N2N1Q/PPP3PP/2KR1B1R w - - 0 1",
    "3rr1k1/pp3pp1/1qn2np1/8/3p4/PP1R1P2/2P1NQPP/R1B3K1 b - - 0 1",
    "2r1nrk1/p2q1ppp/bp1p4/n1pPp3/P1P1P3/2PBB1N1/4QPPP/R4RK1 w - - 0 1",
    "r3r1k1/ppqb1ppp/8/4p1NQ/8/2P5/PP3PPP/R3R1K1 b - - 0 1",
    // Win at Chess, and Fine's pawn ending
    "2rr3k/pp3pp1/1nnqbN1p/3pN3/2pP4/2P3Q1/PPB4P/R4RK1 w - - 0 1",
    "8/7p/5k2/5p2/p1p2P2/Pr1pPK2/1P1R3P/8 b - - 0 1",
    "8/k7/3p4/p2P1p2/P2P1P2/8/8/K7 w - - 0 1",
    // every right without a rook, and the numbers at their limit
    "4k3/8/8/8/8/8/8/4K3 w KQkq - 0 1",
    "4k3/8/8/8/8/8/8/4K3 b - - 99999 99999",
];

// Texts that spell no position, and the field at fault.
const FAULTS: [(&str, u8); 29] = [
    ("", 1),
    ("9/8/8/8/8/8/8/8 w - - 0 1", 1),
    ("4k3/8/8/8/8/8/8/4K3 x - - 0 1", 2),
    ("4k3/8/8/8/8/8/8/4K3 w", 3),
    ("4k3/8/8/8/8/8/8/4K3 w qK - 0 1", 3),
    ("4k3/8/8/8/8/8/8/4K3 w - e4 0 1", 4),
    ("4k3/8/8/8/8/8/8/4K3 w - - 100000 1", 5),
    ("4k3/8/8/8/8/8/8/4K3 w - - 0", 6),
    ("4k3/8/8/8/8/8/8/4K3 w - - 0 1 ", 6),
    ("8/8/8/8/8/8/8/8 w - - 0 1", 7),
    ("4k3/8/8/8/8/8/8/4K2P w - - 0 1", 7),
    ("4k3/8/8/8/4R3/8/8/4K3 w - - 0 1", 7),
    ("4k3/8/8/8/8/8/8/4K3 w - e3 0 1", 7),
    // ranks: too few, too many, a square too many or too few, no digit, no letter, an empty one
    ("4k3/8/8/8/8/8/4K3 w - - 0 1", 1),
    ("4k3/8/8/8/8/8/8/8/4K3 w - - 0 1", 1),
    ("4k31/8/8/8/8/8/8/4K3 w - - 0 1", 1),
    ("4k2/8/8/8/8/8/8/4K3 w - - 0 1", 1),
    ("04k3/8/8/8/8/8/8/4K3 w - - 0 1", 1),
    ("4x3/8/8/8/8/8/8/4K3 w - - 0 1", 1),
    ("4k3/8/8/8/8/8/8/4K3/ w - - 0 1", 1),
    // one space between two fields
    (" 4k3/8/8/8/8/8/8/4K3 w - - 0 1", 1),
    ("4k3/8/8/8/8/8/8/4K3  w - - 0 1", 2),
    ("4k3/8/8/8/8/8/8/4K3 w KK - 0 1", 3),
    ("4k3/8/8/8/8/8/8/4K3 w -K - 0 1", 3),
    ("4k3/8/8/8/8/8/8/4K3 w - i6 0 1", 4),
    ("4k3/8/8/8/8/8/8/4K3 w - e66 0 1", 4),
    ("4k3/8/8/8/8/8/8/4K3 w - - +1 1", 5),
    ("4k3/8/8/8/8/8/8/4K3 w - - 0 000001", 6),
    // several at once: the lowest
    ("4k3/8/8/8/8/8/8/4K3 x qK e4 a b", 2),
];

// The position of a FEN, which is one.
fn position_of(rt: &impl Abort, fen: &str) -> Position {
    let position = read_fen(fen.as_bytes());
    assert!(rt; position.is_ok(), "{fen}: field {:?}", position.err());
    position.unwrap()
}

// The text is read, and written as that one.
fn is_written(rt: &impl Abort, text: &str, canonical: &str) {
    let written = write_fen(&position_of(rt, text));
    assert!(rt; written.as_slice() == canonical.as_bytes(), "{text}");
}

#[test]
fn writes_what_it_reads(rt: HostRuntime) {
    for text in POSITIONS {
        is_written(&rt, text, text);
    }
}

#[test]
fn writes_the_canonical_text(rt: HostRuntime) {
    let bare = "4k3/8/8/8/8/8/8/4K3 w - - 0 1";
    is_written(&rt, "4k3/44/8/8/8/8/8/4K3 w - - 00 001", bare);
    is_written(&rt, "1111k111/8/8/8/8/8/8/22K12 w - - 00000 00001", bare);
}

#[test]
fn tells_the_lowest_field_at_fault(rt: HostRuntime) {
    for (text, field) in FAULTS {
        match read_fen(text.as_bytes()) {
            Ok(_) => assert!(rt; false, "{text}"),
            Err(fault) => assert!(rt; fault == FenFault { field }, "{text}: {fault:?}"),
        }
    }
}

#[test]
fn writes_the_first_position(rt: HostRuntime) {
    let text = write_fen(&Position::initial());
    assert!(rt; text.as_slice() == POSITIONS[0].as_bytes());
}
