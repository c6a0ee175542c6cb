//! How many pairs of squares are tried for a move.
use crate::{Vector, converted, tables};
use chess_rules::{Kind, Position, Square, origins};
use chess_text::read_fen;
use pgn_game::Mode;
use std::process::Abort;
use std::test::Fail;

#[rattlefmt::skip]
const KINDS: [Kind; 6] =
    [Kind::King, Kind::Queen, Kind::Rook, Kind::Bishop, Kind::Knight, Kind::Pawn];

/// At most 1,040 pairs are tried for a move, and one at least where a move is played.
fn tries_few(rt: &impl Abort, table: &[Vector], text: &mut Vec<u8>) {
    for vector in table {
        let run = converted(vector.input.as_bytes(), vector.mode, text);
        if let Ok(totals) = run {
            let (plies, probes) = (totals.plies, totals.most_probes);
            assert!(rt; probes <= 1040, "{}", vector.name);
            assert!(rt; 0 < probes || plies == 0, "{}", vector.name);
        }
    }
}

#[test]
fn tries_few_pairs_for_a_move(rt: HostRuntime) {
    let mut text = Vec::new(rt.alloc());
    for table in tables() {
        tries_few(&rt, table, &mut text);
    }
}

/// How many pairs there are of a target and an origin of a piece of its kind.
fn count_pairs(position: &Position) -> u32 {
    let mut pairs = 0u32;
    for rank in 0..8 {
        for file in 0..8 {
            for kind in KINDS {
                let target = Square::new(file, rank).unwrap_or_default();
                let found = origins(position, kind, target).len() as u32;
                pairs = pairs.wrapping_add(found);
            }
        }
    }
    pairs
}

#[test]
fn counts_the_pairs_of_a_mate(rt: HostRuntime) {
    let before = b"rnbqkbnr/pppp1ppp/8/4p3/6P1/5P2/PPPPP2P/RNBQKBNR b KQkq g3 0 2";
    let after = b"rnb1kbnr/pppp1ppp/8/4p3/6Pq/5P2/PPPPP2P/RNBQKBNR w KQkq - 1 3";
    let target = Square::new(7, 3).unwrap_or_default();
    let (Ok(before), Ok(after)) = (read_fen(before), read_fen(after)) else {
        assert!(rt; false);
        return;
    };
    let tried = origins(&before, Kind::Queen, target).len() as u32;
    let expected = count_pairs(&after).wrapping_add(tried.wrapping_mul(2));
    let mut text = Vec::new(rt.alloc());
    let input = b"[Result \"0-1\"]\nf3 e5 g4 Qh4 0-1";
    match converted(input, Mode::Full, &mut text) {
        Ok(totals) => assert_eq!(rt; totals.most_probes, expected),
        Err(fault) => assert!(rt; false, "{fault:?}"),
    }
}
