//! The position in which a move was rejected.
use crate::tests::items::{Drops, LENGTHS, UsualItems};
use crate::{Usual, feed, feed_once};
use chess_rules::Position;
use chess_text::write_fen;
use pgn_game::{Fault, Fed, Inlet, Marker, Mode, Nowhere, Reason};
use std::io::Read;
use std::process::Abort;

/// The usual first position.
const START: &[u8] = b"rnbqkbnr/pppppppp/8/8/8/8/PPPPPPPP/RNBQKBNR w KQkq - 0 1";

/// The position after 1. e4.
const E4: &[u8] = b"rnbqkbnr/pppppppp/8/8/4P3/8/PPPP1PPP/RNBQKBNR b KQkq e3 0 1";

/// The position after 1. e4 e5.
const E4_E5: &[u8] = b"rnbqkbnr/pppp1ppp/8/4p3/4P3/8/PPPP1PPP/RNBQKBNR w KQkq e6 0 2";

/// Inputs, with the place and the reason of a fault, and the position in which a move was rejected.
#[rattlefmt::skip]
const REFUSED: &[(&[u8], u64, Reason, &[u8])] = &[
    (b"1. e4 e5 2. Ke3 ", 12, Reason::IllegalMove, E4_E5),
    (b"Ke2 ", 0, Reason::IllegalMove, START),
    (b"1. e4 * Nd4 ", 8, Reason::IllegalMove, START),
    (b"1. e4 * [A \"b\"] Nd4 ", 16, Reason::IllegalMove, START),
    (b"[FEN \"4k3/8/8/8/8/8/8/4K3 b - - 0 1\"] Ke2 ", 38, Reason::IllegalMove,
        b"4k3/8/8/8/8/8/8/4K3 b - - 0 1"),
    (b"[FEN \"4k3/8/8/8/8/8/8/4K3 b - - 0 99999\"] Kd8 ", 42, Reason::MoveLimit,
        b"4k3/8/8/8/8/8/8/4K3 b - - 0 99999"),
    (b"[FEN \"4k3/8/8/8/8/8/4K3/N3N3 w - - 0 1\"] Nc2 ", 41, Reason::AmbiguousMove,
        b"4k3/8/8/8/8/8/4K3/N3N3 w - - 0 1"),
    // in a variation: behind a move of its own, as its first move, and one that is legal outside
    (b"1. e4 e5 (1... c5 2. Ke3 ", 21, Reason::IllegalMove,
        b"rnbqkbnr/pp1ppppp/8/2p5/4P3/8/PPPP1PPP/RNBQKBNR w KQkq c6 0 2"),
    (b"1. e4 e5 (1... Ke6 ", 15, Reason::IllegalMove, E4),
    (b"1. e4 d5 (1... e5 2. exd5 ", 21, Reason::IllegalMove, E4_E5),
    // behind a variation, a move that is legal in it
    (b"1. e4 e5 (1... d5) 2. exd5 ", 22, Reason::IllegalMove, E4_E5),
];

/// The input is rejected with this fault, in the position of this FEN.
fn rejects_in(rt: &impl Abort, input: &[u8], fault: Fault, fen: &[u8]) {
    let mut converter = Usual::new(Mode::Full);
    assert!(rt; feed(&mut converter, input, &mut Nowhere) == Err(fault));
    match converter.refused_position() {
        Some(position) => assert!(rt; write_fen(position).as_slice() == fen),
        None => assert!(rt; false),
    }
}

#[test]
fn tells_where_a_move_was_rejected(rt: HostRuntime) {
    for &(input, at, reason, fen) in REFUSED {
        rejects_in(&rt, input, Fault { at, reason }, fen);
    }
}

/// Reads the items up to the end or a fault. No move is rejected before it.
fn read_items<R: Read>(
    rt: &impl Abort,
    items: &mut UsualItems,
    source: &mut Inlet<R>,
) -> Option<Fault> {
    // An input has fewer items than that.
    for _ in 0..u64::MAX {
        assert!(rt; items.refused_position().is_none());
        match items.next(source) {
            Ok(Some(_)) => {}
            Ok(None) => return None,
            Err(fault) => return Some(fault),
        }
    }
    None
}

/// The position has this FEN, or there is none.
fn is_kept(rt: &impl Abort, position: Option<&Position>, fen: Option<&[u8]>) {
    match position {
        Some(position) => assert!(rt; Some(write_fen(position).as_slice()) == fen),
        None => assert!(rt; fen.is_none()),
    }
}

/// The items end with this fault, and keep the position of this FEN, if a move was rejected.
fn items_keep(rt: &impl Abort, input: &[u8], fault: Fault, fen: Option<&[u8]>, most: usize) {
    let mut items = UsualItems::new();
    let mut source = Inlet::new(Drops { left: input, most });
    assert!(rt; read_items(rt, &mut items, &mut source) == Some(fault));
    is_kept(rt, items.refused_position(), fen);
    assert!(rt; items.next(&mut source) == Err(fault));
    is_kept(rt, items.refused_position(), fen);
}

#[test]
fn the_items_keep_where_a_move_was_rejected(rt: HostRuntime) {
    for &(input, at, reason, fen) in REFUSED {
        for most in LENGTHS {
            items_keep(&rt, input, Fault { at, reason }, Some(fen), most);
        }
    }
}

#[test]
fn the_items_keep_no_position_with_another_fault(rt: HostRuntime) {
    for &(input, at, reason) in OTHER_FAULTS {
        for most in LENGTHS {
            items_keep(&rt, input, Fault { at, reason }, None, most);
        }
    }
}

/// Inputs with other faults.
const OTHER_FAULTS: &[(&[u8], u64, Reason)] = &[
    (b"1. e4 e9 ", 6, Reason::NotAMove),
    (b"1. e4 )", 6, Reason::UnmatchedClose),
    (b"1. e4 [", 6, Reason::TagInMovetext),
    (b"1. e4 1-0 ", 6, Reason::ResultDiffers),
    (b"[FEN \"8\"] ", 5, Reason::BadFen(1)),
];

/// The input is rejected with this fault, which is none of a move.
fn rejects_no_move(rt: &impl Abort, input: &[u8], fault: Fault) {
    let mut converter = Usual::new(Mode::Full);
    assert!(rt; converter.refused_position().is_none());
    assert!(rt; feed(&mut converter, input, &mut Nowhere) == Err(fault));
    assert!(rt; converter.refused_position().is_none());
}

#[test]
fn tells_no_position_with_another_fault(rt: HostRuntime) {
    for &(input, at, reason) in OTHER_FAULTS {
        rejects_no_move(&rt, input, Fault { at, reason });
    }
}

#[test]
fn tells_no_position_without_a_fault(rt: HostRuntime) {
    let mut converter = Usual::new(Mode::Full);
    assert!(rt; feed_once(&mut converter, b"1. e4 *", &mut Nowhere) == Ok(Fed::Game(7)));
    assert!(rt; converter.refused_position().is_none());
}

/// What one game gives where a missing Result counts as White's win.
const COUNTED: &[(&[u8], Result<Fed, Fault>)] = &[
    (b"1. e4 1-0 ", Ok(Fed::Game(9))),
    (
        b"1. e4 *",
        Err(Fault {
            at: 6,
            reason: Reason::ResultDiffers,
        }),
    ),
    (b"[Result \"*\"] 1. e4 *", Ok(Fed::Game(20))),
    (
        b"[Result \"*\"] 1. e4 1-0 ",
        Err(Fault {
            at: 19,
            reason: Reason::ResultDiffers,
        }),
    ),
];

/// The input gives this where a missing Result counts as White's win.
fn counts_as_a_win(rt: &impl Abort, input: &[u8], fed: Result<Fed, Fault>) {
    let mut converter = Usual::new(Mode::Full);
    converter.count_missing_result_as(Marker::WhiteWins);
    assert!(rt; feed_once(&mut converter, input, &mut Nowhere) == fed);
}

#[test]
fn counts_a_missing_result_as_a_marker(rt: HostRuntime) {
    for &(input, fed) in COUNTED {
        counts_as_a_win(&rt, input, fed);
    }
    let mut converter = Usual::new(Mode::Full);
    converter.count_missing_result_as(Marker::WhiteWins);
    assert!(rt; feed_once(&mut converter, b"1-0 ", &mut Nowhere) == Ok(Fed::Game(3)));
    assert!(rt; converter.tag(b"Result") == Some(b"1-0".as_slice()));
}
