//! Lines of play: the plies of a text of moves, in SAN and in UCI.
use chess_rules::Position;
use chess_text::{read_fen, write_fen, write_uci};
use pgn_game::{Fault, LineOfPlay, Notation, Reason};
use std::process::Abort;

/// A ply of a line: its place, its SAN, its UCI and the FEN after it.
type PlyTexts = (usize, &'static [u8], &'static [u8], &'static [u8]);

const E4: &[u8] = b"rnbqkbnr/pppppppp/8/8/4P3/8/PPPP1PPP/RNBQKBNR b KQkq e3 0 1";

const E4_E5: &[u8] = b"rnbqkbnr/pppp1ppp/8/4p3/4P3/8/PPPP1PPP/RNBQKBNR w KQkq e6 0 2";

const NF3: &[u8] = b"rnbqkbnr/pppp1ppp/8/4p3/4P3/5N2/PPPP1PPP/RNBQKB1R b KQkq - 1 2";

/// Texts of moves from the usual first position, with all of their plies.
#[rattlefmt::skip]
const LINES: &[(&[u8], Notation, &[PlyTexts])] = &[
    (b"", Notation::San, &[]),
    (b" \t\r\n", Notation::Uci, &[]),
    (b"1. 1... . 12 ... 7.2.", Notation::San, &[]),
    (b"1. e4 e5 2. Nf3", Notation::San,
        &[(3, b"e4", b"e2e4", E4), (6, b"e5", b"e7e5", E4_E5), (12, b"Nf3", b"g1f3", NF3)]),
    // freely written, and with other white space
    (b"\n1 . e2e4\x0b\x0ce7e5\t\r\n2 Ng1f3 ", Notation::San,
        &[(5, b"e4", b"e2e4", E4), (11, b"e5", b"e7e5", E4_E5), (20, b"Nf3", b"g1f3", NF3)]),
    (b"e2e4 1... e7e5\ng1f3\n", Notation::Uci,
        &[(0, b"e4", b"e2e4", E4), (10, b"e5", b"e7e5", E4_E5), (15, b"Nf3", b"g1f3", NF3)]),
];

/// The next ply is this one.
fn plays(rt: &impl Abort, line: &mut LineOfPlay<'_>, expected: &PlyTexts) {
    let (at, san, uci, fen) = *expected;
    match line.next() {
        Ok(Some(ply)) => {
            assert!(rt; ply.at == at && ply.san.as_slice() == san);
            assert!(rt; write_uci(&ply.played.mv).as_slice() == uci);
            assert!(rt; write_fen(&ply.played.next).as_slice() == fen);
        }
        _ => assert!(rt; false),
    }
    assert!(rt; write_fen(line.position()).as_slice() == fen);
}

/// No ply is left, also if it is asked for once more.
fn ends(rt: &impl Abort, line: &mut LineOfPlay<'_>) {
    assert!(rt; matches!(line.next(), Ok(None)));
    assert!(rt; matches!(line.next(), Ok(None)));
}

/// The line has these plies, and no other.
fn has_plies(rt: &impl Abort, text: &[u8], notation: Notation, plies: &[PlyTexts]) {
    let mut line = LineOfPlay::new(Position::initial(), text, notation);
    for ply in plies {
        plays(rt, &mut line, ply);
    }
    ends(rt, &mut line);
}

#[test]
fn plays_lines(rt: HostRuntime) {
    for &(text, notation, plies) in LINES {
        has_plies(&rt, text, notation, plies);
    }
}

/// The next move is that of this ply.
fn plays_move(rt: &impl Abort, line: &mut LineOfPlay<'_>, expected: &PlyTexts) {
    let (at, _, uci, fen) = *expected;
    match line.next_move() {
        Ok(Some(found)) => {
            assert!(rt; found.at == at);
            assert!(rt; write_uci(&found.played.mv).as_slice() == uci);
            assert!(rt; write_fen(&found.played.next).as_slice() == fen);
        }
        _ => assert!(rt; false),
    }
    assert!(rt; write_fen(line.position()).as_slice() == fen);
}

/// The line has these moves, and no other.
fn has_moves(rt: &impl Abort, text: &[u8], notation: Notation, plies: &[PlyTexts]) {
    let mut line = LineOfPlay::new(Position::initial(), text, notation);
    for ply in plies {
        plays_move(rt, &mut line, ply);
    }
    assert!(rt; matches!(line.next_move(), Ok(None)));
    ends(rt, &mut line);
}

#[test]
fn plays_lines_without_san(rt: HostRuntime) {
    for &(text, notation, plies) in LINES {
        has_moves(&rt, text, notation, plies);
    }
}

/// A text of moves from a FEN, with the number of plies before the word that names none, the place
/// of this word and the reason.
type Refused = (&'static [u8], &'static [u8], Notation, usize, u64, Reason);

const FIRST: &[u8] = b"rnbqkbnr/pppppppp/8/8/8/8/PPPPPPPP/RNBQKBNR w KQkq - 0 1";

#[rattlefmt::skip]
const REFUSED: &[Refused] = &[
    (FIRST, b"1. e4 e5 2. Ke3 Nc6", Notation::San, 2, 12, Reason::IllegalMove),
    // what a line has no place for
    (FIRST, b"1.e4", Notation::San, 0, 0, Reason::NotAMove),
    (FIRST, b"e4 {best} e5", Notation::San, 1, 3, Reason::NotAMove),
    (FIRST, b"e4 (d4) e5", Notation::San, 1, 3, Reason::NotAMove),
    (FIRST, b"e4 $1", Notation::San, 1, 3, Reason::NotAMove),
    (FIRST, b"1. e4! e5", Notation::San, 0, 3, Reason::NotAMove),
    (FIRST, b"e4 1-0", Notation::San, 1, 3, Reason::NotAMove),
    (FIRST, b"e4 *", Notation::San, 1, 3, Reason::NotAMove),
    (FIRST, b"e4\0e5", Notation::San, 0, 0, Reason::NotAMove),
    // each notation alone
    (FIRST, b"e4", Notation::Uci, 0, 0, Reason::NotAMove),
    (FIRST, b" g1f3", Notation::San, 0, 1, Reason::IllegalMove),
    (FIRST, b"e2e4 e7e5 e1e3", Notation::Uci, 2, 10, Reason::IllegalMove),
    (FIRST, b"e2e4 E7E5", Notation::Uci, 1, 5, Reason::NotAMove),
    (b"4k3/8/8/8/8/8/4K3/N3N3 w - - 0 1", b"Kd2 Kd8 Nc2", Notation::San, 2, 8,
        Reason::AmbiguousMove),
    (b"4k3/8/8/8/8/8/8/4K3 w - - 0 99999", b"Kd1 Kd8", Notation::San, 1, 4, Reason::MoveLimit),
    (b"4k3/8/8/8/8/8/8/4K3 w - - 0 99999", b"e1d1 e8d8", Notation::Uci, 1, 5, Reason::MoveLimit),
];

/// The next ply is this fault, also if it is asked for once more.
fn refuses(rt: &impl Abort, line: &mut LineOfPlay<'_>, fault: Fault) {
    assert!(rt; line.next_move().err() == Some(fault));
    assert!(rt; line.next().err() == Some(fault));
    assert!(rt; line.next().err() == Some(fault));
}

/// The line has so many plies, and then this fault.
fn is_refused(rt: &impl Abort, row: &Refused) {
    let (fen, text, notation, plies, at, reason) = *row;
    let Ok(position) = read_fen(fen) else {
        assert!(rt; false);
        return;
    };
    let mut line = LineOfPlay::new(position, text, notation);
    for _ in 0..plies {
        assert!(rt; matches!(line.next(), Ok(Some(_))));
    }
    refuses(rt, &mut line, Fault { at, reason });
}

#[test]
fn ends_a_line_at_the_first_word_that_names_no_move(rt: HostRuntime) {
    for row in REFUSED {
        is_refused(&rt, row);
    }
}

/// Castling on either wing, and a promotion.
const SPECIAL: &[PlyTexts] = &[
    (0, b"O-O", b"e1g1", b"r3k3/6P1/8/8/8/8/8/5RK1 b q - 1 1"),
    (5, b"O-O-O", b"e8c8", b"2kr4/6P1/8/8/8/8/8/5RK1 w - - 2 2"),
    (10, b"g8=N", b"g7g8n", b"2kr2N1/8/8/8/8/8/8/5RK1 b - - 0 2"),
];

#[test]
fn plays_special_moves_of_uci(rt: HostRuntime) {
    let Ok(position) = read_fen(b"r3k3/6P1/8/8/8/8/8/4K2R w Kq - 0 1") else {
        assert!(rt; false);
        return;
    };
    let mut line = LineOfPlay::new(position, b"e1g1 e8c8 g7g8n", Notation::Uci);
    for ply in SPECIAL {
        plays(&rt, &mut line, ply);
    }
    ends(&rt, &mut line);
}
