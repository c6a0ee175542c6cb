//! Forms, and the moves that they name in worked positions.

use crate::text::position_of;
use SanFault::{Ambiguous, NoMove};
use chess_rules::{Kind, Probes, Promotion, Square};
use chess_text::{Form, SanFault, resolve, write_fen};
use std::process::Abort;

const FIRST: &str = "rnbqkbnr/pppppppp/8/8/8/8/PPPPPPPP/RNBQKBNR w KQkq - 0 1";

const QUEENS: &str = "1k6/8/8/8/4Q2Q/8/8/K6Q w - - 0 1";

const PINNED: &str = "4k3/8/8/8/1b6/2N5/8/4K1N1 w - - 0 1";

const ROOKS: &str = "r3k2r/8/8/8/8/8/8/R3K2R w KQkq - 0 1";

// The file of a letter, or the rank of a digit.
fn line(byte: u8) -> u8 {
    if byte.is_ascii_digit() {
        byte.wrapping_sub(b'1')
    } else {
        byte.wrapping_sub(b'a')
    }
}

pub(crate) fn square(name: [u8; 2]) -> Square {
    Square::new(line(name[0]), line(name[1])).unwrap_or_default()
}

// A form of no castling, by the letters of what it tells; a dash for nothing.
fn piece_move(kind: Kind, hints: [u8; 2], to: [u8; 2], promotion: Option<Promotion>) -> Form {
    let told = |byte: u8| (byte != b'-').then_some(line(byte));
    Form::Man {
        kind,
        file: told(hints[0]),
        rank: told(hints[1]),
        to: square(to),
        promotion,
    }
}

// The form names the move from that square, and this is the position after it.
fn names(rt: &impl Abort, text: &str, form: Form, from: [u8; 2], after: &str, pairs: u32) {
    let position = position_of(rt, text);
    let mut probes = Probes::new();
    match resolve(&position, &form, &mut probes) {
        Err(fault) => assert!(rt; false, "{form:?}: {fault:?}"),
        Ok(played) => {
            assert!(rt; played.mv.from == square(from), "{form:?}");
            let next = write_fen(&played.next);
            assert!(rt; next.as_slice() == after.as_bytes(), "{form:?}");
        }
    }
    assert_eq!(rt; probes.count(), pairs, "{form:?}");
}

// The form names no move, with at least and at most so many pairs.
fn fails(rt: &impl Abort, text: &str, form: Form, wanted: SanFault, least: u32, most: u32) {
    let position = position_of(rt, text);
    let mut probes = Probes::new();
    match resolve(&position, &form, &mut probes) {
        Err(fault) => assert!(rt; fault == wanted, "{form:?}: {fault:?}"),
        Ok(_) => assert!(rt; false, "{form:?}"),
    }
    let pairs = probes.count();
    assert!(rt; least <= pairs && pairs <= most, "{form:?}");
}

// The form of a move of a piece, as the letters say, or of castling.
macro_rules! form {
    (O-O) => { Form::Castle { long: false } };
    (O-O-O) => { Form::Castle { long: true } };
    ($kind:ident $hints:literal $to:literal) => { piece_move(Kind::$kind, *$hints, *$to, None) };
    ($kind:ident $hints:literal $to:literal $promotion:ident) => {
        piece_move(Kind::$kind, *$hints, *$to, Some(Promotion::$promotion))
    };
}

// A call of `names` or of `fails` for each row.
macro_rules! rows {
    ($rt:expr; $($call:ident $position:ident ($($form:tt)+) $($wanted:expr),+;)*) => {
        $($call($rt, $position, form!($($form)+), $($wanted),+);)*
    };
}

#[test]
fn reads_moves_of_the_first_position(rt: HostRuntime) {
    let after = "rnbqkbnr/pppppppp/8/8/4P3/8/PPPP1PPP/RNBQKBNR b KQkq e3 0 1";
    rows! { &rt;
        names FIRST (Pawn b"--" b"e4") *b"e2", after, 3;
        fails FIRST (King b"--" b"e2") NoMove, 1, 1;
        fails FIRST (Rook b"--" b"e4") NoMove, 0, 0;
    }
}

#[test]
fn tells_queens_apart(rt: HostRuntime) {
    let after = "1k6/8/8/8/4Q3/8/8/K3Q2Q b - - 1 1";
    rows! { &rt;
        names QUEENS (Queen b"h4" b"e1") *b"h4", after, 3;
        fails QUEENS (Queen b"--" b"e1") Ambiguous, 2, 3;
        fails QUEENS (Queen b"h-" b"e1") Ambiguous, 2, 3;
        fails QUEENS (Queen b"-4" b"e1") Ambiguous, 2, 3;
        fails QUEENS (Queen b"a4" b"e1") NoMove, 3, 3;
    }
}

#[test]
fn passes_over_a_pinned_rival(rt: HostRuntime) {
    let after = "4k3/8/8/8/1b6/2N5/4N3/4K3 b - - 1 1";
    rows! { &rt;
        names PINNED (Knight b"--" b"e2") *b"g1", after, 2;
        fails PINNED (Knight b"c-" b"e2") NoMove, 2, 2;
    }
}

#[test]
fn reads_castling(rt: HostRuntime) {
    let short = "r3k2r/8/8/8/8/8/8/R4RK1 b kq - 1 1";
    let both = "2kr3r/8/8/8/8/8/8/R4RK1 w - - 2 2";
    let through = "4k3/8/8/8/8/5r2/8/4K2R w K - 0 1";
    rows! { &rt;
        names ROOKS (O-O) *b"e1", short, 1;
        names short (O-O-O) *b"e8", both, 1;
        fails short (O-O) NoMove, 1, 1;
        fails both (O-O) NoMove, 1, 1;
        fails through (O-O) NoMove, 1, 1;
    }
}

#[test]
fn reads_no_other_move_as_castling(rt: HostRuntime) {
    let rook = "3k4/8/8/8/8/8/8/K3R3 w KQ - 0 1";
    let after = "3k4/8/8/8/8/8/8/K5R1 b - - 1 1";
    rows! { &rt;
        fails rook (O-O) NoMove, 1, 1;
        names rook (Rook b"--" b"g1") *b"e1", after, 1;
    }
}

#[test]
fn reads_castling_as_no_move_of_the_king(rt: HostRuntime) {
    let after = "r3k2r/8/8/8/8/8/8/R4K1R b kq - 1 1";
    rows! { &rt;
        fails ROOKS (King b"--" b"g1") NoMove, 1, 1;
        fails ROOKS (King b"e1" b"c1") NoMove, 1, 1;
        names ROOKS (King b"--" b"f1") *b"e1", after, 1;
    }
}

#[test]
fn asks_for_the_promotion(rt: HostRuntime) {
    let text = "8/P6k/8/8/8/8/8/K7 w - - 0 1";
    let after = "Q7/7k/8/8/8/8/8/K7 b - - 0 1";
    rows! { &rt;
        names text (Pawn b"--" b"a8" Queen) *b"a7", after, 1;
        fails text (Pawn b"--" b"a8") NoMove, 1, 1;
        fails text (King b"--" b"a2" Queen) NoMove, 1, 1;
    }
}

#[test]
fn reads_en_passant(rt: HostRuntime) {
    let text = "4k3/8/8/8/3pP3/8/8/4K3 b - e3 0 1";
    let after = "4k3/8/8/8/8/4p3/8/4K3 w - - 0 2";
    let rank = "8/8/8/K2pP2r/8/8/8/7k w - d6 0 1";
    rows! { &rt;
        names text (Pawn b"d-" b"e3") *b"d4", after, 1;
        fails rank (Pawn b"e-" b"d6") NoMove, 1, 1;
    }
}
