//! Moves as text, read and written, in worked positions.

use crate::rules::{KINDS, PROMOTIONS};
use crate::text::resolution::square;
use crate::text::{POSITIONS, position_of};
use chess_rules::{
    Kind, Move, Position, Probes, Promotion, Square, has_legal_move, in_check, origins, try_pair,
};
use chess_text::{Form, Played, read_form, resolve, write_san};
use std::process::Abort;

fn go(from: [u8; 2], to: [u8; 2], promotion: Option<Promotion>) -> Move {
    Move {
        from: square(from),
        to: square(to),
        promotion,
    }
}

// In that position the move is written so, at so many pairs beside those of `has_legal_move`.
fn is_written(rt: &impl Abort, fen: &str, mv: &Move, text: &str, pairs: u32) {
    let position = position_of(rt, fen);
    let Some(next) = try_pair(&position, *mv, &mut Probes::new()) else {
        assert!(rt; false, "{text}");
        return;
    };
    let played = Played { mv: *mv, next };
    let mut answers = Probes::new();
    if in_check(&played.next) {
        has_legal_move(&played.next, &mut answers);
    }
    let mut probes = Probes::new();
    let written = write_san(&position, &played, &mut probes);
    assert!(rt; written.as_slice() == text.as_bytes(), "{text}");
    assert_eq!(rt;
        probes.count(),
        pairs.wrapping_add(answers.count()),
        "{text}"
    );
}

#[test]
fn writes_as_much_as_tells_apart(rt: HostRuntime) {
    // the other knight is pinned
    let pinned = "4k3/8/8/8/1b6/2N5/8/4K1N1 w - - 0 1";
    is_written(&rt, pinned, &go(*b"g1", *b"e2", None), "Ne2", 2);
    let queens = "1k6/8/8/8/4Q2Q/8/8/K6Q w - - 0 1";
    is_written(&rt, queens, &go(*b"h4", *b"e1", None), "Qh4e1", 3);
    is_written(&rt, queens, &go(*b"e4", *b"e1", None), "Qee1", 3);
    is_written(&rt, queens, &go(*b"h1", *b"e1", None), "Q1e1", 3);
    is_written(&rt, queens, &go(*b"h1", *b"h2", None), "Q1h2+", 2);
    // rivals of one file and of one rank, one of neither, and pieces without any
    let rooks = "7R/1k6/8/8/8/8/8/K6R w - - 0 1";
    is_written(&rt, rooks, &go(*b"h8", *b"h4", None), "R8h4", 2);
    let knights = "7k/8/8/8/8/8/8/KN3N2 w - - 0 1";
    is_written(&rt, knights, &go(*b"b1", *b"d2", None), "Nbd2", 2);
    let neither = "4k3/8/8/8/8/2N5/8/4K1N1 w - - 0 1";
    is_written(&rt, neither, &go(*b"g1", *b"e2", None), "Nge2", 2);
    is_written(&rt, neither, &go(*b"c3", *b"e2", None), "Nce2", 2);
    let diagonal = "7k/8/8/1N6/8/8/8/K4N2 w - - 0 1";
    is_written(&rt, diagonal, &go(*b"b5", *b"d6", None), "Nd6", 1);
    is_written(&rt, diagonal, &go(*b"f1", *b"e3", None), "Ne3", 1);
    // a capture
    let capture = "7k/8/8/3p4/8/2N1N3/8/K7 w - - 0 1";
    is_written(&rt, capture, &go(*b"e3", *b"d5", None), "Nexd5", 2);
}

#[test]
fn writes_pawns_and_castling(rt: HostRuntime) {
    let passing = "4k3/8/8/8/3pP3/8/8/4K3 b - e3 0 1";
    is_written(&rt, passing, &go(*b"d4", *b"e3", None), "dxe3", 0);
    is_written(&rt, passing, &go(*b"d4", *b"d3", None), "d3", 0);
    let rooks = "r3k2r/8/8/8/8/8/8/R3K2R w KQkq - 0 1";
    is_written(&rt, rooks, &go(*b"e1", *b"g1", None), "O-O", 0);
    is_written(&rt, rooks, &go(*b"e1", *b"c1", None), "O-O-O", 0);
    is_written(&rt, rooks, &go(*b"e1", *b"f1", None), "Kf1", 0);
    let taken = "4k3/8/8/8/8/8/5r2/4K3 w - - 0 1";
    is_written(&rt, taken, &go(*b"e1", *b"f2", None), "Kxf2", 0);
    is_written(&rt, rooks, &go(*b"a1", *b"a8", None), "Rxa8+", 2);
    let seventh = "1r6/P6k/8/8/8/8/8/K7 w - - 0 1";
    let queen = Some(Promotion::Queen);
    is_written(&rt, seventh, &go(*b"a7", *b"a8", queen), "a8=Q", 0);
    let knight = Some(Promotion::Knight);
    is_written(&rt, seventh, &go(*b"a7", *b"b8", knight), "axb8=N", 0);
}

#[test]
fn marks_check_and_mate(rt: HostRuntime) {
    // en passant is the only answer
    let passing = "3R1R2/4K3/8/4k3/4p3/8/3P4/8 w - - 0 1";
    is_written(&rt, passing, &go(*b"d2", *b"d4", None), "d4+", 0);
    // the knight that could take is pinned; a promotion takes the rook
    let pinned = "7k/6np/8/8/8/8/1B6/K3R3 w - - 0 1";
    is_written(&rt, pinned, &go(*b"e1", *b"e8", None), "Re8#", 1);
    let promoting = "7K/3P4/7k/8/8/8/8/4r3 b - - 0 1";
    is_written(&rt, promoting, &go(*b"e1", *b"e8", None), "Re8+", 1);
    // stalemate
    let stale = "7k/5K2/8/8/8/8/8/6Q1 w - - 0 1";
    is_written(&rt, stale, &go(*b"g1", *b"g6", None), "Qg6", 1);
    let fool = "rnbqkbnr/pppp1ppp/8/4p3/6P1/5P2/PPPPP2P/RNBQKBNR b KQkq g3 0 2";
    is_written(&rt, fool, &go(*b"d8", *b"h4", None), "Qh4#", 1);
    // castling and a promotion that give check
    let castling = "5k2/8/8/8/8/8/8/4K2R w K - 0 1";
    is_written(&rt, castling, &go(*b"e1", *b"g1", None), "O-O+", 0);
    let queen = Some(Promotion::Queen);
    let longest = "2r4k/1P4pp/8/8/8/8/8/K7 w - - 0 1";
    is_written(&rt, longest, &go(*b"b7", *b"c8", queen), "bxc8=Q#", 0);
}

// The text of each legal move to the square is read as that move again.
fn comes_back(rt: &impl Abort, position: &Position, to: Square) -> u32 {
    let mut moves = 0u32;
    for kind in KINDS {
        for from in origins(position, kind, to).as_slice() {
            for promotion in PROMOTIONS {
                let mv = Move {
                    from: *from,
                    to,
                    promotion,
                };
                let Some(next) = try_pair(position, mv, &mut Probes::new()) else {
                    continue;
                };
                let text = write_san(position, &Played { mv, next }, &mut Probes::new());
                let again = read_form(text.as_slice()).and_then(|form| resolve(
                    position,
                    &form,
                    &mut Probes::new(),
                ).ok());
                assert!(rt; again.is_some_and(|other| other.mv == mv), "{mv:?}");
                moves = moves.wrapping_add(1);
            }
        }
    }
    moves
}

#[test]
fn each_text_names_its_move(rt: HostRuntime) {
    for fen in POSITIONS {
        let position = position_of(&rt, fen);
        let mut moves = 0u32;
        for file in 0..8 {
            for rank in 0..8 {
                if let Some(to) = Square::new(file, rank) {
                    moves = moves.wrapping_add(comes_back(&rt, &position, to));
                }
            }
        }
        assert!(rt; moves > 0, "{fen}");
    }
}

fn reads(rt: &impl Abort, text: &str, form: Form) {
    assert!(rt; read_form(text.as_bytes()) == Some(form), "{text}");
}

fn piece_move(
    kind: Kind,
    file: Option<u8>,
    rank: Option<u8>,
    to: [u8; 2],
    promotion: Option<Promotion>,
) -> Form {
    Form::Man {
        kind,
        file,
        rank,
        to: square(to),
        promotion,
    }
}

#[test]
fn reads_forms(rt: HostRuntime) {
    let queen = Some(Promotion::Queen);
    reads(&rt, "e4", piece_move(Kind::Pawn, None, None, *b"e4", None));
    reads(&rt, "Pe4", piece_move(Kind::Pawn, None, None, *b"e4", None));
    let knight = piece_move(Kind::Knight, Some(6), Some(0), *b"f3", None);
    reads(&rt, "Ng1f3", knight);
    let with_sign = piece_move(Kind::Pawn, Some(4), None, *b"d8", queen);
    reads(&rt, "exd8=Q+", with_sign);
    let without = piece_move(Kind::Pawn, Some(4), None, *b"d8", queen);
    reads(&rt, "ed8Q", without);
    let rook = piece_move(Kind::Rook, None, Some(0), *b"a3", None);
    reads(&rt, "R1xa3##+", rook);
    let pawn = piece_move(Kind::Pawn, Some(4), Some(1), *b"e4", None);
    reads(&rt, "e2e4", pawn);
    reads(&rt, "0-0-0#", Form::Castle { long: true });
    reads(&rt, "O-O", Form::Castle { long: false });
}

#[test]
fn reads_no_forms(rt: HostRuntime) {
    let texts = [
        "", "e9", "N-f3", "O-0", "O-O-O-O", "e8=K", "e8=q", "e4x", "e4+e5", "12e4", " e4", "e4 ",
    ];
    for text in texts {
        assert!(rt; read_form(text.as_bytes()).is_none(), "{text}");
    }
}
