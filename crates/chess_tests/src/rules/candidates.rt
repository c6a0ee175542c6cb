//! Candidates, move counts by way of them, mates and stalemates.

use crate::rules::{EVERY_RIGHT, KINDS, PROMOTIONS, count_moves, nth, parts, play, square};
use chess_rules::{
    Colour, Kind, Move, OriginSearch, Parts, Piece, Position, Probes, Rights, Square,
    has_legal_move, in_check, may_have_two_origins, only_origin, origins, try_pair,
};
use std::test::Fail;

fn has_origin(position: &Position, kind: Kind, target: Square, origin: Square) -> bool {
    origins(position, kind, target)
        .as_slice()
        .iter()
        .any(|&found| found == origin)
}

// The origins are these, and no others.
fn assert_origins(
    rt: &impl std::process::Abort,
    position: &Position,
    kind: Kind,
    target: &[u8; 2],
    names: &[&[u8; 2]],
) {
    let Some(target) = square(target) else {
        assert!(rt; false);
        return;
    };
    let listed = origins(position, kind, target);
    assert_eq!(rt; listed.len(), names.len());
    let mut search = OriginSearch::new(position, kind, target);
    for origin in listed.as_slice() {
        assert_eq!(rt; search.next(), Some(*origin));
    }
    assert_eq!(rt; search.next(), None);
    assert_eq!(rt; search.next(), None);
    assert!(rt; names.len() <= 1 || may_have_two_origins(position, kind, target));
    let only = match names {
        [name] => square(*name),
        _ => None,
    };
    assert_eq!(rt; only_origin(position, kind, target), only);
    for name in names {
        let Some(origin) = square(*name) else {
            assert!(rt; false);
            return;
        };
        assert!(rt; has_origin(position, kind, target, origin));
    }
}

#[test]
fn finds_origins_of_the_first_position(rt: HostRuntime) {
    let first = Position::initial();
    assert_origins(&rt, &first, Kind::Knight, b"f3", &[b"g1"]);
    assert_origins(&rt, &first, Kind::Pawn, b"e4", &[b"c2", b"e2", b"g2"]);
    assert_origins(&rt, &first, Kind::Rook, b"e4", &[]);
}

#[test]
fn finds_three_queens(rt: HostRuntime) -> Result<(), Fail> {
    let position = Position::build(&parts(b"1k6/8/8/8/4Q2Q/8/8/K6Q"))?;
    assert_origins(&rt, &position, Kind::Queen, b"e1", &[b"e4", b"h4", b"h1"]);
    Ok(())
}

#[test]
fn finds_the_origin_of_en_passant(rt: HostRuntime) -> Result<(), Fail> {
    let before = black(b"4k3/8/8/8/3pP3/8/8/4K3");
    let position = Position::build(&with! { before; target: square(b"e3") })?;
    assert_origins(&rt, &position, Kind::Pawn, b"e3", &[b"d4"]);
    Ok(())
}

#[test]
fn tells_a_lone_piece(rt: HostRuntime) -> Result<(), Fail> {
    let first = Position::initial();
    let f3 = square(b"f3").ok_or("f3")?;
    assert!(rt; !may_have_two_origins(&first, Kind::Knight, f3));
    assert!(rt; !may_have_two_origins(&first, Kind::Queen, f3));
    assert!(rt; may_have_two_origins(&first, Kind::Pawn, f3));
    Ok(())
}

// How many ways there are to play that many plies, tried from `origins` alone.
fn count_plies(position: &Position, plies: u8) -> u32 {
    if plies == 0 {
        return 1;
    }
    let mut ways = 0u32;
    for index in 0..64usize {
        let to = nth(index);
        for kind in KINDS {
            for from in origins(position, kind, to).as_slice() {
                for promotion in PROMOTIONS {
                    let mv = Move {
                        from: *from,
                        to,
                        promotion,
                    };
                    if let Some(next) = try_pair(position, mv, &mut Probes::new()) {
                        ways = ways.wrapping_add(count_plies(&next, plies - 1));
                    }
                }
            }
        }
    }
    ways
}

#[test]
fn counts_three_plies_of_the_first_position(rt: HostRuntime) {
    let first = Position::initial();
    assert_eq!(rt; count_plies(&first, 1), 20);
    assert_eq!(rt; count_plies(&first, 2), 400);
    assert_eq!(rt; count_plies(&first, 3), 8902);
}

#[test]
fn counts_three_plies_with_castling_and_pins(rt: HostRuntime) -> Result<(), Fail> {
    let text = b"r3k2r/p1ppqpb1/bn2pnp1/3PN3/1p2P3/2N2Q1p/PPPBBPPP/R3K2R";
    let position = Position::build(&with! { parts(text); rights: EVERY_RIGHT })?;
    assert_eq!(rt; count_plies(&position, 1), 48);
    assert_eq!(rt; count_plies(&position, 2), 2039);
    assert_eq!(rt; count_plies(&position, 3), 97_862);
    Ok(())
}

fn other(colour: Colour) -> Colour {
    match colour {
        Colour::White => Colour::Black,
        Colour::Black => Colour::White,
    }
}

fn of_other(piece: Piece) -> Piece {
    Piece {
        colour: other(piece.colour),
        kind: piece.kind,
    }
}

// The same with the colours swapped, seen from the other side of the board.
fn swapped(old: &Parts) -> Parts {
    let mut board = [None; 64];
    for index in 0..64usize {
        board[8 * (7 - index / 8) + index % 8] = old.board[index].map(of_other);
    }
    let target = old
        .target
        .and_then(|target| Square::new(target.file(), 7 - target.rank()));
    Parts {
        board,
        side: other(old.side),
        rights: Rights {
            white_short: old.rights.black_short,
            white_long: old.rights.black_long,
            black_short: old.rights.white_short,
            black_long: old.rights.white_long,
        },
        target,
        half: old.half,
        full: old.full,
    }
}

// The same with the a file where the h file was; nobody may castle in it.
fn mirrored(old: &Parts) -> Parts {
    let mut board = [None; 64];
    for index in 0..64usize {
        board[8 * (index / 8) + 7 - index % 8] = old.board[index];
    }
    let target = old
        .target
        .and_then(|target| Square::new(7 - target.file(), target.rank()));
    Parts {
        board,
        target,
        ..*old
    }
}

// How many pairs there are of an origin and a target.
fn count_pairs(position: &Position) -> u32 {
    let mut pairs = 0u32;
    for index in 0..64usize {
        for kind in KINDS {
            let found = origins(position, kind, nth(index));
            pairs = pairs.wrapping_add(found.len() as u32);
        }
    }
    pairs
}

// The side to move is in check or not, and has a legal move or none; also with colours swapped, and
// mirrored.
fn assert_state(
    rt: &impl std::process::Abort,
    parts: &Parts,
    checked: bool,
    moves: bool,
) -> Result<(), Fail> {
    let other = swapped(parts);
    for parts in [*parts, other, mirrored(parts), mirrored(&other)] {
        let position = Position::build(&parts)?;
        let mut probes = Probes::new();
        assert_eq!(rt; in_check(&position), checked);
        assert_eq!(rt; has_legal_move(&position, &mut probes), moves);
        assert!(rt; 1 <= probes.count() && probes.count() <= count_pairs(&position));
        assert!(rt; moves || probes.count() == count_pairs(&position));
    }
    Ok(())
}

fn black(text: &[u8]) -> Parts {
    with! { parts(text); side: Colour::Black }
}

#[test]
fn tells_mates(rt: HostRuntime) -> Result<(), Fail> {
    let mates: [&[u8]; 4] = [
        b"rnb1kbnr/pppp1ppp/8/4p3/6Pq/5P2/PPPPP2P/RNBQKBNR",
        b"6rk/5Npp/8/8/8/8/8/K7",
        b"R6k/6pp/8/8/8/8/8/K7",
        b"4R2k/6np/8/8/8/8/1B6/K7",
    ];
    assert_state(&rt, &parts(mates[0]), true, false)?;
    for text in &mates[1..] {
        assert_state(&rt, &black(text), true, false)?;
    }
    Ok(())
}

#[test]
fn tells_stalemates(rt: HostRuntime) -> Result<(), Fail> {
    assert_state(&rt, &black(b"7k/5K2/6Q1/8/8/8/8/8"), false, false)?;
    assert_state(&rt, &black(b"k7/P7/K7/8/8/8/8/8"), false, false)?;
    assert_state(&rt, &black(b"8/8/8/8/8/p7/k1K5/1R6"), false, false)?;
    assert_state(&rt, &parts(b"8/8/8/8/8/1k6/p7/K7"), false, false)
}

#[test]
fn tells_checks_with_an_answer(rt: HostRuntime) -> Result<(), Fail> {
    let passing = with! { black(b"3R1R2/4K3/8/4k3/3Pp3/8/8/8"); target: square(b"d3") };
    assert_state(&rt, &passing, true, true)?;
    let missed = with! { passing; target: None };
    assert_state(&rt, &missed, true, false)?;
    assert_state(&rt, &parts(b"4r2K/3P4/7k/8/8/8/8/8"), true, true)
}

#[test]
fn tells_states_after_moves(rt: HostRuntime) -> Result<(), Fail> {
    let position = Position::build(&parts(b"3R1R2/4K3/8/4k3/4p3/8/3P4/8"))?;
    let after = play(&rt, &position, b"d2d4").ok_or("d4")?;
    assert!(rt; in_check(&after));
    assert!(rt; has_legal_move(&after, &mut Probes::new()));
    let position = Position::build(&parts(b"7k/5K2/8/8/8/8/8/6Q1"))?;
    let after = play(&rt, &position, b"g1g6").ok_or("Qg6")?;
    assert!(rt; !in_check(&after));
    assert!(rt; !has_legal_move(&after, &mut Probes::new()));
    Ok(())
}

#[test]
fn counts_a_first_move(rt: HostRuntime) {
    let mut probes = Probes::new();
    assert!(rt; has_legal_move(&Position::initial(), &mut probes));
    assert!(rt; 1 <= probes.count() && probes.count() <= 1024);
}

// One move is legal, a move in check, and it is found after so many pairs.
fn assert_tries(rt: &impl std::process::Abort, text: &[u8], pairs: u32) -> Result<(), Fail> {
    let position = Position::build(&parts(text))?;
    let mut probes = Probes::new();
    assert!(rt; in_check(&position) && has_legal_move(&position, &mut probes));
    assert_eq!(rt; probes.count(), pairs);
    assert_eq!(rt; count_moves(&position), 1);
    Ok(())
}

// The pairs are counted by hand, in the order that `has_legal_move` states.
#[test]
fn tries_first_what_may_meet_a_check(rt: HostRuntime) -> Result<(), Fail> {
    // The king to a2, b1 and b2; to a2 no other; to a3 and a4 the king; to a5 the king, and the
    // rook, which stands between then.
    assert_tries(&rt, b"rr3k2/8/8/7R/8/8/8/K7", 7)?;
    // The king to a2, b1 and b2; to a2 no other; to a3 the king and the bishop, on its rank; to a4,
    // a5, a6 and a7 the king; to a8 the king, and the bishop, which takes the rook.
    assert_tries(&rt, b"rr3k2/8/8/8/8/5B2/8/K7", 11)
}
