//! The moves of `LegalMoves`: how many there are in positions whose counts are well known, and how
//! many are tried.

use crate::rules::{EVERY_RIGHT, NO_RIGHT, PROMOTIONS, RIGHTS_OF_BLACK, RIGHTS_OF_WHITE, parts};
use chess_rules::{Colour, LegalMoves, Parts, Position, Probes, Promotion, Rights};
use std::test::Fail;

// How many ways there are to play that many plies.
fn perft(position: &Position, plies: u8) -> u32 {
    if plies == 0 {
        return 1;
    }
    let mut ways = 0u32;
    let mut moves = LegalMoves::new(position);
    while let Some(played) = moves.next(&mut Probes::new()) {
        ways = ways.wrapping_add(perft(&played.next, plies - 1));
    }
    ways
}

// There are so many ways to play one ply, two plies and so on.
fn assert_perft(rt: &impl std::process::Abort, parts: &Parts, counts: &[u32]) -> Result<(), Fail> {
    let position = Position::build(parts)?;
    let mut plies = 0u8;
    for count in counts {
        plies = plies.wrapping_add(1);
        assert_eq!(rt; perft(&position, plies), *count);
    }
    Ok(())
}

fn with_rights(text: &[u8], rights: Rights) -> Parts {
    with! { parts(text); rights: rights }
}

#[test]
fn lists_moves_of_the_first_position(rt: HostRuntime) -> Result<(), Fail> {
    let first = with_rights(b"rnbqkbnr/pppppppp/8/8/8/8/PPPPPPPP/RNBQKBNR", EVERY_RIGHT);
    assert_perft(&rt, &first, &[20, 400, 8902])
}

#[test]
fn lists_moves_with_castling_and_pins(rt: HostRuntime) -> Result<(), Fail> {
    let text = b"r3k2r/p1ppqpb1/bn2pnp1/3PN3/1p2P3/2N2Q1p/PPPBBPPP/R3K2R";
    assert_perft(&rt, &with_rights(text, EVERY_RIGHT), &[48, 2039])
}

#[test]
fn lists_moves_of_rooks_and_pawns(rt: HostRuntime) -> Result<(), Fail> {
    let text = b"8/2p5/3p4/KP5r/1R3p1k/8/4P1P1/8";
    assert_perft(&rt, &with_rights(text, NO_RIGHT), &[14, 191, 2812])
}

#[test]
fn lists_moves_in_check(rt: HostRuntime) -> Result<(), Fail> {
    let text = b"r3k2r/Pppp1ppp/1b3nbN/nP6/BBP1P3/q4N2/Pp1P2PP/R2Q1RK1";
    assert_perft(&rt, &with_rights(text, RIGHTS_OF_BLACK), &[6, 264, 9467])?;
    // the same with the colours swapped
    let text = b"r2q1rk1/pP1p2pp/Q4n2/bbp1p3/Np6/1B3NBn/pPPP1PPP/R3K2R";
    let swapped = with! { with_rights(text, RIGHTS_OF_WHITE); side: Colour::Black };
    assert_perft(&rt, &swapped, &[6, 264])
}

#[test]
fn lists_moves_with_promotions(rt: HostRuntime) -> Result<(), Fail> {
    let text = b"rnbq1k1r/pp1Pbppp/2p5/8/2B5/8/PPP1NnPP/RNBQK2R";
    assert_perft(&rt, &with_rights(text, RIGHTS_OF_WHITE), &[44, 1486])
}

#[test]
fn lists_moves_of_a_middlegame(rt: HostRuntime) -> Result<(), Fail> {
    let text = b"r4rk1/1pp1qppp/p1np1n2/2b1p1B1/2B1P1b1/P1NP1N2/1PP1QPPP/R4RK1";
    assert_perft(&rt, &with_rights(text, NO_RIGHT), &[46, 2079])
}

#[test]
fn lists_no_move_of_a_mate(rt: HostRuntime) -> Result<(), Fail> {
    let position = Position::build(&parts(b"rnb1kbnr/pppp1ppp/8/4p3/6Pq/5P2/PPPPP2P/RNBQKBNR"))?;
    let mut moves = LegalMoves::new(&position);
    assert!(rt; moves.next(&mut Probes::new()).is_none());
    assert!(rt; moves.next(&mut Probes::new()).is_none());
    Ok(())
}

// How many of the legal moves have this promotion.
fn count_promotions(position: &Position, promotion: Option<Promotion>) -> u32 {
    let mut found = 0u32;
    let mut moves = LegalMoves::new(position);
    while let Some(played) = moves.next(&mut Probes::new()) {
        if played.mv.promotion == promotion {
            found = found.wrapping_add(1);
        }
    }
    found
}

#[test]
fn lists_each_promotion(rt: HostRuntime) -> Result<(), Fail> {
    let position = Position::build(&parts(b"k7/7P/8/8/8/8/8/K7"))?;
    for promotion in PROMOTIONS {
        let wanted = if promotion.is_none() { 3 } else { 1 };
        assert_eq!(rt;
            count_promotions(&position, promotion),
            wanted,
            "{promotion:?}"
        );
    }
    Ok(())
}

// The tries are counted by hand. The king on a1 is tried on the 21 squares that it sees, and so is
// the pawn on h7. Two of its squares are on the last rank, where each promotion is tried.
#[test]
fn tries_each_promotion(rt: HostRuntime) -> Result<(), Fail> {
    let position = Position::build(&parts(b"k7/7P/8/8/8/8/8/K7"))?;
    let mut tries = 0u32;
    let mut found = 0u32;
    let mut moves = LegalMoves::new(&position);
    for _ in 0..8 {
        let mut probes = Probes::new();
        let next = moves.next(&mut probes);
        found = found.wrapping_add(u32::from(next.is_some()));
        tries = tries.wrapping_add(probes.count());
    }
    assert_eq!(rt; (found, tries), (7, 21 + 19 + 2 * 4));
    Ok(())
}
