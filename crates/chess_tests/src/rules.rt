//! Outside values: well-known move counts, and worked positions of castling, en passant, promotion
//! and check.

/// The parts, with these values of some fields.
macro_rules! with {
    ($parts:expr; $($field:ident: $value:expr),+) => {
        Parts { $($field: $value,)+ ..$parts }
    };
}

mod candidates;
mod perft;

ghost use Rattle.std.specs.Prelude.{◌<◌};

use chess_rules::{
    Board, Colour, Kind, Move, Parts, Piece, Position, PositionFault, Probes, Promotion, Rights,
    Square, in_check, try_pair,
};
use std::test::Fail;

const EVERY_RIGHT: Rights = Rights {
    white_short: true,
    white_long: true,
    black_short: true,
    black_long: true,
};

const RIGHTS_OF_WHITE: Rights = Rights {
    black_short: false,
    black_long: false,
    ..EVERY_RIGHT
};

const RIGHTS_OF_BLACK: Rights = Rights {
    white_short: false,
    white_long: false,
    ..EVERY_RIGHT
};

const NO_RIGHT: Rights = Rights {
    white_short: false,
    white_long: false,
    black_short: false,
    black_long: false,
};

#[rattlefmt::skip]
pub(crate) const KINDS: [Kind; 6] =
    [Kind::King, Kind::Queen, Kind::Rook, Kind::Bishop, Kind::Knight, Kind::Pawn];

pub(crate) const PROMOTIONS: [Option<Promotion>; 5] = [
    None,
    Some(Promotion::Queen),
    Some(Promotion::Rook),
    Some(Promotion::Bishop),
    Some(Promotion::Knight),
];

// The square with this index, from 0 for a1, rank by rank, to 63 for h8.
fn nth(index: usize) -> Square {
    Square::new((index % 8) as u8, (index / 8 % 8) as u8).unwrap_or_default()
}

// The index of a square.
fn cell(square: Square) -> usize
    ensures { result < 64 }
{
    8 * square.rank() as usize + square.file() as usize
}

// The piece of a letter of PGN 16.1.3.1.
fn piece(letter: u8) -> Option<Piece> {
    let kind = match letter.to_ascii_uppercase() {
        b'K' => Kind::King,
        b'Q' => Kind::Queen,
        b'R' => Kind::Rook,
        b'B' => Kind::Bishop,
        b'N' => Kind::Knight,
        b'P' => Kind::Pawn,
        _ => return None,
    };
    let colour = if letter.is_ascii_uppercase() {
        Colour::White
    } else {
        Colour::Black
    };
    Some(Piece { colour, kind })
}

// Parts with the board of a text as in PGN 16.1.3.1, White to move, no rights and no target.
fn parts(text: &[u8]) -> Parts {
    let mut board = [None; 64];
    let mut file = 0u8;
    let mut rank = 7u8;
    for &byte in text {
        if byte == b'/' {
            file = 0;
            rank = rank.wrapping_sub(1);
        } else if byte.is_ascii_digit() {
            file = file.wrapping_add(byte.wrapping_sub(b'0'));
        } else {
            if let Some(square) = Square::new(file, rank) {
                board[cell(square)] = piece(byte);
            }
            file = file.wrapping_add(1);
        }
    }
    Parts {
        board,
        side: Colour::White,
        rights: NO_RIGHT,
        target: None,
        half: 0,
        full: 1,
    }
}

// The parts of a position, as its calls tell them.
fn told(position: &Position) -> Parts {
    let mut board = [None; 64];
    for rank in 0..8u8 {
        for file in 0..8u8 {
            if let Some(square) = Square::new(file, rank) {
                board[cell(square)] = position.at(square);
            }
        }
    }
    Parts {
        board,
        side: position.side(),
        rights: position.rights(),
        target: position.target(),
        half: position.half(),
        full: position.full(),
    }
}

// The square of a letter and a digit.
fn square(name: &[u8; 2]) -> Option<Square> {
    Square::new(name[0].wrapping_sub(b'a'), name[1].wrapping_sub(b'1'))
}

// The position after a move, if it is legal; the pair counts once.
fn promoting(
    rt: &impl std::process::Abort,
    position: &Position,
    pair: &[u8; 4],
    promotion: Option<Promotion>,
) -> Option<Position> {
    let from = square(&[pair[0], pair[1]])?;
    let to = square(&[pair[2], pair[3]])?;
    let mut probes = Probes::new();
    let mv = Move {
        from,
        to,
        promotion,
    };
    let next = try_pair(position, mv, &mut probes);
    assert_eq!(rt; probes.count(), 1);
    next
}

fn play(rt: &impl std::process::Abort, position: &Position, pair: &[u8; 4]) -> Option<Position> {
    promoting(rt, position, pair, None)
}

// How many of all moves are legal, and in the positions after them together.
fn legal_moves(position: &Position) -> (u32, u32) {
    let mut moves = 0u32;
    let mut replies = 0u32;
    for from in 0..64usize {
        for to in 0..64usize {
            for promotion in PROMOTIONS {
                let mv = Move {
                    from: nth(from),
                    to: nth(to),
                    promotion,
                };
                if let Some(next) = try_pair(position, mv, &mut Probes::new()) {
                    moves = moves.wrapping_add(1);
                    replies = replies.wrapping_add(count_moves(&next));
                }
            }
        }
    }
    (moves, replies)
}

fn count_moves(position: &Position) -> u32 {
    let mut moves = 0u32;
    for from in 0..64usize {
        for to in 0..64usize {
            for promotion in PROMOTIONS {
                let mv = Move {
                    from: nth(from),
                    to: nth(to),
                    promotion,
                };
                if try_pair(position, mv, &mut Probes::new()).is_some() {
                    moves = moves.wrapping_add(1);
                }
            }
        }
    }
    moves
}

#[test]
fn counts_first_moves(rt: HostRuntime) {
    assert_eq!(rt; legal_moves(&Position::initial()), (20, 400));
}

#[test]
fn counts_moves_with_castling_and_pins(rt: HostRuntime) -> Result<(), Fail> {
    let text = b"r3k2r/p1ppqpb1/bn2pnp1/3PN3/1p2P3/2N2Q1p/PPPBBPPP/R3K2R";
    let position = Position::build(&with! { parts(text); rights: EVERY_RIGHT })?;
    assert_eq!(rt; legal_moves(&position), (48, 2039));
    Ok(())
}

#[test]
fn counts_moves_with_promotions(rt: HostRuntime) -> Result<(), Fail> {
    let text = b"rnbq1k1r/pp1Pbppp/2p5/8/2B5/8/PPP1NnPP/RNBQK2R";
    let position = Position::build(&with! { parts(text); rights: RIGHTS_OF_WHITE })?;
    assert_eq!(rt; legal_moves(&position), (44, 1486));
    Ok(())
}

#[test]
fn makes_squares_of_the_board_alone(rt: HostRuntime) -> Result<(), Fail> {
    assert_eq!(rt; Square::new(8, 0), None);
    assert_eq!(rt; Square::new(0, 8), None);
    let square = Square::new(7, 3).ok_or("h4")?;
    assert_eq!(rt; (square.file(), square.rank()), (7, 3));
    Ok(())
}

#[test]
fn tells_the_first_position(rt: HostRuntime) {
    let text = b"rnbqkbnr/pppppppp/8/8/8/8/PPPPPPPP/RNBQKBNR";
    let first = with! { parts(text); rights: EVERY_RIGHT };
    assert_eq!(rt; told(&Position::initial()), first);
}

#[test]
fn numbers_the_squares_of_a_rank(rt: HostRuntime) {
    let position = Position::initial();
    assert_eq!(rt; position.rank_numbers(0), 0x0105_0206_0302_0501);
    assert_eq!(rt; position.rank_numbers(3), 0x1716_1514_1312_1110);
    assert_eq!(rt; position.rank_numbers(6), 0x0c0c_0c0c_0c0c_0c0c);
}

#[test]
fn builds_on_ranks(rt: HostRuntime) -> Result<(), Fail> {
    let mut board = Board::empty();
    board.push_rank(0xff52_3ccb);
    board.push_rank(0xffff_0000);
    for _ in 0..4 {
        board.push_rank(0);
    }
    board.push_rank(0x00ff_0000);
    board.push_rank(0x0052_3ccb);
    let position = Position::build_on(board, Colour::White, EVERY_RIGHT, None, 0, 1)?;
    assert_eq!(rt; told(&position), told(&Position::initial()));
    Ok(())
}

#[test]
fn builds_what_it_is_told(rt: HostRuntime) -> Result<(), Fail> {
    let bare = with! { parts(b"4k3/8/8/8/4P3/8/8/4K3"); side: Colour::Black, rights: EVERY_RIGHT };
    let parts = with! { bare; target: square(b"e3"), half: 99_999, full: 99_998 };
    assert_eq!(rt; told(&Position::build(&parts)?), parts);
    Ok(())
}

#[test]
fn refuses_parts_that_are_no_position(rt: HostRuntime) {
    let bare = parts(b"4k3/8/8/8/8/8/8/4K3");
    let cases = [
        (parts(b"8/8/8/8/8/8/8/8"), PositionFault::Kings),
        (parts(b"4k3/8/8/8/8/8/8/4K2P"), PositionFault::PawnOnEdge),
        (
            parts(b"4k3/8/8/8/4R3/8/8/4K3"),
            PositionFault::KingCapturable,
        ),
        (
            with! { bare; target: square(b"e3") },
            PositionFault::TargetRank,
        ),
        (with! { bare; half: 100_000 }, PositionFault::NumberRange),
        (with! { bare; full: 100_000 }, PositionFault::NumberRange),
    ];
    for (parts, fault) in cases {
        assert_eq!(rt; Position::build(&parts).err(), Some(fault));
    }
}

// Both sides may castle on both wings.
fn castling() -> Parts {
    with! { parts(b"r3k2r/8/8/8/8/8/8/R3K2R"); rights: EVERY_RIGHT }
}

#[test]
fn castles_on_both_wings(rt: HostRuntime) -> Result<(), Fail> {
    let position = Position::build(&castling())?;
    assert!(rt; play(&rt, &position, b"e1c1").is_some());
    let after = play(&rt, &position, b"e1g1").ok_or("O-O")?;
    let castled = parts(b"r3k2r/8/8/8/8/8/8/R4RK1");
    let want = with! { castled; side: Colour::Black, rights: RIGHTS_OF_BLACK, half: 1 };
    assert_eq!(rt; told(&after), want);
    let last = play(&rt, &after, b"e8c8").ok_or("O-O-O")?;
    let want = with! { parts(b"2kr3r/8/8/8/8/8/8/R4RK1"); half: 2, full: 2 };
    assert_eq!(rt; told(&last), want);
    Ok(())
}

#[test]
fn castles_by_its_own_right_alone(rt: HostRuntime) -> Result<(), Fail> {
    let rights = Rights {
        white_short: false,
        ..EVERY_RIGHT
    };
    let short = Position::build(&with! { castling(); rights: rights })?;
    assert!(rt; play(&rt, &short, b"e1g1").is_none());
    assert!(rt; play(&rt, &short, b"e1c1").is_some());
    let rights = Rights {
        black_long: false,
        ..EVERY_RIGHT
    };
    let long = Position::build(&with! { castling(); side: Colour::Black, rights: rights })?;
    assert!(rt; play(&rt, &long, b"e8c8").is_none());
    assert!(rt; play(&rt, &long, b"e8g8").is_some());
    Ok(())
}

#[test]
fn castles_only_where_king_and_rook_stand_safe(rt: HostRuntime) -> Result<(), Fail> {
    let cases: [(&[u8], bool, bool); 6] = [
        (b"4k3/8/8/8/8/5r2/8/R3K2R", false, true),
        (b"4k3/8/8/8/8/4r3/8/R3K2R", false, false),
        (b"4k3/8/8/8/8/6r1/8/R3K2R", false, true),
        (b"4k3/8/8/8/8/3r4/8/R3K2R", true, false),
        (b"4k3/8/8/8/8/2r5/8/R3K2R", true, false),
        (b"4k3/8/8/8/8/1r6/8/R3K2R", true, true),
    ];
    for (text, short, long) in cases {
        let position = Position::build(&with! { parts(text); rights: EVERY_RIGHT })?;
        assert_eq!(rt; play(&rt, &position, b"e1g1").is_some(), short);
        assert_eq!(rt; play(&rt, &position, b"e1c1").is_some(), long);
    }
    let gone: [(&[u8], &[u8; 4]); 4] = [
        (b"4k3/8/8/8/8/8/8/R3K3", b"e1g1"),
        (b"4k3/8/8/8/8/8/8/4K2R", b"e1c1"),
        (b"4k3/8/8/8/8/8/8/R2K3R", b"e1g1"),
        (b"4k3/8/8/8/8/8/8/RN2K3", b"e1c1"),
    ];
    for (text, pair) in gone {
        let position = Position::build(&with! { parts(text); rights: EVERY_RIGHT })?;
        assert!(rt; play(&rt, &position, pair).is_none());
    }
    Ok(())
}

#[test]
fn loses_rights_with_a_rook(rt: HostRuntime) -> Result<(), Fail> {
    let position = Position::build(&castling())?;
    let after = play(&rt, &position, b"h1h8").ok_or("Rxh8")?;
    let want = Rights {
        white_short: false,
        black_short: false,
        ..EVERY_RIGHT
    };
    assert_eq!(rt; after.rights(), want);
    Ok(())
}

#[test]
fn takes_en_passant(rt: HostRuntime) -> Result<(), Fail> {
    let before = parts(b"4k3/8/8/8/3pP3/8/8/4K3");
    let position = Position::build(&with! { before; side: Colour::Black, target: square(b"e3") })?;
    let after = play(&rt, &position, b"d4e3").ok_or("dxe3")?;
    let want = with! { parts(b"4k3/8/8/8/8/4p3/8/4K3"); full: 2 };
    assert_eq!(rt; told(&after), want);
    Ok(())
}

#[test]
fn refuses_en_passant_that_discovers_a_check(rt: HostRuntime) -> Result<(), Fail> {
    let before = parts(b"8/8/8/K2pP2r/8/8/8/7k");
    let position = Position::build(&with! { before; target: square(b"d6") })?;
    assert!(rt; play(&rt, &position, b"e5d6").is_none());
    Ok(())
}

#[test]
fn steps_two_squares_once(rt: HostRuntime) -> Result<(), Fail> {
    let first = Position::initial();
    let after = play(&rt, &first, b"e2e4").ok_or("e4")?;
    assert_eq!(rt; after.target(), square(b"e3"));
    let reply = play(&rt, &after, b"d7d5").ok_or("d5")?;
    assert_eq!(rt; reply.target(), square(b"d6"));
    assert_eq!(rt; reply.full(), 2);
    assert!(rt; play(&rt, &reply, b"e4e6").is_none());
    let single = play(&rt, &first, b"e2e3").ok_or("e3")?;
    assert_eq!(rt; single.target(), None);
    Ok(())
}

#[test]
fn promotes_pawns_of_both_sides(rt: HostRuntime) -> Result<(), Fail> {
    let white = Position::build(&parts(b"8/P6k/8/8/8/8/8/K7"))?;
    assert!(rt; play(&rt, &white, b"a7a8").is_none());
    let after = promoting(&rt, &white, b"a7a8", Some(Promotion::Queen)).ok_or("a8=Q")?;
    let want = with! { parts(b"Q7/7k/8/8/8/8/8/K7"); side: Colour::Black };
    assert_eq!(rt; told(&after), want);
    let black = Position::build(&with! { parts(b"7k/8/8/8/8/8/p7/1N5K"); side: Colour::Black })?;
    let after = promoting(&rt, &black, b"a2b1", Some(Promotion::Knight)).ok_or("axb1=N")?;
    let want = with! { parts(b"7k/8/8/8/8/8/8/1n5K"); full: 2 };
    assert_eq!(rt; told(&after), want);
    Ok(())
}

#[test]
fn stops_both_numbers(rt: HostRuntime) -> Result<(), Fail> {
    let bare = with! { parts(b"4k3/8/8/8/8/8/8/4K3"); side: Colour::Black };
    let position = Position::build(&with! { bare; half: 99_999, full: 99_999 })?;
    let after = play(&rt, &position, b"e8d8").ok_or("Kd8")?;
    assert_eq!(rt; (after.half(), after.full()), (99_999, 99_999));
    Ok(())
}

#[test]
fn tells_check(rt: HostRuntime) -> Result<(), Fail> {
    let position = Position::build(&parts(b"3R1R2/4K3/8/4k3/4p3/8/3P4/8"))?;
    assert!(rt; !in_check(&position));
    let after = play(&rt, &position, b"d2d4").ok_or("d4")?;
    assert!(rt; in_check(&after));
    let position = Position::build(&parts(b"7k/5K2/8/8/8/8/8/6Q1"))?;
    let after = play(&rt, &position, b"g1g6").ok_or("Qg6")?;
    assert!(rt; !in_check(&after));
    Ok(())
}
