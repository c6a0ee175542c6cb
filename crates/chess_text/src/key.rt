//! Keys of positions: two positions have the same key exactly if they are the same. (FIDE Laws
//! 9.2.3)

ghost use Rattle.std.specs.Prelude.{◌≡◌, ◌&&◌, ◌+◌, ◌<◌, ◌≤◌, ◌^◌, length, nat_lt, true};
ghost use Rattle.chess_rules.specs.Board.{at, has_piece as has_piece_in, is_empty};
ghost use Rattle.chess_rules.specs.Square.{gap, square};
ghost use Rattle.chess_text.specs.Key as spec;
ghost use Rattle.chess_text.specs.Beside as beside;

use crate::fen::push_field;
use crate::field::{push_target, rights_text, side_letter};
use crate::placement::push_board;
use arrayvec::ArrayVec;
use chess_rules::{Colour, Kind, Move, Piece, Position, Probes, Rights, Square, try_pair};

/// Writes the key of a position: two positions have the same key exactly if they are the same.
/// (FIDE Laws 9.2.3)
///
/// So a key tells whether a position is repeated, or was reached by another order of moves. The law
/// [`keys_tell_positions_apart`](crate::laws::keys_tell_positions_apart) says so.
///
/// The key has the first four fields of a FEN, but for two differences. It names a castling right
/// only while the king and that rook are on their home squares, and an en passant target only if a
/// legal move takes a pawn there. It has at most 81 bytes.
///
/// This adds 1 to the count of `probes` for each pawn that may take on the target, at most 2. The
/// count must have room for 2.
///
/// # Examples
///
/// ```
/// use chess_rules::Probes;
/// use chess_text::{read_fen, write_position_key};
///
/// let mut probes = Probes::new();
/// // After 1.d4 no black pawn can take on d3.
/// let fen = b"rnbqkbnr/pppppppp/8/8/3P4/8/PPP1PPPP/RNBQKBNR b KQkq d3 0 1";
/// let key = write_position_key(&read_fen(fen).unwrap(), &mut probes);
/// assert_eq!(key.as_slice(), b"rnbqkbnr/pppppppp/8/8/3P4/8/PPP1PPPP/RNBQKBNR b KQkq -");
/// assert_eq!(probes.count(), 0);
/// ```
pub fn write_position_key(position: &Position, probes: &mut Probes) -> ArrayVec<u8, 81>
    // Cargo: assert!(u32::MAX - probes.count() >= 2, "the count of Probes has room for 2 more")
    requires { probes.old + 2 < 2 ^ 32 }
    ensures key { result.items ≡ spec.position_key position.now }
    ensures short { length result.items ≤ 81 }
    ensures count { probes.new ≡ probes.old + spec.key_pairs position.now }
    ensures few { probes.new ≤ probes.old + 2 }
{
    let target = usable_target(position, probes);
    let mut text = ArrayVec::new();
    push_board(&mut text, position);
    text.push(b' ');
    text.push(side_letter(position.side()));
    push_field(&mut text, rights_text(usable_rights(position)).as_slice());
    text.push(b' ');
    push_target(&mut text, target);
    let mut key = ArrayVec::new();
    let _ = key.try_extend_from_slice(text.as_slice());
    key
}

// The castling rights that can still be used.
fn usable_rights(position: &Position) -> Rights
    ensures { result ≡ spec.usable_rights position.now }
{
    let rights = position.rights();
    Rights {
        white_short: rights.white_short && stand_at_home(position, Colour::White, 7),
        white_long: rights.white_long && stand_at_home(position, Colour::White, 0),
        black_short: rights.black_short && stand_at_home(position, Colour::Black, 7),
        black_long: rights.black_long && stand_at_home(position, Colour::Black, 0),
    }
}

// Whether the king of the colour and its rook of this file are on their home squares.
fn stand_at_home(position: &Position, colour: Colour, file: u8) -> bool
    requires { file < 8 }
    ensures { result ≡ spec.stand_at_home position.now.board colour file }
{
    let rank = match colour {
        Colour::White => 0,
        Colour::Black => 7,
    };
    has_piece(position, colour, Kind::King, 4, rank)
        && has_piece(position, colour, Kind::Rook, file, rank)
}

// Whether the piece is on the square of this file and this rank.
fn has_piece(position: &Position, colour: Colour, kind: Kind, file: u8, rank: u8) -> bool
    ensures { result ≡ (nat_lt file 8 && nat_lt rank 8
        && has_piece_in colour kind (at position.now.board (square file rank))) }
{
    match Square::new(file, rank) {
        Some(square) => position.at(square) == Some(Piece { colour, kind }),
        None => false,
    }
}

// The en passant target, if a legal move takes a pawn there.
fn usable_target(position: &Position, probes: &mut Probes) -> Option<Square>
    requires { probes.old + 2 < 2 ^ 32 }
    ensures target { result ≡ spec.usable_target position.now }
    ensures count { probes.new ≡ probes.old + spec.key_pairs position.now }
    ensures few { probes.new ≤ probes.old + 2 }
{
    let target = position.target()?;
    if position.at(target).is_some() {
        return None;
    }
    if is_taken_on(position, target, probes) {
        return Some(target);
    }
    None
}

// Whether a legal move takes a pawn en passant on the target, which is empty. Both pawns beside it
// are tried, so that the count does not depend on which one may take.
fn is_taken_on(position: &Position, target: Square, probes: &mut Probes) -> bool
    requires room { probes.old + 2 < 2 ^ 32 }
    requires empty { is_empty position.now.board target ≡ true }
    ensures taken { result ≡ spec.is_taken_on position.now target }
    ensures count { probes.new ≡ probes.old + length (spec.attackers position.now target) }
    ensures few { probes.new ≤ probes.old + 2 }
{
    let Some(rank) = rank_behind(position.side(), target.rank()) else {
        return false;
    };
    let west = takes_from_west(position, target, rank, probes);
    let east = takes_from(position, target, rank, target.file() + 1, probes);
    west || east
}

// The rank from which pawns go to this one.
fn rank_behind(side: Colour, rank: u8) -> Option<u8>
    requires { rank < 8 }
    ensures { result ≡ beside.rank_behind side rank }
{
    match side {
        Colour::White => rank.checked_sub(1),
        Colour::Black => Some(rank + 1),
    }
}

// What `takes_from` finds on the file to the west of the target, if there is one.
fn takes_from_west(position: &Position, target: Square, rank: u8, probes: &mut Probes) -> bool
    requires room { probes.old + 1 < 2 ^ 32 }
    requires empty { is_empty position.now.board target ≡ true }
    ensures takes { result
        ≡ beside.west_of (beside.takes_from position.now target rank) target.file }
    ensures count { probes.new ≡ probes.old
        + beside.one_if (beside.west_of (beside.stands_on position.now rank) target.file) }
{
    if target.file() == 0 {
        return false;
    }
    takes_from(position, target, rank, target.file() - 1, probes)
}

// Whether a pawn on this rank and this file beside the target, which is empty, takes it en passant
// by a legal move. If a pawn is there, it is tried.
fn takes_from(position: &Position, target: Square, rank: u8, file: u8, probes: &mut Probes) -> bool
    requires room { probes.old + 1 < 2 ^ 32 }
    requires empty { is_empty position.now.board target ≡ true }
    requires beside { gap file target.file ≡ 1 }
    ensures takes { result ≡ beside.takes_from position.now target rank file }
    ensures count { probes.new ≡ probes.old
        + beside.one_if (beside.stands_on position.now rank file) }
{
    if !has_piece(position, position.side(), Kind::Pawn, file, rank) {
        return false;
    }
    let Some(from) = Square::new(file, rank) else {
        return false;
    };
    let mv = Move {
        from,
        to: target,
        promotion: None,
    };
    try_pair(position, mv, probes).is_some()
}
