//! The move that a text names in a position, as C gets it.
ghost use Rattle.std.specs.Prelude.{◌≡◌, ◌+◌, ◌<◌, ◌^◌, Some, Ok};
ghost use Rattle.chess_rules.specs.Legal.{legal};
ghost use Rattle.pgn_game.specs.public.Notations.{named_in};
ghost use Rattle.pgn_c.specs.Positions.{failed_move, move_result, notation_of};

use crate::pgn_result::{FAULT, NO_MODE, OK, padded};
use chess_rules::{Position, Probes};
use chess_text::{Played, write_fen, write_san, write_uci};
use pgn_game::{Notation, read_move};

/// A move and the position after it, `struct pgn_move` in C.
#[repr(C)]
#[derive(Clone, Copy)]
pub struct PgnMove {
    /// 0: there is one such move. 1: there is a fault. 3: there is no such notation.
    pub status: u32,
    /// The number of the fault; 0 where there is none.
    pub fault: u32,
    /// The field of the FEN that is at fault, 1 to 7; 0 where none is.
    pub field: u32,
    /// The move's SAN, and zeros after it.
    pub san: [u8; 8],
    /// The move in UCI, and zeros after it.
    pub uci: [u8; 8],
    /// The FEN of the position after the move, and zeros after it.
    pub fen: [u8; 96],
}

/// The result for the move that the text names in this position.
pub fn name_move(position: &Position, text: &[u8], notation: Notation) -> PgnMove
    ensures { result ≡ move_result position.now (named_in notation position.now text.now) }
{
    let mut probes = Probes::new();
    match read_move(position, text, notation, &mut probes) {
        Ok(played) => written_move(position, &played, &mut probes),
        Err(reason) => no_move(FAULT, reason.number() as u32, 0),
    }
}

// The result for a legal move. This counts the pairs that its SAN tries.
fn written_move(position: &Position, played: &Played, probes: &mut Probes) -> PgnMove
    requires legal { legal position.now played.now.mv ≡ Some played.now.next }
    requires room { probes.old + 1032 < 2 ^ 32 }
    ensures { result ≡ move_result position.now (Ok played.now) }
{
    let san = write_san(position, played, probes);
    PgnMove {
        status: OK,
        fault: 0,
        field: 0,
        san: padded(san.as_slice()),
        uci: padded(write_uci(&played.mv).as_slice()),
        fen: padded(write_fen(&played.next).as_slice()),
    }
}

/// The result for a FEN with this field at fault.
pub fn no_position(field: u8) -> PgnMove
    ensures { result ≡ failed_move 1 26 field }
{
    no_move(FAULT, 26, field as u32)
}

/// The result if there is no such notation.
pub fn no_notation() -> PgnMove
    ensures { result ≡ failed_move 3 0 0 }
{
    no_move(NO_MODE, 0, 0)
}

/// The notation with this number in C, if there is one.
pub fn notation_with_number(number: u32) -> Option<Notation>
    ensures { result ≡ notation_of number }
{
    match number {
        0 => Some(Notation::San),
        1 => Some(Notation::Uci),
        _ => None,
    }
}

// The result without a move.
fn no_move(status: u32, fault: u32, field: u32) -> PgnMove
    ensures { result ≡ failed_move status fault field }
{
    PgnMove {
        status,
        fault,
        field,
        san: [0; 8],
        uci: [0; 8],
        fen: [0; 96],
    }
}
