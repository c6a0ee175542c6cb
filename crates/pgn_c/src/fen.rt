//! A position's canonical text and its key, as C gets them.
ghost use Rattle.std.specs.Prelude.{◌≡◌};
ghost use Rattle.chess_text.specs.Fen.{fen_text};
ghost use Rattle.chess_text.specs.Key.{position_key};
ghost use Rattle.pgn_c.specs.Positions.{Puts};

use crate::pgn_result::{FAULT, FULL, OK};
use chess_rules::{Position, Probes};
use chess_text::{write_fen, write_position_key};

/// The result for a FEN or a key, `struct pgn_text` in C.
#[repr(C)]
#[derive(Clone, Copy)]
pub struct PgnText {
    /// 0: the buffer has the text. 1: the FEN is no position. 2: the buffer is too short.
    pub status: u32,
    /// The field at fault, 1 to 7; 0 where there is none.
    pub field: u32,
    /// The length of the text, also where it does not fit; 0 with a fault.
    pub length: usize,
}

/// Puts the canonical text of the position into the front of the buffer, if it fits.
pub fn put_fen(position: &Position, buffer: &mut [u8]) -> PgnText
    ensures { Puts (fen_text position.now) buffer.old buffer.new result }
{
    let text = write_fen(position);
    put(text.as_slice(), buffer)
}

/// Puts the key of the position into the front of the buffer, if it fits.
pub fn put_key(position: &Position, buffer: &mut [u8]) -> PgnText
    ensures { Puts (position_key position.now) buffer.old buffer.new result }
{
    let key = write_position_key(position, &mut Probes::new());
    put(key.as_slice(), buffer)
}

// Puts the text into the front of the buffer, if it fits.
fn put(text: &[u8], buffer: &mut [u8]) -> PgnText
    ensures { Puts text.now buffer.old buffer.new result }
{
    let length = text.len();
    if buffer.len() < length {
        return PgnText {
            status: FULL,
            field: 0,
            length,
        };
    }
    buffer[..length].copy_from_slice(text);
    PgnText {
        status: OK,
        field: 0,
        length,
    }
}

/// The result for a FEN with this field at fault.
pub fn bad_text(field: u8) -> PgnText
    ensures { result ≡ record { status = 1; field = field; length = 0 } }
{
    PgnText {
        status: FAULT,
        field: field as u32,
        length: 0,
    }
}
