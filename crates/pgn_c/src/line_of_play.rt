//! A line of play, as C gets it.
ghost use Rattle.std.specs.Prelude.{◌≡◌, ◌+◌, ◌<◌, ◌≤◌, [], ◌∷◌, ◌++◌, None, Some, drop, length, take};
ghost use Rattle.pgn_game.specs.public.LineOfPlay.{Ply, line_ahead, line_of_text};
ghost use Rattle.pgn_c.specs.NextLine.{PushesNext};
ghost use Rattle.pgn_c.specs.LinesOfPlay as spec;
ghost use Rattle.pgn_c.specs.LinesOfPlay.{WritesLine, line_result};

use crate::pgn_result::{FAULT, FULL, NO_MODE, OK};
use arrayvec::ArrayVec;
use chess_rules::{Position, Probes};
use chess_text::{FenWriter, write_position_key, write_uci};
use pgn_game::{Fault, LineOfPlay, Notation, Reason};

/// What the line of a ply has.
#[derive(Clone, Copy)]
pub enum PlyFields {
    /// Its SAN, its UCI and the FEN of the position after it.
    All,
    /// The FEN alone.
    Fen,
    /// The key of that position alone.
    Key,
}

/// How a line of play is read, and what is written of it.
#[derive(Clone, Copy)]
pub struct Format {
    /// The notation of its moves.
    pub notation: Notation,
    /// What the line of a ply has.
    pub fields: PlyFields,
}

/// The format with this number in C, if there is one.
pub fn format_with_number(number: u32) -> Option<Format>
    ensures { result ≡ spec.format_of number }
{
    match number {
        0 => Some(Format {
            notation: Notation::San,
            fields: PlyFields::All,
        }),
        1 => Some(Format {
            notation: Notation::Uci,
            fields: PlyFields::All,
        }),
        2 => Some(Format {
            notation: Notation::San,
            fields: PlyFields::Fen,
        }),
        3 => Some(Format {
            notation: Notation::Uci,
            fields: PlyFields::Fen,
        }),
        4 => Some(Format {
            notation: Notation::San,
            fields: PlyFields::Key,
        }),
        5 => Some(Format {
            notation: Notation::Uci,
            fields: PlyFields::Key,
        }),
        _ => None,
    }
}

/// How a line of play was written, `struct pgn_plies` in C.
#[repr(C)]
#[derive(Clone, Copy)]
pub struct PgnPlies {
    /// 0: the whole line was written. 1: there is a fault. 2: the buffer is full. 3: there is no
    /// such format.
    pub status: u32,
    /// The number of the fault, 26, 33 to 36 or 51; 0 where there is none.
    pub fault: u32,
    /// The field of the FEN that is at fault, 1 to 7; 0 where none is.
    pub field: u32,
    /// The place of the word that names no move, or of the ply that there is no room for: the
    /// offset of a byte of the text, from 0.
    pub place: u64,
    /// How many bytes of the buffer were written.
    pub written: usize,
    /// The number of plies whose lines these are.
    pub plies: usize,
}

/// Writes the line of play of a text into the front of a buffer.
pub fn write_line(position: Position, text: &[u8], format: Format, buffer: &mut [u8]) -> PgnPlies
    ensures { WritesLine format.fields (line_of_text format.notation position text.now) buffer.old
        buffer.new result }
{
    let mut line = LineOfPlay::new(position, text, format.notation);
    write_plies(&mut line, format.fields, buffer)
}

// Writes the plies that are ahead into the front of a buffer.
fn write_plies(line: &mut LineOfPlay<'_>, fields: PlyFields, buffer: &mut [u8]) -> PgnPlies
    ensures { WritesLine fields (line_ahead line.old) buffer.old buffer.new result }
{
    let mut fens = FenWriter::new();
    let mut written = 0;
    let mut plies = 0;
    loop {
        let mut text = ArrayVec::new();
        match push_next(&mut text, line, fields, &mut fens) {
            Ok(None) => return whole_line(written, plies),
            Err(fault) => return refused_line(fault, written, plies),
            Ok(Some(at)) => {
                if buffer.len() - written < text.len() {
                    return full_line(at, written, plies);
                }
                put(text.as_slice(), buffer, written);
                written += text.len();
                plies += 1;
            }
        }
    }
}

// Copies the text into the buffer at this place.
fn put(text: &[u8], buffer: &mut [u8], at: usize)
    requires { at + length text.now ≤ length buffer.old }
    ensures { buffer.new
        ≡ take at buffer.old ++ text.now ++ drop (at + length text.now) buffer.old }
{
    buffer[at..at + text.len()].copy_from_slice(text);
}

// Adds the line of the next ply to an empty text, and returns the place of the ply.
fn push_next(
    text: &mut ArrayVec<u8, 108>,
    line: &mut LineOfPlay<'_>,
    fields: PlyFields,
    fens: &mut FenWriter,
) -> Result<Option<usize>, Fault>
    requires { text.old.items ≡ [] }
    ensures { PushesNext fields line.old result line.new text.new.items }
{
    match fields {
        PlyFields::All => match line.next() {
            Ok(None) => Ok(None),
            Err(fault) => Err(fault),
            Ok(Some(ply)) => {
                push_field(text, ply.san.as_slice(), b'\t');
                push_field(text, write_uci(&ply.played.mv).as_slice(), b'\t');
                push_field(text, fens.write(&ply.played.next).as_slice(), b'\n');
                Ok(Some(ply.at))
            }
        },
        PlyFields::Fen => match line.next_move() {
            Ok(None) => Ok(None),
            Err(fault) => Err(fault),
            Ok(Some(found)) => {
                push_field(text, fens.write(&found.played.next).as_slice(), b'\n');
                Ok(Some(found.at))
            }
        },
        PlyFields::Key => match line.next_move() {
            Ok(None) => Ok(None),
            Err(fault) => Err(fault),
            Ok(Some(found)) => {
                let key = write_position_key(&found.played.next, &mut Probes::new());
                push_field(text, key.as_slice(), b'\n');
                Ok(Some(found.at))
            }
        },
    }
}

// Adds a field, and the byte after it.
fn push_field(line: &mut ArrayVec<u8, 108>, field: &[u8], end: u8)
    requires { length line.old.items + length field.now + 1 ≤ 108 }
    ensures { line.new.items ≡ line.old.items ++ spec.field field.now end }
{
    let _ = line.try_extend_from_slice(field);
    line.push(end);
}

// The result for a line that was written as a whole.
fn whole_line(written: usize, plies: usize) -> PgnPlies
    ensures { result ≡ line_result [] None written plies }
{
    PgnPlies {
        status: OK,
        fault: 0,
        field: 0,
        place: 0,
        written,
        plies,
    }
}

// The result for a line that ends with a word that names no move.
fn refused_line(fault: Fault, written: usize, plies: usize) -> PgnPlies
    ensures { result ≡ line_result [] (Some fault) written plies }
{
    PgnPlies {
        status: FAULT,
        fault: fault.reason.number() as u32,
        field: 0,
        place: fault.at,
        written,
        plies,
    }
}

// The result for a line of which the ply at this place has no room.
fn full_line(at: usize, written: usize, plies: usize) -> PgnPlies
    ensures { (x : Ply) → x.at ≡ at → result ≡ line_result (x ∷ []) None written plies }
{
    PgnPlies {
        status: FULL,
        fault: Reason::WriteFault.number() as u32,
        field: 0,
        place: at as u64,
        written,
        plies,
    }
}

/// The result for a FEN with this field at fault.
pub fn no_first_position(field: u8) -> PgnPlies
    ensures { result ≡ spec.nothing 1 26 field }
{
    no_line(FAULT, 26, field as u32)
}

/// The result if there is no such format.
pub fn no_line_in_format() -> PgnPlies
    ensures { result ≡ spec.nothing 3 0 0 }
{
    no_line(NO_MODE, 0, 0)
}

// The result without a line.
fn no_line(status: u32, fault: u32, field: u32) -> PgnPlies
    ensures { result ≡ spec.nothing status fault field }
{
    PgnPlies {
        status,
        fault,
        field,
        place: 0,
        written: 0,
        plies: 0,
    }
}
