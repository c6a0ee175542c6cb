//! Writes a line for each game.
ghost use Rattle.std.specs.Prelude.{◌≡◌, [], unwrap_or};
ghost use Rattle.pgn_layout.specs.Device.{Counts, Writes};
ghost use Rattle.pgn_tool.specs.ListLines.{CountsList, ListResult, field, line_just_finished, six_fields};
ghost use Rattle.pgn_game.specs.public.ConverterCalls.{finished_game_value};

use crate::stream::{LEVELS, TAGS};
use chess_text::write_fen;
use itoa::Buffer;
use pgn_game::{Fault, Games, Mode, Nowhere, Sink, Source, WriteFault};
use pgn_layout::write_all;

/// Why a list ends before the input does.
#[derive(Clone, Copy)]
pub enum Stopped {
    /// A fault was met.
    Refused(Fault),
    /// A line could not be written.
    Unwritten,
}

/// The fields of a line.
#[derive(Clone, Copy)]
struct Line<'a> {
    number: &'a [u8],
    white: &'a [u8],
    black: &'a [u8],
    result: &'a [u8],
    plies: &'a [u8],
    position: &'a [u8],
}

type Lister = Games<TAGS, LEVELS>;

/// Writes a line for each game that the source gives, up to its end.
///
/// A line has the number of the game from 1, White, Black, Result, the number of its plies outside
/// variations, and the position after these, with a tab between them. Nothing is flushed.
///
/// # Errors
///
/// - `Stopped::Refused` at the first fault. The lines of the games finished before it were written.
/// - `Stopped::Unwritten` if a line could not be written. A prefix of the lines was written.
pub fn list_games<R: Source, O: Sink>(source: &mut R, out: &mut O) -> Result<(), Stopped>
    ensures lists { ListResult (R.left source.old) (R.left source.new) result (O.taken out.old)
        (O.taken out.new) }
    ensures counted { CountsList result (R.failures source.old) (R.failures source.new)
        (O.failures out.old) (O.failures out.new) }
{
    let mut games = Lister::new(Mode::Full);
    games.write_nothing();
    loop {
        match games.next(source, &mut Nowhere) {
            Ok(true) => {}
            Ok(false) => return Ok(()),
            Err(fault) => return Err(Stopped::Refused(fault)),
        }
        if let Err(WriteFault) = list_game(&games, out) {
            return Err(Stopped::Unwritten);
        }
    }
}

// Writes the line of the game just finished, or nothing if there is none.
fn list_game<O: Sink>(games: &Lister, out: &mut O) -> Result<(), WriteFault>
    ensures written { Writes (O.taken out.old) (O.taken out.new) result
        (line_just_finished games.now.converter) }
    ensures failures { Counts result (O.failures out.old) (O.failures out.new) }
{
    let Some(position) = games.position() else {
        return Ok(());
    };
    let mut number = Buffer::new();
    let mut plies = Buffer::new();
    let fen = write_fen(position);
    let line = Line {
        number: number.format(games.games()).as_bytes(),
        white: value(games, b"White"),
        black: value(games, b"Black"),
        result: value(games, b"Result"),
        plies: plies.format(games.plies()).as_bytes(),
        position: fen.as_slice(),
    };
    write_line(&line, out)
}

// The value of a tag of the game just finished.
fn value<'a>(games: &'a Lister, name: &[u8]) -> &'a [u8]
    ensures { result.now ≡ unwrap_or (finished_game_value games.now.converter name.now) [] }
{
    games.tag(name).unwrap_or(b"")
}

// Writes the fields with a tab after each but the last, and LF.
fn write_line<O: Sink>(line: &Line<'_>, out: &mut O) -> Result<(), WriteFault>
    ensures written { Writes (O.taken out.old) (O.taken out.new) result
        (six_fields line.now.number.now line.now.white.now line.now.black.now
        line.now.result.now line.now.plies.now line.now.position.now) }
    ensures failures { Counts result (O.failures out.old) (O.failures out.new) }
{
    write_field(line.number, b'\t', out)?;
    write_field(line.white, b'\t', out)?;
    write_field(line.black, b'\t', out)?;
    write_field(line.result, b'\t', out)?;
    write_field(line.plies, b'\t', out)?;
    write_field(line.position, b'\n', out)
}

// Writes the text and the byte that ends it.
fn write_field<O: Sink>(text: &[u8], end: u8, out: &mut O) -> Result<(), WriteFault>
    ensures written { Writes (O.taken out.old) (O.taken out.new) result (field text.now end) }
    ensures failures { Counts result (O.failures out.old) (O.failures out.new) }
{
    write_all(out, text)?;
    write_all(out, &[end])
}
