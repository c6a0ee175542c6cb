//! The next game of a text, of which the tag section alone is written.
ghost use Rattle.std.specs.Prelude.{◌≡◌, ◌≢◌};
ghost use Rattle.pgn_game.specs.public.ConverterCalls.{finished_game_section};
ghost use Rattle.pgn_c.specs.NextGame.{ReadGameIn, WritesSection, section_full};

use crate::buffer_sink::{BufferBefore, BufferSink, Room};
use crate::game_result::{BAD_PLACE, PgnGame, fault_game, no_game};
use crate::next_game::{LAST_PLACE, converter_at, read_silently};
use crate::pgn_result::{FULL, NO_MODE, OK};
use crate::{LEVELS, TAGS};
use pgn_game::{Converter, Fault, Marker, Mode, Reason};
use std::marker::{Brand, PhantomData};

/// Reads the next game, and writes its tag section into the front of a buffer.
pub fn read_game(
    text: &[u8],
    from: usize,
    mode: Option<Mode>,
    missing_result: u32,
    buffer: &mut [u8],
) -> PgnGame
    ensures { ReadGameIn mode missing_result text.now from buffer.old buffer.new result }
{
    let Some(mode) = mode else {
        return no_game(NO_MODE);
    };
    if missing_result > 1 {
        return no_game(NO_MODE);
    }
    if from > text.len() || from as u64 > LAST_PLACE {
        return no_game(BAD_PLACE);
    }
    let mut converter = converter_at(text, from, mode, Marker::Unknown);
    let found = read_silently(&mut converter, text, from, missing_result == 1);
    put_tags(&converter, found, buffer)
}

// Writes the tag section of the game that the converter has just finished, if one was found.
fn put_tags(converter: &Converter<TAGS, LEVELS>, found: PgnGame, buffer: &mut [u8]) -> PgnGame
    ensures game { found.status ≡ 0
        → WritesSection (finished_game_section converter.now) found buffer.old buffer.new result }
    ensures no_game { found.status ≢ 0 → buffer.new ≡ buffer.old }
    ensures same { found.status ≢ 0 → result ≡ found }
{
    if found.status != OK {
        return found;
    }
    let (_, result) = fill_tags::<Brand>(converter, found, buffer);
    result
}

// Writes the tag section into the buffer, whose bytes `K` has.
fn fill_tags<'a, K: BufferBefore>(
    converter: &Converter<TAGS, LEVELS>,
    found: PgnGame,
    buffer: &'a mut [u8],
) -> (&'a mut [u8], PgnGame)
    requires name { buffer.ghost_name ≡ K.name }
    requires bytes { buffer.old ≡ K.bytes }
    ensures same { result.0.ghost_name ≡ buffer.entry.ghost_name }
    ensures writes { WritesSection (finished_game_section converter.now) found K.bytes
        result.0.now result.1 }
{
    let mut sink = BufferSink::<'a, K> {
        room: Room::new(buffer),
        of: PhantomData,
    };
    let put = converter.write_tags(&mut sink);
    let BufferSink { room, .. } = sink;
    let Room {
        buffer,
        written,
        ..
    } = room;
    match put {
        Ok(()) => (buffer, PgnGame { written, ..found }),
        Err(_) => (buffer, full_game(&found, written)),
    }
}

// The result if the buffer is full before the section of the game is written.
fn full_game(found: &PgnGame, written: usize) -> PgnGame
    ensures { result ≡ section_full found.now written }
{
    let fault = Fault {
        at: found.marker_at as u64,
        reason: Reason::WriteFault,
    };
    PgnGame {
        written,
        ..fault_game(fault, FULL, None)
    }
}
