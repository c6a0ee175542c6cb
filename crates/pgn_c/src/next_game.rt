//! The next game of a text.
ghost use Rattle.std.specs.Prelude.{◌≡◌, ◌≢◌, ◌≤◌, ◌^◌, None, false, length, drop};
ghost use Rattle.pgn_layout.specs.Device.{FailsOnce, one_more};
ghost use Rattle.pgn_game.specs.steps.GameState.{sink_of};
ghost use Rattle.pgn_game.specs.declared.marker.Marker.TheVariants.{Unknown};
ghost use Rattle.pgn_c.specs.NextGame.{ChecksNext, ConvertsNext, NextGameIn, NextOf, ReadsNext};
ghost use Rattle.pgn_c.specs.NextGame.{profile_counting, profile_taking, text_from};
ghost use Rattle.pgn_c.specs.NextGameSteps.{BeginsAt, BeginsSilently, ReadsTo, RunsNext};
ghost use Rattle.pgn_c.specs.NextGameSteps.{profile_if, silenced_if};
ghost use Rattle.pgn_lexer.specs.TokensOf.{has_mark};
ghost use Rattle.pgn_c.specs.NextGame as spec;

use crate::buffer_sink::{BufferBefore, BufferSink, Room};
use crate::game_result::{
    BAD_PLACE, MORE, NO_GAME, PgnGame, finished_game, marker_of_number, no_game, refused_game,
};
use crate::pgn_result::{FAULT, NO_MODE, OK};
use crate::{LEVELS, TAGS};
use pgn_game::laws::{
    games_end_by_marker, missing_results, texts_end_behind_marker, texts_end_between_games,
};
use pgn_game::{Converter, Fed, Marker, Mode, Nowhere, Sink};
use std::marker::{Brand, PhantomData};

/// The last place from which a text can be read.
pub const LAST_PLACE: u64 = 1 << 62;

/// Converts the next game in this format into the front of a buffer.
#[inline(always)]
pub fn next_game(
    text: &[u8],
    from: usize,
    mode: Option<Mode>,
    missing_result: u32,
    buffer: &mut [u8],
) -> PgnGame
    ensures { NextGameIn mode missing_result text.now from buffer.old buffer.new result }
{
    let Some(mode) = mode else {
        return no_game(NO_MODE);
    };
    if missing_result > 1 {
        return no_game(NO_MODE);
    }
    if from > text.len() || from as u64 > LAST_PLACE {
        return no_game(BAD_PLACE);
    }
    if missing_result == 0 {
        return convert_next(text, from, mode, Marker::Unknown, buffer);
    }
    check_next(text, from, mode, buffer)
}

// Converts the next game, in which a missing Result takes the marker. Only a game without a fault
// is written.
#[inline(never)]
fn check_next(text: &[u8], from: usize, mode: Mode, buffer: &mut [u8]) -> PgnGame
    requires within { from ≤ length text.now }
    requires place { from ≤ 2 ^ 62 }
    ensures { ChecksNext mode text.now from buffer.old buffer.new result }
{
    missing_results();
    let found = read_by_marker(text, from, mode);
    if found.status == OK {
        let marker = marker_of_number(found.marker);
        return convert_next(text, from, mode, marker, buffer);
    }
    found
}

// Reads the next game, in which a missing Result takes the marker, and writes nothing. It is not
// inlined: so its converter is gone when the game is converted.
#[inline(never)]
fn read_by_marker(text: &[u8], from: usize, mode: Mode) -> PgnGame
    requires within { from ≤ length text.now }
    requires place { from ≤ 2 ^ 62 }
    ensures next { ReadsNext (profile_taking mode) text.now from result }
    ensures not_full { result.status ≢ 2 }
{
    let mut converter = converter_at(text, from, mode, Marker::Unknown);
    read_silently(&mut converter, text, from, true)
}

/// Reads the next game with a converter that begins at the place and counts a missing Result as
/// `*`, and writes nothing. From now on a missing Result takes the marker, or still counts as `*`.
#[inline(always)]
pub fn read_silently(
    converter: &mut Converter<TAGS, LEVELS>,
    text: &[u8],
    from: usize,
    takes_marker: bool,
) -> PgnGame
    requires within { from ≤ length text.now }
    requires place { from ≤ 2 ^ 62 }
    requires count { converter.old.lexer.count ≡ from }
    requires not_finished { converter.old.is_finished ≡ false }
    requires no_fault { converter.old.fault ≡ None }
    ensures reads { (mode : Mode)
        → BeginsAt (profile_counting mode Unknown) text.now from converter.old
        → ReadsTo (profile_if takes_marker mode) text.now from result converter.new }
    ensures not_full { result.status ≢ 2 }
{
    silence(converter, takes_marker);
    run_next(converter, text, from, &mut Nowhere)
}

// From now on the converter writes nothing. A missing Result takes the marker, or counts as before.
fn silence(converter: &mut Converter<TAGS, LEVELS>, takes_marker: bool)
    ensures only_switch { converter.new ≡ silenced_if takes_marker converter.old }
    ensures begins { (mode : Mode) → BeginsSilently takes_marker mode converter.old converter.new }
{
    if takes_marker {
        converter.take_marker_for_missing_result();
    } else {
        converter.write_nothing();
    }
}

// Converts the next game into the front of a buffer. A missing Result counts as this marker.
#[inline(always)]
fn convert_next(text: &[u8], from: usize, mode: Mode, missing: Marker, buffer: &mut [u8]) -> PgnGame
    requires within { from ≤ length text.now }
    requires place { from ≤ 2 ^ 62 }
    ensures { ConvertsNext (profile_counting mode missing) text.now from buffer.old buffer.new
        result }
{
    let (_, result) = fill_next::<Brand>(text, from, mode, missing, buffer);
    result
}

// Converts the next game into the buffer, whose bytes `K` has.
#[inline(always)]
fn fill_next<'a, K: BufferBefore>(
    text: &[u8],
    from: usize,
    mode: Mode,
    missing: Marker,
    buffer: &'a mut [u8],
) -> (&'a mut [u8], PgnGame)
    requires name { buffer.ghost_name ≡ K.name }
    requires bytes { buffer.old ≡ K.bytes }
    requires within { from ≤ length text.now }
    requires place { from ≤ 2 ^ 62 }
    ensures same { result.0.ghost_name ≡ buffer.entry.ghost_name }
    ensures converts { ConvertsNext (profile_counting mode missing) text.now from K.bytes
        result.0.now result.1 }
{
    let mut sink = BufferSink::<'a, K> {
        room: Room::new(buffer),
        of: PhantomData,
    };
    let found = read_next(text, from, mode, missing, &mut sink);
    let BufferSink { room, .. } = sink;
    let Room {
        buffer,
        written,
        ..
    } = room;
    (buffer, PgnGame { written, ..found })
}

// Converts the next game to a sink. The bytes written are not counted yet.
#[inline(always)]
fn read_next<W: Sink>(text: &[u8], from: usize, mode: Mode, missing: Marker, out: &mut W) -> PgnGame
    requires within { from ≤ length text.now }
    requires place { from ≤ 2 ^ 62 }
    ensures next { NextOf (profile_counting mode missing) (text_from text.now from)
        (drop from text.now) result (W.taken out.old) (W.taken out.new) }
    ensures full { result.status ≡ 2
        → W.failures out.new ≡ one_more (W.failures out.old) }
{
    let mut converter = converter_at(text, from, mode, missing);
    run_next(&mut converter, text, from, out)
}

/// Makes a converter that begins at the place. A missing Result counts as this marker.
#[inline(always)]
pub fn converter_at(
    text: &[u8],
    from: usize,
    mode: Mode,
    missing: Marker,
) -> Converter<TAGS, LEVELS>
    requires within { from ≤ length text.now }
    requires place { from ≤ 2 ^ 62 }
    ensures begins { BeginsAt (profile_counting mode missing) text.now from result }
    ensures count { result.lexer.count ≡ from }
    ensures not_finished { result.is_finished ≡ false }
    ensures writes { result.reading.writing.is_silent ≡ false }
{
    let place = is_first_column(text, from);
    let mut converter = Converter::<TAGS, LEVELS>::begin_at(mode, from as u64, place);
    converter.count_missing_result_as(missing);
    converter
}

// Finds the next game with a converter that begins at the place.
#[inline(always)]
fn run_next<W: Sink>(
    converter: &mut Converter<TAGS, LEVELS>,
    text: &[u8],
    from: usize,
    out: &mut W,
) -> PgnGame
    requires within { from ≤ length text.now }
    requires place { from ≤ 2 ^ 62 }
    requires count { converter.old.lexer.count ≡ from }
    requires not_finished { converter.old.is_finished ≡ false }
    requires no_fault { converter.old.fault ≡ None }
    ensures runs { RunsNext converter.old text.now from result converter.new
        (sink_of converter.old.reading W.taken W.failures out.old out.new) }
    ensures full { result.status ≡ 2
        → FailsOnce (sink_of converter.old.reading W.taken W.failures out.old out.new) }
{
    games_end_by_marker();
    texts_end_behind_marker();
    texts_end_between_games();
    match converter.feed(&text[from..], out) {
        Ok(Fed::Game(used)) => finished_game(&*converter, from + used),
        Ok(Fed::All) => match converter.finish(out) {
            Ok(true) => finished_game(&*converter, text.len()),
            Ok(false) => no_game(NO_GAME),
            Err(fault) => refused_game(&*converter, fault, MORE),
        },
        Err(fault) => refused_game(&*converter, fault, FAULT),
    }
}

/// Whether the place is in the first column.
pub fn is_first_column(text: &[u8], from: usize) -> bool
    requires { from ≤ length text.now }
    ensures { result ≡ spec.in_first_column text.now from }
{
    if from == 0 {
        return true;
    }
    match text[from - 1] {
        b'\r' | b'\n' => true,
        _ => from == 3 && begins_with_mark(text),
    }
}

// Whether the text begins with a byte order mark, EF BB BF.
fn begins_with_mark(text: &[u8]) -> bool
    ensures { result ≡ has_mark text.now }
{
    match text {
        [a, b, c, ..] => *a == 0xEF && *b == 0xBB && *c == 0xBF,
        _ => false,
    }
}
