//! Games one at a time, from a source.
ghost use Rattle.pgn_game.specs.public.Conversion.{CountsResult};
ghost use Rattle.std.specs.Prelude.{◌≡◌, ◌-◌, ◌<◌, ◌≤◌, ℕ, List, [], Option, None, Ok};
ghost use Rattle.std.specs.Prelude.{true, false, IsTrue, length};
ghost use Rattle.std.specs.Option.{option_copied};
ghost use Rattle.pgn_layout.specs.Device.{Counts, device};
ghost use Rattle.pgn_game.specs.public.ConverterCalls.{KeepsFault, profile_of};
ghost use Rattle.pgn_game.specs.public.ConverterCalls.{finished_game_value, finished_game_plies, finished_game_position};
ghost use Rattle.pgn_game.specs.public.ConverterCalls.{NoWriteFails, writing_nothing};
ghost use Rattle.pgn_game.specs.public.GamesCalls.{HaveRead, ReadsNext, NextAgain, NextAtEnd};
ghost use Rattle.pgn_game.specs.public.GamesCalls.{StillReadNone, games_of, most_left};
ghost use Rattle.pgn_game.specs.steps.GamesSteps.{GoesToNextGame, MoreResult};
ghost use Rattle.pgn_game.specs.steps.ConverterSteps.{IsGoing};
ghost use Rattle.pgn_game.specs.steps.SourceFlow.{ReadsSource};
ghost use Rattle.pgn_game.specs.steps.GameState.{KeepsSilence, sink_of};

use crate::converter::{Converter, Fed};
use crate::mode::Mode;
use crate::read_buffer::ReadBuffer;
use crate::reason::Fault;
use crate::source::Source;
use chess_rules::Position;
use pgn_layout::Sink;
use std::marker::Model;

/// Converts the games of a source from import format to export format (PGN 3), one game a call.
///
/// A game has at most `T` tag pairs, and its variations are at most `L - 1` deep. `L` is at least
/// 1.
///
/// # Examples
///
/// ```
/// use pgn_game::{Games, Inlet, Mode, Nowhere};
///
/// let mut source = Inlet::new(b"1. e4 e5 * [White \"Ada\"] 1. d4 *".as_slice());
/// let mut games = Games::<64, 33>::new(Mode::Full);
/// assert!(games.next(&mut source, &mut Nowhere).unwrap());
/// assert_eq!(games.plies(), 2);
/// assert!(games.next(&mut source, &mut Nowhere).unwrap());
/// assert_eq!(games.tag(b"White"), Some(b"Ada".as_slice()));
/// assert!(!games.next(&mut source, &mut Nowhere).unwrap());
/// ```
#[derive(Drop)]
pub struct Games<const T: usize, const L: usize> {
    converter: Converter<T, L>,
    buffer: ReadBuffer,
}

impl<const T: usize, const L: usize> Model for Games<T, L> {
    ghost use Rattle.pgn_game.specs.public.GamesCalls.{Games as Seen, games_of};

    ghost Value = { Seen };

    ghost view = { λ g. games_of g.converter g.buffer };
}

impl<const T: usize, const L: usize> Games<T, L> {
    /// Returns games of which none is read yet.
    pub fn new(mode: Mode) -> Self
        // Cargo: assert!(L >= 1, "the number of levels L is at least 1")
        requires { 1 ≤ L }
        ensures begins { (left : Option (List ℕ))
            → HaveRead (profile_of T (L - 1) mode) left [] result [] }
        ensures not_finished { result.converter.is_finished ≡ false }
        ensures no_fault { result.converter.fault ≡ None }
        ensures writes { result.converter.reading.writing.is_silent ≡ false }
    {
        Games {
            converter: Converter::new(mode),
            buffer: ReadBuffer::new(),
        }
    }

    /// From now on no call of `next` touches its sink, as after `Converter::write_nothing`.
    ///
    /// Call this before the first game is read: after that nothing else is ensured of the games.
    pub fn write_nothing(&mut self)
        ensures only_switch { self.new
            ≡ games_of (writing_nothing self.old.converter) self.old.unused }
        ensures begins { StillReadNone self.old self.new }
    {
        self.converter.write_nothing();
    }

    /// Converts the next game of the source, and returns whether there was one.
    ///
    /// Each call has to get the same source. The game counts as just finished up to the next call.
    /// At the end of the source the result is `false`. Later calls return it again, and touch
    /// neither the source nor the sink.
    ///
    /// # Errors
    ///
    /// - The input's first fault. The output is complete up to the token before it.
    /// - `Reason::ReadFault` if a read failed, at the number of bytes read.
    /// - `Reason::WriteFault` if a write failed, at the first token with text missing.
    /// - `Reason::InputTooLong` if the input has a byte at place 2^62.
    ///
    /// After an error no game is just finished, and `games` keeps the number of those finished
    /// before. Each later call returns the same error, and touches neither the source nor the sink.
    pub fn next<R: Source, W: Sink>(&mut self, source: &mut R, out: &mut W) -> Result<bool, Fault>
        ensures reads { ReadsNext self.old self.new result
            (device R.left R.failures source.old source.new)
            (sink_of self.old.converter.reading W.taken W.failures out.old out.new) }
        ensures fewer { result ≡ Ok true → most_left self.new < most_left self.old }
        ensures fault { KeepsFault self.new.converter result }
        ensures probes { self.old.converter.reading.most_probes
            ≤ self.new.converter.reading.most_probes }
        ensures at_end { NextAtEnd self.old self.new result source.old source.new out.old out.new }
        ensures again { NextAgain self.old self.new result source.old source.new out.old out.new }
        ensures counted { self.old.converter.fault ≡ None
            → CountsResult result (device R.left R.failures source.old source.new)
            (sink_of self.old.converter.reading W.taken W.failures out.old out.new) }
        ensures silent { KeepsSilence self.old.converter.reading self.new.converter.reading
            out.old out.new }
        ensures no_write_fails { IsTrue self.old.converter.reading.writing.is_silent
            → self.old.converter.fault ≡ None → NoWriteFails result }
    {
        next_game(&mut self.converter, &mut self.buffer, source, out)
    }

    /// Returns the value of a tag of the game just finished, roster defaults included.
    ///
    /// The result is `None` if no game is just finished.
    pub fn tag(&self, name: &[u8]) -> Option<&[u8]>
        ensures { option_copied result ≡ finished_game_value self.now.converter name.now }
    {
        self.converter.tag(name)
    }

    /// Returns the number of plies of the game just finished, without its variations.
    ///
    /// It is 0 if no game is just finished.
    pub fn plies(&self) -> u64
        ensures { result ≡ finished_game_plies self.now.converter }
    {
        self.converter.plies()
    }

    /// Returns the position at the end of the game just finished.
    ///
    /// It is the one after all moves outside variations. The result is `None` if no game is just
    /// finished.
    pub fn position(&self) -> Option<&Position>
        ensures { option_copied result ≡ finished_game_position self.now.converter }
    {
        self.converter.position()
    }

    /// Returns the number of games finished so far.
    pub fn games(&self) -> u64
        ensures { result ≡ self.now.converter.games }
    {
        self.converter.games()
    }

    /// Returns the most pairs of an origin and a target that were tried for one move so far.
    ///
    /// They are counted as by `Converter::most_probes`, and are at most 1,040. After
    /// `write_nothing` only pairs tried to find moves count, at most 8 for each move.
    pub fn most_probes(&self) -> u32
        ensures value { result ≡ self.now.converter.reading.most_probes }
        ensures bound { result ≤ 1040 }
    {
        self.converter.most_probes()
    }
}

/// Converts the next game, as `Games::next` does.
///
/// The converter and the buffer are apart: a converter may fit in memory where both together as
/// `Games` do not.
pub(crate) fn next_game<const T: usize, const L: usize, R: Source, W: Sink>(
    converter: &mut Converter<T, L>,
    buffer: &mut ReadBuffer,
    source: &mut R,
    out: &mut W,
) -> Result<bool, Fault>
    ensures goes { GoesToNextGame (games_of converter.old buffer.old)
        (games_of converter.new buffer.new) result
        (device R.left R.failures source.old source.new)
        (sink_of converter.old.reading W.taken W.failures out.old out.new) }
    ensures at_end { NextAtEnd (games_of converter.old buffer.old)
        (games_of converter.new buffer.new) result source.old source.new out.old out.new }
    ensures again { NextAgain (games_of converter.old buffer.old)
        (games_of converter.new buffer.new) result source.old source.new out.old out.new }
    ensures silent { KeepsSilence converter.old.reading converter.new.reading out.old out.new }
{
    if let Some(fault) = converter.fault() {
        return Err(fault);
    }
    if converter.is_finished() {
        converter.forget_game();
        return Ok(false);
    }
    convert_game(converter, buffer, source, out)
}

// Converts the next game of a source whose end was not read yet.
fn convert_game<const T: usize, const L: usize, R: Source, W: Sink>(
    converter: &mut Converter<T, L>,
    buffer: &mut ReadBuffer,
    source: &mut R,
    out: &mut W,
) -> Result<bool, Fault>
    requires { IsGoing converter.old }
    ensures goes { GoesToNextGame (games_of converter.old buffer.old)
        (games_of converter.new buffer.new) result
        (device R.left R.failures source.old source.new)
        (sink_of converter.old.reading W.taken W.failures out.old out.new) }
    ensures silent { KeepsSilence converter.old.reading converter.new.reading out.old out.new }
{
    if read_source(converter, buffer, source, out)? {
        return Ok(true);
    }
    converter.finish_left(false, out)
}

/// Converts up to the end of the next game of a source, or to the end of the source. Returns
/// whether a game was finished.
pub(crate) fn read_source<const T: usize, const L: usize, R: Source, W: Sink>(
    converter: &mut Converter<T, L>,
    buffer: &mut ReadBuffer,
    source: &mut R,
    out: &mut W,
) -> Result<bool, Fault>
    requires { IsGoing converter.old }
    ensures reads { ReadsSource (games_of converter.old buffer.old)
        (games_of converter.new buffer.new) result
        (device R.left R.failures source.old source.new)
        (sink_of converter.old.reading W.taken W.failures out.old out.new) }
    ensures silent { KeepsSilence converter.old.reading converter.new.reading out.old out.new }
{
    loop {
        match converter.feed_piece(buffer.unused(), out)? {
            Fed::Game(used) => {
                buffer.skip(used);
                return Ok(true);
            }
            Fed::All => {}
        }
        if !read_more(converter, buffer, source)? {
            return Ok(false);
        }
    }
}

// Reads bytes into the buffer, whose bytes are used, and returns whether the source gave any.
fn read_more<const T: usize, const L: usize, R: Source>(
    converter: &mut Converter<T, L>,
    buffer: &mut ReadBuffer,
    source: &mut R,
) -> Result<bool, Fault>
    requires { converter.old.fault ≡ None }
    ensures more { MoreResult (R.left source.old) (R.left source.new) converter.old converter.new
        buffer.new result }
    ensures fits { length buffer.new ≤ 4096 }
    ensures counted { Counts result (R.failures source.old) (R.failures source.new) }
{
    match buffer.fill(source) {
        Ok(has_more) => Ok(has_more),
        Err(_) => Err(converter.keep_failed_read()),
    }
}
