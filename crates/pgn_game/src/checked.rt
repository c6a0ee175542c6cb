//! Converts an input that is read twice, so that a missing Result takes the marker.
ghost use Rattle.pgn_game.specs.public.Conversion.{CountsResult};
ghost use Rattle.std.specs.Prelude.{◌≡◌, ◌-◌, ◌≤◌, true, false, max, [], ℕ, List};
ghost use Rattle.std.specs.Prelude.{Option, OnOk};
ghost use Rattle.pgn_layout.specs.Device.{device};
ghost use Rattle.pgn_game.specs.declared.reason.Reason.TheVariants.{Changed};
ghost use Rattle.pgn_game.specs.public.Checked.{checked_profile};
ghost use Rattle.pgn_game.specs.public.CheckedConversion.{TwoReadingsConvert, TwoReadingsCount};
ghost use Rattle.pgn_game.specs.steps.ConverterSteps.{IsGoing};
ghost use Rattle.pgn_game.specs.steps.Readings.{GoesOnAfterGame, HasGiven, ReadsGame, StillGivenNone};
ghost use Rattle.pgn_game.specs.steps.Readings.{ReadsToGameEnd, WritesGame, as_changed, no_sink, reading_of};
ghost use Rattle.pgn_game.specs.steps.GameState.{KeepsSilence, sink_of, plies_of_finished_games};
ghost use Rattle.pgn_game.specs.public.Size.{HoldsTwice};

use crate::conversion::Totals;
use crate::converter::Converter;
use crate::games::read_source;
use crate::marker::PlacedMarker;
use crate::mode::Mode;
use crate::read_buffer::ReadBuffer;
use crate::reason::{Fault, Reason};
use crate::source::Source;
use pgn_layout::{Nowhere, Sink};
use pgn_lexer::laws::tokens_rise;
use std::marker::Model;

/// Converts an input that is read twice: a missing Result takes the game's marker (PGN 8.1.1.7).
///
/// All else is as for `convert`.
/// Each game is read from `first` to its marker, then read again from `second` and written. So
/// nothing is written of a game that `first` rejects. Both sources are meant to give the same
/// bytes. Only each marker and its place are compared. When `first` has ended, `second` is not
/// asked again, and what it gave after the last game is not looked at.
///
/// `Totals::most_probes` is the greater number of the two readings. Nothing of `first` is written,
/// so only pairs tried to find moves count in it. If both sources give the same bytes, the number
/// is that of `second`.
///
/// # Errors
///
/// - The first fault of `first`. Every game before it is written, and nothing of its own game.
/// - `Reason::Changed` if the next game of `second` has a fault, if `second` ends in it, or if it
///   has another marker, or the same one at another place: at the first token that shows this, or
///   at a byte at place 2^62.
/// - `Reason::ReadFault` if a read failed, at the number of bytes read from that source.
/// - `Reason::WriteFault` if a write failed, at the first token with text missing.
/// - `Reason::InputTooLong` if `first` has a byte at place 2^62.
///
/// After `Changed` and after a failed read of `second`, the complete lines of the current game may
/// stand after the finished ones. A failed write can cut the text anywhere.
///
/// # Examples
///
/// ```
/// use pgn_game::{Inlet, Mode, Outlet, convert_checked};
///
/// let text = b"1. f3 e5 2. g4 Qh4# 0-1".as_slice();
/// let (mut first, mut second) = (Inlet::new(text), Inlet::new(text));
/// let mut out = Outlet::new(Vec::new());
/// convert_checked::<64, 33, _, _, _>(&mut first, &mut second, &mut out, Mode::Full).unwrap();
/// let written = String::from_utf8(out.into_inner()).unwrap();
/// assert!(written.contains("[Result \"0-1\"]\n"));
/// ```
pub fn convert_checked<const T: usize, const L: usize, Q: Source, R: Source, W: Sink>(
    first: &mut Q,
    second: &mut R,
    writer: &mut W,
    mode: Mode,
) -> Result<Totals, Fault>
    // Cargo: assert!(L >= 1, "the number of levels L is at least 1")
    requires levels { 1 ≤ L }
    requires memory { HoldsTwice T.row L.row }
    ensures converts { TwoReadingsConvert (checked_profile T (L - 1) mode)
        (device Q.left Q.failures first.old first.new)
        (device R.left R.failures second.old second.new)
        (device W.taken W.failures writer.old writer.new) result }
    ensures counted { TwoReadingsCount (device Q.left Q.failures first.old first.new)
        (device R.left R.failures second.old second.new)
        (device W.taken W.failures writer.old writer.new) result }
{
    let mut ahead = Reading::<T, L>::new(mode);
    ahead.write_nothing();
    let mut behind = Reading::<T, L>::new(mode);
    while let Some(marker) = ahead.read_game(first)? {
        behind.write_game(second, marker, writer)?;
    }
    Ok(behind.totals(ahead.most_probes()))
}

/// One of the two readings: its converter, the bytes that were read and not used yet, and whether
/// the source has ended.
#[derive(Drop)]
struct Reading<const T: usize, const L: usize> {
    converter: Converter<T, L>,
    buffer: ReadBuffer,
    has_ended: bool,
}

impl<const T: usize, const L: usize> Model for Reading<T, L> {
    ghost use Rattle.pgn_game.specs.steps.Readings.{Reading as Seen};

    ghost Value = { Seen };

    ghost view = { λ r. record {
      converter = r.converter;
      unused = r.buffer;
      has_ended = r.has_ended;
    } };
}

impl<const T: usize, const L: usize> Reading<T, L> {
    // Returns a reading that has read nothing.
    fn new(mode: Mode) -> Self
        requires { 1 ≤ L }
        ensures given { (left : Option (List ℕ))
            → HasGiven (checked_profile T (L - 1) mode) left left result [] }
        ensures going { IsGoing result.converter }
        ensures writes { result.converter.reading.writing.is_silent ≡ false }
    {
        let mut converter = Converter::new(mode);
        converter.let_missing_result_take_marker();
        Reading {
            converter,
            buffer: ReadBuffer::new(),
            has_ended: false,
        }
    }

    // From now on nothing is written.
    fn write_nothing(&mut self)
        requires going { IsGoing self.old.converter }
        ensures given { StillGivenNone self.old self.new }
        ensures going { IsGoing self.new.converter }
        ensures silent { self.new.converter.reading.writing.is_silent ≡ true }
    {
        self.converter.write_nothing();
    }

    // Returns the counts of what was written, where the other reading tried at most so many pairs
    // for one move.
    fn totals(&self, other_probes: u32) -> Totals
        requires going { IsGoing self.now.converter }
        requires bound { other_probes ≤ 1040 }
        ensures games { result.games ≡ self.now.converter.games }
        ensures plies { result.plies ≡ plies_of_finished_games self.now.converter.reading }
        ensures probes { result.most_probes
            ≡ max other_probes self.now.converter.reading.most_probes }
        ensures bound { result.most_probes ≤ 1040 }
    {
        Totals {
            games: self.converter.games(),
            plies: self.converter.plies_of_finished_games(),
            most_probes: other_probes.max(self.converter.most_probes()),
        }
    }

    // Returns the most pairs that it tried for one move.
    fn most_probes(&self) -> u32
        ensures value { result ≡ self.now.converter.reading.most_probes }
        ensures bound { result ≤ 1040 }
    {
        self.converter.most_probes()
    }

    // Reads to the end of the next game, and returns its placed marker. `None` is the end of the
    // input. Nothing is written.
    fn read_game<R: Source>(&mut self, source: &mut R) -> Result<Option<PlacedMarker>, Fault>
        requires going { IsGoing self.old.converter }
        ensures reads { self.old.converter.reading.writing.is_silent ≡ true
            → ReadsGame (R.left source.old) (R.left source.new) self.old self.new result }
        ensures going { GoesOnAfterGame self.old self.new result }
        ensures silent { self.new.converter.reading.writing.is_silent
            ≡ self.old.converter.reading.writing.is_silent }
        ensures counted { CountsResult result (device R.left R.failures source.old source.new)
            no_sink }
    {
        let finished = read_to_game_end(
            &mut self.converter,
            &mut self.buffer,
            &mut self.has_ended,
            source,
            &mut Nowhere,
        )?;
        if finished {
            return Ok(Some(self.converter.placed_marker()));
        }
        Ok(None)
    }

    // Reads the next game, and writes it. It has to end with this marker, at its place.
    //
    // A missing Result is written as that marker. A fault of the input's own is `Reason::Changed`.
    fn write_game<R: Source, W: Sink>(
        &mut self,
        source: &mut R,
        expected: PlacedMarker,
        out: &mut W,
    ) -> Result<(), Fault>
        requires going { IsGoing self.old.converter }
        ensures writes { self.old.converter.reading.writing.is_silent ≡ false
            → WritesGame (R.left source.old) (R.left source.new) self.old expected
            self.new result (W.taken out.old) (W.taken out.new) }
        ensures going { OnOk result (IsGoing self.new.converter) }
        ensures counted { CountsResult result (device R.left R.failures source.old source.new)
            (sink_of self.old.converter.reading W.taken W.failures out.old out.new) }
        ensures silent { KeepsSilence self.old.converter.reading self.new.converter.reading out.old
            out.new }
    {
        tokens_rise();
        self.converter.announce_marker(expected);
        let read = read_to_game_end(
            &mut self.converter,
            &mut self.buffer,
            &mut self.has_ended,
            source,
            out,
        );
        let finished = match read {
            Err(fault) => return Err(changed(fault)),
            Ok(finished) => finished,
        };
        if finished {
            return Ok(());
        }
        Err(differs(self.converter.place()))
    }
}

// Converts up to the end of the next game, and returns whether there was one. Without one the input
// has ended.
fn read_to_game_end<const T: usize, const L: usize, R: Source, W: Sink>(
    converter: &mut Converter<T, L>,
    buffer: &mut ReadBuffer,
    has_ended: &mut bool,
    source: &mut R,
    out: &mut W,
) -> Result<bool, Fault>
    requires { IsGoing converter.old }
    ensures reads { ReadsToGameEnd (reading_of converter.old buffer.old has_ended.old)
        (reading_of converter.new buffer.new has_ended.new) result
        (device R.left R.failures source.old source.new)
        (sink_of converter.old.reading W.taken W.failures out.old out.new) }
    ensures silent { KeepsSilence converter.old.reading converter.new.reading out.old out.new }
{
    if *has_ended {
        return converter.finish_left(true, out);
    }
    if read_source(converter, buffer, source, out)? {
        return Ok(true);
    }
    *has_ended = true;
    converter.finish_left(true, out)
}

// The fault of a token at which the readings differ.
fn differs(at: u64) -> Fault
    ensures { result ≡ record { at = at; reason = Changed } }
{
    Fault {
        at,
        reason: Reason::Changed,
    }
}

// The fault of the second reading: its own faults show that the input has changed.
fn changed(fault: Fault) -> Fault
    ensures { result ≡ as_changed fault }
{
    match fault.reason {
        Reason::ReadFault => fault,
        Reason::WriteFault => fault,
        _ => Fault {
            at: fault.at,
            reason: Reason::Changed,
        },
    }
}
