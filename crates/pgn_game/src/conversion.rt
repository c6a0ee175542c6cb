//! Converts a whole input.
ghost use Rattle.std.specs.Prelude.{◌≡◌, ◌-◌, ◌≤◌, ◌^◌, [], length, None, OnOk, IfSome};
ghost use Rattle.pgn_layout.specs.Device.{device, nowhere};
ghost use Rattle.pgn_game.specs.public.ConverterCalls.{CountsFault, Stands, profile_of};
ghost use Rattle.pgn_game.specs.steps.ConverterSteps.{IsGoing};
ghost use Rattle.pgn_game.specs.games.Profile.{Profile};
ghost use Rattle.pgn_game.specs.public.Written.{bytes_seen};
ghost use Rattle.pgn_game.specs.steps.GameState.{sink_of, plies_of_finished_games};
ghost use Rattle.pgn_game.specs.public.Size.{Holds};
ghost use Rattle.pgn_game.specs.public.Conversion.{AfterConversion, AfterSlice, Concludes};
ghost use Rattle.pgn_game.specs.public.Conversion.{Checks, ChecksSlice, Converts, ConvertsSlice};
ghost use Rattle.pgn_game.specs.public.Conversion.{CountsResult};

use crate::converter::Converter;
use crate::games::next_game;
use crate::mode::Mode;
use crate::read_buffer::ReadBuffer;
use crate::reason::Fault;
use crate::source::Source;
use pgn_layout::{Nowhere, Sink};

/// Counts of the games that were converted.
#[derive(Clone, Copy, Debug, PartialEq, Eq)]
pub struct Totals {
    /// The number of games.
    pub games: u64,
    /// The number of their plies together, without variations.
    pub plies: u64,
    /// The most pairs of an origin and a target that were tried for one move, as
    /// `Converter::most_probes` counts them; at most 1,040. `check` and `check_slice` write
    /// nothing, so they count only pairs tried to find moves: at most 8.
    pub most_probes: u32,
}

/// Converts the games that the source gives from import format to export format (PGN 3).
///
/// A read that gives no byte is the end. Nothing is flushed. A game has at most `T` tag pairs, and
/// its variations are at most `L - 1` deep.
///
/// # Errors
///
/// - The input's first fault. The output is complete up to the token before it.
/// - `Reason::ReadFault` if a read failed, at the number of bytes read.
/// - `Reason::WriteFault` if a write failed, at the first token with text missing.
/// - `Reason::InputTooLong` if the input has a byte at place 2^62.
///
/// # Examples
///
/// ```
/// use pgn_game::{Inlet, Mode, Outlet, convert};
///
/// let mut reader = Inlet::new(b"e4 e5 Nf3 *".as_slice());
/// let mut writer = Outlet::new(Vec::new());
/// let totals = convert::<64, 33, _, _>(&mut reader, &mut writer, Mode::Full).unwrap();
/// assert_eq!((totals.games, totals.plies), (1, 3));
/// assert!(writer.into_inner().ends_with(b"\n1. e4 e5 2. Nf3 *\n\n"));
/// ```
pub fn convert<const T: usize, const L: usize, R: Source, W: Sink>(
    reader: &mut R,
    writer: &mut W,
    mode: Mode,
) -> Result<Totals, Fault>
    // Cargo: assert!(L >= 1, "the number of levels L is at least 1")
    requires levels { 1 ≤ L }
    requires memory { Holds T.row L.row }
    ensures converts { Converts (profile_of T (L - 1) mode)
        (device R.left R.failures reader.old reader.new) result
        (device W.taken W.failures writer.old writer.new) }
    ensures short { OnOk result (IfSome (R.left reader.old) (λ s. length s ≤ 2 ^ 62)) }
    ensures counted { CountsResult result (device R.left R.failures reader.old reader.new)
        (device W.taken W.failures writer.old writer.new) }
{
    let mut converter = Converter::<T, L>::new(mode);
    convert_all(&mut converter, reader, writer)
}

/// Reads the games that the source gives, as `convert` does, and writes nothing.
///
/// `Totals::most_probes` counts only pairs tried to find moves, at most 8 for each move.
///
/// # Errors
///
/// As `convert`, except that no write can fail.
///
/// # Examples
///
/// ```
/// use pgn_game::{Inlet, Mode, check};
///
/// let mut reader = Inlet::new(b"e4 e5 * d4 *".as_slice());
/// let totals = check::<64, 33, _>(&mut reader, Mode::Full).unwrap();
/// assert_eq!((totals.games, totals.plies), (2, 3));
/// ```
pub fn check<const T: usize, const L: usize, R: Source>(
    reader: &mut R,
    mode: Mode,
) -> Result<Totals, Fault>
    // Cargo: assert!(L >= 1, "the number of levels L is at least 1")
    requires levels { 1 ≤ L }
    requires memory { Holds T.row L.row }
    ensures checks { Checks (profile_of T (L - 1) mode)
        (device R.left R.failures reader.old reader.new) result }
    ensures short { OnOk result (IfSome (R.left reader.old) (λ s. length s ≤ 2 ^ 62)) }
    ensures counted { CountsResult result (device R.left R.failures reader.old reader.new)
        nowhere }
{
    let mut converter = Converter::<T, L>::new(mode);
    converter.write_nothing();
    convert_all(&mut converter, reader, &mut Nowhere)
}

// Converts all games that the source gives.
fn convert_all<const T: usize, const L: usize, R: Source, W: Sink>(
    converter: &mut Converter<T, L>,
    reader: &mut R,
    writer: &mut W,
) -> Result<Totals, Fault>
    requires { IsGoing converter.old }
    ensures converts { (p : Profile) → Stands p converter.old [] None []
        → AfterConversion converter.old.reading.writing.is_silent p
        (R.left reader.old) (R.left reader.new) result
        (bytes_seen converter.old.reading.writing.is_silent (W.taken writer.old))
        (bytes_seen converter.old.reading.writing.is_silent (W.taken writer.new)) }
    ensures counted { CountsResult result (device R.left R.failures reader.old reader.new)
        (sink_of converter.old.reading W.taken W.failures writer.old writer.new) }
{
    let mut buffer = ReadBuffer::new();
    while next_game(converter, &mut buffer, reader, writer)? {}
    Ok(totals_of(converter))
}

/// Converts the games of a slice, as `convert` does.
///
/// # Errors
///
/// As `convert`, except that no read can fail.
///
/// # Examples
///
/// ```
/// use pgn_game::{Mode, Nowhere, Reason, convert_slice};
///
/// let text = b"e4 e5 Ke3 *";
/// let fault = convert_slice::<64, 33, _>(text, &mut Nowhere, Mode::Full).err().unwrap();
/// assert_eq!((fault.at, fault.reason), (6, Reason::IllegalMove));
/// ```
pub fn convert_slice<const T: usize, const L: usize, W: Sink>(
    text: &[u8],
    writer: &mut W,
    mode: Mode,
) -> Result<Totals, Fault>
    // Cargo: assert!(L >= 1, "the number of levels L is at least 1")
    requires levels { 1 ≤ L }
    requires memory { Holds T.row L.row }
    ensures converts { ConvertsSlice (profile_of T (L - 1) mode) text.now result
        (device W.taken W.failures writer.old writer.new) }
    ensures short { OnOk result (length text.now ≤ 2 ^ 62) }
    ensures counted { CountsFault result (device W.taken W.failures writer.old writer.new) }
{
    let mut converter = Converter::<T, L>::new(mode);
    convert_text(&mut converter, text, writer)
}

/// Reads the games of a slice, as `check` does: it writes nothing.
///
/// `Totals::most_probes` counts only pairs tried to find moves, at most 8 for each move.
///
/// # Errors
///
/// As `check`, except that no read can fail.
///
/// # Examples
///
/// ```
/// use pgn_game::{Mode, Reason, check_slice};
///
/// let fault = check_slice::<64, 33>(b"e4 e5 Ke3 *", Mode::Full).err().unwrap();
/// assert_eq!((fault.at, fault.reason), (6, Reason::IllegalMove));
/// ```
pub fn check_slice<const T: usize, const L: usize>(text: &[u8], mode: Mode) -> Result<Totals, Fault>
    // Cargo: assert!(L >= 1, "the number of levels L is at least 1")
    requires levels { 1 ≤ L }
    requires memory { Holds T.row L.row }
    ensures checks { ChecksSlice (profile_of T (L - 1) mode) text.now result }
    ensures short { OnOk result (length text.now ≤ 2 ^ 62) }
{
    let mut converter = Converter::<T, L>::new(mode);
    converter.write_nothing();
    convert_text(&mut converter, text, &mut Nowhere)
}

// Converts all games of a text.
fn convert_text<const T: usize, const L: usize, W: Sink>(
    converter: &mut Converter<T, L>,
    text: &[u8],
    writer: &mut W,
) -> Result<Totals, Fault>
    requires { IsGoing converter.old }
    ensures converts { (p : Profile) → Stands p converter.old [] None []
        → AfterSlice converter.old.reading.writing.is_silent p text.now result
        (bytes_seen converter.old.reading.writing.is_silent (W.taken writer.old))
        (bytes_seen converter.old.reading.writing.is_silent (W.taken writer.new)) }
    ensures counted { CountsFault result
        (sink_of converter.old.reading W.taken W.failures writer.old writer.new) }
{
    converter.feed_all(text, writer)?;
    end(converter, writer)
}

// Ends the input, and counts what was converted.
fn end<const T: usize, const L: usize, W: Sink>(
    converter: &mut Converter<T, L>,
    out: &mut W,
) -> Result<Totals, Fault>
    requires { IsGoing converter.old }
    ensures ends { Concludes converter.old result
        (sink_of converter.old.reading W.taken W.failures out.old out.new) }
    ensures counted { CountsFault result
        (sink_of converter.old.reading W.taken W.failures out.old out.new) }
{
    converter.finish(out)?;
    Ok(totals_of(converter))
}

// The counts of a converter that has read all games.
fn totals_of<const T: usize, const L: usize>(converter: &Converter<T, L>) -> Totals
    requires no_fault { converter.now.fault ≡ None }
    ensures games { result.games ≡ converter.now.games }
    ensures plies { result.plies ≡ plies_of_finished_games converter.now.reading }
    ensures probes { result.most_probes ≡ converter.now.reading.most_probes }
    ensures bound { result.most_probes ≤ 1040 }
{
    Totals {
        games: converter.games(),
        plies: converter.plies_of_finished_games(),
        most_probes: converter.most_probes(),
    }
}
