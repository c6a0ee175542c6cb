//! Writes each game to a file of its own.
ghost use Rattle.std.specs.Prelude.{◌≡◌, ◌<◌, ◌≤◌, true, false, None, Ok, OnOk};
ghost use Rattle.pgn_layout.specs.Device.{device, one_more};
ghost use Rattle.pgn_game.specs.public.GamesCalls.{most_left};
ghost use Rattle.pgn_tool.specs.Files.{added, closing_steps};
ghost use Rattle.pgn_tool.specs.SplitGames.{SplitResult};
ghost use Rattle.pgn_tool.specs.SplitFiles.{CountsSplit, GameSplit, RunsSplit, SplitFiles, settled};

use crate::files::{CreateFault, GameFiles};
use crate::game_sink::{GameBefore, GameFile, GameSink, Turn};
use crate::replies::out_of_memory;
use crate::stream::{LEVELS, TAGS, refuse};
use pgn_game::{Fault, Games, Mode, Sink, Source};
use std::marker::{Brand, PhantomData};

/// Why a split ends before the input does.
#[derive(Clone, Copy, Debug, PartialEq, Eq)]
pub enum Unsplit {
    /// A fault was met.
    Refused(Fault),
    /// There was no memory for making a file.
    NoMemory,
}

type Splitter = Games<TAGS, LEVELS>;

/// Writes each game that the source gives to a file of its own, and returns the exit status.
///
/// Games are numbered from 1. The file of a game is made at its first byte and closed at its end.
/// Nothing is flushed.
///
/// - 0: there was no fault. `err` is not touched.
/// - 1: there was a fault, and `err` has its line. Unless a file could not be made or written, the
///   file of the current game has what `export` would have written of it.
/// - 3: there was no memory for making a file, and `err` says so.
///
/// A file that cannot be made counts as a write that failed. The function is not inlined: its
/// converter would be on the stack of the other tasks too.
#[inline(never)]
pub fn split_to<R: Source, F: GameFiles, E: Sink>(reader: &mut R, files: &mut F, err: &mut E) -> u8
    ensures status { result ≤ 3 }
    ensures untouched { result ≡ 0 → err.new ≡ err.old }
    ensures runs { RunsSplit (F.log files.old) (F.log files.new)
        (device R.left R.failures reader.old reader.new)
        (device E.taken E.failures err.old err.new) result }
{
    match split_source(reader, files) {
        Ok(()) => 0,
        Err(Unsplit::Refused(fault)) => refuse(fault, err),
        Err(Unsplit::NoMemory) => out_of_memory(err),
    }
}

// Splits what the source gives, up to its end.
fn split_source<R: Source, F: GameFiles>(source: &mut R, files: &mut F) -> Result<(), Unsplit>
    ensures files { SplitFiles (F.log files.old) (F.log files.new) result }
    ensures counted { CountsSplit result (R.failures source.old) (R.failures source.new) }
    ensures splits { SplitResult (R.left source.old) (R.left source.new) result
        (F.log files.old) (F.log files.new) }
{
    let mut games = Splitter::new(Mode::Full);
    while split_game(&mut games, source, files)? {}
    Ok(())
}

// Writes the next game to a file of its own, and returns whether there was one.
fn split_game<R: Source, F: GameFiles>(
    games: &mut Splitter,
    source: &mut R,
    files: &mut F,
) -> Result<bool, Unsplit>
    requires no_fault { games.old.converter.fault ≡ None }
    requires writes { games.old.converter.reading.writing.is_silent ≡ false }
    ensures fewer { result ≡ Ok true → most_left games.new < most_left games.old }
    ensures fault { OnOk result (games.new.converter.fault ≡ None) }
    ensures writes { games.new.converter.reading.writing.is_silent ≡ false }
    ensures splits { GameSplit F.Out.taken F.Out.failures games.old games.new
        (device R.left R.failures source.old source.new)
        (F.log files.old) (F.log files.new) result }
{
    let (_, result) = write_to_file::<Brand, R, F>(games, source, files);
    result
}

// Writes the next game to a file of its own. Gives back the files that were borrowed for it.
fn write_to_file<'a, K: GameBefore, R: Source, F: GameFiles>(
    games: &mut Splitter,
    source: &mut R,
    files: &'a mut F,
) -> (&'a mut F, Result<bool, Unsplit>)
    requires no_fault { games.old.converter.fault ≡ None }
    requires writes { games.old.converter.reading.writing.is_silent ≡ false }
    requires name { files.ghost_name ≡ K.name }
    requires number { one_more games.old.converter.games ≡ K.number }
    requires log { F.log files.old ≡ K.log }
    ensures same { result.0.ghost_name ≡ files.entry.ghost_name }
    ensures fewer { result.1 ≡ Ok true → most_left games.new < most_left games.old }
    ensures fault { OnOk result.1 (games.new.converter.fault ≡ None) }
    ensures writes { games.new.converter.reading.writing.is_silent ≡ false }
    ensures splits { GameSplit F.Out.taken F.Out.failures games.old games.new
        (device R.left R.failures source.old source.new)
        K.log (F.log result.0.now) result.1 }
{
    let mut sink = GameSink::<'a, K, F> {
        turn: Turn::new(files, games.games().saturating_add(1)),
        of: PhantomData,
    };
    let answer = games.next(source, &mut sink);
    let GameSink { turn, .. } = sink;
    let Turn {
        files: lent,
        file,
        ..
    } = turn;
    let result = settle(answer, &file);
    close(lent, file);
    (lent, result)
}

// A lack of memory is reported instead of the write fault that it causes.
fn settle<O>(answer: Result<bool, Fault>, file: &GameFile<O>) -> Result<bool, Unsplit>
    ensures { result ≡ settled file.now answer }
{
    match answer {
        Ok(is_game) => Ok(is_game),
        Err(fault) => match file {
            GameFile::Refused(CreateFault::NoMemory, _) => Err(Unsplit::NoMemory),
            _ => Err(Unsplit::Refused(fault)),
        },
    }
}

// Closes the file, if it is open.
fn close<F: GameFiles>(files: &mut F, file: GameFile<F::Out>)
    ensures { F.log files.new
        ≡ added (F.log files.old) (closing_steps F.Out.taken F.Out.failures file) }
{
    if let GameFile::Open(out) = file {
        files.close(out);
    }
}
