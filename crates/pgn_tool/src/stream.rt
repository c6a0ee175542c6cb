//! Carries out a task on a source and sinks.
ghost use Rattle.std.specs.Prelude.{◌≡◌, ◌⊎◌, ℕ, ◌+◌, ◌≤◌, List, ◌++◌, length, true, false, codes, if◌then◌else◌};
ghost use Rattle.std.specs.Io.KnownBytes.{Appends};
ghost use Rattle.pgn_layout.specs.Device.{NoneUnflushed, device};
ghost use Rattle.pgn_game.specs.games.Reason.{line_of};
ghost use Rattle.pgn_tool.specs.TaskRun.{Answers, HasFailed, HasFront, IsFlushed, IsSmooth, Runs, Tells, WritesLast, checking, counting_line, exporting, is_for_stream, job_of, line, listing, mode_for};

use crate::list::{Stopped, list_games};
use arrayvec::ArrayVec;
use itoa::Buffer;
use pgn_arguments::Task;
use pgn_game::{Fault, Mode, Sink, Source, Totals};
use pgn_layout::write_all;

/// The most tag pairs of a game.
pub const TAGS: usize = 64;
/// The levels of movetext: the game's own, and variations to depth 32.
pub const LEVELS: usize = 33;

/// Carries out a task on what the source gives, and returns the exit status.
///
/// - 0: there was no fault. `out` has what the task writes, and is flushed once, at the end. `err`
///   is not touched.
/// - 1: there was a fault, and `err` has its line. Or `out` could not take a line of `check` or
///   `list`, or could not be flushed, and `err` says so.
///
/// On a fault, `export` has written every finished game and the complete lines of the current one,
/// `list` the lines of the finished games, and `check` nothing. Only the first fault is reported. A
/// failure of `err` changes no status. `out` is flushed at the end, even if a write has failed. The
/// task must be `export`, `check` or `list`.
pub fn run_stream<R: Source, O: Sink, E: Sink>(
    task: &Task,
    reader: &mut R,
    out: &mut O,
    err: &mut E,
) -> u8
    requires { is_for_stream task.now ≡ true }

    // If no device fails, the text decides the status, the output and the report.
    ensures answers { (s : List ℕ)
        → IsSmooth s (device R.left R.failures reader.old reader.new)
        (device O.taken O.failures out.old out.new)
        → Answers (job_of task.now) s (device O.taken O.failures out.old out.new)
        (device E.taken E.failures err.old err.new) result }

    // If a device fails, the status is 1.
    ensures status { result ≤ 1 }
    ensures source_kept { result ≡ 0 → R.failures reader.new ≡ R.failures reader.old }
    ensures out_kept { result ≡ 0 → O.failures out.new ≡ O.failures out.old }

    // What is written and reported then.
    ensures runs { Runs (job_of task.now) (device R.left R.failures reader.old reader.new)
        (device O.taken O.failures out.old out.new) (O.unflushed out.new)
        (device E.taken E.failures err.old err.new) result }

    // Nothing that `out` took is unflushed, if it reports that, or a call of it failed.
    ensures flushed { IsFlushed (device O.taken O.failures out.old out.new)
        (O.unflushed out.new) result }
{
    match task {
        Task::Export { reduced, .. } => export(export_mode(*reduced), reader, out, err),
        Task::Check { .. } => check(reader, out, err),
        Task::List { .. } => list(reader, out, err),
        Task::Checked { .. } | Task::Split { .. } => unreachable!(),
    }
}

/// Which parts of a game an export writes.
pub fn export_mode(reduced: bool) -> Mode
    ensures { result ≡ mode_for reduced }
{
    if reduced { Mode::Reduced } else { Mode::Full }
}

// Writes the games in export format. No task is inlined into `run_stream`: the stack would hold a
// converter of each.
#[inline(never)]
fn export<R: Source, O: Sink, E: Sink>(mode: Mode, source: &mut R, out: &mut O, err: &mut E) -> u8
    ensures runs { Runs (exporting mode) (device R.left R.failures source.old source.new)
        (device O.taken O.failures out.old out.new) (O.unflushed out.new)
        (device E.taken E.failures err.old err.new) result }
    ensures flushed { IsFlushed (device O.taken O.failures out.old out.new)
        (O.unflushed out.new) result }
{
    let answer = pgn_game::convert::<TAGS, LEVELS, R, O>(source, out, mode);
    let flushed = out.flush();
    match answer {
        Ok(_) => conclude(flushed.is_ok(), err),
        Err(fault) => refuse(fault, err),
    }
}

// Writes how many games and moves there are.
#[inline(never)]
fn check<R: Source, O: Sink, E: Sink>(source: &mut R, out: &mut O, err: &mut E) -> u8
    ensures runs { Runs checking (device R.left R.failures source.old source.new)
        (device O.taken O.failures out.old out.new) (O.unflushed out.new)
        (device E.taken E.failures err.old err.new) result }
    ensures flushed { IsFlushed (device O.taken O.failures out.old out.new)
        (O.unflushed out.new) result }
{
    match pgn_game::check::<TAGS, LEVELS, R>(source, Mode::Full) {
        Ok(totals) => {
            let is_written = write_last(counting_line(totals).as_slice(), out);
            conclude(is_written, err)
        }
        Err(fault) => {
            let _ = out.flush();
            refuse(fault, err)
        }
    }
}

// Writes a line for each game.
#[inline(never)]
fn list<R: Source, O: Sink, E: Sink>(source: &mut R, out: &mut O, err: &mut E) -> u8
    ensures runs { Runs listing (device R.left R.failures source.old source.new)
        (device O.taken O.failures out.old out.new) (O.unflushed out.new)
        (device E.taken E.failures err.old err.new) result }
    ensures flushed { IsFlushed (device O.taken O.failures out.old out.new)
        (O.unflushed out.new) result }
{
    let answer = list_games(source, out);
    let flushed = out.flush();
    match answer {
        Ok(()) => conclude(flushed.is_ok(), err),
        Err(Stopped::Refused(fault)) => refuse(fault, err),
        Err(Stopped::Unwritten) => conclude(false, err),
    }
}

/// Writes the text and flushes, and returns whether both succeeded. It flushes even if the text
/// could not be written.
pub fn write_last<O: Sink>(text: &[u8], out: &mut O) -> bool
    ensures written { result ≡ true → Appends (O.taken out.old) (O.taken out.new) text.now }
    ensures kept { result ≡ true → O.failures out.new ≡ O.failures out.old }
    ensures failed { result ≡ false → HasFailed (device O.taken O.failures out.old out.new) }
    ensures flushed { NoneUnflushed (O.unflushed out.new)
        ⊎ (HasFailed (device O.taken O.failures out.old out.new) × (result ≡ false)) }
    ensures last { WritesLast (device O.taken O.failures out.old out.new) text.now
        (O.unflushed out.new) }
    ensures front { HasFront (device O.taken O.failures out.old out.new) text.now }
{
    let written = write_all(out, text);
    let flushed = out.flush();
    written.is_ok() && flushed.is_ok()
}

// `games: G, plies: P` and LF.
fn counting_line(totals: Totals) -> ArrayVec<u8, 64>
    ensures { result.items ≡ counting_line totals.games totals.plies }
{
    let mut line = ArrayVec::new();
    let mut buffer = Buffer::new();
    append(&mut line, b"games: ");
    append(&mut line, buffer.format(totals.games).as_bytes());
    append(&mut line, b", plies: ");
    append(&mut line, buffer.format(totals.plies).as_bytes());
    append(&mut line, b"\n");
    line
}

/// Returns the status of a run without a fault: 0 if all was written, else 1, which is reported.
pub fn conclude<E: Sink>(is_written: bool, err: &mut E) -> u8
    ensures status { result ≡ (if is_written then 0 else 1) }
    ensures untouched { is_written ≡ true → err.new ≡ err.old }
    ensures told { is_written ≡ false → Tells (device E.taken E.failures err.old err.new)
        (line (codes "output cannot be written")) }
{
    if is_written {
        return 0;
    }
    tell(b"output cannot be written", err);
    1
}

/// Reports the fault, and returns the status of a fault.
pub fn refuse<E: Sink>(fault: Fault, err: &mut E) -> u8
    ensures status { result ≡ 1 }
    ensures told { Tells (device E.taken E.failures err.old err.new) (line (line_of fault)) }
{
    tell(fault.line().as_slice(), err);
    1
}

/// Writes the words and LF, and ignores a failure of the sink.
pub fn tell<E: Sink>(words: &[u8], err: &mut E)
    requires { length words.now ≤ 96 }
    ensures { Tells (device E.taken E.failures err.old err.new) (line words.now) }
{
    let mut text = ArrayVec::<u8, 97>::new();
    append(&mut text, words);
    append(&mut text, b"\n");
    let _ = write_all(err, text.as_slice());
}

// Adds the text at the line's end.
fn append<const N: usize>(line: &mut ArrayVec<u8, N>, text: &[u8])
    requires { length line.old.items + length text.now ≤ N }
    ensures { line.new.items ≡ line.old.items ++ text.now }
{
    let _ = line.try_extend_from_slice(text);
}
