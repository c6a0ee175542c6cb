//! Carries out `export --checked`, which reads its file twice.
ghost use Rattle.std.specs.Prelude.{◌≡◌, ◌≤◌, ℕ, List, true};
ghost use Rattle.pgn_layout.specs.Device.{device};
ghost use Rattle.pgn_tool.specs.TaskRun.{IsFlushed, IsSmooth};
ghost use Rattle.pgn_tool.specs.CheckedRun.{AnswersSame, AnswersTwice, Gives, RunsTwice, WritesFront};
ghost use Rattle.pgn_tool.specs.CheckedRun.{checked_mode, is_checked};

use crate::stream::{LEVELS, TAGS, conclude, export_mode, refuse};
use pgn_arguments::Task;
use pgn_game::laws::{due_grows, equal_readings, interrupted_readings};
use pgn_game::{Mode, Sink, Source, convert_checked};
use pgn_lexer::laws::decided_is_prefix;

/// Carries out `export --checked` on what two sources give, and returns the exit status.
///
/// Each game is read from `first` to its marker, then read from `second` and written. A missing
/// Result takes the marker. Both sources are meant to give the same bytes.
///
/// - 0: there was no fault. `out` has the export text, and is flushed once, at the end. `err` is
///   not touched.
/// - 1: there was a fault, and `err` has its line. Or `out` could not be flushed, and `err` says
///   so.
///
/// On a fault of `first` every game before it is written, and nothing of its own game. On another
/// one, the text of the current game may be torn. Only the first fault is reported. A failure of
/// `err` changes no status. `out` is flushed at the end, even if a write has failed. The task must
/// be `Checked`.
pub fn run_checked<Q: Source, R: Source, O: Sink, E: Sink>(
    task: &Task,
    first: &mut Q,
    second: &mut R,
    out: &mut O,
    err: &mut E,
) -> u8
    requires { is_checked task.now ≡ true }

    // If no device fails, the two texts decide the status, the output and the report. They have at
    // most 2^62 bytes.
    ensures answers { (s r : List ℕ)
        → IsSmooth s (device Q.left Q.failures first.old first.new)
        (device O.taken O.failures out.old out.new)
        → IsSmooth r (device R.left R.failures second.old second.new)
        (device O.taken O.failures out.old out.new)
        → AnswersTwice (checked_mode task.now) s r (device O.taken O.failures out.old out.new)
        (device E.taken E.failures err.old err.new) result }

    // If they are the same, one of them does.
    ensures same { (s : List ℕ)
        → IsSmooth s (device Q.left Q.failures first.old first.new)
        (device O.taken O.failures out.old out.new)
        → IsSmooth s (device R.left R.failures second.old second.new)
        (device O.taken O.failures out.old out.new)
        → AnswersSame (checked_mode task.now) s (device O.taken O.failures out.old out.new)
        (device E.taken E.failures err.old err.new) result }

    // If both give the same text, a prefix of its output is written, whichever device fails.
    ensures front { (s : List ℕ)
        → Gives s (device Q.left Q.failures first.old first.new)
        → Gives s (device R.left R.failures second.old second.new)
        → WritesFront (checked_mode task.now) s (device O.taken O.failures out.old out.new) }

    // If a device fails, the status is 1.
    ensures status { result ≤ 1 }
    ensures first_kept { result ≡ 0 → Q.failures first.new ≡ Q.failures first.old }
    ensures second_kept { result ≡ 0 → R.failures second.new ≡ R.failures second.old }
    ensures out_kept { result ≡ 0 → O.failures out.new ≡ O.failures out.old }

    // What is written and reported, whatever the devices do.
    ensures runs { RunsTwice (checked_mode task.now)
        (device Q.left Q.failures first.old first.new)
        (device R.left R.failures second.old second.new)
        (device O.taken O.failures out.old out.new) (O.unflushed out.new)
        (device E.taken E.failures err.old err.new) result }

    // Nothing that `out` took is unflushed, if it reports that, or a call of it failed.
    ensures flushed { IsFlushed (device O.taken O.failures out.old out.new)
        (O.unflushed out.new) result }
{
    decided_is_prefix();
    due_grows();
    equal_readings();
    interrupted_readings();
    let Task::Checked { reduced, .. } = task else {
        unreachable!()
    };
    export_twice(export_mode(*reduced), first, second, out, err)
}

// Writes the games in export format, each after it has been read. It is not inlined, so that only
// this task has room for two converters on its stack.
#[inline(never)]
fn export_twice<Q: Source, R: Source, O: Sink, E: Sink>(
    mode: Mode,
    first: &mut Q,
    second: &mut R,
    out: &mut O,
    err: &mut E,
) -> u8
    ensures runs { RunsTwice mode (device Q.left Q.failures first.old first.new)
        (device R.left R.failures second.old second.new)
        (device O.taken O.failures out.old out.new) (O.unflushed out.new)
        (device E.taken E.failures err.old err.new) result }
    ensures flushed { IsFlushed (device O.taken O.failures out.old out.new)
        (O.unflushed out.new) result }
{
    let answer = convert_checked::<TAGS, LEVELS, Q, R, O>(first, second, out, mode);
    let flushed = out.flush();
    match answer {
        Ok(_) => conclude(flushed.is_ok(), err),
        Err(fault) => refuse(fault, err),
    }
}
