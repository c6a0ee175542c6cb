//! Runs of `export --checked` on two sources, with devices that fail.
ghost use Rattle.std.specs.Prelude.{◌≡◌, true};
ghost use Rattle.pgn_tool.specs.CheckedRun.{is_checked};

use crate::checked::run_checked;
use crate::devices::{
    Page, TextReader, Trouble, failing_memory, failing_reader, holds_at, is_cut_off, memory,
    says_unread, whole,
};
use crate::standard::StandardOutput;
use crate::stream_tests::{
    Failing, NO_FLUSH, NO_REPORT, Ran, UNKNOWN, UNWRITTEN, WON, Writing, failing_pages, left_by,
    left_unbuffered,
};
use pgn_arguments::Task;
use pgn_game::{Inlet, Outlet};
use std::alloc::Global;
use std::io::ErrorKind;
use std::process::Abort;

/// Two games without a Result tag, of 8 bytes. Each marker is known at the byte behind it.
const TWO: &[u8] = b"1-0 0-1\n";

/// What is written of `TWO`.
const BOTH: &[u8] =
    b"[Event \"?\"]\n[Site \"?\"]\n[Date \"????.??.??\"]\n[Round \"?\"]\n[White \"?\"]\n\
    [Black \"?\"]\n[Result \"1-0\"]\n\n1-0\n\n[Event \"?\"]\n[Site \"?\"]\n[Date \"????.??.??\"]\n\
    [Round \"?\"]\n[White \"?\"]\n[Black \"?\"]\n[Result \"0-1\"]\n\n0-1\n\n";

/// The tag section of a game without tags.
const HEAD: &[u8] =
    b"[Event \"?\"]\n[Site \"?\"]\n[Date \"????.??.??\"]\n[Round \"?\"]\n[White \"?\"]\n\
    [Black \"?\"]\n[Result \"*\"]\n\n";

const QUEEN: &[u8] =
    b"[Event \"?\"]\n[Site \"?\"]\n[Date \"????.??.??\"]\n[Round \"?\"]\n[White \"?\"]\n\
    [Black \"?\"]\n[Result \"*\"]\n\n1. d4 *\n\n";

/// A game won by White, of which one reading is cut off in movetext: the marker is the first's.
const WON_HEAD: &[u8] =
    b"[Event \"?\"]\n[Site \"?\"]\n[Date \"????.??.??\"]\n[Round \"?\"]\n[White \"?\"]\n\
    [Black \"?\"]\n[Result \"1-0\"]\n\n";

const REDUCED: &[u8] =
    b"[Event \"?\"]\n[Site \"?\"]\n[Date \"????.??.??\"]\n[Round \"?\"]\n[White \"?\"]\n\
    [Black \"?\"]\n[Result \"1-0\"]\n\n1. e4 e5 1-0\n\n";

const TAGGED: &[u8] =
    b"[Event \"?\"]\n[Site \"?\"]\n[Date \"????.??.??\"]\n[Round \"?\"]\n[White \"?\"]\n\
    [Black \"?\"]\n[Result \"1-0\"]\n[ECO \"C20\"]\n\n1. e4 1-0\n\n";

fn task(alloc: Global, reduced: bool) -> Task
    ensures { is_checked result ≡ true }
{
    let file = String::new(alloc);
    Task::Checked { reduced, file }
}

fn run(reduced: bool, first: TextReader, second: TextReader, out: Page, err: Page) -> Ran {
    let task = task(out.alloc, reduced);
    let mut out = StandardOutput::new(out.alloc, out);
    let mut err = Outlet::new(err);
    let (mut first, mut second) = (Inlet::new(first), Inlet::new(second));
    let status = run_checked(&task, &mut first, &mut second, &mut out, &mut err);
    left_by(status, out, err)
}

// The run over a writer alone, as a caller has it that makes no buffer.
fn run_unbuffered(first: TextReader, second: TextReader, out: Page, err: Page) -> Ran {
    let task = task(out.alloc, false);
    let (mut out, mut err) = (Outlet::new(out), Outlet::new(err));
    let (mut first, mut second) = (Inlet::new(first), Inlet::new(second));
    let status = run_checked(&task, &mut first, &mut second, &mut out, &mut err);
    left_unbuffered(status, out, err)
}

fn run_by(writing: Writing, first: TextReader, second: TextReader, out: Page, err: Page) -> Ran {
    match writing {
        Writing::Buffered => run(false, first, second, out, err),
        Writing::Unbuffered => run_unbuffered(first, second, out, err),
    }
}

/// Two texts, and what a run of them leaves: the status, standard output, standard error.
#[rattlefmt::skip]
type Row = (&'static [u8], &'static [u8], u8, &'static [u8], &'static [u8]);

#[rattlefmt::skip]
const ROWS: &[Row] = &[
    (b"", b"", 0, b"", b""),
    (TWO, TWO, 0, BOTH, b""),
    (b"1-0", b"1-0", 0, WON, b""),
    (b"[ECO \"C20\"] 1. e4 1-0", b"[ECO \"C20\"] 1. e4 1-0", 0, TAGGED, b""),
    // A Result tag that is there has to be the marker.
    (b"[Result \"1-0\"] 0-1", b"[Result \"1-0\"] 0-1", 1, b"",
        b"byte 15: result differs from the Result tag\n"),
    // Nothing is written of a game with a fault.
    (b"* 1. e4 e5 2. Ke3 *", b"* 1. e4 e5 2. Ke3 *", 1, UNKNOWN, b"byte 14: move is not legal\n"),
    (b"1. e4", b"1. e4", 1, b"", b"byte 5: unexpected end of input\n"),
    // Of two texts the second is written, and the rest of it is not read.
    (b"1. e4 *", b"1. d4 *", 0, QUEEN, b""),
    (b"*", b"* *", 0, UNKNOWN, b""),
    (b"*", b"* e9", 0, UNKNOWN, b""),
];

/// Texts of which the second differs.
#[rattlefmt::skip]
const DIFFERENT: &[Row] = &[
    (b"1-0", b"0-1", 1, b"", b"byte 0: second reading differs\n"),
    (b"*", b" *", 1, b"", b"byte 1: second reading differs\n"),
    (b"*", b"", 1, b"", b"byte 0: second reading differs\n"),
    (b"* *", b"*", 1, UNKNOWN, b"byte 1: second reading differs\n"),
    (b"1. e4 *", b"1. e4", 1, HEAD, b"byte 5: second reading differs\n"),
    (b"1. e4 1-0", b"1. Ke2 1-0", 1, WON_HEAD, b"byte 3: second reading differs\n"),
    (b"1. e4 1-0", b"1. e4 0-1", 1, WON_HEAD, b"byte 6: second reading differs\n"),
];

/// The rows, each behind a call of its own, so that no proof of a loop sees all their bytes.
fn rows() -> &'static [Row] {
    ROWS
}

fn different() -> &'static [Row] {
    DIFFERENT
}

/// A run of `TWO`, read twice, to this standard output.
fn run_to(alloc: Global, out: Page) -> Ran {
    run(false, whole(TWO), whole(TWO), out, memory(alloc))
}

/// A run to memory.
fn run_in_memory(alloc: Global, reduced: bool, first: TextReader, second: TextReader) -> Ran {
    run(reduced, first, second, memory(alloc), memory(alloc))
}

/// Whether a run leaves what the row says.
fn leaves(writing: Writing, alloc: Global, row: &Row) -> bool {
    let (first, second, status, written, told) = *row;
    let (out, err) = (memory(alloc), memory(alloc));
    run_by(writing, whole(first), whole(second), out, err).is(status, written, told)
}

fn leave_all(rt: &impl Abort, writing: Writing, alloc: Global, rows: &[Row]) {
    for row in rows {
        holds_at(rt, leaves(writing, alloc, row), &(row.0, row.1));
    }
}

#[test]
fn writes_games_that_are_read_twice(rt: HostRuntime) {
    leave_all(&rt, Writing::Buffered, rt.alloc(), rows());
    leave_all(&rt, Writing::Buffered, rt.alloc(), different());
}

#[test]
fn writes_reduced_games(rt: HostRuntime) {
    let text = b"[ECO \"C20\"] 1. e4 $1 {good} (1. d4) e5 1-0";
    let ran = run_in_memory(rt.alloc(), true, whole(text), whole(text));
    assert!(rt; ran.is(0, REDUCED, b""));
}

#[test]
fn writes_nothing_if_the_first_reading_fails(rt: HostRuntime) {
    let first = failing_reader(b"1. e4 *", 5, ErrorKind::BrokenPipe, 1);
    let ran = run_in_memory(rt.alloc(), false, first, whole(b"1. e4 *"));
    assert!(rt; ran.is(1, b"", b"byte 5: input cannot be read\n"));
}

// What is written of so many bytes of `TWO`.
fn written(bytes: usize) -> &'static [u8] {
    match bytes {
        0..4 => b"",
        4..8 => WON,
        _ => BOTH,
    }
}

// Whether a run reports that one source had a read that failed after so many bytes.
fn reports(ran: &Ran, bytes: usize) -> bool {
    ran.has(1, written(bytes)) && says_unread(&ran.err, bytes)
}

// Whether a run reports a read that failed after so many bytes, or ends where there are no more.
fn ends_at(ran: &Ran, bytes: usize, end: usize) -> bool {
    if bytes >= end {
        return ran.is(0, BOTH, b"");
    }
    reports(ran, bytes.min(TWO.len()))
}

// Whether a run reports that this read of the first source fails, in pieces of so many bytes, and
// that this one of the second does. The last read of the first finds the end, which is not read of
// the second.
fn reports_both(alloc: Global, error: ErrorKind, most: usize, fails_at: usize) -> bool {
    let failing = failing_reader(TWO, fails_at, error, most);
    let other = failing_reader(TWO, usize::MAX, error, most);
    let bytes = fails_at.saturating_mul(most);
    let first = run_in_memory(alloc, false, failing, other);
    let second = run_in_memory(alloc, false, other, failing);
    ends_at(&first, bytes, TWO.len().saturating_add(most)) && ends_at(&second, bytes, TWO.len())
}

#[test]
fn tells_each_read_of_two_that_fails(rt: HostRuntime) {
    for error in [ErrorKind::BrokenPipe, ErrorKind::Interrupted] {
        for most in [1, 7] {
            for fails_at in 0..11usize {
                let is_right = reports_both(rt.alloc(), error, most, fails_at);
                holds_at(&rt, is_right, &(error, most, fails_at));
            }
        }
    }
}

// Whether the run stopped at this write: a front of the text is written. Nothing is tried again.
fn stopped_at(ran: &Ran, fails_at: usize) -> bool {
    let taken = ran.out.taken.as_slice();
    let line: &[u8] = if taken.len() < WON.len() {
        b"byte 0: output cannot be written\n"
    } else {
        b"byte 4: output cannot be written\n"
    };
    is_cut_off(taken, BOTH) && ran.is(1, taken, line) && ran.out.calls == fails_at.saturating_add(1)
}

// Whether a run reports each write that fails, of pieces of so many bytes.
fn reports_writes(alloc: Global, trouble: Trouble, most: usize) -> bool {
    for fails_at in 0..1000usize {
        let ran = run_to(alloc, failing_memory(alloc, fails_at, trouble, most));
        if ran.out.calls <= fails_at {
            let some = if most == 1 { BOTH.len() } else { 1 };
            return ran.is(0, BOTH, b"") && fails_at >= some;
        }
        if !stopped_at(&ran, fails_at) {
            return false;
        }
    }
    false
}

#[test]
fn tells_each_write_of_two_that_fails(rt: HostRuntime) {
    for trouble in [Trouble::Broken, Trouble::Interrupted, Trouble::TakesNone] {
        let is_right = reports_writes(rt.alloc(), trouble, 1)
            && reports_writes(rt.alloc(), trouble, usize::MAX);
        holds_at(&rt, is_right, &trouble);
    }
}

/// A text, and what a run of it, read twice, leaves: the status, standard output, standard error.
type Twice = (&'static [u8], u8, &'static [u8], &'static [u8]);

// Whether a run leaves what the row says, where this fails.
fn ends(writing: Writing, alloc: Global, row: &Twice, failing: Failing) -> bool {
    let (text, status, written, told) = *row;
    let (out, err) = failing_pages(alloc, failing);
    run_by(writing, whole(text), whole(text), out, err).is(status, written, told)
}

/// Runs of which each flush fails: only the first fault is reported.
const UNFLUSHED: &[Twice] = &[
    (TWO, 1, BOTH, UNWRITTEN),
    (b"1-0 e9", 1, WON, b"byte 4: not a move\n"),
];

/// Runs that can report nothing. A failure of standard error changes no status.
const SILENT: &[Twice] = &[(TWO, 0, BOTH, b""), (b"1-0 e9", 1, WON, b"")];

fn unflushed() -> &'static [Twice] {
    UNFLUSHED
}

fn silent() -> &'static [Twice] {
    SILENT
}

fn end_all(rt: &impl Abort, writing: Writing, alloc: Global, rows: &[Twice], failing: Failing) {
    for row in rows {
        holds_at(rt, ends(writing, alloc, row, failing), &row.0);
    }
}

#[test]
fn tells_a_flush_that_fails_after_two(rt: HostRuntime) {
    end_all(&rt, Writing::Buffered, rt.alloc(), unflushed(), NO_FLUSH);
    end_all(&rt, Writing::Buffered, rt.alloc(), silent(), NO_REPORT);
}

#[test]
fn runs_twice_over_a_writer_alone(rt: HostRuntime) {
    leave_all(&rt, Writing::Unbuffered, rt.alloc(), rows());
    leave_all(&rt, Writing::Unbuffered, rt.alloc(), different());
    end_all(&rt, Writing::Unbuffered, rt.alloc(), unflushed(), NO_FLUSH);
}
