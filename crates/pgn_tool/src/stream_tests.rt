//! Runs of the tasks, with devices that fail.
ghost use Rattle.std.specs.Prelude.{◌≡◌, true};
ghost use Rattle.pgn_tool.specs.TaskRun.{is_for_stream};

use crate::devices::{
    Page, TextReader, Trouble, failing_memory, failing_reader, holds_at, is_cut_off, memory,
    says_unread, whole,
};
use crate::machine::Output;
use crate::standard::StandardOutput;
use crate::stream::run_stream;
use pgn_arguments::Task;
use pgn_game::{Inlet, Outlet, Sink};
use pgn_layout::write_all;
use std::alloc::Global;
use std::io::ErrorKind;
use std::process::Abort;

/// Two games, of 27 bytes: their markers stand at 12 and 25.
const TWO: &[u8] = b"[Event \"a\"] * [Site \"b\"]\n*\n";

pub const UNKNOWN: &[u8] =
    b"[Event \"?\"]\n[Site \"?\"]\n[Date \"????.??.??\"]\n[Round \"?\"]\n[White \"?\"]\n\
    [Black \"?\"]\n[Result \"*\"]\n\n*\n\n";

const FIRST: &[u8] =
    b"[Event \"a\"]\n[Site \"?\"]\n[Date \"????.??.??\"]\n[Round \"?\"]\n[White \"?\"]\n\
    [Black \"?\"]\n[Result \"*\"]\n\n*\n\n";

const BOTH: &[u8] =
    b"[Event \"a\"]\n[Site \"?\"]\n[Date \"????.??.??\"]\n[Round \"?\"]\n[White \"?\"]\n\
    [Black \"?\"]\n[Result \"*\"]\n\n*\n\n[Event \"?\"]\n[Site \"b\"]\n[Date \"????.??.??\"]\n\
    [Round \"?\"]\n[White \"?\"]\n[Black \"?\"]\n[Result \"*\"]\n\n*\n\n";

pub const WON: &[u8] =
    b"[Event \"?\"]\n[Site \"?\"]\n[Date \"????.??.??\"]\n[Round \"?\"]\n[White \"?\"]\n\
    [Black \"?\"]\n[Result \"1-0\"]\n\n1-0\n\n";

const NAMED: &[u8] =
    b"[Event \"?\"]\n[Site \"?\"]\n[Date \"????.??.??\"]\n[Round \"?\"]\n[White \"?\"]\n\
    [Black \"?\"]\n[Result \"*\"]\n[A \"1\"]\n\n*\n\n";

const FIRST_LINE: &[u8] =
    b"1\t?\t?\t*\t0\trnbqkbnr/pppppppp/8/8/8/8/PPPPPPPP/RNBQKBNR w KQkq - 0 1\n";

const BOTH_LINES: &[u8] =
    b"1\t?\t?\t*\t0\trnbqkbnr/pppppppp/8/8/8/8/PPPPPPPP/RNBQKBNR w KQkq - 0 1\n\
    2\t?\t?\t*\t0\trnbqkbnr/pppppppp/8/8/8/8/PPPPPPPP/RNBQKBNR w KQkq - 0 1\n";

/// The line of a check of `TWO`.
const COUNTS: &[u8] = b"games: 2, plies: 0\n";

pub const UNWRITTEN: &[u8] = b"output cannot be written\n";

/// The fault of `* 1-0`.
const DIFFERS: &[u8] = b"byte 2: result differs from the Result tag\n";

/// A task, which names no file.
#[derive(Clone, Copy, Debug, PartialEq, Eq)]
enum Job {
    Export,
    Reduced,
    Check,
    List,
}

impl Job {
    fn task(self) -> Task
        ensures { is_for_stream result ≡ true }
    {
        let file = None;
        match self {
            Job::Export => Task::Export {
                reduced: false,
                file,
            },
            Job::Reduced => Task::Export {
                reduced: true,
                file,
            },
            Job::Check => Task::Check { file },
            Job::List => Task::List { file },
        }
    }

    // What the task writes for so many games of `TWO`, where it meets a fault behind them.
    fn written(self, games: usize) -> &'static [u8] {
        match (self, games) {
            (Job::Check, _) | (_, 0) => b"",
            (Job::List, 1) => FIRST_LINE,
            (Job::List, _) => BOTH_LINES,
            (_, 1) => FIRST,
            (_, _) => BOTH,
        }
    }

    // What the task writes for `TWO`.
    fn all(self) -> &'static [u8] {
        match self {
            Job::Check => COUNTS,
            _ => self.written(2),
        }
    }
}

/// What a run left.
#[derive(Drop)]
pub struct Ran {
    pub status: u8,
    pub out: Page,
    pub err: Page,
}

impl Ran {
    /// Whether standard output was flushed once, behind its text.
    pub fn has(&self, status: u8, out: &[u8]) -> bool {
        self.status == status && self.out.has_flushed(out)
    }

    pub fn is(&self, status: u8, out: &[u8], err: &[u8]) -> bool {
        self.has(status, out) && self.err.taken.as_slice() == err
    }
}

/// What a run with this status left.
pub fn left_by(status: u8, out: StandardOutput<Page>, err: Outlet<Page>) -> Ran {
    left_unbuffered(status, out.outlet, err)
}

/// What a run with this status left that wrote to a writer alone.
pub fn left_unbuffered(status: u8, out: Outlet<Page>, err: Outlet<Page>) -> Ran {
    Ran {
        status,
        out: out.into_inner(),
        err: err.into_inner(),
    }
}

fn run(job: Job, reader: TextReader, out: Page, err: Page) -> Ran {
    let mut out = StandardOutput::new(out.alloc, out);
    let mut err = Outlet::new(err);
    let status = run_stream(&job.task(), &mut Inlet::new(reader), &mut out, &mut err);
    left_by(status, out, err)
}

// The run over a writer alone, as a caller has it that makes no buffer.
fn run_unbuffered(job: Job, reader: TextReader, out: Page, err: Page) -> Ran {
    let (mut out, mut err) = (Outlet::new(out), Outlet::new(err));
    let status = run_stream(&job.task(), &mut Inlet::new(reader), &mut out, &mut err);
    left_unbuffered(status, out, err)
}

/// A task, a text, and what the run of it leaves: the status, standard output, standard error.
type Row = (Job, &'static [u8], u8, &'static [u8], &'static [u8]);

#[rattlefmt::skip]
const EXPORTS: &[Row] = &[
    (Job::Export, b"", 0, b"", b""),
    (Job::Export, b"*", 0, UNKNOWN, b""),
    (Job::Export, TWO, 0, BOTH, b""),
    (Job::Export, b"[Result \"1-0\"] 1-0", 0, WON, b""),
    (Job::Export, b"[A \"1\"] *", 0, NAMED, b""),
    (Job::Export, b"1-0", 1, b"", b"byte 0: result differs from the Result tag\n"),
    (Job::Export, b"* [A \"1\"]", 1, UNKNOWN, b"byte 9: unexpected end of input\n"),
    (Job::Reduced, b"[A \"1\"] *", 0, UNKNOWN, b""),
];

#[rattlefmt::skip]
const CHECKS: &[Row] = &[
    (Job::Check, b"", 0, b"games: 0, plies: 0\n", b""),
    (Job::Check, TWO, 0, b"games: 2, plies: 0\n", b""),
    (Job::Check, b"1. e4 (1. d4 d5) (1. c4) e5 *", 0, b"games: 1, plies: 2\n", b""),
    (Job::Check, b"1. e4 e5 2. Ke3 *", 1, b"", b"byte 12: move is not legal\n"),
    (Job::Check, b"1-0", 1, b"", b"byte 0: result differs from the Result tag\n"),
    (Job::Check, b"* [A \"1\"]", 1, b"", b"byte 9: unexpected end of input\n"),
];

#[rattlefmt::skip]
const LISTS: &[Row] = &[
    (Job::List, b"", 0, b"", b""),
    (Job::List, TWO, 0, BOTH_LINES, b""),
    (Job::List, b"1. e4 *", 0,
        b"1\t?\t?\t*\t1\trnbqkbnr/pppppppp/8/8/4P3/8/PPPP1PPP/RNBQKBNR b KQkq e3 0 1\n", b""),
    // The marker ends with the input.
    (Job::List, b"[Result \"0-1\"]\nf3 e5 g4 Qh4 0-1", 0,
        b"1\t?\t?\t0-1\t4\trnb1kbnr/pppp1ppp/8/4p3/6Pq/5P2/PPPPP2P/RNBQKBNR w KQkq - 1 3\n", b""),
    (Job::List, b"[White \"Amaral \\\"R\\\"\"][Black \"Okafor\"] e4 (d4) *", 0,
        b"1\tAmaral \"R\"\tOkafor\t*\t1\t\
        rnbqkbnr/pppppppp/8/8/4P3/8/PPPP1PPP/RNBQKBNR b KQkq e3 0 1\n",
        b""),
    (Job::List, b"[FEN \"4k3/44/8/8/8/8/8/4K3 w - - 00 007\"] *", 0,
        b"1\t?\t?\t*\t0\t4k3/8/8/8/8/8/8/4K3 w - - 0 7\n", b""),
    (Job::List, b"* 1. e4 e5 2. Ke3 *", 1, FIRST_LINE, b"byte 14: move is not legal\n"),
    (Job::List, b"* [A \"1\"]", 1, FIRST_LINE, b"byte 9: unexpected end of input\n"),
    (Job::List, b"1-0", 1, b"", b"byte 0: result differs from the Result tag\n"),
];

/// The rows, each table behind a call of its own, so that no proof of a loop sees all their bytes.
fn exports() -> &'static [Row] {
    EXPORTS
}

fn checks() -> &'static [Row] {
    CHECKS
}

fn lists() -> &'static [Row] {
    LISTS
}

/// What fails: this write to standard output, each flush of it, this write to standard error.
pub type Failing = (usize, bool, usize);

const NONE: Failing = (usize::MAX, false, usize::MAX);

const NO_WRITE: Failing = (0, false, usize::MAX);

pub const NO_FLUSH: Failing = (usize::MAX, true, usize::MAX);

pub const NO_REPORT: Failing = (usize::MAX, false, 0);

/// Standard output and standard error, where this fails.
pub fn failing_pages(alloc: Global, failing: Failing) -> (Page, Page) {
    let (fails_at, flush_fails, err_at) = failing;
    let mut out = failing_memory(alloc, fails_at, Trouble::Broken, usize::MAX);
    out.flush_fails = flush_fails;
    let err = failing_memory(alloc, err_at, Trouble::Broken, usize::MAX);
    (out, err)
}

/// Whether a task writes through the program's buffer, or to its writer alone.
#[derive(Clone, Copy)]
pub enum Writing {
    Buffered,
    Unbuffered,
}

fn run_by(writing: Writing, job: Job, reader: TextReader, out: Page, err: Page) -> Ran {
    match writing {
        Writing::Buffered => run(job, reader, out, err),
        Writing::Unbuffered => run_unbuffered(job, reader, out, err),
    }
}

// Whether a run leaves what the row says, where this fails.
fn leaves(writing: Writing, alloc: Global, row: &Row, failing: Failing) -> bool {
    let (job, text, status, written, told) = *row;
    let (out, err) = failing_pages(alloc, failing);
    run_by(writing, job, whole(text), out, err).is(status, written, told)
}

fn leave_all(rt: &impl Abort, writing: Writing, alloc: Global, rows: &[Row], failing: Failing) {
    for row in rows {
        holds_at(rt, leaves(writing, alloc, row, failing), &(row.0, row.1));
    }
}

#[test]
fn writes_what_is_asked_for(rt: HostRuntime) {
    leave_all(&rt, Writing::Buffered, rt.alloc(), exports(), NONE);
    leave_all(&rt, Writing::Buffered, rt.alloc(), checks(), NONE);
    leave_all(&rt, Writing::Buffered, rt.alloc(), lists(), NONE);
}

#[test]
fn runs_over_a_writer_alone(rt: HostRuntime) {
    leave_all(&rt, Writing::Unbuffered, rt.alloc(), exports(), NONE);
    leave_all(&rt, Writing::Unbuffered, rt.alloc(), checks(), NONE);
    leave_all(&rt, Writing::Unbuffered, rt.alloc(), lists(), NONE);
    leave_all(&rt, Writing::Unbuffered, rt.alloc(), unflushed(), NO_FLUSH);
}

// How many games of `TWO` are whole when so many bytes were read.
fn whole_games(bytes: usize) -> usize {
    match bytes {
        0..13 => 0,
        13..26 => 1,
        _ => 2,
    }
}

// Whether a run reports that this read fails, of pieces of so many bytes. The last read finds the
// end.
fn reports_read(alloc: Global, job: Job, error: ErrorKind, most: usize, fails_at: usize) -> bool {
    let failing = failing_reader(TWO, fails_at, error, most);
    let bytes = fails_at.saturating_mul(most).min(TWO.len());
    let ran = run(job, failing, memory(alloc), memory(alloc));
    if fails_at.saturating_mul(most) >= TWO.len().saturating_add(most) {
        return ran.is(0, job.all(), b"");
    }
    ran.has(1, job.written(whole_games(bytes))) && says_unread(&ran.err, bytes)
}

#[test]
fn tells_each_read_that_fails(rt: HostRuntime) {
    for job in [Job::Export, Job::Check, Job::List] {
        for error in [ErrorKind::BrokenPipe, ErrorKind::Interrupted] {
            for fails_at in 0..29usize {
                let is_right = reports_read(rt.alloc(), job, error, 1, fails_at)
                    && reports_read(rt.alloc(), job, error, 7, fails_at);
                holds_at(&rt, is_right, &(job, error, fails_at));
            }
        }
    }
}

// Where a write fails when so many bytes were written. A game is exported from its marker on.
fn place(job: Job, taken: usize) -> &'static [u8] {
    match (job, taken < FIRST.len()) {
        (Job::Export, true) => b"byte 12: output cannot be written\n",
        (Job::Export, false) => b"byte 25: output cannot be written\n",
        (_, _) => UNWRITTEN,
    }
}

// Whether the run stopped at this write: a front of the text is written. Nothing is tried again.
fn stopped_at(ran: &Ran, job: Job, fails_at: usize) -> bool {
    let taken = ran.out.taken.as_slice();
    is_cut_off(taken, job.all())
        && ran.is(1, taken, place(job, taken.len()))
        && ran.out.calls == fails_at.saturating_add(1)
}

// Whether a run reports each write that fails, of pieces of so many bytes.
fn reports_writes(alloc: Global, job: Job, trouble: Trouble, most: usize) -> bool {
    for fails_at in 0..1000usize {
        let out = failing_memory(alloc, fails_at, trouble, most);
        let ran = run(job, whole(TWO), out, memory(alloc));
        if ran.out.calls <= fails_at {
            let some = if most == 1 { job.all().len() } else { 1 };
            return ran.is(0, job.all(), b"") && fails_at >= some;
        }
        if !stopped_at(&ran, job, fails_at) {
            return false;
        }
    }
    false
}

#[test]
fn tells_each_write_that_fails(rt: HostRuntime) {
    for job in [Job::Export, Job::Check, Job::List] {
        for trouble in [Trouble::Broken, Trouble::Interrupted, Trouble::TakesNone] {
            let is_right = reports_writes(rt.alloc(), job, trouble, 1)
                && reports_writes(rt.alloc(), job, trouble, usize::MAX);
            holds_at(&rt, is_right, &(job, trouble));
        }
    }
}

/// Runs of which the first write fails.
#[rattlefmt::skip]
const UNWRITABLE: &[Row] = &[
    (Job::Export, b"*", 1, b"", b"byte 0: output cannot be written\n"),
    // The fault behind the line is not reached.
    (Job::List, b"* 1-0", 1, b"", UNWRITTEN),
    // A fault comes before the counts.
    (Job::Check, b"* 1-0", 1, b"", DIFFERS),
];

/// Runs of which each flush fails: it is told where nothing else is.
const UNFLUSHED: &[Row] = &[
    (Job::Export, TWO, 1, BOTH, UNWRITTEN),
    (Job::List, TWO, 1, BOTH_LINES, UNWRITTEN),
    (Job::List, b"* 1-0", 1, FIRST_LINE, DIFFERS),
    (Job::Check, TWO, 1, COUNTS, UNWRITTEN),
    (Job::Export, b"* 1-0", 1, UNKNOWN, DIFFERS),
    (Job::Check, b"* 1-0", 1, b"", DIFFERS),
];

/// Runs that can tell nothing: the status stays.
const SILENT: &[Row] = &[
    (Job::Export, TWO, 0, BOTH, b""),
    (Job::List, TWO, 0, BOTH_LINES, b""),
    (Job::List, b"* 1-0", 1, FIRST_LINE, b""),
    (Job::Check, TWO, 0, COUNTS, b""),
    (Job::Export, b"* 1-0", 1, UNKNOWN, b""),
    (Job::Check, b"* 1-0", 1, b"", b""),
];

fn unwritable() -> &'static [Row] {
    UNWRITABLE
}

fn unflushed() -> &'static [Row] {
    UNFLUSHED
}

fn silent() -> &'static [Row] {
    SILENT
}

#[test]
fn ends_at_the_first_device_that_fails(rt: HostRuntime) {
    leave_all(&rt, Writing::Buffered, rt.alloc(), unwritable(), NO_WRITE);
    leave_all(&rt, Writing::Buffered, rt.alloc(), unflushed(), NO_FLUSH);
    leave_all(&rt, Writing::Buffered, rt.alloc(), silent(), NO_REPORT);
}

fn first() -> &'static [u8] {
    FIRST
}

// Whether the text is in the buffer once it was written.
fn fills(out: &mut StandardOutput<Page>, text: &[u8]) -> bool {
    out.reserve().is_ok() && write_all(out, text).is_ok() && out.buffer.len() == text.len()
}

// Whether a flush leaves nothing in the buffer.
fn empties(out: &mut StandardOutput<Page>) -> bool {
    out.flush().is_ok() && out.buffer.is_empty()
}

// Runs the task on `TWO`, by the program's buffer.
fn run_reserved(rt: &impl Abort, alloc: Global, job: Job) -> Ran {
    let mut out = StandardOutput::new(alloc, memory(alloc));
    let mut err = Outlet::new(memory(alloc));
    assert!(rt; out.reserve().is_ok());
    let status = run_stream(&job.task(), &mut Inlet::new(whole(TWO)), &mut out, &mut err);
    left_by(status, out, err)
}

#[test]
fn writes_a_small_text_at_once(rt: HostRuntime) {
    for job in [Job::Export, Job::Reduced, Job::Check, Job::List] {
        let ran = run_reserved(&rt, rt.alloc(), job);
        let is_one = ran.out.calls == 1 && ran.is(0, job.all(), b"");
        holds_at(&rt, is_one, &(job, ran.out.calls));
    }
}

// Writes the text of one game so many times, by the program's buffer.
fn write_times(rt: &impl Abort, alloc: Global, times: usize) -> Page {
    let mut out = StandardOutput::new(alloc, memory(alloc));
    assert!(rt; out.reserve().is_ok());
    for _ in 0..times {
        assert!(rt; write_all(&mut out, first()).is_ok());
    }
    out.outlet.into_inner()
}

// The text has 96 bytes, and 64 KiB have room for it 682 times.
#[test]
fn writes_in_blocks(rt: HostRuntime) {
    let page = write_times(&rt, rt.alloc(), 682);
    holds_at(&rt, page.calls == 0, &page.calls);
    let page = write_times(&rt, rt.alloc(), 683);
    holds_at(
        &rt,
        page.calls == 1 && page.taken.len() == 65472,
        &(page.calls, page.taken.len()),
    );
}

#[test]
fn flushes_behind_its_buffer(rt: HostRuntime) {
    let mut out = StandardOutput::new(rt.alloc(), memory(rt.alloc()));
    assert!(rt; fills(&mut out, first()));
    assert!(rt; empties(&mut out));
    let ran = left_by(0, out, Outlet::new(memory(rt.alloc())));
    holds_at(
        &rt,
        ran.has(0, first()),
        &(ran.out.flushes, ran.out.flushed),
    );
}
