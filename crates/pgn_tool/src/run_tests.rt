//! Runs of the program on a machine in memory.
ghost use Rattle.std.specs.Prelude.{◌≡◌};

use crate::devices::{Page, TextReader, holds_at, memory, whole};
use crate::files::{CreateFault, GameFiles};
use crate::machine::{Devices, GameFolder, Input, Output, SystemFault};
use crate::memory_tests::owned_words;
use crate::run::run;
use crate::stream_tests::{UNKNOWN, WON};
use pgn_game::{Inlet, Outlet, ReadFailed, Sink, Source, WriteFault};
use std::alloc::{AllocError, Global};
use std::process::Abort;

const COUNTED: &[u8] = b"games: 2, plies: 0\n";

const NOT_LEGAL: &[u8] = b"byte 14: move is not legal\n";

const UNREAD: &[u8] = b"byte 0: input cannot be read\n";

const UNWRITTEN: &[u8] = b"byte 0: output cannot be written\n";

const DIFFERS: &[u8] = b"byte 0: second reading differs\n";

const SHORT: &[u8] = b"out of memory\n";

/// Standard input, which has one game, and files by name. Some can be opened once only.
#[derive(Drop)]
struct Desk {
    inlet: Inlet<TextReader>,
    is_second: bool,
}

fn new_desk(is_second: bool) -> Desk {
    Desk {
        inlet: Inlet::new(whole(b"*")),
        is_second,
    }
}

/// The text of the file with this name.
fn file_named(name: &str, is_second: bool) -> Result<&'static [u8], SystemFault> {
    match name {
        "two.pgn" => Ok(b"* *"),
        "bad.pgn" => Ok(b"* 1. e4 e5 2. Ke3 *"),
        "won.pgn" => Ok(b"1-0"),
        "other.pgn" => Ok(if is_second { b"0-1" } else { b"1-0" }),
        "once.pgn" if !is_second => Ok(b"1-0"),
        "tight.pgn" if !is_second => Ok(b"1-0"),
        "short" | "tight.pgn" => Err(SystemFault::NoMemory),
        _ => Err(SystemFault::Refused),
    }
}

impl Source for Desk {
    ghost use Rattle.std.specs.Prelude.{None};

    ghost left = { λ _. None };

    ghost failures = { λ s. s.inlet.failures };

    fn read_some(&mut self, buffer: &mut [u8]) -> Result<usize, ReadFailed> {
        self.inlet.read_some(buffer)
    }
}

impl Input for Desk {
    ghost use Rattle.std.specs.Prelude.{None, true};
    ghost use Rattle.pgn_tool.specs.Machine.{holds};

    ghost holding = { λ _ _. holds None };

    ghost refuses = { λ _ _ _. true };

    fn open(&mut self, name: &str) -> Result<(), SystemFault> {
        let text = file_named(name, self.is_second)?;
        self.inlet = Inlet::new(whole(text));
        Ok(())
    }
}

/// Standard output in memory, with a buffer if there is memory for it.
#[derive(Drop)]
struct Screen {
    outlet: Outlet<Page>,
    buffers: usize,
    has_memory: bool,
    lacks_memory: bool,
}

impl Sink for Screen {
    ghost use Rattle.std.specs.Prelude.{[], None, Some};

    ghost taken = { λ _. None };

    ghost failures = { λ s. s.outlet.failures };

    ghost unflushed = { λ _. Some [] };

    fn write_some(&mut self, bytes: &[u8]) -> Result<usize, WriteFault> {
        self.outlet.write_some(bytes)
    }

    fn flush(&mut self) -> Result<(), WriteFault> {
        self.outlet.flush()
    }
}

impl Output for Screen {
    ghost use Rattle.std.specs.Prelude.{refl};

    ghost lacks_memory = { λ s. s.lacks_memory };

    ghost reports = { λ _. refl };

    fn reserve(&mut self) -> Result<(), AllocError> {
        self.buffers = self.buffers.saturating_add(1);
        self.lacks_memory = !self.has_memory;
        if self.has_memory {
            Ok(())
        } else {
            Err(AllocError)
        }
    }
}

/// Folders, of which `games` is the one that is there. There is no memory to open files in `short`.
#[derive(Drop)]
struct Drawers {
    alloc: Global,
    path: String,
    files: usize,
}

impl GameFiles for Drawers {
    ghost use Rattle.std.specs.Prelude.{None};

    type Out = Outlet<Page>;

    ghost log = { λ _. None };

    fn create(&mut self, _number: u64) -> Result<Outlet<Page>, CreateFault> {
        match self.path.as_str() {
            "games" => {
                self.files = self.files.saturating_add(1);
                Ok(Outlet::new(memory(self.alloc)))
            }
            "short" => Err(CreateFault::NoMemory),
            _ => Err(CreateFault::Refused),
        }
    }

    fn close(&mut self, _out: Outlet<Page>) {}
}

impl GameFolder for Drawers {
    fn enter(&mut self, path: String) {
        self.path = path;
    }
}

/// What a run left.
#[derive(Drop)]
struct Ran {
    status: u8,
    out: Page,
    buffers: usize,
    files: usize,
    err: Page,
}

impl Ran {
    fn is(&self, status: u8, out: &[u8], files: usize, err: &[u8]) -> bool {
        self.status == status
            && self.out.taken.as_slice() == out
            && self.files == files
            && self.err.taken.as_slice() == err
    }
}

fn run_words(alloc: Global, words: Result<Vec<String>, SystemFault>, has_memory: bool) -> Ran {
    let mut devices = Devices {
        input: new_desk(false),
        second: new_desk(true),
        out: Screen {
            outlet: Outlet::new(memory(alloc)),
            buffers: 0,
            has_memory,
            lacks_memory: false,
        },
        files: Drawers {
            alloc,
            path: String::new(alloc),
            files: 0,
        },
        err: Outlet::new(memory(alloc)),
    };
    let status = run(alloc, words, &mut devices);
    let Devices {
        out,
        files,
        err,
        ..
    } = devices;
    Ran {
        status,
        out: out.outlet.into_inner(),
        buffers: out.buffers,
        files: files.files,
        err: err.into_inner(),
    }
}

fn call(alloc: Global, words: &[&str], has_memory: bool) -> Result<Ran, AllocError> {
    let owned = owned_words(alloc, words)?;
    Ok(run_words(alloc, Ok(owned), has_memory))
}

/// Words after the program's name, the status, standard output, how many files, standard error.
#[rattlefmt::skip]
type Row = (&'static [&'static str], u8, &'static [u8], usize, &'static [u8]);

/// With memory for the buffer.
const ROWS: &[Row] = &[
    (&["p", "check"], 0, b"games: 1, plies: 0\n", 0, b""),
    (&["p", "check", "two.pgn"], 0, COUNTED, 0, b""),
    (&["p", "check", "bad.pgn"], 1, b"", 0, NOT_LEGAL),
    (&["p", "check", "none.pgn"], 1, b"", 0, UNREAD),
    (&["p", "list", "none.pgn"], 1, b"", 0, UNREAD),
    (&["p", "export", "none.pgn"], 1, b"", 0, UNREAD),
    (&["p", "export", "short"], 3, b"", 0, SHORT),
    (&["p", "split", "games"], 0, b"", 1, b""),
    (&["p", "split", "games", "two.pgn"], 0, b"", 2, b""),
    (&["p", "split", "games", "none.pgn"], 1, b"", 0, UNREAD),
    (&["p", "split", "games", "short"], 3, b"", 0, SHORT),
    (&["p", "split", "other"], 1, b"", 0, UNWRITTEN),
    (&["p", "split", "short"], 3, b"", 0, SHORT),
    (&["p", "--version"], 0, b"pgn_tool 0.1.0\n", 0, b""),
];

#[rattlefmt::skip]
const CHECKED: &[Row] = &[
    (&["p", "export", "--checked", "won.pgn"], 0, WON, 0, b""),
    (&["p", "export", "--checked", "bad.pgn"], 1, UNKNOWN, 0, NOT_LEGAL),
    (&["p", "export", "--checked", "other.pgn"], 1, b"", 0, DIFFERS),
    (&["p", "export", "--checked", "none.pgn"], 1, b"", 0, UNREAD),
    (&["p", "export", "--checked", "once.pgn"], 1, b"", 0, UNREAD),
    (&["p", "export", "--checked", "short"], 3, b"", 0, SHORT),
    (&["p", "export", "--checked", "tight.pgn"], 3, b"", 0, SHORT),
    (&["p", "export", "--checked"], 2, b"", 0, b"--checked needs FILE\n"),
];

/// Without memory for the buffer, which only standard output has, where a task writes to it.
const SHORTS: &[Row] = &[
    (&["p", "export"], 3, b"", 0, SHORT),
    (&["p", "check", "two.pgn"], 3, b"", 0, SHORT),
    (&["p", "list", "bad.pgn"], 3, b"", 0, SHORT),
    (&["p", "list", "none.pgn"], 1, b"", 0, UNREAD),
    (&["p", "export", "--checked", "won.pgn"], 3, b"", 0, SHORT),
    (&["p", "export", "--checked", "once.pgn"], 1, b"", 0, UNREAD),
    (&["p", "split", "games", "two.pgn"], 0, b"", 2, b""),
    (&["p", "--version"], 0, b"pgn_tool 0.1.0\n", 0, b""),
];

/// The rows, each behind a call of its own, so that no proof of a loop sees all their bytes.
fn rows() -> &'static [Row] {
    ROWS
}

fn checked() -> &'static [Row] {
    CHECKED
}

fn shorts() -> &'static [Row] {
    SHORTS
}

/// Whether a run leaves what the row says.
fn leaves(alloc: Global, row: &Row, has_memory: bool) -> Result<bool, AllocError> {
    let (words, status, out, files, err) = *row;
    let ran = call(alloc, words, has_memory)?;
    Ok(ran.is(status, out, files, err) && ran.buffers <= 1)
}

fn leave_all(rt: &impl Abort, alloc: Global, rows: &[Row], has_memory: bool) {
    for row in rows {
        let is_right = matches!(leaves(alloc, row, has_memory), Ok(true));
        holds_at(rt, is_right, &(row.0, has_memory));
    }
}

#[test]
fn reads_the_file_or_standard_input(rt: HostRuntime) {
    leave_all(&rt, rt.alloc(), rows(), true);
    leave_all(&rt, rt.alloc(), checked(), true);
    leave_all(&rt, rt.alloc(), shorts(), false);
}

// Whether a run without words ends in this way.
fn ends(alloc: Global, fault: SystemFault, status: u8, err: &[u8]) -> bool {
    run_words(alloc, Err(fault), true).is(status, b"", 0, err)
}

// Whether a run is refused: standard error begins with `error: `.
fn is_refused(ran: &Ran) -> bool {
    let told = ran.err.taken.as_slice();
    told.starts_with(b"error: ") && ran.is(2, b"", 0, told) && ran.buffers == 0
}

// Whether these words are refused.
fn refuses(alloc: Global, words: &[&str]) -> bool {
    match call(alloc, words, true) {
        Ok(ran) => is_refused(&ran),
        Err(AllocError) => false,
    }
}

#[test]
fn refuses_words(rt: HostRuntime) {
    let unread = b"arguments cannot be read\n";
    assert!(rt; ends(rt.alloc(), SystemFault::Refused, 2, unread));
    assert!(rt; ends(rt.alloc(), SystemFault::NoMemory, 3, SHORT));
    assert!(rt; refuses(rt.alloc(), &["p", "convert"]));
}
