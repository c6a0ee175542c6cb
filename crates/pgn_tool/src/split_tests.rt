//! Splits into files in memory, with devices that fail.
use crate::devices::{
    Page, TextReader, Trouble, failing_memory, failing_reader, holds_at, is_cut_off, memory,
    says_unread, whole,
};
use crate::files::{CreateFault, GameFiles};
use crate::folder::file_name;
use crate::split::split_to;
use pgn_game::{Inlet, Outlet};
use std::alloc::Global;
use std::io::ErrorKind;
use std::process::Abort;

const UNKNOWN: &[u8] =
    b"[Event \"?\"]\n[Site \"?\"]\n[Date \"????.??.??\"]\n[Round \"?\"]\n[White \"?\"]\n\
    [Black \"?\"]\n[Result \"*\"]\n\n*\n\n";

/// The tag section of a game without tags.
const HEAD: &[u8] =
    b"[Event \"?\"]\n[Site \"?\"]\n[Date \"????.??.??\"]\n[Round \"?\"]\n[White \"?\"]\n\
    [Black \"?\"]\n[Result \"*\"]\n\n";

const MOVES: &[u8] =
    b"[Event \"?\"]\n[Site \"?\"]\n[Date \"????.??.??\"]\n[Round \"?\"]\n[White \"?\"]\n\
    [Black \"?\"]\n[Result \"*\"]\n\n1. e4 e5 *\n\n";

/// Three games. Their first movetext tokens stand at 0, 10 and 12, their markers at 8, 10 and 20.
const THREE: &[u8] = b"1.e4 e5 * * 1.e4 e5 *";

/// The files of `THREE`.
const FULL: &[&[u8]] = &[MOVES, UNKNOWN, MOVES];

/// The texts, each behind a call of its own, so that no proof of a test sees all their bytes.
fn three() -> &'static [u8] {
    THREE
}

fn full() -> &'static [&'static [u8]] {
    FULL
}

/// Files in memory. One of the calls that make a file fails.
#[derive(Drop)]
struct Shelf {
    alloc: Global,
    pages: Vec<Page>,
    creates: usize,
    refused_at: usize,
    refusal: CreateFault,
    writes: usize,
    fails_at: usize,
    trouble: Trouble,
    most: usize,
    open: usize,
    most_open: usize,
}

impl GameFiles for Shelf {
    ghost use Rattle.std.specs.Prelude.{None};

    type Out = Outlet<Page>;

    ghost log = { λ _. None };

    fn create(&mut self, number: u64) -> Result<Outlet<Page>, CreateFault> {
        let call = self.creates;
        self.creates = call.saturating_add(1);
        if call == self.refused_at {
            return Err(self.refusal);
        }
        self.open = self.open.saturating_add(1);
        self.most_open = self.most_open.max(self.open);
        let mut page = failing_memory(self.alloc, self.fails_at, self.trouble, self.most);
        page.number = number;
        page.calls = self.writes;
        page.flush_fails = true;
        Ok(Outlet::new(page))
    }

    fn close(&mut self, out: Outlet<Page>) {
        let page = out.into_inner();
        self.open = self.open.saturating_sub(1);
        self.writes = page.calls;
        let _ = self.pages.push(page);
    }
}

fn empty_shelf(alloc: Global) -> Shelf {
    Shelf {
        alloc,
        pages: Vec::new(alloc),
        creates: 0,
        refused_at: usize::MAX,
        refusal: CreateFault::Refused,
        writes: 0,
        fails_at: usize::MAX,
        trouble: Trouble::Broken,
        most: usize::MAX,
        open: 0,
        most_open: 0,
    }
}

impl Shelf {
    /// Whether just these files were made, in order from number 1, and each was closed. None was
    /// flushed.
    fn has(&self, texts: &[&[u8]]) -> bool {
        let mut number = 0u64;
        for page in &self.pages {
            let index = number as usize;
            number = number.saturating_add(1);
            let is_next = page.number == number && page.flushes == 0;
            if !is_next || texts.get(index) != Some(&page.taken.as_slice()) {
                return false;
            }
        }
        self.pages.len() == texts.len() && self.open == 0 && self.most_open <= 1
    }
}

/// What a split left: its status and what standard error has.
#[derive(Drop)]
struct Ran {
    status: u8,
    err: Page,
}

impl Ran {
    fn is(&self, status: u8, err: &[u8]) -> bool {
        self.status == status && self.err.taken.as_slice() == err
    }
}

fn run(reader: TextReader, shelf: &mut Shelf) -> Ran {
    let mut err = Outlet::new(memory(shelf.alloc));
    let status = split_to(&mut Inlet::new(reader), shelf, &mut err);
    Ran {
        status,
        err: err.into_inner(),
    }
}

/// A text, and what a split of it leaves: the status, the files, standard error.
type Row = (&'static [u8], u8, &'static [&'static [u8]], &'static [u8]);

#[rattlefmt::skip]
const ROWS: &[Row] = &[
    (b"", 0, &[], b""),
    (b"{no game} ", 0, &[], b""),
    (b"* *", 0, &[UNKNOWN, UNKNOWN], b""),
    (b"* 1. e4", 1, &[UNKNOWN, HEAD], b"byte 7: unexpected end of input\n"),
    (b"* 1-0", 1, &[UNKNOWN], b"byte 2: result differs from the Result tag\n"),
    (THREE, 0, FULL, b""),
];

fn rows() -> &'static [Row] {
    ROWS
}

// Whether a split to this shelf leaves what the row says.
fn leaves(made: &mut Shelf, row: &Row) -> bool {
    let (text, status, files, err) = *row;
    let ran = run(whole(text), made);
    ran.is(status, err) && made.has(files)
}

#[test]
fn splits(rt: HostRuntime) {
    for row in rows() {
        let mut made = empty_shelf(rt.alloc());
        holds_at(&rt, leaves(&mut made, row), &row.0);
    }
}

// An input without games makes no file, whatever the folder is.
#[test]
fn makes_no_file_without_a_game(rt: HostRuntime) {
    let mut made = empty_shelf(rt.alloc());
    made.refused_at = 0;
    assert!(rt; leaves(&mut made, &(b"; nothing\n", 0, &[], b"")) && made.creates == 0);
}

// The fault of a file that is refused, by how many files were made before it.
fn unmade(files: usize) -> &'static [u8] {
    match files {
        0 => b"byte 0: output cannot be written\n",
        1 => b"byte 10: output cannot be written\n",
        _ => b"byte 12: output cannot be written\n",
    }
}

// Whether a split of `* *` whose second file is not made, for this reason, ends as it should.
fn stops_at_the_second(
    alloc: Global,
    refusal: CreateFault,
    status: u8,
    err: &'static [u8],
) -> bool {
    let mut made = empty_shelf(alloc);
    made.refused_at = 1;
    made.refusal = refusal;
    leaves(&mut made, &(b"* *", status, &[UNKNOWN], err))
}

#[test]
fn stops_at_the_second_file(rt: HostRuntime) {
    let refused = b"byte 2: output cannot be written\n";
    assert!(rt; stops_at_the_second(rt.alloc(), CreateFault::Refused, 1, refused));
    assert!(rt; stops_at_the_second(rt.alloc(), CreateFault::NoMemory, 3, b"out of memory\n"));
}

// What a split of `THREE` leaves, whose file is refused after so many: the status and the fault.
fn refused(refusal: CreateFault, files: usize) -> (u8, &'static [u8]) {
    match refusal {
        _ if files == 3 => (0, b""),
        CreateFault::NoMemory => (3, b"out of memory\n"),
        CreateFault::Refused => (1, unmade(files)),
    }
}

// Whether a split reports that this file is not made. Nothing is tried again.
fn reports_file(alloc: Global, refusal: CreateFault, refused_at: usize) -> bool {
    let mut made = empty_shelf(alloc);
    made.refused_at = refused_at;
    made.refusal = refusal;
    let ran = run(whole(three()), &mut made);
    let (status, err) = refused(refusal, refused_at);
    ran.is(status, err)
        && made.has(front(full(), refused_at))
        && made.creates == refused_at.saturating_add(1).min(3)
}

#[test]
fn reports_each_file_that_is_not_made(rt: HostRuntime) {
    for refused_at in 0..4usize {
        for refusal in [CreateFault::Refused, CreateFault::NoMemory] {
            let is_right = reports_file(rt.alloc(), refusal, refused_at);
            holds_at(&rt, is_right, &(refusal, refused_at));
        }
    }
}

// Of each game with moves, the tag section is written at its first token, and the rest at its
// marker.
fn place(files: usize, taken: usize) -> &'static [u8] {
    match (files, taken < HEAD.len()) {
        (0, true) => b"byte 0: output cannot be written\n",
        (0, false) => b"byte 8: output cannot be written\n",
        (1, _) => b"byte 10: output cannot be written\n",
        (_, true) => b"byte 12: output cannot be written\n",
        (_, false) => b"byte 20: output cannot be written\n",
    }
}

// Whether the page of the game behind so many has a front of its text, and no call after this one.
fn is_cut_at(page: &Page, earlier: usize, fails_at: usize) -> bool {
    match full().get(earlier) {
        Some(text) => {
            is_cut_off(page.taken.as_slice(), text) && page.calls == fails_at.saturating_add(1)
        }
        None => false,
    }
}

// Whether the split stopped at this write: the files before it are whole, and its own has a front
// of its text. Nothing is tried again.
fn stopped_at(ran: &Ran, made: &mut Shelf, fails_at: usize) -> bool {
    let earlier = made.pages.len().saturating_sub(1);
    let Some(last) = made.pages.pop() else {
        return false;
    };
    made.has(front(full(), earlier))
        && is_cut_at(&last, earlier, fails_at)
        && ran.is(1, place(earlier, last.taken.len()))
}

// How many writes, of so many bytes at most, were met with a failure that was reported; none where
// one was not.
fn reported_writes(alloc: Global, trouble: Trouble, most: usize) -> Option<usize> {
    for fails_at in 0..1000usize {
        let mut made = empty_shelf(alloc);
        made.fails_at = fails_at;
        made.trouble = trouble;
        made.most = most;
        let ran = run(whole(three()), &mut made);
        if made.writes <= fails_at {
            let is_whole = ran.is(0, b"") && made.has(full());
            return if is_whole { Some(fails_at) } else { None };
        }
        if !stopped_at(&ran, &mut made, fails_at) {
            return None;
        }
    }
    None
}

// Whether each write that fails is reported, of a byte at most and of any length.
fn reports_writes(alloc: Global, trouble: Trouble) -> bool {
    let bytes = MOVES.len().saturating_mul(2).saturating_add(UNKNOWN.len());
    // A write for each line, and the empty lines
    let lines = 30;
    reported_writes(alloc, trouble, 1) == Some(bytes)
        && reported_writes(alloc, trouble, usize::MAX) == Some(lines)
}

#[test]
fn reports_each_write_that_fails(rt: HostRuntime) {
    for trouble in [Trouble::Broken, Trouble::Interrupted, Trouble::TakesNone] {
        holds_at(&rt, reports_writes(rt.alloc(), trouble), &trouble);
    }
}

#[test]
fn writes_a_byte_at_a_time(rt: HostRuntime) {
    let mut made = empty_shelf(rt.alloc());
    made.most = 1;
    assert!(rt; leaves(&mut made, &(three(), 0, full(), b"")));
}

// The first texts.
fn front<'a>(texts: &'a [&'a [u8]], count: usize) -> &'a [&'a [u8]] {
    let count = count.min(texts.len());
    &texts[..count]
}

// How many games are whole when so many bytes were read.
fn whole_games(bytes: usize) -> usize {
    match bytes {
        0..9 => 0,
        9..11 => 1,
        11..21 => 2,
        _ => 3,
    }
}

// Takes the page of a game that was cut off, and returns whether it has a tag section alone.
fn drops_head(made: &mut Shelf) -> bool {
    match made.pages.pop() {
        Some(page) => page.taken.as_slice() == HEAD,
        None => false,
    }
}

// Whether a split of which this read failed says so, and has made the files of the whole games.
fn ends_at_read(ran: &Ran, made: &Shelf, fails_at: usize) -> bool {
    made.has(front(full(), whole_games(fails_at)))
        && ran.status == 1
        && says_unread(&ran.err, fails_at)
}

// Read a byte at a time: the marker at byte 8 is read before byte 9, that at 10 before 11, and
// the tag section at 12 when the number before the period has ended.
fn ends_at(ran: &Ran, made: &mut Shelf, fails_at: usize) -> bool {
    match fails_at {
        22 => ran.is(0, b"") && made.has(full()),
        2..=8 | 14..=20 => drops_head(made) && ends_at_read(ran, made, fails_at),
        _ => ends_at_read(ran, made, fails_at),
    }
}

fn reports_read(alloc: Global, error: ErrorKind, fails_at: usize) -> bool {
    let failing = failing_reader(three(), fails_at, error, 1);
    let mut made = empty_shelf(alloc);
    let ran = run(failing, &mut made);
    ends_at(&ran, &mut made, fails_at)
}

#[test]
fn reports_each_read_that_fails(rt: HostRuntime) {
    for error in [ErrorKind::BrokenPipe, ErrorKind::Interrupted] {
        for fails_at in 0..23usize {
            let is_right = reports_read(rt.alloc(), error, fails_at);
            holds_at(&rt, is_right, &(error, fails_at));
        }
    }
}

const NAMES: &[(u64, &str)] = &[
    (1, "000001.pgn"),
    (42, "000042.pgn"),
    (99_999, "099999.pgn"),
    (999_999, "999999.pgn"),
    (1_000_000, "1000000.pgn"),
    (u64::MAX, "18446744073709551615.pgn"),
];

fn is_named(rt: &impl Abort, number: u64, name: &str) {
    let made = file_name(number);
    let made = made.as_str();
    holds_at(rt, made == name, &(number, made));
}

#[test]
fn names_files(rt: HostRuntime) {
    for &(number, name) in NAMES {
        is_named(&rt, number, name);
    }
}
