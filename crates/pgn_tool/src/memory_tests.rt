//! Whole runs of the program on a machine in memory, which reports its bytes and its files to the
//! prover: so the clauses about bytes say something of them.
ghost use Rattle.std.specs.Prelude.{◌≡◌, ℕ, ◌-◌, ◌^◌, ◌<◌, ◌≤◌, List, [], ◌∷◌, ◌++◌, Some, IfOk, length, string_bytes};
ghost use Rattle.std.specs.Io.KnownBytes.{Appends};
ghost use Rattle.pgn_game.specs.declared.mode.Mode.TheVariants.{Full};
ghost use Rattle.pgn_game.specs.public.ConverterCalls.{profile_of};
ghost use Rattle.pgn_game.specs.games.Progress.{output};
ghost use Rattle.pgn_lexer.specs.TokensOf.{tokens_of};
ghost use Rattle.pgn_tool.specs.Files.{whole_files};
ghost use Rattle.pgn_tool.specs.Machine.{holds};
ghost use Rattle.pgn_tool.specs.SplitGames.{Logs, texts_in};

use crate::devices::holds_at;
use crate::file_system::FileSystem;
use crate::files::GameFiles;
use crate::folder::Folder;
use crate::machine::{Devices, GameFolder, Input, Output, SystemFault};
use crate::run::{run, run_task};
use crate::split::split_to;
use crate::standard::{StandardInput, StandardOutput};
use crate::stream_tests::{UNKNOWN, WON};
use pgn_arguments::Task;
use pgn_game::{Inlet, Outlet, Sink, WriteFault};
use std::alloc::{AllocError, Global};
use std::collections::VecDeque;
use std::io::Write;
use std::process::Abort;
use std::test::Fail;

/// What was done with a file that is written.
#[derive(Drop)]
pub enum FileEvent {
    Entered(String),
    Made(String),
    Closed(Vec<u8>),
}

/// A file that is written. Without memory for it the test ends, so no write fails.
#[derive(Drop)]
pub struct Paper<A> {
    rt: A,
    text: Vec<u8>,
}

impl<A: Abort + Copy + Drop> Sink for Paper<A> {
    ghost use Rattle.std.specs.Prelude.{Some};

    ghost taken = { λ p. Some p.text.items };

    ghost failures = { λ _. 0 };

    fn write_some(&mut self, bytes: &[u8]) -> Result<usize, WriteFault> {
        let kept = self.text.extend_from_slice(bytes);
        assert!(self.rt; kept.is_ok());
        Ok(bytes.len())
    }

    fn flush(&mut self) -> Result<(), WriteFault> {
        Ok(())
    }
}

/// A file system with one file to read, which makes each file.
#[derive(Drop)]
pub struct Memory<A> {
    rt: A,
    alloc: Global,
    name: &'static str,
    text: &'static [u8],
    steps: Vec<FileEvent>,
}

impl<A: Abort + Copy + Drop> Memory<A> {
    /// A file system whose file `games.pgn` has this text.
    fn new(rt: A, alloc: Global, text: &'static [u8]) -> Memory<A> {
        Memory {
            rt,
            alloc,
            name: "games.pgn",
            text,
            steps: Vec::new(alloc),
        }
    }

    // Without memory for it the test ends.
    fn note(&mut self, step: FileEvent)
        ensures { self.new.steps.items ≡ self.old.steps.items ++ step ∷ [] }
    {
        let kept = self.steps.push(step);
        assert!(self.rt; kept.is_ok());
    }

    fn copy_of(&self, name: &str) -> String
        ensures { string_bytes result ≡ name.now }
    {
        let copy = String::from_str(self.alloc, name);
        assert!(self.rt; copy.is_ok());
        copy.unwrap()
    }
}

impl<A: Abort + Copy + Drop> FileSystem for Memory<A> {
    ghost use Rattle.std.specs.Prelude.{◌≡◌, Some, Ok, map, bytes_eq, not, if◌then◌else◌, string_bytes};
    ghost use Rattle.pgn_tool.specs.declared.memory_tests.FileEvent.TheVariants.{Entered, Made, Closed};
    ghost use Rattle.pgn_tool.specs.Machine.{holds, missing};
    ghost use Rattle.pgn_tool.specs.Files.{entered, closed};
    ghost use Rattle.pgn_tool.specs.FileSystem.{making, other};

    type File = VecDeque<u8>;

    type Out = Paper<A>;

    ghost holding = { λ m path.
        if bytes_eq path m.name.now then holds (Some m.text.now) else missing };

    ghost refuses = { λ m path _. not (bytes_eq path m.name.now) };

    ghost log = { λ m. Some (map (elim [
      | Entered folder ↦ other (entered (string_bytes folder))
      | Made name ↦ making (string_bytes name) (Ok tt)
      | Closed text ↦ other (closed (Some text.items) 0)
    ]) m.steps.items) };

    fn open(&self, path: &str) -> Result<VecDeque<u8>, SystemFault> {
        if path != self.name {
            return Err(SystemFault::Refused);
        }
        let mut file = VecDeque::new(self.alloc);
        let kept = file.write_all(self.text);
        assert!(self.rt; kept.is_ok());
        Ok(file)
    }

    fn enter(&mut self, folder: String) {
        self.note(FileEvent::Entered(folder));
    }

    fn create(&mut self, name: &str) -> Result<Paper<A>, SystemFault> {
        let copy = self.copy_of(name);
        self.note(FileEvent::Made(copy));
        Ok(Paper {
            rt: self.rt,
            text: Vec::new(self.alloc),
        })
    }

    fn close(&mut self, out: Paper<A>) {
        self.note(FileEvent::Closed(out.text));
    }
}

/// A machine in memory, with this file system.
type Machine<S> = Devices<
    StandardInput<S, VecDeque<u8>>,
    StandardOutput<Vec<u8>>,
    Folder<S>,
    Outlet<Vec<u8>>,
>;

/// What a run left.
#[derive(Drop)]
struct Ran {
    status: u8,
    out: Vec<u8>,
    steps: Vec<FileEvent>,
    err: Vec<u8>,
}

/// What is run on a machine: the program with these words, or the two calls below.
#[derive(Drop)]
enum Errand {
    Words(Vec<String>),
    ExportAndSplit(String),
}

/// A run where `games.pgn` has the text and standard input is empty.
fn run_errand<A: Abort + Copy + Drop>(
    rt: A,
    alloc: Global,
    errand: Errand,
    text: &'static [u8],
) -> Ran {
    let mut machine = machine_of(rt, alloc, text);
    let status = carry_out(alloc, errand, &mut machine);
    left_by(status, machine)
}

/// A run of the program with these words.
fn run_words<A: Abort + Copy + Drop>(
    rt: A,
    alloc: Global,
    words: &[&str],
    text: &'static [u8],
) -> Result<Ran, AllocError> {
    let owned = owned_words(alloc, words)?;
    Ok(run_errand(rt, alloc, Errand::Words(owned), text))
}

pub fn owned_words(alloc: Global, words: &[&str]) -> Result<Vec<String>, AllocError> {
    let mut owned = Vec::new(alloc);
    for word in words {
        owned.push(String::from_str(alloc, word)?)?;
    }
    Ok(owned)
}

/// Carries out the errand, and returns the status: of an export and a split 0 if both have it.
fn carry_out<I: Input, O: Output, F: GameFolder, E: Sink>(
    alloc: Global,
    errand: Errand,
    devices: &mut Devices<I, O, F, E>,
) -> u8
    requires { O.failures devices.old.out < 2 ^ 64 - 1 }
{
    match errand {
        Errand::Words(words) => run(alloc, Ok(words), devices),
        Errand::ExportAndSplit(name) => {
            let exported = export_named(name, devices);
            exported | split_text(two(), &mut devices.files, &mut devices.err)
        }
    }
}

/// What a run with this status left.
fn left_by<A: Abort + Copy + Drop>(status: u8, machine: Machine<Memory<A>>) -> Ran {
    let Devices {
        out,
        files,
        err,
        ..
    } = machine;
    let Memory { steps, .. } = files.system;
    Ran {
        status,
        out: out.outlet.into_inner(),
        steps,
        err: err.into_inner(),
    }
}

/// A machine where `games.pgn` has this text and standard input is empty.
fn machine_of<A: Abort + Copy + Drop>(
    rt: A,
    alloc: Global,
    text: &'static [u8],
) -> Machine<Memory<A>>
    ensures fresh { result.out.outlet.failures ≡ 0 }
{
    let input = Memory::new(rt, alloc, text);
    let second = Memory::new(rt, alloc, text);
    let system = Memory::new(rt, alloc, text);
    Devices {
        input: StandardInput::new(input, VecDeque::new(alloc)),
        second: StandardInput::new(second, VecDeque::new(alloc)),
        out: StandardOutput::new(alloc, Vec::new(alloc)),
        files: Folder { system },
        err: Outlet::new(Vec::new(alloc)),
    }
}

impl Ran {
    fn is(&self, status: u8, out: &[u8], err: &[u8]) -> bool {
        self.status == status && self.out.as_slice() == out && self.err.as_slice() == err
    }
}

/// Whether these files were made in this folder, each closed before the next.
fn made(steps: &[FileEvent], folder: &str, files: &[(&str, &[u8])]) -> bool {
    let mut index = 1usize;
    for file in files {
        if !has_file(steps.get(index..).unwrap_or_default(), file) {
            return false;
        }
        index = index.saturating_add(2);
    }
    has_entered(steps.first(), folder) && steps.len() == index
}

/// Whether the first step is to enter this folder.
fn has_entered(step: Option<&FileEvent>, folder: &str) -> bool {
    matches!(step, Some(FileEvent::Entered(path)) if path.as_str() == folder)
}

/// Whether the first steps are to make this file and to close it.
fn has_file(steps: &[FileEvent], file: &(&str, &[u8])) -> bool {
    matches!(
        steps,
        [FileEvent::Made(name), FileEvent::Closed(text), ..]
            if name.as_str() == file.0 && text.as_slice() == file.1
    )
}

/// Two games, of 30 bytes. The second one has White, so its tag section is not all unknown.
const TWO: &[u8] = b"* [White \"A\"] 1. e4 (1. d4) *";

const SECOND: &[u8] =
    b"[Event \"?\"]\n[Site \"?\"]\n[Date \"????.??.??\"]\n[Round \"?\"]\n[White \"A\"]\n\
    [Black \"?\"]\n[Result \"*\"]\n\n1. e4 ( 1. d4 ) *\n\n";

/// The export text of `TWO`.
const BOTH: &[u8] =
    b"[Event \"?\"]\n[Site \"?\"]\n[Date \"????.??.??\"]\n[Round \"?\"]\n[White \"?\"]\n\
    [Black \"?\"]\n[Result \"*\"]\n\n*\n\n[Event \"?\"]\n[Site \"?\"]\n[Date \"????.??.??\"]\n\
    [Round \"?\"]\n[White \"A\"]\n[Black \"?\"]\n[Result \"*\"]\n\n1. e4 ( 1. d4 ) *\n\n";

const BOTH_REDUCED: &[u8] =
    b"[Event \"?\"]\n[Site \"?\"]\n[Date \"????.??.??\"]\n[Round \"?\"]\n[White \"?\"]\n\
    [Black \"?\"]\n[Result \"*\"]\n\n*\n\n[Event \"?\"]\n[Site \"?\"]\n[Date \"????.??.??\"]\n\
    [Round \"?\"]\n[White \"A\"]\n[Black \"?\"]\n[Result \"*\"]\n\n1. e4 *\n\n";

const LINES: &[u8] = b"1\t?\t?\t*\t0\trnbqkbnr/pppppppp/8/8/8/8/PPPPPPPP/RNBQKBNR w KQkq - 0 1\n\
    2\tA\t?\t*\t1\trnbqkbnr/pppppppp/8/8/4P3/8/PPPP1PPP/RNBQKBNR b KQkq e3 0 1\n";

/// Words, the text of `games.pgn`, and what the run of them writes to standard output.
type Row = (&'static [&'static str], &'static [u8], &'static [u8]);

#[rattlefmt::skip]
const ROWS: &[Row] = &[
    (&["p", "export", "games.pgn"], TWO, BOTH),
    (&["p", "export", "--reduced", "games.pgn"], TWO, BOTH_REDUCED),
    (&["p", "export", "--checked", "games.pgn"], b"1-0", WON),
    (&["p", "check", "games.pgn"], TWO, b"games: 2, plies: 1\n"),
    (&["p", "list", "games.pgn"], TWO, LINES),
    (&["p", "split", "one", "games.pgn"], TWO, b""),
];

/// The files of `TWO`.
const FILES: &[(&str, &[u8])] = &[("000001.pgn", UNKNOWN), ("000002.pgn", SECOND)];

/// The texts, each behind a call of its own, so that no proof of a test sees all their bytes.
fn rows() -> &'static [Row] {
    ROWS
}

fn two() -> &'static [u8] {
    TWO
}

fn both() -> &'static [u8] {
    BOTH
}

fn files() -> &'static [(&'static str, &'static [u8])] {
    FILES
}

/// Whether a run leaves what the row says.
fn leaves<A: Abort + Copy + Drop>(rt: A, alloc: Global, row: &Row) -> bool {
    let (words, text, out) = *row;
    match run_words(rt, alloc, words, text) {
        Ok(ran) => ran.is(0, out, b""),
        Err(AllocError) => false,
    }
}

#[test]
fn carries_out_each_task(rt: HostRuntime) {
    for row in rows() {
        holds_at(&rt, leaves(rt, rt.alloc(), row), &row.0);
    }
}

#[test]
fn splits_into_files_of_a_folder(rt: HostRuntime) -> Result<(), Fail> {
    let ran = run_words(rt, rt.alloc(), &["p", "split", "one", "games.pgn"], two())?;
    assert!(rt; made(ran.steps.as_slice(), "one", files()));
    Ok(())
}

/// Exports the file of this name. If the status is 0, the export text of the file was written.
fn export_named<I: Input, O: Output, F: GameFolder, E: Sink>(
    name: String,
    devices: &mut Devices<I, O, F, E>,
) -> u8
    requires { O.failures devices.old.out < 2 ^ 64 - 1 }
    ensures { result ≡ 0 → (text : List ℕ)
        → I.holding devices.old.input (string_bytes name) ≡ holds (Some text)
        → length text ≤ 2 ^ 62 → Appends (O.taken devices.old.out) (O.taken devices.new.out)
        (output (profile_of 64 32 Full) text) }
{
    let task = Task::Export {
        reduced: false,
        file: Some(name),
    };
    run_task(task, devices)
}

/// Splits a text. If the status is 0, each of its games has a file, with its export text.
fn split_text<F: GameFiles, E: Sink>(text: &[u8], files: &mut F, err: &mut E) -> u8
    ensures { result ≡ 0 → Logs (F.log files.old) (F.log files.new)
        (whole_files 0 (texts_in (tokens_of text.now))) }
{
    split_to(&mut Inlet::new(text), files, err)
}

#[test]
fn meets_the_clauses_about_bytes(rt: HostRuntime) -> Result<(), Fail> {
    let name = String::from_str(rt.alloc(), "games.pgn")?;
    let ran = run_errand(rt, rt.alloc(), Errand::ExportAndSplit(name), two());
    assert!(rt; ran.is(0, both(), b"") && ran.steps.len() == 4);
    Ok(())
}
