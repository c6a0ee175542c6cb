//! A run of the program, on whatever machine.
ghost use Rattle.std.specs.Prelude.{◌≡◌, ℕ, ◌≤◌, false, true, List, Some};
ghost use Rattle.pgn_layout.specs.Device.{device};
ghost use Rattle.pgn_arguments.specs.Requests.{file_of, request_of};
ghost use Rattle.pgn_tool.specs.Machine.{missing};
ghost use Rattle.pgn_tool.specs.Devices.{machine, outputs};
ghost use Rattle.pgn_tool.specs.TaskRun.{is_for_stream};
ghost use Rattle.pgn_tool.specs.CheckedRun.{checked_mode, is_checked};
ghost use Rattle.pgn_tool.specs.Program.{Carries, EndsFlushed, EndsUnopened, IsMissing, Ran, RunsAnswer, RunsOnBoth};
ghost use Rattle.pgn_tool.specs.Program.{RunsOnInput, RunsPart, StartsFrom, makes_files};

use crate::checked::run_checked;
use crate::machine::{Devices, GameFolder, Input, Output, SystemFault};
use crate::replies::{answer_fault, out_of_memory, refuse_words};
use crate::split::split_to;
use crate::stream::{refuse, run_stream};
use pgn_arguments::{ParseFault, Task, parse};
use pgn_game::{Fault, Reason, Sink};
use std::alloc::{AllocError, Global};

/// The fault of a file that cannot be opened.
const UNREADABLE: Fault = Fault {
    at: 0,
    reason: Reason::ReadFault,
};

/// Carries out what the words ask for, and returns the exit status.
///
/// The first word is the program's name. First the words are parsed, then the file that they name
/// is opened, then the task is carried out: on standard input where no file is named.
///
/// `export --checked` opens its file once more, in `second`. No other task touches that.
///
/// - 0: there was no fault, or help or the version was shown.
/// - 1: there was a fault, or an output could not be written. A file that cannot be opened is a
///   fault: `byte 0: input cannot be read`.
/// - 2: the words cannot be read, or are a mistake.
/// - 3: there was no memory.
///
/// `err` has the reason, unless the status is 0.
pub fn run<I: Input, O: Output, F: GameFolder, E: Sink>(
    alloc: Global,
    words: Result<Vec<String>, SystemFault>,
    devices: &mut Devices<I, O, F, E>,
) -> u8
    ensures status { result ≤ 3 }
    ensures ran { Ran words (machine I.Source I.Input.own O.Sink O.Output.own
        F.GameFiles E.Sink devices.old devices.new) result }
    ensures flushed { EndsFlushed (outputs O.Sink O.Output.own
        F.GameFiles E.Sink devices.old devices.new) result }
{
    match words {
        Ok(words) => {
            let answer = parse(alloc, words.as_slice());
            run_answer(answer, devices)
        }
        Err(SystemFault::Refused) => refuse_words(&mut devices.err),
        Err(SystemFault::NoMemory) => out_of_memory(&mut devices.err),
    }
}

// Carries out the task, or reports why there is none.
fn run_answer<I: Input, O: Output, F: GameFolder, E: Sink>(
    answer: Result<Task, ParseFault>,
    devices: &mut Devices<I, O, F, E>,
) -> u8
    ensures { RunsPart (RunsAnswer answer) (machine I.Source I.Input.own O.Sink O.Output.own
        F.GameFiles E.Sink devices.old devices.new) result }
{
    match answer {
        Ok(task) => run_task(task, devices),
        Err(fault) => answer_fault(&fault, &mut devices.out, &mut devices.err),
    }
}

/// Opens the file of the task, carries the task out, and returns the exit status.
pub fn run_task<I: Input, O: Output, F: GameFolder, E: Sink>(
    task: Task,
    devices: &mut Devices<I, O, F, E>,
) -> u8
    ensures carries { RunsPart (Carries task) (machine I.Source I.Input.own O.Sink O.Output.own
        F.GameFiles E.Sink devices.old devices.new) result }
    ensures missing { (name : List ℕ) → file_of (request_of task) ≡ Some name
        → I.holding devices.old.input name ≡ missing
        → IsMissing (outputs O.Sink O.Output.own
        F.GameFiles E.Sink devices.old devices.new) result }
{
    match open_file(&task, &mut devices.input) {
        Ok(()) => run_opened(task, devices),
        Err(fault) => refuse_file(fault, &mut devices.err),
    }
}

// Reports why the file is not opened.
fn refuse_file<E: Sink>(fault: SystemFault, err: &mut E) -> u8
    ensures status { result ≤ 3 }
    ensures ends { EndsUnopened fault (device E.taken E.failures err.old err.new) result }
{
    match fault {
        SystemFault::Refused => refuse(UNREADABLE, err),
        SystemFault::NoMemory => out_of_memory(err),
    }
}

// Opens the file of the task. Where it names none, standard input is read.
fn open_file<I: Input>(task: &Task, input: &mut I) -> Result<(), SystemFault>
    ensures { StartsFrom (file_of (request_of task.now)) (I.holding input.old)
        (I.refuses input.old) (device I.left I.failures input.old input.new) result }
{
    match task.file() {
        Some(name) => input.open(name),
        None => Ok(()),
    }
}

// Carries out the task on what was opened: to files, or to standard output.
fn run_opened<I: Input, O: Output, F: GameFolder, E: Sink>(
    task: Task,
    devices: &mut Devices<I, O, F, E>,
) -> u8
    ensures { RunsPart (RunsOnInput task) (machine I.Source I.Input.own O.Sink O.Output.own
        F.GameFiles E.Sink devices.old devices.new) result }
{
    match task {
        Task::Split { dir, .. } => {
            devices.files.enter(dir);
            split_to(&mut devices.input, &mut devices.files, &mut devices.err)
        }
        other => run_to_output(&other, devices),
    }
}

// Carries out a task that makes no file.
fn run_to_output<I: Input, O: Output, F: GameFolder, E: Sink>(
    task: &Task,
    devices: &mut Devices<I, O, F, E>,
) -> u8
    requires { makes_files task.now ≡ false }
    ensures { RunsPart (RunsOnInput task.now) (machine I.Source I.Input.own O.Sink O.Output.own
        F.GameFiles E.Sink devices.old devices.new) result }
{
    match task {
        Task::Checked { file, .. } => match devices.second.open(file.as_str()) {
            Ok(()) => run_both(task, devices),
            Err(refusal) => refuse_file(refusal, &mut devices.err),
        },
        _ => run_buffered(task, devices),
    }
}

// Carries out a task that reads two sources, on standard output, by a buffer.
fn run_both<I: Input, O: Output, F: GameFolder, E: Sink>(
    task: &Task,
    devices: &mut Devices<I, O, F, E>,
) -> u8
    requires { is_checked task.now ≡ true }
    ensures { RunsPart (RunsOnBoth (checked_mode task.now)) (machine I.Source I.Input.own O.Sink
        O.Output.own F.GameFiles E.Sink devices.old devices.new) result }
{
    match devices.out.reserve() {
        Ok(()) => run_checked(
            task,
            &mut devices.input,
            &mut devices.second,
            &mut devices.out,
            &mut devices.err,
        ),
        Err(AllocError) => out_of_memory(&mut devices.err),
    }
}

// Carries out the task on standard output, by a buffer.
fn run_buffered<I: Input, O: Output, F: GameFolder, E: Sink>(
    task: &Task,
    devices: &mut Devices<I, O, F, E>,
) -> u8
    requires { is_for_stream task.now ≡ true }
    ensures { RunsPart (RunsOnInput task.now) (machine I.Source I.Input.own O.Sink O.Output.own
        F.GameFiles E.Sink devices.old devices.new) result }
{
    match devices.out.reserve() {
        Ok(()) => run_stream(task, &mut devices.input, &mut devices.out, &mut devices.err),
        Err(_) => out_of_memory(&mut devices.err),
    }
}
