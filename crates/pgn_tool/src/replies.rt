//! The replies if no task is run.
ghost use Rattle.std.specs.Prelude.{◌≡◌, codes};
ghost use Rattle.pgn_layout.specs.Device.{NoneUnflushed, device};
ghost use Rattle.pgn_tool.specs.TaskRun.{IsFlushed, Tells, line};
ghost use Rattle.pgn_tool.specs.Replies.{AnswersFault, Shows};

use crate::stream::{conclude, tell, write_last};
use pgn_arguments::ParseFault;
use pgn_game::Sink;
use pgn_layout::write_all;

/// Replies to arguments that are no task, and returns the exit status.
///
/// - Help goes to `out`, with status 0, or 1 if that fails.
/// - A mistake goes to `err`, with status 2.
/// - A lack of memory goes to `err`, with status 3.
pub fn answer_fault<O: Sink, E: Sink>(fault: &ParseFault, out: &mut O, err: &mut E) -> u8
    ensures answers { AnswersFault fault.now (device O.taken O.failures out.old out.new)
        (device E.taken E.failures err.old err.new) result }
    ensures flushed { NoneUnflushed (O.unflushed out.old)
        → IsFlushed (device O.taken O.failures out.old out.new) (O.unflushed out.new) result }
{
    match fault {
        ParseFault::Help(text) => show(text.as_str(), out, err),
        ParseFault::Bad(text) => {
            let _ = write_all(err, text.as_bytes());
            2
        }
        ParseFault::NoMemory => out_of_memory(err),
    }
}

// Writes the text of help, and flushes.
fn show<O: Sink, E: Sink>(text: &str, out: &mut O, err: &mut E) -> u8
    ensures shows { Shows text.now (device O.taken O.failures out.old out.new)
        (device E.taken E.failures err.old err.new) result }
    ensures flushed { IsFlushed (device O.taken O.failures out.old out.new)
        (O.unflushed out.new) result }
{
    let is_written = write_last(text.as_bytes(), out);
    conclude(is_written, err)
}

/// Reports that the arguments cannot be read, and returns status 2.
pub fn refuse_words<E: Sink>(err: &mut E) -> u8
    ensures status { result ≡ 2 }
    ensures told { Tells (device E.taken E.failures err.old err.new)
        (line (codes "arguments cannot be read")) }
{
    tell(b"arguments cannot be read", err);
    2
}

/// Reports a lack of memory, and returns status 3.
pub fn out_of_memory<E: Sink>(err: &mut E) -> u8
    ensures status { result ≡ 3 }
    ensures told { Tells (device E.taken E.failures err.old err.new)
        (line (codes "out of memory")) }
{
    tell(b"out of memory", err);
    3
}
