//! The result of a conversion, as C gets it.
ghost use Rattle.std.specs.Prelude.{◌≡◌, ◌≤◌, ◌+◌, Ok, Err, length};
ghost use Rattle.pgn_c.specs.Results as spec;
ghost use Rattle.pgn_c.specs.Results.{result_of, status_of};

use itoa::Buffer;
use pgn_game::{Fault, Reason, Totals};

/// The text was read to its end.
pub const OK: u32 = 0;
/// The text has a fault.
pub const FAULT: u32 = 1;
/// The buffer is full.
pub const FULL: u32 = 2;
/// There is no such mode.
pub const NO_MODE: u32 = 3;

/// The result of a conversion, `struct pgn_result` in C.
#[repr(C)]
#[derive(Clone, Copy)]
pub struct PgnResult {
    /// 0: the text was read to its end. 1: it has a fault. 2: the buffer is full. 3: there is no
    /// such mode.
    pub status: u32,
    /// The number of the fault: 1 to 42, 51 or 52; 0 if there is none. A full buffer is 51.
    pub fault: u32,
    /// The place of the fault: the offset of a byte, from 0.
    pub place: u64,
    /// How many bytes of the buffer were written.
    pub written: usize,
    /// The number of games; 0 with a fault.
    pub games: u64,
    /// The number of their plies together, without variations; 0 with a fault.
    pub plies: u64,
    /// Where the reason begins in the message.
    pub reason_at: usize,
    /// The fault as a line, `byte N: REASON`, and zeros after it; zeros alone where there is none.
    pub message: [u8; 104],
}

/// The result for the totals of a text, of which so many bytes were written.
pub fn totals_result(totals: Totals, written: usize) -> PgnResult
    ensures { result ≡ result_of (Ok totals) written }
{
    PgnResult {
        status: OK,
        fault: 0,
        place: 0,
        written,
        games: totals.games,
        plies: totals.plies,
        reason_at: 0,
        message: [0; 104],
    }
}

/// The result for a fault, before which so many bytes were written.
pub fn fault_result(fault: Fault, written: usize) -> PgnResult
    ensures { result ≡ result_of (Err fault) written }
{
    PgnResult {
        status: status_for(fault.reason),
        fault: fault.reason.number() as u32,
        place: fault.at,
        written,
        games: 0,
        plies: 0,
        reason_at: 7 + Buffer::new().format(fault.at).len(),
        message: padded(fault.line().as_slice()),
    }
}

/// The result where there is no such mode.
pub fn no_mode() -> PgnResult
    ensures { result ≡ spec.no_mode }
{
    PgnResult {
        status: NO_MODE,
        fault: 0,
        place: 0,
        written: 0,
        games: 0,
        plies: 0,
        reason_at: 0,
        message: [0; 104],
    }
}

// The status for a fault.
fn status_for(reason: Reason) -> u32
    ensures { result ≡ status_of reason }
{
    match reason {
        Reason::WriteFault => FULL,
        _ => FAULT,
    }
}

// The text, and zeros after it.
pub fn padded<const N: usize>(text: &[u8]) -> [u8; N]
    requires { length text.now ≤ N }
    ensures { result ≡ spec.padded N text.now }
{
    let mut bytes = [0; N];
    bytes[..text.len()].copy_from_slice(text);
    bytes
}
