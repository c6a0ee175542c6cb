//! A tag pair on a line of its own.
ghost use Rattle.std.specs.Prelude.{◌≡◌, ◌+◌, ◌≤◌, ◌↔◌, [], ◌∷◌, ◌++◌, IsTrue, length};
ghost use Rattle.pgn_layout.specs.Device.{Counts, Writes};
ghost use Rattle.pgn_layout.specs.TagLine.{needs_escape, escape_of, escaped, tag_line as line_of_tag};

use crate::{Sink, WriteFault, write_all};
use arrayvec::ArrayVec;

/// The longest line of a tag pair, its LF included (PGN 4.3).
const TAG_LINE_LENGTH: usize = 255;

/// The room on it for the name and the escaped value, beside `[`, ` "`, `"]` and LF.
const NAME_AND_VALUE_LENGTH: usize = 249;

/// Whether a tag pair fits on a line of at most 255 bytes, its LF included (PGN 4.3).
///
/// It fits if name and value have at most 249 bytes together. Each quote and each backslash of the
/// value counts as two, since a backslash is written before it.
pub fn fits_tag_line(name: &[u8], value: &[u8]) -> bool
    ensures { IsTrue result ↔ (length name.now + length (escaped value.now) ≤ 249) }
{
    if name.len() > NAME_AND_VALUE_LENGTH {
        return false;
    }
    let mut room = NAME_AND_VALUE_LENGTH - name.len();
    // No byte counts as more than two, so most values fit without a look at theirs.
    if value.len() <= room / 2 {
        return true;
    }
    for &byte in value {
        let length = written_length(byte);
        if room < length {
            return false;
        }
        room -= length;
    }
    true
}

/// Writes a tag pair: `[name "value"]` and LF (PGN 7, 8.1).
///
/// In the value a backslash is written before each quote and each backslash. Name and value with
/// these must have at most 249 bytes together ([`fits_tag_line`]), so that the line has at most
/// 255.
///
/// # Errors
///
/// [`WriteFault`] if the sink fails. A prefix of the line was written, and not all of it.
pub fn write_tag<W: Sink>(name: &[u8], value: &[u8], out: &mut W) -> Result<(), WriteFault>
    // The whole test only where the value may be too long with all its bytes escaped.
    // Cargo: assert!(name.len() + 2 * value.len() <= NAME_AND_VALUE_LENGTH
    // || fits_tag_line(name, value),
    // "a tag pair fits on a line of 255 bytes (fits_tag_line)")
    requires { length name.now + length (escaped value.now) ≤ 249 }
    ensures text { Writes (W.taken out.old) (W.taken out.new) result
        (line_of_tag name.now value.now) }
    ensures counted { Counts result (W.failures out.old) (W.failures out.new) }
{
    let line = tag_line(name, value);
    write_all(out, line.as_slice())
}

/// Ends the tag section with an empty line (PGN 8.1).
///
/// # Errors
///
/// [`WriteFault`] if the sink fails. Nothing was written.
pub fn end_tags<W: Sink>(out: &mut W) -> Result<(), WriteFault>
    ensures text { Writes (W.taken out.old) (W.taken out.new) result (10 ∷ []) }
    ensures counted { Counts result (W.failures out.old) (W.failures out.new) }
{
    let empty_line = b"\n";
    write_all(out, empty_line)
}

// `[name "value"]` and LF, with a backslash before each quote and backslash of the value (PGN 7,
// 8.1).
fn tag_line(name: &[u8], value: &[u8]) -> ArrayVec<u8, TAG_LINE_LENGTH>
    requires { length name.now + length (escaped value.now) ≤ 249 }
    ensures { result.items ≡ line_of_tag name.now value.now }
{
    let mut line = ArrayVec::new();
    line.push(b'[');
    let _ = line.try_extend_from_slice(name);
    let _ = line.try_extend_from_slice(b" \"");
    for &byte in value {
        push_escaped(&mut line, byte);
    }
    let _ = line.try_extend_from_slice(b"\"]\n");
    line
}

// Adds the byte at the line's end, after a backslash if it is a quote or a backslash.
fn push_escaped(line: &mut ArrayVec<u8, TAG_LINE_LENGTH>, byte: u8)
    requires { length line.old.items + length (escape_of byte) ≤ 255 }
    ensures { line.new.items ≡ line.old.items ++ escape_of byte }
{
    if is_escaped(byte) {
        line.push(b'\\');
        line.push(byte);
        return;
    }
    line.push(byte);
}

// Whether a backslash is written before the byte (PGN 7).
fn is_escaped(byte: u8) -> bool
    ensures { result ≡ needs_escape byte }
{
    byte == b'"' || byte == b'\\'
}

// How many bytes are written for the byte in a string.
fn written_length(byte: u8) -> usize
    ensures { result ≡ length (escape_of byte) }
{
    if is_escaped(byte) { 2 } else { 1 }
}
