//! The line of movetext that is being filled.
ghost use Rattle.std.specs.Prelude.{◌≡◌, ◌+◌, ◌≤◌, [], ◌∷◌, ◌++◌, length, OnOk, OnErr};
ghost use Rattle.pgn_layout.specs.Device.{Counts, Writes};
ghost use Rattle.pgn_layout.specs.Lines.{IsToken};
ghost use Rattle.pgn_layout.specs.Layout.{Put, EndGame, text_at, line_at};

use crate::{Sink, WriteFault, write_all};
use arrayvec::ArrayVec;
use std::marker::Model;

/// The longest line of movetext, without its LF (PGN 8.2.1).
const LINE_LENGTH: usize = 79;

/// The length of that line with its LF.
const LINE_WITH_LF_LENGTH: usize = LINE_LENGTH + 1;

/// The line of movetext that is not full yet.
///
/// It does not keep whether a write has failed. For that there is [`Layout`](crate::Layout).
///
/// # Errors
///
/// A call returns [`WriteFault`] if the sink fails. It has then written a prefix of its text, and
/// not all of it, and the line is empty.
///
/// # Examples
///
/// ```
/// use pgn_layout::{CurrentLine, Outlet};
///
/// let mut out = Outlet::new(Vec::new());
/// let mut line = CurrentLine::new();
/// for token in [b"1.", b"e4", b"e5"] {
///     line.put(token, &mut out).unwrap();
/// }
/// line.end_game(&mut out).unwrap();
/// assert_eq!(out.into_inner(), b"1. e4 e5\n\n");
/// ```
#[derive(Drop)]
pub struct CurrentLine {
    bytes: ArrayVec<u8, LINE_WITH_LF_LENGTH>,
}

impl Model for CurrentLine {
    ghost use Rattle.std.specs.Prelude.{ℕ, List, ◌≤◌, length};

    ghost Value = { List ℕ };

    ghost view = { λ l. l.bytes.items };

    ghost invariant = { λ l. length l.bytes.items ≤ 79 };
}

impl CurrentLine {
    /// Returns an empty line.
    pub fn new() -> Self
        ensures { result ≡ [] }
    {
        CurrentLine {
            bytes: ArrayVec::new(),
        }
    }

    /// Puts a movetext token of 1 to 79 bytes on the line (PGN 8.2.1).
    ///
    /// A space comes before it, unless it is the first. If there is no room, the line is written
    /// with LF, and the token begins the next line.
    ///
    /// # Errors
    ///
    /// [`WriteFault`], as for each call of a [`CurrentLine`].
    #[inline(always)]
    pub fn put<W: Sink>(&mut self, token: &[u8], out: &mut W) -> Result<(), WriteFault>
        // Cargo: assert!(matches!(token.len(), 1..=LINE_LENGTH),
        // "a token on a line has 1 to 79 bytes")
        requires { IsToken token.now }
        ensures text { Writes (W.taken out.old) (W.taken out.new) result
            (text_at self.old (Put token.now)) }
        ensures line { OnOk result (self.new ≡ line_at self.old (Put token.now)) }
        ensures empty { OnErr result (self.new ≡ []) }
        ensures counted { Counts result (W.failures out.old) (W.failures out.new) }
    {
        self.put_parts(token, b"", out)
    }

    /// Puts a movetext token on the line in two parts, as [`put`](CurrentLine::put) does in one.
    ///
    /// # Errors
    ///
    /// [`WriteFault`], as for each call of a [`CurrentLine`].
    #[inline(always)]
    pub fn put_parts<W: Sink>(
        &mut self,
        first: &[u8],
        second: &[u8],
        out: &mut W,
    ) -> Result<(), WriteFault>
        // Cargo: assert!(matches!(first.len() + second.len(), 1..=LINE_LENGTH),
        // "a token on a line has 1 to 79 bytes")
        requires { IsToken (first.now ++ second.now) }
        ensures text { Writes (W.taken out.old) (W.taken out.new) result
            (text_at self.old (Put (first.now ++ second.now))) }
        ensures line { OnOk result (self.new ≡ line_at self.old (Put (first.now ++ second.now))) }
        ensures empty { OnErr result (self.new ≡ []) }
        ensures counted { Counts result (W.failures out.old) (W.failures out.new) }
    {
        if self.bytes.is_empty() {
            append(&mut self.bytes, first, second);
            return Ok(());
        }
        if self.bytes.len() + 1 + first.len() + second.len() <= LINE_LENGTH {
            self.bytes.push(b' ');
            append(&mut self.bytes, first, second);
            return Ok(());
        }
        write_line(&mut self.bytes, out)?;
        append(&mut self.bytes, first, second);
        Ok(())
    }

    /// Ends the game: writes the line with LF, if it has a token, and an empty line (PGN 8.2.6).
    ///
    /// The line is then empty.
    ///
    /// # Errors
    ///
    /// [`WriteFault`], as for each call of a [`CurrentLine`].
    pub fn end_game<W: Sink>(&mut self, out: &mut W) -> Result<(), WriteFault>
        ensures text { Writes (W.taken out.old) (W.taken out.new) result
            (text_at self.old EndGame) }
        ensures line { OnOk result (self.new ≡ line_at self.old EndGame) }
        ensures empty { OnErr result (self.new ≡ []) }
        ensures counted { Counts result (W.failures out.old) (W.failures out.new) }
    {
        if self.bytes.is_empty() {
            return write_all(out, b"\n");
        }
        write_line(&mut self.bytes, out)?;
        write_all(out, b"\n")
    }
}

// Adds the two parts of a token at the line's end.
#[inline(always)]
fn append(line: &mut ArrayVec<u8, LINE_WITH_LF_LENGTH>, first: &[u8], second: &[u8])
    requires { length line.old.items + length (first.now ++ second.now) ≤ 79 }
    ensures { line.new.items ≡ line.old.items ++ first.now ++ second.now }
{
    let _ = line.try_extend_from_slice(first);
    let _ = line.try_extend_from_slice(second);
}

// Gives the line and its LF to one `write_all`, and empties the line, also if that failed.
#[inline(always)]
fn write_line<W: Sink>(
    line: &mut ArrayVec<u8, LINE_WITH_LF_LENGTH>,
    out: &mut W,
) -> Result<(), WriteFault>
    requires { length line.old.items ≤ 79 }
    ensures text { Writes (W.taken out.old) (W.taken out.new) result (line.old.items ++ 10 ∷ []) }
    ensures counted { Counts result (W.failures out.old) (W.failures out.new) }
    ensures empty { line.new.items ≡ [] }
{
    line.push(b'\n');
    let answer = write_all(out, line.as_slice());
    line.clear();
    answer
}
