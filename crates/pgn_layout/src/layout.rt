//! Tag pairs and movetext tokens on lines.
ghost use Rattle.std.specs.Prelude.{◌≡◌, ◌+◌, ◌≤◌, [], length, false, IsTrue, OnOk, OnErr};
ghost use Rattle.pgn_layout.specs.Device.{Writes};
ghost use Rattle.pgn_layout.specs.TagLine.{escaped};
ghost use Rattle.pgn_layout.specs.Lines.{IsToken};
ghost use Rattle.pgn_layout.specs.Layout.{holding, Fails, Tag, EndTags, Put, EndGame, DropLine, text_at, line_at};

use crate::{CurrentLine, Sink, WriteFault, end_tags, write_tag};
use std::marker::Model;

/// Writes tag pairs, and sets movetext tokens on lines.
///
/// It keeps the current line, which is not full yet, and whether a write has failed.
///
/// # Errors
///
/// A call returns [`WriteFault`] if the sink fails. It has then written a prefix of its text, and
/// not all of it. Each later call that takes a sink returns `WriteFault` again and leaves the sink
/// as it is.
///
/// # Examples
///
/// ```
/// use pgn_layout::{Layout, Outlet};
///
/// let mut out = Outlet::new(Vec::new());
/// let mut layout = Layout::new();
/// layout.tag(b"Event", b"?", &mut out).unwrap();
/// layout.end_tags(&mut out).unwrap();
/// for token in [b"1.", b"e4", b"e5"] {
///     layout.put(token, &mut out).unwrap();
/// }
/// layout.end_game(&mut out).unwrap();
/// assert_eq!(out.into_inner(), b"[Event \"?\"]\n\n1. e4 e5\n\n");
/// ```
#[derive(Drop)]
pub struct Layout {
    line: CurrentLine,
    has_failed: bool,
}

impl Model for Layout {
    ghost use Rattle.pgn_layout.specs.Layout.{Layout as Seen};

    ghost Value = { Seen };

    ghost view = { λ l. record { line = l.line; has_failed = l.has_failed } };
}

impl Layout {
    /// Returns a layout with an empty line and no failure.
    pub fn new() -> Self
        ensures { result ≡ holding [] }
    {
        Layout {
            line: CurrentLine::new(),
            has_failed: false,
        }
    }

    /// Writes a tag pair: `[name "value"]` and LF (PGN 7, 8.1).
    ///
    /// In the value a backslash is written before each quote and each backslash. Name and value
    /// with these must have at most 249 bytes together (`fits_tag_line`), so that the line has at
    /// most 255. The current line of movetext stays as it is.
    ///
    /// # Errors
    ///
    /// [`WriteFault`], as for each call of a [`Layout`].
    pub fn tag<W: Sink>(&mut self, name: &[u8], value: &[u8], out: &mut W) -> Result<(), WriteFault>
        // Cargo: assert!(crate::fits_tag_line(name, value),
        // "a tag pair fits on a line of 255 bytes (fits_tag_line)")
        requires { length name.now + length (escaped value.now) ≤ 249 }
        ensures text { self.old.has_failed ≡ false
            → Writes (W.taken out.old) (W.taken out.new) result
            (text_at self.old.line (Tag name.now value.now)) }
        ensures line { OnOk result
            (self.new ≡ holding (line_at self.old.line (Tag name.now value.now))) }
        ensures faults { Fails W.failures self.old.has_failed self.new.has_failed out.old out.new
            result }
    {
        check(self.has_failed)?;
        let written = write_tag(name, value, out);
        self.has_failed = written.is_err();
        written
    }

    /// Ends the tag section with an empty line (PGN 8.1).
    ///
    /// The current line of movetext stays as it is.
    ///
    /// # Errors
    ///
    /// [`WriteFault`], as for each call of a [`Layout`].
    pub fn end_tags<W: Sink>(&mut self, out: &mut W) -> Result<(), WriteFault>
        ensures text { self.old.has_failed ≡ false
            → Writes (W.taken out.old) (W.taken out.new) result (text_at self.old.line EndTags) }
        ensures line { OnOk result (self.new ≡ holding (line_at self.old.line EndTags)) }
        ensures faults { Fails W.failures self.old.has_failed self.new.has_failed out.old out.new
            result }
    {
        check(self.has_failed)?;
        let written = end_tags(out);
        self.has_failed = written.is_err();
        written
    }

    /// Puts a movetext token of 1 to 79 bytes on the line (PGN 8.2.1).
    ///
    /// A space comes before it, unless it is the first. If there is no room, the line is written
    /// with LF, and the token begins the next line.
    ///
    /// # Errors
    ///
    /// [`WriteFault`], as for each call of a [`Layout`].
    #[inline(always)]
    pub fn put<W: Sink>(&mut self, token: &[u8], out: &mut W) -> Result<(), WriteFault>
        // Cargo: assert!(matches!(token.len(), 1..=79), "a token on a line has 1 to 79 bytes")
        requires { IsToken token.now }
        ensures text { self.old.has_failed ≡ false
            → Writes (W.taken out.old) (W.taken out.new) result
            (text_at self.old.line (Put token.now)) }
        ensures line { OnOk result (self.new ≡ holding (line_at self.old.line (Put token.now))) }
        ensures faults { Fails W.failures self.old.has_failed self.new.has_failed out.old out.new
            result }
    {
        check(self.has_failed)?;
        let written = self.line.put(token, out);
        self.has_failed = written.is_err();
        written
    }

    /// Ends the game: writes the line with LF, if it has a token, and an empty line (PGN 8.2.6).
    ///
    /// The current line is then empty.
    ///
    /// # Errors
    ///
    /// [`WriteFault`], as for each call of a [`Layout`].
    pub fn end_game<W: Sink>(&mut self, out: &mut W) -> Result<(), WriteFault>
        ensures text { self.old.has_failed ≡ false
            → Writes (W.taken out.old) (W.taken out.new) result (text_at self.old.line EndGame) }
        ensures line { OnOk result (self.new ≡ holding (line_at self.old.line EndGame)) }
        ensures faults { Fails W.failures self.old.has_failed self.new.has_failed out.old out.new
            result }
    {
        check(self.has_failed)?;
        let written = self.line.end_game(out);
        self.has_failed = written.is_err();
        written
    }

    /// Empties the line, and writes nothing. For a caller that gives up a game.
    pub fn drop_line(&mut self)
        ensures { self.new ≡ record self.old { line = line_at self.old.line DropLine } }
    {
        self.line = CurrentLine::new();
    }
}

// Fails if a write has failed.
fn check(has_failed: bool) -> Result<(), WriteFault>
    ensures ready { OnOk result (has_failed ≡ false) }
    ensures failed { OnErr result (IsTrue has_failed) }
{
    if has_failed {
        return Err(WriteFault);
    }
    Ok(())
}
