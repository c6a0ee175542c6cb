//! Reads a piece byte by byte, up to the end of a token, and copies the bytes of its text.

ghost use Rattle.std.specs.Prelude.{◌+◌, ◌<◌, ◌≤◌, ◌^◌, length};

use crate::class::is_in;
use crate::partial_token::{ByteResult, LexMode, PartialToken};

impl PartialToken {
    ghost use Rattle.pgn_lexer.specs.PartialToken.{IsSound, PartialToken};
    ghost use Rattle.pgn_lexer.specs.RunResult.{Ran, RunGives};

    /// Uses the piece, which begins at the place, up to the end of the first token. A rejected byte
    /// is used too.
    ///
    /// A text that goes on in all of the piece needs no call.
    #[inline(always)]
    pub(crate) fn run(&mut self, piece: &[u8], place: u64) -> (usize, ByteResult)
        requires room { place + length piece.now ≤ 2 ^ 62 }
        requires sound { IsSound place self.old }
        ensures { RunGives place self.old piece.now self.new result.0 result.1 }
    {
        if let LexMode::Failed(reason) = self.mode {
            return (0, ByteResult::Fault(reason));
        }
        let used = self.copy_text(piece, 0, place);
        if used == piece.len() {
            return (used, ByteResult::Used);
        }
        self.run_on(piece, used, place)
    }

    /// Reads on after so many bytes of the piece.
    #[inline(never)]
    fn run_on(&mut self, piece: &[u8], from: usize, place: u64) -> (usize, ByteResult)
        requires room { place + length piece.now ≤ 2 ^ 62 }
        requires within { from < length piece.now }
        ensures { (old : PartialToken) → Ran place old piece.now self.old from
            → RunGives place old piece.now self.new result.0 result.1 }
    {
        let mut used = from;
        while used < piece.len() {
            match self.take(piece[used], place + used as u64) {
                ByteResult::Used => used = self.copy_text(piece, used + 1, place),
                ByteResult::Ends(form) => return (used + 1, ByteResult::Ends(form)),
                ByteResult::EndsBefore(form) => return (used, ByteResult::EndsBefore(form)),
                ByteResult::Fault(reason) => return (used + 1, ByteResult::Fault(reason)),
            }
        }
        (used, ByteResult::Used)
    }

    /// In a text, copies the bytes with which the piece goes on after so many bytes, and in a
    /// string also escapes of which both bytes are in the piece. Returns how many bytes of the
    /// piece are used then.
    ///
    /// It stops at the end of the text, at what is rejected, and where the buffer may be full.
    /// `take` does the same with each of these bytes, and takes three times as long.
    #[inline(always)]
    fn copy_text(&mut self, piece: &[u8], from: usize, place: u64) -> usize
        requires { from ≤ length piece.now }
        ensures from { from ≤ result }
        ensures within { result ≤ length piece.now }
        ensures ran { (old : PartialToken) → Ran place old piece.now self.old from
            → Ran place old piece.now self.new result }
    {
        let LexMode::Text(text) = self.mode else {
            return from;
        };
        // As many bytes as have room for sure, even if none is a backslash.
        let room = text.longest().saturating_sub(self.buffer.len());
        let end = from + (piece.len() - from).min(room);
        let mut used = from;
        while used < end {
            let byte = piece[used];
            if is_in(byte, text.bytes()) {
                self.buffer.push(byte);
                used += 1;
                continue;
            }
            if !text.has_escape(&piece[used..end]) {
                break;
            }
            used += 1;
            self.buffer.push(piece[used]);
            used += 1;
        }
        used
    }
}
