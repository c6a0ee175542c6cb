//! The lexer.
ghost use Rattle.std.specs.Prelude.{◌≡◌, ◌+◌, ◌≤◌, ◌^◌, [], length, None};
ghost use Rattle.std.specs.Borrow.{sem};

use crate::partial_token::{ByteResult, PartialToken};
use crate::token::{Outcome, Scan, Token, TokenKind};
use std::marker::Model;

/// Reads a text in pieces of any length, and gives its tokens one by one.
///
/// # Examples
///
/// ```
/// use pgn_lexer::{Lexer, Outcome};
///
/// let text = b"1. e4 *";
/// let mut lexer = Lexer::new();
/// let mut at = 0;
/// let mut places = Vec::new();
/// loop {
///     let scan = lexer.next(&text[at..]);
///     at += scan.used;
///     match scan.outcome {
///         Outcome::Token(token) => places.push(token.at),
///         Outcome::NeedMore => break,
///         Outcome::Fault(fault) => panic!("{:?}", fault),
///     }
/// }
/// assert_eq!(places, [0, 1, 3, 6]);
/// ```
#[derive(Drop)]
pub struct Lexer {
    partial: PartialToken,
    count: u64,
}

impl Model for Lexer {
    ghost use Rattle.pgn_lexer.specs.Standing.{Standing};
    ghost use Rattle.pgn_lexer.specs.PartialToken.{IsSound};

    ghost Value = { Standing };

    ghost view = { λ l. record { count = l.count; held = l.partial } };

    ghost invariant = { λ l. IsSound l.count l.partial };
}

impl Lexer {
    ghost use Rattle.pgn_lexer.specs.WhiteSpace.{white_space};
    ghost use Rattle.pgn_lexer.specs.WholeTokens.{ReadsWhole};
    ghost use Rattle.pgn_lexer.specs.Scanned.{scanned};
    ghost use Rattle.pgn_lexer.specs.Standing.{fault_of, waiting};
    ghost use Rattle.pgn_lexer.specs.Stands.{StandsAfter, Scans, Finishes, Leaves};

    /// Returns a lexer that has read nothing.
    pub fn new() -> Lexer
        ensures stands { StandsAfter result [] None [] }
        ensures no_fault { fault_of result ≡ None }
    {
        Lexer::begin_at(0, true)
    }

    /// Returns a lexer that reads the rest of a text, from the byte at this place on.
    ///
    /// It takes the bytes before for white space. So the place must be outside all tokens, comments
    /// and escape lines. Places count from the first byte of the text, and so does `place`. A byte
    /// order mark is skipped at place 0 alone.
    ///
    /// `in_first_column` says whether the place is in the first column, where a percent sign begins
    /// an escape line (PGN 6): after a carriage return or a line feed, or after a byte order
    /// mark. Place 0 always is. Above place 2^62 only `finish` can be called.
    pub fn begin_at(place: u64, in_first_column: bool) -> Lexer
        ensures stands { StandsAfter result (white_space place in_first_column) None [] }
        ensures count { result.count ≡ place }
        ensures few { waiting result ≤ 2 }
        ensures no_fault { fault_of result ≡ None }
    {
        Lexer {
            partial: PartialToken::begin_at(place, in_first_column),
            count: place,
        }
    }

    /// Returns the place of the next byte: where this began, plus the bytes used since.
    pub fn place(&self) -> u64
        ensures { result ≡ self.now.count }
    {
        self.count
    }

    /// Reads the piece up to the end of its first token, and returns that token. Its text is
    /// borrowed from the lexer's buffer.
    ///
    /// After a token, pass the rest of the piece. If a byte after the token was not used, it must
    /// come next. The result is `NeedMore` if no token ends in the piece; the whole piece is then
    /// used. `place` and the length of the piece must be together at most 2^62. `finish` ends the
    /// current token, so bytes that come after it no longer continue the text.
    ///
    /// # Errors
    ///
    /// `Fault` as soon as the bytes show that the text is rejected. Each later call returns the
    /// same and uses no byte.
    #[inline(always)]
    pub fn next(&mut self, piece: &[u8]) -> Scan<'_>
        // Cargo: debug_assert!(self.count + piece.len() as u64 <= 1 << 62,
        // "a text has at most 2^62 bytes")
        requires { self.old.count + length piece.now ≤ 2 ^ 62 }
        ensures used { result.used ≤ length piece.now }
        ensures* after { sem 𝓛 (Leaves self.entry
            (λ new. Scans self.old piece.now new result.used (scanned result.outcome))) }
    {
        let (used, reached) = self.partial.run(piece, self.count);
        self.count += used as u64;
        match reached {
            ByteResult::Used => Scan {
                used,
                outcome: Outcome::NeedMore,
            },
            ByteResult::Ends(form) | ByteResult::EndsBefore(form) => Scan {
                used,
                outcome: Outcome::Token(self.partial.token(form)),
            },
            ByteResult::Fault(reason) => Scan {
                used,
                outcome: Outcome::Fault(self.partial.fault(reason)),
            },
        }
    }

    /// Returns how many bytes were used, and the first token of the piece if it lies there as a
    /// whole. Its text is borrowed from the piece.
    ///
    /// A symbol, a word of a comment, a NAG or a suffix ends where the byte after it does not
    /// continue it. So that byte has to be in the piece too; it is not used. If numbers are
    /// skipped, symbols of digits alone and periods are passed as white space is, and not returned.
    ///
    /// With `None` the bytes used were passed, and what comes is left to `next`. It began in an
    /// earlier piece or may go on after this one. Or it has an escape, is rejected, is an escape
    /// line, or is the start of the text. `place` and the length of the piece must be together at
    /// most 2^62.
    ///
    /// # Examples
    ///
    /// ```
    /// use pgn_lexer::{Lexer, TokenKind};
    ///
    /// let text = b"12. e4 (1-0)";
    /// let mut lexer = Lexer::begin_at(100, false);
    /// let (used, token) = lexer.whole_token(text, true);
    /// assert_eq!(used, 6);
    /// assert_eq!(token.unwrap().at, 104);
    /// assert_eq!(token.unwrap().kind, TokenKind::Symbol(b"e4"));
    /// let (used, token) = lexer.whole_token(&text[6..], true);
    /// assert_eq!(used, 2);
    /// assert_eq!(token.unwrap().kind, TokenKind::LeftParen);
    /// // A result is no number.
    /// let (used, token) = lexer.whole_token(&text[8..], true);
    /// assert_eq!(used, 3);
    /// assert_eq!(token.unwrap().kind, TokenKind::Symbol(b"1-0"));
    /// ```
    #[inline(always)]
    pub fn whole_token<'a>(
        &mut self,
        piece: &'a [u8],
        skips_numbers: bool,
    ) -> (usize, Option<Token<'a>>)
        // Cargo: debug_assert!(self.count + piece.len() as u64 <= 1 << 62,
        // "a text has at most 2^62 bytes")
        requires { self.old.count + length piece.now ≤ 2 ^ 62 }
        ensures used { result.0 ≤ length piece.now }
        ensures reads { ReadsWhole skips_numbers self.old piece.now self.new result.0 result.1 }
    {
        let read = self.partial.whole_token(piece, self.count, skips_numbers);
        self.count += read.0 as u64;
        read
    }

    /// Ends the text: returns the tokens that are left, one a call, and then `End` at every call.
    ///
    /// # Errors
    ///
    /// `Fault` if the text is rejected, as for a string or a comment that is not closed. Each later
    /// call returns the same.
    pub fn finish(&mut self) -> Outcome<'_>
        ensures* after { sem 𝓛 (Leaves self.entry (λ new. Finishes self.old new (scanned result))) }
    {
        match self.partial.end_text(self.count) {
            ByteResult::Used => Outcome::Token(Token {
                at: self.count,
                kind: TokenKind::End,
            }),
            ByteResult::Ends(form) | ByteResult::EndsBefore(form) => Outcome::Token(
                self.partial.token(form),
            ),
            ByteResult::Fault(reason) => Outcome::Fault(self.partial.fault(reason)),
        }
    }
}
