//! Reads a token that lies in the piece as a whole, without a copy of its text.

ghost use Rattle.std.specs.Prelude.{◌≡◌, Bool, ℕ, ◌+◌, ◌<◌, ◌≤◌, ◌^◌, drop, length, get_or, IsTrue, IsFalse, IfSome, MatchOption};
ghost use Rattle.pgn_lexer.specs.Begins.{begins_outside as begins_outside_of};
ghost use Rattle.pgn_lexer.specs.Bytes as bytes;
ghost use Rattle.pgn_lexer.specs.Runs.{BeginsUnpassed, IsNumberIn, IsText, IsWhole, standing_at};
ghost use Rattle.pgn_lexer.specs.Scanned.{kind_of};
ghost use Rattle.pgn_lexer.specs.Spelling as spelling;
ghost use Rattle.pgn_lexer.specs.Tokens.{glyph};
ghost use Rattle.pgn_lexer.specs.WholeTokens.{is_passed};
ghost use Rattle.pgn_lexer.specs.declared.partial_token.begins.Begins.TheVariants as begun;

use crate::class::{Set, is_in, run_length};
use crate::partial_token::begins::{Begins, begins_in_comment, begins_outside};
use crate::partial_token::{CommentEnd, LONGEST_TEXT, LexMode, PartialToken, Text, longer_number};
use crate::token::{Token, TokenKind};

/// No byte of white space, of a number or of a period is above this one.
const LAST_PASSED: u8 = b'9';

impl PartialToken {
    ghost use Rattle.pgn_lexer.specs.PartialToken.{IsSound};
    ghost use Rattle.pgn_lexer.specs.RunResult.{IsOutside};
    ghost use Rattle.pgn_lexer.specs.WholeTokens.{Passes, ReadsWhole};

    /// Uses the piece, which begins at the place, up to the end of its first token: past the white
    /// space before it, and past numbers and periods if these are skipped. The text of the token is
    /// borrowed from the piece.
    ///
    /// `None` if what comes then may go on after the piece, has an escape, or is rejected. It is
    /// not used.
    #[inline(always)]
    pub(crate) fn whole_token<'a>(
        &mut self,
        piece: &'a [u8],
        place: u64,
        skips_numbers: bool,
    ) -> (usize, Option<Token<'a>>)
        requires room { place + length piece.now ≤ 2 ^ 62 }
        requires sound { IsSound place self.old }
        ensures used { result.0 ≤ length piece.now }
        ensures sound { IsSound (place + result.0) self.new }
        ensures reads { ReadsWhole skips_numbers (standing_at place self.old) piece.now
            (standing_at (place + result.0) self.new) result.0 result.1 }
    {
        match self.mode {
            LexMode::LineStart | LexMode::Outside => self.whole_outside(
                piece,
                place,
                skips_numbers,
            ),
            // Each of the two loops knows its closing byte.
            LexMode::Comment(CommentEnd::Brace) => self.whole_in_comment(
                piece,
                place,
                CommentEnd::Brace,
            ),
            LexMode::Comment(CommentEnd::LineEnd) => self.whole_in_comment(
                piece,
                place,
                CommentEnd::LineEnd,
            ),
            _ => (0, None),
        }
    }

    /// Reads outside comments.
    #[inline(always)]
    fn whole_outside<'a>(
        &mut self,
        piece: &'a [u8],
        place: u64,
        skips_numbers: bool,
    ) -> (usize, Option<Token<'a>>)
        requires room { place + length piece.now ≤ 2 ^ 62 }
        requires sound { IsSound place self.old }
        requires outside { IsOutside self.old.mode }
        ensures used { result.0 ≤ length piece.now }
        ensures sound { IsSound (place + result.0) self.new }
        ensures reads { ReadsWhole skips_numbers (standing_at place self.old) piece.now
            (standing_at (place + result.0) self.new) result.0 result.1 }
    {
        let passed = self.pass(piece, place, skips_numbers);
        let Some((length, mode, kind)) = whole_at(&piece[passed..]) else {
            return (passed, None);
        };
        self.mode = mode;
        let at = place + passed as u64;
        (passed + length, Some(Token { at, kind }))
    }

    /// Passes white space, and numbers and periods if these are skipped. Returns how many bytes
    /// they have.
    #[inline(always)]
    fn pass(&mut self, piece: &[u8], place: u64, skips_numbers: bool) -> usize
        requires room { place + length piece.now ≤ 2 ^ 62 }
        requires sound { IsSound place self.old }
        requires outside { IsOutside self.old.mode }
        ensures used { result ≤ length piece.now }
        ensures outside { IsOutside self.new.mode }
        ensures room { length self.new.text ≤ 255 }
        ensures passes { Passes skips_numbers (standing_at place self.old) piece.now
            (standing_at (place + result) self.new) result }
        ensures stops { IsTrue skips_numbers → BeginsUnpassed (drop result piece.now) }
    {
        let mut used = 0;
        while used < piece.len() {
            let byte = piece[used];
            if byte > LAST_PASSED {
                break;
            }
            if byte == b' ' || (skips_numbers && byte == b'.') {
                self.mode = LexMode::Outside;
                used += 1;
            } else if skips_numbers && is_in(byte, Set::Digit) {
                let Some(length) = number_length(&piece[used..]) else {
                    break;
                };
                self.mode = LexMode::Outside;
                used += length;
            } else if is_in(byte, Set::LineEnd) {
                self.mode = LexMode::LineStart;
                used += 1;
            } else if is_in(byte, Set::Blank) {
                self.mode = LexMode::Outside;
                used += 1;
            } else {
                break;
            }
        }
        used
    }

    /// Reads in a comment, in braces or to the end of its line: past white space, to the end of a
    /// word, or to that of the comment.
    #[inline(always)]
    fn whole_in_comment<'a>(
        &mut self,
        piece: &'a [u8],
        place: u64,
        close: CommentEnd,
    ) -> (usize, Option<Token<'a>>)
        requires room { place + length piece.now ≤ 2 ^ 62 }
        requires sound { IsSound place self.old }
        requires comment { self.old.mode ≡ LexMode.Comment close }
        ensures used { result.0 ≤ length piece.now }
        ensures sound { IsSound (place + result.0) self.new }
        ensures reads { (skips : Bool) → ReadsWhole skips (standing_at place self.old) piece.now
            (standing_at (place + result.0) self.new) result.0 result.1 }
    {
        let mut used = 0;
        while used < piece.len() {
            let at = place + used as u64;
            match begins_in_comment(piece[used], close) {
                Begins::Gap(_) => used += 1,
                Begins::Text(text) => {
                    let Some((length, _, kind)) = whole_text(&piece[used..], text) else {
                        break;
                    };
                    return (used + length, Some(Token { at, kind }));
                }
                Begins::Alone(sign, mode) => {
                    self.mode = mode;
                    let kind = sign.kind();
                    return (used + 1, Some(Token { at, kind }));
                }
                _ => break,
            }
        }
        (used, None)
    }
}

// The length of the token with which the bytes begin, outside comments, the mode after it, and its
// kind. `None` if it may go on after the bytes, has an escape, or is rejected.
#[inline(always)]
fn whole_at(piece: &[u8]) -> Option<(usize, LexMode, TokenKind<'_>)>
    ensures whole { IfSome result (λ r. IsWhole piece.now r.0 r.1 (kind_of r.2)) }
    ensures not_passed { BeginsUnpassed piece.now
        → IfSome result (λ r. IsFalse (is_passed (kind_of r.2))) }
{
    if piece.is_empty() {
        return None;
    }
    match begins_outside(piece[0]) {
        // These are the most common, and know their set of bytes.
        Begins::Text(Text::Symbol) => whole_text(piece, Text::Symbol),
        Begins::Text(text) => whole_text(piece, text),
        Begins::Str => {
            let end = run_length(piece, Set::Data, LONGEST_TEXT + 1)?;
            if piece[end] != b'"' {
                return None;
            }
            let kind = TokenKind::Str(&piece[1..end]);
            Some((end + 1, LexMode::Outside, kind))
        }
        Begins::Dollar => {
            let (length, number) = glyph_in(piece)?;
            Some((length, LexMode::Outside, TokenKind::Glyph(number)))
        }
        Begins::Alone(sign, mode) => Some((1, mode, sign.kind())),
        Begins::Gap(_) | Begins::Refused(_) => None,
    }
}

// The same of a text that is no string and begins with the first byte.
#[inline(always)]
fn whole_text(piece: &[u8], text: Text) -> Option<(usize, LexMode, TokenKind<'_>)>
    requires some { 0 < length piece.now }
    ensures { IfSome result (λ r. IsText text piece.now r.0 r.1 (kind_of r.2)) }
{
    let length = run_length(piece, text.bytes(), text.longest())?;
    Some((length, text.mode_behind(), text.kind(&piece[..length])))
}

// The length of the number with which the bytes begin. `None` if it may go on after them, is no
// number but a symbol that begins with digits, or is too long.
#[inline(always)]
fn number_length(piece: &[u8]) -> Option<usize>
    requires some { 0 < length piece.now }
    requires first { IsTrue (bytes.is_digit (get_or piece.now 0 0)) }
    ensures { MatchOption result ((n : ℕ) → IsNumberIn piece.now n → ⊥)
        (λ n. IsNumberIn piece.now n) }
{
    let length = run_length(piece, Set::Digit, LONGEST_TEXT)?;
    (!is_in(piece[length], Set::Symbol)).then_some(length)
}

// The length and the number of the NAG with which the bytes begin. `None` if it may go on after
// them, has no digit, or is too large.
fn glyph_in(piece: &[u8]) -> Option<(usize, u8)>
    requires some { 0 < length piece.now }
    requires first { begins_outside_of (spelling.class (get_or piece.now 0 0)) ≡ begun.Dollar }
    ensures { IfSome result (λ r. IsWhole piece.now r.0 LexMode.Outside (glyph r.1)) }
{
    if piece.len() < 2 || !is_in(piece[1], Set::Digit) {
        return None;
    }
    let mut number = piece[1] - b'0';
    let mut length = 2;
    while length < piece.len() {
        let byte = piece[length];
        if !is_in(byte, Set::Digit) {
            return Some((length, number));
        }
        number = longer_number(number, byte)?;
        length += 1;
    }
    None
}
