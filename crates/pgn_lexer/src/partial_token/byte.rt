//! What one byte, or the end of the text, does to the current token, mode by mode.

ghost use Rattle.std.specs.Prelude.{◌≡◌, ◌<◌, [], ◌∷◌, ◌++◌, length};
ghost use Rattle.pgn_lexer.specs.ByteResult as byte_result;
ghost use Rattle.pgn_lexer.specs.StringClass as string_classes;

use crate::class::{Set, is_escaped, is_in};
use crate::partial_token::begins::{Begins, begins_in_comment, begins_outside};
use crate::partial_token::{
    ByteResult, CommentEnd, LexMode, PartialToken, Text, TokenForm, clear, longer_number,
};
use crate::token::LexReason;

impl PartialToken {
    ghost use Rattle.pgn_lexer.specs.Spelling as spelling;
    ghost use Rattle.pgn_lexer.specs.Begins.{Fits};
    ghost use Rattle.pgn_lexer.specs.ByteResult.{IsAfterByte};
    ghost use Rattle.pgn_lexer.specs.PartialToken.{HasMore};
    ghost use Rattle.pgn_lexer.specs.Texts.{longest_of, too_long_of};

    /// Takes the byte at the place: gives it to the handler of the mode.
    #[inline(always)]
    #[tactic(auto, unfolding(crate::specs::ByteResult::after_byte))]
    pub(crate) fn take(&mut self, byte: u8, place: u64) -> ByteResult
        ensures { IsAfterByte (byte_result.after_byte place self.old byte) self.new result }
    {
        match self.mode {
            LexMode::Start if byte == 0xEF => self.go(LexMode::AfterEf),
            LexMode::AfterEf => self.mark(0xBB, LexMode::AfterEfBb, byte),
            LexMode::AfterEfBb => self.mark(0xBF, LexMode::LineStart, byte),
            LexMode::Start | LexMode::LineStart if byte == b'%' => self.go(LexMode::EscapeLine),
            LexMode::Start | LexMode::LineStart | LexMode::Outside => self.begin(
                begins_outside(byte),
                byte,
                place,
            ),
            LexMode::EscapeLine if is_in(byte, Set::LineEnd) => self.go(LexMode::LineStart),
            LexMode::EscapeLine => ByteResult::Used,
            // These two are the most common: each knows its set of bytes.
            LexMode::Text(Text::Symbol) => self.text(Text::Symbol, byte, place),
            LexMode::Text(Text::Str) => self.text(Text::Str, byte, place),
            LexMode::Text(text) => self.text(text, byte, place),
            LexMode::AfterBackslash => self.after_backslash(byte, place),
            LexMode::Dollar => self.dollar(byte),
            LexMode::Glyph(number) => self.glyph(number, byte),
            LexMode::Comment(close) => self.begin(begins_in_comment(byte, close), byte, place),
            LexMode::Failed(reason) => ByteResult::Fault(reason),
        }
    }

    /// Ends the text at the place: gives a token that is left, after which there may be more, or
    /// the end. It ends a token as a line feed does.
    #[tactic(auto, unfolding(crate::specs::ByteResult::after_end))]
    pub(crate) fn end_text(&mut self, place: u64) -> ByteResult
        ensures { IsAfterByte (byte_result.after_end place self.old) self.new result }
    {
        match self.mode {
            LexMode::Start | LexMode::LineStart | LexMode::Outside | LexMode::EscapeLine =>
                ByteResult::Used,
            LexMode::Comment(CommentEnd::Brace) => self.fail(place, LexReason::UnclosedComment),
            _ => self.take(b'\n', place),
        }
    }

    fn fail(&mut self, at: u64, reason: LexReason) -> ByteResult
        ensures { IsAfterByte (byte_result.fails self.old at reason) self.new result }
    {
        self.at = at;
        self.mode = LexMode::Failed(reason);
        ByteResult::Fault(reason)
    }

    /// One byte more of a byte order mark.
    fn mark(&mut self, wanted: u8, mode: LexMode, byte: u8) -> ByteResult
        requires { HasMore mode self.old.text }
        ensures { IsAfterByte (byte_result.mark wanted mode self.old byte) self.new result }
    {
        if byte != wanted {
            return self.fail(0, LexReason::StrayByte);
        }
        self.go(mode)
    }

    /// A byte between tokens, which begins this.
    fn begin(&mut self, begins: Begins, byte: u8, place: u64) -> ByteResult
        requires { Fits begins self.old.text }
        ensures { IsAfterByte (byte_result.begin place self.old byte begins) self.new result }
    {
        self.at = place;
        match begins {
            Begins::Gap(mode) => self.go(mode),
            Begins::Text(text) => {
                clear(&mut self.buffer);
                self.buffer.push(byte);
                self.mode = LexMode::Text(text);
                ByteResult::Used
            }
            Begins::Str => {
                clear(&mut self.buffer);
                self.mode = LexMode::Text(Text::Str);
                ByteResult::Used
            }
            Begins::Dollar => self.go(LexMode::Dollar),
            Begins::Alone(sign, mode) => self.end(mode, TokenForm::Sign(sign)),
            Begins::Refused(reason) => self.fail(place, reason),
        }
    }

    /// The byte is one more of the text, or ends it.
    #[inline(always)]
    fn text(&mut self, text: Text, byte: u8, place: u64) -> ByteResult
        requires { self.old.mode ≡ LexMode.Text text }
        ensures { IsAfterByte (byte_result.in_text text place self.old byte) self.new result }
    {
        if is_in(byte, text.bytes()) {
            return self.push(text, byte, LexMode::Text(text));
        }
        if let Text::Str = text {
            return self.end_string(byte, place);
        }
        self.mode = text.mode_behind();
        ByteResult::EndsBefore(TokenForm::Text(text))
    }

    /// Stores one byte more of the text, and goes on in the mode.
    #[inline(always)]
    fn push(&mut self, text: Text, byte: u8, mode: LexMode) -> ByteResult
        requires { length self.old.text < longest_of text
            → HasMore mode (self.old.text ++ byte ∷ []) }
        ensures { IsAfterByte (byte_result.if_room (longest_of text) (too_long_of text) self.old
            (byte_result.grown self.old mode byte)) self.new result }
    {
        if self.buffer.len() >= text.longest() {
            return self.fail(self.at, text.too_long());
        }
        self.buffer.push(byte);
        self.mode = mode;
        ByteResult::Used
    }

    fn dollar(&mut self, byte: u8) -> ByteResult
        ensures { IsAfterByte (byte_result.dollar self.old byte) self.new result }
    {
        if !is_in(byte, Set::Digit) {
            return self.fail(self.at, LexReason::LoneDollar);
        }
        self.go(LexMode::Glyph(byte - b'0'))
    }

    /// The next byte of `$` and digits, whose number so far is this one (PGN 10).
    fn glyph(&mut self, number: u8, byte: u8) -> ByteResult
        ensures { IsAfterByte (byte_result.glyph self.old number byte) self.new result }
    {
        if !is_in(byte, Set::Digit) {
            self.mode = LexMode::Outside;
            return ByteResult::EndsBefore(TokenForm::Glyph(number));
        }
        match longer_number(number, byte) {
            Some(longer) => self.go(LexMode::Glyph(longer)),
            None => self.fail(self.at, LexReason::GlyphRange),
        }
    }

    /// A byte that is no data of the string.
    fn end_string(&mut self, byte: u8, place: u64) -> ByteResult
        requires text { self.old.mode ≡ LexMode.Text Text.Str }
        requires other { spelling.string_class byte ≡ string_classes.Plain → ⊥ }
        ensures { IsAfterByte
            (byte_result.string place self.old byte (spelling.string_class byte)) self.new result }
    {
        match byte {
            b'"' => self.end(LexMode::Outside, TokenForm::Text(Text::Str)),
            b'\\' => self.push(Text::Str, byte, LexMode::AfterBackslash),
            b'\n' | b'\r' => self.fail(self.at, LexReason::UnclosedString),
            _ => self.fail(place, LexReason::ControlByte),
        }
    }

    /// An escaped byte takes the place of the backslash. Another one is read by itself.
    fn after_backslash(&mut self, byte: u8, place: u64) -> ByteResult
        requires { self.old.mode ≡ LexMode.AfterBackslash }
        ensures { IsAfterByte (byte_result.after_backslash place self.old byte) self.new result }
    {
        self.mode = LexMode::Text(Text::Str);
        if is_escaped(byte) {
            self.buffer.pop();
            self.buffer.push(byte);
            return ByteResult::Used;
        }
        self.text(Text::Str, byte, place)
    }

    fn go(&mut self, mode: LexMode) -> ByteResult
        requires { HasMore mode self.old.text }
        ensures { IsAfterByte (byte_result.into self.old mode ByteResult.Used) self.new result }
    {
        self.mode = mode;
        ByteResult::Used
    }

    fn end(&mut self, mode: LexMode, form: TokenForm) -> ByteResult
        requires { HasMore mode self.old.text }
        ensures { IsAfterByte (byte_result.into self.old mode (ByteResult.Ends form)) self.new
            result }
    {
        self.mode = mode;
        ByteResult::Ends(form)
    }
}
