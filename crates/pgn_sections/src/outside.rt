//! What a line of a bad game has outside tag pairs and comments.
ghost use Rattle.std.specs.Prelude.{◌≡◌};
ghost use Rattle.pgn_sections.specs.Outside as spec;
ghost use Rattle.pgn_sections.specs.declared.outside.Number.TheVariants.{Blank};
ghost use Rattle.pgn_sections.specs.Shape.{begun, shape_has_number, shape_has_text, shape_with, text_of_shape};
ghost use Rattle.pgn_sections.specs.Text.{shape_with_seen};

use pgn_lexer::{is_digit, is_space};

/// The comment that is open.
#[derive(Clone, Copy)]
pub(crate) enum Comment {
    Closed,
    Braces,
    RestOfLine,
}

/// How much of a move number is read: digits with a period after them.
#[derive(Clone, Copy)]
pub(crate) enum Number {
    Blank,
    Digits,
    BehindDigits,
    Found,
    Missing,
}

/// What is seen of the text outside tag pairs and comments.
#[derive(Clone, Copy)]
pub(crate) struct OutsideText {
    pub has_tag: bool,
    /// Whether there is text beside tag pairs.
    pub has_text: bool,
    /// Whether it begins with a move number, or ends with a termination marker.
    pub is_movetext: bool,
}

// What the bytes so far have, apart from their last word.
#[derive(Clone, Copy)]
pub(crate) struct Shape {
    pub first: Option<u8>,
    pub last: Option<u8>,
    pub has_bracket: bool,
    pub number: Number,
    pub number_behind_bracket: Number,
}

pub(crate) fn comment_after(comment: Comment, byte: u8) -> Comment
    ensures { result ≡ spec.comment_after comment byte }
{
    match comment {
        Comment::Closed => {
            if byte == b'{' {
                Comment::Braces
            } else if byte == b';' {
                Comment::RestOfLine
            } else {
                Comment::Closed
            }
        }
        Comment::Braces => {
            if byte == b'}' {
                Comment::Closed
            } else {
                Comment::Braces
            }
        }
        Comment::RestOfLine => Comment::RestOfLine,
    }
}

// The byte that the line has outside comments. A comment counts as a space.
pub(crate) fn outside_byte(comment: Comment, byte: u8) -> Option<u8>
    ensures { result ≡ spec.outside_byte comment byte }
{
    match comment {
        Comment::Closed => Some(if byte == b'{' || byte == b';' {
            b' '
        } else {
            byte
        }),
        Comment::Braces | Comment::RestOfLine => None,
    }
}

pub(crate) fn is_closed(comment: Comment) -> bool
    ensures { result ≡ spec.is_closed comment }
{
    match comment {
        Comment::Closed => true,
        Comment::Braces | Comment::RestOfLine => false,
    }
}

pub(crate) fn is_byte(found: Option<u8>, byte: u8) -> bool
    ensures { result ≡ spec.is_byte byte found }
{
    match found {
        None => false,
        Some(found) => found == byte,
    }
}

fn number_after(number: Number, byte: u8) -> Number
    ensures { result ≡ spec.number_after number byte }
{
    match number {
        Number::Blank => {
            if is_digit(byte) {
                Number::Digits
            } else if is_space(byte) {
                Number::Blank
            } else {
                Number::Missing
            }
        }
        Number::Digits => {
            if is_digit(byte) {
                Number::Digits
            } else if byte == b'.' {
                Number::Found
            } else if is_space(byte) {
                Number::BehindDigits
            } else {
                Number::Missing
            }
        }
        Number::BehindDigits => {
            if byte == b'.' {
                Number::Found
            } else if is_space(byte) {
                Number::BehindDigits
            } else {
                Number::Missing
            }
        }
        Number::Found => Number::Found,
        Number::Missing => Number::Missing,
    }
}

fn is_found(number: Number) -> bool
    ensures { result ≡ spec.is_found number }
{
    match number {
        Number::Found => true,
        _ => false,
    }
}

impl Shape {
    pub(crate) fn new() -> Shape
        ensures { result ≡ begun }
    {
        Shape {
            first: None,
            last: None,
            has_bracket: false,
            number: Number::Blank,
            number_behind_bracket: Number::Blank,
        }
    }

    // What the bytes have with one more.
    fn with(self, byte: u8) -> Shape
        ensures { result ≡ shape_with self byte }
    {
        let is_blank = is_space(byte);
        let is_bracket = byte == b']';
        Shape {
            first: if is_blank || self.first.is_some() {
                self.first
            } else {
                Some(byte)
            },
            last: if is_blank { self.last } else { Some(byte) },
            has_bracket: self.has_bracket || is_bracket,
            number: number_after(self.number, byte),
            number_behind_bracket: if is_bracket {
                Number::Blank
            } else {
                number_after(self.number_behind_bracket, byte)
            },
        }
    }

    // What they have with one more, if it is outside comments.
    pub(crate) fn with_seen(self, seen: Option<u8>) -> Shape
        ensures { result ≡ shape_with_seen self seen }
    {
        match seen {
            None => self,
            Some(byte) => self.with(byte),
        }
    }

    fn begins_with_tag(&self) -> bool
        ensures { result ≡ spec.is_byte 91 self.now.first }
    {
        is_byte(self.first, b'[')
    }

    fn ends_with_tag(&self) -> bool
        ensures { result ≡ spec.is_byte 93 self.now.last }
    {
        is_byte(self.last, b']')
    }

    fn has_text(&self) -> bool
        ensures { result ≡ shape_has_text self.now }
    {
        self.first.is_some()
            && !self.ends_with_tag()
            && (!self.begins_with_tag() || self.has_bracket)
    }

    fn begins_with_number(&self) -> bool
        ensures { result ≡ shape_has_number self.now }
    {
        if self.begins_with_tag() {
            is_found(self.number_behind_bracket)
        } else {
            is_found(self.number)
        }
    }

    // What is seen of the text, if its last word ends with a termination marker or not.
    pub(crate) fn text(self, is_marked: bool) -> OutsideText
        ensures { result ≡ text_of_shape self is_marked }
    {
        OutsideText {
            has_tag: self.begins_with_tag() || self.ends_with_tag(),
            has_text: self.has_text(),
            is_movetext: self.begins_with_number() || is_marked,
        }
    }
}
