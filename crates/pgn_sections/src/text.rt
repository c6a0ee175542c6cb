//! The text of a line after its tag pairs.
ghost use Rattle.std.specs.Prelude.{◌≡◌, ◌&&◌, ◌==◌};
ghost use Rattle.pgn_sections.specs.Text as spec;

use crate::outside::{Comment, OutsideText, Shape, comment_after, is_closed, outside_byte};
use pgn_lexer::is_space;

/// With which fronts of termination markers a word ends.
#[derive(Clone, Copy)]
pub(crate) struct MarkerFronts {
    /// `1`
    pub one: bool,
    /// `1-`
    pub one_dash: bool,
    /// `1-0`
    pub white_wins: bool,
    /// `0`
    pub zero: bool,
    /// `0-`
    pub zero_dash: bool,
    /// `0-1`
    pub black_wins: bool,
    /// `1/`
    pub one_slash: bool,
    /// `1/2`
    pub half: bool,
    /// `1/2-`
    pub half_dash: bool,
    /// `1/2-1`
    pub half_one: bool,
    /// `1/2-1/`
    pub half_slash: bool,
    /// `1/2-1/2`
    pub draw: bool,
    /// `*`
    pub asterisk: bool,
}

/// The last word so far.
#[derive(Clone, Copy)]
pub(crate) struct Word {
    pub fronts: MarkerFronts,
    /// Whether white space is after it.
    pub is_ended: bool,
}

/// A text that is read byte by byte.
#[derive(Clone, Copy)]
pub(crate) struct Text {
    pub comment: Comment,
    /// Where the last comment in braces begins.
    pub comment_at: Option<usize>,
    /// What is outside comments.
    pub shape: Shape,
    /// The last word outside comments.
    pub word: Word,
}

fn goes_on(has_front: bool, byte: u8, next: u8) -> bool
    ensures { result ≡ (has_front && (byte == next)) }
{
    has_front && byte == next
}

impl MarkerFronts {
    fn new() -> MarkerFronts
        ensures { result ≡ spec.no_fronts }
    {
        MarkerFronts {
            one: false,
            one_dash: false,
            white_wins: false,
            zero: false,
            zero_dash: false,
            black_wins: false,
            one_slash: false,
            half: false,
            half_dash: false,
            half_one: false,
            half_slash: false,
            draw: false,
            asterisk: false,
        }
    }

    // With one more byte of the word.
    fn with(self, byte: u8) -> MarkerFronts
        ensures { result ≡ spec.fronts_with self byte }
    {
        MarkerFronts {
            one: byte == b'1',
            one_dash: goes_on(self.one, byte, b'-'),
            white_wins: goes_on(self.one_dash, byte, b'0'),
            zero: byte == b'0',
            zero_dash: goes_on(self.zero, byte, b'-'),
            black_wins: goes_on(self.zero_dash, byte, b'1'),
            one_slash: goes_on(self.one, byte, b'/'),
            half: goes_on(self.one_slash, byte, b'2'),
            half_dash: goes_on(self.half, byte, b'-'),
            half_one: goes_on(self.half_dash, byte, b'1'),
            half_slash: goes_on(self.half_one, byte, b'/'),
            draw: goes_on(self.half_slash, byte, b'2'),
            asterisk: byte == b'*',
        }
    }

    fn has_marker(&self) -> bool
        ensures { result ≡ spec.has_marker self.now }
    {
        self.white_wins || self.black_wins || self.draw || self.asterisk
    }
}

impl Word {
    fn new() -> Word
        ensures { result ≡ spec.no_word }
    {
        Word {
            fronts: MarkerFronts::new(),
            is_ended: true,
        }
    }

    fn with(self, byte: u8) -> Word
        ensures { result ≡ spec.word_with self byte }
    {
        if is_space(byte) {
            return Word {
                is_ended: true,
                ..self
            };
        }
        let fronts = if self.is_ended {
            MarkerFronts::new()
        } else {
            self.fronts
        };
        Word {
            fronts: fronts.with(byte),
            is_ended: false,
        }
    }

    fn with_seen(self, seen: Option<u8>) -> Word
        ensures { result ≡ spec.word_with_seen self seen }
    {
        match seen {
            None => self,
            Some(byte) => self.with(byte),
        }
    }
}

impl Text {
    // No byte is read. A comment that was open before begins at `comment_at`.
    pub(crate) fn begin_in(comment: Comment, comment_at: Option<usize>) -> Text
        ensures { result ≡ spec.text_from comment comment_at }
    {
        Text {
            comment,
            comment_at,
            shape: Shape::new(),
            word: Word::new(),
        }
    }

    pub(crate) fn new() -> Text
        ensures { result ≡ spec.nothing_read }
    {
        Text::begin_in(Comment::Closed, None)
    }

    // With the byte at this place.
    pub(crate) fn with(self, place: usize, byte: u8) -> Text
        ensures { result ≡ spec.text_with self place byte }
    {
        let seen = outside_byte(self.comment, byte);
        Text {
            comment: comment_after(self.comment, byte),
            comment_at: if is_closed(self.comment) && byte == b'{' {
                Some(place)
            } else {
                self.comment_at
            },
            shape: self.shape.with_seen(seen),
            word: self.word.with_seen(seen),
        }
    }

    /// Where the comment in braces begins that is open, if one is.
    pub(crate) fn open_comment(&self) -> Option<usize>
        ensures { result ≡ spec.comment_of self.now }
    {
        match self.comment {
            Comment::Braces => self.comment_at,
            Comment::Closed | Comment::RestOfLine => None,
        }
    }

    /// What is seen of the text outside comments.
    pub(crate) fn outside(&self) -> OutsideText
        ensures { result ≡ spec.outside_of self.now }
    {
        self.shape.text(self.word.fronts.has_marker())
    }
}
