//! A line that begins a tag section.
ghost use Rattle.std.specs.Prelude.{◌≡◌, ◌≤◌, IfSome};
ghost use Rattle.pgn_sections.specs.TagLine as line;
ghost use Rattle.pgn_sections.specs.TagProgress as spec;
ghost use Rattle.pgn_sections.specs.declared.tag_line.TagProgress.TheVariants.{BehindBracket};

use crate::bytes::{is_name_byte, is_stray};
use pgn_lexer::is_space;

/// How many bytes of a byte order mark are read.
#[derive(Clone, Copy)]
pub(crate) enum MarkProgress {
    Outside,
    BehindFirst,
    BehindSecond,
}

/// How much of the name Event the bytes of a name so far are.
#[derive(Clone, Copy)]
pub(crate) enum EventName {
    Empty,
    E,
    Ev,
    Eve,
    Even,
    Event,
    Other,
}

/// What is read of a tag at the front of a line.
#[derive(Clone, Copy)]
pub(crate) enum TagProgress {
    /// Stray bytes and byte order marks alone.
    Front(MarkProgress),
    /// The bracket, and white space.
    BehindBracket,
    /// The bracket and bytes of a name.
    InName(EventName),
    /// The name, and white space.
    BehindName(EventName),
    /// The name, and the quote of its value.
    Quoted(EventName),
    /// A bracket without a name and a quote.
    Unquoted,
    /// The line begins with no tag.
    Missing,
}

/// A tag at the front of a line that is read byte by byte.
#[derive(Clone, Copy)]
pub(crate) struct TagSearch {
    pub progress: TagProgress,
    /// How many bytes of the line are before the bracket, if it is read.
    pub at: usize,
    /// Whether a byte order mark is just before the bracket.
    pub is_marked: bool,
}

/// A line that begins a tag section.
#[derive(Clone, Copy)]
pub(crate) struct TagLine {
    /// How many bytes of the line are before the tag.
    pub at: usize,
    /// Whether it has a name and the quote of its value.
    pub is_quoted: bool,
    /// Whether its name is Event.
    pub is_event: bool,
}

fn mark_after(progress: MarkProgress, byte: u8) -> Option<MarkProgress>
    ensures { result ≡ line.mark_after progress byte }
{
    match progress {
        MarkProgress::Outside => {
            if is_stray(byte) {
                Some(MarkProgress::Outside)
            } else if byte == 0xef {
                Some(MarkProgress::BehindFirst)
            } else {
                None
            }
        }
        MarkProgress::BehindFirst => {
            if byte == 0xbb {
                Some(MarkProgress::BehindSecond)
            } else {
                None
            }
        }
        MarkProgress::BehindSecond => {
            if byte == 0xbf {
                Some(MarkProgress::Outside)
            } else {
                None
            }
        }
    }
}

fn is_at_bracket(progress: MarkProgress, byte: u8) -> bool
    ensures { result ≡ line.is_at_bracket progress byte }
{
    match progress {
        MarkProgress::Outside => byte == b'[',
        _ => false,
    }
}

fn name_with(name: EventName, byte: u8) -> EventName
    ensures { result ≡ spec.name_with name byte }
{
    match name {
        EventName::Empty => if byte == b'E' {
            EventName::E
        } else {
            EventName::Other
        },
        EventName::E => if byte == b'v' {
            EventName::Ev
        } else {
            EventName::Other
        },
        EventName::Ev => if byte == b'e' {
            EventName::Eve
        } else {
            EventName::Other
        },
        EventName::Eve => if byte == b'n' {
            EventName::Even
        } else {
            EventName::Other
        },
        EventName::Even => if byte == b't' {
            EventName::Event
        } else {
            EventName::Other
        },
        EventName::Event => EventName::Other,
        EventName::Other => EventName::Other,
    }
}

fn is_event_name(name: EventName) -> bool
    ensures { result ≡ spec.is_event_name name }
{
    match name {
        EventName::Event => true,
        _ => false,
    }
}

fn front_after(mark: MarkProgress, byte: u8) -> TagProgress
    ensures { result ≡ spec.at_front mark byte (line.mark_after mark byte) }
{
    match mark_after(mark, byte) {
        Some(next) => TagProgress::Front(next),
        None => {
            if is_at_bracket(mark, byte) {
                TagProgress::BehindBracket
            } else {
                TagProgress::Missing
            }
        }
    }
}

fn behind_name(name: EventName, byte: u8) -> TagProgress
    ensures { result ≡ spec.behind_name name byte }
{
    if is_space(byte) {
        TagProgress::BehindName(name)
    } else if byte == b'"' {
        TagProgress::Quoted(name)
    } else {
        TagProgress::Unquoted
    }
}

// A percent sign after the bracket is that of a word such as `[%clk` in a comment.
fn behind_bracket(byte: u8) -> TagProgress
    ensures { result ≡ spec.tag_after BehindBracket byte }
{
    if is_space(byte) {
        TagProgress::BehindBracket
    } else if byte == b'%' {
        TagProgress::Missing
    } else if is_name_byte(byte) {
        TagProgress::InName(name_with(EventName::Empty, byte))
    } else {
        TagProgress::Unquoted
    }
}

fn tag_after(progress: TagProgress, byte: u8) -> TagProgress
    ensures { result ≡ spec.tag_after progress byte }
{
    match progress {
        TagProgress::Front(mark) => front_after(mark, byte),
        TagProgress::BehindBracket => behind_bracket(byte),
        TagProgress::InName(name) => {
            if is_name_byte(byte) {
                TagProgress::InName(name_with(name, byte))
            } else {
                behind_name(name, byte)
            }
        }
        TagProgress::BehindName(name) => behind_name(name, byte),
        TagProgress::Quoted(name) => TagProgress::Quoted(name),
        TagProgress::Unquoted => TagProgress::Unquoted,
        TagProgress::Missing => TagProgress::Missing,
    }
}

fn is_marked_after(mark: MarkProgress, is_marked: bool, byte: u8) -> bool
    ensures { result ≡ spec.is_marked_after mark is_marked byte }
{
    match mark {
        MarkProgress::Outside => is_marked && byte == b'[',
        MarkProgress::BehindFirst => false,
        MarkProgress::BehindSecond => byte == 0xbf,
    }
}

impl TagSearch {
    pub(crate) fn new() -> TagSearch
        ensures { result ≡ spec.no_tag_read }
    {
        TagSearch {
            progress: TagProgress::Front(MarkProgress::Outside),
            at: 0,
            is_marked: false,
        }
    }

    // With the byte at this place of the line.
    pub(crate) fn with(self, at: usize, byte: u8) -> TagSearch
        ensures { result ≡ spec.tag_with self at byte }
    {
        let progress = tag_after(self.progress, byte);
        match self.progress {
            TagProgress::Front(mark) => TagSearch {
                progress,
                at,
                is_marked: is_marked_after(mark, self.is_marked, byte),
            },
            _ => TagSearch { progress, ..self },
        }
    }

    // The tag, if the line ends here. A byte order mark just before the bracket is of the tag.
    pub(crate) fn found(&self) -> Option<TagLine>
        ensures tag { result ≡ spec.tag_found self.now }
        ensures within { IfSome result (λ tag. tag.at ≤ self.now.at) }
    {
        let at = if self.is_marked {
            self.at.saturating_sub(3)
        } else {
            self.at
        };
        match self.progress {
            TagProgress::Front(_) => None,
            TagProgress::Missing => None,
            TagProgress::Quoted(name) => Some(TagLine {
                at,
                is_quoted: true,
                is_event: is_event_name(name),
            }),
            _ => Some(TagLine {
                at,
                is_quoted: false,
                is_event: false,
            }),
        }
    }
}
