//! Tag pairs at the front of a line, and the text after them.
ghost use Rattle.std.specs.Prelude.{◌≡◌};
ghost use Rattle.pgn_sections.specs.PairProgress as spec;
ghost use Rattle.pgn_sections.specs.declared.pair.PairProgress.TheVariants.{BehindBackslash, BehindLeft, BehindValue};

use crate::bytes::{is_name_byte, is_stray_or_mark};
use crate::text::Text;
use pgn_lexer::{is_line_end, is_space};

/// What is read of tag pairs at the front of a line.
#[derive(Clone, Copy)]
pub(crate) enum PairProgress {
    /// Stray bytes and bytes of marks alone.
    Stray,
    /// A left bracket, and white space.
    BehindLeft,
    /// Bytes of a name.
    InName,
    /// The name, and white space.
    BehindName,
    /// The quote, and bytes of the value.
    InValue,
    /// A backslash of the value, which can escape the next byte.
    BehindBackslash,
    /// The quote that ends the value, and white space.
    BehindValue,
    /// A whole pair, and white space.
    Whole,
    /// What is no pair.
    Missing,
}

/// The front of a line that is read byte by byte.
#[derive(Clone, Copy)]
pub(crate) struct FrontOfLine {
    pub pair: PairProgress,
    /// Whether the line begins with a whole tag pair.
    pub has_pair: bool,
    /// The text after the last whole pair.
    pub text: Text,
}

fn at_pair(byte: u8) -> PairProgress
    ensures { result ≡ spec.at_pair byte }
{
    if byte == b'[' {
        PairProgress::BehindLeft
    } else {
        PairProgress::Missing
    }
}

fn behind_left(byte: u8) -> PairProgress
    ensures { result ≡ spec.pair_after BehindLeft byte }
{
    if is_space(byte) {
        PairProgress::BehindLeft
    } else if is_name_byte(byte) {
        PairProgress::InName
    } else {
        PairProgress::Missing
    }
}

fn behind_name(byte: u8) -> PairProgress
    ensures { result ≡ spec.behind_name byte }
{
    if is_space(byte) {
        PairProgress::BehindName
    } else if byte == b'"' {
        PairProgress::InValue
    } else {
        PairProgress::Missing
    }
}

fn in_value(byte: u8) -> PairProgress
    ensures { result ≡ spec.in_value byte }
{
    if byte == b'"' {
        PairProgress::BehindValue
    } else if is_line_end(byte) {
        PairProgress::Missing
    } else if byte == b'\\' {
        PairProgress::BehindBackslash
    } else {
        PairProgress::InValue
    }
}

// A backslash escapes a quote and another backslash alone.
fn behind_backslash(byte: u8) -> PairProgress
    ensures { result ≡ spec.pair_after BehindBackslash byte }
{
    if is_line_end(byte) {
        PairProgress::Missing
    } else {
        PairProgress::InValue
    }
}

fn behind_value(byte: u8) -> PairProgress
    ensures { result ≡ spec.pair_after BehindValue byte }
{
    if is_space(byte) {
        PairProgress::BehindValue
    } else if byte == b']' {
        PairProgress::Whole
    } else {
        PairProgress::Missing
    }
}

fn pair_after(pair: PairProgress, byte: u8) -> PairProgress
    ensures { result ≡ spec.pair_after pair byte }
{
    match pair {
        PairProgress::Stray => if is_stray_or_mark(byte) {
            PairProgress::Stray
        } else {
            at_pair(byte)
        },
        PairProgress::BehindLeft => behind_left(byte),
        PairProgress::InName => if is_name_byte(byte) {
            PairProgress::InName
        } else {
            behind_name(byte)
        },
        PairProgress::BehindName => behind_name(byte),
        PairProgress::InValue => in_value(byte),
        PairProgress::BehindBackslash => behind_backslash(byte),
        PairProgress::BehindValue => behind_value(byte),
        PairProgress::Whole => if is_space(byte) {
            PairProgress::Whole
        } else {
            at_pair(byte)
        },
        PairProgress::Missing => PairProgress::Missing,
    }
}

fn is_whole(pair: PairProgress) -> bool
    ensures { result ≡ spec.is_whole pair }
{
    match pair {
        PairProgress::Whole => true,
        _ => false,
    }
}

// Between tag pairs the text begins anew.
fn is_between(pair: PairProgress) -> bool
    ensures { result ≡ spec.is_between pair }
{
    match pair {
        PairProgress::Stray => true,
        PairProgress::Whole => true,
        _ => false,
    }
}

impl FrontOfLine {
    // With the byte at this place of the text.
    pub(crate) fn with(self, place: usize, byte: u8) -> FrontOfLine
        ensures { result ≡ spec.front_with self place byte }
    {
        let pair = pair_after(self.pair, byte);
        FrontOfLine {
            pair,
            has_pair: self.has_pair || is_whole(pair),
            text: if is_between(pair) {
                Text::new()
            } else {
                self.text.with(place, byte)
            },
        }
    }
}
