//! The tag pairs of an export text, as C gets them.
ghost use Rattle.std.specs.Prelude.{◌≡◌, ◌+◌, ◌≤◌, IfSome, MatchOption, None, Some, length};
ghost use Rattle.pgn_game.specs.games.FaultTable.{in_name};
ghost use Rattle.pgn_layout.specs.TagLine.{needs_escape};
ghost use Rattle.pgn_c.specs.TagAt.{TagResult, no_tag as no_tag_result};
ghost use Rattle.pgn_c.specs.TagScan as tag_scan;

use crate::pgn_result::{FAULT, OK};

/// The tag pair on a line of an export text, `struct pgn_tag` in C.
#[repr(C)]
#[derive(Clone, Copy)]
pub struct PgnTag {
    /// 0: there is one. 1: the line is no tag pair.
    pub status: u32,
    /// Where the name begins, and how many bytes it has.
    pub name_at: usize,
    pub name_length: usize,
    /// Where the value begins after its quote, and how many bytes it has up to the other one. In
    /// it each quote and each backslash has a backslash before it.
    pub value_at: usize,
    pub value_length: usize,
    /// Where the next line begins.
    pub next: usize,
}

/// The tag pair on the line that begins at this place.
pub fn tag_at(text: &[u8], at: usize) -> PgnTag
    ensures { TagResult text.now at result }
{
    if text.len() < at {
        return no_tag();
    }
    match first_pair(&text[at..]) {
        None => no_tag(),
        Some(pair) => PgnTag {
            status: OK,
            name_at: at + 1,
            name_length: pair.name,
            value_at: at + pair.name + 3,
            value_length: pair.value,
            next: at + pair.name + pair.value + 6,
        },
    }
}

// How many bytes the name of a tag pair has, and its value as it is written.
#[derive(Clone, Copy)]
pub struct PairLengths {
    pub name: usize,
    pub value: usize,
}

// The lengths of the tag pair on whose line the text begins.
fn first_pair(text: &[u8]) -> Option<PairLengths>
    ensures pair { result ≡ tag_scan.first_pair text.now }
    ensures within { IfSome result (λ pair. pair.name + pair.value + 6 ≤ length text.now) }
{
    match text_behind(text, b"[") {
        None => None,
        Some(text) => pair_behind_bracket(text),
    }
}

// The lengths of the pair, if the text has what is after its bracket.
fn pair_behind_bracket(text: &[u8]) -> Option<PairLengths>
    ensures { result ≡ tag_scan.pair_behind_name (tag_scan.name_length text.now) text.now }
{
    let name = name_length(text);
    if name < 1 || 255 < name {
        return None;
    }
    match text_behind(&text[name..], b" \"") {
        None => None,
        Some(text) => pair_behind_quote(name, text),
    }
}

// The lengths of the pair, if the text has what is after the first quote.
fn pair_behind_quote(name: usize, text: &[u8]) -> Option<PairLengths>
    ensures { result ≡ tag_scan.pair_behind_value name text.now (tag_scan.value_length text.now) }
{
    match value_length(text) {
        None => None,
        Some(value) => match text_behind(&text[value..], b"\"]\n") {
            None => None,
            Some(_) => Some(PairLengths { name, value }),
        },
    }
}

// The text after these bytes, if it begins with them.
fn text_behind<'a>(text: &'a [u8], front: &[u8]) -> Option<&'a [u8]>
    ensures { MatchOption result (tag_scan.text_behind front.now text.now ≡ None)
        (λ rest. tag_scan.text_behind front.now text.now ≡ Some rest.now) }
{
    text.strip_prefix(front)
}

// How many bytes at the front can be in a name.
fn name_length(text: &[u8]) -> usize
    ensures value { result ≡ tag_scan.name_length text.now }
    ensures within { result ≤ length text.now }
{
    for (index, byte) in text.iter().enumerate() {
        if !is_name_byte(*byte) {
            return index;
        }
    }
    text.len()
}

// Whether the byte can be in a name (PGN 8.1).
fn is_name_byte(byte: u8) -> bool
    ensures { result ≡ in_name byte }
{
    byte.is_ascii_alphanumeric() || byte == b'_'
}

// How many bytes of a value are before its quote. Each backslash has to be before a quote or a
// backslash (PGN 7).
fn value_length(text: &[u8]) -> Option<usize>
    ensures value { result ≡ tag_scan.value_length text.now }
    ensures within { IfSome result (λ value. value ≤ length text.now) }
{
    let mut is_behind_backslash = false;
    for (index, byte) in text.iter().enumerate() {
        if is_behind_backslash {
            if !is_escaped(*byte) {
                return None;
            }
            is_behind_backslash = false;
        } else if *byte == b'"' {
            return Some(index);
        } else {
            is_behind_backslash = *byte == b'\\';
        }
    }
    None
}

// Whether a backslash is written before the byte (PGN 7).
fn is_escaped(byte: u8) -> bool
    ensures { result ≡ needs_escape byte }
{
    byte == b'"' || byte == b'\\'
}

// The result where there is no tag pair.
fn no_tag() -> PgnTag
    ensures { result ≡ no_tag_result }
{
    PgnTag {
        status: FAULT,
        name_at: 0,
        name_length: 0,
        value_at: 0,
        value_length: 0,
        next: 0,
    }
}
