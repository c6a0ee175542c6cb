//! The tag section of a game.
ghost use Rattle.std.specs.Prelude.{◌≡◌, ◌+◌, ◌<◌, ◌≤◌, Some, None, codes, length, option_map, slice_get};
ghost use Rattle.std.specs.Option.{option_copied};
ghost use Rattle.pgn_layout.specs.Device.{WritesText, device};
ghost use Rattle.pgn_layout.specs.TagLine.{escaped};
ghost use Rattle.pgn_game.specs.games.Markers.{missing_of};
ghost use Rattle.pgn_game.specs.games.Profile.{known_result};
ghost use Rattle.pgn_game.specs.games.Pairs.{value_of, has_pair};
ghost use Rattle.pgn_game.specs.steps.SectionLines.{text_by, roster_line, other_line};
ghost use Rattle.pgn_game.specs.steps.StoredPairs.{ValueResult};
ghost use Rattle.pgn_game.specs.public.NameAndValue.{pair_of};
ghost use Rattle.pgn_game.specs.steps.SectionPairs as spec;
ghost use Rattle.pgn_game.specs.steps.SectionPairs.{NthResult, others};
ghost use Rattle.pgn_game.specs.export.TagSection.{roster, in_roster, exported, other_pairs, tag_lines, tag_section, with_set_up};

use crate::marker::{Marker, MissingResult};
use crate::mode::Mode;
use crate::ordered::{OrderedPairs, index_of, value_in};
use crate::pair::TagPair;
use pgn_layout::{Sink, WriteFault, end_tags, write_tag};

/// The name of the pair that says whether a game begins from a FEN (PGN 9.7.1).
const SET_UP: &[u8] = b"SetUp";

/// Its value if a game does.
const FROM_FEN: &[u8] = b"1";

/// Writes the tag section: the roster, in full mode the other pairs, and an empty line (PGN 8.1).
///
/// A roster pair that the game lacks has its default, which for Result is what is known of a
/// missing one. Beside a FEN, SetUp is 1 (PGN 9.7.1). `has_fen` says whether one is among the
/// pairs.
///
/// # Errors
///
/// `WriteFault` if a write failed. A prefix of the section was written.
#[inline(never)]
pub fn write_section<W: Sink>(
    mode: Mode,
    missing_result: MissingResult,
    pairs: &OrderedPairs<'_>,
    has_fen: bool,
    out: &mut W,
) -> Result<(), WriteFault>
    requires { has_fen ≡ has_pair pairs.now (codes "FEN") }
    ensures { WritesText (device W.taken W.failures out.old out.new) result
        (tag_section mode (known_result (missing_of missing_result)) pairs.now) }
{
    write_roster(missing_result, pairs, out)?;
    match mode {
        Mode::Reduced => end_tags(out),
        Mode::Full => {
            write_others(pairs, has_fen, out)?;
            end_tags(out)
        }
    }
}

/// Returns the value of this name in the tag section, if there is one.
pub fn exported_value<'a>(
    mode: Mode,
    missing_result: MissingResult,
    pairs: &OrderedPairs<'a>,
    has_fen: bool,
    name: &[u8],
) -> Option<&'a [u8]>
    requires { has_fen ≡ has_pair pairs.now (codes "FEN") }
    ensures { option_copied result
        ≡ value_of (exported mode (known_result (missing_of missing_result)) pairs.now) name.now }
{
    let unknown = unknown_value(missing_result, name);
    if unknown.is_none() && mode == Mode::Reduced {
        return None;
    }
    match value_with_set_up(pairs, has_fen, name) {
        Some(value) => Some(value),
        None => unknown,
    }
}

/// Returns the name and the value of the pair of the tag section that has so many before it, if
/// there is one.
pub fn exported_pair<'a>(
    mode: Mode,
    missing_result: MissingResult,
    pairs: &OrderedPairs<'a>,
    has_fen: bool,
    index: usize,
) -> Option<(&'a [u8], &'a [u8])>
    requires { has_fen ≡ has_pair pairs.now (codes "FEN") }
    ensures { option_map pair_of result
        ≡ slice_get (exported mode (known_result (missing_of missing_result)) pairs.now) index }
{
    if index < 7 {
        let (name, unknown) = roster_pair(missing_result, index);
        return Some((name, value_in(pairs, name).unwrap_or(unknown)));
    }
    match mode {
        Mode::Reduced => None,
        Mode::Full => other_pair(pairs, has_fen, index - 7),
    }
}

// Returns the pair outside the roster that has so many such pairs before it, SetUp 1 among them if
// there is a FEN.
fn other_pair<'a>(
    pairs: &OrderedPairs<'a>,
    has_fen: bool,
    index: usize,
) -> Option<(&'a [u8], &'a [u8])>
    requires { has_fen ≡ has_pair pairs.now (codes "FEN") }
    ensures { option_map pair_of result
        ≡ slice_get (other_pairs (with_set_up pairs.now)) index }
{
    if !has_fen {
        return nth_pair(pairs, false, index).ok();
    }
    let (before, after) = pairs.split_at(index_of(pairs, SET_UP));
    match nth_pair(&before, true, index) {
        Ok(pair) => Some(pair),
        Err(left) => {
            if left == 0 {
                return Some((SET_UP, FROM_FEN));
            }
            nth_pair(&after, true, left - 1).ok()
        }
    }
}

// Returns the pair that has so many before it, of those that are outside the roster, and no second
// SetUp beside a FEN. If there is none, the error is how many more there would have to be.
fn nth_pair<'a>(
    pairs: &OrderedPairs<'a>,
    has_fen: bool,
    index: usize,
) -> Result<(&'a [u8], &'a [u8]), usize>
    ensures { NthResult (others has_fen pairs.now) index result }
{
    let mut left = index;
    for at in 0..pairs.len() {
        let pair = pairs.at(at);
        match left_behind(pair, has_fen, left) {
            None => return Ok((pair.name(), pair.value())),
            Some(rest) => left = rest,
        }
    }
    Err(left)
}

// Returns how many pairs are left to pass after this one. `None` if it is the one that is sought.
fn left_behind(pair: &TagPair, has_fen: bool, left: usize) -> Option<usize>
    ensures { result ≡ spec.left_behind (spec.is_other has_fen pair.now) left }
{
    if !is_other(pair, has_fen) {
        return Some(left);
    }
    if left == 0 {
        return None;
    }
    Some(left - 1)
}

// Whether a pair is outside the roster, and no second SetUp beside a FEN.
fn is_other(pair: &TagPair, has_fen: bool) -> bool
    ensures { result ≡ spec.is_other has_fen pair.now }
{
    !(is_in_roster(pair.name()) || (has_fen && pair.name() == SET_UP))
}

// The value of a name, with SetUp 1 if there is a FEN (PGN 9.7.1).
fn value_with_set_up<'a>(pairs: &OrderedPairs<'a>, has_fen: bool, name: &[u8]) -> Option<&'a [u8]>
    requires { has_fen ≡ has_pair pairs.now (codes "FEN") }
    ensures value { option_copied result ≡ value_of (with_set_up pairs.now) name.now }
{
    if name == SET_UP && has_fen {
        return Some(FROM_FEN);
    }
    value_in(pairs, name)
}

// The default of a missing roster tag (PGN 8.1.1).
fn unknown_value(missing_result: MissingResult, name: &[u8]) -> Option<&'static [u8]>
    ensures { ValueResult (roster (known_result (missing_of missing_result))) name.now result }
{
    for index in 0..7 {
        let (known, unknown) = roster_pair(missing_result, index);
        if name == known {
            return Some(unknown);
        }
    }
    None
}

// Writes the pairs of the roster.
fn write_roster<W: Sink>(
    missing_result: MissingResult,
    pairs: &OrderedPairs<'_>,
    out: &mut W,
) -> Result<(), WriteFault>
    ensures { WritesText (device W.taken W.failures out.old out.new) result
        (text_by (roster_line pairs.now) (roster (known_result (missing_of missing_result)))) }
{
    for index in 0..7 {
        let (name, unknown) = roster_pair(missing_result, index);
        let value = value_in(pairs, name).unwrap_or(unknown);
        write_tag(name, value, out)?;
    }
    Ok(())
}

// Writes the pairs outside the roster, SetUp 1 among them if there is a FEN (PGN 9.7.1).
fn write_others<W: Sink>(
    pairs: &OrderedPairs<'_>,
    has_fen: bool,
    out: &mut W,
) -> Result<(), WriteFault>
    requires { has_fen ≡ has_pair pairs.now (codes "FEN") }
    ensures { WritesText (device W.taken W.failures out.old out.new) result
        (tag_lines (other_pairs (with_set_up pairs.now))) }
{
    if !has_fen {
        return write_pairs(pairs, false, out);
    }
    let (before, after) = pairs.split_at(index_of(pairs, SET_UP));
    write_pairs(&before, true, out)?;
    write_tag(SET_UP, FROM_FEN, out)?;
    write_pairs(&after, true, out)
}

// Writes those of the pairs that are outside the roster, and no second SetUp beside a FEN.
fn write_pairs<W: Sink>(
    pairs: &OrderedPairs<'_>,
    has_fen: bool,
    out: &mut W,
) -> Result<(), WriteFault>
    ensures { WritesText (device W.taken W.failures out.old out.new) result
        (text_by (other_line has_fen) pairs.now) }
{
    for index in 0..pairs.len() {
        write_other(pairs.at(index), has_fen, out)?;
    }
    Ok(())
}

// Writes the pair, unless it is in the roster, or a second SetUp beside a FEN.
fn write_other<W: Sink>(pair: &TagPair, has_fen: bool, out: &mut W) -> Result<(), WriteFault>
    ensures { WritesText (device W.taken W.failures out.old out.new) result
        (other_line has_fen pair.now) }
{
    if !is_other(pair, has_fen) {
        return Ok(());
    }
    write_tag(pair.name(), pair.value(), out)
}

#[tactic(auto, unfolding(crate::specs::export::TagSection::roster))]
// A name of the roster and its default, by its place in the roster (PGN 8.1.1).
fn roster_pair(missing_result: MissingResult, index: usize) -> (&'static [u8], &'static [u8])
    requires { index < 7 }
    ensures pair { slice_get (roster (known_result (missing_of missing_result))) index
        ≡ Some (record { name = result.0.now; value = result.1.now }) }
    ensures fits { length result.0.now + length (escaped result.1.now) ≤ 249 }
{
    match index {
        0 => (b"Event", b"?"),
        1 => (b"Site", b"?"),
        2 => (b"Date", b"????.??.??"),
        3 => (b"Round", b"?"),
        4 => (b"White", b"?"),
        5 => (b"Black", b"?"),
        _ => (b"Result", missing_result.known_text()),
    }
}

// Whether a name is one of the roster (PGN 8.1.1).
fn is_in_roster(name: &[u8]) -> bool
    ensures { result ≡ in_roster name.now }
{
    unknown_value(MissingResult::CountsAs(Marker::Unknown), name).is_some()
}
