//! The tags that items have: one by one, and where a missing Result takes the marker.
use crate::tests::items::{Drops, LENGTHS, UsualItems, append};
use crate::{Vector, tables};
use pgn_game::{Fault, Inlet, Item, Outlet, Reason};
use std::process::Abort;

/// Appends the line of a tag pair: a quote and a backslash of its value have a backslash before
/// them (PGN 7).
fn append_pair(name: &[u8], value: &[u8], text: &mut Vec<u8>) {
    append(text, b"[");
    append(text, name);
    append(text, b" \"");
    for byte in value {
        if *byte == b'"' || *byte == b'\\' {
            append(text, b"\\");
        }
        append(text, &[*byte]);
    }
    append(text, b"\"]\n");
}

/// Appends the lines of all pairs, and returns how many there are.
fn append_pairs(rt: &impl Abort, items: &UsualItems, text: &mut Vec<u8>) -> usize {
    // A game has fewer pairs than that.
    for index in 0..usize::MAX {
        let Some((name, value)) = items.pair(index) else {
            return index;
        };
        assert!(rt; items.tag(name) == Some(value));
        append_pair(name, value, text);
    }
    0
}

/// The pairs are those of the tag section.
fn has_pairs(rt: &impl Abort, items: &UsualItems, text: &mut Vec<u8>, section: &mut Vec<u8>) {
    section.clear();
    assert!(rt; items.write_tags(&mut Outlet::new(&mut *section)).is_ok());
    text.clear();
    let count = append_pairs(rt, items, text);
    append(text, b"\n");
    assert!(rt; text.as_slice() == section.as_slice());
    assert!(rt; count >= 7);
    assert!(rt; items.pair(count.saturating_add(1)).is_none());
    assert!(rt; items.pair(usize::MAX).is_none());
}

/// So they are from the tags of each game to its marker.
fn has_pairs_in(rt: &impl Abort, vector: &Vector, text: &mut Vec<u8>, section: &mut Vec<u8>) {
    let mut items = UsualItems::new();
    let mut source = Inlet::new(vector.input.as_bytes());
    assert!(rt; items.pair(0).is_none());
    // An input has fewer items than that.
    for _ in 0..u64::MAX {
        let Ok(Some(item)) = items.next(&mut source) else {
            assert!(rt; items.pair(0).is_none());
            return;
        };
        if matches!(item, Item::Tags | Item::Marker(_)) {
            has_pairs(rt, &items, text, section);
        }
    }
}

fn has_pairs_in_each(rt: &impl Abort, table: &[Vector], text: &mut Vec<u8>, section: &mut Vec<u8>) {
    for vector in table {
        has_pairs_in(rt, vector, text, section);
    }
}

#[test]
fn the_pairs_of_each_vector_are_its_tag_section(rt: HostRuntime) {
    let mut text = Vec::new(rt.alloc());
    let mut section = Vec::new(rt.alloc());
    for table in tables() {
        has_pairs_in_each(&rt, table, &mut text, &mut section);
    }
}

/// Inputs of one game, its Result before the marker is given, and at the marker.
const RESULTS: &[(&[u8], &[u8], &[u8])] = &[
    (b"1. e4 1-0", b"", b"1-0"),
    (b"1. e4 0-1 ", b"", b"0-1"),
    (b"1/2-1/2", b"", b"1/2-1/2"),
    (b"[White \"Ada\"] *", b"", b"*"),
    (b"[Result \"0-1\"] 1. e4 0-1", b"0-1", b"0-1"),
    (b"[Result \"*\"] *", b"*", b"*"),
];

/// The Result is this one, as a tag and as the last pair of the roster.
fn has_result(rt: &impl Abort, items: &UsualItems, value: &[u8]) {
    assert!(rt; items.tag(b"Result") == Some(value));
    assert!(rt; items.pair(6) == Some((b"Result".as_slice(), value)));
}

/// The items of one game have this Result before its marker, and that one at the marker.
fn gives_results(rt: &impl Abort, input: &[u8], before: &[u8], at_marker: &[u8], most: usize) {
    let mut items = UsualItems::new();
    items.take_marker_for_missing_result();
    let mut source = Inlet::new(Drops { left: input, most });
    // An input has fewer items than that.
    for _ in 0..u64::MAX {
        match items.next(&mut source) {
            Ok(Some(Item::Marker(marker))) => {
                assert!(rt; marker.text() == at_marker);
                has_result(rt, &items, at_marker);
            }
            Ok(Some(_)) => has_result(rt, &items, before),
            Ok(None) => {
                assert_eq!(rt; items.games(), 1);
                return;
            }
            Err(_) => {
                assert!(rt; false);
                return;
            }
        }
    }
}

#[test]
fn a_missing_result_is_known_at_the_marker(rt: HostRuntime) {
    for &(input, before, at_marker) in RESULTS {
        for most in LENGTHS {
            gives_results(&rt, input, before, at_marker, most);
        }
    }
}

/// A Result that is there still has to be the marker.
#[test]
fn a_given_result_is_not_the_marker(rt: HostRuntime) {
    let mut items = UsualItems::new();
    items.take_marker_for_missing_result();
    let mut source = Inlet::new(b"[Result \"0-1\"] 1-0".as_slice());
    let reason = Reason::ResultDiffers;
    assert!(rt; items.next(&mut source) == Err(Fault { at: 15, reason }));
}
