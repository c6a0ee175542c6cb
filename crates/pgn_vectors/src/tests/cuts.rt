//! Each vector, ended and cut at each of its bytes.
use crate::tests::tables::assert_agrees;
use crate::{Usual, Vector, Verdict, converted, feed, finish, tables};
use pgn_game::{Fault, Outlet, Totals};
use std::process::Abort;
use std::test::Fail;

/// Texts inside the vectors that are cut at each byte.
const PARTS: [&str; 6] = ["1/2-1/2", "$255", "\\\"", "\r\n", "\u{feff}", "0-0-0"];

/// Whether an input of the table contains it.
fn is_contained(part: &str, table: &[Vector]) -> bool {
    for vector in table {
        if vector.input.contains(part) {
            return true;
        }
    }
    false
}

#[test]
fn cuts_tokens_of_more_than_one_byte(rt: HostRuntime) {
    for part in PARTS {
        let mut found = false;
        for table in tables() {
            found = found || is_contained(part, table);
        }
        assert!(rt; found, "{part}");
    }
}

/// The vector up to this byte.
fn front(vector: &Vector, end: usize) -> &[u8] {
    vector.input.as_bytes().get(..end).unwrap_or_default()
}

/// The first bytes, before the end of the input is known, give a prefix of the output.
fn is_front(rt: &impl Abort, vector: &Vector, fed: Result<u64, Fault>, text: &[u8]) {
    assert!(rt;
        vector.output.as_bytes().starts_with(text),
        "{}: {text:?}",
        vector.name
    );
    if let Err(fault) = fed {
        let refused = Verdict::Refused(fault.at, fault.reason);
        assert_eq!(rt; refused, vector.verdict, "{}", vector.name);
    }
}

/// Feeds the bytes and ends the input. The text before the end is a prefix of the output.
fn end_behind(
    rt: &impl Abort,
    vector: &Vector,
    piece: &[u8],
    text: &mut Vec<u8>,
) -> Result<Totals, Fault> {
    let mut converter = Usual::new(vector.mode);
    text.clear();
    let fed = feed(&mut converter, piece, &mut Outlet::new(&mut *text));
    is_front(rt, vector, fed, text.as_slice());
    finish(&mut converter, fed?, &mut Outlet::new(text))
}

/// The first bytes, with the end behind them, give the same as a slice of them.
fn ends_at(rt: &impl Abort, vector: &Vector, end: usize, text: &mut Vec<u8>, whole: &mut Vec<u8>) {
    let piece = front(vector, end);
    let result = end_behind(rt, vector, piece, text);
    let expected = converted(piece, vector.mode, whole);
    assert_eq!(rt; result, expected, "{} up to {end}", vector.name);
    assert!(rt;
        text.as_slice() == whole.as_slice(),
        "{} up to {end}",
        vector.name
    );
}

fn ends(rt: &impl Abort, table: &[Vector], text: &mut Vec<u8>, whole: &mut Vec<u8>) {
    for vector in table {
        for end in 0..=vector.input.len() {
            ends_at(rt, vector, end, text, whole);
        }
    }
}

#[test]
fn ends_at_each_byte(rt: HostRuntime) {
    let mut text = Vec::new(rt.alloc());
    let mut whole = Vec::new(rt.alloc());
    for table in tables() {
        ends(&rt, table, &mut text, &mut whole);
    }
}

/// Converts the input in two pieces.
fn cut_at(
    converter: &mut Usual,
    input: &[u8],
    cut: usize,
    text: &mut Vec<u8>,
) -> Result<Totals, Fault> {
    text.clear();
    let mut out = Outlet::new(text);
    let first = feed(converter, input.get(..cut).unwrap_or_default(), &mut out)?;
    let second = feed(converter, input.get(cut..).unwrap_or_default(), &mut out)?;
    finish(converter, first.saturating_add(second), &mut out)
}

fn cuts(rt: &impl Abort, table: &[Vector], text: &mut Vec<u8>) {
    for vector in table {
        for cut in 0..=vector.input.len() {
            let mut converter = Usual::new(vector.mode);
            let run = cut_at(&mut converter, vector.input.as_bytes(), cut, text);
            assert_agrees(rt, vector, run, text.as_slice());
        }
    }
}

#[test]
fn takes_each_vector_in_two_pieces(rt: HostRuntime) {
    let mut text = Vec::new(rt.alloc());
    for table in tables() {
        cuts(&rt, table, &mut text);
    }
}
