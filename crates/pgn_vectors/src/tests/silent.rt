//! Readings that write nothing.
use crate::{Usual, Vector, Verdict, feed, feed_once, finish, tables, verdict_of};
use pgn_game::{Fault, Fed, Inlet, Nowhere, Outlet, Totals, check, check_slice};
use std::process::Abort;
use std::test::Fail;

fn checks(rt: &impl Abort, table: &[Vector]) {
    for vector in table {
        let input = vector.input.as_bytes();
        let run = check_slice::<64, 33>(input, vector.mode);
        assert_eq!(rt; verdict_of(run), vector.verdict, "{}", vector.name);
        let mut source = Inlet::new(input);
        let run = check::<64, 33, _>(&mut source, vector.mode);
        assert_eq!(rt; verdict_of(run), vector.verdict, "{}", vector.name);
    }
}

#[test]
fn checks_each_vector(rt: HostRuntime) {
    for table in tables() {
        checks(&rt, table);
    }
}

/// A converter that writes nothing.
fn silent(vector: &Vector) -> Usual {
    let mut converter = Usual::new(vector.mode);
    converter.write_nothing();
    converter
}

fn read(converter: &mut Usual, input: &[u8], text: &mut Vec<u8>) -> Result<Totals, Fault> {
    text.clear();
    let mut out = Outlet::new(text);
    let plies = feed(converter, input, &mut out)?;
    finish(converter, plies, &mut out)
}

/// Each vector has its verdict, no text, and at most 8 pairs for a token.
fn reads(rt: &impl Abort, table: &[Vector], text: &mut Vec<u8>) {
    for vector in table {
        let mut converter = silent(vector);
        let run = read(&mut converter, vector.input.as_bytes(), text);
        assert_eq!(rt; verdict_of(run), vector.verdict, "{}", vector.name);
        assert!(rt; text.is_empty(), "{}", vector.name);
        assert!(rt; converter.most_probes() <= 8, "{}", vector.name);
    }
}

#[test]
fn writes_nothing_of_each_vector(rt: HostRuntime) {
    let mut text = Vec::new(rt.alloc());
    for table in tables() {
        reads(&rt, table, &mut text);
    }
}

/// The section of the first game is the front of the vector's output. If there is no other game,
/// its marker is the end of it, before two line feeds.
fn asks(rt: &impl Abort, vector: &Vector, text: &mut Vec<u8>) {
    let output = vector.output.as_bytes();
    let mut converter = silent(vector);
    text.clear();
    let fed = feed_once(&mut converter, vector.input.as_bytes(), &mut Nowhere);
    let written = converter.write_tags(&mut Outlet::new(&mut *text));
    assert!(rt; written.is_ok(), "{}", vector.name);
    let Some(marker) = converter.marker() else {
        assert!(rt; text.is_empty(), "{}", vector.name);
        assert!(rt; fed == Ok(Fed::All) || fed.is_err(), "{}", vector.name);
        return;
    };
    assert!(rt;
        !text.is_empty() && output.starts_with(text),
        "{}",
        vector.name
    );
    if let Verdict::Converted { games: 1, .. } = vector.verdict {
        let end = output.len().saturating_sub(2);
        let game = output.get(..end).unwrap_or_default();
        assert!(rt; game.ends_with(marker.text()), "{}", vector.name);
    }
}

fn asks_each(rt: &impl Abort, table: &[Vector], text: &mut Vec<u8>) {
    for vector in table {
        asks(rt, vector, text);
    }
}

#[test]
fn asks_of_the_first_game_of_each_vector(rt: HostRuntime) {
    let mut text = Vec::new(rt.alloc());
    for table in tables() {
        asks_each(&rt, table, &mut text);
    }
}
