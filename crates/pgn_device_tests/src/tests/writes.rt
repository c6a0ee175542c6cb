//! Writers of which each write fails in turn.
use crate::tests::devices::{Calls, Meter, Trouble};
use crate::tests::outlines::{Outline, assert_agrees, outlines};
use pgn_game::{Fault, Inlet, Mode, Nowhere, Outlet, Reason, Sink, Totals, convert, convert_slice};
use pgn_vectors::{LONE_MARKER, Usual, Vector, Verdict, feed, finish, tables, verdict_of};
use std::process::Abort;

/// How an input is given to the converter.
#[derive(Clone, Copy, Debug)]
enum Way {
    /// To `convert_slice`.
    Slice,
    /// To `convert`.
    Source,
    /// To `feed`, in pieces of so many bytes, and then to `finish`.
    Pieces(usize),
}

const WAYS: &[Way] = &[
    Way::Slice,
    Way::Source,
    Way::Pieces(1),
    Way::Pieces(2),
    Way::Pieces(7),
    Way::Pieces(4096),
];

/// Pieces that are fed after a fault.
const LATER: &[&[u8]] = &[b"", b"*", b" 1. e4 *\n"];

/// Each call after a fault reports it again.
fn stays<W: Sink>(rt: &impl Abort, converter: &mut Usual, fault: Fault, out: &mut W) {
    for piece in LATER {
        assert_eq!(rt; feed(converter, piece, out), Err(fault));
    }
    assert_eq!(rt; finish(converter, 0, out), Err(fault));
}

/// Feeds the input in pieces of so many bytes, then empty pieces, and ends it.
fn feed_pieces<W: Sink>(
    converter: &mut Usual,
    input: &[u8],
    length: usize,
    out: &mut W,
) -> Result<Totals, Fault> {
    let mut plies = 0u64;
    let mut rest = input;
    for _ in 0..input.len() {
        let (piece, later) = rest.split_at(rest.len().min(length));
        plies = plies.saturating_add(feed(converter, piece, out)?);
        rest = later;
    }
    finish(converter, plies, out)
}

fn convert_by<W: Sink>(
    rt: &impl Abort,
    way: Way,
    vector: &Vector,
    out: &mut W,
) -> Result<Totals, Fault> {
    let input = vector.input.as_bytes();
    match way {
        Way::Slice => convert_slice::<64, 33, W>(input, out, vector.mode),
        Way::Source => convert::<64, 33, _, W>(&mut Inlet::new(input), out, vector.mode),
        Way::Pieces(length) => {
            let mut converter = Usual::new(vector.mode);
            let result = feed_pieces(&mut converter, input, length, out);
            if let Err(fault) = result {
                stays(rt, &mut converter, fault, out);
                stays(rt, &mut converter, fault, &mut Nowhere);
            }
            result
        }
    }
}

/// What a run left, beside its text.
#[derive(Clone, Copy, Debug)]
struct Ran {
    result: Result<Totals, Fault>,
    calls: Calls,
    failures: u64,
    flushes: usize,
}

fn run(rt: &impl Abort, way: Way, vector: &Vector, mut out: Meter<'_>) -> Ran {
    let result = convert_by(rt, way, vector, &mut out);
    let failures = out.failures;
    let page = out.outlet.into_inner();
    Ran {
        result,
        calls: page.calls,
        failures,
        flushes: page.flushes,
    }
}

/// The run met no failure: it gave the vector's verdict and its output. Nothing is flushed.
fn is_whole(rt: &impl Abort, vector: &Vector, ran: Ran, text: &[u8]) {
    assert_agrees(rt, vector, ran.result, text);
    assert_eq!(rt; (ran.failures, ran.flushes), (0, 0));
}

/// The run stopped at its failure, which was counted: a front of the output was written, and not
/// all of it. No later call reached the writer. Returns the place.
fn place_of_cut(rt: &impl Abort, vector: &Vector, ran: Ran, text: &[u8]) -> Option<u64> {
    let output = vector.output.as_bytes();
    assert!(rt; output.starts_with(text), "{}", vector.name);
    assert!(rt; text.len() < output.len(), "{}", vector.name);
    assert_eq!(rt; (ran.failures, ran.flushes), (1, 0));
    assert_eq!(rt; ran.calls.made, ran.calls.fails_at.saturating_add(1));
    match ran.result {
        Err(fault) if fault.reason == Reason::WriteFault => Some(fault.at),
        _ => None,
    }
}

/// The place at which a run stopped is that of the outline, for so many bytes written.
fn is_at_place(rt: &impl Abort, run_of: (Way, &Outline), at: Option<u64>, written: usize) {
    let (way, outline) = run_of;
    let name = outline.name;
    assert!(rt; at.is_some(), "{way:?}, {name} at {written}");
    assert_eq!(rt; at, outline.place(written), "{way:?}, {name} at {written}");
}

/// Converts the vector with each write in turn failing, until a run meets no failure. Each place is
/// that of the outline.
fn meets_each(
    rt: &impl Abort,
    run_of: (Way, &Outline),
    fails: (Trouble, usize),
    text: &mut Vec<u8>,
) {
    let (way, outline) = run_of;
    let (trouble, most) = fails;
    let Some(vector) = outline.vector() else {
        assert!(rt; false, "{}: no vector", outline.name);
        return;
    };
    for fails_at in 0..10_000usize {
        let out = Meter::new(&mut *text, trouble, fails_at, most);
        let ran = run(rt, way, vector, out);
        if !ran.calls.has_failed() {
            is_whole(rt, vector, ran, text.as_slice());
            return;
        }
        let at = place_of_cut(rt, vector, ran, text.as_slice());
        is_at_place(rt, run_of, at, text.len());
    }
    assert!(rt; false, "{}: each run met the failure", outline.name);
}

#[test]
fn reports_each_write_that_fails(rt: HostRuntime) {
    let mut text = Vec::new(rt.alloc());
    for outline in outlines() {
        for &way in WAYS {
            for trouble in [Trouble::Broken, Trouble::Interrupted, Trouble::TakesNone] {
                meets_each(&rt, (way, outline), (trouble, usize::MAX), &mut text);
            }
        }
    }
}

#[test]
fn reports_each_write_of_a_byte_that_fails(rt: HostRuntime) {
    let mut text = Vec::new(rt.alloc());
    for outline in outlines() {
        for way in [Way::Slice, Way::Pieces(5)] {
            meets_each(&rt, (way, outline), (Trouble::Broken, 1), &mut text);
        }
    }
}

/// Each vector with each write in turn failing. Its places are not known here.
fn cuts(rt: &impl Abort, way: Way, vector: &Vector, text: &mut Vec<u8>) {
    for fails_at in 0..10_000usize {
        let out = Meter::new(&mut *text, Trouble::Interrupted, fails_at, 30);
        let ran = run(rt, way, vector, out);
        if !ran.calls.has_failed() {
            is_whole(rt, vector, ran, text.as_slice());
            return;
        }
        let at = place_of_cut(rt, vector, ran, text.as_slice());
        let end = vector.input.len() as u64;
        assert!(rt; at.is_some_and(|place| place < end), "{}", vector.name);
    }
    assert!(rt; false, "{}: each run met the failure", vector.name);
}

fn cuts_all(rt: &impl Abort, table: &[Vector], text: &mut Vec<u8>) {
    for vector in table {
        cuts(rt, Way::Source, vector, text);
        cuts(rt, Way::Pieces(3), vector, text);
    }
}

#[test]
fn writes_a_front_of_each_vector(rt: HostRuntime) {
    let mut text = Vec::new(rt.alloc());
    for table in tables() {
        cuts_all(&rt, table, &mut text);
    }
}

/// The verdict of the vector where there is room for so many bytes of its output.
fn verdict_in(outline: &Outline, vector: &Vector, length: usize) -> Verdict {
    let reason = Reason::WriteFault;
    match outline.place(length) {
        Some(at) => Verdict::Refused(at, reason),
        None => vector.verdict,
    }
}

/// Room for so many bytes of an output: it takes what fits, and then no byte.
fn fills_room(rt: &impl Abort, outline: &Outline, vector: &Vector, length: usize) {
    let mut room = [0; 1000];
    let Some(buffer) = room.get_mut(..length) else {
        assert!(rt; false, "{}: no room", outline.name);
        return;
    };
    let result = convert_by(rt, Way::Pieces(9), vector, &mut Outlet::new(buffer));
    let expected = verdict_in(outline, vector, length);
    assert_eq!(rt;
        verdict_of(result),
        expected,
        "{} in {length}",
        outline.name
    );
    let output = vector.output.as_bytes().get(..length);
    assert!(rt; room.get(..length) == output, "{}", outline.name);
}

fn fills(rt: &impl Abort, outline: &Outline, vector: &Vector) {
    for length in 0..=vector.output.len() {
        fills_room(rt, outline, vector, length);
    }
}

#[test]
fn fills_each_room(rt: HostRuntime) {
    for outline in outlines() {
        match outline.vector() {
            Some(vector) => fills(&rt, outline, vector),
            None => assert!(rt; false, "{}: no vector", outline.name),
        }
    }
}

fn converts_one_to_nowhere(rt: &impl Abort, way: Way, vector: &Vector) {
    let result = convert_by(rt, way, vector, &mut Nowhere);
    assert_eq!(rt; verdict_of(result), vector.verdict, "{}", vector.name);
}

fn converts_all_to_nowhere(rt: &impl Abort, table: &[Vector]) {
    for vector in table {
        converts_one_to_nowhere(rt, Way::Slice, vector);
        converts_one_to_nowhere(rt, Way::Source, vector);
        converts_one_to_nowhere(rt, Way::Pieces(4), vector);
    }
}

#[test]
fn converts_to_nowhere(rt: HostRuntime) {
    for table in tables() {
        converts_all_to_nowhere(&rt, table);
    }
}

#[test]
fn reports_a_write_that_failed_again(rt: HostRuntime) {
    let mut text = Vec::new(rt.alloc());
    let mut out = Meter::new(&mut text, Trouble::Broken, LONE_MARKER.len(), 1);
    let mut converter = Usual::new(Mode::Full);
    let fault = Fault {
        at: 2,
        reason: Reason::WriteFault,
    };
    assert_eq!(rt; feed(&mut converter, b"* *", &mut out), Err(fault));
    stays(&rt, &mut converter, fault, &mut out);
    stays(&rt, &mut converter, fault, &mut Nowhere);
    assert!(rt; text.as_slice() == LONE_MARKER);
}
