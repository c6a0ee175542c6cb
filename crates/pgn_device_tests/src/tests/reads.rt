//! Readers of which each read fails in turn.
use crate::tests::devices::{Gauge, Meter};
use crate::tests::outlines::{Outline, assert_agrees, outlines};
use pgn_game::{Fault, Mode, Reason, Totals, convert};
use pgn_vectors::{HEAD, Vector, Verdict, tables};
use std::io::ErrorKind;
use std::process::Abort;

/// What a run left, beside its text.
#[derive(Clone, Copy, Debug)]
struct Ran {
    result: Result<Totals, Fault>,
    /// How often a read failed.
    failures: u64,
    /// How many bytes were given before.
    given: usize,
}

/// How a read fails, and how many bytes the others give.
type Drip = (ErrorKind, usize);

/// Converts what the source gives to the text, which is emptied first.
fn convert_to(source: &mut Gauge, text: &mut Vec<u8>, mode: Mode) -> Result<Totals, Fault> {
    convert::<64, 33, _, _>(source, &mut Meter::whole(text), mode)
}

/// Converts the vector with this read failing.
fn run(vector: &'static Vector, fails_at: usize, drip: Drip, text: &mut Vec<u8>) -> Ran {
    let (error, most) = drip;
    let input = vector.input.as_bytes();
    let mut source = Gauge::new(input, error, fails_at, most);
    let result = convert_to(&mut source, text, vector.mode);
    Ran {
        result,
        failures: source.failures,
        given: fails_at.saturating_mul(most).min(input.len()),
    }
}

/// The failure was counted, and is reported where the bytes given end.
fn is_reported(rt: &impl Abort, vector: &Vector, ran: Ran) {
    let fault = Fault {
        at: ran.given as u64,
        reason: Reason::ReadFault,
    };
    assert_eq!(rt; ran.result, Err(fault), "{}", vector.name);
    assert_eq!(rt; ran.failures, 1, "{}", vector.name);
}

/// The run met no failure at this read: the end was met, by a read that gave no byte, or a fault
/// before it.
fn is_read(rt: &impl Abort, run_of: (&Outline, &Vector), ran: Ran, fails_at: usize, most: usize) {
    let (outline, vector) = run_of;
    let whole = vector.input.len().saturating_add(most);
    assert!(rt;
        whole <= fails_at.saturating_mul(most) || outline.read <= ran.given,
        "{} at read {fails_at}",
        outline.name
    );
}

/// The run met its failure: what is written is what the outline says for the bytes read.
fn writes_due(rt: &impl Abort, run_of: (&Outline, &Vector), ran: Ran, text: &[u8]) {
    let (outline, vector) = run_of;
    is_reported(rt, vector, ran);
    let name = outline.name;
    assert!(rt; ran.given < outline.read, "{name} at byte {}", ran.given);
    let due = vector.output.as_bytes().get(..outline.due(ran.given));
    assert!(rt; due == Some(text), "{name} at byte {}", ran.given);
}

/// Converts the vector with each read in turn failing, until a run meets no failure.
fn meets_each(rt: &impl Abort, outline: &Outline, drip: Drip, text: &mut Vec<u8>) {
    let Some(vector) = outline.vector() else {
        assert!(rt; false, "{}: no vector", outline.name);
        return;
    };
    for fails_at in 0..10_000usize {
        let ran = run(vector, fails_at, drip, &mut *text);
        if ran.failures == 0 {
            assert_agrees(rt, vector, ran.result, text.as_slice());
            is_read(rt, (outline, vector), ran, fails_at, drip.1);
            return;
        }
        writes_due(rt, (outline, vector), ran, text.as_slice());
    }
    assert!(rt; false, "{}: each run met the failure", outline.name);
}

#[test]
fn reports_each_read_that_fails(rt: HostRuntime) {
    let mut text = Vec::new(rt.alloc());
    for outline in outlines() {
        for error in [ErrorKind::BrokenPipe, ErrorKind::Interrupted] {
            for most in [1, 7, usize::MAX] {
                meets_each(&rt, outline, (error, most), &mut text);
            }
        }
    }
}

/// Each vector with each read in turn failing: a front of its output is written. A fault that is
/// reported instead begins within the bytes read.
fn cuts(rt: &impl Abort, vector: &'static Vector, text: &mut Vec<u8>) {
    for fails_at in 0..10_000usize {
        let ran = run(vector, fails_at, (ErrorKind::Interrupted, 5), &mut *text);
        let written = text.as_slice();
        assert!(rt;
            vector.output.as_bytes().starts_with(written),
            "{}",
            vector.name
        );
        if ran.failures == 0 {
            assert_agrees(rt, vector, ran.result, written);
            if let Verdict::Refused(at, _) = vector.verdict {
                assert!(rt; at <= ran.given as u64, "{}", vector.name);
            }
            return;
        }
        is_reported(rt, vector, ran);
    }
    assert!(rt; false, "{}: each run met the failure", vector.name);
}

fn cuts_all(rt: &impl Abort, table: &'static [Vector], text: &mut Vec<u8>) {
    for vector in table {
        cuts(rt, vector, text);
    }
}

#[test]
fn reads_a_front_of_each_vector(rt: HostRuntime) {
    let mut text = Vec::new(rt.alloc());
    for table in tables() {
        cuts_all(&rt, table, &mut text);
    }
}

#[test]
fn writes_what_is_due_before_a_read_fails(rt: HostRuntime) {
    let mut text = Vec::new(rt.alloc());
    let mut source = Gauge::new(b"1. e4 e5", ErrorKind::Interrupted, 8, 1);
    let result = convert_to(&mut source, &mut text, Mode::Full);
    let reason = Reason::ReadFault;
    assert_eq!(rt; result, Err(Fault { at: 8, reason }));
    assert!(rt; text.as_slice() == HEAD);
}

#[test]
fn reads_up_to_a_fault(rt: HostRuntime) {
    let mut text = Vec::new(rt.alloc());
    let written =
        b"[Event \"?\"]\n[Site \"?\"]\n[Date \"????.??.??\"]\n[Round \"?\"]\n[White \"?\"]\n[Black \"?\"]\n[Result \"*\"]\n[A \"1\"]\n\n*\n\n".as_slice();
    for fails_at in 0..=14 {
        let mut source = Gauge::new(b"[A \"1\"] * 1-0", ErrorKind::BrokenPipe, fails_at, 1);
        let result = convert_to(&mut source, &mut text, Mode::Full);
        let (at, reason) = if fails_at < 14 {
            (fails_at as u64, Reason::ReadFault)
        } else {
            (10, Reason::ResultDiffers)
        };
        assert_eq!(rt; result, Err(Fault { at, reason }));
        let expected = if fails_at < 9 {
            b"".as_slice()
        } else {
            written
        };
        assert!(rt; text.as_slice() == expected, "{fails_at}");
    }
}
