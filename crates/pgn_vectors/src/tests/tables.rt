//! Each vector, in each way to convert it.
use crate::{LONE_MARKER, Usual, Vector, Verdict, agrees, converted, feed, finish, tables};
use pgn_game::{Fault, Inlet, Mode, Outlet, Reason, Totals, convert};
use std::process::Abort;
use std::test::Fail;

/// The run gave the vector's verdict and output.
pub fn assert_agrees(rt: &impl Abort, vector: &Vector, run: Result<Totals, Fault>, text: &[u8]) {
    assert!(rt; agrees(vector, run, text), "{}: {run:?}", vector.name);
}

fn converts(rt: &impl Abort, table: &[Vector], text: &mut Vec<u8>) {
    for vector in table {
        let run = converted(vector.input.as_bytes(), vector.mode, text);
        assert_agrees(rt, vector, run, text.as_slice());
    }
}

#[test]
fn converts_each_vector(rt: HostRuntime) {
    let mut text = Vec::new(rt.alloc());
    for table in tables() {
        converts(&rt, table, &mut text);
    }
}

fn reads(rt: &impl Abort, table: &[Vector], text: &mut Vec<u8>) {
    for vector in table {
        text.clear();
        let mut source = Inlet::new(vector.input.as_bytes());
        let mut out = Outlet::new(&mut *text);
        let run = convert::<64, 33, _, _>(&mut source, &mut out, vector.mode);
        assert_agrees(rt, vector, run, text.as_slice());
    }
}

#[test]
fn reads_each_vector(rt: HostRuntime) {
    let mut text = Vec::new(rt.alloc());
    for table in tables() {
        reads(&rt, table, &mut text);
    }
}

/// Converts the bytes one by one.
fn drip(converter: &mut Usual, input: &[u8], text: &mut Vec<u8>) -> Result<Totals, Fault> {
    text.clear();
    let mut out = Outlet::new(text);
    let mut plies = 0u64;
    for byte in input {
        plies = plies.saturating_add(feed(converter, &[*byte], &mut out)?);
    }
    finish(converter, plies, &mut out)
}

fn takes_bytes(rt: &impl Abort, table: &[Vector], text: &mut Vec<u8>) {
    for vector in table {
        let mut converter = Usual::new(vector.mode);
        let run = drip(&mut converter, vector.input.as_bytes(), text);
        assert_agrees(rt, vector, run, text.as_slice());
    }
}

#[test]
fn takes_each_vector_byte_by_byte(rt: HostRuntime) {
    let mut text = Vec::new(rt.alloc());
    for table in tables() {
        takes_bytes(&rt, table, &mut text);
    }
}

/// The output of each input that is converted gives the same verdict and the same output.
fn gives_itself(rt: &impl Abort, table: &[Vector], text: &mut Vec<u8>) {
    for vector in table {
        if let Verdict::Refused(_, _) = vector.verdict {
            continue;
        }
        let run = converted(vector.output.as_bytes(), vector.mode, text);
        if vector.name == "64 pairs" {
            // with the roster there are 71 tag lines
            let reason = Reason::TooManyTags;
            assert_eq!(rt; run, Err(Fault { at: 662, reason }));
        } else {
            assert_agrees(rt, vector, run, text.as_slice());
        }
    }
}

#[test]
fn converts_each_output_to_itself(rt: HostRuntime) {
    let mut text = Vec::new(rt.alloc());
    for table in tables() {
        gives_itself(&rt, table, &mut text);
    }
}

// Two games as they are exported, each with the result that its Result tag says.
const TWO_RESULTS: &[u8] =
    b"[Event \"?\"]\n[Site \"?\"]\n[Date \"????.??.??\"]\n[Round \"?\"]\n[White \"?\"]\n\
    [Black \"?\"]\n[Result \"1-0\"]\n\n1-0\n\n[Event \"?\"]\n[Site \"?\"]\n[Date \"????.??.??\"]\n\
    [Round \"?\"]\n[White \"?\"]\n[Black \"?\"]\n[Result \"0-1\"]\n\n0-1\n\n";

#[test]
fn converts_two_exported_results_to_themselves(rt: HostRuntime) {
    let mut text = Vec::new(rt.alloc());
    let run = converted(TWO_RESULTS, Mode::Full, &mut text);
    assert!(rt; text.as_slice() == TWO_RESULTS);
    assert!(rt; run.is_ok());
}

/// Converts the bytes, which are a game and the vector. The fault is at the same token.
fn refuses_behind(
    rt: &impl Abort,
    vector: &Vector,
    fault: Fault,
    input: &[u8],
    text: &mut Vec<u8>,
) {
    let run = converted(input, vector.mode, text);
    let at = fault.at.saturating_add(2);
    let reason = fault.reason;
    assert_eq!(rt; run, Err(Fault { at, reason }), "{}", vector.name);
    let rest = text.as_slice().strip_prefix(LONE_MARKER);
    assert!(rt; rest == Some(vector.output.as_bytes()), "{}", vector.name);
}

/// Converts each vector of the table that is rejected behind a game.
fn refuses_all_behind(
    rt: &impl Abort,
    table: &[Vector],
    input: &mut Vec<u8>,
    text: &mut Vec<u8>,
) -> Result<(), Fail> {
    for vector in table {
        let Verdict::Refused(at, reason) = vector.verdict else {
            continue;
        };
        let fault = Fault { at, reason };
        input.clear();
        input.extend_from_slice(b"* ")?;
        input.extend_from_slice(vector.input.as_bytes())?;
        refuses_behind(rt, vector, fault, input.as_slice(), text);
    }
    Ok(())
}

#[test]
fn refuses_each_fault_behind_a_game(rt: HostRuntime) -> Result<(), Fail> {
    let mut input = Vec::new(rt.alloc());
    let mut text = Vec::new(rt.alloc());
    for table in tables() {
        refuses_all_behind(&rt, table, &mut input, &mut text)?;
    }
    Ok(())
}
