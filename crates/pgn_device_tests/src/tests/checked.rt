//! Inputs that are read twice.
use crate::tests::devices::{Gauge, Meter, Trouble};
use crate::tests::outlines::assert_agrees;
use pgn_game::{Fault, Mode, Reason, Totals, convert_checked};
use pgn_vectors::{Vector, Verdict, tables, verdict_of};
use std::io::ErrorKind;
use std::process::Abort;

/// What two readings give.
struct Row {
    name: &'static str,
    first: &'static str,
    second: &'static str,
    output: &'static str,
    verdict: Verdict,
}

const HEAD: &str =
    "[Event \"?\"]\n[Site \"?\"]\n[Date \"????.??.??\"]\n[Round \"?\"]\n[White \"?\"]\n[Black \"?\"]\n[Result \"*\"]\n\n";

const HEAD_WON: &str =
    "[Event \"?\"]\n[Site \"?\"]\n[Date \"????.??.??\"]\n[Round \"?\"]\n[White \"?\"]\n[Black \"?\"]\n[Result \"1-0\"]\n\n";

const ONE_WON: &str =
    "[Event \"?\"]\n[Site \"?\"]\n[Date \"????.??.??\"]\n[Round \"?\"]\n[White \"?\"]\n[Black \"?\"]\n[Result \"1-0\"]\n\n1. e4 1-0\n\n";

const WON_AND_LOST: &str =
    "[Event \"?\"]\n[Site \"?\"]\n[Date \"????.??.??\"]\n[Round \"?\"]\n[White \"?\"]\n[Black \"?\"]\n[Result \"1-0\"]\n\n1-0\n\n[Event \"?\"]\n[Site \"?\"]\n[Date \"????.??.??\"]\n[Round \"?\"]\n[White \"?\"]\n[Black \"?\"]\n[Result \"0-1\"]\n\n0-1\n\n";

const LONE: &str =
    "[Event \"?\"]\n[Site \"?\"]\n[Date \"????.??.??\"]\n[Round \"?\"]\n[White \"?\"]\n[Black \"?\"]\n[Result \"*\"]\n\n*\n\n";

const OTHER_MOVE: &str =
    "[Event \"?\"]\n[Site \"?\"]\n[Date \"????.??.??\"]\n[Round \"?\"]\n[White \"?\"]\n[Black \"?\"]\n[Result \"*\"]\n\n1. d4 *\n\n";

const ROWS: &[Row] = &[
    Row {
        name: "nothing",
        first: "",
        second: "",
        output: "",
        verdict: Verdict::Converted { games: 0, plies: 0 },
    },
    Row {
        name: "takes each marker",
        first: "1-0 0-1",
        second: "1-0 0-1",
        output: WON_AND_LOST,
        verdict: Verdict::Converted { games: 2, plies: 0 },
    },
    Row {
        name: "keeps a Result",
        first: "[Result \"1-0\"] 0-1",
        second: "[Result \"1-0\"] 0-1",
        output: "",
        verdict: Verdict::Refused(15, Reason::ResultDiffers),
    },
    Row {
        name: "a bad second game",
        first: "* 1. e4 e5 2. Ke3 *",
        second: "* 1. e4 e5 2. Ke3 *",
        output: LONE,
        verdict: Verdict::Refused(14, Reason::IllegalMove),
    },
    Row {
        name: "a bad only game",
        first: "1. e4 e5 2. Ke3 *",
        second: "1. e4 e5 2. Ke3 *",
        output: "",
        verdict: Verdict::Refused(12, Reason::IllegalMove),
    },
    Row {
        name: "an unfinished game",
        first: "1. e4",
        second: "1. e4",
        output: "",
        verdict: Verdict::Refused(5, Reason::UnexpectedEnd),
    },
    Row {
        name: "the second ends sooner",
        first: "1. e4 *",
        second: "1. e4",
        output: HEAD,
        verdict: Verdict::Refused(5, Reason::Changed),
    },
    Row {
        name: "other moves",
        first: "1. e4 *",
        second: "1. d4 *",
        output: OTHER_MOVE,
        verdict: Verdict::Converted { games: 1, plies: 1 },
    },
    Row {
        name: "the second goes on",
        first: "*",
        second: "* *",
        output: LONE,
        verdict: Verdict::Converted { games: 1, plies: 0 },
    },
    Row {
        name: "another marker",
        first: "1-0",
        second: "0-1",
        output: "",
        verdict: Verdict::Refused(0, Reason::Changed),
    },
    Row {
        name: "another place",
        first: "1-0",
        second: " 1-0",
        output: "",
        verdict: Verdict::Refused(1, Reason::Changed),
    },
    Row {
        name: "a game fewer",
        first: "* *",
        second: "*",
        output: LONE,
        verdict: Verdict::Refused(1, Reason::Changed),
    },
    Row {
        name: "a byte that begins no token",
        first: "1. e4 1-0",
        second: "1. e4 ~ 1-0",
        output: HEAD_WON,
        verdict: Verdict::Refused(6, Reason::Changed),
    },
    Row {
        name: "a move that is not legal",
        first: "1. e4 1-0",
        second: "1. e5 1-0",
        output: HEAD_WON,
        verdict: Verdict::Refused(3, Reason::Changed),
    },
];

/// The rows, behind a call of its own, so that no proof of a loop sees all their bytes.
fn rows() -> &'static [Row] {
    ROWS
}

/// Converts what both sources give.
fn run(
    first: &mut Gauge,
    second: &mut Gauge,
    out: &mut Meter<'_>,
    mode: Mode,
) -> Result<Totals, Fault> {
    convert_checked::<64, 33, _, _, _>(first, second, out, mode)
}

/// Converts what both sources give to the text, which is emptied first.
fn run_to(
    mut first: Gauge,
    mut second: Gauge,
    text: &mut Vec<u8>,
    mode: Mode,
) -> Result<Totals, Fault> {
    run(&mut first, &mut second, &mut Meter::whole(text), mode)
}

/// A source of which no read fails.
fn whole(text: &'static str) -> Gauge {
    Gauge::new(
        text.as_bytes(),
        ErrorKind::BrokenPipe,
        usize::MAX,
        usize::MAX,
    )
}

/// A source of which this read fails; each gives one byte.
fn failing(text: &'static str, fails_at: usize) -> Gauge {
    Gauge::new(text.as_bytes(), ErrorKind::Interrupted, fails_at, 1)
}

#[test]
fn converts_each_row(rt: HostRuntime) {
    let mut text = Vec::new(rt.alloc());
    for row in rows() {
        let result = run_to(whole(row.first), whole(row.second), &mut text, Mode::Full);
        assert_eq!(rt; verdict_of(result), row.verdict, "{}", row.name);
        assert!(rt;
            text.as_slice() == row.output.as_bytes(),
            "{}: the text",
            row.name
        );
    }
}

/// Of a vector with a fault whole games alone are written.
fn has_whole_games(rt: &impl Abort, vector: &Vector, written: &[u8]) {
    assert!(rt;
        written.is_empty() || written.ends_with(b"\n\n"),
        "{}",
        vector.name
    );
    assert!(rt;
        vector.output.as_bytes().starts_with(written),
        "{}",
        vector.name
    );
}

/// A Result that differs is rejected. One that is missing is not.
fn takes_missing_result(rt: &impl Abort, vector: &Vector, is_refused: bool) {
    let has_result = vector.input.contains("[Result ");
    assert!(rt; is_refused == has_result, "{}", vector.name);
}

/// The same verdict where a missing Result makes no difference; whole games alone are written.
fn agrees_twice(rt: &impl Abort, vector: &'static Vector, text: &mut Vec<u8>) {
    let result = run_to(whole(vector.input), whole(vector.input), text, vector.mode);
    if let Verdict::Refused(_, reason) = vector.verdict {
        if reason == Reason::ResultDiffers {
            takes_missing_result(rt, vector, result.is_err());
            return;
        }
        has_whole_games(rt, vector, text.as_slice());
        assert_eq!(rt; verdict_of(result), vector.verdict, "{}", vector.name);
        return;
    }
    assert_agrees(rt, vector, result, text.as_slice());
}

fn agrees_on_all(rt: &impl Abort, table: &'static [Vector], text: &mut Vec<u8>) {
    for vector in table {
        agrees_twice(rt, vector, text);
    }
}

#[test]
fn converts_each_vector_that_is_read_twice(rt: HostRuntime) {
    let mut text = Vec::new(rt.alloc());
    for table in tables() {
        agrees_on_all(&rt, table, &mut text);
    }
}

/// What is written when so many bytes were read of the source that fails.
fn written_before(read: usize, steps: &[(usize, &'static str)]) -> &'static [u8] {
    let mut written = "";
    for &(least, output) in steps {
        if least <= read {
            written = output;
        }
    }
    written.as_bytes()
}

const TWO_GAMES: &str = "1. e4 1-0 *";

const TWO_WRITTEN: &str =
    "[Event \"?\"]\n[Site \"?\"]\n[Date \"????.??.??\"]\n[Round \"?\"]\n[White \"?\"]\n[Black \"?\"]\n[Result \"1-0\"]\n\n1. e4 1-0\n\n[Event \"?\"]\n[Site \"?\"]\n[Date \"????.??.??\"]\n[Round \"?\"]\n[White \"?\"]\n[Black \"?\"]\n[Result \"*\"]\n\n*\n\n";

/// The verdict of two games of which this read fails.
fn failed_read(fails_at: usize) -> Verdict {
    Verdict::Refused(fails_at as u64, Reason::ReadFault)
}

/// What is written when so many bytes were read of the first. A marker that is a symbol is known at
/// the byte behind it.
const FIRST_STEPS: &[(usize, &str)] = &[(10, ONE_WON), (11, TWO_WRITTEN), (12, TWO_WRITTEN)];

#[test]
fn reports_each_read_of_the_first_that_fails(rt: HostRuntime) {
    let mut text = Vec::new(rt.alloc());
    for fails_at in 0..=11usize {
        let mut first = failing(TWO_GAMES, fails_at);
        let mut out = Meter::whole(&mut text);
        let result = run(&mut first, &mut whole(TWO_GAMES), &mut out, Mode::Full);
        assert_eq!(rt; verdict_of(result), failed_read(fails_at));
        assert_eq!(rt; first.failures, 1);
        let expected = written_before(fails_at, FIRST_STEPS);
        assert!(rt; text.as_slice() == expected, "{fails_at}");
    }
}

/// What is written when so many bytes were read of the second. The first period shows that movetext
/// has begun.
const SECOND_STEPS: &[(usize, &str)] = &[(2, HEAD_WON), (10, ONE_WON), (11, TWO_WRITTEN)];

/// What two games give.
const BOTH: Verdict = Verdict::Converted { games: 2, plies: 1 };

// Behind the last marker nothing is read.
#[test]
fn reports_each_read_of_the_second_that_fails(rt: HostRuntime) {
    let mut text = Vec::new(rt.alloc());
    for fails_at in 0..=12usize {
        let second = failing(TWO_GAMES, fails_at);
        let result = run_to(whole(TWO_GAMES), second, &mut text, Mode::Full);
        let verdict = if fails_at < 11 {
            failed_read(fails_at)
        } else {
            BOTH
        };
        assert_eq!(rt; verdict_of(result), verdict, "{fails_at}");
        let expected = written_before(fails_at, SECOND_STEPS);
        assert!(rt; text.as_slice() == expected, "{fails_at}");
    }
}

/// The run met its failure: not all is written.
fn is_cut(rt: &impl Abort, run: Result<Totals, Fault>, failures: u64, written: usize) {
    assert_eq!(rt; failures, 1, "{written}");
    let reason = run.err().map(|fault| fault.reason);
    assert_eq!(rt; reason, Some(Reason::WriteFault), "{written}");
    assert!(rt; written < TWO_WRITTEN.len(), "{written}");
}

#[test]
fn reports_each_write_that_fails(rt: HostRuntime) {
    let mut text = Vec::new(rt.alloc());
    for fails_at in 0..10_000usize {
        let mut out = Meter::new(&mut text, Trouble::Broken, fails_at, 7);
        let result = run(
            &mut whole(TWO_GAMES),
            &mut whole(TWO_GAMES),
            &mut out,
            Mode::Full,
        );
        let failures = out.failures;
        assert!(rt;
            TWO_WRITTEN.as_bytes().starts_with(text.as_slice()),
            "{fails_at}"
        );
        if failures == 0 {
            assert_eq!(rt; verdict_of(result), BOTH);
            return;
        }
        is_cut(&rt, result, failures, text.len());
    }
    assert!(rt; false, "each run met the failure");
}
