//! Which runs agree with a vector.
use crate::{Vector, Verdict, agrees};
use pgn_game::{Fault, LexReason, Mode, Reason, Totals};

const CONVERTED: Vector = Vector {
    name: "converted",
    mode: Mode::Full,
    input: "1. e4 *",
    output: "text\n",
    verdict: Verdict::Converted { games: 1, plies: 2 },
};

const REFUSED: Vector = Vector {
    name: "refused",
    mode: Mode::Full,
    input: "1. e5 *",
    output: "text\n",
    verdict: Verdict::Refused(3, Reason::IllegalMove),
};

/// A run that ends with so many games and plies.
fn totals(games: u64, plies: u64) -> Result<Totals, Fault> {
    Ok(Totals {
        games,
        plies,
        most_probes: 1,
    })
}

/// A run that ends in this fault.
fn fault(at: u64, reason: Reason) -> Result<Totals, Fault> {
    Err(Fault { at, reason })
}

#[test]
fn agrees_with_its_own_verdict_and_text(rt: HostRuntime) {
    assert!(rt; agrees(&CONVERTED, totals(1, 2), b"text\n"));
    assert!(rt; agrees(&REFUSED, fault(3, Reason::IllegalMove), b"text\n"));
}

#[test]
fn rejects_another_text(rt: HostRuntime) {
    for text in ["", "text", "text\n\n", "test\n"] {
        assert!(rt;
            !agrees(&CONVERTED, totals(1, 2), text.as_bytes()),
            "{text}"
        );
        let run = fault(3, Reason::IllegalMove);
        assert!(rt; !agrees(&REFUSED, run, text.as_bytes()), "{text}");
    }
}

#[test]
fn rejects_another_verdict(rt: HostRuntime) {
    let stray = Reason::Lexical(LexReason::StrayByte);
    let other = [
        totals(0, 2),
        totals(2, 2),
        totals(1, 1),
        totals(2, 1),
        fault(3, Reason::IllegalMove),
    ];
    for run in other {
        assert!(rt; !agrees(&CONVERTED, run, b"text\n"), "{run:?}");
    }
    let other = [
        fault(2, Reason::IllegalMove),
        fault(4, Reason::IllegalMove),
        fault(3, Reason::AmbiguousMove),
        fault(3, stray),
        totals(1, 2),
    ];
    for run in other {
        assert!(rt; !agrees(&REFUSED, run, b"text\n"), "{run:?}");
    }
}
