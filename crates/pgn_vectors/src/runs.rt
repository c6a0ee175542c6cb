//! Runs of the converter, and what they have to give.
use crate::{Vector, Verdict};
use pgn_game::{Converter, Fault, Fed, Mode, Outlet, Reason, Sink, Totals, convert_slice};

/// The section of a game without pairs.
pub const HEAD: &[u8] =
    b"[Event \"?\"]\n[Site \"?\"]\n[Date \"????.??.??\"]\n[Round \"?\"]\n[White \"?\"]\n\
    [Black \"?\"]\n[Result \"*\"]\n\n";

/// What `*` gives.
pub const LONE_MARKER: &[u8] =
    b"[Event \"?\"]\n[Site \"?\"]\n[Date \"????.??.??\"]\n[Round \"?\"]\n[White \"?\"]\n\
    [Black \"?\"]\n[Result \"*\"]\n\n*\n\n";

/// A converter with the limits of the program: 64 pairs, and variations to depth 32.
pub type Usual = Converter<64, 33>;

/// Converts the input to the text, which is emptied first.
pub fn converted(input: &[u8], mode: Mode, text: &mut Vec<u8>) -> Result<Totals, Fault> {
    text.clear();
    convert_slice::<64, 33, _>(input, &mut Outlet::new(text), mode)
}

/// Whether the run gave the vector's verdict and output.
pub fn agrees(vector: &Vector, run: Result<Totals, Fault>, text: &[u8]) -> bool {
    verdict_of(run) == vector.verdict && text == vector.output.as_bytes()
}

/// The verdict that a run's result is.
pub fn verdict_of(run: Result<Totals, Fault>) -> Verdict {
    match run {
        Ok(totals) => Verdict::Converted {
            games: totals.games,
            plies: totals.plies,
        },
        Err(fault) => Verdict::Refused(fault.at, fault.reason),
    }
}

/// Feeds the piece, game by game, and returns how many moves the games have that end in it.
pub fn feed<W: Sink>(converter: &mut Usual, piece: &[u8], out: &mut W) -> Result<u64, Fault> {
    let mut rest = piece;
    let mut plies = 0u64;
    // A piece ends fewer games than that.
    for _ in 0..u64::MAX {
        match feed_once(converter, rest, out)? {
            Fed::All => return Ok(plies),
            Fed::Game(used) => {
                plies = plies.saturating_add(converter.plies());
                rest = rest.get(used..).unwrap_or_default();
            }
        }
    }
    Ok(plies)
}

/// Feeds the piece up to the end of a game.
pub fn feed_once<W: Sink>(converter: &mut Usual, piece: &[u8], out: &mut W) -> Result<Fed, Fault> {
    if converter.is_finished() {
        return Err(UNCALLED);
    }
    converter.feed(piece, out)
}

/// Ends the input, and returns the totals, if the games that ended before have so many moves.
pub fn finish<W: Sink>(converter: &mut Usual, plies: u64, out: &mut W) -> Result<Totals, Fault> {
    finish_once(converter, out)?;
    Ok(Totals {
        games: converter.games(),
        plies: plies.saturating_add(converter.plies()),
        most_probes: converter.most_probes(),
    })
}

/// Ends the input, and returns whether that finished a game.
pub fn finish_once<W: Sink>(converter: &mut Usual, out: &mut W) -> Result<bool, Fault> {
    if converter.is_finished() {
        return Err(UNCALLED);
    }
    converter.finish(out)
}

/// What no run of these tests returns: the call was not made.
const UNCALLED: Fault = Fault {
    at: 0,
    reason: Reason::Changed,
};
