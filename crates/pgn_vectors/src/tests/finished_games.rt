//! The game just finished, and faults that stay.
use crate::{HEAD, LONE_MARKER, Usual, feed, feed_once, finish_once};
use chess_text::write_fen;
use pgn_game::{Fault, Fed, Mode, Nowhere, Outlet, Reason, Sink};
use std::process::Abort;

/// A call of a converter with its result, or what the converter reports behind a call.
#[derive(Clone, Copy, Debug)]
enum Step {
    /// `feed` with this piece returns this.
    Feed(&'static [u8], Result<Fed, Fault>),
    /// A piece that is fed game by game ends in this fault.
    FeedAll(&'static [u8], Fault),
    /// `finish` returns this.
    Finish(Result<bool, Fault>),
    /// Whether `finish` has returned `Ok`.
    IsFinished(bool),
    /// No game has just finished.
    NoGame,
    /// The game just finished has this value of the tag.
    Tag(&'static [u8], &'static [u8]),
    /// The game just finished, if there is one, has no such tag.
    NoTag(&'static [u8]),
    /// The game just finished has so many plies.
    Plies(u64),
    /// The game just finished ends in the position of this FEN.
    Position(&'static [u8]),
    /// So many games have finished.
    Games(u64),
    /// The most pairs that were tried for a move.
    Pairs(u32),
    /// Some pair was tried for a move.
    SomePairs,
}

impl Step {
    /// Whether the call returns, or the converter reports, what the step says.
    fn holds<W: Sink>(self, converter: &mut Usual, out: &mut W) -> bool {
        match self {
            Step::Feed(piece, result) => feed_once(converter, piece, out) == result,
            Step::FeedAll(piece, fault) => feed(converter, piece, out) == Err(fault),
            Step::Finish(result) => finish_once(converter, out) == result,
            _ => self.is_reported(converter),
        }
    }

    /// Whether the converter reports what the step says.
    fn is_reported(self, converter: &Usual) -> bool {
        match self {
            Step::Tag(name, value) => converter.tag(name) == Some(value),
            Step::NoTag(name) => converter.tag(name).is_none(),
            Step::Plies(plies) => converter.plies() == plies,
            Step::Position(fen) => ends_in(converter, fen),
            Step::Games(games) => converter.games() == games,
            Step::Pairs(pairs) => converter.most_probes() == pairs,
            Step::SomePairs => 1 <= converter.most_probes(),
            Step::IsFinished(is_finished) => converter.is_finished() == is_finished,
            _ => false,
        }
    }
}

/// The game just finished ends in the position of this FEN.
fn ends_in(converter: &Usual, fen: &[u8]) -> bool {
    match converter.position() {
        Some(position) => write_fen(position).as_slice() == fen,
        None => false,
    }
}

/// No game has just finished.
fn has_no_game(rt: &impl Abort, converter: &Usual) {
    assert!(rt; converter.tag(b"Result").is_none());
    assert_eq!(rt; converter.plies(), 0);
    assert!(rt; converter.position().is_none());
}

/// Each step in turn holds, of a new converter.
fn takes<W: Sink>(rt: &impl Abort, mode: Mode, steps: &[Step], out: &mut W) {
    let mut converter = Usual::new(mode);
    for step in steps {
        if let Step::NoGame = step {
            has_no_game(rt, &converter);
        } else {
            let holds = step.holds(&mut converter, out);
            assert!(rt; holds, "{step:?}");
        }
    }
}

const TWO_GAMES: &[Step] = &[
    Step::Feed(b"[Result \"1-0\"] 1-0", Ok(Fed::All)),
    Step::NoGame,
    Step::Feed(b" *", Ok(Fed::Game(0))),
    Step::Tag(b"Result", b"1-0"),
    Step::Tag(b"White", b"?"),
    Step::NoTag(b"ECO"),
    Step::Feed(b" *", Ok(Fed::Game(2))),
    Step::Tag(b"Result", b"*"),
    Step::Finish(Ok(false)),
    Step::NoGame,
    Step::Games(2),
    Step::Pairs(0),
    Step::IsFinished(true),
];

#[test]
fn gives_games_as_they_end(rt: HostRuntime) {
    takes(&rt, Mode::Full, TWO_GAMES, &mut Nowhere);
}

const MARKER_AT_THE_END: &[Step] = &[
    Step::Feed(b"[Result \"1-0\"] 1-0", Ok(Fed::All)),
    Step::Finish(Ok(true)),
    Step::Tag(b"Result", b"1-0"),
    Step::Games(1),
    Step::IsFinished(true),
];

#[test]
fn ends_a_game_with_the_input(rt: HostRuntime) {
    takes(&rt, Mode::Full, MARKER_AT_THE_END, &mut Nowhere);
}

const MARKER_IN_TWO_PIECES: &[Step] = &[
    Step::Feed(b"[Result \"1-0\"] 1", Ok(Fed::All)),
    Step::Feed(b"-0 ", Ok(Fed::Game(2))),
    Step::Tag(b"Result", b"1-0"),
    Step::Feed(b" ", Ok(Fed::All)),
    Step::NoGame,
];

#[test]
fn takes_a_marker_in_two_pieces(rt: HostRuntime) {
    takes(&rt, Mode::Full, MARKER_IN_TWO_PIECES, &mut Nowhere);
}

const ESCAPE_IN_TWO_PIECES: &[Step] = &[
    Step::Feed(b"[A \"x\\", Ok(Fed::All)),
    Step::Feed(b"\"y\"] *", Ok(Fed::Game(6))),
    Step::Tag(b"A", b"x\"y"),
    Step::Tag(b"Event", b"?"),
    Step::NoTag(b"B"),
    Step::Finish(Ok(false)),
    Step::NoTag(b"A"),
];

#[test]
fn takes_an_escape_in_two_pieces(rt: HostRuntime) {
    takes(&rt, Mode::Full, ESCAPE_IN_TWO_PIECES, &mut Nowhere);
}

const EMPTY_PIECE: &[Step] = &[
    Step::NoGame,
    Step::Feed(b"[Result \"1-0\"] 1. e4 e5 2. Nf3 1-0", Ok(Fed::All)),
    Step::NoGame,
    Step::Feed(b" ", Ok(Fed::Game(0))),
    Step::Tag(b"Result", b"1-0"),
    Step::Plies(3),
    Step::Position(b"rnbqkbnr/pppp1ppp/8/4p3/4P3/5N2/PPPP1PPP/RNBQKB1R b KQkq - 1 2"),
    // after an empty piece no game has just finished, and nothing else changes
    Step::Feed(b"", Ok(Fed::All)),
    Step::NoGame,
    Step::Games(1),
    Step::SomePairs,
    Step::Finish(Ok(false)),
    Step::Games(1),
];

#[test]
fn gives_a_game_until_the_next_piece(rt: HostRuntime) {
    takes(&rt, Mode::Full, EMPTY_PIECE, &mut Nowhere);
}

const EXPORTED: &[Step] = &[
    Step::Feed(
        b"[SetUp \"0\"][FEN \"4k3/8/8/8/8/8/8/4K3 w - - 0 1\"][A \"a\"] Ke2 *",
        Ok(Fed::Game(61)),
    ),
    Step::Tag(b"SetUp", b"1"),
    Step::Tag(b"FEN", b"4k3/8/8/8/8/8/8/4K3 w - - 0 1"),
    Step::Tag(b"A", b"a"),
    Step::Tag(b"Date", b"????.??.??"),
    Step::NoTag(b"ECO"),
];

const REDUCED: &[Step] = &[
    Step::Feed(b"[ECO \"C20\"][White \"w\"] e4 (d4) *", Ok(Fed::Game(32))),
    Step::NoTag(b"ECO"),
    Step::Tag(b"White", b"w"),
    Step::Plies(1),
];

#[test]
fn tells_what_is_exported(rt: HostRuntime) {
    takes(&rt, Mode::Full, EXPORTED, &mut Nowhere);
    takes(&rt, Mode::Reduced, REDUCED, &mut Nowhere);
}

const NO_SUCH_MOVE: Fault = Fault {
    at: 12,
    reason: Reason::IllegalMove,
};

const ILLEGAL_MOVE: &[Step] = &[
    Step::Feed(b"1. e4 e5 2. Ke3 ", Err(NO_SUCH_MOVE)),
    Step::FeedAll(b"*", NO_SUCH_MOVE),
    Step::FeedAll(b"", NO_SUCH_MOVE),
    Step::Finish(Err(NO_SUCH_MOVE)),
    Step::IsFinished(false),
    Step::NoGame,
];

#[test]
fn tells_an_illegal_move_again(rt: HostRuntime) {
    let mut text = Vec::new(rt.alloc());
    takes(&rt, Mode::Full, ILLEGAL_MOVE, &mut Outlet::new(&mut text));
    assert!(rt; text.as_slice() == HEAD);
}

/// So many pairs were tried for one move when the fault of this input is reported.
fn counts_at_fault(rt: &impl Abort, input: &[u8], pairs: u32) {
    let mut converter = Usual::new(Mode::Full);
    let fed = feed_once(&mut converter, input, &mut Nowhere);
    assert!(rt; fed.is_err());
    assert_eq!(rt; converter.most_probes(), pairs);
}

// Three pawns see e4. Castling is one pair, also where it is rejected. A knight's move is one pair
// to find it, and one for its SAN.
#[test]
fn counts_pairs_up_to_a_fault(rt: HostRuntime) {
    counts_at_fault(&rt, b"1. e4 e9 ", 3);
    counts_at_fault(&rt, b"O-O ", 1);
    counts_at_fault(&rt, b"Nf3 )", 2);
}

const OTHER_MARKER: Fault = Fault {
    at: 2,
    reason: Reason::ResultDiffers,
};

const SECOND_GAME: &[Step] = &[
    Step::FeedAll(b"* 1-0 ", OTHER_MARKER),
    Step::FeedAll(b"*", OTHER_MARKER),
    Step::Finish(Err(OTHER_MARKER)),
    Step::NoGame,
    Step::Games(1),
];

#[test]
fn tells_a_fault_after_a_game_again(rt: HostRuntime) {
    let mut text = Vec::new(rt.alloc());
    takes(&rt, Mode::Full, SECOND_GAME, &mut Outlet::new(&mut text));
    assert!(rt; text.as_slice() == LONE_MARKER);
}

/// Inputs of one game, with their moves outside variations and the position after those.
#[rattlefmt::skip]
const LAST: &[(&[u8], u64, &[u8])] = &[
    (b"*", 0, b"rnbqkbnr/pppppppp/8/8/8/8/PPPPPPPP/RNBQKBNR w KQkq - 0 1"),
    (b"1. e4 *", 1, b"rnbqkbnr/pppppppp/8/8/4P3/8/PPPP1PPP/RNBQKBNR b KQkq e3 0 1"),
    (b"[Result \"0-1\"]\nf3 e5 g4 Qh4 0-1 ", 4,
        b"rnb1kbnr/pppp1ppp/8/4p3/6Pq/5P2/PPPPP2P/RNBQKBNR w KQkq - 1 3"),
    (b"[FEN \"4k3/8/8/8/3pP3/8/8/4K3 b - e3 0 1\"]\ndxe3 *", 1, b"4k3/8/8/8/8/4p3/8/4K3 w - - 0 2"),
    (b"1. e4 (1. d4 d5 (1... Nf6 2. c4)) (1. c4) e5 (1... c5 2. Nf3) *", 2,
        b"rnbqkbnr/pppp1ppp/8/4p3/4P3/8/PPPP1PPP/RNBQKBNR w KQkq e6 0 2"),
    (b"[FEN \"r3k2r/8/8/8/8/8/8/R3K2R w KQkq - 3 1\"] 0-0 0-0-0 *", 2,
        b"2kr3r/8/8/8/8/8/8/R4RK1 w - - 5 2"),
];

/// The input is one game, with so many moves outside variations, and ends in this position.
fn ends_after(rt: &impl Abort, input: &[u8], plies: u64, last: &[u8]) {
    let mut converter = Usual::new(Mode::Full);
    let fed = feed_once(&mut converter, input, &mut Nowhere);
    assert!(rt; matches!(fed, Ok(Fed::Game(_))));
    assert_eq!(rt; converter.games(), 1);
    assert_eq!(rt; converter.plies(), plies);
    assert!(rt; ends_in(&converter, last));
}

#[test]
fn tells_the_last_position(rt: HostRuntime) {
    for &(input, plies, last) in LAST {
        ends_after(&rt, input, plies, last);
    }
}
