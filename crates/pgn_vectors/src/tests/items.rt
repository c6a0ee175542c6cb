//! Items of games: the text that a caller makes of them is the export, in reads of any length.
use crate::{Vector, converted, tables};
use chess_rules::{Colour, Position, Probes};
use chess_text::{read_fen, read_uci, write_fen};
use pgn_game::{Fault, Inlet, Item, Items, Mode, Outlet, Sink, Totals, find_move};
use std::io::{self, Read};
use std::process::Abort;
use std::test::Fail;

/// Items with the limits of the program: 64 pairs, and variations to depth 32.
pub type UsualItems = Items<64, 33>;

/// How many bytes a read gives at most.
pub const LENGTHS: [usize; 6] = [1, 2, 3, 7, 64, 4096];

/// A reader that gives at most so many bytes a call.
#[derive(Drop)]
pub struct Drops<'a> {
    pub left: &'a [u8],
    pub most: usize,
}

impl Read for Drops<'_> {
    fn read(&mut self, buffer: &mut [u8]) -> io::Result<usize> {
        if buffer.len() <= self.most {
            return self.left.read(buffer);
        }
        match buffer.get_mut(..self.most) {
            Some(room) => self.left.read(room),
            None => Ok(0),
        }
    }
}

/// Appends the bytes to the text.
pub fn append(text: &mut Vec<u8>, bytes: &[u8]) {
    if !bytes.is_empty() {
        let _ = Outlet::new(text).write_some(bytes);
    }
}

/// The number without its last digit, without its last two, and so on: of at most five digits.
fn heads(number: u32) -> [u32; 4] {
    [number / 10000, number / 1000, number / 100, number / 10]
}

fn append_digit(text: &mut Vec<u8>, number: u32) {
    let digit = (number % 10) as usize;
    if let Some(letter) = b"0123456789".get(digit) {
        append(text, &[*letter]);
    }
}

/// What is written of the items so far, by the rules of the export format.
#[derive(Clone, Copy)]
struct Written {
    /// Where the current line begins in the text.
    line: usize,
    /// Whether the last token is a move.
    is_after_move: bool,
    games: u64,
    plies: u64,
}

/// Nothing is written.
const NOTHING_WRITTEN: Written = Written {
    line: 0,
    is_after_move: false,
    games: 0,
    plies: 0,
};

impl Written {
    /// Goes on to where a token of this length goes: on the line if it fits, else on the next one.
    fn begin_token(&mut self, length: usize, text: &mut Vec<u8>) {
        let used = text.len().saturating_sub(self.line);
        if used.saturating_add(length) >= 79 {
            append(text, b"\n");
            self.line = text.len();
        } else if used > 0 {
            append(text, b" ");
        }
        self.is_after_move = false;
    }

    fn put(&mut self, token: &[u8], text: &mut Vec<u8>) {
        self.begin_token(token.len(), text);
        append(text, token);
    }

    fn put_number(&mut self, before: &[u8], number: u32, behind: &[u8], text: &mut Vec<u8>) {
        let mut length = before.len().saturating_add(behind.len()).saturating_add(1);
        for head in heads(number) {
            if head > 0 {
                length = length.saturating_add(1);
            }
        }
        self.begin_token(length, text);
        append(text, before);
        for head in heads(number) {
            if head > 0 {
                append_digit(text, head);
            }
        }
        append_digit(text, number);
        append(text, behind);
    }

    /// Puts the move in SAN, with its number where it needs one (PGN 8.2.2.2).
    fn put_move(&mut self, items: &UsualItems, text: &mut Vec<u8>) {
        if let Some(before) = items.position_before() {
            match before.side() {
                Colour::White => self.put_number(b"", before.full(), b".", text),
                Colour::Black if self.is_after_move => {}
                Colour::Black => self.put_number(b"", before.full(), b"...", text),
            }
        }
        if let Some(san) = items.san(&mut Probes::new()) {
            self.put(san.as_slice(), text);
        }
        self.is_after_move = true;
        if items.depth() == 0 {
            self.plies = self.plies.saturating_add(1);
        }
    }

    /// Writes the item just given.
    fn take(&mut self, items: &UsualItems, item: Item, text: &mut Vec<u8>) {
        match item {
            Item::Tags => {
                let _ = items.write_tags(&mut Outlet::new(&mut *text));
                self.line = text.len();
                self.is_after_move = false;
            }
            Item::Move(_) => self.put_move(items, text),
            Item::Glyph(glyph) => self.put_number(b"$", u32::from(glyph), b"", text),
            Item::CommentOpen => self.put(b"{", text),
            Item::Word => self.put(items.word(), text),
            Item::CommentClose => self.put(b"}", text),
            Item::Open => self.put(b"(", text),
            Item::Close => self.put(b")", text),
            Item::Marker(marker) => {
                self.put(marker.text(), text);
                append(text, b"\n\n");
                self.line = text.len();
                self.games = self.games.saturating_add(1);
            }
        }
    }
}

/// Writes all items, up to the end or the first fault.
fn write_items<R: Read>(
    items: &mut UsualItems,
    source: &mut Inlet<R>,
    text: &mut Vec<u8>,
) -> (Written, Option<Fault>) {
    text.clear();
    let mut written = NOTHING_WRITTEN;
    // An input has fewer items than that.
    for _ in 0..u64::MAX {
        match items.next(source) {
            Ok(Some(item)) => written.take(items, item, text),
            Ok(None) => return (written, None),
            Err(fault) => return (written, Some(fault)),
        }
    }
    (written, None)
}

/// Where the items end, the next call returns the same, and no game is current.
fn stays<R: Read>(
    rt: &impl Abort,
    items: &mut UsualItems,
    source: &mut Inlet<R>,
    fault: Option<Fault>,
) {
    let again = items.next(source);
    match fault {
        Some(fault) => assert!(rt; again == Err(fault)),
        None => assert!(rt; again == Ok(None)),
    }
    assert!(rt; items.tag(b"Event").is_none());
    assert!(rt; items.position().is_none());
    assert!(rt; items.position_before().is_none());
}

/// What the export has of the text: at a fault without the current line.
fn complete_lines<'a>(text: &'a [u8], written: &Written, fault: Option<Fault>) -> &'a [u8] {
    match fault {
        Some(_) => text.get(..written.line).unwrap_or_default(),
        None => text,
    }
}

/// The text of the items is the export, and they end as it does.
fn agrees(rt: &impl Abort, vector: &Vector, most: usize, text: &mut Vec<u8>, export: &mut Vec<u8>) {
    let input = vector.input.as_bytes();
    let run = converted(input, Mode::Full, export);
    let mut items = UsualItems::new();
    let mut source = Inlet::new(Drops { left: input, most });
    let (written, fault) = write_items(&mut items, &mut source, text);
    assert!(rt;
        complete_lines(text.as_slice(), &written, fault) == export.as_slice(),
        "{} by {most}",
        vector.name
    );
    match run {
        Ok(totals) => {
            assert_eq!(rt; fault, None, "{} by {most}", vector.name);
            assert_eq!(rt; items.games(), totals.games, "{}", vector.name);
            assert_eq!(rt; written.games, totals.games, "{}", vector.name);
            assert_eq!(rt; written.plies, totals.plies, "{}", vector.name);
            assert_eq!(rt; items.place(), input.len() as u64, "{}", vector.name);
        }
        Err(of_run) => assert_eq!(rt; fault, Some(of_run), "{} by {most}", vector.name),
    }
    stays(rt, &mut items, &mut source, fault);
}

fn agrees_each(rt: &impl Abort, table: &[Vector], text: &mut Vec<u8>, export: &mut Vec<u8>) {
    for vector in table {
        for most in LENGTHS {
            agrees(rt, vector, most, text, export);
        }
    }
}

#[test]
fn the_items_of_each_vector_are_its_export(rt: HostRuntime) {
    let mut text = Vec::new(rt.alloc());
    let mut export = Vec::new(rt.alloc());
    for table in tables() {
        agrees_each(&rt, table, &mut text, &mut export);
    }
}

/// Each marker ends where the items say: the text up to there has the games so far, and without its
/// last byte it has not.
fn ends_at_markers(rt: &impl Abort, vector: &Vector, most: usize, text: &mut Vec<u8>) {
    let input = vector.input.as_bytes();
    let mut items = UsualItems::new();
    let mut source = Inlet::new(Drops { left: input, most });
    // An input has fewer items than that.
    for _ in 0..u64::MAX {
        let Ok(Some(item)) = items.next(&mut source) else {
            return;
        };
        if matches!(item, Item::Marker(_)) {
            let end = items.place() as usize;
            let whole = converted(input.get(..end).unwrap_or_default(), Mode::Full, text);
            assert!(rt;
                has_games(whole, items.games()),
                "{} by {most}",
                vector.name
            );
            let short = input.get(..end.saturating_sub(1)).unwrap_or_default();
            let cut = converted(short, Mode::Full, text);
            assert!(rt; !has_games(cut, items.games()), "{} by {most}", vector.name);
        }
    }
}

/// The run has no fault, and so many games.
fn has_games(run: Result<Totals, Fault>, games: u64) -> bool {
    match run {
        Ok(totals) => totals.games == games,
        Err(_) => false,
    }
}

fn ends_each(rt: &impl Abort, table: &[Vector], text: &mut Vec<u8>) {
    for vector in table {
        for most in LENGTHS {
            ends_at_markers(rt, vector, most, text);
        }
    }
}

#[test]
fn each_marker_ends_where_the_items_say(rt: HostRuntime) {
    let mut text = Vec::new(rt.alloc());
    for table in tables() {
        ends_each(&rt, table, &mut text);
    }
}

/// The position of a level, and the one before its last move.
#[derive(Clone, Copy)]
struct Level {
    now: Position,
    before: Position,
}

/// The levels of a game, played again from its first position by `find_move`.
#[derive(Drop)]
struct Replay {
    levels: [Level; 33],
    depth: usize,
}

/// The value of the FEN tag in a tag section.
fn fen_of(section: &[u8]) -> Option<&[u8]> {
    for at in 0..section.len() {
        let rest = section.get(at..).unwrap_or_default();
        if rest.starts_with(b"\n[FEN \"") {
            let value = rest.get(7..).unwrap_or_default();
            for end in 0..value.len() {
                if value.get(end) == Some(&b'"') {
                    return value.get(..end);
                }
            }
        }
    }
    None
}

/// The position is this one, in all fields of its FEN.
fn is_position(found: Option<&Position>, wanted: &Position) -> bool {
    match found {
        Some(position) => write_fen(position).as_slice() == write_fen(wanted).as_slice(),
        None => false,
    }
}

impl Replay {
    /// Nothing is played yet.
    fn from(first: Position) -> Replay {
        let level = Level {
            now: first,
            before: first,
        };
        Replay {
            levels: [level; 33],
            depth: 0,
        }
    }

    fn level(&self) -> Level {
        match self.levels.get(self.depth) {
            Some(level) => *level,
            None => self.levels[0],
        }
    }

    fn set_level(&mut self, now: Position, before: Position) {
        if let Some(level) = self.levels.get_mut(self.depth) {
            *level = Level { now, before };
        }
    }

    /// The move just given is the one that its SAN and its UCI name here.
    fn play(&mut self, rt: &impl Abort, items: &UsualItems, item: Item) {
        let here = self.level().now;
        assert!(rt; is_position(items.position_before(), &here));
        let Some(san) = items.san(&mut Probes::new()) else {
            assert!(rt; false);
            return;
        };
        let Some(uci) = items.uci() else {
            assert!(rt; false);
            return;
        };
        let Ok(played) = find_move(&here, san.as_slice(), &mut Probes::new()) else {
            assert!(rt; false);
            return;
        };
        assert!(rt; item == Item::Move(played.mv));
        match read_uci(&here, uci.as_slice(), &mut Probes::new()) {
            Ok(by_uci) => assert!(rt; by_uci.mv == played.mv),
            Err(_) => assert!(rt; false),
        }
        self.set_level(played.next, here);
    }

    /// The item just given leads to the position that the items report.
    fn take(&mut self, rt: &impl Abort, items: &UsualItems, item: Item) {
        match item {
            Item::Move(_) => self.play(rt, items, item),
            Item::Open => {
                let before = self.level().before;
                self.depth = self.depth.saturating_add(1);
                self.set_level(before, before);
            }
            Item::Close => self.depth = self.depth.saturating_sub(1),
            _ => {}
        }
        if !matches!(item, Item::Move(_)) {
            assert!(rt; items.position_before().is_none());
            assert!(rt; items.san(&mut Probes::new()).is_none() && items.uci().is_none());
        }
        assert!(rt; is_position(items.position(), &self.level().now));
        assert!(rt; items.depth() == self.depth);
    }
}

/// The first position of the current game, by the FEN in its tag section.
fn first_position(rt: &impl Abort, items: &UsualItems, text: &mut Vec<u8>) -> Position {
    text.clear();
    assert!(rt; items.write_tags(&mut Outlet::new(&mut *text)).is_ok());
    let fen = fen_of(text.as_slice());
    assert!(rt; items.tag(b"FEN") == fen);
    match fen {
        Some(fen) => match read_fen(fen) {
            Ok(position) => position,
            Err(_) => Position::initial(),
        },
        None => Position::initial(),
    }
}

/// Plays the items again.
fn replays(rt: &impl Abort, vector: &Vector, text: &mut Vec<u8>) {
    let mut items = UsualItems::new();
    let mut source = Inlet::new(vector.input.as_bytes());
    let mut replay = Replay::from(Position::initial());
    // An input has fewer items than that.
    for _ in 0..u64::MAX {
        let Ok(Some(item)) = items.next(&mut source) else {
            return;
        };
        if item == Item::Tags {
            replay = Replay::from(first_position(rt, &items, text));
        }
        replay.take(rt, &items, item);
    }
}

fn replays_each(rt: &impl Abort, table: &[Vector], text: &mut Vec<u8>) {
    for vector in table {
        replays(rt, vector, text);
    }
}

#[test]
fn the_items_of_each_vector_are_played_again(rt: HostRuntime) {
    let mut text = Vec::new(rt.alloc());
    for table in tables() {
        replays_each(&rt, table, &mut text);
    }
}
