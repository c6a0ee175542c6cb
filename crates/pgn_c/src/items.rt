//! The items of the next game of a text, as C gets them: a line each.
ghost use Rattle.std.specs.Prelude.{◌≡◌, ℕ, ◌+◌, ◌^◌, ◌<◌, ◌≤◌, List, [], ◌++◌, length, take, drop, Some};
ghost use Rattle.std.specs.Option.{option_copied};
ghost use Rattle.chess_text.specs.Fen.{fen_text};
ghost use Rattle.chess_text.specs.Key.{position_key};
ghost use Rattle.pgn_game.specs.public.ItemsCalls.{HaveGiven, shown_san, shown_uci};
ghost use Rattle.pgn_game.specs.declared.mode.Mode.TheVariants.{Full};
ghost use Rattle.pgn_c.specs.Results.{profile_in};
ghost use Rattle.pgn_c.specs.ItemLines as spec;
ghost use Rattle.pgn_c.specs.ItemLines.{WritesItems, WritesItemsAt, field_if};
ghost use Rattle.pgn_c.specs.ItemSteps as steps;
ghost use Rattle.pgn_c.specs.ItemSteps.{PutsItem, PutsText, code_ends, code_move, field_of, front_text};
ghost use Rattle.pgn_c.specs.ItemSteps.{number_if, passed_one, position_fields};

use crate::game_result::{BAD_PLACE, NO_GAME};
use crate::next_game::{LAST_PLACE, is_first_column};
use crate::pgn_result::{FAULT, FULL, OK, padded};
use crate::slice_source::SliceSource;
use crate::{LEVELS, TAGS};
use arrayvec::ArrayVec;
use chess_rules::{Colour, Position, Probes};
use chess_text::{FenWriter, write_position_key};
use itoa::Buffer;
use pgn_game::laws::items_join;
use pgn_game::{Fault, Item, Items, Reason};

/// The most bytes of an item's text.
const TEXT_LENGTH: usize = 216;

/// What the line of a move has, beside its number.
#[derive(Clone, Copy)]
pub struct MoveFields {
    /// Its SAN.
    pub san: bool,
    /// Its UCI.
    pub uci: bool,
    /// The FEN of the position after it.
    pub fen: bool,
    /// The key of that position.
    pub key: bool,
}

/// The fields with this number in C, if there are any.
pub fn fields_with_number(number: u32) -> Option<MoveFields>
    ensures { result ≡ spec.fields_of number }
{
    if number / 16 != 0 {
        return None;
    }
    Some(MoveFields {
        san: number % 2 == 1,
        uci: number / 2 % 2 == 1,
        fen: number / 4 % 2 == 1,
        key: number / 8 == 1,
    })
}

/// How the items of a game were written, `struct pgn_item_lines` in C.
#[repr(C)]
#[derive(Clone, Copy)]
pub struct PgnItems {
    /// 0: all items were written, up to the game's marker. 1: there is a fault. 2: the buffer is
    /// full. 3: there are no such fields. 4: no game is left. 6: `from` is after
    /// the text, or the text has more than 2^62 bytes.
    pub status: u32,
    /// The number of the fault, 1 to 42, or 51 for a full buffer; 0 where there is none.
    pub fault: u32,
    /// The place of the fault: the offset of a byte of the text, from 0.
    pub place: u64,
    /// How many bytes of the buffer were written.
    pub written: usize,
    /// The number of the item after those that were written.
    pub next_item: u64,
    /// The place after the game's marker; 0 unless all its items were written.
    pub end: usize,
    /// Where the reason begins in the message.
    pub reason_at: usize,
    /// The fault as a line, `byte N: REASON`, and zeros after it; zeros alone where there is none.
    pub message: [u8; 104],
}

/// How far the items of a game were written.
#[derive(Clone, Copy)]
struct Lines {
    /// How many items were given.
    items: u64,
    /// How many bytes of the buffer were written.
    used: usize,
    /// The same at the end of the last line.
    whole_items: u64,
    whole: usize,
}

impl Lines {
    // Puts the text of the item just given into the buffer, unless the item is before the first
    // that is written. Returns whether it fits.
    fn put_item(
        &mut self,
        items: &Items<TAGS, LEVELS>,
        item: &Item,
        first: u64,
        fields: MoveFields,
        fens: &mut FenWriter,
        buffer: &mut [u8],
    ) -> bool
        requires { self.old.used ≤ length buffer.old }
        ensures { PutsItem fields first items.now.current item.now self.old self.new buffer.old
            buffer.new result }
    {
        if self.items < first {
            self.pass();
            return true;
        }
        let mut front = ArrayVec::new();
        push_item(&mut front, items, item, fields, fens);
        self.put(front.as_slice(), items.word(), ends_line(item), buffer)
    }

    // Passes an item: nothing is written.
    fn pass(&mut self)
        requires { self.old.items + 1 < 2 ^ 64 }
        ensures { self.new ≡ passed_one self.old }
    {
        self.items += 1;
        self.whole_items = self.items;
    }

    // Puts the text of the next item into the buffer, its front and a word, and returns whether it
    // fits.
    fn put(&mut self, front: &[u8], word: &[u8], ends_line: bool, buffer: &mut [u8]) -> bool
        requires { self.old.used ≤ length buffer.old }
        ensures { PutsText self.old self.new (front.now ++ word.now) ends_line buffer.old buffer.new
            result }
    {
        let room = buffer.len() - self.used;
        if room < front.len() || room - front.len() < word.len() {
            return false;
        }
        put_at(front, buffer, self.used);
        put_at(word, buffer, self.used + front.len());
        self.used += front.len() + word.len();
        self.items = self.items.saturating_add(1);
        if ends_line {
            self.whole_items = self.items;
            self.whole = self.used;
        }
        true
    }
}

// Copies the text into the buffer at this place.
fn put_at(text: &[u8], buffer: &mut [u8], at: usize)
    requires { at + length text.now ≤ length buffer.old }
    ensures { buffer.new
        ≡ take at buffer.old ++ text.now ++ drop (at + length text.now) buffer.old }
{
    buffer[at..at + text.len()].copy_from_slice(text);
}

/// Writes the items of the next game of a text, from the byte at a place on.
pub fn write_items(
    text: &[u8],
    from: usize,
    first: u64,
    fields: MoveFields,
    buffer: &mut [u8],
) -> PgnItems
    ensures { WritesItemsAt fields text.now from first buffer.old buffer.new result }
{
    if from > text.len() || text.len() as u64 > LAST_PLACE {
        return plain_result(BAD_PLACE, 0, 0);
    }
    let mut items = Items::<TAGS, LEVELS>::begin_at(from as u64, is_first_column(text, from));
    let mut source = SliceSource {
        left: &text[from..],
    };
    write_items_to_marker(&mut items, &mut source, first, fields, buffer)
}

// Writes the items up to a marker.
fn write_items_to_marker(
    items: &mut Items<TAGS, LEVELS>,
    source: &mut SliceSource<'_>,
    first: u64,
    fields: MoveFields,
    buffer: &mut [u8],
) -> PgnItems
    ensures { (u : List ℕ)
        → HaveGiven (profile_in Full) (Some source.old.left.now) u items.old []
        → length (u ++ source.old.left.now) ≤ 2 ^ 62
        → WritesItems fields (u ++ source.old.left.now) first buffer.old buffer.new result }
{
    items_join();
    let mut fens = FenWriter::new();
    let mut lines = Lines {
        items: 0,
        used: 0,
        whole_items: 0,
        whole: 0,
    };
    loop {
        match items.next(source) {
            Err(fault) => return refused_items(fault, &lines),
            Ok(None) => return plain_result(NO_GAME, lines.used, lines.items),
            Ok(Some(item)) => {
                if !lines.put_item(items, &item, first, fields, &mut fens, buffer) {
                    return full_items(&lines);
                }
                if is_marker(&item) {
                    return whole_game(&lines, items.place() as usize);
                }
            }
        }
    }
}

// Whether a line ends with the item.
fn ends_line(item: &Item) -> bool
    ensures { result ≡ code_ends item.now }
{
    !matches!(*item, Item::CommentOpen | Item::Word)
}

fn is_marker(item: &Item) -> bool
    ensures { result ≡ steps.is_marker item.now }
{
    matches!(*item, Item::Marker(_))
}

// Adds the text of the item just given to an empty one, without its word.
fn push_item(
    text: &mut ArrayVec<u8, TEXT_LENGTH>,
    items: &Items<TAGS, LEVELS>,
    item: &Item,
    fields: MoveFields,
    fens: &mut FenWriter,
)
    requires { text.old.items ≡ [] }
    ensures { text.new.items ≡ front_text fields items.now.current item.now }
{
    match *item {
        Item::Tags => {}
        Item::Move(_) => push_move(text, items, fields, fens),
        Item::Glyph(glyph) => {
            text.push(b'G');
            push_field(text, Buffer::new().format(glyph).as_bytes());
            text.push(b'\n');
        }
        Item::CommentOpen => text.push(b'C'),
        Item::Word => text.push(b'\t'),
        Item::CommentClose => text.push(b'\n'),
        Item::Open => {
            text.push(b'(');
            text.push(b'\n');
        }
        Item::Close => {
            text.push(b')');
            text.push(b'\n');
        }
        Item::Marker(marker) => {
            text.push(b'R');
            push_field(text, marker.text());
            text.push(b'\n');
        }
    }
}

// Adds the line of the move just given to an empty text.
fn push_move(
    text: &mut ArrayVec<u8, TEXT_LENGTH>,
    items: &Items<TAGS, LEVELS>,
    fields: MoveFields,
    fens: &mut FenWriter,
)
    requires { text.old.items ≡ [] }
    ensures { text.new.items ≡ code_move fields items.now.current }
{
    text.push(b'M');
    push_number(text, items.position_before());
    push_san(text, items, fields.san);
    push_uci(text, items, fields.uci);
    push_position(text, items.position(), fields, fens);
    text.push(b'\n');
}

// Adds the number of the move that is played in a position.
fn push_number(text: &mut ArrayVec<u8, TEXT_LENGTH>, before: Option<&Position>)
    requires { length text.old.items ≤ 1 }
    ensures text { text.new.items ≡ text.old.items ++ number_if (option_copied before.entry) }
    ensures short { length text.new.items ≤ length text.old.items + 14 }
{
    let Some(position) = before else {
        return;
    };
    push_field(text, Buffer::new().format(position.full()).as_bytes());
    let dots = match position.side() {
        Colour::White => ".",
        Colour::Black => "...",
    };
    let _ = text.try_extend_from_slice(dots.as_bytes());
}

// Adds the SAN of the move just given, if it was asked for.
fn push_san(text: &mut ArrayVec<u8, TEXT_LENGTH>, items: &Items<TAGS, LEVELS>, is_wanted: bool)
    requires { length text.old.items ≤ 15 }
    ensures text { text.new.items
        ≡ text.old.items ++ field_of is_wanted (shown_san items.now.current) }
    ensures short { length text.new.items ≤ length text.old.items + 8 }
{
    if !is_wanted {
        return;
    }
    if let Some(san) = items.san(&mut Probes::new()) {
        push_field(text, san.as_slice());
    }
}

// Adds the UCI of the move just given, if it was asked for.
fn push_uci(text: &mut ArrayVec<u8, TEXT_LENGTH>, items: &Items<TAGS, LEVELS>, is_wanted: bool)
    requires { length text.old.items ≤ 23 }
    ensures text { text.new.items
        ≡ text.old.items ++ field_of is_wanted (shown_uci items.now.current) }
    ensures short { length text.new.items ≤ length text.old.items + 6 }
{
    if !is_wanted {
        return;
    }
    if let Some(uci) = items.uci() {
        push_field(text, uci.as_slice());
    }
}

// Adds the FEN of a position and its key, if they were asked for.
fn push_position(
    text: &mut ArrayVec<u8, TEXT_LENGTH>,
    position: Option<&Position>,
    fields: MoveFields,
    fens: &mut FenWriter,
)
    requires { length text.old.items ≤ 29 }
    ensures text { text.new.items
        ≡ text.old.items ++ position_fields fields (option_copied position.entry) }
    ensures short { length text.new.items ≤ length text.old.items + 176 }
{
    let Some(position) = position else {
        return;
    };
    push_fen(text, position, fields.fen, fens);
    push_key(text, position, fields.key);
}

// Adds the FEN of a position, if it was asked for.
fn push_fen(
    text: &mut ArrayVec<u8, TEXT_LENGTH>,
    position: &Position,
    is_wanted: bool,
    fens: &mut FenWriter,
)
    requires { length text.old.items ≤ 29 }
    ensures text { text.new.items
        ≡ text.old.items ++ field_if is_wanted (fen_text position.now) }
    ensures short { length text.new.items ≤ length text.old.items + 94 }
{
    if !is_wanted {
        return;
    }
    push_field(text, fens.write(position).as_slice());
}

// Adds the key of a position, if it was asked for.
fn push_key(text: &mut ArrayVec<u8, TEXT_LENGTH>, position: &Position, is_wanted: bool)
    requires { length text.old.items ≤ 123 }
    ensures text { text.new.items
        ≡ text.old.items ++ field_if is_wanted (position_key position.now) }
    ensures short { length text.new.items ≤ length text.old.items + 82 }
{
    if !is_wanted {
        return;
    }
    let key = write_position_key(position, &mut Probes::new());
    push_field(text, key.as_slice());
}

// Adds a tab and a field.
fn push_field(text: &mut ArrayVec<u8, TEXT_LENGTH>, field: &[u8])
    requires { length text.old.items + length field.now + 1 ≤ 216 }
    ensures { text.new.items ≡ text.old.items ++ spec.field field.now }
{
    text.push(b'\t');
    let _ = text.try_extend_from_slice(field);
}

/// The result without a fault.
pub fn plain_result(status: u32, written: usize, next_item: u64) -> PgnItems
    ensures { result ≡ spec.plain_result status written next_item }
{
    PgnItems {
        status,
        fault: 0,
        place: 0,
        written,
        next_item,
        end: 0,
        reason_at: 0,
        message: [0; 104],
    }
}

// The result for a game whose items were all written, and whose marker ends at this place.
fn whole_game(lines: &Lines, end: usize) -> PgnItems
    ensures { result ≡ record (spec.plain_result 0 lines.now.used lines.now.items) { end = end } }
{
    PgnItems {
        end,
        ..plain_result(OK, lines.used, lines.items)
    }
}

// The result for a fault.
fn refused_items(fault: Fault, lines: &Lines) -> PgnItems
    ensures { result ≡ spec.fault_result fault lines.now.used lines.now.items }
{
    PgnItems {
        status: FAULT,
        fault: fault.reason.number() as u32,
        place: fault.at,
        written: lines.used,
        next_item: lines.items,
        end: 0,
        reason_at: 7 + Buffer::new().format(fault.at).len(),
        message: padded(fault.line().as_slice()),
    }
}

// The result for a full buffer.
fn full_items(lines: &Lines) -> PgnItems
    ensures { result
        ≡ record (spec.plain_result 2 lines.now.whole lines.now.whole_items) { fault = 51 } }
{
    PgnItems {
        fault: Reason::WriteFault.number() as u32,
        ..plain_result(FULL, lines.whole, lines.whole_items)
    }
}
