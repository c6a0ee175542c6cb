//! The converter for callers in C.
//!
//! `pgn.h` declares these functions. None allocates, and none keeps anything from call to call. So
//! several threads may call them at once, on buffers that they do not share.
//!
//! # Safety
//!
//! A caller in C passes a slice as a pointer and a length. `pgn.h` has the four conditions on a
//! caller. The check cannot see that callers keep to them.
#![tactic(auto)]

ghost use Rattle.std.specs.Prelude.{◌≡◌};
ghost use Rattle.pgn_lexer.specs.TokensOf.{tokens_of};
ghost use Rattle.chess_text.specs.Fen.{read};
ghost use Rattle.pgn_c.specs.Explanation.{explanation};
ghost use Rattle.pgn_c.specs.Positions.{Normalizes, WritesKey, notation_of, san_result_in};
ghost use Rattle.pgn_c.specs.ItemLines.{WritesItemsIn, fields_of};
ghost use Rattle.pgn_c.specs.LinesOfPlay.{WritesLineIn, format_of};
ghost use Rattle.pgn_c.specs.MoveNumbers.{AreAccepted, number_result, wrong_number};
ghost use Rattle.pgn_c.specs.NextGame.{NextGameIn, ReadGameIn};
ghost use Rattle.pgn_c.specs.NextSection.{NextSection, ends_with_number, is_set};
ghost use Rattle.pgn_c.specs.Results.{Checks, Converts, ConvertsIn, mode_of, result_of};
ghost use Rattle.pgn_c.specs.TagAt.{TagResult};
ghost use Rattle.pgn_c.specs.UnusualParts.{is_unusual};

mod buffer_sink;
mod explanation;
mod fen;
mod game_result;
mod items;
mod line_of_play;
mod move_numbers;
mod next_game;
mod next_section;
mod pgn_result;
mod read_game;
mod san;
mod slice_source;
mod tag;

use crate::buffer_sink::{BufferBefore, BufferSink, Room};
pub use crate::explanation::PgnExplanation;
use crate::explanation::{explain, no_explanation};
pub use crate::fen::PgnText;
use crate::fen::{bad_text, put_fen, put_key};
pub use crate::game_result::PgnGame;
pub use crate::items::PgnItems;
use crate::items::{fields_with_number, plain_result, write_items};
pub use crate::line_of_play::PgnPlies;
use crate::line_of_play::{format_with_number, no_first_position, no_line_in_format, write_line};
pub use crate::move_numbers::PgnNumber;
use crate::move_numbers::check_numbers;
use crate::next_game::next_game;
use crate::next_section::next_section;
pub use crate::next_section::{PgnBadGame, PgnSection};
pub use crate::pgn_result::PgnResult;
use crate::pgn_result::{NO_MODE, fault_result, no_mode, totals_result};
use crate::read_game::read_game;
pub use crate::san::PgnMove;
use crate::san::{name_move, no_notation, no_position, notation_with_number};
pub use crate::tag::PgnTag;
use crate::tag::tag_at;
use chess_text::read_fen;
use pgn_game::laws::due_grows;
use pgn_game::{Fault, Mode, Totals, check_slice, convert_slice};
use pgn_lexer::laws::decided_is_prefix;
use std::marker::{Brand, PhantomData};

/// The most tag pairs of a game.
const TAGS: usize = 64;
/// The levels of movetext: the game's own, and variations to depth 32.
const LEVELS: usize = 33;

/// Returns the version of the library, as `PGN_VERSION_NUMBER` of `pgn.h` has it.
///
/// It is 10,000 times the major number, plus 100 times the minor one, plus the patch level.
#[unsafe(no_mangle)]
pub extern "C" fn pgn_version() -> u32
    ensures { result ≡ 100 }
{
    100
}

/// Checks the games of a text (PGN import format), and counts them.
///
/// The result has no written bytes. Its status is 0 with the numbers of games and plies, or 1 with
/// the text's first fault.
#[unsafe(no_mangle)]
pub extern "C" fn pgn_check(text: &[u8]) -> PgnResult
    ensures { Checks text.now result }
{
    result_for(check_slice::<TAGS, LEVELS>(text, Mode::Full), 0)
}

/// Converts the games of a text from import format to export format, into the front of a buffer.
///
/// Mode 0 is the full format (PGN 3.2), mode 1 the reduced one (PGN 3.2.4). Whatever the result,
/// the bytes written are a prefix of the export text, and the others of the buffer are unchanged.
///
/// - Status 0: the buffer has the whole export text.
/// - Status 1: the text has a fault. The buffer has the export text of every game before it, and
///   the complete lines of the game at fault, if its movetext has begun.
/// - Status 2: the buffer is full, and more is to be written. The place is that of the token whose
///   text is not all written.
/// - Status 3: there is no such mode. Nothing was read or written.
#[unsafe(no_mangle)]
pub extern "C" fn pgn_convert(text: &[u8], buffer: &mut [u8], mode: u32) -> PgnResult
    ensures { ConvertsIn (mode_of mode) text.now buffer.old buffer.new result }
{
    match mode_with_number(mode) {
        Some(mode) => convert_into(text, buffer, mode),
        None => no_mode(),
    }
}

/// Writes the canonical text of a FEN (PGN 16.1) into the front of a buffer.
///
/// The text has at most 93 bytes.
///
/// - Status 0: the buffer has the text.
/// - Status 1: the FEN is no position. The field is 1 to 6, or 7 if all are spelled well but break
///   a rule together.
/// - Status 2: the buffer is too short. The length is what the text needs.
///
/// With the last two the buffer is unchanged.
#[unsafe(no_mangle)]
pub extern "C" fn pgn_fen_normalize(fen: &[u8], buffer: &mut [u8]) -> PgnText
    ensures { Normalizes (read fen.now) buffer.old buffer.new result }
{
    match read_fen(fen) {
        Ok(position) => put_fen(&position, buffer),
        Err(fault) => bad_text(fault.field),
    }
}

/// Writes the key of the position of a FEN into the front of a buffer.
///
/// Two positions have the same key exactly if they are the same (FIDE Laws 9.2.3). The key has the
/// first four fields of a FEN, but for two differences. It names a castling right only while the
/// king and that rook are on their home squares, and an en passant target only if a legal move
/// takes a pawn there. It has at most 81 bytes.
///
/// The result is as for `pgn_fen_normalize`.
#[unsafe(no_mangle)]
pub extern "C" fn pgn_key(fen: &[u8], buffer: &mut [u8]) -> PgnText
    ensures { WritesKey (read fen.now) buffer.old buffer.new result }
{
    match read_fen(fen) {
        Ok(position) => put_key(&position, buffer),
        Err(fault) => bad_text(fault.field),
    }
}

/// Returns the SAN and the UCI of the one legal move that a text names (PGN 8.2.3).
///
/// The position before the move is that of the FEN. The result also has the FEN of the position
/// after it. Notation 0 is SAN, as a PGN has it. Notation 1 is UCI, the notation of engines.
///
/// - Status 0: the result has the three texts.
/// - Status 1: the result has the number of a fault. It is 26 for the FEN, with its field, 33 if
///   the text is no move, and 34 if no legal move is meant. It is 35 if more than one is meant, and
///   36 for Black's move with the number 99,999.
/// - Status 3: there is no such notation. Nothing was read.
#[unsafe(no_mangle)]
pub extern "C" fn pgn_san(fen: &[u8], text: &[u8], notation: u32) -> PgnMove
    ensures { result ≡ san_result_in (notation_of notation) (read fen.now) text.now }
{
    let Some(notation) = notation_with_number(notation) else {
        return no_notation();
    };
    match read_fen(fen) {
        Ok(position) => name_move(&position, text, notation),
        Err(fault) => no_position(fault.field),
    }
}

/// Plays a text of moves from the position of a FEN on, and writes each ply into the front of a
/// buffer.
///
/// The text has moves in one notation with white space between them. Move numbers and periods that
/// stand alone, as `1.` and `12...`, are passed. Each ply is a line. Of the six formats, 0, 2 and 4
/// read SAN, and 1, 3 and 5 read UCI. With 0 and 1 the line has the ply's SAN and its UCI, each
/// with a tab after it, and the FEN of the position after it, with LF. With 2 and 3 it has the FEN
/// and LF alone, and with 4 and 5 the key of that position (`pgn_key`) and LF.
///
/// - Status 0: the buffer has the lines of all plies.
/// - Status 1: the result has the number of a fault. It is 26 for the FEN, with its field. It is 33
///   to 36 for the first word that names no move, at the place of its first byte. Then the buffer
///   has the lines of the plies before it.
/// - Status 2: the buffer is full. It has the lines of the first plies, as many as there is room
///   for. The fault is 51, and the place is that of the next ply.
/// - Status 3: there is no such format. Nothing was read or written.
#[unsafe(no_mangle)]
pub extern "C" fn pgn_line(fen: &[u8], text: &[u8], format: u32, buffer: &mut [u8]) -> PgnPlies
    ensures { WritesLineIn (format_of format) (read fen.now) text.now buffer.old buffer.new result }
{
    let Some(format) = format_with_number(format) else {
        return no_line_in_format();
    };
    match read_fen(fen) {
        Ok(position) => write_line(position, text, format, buffer),
        Err(fault) => no_first_position(fault.field),
    }
}

/// Converts the next game of a text, from the byte at `from` on, into the front of a buffer.
///
/// `from` is 0, the `end` of the game before, or another place between two games. Places count from
/// the first byte of the text. The modes are those of `pgn_convert`. If `missing_result` is 0, a
/// missing Result counts as `*`. If it is 1, it takes the game's marker, and then nothing is
/// written of a game at fault. Another number is status 3.
///
/// - Status 0: a game. The buffer has its export text. Bytes after the one at `end` do not matter.
/// - Status 1: a token of the game is rejected, whatever comes after the text. Or the text has a
///   byte at place 2^62, and those before it hold no game.
/// - Status 2: the buffer is full.
/// - Status 3: there is no such mode or missing Result. Nothing was read or written.
/// - Status 4: no game is left.
/// - Status 5: no token is rejected so far. If the text ends here, this is its fault.
/// - Status 6: the place is after the text, or above 2^62. Nothing was read or written.
#[unsafe(no_mangle)]
pub extern "C" fn pgn_next_game(
    text: &[u8],
    from: usize,
    mode: u32,
    missing_result: u32,
    buffer: &mut [u8],
) -> PgnGame
    ensures { NextGameIn (mode_of mode) missing_result text.now from buffer.old buffer.new result }
{
    next_game(text, from, mode_with_number(mode), missing_result, buffer)
}

/// Reads the next game of a text, from the byte at `from` on, and writes its tag section.
///
/// Arguments, statuses and results are those of `pgn_next_game`. But the buffer gets the tag
/// section and its empty line alone, as `pgn_next_game` writes them, and nothing of a game at
/// fault. No move is written, so that a game is read in less time.
///
/// - Status 0: a game. The buffer has its tag section.
/// - Status 2: the section is longer than the buffer, which has as many of its bytes as there is
///   room for. The fault is 51, and its place is that of the game's marker.
/// - Any other status: nothing was written.
#[unsafe(no_mangle)]
pub extern "C" fn pgn_read_game(
    text: &[u8],
    from: usize,
    mode: u32,
    missing_result: u32,
    buffer: &mut [u8],
) -> PgnGame
    ensures { ReadGameIn (mode_of mode) missing_result text.now from buffer.old buffer.new result }
{
    read_game(text, from, mode_with_number(mode), missing_result, buffer)
}

/// Writes the items of the next game of a text, from the byte at `from` on, a line each, into the
/// front of a buffer.
///
/// Fields are between tabs, and LF ends a line. `M` is a move: its number, as `12.` or `12...`, and
/// the fields that were asked for, in this order: SAN, UCI, the FEN of the position after it, and
/// the key of that position (`pgn_key`). `G` is a NAG, with its number. `C` is a comment, with a
/// field for each of its words. `(` and `)` begin and end a variation. `R` is the game's marker,
/// and the last line. `fields` is the sum of 1 for the SAN, 2 for the UCI, 4 for the FEN and 8 for
/// the key.
///
/// Items are counted from 0. The lines begin with that of the item `first_item`: 0, or `next_item`
/// of a call whose buffer was full. `from` and the places are as for `pgn_next_game`, a missing
/// Result counts as `*`, and the text ends where it ends: no more comes.
///
/// - Status 0: the buffer has the lines of all items. `end` is the place after the game's marker.
/// - Status 1: the text has a fault before the game's marker. The buffer has the lines of the items
///   before it. The last one has no LF if a comment is open there.
/// - Status 2: the buffer is full. It has as many whole lines as there is room for, and `next_item`
///   is the number of the next one. The other bytes of the buffer may have changed.
/// - Status 3: there are no such fields. Nothing was read or written.
/// - Status 4: no game is left.
/// - Status 6: `from` is after the text, or the text has more than 2^62 bytes. Nothing was read or
///   written.
#[unsafe(no_mangle)]
pub extern "C" fn pgn_items(
    text: &[u8],
    from: usize,
    first_item: u64,
    fields: u32,
    buffer: &mut [u8],
) -> PgnItems
    ensures { WritesItemsIn (fields_of fields) text.now from first_item buffer.old buffer.new
        result }
{
    match fields_with_number(fields) {
        Some(fields) => write_items(text, from, first_item, fields, buffer),
        None => plain_result(NO_MODE, 0, 0),
    }
}

/// Finds the tag pair on the line of an export text that begins at a place (PGN 8.1).
///
/// The line is `[Name "value"]` and LF. The name has 1 to 255 letters, digits and underscores. In
/// the value a backslash is before each quote and each backslash.
///
/// - Status 0: the result has the places of name and value, and that of the next line. The length
///   of the value counts its backslashes.
/// - Status 1: no such line begins there, or the place is after the text.
#[unsafe(no_mangle)]
pub extern "C" fn pgn_tag_at(text: &[u8], at: usize) -> PgnTag
    ensures { TagResult text.now at result }
{
    tag_at(text, at)
}

/// Finds the first move number of a game that does not run (PGN 8.2.2), and says whether a closer
/// look at the game pays.
///
/// The text is that of one game, from its first byte to its marker. A move number is a symbol of
/// digits with a period after it, outside comments and variations. It runs if it is not lower than
/// the number before it, and higher by at most the moves between, of which a single ply counts as
/// one. The first number of a game runs, whatever it is.
///
/// - Status 0: each number runs. All else is 0, but `unusual`.
/// - Status 1: one does not. The result has its place, the number, and the one before it.
///
/// `unusual` is 1 with status 1. It is 1 too if the game has a part that may mean something else
/// than what is read, outside comments, strings and escape lines. Such is a symbol that begins with
/// `P`, or one of four bytes that begins with 0: some write a pawn's move and a null move so. A
/// comment to the end of a line (PGN 5) is one too, an escape line (PGN 6), and a `(` with a NAG or
/// a suffix after it. Else it is 0.
///
/// Of a text that the lexer rejects (PGN 7) the result says nothing. `pgn_check` rejects it too.
#[unsafe(no_mangle)]
pub extern "C" fn pgn_check_numbers(text: &[u8]) -> PgnNumber
    ensures { AreAccepted (tokens_of text.now)
        → result ≡ number_result (wrong_number (tokens_of text.now)) (is_unusual text.now) }
{
    check_numbers(text)
}

/// Reads the next piece of the text of a bad game, and finds where reading goes on after it.
///
/// The first piece begins at `begin`, where the game before ends, and `at` is the same place. Each
/// further one begins at the byte `at` of the text. If `is_last` is not 0, nothing follows the
/// piece. Places count from the first byte of the text.
///
/// - Status 0: the result has the place, which lies above `begin`. It is a guess: the next line
///   that begins a tag section. `at` is this place.
/// - Status 4: no place is in this text. All the rest belongs to the bad game. `at` is after the
///   text, and `comment_at` is the comment that is open there, if `has_comment`.
/// - Status 5: the whole lines of the piece are read. `at` is after them, and the next piece
///   begins there.
/// - Status 3: there are no such `ends`. Nothing was read.
/// - Status 6: the piece would end at 2^64 or above. Nothing was read.
#[unsafe(no_mangle)]
pub extern "C" fn pgn_next_section(game: &mut PgnBadGame, piece: &[u8], is_last: u32) -> PgnSection
    ensures { NextSection (ends_with_number game.old.ends) game.old piece.now (is_set is_last)
        game.new result }
{
    next_section(game, piece, is_last != 0)
}

/// Explains what a move's text means in the position of a FEN, also if it is rejected (PGN 8.2.3).
///
/// - Status 0: the text is a form of a move. The result has its piece and its target. For each
///   square it says whether a step (pseudo-legal move) from there agrees with the text, and whether
///   that is a legal move.
/// - Status 1: the result has the number of a fault. It is 26 for the FEN, with its field, and 33
///   if the text is no move.
#[unsafe(no_mangle)]
pub extern "C" fn pgn_explain(fen: &[u8], text: &[u8]) -> PgnExplanation
    ensures { result ≡ explanation (read fen.now) text.now }
{
    match read_fen(fen) {
        Ok(position) => explain(&position, text),
        Err(fault) => no_explanation(26, fault.field),
    }
}

// The mode with this number in C, if there is one.
fn mode_with_number(number: u32) -> Option<Mode>
    ensures { result ≡ mode_of number }
{
    match number {
        0 => Some(Mode::Full),
        1 => Some(Mode::Reduced),
        _ => None,
    }
}

// Converts the text in this mode.
fn convert_into(text: &[u8], buffer: &mut [u8], mode: Mode) -> PgnResult
    ensures { Converts mode text.now buffer.old buffer.new result }
{
    let (_, result) = fill::<Brand>(text, buffer, mode);
    result
}

// Converts the text into the buffer, whose bytes `K` has.
fn fill<'a, K: BufferBefore>(
    text: &[u8],
    buffer: &'a mut [u8],
    mode: Mode,
) -> (&'a mut [u8], PgnResult)
    requires name { buffer.ghost_name ≡ K.name }
    requires bytes { buffer.old ≡ K.bytes }
    ensures same { result.0.ghost_name ≡ buffer.entry.ghost_name }
    ensures converts { Converts mode text.now K.bytes result.0.now result.1 }
{
    due_grows();
    decided_is_prefix();
    let mut sink = BufferSink::<'a, K> {
        room: Room::new(buffer),
        of: PhantomData,
    };
    let outcome = convert_slice::<TAGS, LEVELS, BufferSink<'a, K>>(text, &mut sink, mode);
    let BufferSink { room, .. } = sink;
    let Room {
        buffer,
        written,
        ..
    } = room;
    (buffer, result_for(outcome, written))
}

// The result for the outcome of a conversion.
fn result_for(outcome: Result<Totals, Fault>, written: usize) -> PgnResult
    ensures { result ≡ result_of outcome written }
{
    match outcome {
        Ok(totals) => totals_result(totals, written),
        Err(fault) => fault_result(fault, written),
    }
}
