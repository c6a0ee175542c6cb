//! Where reading goes on after a bad game, as C gets it.
ghost use Rattle.std.specs.Prelude.{◌≡◌, ◌<◌, ◌^◌, Some};
ghost use Rattle.pgn_c.specs.NextSection as spec;

use crate::game_result::{BAD_PLACE, MORE, NO_GAME};
use crate::pgn_result::{NO_MODE, OK};
use pgn_sections::{BadGame, Ends};

/// A bad game whose lines are read in turn, `struct pgn_bad_game` in C.
#[repr(C)]
#[derive(Clone, Copy)]
pub struct PgnBadGame {
    /// Where the game before it ends.
    pub begin: usize,
    /// The place of its fault.
    pub fault: usize,
    /// Where the next line begins, or reading goes on, if that is found.
    pub at: usize,
    /// Where the comment begins that is open, if `has_comment`.
    pub comment_at: usize,
    /// Where the escape lines just before the next line begin, if `has_escapes`.
    pub escapes_at: usize,
    /// Which lines can show where it ends. 0: all. 1: lines in comments. 2: none.
    pub ends: u32,
    /// 1: a line so far had a tag.
    pub has_tags: u32,
    /// 1: a line so far was movetext.
    pub has_movetext: u32,
    /// 1: the line before was not empty.
    pub is_behind_text: u32,
    /// 1: a comment in braces is open.
    pub has_comment: u32,
    /// 1: escape lines are just before the next line.
    pub has_escapes: u32,
}

/// Where reading goes on, `struct pgn_section` in C.
#[repr(C)]
#[derive(Clone, Copy)]
pub struct PgnSection {
    /// 0: there is a place. 4: it is not in this text. 5: more is to be read. 3: there are no such
    /// ends. 6: the piece would end at 2^64 or
    /// above.
    pub status: u32,
    /// The place: the offset of a byte, from 0; 0 where there is none.
    pub place: usize,
}

/// Reads the next piece of the text of a game.
pub fn next_section(game: &mut PgnBadGame, piece: &[u8], is_last: bool) -> PgnSection
    ensures { spec.NextSection (spec.ends_with_number game.old.ends) game.old piece.now is_last
        game.new result }
{
    match ends_with_number(game.ends) {
        None => rejected(NO_MODE),
        Some(ends) => read_on(game, ends, piece, is_last),
    }
}

fn read_on(game: &mut PgnBadGame, ends: Ends, piece: &[u8], is_last: bool) -> PgnSection
    ensures { spec.NextSection (Some ends) game.old piece.now is_last game.new result }
{
    if usize::MAX - game.at < piece.len() {
        return rejected(BAD_PLACE);
    }
    let number = game.ends;
    let mut bad = game_of(game, ends);
    let found = bad.next_section(piece, is_last);
    *game = struct_of(&bad, number);
    section_result(found, is_last)
}

fn ends_with_number(number: u32) -> Option<Ends>
    ensures { result ≡ spec.ends_with_number number }
{
    match number {
        0 => Some(Ends::Anywhere),
        1 => Some(Ends::InComments),
        2 => Some(Ends::Nowhere),
        _ => None,
    }
}

fn place_if(number: u32, place: usize) -> Option<usize>
    ensures { result ≡ spec.place_if number place }
{
    if number == 0 { None } else { Some(place) }
}

fn game_of(game: &PgnBadGame, ends: Ends) -> BadGame
    ensures { result ≡ spec.game_of ends game.now }
{
    BadGame {
        begin: game.begin,
        fault: game.fault,
        at: game.at,
        ends,
        has_tags: game.has_tags != 0,
        has_movetext: game.has_movetext != 0,
        is_behind_empty_line: game.is_behind_text == 0,
        comment_at: place_if(game.has_comment, game.comment_at),
        escapes_at: place_if(game.has_escapes, game.escapes_at),
    }
}

fn flag(is_set: bool) -> u32
    ensures { result ≡ spec.flag is_set }
{
    if is_set { 1 } else { 0 }
}

fn struct_of(game: &BadGame, ends: u32) -> PgnBadGame
    ensures { result ≡ spec.struct_of ends game.now }
{
    PgnBadGame {
        begin: game.begin,
        fault: game.fault,
        at: game.at,
        comment_at: game.comment_at.unwrap_or(0),
        escapes_at: game.escapes_at.unwrap_or(0),
        ends,
        has_tags: flag(game.has_tags),
        has_movetext: flag(game.has_movetext),
        is_behind_text: flag(!game.is_behind_empty_line),
        has_comment: flag(game.comment_at.is_some()),
        has_escapes: flag(game.escapes_at.is_some()),
    }
}

fn section_result(found: Option<usize>, is_last: bool) -> PgnSection
    ensures { result ≡ spec.section_result is_last found }
{
    match found {
        Some(place) => PgnSection { status: OK, place },
        None => PgnSection {
            status: if is_last { NO_GAME } else { MORE },
            place: 0,
        },
    }
}

// The result where nothing was read.
fn rejected(status: u32) -> PgnSection
    ensures { result ≡ spec.rejected status }
{
    PgnSection { status, place: 0 }
}
