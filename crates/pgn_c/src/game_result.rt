//! The result of a call for the next game, as C gets it.
ghost use Rattle.std.specs.Prelude.{◌≡◌, ◌-◌, None, Some, length};
ghost use Rattle.std.specs.Option.{option_copied};
ghost use Rattle.pgn_game.specs.games.Game.{Game};
ghost use Rattle.pgn_game.specs.games.Markers.{marker_text};
ghost use Rattle.pgn_game.specs.public.ConverterCalls.{finished_game_of, refused_position};
ghost use Rattle.pgn_c.specs.NextGame.{fault_result, fen_bytes, game_result, nothing, marker_number};
ghost use Rattle.pgn_c.specs.NextGame as spec;

use crate::pgn_result::{FULL, OK, padded};
use crate::{LEVELS, TAGS};
use chess_rules::Position;
use chess_text::write_fen;
use itoa::Buffer;
use pgn_game::{Converter, Fault, Marker, Reason};

/// No game is left.
pub const NO_GAME: u32 = 4;
/// The text has a fault only if it ends here.
pub const MORE: u32 = 5;
/// The place is after the text, or above 2^62.
pub const BAD_PLACE: u32 = 6;

/// The next game of a text, `struct pgn_game` in C.
#[repr(C)]
#[derive(Clone, Copy)]
pub struct PgnGame {
    /// 0: a game. 1: a fault. 2: the buffer is full. 3: an argument has no such value. 4: no game
    /// is left. 5: the fault is there only if the text ends here. 6: `from` is after the
    /// text, or above 2^62.
    pub status: u32,
    /// The number of the fault, 1 to 52; 0 where there is none.
    pub fault: u32,
    /// The place of the fault: the offset of a byte of the text, from 0.
    pub place: u64,
    /// How many bytes of the buffer were written.
    pub written: usize,
    /// The place after the game's termination marker; 0 if there is no game.
    pub end: usize,
    /// The place of the marker; 0 if there is no game.
    pub marker_at: usize,
    /// The number of the game's plies, without variations; 0 if there is no game.
    pub plies: u64,
    /// Where the reason begins in the message.
    pub reason_at: usize,
    /// The marker: 1 White wins, 2 Black wins, 3 a draw, 4 not known; 0 if there is no game.
    pub marker: u32,
    /// The fault as a line, and zeros after it; zeros alone where there is none.
    pub message: [u8; 104],
    /// The FEN of the position at the end of the game, or in which a move was rejected, and zeros
    /// after it; zeros alone where there is neither.
    pub fen: [u8; 96],
}

/// The result for the game just finished, whose marker ends at this place.
///
/// The bytes written are not counted yet.
#[inline(always)]
pub fn finished_game(converter: &Converter<TAGS, LEVELS>, end: usize) -> PgnGame
    ensures status { result.status ≡ 0 }
    ensures game { (game : Game) (marker : Marker)
        → converter.now.just_finished ≡ Some (finished_game_of game)
        → game.marker ≡ marker_text marker
        → result ≡ game_result game marker (end - length (marker_text marker)) end }
{
    let marker = converter.marker().unwrap_or(Marker::Unknown);
    PgnGame {
        status: OK,
        fault: 0,
        place: 0,
        written: 0,
        end,
        marker_at: end.saturating_sub(marker.text().len()),
        plies: converter.plies(),
        reason_at: 0,
        marker: number_of(marker),
        message: [0; 104],
        fen: fen_of(converter.position()),
    }
}

/// The result for a fault of the converter, which has this status unless the buffer is full.
///
/// The bytes written are not counted yet.
#[inline(always)]
pub fn refused_game(converter: &Converter<TAGS, LEVELS>, fault: Fault, status: u32) -> PgnGame
    ensures { result ≡ fault_result (spec.status_for status fault.reason) fault
        (refused_position converter.now) }
{
    fault_game(fault, status, converter.refused_position())
}

/// The result for a fault, which has this status unless the buffer is full, with a position.
///
/// The bytes written are not counted yet.
#[inline(always)]
pub fn fault_game(fault: Fault, status: u32, position: Option<&Position>) -> PgnGame
    ensures { result ≡ fault_result (spec.status_for status fault.reason) fault
        (option_copied position.entry) }
{
    PgnGame {
        status: status_for(status, fault.reason),
        fault: fault.reason.number() as u32,
        place: fault.at,
        written: 0,
        end: 0,
        marker_at: 0,
        plies: 0,
        reason_at: 7 + Buffer::new().format(fault.at).len(),
        marker: 0,
        message: padded(fault.line().as_slice()),
        fen: fen_of(position),
    }
}

/// The result without a game and without a fault.
pub fn no_game(status: u32) -> PgnGame
    ensures { result ≡ nothing status }
{
    PgnGame {
        status,
        fault: 0,
        place: 0,
        written: 0,
        end: 0,
        marker_at: 0,
        plies: 0,
        reason_at: 0,
        marker: 0,
        message: [0; 104],
        fen: [0; 96],
    }
}

// The status of a fault: the buffer is full, or else this one.
fn status_for(status: u32, reason: Reason) -> u32
    ensures { result ≡ spec.status_for status reason }
{
    match reason {
        Reason::WriteFault => FULL,
        _ => status,
    }
}

// The number of a marker in C.
fn number_of(marker: Marker) -> u32
    ensures { result ≡ marker_number marker }
{
    match marker {
        Marker::WhiteWins => 1,
        Marker::BlackWins => 2,
        Marker::Draw => 3,
        Marker::Unknown => 4,
    }
}

/// The marker that has this number in C.
pub fn marker_of_number(number: u32) -> Marker
    ensures { (marker : Marker) → number ≡ marker_number marker → result ≡ marker }
{
    match number {
        1 => Marker::WhiteWins,
        2 => Marker::BlackWins,
        3 => Marker::Draw,
        _ => Marker::Unknown,
    }
}

// The FEN of a position, and zeros after it.
#[inline(always)]
fn fen_of(position: Option<&Position>) -> [u8; 96]
    ensures { result ≡ fen_bytes (option_copied position.entry) }
{
    match position {
        Some(position) => padded(write_fen(position).as_slice()),
        None => [0; 96],
    }
}
