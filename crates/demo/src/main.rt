//! An example of the libraries: writes a line for each game of an input, and then one move.
//!
//! `demo FILE` reads a file, and `demo` standard input.
#![tactic(auto)]

ghost use Rattle.std.specs.Prelude.{◌≡◌, Ok, Some, IsSomeAnd};
ghost use Rattle.chess_rules.specs.declared.position.Parts.{Parts};
ghost use Rattle.chess_text.specs.declared.form.Form.{Form};
ghost use Rattle.chess_rules.specs.declared.position.Played.{Played};
ghost use Rattle.chess_text.specs.Fen.{read};
ghost use Rattle.chess_text.specs.Form.{form_of};
ghost use Rattle.chess_text.specs.MoveOfForm.{move_of_form};
ghost use Rattle.chess_text.specs.San.{san};

use arrayvec::ArrayVec;
use chess_rules::Probes;
use chess_text::laws::the_one_move_is_read;
use chess_text::{read_fen, read_form, resolve, write_fen, write_san};
use pgn_game::{Fault, Games, Inlet, Mode, Nowhere, Outlet, Sink, Source, WriteFault};
use pgn_layout::write_all;
use std::env;
use std::fs::File;
use std::io::{self, ErrorKind};

/// Why a list ends before its input does.
enum Stopped {
    /// The input has a fault.
    Refused(Fault),
    /// A line could not be written.
    Unwritten,
}

fn main(rt: HostRuntime) -> io::Result<()> {
    let words: Vec<String> = env::args(&rt)?.collect(rt.alloc())?;
    let out = &mut Outlet::new(rt.stdout());
    let listed = match words.get(1) {
        Some(name) => list_games(&mut Inlet::new(File::open(&rt, name.as_str())?), out),
        None => list_games(&mut Inlet::new(rt.stdin()), out),
    };
    let fen = b"r1bqkb1r/pppp1ppp/2n2n2/4p2Q/2B1P3/8/PPPP1PPP/RNB1K1NR w KQkq - 4 4";
    let san = san_of(fen, b"Qf7").unwrap_or_default();
    let written = write_words(&[b"Qf7 is ", san.as_slice()], out);
    match listed {
        Ok(()) => written.map_err(|_| io::Error::from(ErrorKind::BrokenPipe)),
        Err(Stopped::Unwritten) => Err(io::Error::from(ErrorKind::BrokenPipe)),
        Err(Stopped::Refused(fault)) => {
            let _ = write_words(&[fault.line().as_slice()], &mut Outlet::new(rt.stderr()));
            Err(io::Error::from(ErrorKind::InvalidData))
        }
    }
}

/// Writes a line for each game that the source gives, up to its end or its first fault.
fn list_games<R: Source, W: Sink>(source: &mut R, out: &mut W) -> Result<(), Stopped> {
    // Room for 64 tag pairs a game, and for variations to depth 32.
    let mut games = Games::<64, 33>::new(Mode::Full);
    loop {
        match games.next(source, &mut Nowhere) {
            Ok(true) => {}
            Ok(false) => return Ok(()),
            Err(fault) => return Err(Stopped::Refused(fault)),
        }
        if let Err(WriteFault) = list_game(&games, out) {
            return Err(Stopped::Unwritten);
        }
    }
}

/// Writes the players, the result and the final position of the game just finished.
fn list_game<W: Sink>(games: &Games<64, 33>, out: &mut W) -> Result<(), WriteFault> {
    let Some(position) = games.position() else {
        return Ok(());
    };
    let white = games.tag(b"White").unwrap_or(b"?");
    let black = games.tag(b"Black").unwrap_or(b"?");
    let result = games.tag(b"Result").unwrap_or(b"*");
    let fen = write_fen(position);
    let words = &[white, b" - ", black, b": ", result, b", ", fen.as_slice()];
    write_words(words, out)
}

/// Writes the words on a line.
fn write_words<W: Sink>(words: &[&[u8]], out: &mut W) -> Result<(), WriteFault> {
    for word in words {
        write_all(out, word)?;
    }
    write_all(out, b"\n")
}

/// The move that the text means in the position of the FEN, as PGN writes it (8.2.3).
fn san_of(fen: &[u8], text: &[u8]) -> Option<ArrayVec<u8, 7>>
    ensures { (position : Parts) (form : Form) (played : Played)
        → read fen.now ≡ Ok position → form_of text.now ≡ Some form
        → move_of_form position form ≡ Ok played
        → IsSomeAnd result (λ written. written.items ≡ san position played.mv) }
{
    the_one_move_is_read();
    let position = read_fen(fen).ok()?;
    let form = read_form(text)?;
    let mut probes = Probes::new();
    match resolve(&position, &form, &mut probes) {
        Ok(played) => Some(write_san(&position, &played, &mut probes)),
        Err(_) => None,
    }
}
