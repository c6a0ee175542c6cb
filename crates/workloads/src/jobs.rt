//! The jobs: what is called, and on which archive.

use crate::archive::Archive;
use crate::digest::Digest;
use crate::random::Random;
use crate::style::Style;
use arrayvec::ArrayVec;
use chess_rules::{Position, Probes};
use chess_text::{read_fen, write_fen, write_san};
use itoa::Buffer;
use pgn_game::{Converter, Fault, Fed, Games, Mode, Nowhere, convert, find_move};
use std::alloc::{AllocError, Global};

/// The tag pairs and levels that the program has room for.
const TAGS: usize = 64;

const LEVELS: usize = 33;

/// What a job did.
#[derive(Clone, Copy)]
pub struct Report {
    pub games: u64,
    pub plies: u64,
    pub digest: u64,
}

/// Does the job of this name for so many games, made of the lines.
pub fn run(
    alloc: Global,
    job: &str,
    lines: &[&[u8]],
    count: u64,
    seed: u64,
) -> Result<Option<Report>, AllocError> {
    let digest = Digest::new(alloc);
    let style = match job {
        "moves" => return Ok(Some(play(lines, count, seed, digest))),
        "plain" => Style::Plain,
        "server" => Style::Server,
        "annotated" => Style::Annotated,
        "puzzles" => Style::Puzzles,
        "stress" => Style::Stress,
        _ => return Ok(None),
    };
    let archive = Archive::new(alloc, lines, style, count, seed)?;
    Ok(Some(match style {
        Style::Puzzles => list(archive, digest),
        Style::Stress => feed(archive, seed, digest),
        _ => export(archive, digest),
    }))
}

/// Exports an archive by `convert`.
fn export(mut archive: Archive<'_>, mut digest: Digest) -> Report {
    match convert::<TAGS, LEVELS, _, _>(&mut archive, &mut digest, Mode::Full) {
        Ok(totals) => {
            digest.add_number(totals.most_probes);
            make_report(totals.games, totals.plies, digest)
        }
        Err(fault) => refused(fault, digest),
    }
}

/// Lists the games of an archive by `Games`: players, plies, and the last position.
fn list(mut archive: Archive<'_>, mut digest: Digest) -> Report {
    let mut games = Games::<TAGS, LEVELS>::new(Mode::Full);
    let mut plies = 0u64;
    for _ in 0..u64::MAX {
        match games.next(&mut archive, &mut Nowhere) {
            Ok(true) => {}
            Ok(false) => break,
            Err(fault) => return refused(fault, digest),
        }
        for name in [b"White".as_slice(), b"Black", b"Result"] {
            digest.add(games.tag(name).unwrap_or(b"?"));
        }
        plies = plies.wrapping_add(games.plies());
        if let Some(position) = games.position() {
            digest.add(write_fen(position).as_slice());
        }
        digest.add_number(games.most_probes());
    }
    make_report(games.games(), plies, digest)
}

/// Feeds an archive to a `Converter` in pieces of a few bytes.
fn feed(mut archive: Archive<'_>, seed: u64, mut digest: Digest) -> Report {
    let mut random = Random::new(seed);
    let mut converter = Converter::<TAGS, LEVELS>::new(Mode::Full);
    let mut plies = 0u64;
    for _ in 0..u64::MAX {
        let most = 1 + random.below(12);
        let text = archive.text();
        let (piece, _) = text.split_at(most.min(text.len()));
        if piece.is_empty() || converter.is_finished() {
            break;
        }
        match converter.feed(piece, &mut digest) {
            Ok(Fed::All) => {
                let used = piece.len();
                archive.skip(used);
            }
            Ok(Fed::Game(used)) => {
                plies = plies.wrapping_add(converter.plies());
                archive.skip(used);
            }
            Err(fault) => return refused(fault, digest),
        }
    }
    if !converter.is_finished() {
        if let Err(fault) = converter.finish(&mut digest) {
            return refused(fault, digest);
        }
    }
    digest.add_number(converter.most_probes());
    make_report(converter.games(), plies, digest)
}

/// Plays the moves of games one at a time, each from the FEN before it to the FEN after it.
fn play(lines: &[&[u8]], count: u64, seed: u64, mut digest: Digest) -> Report {
    let mut random = Random::new(seed);
    let mut plies = 0u64;
    for game in 0..count {
        let length = lines.len() as u64;
        if length == 0 {
            break;
        }
        let Some(line) = lines.get((game % length) as usize) else {
            break;
        };
        let mut fen = first_fen(&mut random);
        for text in line.split(|byte| *byte == b' ').skip(1) {
            let Some(next) = played(fen.as_slice(), text, &mut digest) else {
                break;
            };
            plies = plies.wrapping_add(1);
            fen = next;
        }
    }
    make_report(count, plies, digest)
}

/// The first position, with counts of a game's own.
fn first_fen(random: &mut Random) -> ArrayVec<u8, 93> {
    let mut fen = ArrayVec::new();
    let _ = fen.try_extend_from_slice(b"rnbqkbnr/pppppppp/8/8/8/8/PPPPPPPP/RNBQKBNR w KQkq - ");
    let _ = fen.try_extend_from_slice(Buffer::new().format(random.below(100)).as_bytes());
    let _ = fen.try_extend_from_slice(b" ");
    let _ = fen.try_extend_from_slice(Buffer::new().format(1 + random.below(90_000)).as_bytes());
    fen
}

/// The FEN after the move that a text names in the position of a FEN, or `None` if it names none.
fn played(fen: &[u8], text: &[u8], digest: &mut Digest) -> Option<ArrayVec<u8, 93>> {
    let position: Position = read_fen(fen).ok()?;
    let mut tried_to_find = Probes::new();
    let mut tried_to_write = Probes::new();
    match find_move(&position, text, &mut tried_to_find) {
        Ok(played) => {
            let san = write_san(&position, &played, &mut tried_to_write);
            let next = write_fen(&played.next);
            digest.add(san.as_slice());
            digest.add(next.as_slice());
            digest.add_number(tried_to_find.count());
            digest.add_number(tried_to_write.count());
            Some(next)
        }
        Err(_) => None,
    }
}

/// What is reported of an archive with a fault: its place, in place of the plies.
fn refused(fault: Fault, digest: Digest) -> Report {
    make_report(u64::from(fault.reason.number()), fault.at, digest)
}

/// What a job did, with the digest of its results.
fn make_report(games: u64, plies: u64, mut digest: Digest) -> Report {
    Report {
        games,
        plies,
        digest: digest.value(),
    }
}
