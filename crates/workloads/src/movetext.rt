//! The movetext of a made game.

use crate::archive::cut_behind;
use crate::page::Page;
use crate::random::Random;
use crate::style::{Style, Writing};

const PHRASES: [&[u8]; 16] = [
    b"The usual move here.",
    b"White has a little more room, but Black's pieces stand well.",
    b"A mistake; the rook should have gone to the open file first.",
    b"Up to here both players knew the line from an earlier game.",
    b"Better than 14. Nd5, after which Black is at ease.",
    b"Threatens the pawn on e4 and prepares the break in the centre",
    b"With the idea Qc2 & Rad1.",
    b"Zeitnot",
    b"The bishop is worth more than the knight in such positions, as so often where pawns stand.",
    b"[%csl Gd4,Re5][%cal Ge2e4,Rd1d8]",
    b"Black could have held the ending by going back at once with the king",
    b"A novelty",
    b"not 23... Rxd4 24. Qe7 with an attack",
    b"An old plan: the knight goes to f5 by way of e2 and g3, and the pawn storm follows.",
    b"the only move",
    b"+0.35/18 12s",
];

const GLYPHS: [&[u8]; 10] = [
    b"$1", b"$2", b"$3", b"$5", b"$6", b"$10", b"$13", b"$14", b"$16", b"$146",
];

const SUFFIXES: [&[u8]; 6] = [b"!", b"?", b"!?", b"?!", b"!!", b"??"];

const LONG_WORD: &[u8] =
    b"https://chess.example/study/a-long-path-without-any-space-in-it-to-break-a-line";

/// How deep the variations of a stress game are.
const DEPTH: usize = 31;

/// Writes the first move of the rest of a game, and what stands behind it.
pub fn add_move_with_rest(
    rest: &[u8],
    ply: usize,
    writing: Writing,
    random: &mut Random,
    page: &mut Page,
) {
    let (text, _) = cut_behind(rest, 1);
    let wants_number = ply == 0 || writing.numbers_all;
    add_ply(ply, text, writing, wants_number, page);
    match writing.style {
        Style::Plain | Style::Puzzles => {}
        Style::Server => add_clock(ply, writing, random, page),
        Style::Annotated => add_remarks(rest, ply, writing, random, page),
        Style::Stress => {
            if random.once_in(6) {
                add_nested(text, ply, writing, random, page);
            }
        }
    }
}

/// Writes a move, with its number if it is White's or wants one.
fn add_ply(ply: usize, text: &[u8], writing: Writing, wants_number: bool, page: &mut Page) {
    let from_white = ply as u64 % 0x1_0000 + u64::from(writing.is_black_first);
    let is_black = from_white % 2 == 1;
    page.begin_word();
    if !is_black || wants_number {
        page.add_number(1 + from_white / 2);
        page.add(if is_black {
            b"...".as_slice()
        } else {
            b".".as_slice()
        });
        if !writing.is_compact {
            page.add(b" ");
        }
    }
    add_move(text, is_black, writing, page);
}

/// Writes the text of a move.
fn add_move(text: &[u8], is_black: bool, writing: Writing, page: &mut Page) {
    match text {
        [file, rank] if writing.names_origins => {
            if let Some(origin) = single_step_origin(*rank, is_black) {
                page.add(&[*file, origin]);
            }
            page.add(text);
        }
        [front @ .., b'+'] if writing.drops_marks => page.add(front),
        _ => page.add(text),
    }
}

/// The rank from which a pawn's move to a rank can only be a single step.
fn single_step_origin(rank: u8, is_black: bool) -> Option<u8> {
    match rank {
        b'3' if !is_black => Some(b'2'),
        b'5' if !is_black => Some(b'4'),
        b'6' if !is_black => Some(b'5'),
        b'7' if !is_black => Some(b'6'),
        b'6' if is_black => Some(b'7'),
        b'4' if is_black => Some(b'5'),
        b'3' if is_black => Some(b'4'),
        b'2' if is_black => Some(b'3'),
        _ => None,
    }
}

/// Writes the comment of a server behind a ply.
fn add_clock(ply: usize, writing: Writing, random: &mut Random, page: &mut Page) {
    page.add(b" { ");
    if writing.has_scores {
        page.add(if random.once_in(2) {
            b"[%eval -".as_slice()
        } else {
            b"[%eval ".as_slice()
        });
        page.add_number(random.below(4) as u64);
        page.add(b".");
        page.add_two_digits(random.below(100) as u64);
        page.add(b"] ");
    }
    let seconds = 180usize
        .saturating_sub(ply)
        .saturating_sub(random.below(40));
    page.add(b"[%clk 0:0");
    page.add_number((seconds / 60) as u64);
    page.add(b":");
    page.add_two_digits((seconds % 60) as u64);
    page.add(b"] }");
}

/// Writes what an annotator puts behind a ply.
fn add_remarks(rest: &[u8], ply: usize, writing: Writing, random: &mut Random, page: &mut Page) {
    match random.below(16) {
        0 => page.add(random.one_of(&SUFFIXES)),
        1 => page.add_word(random.one_of(&GLYPHS)),
        _ => {}
    }
    if random.once_in(8) {
        add_comment(random, page);
    }
    if random.once_in(11) {
        add_variation(rest, ply, writing, random, page);
    }
}

/// Writes a comment of one or two sentences.
fn add_comment(random: &mut Random, page: &mut Page) {
    page.add_word(b"{");
    for _ in 0..1 + random.below(2) {
        for word in random.one_of(&PHRASES).split(|byte| *byte == b' ') {
            page.add_word(word);
        }
    }
    page.add(b"}");
}

/// Writes a variation: the moves that were played from this ply on, as far as it goes.
fn add_variation(rest: &[u8], from: usize, writing: Writing, random: &mut Random, page: &mut Page) {
    let most = 1 + random.below(9);
    page.add_word(b"(");
    let mut rest = rest;
    for i in 0..most {
        if rest.is_empty() {
            break;
        }
        let ply = from.saturating_add(i);
        let (text, behind) = cut_behind(rest, 1);
        add_ply(ply, text, writing, i == 0, page);
        if random.once_in(10) {
            add_comment(random, page);
        }
        if random.once_in(12) {
            add_inner(rest, ply, writing, random, page);
        }
        rest = behind;
    }
    page.add(b")");
}

/// Writes a short variation in a variation.
fn add_inner(rest: &[u8], from: usize, writing: Writing, random: &mut Random, page: &mut Page) {
    let most = 1 + random.below(4);
    page.add_word(b"(");
    let mut rest = rest;
    for i in 0..most {
        if rest.is_empty() {
            break;
        }
        let (text, behind) = cut_behind(rest, 1);
        add_ply(from.saturating_add(i), text, writing, i == 0, page);
        rest = behind;
    }
    page.add(b")");
}

/// Writes a variation in a variation, and so on, as deep as the program reads them.
fn add_nested(text: &[u8], ply: usize, writing: Writing, random: &mut Random, page: &mut Page) {
    let depth = 1 + random.below(DEPTH);
    for _ in 0..depth {
        page.add_word(b"(");
        add_ply(ply, text, writing, true, page);
    }
    page.add_word(b"{");
    page.add_word(LONG_WORD);
    page.add(b"}");
    for _ in 0..depth {
        page.add(b")");
    }
}
