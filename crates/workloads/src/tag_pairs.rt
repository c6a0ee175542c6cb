//! The tag pairs of a made game.

use crate::page::Page;
use crate::random::Random;
use crate::style::Style;

#[rattlefmt::skip]
const NAMES: [&[u8]; 24] = [
    b"Abreu, M", b"Berger, J", b"Costa, A", b"Dahl, S", b"Endo, K", b"Farkas, P", b"Gomez, R",
    b"Hale, T", b"Ito, Y", b"Jensen, L", b"Kaya, E", b"Lund, O", b"Meyer, H", b"Nagy, Z",
    b"Okoro, C", b"Perez, D", b"Quinn, B", b"Roth, F", b"Silva, N", b"Tanaka, H", b"Urban, V",
    b"Vogel, I", b"Weiss, G", b"Zeman, U",
];

#[rattlefmt::skip]
const EVENTS: [&[u8]; 8] = [
    b"City Championship", b"Autumn Open", b"League, second division", b"Memorial", b"Club Evening",
    b"Rapid Cup", b"Team Trophy, final", b"Winter Festival Masters",
];

#[rattlefmt::skip]
const PLACES: [&[u8]; 8] = [
    b"Lisbon POR", b"Oslo NOR", b"Porto Alegre BRA", b"Graz AUT", b"Kyoto JPN", b"Leeds ENG", b"?",
    b"Groningen NED",
];

const OPENINGS: [&[u8]; 6] = [
    b"Sicilian Defense: Najdorf Variation, English Attack",
    b"Queen's Gambit Declined",
    b"Italian Game: Two Knights Defense",
    b"Caro-Kann Defense: Advance Variation",
    b"King's Indian Defense: Fianchetto Variation",
    b"French Defense",
];

/// More tags, of which a plain game has the first few.
#[rattlefmt::skip]
const MORE: [&[u8]; 10] = [
    b"WhiteElo", b"BlackElo", b"ECO", b"EventDate", b"Opening", b"WhiteTeam", b"BlackTeam",
    b"PlyCount", b"Annotator", b"Source",
];

/// Writes the tag pairs of a game.
pub fn add_tags(style: Style, marker: &[u8], number: u64, random: &mut Random, page: &mut Page) {
    add_tag(b"Event", random.one_of(&EVENTS), page);
    match style {
        Style::Server => {
            begin_tag(b"Site", page);
            page.add(b"https://chess.example/");
            page.add_number(random.next());
            end_tag(page);
        }
        _ => add_tag(b"Site", random.one_of(&PLACES), page),
    }
    add_date(b"Date", random, page);
    begin_tag(b"Round", page);
    page.add_number(number % 15 + 1);
    end_tag(page);
    add_tag(b"White", random.one_of(&NAMES), page);
    add_tag(b"Black", random.one_of(&NAMES), page);
    add_tag(b"Result", marker, page);
    match style {
        Style::Server => add_server_tags(random, page),
        Style::Stress => add_many_tags(random, page),
        Style::Puzzles => {}
        _ => {
            let count = random.below(11);
            add_more_tags(count, random, page);
        }
    }
}

fn add_more_tags(count: usize, random: &mut Random, page: &mut Page) {
    for (at, name) in MORE.iter().enumerate() {
        if at >= count {
            return;
        }
        match at {
            0 | 1 => add_rating(name, random, page),
            3 => add_date(name, random, page),
            4 => add_tag(name, random.one_of(&OPENINGS), page),
            _ => add_tag(name, random.one_of(&NAMES), page),
        }
    }
}

/// The tags of a server's dump beside the roster.
fn add_server_tags(random: &mut Random, page: &mut Page) {
    add_date(b"UTCDate", random, page);
    begin_tag(b"UTCTime", page);
    page.add_two_digits(random.below(24) as u64);
    page.add(b":");
    page.add_two_digits(random.below(60) as u64);
    page.add(b":");
    page.add_two_digits(random.below(60) as u64);
    end_tag(page);
    add_rating(b"WhiteElo", random, page);
    add_rating(b"BlackElo", random, page);
    begin_tag(b"WhiteRatingDiff", page);
    page.add(b"+");
    page.add_number(random.below(12) as u64);
    end_tag(page);
    begin_tag(b"BlackRatingDiff", page);
    page.add(b"-");
    page.add_number(random.below(12) as u64);
    end_tag(page);
    add_tag(b"Variant", b"Standard", page);
    add_tag(b"TimeControl", b"180+2", page);
    begin_tag(b"ECO", page);
    page.add(b"B");
    page.add_two_digits(random.below(100) as u64);
    end_tag(page);
    add_tag(b"Opening", random.one_of(&OPENINGS), page);
    add_tag(b"Termination", b"Normal", page);
}

/// Tags whose values have quotes and backslashes, in no order.
fn add_many_tags(random: &mut Random, page: &mut Page) {
    let mut number = random.below(100) as u64;
    for _ in 0..54 {
        number = number.wrapping_add(37) % 100;
        page.add(b"[T");
        page.add_two_digits(number);
        page.add(b" \"");
        for _ in 0..random.below(4) {
            page.add(b"\\\\\\\"a\\\\b\\\\\\\\ ");
            page.add_number(random.next());
        }
        end_tag(page);
    }
}

fn add_rating(name: &[u8], random: &mut Random, page: &mut Page) {
    begin_tag(name, page);
    page.add_number(1200 + random.below(1600) as u64);
    end_tag(page);
}

fn add_date(name: &[u8], random: &mut Random, page: &mut Page) {
    begin_tag(name, page);
    page.add_number(1950 + random.below(76) as u64);
    page.add(b".");
    page.add_two_digits(1 + random.below(12) as u64);
    page.add(b".");
    page.add_two_digits(1 + random.below(28) as u64);
    end_tag(page);
}

/// Writes a tag pair.
pub fn add_tag(name: &[u8], value: &[u8], page: &mut Page) {
    begin_tag(name, page);
    page.add(value);
    end_tag(page);
}

/// Writes a tag pair up to its value.
pub fn begin_tag(name: &[u8], page: &mut Page) {
    page.add(b"[");
    page.add(name);
    page.add(b" \"");
}

/// Ends a tag pair.
pub fn end_tag(page: &mut Page) {
    page.add(b"\"]");
    page.end_line();
}
