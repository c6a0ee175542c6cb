//! Worked rows: where reading goes on, by the rules in words.
use pgn_sections::{BadGame, Ends, SectionSearch, next_section};
use std::process::Abort;

// Behind the game that begins at a place, with its fault at another, reading goes on there.
fn is_next(rt: &impl Abort, text: &[u8], begin: usize, fault: usize, place: Option<usize>) {
    assert_eq!(rt;
        next_section(text, begin, fault),
        place,
        "at {begin} of {text:?}"
    );
    for cut in begin..=text.len() {
        assert_eq!(rt;
            found_at_cut(text, begin, fault, cut),
            place,
            "at {begin} of {text:?}"
        );
    }
}

// What a search finds in the text from `begin` on, which is cut in two.
fn found_at_cut(text: &[u8], begin: usize, fault: usize, cut: usize) -> Option<usize> {
    if cut < begin || text.len() < cut {
        return None;
    }
    let front = &text[begin..cut];
    let rest = &text[cut..];
    let mut search = SectionSearch::new(begin, fault);
    search.feed(front);
    search.feed(rest);
    search.finish()
}

/// A call of `is_next` for each row: a text, where the game begins, its fault, and the place.
macro_rules! are_next {
    ($rt:expr; $($text:literal $begin:literal $fault:literal => $place:expr;)*) => {
        $(is_next($rt, $text, $begin, $fault, $place);)*
    };
}

#[test]
fn a_line_behind_movetext(rt: HostRuntime) {
    are_next! { &rt;
        // A line that begins with a bracket, after movetext.
        b"1. e4 e9 *\n\n[White \"Ada\"]\n\n1. d4 *\n" 0 6 => Some(12);
        // White space, control bytes and byte order marks before the bracket.
        b"1. e4 e9 *\n \x01\t\x7f[White \"Ada\"]\n" 0 6 => Some(15);
        b"1. e4 e9 *\n\xef\xbb\xbf [White \"Ada\"]\n" 0 6 => Some(15);
        b"1. e4 e9 *\n \xef\xbb\xbf[White \"Ada\"]\n" 0 6 => Some(15);
        b"1. e4 e9 *\n\xef\xbbx[White \"Ada\"]\n" 0 6 => None;
        // `[%` begins no tag section.
        b"1. e4 e9\n[%clk 1]\n[ %emt 2]\n[White \"Ada\"]\n" 0 6 => Some(28);
        b"1. e4 e9\n[%clk 1]\n" 0 6 => None;
        // Escape lines just before the line belong to the next game, if they are behind the fault.
        b"1. e4 e9 *\n% a\n% b\n\n[White \"Ada\"]\n" 0 6 => Some(11);
        b"1. e4 e9 *\n% a\n2. d4\n[White \"Ada\"]\n" 0 6 => Some(21);
        b"[Event \"a\"]\n\ne4\n% a\n[White \"Ada\"]\n" 0 17 => Some(20);
        // A line that ends with a bracket, after movetext and an empty line, is the rest of a tag
        // pair.
        b"1. e9 *\n\nAda\"] \n[Black \"Bo\"]\n" 0 3 => Some(9);
        b"1. e9 *\nAda\"]\n[Black \"Bo\"]\n" 0 3 => Some(14);
        b"1. e9 *\n% a\n\nAda\"]\n" 0 3 => Some(8);
    }
}

#[test]
fn what_is_movetext(rt: HostRuntime) {
    are_next! { &rt;
        // Text is movetext behind an empty line, and not behind a tag pair.
        b"[Event \"a\"]\n\ne4 e9\n[White \"Ada\"]\n" 0 16 => Some(19);
        b"[Event \"a\"]\ne4 e9\n[White \"Ada\"]\n" 0 12 => None;
        b"e4 e9\n[White \"Ada\"]\n" 0 0 => Some(6);
        // Text is movetext if it begins with a move number, or ends with a termination marker.
        b"[Event \"a\"]\n 12 . e9\n[White \"Ada\"]\n" 0 18 => Some(21);
        b"[Event \"a\"]\n12 e9.\n[White \"Ada\"]\n" 0 15 => None;
        b"[Event \"a\"] 1. e9\n[White \"Ada\"]\n" 0 15 => Some(18);
        b"[Event \"a\"]\ne9 1-0 {a}\r\n[White \"Ada\"]\n" 0 12 => Some(24);
        b"[Event \"a\"]\ne9 1/2-1/2 ; a\n[White \"Ada\"]\n" 0 12 => Some(27);
        b"[Event \"a\"]\ne9 0-1\n[White \"Ada\"]\n" 0 12 => Some(19);
        b"[Event \"a\"]\ne9 *\n[White \"Ada\"]\n" 0 12 => Some(17);
        b"[Event \"a\"]\ne9 1-0 e4\n[White \"Ada\"]\n" 0 12 => None;
        b"[Event \"a\"]\ne9 1{a}-0\n[White \"Ada\"]\n" 0 12 => None;
        // What a tag pair that is broken over lines has on a line is no movetext.
        b"[White \"Ada\n1. e4 e5\"]\n[Event \"a\"]\n" 0 15 => None;
        b"[White Ada] 1. e9\n[Black \"Bo\"]\n" 0 15 => Some(18);
        b"[White {\"]} e4 1-0\n[Event \"a\"]\n" 0 12 => None;
        b"[White \"a\\\"] 1. e4\"] 1. e9\n[Event \"a\"]\n" 0 24 => Some(27);
    }
}

#[test]
fn other_places(rt: HostRuntime) {
    are_next! { &rt;
        // A game without movetext ends where an empty line and an Event tag follow.
        b"[White \"Ada\"x]\n\n[Event \"a\"]\n" 0 11 => Some(16);
        b"[White \"Ada\"x]\n\n[Site \"a\"]\n" 0 11 => None;
        b"[White \"Ada\"x]\n[Event \"a\"]\n" 0 11 => None;
        b"[White \"Ada\"x]\n\n[Event a]\n" 0 11 => None;
        b"[White \"Ada\"x]\n\n[Events \"a\"]\n" 0 11 => None;
        // An open comment hides a line, unless this begins a tag pair with a quoted value, after
        // movetext or an empty line.
        b"1. e4 {a\n[White Ada]\n} *\n[White \"Bo\"]\n" 0 6 => Some(25);
        b"1. e4 {a \n[White \"Ada\"]\n" 0 9 => Some(10);
        b"{a\n[White \"Ada\"]\n\n[Black \"Bo\"]\n" 0 0 => Some(18);
        b"{a\n[White \"Ada\"]\n} 1. e4\n[Black \"Bo\"]\n" 0 0 => Some(25);
        // Stray bytes alone before the first tag line are skipped.
        b"\x02\x01[White \"Ada\"]\n" 0 0 => Some(2);
        b"{a}\n\x01\n[White \"Ada\"]\n" 0 4 => Some(6);
        b"[White \"Ada\"]\n\x01\n[Black \"Bo\"]\n" 0 14 => None;
        // A byte order mark between games is skipped.
        b"1. e4 *\n\xef\xbb\xbf[Event \"a\"]\n\n1. d4 *\n" 7 8 => Some(11);
        b"1. e4 *\n\xef\xbb\xbf[Event \"a\"]\n\n1. d4 *\n" 8 8 => Some(11);
        // A game does not end where it begins.
        b"[White \"Ada\"]\n\n1. e4 *\n[Black \"Bo\"]\n" 0 0 => Some(23);
        b"1. e4 *\n[White \"Ada\"]\n" 8 8 => None;
    }
}

#[test]
fn other_line_ends(rt: HostRuntime) {
    are_next! { &rt;
        // Lines end with LF, CR or both.
        b"1. e4 e9 *\r\r[White \"Ada\"]\r" 0 6 => Some(12);
        b"1. e4 e9 *\r\n\r\n[White \"Ada\"]" 0 6 => Some(14);
    }
}

// What the game finds in a piece that ends below 2^64.
fn read_on(game: &mut BadGame, piece: &[u8], is_last: bool) -> Option<usize> {
    if usize::MAX - game.at < piece.len() {
        return None;
    }
    game.next_section(piece, is_last)
}

// The game reads on in the text up to a place, which is not its end, and finds nothing.
fn reads_to(rt: &impl Abort, game: &mut BadGame, text: &[u8], end: usize, at: usize) {
    let begin = game.at;
    let piece = text.get(begin..end).unwrap_or(b"");
    assert_eq!(rt; read_on(game, piece, false), None);
    let read = game.at;
    assert_eq!(rt; read, at);
}

/// A text that comes in pieces. Only whole lines are read, and a CR at the end of a piece ends
/// none.
#[test]
fn pieces(rt: HostRuntime) {
    let text = b"1. e4 e9 *\r\n% a\r\n\r\n[White \"Ada\"]\r\n".as_slice();
    let mut game = BadGame::new(0, 6);
    reads_to(&rt, &mut game, text, 11, 0);
    reads_to(&rt, &mut game, text, 12, 12);
    reads_to(&rt, &mut game, text, 16, 12);
    reads_to(&rt, &mut game, text, 17, 17);
    reads_to(&rt, &mut game, text, 18, 17);
    reads_to(&rt, &mut game, text, 19, 19);
    reads_to(&rt, &mut game, text, 30, 19);
    let rest = text.get(19..).unwrap_or(b"");
    assert_eq!(rt; read_on(&mut game, rest, true), Some(12));
    let read = game.at;
    assert_eq!(rt; read, 12);
}

// What is found in a text that is read for these ends, and where a comment is open then.
fn found(text: &[u8], ends: Ends) -> (Option<usize>, Option<usize>) {
    let mut game = BadGame {
        ends,
        ..BadGame::new(0, text.len())
    };
    let place = game.next_section(text, true);
    (place, game.comment_at)
}

/// A sound game ends in a comment alone. Where no end counts, an open comment is found.
#[test]
fn other_ends(rt: HostRuntime) {
    let text = b"1. e4 {a\n\n[White \"Ada\"]\n";
    assert!(rt; found(text, Ends::InComments) == (Some(10), Some(6)));
    assert!(rt; found(text, Ends::Nowhere) == (None, Some(6)));
    let text = b"1. e4\n[White \"Ada\"]\n{a} {b";
    assert!(rt; found(text, Ends::InComments) == (None, Some(24)));
    assert!(rt; found(b"1. e4 {a} ; {b\n", Ends::Nowhere) == (None, None));
    assert!(rt; found(b"[White \"{\"] e4", Ends::Nowhere) == (None, None));
}
