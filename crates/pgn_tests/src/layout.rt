//! Texts of the standard, and writers that fail.
use pgn_layout::{
    CurrentLine, Layout, Nowhere, Outlet, Sink, WriteFault, end_tags, fits_tag_line, write_all,
    write_tag,
};
use std::alloc::Global;
use std::io::{self, ErrorKind, Write};
use std::process::Abort;
use std::test::Fail;

/// The movetext of the sample game of the standard (PGN 2.3), as it stands there, and an empty
/// line.
const MOVETEXT: &[u8] =
    b"1. e4 e5 2. Nf3 Nc6 3. Bb5 a6 4. Ba4 Nf6 5. O-O Be7 6. Re1 b5 7. Bb3 d6 8. c3
O-O 9. h3 Nb8 10. d4 Nbd7 11. c4 c6 12. cxb5 axb5 13. Nc3 Bb7 14. Bg5 b4 15.
Nb1 h6 16. Bh4 c5 17. dxe5 Nxe4 18. Bxe7 Qxe7 19. exd6 Qf6 20. Nbd2 Nxd6 21.
Nc4 Nxc4 22. Bxc4 Nb6 23. Ne5 Rae8 24. Bxf7+ Rxf7 25. Nxf7 Rxe1+ 26. Qxe1 Kxf7
27. Qe3 Qg5 28. Qxg5 hxg5 29. b3 Ke6 30. a3 Kd6 31. axb4 cxb4 32. Ra5 Nd5 33.
f3 Bc8 34. Kf2 Bf5 35. Ra7 g6 36. Ra6+ Kc5 37. Ke1 Nf4 38. g3 Nxh3 39. Kd2 Kb5
40. Rd6 Kc5 41. Ra6 Nf2 42. g4 Bd3 43. Re6 1/2-1/2

";

/// Tag pairs with quotes and backslashes, an empty line, and three lines of movetext, as they are
/// to be written.
const GAME: &[u8] = b"[Event \"F/S Return Match\"]
[Site \"\\\"a\\\\b\\\"\"]
[Round \"\"]

1. e4 e5 2. Nf3 Nc6 3. Bb5 a6 4. Ba4 Nf6 5. O-O Be7 6. Re1 b5 7. Bb3 d6 8. c3
O-O 9. h3 Nb8 10. d4 Nbd7 11. c4 c6 12. cxb5 axb5 13. Nc3 Bb7 14. Bg5 b4 15.
Nb1 *

";

const PAIRS: [(&[u8], &[u8]); 3] = [
    (b"Event", b"F/S Return Match"),
    (b"Site", b"\"a\\b\""),
    (b"Round", b""),
];

const TOKENS: &[u8] =
    b"1. e4 e5 2. Nf3 Nc6 3. Bb5 a6 4. Ba4 Nf6 5. O-O Be7 6. Re1 b5 7. Bb3 d6 8. c3 O-O 9. h3 Nb8 \
    10. d4 Nbd7 11. c4 c6 12. cxb5 axb5 13. Nc3 Bb7 14. Bg5 b4 15. Nb1 *";

/// What a writer does at one of its calls in place of its work.
#[derive(Clone, Copy, PartialEq, Eq, Debug)]
enum Trouble {
    Fails,
    IsInterrupted,
    TakesNothing,
    TakesOneByte,
}

/// A writer to memory with one trouble.
#[derive(Drop)]
struct Troubled {
    taken: Vec<u8>,
    calls: usize,
    trouble: Trouble,
    trouble_at: usize,
}

impl Troubled {
    fn new(alloc: Global, trouble: Trouble, trouble_at: usize) -> Self {
        Troubled {
            taken: Vec::new(alloc),
            calls: 0,
            trouble,
            trouble_at,
        }
    }
}

impl Write for Troubled {
    fn write(&mut self, bytes: &[u8]) -> io::Result<usize> {
        let call = self.calls;
        self.calls = call.saturating_add(1);
        if call != self.trouble_at {
            return self.taken.write(bytes);
        }
        match self.trouble {
            Trouble::Fails => Err(io::Error::from(ErrorKind::BrokenPipe)),
            Trouble::IsInterrupted => Err(io::Error::from(ErrorKind::Interrupted)),
            Trouble::TakesNothing => Ok(0),
            Trouble::TakesOneByte => self.taken.write(&bytes[..bytes.len().min(1)]),
        }
    }

    fn flush(&mut self) -> io::Result<()> {
        let call = self.calls;
        self.calls = call.saturating_add(1);
        if call == self.trouble_at {
            return Err(io::Error::from(ErrorKind::BrokenPipe));
        }
        Ok(())
    }
}

/// Puts the tokens, which blanks separate.
fn put_all<W: Sink>(layout: &mut Layout, tokens: &[u8], out: &mut W) -> Result<(), WriteFault> {
    for token in tokens.split(|byte| *byte == b' ' || *byte == b'\n') {
        if !token.is_empty() && token.len() <= 79 {
            layout.put(token, out)?;
        }
    }
    Ok(())
}

fn write_game<W: Sink>(layout: &mut Layout, out: &mut W) -> Result<(), WriteFault> {
    for (name, value) in PAIRS {
        if fits_tag_line(name, value) {
            layout.tag(name, value, out)?;
        }
    }
    layout.end_tags(out)?;
    put_all(layout, TOKENS, out)?;
    layout.end_game(out)
}

#[test]
fn sets_the_sample_game_on_its_lines(rt: HostRuntime) -> Result<(), Fail> {
    let mut out = Outlet::new(Vec::new(rt.alloc()));
    let mut layout = Layout::new();
    assert!(rt; put_all(&mut layout, MOVETEXT, &mut out).is_ok());
    assert!(rt; layout.end_game(&mut out).is_ok());
    assert!(rt; out.flush().is_ok());
    assert!(rt; out.into_inner().as_slice() == MOVETEXT);
    Ok(())
}

#[test]
fn fills_a_line_to_79_bytes(rt: HostRuntime) -> Result<(), Fail> {
    let mut out = Outlet::new(Vec::new(rt.alloc()));
    let mut layout = Layout::new();
    for _ in 0..41 {
        assert!(rt; layout.put(b"a", &mut out).is_ok());
    }
    assert!(rt; layout.end_game(&mut out).is_ok());
    assert!(rt; layout.put(&[b'w'; 79], &mut out).is_ok());
    assert!(rt; layout.put(b"b", &mut out).is_ok());
    assert!(rt; layout.end_game(&mut out).is_ok());
    let text = out.into_inner();
    let lines =
        b"a a a a a a a a a a a a a a a a a a a a a a a a a a a a a a a a a a a a a a a a\na\n\n\
        wwwwwwwwwwwwwwwwwwwwwwwwwwwwwwwwwwwwwwwwwwwwwwwwwwwwwwwwwwwwwwwwwwwwwwwwwwwwwww\nb\n\n";
    assert!(rt; text.as_slice() == lines.as_slice());
    Ok(())
}

#[test]
fn tells_which_pairs_fit(rt: HostRuntime) {
    let letters = [b'v'; 250];
    let quotes = [b'"'; 125];
    assert!(rt; fits_tag_line(b"Event", &letters[..244]));
    assert!(rt; !fits_tag_line(b"Event", &letters[..245]));
    assert!(rt; fits_tag_line(b"A", &quotes[..124]));
    assert!(rt; !fits_tag_line(b"A", &quotes));
    assert!(rt; fits_tag_line(&letters[..249], b""));
    assert!(rt; !fits_tag_line(&letters, b""));
}

#[test]
fn escapes_each_quote_and_backslash(rt: HostRuntime) -> Result<(), Fail> {
    let mut out = Outlet::new(Vec::new(rt.alloc()));
    assert!(rt; write_tag(b"A", b"\\\"\"ab\\\\c\"d\"", &mut out).is_ok());
    assert!(rt; write_tag(b"B", b"\"", &mut out).is_ok());
    assert!(rt; write_tag(b"C", b"d\\", &mut out).is_ok());
    let lines = b"[A \"\\\\\\\"\\\"ab\\\\\\\\c\\\"d\\\"\"]\n[B \"\\\"\"]\n[C \"d\\\\\"]\n";
    assert!(rt; out.into_inner().as_slice() == lines.as_slice());
    Ok(())
}

#[test]
fn drops_a_line(rt: HostRuntime) -> Result<(), Fail> {
    let mut out = Outlet::new(Vec::new(rt.alloc()));
    let mut layout = Layout::new();
    assert!(rt; layout.put(b"a", &mut out).is_ok());
    layout.drop_line();
    assert!(rt; layout.put(b"b", &mut out).is_ok());
    assert!(rt; layout.end_game(&mut out).is_ok());
    assert!(rt; layout.end_game(&mut out).is_ok());
    assert!(rt; out.into_inner().as_slice() == b"b\n\n\n".as_slice());
    Ok(())
}

#[test]
fn writes_a_front_and_fails_from_then_on(rt: HostRuntime) -> Result<(), Fail> {
    let mut room = [0; 3];
    let mut out = Outlet::new(room.as_mut_slice());
    let mut layout = Layout::new();
    assert_eq!(rt; layout.tag(b"A", b"1", &mut out), Err(WriteFault));
    assert_eq!(rt; layout.end_tags(&mut out), Err(WriteFault));
    assert_eq!(rt; layout.put(b"e4", &mut out), Err(WriteFault));
    assert_eq!(rt; layout.tag(b"A", b"1", &mut Nowhere), Err(WriteFault));
    assert_eq!(rt; layout.end_game(&mut Nowhere), Err(WriteFault));
    assert!(rt; room.as_slice() == b"[A ".as_slice());
    Ok(())
}

#[test]
fn writes_a_game_without_a_layout(rt: HostRuntime) -> Result<(), Fail> {
    let mut out = Outlet::new(Vec::new(rt.alloc()));
    assert!(rt; write_tag(b"Event", b"?", &mut out).is_ok());
    assert!(rt; end_tags(&mut out).is_ok());
    let mut line = CurrentLine::new();
    assert!(rt; line.put(b"1.", &mut out).is_ok());
    assert!(rt; line.put(b"e4", &mut out).is_ok());
    assert!(rt; line.end_game(&mut out).is_ok());
    assert!(rt; out.into_inner().as_slice() == b"[Event \"?\"]\n\n1. e4\n\n".as_slice());
    Ok(())
}

#[test]
fn has_an_empty_line_after_a_failed_write(rt: HostRuntime) -> Result<(), Fail> {
    let mut room = [0; 3];
    let mut short = Outlet::new(room.as_mut_slice());
    let mut line = CurrentLine::new();
    assert!(rt; line.put(b"1-0", &mut short).is_ok());
    assert_eq!(rt; line.end_game(&mut short), Err(WriteFault));
    let mut out = Outlet::new(Vec::new(rt.alloc()));
    assert!(rt; line.put(b"*", &mut out).is_ok());
    assert!(rt; line.end_game(&mut out).is_ok());
    assert!(rt; out.into_inner().as_slice() == b"*\n\n".as_slice());
    assert!(rt; room.as_slice() == b"1-0".as_slice());
    Ok(())
}

#[test]
fn keeps_nothing_nowhere(rt: HostRuntime) {
    let mut layout = Layout::new();
    assert_eq!(rt; write_game(&mut layout, &mut Nowhere), Ok(()));
    assert_eq!(rt; write_all(&mut Nowhere, GAME), Ok(()));
    assert_eq!(rt; Nowhere.flush(), Ok(()));
}

/// Writes the game with a trouble at the k-th call, for each k until there are no more calls. The
/// text is whole where the trouble is a short write; else a front of it was taken, and no later
/// call reaches the writer.
fn meets(rt: &impl Abort, alloc: Global, trouble: Trouble) -> Result<usize, Fail> {
    for trouble_at in 0..10_000 {
        let mut out = Outlet::new(Troubled::new(alloc, trouble, trouble_at));
        let mut layout = Layout::new();
        let written = write_game(&mut layout, &mut out);
        let again = match written {
            Ok(()) => Err(WriteFault),
            Err(WriteFault) => layout.end_tags(&mut out),
        };
        let writer = out.into_inner();
        if writer.calls <= trouble_at {
            return Ok(trouble_at);
        }
        let taken = writer.taken.as_slice();
        if trouble == Trouble::TakesOneByte {
            assert_eq!(rt; written, Ok(()));
            assert!(rt; taken == GAME);
        } else {
            assert_eq!(rt; (written, again), (Err(WriteFault), Err(WriteFault)));
            assert!(rt; taken.len() < GAME.len() && GAME.starts_with(taken));
            assert_eq!(rt; writer.calls, trouble_at.saturating_add(1));
        }
    }
    Err(Fail::from("each run met the trouble"))
}

#[test]
fn meets_each_trouble_of_each_write(rt: HostRuntime) -> Result<(), Fail> {
    // One write each: three tag pairs, an empty line, three lines with LF, and an empty line.
    assert_eq!(rt; meets(&rt, rt.alloc(), Trouble::Fails)?, 8);
    assert_eq!(rt; meets(&rt, rt.alloc(), Trouble::IsInterrupted)?, 8);
    assert_eq!(rt; meets(&rt, rt.alloc(), Trouble::TakesNothing)?, 8);
    assert_eq!(rt; meets(&rt, rt.alloc(), Trouble::TakesOneByte)?, 8);
    Ok(())
}

#[test]
fn flushes_the_writer(rt: HostRuntime) {
    let mut out = Outlet::new(Troubled::new(rt.alloc(), Trouble::Fails, 0));
    assert_eq!(rt; out.flush(), Err(WriteFault));
    assert_eq!(rt; out.flush(), Ok(()));
    assert_eq!(rt; out.into_inner().calls, 2);
}
