//! Inputs with room for fewer pairs and variations.
use crate::{HEAD, LONE_MARKER};
use pgn_game::{Fault, Mode, Nowhere, Outlet, Reason, convert_slice};
use std::test::Fail;

const THREE_PAIRS: &[u8] = b"[A \"1\"][B \"2\"][C \"3\"] *";

#[test]
fn holds_as_many_pairs_as_there_is_room_for(rt: HostRuntime) {
    let mut text = Vec::new(rt.alloc());
    let mut out = Outlet::new(&mut text);
    let two = convert_slice::<2, 33, _>(THREE_PAIRS, &mut out, Mode::Full);
    let reason = Reason::TooManyTags;
    assert_eq!(rt; two, Err(Fault { at: 14, reason }));
    assert!(rt; text.is_empty());
    let three = convert_slice::<3, 33, _>(THREE_PAIRS, &mut Nowhere, Mode::Full);
    assert!(rt; three.is_ok());
    let none = convert_slice::<0, 33, _>(THREE_PAIRS, &mut Nowhere, Mode::Full);
    assert_eq!(rt; none, Err(Fault { at: 0, reason }));
}

#[test]
fn stores_no_pair_for_set_up(rt: HostRuntime) {
    let input = b"[FEN \"4k3/8/8/8/8/8/8/4K3 w - - 0 1\"] *";
    let expected =
        b"[Event \"?\"]\n[Site \"?\"]\n[Date \"????.??.??\"]\n[Round \"?\"]\n[White \"?\"]\n\
        [Black \"?\"]\n[Result \"*\"]\n[FEN \"4k3/8/8/8/8/8/8/4K3 w - - 0 1\"]\n\
        [SetUp \"1\"]\n\n*\n\n"
            .as_slice();
    let mut text = Vec::new(rt.alloc());
    let mut out = Outlet::new(&mut text);
    let first = convert_slice::<1, 1, _>(input, &mut out, Mode::Full);
    assert!(rt; first.is_ok());
    assert!(rt; text.as_slice() == expected);
    let again = convert_slice::<1, 1, _>(expected, &mut Nowhere, Mode::Full);
    let reason = Reason::TooManyTags;
    assert_eq!(rt; again, Err(Fault { at: 12, reason }));
}

const TWO_VARIATIONS: &[u8] = b"1. e4 (1. d4 (1. c4)) *";

#[test]
fn refuses_variations_without_room(rt: HostRuntime) {
    let mut text = Vec::new(rt.alloc());
    let mut out = Outlet::new(&mut text);
    let none = convert_slice::<64, 1, _>(b"1. e4 (1. d4) *", &mut out, Mode::Full);
    let reason = Reason::TooDeep;
    assert_eq!(rt; none, Err(Fault { at: 6, reason }));
    assert!(rt; text.as_slice() == HEAD);
    text.clear();
    let mut out = Outlet::new(&mut text);
    let one = convert_slice::<4, 2, _>(TWO_VARIATIONS, &mut out, Mode::Full);
    assert_eq!(rt; one, Err(Fault { at: 13, reason }));
    assert!(rt; text.as_slice() == HEAD);
    // 37 is told before 38
    let first = convert_slice::<64, 1, _>(b"(e4) *", &mut Nowhere, Mode::Full);
    let reason = Reason::NoMoveBefore;
    assert_eq!(rt; first, Err(Fault { at: 0, reason }));
}

#[test]
fn takes_as_many_variations_as_there_is_room_for(rt: HostRuntime) {
    let mut text = Vec::new(rt.alloc());
    let mut out = Outlet::new(&mut text);
    let two = convert_slice::<4, 3, _>(TWO_VARIATIONS, &mut out, Mode::Full);
    assert!(rt; two.is_ok());
    let movetext = b"1. e4 ( 1. d4 ( 1. c4 ) ) *\n\n".as_slice();
    assert!(rt; text.as_slice().strip_prefix(HEAD) == Some(movetext));
    text.clear();
    let mut out = Outlet::new(&mut text);
    let marker = convert_slice::<0, 1, _>(b"*", &mut out, Mode::Full);
    assert!(rt; marker.is_ok());
    assert!(rt; text.as_slice() == LONE_MARKER);
}
