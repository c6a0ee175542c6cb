//! Bad games of an archive: reading goes on behind each where the rows say, as `next_section` does.
use pgn_game::{ArchiveItems, SliceSource};
use pgn_sections::next_section;
use std::process::Abort;

/// Where a bad game begins, the place of its fault, and where reading goes on.
type Bad = (usize, u64, Option<usize>);

/// Texts, their bad games, and how many other games they have.
#[rattlefmt::skip]
const ARCHIVES: &[(&[u8], &[Bad], u64)] = &[
    (b"1. e4 e9 *\n\n[White \"Ada\"]\n\n1. d4 *\n", &[(0, 6, Some(12))], 1),
    (b"1. e4 *\n\n1. e4 e9 *\n\n[White \"Ada\"]\n\n1. d4 1/2\n\n[White \"Ben\"] *",
        &[(7, 15, Some(21)), (21, 42, Some(47))], 2),
    (b"1. e4 *\n\n1. e4 e9 *\n", &[(7, 15, None)], 1),
    (b"* ? \n[White \"Ada\"] *", &[(1, 5, Some(5))], 2),
];

/// Reads up to the next fault, and returns its place. `None` if no game is left.
fn place_of_fault(archive: &mut ArchiveItems<64, 33>, source: &mut SliceSource<'_>) -> Option<u64> {
    // An input has fewer items than that.
    for _ in 0..u64::MAX {
        match archive.next(source) {
            Ok(Some(_)) => {}
            Ok(None) => return None,
            Err(fault) => return Some(fault.at),
        }
    }
    None
}

/// Reading goes on behind each bad game, and all other games are counted.
fn skips(rt: &impl Abort, text: &[u8], bad: &[Bad], games: u64) {
    let mut source = SliceSource::new(text);
    let mut archive = ArchiveItems::<64, 33>::new();
    for &(begin, fault, place) in bad {
        assert_eq!(rt; place_of_fault(&mut archive, &mut source), Some(fault));
        assert_eq!(rt; next_section(text, begin, fault as usize), place);
        match archive.skip_bad_game(&mut source) {
            Ok(goes_on) => assert_eq!(rt; goes_on, place.is_some()),
            Err(_) => assert!(rt; false),
        }
        if let Some(place) = place {
            assert_eq!(rt; archive.items().place(), place as u64);
        }
    }
    assert_eq!(rt; place_of_fault(&mut archive, &mut source), None);
    assert_eq!(rt; archive.games(), games);
}

#[test]
fn reading_goes_on_behind_bad_games(rt: HostRuntime) {
    for &(text, bad, games) in ARCHIVES {
        skips(&rt, text, bad, games);
    }
}
