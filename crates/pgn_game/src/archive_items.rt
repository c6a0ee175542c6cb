//! Games item by item, from a source that can be set back after a bad game.
ghost use Rattle.std.specs.Prelude.{◌≡◌, ◌-◌, ◌<◌, ◌≤◌, ◌^◌, [], ℕ, List, None, Option, false, not};
ghost use Rattle.pgn_lexer.specs.WhiteSpace.{white_space};
ghost use Rattle.pgn_game.specs.declared.mode.Mode.TheVariants.{Full};
ghost use Rattle.pgn_game.specs.public.ConverterCalls.{profile_of};
ghost use Rattle.pgn_layout.specs.Device.{device};
ghost use Rattle.pgn_game.specs.public.ArchiveCalls.{GoesOn, SkipsBadGame, SkipsNoGame, SkipsNothing};
ghost use Rattle.pgn_game.specs.public.ArchiveCalls as spec;
ghost use Rattle.pgn_game.specs.public.ArchiveCalls.{begin_after, given_games};
ghost use Rattle.pgn_game.specs.public.ItemsCalls.{ItemsAgain, ItemsAtEnd, LeavesSource};
ghost use Rattle.pgn_game.specs.public.ItemsCalls.{HaveGiven, LowersAhead, ReadsItem, items_by_marker};
ghost use Rattle.pgn_game.specs.steps.GameState.{is_outside_the_table};

use crate::item::Item;
use crate::items::Items;
use crate::reason::{Fault, Reason};
use crate::skipping::{section_behind, set_to};
use crate::source::{Rewinds, Source};
use std::marker::Model;

/// Reads the games of an archive item by item, and can skip a bad game.
///
/// It reads as [`Items`] do. After a fault, `skip_bad_game` goes on at the next game, at the place
/// at which `gillspoon sieve` does. For that the source is set back. A pipe cannot be, so hold its
/// text in memory.
///
/// # Examples
///
/// ```
/// use pgn_game::{ArchiveItems, Item, SliceSource};
///
/// let text = b"1. e4 e9 *\n\n[White \"Ada\"]\n\n1. d4 *\n";
/// let mut source = SliceSource::new(text);
/// let mut archive = ArchiveItems::<64, 33>::new();
/// let fault = loop {
///     if let Err(fault) = archive.next(&mut source) {
///         break fault;
///     }
/// };
/// assert_eq!(fault.at, 6);
/// assert_eq!(archive.skip_bad_game(&mut source), Ok(true));
/// assert_eq!(archive.next(&mut source), Ok(Some(Item::Tags)));
/// assert_eq!(archive.items().tag(b"White"), Some(b"Ada".as_slice()));
/// ```
#[derive(Drop)]
pub struct ArchiveItems<const T: usize, const L: usize> {
    items: Items<T, L>,
    // Where the current game begins: where the one before it ends.
    begin: u64,
    // The games before the last bad one that was skipped.
    earlier_games: u64,
}

impl<const T: usize, const L: usize> Model for ArchiveItems<T, L> {
    ghost use Rattle.std.specs.Prelude.{◌≤◌, ◌^◌};
    ghost use Rattle.pgn_game.specs.public.ArchiveCalls.{ArchiveItems as Seen};

    ghost Value = { Seen };

    ghost view = { λ a. record {
      items = a.items;
      begin = a.begin;
      earlier_games = a.earlier_games;
    } };

    ghost invariant = { λ a. a.begin ≤ 2 ^ 62 };
}

impl<const T: usize, const L: usize> ArchiveItems<T, L> {
    /// Returns items of which none is read yet.
    pub fn new() -> Self
        // Cargo: assert!(L >= 1, "the number of levels L is at least 1")
        requires { 1 ≤ L }
        ensures begins { (left : Option (List ℕ))
            → HaveGiven (profile_of T (L - 1) Full) left [] result.items [] }
        ensures no_fault { result.items.fault ≡ None }
        ensures not_finished { result.items.is_finished ≡ false }
        ensures begin { result.begin ≡ 0 }
        ensures earlier { result.earlier_games ≡ 0 }
    {
        ArchiveItems::begin_at(0, true)
    }

    /// Returns the items of the rest of a text, from the byte at this place on, as
    /// [`Items::begin_at`] does.
    ///
    /// The source has to give that rest, and has to be set there.
    pub fn begin_at(place: u64, in_first_column: bool) -> Self
        requires levels { 1 ≤ L }
        requires place { place ≤ 2 ^ 62 }
        ensures begins { (left : Option (List ℕ)) → HaveGiven (profile_of T (L - 1) Full) left
            (white_space place in_first_column) result.items [] }
        ensures count { result.items.lexer.count ≡ place }
        ensures no_fault { result.items.fault ≡ None }
        ensures not_finished { result.items.is_finished ≡ false }
        ensures begin { result.begin ≡ place }
        ensures earlier { result.earlier_games ≡ 0 }
    {
        ArchiveItems {
            items: Items::begin_at(place, in_first_column),
            begin: place,
            earlier_games: 0,
        }
    }

    /// From now on a missing Result takes the marker that ends its game, as after
    /// [`Items::take_marker_for_missing_result`].
    pub fn take_marker_for_missing_result(&mut self)
        ensures { self.new ≡ record self.old { items = items_by_marker self.old.items } }
    {
        self.items.take_marker_for_missing_result();
    }

    /// Reads the next item of the source, as [`Items::next`] does.
    ///
    /// # Errors
    ///
    /// Those of [`Items::next`]. Each later call returns the same error, up to a call of
    /// `skip_bad_game` that returns `Ok`.
    pub fn next<R: Source>(&mut self, source: &mut R) -> Result<Option<Item>, Fault>
        ensures reads { ReadsItem self.old.items self.new.items result
            (device R.left R.failures source.old source.new) }
        ensures leaves { LeavesSource self.old.items source.old source.new }
        ensures again { ItemsAgain self.old.items self.new.items result source.old source.new }
        ensures at_end { ItemsAtEnd self.old.items self.new.items result source.old source.new }
        ensures lowers { LowersAhead self.old.items self.new.items result }
        ensures text { R.text source.new ≡ R.text source.old }
        ensures begin { self.new.begin
            ≡ begin_after result self.old.begin self.new.items.lexer.count }
        ensures earlier { self.new.earlier_games ≡ self.old.earlier_games }
    {
        let result = self.items.next(source);
        if gives_marker(&result) {
            self.begin = self.items.place();
        }
        result
    }

    /// Returns the items, for what can be asked of the current game.
    ///
    /// Their `games` counts from the last bad game that was skipped.
    pub fn items(&self) -> &Items<T, L>
        ensures { result.now ≡ self.now.items }
    {
        &self.items
    }

    /// Returns the number of games whose marker was given. A bad game is none of them.
    pub fn games(&self) -> u64
        ensures { result ≡ given_games self.now }
    {
        self.earlier_games.saturating_add(self.items.games())
    }

    /// Skips the game that was rejected, and returns whether reading goes on after it.
    ///
    /// The end of a bad game is a guess: it ends before the next line that begins a tag section, by
    /// the rule of [`pgn_sections::next_section`]. Reading goes on there, at the place at which
    /// `gillspoon sieve` does. Places still count from the first byte, and `games` goes on. The
    /// source is set back to where the bad game begins. So that game, and what is after it up to
    /// the place found, is read twice at most; after a comment that is never closed, all the rest.
    ///
    /// `false` says that no game is left: `next` then returns `Ok(None)`. Without a fault the call
    /// does nothing, and returns `false`.
    ///
    /// # Errors
    ///
    /// - `Reason::ReadFault` if the source could not be set or read, at the place up to which it
    ///   was.
    /// - `Reason::InputTooLong` if no place is found before the byte at place 2^62.
    /// - The fault itself, if it is no game's: `next` could not read, or the input is too long.
    ///   Then the source is not touched.
    ///
    /// After an error `next` returns the fault as before, and this call can be made again.
    pub fn skip_bad_game<R: Rewinds>(&mut self, source: &mut R) -> Result<bool, Fault>
        ensures skips { SkipsBadGame (R.text source.old) self.old self.new
            (device R.left R.failures source.old source.new) result }
        ensures no_game { SkipsNoGame self.old self.new source.old source.new result }
        ensures nothing { SkipsNothing self.old self.new source.old source.new result }
        ensures text { R.text source.new ≡ R.text source.old }
    {
        let Some(fault) = self.items.fault() else {
            return Ok(false);
        };
        if !is_of_game(fault.reason) {
            return Err(fault);
        }
        match section_behind(source, self.begin, fault.at) {
            Err(unread) => Err(unread),
            Ok(None) => {
                self.earlier_games = self.games();
                self.items.end();
                Ok(false)
            }
            Ok(Some(place)) => match set_to(source, place) {
                Err(unread) => Err(unread),
                Ok(in_first_column) => {
                    self.go_on_at(place, in_first_column);
                    Ok(true)
                }
            },
        }
    }

    // Goes on at this place.
    fn go_on_at(&mut self, place: u64, in_first_column: bool)
        requires above { self.old.begin < place }
        requires within { place ≤ 2 ^ 62 }
        ensures { GoesOn self.old self.new place in_first_column }
    {
        self.earlier_games = self.games();
        self.begin = place;
        self.items.restart_at(place, in_first_column);
    }
}

fn gives_marker(given: &Result<Option<Item>, Fault>) -> bool
    ensures { result ≡ spec.gives_marker given.now }
{
    matches!(given, Ok(Some(Item::Marker(_))))
}

// Whether the reason is one of a game, and not of a device or of the length of a text.
fn is_of_game(reason: Reason) -> bool
    ensures { result ≡ not (is_outside_the_table reason) }
{
    !matches!(
        reason,
        Reason::ReadFault | Reason::WriteFault | Reason::InputTooLong | Reason::Changed
    )
}
