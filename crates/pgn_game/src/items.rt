//! Games item by item, from a source.
ghost use Rattle.std.specs.Prelude.{◌≡◌, ◌+◌, ◌-◌, ◌<◌, ◌≤◌, ◌^◌, None, Option, [], ℕ, List, false, length, option_map, true};
ghost use Rattle.pgn_lexer.specs.WhiteSpace.{white_space};
ghost use Rattle.pgn_game.specs.public.ConverterCalls.{IsSound};
ghost use Rattle.pgn_layout.specs.Device.{Counts, WritesText, device};
ghost use Rattle.std.specs.Option.{option_copied};
ghost use Rattle.pgn_game.specs.public.ConverterCalls.{profile_of};
ghost use Rattle.pgn_game.specs.public.ItemsCalls.{CountsSan, HaveGiven, ItemsAgain, ItemsAtEnd};
ghost use Rattle.pgn_game.specs.public.ItemsCalls.{LeavesSource, LowersAhead, ReadsItem};
ghost use Rattle.pgn_game.specs.public.ItemsCalls.{position_before_move, refused_items_position};
ghost use Rattle.pgn_game.specs.public.ItemsCalls.{shown_position, shown_san, shown_section};
ghost use Rattle.pgn_game.specs.public.ItemsCalls.{shown_uci, shown_value};
ghost use Rattle.pgn_game.specs.public.ItemsCalls.{GiveByMarker, items_by_marker};
ghost use Rattle.pgn_game.specs.public.ItemsCalls.{shown_pair};
ghost use Rattle.pgn_game.specs.public.NameAndValue.{pair_of};
ghost use Rattle.pgn_game.specs.public.ItemsCalls.{IsLegalIfMove, shown_depth, shown_games, shown_word};
ghost use Rattle.pgn_game.specs.declared.mode.Mode.TheVariants.{Full};
ghost use Rattle.pgn_game.specs.steps.ItemsSteps.{AreGoing, GivesAtEnd, MoreItems, TakesAtEnd};
ghost use Rattle.pgn_game.specs.steps.ItemsSteps.{ReadsLastToken, ReadsToken, TakesBuffered};

use crate::converter::{MAX_INPUT_LENGTH, lexical, within_limit};
use crate::current_game::CurrentGame;
use crate::item::Item;
use crate::read_buffer::ReadBuffer;
use crate::reason::{Fault, Reason};
use crate::source::Source;
use crate::token_tests::is_end;
use arrayvec::ArrayVec;
use chess_rules::{Position, Probes};
use pgn_layout::{Sink, WriteFault};
use pgn_lexer::laws::symbols_stand_in_text;
use pgn_lexer::{Lexer, Outcome};
use std::marker::Model;

/// How far the items were read.
#[derive(Clone, Copy)]
enum ItemsState {
    /// The source has not ended.
    Reading,
    /// The source has ended. The lexer may have tokens left of its last bytes.
    SourceEnded,
    /// All items were given.
    Finished,
    /// Each call reports this fault.
    Failed(Fault),
}

/// Reads the games of a source item by item: tags, moves, NAGs, comments, variations and markers.
///
/// Each game is its `Tags`, then the items of its movetext, then its `Marker`. Every move is legal
/// where it stands. What is accepted and rejected is what [`crate::convert`] accepts and rejects in
/// full mode: a missing Result counts as `*`, unless it takes the marker
/// (`take_marker_for_missing_result`). After a fault no more games are read.
///
/// A game has at most `T` tag pairs, and its variations are at most `L - 1` deep. `L` is at least
/// 1.
///
/// # Examples
///
/// ```
/// use chess_rules::Probes;
/// use pgn_game::{Inlet, Item, Items};
///
/// let text = b"[White \"Ada\"] 1. e4 {best by test} e5 $1 (1... c5) *";
/// let mut source = Inlet::new(text.as_slice());
/// let mut items = Items::<64, 33>::new();
/// let mut line = String::new();
/// while let Some(item) = items.next(&mut source).unwrap() {
///     match item {
///         Item::Tags => assert_eq!(items.tag(b"White"), Some(b"Ada".as_slice())),
///         Item::Move(_) => {
///             let san = items.san(&mut Probes::new()).unwrap();
///             line += std::str::from_utf8(&san).unwrap();
///             line += " ";
///         }
///         Item::Word => {
///             line += std::str::from_utf8(items.word()).unwrap();
///             line += " ";
///         }
///         Item::Open => line += "( ",
///         Item::Close => line += ") ",
///         _ => {}
///     }
/// }
/// assert_eq!(line, "e4 best by test e5 ( c5 ) ");
/// ```
#[derive(Drop)]
pub struct Items<const T: usize, const L: usize> {
    current: CurrentGame<T, L>,
    lexer: Lexer,
    buffer: ReadBuffer,
    state: ItemsState,
}

impl<const T: usize, const L: usize> Model for Items<T, L> {
    ghost use Rattle.std.specs.Prelude.{false};
    ghost use Rattle.pgn_game.specs.public.ConverterCalls.{IsSound};
    ghost use Rattle.pgn_game.specs.public.ItemsCalls.{Items as Seen};
    ghost use Rattle.pgn_game.specs.steps.ItemsSteps.{fault_in, is_at_end, reads_no_more};

    ghost Value = { Seen };

    ghost view = { λ i. record {
      lexer = i.lexer;
      current = i.current;
      unused = i.buffer;
      has_read_all = reads_no_more i.state;
      is_finished = is_at_end i.state;
      fault = fault_in i.state;
    } };

    ghost invariant = { λ i. IsSound i.lexer i.current.reading i.current.games false
        (is_at_end i.state) (fault_in i.state) };
}

impl<const T: usize, const L: usize> Items<T, L> {
    /// Returns items of which none is read yet.
    pub fn new() -> Self
        // Cargo: assert!(L >= 1, "the number of levels L is at least 1")
        requires { 1 ≤ L }
        ensures begins { (left : Option (List ℕ))
            → HaveGiven (profile_of T (L - 1) Full) left [] result [] }
        ensures no_fault { result.fault ≡ None }
        ensures not_finished { result.is_finished ≡ false }
    {
        Items::begin_at(0, true)
    }

    /// Returns the items of the rest of a text, from the byte at this place on.
    ///
    /// The source has to give that rest. The bytes before are taken for white space, as by
    /// [`crate::Converter::begin_at`], which says what the place and `in_first_column` have to be.
    /// Places count from the first byte of the text, and so does `place`; `games` counts from here.
    ///
    /// # Examples
    ///
    /// ```
    /// use pgn_game::{Inlet, Item, Items, Marker};
    ///
    /// let text = b"1. e4 * *";
    /// let mut source = Inlet::new(&text[7..]);
    /// let mut items = Items::<64, 33>::begin_at(7, false);
    /// assert_eq!(items.next(&mut source).unwrap(), Some(Item::Tags));
    /// assert_eq!(items.games(), 0);
    /// assert_eq!(items.next(&mut source).unwrap(), Some(Item::Marker(Marker::Unknown)));
    /// assert_eq!(items.games(), 1);
    /// assert_eq!(items.place(), 9);
    /// ```
    pub fn begin_at(place: u64, in_first_column: bool) -> Self
        requires levels { 1 ≤ L }
        requires place { place ≤ 2 ^ 62 }
        ensures begins { (left : Option (List ℕ)) → HaveGiven (profile_of T (L - 1) Full) left
            (white_space place in_first_column) result [] }
        ensures count { result.lexer.count ≡ place }
        ensures no_fault { result.fault ≡ None }
        ensures not_finished { result.is_finished ≡ false }
    {
        Items {
            current: CurrentGame::new(),
            lexer: Lexer::begin_at(place, in_first_column),
            buffer: ReadBuffer::new(),
            state: ItemsState::Reading,
        }
    }

    /// From now on a missing Result takes the marker that ends its game.
    ///
    /// So a game without a Result may end with any marker. New items count a missing Result as `*`.
    /// What was given before stays right.
    ///
    /// The tags of a game are given before its marker. Up to the marker `tag`, `pair` and
    /// `write_tags` give such a Result the empty value, which is no result of a game: its value is
    /// not known yet. From the `Marker` on it is the marker.
    ///
    /// # Examples
    ///
    /// ```
    /// use pgn_game::{Inlet, Item, Items, Marker};
    ///
    /// let mut source = Inlet::new(b"1. e4 1-0".as_slice());
    /// let mut items = Items::<64, 33>::new();
    /// items.take_marker_for_missing_result();
    /// assert_eq!(items.next(&mut source).unwrap(), Some(Item::Tags));
    /// assert_eq!(items.tag(b"Result"), Some(b"".as_slice()));
    /// assert!(matches!(items.next(&mut source).unwrap(), Some(Item::Move(_))));
    /// let marker = Item::Marker(Marker::WhiteWins);
    /// assert_eq!(items.next(&mut source).unwrap(), Some(marker));
    /// assert_eq!(items.tag(b"Result"), Some(b"1-0".as_slice()));
    /// ```
    pub fn take_marker_for_missing_result(&mut self)
        ensures only_switch { self.new ≡ items_by_marker self.old }
        ensures gives { GiveByMarker self.old self.new }
    {
        self.current.take_marker_for_missing_result();
    }

    /// Reads the next item of the source. `None` if no item is left.
    ///
    /// Each call has to get the same source. It is read only where the bytes read before decide no
    /// further item. `tag`, `position`, `word` and the others are about the item just given, up to
    /// the next call. At the end of the source later calls return `None` again, and do not touch
    /// it.
    ///
    /// # Errors
    ///
    /// - The input's first fault, at the place at which `convert` reports it in full mode. All
    ///   items before it were given. A game whose first token of movetext is rejected gives no
    ///   `Tags`.
    /// - `Reason::ReadFault` if a read failed, at the number of bytes read.
    /// - `Reason::InputTooLong` if the input has a byte at place 2^62.
    ///
    /// Each later call returns the same error, and does not touch the source.
    pub fn next<R: Source>(&mut self, source: &mut R) -> Result<Option<Item>, Fault>
        ensures reads { ReadsItem self.old self.new result
            (device R.left R.failures source.old source.new) }
        ensures leaves { LeavesSource self.old source.old source.new }
        ensures again { ItemsAgain self.old self.new result source.old source.new }
        ensures at_end { ItemsAtEnd self.old self.new result source.old source.new }
        ensures lowers { LowersAhead self.old self.new result }
        ensures text { R.text source.new ≡ R.text source.old }
    {
        if let Some(item) = self.current.give_next() {
            return Ok(Some(item));
        }
        self.current.forget_last();
        match self.state {
            ItemsState::Failed(fault) => Err(fault),
            ItemsState::Finished => Ok(None),
            ItemsState::SourceEnded => self.next_at_end(),
            ItemsState::Reading => self.read_item(source),
        }
    }

    /// Returns the value of a tag of the current game, roster defaults included.
    ///
    /// A game is the current one from its `Tags` to the call after its `Marker`. At any other time
    /// the result is `None`. `take_marker_for_missing_result` says what a missing Result is.
    pub fn tag(&self, name: &[u8]) -> Option<&[u8]>
        ensures { option_copied result ≡ shown_value self.now.current name.now }
    {
        self.current.tag(name)
    }

    /// Returns the name and the value of a tag pair of the current game, by its index.
    ///
    /// The pairs are those that `write_tags` writes, in the same order (PGN 8.1.1): the seven of
    /// the roster, defaults included, then the others in the order of their names. The result is
    /// `None` from the number of pairs on, and without a current game.
    ///
    /// # Examples
    ///
    /// ```
    /// use pgn_game::{Inlet, Items};
    ///
    /// let mut source = Inlet::new(b"[White \"Ada\"] [ECO \"C20\"] *".as_slice());
    /// let mut items = Items::<64, 33>::new();
    /// items.next(&mut source).unwrap();
    /// assert_eq!(items.pair(4), Some((b"White".as_slice(), b"Ada".as_slice())));
    /// assert_eq!(items.pair(7), Some((b"ECO".as_slice(), b"C20".as_slice())));
    /// assert_eq!(items.pair(8), None);
    /// ```
    pub fn pair(&self, index: usize) -> Option<(&[u8], &[u8])>
        ensures { option_map pair_of result ≡ shown_pair self.now.current index }
    {
        self.current.pair(index)
    }

    /// Writes the tag section of the current game, with the empty line after it (PGN 8.1).
    ///
    /// Without a current game nothing is written.
    ///
    /// # Errors
    ///
    /// `WriteFault` if a write failed. A prefix of the section was written.
    pub fn write_tags<W: Sink>(&self, out: &mut W) -> Result<(), WriteFault>
        ensures { WritesText (device W.taken W.failures out.old out.new) result
            (shown_section self.now.current) }
    {
        self.current.write_tags(out)
    }

    /// Returns the position after the items given so far, inside a variation too.
    ///
    /// After `Open` it is the one before the move that the variation replaces. Without a current
    /// game the result is `None`.
    pub fn position(&self) -> Option<&Position>
        ensures { option_copied result ≡ shown_position self.now.current }
    {
        self.current.position()
    }

    /// Returns the position before the move just given.
    ///
    /// The move is legal in it, and leads to `position`. The result is `None` unless the last call
    /// gave a `Move`.
    pub fn position_before(&self) -> Option<&Position>
        ensures position { option_copied result ≡ position_before_move self.now.current }
        ensures legal { IsLegalIfMove self.now.current }
    {
        self.current.position_before()
    }

    /// Returns the position in which a move was rejected.
    ///
    /// It is the one before the move, also inside a variation. The result is `None` unless the
    /// last call returned `Reason::IllegalMove`, `Reason::AmbiguousMove` or `Reason::MoveLimit`.
    ///
    /// # Examples
    ///
    /// ```
    /// use chess_text::write_fen;
    /// use pgn_game::{Inlet, Items};
    ///
    /// let mut source = Inlet::new(b"1. e4 e5 2. Ke3 *".as_slice());
    /// let mut items = Items::<64, 33>::new();
    /// while let Ok(Some(_)) = items.next(&mut source) {}
    /// let fen = write_fen(items.refused_position().unwrap());
    /// assert!(fen.starts_with(b"rnbqkbnr/pppp1ppp/8/4p3/4P3/8/PPPP1PPP/RNBQKBNR w"));
    /// ```
    pub fn refused_position(&self) -> Option<&Position>
        ensures { option_copied result ≡ refused_items_position self.now }
    {
        let ItemsState::Failed(fault) = self.state else {
            return None;
        };
        match fault.reason {
            Reason::IllegalMove | Reason::AmbiguousMove | Reason::MoveLimit => {
                Some(self.current.last_position())
            }
            _ => None,
        }
    }

    /// Returns the number of variations that are open after the items given so far.
    ///
    /// `Open` is inside its variation, and `Close` outside. Without a current game it is 0.
    pub fn depth(&self) -> usize
        ensures { result ≡ shown_depth self.now.current }
    {
        self.current.depth()
    }

    /// Returns the move just given in SAN (PGN 8.2.3).
    ///
    /// The result is `None` unless the last call gave a `Move`. The pairs that are tried are
    /// counted, at most 1,032.
    pub fn san(&self, probes: &mut Probes) -> Option<ArrayVec<u8, 7>>
        // Cargo: assert!(u32::MAX - probes.count() >= 1032,
        // "the count of Probes has room for 1,032 more")
        requires { probes.old + 1032 < 2 ^ 32 }
        ensures text { option_map (λ text. text.items) result ≡ shown_san self.now.current }
        ensures pairs { CountsSan self.now.current probes.old probes.new }
        ensures bound { probes.new ≤ probes.old + 1032 }
    {
        self.current.san(probes)
    }

    /// Returns the move just given in UCI notation, as `g1f3`.
    ///
    /// The result is `None` unless the last call gave a `Move`.
    pub fn uci(&self) -> Option<ArrayVec<u8, 5>>
        ensures { option_map (λ text. text.items) result ≡ shown_uci self.now.current }
    {
        self.current.uci()
    }

    /// Returns the text of the word just given: 1 to 79 bytes.
    ///
    /// The result is empty unless the last call gave a `Word`.
    pub fn word(&self) -> &[u8]
        ensures { result.now ≡ shown_word self.now.current }
    {
        self.current.word()
    }

    /// Returns the number of games whose marker was given.
    pub fn games(&self) -> u64
        ensures { result ≡ shown_games self.now.current }
    {
        self.current.games()
    }

    /// Returns the place of the next byte: where this began, plus the bytes used since.
    ///
    /// After a `Marker` it is the place after the marker: `begin_at` reads on from there, with
    /// `in_first_column` false.
    pub fn place(&self) -> u64
        ensures place { result ≡ self.now.lexer.count }
        ensures within { result ≤ 2 ^ 62 }
    {
        self.lexer.place()
    }

    // Returns the fault that each call of `next` reports, if there is one.
    pub(crate) fn fault(&self) -> Option<Fault>
        ensures { result ≡ self.now.fault }
    {
        match self.state {
            ItemsState::Failed(fault) => Some(fault),
            _ => None,
        }
    }

    // From now on the items are those of the rest of a text, from the byte at this place on, as by
    // `begin_at`. What a missing Result counts as stays.
    pub(crate) fn restart_at(&mut self, place: u64, in_first_column: bool)
        requires { place ≤ 2 ^ 62 }
        ensures begins { (left : Option (List ℕ)) → HaveGiven self.old.current.reading.profile left
            (white_space place in_first_column) self.new [] }
        ensures count { self.new.lexer.count ≡ place }
        ensures no_fault { self.new.fault ≡ None }
        ensures not_finished { self.new.is_finished ≡ false }
        ensures none_next { self.new.current.pending ≡ None }
        ensures no_game { shown_games self.new.current ≡ 0 }
    {
        self.current.restart();
        self.lexer = Lexer::begin_at(place, in_first_column);
        self.buffer.clear();
        self.state = ItemsState::Reading;
    }

    // From now on no item is left, and there is no fault.
    pub(crate) fn end(&mut self)
        ensures no_fault { self.new.fault ≡ None }
        ensures finished { self.new.is_finished ≡ true }
        ensures none_next { self.new.current.pending ≡ None }
        ensures count { self.new.lexer.count ≡ self.old.lexer.count }
        ensures no_game { shown_games self.new.current ≡ 0 }
    {
        let place = self.lexer.place();
        self.restart_at(place, false);
        self.state = ItemsState::Finished;
    }

    // Reads the next item of a source that has not ended yet.
    fn read_item<R: Source>(&mut self, source: &mut R) -> Result<Option<Item>, Fault>
        requires going { AreGoing self.old }
        requires more { self.old.has_read_all ≡ false }
        requires short { self.old.lexer.count ≤ 2 ^ 62 }
        ensures reads { ReadsItem self.old self.new result
            (device R.left R.failures source.old source.new) }
        ensures lowers { LowersAhead self.old self.new result }
        ensures text { R.text source.new ≡ R.text source.old }
    {
        loop {
            match self.fill_buffer(source) {
                Err(fault) => return Err(fault),
                Ok(false) => {
                    symbols_stand_in_text();
                    return self.next_at_end();
                }
                Ok(true) => {}
            }
            match self.take_buffered() {
                Err(fault) => return Err(fault),
                Ok(Some(item)) => return Ok(Some(item)),
                Ok(None) => {}
            }
        }
    }

    // Takes the next token of the bytes that were read.
    fn take_buffered(&mut self) -> Result<Option<Item>, Fault>
        requires going { AreGoing self.old }
        requires some { 0 < length self.old.unused }
        ensures { TakesBuffered self.old self.new result }
    {
        let piece = within_limit(self.lexer.place(), self.buffer.unused());
        if piece.is_empty() {
            let at = MAX_INPUT_LENGTH;
            let reason = Reason::InputTooLong;
            self.state = ItemsState::Failed(Fault { at, reason });
            return Err(Fault { at, reason });
        }
        let (used, read) = read_token(&mut self.lexer, &mut self.current, piece);
        self.buffer.skip(used);
        match read {
            Ok(item) => Ok(item),
            Err(fault) => {
                self.state = ItemsState::Failed(fault);
                Err(fault)
            }
        }
    }

    // Reads bytes, if all are used. Returns whether there are any.
    fn fill_buffer<R: Source>(&mut self, source: &mut R) -> Result<bool, Fault>
        requires { AreGoing self.old }
        ensures more { MoreItems (R.left source.old) (R.left source.new) self.old self.new result }
        ensures counted { Counts result (R.failures source.old) (R.failures source.new) }
        ensures text { R.text source.new ≡ R.text source.old }
    {
        if !self.buffer.unused().is_empty() {
            return Ok(true);
        }
        match self.buffer.fill(source) {
            Ok(true) => Ok(true),
            Ok(false) => {
                self.state = ItemsState::SourceEnded;
                Ok(false)
            }
            Err(_) => {
                let at = self.lexer.place();
                let reason = Reason::ReadFault;
                self.state = ItemsState::Failed(Fault { at, reason });
                Err(Fault { at, reason })
            }
        }
    }

    // Reads the next item after the last bytes of the source.
    fn next_at_end(&mut self) -> Result<Option<Item>, Fault>
        requires going { AreGoing self.old }
        requires all { self.old.has_read_all ≡ true }
        ensures gives { GivesAtEnd self.old self.new result }
        ensures lowers { LowersAhead self.old self.new result }
    {
        loop {
            let (is_end, taken) = self.take_at_end();
            match taken {
                Err(fault) => return Err(fault),
                Ok(Some(item)) => return Ok(Some(item)),
                Ok(None) => {}
            }
            if is_end {
                return Ok(None);
            }
        }
    }

    // Takes the next token after the last bytes of the source. Returns whether it is the end.
    fn take_at_end(&mut self) -> (bool, Result<Option<Item>, Fault>)
        requires going { AreGoing self.old }
        requires all { self.old.has_read_all ≡ true }
        ensures { TakesAtEnd self.old self.new result.0 result.1 }
    {
        let (is_end, read) = read_last_token(&mut self.lexer, &mut self.current);
        match read {
            Err(fault) => {
                self.state = ItemsState::Failed(fault);
                (is_end, Err(fault))
            }
            Ok(item) => {
                if is_end {
                    self.state = ItemsState::Finished;
                    return (is_end, Ok(item));
                }
                (is_end, Ok(item))
            }
        }
    }
}

// Reads the next token of a piece, or what is before it: white space, and in movetext numbers and
// periods, which give nothing there. Returns how many bytes were used, and the item that the token
// gives, if it gives one.
fn read_token<const T: usize, const L: usize>(
    lexer: &mut Lexer,
    current: &mut CurrentGame<T, L>,
    piece: &[u8],
) -> (usize, Result<Option<Item>, Fault>)
    requires sound { IsSound lexer.old current.old.reading current.old.games false false None }
    requires last { current.old.last ≡ None }
    requires pending { current.old.pending ≡ None }
    requires some { 0 < length piece.now }
    requires short { lexer.old.count + length piece.now ≤ 2 ^ 62 }
    ensures { ReadsToken lexer.old current.old piece.now lexer.new current.new result.0 result.1 }
{
    let (used, token) = lexer.whole_token(piece, current.is_in_movetext());
    let Some(token) = token else {
        // Mostly a token goes on that began in an earlier piece.
        if used == 0 {
            return read_by_bytes(lexer, current, piece);
        }
        return (used, Ok(None));
    };
    let at = token.at;
    match current.take(token.kind) {
        Ok(item) => (used, Ok(item)),
        Err(reason) => (used, Err(Fault { at, reason })),
    }
}

// Reads the next token of a piece as `read_token` does, but lets the lexer copy it.
fn read_by_bytes<const T: usize, const L: usize>(
    lexer: &mut Lexer,
    current: &mut CurrentGame<T, L>,
    piece: &[u8],
) -> (usize, Result<Option<Item>, Fault>)
    requires sound { IsSound lexer.old current.old.reading current.old.games false false None }
    requires last { current.old.last ≡ None }
    requires pending { current.old.pending ≡ None }
    requires some { 0 < length piece.now }
    requires short { lexer.old.count + length piece.now ≤ 2 ^ 62 }
    ensures { ReadsToken lexer.old current.old piece.now lexer.new current.new result.0 result.1 }
{
    let scan = lexer.next(piece);
    let used = scan.used;
    match scan.outcome {
        Outcome::NeedMore => { (used, Ok(None)) }
        Outcome::Token(token) => {
            let at = token.at;
            match current.take(token.kind) {
                Ok(item) => (used, Ok(item)),
                Err(reason) => (used, Err(Fault { at, reason })),
            }
        }
        Outcome::Fault(fault) => (used, Err(lexical(fault))),
    }
}

// Reads the next token after the last piece. Returns whether it is the end, and the item that the
// token gives, if it gives one.
fn read_last_token<const T: usize, const L: usize>(
    lexer: &mut Lexer,
    current: &mut CurrentGame<T, L>,
) -> (bool, Result<Option<Item>, Fault>)
    requires sound { IsSound lexer.old current.old.reading current.old.games false false None }
    requires last { current.old.last ≡ None }
    requires pending { current.old.pending ≡ None }
    ensures { ReadsLastToken lexer.old current.old lexer.new current.new result.0 result.1 }
{
    match lexer.finish() {
        // Never: `finish` gives a token or a fault.
        Outcome::NeedMore => (true, Ok(None)),
        Outcome::Token(token) => {
            let at = token.at;
            let is_end = is_end(token.kind);
            match current.take(token.kind) {
                Ok(item) => (is_end, Ok(item)),
                Err(reason) => (is_end, Err(Fault { at, reason })),
            }
        }
        Outcome::Fault(fault) => (false, Err(lexical(fault))),
    }
}
