//! The termination markers.
ghost use Rattle.std.specs.Prelude.{◌≡◌, ◌≤◌, length, is_some, option_map};
ghost use Rattle.pgn_layout.specs.Lines.{IsToken};
ghost use Rattle.pgn_layout.specs.TagLine.{escaped};
ghost use Rattle.pgn_lexer.specs.Tokens.{symbol};
ghost use Rattle.pgn_game.specs.games.Markers.{marker_text, missing_of};
ghost use Rattle.pgn_game.specs.games.Profile.{known_result};
ghost use Rattle.pgn_game.specs.games.FaultTable.{is_score, marker_of, result_for};

/// A termination marker, which is also a value of Result (PGN 8.2.6).
#[derive(Clone, Copy, Debug, PartialEq, Eq)]
pub enum Marker {
    /// White wins: `1-0`.
    WhiteWins,
    /// Black wins: `0-1`.
    BlackWins,
    /// A drawn game: `1/2-1/2`.
    Draw,
    /// A game in progress, or a result that is not known: `*`.
    Unknown,
}

impl Marker {
    /// Returns the marker that a symbol is, if it is one: `1-0`, `0-1` or `1/2-1/2`.
    pub fn of_symbol(text: &[u8]) -> Option<Marker>
        ensures text { option_map marker_text result ≡ marker_of (symbol text.now) }
        ensures score { is_some result ≡ is_score text.now }
    {
        // Most symbols are moves, and differ in the first byte.
        match text.first() {
            Some(b'0') if text == b"0-1".as_slice() => Some(Marker::BlackWins),
            Some(b'1') if text == b"1-0".as_slice() => Some(Marker::WhiteWins),
            Some(b'1') if text == b"1/2-1/2".as_slice() => Some(Marker::Draw),
            _ => None,
        }
    }

    /// Returns the text of the marker.
    pub fn text(&self) -> &'static [u8]
        ensures text { result.now ≡ marker_text self.now }
        ensures token { IsToken result.now }
        ensures short { length (escaped result.now) ≤ 7 }
    {
        match self {
            Marker::WhiteWins => b"1-0",
            Marker::BlackWins => b"0-1",
            Marker::Draw => b"1/2-1/2",
            Marker::Unknown => b"*",
        }
    }
}

/// How a game ends: its termination marker, and the place of that.
#[derive(Clone, Copy)]
pub struct PlacedMarker {
    pub marker: Marker,
    pub at: u64,
}

/// What a missing Result counts as.
#[derive(Clone, Copy)]
pub enum MissingResult {
    /// This marker.
    CountsAs(Marker),
    /// The marker that ends its game.
    TakesTheMarker,
}

impl MissingResult {
    /// Returns what is known of it before the marker: its text, or nothing.
    pub fn known_text(&self) -> &'static [u8]
        ensures text { result.now ≡ known_result (missing_of self.now) }
        ensures short { length (escaped result.now) ≤ 7 }
    {
        match self {
            MissingResult::CountsAs(missing) => missing.text(),
            MissingResult::TakesTheMarker => b"",
        }
    }

    /// Returns what it is in a game that ends with this marker.
    pub fn with_marker(self, marker: Marker) -> MissingResult
        ensures { known_result (missing_of result)
            ≡ result_for (missing_of self) (marker_text marker) }
    {
        match self {
            MissingResult::TakesTheMarker => MissingResult::CountsAs(marker),
            missing => missing,
        }
    }

    /// Returns its text in a game that ends with this marker.
    pub fn text_at(&self, marker: Marker) -> &'static [u8]
        ensures { result.now ≡ result_for (missing_of self.now) (marker_text marker) }
    {
        match self {
            MissingResult::CountsAs(missing) => missing.text(),
            MissingResult::TakesTheMarker => marker.text(),
        }
    }
}
