//! Laws of the definitions that the contracts cite. The functions do nothing.
ghost use Rattle.pgn_lexer.specs.Laws as laws;

/// No byte after a text changes the tokens that the text decides.
pub fn decided_is_prefix()
    ensures { laws.DecidedIsPrefix }
{}

/// The tokens known with one more byte begin the tokens of every text that goes on with it.
pub fn known_is_prefix()
    ensures { laws.KnownIsPrefix }
{}

/// Each list of tokens ends with the end of the text or with one error, and its places rise.
pub fn tokens_rise()
    ensures { laws.TokensRise }
{}

/// Each text has exactly one list of tokens by `Lexes`, and `tokens_of` computes it.
pub fn lexes_once()
    ensures { laws.LexesOnce }
{}

/// The tokens of each text are sound: each has the bytes of its kind, and comments close.
///
/// A symbol begins with a letter or a digit, and has symbol bytes alone. The data of a string have
/// no control byte (PGN 7). Words are inside comments, and have neither white space nor a closing
/// brace. Each comment closes, unless the text is rejected (PGN 5).
pub fn tokens_are_sound()
    ensures { laws.TokensAreSound }
{}

/// The bytes of a symbol stand in the text at its place, and so does an asterisk (PGN 7).
pub fn symbols_stand_in_text()
    ensures { laws.SymbolsStandInText }
{}

/// Written tokens are read back as themselves, each at its place.
///
/// The premise: each token is followed by white space, or by a byte that ends it. The tokens are a
/// symbol, a NAG as `$` and a number, a string with escapes, a comment in braces, and
/// `[ ] ( ) . *`. A `%` in the first column begins no escape line there (PGN 6), since only the
/// words of a comment can begin with it.
pub fn written_tokens_are_read_back()
    ensures places { laws.PiecesAreReadBack }
    ensures kinds { laws.KindsAreReadBack }
{}

/// A number in decimal is a symbol of digits, as a move number is (PGN 7, 8.2.2).
pub fn numbers_are_symbols()
    ensures { laws.NumbersAreSymbols }
{}

/// After a symbol or an asterisk, the tokens are the same if all bytes up to its end are spaces.
///
/// So a text can be read on from the end of a termination marker (PGN 8.2.6), by a lexer of
/// `Lexer::begin_at` that is not in the first column.
pub fn texts_restart()
    ensures { laws.TextsRestart }
{}
