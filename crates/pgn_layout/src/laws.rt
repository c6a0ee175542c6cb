//! Laws of the definitions. The functions do nothing.
ghost use Rattle.pgn_layout.specs.Laws.{TokensDetermineLines, LinesAreThosePut};
ghost use Rattle.pgn_layout.specs.Laws.{LinesKeepTokens, LinesOfKeepTokens};

/// Tokens of 1 to 79 bytes fit on lines in exactly one way (PGN 8.2.1).
pub fn tokens_determine_lines()
    ensures { TokensDetermineLines }
{}

/// Tokens put one after another are written on the lines that `Lines` allows (PGN 8.2.1, 8.2.6).
///
/// The first token is put on an empty line. All lines but the last are written as the tokens come.
/// The end of the game writes the last one, and an empty line.
pub fn lines_are_those_put()
    ensures { LinesAreThosePut }
{}

/// The text of lines is their tokens in order, each followed by a space or LF (PGN 8.2.1).
///
/// Nothing is lost, split or added. `lines` says so for all lines that tokens can have, `computed`
/// for those that the definition computes.
pub fn lines_keep_tokens()
    ensures lines { LinesKeepTokens }
    ensures computed { LinesOfKeepTokens }
{}
