//! Laws of the definitions that the contracts cite. The functions do nothing.
ghost use Rattle.pgn_game.specs.laws.Laws as laws;
ghost use Rattle.pgn_game.specs.laws.GamesJoined as games_joined;
ghost use Rattle.pgn_game.specs.laws.ItemsJoined as items_joined;
ghost use Rattle.pgn_game.specs.laws.GameEnds as game_ends;
ghost use Rattle.pgn_game.specs.laws.GamesRestart as restart;
ghost use Rattle.pgn_game.specs.laws.MovesAreLegal as legality;
ghost use Rattle.pgn_game.specs.laws.MovetextLines as on_lines;
ghost use Rattle.pgn_game.specs.laws.FixedPoint as fixed;
ghost use Rattle.pgn_game.specs.laws.UniqueReading as unique;
ghost use Rattle.pgn_game.specs.laws.EqualReadings as equal;
ghost use Rattle.pgn_game.specs.laws.MissingResults as missing;
ghost use Rattle.pgn_game.specs.laws.SilentReadings as silent;

use chess_rules::laws::{a_legal_move_leaves_a_position, candidates_are_few};
use chess_text::laws::{
    a_written_move_is_a_symbol, a_written_move_is_read_as_itself, reading_a_form_is_spelling,
    reading_is_spelling, the_one_move_is_read,
};
use pgn_layout::laws::{lines_keep_tokens, tokens_determine_lines};
use pgn_lexer::laws::{
    decided_is_prefix, numbers_are_symbols, symbols_stand_in_text, texts_restart, tokens_are_sound,
    tokens_rise, written_tokens_are_read_back,
};

/// Output only grows: that for some tokens is a prefix of that for these and more.
pub fn due_grows()
    ensures { laws.DueGrows }
{}

/// Just after the marker of a game, the rest of a text can be converted on its own.
///
/// `Converter::begin_at` does that, with `in_first_column` false. The games of the whole are those
/// so far and those of the rest, and so is the output. A fault of the rest is that of the whole, at
/// the same place. Without one, games and plies add up. The rest can be cut again after its first
/// game, and so on.
pub fn games_restart()
    ensures { restart.GamesRestart }
{
    texts_restart();
}

/// The calls of `Games::next` together convert the whole text that their source gives.
///
/// After any number of games, these are the first games of the text, and what is written is their
/// export text. After `false` they are all its games: their number and their plies are its verdict,
/// and what is written is its output. After an error the output and the error are those of
/// `convert`. Each call has to get the source and the sink as the call before left them.
pub fn games_join()
    ensures { games_joined.GamesJoin }
{}

/// What is given for some tokens is the front of what is given for these and more.
pub fn given_grows()
    ensures { items_joined.GivenGrows }
{}

/// The calls of `Items::next` together give what the whole text of their source is read into.
///
/// What was given so far is the front of it, and its tokens are the first ones of the text. After
/// `Ok(None)` all of it was given, no token of the text is rejected, and all its bytes are used.
/// After an error all of it was given, and the error is the first fault of the text. If that
/// rejects a move, the items keep the position before it. This holds for a text of at most 2^62
/// bytes, unless a read failed. Each call has to get the source as the call before left it.
pub fn items_join()
    ensures front { items_joined.GivenIsFront }
    ensures first { items_joined.TokensAreFirst }
    ensures end { items_joined.EndGivesAll }
    ensures place { items_joined.EndUsesAll }
    ensures fault { items_joined.FaultGivesAll }
    ensures position { items_joined.FaultKeepsPosition }
{}

/// The token that finishes a game is its marker, and the Result of its tag section is that marker.
///
/// After it the output is that of whole games.
pub fn games_end_by_marker()
    ensures { game_ends.GamesEndByMarker }
{}

/// A game that the end of a text finishes ends there: its marker is the last token.
///
/// The end finishes one game at most.
pub fn texts_end_behind_marker()
    ensures { game_ends.TextsEndBehindMarker }
{
    symbols_stand_in_text();
    games_end_by_marker();
}

/// The output of a text without a fault is that of whole games.
pub fn texts_end_between_games()
    ensures { game_ends.TextsEndBetweenGames }
{
    tokens_rise();
}

/// By the grammar, a text spells exactly the games that are read, if no token is rejected.
///
/// If a token is rejected, the text spells no games.
pub fn unique_reading()
    ensures { unique.UniqueReading }
{
    tokens_rise();
}

/// If an input is the same at both readings, reading it twice gives what reading it once gives.
///
/// A missing Result takes the marker in both.
pub fn equal_readings()
    ensures { equal.EqualReadings }
{
    tokens_rise();
}

/// If an input is the same at both readings, its totals are those of one reading that writes.
///
/// The input has no fault, and a missing Result takes the marker. So `Totals::most_probes` of
/// `convert_checked` is exactly that of its second reading, which writes. The first writes nothing,
/// and tries no more pairs.
pub fn equal_totals()
    ensures { equal.EqualTotals }
{
    tokens_rise();
}

/// If a read or a write fails, or an input is too long, a prefix of the output is written.
///
/// The input is the same at both readings, and a missing Result takes the marker. If `first` stops,
/// what is written is what one reading has written by then. If `second` stops, at least that is
/// written.
pub fn interrupted_readings()
    ensures { equal.InterruptedReadings }
{
    decided_is_prefix();
    tokens_rise();
}

/// A reading that writes nothing tries at most 8 pairs of an origin and a target for one token.
///
/// If no token is rejected, it tries no more than a reading of the same tokens that writes.
pub fn silent_readings()
    ensures { silent.SilentReadings }
{
    candidates_are_few();
    reading_a_form_is_spelling();
}

/// A missing Result that counts as a marker gives what one gives that takes the marker.
///
/// The games, the fault and the export text are the same, unless a marker is rejected since it is
/// not the Result. If that is the first fault, before any game is finished, count a missing Result
/// as this marker: up to it, that gives what taking the marker gives. So it does for tokens that
/// are all accepted, if each of their games ends with this marker.
pub fn missing_results()
    ensures { missing.MissingResults }
{}

/// Each move of the games that are read is legal in its position, inside variations too (FIDE 3).
pub fn moves_are_legal()
    ensures { legality.MovesAreLegal }
{
    the_one_move_is_read();
}

/// Movetext is on lines of at most 79 bytes, and no line breaks too early (PGN 8.2.1).
///
/// Each token has 1 to 79 bytes. On a line the tokens are joined by single spaces, and the first
/// token of the next line has no room on it. The law is of each game that is read of a text, and
/// of the game after them that is not finished.
pub fn movetext_is_on_lines()
    ensures { on_lines.MovetextIsOnLines }
{
    a_legal_move_leaves_a_position();
    a_written_move_is_a_symbol();
    reading_is_spelling();
    tokens_determine_lines();
    tokens_are_sound();
    moves_are_legal();
}

/// The export text of games is read back as these games with their defaults filled in.
///
/// The games come from some text, within the same numbers of pairs and variations. The tag section
/// of each has no more lines than a game may have pairs, and at least the seven of the roster. In
/// the reduced format the games are cut down to what is written (PGN 3.2.4).
pub fn text_spells()
    ensures { fixed.TextSpells }
{
    the_one_move_is_read();
    a_legal_move_leaves_a_position();
    a_written_move_is_a_symbol();
    a_written_move_is_read_as_itself();
    numbers_are_symbols();
    reading_is_spelling();
    lines_keep_tokens();
    tokens_are_sound();
    written_tokens_are_read_back();
}

/// Two lists of games have the same export text exactly if they are equal, defaults filled in.
///
/// So a difference of exports is a difference of games. The premises are those of `text_spells` for
/// both lists: the games come from some text, and there is room for the tag lines of each.
pub fn same_text()
    ensures { fixed.SameText }
{
    the_one_move_is_read();
    a_legal_move_leaves_a_position();
    a_written_move_is_a_symbol();
    a_written_move_is_read_as_itself();
    numbers_are_symbols();
    reading_is_spelling();
    lines_keep_tokens();
    tokens_are_sound();
    written_tokens_are_read_back();
    tokens_rise();
    unique_reading();
}

/// Exporting an export changes nothing: the output is the same text, without a fault.
///
/// This holds in the mode of the export, and with its numbers of pairs and variations. The counts
/// of games and plies are the same too. The premises are those of `text_spells`: the games come
/// from some text, and there is room for the tag lines of each.
pub fn fixed_point()
    ensures { fixed.FixedPoint }
{
    the_one_move_is_read();
    a_legal_move_leaves_a_position();
    a_written_move_is_a_symbol();
    a_written_move_is_read_as_itself();
    numbers_are_symbols();
    reading_is_spelling();
    lines_keep_tokens();
    tokens_are_sound();
    written_tokens_are_read_back();
    tokens_rise();
    unique_reading();
}

/// By their contracts, `convert_slice` and `convert` write an export text again as it is.
///
/// They return its numbers of games and plies. They fail only if a device fails, with
/// `Reason::WriteFault` or, from a source, `Reason::ReadFault`. The text has at most 2^62 bytes,
/// and the other premises are those of `fixed_point`.
pub fn export_is_kept()
    ensures slice { fixed.ExportIsKept }
    ensures source { fixed.ExportIsKeptOfSource }
{
    fixed_point();
}

/// Export is a normal form: two inputs have the same output exactly if their games are the same.
///
/// Converting an output once more changes nothing. The inputs are converted without a fault, in the
/// same mode and with the same numbers of pairs and variations, and there is room for the tag lines
/// of each game. Games are the same if they are equal with their defaults filled in.
pub fn exporting_twice()
    ensures twice { fixed.ExportingTwice }
    ensures same { fixed.SameOutput }
{
    tokens_rise();
    unique_reading();
    same_text();
    fixed_point();
}

/// A game has room for its tag lines if it has eight pairs fewer than a game may have.
///
/// The roster adds at most seven lines, and a FEN one.
pub fn few_pairs_have_room()
    ensures { fixed.FewPairsHaveRoom }
{}
