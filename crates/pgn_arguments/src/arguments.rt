//! The command line: which task the arguments ask for.
ghost use Rattle.std.specs.Prelude.{◌≡◌, IfErr, IfOk, IsSome, false, codes, map, option_map, string_bytes};
ghost use Rattle.clap.specs.Words.{app_of, first_of, found_of, kind_of, rows_of, rule_of, subcommand_rows_of};
ghost use Rattle.pgn_arguments.specs.CommandLine.{check_command, command_line, export_command, file_rule, list_command, split_command};
ghost use Rattle.std.specs.Option.{option_copied};
ghost use Rattle.pgn_arguments.specs.Requests.{AnswersBy, AnswersError, LacksFile, dir_of, export_request, file_of, is_given, request_from, request_in, request_of};
ghost use Rattle.pgn_arguments.specs.declared.arguments.ParseFault.TheVariants.{NoMemory};

use clap::error::ErrorKind;
use clap::{Arg, ArgAction, ArgMatches, Command, Error};
use std::alloc::{AllocError, Global};
use std::convert::AsStr;

const VERSION: &str = "0.1.0";

/// What a call of the program asks for.
#[derive(Debug, PartialEq, Eq, Drop)]
pub enum Task {
    /// Write the games in export format.
    Export {
        /// Write the roster and the moves outside variations alone (PGN 3.2.4).
        reduced: bool,
        /// The file to read; with none, standard input.
        file: Option<String>,
    },
    /// Write the games in export format, where a missing Result takes the marker of its game, and
    /// nothing is written of a game with a fault. The file is opened twice.
    Checked {
        /// Write the roster and the moves outside variations alone (PGN 3.2.4).
        reduced: bool,
        /// The file to read.
        file: String,
    },
    /// Count the games and their moves.
    Check {
        /// The file to read; with none, standard input.
        file: Option<String>,
    },
    /// Write a line for each game.
    List {
        /// The file to read; with none, standard input.
        file: Option<String>,
    },
    /// Write each game to a file of its own.
    Split {
        /// The folder that the files are made in.
        dir: String,
        /// The file to read; with none, standard input.
        file: Option<String>,
    },
}

impl Task {
    /// Returns the file to read; with none, standard input is read.
    pub fn file(&self) -> Option<&str>
        ensures { option_copied result ≡ file_of (request_of self.now) }
    {
        match self {
            Task::Export { file, .. } => file.as_deref(),
            Task::Checked { file, .. } => Some(file.as_str()),
            Task::Check { file } => file.as_deref(),
            Task::List { file } => file.as_deref(),
            Task::Split { file, .. } => file.as_deref(),
        }
    }
}

/// Why the arguments are no task.
#[derive(Debug, PartialEq, Eq, Drop)]
pub enum ParseFault {
    /// They ask for help or the version: the text to show.
    Help(String),
    /// They have a mistake: the text that says so.
    Bad(String),
    /// An allocation failed. This says nothing of the arguments.
    NoMemory,
}

impl From<AllocError> for ParseFault {
    ghost from_gives = { λ _ fault. fault ≡ NoMemory };

    fn from(_error: AllocError) -> ParseFault {
        ParseFault::NoMemory
    }
}

/// Reads the arguments, of which the first is the program's name.
///
/// # Errors
///
/// - `Help` if they ask for `--help` or `--version`.
/// - `Bad` if they are no task. For `export --checked` without FILE the text is this crate's own,
///   `--checked needs FILE` and LF, else that of `clap`.
/// - `NoMemory` only if an allocation failed.
pub fn parse<S: AsStr>(alloc: Global, words: &[S]) -> Result<Task, ParseFault>
    ensures task { IfOk result (λ task. request_in (map S.text words.now)
        ≡ Some (request_of task)) }
    ensures refusal { AnswersBy (map S.text words.now) result }
{
    let command = command_line(alloc)?;
    match command.try_get_matches_from(words) {
        Ok(matches) => task_of(alloc, &matches),
        Err(error) => Err(fault_of(alloc, &error)),
    }
}

// What is said of `export --checked` without FILE, which `clap` accepts.
const NEEDS_FILE: &str = "--checked needs FILE\n";

// The end of the program's help.
const EXAMPLES: &str = "Examples:
  pgn_tool export games.pgn > clean.pgn    Write the games in export format
  pgn_tool check games.pgn                 Count the games, or report the first fault
  pgn_tool list < games.pgn                One line for each game, with tabs
  pgn_tool split folder games.pgn          Write each game to folder/000001.pgn and so on
  pgn_tool export --checked games.pgn      Games without a Result tag, too

Without FILE standard input is read. Never write to the file that is read.
`export --checked` opens FILE twice, so FILE cannot be a pipe.

Exit status:
  0  no fault
  1  a fault of the input or of a device, reported as `byte N: REASON`
  2  the arguments are rejected
  3  out of memory";

// The program's command line, as `specs/CommandLine.antt` has it.
fn command_line<'a>(alloc: Global) -> Result<Command<'a>, AllocError>
    ensures { IfOk result (λ c. app_of c ≡ command_line) }
{
    Command::new(alloc, "pgn_tool")
        .version(VERSION)
        .about("Converts chess games in Portable Game Notation to export format")
        .after_help(EXAMPLES)
        .disable_help_subcommand(true)
        .subcommand_required(true)
        .subcommand(export_command(alloc)?)?
        .subcommand(check_command(alloc)?)?
        .subcommand(list_command(alloc)?)?
        .subcommand(split_command(alloc)?)
}

fn export_command<'a>(alloc: Global) -> Result<Command<'a>, AllocError>
    ensures { IfOk result (λ c. app_of c ≡ export_command) }
{
    let reduced = Arg::new(alloc, "reduced")
        .long("reduced")
        .action(ArgAction::SetTrue)
        .help("Write the roster of seven tags and the moves outside variations alone");
    let checked = Arg::new(alloc, "checked")
        .long("checked")
        .action(ArgAction::SetTrue)
        .help("Let a missing Result be the game's marker; FILE is needed, and is opened twice");
    Command::new(alloc, "export")
        .about("Write the games in export format to standard output")
        .arg(reduced)?
        .arg(checked)?
        .arg(file_argument(alloc))
}

fn check_command<'a>(alloc: Global) -> Result<Command<'a>, AllocError>
    ensures { IfOk result (λ c. app_of c ≡ check_command) }
{
    Command::new(alloc, "check")
        .about("Check the games and count them and their moves")
        .arg(file_argument(alloc))
}

fn list_command<'a>(alloc: Global) -> Result<Command<'a>, AllocError>
    ensures { IfOk result (λ c. app_of c ≡ list_command) }
{
    Command::new(alloc, "list")
        .about("List the games, a line for each")
        .arg(file_argument(alloc))
}

fn split_command<'a>(alloc: Global) -> Result<Command<'a>, AllocError>
    ensures { IfOk result (λ c. app_of c ≡ split_command) }
{
    let dir = Arg::new(alloc, "dir")
        .value_name("DIR")
        .required(true)
        .help("The folder to write to, which has to exist");
    Command::new(alloc, "split")
        .about("Write each game to DIR, given first, as DIR/000001.pgn and so on")
        .arg(dir)?
        .arg(file_argument(alloc))
}

// The file to read, which each subcommand takes.
fn file_argument<'a>(alloc: Global) -> Arg<'a>
    ensures rule { rule_of result ≡ file_rule }
    ensures local { result.global ≡ false }
{
    Arg::new(alloc, "file")
        .value_name("FILE")
        .help("The file to read [default: standard input]")
}

// The task of the subcommand in the arguments.
fn task_of(alloc: Global, matches: &ArgMatches<'_>) -> Result<Task, ParseFault>
    requires { IsSome (request_from (subcommand_rows_of matches.now)) }
    ensures task { IfOk result (λ task. request_from (subcommand_rows_of matches.now)
        ≡ Some (request_of task)) }
    ensures fault { IfErr result (LacksFile (request_from (subcommand_rows_of matches.now))) }
{
    let Some((name, inner)) = matches.subcommand() else {
        unreachable!()
    };
    let file = file_of(alloc, inner)?;
    match name {
        "export" => export_task(
            alloc,
            is_given(inner, "checked"),
            is_given(inner, "reduced"),
            file,
        ),
        "check" => Ok(Task::Check { file }),
        "list" => Ok(Task::List { file }),
        "split" => Ok(Task::Split {
            dir: dir_of(alloc, inner)?,
            file,
        }),
        _ => unreachable!(),
    }
}

// The task of `export`. With `--checked` it is read from a file, which is opened twice.
fn export_task(
    alloc: Global,
    is_checked: bool,
    reduced: bool,
    file: Option<String>,
) -> Result<Task, ParseFault>
    ensures task { IfOk result (λ task.
        export_request is_checked reduced (option_map string_bytes file) ≡ request_of task) }
    ensures fault { IfErr result (LacksFile
        (Some (export_request is_checked reduced (option_map string_bytes file)))) }
{
    if !is_checked {
        return Ok(Task::Export { reduced, file });
    }
    match file {
        Some(file) => Ok(Task::Checked { reduced, file }),
        None => Err(ParseFault::Bad(String::from_str(alloc, NEEDS_FILE)?)),
    }
}

fn is_given(matches: &ArgMatches<'_>, id: &str) -> bool
    ensures { result ≡ is_given id.now (rows_of (found_of matches.now)) }
{
    matches.get_one::<bool>(id).unwrap_or(false)
}

// The folder. It is required, so `clap` rejects arguments without one.
fn dir_of(alloc: Global, matches: &ArgMatches<'_>) -> Result<String, AllocError>
    ensures { IfOk result (λ dir. string_bytes dir ≡ dir_of (rows_of (found_of matches.now))) }
{
    String::from_str(alloc, matches.get_str("dir").unwrap_or(""))
}

fn file_of(alloc: Global, matches: &ArgMatches<'_>) -> Result<Option<String>, AllocError>
    ensures { IfOk result (λ file. option_map string_bytes file
        ≡ first_of (codes "file") (rows_of (found_of matches.now))) }
{
    match matches.get_str("file") {
        Some(name) => Ok(Some(String::from_str(alloc, name)?)),
        None => Ok(None),
    }
}

// The result of `clap` instead of matches.
fn fault_of(alloc: Global, error: &Error) -> ParseFault
    ensures { AnswersError (kind_of error.now) result }
{
    if error.kind() == ErrorKind::OutOfMemory {
        return ParseFault::NoMemory;
    }
    let Ok(text) = error.to_string(alloc) else {
        return ParseFault::NoMemory;
    };
    if error.use_stderr() {
        ParseFault::Bad(text)
    } else {
        ParseFault::Help(text)
    }
}
