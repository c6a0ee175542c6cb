//! Command lines, and the tasks and texts that answer them.
use pgn_arguments::{ParseFault, Task, parse};
use std::alloc::{AllocError, Global};
use std::process::Abort;
use std::test::Fail;

/// Words, and parts of the answer to them, as `Debug` writes it.
type Row = (&'static [&'static str], &'static [&'static str]);

/// Words, and the task that they ask for.
#[rattlefmt::skip]
const TASKS: &[Row] = &[
    (&["pgn_tool", "export"], &["Ok(Export { reduced: false, file: None })"]),
    (&["pgn_tool", "export", "a.pgn"], &["Ok(Export { reduced: false, file: Some(\"a.pgn\") })"]),
    (&["pgn_tool", "export", "--reduced"], &["Ok(Export { reduced: true, file: None })"]),
    (&["pgn_tool", "export", "--reduced", "a.pgn"],
        &["Ok(Export { reduced: true, file: Some(\"a.pgn\") })"]),
    (&["pgn_tool", "export", "a.pgn", "--reduced"],
        &["Ok(Export { reduced: true, file: Some(\"a.pgn\") })"]),
    (&["pgn_tool", "export", "--", "--reduced"],
        &["Ok(Export { reduced: false, file: Some(\"--reduced\") })"]),
    (&["pgn_tool", "export", "--checked", "a.pgn"],
        &["Ok(Checked { reduced: false, file: \"a.pgn\" })"]),
    (&["pgn_tool", "export", "a.pgn", "--checked", "--reduced"],
        &["Ok(Checked { reduced: true, file: \"a.pgn\" })"]),
    (&["pgn_tool", "export", "--checked", "-"], &["Ok(Checked { reduced: false, file: \"-\" })"]),
    (&["pgn_tool", "check"], &["Ok(Check { file: None })"]),
    (&["pgn_tool", "check", "a.pgn"], &["Ok(Check { file: Some(\"a.pgn\") })"]),
    (&["/usr/bin/other", "check", "-"], &["Ok(Check { file: Some(\"-\") })"]),
    (&["pgn_tool", "list"], &["Ok(List { file: None })"]),
    (&["pgn_tool", "list", "a.pgn"], &["Ok(List { file: Some(\"a.pgn\") })"]),
    (&["pgn_tool", "split", "games"], &["Ok(Split { dir: \"games\", file: None })"]),
    (&["pgn_tool", "split", "games", "a.pgn"],
        &["Ok(Split { dir: \"games\", file: Some(\"a.pgn\") })"]),
    (&["pgn_tool", "split", "--", "-d", "-"], &["Ok(Split { dir: \"-d\", file: Some(\"-\") })"]),
];

/// Words that are rejected, and parts of the reason.
#[rattlefmt::skip]
const REJECTED: &[Row] = &[
    (&["pgn_tool", "export", "--checked"], &["Err(Bad(\"--checked needs FILE\\n\"))"]),
    (&["pgn_tool", "export", "--reduced", "--checked"], &["Err(Bad(\"--checked needs FILE\\n\"))"]),
    (&["pgn_tool", "export", "--checked", "--checked", "a"],
        &["Err(Bad(", "cannot be used multiple times", "Usage: pgn_tool"]),
    (&["pgn_tool", "list", "--checked", "a"],
        &["Err(Bad(", "unexpected argument '--checked'", "Usage: pgn_tool"]),
    (&["pgn_tool", "list", "a", "b"], &["Err(Bad(", "unexpected argument 'b'", "Usage: pgn_tool"]),
    (&["pgn_tool", "split"], &["Err(Bad(", "<DIR>", "Usage: pgn_tool"]),
    (&["pgn_tool", "split", "a", "b", "c"],
        &["Err(Bad(", "unexpected argument 'c'", "Usage: pgn_tool"]),
    (&[], &["Err(Bad(", "requires a subcommand", "Usage: pgn_tool"]),
    (&["pgn_tool"], &["Err(Bad(", "requires a subcommand", "Usage: pgn_tool"]),
    (&["pgn_tool", "export", "a", "b"],
        &["Err(Bad(", "unexpected argument 'b'", "Usage: pgn_tool"]),
    (&["pgn_tool", "check", "--reduced"],
        &["Err(Bad(", "unexpected argument '--reduced'", "Usage: pgn_tool"]),
    (&["pgn_tool", "--reduced", "export"],
        &["Err(Bad(", "unexpected argument '--reduced'", "Usage: pgn_tool"]),
    (&["pgn_tool", "export", "--reduced", "--reduced"],
        &["Err(Bad(", "cannot be used multiple times", "Usage: pgn_tool"]),
    (&["pgn_tool", "export", "--reduced=yes"],
        &["Err(Bad(", "unexpected value 'yes'", "Usage: pgn_tool"]),
    (&["pgn_tool", "convert"],
        &["Err(Bad(", "unrecognized subcommand 'convert'", "Usage: pgn_tool"]),
    (&["pgn_tool", "help"], &["Err(Bad(", "unrecognized subcommand 'help'", "Usage: pgn_tool"]),
];

/// Words that ask for help or the version, and parts of the text.
#[rattlefmt::skip]
const SHOWN: &[Row] = &[
    (&["pgn_tool", "split", "--help"],
        &["Err(Help(", "Usage: pgn_tool split", "<DIR>", "[FILE]", "000001.pgn"]),
    (&["pgn_tool", "--help"],
        &["Err(Help(", "export", "check", "list", "--version", "Usage: pgn_tool <COMMAND>",
            "pgn_tool export games.pgn > clean.pgn", "2  the arguments are rejected"]),
    (&["pgn_tool", "-h"], &["Err(Help(", "export", "check"]),
    (&["pgn_tool", "export", "--help"],
        &["Err(Help(", "Usage: pgn_tool export", "--reduced", "--checked", "is opened twice",
            "[FILE]", "standard input"]),
    (&["pgn_tool", "check", "--help"],
        &["Err(Help(", "Usage: pgn_tool check", "[FILE]", "standard input"]),
    (&["pgn_tool", "list", "--help"],
        &["Err(Help(", "Usage: pgn_tool list", "[FILE]", "standard input"]),
    (&["pgn_tool", "--version"], &["Err(Help(", "pgn_tool "]),
];

/// The rows, each behind a call of its own, so that no proof of a loop sees all their bytes.
fn tasks() -> &'static [Row] {
    TASKS
}

fn rejected() -> &'static [Row] {
    REJECTED
}

fn shown() -> &'static [Row] {
    SHOWN
}

/// The answer to the words, as `Debug` writes it.
fn answer_text(alloc: Global, words: &[&str]) -> Result<String, AllocError> {
    let answer = parse(alloc, words);
    format!(in alloc; "{answer:?}")
}

/// The text that answers the words has each of these parts.
fn has_parts(rt: &impl Abort, words: &[&str], text: &str, parts: &[&str]) {
    for part in parts {
        assert!(rt; text.contains(*part), "{part} at {words:?}: {text}");
    }
}

#[test]
fn answers_words(rt: HostRuntime) -> Result<(), Fail> {
    for rows in [tasks(), rejected(), shown()] {
        for &(words, parts) in rows {
            let text = answer_text(rt.alloc(), words)?;
            has_parts(&rt, words, text.as_str(), parts);
        }
    }
    Ok(())
}

/// Words, and the first and the last part of the text that answers them.
const TEXTS: &[(&[&str], &str, &str)] = &[
    (&["pgn_tool", "export", "--reduced", "a.pgn"], "", ""),
    (&["pgn_tool", "--help"], "Converts", "out of memory\n"),
    (&["pgn_tool", "export", "--checked"], "--checked", " FILE\n"),
    (
        &["pgn_tool", "check", "a", "b"],
        "error: unexpected argument 'b' found",
        "For more information, try '--help'.\n",
    ),
];

// Whether the answer is that there is no memory, or the same as with ample memory.
fn is_right(answer: &Result<Task, ParseFault>, first: &str, last: &str) -> bool {
    match answer {
        Ok(Task::Export { reduced, file }) => *reduced && file.as_deref() == Some("a.pgn"),
        Ok(_) => false,
        Err(ParseFault::NoMemory) => true,
        Err(ParseFault::Help(text) | ParseFault::Bad(text)) => {
            !first.is_empty() && text.starts_with(first) && text.ends_with(last)
        }
    }
}

// Also with any one allocation refused.
#[test]
fn answers_the_same_or_no_memory(rt: HostRuntime) {
    for (words, first, last) in TEXTS {
        let answer = parse(rt.alloc(), words);
        assert!(rt; is_right(&answer, first, last), "at {words:?}");
    }
}
