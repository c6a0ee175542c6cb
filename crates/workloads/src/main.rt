//! The jobs that a user of the libraries waits for, for `bench/run OLD NEW` to time.
//!
//! `workloads JOB COUNT SEED` reads lines of games or of positions from standard input. It makes
//! COUNT games of them, each with another text, and does the job with each once. Then it writes how
//! many games and plies there were, and a digest of all results.
#![tactic(auto)]

mod archive;
mod digest;
mod jobs;
mod movetext;
mod page;
mod random;
mod style;
mod tag_pairs;

use crate::jobs::{Report, run};
use std::env;
use std::io::{self, ErrorKind, Read};

fn main(rt: HostRuntime) -> io::Result<()> {
    let words: Vec<String> = env::args(&rt)?.collect(rt.alloc())?;
    let mut text = Vec::new(rt.alloc());
    let mut input = rt.stdin();
    input.read_to_end(&mut text)?;
    let mut lines = Vec::new(rt.alloc());
    for line in text.as_slice().split(|byte| *byte == b'\n') {
        if !line.is_empty() {
            lines.push(line)?;
        }
    }
    let job = match words.get(1) {
        Some(word) => word.as_str(),
        None => "",
    };
    match run(
        rt.alloc(),
        job,
        lines.as_slice(),
        number(words.get(2)),
        number(words.get(3)),
    )? {
        Some(
            Report {
                games,
                plies,
                digest,
            },
        ) => { println!(rt; "{job}: games {games}, plies {plies}, digest {digest}") }
        None => Err(io::Error::from(ErrorKind::InvalidInput)),
    }
}

/// The number that a word of the call spells, or 0.
fn number(word: Option<&String>) -> u64 {
    match word {
        Some(word) => word.as_str().parse::<u64>().unwrap_or(0),
        None => 0,
    }
}
