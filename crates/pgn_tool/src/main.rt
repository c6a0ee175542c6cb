//! The program: converts chess games in Portable Game Notation to export format, or checks, lists
//! or splits them.
#![tactic(auto)]

mod checked;
#[cfg(test)]
mod checked_tests;
#[cfg(test)]
mod devices;
mod file_system;
mod files;
mod folder;
mod game_sink;
mod list;
mod machine;
#[cfg(test)]
mod memory_tests;
mod replies;
mod run;
#[cfg(test)]
mod run_tests;
mod split;
#[cfg(test)]
mod split_tests;
mod standard;
mod stream;
#[cfg(test)]
mod stream_tests;
mod system;

use crate::folder::Folder;
use crate::machine::{Devices, SystemFault};
use crate::standard::{StandardInput, StandardOutput};
use crate::system::System;
use pgn_game::Outlet;
use std::env;
use std::process::ExitCode;

fn main(rt: HostRuntime) -> ExitCode {
    let mut devices = Devices {
        input: StandardInput::new(System::new(rt), rt.stdin()),
        second: StandardInput::new(System::new(rt), rt.stdin()),
        out: StandardOutput::new(rt.alloc(), rt.stdout()),
        files: Folder {
            system: System::new(rt),
        },
        err: Outlet::new(rt.stderr()),
    };
    let status = run::run(rt.alloc(), words_of(rt), &mut devices);
    ExitCode::from(status)
}

// The words of the call, of which the first is the program's name.
fn words_of(rt: HostRuntime) -> Result<Vec<String>, SystemFault> {
    Ok(env::args(&rt)?.collect(rt.alloc())?)
}
