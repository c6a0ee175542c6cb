//! The files of games in a folder, and their names.
ghost use Rattle.std.specs.Prelude.{◌≡◌};
ghost use Rattle.pgn_tool.specs.FileName.{file_name, zeros_before};

use crate::file_system::FileSystem;
use crate::files::{CreateFault, GameFiles};
use crate::machine::{GameFolder, SystemFault};
use arrayvec::ArrayString;
use itoa::Buffer;

/// The folder of a file system that files of games are made in: `000001.pgn` and so on.
#[derive(Drop)]
pub struct Folder<S> {
    pub system: S,
}

impl<S: FileSystem> GameFiles for Folder<S> {
    ghost use Rattle.pgn_tool.specs.FileSystem.{numbered};

    type Out = S::Out;

    ghost log = { λ f. numbered (S.log f.system) };

    fn create(&mut self, number: u64) -> Result<S::Out, CreateFault> {
        match self.system.create(file_name(number).as_str()) {
            Ok(out) => Ok(out),
            Err(SystemFault::Refused) => Err(CreateFault::Refused),
            Err(SystemFault::NoMemory) => Err(CreateFault::NoMemory),
        }
    }

    fn close(&mut self, out: S::Out) {
        self.system.close(out);
    }
}

impl<S: FileSystem> GameFolder for Folder<S> {
    fn enter(&mut self, path: String) {
        self.system.enter(path);
    }
}

/// The name of the file of the game with this number: at least six digits, and `.pgn`.
pub fn file_name(number: u64) -> ArrayString<32>
    ensures { result.bytes ≡ file_name number }
{
    let mut buffer = Buffer::new();
    let digits = buffer.format(number);
    let mut name = ArrayString::new();
    name.push_str(leading_zeros(digits.len()));
    name.push_str(digits);
    name.push_str(".pgn");
    name
}

// The zeros that make a number of so many digits one of six.
fn leading_zeros(digits: usize) -> &'static str
    ensures { result.now ≡ zeros_before digits }
{
    match digits {
        0 => "000000",
        1 => "00000",
        2 => "0000",
        3 => "000",
        4 => "00",
        5 => "0",
        _ => "",
    }
}
