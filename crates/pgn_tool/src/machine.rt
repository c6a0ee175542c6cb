//! What a machine gives to a run of the program, beside the files that games are written to.
use crate::files::GameFiles;
use pgn_game::{Sink, Source};
use std::alloc::AllocError;
use std::io;
use std::io::ErrorKind;

/// Why the system does not give words or a file.
#[derive(Clone, Copy, Debug, PartialEq, Eq)]
pub enum SystemFault {
    /// It refuses them.
    Refused,
    /// There is no memory for them.
    NoMemory,
}

impl From<io::Error> for SystemFault {
    ghost use Rattle.std.specs.Prelude.{◌≡◌};
    ghost use Rattle.std.specs.IoError.{error_kind};
    ghost use Rattle.pgn_tool.specs.Machine.{fault_of_kind};

    ghost from_gives = { λ error fault. fault ≡ fault_of_kind (error_kind error) };

    fn from(error: io::Error) -> SystemFault {
        match error.kind() {
            ErrorKind::OutOfMemory => SystemFault::NoMemory,
            _ => SystemFault::Refused,
        }
    }
}

impl From<AllocError> for SystemFault {
    ghost use Rattle.std.specs.Prelude.{◌≡◌};
    ghost use Rattle.pgn_tool.specs.declared.machine.SystemFault.TheVariants.{NoMemory};

    ghost from_gives = { λ _ fault. fault ≡ NoMemory };

    fn from(_error: AllocError) -> SystemFault {
        SystemFault::NoMemory
    }
}

/// Standard input, or a file in its place.
pub trait Input: Source {
    ghost use Rattle.std.specs.Prelude.{ℕ, Bool, List};
    ghost use Rattle.pgn_tool.specs.declared.machine.SystemFault.{SystemFault};
    ghost use Rattle.pgn_tool.specs.Machine.{Holding, Opens};
    ghost use Rattle.pgn_layout.specs.Device.{device};

    // What there is under each name.
    ghost holding: { Self → List ℕ → Holding };

    // For which reasons the file of each name may be refused.
    ghost refuses: { Self → List ℕ → SystemFault → Bool };

    /// Opens the file with this name. From then on it is read, from its first byte.
    ///
    /// # Errors
    ///
    /// The reason why it is not opened. The input stays as it is.
    fn open(&mut self, name: &str) -> Result<(), SystemFault>
        ensures { Opens (holding self.old name.now) (refuses self.old name.now)
            (device Self.left Self.failures self.old self.new) result };
}

/// Standard output.
pub trait Output: Sink {
    ghost use Rattle.std.specs.Prelude.{◌≡◌, Bool, true, false, IsSome, OnErr, OnOk};

    // There was no memory for the buffer.
    ghost lacks_memory: { Self → Bool };

    /// Makes a buffer for what is written from now on; `AllocError` if there is no memory for it.
    fn reserve(&mut self) -> Result<(), AllocError>
        ensures taken { Self.taken self.new ≡ Self.taken self.old }
        ensures failures { Self.failures self.new ≡ Self.failures self.old }
        ensures kept { Self.unflushed self.new ≡ Self.unflushed self.old }
        ensures short { OnErr result (lacks_memory self.new ≡ true) }
        ensures room { OnOk result (lacks_memory self.new ≡ false) };

    // It always reports the bytes that are not flushed yet.
    ghost reports: { (out : Self) → IsSome (Self.unflushed out) };
}

/// Files of games, in a folder.
pub trait GameFolder: GameFiles {
    ghost use Rattle.std.specs.Prelude.{◌≡◌, [], ◌∷◌, string_bytes};
    ghost use Rattle.pgn_tool.specs.Files.{added, entered};

    /// Makes files in the folder with this path from now on. The folder is not made.
    fn enter(&mut self, path: String)
        ensures { Self.log self.new
            ≡ added (Self.log self.old) (entered (string_bytes path) ∷ []) };
}

/// The devices of a run.
#[derive(Drop)]
pub struct Devices<I, O, F, E> {
    /// Standard input, or the file that is read in its place.
    pub input: I,
    /// What the file is read from that is opened once more.
    pub second: I,
    pub out: O,
    pub files: F,
    pub err: E,
}
