//! The file system that the program opens and makes files in.
use crate::machine::SystemFault;
use pgn_game::Sink;
use std::io::Read;

/// Opens files by their paths, and makes files in one folder by their names.
pub trait FileSystem {
    ghost use Rattle.std.specs.Prelude.{◌≡◌, ℕ, Bool, List, [], ◌∷◌, Option, IfOk, string_bytes};
    ghost use Rattle.pgn_tool.specs.declared.machine.SystemFault.{SystemFault};
    ghost use Rattle.pgn_tool.specs.Machine.{Holding};
    ghost use Rattle.pgn_tool.specs.Files.{IsNew, added, closed, entered};
    ghost use Rattle.pgn_tool.specs.FileSystem.{Finds, NameStep, making_step, other};

    /// A file that is being read. Dropping it closes it.
    type File: Read + Drop;

    /// A file that is being written. Dropping it closes it.
    type Out: Sink + Drop;

    // What there is under each path.
    ghost holding: { Self → List ℕ → Holding };

    // For which reasons the file of each path may be refused.
    ghost refuses: { Self → List ℕ → SystemFault → Bool };

    // What was done with files so far, in order, if that is reported.
    ghost log: { Self → Option (List NameStep) };

    /// Opens the file with this path, to read it from its first byte.
    ///
    /// # Errors
    ///
    /// The reason why it is not opened.
    fn open(&self, path: &str) -> Result<Self::File, SystemFault>
        ensures { Finds (holding self.now path.now) (refuses self.now path.now)
            Self.File.remaining result };

    /// Makes files in the folder with this path from now on. The folder is not made.
    fn enter(&mut self, folder: String)
        ensures { log self.new
            ≡ added (log self.old) (other (entered (string_bytes folder)) ∷ []) };

    /// Makes the file with this name in the folder.
    ///
    /// A file of that name is replaced.
    ///
    /// # Errors
    ///
    /// The reason why the file is not made.
    fn create(&mut self, name: &str) -> Result<Self::Out, SystemFault>
        ensures log { log self.new ≡ added (log self.old) (making_step name.now result ∷ []) }
        ensures empty { IfOk result (λ out. IsNew (log self.old) (Self.Out.taken out)) }
        ensures fresh { IfOk result (λ out. Self.Out.failures out ≡ 0) };

    /// Closes the file.
    fn close(&mut self, out: Self::Out)
        ensures { log self.new ≡ added (log self.old)
            (other (closed (Self.Out.taken out) (Self.Out.failures out)) ∷ []) };
}
