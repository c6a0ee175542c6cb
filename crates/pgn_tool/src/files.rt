//! The files that games are written to.
use pgn_game::Sink;

/// Why a file is not made.
#[derive(Clone, Copy, Debug, PartialEq, Eq)]
pub enum CreateFault {
    /// The system does not make it.
    Refused,
    /// There is no memory for its name or for opening it.
    NoMemory,
}

/// Makes the files that games are written to, one for each game.
pub trait GameFiles {
    ghost use Rattle.std.specs.Prelude.{◌≡◌, List, [], ◌∷◌, Option, IfOk};
    ghost use Rattle.pgn_tool.specs.Files.{FileStep, IsNew, added, closed, creation_step};

    /// A file that is being written. Dropping it closes it.
    type Out: Sink + Drop;

    // What was done with files so far, in order, if that is reported.
    ghost log: { Self → Option (List FileStep) };

    /// Makes the file of the game with this number, from 1.
    ///
    /// A file of that name is replaced.
    ///
    /// # Errors
    ///
    /// The reason why the file is not made.
    fn create(&mut self, number: u64) -> Result<Self::Out, CreateFault>
        ensures log { log self.new ≡ added (log self.old) (creation_step number result ∷ []) }
        ensures empty { IfOk result (λ out. IsNew (log self.old) (Self.Out.taken out)) }
        ensures fresh { IfOk result (λ out. Self.Out.failures out ≡ 0) };

    /// Closes the file.
    fn close(&mut self, out: Self::Out)
        ensures { log self.new ≡ added (log self.old)
            (closed (Self.Out.taken out) (Self.Out.failures out) ∷ []) };
}
