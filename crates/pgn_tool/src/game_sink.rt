//! The sink for one game, over the file of that game.
ghost use Rattle.std.specs.Prelude.{◌≡◌, [], ◌∷◌, IfOk};
ghost use Rattle.pgn_tool.specs.declared.game_sink.GameFile.TheVariants.{NotMade};
ghost use Rattle.pgn_tool.specs.Files.{IsBegun, IsNew, added, bytes_in, creation_step, failures_in, making_steps};

use crate::files::{CreateFault, GameFiles};
use pgn_game::{Sink, WriteFault};
use std::marker::{Brand, PhantomData};

/// The file of a game.
#[derive(Drop)]
pub enum GameFile<O> {
    /// It is not made yet.
    NotMade,
    /// It is open.
    Open(O),
    /// It was not made, and so many writes have failed.
    Refused(CreateFault, u64),
}

/// The files, borrowed for one game, and the file of that game.
#[derive(Drop)]
pub struct Turn<'a, F: GameFiles> {
    pub files: &'a mut F,
    pub number: u64,
    pub file: GameFile<F::Out>,
}

impl<'a, F: GameFiles> Turn<'a, F> {
    /// Borrows the files for the game with this number. Its file is not made yet.
    pub fn new(files: &'a mut F, number: u64) -> Turn<'a, F>
        ensures same { result.files.ghost_name ≡ files.entry.ghost_name }
        ensures now { result.files.now ≡ files.old }
        ensures number { result.number ≡ number }
        ensures file { result.file ≡ NotMade }
    {
        Turn {
            files,
            number,
            file: GameFile::NotMade,
        }
    }

    // Makes the file of this game.
    fn create(&mut self) -> Result<F::Out, CreateFault>
        ensures same { self.new.files.ghost_name ≡ self.old.files.ghost_name }
        ensures number { self.new.number ≡ self.old.number }
        ensures file { self.new.file ≡ self.old.file }
        ensures log { F.log self.new.files.now
            ≡ added (F.log self.old.files.now) (creation_step self.old.number result ∷ []) }
        ensures empty { IfOk result (λ out. IsNew (F.log self.old.files.now) (F.Out.taken out)) }
        ensures fresh { IfOk result (λ out. F.Out.failures out ≡ 0) }
    {
        self.files.create(self.number)
    }
}

/// What holds before the game: the borrow, the number of the game, and what was done with files.
pub trait GameBefore {
    ghost use Rattle.std.specs.Prelude.{ℕ, List, Option};
    ghost use Rattle.pgn_tool.specs.Files.{FileStep};

    ghost name: { ℕ };

    ghost number: { ℕ };

    ghost log: { Option (List FileStep) };
}

impl GameBefore for Brand {
    ghost use Rattle.std.specs.Prelude.{None};

    ghost name = { 0 };

    ghost number = { 0 };

    ghost log = { None };
}

/// The sink for one game, whose file is made at its first byte.
#[derive(Drop)]
pub struct GameSink<'a, K: GameBefore, F: GameFiles> {
    pub turn: Turn<'a, F>,
    pub of: PhantomData<K>,
    ghost same: { turn.files.ghost_name ≡ K.name },
    ghost number: { turn.number ≡ K.number },
    ghost log: { F.log turn.files.now ≡ added K.log (making_steps K.number turn.file) },
    ghost begun: { IsBegun F.Out.taken F.Out.failures K.log turn.file },
}

impl<'a, K: GameBefore, F: GameFiles> Sink for GameSink<'a, K, F> {
    ghost taken = { λ s. bytes_in F.Out.taken K.log s.turn.file };

    ghost failures = { λ s. failures_in F.Out.failures s.turn.file };

    fn write_some(&mut self, bytes: &[u8]) -> Result<usize, WriteFault> {
        match &mut self.turn.file {
            GameFile::Open(file) => file.write_some(bytes),
            GameFile::Refused(_, failures) => {
                *failures = failures.saturating_add(1);
                Err(WriteFault)
            }
            GameFile::NotMade => match self.turn.create() {
                Ok(mut file) => {
                    let result = file.write_some(bytes);
                    self.turn.file = GameFile::Open(file);
                    result
                }
                Err(fault) => {
                    self.turn.file = GameFile::Refused(fault, 1);
                    Err(WriteFault)
                }
            },
        }
    }

    fn flush(&mut self) -> Result<(), WriteFault> {
        Ok(())
    }
}
