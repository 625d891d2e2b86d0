//! Where a script stands, and how it ends.

ghost use Rattle.std.specs.Prelude.{◌≡◌};
ghost use Rattle.outer_world.specs.Written.{Puts};
ghost use Rattle.source_files.specs.declared.error.LoadError.TheVariants.{Memory};
ghost use Rattle.tst_runner.specs.Verdicts.{difference_line};
ghost use Rattle.tst_runner.specs.declared.standing.Stop.TheVariants.{Unloaded};

use crate::lines::Column;
use crate::printing::put_through;
use itoa::Buffer;
use outer_world::{Name, Put, Sink};
use script_device::Device;
use source_files::LoadError;
use std::alloc::{AllocError, AllocFailed};

/// A compare file: its path, its text, and where the lines begin that are still to come.
#[derive(Drop)]
pub struct CompareFile {
    pub path: Name,
    pub text: Vec<u8>,
    pub at: usize,
}

/// Where a script stands: its device and the file that this was loaded from, the columns of its output list, its compare file, and how many
/// lines it put.
#[derive(Drop)]
pub struct State {
    pub device: Device,
    pub loaded: Option<Vec<u8>>,
    pub columns: Vec<Column>,
    pub compared: Option<CompareFile>,
    pub lines: u64,
}

/// A line that differs: the path of the compare file, and the line's number, from 1.
#[derive(Drop)]
pub struct Difference {
    pub path: Name,
    pub line: u64,
}

/// Why a script does not go on: what an act needs is not loaded or made, a line differs, or out or err could not be written.
#[derive(Drop)]
pub enum Stop {
    Unloaded(LoadError),
    Differs(Difference),
    Out,
    Err,
}

impl From<LoadError> for Stop {
    ghost from_gives = { λ e s. s ≡ Unloaded e };

    fn from(error: LoadError) -> Self {
        Stop::Unloaded(error)
    }
}

impl From<AllocError> for Stop {
    ghost from_gives = { λ _ s. s ≡ Unloaded Memory };

    fn from(_: AllocError) -> Self {
        Stop::Unloaded(LoadError::Memory)
    }
}

impl<T: Drop> From<AllocFailed<T>> for Stop {
    ghost from_gives = { λ _ s. s ≡ Unloaded Memory };

    fn from(_: AllocFailed<T>) -> Self {
        Stop::Unloaded(LoadError::Memory)
    }
}

impl Difference {
    /// Puts the line that reports it.
    pub fn put<S: Sink>(&self, sink: &mut S) -> Put
        ensures put { Puts (S.state sink.old) (S.state sink.new) (difference_line self.now) result }
    {
        let mut number = Buffer::new();
        put_through(
            &[
                self.path.as_bytes(),
                b":",
                number.format(self.line).as_bytes(),
                b":1: Differs\n",
            ],
            sink,
        )
    }
}
