//! Why a line is not done, and its messages on err.
ghost use Rattle.std.specs.Prelude.{◌≡◌};
ghost use Rattle.outer_world.specs.Written.{Puts};
ghost use Rattle.outer_world.specs.Texts.{read_fault_line, usage_line, want_of_memory_line};
ghost use Rattle.tst_runner.specs.Verdicts.{difference_line};
ghost use Rattle.source_files.specs.Loads.{line_of};
ghost use Rattle.source_files.specs.declared.error.LoadError.TheVariants.{Memory};
ghost use Rattle.nand_cli.specs.Inner.Parts.{finish_result};
ghost use Rattle.nand_cli.specs.declared.failure.Failure.TheVariants.{Unloaded};

use outer_world::{Put, Sink};
use source_files::{LoadError, Refusal};
use std::alloc::{AllocError, AllocFailed};
use tst_runner::Difference;

/// Why a line is not done. What it needs is not loaded or made, a line differs from the one to compare it with, or out
/// could not be written, or an echo on err.
#[derive(Drop)]
pub enum Failure {
    Unloaded(LoadError),
    Differs(Difference),
    Out,
    Echo,
}

impl From<LoadError> for Failure {
    ghost from_gives = { λ e f. f ≡ Unloaded e };

    fn from(error: LoadError) -> Self {
        Failure::Unloaded(error)
    }
}

impl From<AllocError> for Failure {
    ghost from_gives = { λ _ f. f ≡ Unloaded Memory };

    fn from(_: AllocError) -> Self {
        Failure::Unloaded(LoadError::Memory)
    }
}

impl<T: Drop> From<AllocFailed<T>> for Failure {
    ghost from_gives = { λ _ f. f ≡ Unloaded Memory };

    fn from(_: AllocFailed<T>) -> Self {
        Failure::Unloaded(LoadError::Memory)
    }
}

/// How a line ends with the last that it puts on out.
pub fn finished(put: Put) -> Result<(), Failure>
    ensures { result ≡ finish_result put }
{
    match put {
        Put::Done => Ok(()),
        Put::Failed => Err(Failure::Out),
    }
}

/// Puts the line of a refusal.
pub fn tell_refusal<E: Sink>(refusal: &Refusal, err: &mut E) -> Put
    ensures { Puts (E.state err.old) (E.state err.new) (line_of refusal.now) result }
{
    refusal.diagnostic.put(refusal.path.as_str(), err)
}

/// Puts the message of a line that differs.
pub fn tell_difference<E: Sink>(difference: &Difference, err: &mut E) -> Put
    ensures { Puts (E.state err.old) (E.state err.new) (difference_line difference.now) result }
{
    difference.put(err)
}

/// Puts the line that says that the words are no line.
pub fn tell_usage<E: Sink>(err: &mut E) -> Put
    ensures { Puts (E.state err.old) (E.state err.new) usage_line result }
{
    err.put(b"usage: nand COMMAND ARGUMENTS\n")
}

/// Puts the message of a fault of the shelf.
pub fn tell_read_fault<E: Sink>(err: &mut E) -> Put
    ensures { Puts (E.state err.old) (E.state err.new) read_fault_line result }
{
    err.put(b"nand: read fault\n")
}

/// Puts the message of want of memory.
pub fn tell_memory<E: Sink>(err: &mut E) -> Put
    ensures { Puts (E.state err.old) (E.state err.new) want_of_memory_line result }
{
    err.put(b"nand: want of memory\n")
}
