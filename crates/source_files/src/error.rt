//! Why a source is not loaded.
ghost use Rattle.std.specs.Prelude.{◌≡◌};
ghost use Rattle.source_files.specs.Faults.{read_error};
ghost use Rattle.source_files.specs.Loads.{Refused, TellsOf, text_error};
ghost use Rattle.source_files.specs.declared.error.LoadError.TheVariants.{Memory};
ghost use Rattle.source_files.specs.declared.error.TextError.TheVariants as text;

use grammar::ReadError;
use outer_world::{Diagnostic, Name};
use std::alloc::{AllocError, AllocFailed, Global};

/// Why a text is not read: the diagnostic of its fault, or want of memory.
#[derive(Drop)]
pub enum TextError {
    Refused(Diagnostic),
    Memory,
}

/// Why a text or a folder is refused: its path, and the diagnostic of its fault.
#[derive(Drop)]
pub struct Refusal {
    pub path: Name,
    pub diagnostic: Diagnostic,
}

/// Why a source is not loaded: a refusal, a fault of the shelf, or want of memory.
#[derive(Drop)]
pub enum LoadError {
    Refused(Refusal),
    Failed,
    Memory,
}

impl From<AllocError> for TextError {
    ghost from_gives = { λ _ e. e ≡ text.Memory };

    fn from(_: AllocError) -> Self {
        TextError::Memory
    }
}

impl From<ReadError> for TextError {
    ghost from_gives = { λ error e. e ≡ read_error error };

    fn from(error: ReadError) -> Self {
        match error {
            ReadError::Memory => TextError::Memory,
            ReadError::Fault(fault) => TextError::Refused(fault.diagnostic()),
        }
    }
}

impl From<AllocError> for LoadError {
    ghost from_gives = { λ _ e. e ≡ Memory };

    fn from(_: AllocError) -> Self {
        LoadError::Memory
    }
}

impl<T: Drop> From<AllocFailed<T>> for LoadError {
    ghost from_gives = { λ _ e. e ≡ Memory };

    fn from(_: AllocFailed<T>) -> Self {
        LoadError::Memory
    }
}

impl TextError {
    /// The diagnostic of a fault is why; where it has none, memory is wanting.
    pub fn of_diagnostic(diagnostic: Option<Diagnostic>) -> TextError
        ensures { result ≡ text_error diagnostic }
    {
        match diagnostic {
            Some(diagnostic) => TextError::Refused(diagnostic),
            None => TextError::Memory,
        }
    }
}

impl LoadError {
    /// The diagnostic of a fault of what stands at a path is its refusal; where it has none, memory is
    /// wanting.
    pub fn of_diagnostic(alloc: Global, path: &str, diagnostic: Option<Diagnostic>) -> LoadError
        ensures { TellsOf path.now diagnostic result }
    {
        match diagnostic {
            Some(diagnostic) => LoadError::refused(alloc, path, diagnostic),
            None => LoadError::Memory,
        }
    }

    /// The refusal of what stands at a path.
    pub fn refused(alloc: Global, path: &str, diagnostic: Diagnostic) -> LoadError
        ensures { Refused path.now diagnostic result }
    {
        match Name::new(alloc, path) {
            Ok(path) => LoadError::Refused(Refusal { path, diagnostic }),
            Err(_) => LoadError::Memory,
        }
    }
}
