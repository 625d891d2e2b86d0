//! Why a key script is not read.

ghost use Rattle.std.specs.Prelude.{◌≡◌};
ghost use Rattle.key_script.specs.Faults.{key_error, key_fault, key_message};

use grammar::{Fault, ReadError};
use outer_world::{Detail, Diagnostic};
use scan_text::Place;
use thiserror::Error;

/// What is wrong with a key script, and where: its first fault.
#[derive(Clone, Copy, Debug, PartialEq, Eq, Error)]
pub enum KeyFault {
    /// No token begins here, or a line cannot have the token here.
    #[error("{line}:{column}: Grammar", line = .0.line, column = .0.column)]
    Grammar(Place),
    /// A moment or a code is past its limit here. The number is its value, at most 1,000,000,000.
    #[error("{line}:{column}: Range {1}", line = .0.line, column = .0.column)]
    Range(Place, u32),
    /// The moment here is not above the one before.
    #[error("{line}:{column}: NotRising", line = .0.line, column = .0.column)]
    NotRising(Place),
}

impl KeyFault {
    /// The diagnostic of the fault.
    pub fn diagnostic(self) -> Diagnostic
        ensures { result ≡ key_message self }
    {
        match self {
            KeyFault::Grammar(at) => Fault::Grammar(at).diagnostic(),
            KeyFault::Range(at, value) => Fault::Range(at, value).diagnostic(),
            KeyFault::NotRising(at) => Diagnostic::at(
                at.line,
                at.column,
                "NotRising",
                Detail::Nothing,
            ),
        }
    }

    // What a fault of the grammar is of a key script: past a limit of 0 is a moment that does not rise.
    fn of_grammar(fault: Fault) -> KeyFault
        ensures { result ≡ key_fault fault }
    {
        match fault {
            Fault::Grammar(at) => KeyFault::Grammar(at),
            Fault::Range(at, value) => {
                if value == 0 {
                    KeyFault::NotRising(at)
                } else {
                    KeyFault::Range(at, value)
                }
            }
        }
    }
}

/// Why a key script was not read: memory ran out, or it has a fault.
#[derive(Debug, Drop, Error)]
pub enum KeyError {
    #[error("want of memory")]
    Memory,
    #[error(transparent)]
    Fault(KeyFault),
}

impl From<ReadError> for KeyError {
    ghost from_gives = { λ r e. e ≡ key_error r };

    fn from(r: ReadError) -> KeyError {
        match r {
            ReadError::Memory => KeyError::Memory,
            ReadError::Fault(fault) => KeyError::Fault(KeyFault::of_grammar(fault)),
        }
    }
}
