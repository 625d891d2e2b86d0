ghost use Rattle.std.specs.Prelude.{◌≡◌};
ghost use Rattle.hack_asm.specs.Faults.{asm_fault};
ghost use Rattle.hack_asm.specs.Messages.{asm_message};
ghost use Rattle.hack_asm.specs.declared.fault.AsmFault.TheVariants.{Memory};

use grammar::{Fault, ReadError};
use outer_world::{Detail, Diagnostic};
use scan_text::Place;
use std::alloc::{AllocError, AllocFailed};
use thiserror::Error;

/// Why a text is not assembled.
#[derive(Debug, Drop, Error)]
pub enum AsmFault {
    /// The grammar's first rule stops here, or no token begins here.
    #[error("{line}:{column}: Grammar", line = .0.line, column = .0.column)]
    Grammar(Place),
    /// A number past its limit: one over 32,767, a use of a label that stands at 32,768, a file over 1,048,576 bytes.
    #[error("{line}:{column}: Range {1}", line = .0.line, column = .0.column)]
    Range(Place, u32),
    /// A label that is predefined or stands twice, with its name.
    #[error("{line}:{column}: LabelTwice {name}", line = .1.line, column = .1.column, name = .0.escape_ascii())]
    LabelTwice(Vec<u8>, Place),
    /// The number of words, where that is over 32,768.
    #[error("TooLarge {0}")]
    TooLarge(usize),
    /// The number of variables, where that is over 16,368.
    #[error("TooManyVariables {0}")]
    TooManyVariables(usize),
    #[error("want of memory")]
    Memory,
}

impl AsmFault {
    /// The diagnostic of the fault. Want of memory has none.
    pub fn diagnostic(self) -> Option<Diagnostic>
        ensures { result ≡ asm_message self }
    {
        match self {
            AsmFault::Grammar(at) => Some(Fault::Grammar(at).diagnostic()),
            AsmFault::Range(at, value) => Some(Fault::Range(at, value).diagnostic()),
            AsmFault::LabelTwice(name, at) => {
                Some(Diagnostic::at(at.line, at.column, "LabelTwice", Detail::Name(name)))
            }
            AsmFault::TooLarge(words) => {
                Some(Diagnostic::nowhere("TooLarge", Detail::Number(words as u64)))
            }
            AsmFault::TooManyVariables(count) => {
                Some(Diagnostic::nowhere("TooManyVariables", Detail::Number(count as u64)))
            }
            AsmFault::Memory => None,
        }
    }
}

impl From<AllocError> for AsmFault {
    ghost from_gives = { λ _ e. e ≡ Memory };

    fn from(_e: AllocError) -> AsmFault {
        AsmFault::Memory
    }
}

impl<T: Drop> From<AllocFailed<T>> for AsmFault {
    ghost from_gives = { λ _ e. e ≡ Memory };

    fn from(_e: AllocFailed<T>) -> AsmFault {
        AsmFault::Memory
    }
}

impl From<ReadError> for AsmFault {
    ghost from_gives = { λ r e. e ≡ asm_fault r };

    fn from(r: ReadError) -> AsmFault {
        match r {
            ReadError::Memory => AsmFault::Memory,
            ReadError::Fault(Fault::Grammar(at)) => AsmFault::Grammar(at),
            ReadError::Fault(Fault::Range(at, v)) => AsmFault::Range(at, v),
        }
    }
}
