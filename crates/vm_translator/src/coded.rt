//! Translated programs.
ghost use Rattle.std.specs.Prelude.{◌≡◌};
ghost use Rattle.vm_translator.specs.Messages.{code_message};
ghost use Rattle.vm_translator.specs.declared.coded.CodeFault.TheVariants.{Memory};

use hack_isa::Instr;
use image_map::ImageMap;
use outer_world::{Detail, Diagnostic, List};
use std::alloc::AllocError;
use thiserror::Error;

/// A program's instructions, from address 0 on, with the map of their image.
#[derive(Drop)]
pub struct Coded {
    pub instrs: List<Instr>,
    pub map: ImageMap,
}

/// Why a program has no code.
#[derive(Debug, Drop, Error)]
pub enum CodeFault {
    /// It would have this many words, which are more than 32,768. (2^64 - 1 where they are more than
    /// that.)
    #[error("TooLarge {0}")]
    TooLarge(u64),
    #[error("want of memory")]
    Memory,
}

impl CodeFault {
    /// The diagnostic of the fault. Want of memory has none.
    pub fn diagnostic(self) -> Option<Diagnostic>
        ensures { result ≡ code_message self }
    {
        match self {
            CodeFault::TooLarge(words) => Some(Diagnostic::nowhere(
                "TooLarge",
                Detail::Number(words),
            )),
            CodeFault::Memory => None,
        }
    }
}

impl From<AllocError> for CodeFault {
    ghost from_gives = { λ _ e. e ≡ Memory };

    fn from(_e: AllocError) -> CodeFault {
        CodeFault::Memory
    }
}
