//! Programs of the instruction machine as a language of source files. (The book, chapters 4 and 6.)
ghost use Rattle.std.specs.Prelude.{ℕ, List};
ghost use Rattle.hack_asm.specs.Inner.Long.{words_limited};
ghost use Rattle.hack_asm.specs.Inner.Texts.{ReadsWords};
ghost use Rattle.hack_asm.specs.Language.{SpellsWords, TellsAsmFault};

use crate::assembling::assemble;
use crate::fault::AsmFault;
use crate::hack_reading::read_hack;
use source_files::{Language, TextError};
use std::alloc::Global;

/// The form of the text of a program of the instruction machine.
#[derive(Clone, Copy)]
pub enum Form {
    /// Assembly.
    Assembly,
    /// The text of an image: `.hack`.
    Image,
}

// The words of a text.
fn words_of(alloc: Global, form: Form, text: &[u8]) -> Result<Vec<u16>, AsmFault>
    ensures { ReadsWords form text.now result }
{
    match form {
        Form::Assembly => assemble(alloc, text),
        Form::Image => read_hack(alloc, text),
    }
}

/// Programs of the instruction machine.
#[derive(Clone, Copy)]
pub struct ProgramLanguage {
    pub form: Form,
}

impl Language for ProgramLanguage {
    type Source = Vec<u16>;

    ghost spells = { λ p name text words. SpellsWords p.form text words.items };

    ghost refuses = { λ p text told. TellsAsmFault p.form text told };

    fn read(&self, alloc: Global, _name: &str, text: &[u8]) -> Result<Vec<u16>, TextError> {
        match words_of(alloc, self.form, text) {
            Ok(words) => Ok(words),
            Err(fault) => Err(TextError::of_diagnostic(fault.diagnostic())),
        }
    }

    ghost limited = { λ p text long. words_limited p.form text long };
}
