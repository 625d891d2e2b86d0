//! Key scripts as a language of source files.
ghost use Rattle.key_script.specs.Grammar.{Spells};
ghost use Rattle.key_script.specs.Inner.Long.{keys_limited};
ghost use Rattle.key_script.specs.Language.{RefusesKeys};

use crate::fault::KeyError;
use crate::keys::{Keys, read_keys};
use source_files::{Language, TextError};
use std::alloc::Global;

/// Key scripts.
#[derive(Clone, Copy)]
pub struct KeyLanguage;

impl Language for KeyLanguage {
    type Source = Keys;

    ghost spells = { λ _ name text keys. Spells text keys };

    ghost refuses = { λ _ text told. RefusesKeys text told };

    fn read(&self, alloc: Global, _name: &str, text: &[u8]) -> Result<Keys, TextError> {
        match read_keys(alloc, text) {
            Ok(keys) => Ok(keys),
            Err(KeyError::Fault(fault)) => Err(TextError::Refused(fault.diagnostic())),
            Err(KeyError::Memory) => Err(TextError::Memory),
        }
    }

    ghost limited = { λ _ text long. keys_limited text long };
}
