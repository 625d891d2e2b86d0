//! Chips as a language of source files.
ghost use Rattle.hdl_parser.specs.Inner.Long.{hdl_limited};
ghost use Rattle.hdl_parser.specs.Language.{RefusesHdl};
ghost use Rattle.hdl_parser.specs.Spells.{Spells};

use crate::reading::parse;
use hdl_tree::Chip;
use source_files::{Language, TextError};
use std::alloc::Global;

/// Chips.
#[derive(Clone, Copy)]
pub struct HdlLanguage;

impl Language for HdlLanguage {
    type Source = Chip;

    ghost spells = { λ _ name text chip. Spells text chip };

    ghost refuses = { λ _ text told. RefusesHdl text told };

    fn read(&self, alloc: Global, _name: &str, text: &[u8]) -> Result<Chip, TextError> {
        let chip = parse(alloc, text)?;
        Ok(chip)
    }

    ghost limited = { λ _ text long. hdl_limited text long };
}
