//! Test scripts as a language of source files.
ghost use Rattle.script_parser.specs.Inner.Long.{script_limited};
ghost use Rattle.script_parser.specs.Language.{RefusesScript};
ghost use Rattle.script_parser.specs.Trees.{Spells, commands_of};

use crate::reading::parse_script;
use crate::tree::Command;
use source_files::{Language, TextError};
use std::alloc::Global;

/// Test scripts.
#[derive(Clone, Copy)]
pub struct ScriptLanguage;

impl Language for ScriptLanguage {
    type Source = Vec<Command>;

    ghost spells = { λ _ name text commands. Spells text (commands_of commands.items) };

    ghost refuses = { λ _ text told. RefusesScript text told };

    fn read(&self, alloc: Global, _name: &str, text: &[u8]) -> Result<Vec<Command>, TextError> {
        let commands = parse_script(alloc, text)?;
        Ok(commands)
    }

    ghost limited = { λ _ text long. script_limited text long };
}
