//! Jack as a language of source files.
ghost use Rattle.jack_tree.specs.Seen.{the_file};
ghost use Rattle.jack_parser.specs.Inner.Long.{class_limited};
ghost use Rattle.jack_parser.specs.Language.{RefusesClass, SpellsFile};

use crate::reading::parse_class;
use jack_tree::Class;
use outer_world::Name;
use source_files::{Language, TextError};
use std::alloc::Global;

/// Jack: a class of the name of its file.
#[derive(Clone, Copy)]
pub struct JackLanguage;

impl Language for JackLanguage {
    type Source = Class;

    ghost spells = { λ _ name text c. SpellsFile name text (the_file c) };

    ghost refuses = { λ _ text told. RefusesClass text told };

    fn read(&self, alloc: Global, name: &str, text: &[u8]) -> Result<Class, TextError> {
        let name = Name::new(alloc, name)?;
        let class = parse_class(alloc, &name, text)?;
        Ok(class)
    }

    ghost limited = { λ _ text long. class_limited text long };
}
