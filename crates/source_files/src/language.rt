//! Languages, by what their texts are read as.
ghost use Rattle.std.specs.Prelude.{◌<◌, ℕ, List, IfOk, IfErr, length};
ghost use Rattle.outer_world.specs.Refusals.{Message};
ghost use Rattle.source_files.specs.Loads.{IsWhy};
ghost use Rattle.source_files.specs.Sources.{past_limit};

use crate::error::TextError;
use std::alloc::Global;

/// The reader of a language.
pub trait Language {
    /// What a text is read as.
    type Source: Drop;

    /// The text of a file of this name spells this source.
    ghost spells: { Self → List ℕ → List ℕ → Self.Source → Type 0 };

    /// The text is refused, and this says why.
    ghost refuses: { Self → List ℕ → Message → Type 0 };

    /// What the text of a file of this name spells, or why it is refused.
    fn read(&self, alloc: Global, name: &str, text: &[u8]) -> Result<Self::Source, TextError>
        ensures spelled { IfOk result (spells self.now name.now text.now) }
        ensures refused { IfErr result (IsWhy (refuses self.now text.now)) };

    /// A text past the limit is refused, without a place.
    ghost limited: { (language : Self) (text : List ℕ) → 1048576 < length text
        → refuses language text past_limit };
}
