//! Texts of the source. A short one stands in the value itself, so it wants no memory of its own.

ghost use Rattle.std.specs.Prelude.{◌≡◌, ◌≤◌, IfOk, IsOk, List, length, ℕ};
ghost use Rattle.jack_tree.specs.Kept.{kept_text};

use crate::short::{MOST_SHORT, Short, bytes_of, make_short, str_of};
use outer_world::Name;
use std::alloc::{AllocError, Global};
use std::marker::Model;

#[derive(Debug, Drop)]
enum Kept {
    Short(Short),
    Long(Box<Name>),
}

/// A name or a string of the source.
#[derive(Debug, Drop)]
pub struct Text {
    kept: Kept,
}

// There are more names than anything else.
const _: () = prove!(size_of::<Text>() == 16);

impl Model for Text {
    ghost Value = { List ℕ };

    ghost view = { λ t. kept_text t.kept };
}

impl Text {
    /// The text that a string is. One of at most 14 bytes wants no memory.
    pub fn new(alloc: Global, text: &str) -> Result<Text, AllocError>
        ensures text { IfOk result (λ t. t ≡ text.now) }
        ensures short { length text.now ≤ 14 → IsOk result }
    {
        let kept = if text.len() <= MOST_SHORT {
            Kept::Short(make_short(text))
        } else {
            Kept::Long(Box::new(alloc, Name::new(alloc, text)?)?)
        };
        Ok(Text { kept })
    }

    /// Its bytes.
    pub fn as_bytes(&self) -> &[u8]
        ensures { result.now ≡ self.now }
    {
        match &self.kept {
            Kept::Short(short) => bytes_of(short),
            Kept::Long(name) => name.as_bytes(),
        }
    }

    /// The string that it is.
    pub fn as_str(&self) -> &str
        ensures { result.now ≡ self.now }
    {
        match &self.kept {
            Kept::Short(short) => str_of(short),
            Kept::Long(name) => name.as_str(),
        }
    }

    /// The name that the text is.
    pub fn name(&self, alloc: Global) -> Result<Name, AllocError>
        ensures { IfOk result (λ name. name ≡ self.now) }
    {
        Name::new(alloc, self.as_str())
    }
}
