//! Chips by name.

ghost use Rattle.std.specs.Prelude.{◌≡◌};

use crate::{Chip, List, Name};

/// A chip of a library: the name by which parts call it, and the name of the shipped chip that it is, where it is one.
#[derive(Drop)]
pub struct Entry {
    pub name: Name,
    pub chip: Chip,
    pub shipped: Option<Name>,
}

/// Chips by name.
pub struct Library {
    pub entries: List<Entry>,
}

impl Library {
    /// Its chips, one after another.
    pub fn into_entries(self) -> Vec<Entry>
        ensures { result.items ≡ self.entries }
    {
        let Library { entries } = self;
        entries.into_items()
    }
}

// By hand, so that whoever drops one calls this.
impl Drop for Library {
    fn drop(self) {
        let Library { entries: _ } = self;
    }
}
