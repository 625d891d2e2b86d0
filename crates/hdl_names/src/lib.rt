//! Chips that are gathered one after another, with a table of their names.
#![tactic(auto)]

ghost use Rattle.std.specs.Prelude.{◌≡◌, ◌++◌, ◌∷◌, [], OnOk, is_some};
ghost use Rattle.hdl_tree.specs.Chips.{find_entry};
ghost use Rattle.hdl_names.specs.Names.{IsIndexed};

use hdl_tree::{Entry, List};
use indexmap::IndexSet;
use std::alloc::{AllocError, Global};

/// Chips, with a table of their names.
pub struct NamedChips {
    pub entries: Vec<Entry>,
    names: IndexSet<Vec<u8>>,
}

// By hand, so that whoever drops one calls this.
impl Drop for NamedChips {
    fn drop(self) {
        let NamedChips {
            entries: _,
            names: _,
        } = self;
    }
}

impl NamedChips {
    /// No chips.
    pub fn new(alloc: Global) -> NamedChips
        ensures none { result.entries.items ≡ [] }
        ensures indexed { IsIndexed result }
    {
        NamedChips {
            entries: Vec::new(alloc),
            names: IndexSet::new(alloc),
        }
    }

    /// Whether one of them has this name.
    pub fn has(&self, name: &[u8]) -> bool
        requires { IsIndexed self.now }
        ensures { result ≡ is_some (find_entry self.now.entries.items name.now) }
    {
        self.names.contains(name)
    }

    /// One chip more, after the others. Where memory runs out, its name may be in the table, and the chip is not there.
    pub fn push(&mut self, alloc: Global, entry: Entry) -> Result<(), AllocError>
        requires { IsIndexed self.old }
        ensures pushed { OnOk result
            (self.new.entries.items ≡ self.old.entries.items ++ entry ∷ []) }
        ensures indexed { OnOk result (IsIndexed self.new) }
    {
        let name = Vec::from_slice(alloc, entry.name.as_bytes())?;
        match self.names.insert(name) {
            Err(_) => return Err(AllocError),
            Ok(_) => {}
        }
        self.entries.push(entry)?;
        Ok(())
    }

    /// The chips, without the table of their names.
    pub fn into_entries(self) -> List<Entry>
        ensures { result ≡ self.entries.items }
    {
        let NamedChips { entries, names: _ } = self;
        List::of(entries)
    }
}
