//! Tables of names: what was entered first for a name is found.
#![tactic(auto)]

ghost use Rattle.std.specs.Prelude.{◌≡◌, [], OnOk, OnErr, IfOk, not, is_some};
ghost use Rattle.name_table.specs.Names.{find_value, with_new};
ghost use Rattle.name_table.specs.Tables.{table_of};

use indexmap::IndexMap;
use std::alloc::{AllocError, Global};

/// What names stand for: what was entered first for a name is found.
pub struct Table<'a, V> {
    entries: IndexMap<&'a [u8], V>,
}

// By hand, so that whoever drops one calls this.
impl<V: Drop> Drop for Table<'_, V> {
    fn drop(self) {
        let Table { entries: _ } = self;
    }
}

impl<'a, V: Copy + Drop> Table<'a, V> {
    /// An empty table.
    pub fn new(alloc: Global) -> Table<'a, V>
        ensures { table_of result ≡ [] }
    {
        Table {
            entries: IndexMap::new(alloc),
        }
    }

    /// What a name stands for.
    pub fn find(&self, name: &'a [u8]) -> Option<V>
        ensures { result ≡ find_value name.now (table_of self.now) }
    {
        self.entries.get(&name).copied()
    }

    /// Enters a name that is not there. Says whether it was not there. Where memory runs out, the table stays as it was.
    pub fn enter(&mut self, name: &'a [u8], value: V) -> Result<bool, AllocError>
        ensures new { IfOk result
            (λ new. new ≡ not (is_some (find_value name.now (table_of self.old)))) }
        ensures entered { OnOk result
            (table_of self.new ≡ with_new (table_of self.old) name.now value) }
        ensures unchanged { OnErr result (table_of self.new ≡ table_of self.old) }
    {
        match self.find(name) {
            Some(_) => Ok(false),
            None => match self.entries.insert(name, value) {
                Ok(_) => Ok(true),
                Err(_) => Err(AllocError),
            },
        }
    }
}
