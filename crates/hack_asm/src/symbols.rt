//! The addresses of symbols.

ghost use Rattle.std.specs.Prelude.{◌≡◌, ◌++◌, ◌∷◌, [], None, OnOk, length, map};
ghost use Rattle.hack_asm.specs.Program.{predefined_value, address_among, entry_of, with_entry, address_in};
ghost use Rattle.hack_asm.specs.Entered.{table_of, seen_entry};

use indexmap::IndexMap;
use std::alloc::{AllocError, Global};
use word16::{KEYBOARD, SCREEN};

// The symbols that each program has.
const PREDEFINED: &[(&'static [u8], usize)] = &[
    (b"R0", 0),
    (b"R1", 1),
    (b"R2", 2),
    (b"R3", 3),
    (b"R4", 4),
    (b"R5", 5),
    (b"R6", 6),
    (b"R7", 7),
    (b"R8", 8),
    (b"R9", 9),
    (b"R10", 10),
    (b"R11", 11),
    (b"R12", 12),
    (b"R13", 13),
    (b"R14", 14),
    (b"R15", 15),
    (b"SP", 0),
    (b"LCL", 1),
    (b"ARG", 2),
    (b"THIS", 3),
    (b"THAT", 4),
    (b"SCREEN", SCREEN as usize),
    (b"KBD", KEYBOARD as usize),
];

// The address that the first row of this name has.
fn address_among(rows: &[(&[u8], usize)], name: &[u8]) -> Option<usize>
    ensures { result ≡ address_among (map seen_entry rows.now) name.now }
{
    for row in rows {
        if row.0 == name {
            return Some(row.1);
        }
    }
    None
}

fn predefined(name: &[u8]) -> Option<usize>
    ensures { result ≡ predefined_value name.now }
{
    address_among(PREDEFINED, name)
}

/// Symbols with their addresses, in the order in which they were entered.
pub struct Symbols<'a> {
    entries: IndexMap<&'a [u8], usize>,
}

// By hand, so that whoever drops one calls this.
impl Drop for Symbols<'_> {
    fn drop(self) {
        let Symbols { entries: _ } = self;
    }
}

impl<'a> Symbols<'a> {
    pub fn new(alloc: Global) -> Symbols<'a>
        ensures { table_of result ≡ [] }
    {
        Symbols {
            entries: IndexMap::new(alloc),
        }
    }

    /// The address of a symbol that is entered.
    pub fn entry(&self, name: &'a [u8]) -> Option<usize>
        ensures { result ≡ entry_of (table_of self.now) name.now }
    {
        self.entries.get(&name).copied()
    }

    /// The address of a symbol that is predefined or entered.
    pub fn address(&self, name: &'a [u8]) -> Option<usize>
        ensures { result ≡ address_in (table_of self.now) name.now }
    {
        match predefined(name) {
            Some(n) => Some(n),
            None => self.entry(name),
        }
    }

    /// The number of symbols that are entered.
    pub fn len(&self) -> usize
        ensures { result ≡ length (table_of self.now) }
    {
        self.entries.len()
    }

    /// Enters a symbol that is not entered.
    pub fn enter(&mut self, name: &'a [u8], address: usize) -> Result<(), AllocError>
        requires { entry_of (table_of self.old) name.now ≡ None }
        ensures { OnOk result
            (table_of self.new ≡ with_entry (table_of self.old) name.now address) }
    {
        match self.entries.insert(name, address) {
            Ok(_) => Ok(()),
            Err(_) => Err(AllocError),
        }
    }
}
