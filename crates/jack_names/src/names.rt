//! The names of a program: its classes, and the subroutines of each.

ghost use Rattle.std.specs.Prelude.{◌≡◌, ◌+◌, ◌≤◌, ◌<◌, ◌^◌, ◌++◌, [], length, map, IfOk, OnOk};
ghost use Rattle.name_table.specs.Tables.{table_of};
ghost use Rattle.jack_names.specs.Symbols.{class_numbers, signatures, all_signatures, symbols_of};
ghost use Rattle.jack_names.specs.Limits.{subroutine_count};
ghost use Rattle.jack_names.specs.Inner.Whole.{found_subroutine};
ghost use Rattle.jack_names.specs.Inner.Named.{with_all, the_symbols};

use crate::scope::{Names, Signature};
use jack_tree::{Class, Subroutine};
use name_table::Table;
use std::alloc::{AllocError, Global};

// Enters classes by their numbers, from the first one on.
fn enter_classes<'a>(
    table: &mut Table<'a, u32>,
    first: u32,
    classes: &'a [Class],
) -> Result<(), AllocError>
    requires { first + length classes.now ≤ 2 ^ 31 }
    ensures { OnOk result
        (table_of table.new ≡ with_all (table_of table.old) (class_numbers first classes.now)) }
{
    let mut number = first;
    let mut rest = classes;
    while let Some((class, others)) = rest.split_first() {
        table.enter(class.name.text.as_bytes(), number)?;
        number += 1;
        rest = others;
    }
    Ok(())
}

// The subroutines of a class, numbered from the first one on.
fn signatures_of<'a>(
    alloc: Global,
    first: u32,
    subroutines: &'a [Subroutine],
) -> Result<Table<'a, Signature>, AllocError>
    requires { first + length subroutines.now ≤ 2 ^ 31 }
    ensures { IfOk result (λ t. table_of t ≡ with_all [] (signatures first subroutines.now)) }
{
    let mut table = Table::new(alloc);
    let mut number = first;
    let mut rest = subroutines;
    while let Some((s, others)) = rest.split_first() {
        let signature = Signature {
            number,
            form: s.form,
            parameters: s.parameters.len(),
        };
        table.enter(s.name.text.as_bytes(), signature)?;
        number += 1;
        rest = others;
    }
    Ok(table)
}

// The subroutines of each of these classes. Says which number is the next one.
fn push_signatures<'a>(
    alloc: Global,
    tables: &mut Vec<Table<'a, Signature>>,
    first: u32,
    classes: &'a [Class],
) -> Result<u32, AllocError>
    requires { first + subroutine_count classes.now ≤ 2 ^ 31 }
    ensures next { IfOk result (λ n. n ≡ first + subroutine_count classes.now) }
    ensures tables { OnOk result (map table_of tables.new.items
        ≡ map table_of tables.old.items ++ map (with_all []) (all_signatures first classes.now)) }
{
    let mut number = first;
    let mut rest = classes;
    while let Some((class, others)) = rest.split_first() {
        let table = signatures_of(alloc, number, &class.subroutines)?;
        tables.push(table)?;
        number += class.subroutines.len() as u32;
        rest = others;
    }
    Ok(number)
}

/// The names of the classes of a folder and of the operating system.
pub(crate) fn names_of<'a>(
    alloc: Global,
    own: &'a [Class],
    os: &'a [Class],
) -> Result<Names<'a>, AllocError>
    requires classes { length own.now + length os.now < 2 ^ 31 }
    requires subroutines { subroutine_count own.now + subroutine_count os.now < 2 ^ 31 }
    ensures { IfOk result (λ n. the_symbols n ≡ symbols_of (own.now ++ os.now)) }
{
    let mut classes = Table::new(alloc);
    enter_classes(&mut classes, 0, own)?;
    enter_classes(&mut classes, own.len() as u32, os)?;
    let mut subroutines = Vec::new(alloc);
    let next = push_signatures(alloc, &mut subroutines, 1, own)?;
    push_signatures(alloc, &mut subroutines, next, os)?;
    Ok(Names {
        classes,
        subroutines,
    })
}

impl<'a> Names<'a> {
    /// The number of a class.
    pub(crate) fn class(&self, name: &'a [u8]) -> Option<u32>
        ensures { result ≡ (the_symbols self.now).class name.now }
    {
        self.classes.find(name)
    }

    /// A subroutine of the class of a number.
    pub(crate) fn subroutine(&self, class: u32, name: &'a [u8]) -> Option<Signature>
        ensures { result ≡ (the_symbols self.now).subroutine class name.now }
    {
        match self.subroutines.get(class as usize) {
            None => None,
            Some(table) => table.find(name),
        }
    }

    /// The subroutine of these names.
    pub(crate) fn find(&self, class: &'a [u8], name: &'a [u8]) -> Option<Signature>
        ensures { result ≡ found_subroutine (the_symbols self.now) class.now name.now }
    {
        match self.class(class) {
            None => None,
            Some(class) => self.subroutine(class, name),
        }
    }
}
