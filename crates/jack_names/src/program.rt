//! The names of a whole program.

ghost use Rattle.std.specs.Prelude.{◌≡◌, ◌+◌, ◌≤◌, ◌<◌, ◌^◌, ◌++◌, ◌∷◌, [], length, map, codes, IfOk, OnOk, IsOk, SomeIff, ◌↔◌, ◌-◌};
ghost use Rattle.jack_core.specs.Texts.{the_subroutine, the_class, the_program, names_of, class_names_of};
ghost use Rattle.jack_names.specs.Faults.{Checks};
ghost use Rattle.name_table.specs.Tables.{table_of};
ghost use Rattle.jack_names.specs.Symbols.{fields_of, statics_of, symbols_of};
ghost use Rattle.name_table.specs.Names.{first_of};
ghost use Rattle.jack_names.specs.Limits.{AreWithin, subroutine_count};
ghost use Rattle.jack_names.specs.Inner.Whole.{declared_fault, is_plain, main_fault, all_statics, all_uses_fault, first_name_fault, all_subroutines_meant, start_subroutine, class_meant, program_meant, class_names, names_meant, all_names_meant};
ghost use Rattle.jack_names.specs.Inner.Named.{with_all, the_symbols, marks};
ghost use Rattle.jack_names.specs.Resolved.{Resolves, Tells, the_name, the_class_name};
ghost use Rattle.jack_tree.specs.Seen.{the_file};
ghost use Rattle.jack_names.specs.Meaning.{program_meaning};

use crate::classes::{resolve_classes, resolve_system};
use crate::fault::{File, NO_PLACE, NameError, NameKind, tell};
use crate::kinds::is_function;
use crate::meant::number_by;
use crate::names::names_of;
use crate::scope::{Names, Signature};
use crate::twice::check_declarations;
use crate::variables::{fields_of, left_by, statics_of};
use jack_core::{Class as CoreClass, Core, Kind, Subroutine as CoreSubroutine};
use jack_tree::Class;
use name_table::Table;
use outer_world::Name as Text;
use std::alloc::{AllocError, Global};

// The statics of all classes have numbers below this one.
const MOST_STATICS: usize = 2_147_483_647;

fn mark_classes<'a>(seen: &mut Table<'a, ()>, classes: &'a [Class]) -> Result<(), AllocError>
    ensures { OnOk result (table_of seen.new ≡ with_all (table_of seen.old) (marks classes.now)) }
{
    let mut rest = classes;
    while let Some((class, others)) = rest.split_first() {
        seen.enter(class.name.text.as_bytes(), ())?;
        rest = others;
    }
    Ok(())
}

fn check_declared<'a>(alloc: Global, own: &'a [Class], os: &'a [Class]) -> Result<(), NameError>
    ensures { Checks (declared_fault own.now os.now) result }
{
    let mut seen = Table::new(alloc);
    mark_classes(&mut seen, os)?;
    check_declarations(alloc, false, seen, own)?;
    check_declarations(alloc, true, Table::new(alloc), os)
}

fn is_plain(signature: Option<Signature>) -> bool
    ensures { result ≡ is_plain signature }
{
    match signature {
        None => false,
        Some(signature) => is_function(signature.form) && signature.parameters == 0,
    }
}

fn check_main(alloc: Global, names: &Names) -> Result<(), NameError>
    ensures { Checks (main_fault (the_symbols names.now)) result }
{
    if is_plain(names.find(b"Main".as_slice(), b"main".as_slice())) {
        return Ok(());
    }
    let path = Text::new(alloc, "Main.jack")?;
    let file = File {
        shipped: false,
        name: &path,
    };
    tell(
        alloc,
        file,
        b"Main.main".as_slice(),
        NO_PLACE,
        NameKind::NoMain,
    )
}

// How many statics there are in all classes.
fn all_statics(classes: &[Class]) -> u32
    requires { all_statics classes.now ≤ 2 ^ 31 }
    ensures { result ≡ all_statics classes.now }
{
    let mut n = 0;
    let mut rest = classes;
    while let Some((class, others)) = rest.split_first() {
        n += statics_of(&class.variables);
        rest = others;
    }
    n
}

// How many of these numbers are left after the statics of classes, where they are enough.
fn left_behind(numbers: usize, classes: &[Class]) -> Option<usize>
    ensures { SomeIff result (all_statics classes.now ≤ numbers)
        (numbers - all_statics classes.now) }
{
    let mut left = numbers;
    let mut rest = classes;
    while let Some((class, others)) = rest.split_first() {
        left = left_by(left, &class.variables)?;
        rest = others;
    }
    Some(left)
}

// The statics of all classes have numbers of 32 bits. Where these do not suffice, that is a want of memory.
fn check_statics(own: &[Class], os: &[Class]) -> Result<(), AllocError>
    ensures { IsOk result ↔ (all_statics own.now + all_statics os.now < 2 ^ 31) }
{
    let left = left_behind(MOST_STATICS, own).ok_or(AllocError)?;
    left_behind(left, os).ok_or(AllocError)?;
    Ok(())
}

// The subroutines of all classes, after these.
fn resolve_all<'a>(
    alloc: Global,
    names: &Names<'a>,
    own: &'a [Class],
    os: &'a [Class],
    subroutines: &mut Vec<CoreSubroutine>,
) -> Result<(), NameError>
    requires classes { length own.now + length os.now < 2 ^ 31 }
    requires statics { all_statics own.now + all_statics os.now < 2 ^ 31 }
    requires own { AreWithin own.now }
    requires os { AreWithin os.now }
    ensures checks { Checks (all_uses_fault (the_symbols names.now) own.now os.now) result }
    ensures program { OnOk result
        (map the_subroutine subroutines.new.items ≡ map the_subroutine subroutines.old.items
        ++ all_subroutines_meant (the_symbols names.now) own.now os.now) }
    ensures names { OnOk result (map the_name subroutines.new.items
        ≡ map the_name subroutines.old.items ++ (names_meant own.now ++ names_meant os.now)) }
{
    resolve_classes(alloc, names, false, 0, 0, own, subroutines)?;
    resolve_system(
        alloc,
        names,
        own.len() as u32,
        all_statics(own),
        os,
        subroutines,
    )
}

// Subroutine 0, which no call names.
fn started(alloc: Global) -> Result<Vec<CoreSubroutine>, AllocError>
    ensures program { IfOk result (λ r. map the_subroutine r.items ≡ start_subroutine ∷ []) }
    ensures names { IfOk result (λ r. map the_name r.items ≡ codes "start" ∷ []) }
{
    let start = CoreSubroutine {
        name: Text::new(alloc, "start")?,
        kind: Kind::Function,
        class: 0,
        arguments: 0,
        locals: 0,
        body: Vec::new(alloc),
    };
    Ok(vec![in alloc; start]?)
}

fn class_meant(alloc: Global, class: &Class) -> Result<CoreClass, AllocError>
    requires fields { fields_of class.now.variables.items ≤ 16384 }
    requires statics { statics_of class.now.variables.items ≤ 2 ^ 31 }
    ensures means { IfOk result (λ r. the_class r ≡ class_meant class.now) }
    ensures name { IfOk result (λ r. the_class_name r ≡ class.now.name.text) }
{
    Ok(CoreClass {
        name: class.name.text.name(alloc)?,
        fields: fields_of(&class.variables),
        statics: statics_of(&class.variables),
    })
}

// The classes, after these.
fn push_classes(
    alloc: Global,
    classes: &mut Vec<CoreClass>,
    trees: &[Class],
) -> Result<(), AllocError>
    requires limits { AreWithin trees.now }
    requires statics { all_statics trees.now ≤ 2 ^ 31 }
    ensures means { OnOk result (map the_class classes.new.items
        ≡ map the_class classes.old.items ++ map class_meant trees.now) }
    ensures names { OnOk result (map the_class_name classes.new.items
        ≡ map the_class_name classes.old.items ++ class_names trees.now) }
{
    let mut rest = trees;
    while let Some((class, others)) = rest.split_first() {
        let meant = class_meant(alloc, class)?;
        classes.push(meant)?;
        rest = others;
    }
    Ok(())
}

fn all_classes(alloc: Global, own: &[Class], os: &[Class]) -> Result<Vec<CoreClass>, AllocError>
    requires statics { all_statics own.now + all_statics os.now < 2 ^ 31 }
    requires own { AreWithin own.now }
    requires os { AreWithin os.now }
    ensures means { IfOk result
        (λ r. map the_class r.items ≡ map class_meant own.now ++ map class_meant os.now) }
    ensures names { IfOk result
        (λ r. map the_class_name r.items ≡ class_names own.now ++ class_names os.now) }
{
    let mut classes = Vec::new(alloc);
    push_classes(alloc, &mut classes, own)?;
    push_classes(alloc, &mut classes, os)?;
    Ok(classes)
}

// The program of these names or the first fault, after those of declarations.
fn resolve_named<'a>(
    alloc: Global,
    names: &Names<'a>,
    own: &'a [Class],
    os: &'a [Class],
) -> Result<Core, NameError>
    requires names { the_symbols names.now ≡ symbols_of (own.now ++ os.now) }
    requires classes { length own.now + length os.now < 2 ^ 31 }
    requires statics { all_statics own.now + all_statics os.now < 2 ^ 31 }
    requires own { AreWithin own.now }
    requires os { AreWithin os.now }
    ensures checks { Resolves (first_of (main_fault (symbols_of (own.now ++ os.now)))
        (all_uses_fault (symbols_of (own.now ++ os.now)) own.now os.now)) result }
    ensures program { IfOk result (λ core. the_program core ≡ program_meant own.now os.now) }
    ensures names { IfOk result (λ core. names_of core ≡ all_names_meant own.now os.now) }
    ensures classes { IfOk result
        (λ core. class_names_of core ≡ class_names own.now ++ class_names os.now) }
{
    check_main(alloc, names)?;
    let mut subroutines = started(alloc)?;
    resolve_all(alloc, names, own, os, &mut subroutines)?;
    Ok(Core {
        classes: all_classes(alloc, own, os)?,
        subroutines,
        init: number_by(names.find(b"Sys".as_slice(), b"init".as_slice())),
    })
}

// The program or the first fault, where the statics have numbers.
fn resolve_numbered<'a>(alloc: Global, own: &'a [Class], os: &'a [Class]) -> Result<Core, NameError>
    requires classes { length own.now + length os.now < 2 ^ 31 }
    requires subroutines { subroutine_count own.now + subroutine_count os.now < 2 ^ 31 }
    requires statics { all_statics own.now + all_statics os.now < 2 ^ 31 }
    requires own { AreWithin own.now }
    requires os { AreWithin os.now }
    ensures checks { Resolves (first_name_fault own.now os.now) result }
    ensures program { IfOk result (λ core. the_program core ≡ program_meant own.now os.now) }
    ensures names { IfOk result (λ core. names_of core ≡ all_names_meant own.now os.now) }
    ensures classes { IfOk result
        (λ core. class_names_of core ≡ class_names own.now ++ class_names os.now) }
{
    check_declared(alloc, own, os)?;
    let names = names_of(alloc, own, os)?;
    resolve_named(alloc, &names, own, os)
}

/// The program that the classes of a folder and those of the operating system mean, or the first fault in their names. That is one in
/// what they declare, at `Main.main`, or in what they use. It has the names of all classes and of all subroutines, each made once.
/// Statics without a number are a want of memory.
pub fn resolve<'a>(alloc: Global, own: &'a [Class], os: &'a [Class]) -> Result<Core, NameError>
    requires classes { length own.now + length os.now < 2 ^ 31 }
    requires subroutines { subroutine_count own.now + subroutine_count os.now < 2 ^ 31 }
    requires own { AreWithin own.now }
    requires os { AreWithin os.now }
    ensures checks { Resolves (first_name_fault own.now os.now) result }
    ensures meaning { IfOk result
        (λ core. the_program core ≡ program_meaning (map the_file own.now) (map the_file os.now)) }
    ensures tells { Tells (map the_file own.now) (map the_file os.now) result }
    ensures program { IfOk result (λ core. the_program core ≡ program_meant own.now os.now) }
    ensures names { IfOk result (λ core. names_of core ≡ all_names_meant own.now os.now) }
    ensures classes { IfOk result
        (λ core. class_names_of core ≡ class_names own.now ++ class_names os.now) }
{
    check_statics(own, os)?;
    resolve_numbered(alloc, own, os)
}
