//! The subroutines of classes: their faults, and what they mean.

ghost use Rattle.std.specs.Prelude.{◌≡◌, ◌+◌, ◌≤◌, ◌^◌, ◌++◌, ◌∷◌, [], true, length, map, OnOk};
ghost use Rattle.jack_core.specs.Texts.{the_subroutine};
ghost use Rattle.jack_names.specs.Faults.{Checks};
ghost use Rattle.jack_names.specs.Inner.Filed.{the_file};
ghost use Rattle.jack_names.specs.Inner.Uses.{subroutine_uses};
ghost use Rattle.jack_names.specs.Inner.Scopes.{first_fault};
ghost use Rattle.name_table.specs.Tables.{Finds};
ghost use Rattle.jack_names.specs.Inner.Scoped.{the_scope};
ghost use Rattle.jack_names.specs.Symbols.{member_entries, variable_entries, class_scope, scope_in, fields_of, statics_of};
ghost use Rattle.jack_names.specs.Limits.{HasFew, AllHaveFew, IsWithin, AreWithin};
ghost use Rattle.jack_names.specs.Inner.Whole.{class_fault, uses_fault, system_file, start_fault, os_fault, all_statics, subroutine_meant, class_subroutines, subroutines_meant, subroutine_name, names_meant};
ghost use Rattle.jack_names.specs.Inner.Named.{the_symbols, the_class_scope};
ghost use Rattle.jack_names.specs.Resolved.{the_name};

use crate::checks::{check_made, check_subroutine};
use crate::fault::{File, NO_PLACE, NameError};
use crate::scope::{ClassScope, Declared, Names, Owner, Scope};
use crate::subroutine::subroutine_meant;
use crate::variables::{fields_of, members_of, statics_of, variables_of};
use jack_core::Subroutine as CoreSubroutine;
use jack_tree::{Class, Form, Subroutine};
use name_table::Table;
use outer_world::Name as FileName;
use std::alloc::{AllocError, Global};

// What names stand for in a subroutine of a class.
fn scope_in<'a, 'b>(
    class: ClassScope<'a, 'b>,
    locals: &'b Table<'a, Declared>,
    s: &'a Subroutine,
) -> Scope<'a, 'b>
    requires { Finds locals.now (variable_entries (the_symbols class.names.now) s.now) }
    ensures { the_scope result ≡ scope_in (the_class_scope class.entry) s.now }
{
    Scope {
        names: class.names,
        locals,
        members: class.members,
        form: s.form,
        own: class.own,
        file: class.file,
    }
}

// The subroutine that a tree means, as the last one of these.
fn push_meant<'a>(
    alloc: Global,
    scope: &Scope<'a, '_>,
    owner: Owner<'_>,
    s: &'a Subroutine,
    subroutines: &mut Vec<CoreSubroutine>,
) -> Result<(), AllocError>
    requires { HasFew s.now }
    ensures program { OnOk result
        (map the_subroutine subroutines.new.items ≡ map the_subroutine subroutines.old.items
        ++ subroutine_meant (the_scope scope.now) owner.entry.fields s.now ∷ []) }
    ensures names { OnOk result (map the_name subroutines.new.items
        ≡ map the_name subroutines.old.items ++ subroutine_name owner.entry.name.now s.now ∷ []) }
{
    let meant = subroutine_meant(alloc, scope, owner, s)?;
    subroutines.push(meant)?;
    Ok(())
}

// The same, where no use of a name in it has a fault.
fn push_resolved<'a>(
    alloc: Global,
    scope: &Scope<'a, '_>,
    owner: Owner<'_>,
    s: &'a Subroutine,
    subroutines: &mut Vec<CoreSubroutine>,
) -> Result<(), NameError>
    requires { HasFew s.now }
    ensures checks { Checks (first_fault (the_scope scope.now) (subroutine_uses s.now)) result }
    ensures program { OnOk result
        (map the_subroutine subroutines.new.items ≡ map the_subroutine subroutines.old.items
        ++ subroutine_meant (the_scope scope.now) owner.entry.fields s.now ∷ []) }
    ensures names { OnOk result (map the_name subroutines.new.items
        ≡ map the_name subroutines.old.items ++ subroutine_name owner.entry.name.now s.now ∷ []) }
{
    check_subroutine(alloc, scope, s)?;
    push_meant(alloc, scope, owner, s, subroutines)?;
    Ok(())
}

fn resolve_subroutine<'a>(
    alloc: Global,
    class: ClassScope<'a, '_>,
    owner: Owner<'_>,
    s: &'a Subroutine,
    subroutines: &mut Vec<CoreSubroutine>,
) -> Result<(), NameError>
    requires { HasFew s.now }
    ensures checks { Checks
        (first_fault (scope_in (the_class_scope class.entry) s.now) (subroutine_uses s.now))
        result }
    ensures program { OnOk result (map the_subroutine subroutines.new.items
        ≡ map the_subroutine subroutines.old.items ++ subroutine_meant
        (scope_in (the_class_scope class.entry) s.now) owner.entry.fields s.now ∷ []) }
    ensures names { OnOk result (map the_name subroutines.new.items
        ≡ map the_name subroutines.old.items ++ subroutine_name owner.entry.name.now s.now ∷ []) }
{
    let locals = variables_of(alloc, class.names, s)?;
    let scope = scope_in(class, &locals, s);
    push_resolved(alloc, &scope, owner, s, subroutines)
}

fn resolve_subroutines<'a>(
    alloc: Global,
    class: ClassScope<'a, '_>,
    owner: Owner<'_>,
    trees: &'a [Subroutine],
    subroutines: &mut Vec<CoreSubroutine>,
) -> Result<(), NameError>
    requires { AllHaveFew trees.now }
    ensures checks { Checks (class_fault (the_class_scope class.entry) trees.now) result }
    ensures program { OnOk result
        (map the_subroutine subroutines.new.items ≡ map the_subroutine subroutines.old.items
        ++ class_subroutines (the_class_scope class.entry) owner.entry.fields trees.now) }
    ensures names { OnOk result
        (map the_name subroutines.new.items ≡ map the_name subroutines.old.items
        ++ map (subroutine_name owner.entry.name.now) trees.now) }
{
    let mut rest = trees;
    while let Some((s, others)) = rest.split_first() {
        resolve_subroutine(alloc, class, owner, s, subroutines)?;
        rest = others;
    }
    Ok(())
}

// What names stand for in a class.
fn class_scope<'a, 'b>(
    names: &'b Names<'a>,
    members: &'b Table<'a, Declared>,
    shipped: bool,
    own: u32,
    statics: u32,
    class: &'b Class,
) -> ClassScope<'a, 'b>
    requires { Finds members.now
        (member_entries (the_symbols names.now) 0 statics class.now.variables.items) }
    ensures { the_class_scope result
        ≡ class_scope (the_symbols names.now) shipped own statics class.now }
{
    let file = File {
        shipped,
        name: &class.file,
    };
    ClassScope {
        names,
        members,
        own,
        file,
    }
}

// The subroutines of a class, before which there are this many classes and statics.
fn resolve_class<'a>(
    alloc: Global,
    names: &Names<'a>,
    shipped: bool,
    own: u32,
    statics: u32,
    class: &'a Class,
    subroutines: &mut Vec<CoreSubroutine>,
) -> Result<(), NameError>
    requires statics { statics + statics_of class.now.variables.items ≤ 2 ^ 31 }
    requires limits { IsWithin class.now }
    ensures checks { Checks
        (class_fault (class_scope (the_symbols names.now) shipped own statics class.now)
        class.now.subroutines.items) result }
    ensures program { OnOk result
        (map the_subroutine subroutines.new.items ≡ map the_subroutine subroutines.old.items
        ++ class_subroutines (class_scope (the_symbols names.now) shipped own statics class.now)
        (fields_of class.now.variables.items) class.now.subroutines.items) }
    ensures names { OnOk result
        (map the_name subroutines.new.items ≡ map the_name subroutines.old.items
        ++ map (subroutine_name class.now.name.text) class.now.subroutines.items) }
{
    let members = members_of(alloc, names, statics, &class.variables)?;
    let scope = class_scope(names, &members, shipped, own, statics, class);
    let fields = fields_of(&class.variables) as u16;
    let owner = Owner {
        name: &class.name.text,
        fields,
    };
    resolve_subroutines(alloc, scope, owner, &class.subroutines, subroutines)
}

/// The subroutines of classes, before which there are this many classes and statics: their first fault, or what they
/// mean.
pub(crate) fn resolve_classes<'a>(
    alloc: Global,
    names: &Names<'a>,
    shipped: bool,
    first: u32,
    before: u32,
    classes: &'a [Class],
    subroutines: &mut Vec<CoreSubroutine>,
) -> Result<(), NameError>
    requires few { first + length classes.now ≤ 2 ^ 31 }
    requires statics { before + all_statics classes.now ≤ 2 ^ 31 }
    requires limits { AreWithin classes.now }
    ensures checks { Checks
        (uses_fault (the_symbols names.now) shipped first before classes.now) result }
    ensures program { OnOk result
        (map the_subroutine subroutines.new.items ≡ map the_subroutine subroutines.old.items
        ++ subroutines_meant (the_symbols names.now) shipped first before classes.now) }
    ensures names { OnOk result (map the_name subroutines.new.items
        ≡ map the_name subroutines.old.items ++ names_meant classes.now) }
{
    let mut own = first;
    let mut statics = before;
    let mut rest = classes;
    while let Some((class, others)) = rest.split_first() {
        resolve_class(alloc, names, shipped, own, statics, class, subroutines)?;
        own += 1;
        statics += statics_of(&class.variables);
        rest = others;
    }
    Ok(())
}

// A call of Sys.init, as from this file.
fn check_init<'a, 'b>(
    alloc: Global,
    names: &'b Names<'a>,
    none: &'b Table<'a, Declared>,
    file: File<'b>,
) -> Result<(), NameError>
    requires { the_file file ≡ system_file }
    ensures { Checks (start_fault (the_symbols names.now)) result }
{
    let scope = Scope {
        names,
        locals: none,
        members: none,
        form: Form::Function,
        own: 0,
        file,
    };
    let class = b"Sys".as_slice();
    check_made(alloc, &scope, class, b"init".as_slice(), 0, NO_PLACE)
}

// The call of Sys.init with which the program begins.
fn check_start(alloc: Global, names: &Names) -> Result<(), NameError>
    ensures { Checks (start_fault (the_symbols names.now)) result }
{
    let name = FileName::new(alloc, "Sys.jack")?;
    let file = File {
        shipped: true,
        name: &name,
    };
    let none = Table::new(alloc);
    check_init(alloc, names, &none, file)
}

/// The same for the classes of the operating system, with the call by which the program begins.
pub(crate) fn resolve_system<'a>(
    alloc: Global,
    names: &Names<'a>,
    first: u32,
    before: u32,
    classes: &'a [Class],
    subroutines: &mut Vec<CoreSubroutine>,
) -> Result<(), NameError>
    requires few { first + length classes.now ≤ 2 ^ 31 }
    requires statics { before + all_statics classes.now ≤ 2 ^ 31 }
    requires limits { AreWithin classes.now }
    ensures checks { Checks (os_fault (the_symbols names.now) first before classes.now) result }
    ensures program { OnOk result
        (map the_subroutine subroutines.new.items ≡ map the_subroutine subroutines.old.items
        ++ subroutines_meant (the_symbols names.now) true first before classes.now) }
    ensures names { OnOk result (map the_name subroutines.new.items
        ≡ map the_name subroutines.old.items ++ names_meant classes.now) }
{
    let mut own = first;
    let mut statics = before;
    let mut rest = classes;
    while let Some((class, others)) = rest.split_first() {
        if class.file.as_bytes() == b"Sys.jack".as_slice() {
            check_start(alloc, names)?;
            return resolve_classes(alloc, names, true, own, statics, rest, subroutines);
        }
        resolve_class(alloc, names, true, own, statics, class, subroutines)?;
        own += 1;
        statics += statics_of(&class.variables);
        rest = others;
    }
    check_start(alloc, names)
}
