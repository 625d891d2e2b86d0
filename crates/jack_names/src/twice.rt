//! The faults of declared names.

ghost use Rattle.std.specs.Prelude.{◌≡◌, ◌++◌, ◌∷◌, [], Some, OnOk};
ghost use Rattle.jack_names.specs.declared.fault.NameKind.TheVariants.{VariableTwice};
ghost use Rattle.name_table.specs.Names.{names_in};
ghost use Rattle.jack_names.specs.Faults.{Checks};
ghost use Rattle.jack_names.specs.Inner.Filed.{the_file};
ghost use Rattle.name_table.specs.Tables.{table_of};
ghost use Rattle.jack_names.specs.Inner.Twice.{twice_fault, first_twice, texts_of, names_of, members_twice, parameter_names, locals_twice, variables_fault, subroutines_fault, members_fault, file_fault, declaration_fault, declarations_fault};

use crate::fault::{File, NameError, NameKind, tell};
use jack_tree::{Class, ClassVariables, Locals, Name, Names, Parameter, Subroutine};
use name_table::Table;
use std::alloc::Global;

// Enters a name that is not to be there.
#[tactic(auto, using(crate::proofs::Entries::found_among))]
fn check_new<'a>(
    alloc: Global,
    file: File,
    kind: NameKind,
    seen: &mut Table<'a, ()>,
    name: &'a Name,
) -> Result<(), NameError>
    ensures checks { Checks
        (twice_fault (the_file file.entry) kind (names_in (table_of seen.old)) name.now) result }
    ensures seen { OnOk result
        (names_in (table_of seen.new) ≡ names_in (table_of seen.old) ++ name.now.text ∷ []) }
{
    let text = name.text.as_bytes();
    if seen.enter(text, ())? {
        return Ok(());
    }
    tell(alloc, file, text, name.place, kind)
}

// Enters names that are not to be there.
fn check_list<'a>(
    alloc: Global,
    file: File,
    kind: NameKind,
    seen: &mut Table<'a, ()>,
    names: &'a [Name],
) -> Result<(), NameError>
    ensures checks { Checks
        (first_twice (the_file file.entry) kind (names_in (table_of seen.old)) names.now) result }
    ensures seen { OnOk result
        (names_in (table_of seen.new) ≡ names_in (table_of seen.old) ++ texts_of names.now) }
{
    let mut rest = names;
    while let Some((name, others)) = rest.split_first() {
        check_new(alloc, file, kind, seen, name)?;
        rest = others;
    }
    Ok(())
}

fn check_names<'a>(
    alloc: Global,
    file: File,
    kind: NameKind,
    seen: &mut Table<'a, ()>,
    names: &'a Names,
) -> Result<(), NameError>
    ensures checks { Checks
        (first_twice (the_file file.entry) kind (names_in (table_of seen.old)) (names_of names.now))
        result }
    ensures seen { OnOk result (names_in (table_of seen.new)
        ≡ names_in (table_of seen.old) ++ texts_of (names_of names.now)) }
{
    check_new(alloc, file, kind, seen, &names.first)?;
    check_list(alloc, file, kind, seen, &names.more)
}

fn check_lines<'a>(
    alloc: Global,
    file: File,
    seen: &mut Table<'a, ()>,
    variables: &'a [ClassVariables],
) -> Result<(), NameError>
    ensures { Checks
        (members_twice (the_file file.entry) (names_in (table_of seen.old)) variables.now) result }
{
    let mut rest = variables;
    while let Some((line, others)) = rest.split_first() {
        check_names(alloc, file, NameKind::MemberTwice, seen, &line.names)?;
        rest = others;
    }
    Ok(())
}

fn check_parameters<'a>(
    alloc: Global,
    file: File,
    seen: &mut Table<'a, ()>,
    parameters: &'a [Parameter],
) -> Result<(), NameError>
    ensures checks { Checks (first_twice (the_file file.entry) VariableTwice
        (names_in (table_of seen.old)) (parameter_names parameters.now)) result }
    ensures seen { OnOk result (names_in (table_of seen.new)
        ≡ names_in (table_of seen.old) ++ texts_of (parameter_names parameters.now)) }
{
    let mut rest = parameters;
    while let Some((parameter, others)) = rest.split_first() {
        check_new(alloc, file, NameKind::VariableTwice, seen, &parameter.name)?;
        rest = others;
    }
    Ok(())
}

fn check_locals<'a>(
    alloc: Global,
    file: File,
    seen: &mut Table<'a, ()>,
    locals: &'a [Locals],
) -> Result<(), NameError>
    ensures { Checks
        (locals_twice (the_file file.entry) (names_in (table_of seen.old)) locals.now) result }
{
    let mut rest = locals;
    while let Some((line, others)) = rest.split_first() {
        check_names(alloc, file, NameKind::VariableTwice, seen, &line.names)?;
        rest = others;
    }
    Ok(())
}

fn check_variables(alloc: Global, file: File, s: &Subroutine) -> Result<(), NameError>
    ensures { Checks (variables_fault (the_file file.entry) s.now) result }
{
    let mut seen = Table::new(alloc);
    check_parameters(alloc, file, &mut seen, &s.parameters)?;
    check_locals(alloc, file, &mut seen, &s.locals)
}

fn check_subroutines<'a>(
    alloc: Global,
    file: File,
    seen: &mut Table<'a, ()>,
    subroutines: &'a [Subroutine],
) -> Result<(), NameError>
    ensures { Checks
        (subroutines_fault (the_file file.entry) (names_in (table_of seen.old)) subroutines.now)
        result }
{
    let mut rest = subroutines;
    while let Some((s, others)) = rest.split_first() {
        check_new(alloc, file, NameKind::MemberTwice, seen, &s.name)?;
        check_variables(alloc, file, s)?;
        rest = others;
    }
    Ok(())
}

fn check_members(alloc: Global, file: File, class: &Class) -> Result<(), NameError>
    ensures { Checks (members_fault (the_file file.entry) class.now) result }
{
    let mut variables = Table::new(alloc);
    check_lines(alloc, file, &mut variables, &class.variables)?;
    let mut subroutines = Table::new(alloc);
    check_subroutines(alloc, file, &mut subroutines, &class.subroutines)
}

// A class is named as its file, without the ending.
fn check_file(alloc: Global, file: File, class: &Class) -> Result<(), NameError>
    ensures { Checks (file_fault (the_file file.entry) class.now) result }
{
    let name = class.name.text.as_bytes();
    let mut path = Vec::from_slice(alloc, name)?;
    path.extend_from_slice(b".jack".as_slice())?;
    if path.as_slice() == class.file.as_bytes() {
        return Ok(());
    }
    tell(alloc, file, name, class.name.place, NameKind::FileName)
}

fn check_declaration<'a>(
    alloc: Global,
    shipped: bool,
    seen: &mut Table<'a, ()>,
    class: &'a Class,
) -> Result<(), NameError>
    ensures checks { Checks
        (declaration_fault shipped (names_in (table_of seen.old)) class.now) result }
    ensures seen { OnOk result
        (names_in (table_of seen.new) ≡ names_in (table_of seen.old) ++ class.now.name.text ∷ []) }
{
    let file = File {
        shipped,
        name: &class.file,
    };
    check_file(alloc, file, class)?;
    check_new(alloc, file, NameKind::ClassTwice, seen, &class.name)?;
    check_members(alloc, file, class)
}

/// The first fault in what classes declare, one after the other, where classes of the names in the table are already
/// there. It is a class that is not named as its file or is there already, or a member, parameter or local that is
/// there twice.
pub(crate) fn check_declarations<'a>(
    alloc: Global,
    shipped: bool,
    mut seen: Table<'a, ()>,
    classes: &'a [Class],
) -> Result<(), NameError>
    ensures { Checks
        (declarations_fault shipped (names_in (table_of seen.entry)) classes.now) result }
{
    let mut rest = classes;
    while let Some((class, others)) = rest.split_first() {
        check_declaration(alloc, shipped, &mut seen, class)?;
        rest = others;
    }
    Ok(())
}
