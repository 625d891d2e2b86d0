//! The variables that classes and subroutines declare.

ghost use Rattle.std.specs.Prelude.{◌≡◌, ◌+◌, ◌≤◌, ◌<◌, ◌^◌, length, IfOk, OnOk, SomeIff, ◌-◌};
ghost use Rattle.name_table.specs.Tables.{table_of, Finds};
ghost use Rattle.jack_names.specs.Inner.Twice.{names_of};
ghost use Rattle.jack_names.specs.Symbols.{type_class, line_entries, member_line, member_entries, parameter_entries, local_entries, variable_entries, fields_in, statics_in, fields_of, statics_of, locals_of};
ghost use Rattle.jack_names.specs.Inner.Named.{with_all, the_symbols, slot_at, most};

use crate::scope::{Declared, Names, Slot};
use crate::subroutine::objects;
use jack_tree::{
    ClassVariables, Locals, Name, Names as NameList, Parameter, Scope, Subroutine, Type,
};
use name_table::Table;
use std::alloc::{AllocError, Global};

// What sort of variables a declaration has.
#[derive(Clone, Copy)]
enum Sort {
    Local,
    Field,
    Static,
}

fn slot_at(sort: Sort, k: u32) -> Slot
    requires { k < most sort }
    ensures { result ≡ slot_at sort k }
{
    match sort {
        Sort::Local => Slot::Local(k),
        Sort::Field => Slot::Field(k as u16),
        Sort::Static => Slot::Static(k),
    }
}

fn count(names: &NameList) -> u32
    requires { length (names_of names.now) ≤ 2 ^ 31 }
    ensures { result ≡ length (names_of names.now) }
{
    names.more.len() as u32 + 1
}

// The number of the class that is a type.
fn type_class<'a>(names: &Names<'a>, kind: &'a Type) -> Option<u32>
    ensures { result ≡ type_class (the_symbols names.now) kind.now }
{
    match kind {
        Type::Class(name) => names.class(name.text.as_bytes()),
        _ => None,
    }
}

// Enters variables of one sort and type by their numbers, from the first one on.
fn enter_list<'a>(
    table: &mut Table<'a, Declared>,
    sort: Sort,
    class: Option<u32>,
    first: u32,
    names: &'a [Name],
) -> Result<(), AllocError>
    requires { first + length names.now < most sort }
    ensures { OnOk result (table_of table.new
        ≡ with_all (table_of table.old) (line_entries (slot_at sort) class first names.now)) }
{
    let mut k = first;
    let mut rest = names;
    while let Some((name, others)) = rest.split_first() {
        let slot = slot_at(sort, k);
        table.enter(name.text.as_bytes(), Declared { slot, class })?;
        k += 1;
        rest = others;
    }
    Ok(())
}

fn enter_names<'a>(
    table: &mut Table<'a, Declared>,
    sort: Sort,
    class: Option<u32>,
    first: u32,
    names: &'a NameList,
) -> Result<(), AllocError>
    requires { first + length (names_of names.now) < most sort }
    ensures { OnOk result (table_of table.new ≡ with_all (table_of table.old)
        (line_entries (slot_at sort) class first (names_of names.now))) }
{
    let slot = slot_at(sort, first);
    table.enter(names.first.text.as_bytes(), Declared { slot, class })?;
    enter_list(table, sort, class, first + 1, &names.more)
}

fn enter_line<'a>(
    names: &Names<'a>,
    table: &mut Table<'a, Declared>,
    fields: u32,
    statics: u32,
    line: &'a ClassVariables,
) -> Result<(), AllocError>
    requires fields { fields + fields_in line.now.scope line.now ≤ 16384 }
    requires statics { statics + statics_in line.now.scope line.now ≤ 2 ^ 31 }
    ensures { OnOk result (table_of table.new ≡ with_all (table_of table.old)
        (member_line (the_symbols names.now) fields statics line.now line.now.scope)) }
{
    let class = type_class(names, &line.kind);
    match line.scope {
        Scope::Field => enter_names(table, Sort::Field, class, fields, &line.names),
        Scope::Static => enter_names(table, Sort::Static, class, statics, &line.names),
    }
}

fn fields_in(line: &ClassVariables) -> u32
    requires { fields_in line.now.scope line.now ≤ 2 ^ 31 }
    ensures { result ≡ fields_in line.now.scope line.now }
{
    match line.scope {
        Scope::Field => count(&line.names),
        Scope::Static => 0,
    }
}

fn statics_in(line: &ClassVariables) -> u32
    requires { statics_in line.now.scope line.now ≤ 2 ^ 31 }
    ensures { result ≡ statics_in line.now.scope line.now }
{
    match line.scope {
        Scope::Field => 0,
        Scope::Static => count(&line.names),
    }
}

/// How many fields a class has.
pub(crate) fn fields_of(variables: &[ClassVariables]) -> u32
    requires { fields_of variables.now ≤ 2 ^ 31 }
    ensures { result ≡ fields_of variables.now }
{
    let mut n = 0;
    let mut rest = variables;
    while let Some((line, others)) = rest.split_first() {
        n += fields_in(line);
        rest = others;
    }
    n
}

/// How many statics a class has.
pub(crate) fn statics_of(variables: &[ClassVariables]) -> u32
    requires { statics_of variables.now ≤ 2 ^ 31 }
    ensures { result ≡ statics_of variables.now }
{
    let mut n = 0;
    let mut rest = variables;
    while let Some((line, others)) = rest.split_first() {
        n += statics_in(line);
        rest = others;
    }
    n
}

// How many of these numbers are left after the statics of a line, where they are enough.
fn left_by_line(numbers: usize, line: &ClassVariables) -> Option<usize>
    ensures { SomeIff result (statics_in line.now.scope line.now ≤ numbers)
        (numbers - statics_in line.now.scope line.now) }
{
    match line.scope {
        Scope::Field => Some(numbers),
        Scope::Static => numbers.checked_sub(line.names.more.len())?.checked_sub(1),
    }
}

/// How many of these numbers are left after the statics of a class, where they are enough.
pub(crate) fn left_by(numbers: usize, variables: &[ClassVariables]) -> Option<usize>
    ensures { SomeIff result (statics_of variables.now ≤ numbers)
        (numbers - statics_of variables.now) }
{
    let mut left = numbers;
    let mut rest = variables;
    while let Some((line, others)) = rest.split_first() {
        left = left_by_line(left, line)?;
        rest = others;
    }
    Some(left)
}

// Enters fields and statics, which are numbered apart.
fn enter_members<'a>(
    names: &Names<'a>,
    table: &mut Table<'a, Declared>,
    first: u32,
    variables: &'a [ClassVariables],
) -> Result<(), AllocError>
    requires fields { fields_of variables.now ≤ 16384 }
    requires statics { first + statics_of variables.now ≤ 2 ^ 31 }
    ensures { OnOk result (table_of table.new ≡ with_all (table_of table.old)
        (member_entries (the_symbols names.now) 0 first variables.now)) }
{
    let mut fields = 0;
    let mut statics = first;
    let mut rest = variables;
    while let Some((line, others)) = rest.split_first() {
        enter_line(names, table, fields, statics, line)?;
        fields += fields_in(line);
        statics += statics_in(line);
        rest = others;
    }
    Ok(())
}

/// The fields and statics of a class, before whose statics are this many others.
pub(crate) fn members_of<'a>(
    alloc: Global,
    names: &Names<'a>,
    statics: u32,
    variables: &'a [ClassVariables],
) -> Result<Table<'a, Declared>, AllocError>
    requires fields { fields_of variables.now ≤ 16384 }
    requires statics { statics + statics_of variables.now ≤ 2 ^ 31 }
    ensures { IfOk result
        (λ t. Finds t (member_entries (the_symbols names.now) 0 statics variables.now)) }
{
    let mut table = Table::new(alloc);
    enter_members(names, &mut table, statics, variables)?;
    Ok(table)
}

fn enter_parameters<'a>(
    names: &Names<'a>,
    table: &mut Table<'a, Declared>,
    first: u32,
    parameters: &'a [Parameter],
) -> Result<(), AllocError>
    requires { first + length parameters.now ≤ 2 ^ 31 }
    ensures { OnOk result (table_of table.new ≡ with_all (table_of table.old)
        (parameter_entries (the_symbols names.now) first parameters.now)) }
{
    let mut k = first;
    let mut rest = parameters;
    while let Some((parameter, others)) = rest.split_first() {
        let declared = Declared {
            slot: Slot::Argument(k),
            class: type_class(names, &parameter.kind),
        };
        table.enter(parameter.name.text.as_bytes(), declared)?;
        k += 1;
        rest = others;
    }
    Ok(())
}

fn enter_locals<'a>(
    names: &Names<'a>,
    table: &mut Table<'a, Declared>,
    first: u32,
    locals: &'a [Locals],
) -> Result<(), AllocError>
    requires { first + locals_of locals.now ≤ 2 ^ 31 }
    ensures { OnOk result (table_of table.new
        ≡ with_all (table_of table.old) (local_entries (the_symbols names.now) first locals.now)) }
{
    let mut k = first;
    let mut rest = locals;
    while let Some((line, others)) = rest.split_first() {
        let class = type_class(names, &line.kind);
        enter_names(table, Sort::Local, class, k, &line.names)?;
        k += count(&line.names);
        rest = others;
    }
    Ok(())
}

/// The parameters and locals of a subroutine. A method's object is its argument 0.
pub(crate) fn variables_of<'a>(
    alloc: Global,
    names: &Names<'a>,
    s: &'a Subroutine,
) -> Result<Table<'a, Declared>, AllocError>
    requires parameters { length s.now.parameters.items ≤ 16384 }
    requires locals { locals_of s.now.locals.items ≤ 16384 }
    ensures { IfOk result (λ t. Finds t (variable_entries (the_symbols names.now) s.now)) }
{
    let mut table = Table::new(alloc);
    enter_parameters(names, &mut table, objects(s.form), &s.parameters)?;
    enter_locals(names, &mut table, 0, &s.locals)?;
    Ok(table)
}
