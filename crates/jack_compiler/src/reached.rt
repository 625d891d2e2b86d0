//! The subroutines that a program can come to.
ghost use Rattle.std.specs.Prelude.{◌≡◌, ◌∷◌, [], ℕ, false, length, OnOk, IfOk};
ghost use Rattle.vm_link.specs.Inner.Marks.{is_marked};
ghost use Rattle.jack_meaning.specs.Linked.{calls, statement_calls, text_calls};
ghost use Rattle.jack_core.specs.Reading.{the_expression};
ghost use Rattle.jack_core.specs.Texts.{the_program, the_statement, the_block};
ghost use Rattle.jack_compiler.specs.Inner.Searched.{part_calls, Visits, AreLinked};

use jack_core::{Core, Expression, Part, Statement, Subroutine};
use std::alloc::{AllocError, Global};

/// A mark for each subroutine, set where the program comes to it, and those whose statements are still to be looked at.
#[derive(Drop)]
pub struct Search {
    pub marks: Vec<bool>,
    pub waiting: Vec<usize>,
}

// Marks a subroutine, which then waits, where it is there and not marked.
fn mark(search: &mut Search, number: usize) -> Result<(), AllocError>
    ensures { OnOk result (Visits (number ∷ []) search.old search.new) }
{
    if number >= search.marks.len() {
        return Ok(());
    }
    if search.marks[number] {
        return Ok(());
    }
    search.waiting.push(number)?;
    search.marks[number] = true;
    Ok(())
}

// Marks what a part of an expression calls.
fn mark_part(search: &mut Search, part: Part) -> Result<(), AllocError>
    ensures { OnOk result (Visits (part_calls part) search.old search.new) }
{
    match part {
        Part::Call { number, .. } => mark(search, number as usize),
        _ => Ok(()),
    }
}

// Marks what an expression calls.
fn mark_expression(search: &mut Search, e: &Expression) -> Result<(), AllocError>
    ensures { OnOk result (Visits (calls (the_expression e.now)) search.old search.new) }
{
    for part in e.parts.as_slice() {
        mark_part(search, *part)?;
    }
    Ok(())
}

// Marks what a statement calls.
#[cycle(calling)]
fn mark_statement(search: &mut Search, s: &Statement) -> Result<(), AllocError>
    ensures { OnOk result (Visits (statement_calls (the_statement s.now)) search.old search.new) }
{
    match s {
        Statement::Let { value, .. }
        | Statement::LetField { value, .. }
        | Statement::LetThis { value, .. }
        | Statement::Do { call: value, .. }
        | Statement::Return { value, .. } => mark_expression(search, value),
        Statement::Store {
            base,
            index,
            value,
            ..
        } => {
            mark_expression(search, base)?;
            mark_expression(search, index)?;
            mark_expression(search, value)
        }
        Statement::If {
            condition,
            holds,
            fails,
            ..
        } => {
            mark_expression(search, condition)?;
            mark_statements(search, holds)?;
            mark_statements(search, fails)
        }
        Statement::While {
            condition,
            body,
            ..
        } => {
            mark_expression(search, condition)?;
            mark_statements(search, body)
        }
    }
}

// Marks what statements call.
#[cycle(calling)]
fn mark_statements(search: &mut Search, ss: &[Statement]) -> Result<(), AllocError>
    ensures { OnOk result (Visits (text_calls (the_block ss.now)) search.old search.new) }
{
    for s in ss {
        mark_statement(search, s)?;
    }
    Ok(())
}

// As many marks as there are subroutines, none of them set.
fn no_marks(alloc: Global, subroutines: &[Subroutine]) -> Result<Vec<bool>, AllocError>
    ensures same_length { IfOk result (λ marks. length marks.items ≡ length subroutines.now) }
    ensures unset { IfOk result (λ marks. (g : ℕ) → is_marked marks.items g ≡ false) }
{
    let mut marks = Vec::new(alloc);
    for _subroutine in subroutines {
        marks.push(false)?;
    }
    Ok(marks)
}

/// Marks at the subroutines that a program can come to.
pub(crate) fn reached(alloc: Global, core: &Core) -> Result<Vec<bool>, AllocError>
    ensures { IfOk result (λ marks. AreLinked (the_program core.now) marks.items) }
{
    let mut search = Search {
        marks: no_marks(alloc, &core.subroutines)?,
        waiting: Vec::new(alloc),
    };
    mark(&mut search, core.init as usize)?;
    'waiting: while let Some(number) = search.waiting.pop() {
        mark_statements(&mut search, &core.subroutines[number].body)?;
    }
    Ok(search.marks)
}
