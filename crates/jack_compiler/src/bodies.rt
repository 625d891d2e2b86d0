//! The commands of statements.
ghost use Rattle.std.specs.Prelude.{◌≡◌, ◌≤◌, ◌+◌, ◌^◌, ◌++◌, ◌∷◌, [], OnOk, MatchResult, ℕ, decimal, suc};
ghost use Rattle.jack_core.specs.Reading.{the_expression};
ghost use Rattle.jack_core.specs.Texts.{the_statement, the_block};
ghost use Rattle.jack_meaning.specs.Text.{Store, If, While};
ghost use Rattle.vm_tree.specs.declared.command.Command.TheVariants as command;
ghost use Rattle.jack_compiler.specs.Templates.{first_number, no_else};
ghost use Rattle.jack_compiler.specs.Lines.{into_if, into_else, into_while, out_of_while, store_lines, expression_lines, statement_lines, text_lines, ifs_of, ifs_in, whiles_of, whiles_in};
ghost use Rattle.jack_compiler.specs.Lines.{quiet as quiet_line, commit as commit_line};
ghost use Rattle.jack_compiler.specs.Inner.Surroundings.{the_around};
ghost use Rattle.jack_compiler.specs.Inner.Named.{Names, NamesIn, NamesText};
ghost use Rattle.jack_compiler.specs.Inner.Added.{last_command, Adds, AddsText};

use crate::expressions::{Around, add_expression, pop_variable};
use crate::lines::{add_goto, add_if_goto, add_label, commit, quiet};
use jack_core::{Expression, Statement};
use outer_world::List;
use std::alloc::{AllocError, Global};
use vm_tree::{Command, Line, Operation, Segment};

/// The commands of a subroutine so far, and how many choices and loops stand there.
#[derive(Drop)]
pub struct Body {
    pub lines: List<Line>,
    pub ifs: u32,
    pub whiles: u32,
}

// This many choices or loops, and one more. Memory is wanted only where 32 bits do not count them.
fn one_more(count: u32) -> Result<u32, AllocError>
    ensures { MatchResult result (λ n. n ≡ suc count) (λ _. 2 ^ 32 ≤ suc count) }
{
    count.checked_add(1).ok_or(AllocError)
}

/// The number of the first statement, or of what follows where there is no statement.
pub(crate) fn first_number(next: u32, ss: &[Statement]) -> u32
    ensures { result ≡ first_number next (the_block ss.now) }
{
    match ss.first() {
        Some(s) => s.number(),
        None => next,
    }
}

// The branches of an `if`: the first one, whether the text has an `else`, and the statements of that.
#[derive(Clone, Copy)]
struct Branches<'a> {
    holds: &'a [Statement],
    has_else: bool,
    fails: &'a [Statement],
}

// Whether there is no second branch, not even an empty one.
fn no_else(branches: &Branches<'_>) -> bool
    ensures { result ≡ no_else branches.now.has_else (the_block branches.now.fails.now) }
{
    match branches.fails.first() {
        Some(_) => false,
        None => !branches.has_else,
    }
}

// The value on top goes to the address below it.
fn add_store(lines: &mut List<Line>, n: u32) -> Result<(), AllocError>
    ensures { OnOk result (lines.new ≡ lines.old ++ store_lines n) }
{
    quiet(lines, n, Command::Pop(Segment::Temp, 0))?;
    quiet(lines, n, Command::Pop(Segment::Pointer, 1))?;
    quiet(lines, n, Command::Push(Segment::Temp, 0))?;
    commit(lines, n, Command::Pop(Segment::That, 0))
}

// An expression's value goes somewhere.
fn add_value(
    lines: &mut List<Line>,
    around: &Around<'_>,
    n: u32,
    value: &Expression,
    last: Command,
) -> Result<(), AllocError>
    requires { Names around.now (the_expression value.now) }
    ensures { OnOk result (lines.new ≡ lines.old ++ (expression_lines (the_around around.now) n
        (the_expression value.now) ++ commit_line n last ∷ [])) }
{
    add_expression(lines, around, n, value)?;
    commit(lines, n, last)
}

// The command that takes a statement's value. (A choice and a loop end in a label: any will do.)
fn last_command(around: &Around<'_>, s: &Statement) -> Command
    requires { NamesIn around.now (the_statement s.now) }
    ensures { result ≡ last_command (the_around around.now) (the_statement s.now) }
{
    match s {
        Statement::Let { variable, .. } => pop_variable(around, *variable),
        Statement::LetField { field, .. } => Command::Pop(Segment::This, *field),
        Statement::LetThis { .. } => Command::Pop(Segment::Pointer, 0),
        Statement::Store { .. } => Command::Pop(Segment::That, 0),
        Statement::Do { .. } => Command::Pop(Segment::Temp, 0),
        Statement::If { .. } | Statement::While { .. } | Statement::Return { .. } => {
            Command::Return
        }
    }
}

// `let` of an array's element.
fn add_element(
    lines: &mut List<Line>,
    around: &Around<'_>,
    n: u32,
    base: &Expression,
    index: &Expression,
    value: &Expression,
) -> Result<(), AllocError>
    requires base { Names around.now (the_expression base.now) }
    requires index { Names around.now (the_expression index.now) }
    requires value { Names around.now (the_expression value.now) }
    ensures { OnOk result
        ((next i w : ℕ) → lines.new ≡ lines.old ++ statement_lines (the_around around.now) next i w
        (Store n (the_expression base.now) (the_expression index.now) (the_expression value.now))) }
{
    add_expression(lines, around, n, base)?;
    add_expression(lines, around, n, index)?;
    quiet(lines, n, Command::Operate(Operation::Add))?;
    add_expression(lines, around, n, value)?;
    add_store(lines, n)
}

// Where the condition of an `if` is left.
fn enter_if(
    alloc: Global,
    lines: &mut List<Line>,
    n: u32,
    other: u32,
    k: u32,
) -> Result<(), AllocError>
    ensures { OnOk result (lines.new ≡ lines.old ++ into_if n other k) }
{
    add_if_goto(alloc, lines, n, "IF_TRUE", k)?;
    add_goto(alloc, lines, other, "IF_FALSE", k)?;
    add_label(alloc, lines, n, "IF_TRUE", k)
}

// Between the branches of an `if`.
fn enter_else(
    alloc: Global,
    lines: &mut List<Line>,
    n: u32,
    next: u32,
    k: u32,
) -> Result<(), AllocError>
    ensures { OnOk result (lines.new ≡ lines.old ++ into_else n next k) }
{
    add_goto(alloc, lines, next, "IF_END", k)?;
    add_label(alloc, lines, n, "IF_FALSE", k)
}

// Where the condition of a `while` is left.
fn enter_while(
    alloc: Global,
    lines: &mut List<Line>,
    n: u32,
    next: u32,
    k: u32,
) -> Result<(), AllocError>
    ensures { OnOk result (lines.new ≡ lines.old ++ into_while n next k) }
{
    add_if_goto(alloc, lines, n, "WHILE_DO", k)?;
    add_goto(alloc, lines, next, "WHILE_END", k)?;
    add_label(alloc, lines, n, "WHILE_DO", k)
}

// Where a `while` begins again.
fn leave_while(alloc: Global, lines: &mut List<Line>, n: u32, k: u32) -> Result<(), AllocError>
    ensures { OnOk result (lines.new ≡ lines.old ++ out_of_while n k) }
{
    add_goto(alloc, lines, n, "WHILE_EXP", k)?;
    add_label(alloc, lines, n, "WHILE_END", k)
}

#[cycle(statement)]
fn add_if(
    body: &mut Body,
    around: &Around<'_>,
    next: u32,
    n: u32,
    condition: &Expression,
    branches: &Branches<'_>,
) -> Result<(), AllocError>
    requires condition { Names around.now (the_expression condition.now) }
    requires holds { NamesText around.now (the_block branches.now.holds.now) }
    requires fails { NamesText around.now (the_block branches.now.fails.now) }
    ensures { OnOk result (Adds (the_around around.now) next
        (If n branches.now.has_else (the_expression condition.now)
        (the_block branches.now.holds.now) (the_block branches.now.fails.now)) body.old body.new) }
{
    let k = body.ifs;
    body.ifs = one_more(k)?;
    add_expression(&mut body.lines, around, n, condition)?;
    enter_if(
        around.alloc,
        &mut body.lines,
        n,
        first_number(next, branches.fails),
        k,
    )?;
    add_statements(body, around, next, branches.holds)?;
    if no_else(branches) {
        return add_label(around.alloc, &mut body.lines, n, "IF_FALSE", k);
    }
    enter_else(around.alloc, &mut body.lines, n, next, k)?;
    add_statements(body, around, next, branches.fails)?;
    add_label(around.alloc, &mut body.lines, n, "IF_END", k)
}

#[cycle(statement)]
fn add_while(
    body: &mut Body,
    around: &Around<'_>,
    next: u32,
    n: u32,
    condition: &Expression,
    turn: &[Statement],
) -> Result<(), AllocError>
    requires condition { Names around.now (the_expression condition.now) }
    requires turn { NamesText around.now (the_block turn.now) }
    ensures { OnOk result (Adds (the_around around.now) next
        (While n (the_expression condition.now) (the_block turn.now)) body.old body.new) }
{
    let k = body.whiles;
    body.whiles = one_more(k)?;
    add_label(around.alloc, &mut body.lines, n, "WHILE_EXP", k)?;
    add_expression(&mut body.lines, around, n, condition)?;
    enter_while(around.alloc, &mut body.lines, n, next, k)?;
    add_statements(body, around, n, turn)?;
    leave_while(around.alloc, &mut body.lines, n, k)
}

// The commands of a statement, where the number of what follows is given.
#[cycle(statement)]
fn add_statement(
    body: &mut Body,
    around: &Around<'_>,
    next: u32,
    s: &Statement,
) -> Result<(), AllocError>
    requires { NamesIn around.now (the_statement s.now) }
    ensures { OnOk result
        (Adds (the_around around.now) next (the_statement s.now) body.old body.new) }
{
    match s {
        Statement::Let { number, value, .. }
        | Statement::LetField { number, value, .. }
        | Statement::LetThis { number, value }
        | Statement::Do {
            number,
            call: value,
        }
        | Statement::Return { number, value } => {
            let last = last_command(around, s);
            add_value(&mut body.lines, around, *number, value, last)
        }
        Statement::Store {
            number,
            base,
            index,
            value,
        } => add_element(&mut body.lines, around, *number, base, index, value),
        Statement::If {
            number,
            has_else,
            condition,
            holds,
            fails,
        } => {
            let branches = Branches {
                holds,
                has_else: *has_else,
                fails,
            };
            add_if(body, around, next, *number, condition, &branches)
        }
        Statement::While {
            number,
            condition,
            body: turn,
        } => add_while(body, around, next, *number, condition, turn),
    }
}

/// The commands of statements, where the number of what follows them is given.
#[cycle(statement)]
pub(crate) fn add_statements(
    body: &mut Body,
    around: &Around<'_>,
    next: u32,
    ss: &[Statement],
) -> Result<(), AllocError>
    requires { NamesText around.now (the_block ss.now) }
    ensures { OnOk result
        (AddsText (the_around around.now) next (the_block ss.now) body.old body.new) }
{
    for (index, s) in ss.iter().enumerate() {
        let following = first_number(next, &ss[index + 1..]);
        add_statement(body, around, following, s)?;
    }
    Ok(())
}
