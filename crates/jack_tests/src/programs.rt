//! Programs as rows of tables.

ghost use Rattle.std.specs.Prelude.{◌≡◌, ◌+◌, ℕ, IfOk, OnOk, Some, true};
ghost use Rattle.jack_core.specs.Heights.{height, takes};
ghost use Rattle.jack_core.specs.Reading.{the_expression};
ghost use Rattle.jack_core.specs.Texts.{the_block, the_program, the_statement};
ghost use Rattle.jack_meaning.specs.Linked.{calls, statement_calls, text_calls};
ghost use Rattle.jack_machine.specs.Calls.{CallsAreThere};
ghost use Rattle.jack_tests.specs.Inner.Called.{AreOfFour, AreSo, IsOfFour, OfFour};

use jack_core::{
    Class, Core, Expression, Kind, Operator, Part, Parts, Statement, Subroutine, Variable,
};
use outer_world::Name;
use std::alloc::{AllocError, Global};
use std::test::Fail;

/// A statement as it is written, with its number.
#[derive(Clone, Copy)]
pub(super) enum Written<'a> {
    /// `let` of a local, by its number.
    Let(u32, u32, &'a [Part]),
    /// Base, index and value.
    Store(u32, &'a [Part], &'a [Part], &'a [Part]),
    Do(u32, &'a [Part]),
    Return(u32, &'a [Part]),
}

/// The function Main.main: its number of locals, its first statements, its loops after them, and the number of its last
/// statement, which is `return;`. A method Main.get of two arguments returns a value.
#[derive(Clone, Copy)]
pub(super) struct Main<'a> {
    pub(super) locals: u32,
    pub(super) body: &'a [Written<'a>],
    pub(super) turns: &'a [(u32, &'a [Part], &'a [Written<'a>])],
    pub(super) last: u32,
    pub(super) method: &'a [Part],
}

// How many values a part takes.
fn taken(part: Part) -> usize
    ensures { result ≡ takes part }
{
    match part {
        Part::Literal(_)
        | Part::Argument(_)
        | Part::Local(_)
        | Part::Static(_)
        | Part::This
        | Part::Field(_) => 0,
        Part::Unary(_) => 1,
        Part::Binary(_) | Part::Load => 2,
        Part::Call { arguments, .. } => arguments as usize,
    }
}

// Whether a part calls none but the four subroutines.
fn is_of_four(part: Part) -> bool
    ensures { result ≡ true → IsOfFour part }
{
    match part {
        Part::Call { number, .. } => number < 4,
        _ => true,
    }
}

// A part after parts that leave this many values, and how many are left then.
#[tactic(auto, using(crate::proofs::Heights::height_put, crate::proofs::Calls::push_four))]
fn add_part(all: &mut Vec<Part>, values: usize, part: Part) -> Result<usize, Fail>
    requires values { height 0 all.old.items ≡ Some values }
    requires calls { AreOfFour all.old.items }
    ensures values { IfOk result (λ left. height 0 all.new.items ≡ Some left) }
    ensures calls { OnOk result (AreOfFour all.new.items) }
{
    let taken = taken(part);
    if taken > values || values == usize::MAX {
        return Err(Fail::from("a part without its values"));
    }
    if !is_of_four(part) {
        return Err(Fail::from("a call of a fifth subroutine"));
    }
    all.push(part)?;
    Ok(values - taken + 1)
}

// The expression of these parts, in the order in which they become values, where each part finds its own and one value
// is left.
fn expression(alloc: Global, parts: &[Part]) -> Result<Expression, Fail>
    ensures { IfOk result (λ e. OfFour (calls (the_expression e))) }
{
    let mut all = Vec::new(alloc);
    let mut values = 0usize;
    for part in parts {
        values = add_part(&mut all, values, *part)?;
    }
    if values != 1 {
        return Err(Fail::from("another number of values than one"));
    }
    let kept = Parts::new(alloc, all)?;
    Ok(Expression { parts: kept })
}

fn statement(alloc: Global, written: Written<'_>) -> Result<Statement, Fail>
    ensures { IfOk result (λ s. OfFour (statement_calls (the_statement s))) }
{
    match written {
        Written::Let(number, k, value) => Ok(Statement::Let {
            number,
            variable: Variable::Local(k),
            value: expression(alloc, value)?,
        }),
        Written::Store(number, base, index, value) => Ok(Statement::Store {
            number,
            base: expression(alloc, base)?,
            index: expression(alloc, index)?,
            value: expression(alloc, value)?,
        }),
        Written::Do(number, call) => Ok(Statement::Do {
            number,
            call: expression(alloc, call)?,
        }),
        Written::Return(number, value) => Ok(Statement::Return {
            number,
            value: expression(alloc, value)?,
        }),
    }
}

#[tactic(auto, using(crate::proofs::Calls::none_four))]
fn statements(alloc: Global, written: &[Written<'_>]) -> Result<Vec<Statement>, Fail>
    ensures { IfOk result (λ ss. OfFour (text_calls (the_block ss.items))) }
{
    let mut all = Vec::new(alloc);
    for row in written {
        let statement = statement(alloc, *row)?;
        let Ok(()) = all.push(statement) else {
            return Err(Fail::from("memory"));
        };
    }
    Ok(all)
}

fn main_body(alloc: Global, main: &Main<'_>) -> Result<Vec<Statement>, Fail>
    ensures { IfOk result (λ ss. OfFour (text_calls (the_block ss.items))) }
{
    let mut all = statements(alloc, main.body)?;
    for (number, condition, body) in main.turns {
        let turn = Statement::While {
            number: *number,
            condition: expression(alloc, condition)?,
            body: statements(alloc, body)?,
        };
        let Ok(()) = all.push(turn) else {
            return Err(Fail::from("memory"));
        };
    }
    let last = statement(alloc, Written::Return(main.last, &[Part::Literal(0)]))?;
    let Ok(()) = all.push(last) else {
        return Err(Fail::from("memory"));
    };
    Ok(all)
}

// One more subroutine, with this many arguments and locals.
#[tactic(auto, using(crate::proofs::Calls::so_more))]
fn add_subroutine(
    alloc: Global,
    all: &mut Vec<Subroutine>,
    name: &str,
    kind: Kind,
    counts: (u32, u32),
    body: Vec<Statement>,
) -> Result<(), AllocError>
    requires { OfFour (text_calls (the_block body.items)) }
    ensures { (n : ℕ) → AreSo n all.old.items → OnOk result (AreSo (n + 1) all.new.items) }
{
    let (arguments, locals) = counts;
    all.push(Subroutine {
        name: Name::new(alloc, name)?,
        kind,
        class: 0,
        arguments,
        locals,
        body,
    })?;
    Ok(())
}

// `do Main.main(); return;`
const INIT: &[Written<'static>] = &[
    Written::Do(
        1,
        &[Part::Call {
            arguments: 0,
            number: 2,
        }],
    ),
    Written::Return(2, &[Part::Literal(0)]),
];

// The subroutines, each at its number.
fn subroutines(alloc: Global, main: &Main<'_>) -> Result<Vec<Subroutine>, Fail>
    ensures { IfOk result (λ subs. AreSo 4 subs.items) }
{
    let mut all = Vec::new(alloc);
    add_subroutine(
        alloc,
        &mut all,
        "start",
        Kind::Function,
        (0, 0),
        Vec::new(alloc),
    )?;
    let init = statements(alloc, INIT)?;
    add_subroutine(alloc, &mut all, "Sys.init", Kind::Function, (0, 0), init)?;
    let body = main_body(alloc, main)?;
    add_subroutine(
        alloc,
        &mut all,
        "Main.main",
        Kind::Function,
        (0, main.locals),
        body,
    )?;
    let get = statements(alloc, &[Written::Return(1, main.method)])?;
    add_subroutine(alloc, &mut all, "Main.get", Kind::Method, (2, 0), get)?;
    Ok(all)
}

fn classes(alloc: Global) -> Result<Vec<Class>, AllocError> {
    let mut classes = Vec::new(alloc);
    for (name, fields, statics) in [("Main", 1, 2), ("Sys", 0, 1)] {
        classes.push(Class {
            name: Name::new(alloc, name)?,
            fields,
            statics,
        })?;
    }
    Ok(classes)
}

/// The program of `Main`, and of `Sys.init`, which calls it.
pub(super) fn core(alloc: Global, main: &Main<'_>) -> Result<Core, Fail>
    ensures { IfOk result (λ core. CallsAreThere (the_program core)) }
{
    Ok(Core {
        classes: classes(alloc)?,
        subroutines: subroutines(alloc, main)?,
        init: 1,
    })
}

/// 1 - 1 - 1 .., with this many operators.
pub(super) fn left_nested(alloc: Global, n: usize) -> Result<Vec<Part>, AllocError> {
    let mut parts = vec![in alloc; Part::Literal(1)]?;
    for _ in 0..n {
        parts.push(Part::Literal(1))?;
        parts.push(Part::Binary(Operator::Subtract))?;
    }
    Ok(parts)
}

/// 1 - (1 - (1 - ..)), with this many operators.
pub(super) fn right_nested(alloc: Global, n: usize) -> Result<Vec<Part>, AllocError> {
    let mut parts = vec![in alloc; Part::Literal(1)]?;
    for _ in 0..n {
        parts.push(Part::Literal(1))?;
    }
    for _ in 0..n {
        parts.push(Part::Binary(Operator::Subtract))?;
    }
    Ok(parts)
}
