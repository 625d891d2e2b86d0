//! The commands of expressions.
ghost use Rattle.std.specs.Prelude.{◌≡◌, ◌+◌, ◌++◌, ◌∷◌, [], OnOk, IfOk, ◌<◌, length, map};
ghost use Rattle.jack_core.specs.Reading.{the_variable, the_sign, the_operator, the_expression};
ghost use Rattle.jack_compiler.specs.Lines.{sign_command, operator_command, push_variable, pop_variable, literal_lines, load_lines, expression_lines};
ghost use Rattle.jack_compiler.specs.Inner.Postfix.{part_lines};
ghost use Rattle.jack_compiler.specs.Files.{name_at};
ghost use Rattle.jack_compiler.specs.Inner.Surroundings.{the_around};
ghost use Rattle.jack_compiler.specs.Inner.Named.{Names, NamesPart, NamesVariable};

use crate::lines::{commit, quiet};
use jack_core::{Expression, Operator, Part, Sign, Subroutine, Variable};
use outer_world::{List, Name};
use std::alloc::{AllocError, Global};
use vm_tree::{Command, Line, Operation, Segment};

/// What commands need of the program round their subroutine: all subroutines, which are called by their names, and how
/// many statics the classes before its own have.
#[derive(Clone, Copy)]
pub struct Around<'a> {
    pub alloc: Global,
    pub subroutines: &'a [Subroutine],
    pub before: u32,
}

/// The name of a subroutine.
pub(crate) fn name_at(around: &Around<'_>, number: usize) -> Result<Name, AllocError>
    requires { number < length around.now.subroutines.now }
    ensures { IfOk result (λ name. name ≡ (the_around around.now).name number) }
{
    around.subroutines[number].name.clone()
}

fn sign_command(sign: Sign) -> Command
    ensures { result ≡ sign_command (the_sign sign) }
{
    match sign {
        Sign::Minus => Command::Operate(Operation::Neg),
        Sign::Complement => Command::Operate(Operation::Not),
        Sign::ShiftLeft => Command::Operate(Operation::ShiftLeft),
        Sign::ShiftRight => Command::Operate(Operation::ShiftRight),
    }
}

fn operator_command(operator: Operator) -> Command
    ensures { result ≡ operator_command (the_operator operator) }
{
    Command::Operate(match operator {
        Operator::Plus => Operation::Add,
        Operator::Subtract => Operation::Sub,
        Operator::And => Operation::And,
        Operator::Or => Operation::Or,
        Operator::Less => Operation::Lt,
        Operator::Greater => Operation::Gt,
        Operator::Equal => Operation::Eq,
    })
}

fn push_variable(around: &Around<'_>, variable: Variable) -> Command
    requires { NamesVariable around.now (the_variable variable) }
    ensures { result ≡ push_variable (the_around around.now) (the_variable variable) }
{
    match variable {
        Variable::Argument(k) => Command::Push(Segment::Argument, k as u16),
        Variable::Local(k) => Command::Push(Segment::Local, k as u16),
        Variable::Static(k) => Command::Push(Segment::Static, (k - around.before) as u16),
    }
}

/// The command that a variable gets its value by.
pub(crate) fn pop_variable(around: &Around<'_>, variable: Variable) -> Command
    requires { NamesVariable around.now (the_variable variable) }
    ensures { result ≡ pop_variable (the_around around.now) (the_variable variable) }
{
    match variable {
        Variable::Argument(k) => Command::Pop(Segment::Argument, k as u16),
        Variable::Local(k) => Command::Pop(Segment::Local, k as u16),
        Variable::Static(k) => Command::Pop(Segment::Static, (k - around.before) as u16),
    }
}

// True is 65,535, which no command can push: it is the complement of 0.
fn add_literal(lines: &mut List<Line>, statement: u32, word: u16) -> Result<(), AllocError>
    ensures { OnOk result (lines.new ≡ lines.old ++ literal_lines statement word) }
{
    if word == 65_535 {
        quiet(lines, statement, Command::Push(Segment::Constant, 0))?;
        commit(lines, statement, Command::Operate(Operation::Not))
    } else {
        commit(lines, statement, Command::Push(Segment::Constant, word))
    }
}

// The address on top becomes the word there.
fn add_load(lines: &mut List<Line>, statement: u32) -> Result<(), AllocError>
    ensures { OnOk result (lines.new ≡ lines.old ++ load_lines statement) }
{
    quiet(lines, statement, Command::Operate(Operation::Add))?;
    quiet(lines, statement, Command::Pop(Segment::Pointer, 1))?;
    commit(lines, statement, Command::Push(Segment::That, 0))
}

// What a part adds after the commands of its operands.
fn add_part(
    lines: &mut List<Line>,
    around: &Around<'_>,
    statement: u32,
    part: Part,
) -> Result<(), AllocError>
    requires { NamesPart around.now part }
    ensures { OnOk result
        (lines.new ≡ lines.old ++ part_lines (the_around around.now) statement part) }
{
    match part {
        Part::Literal(word) => add_literal(lines, statement, word),
        Part::Argument(k) => commit(
            lines,
            statement,
            push_variable(around, Variable::Argument(k)),
        ),
        Part::Local(k) => commit(lines, statement, push_variable(around, Variable::Local(k))),
        Part::Static(k) => commit(lines, statement, push_variable(around, Variable::Static(k))),
        Part::This => commit(lines, statement, Command::Push(Segment::Pointer, 0)),
        Part::Field(k) => commit(lines, statement, Command::Push(Segment::This, k)),
        Part::Unary(sign) => commit(lines, statement, sign_command(sign)),
        Part::Binary(operator) => commit(lines, statement, operator_command(operator)),
        Part::Load => add_load(lines, statement),
        Part::Call { arguments, number } => {
            let name = name_at(around, number as usize)?;
            commit(lines, statement, Command::Call(name, arguments))
        }
    }
}

/// The commands of an expression of a statement, at the end of these lines. Its parts stand in the order of their commands.
pub(crate) fn add_expression(
    lines: &mut List<Line>,
    around: &Around<'_>,
    statement: u32,
    e: &Expression,
) -> Result<(), AllocError>
    requires { Names around.now (the_expression e.now) }
    ensures { OnOk result (lines.new
        ≡ lines.old ++ expression_lines (the_around around.now) statement (the_expression e.now)) }
{
    for part in e.parts.as_slice() {
        add_part(lines, around, statement, *part)?;
    }
    Ok(())
}
