//! Lines and labels.
ghost use Rattle.std.specs.Prelude.{◌≡◌, ◌++◌, ◌∷◌, [], OnOk, IfOk, codes, decimal};
ghost use Rattle.vm_tree.specs.declared.command.Command.TheVariants as command;
ghost use Rattle.jack_compiler.specs.Lines.{quiet as quiet_line, commit as commit_line};

use outer_world::{List, Name};
use std::alloc::{AllocError, Global};
use vm_tree::{Command, Line};

// A line at the end.
fn add(
    lines: &mut List<Line>,
    statement: u32,
    commit: bool,
    command: Command,
) -> Result<(), AllocError>
    ensures { OnOk result (lines.new
        ≡ lines.old ++ record { command = command; statement = statement; commit = commit } ∷ []) }
{
    lines.push(Line {
        command,
        statement,
        commit,
    })?;
    Ok(())
}

/// A command on the way.
pub(crate) fn quiet(
    lines: &mut List<Line>,
    statement: u32,
    command: Command,
) -> Result<(), AllocError>
    ensures { OnOk result (lines.new ≡ lines.old ++ quiet_line statement command ∷ []) }
{
    add(lines, statement, false, command)
}

/// A command that ends a step of the meaning.
pub(crate) fn commit(
    lines: &mut List<Line>,
    statement: u32,
    command: Command,
) -> Result<(), AllocError>
    ensures { OnOk result (lines.new ≡ lines.old ++ commit_line statement command ∷ []) }
{
    add(lines, statement, true, command)
}

// A label with its number.
fn label(alloc: Global, word: &str, number: u32) -> Result<Name, AllocError>
    ensures { IfOk result (λ name. name ≡ word.now ++ decimal number) }
{
    let text = format!(in alloc; "{word}{number}")?;
    Name::new(alloc, text.as_str())
}

/// A label with its number, which commands go to.
pub(crate) fn add_label(
    alloc: Global,
    lines: &mut List<Line>,
    statement: u32,
    word: &str,
    number: u32,
) -> Result<(), AllocError>
    ensures { OnOk result (lines.new
        ≡ lines.old ++ quiet_line statement (command.Label (word.now ++ decimal number)) ∷ []) }
{
    let label = label(alloc, word, number)?;
    quiet(lines, statement, Command::Label(label))
}

/// A jump to a label.
pub(crate) fn add_goto(
    alloc: Global,
    lines: &mut List<Line>,
    statement: u32,
    word: &str,
    number: u32,
) -> Result<(), AllocError>
    ensures { OnOk result (lines.new
        ≡ lines.old ++ quiet_line statement (command.Goto (word.now ++ decimal number)) ∷ []) }
{
    let label = label(alloc, word, number)?;
    quiet(lines, statement, Command::Goto(label))
}

/// A choice that goes to a label.
pub(crate) fn add_if_goto(
    alloc: Global,
    lines: &mut List<Line>,
    statement: u32,
    word: &str,
    number: u32,
) -> Result<(), AllocError>
    ensures { OnOk result (lines.new
        ≡ lines.old ++ commit_line statement (command.IfGoto (word.now ++ decimal number)) ∷ []) }
{
    let label = label(alloc, word, number)?;
    commit(lines, statement, Command::IfGoto(label))
}
