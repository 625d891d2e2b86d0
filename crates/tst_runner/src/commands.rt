//! A script, act by act.

ghost use Rattle.std.specs.Prelude.{List, ℕ, Option, Result};
ghost use Rattle.script_parser.specs.Trees.{commands_of, with_command};
ghost use Rattle.script_parser.specs.Trees.Commands.{End};
ghost use Rattle.tst_runner.specs.Acts.{acts_of};
ghost use Rattle.tst_runner.specs.Setting.{setting_of};
ghost use Rattle.tst_runner.specs.Standing.{Standing};
ghost use Rattle.outer_world.specs.Held.{HaveSameSink, pending, sink_of};
ghost use Rattle.outer_world.specs.State.{Keeps};
ghost use Rattle.tst_runner.specs.Inner.States.{CountsStop, IsState, PerformsAll, StandsThere};

use crate::acts::{Script, perform};
use crate::standing::{State, Stop};
use outer_world::{Pieces, Shelf, Sink};
use script_parser::Command;
use std::alloc::Global;

// Does a command: an act, or commands as often as their number says.
#[cycle(running)]
fn run_command<F: Shelf, O: Sink, E: Sink>(
    alloc: Global,
    script: Script<'_>,
    command: &Command,
    state: &mut State,
    shelf: &mut F,
    out: &mut Pieces<'_, O>,
    err: &mut E,
) -> Result<(), Stop>
    requires { (w e : Option (List ℕ)) × ((s : Standing) × IsState
        (setting_of script.path.now (F.state shelf.old).files script.memories) state.old s
        × StandsThere w
        (O.state (sink_of out.old)).written e (E.state err.old).written (pending out.old) s) }
    ensures does { (w e : Option (List ℕ)) (s : Standing) → IsState
        (setting_of script.entry.path.now (F.state shelf.old).files script.entry.memories)
        state.old s → StandsThere w (O.state (sink_of out.old)).written e
        (E.state err.old).written (pending out.old) s → PerformsAll
        (setting_of script.entry.path.now (F.state shelf.old).files script.entry.memories)
        (F.state shelf.old).there (F.state shelf.old).unfailing w
        (O.state (sink_of out.new)).written e (E.state err.new).written (pending out.new) s
        (acts_of (with_command command.now End)) state.new result }
    ensures counts { CountsStop (F.faults shelf.old)
        (F.faults shelf.new) (O.state (sink_of out.old)).faults (O.state (sink_of out.new)).faults
        (E.state err.old).faults (E.state err.new).faults result }
    ensures same_sink { HaveSameSink out.old out.new }
    ensures keeps { Keeps (F.state shelf.old) (F.state shelf.new) }
{
    match command {
        Command::Act(act) => perform(alloc, script, act, state, shelf, out, err),
        Command::Repeat(count, body) => {
            for _ in 0..*count {
                run_commands(alloc, script, body, state, shelf, out, err)?;
            }
            Ok(())
        }
    }
}

/// Does commands, one after another.
#[cycle(running)]
pub fn run_commands<F: Shelf, O: Sink, E: Sink>(
    alloc: Global,
    script: Script<'_>,
    commands: &[Command],
    state: &mut State,
    shelf: &mut F,
    out: &mut Pieces<'_, O>,
    err: &mut E,
) -> Result<(), Stop>
    requires { (w e : Option (List ℕ)) × ((s : Standing) × IsState
        (setting_of script.path.now (F.state shelf.old).files script.memories) state.old s
        × StandsThere w
        (O.state (sink_of out.old)).written e (E.state err.old).written (pending out.old) s) }
    ensures does { (w e : Option (List ℕ)) (s : Standing) → IsState
        (setting_of script.entry.path.now (F.state shelf.old).files script.entry.memories)
        state.old s → StandsThere w (O.state (sink_of out.old)).written e
        (E.state err.old).written (pending out.old) s → PerformsAll
        (setting_of script.entry.path.now (F.state shelf.old).files script.entry.memories)
        (F.state shelf.old).there (F.state shelf.old).unfailing w
        (O.state (sink_of out.new)).written e (E.state err.new).written (pending out.new) s
        (acts_of (commands_of commands.now)) state.new result }
    ensures counts { CountsStop (F.faults shelf.old)
        (F.faults shelf.new) (O.state (sink_of out.old)).faults (O.state (sink_of out.new)).faults
        (E.state err.old).faults (E.state err.new).faults result }
    ensures same_sink { HaveSameSink out.old out.new }
    ensures keeps { Keeps (F.state shelf.old) (F.state shelf.new) }
{
    for command in commands {
        run_command(alloc, script, command, state, shelf, out, err)?;
    }
    Ok(())
}
