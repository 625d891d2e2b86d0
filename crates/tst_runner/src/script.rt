//! A whole script.

ghost use Rattle.std.specs.Prelude.{◌≡◌, []};
ghost use Rattle.script_parser.specs.Trees.{commands_of};
ghost use Rattle.tst_runner.specs.Acts.{acts_of};
ghost use Rattle.tst_runner.specs.Ends.{HasActs};
ghost use Rattle.tst_runner.specs.Setting.{setting_of};
ghost use Rattle.tst_runner.specs.Verdicts.{CountsScript, Runs};
ghost use Rattle.outer_world.specs.Held.{HaveSameSink, pending, sink_of};
ghost use Rattle.outer_world.specs.State.{Keeps};
ghost use Rattle.tst_runner.specs.Inner.Scripts.{Finishes, is_cut, verdict_of};
ghost use Rattle.tst_runner.specs.declared.script.ScriptError.TheVariants as errors;

use crate::acts::Script;
use crate::commands::run_commands;
use crate::standing::{Difference, State, Stop};
use hdl_tree::Memories;
use outer_world::{Pieces, Put, Shelf, Sink};
use script_device::Device;
use script_parser::{Command, ScriptLanguage};
use source_files::{LoadError, load};
use std::alloc::Global;

/// How a script ended that was not refused: all lines agreed, it has no compare file, or a line differs.
#[derive(Drop)]
pub enum Verdict {
    Same,
    NoCompare,
    Differs(Difference),
}

/// Why a script did not come to its end: what it needs is not loaded or made, or out or err could not be written.
#[derive(Drop)]
pub enum ScriptError {
    Unloaded(LoadError),
    Out,
    Err,
}

impl From<LoadError> for ScriptError {
    ghost from_gives = { λ e f. f ≡ errors.Unloaded e };

    fn from(error: LoadError) -> Self {
        ScriptError::Unloaded(error)
    }
}

// Whether out or err could not be written.
fn is_cut(end: &Result<(), Stop>) -> bool
    ensures { result ≡ is_cut end.now }
{
    match end {
        Ok(()) => false,
        Err(Stop::Unloaded(_)) => false,
        Err(Stop::Differs(_)) => false,
        Err(Stop::Out) => true,
        Err(Stop::Err) => true,
    }
}

// How commands ended, with a compare file or without one.
fn verdict_of(end: Result<(), Stop>, compares: bool) -> Result<Verdict, ScriptError>
    ensures { result ≡ verdict_of end compares }
{
    match end {
        Ok(()) => Ok(if compares {
            Verdict::Same
        } else {
            Verdict::NoCompare
        }),
        Err(Stop::Unloaded(error)) => Err(ScriptError::Unloaded(error)),
        Err(Stop::Differs(difference)) => Ok(Verdict::Differs(difference)),
        Err(Stop::Out) => Err(ScriptError::Out),
        Err(Stop::Err) => Err(ScriptError::Err),
    }
}

// Puts what is pending, unless out or err could not be written, and says how commands ended.
fn finish<O: Sink>(
    end: Result<(), Stop>,
    compares: bool,
    outlet: &mut Pieces<'_, O>,
) -> Result<Verdict, ScriptError>
    ensures same_sink { HaveSameSink outlet.old outlet.new }
    ensures finishes { Finishes (is_cut end) (O.state (sink_of outlet.old))
        (O.state (sink_of outlet.new)) (pending outlet.old) (verdict_of end compares) result }
{
    if is_cut(&end) {
        return verdict_of(end, compares);
    }
    match outlet.finish() {
        Put::Done => verdict_of(end, compares),
        Put::Failed => Err(ScriptError::Out),
    }
}

// Does commands as those of a script, into an empty buffer.
fn run_into<F: Shelf, O: Sink, E: Sink>(
    alloc: Global,
    script: Script<'_>,
    commands: &[Command],
    shelf: &mut F,
    outlet: &mut Pieces<'_, O>,
    err: &mut E,
) -> Result<Verdict, ScriptError>
    requires { pending outlet.old ≡ [] }
    ensures same_sink { HaveSameSink outlet.old outlet.new }
    ensures runs { HasActs (setting_of script.entry.path.now
        (F.state shelf.old).files script.entry.memories) (acts_of (commands_of commands.now))
        → Runs (setting_of script.entry.path.now (F.state shelf.old).files script.entry.memories)
        (F.state shelf.old).there (F.state shelf.old).unfailing (O.state (sink_of outlet.old))
        (O.state (sink_of outlet.new)) (E.state err.old) (E.state err.new) result }
    ensures counts { CountsScript (F.faults shelf.old) (F.faults shelf.new)
        (O.state (sink_of outlet.old)) (O.state (sink_of outlet.new)) (E.state err.old)
        (E.state err.new) result }
    ensures keeps { Keeps (F.state shelf.old) (F.state shelf.new) }
{
    let mut state = State {
        device: Device::Empty,
        loaded: None,
        columns: Vec::new(alloc),
        compared: None,
        lines: 0,
    };
    let end = run_commands(alloc, script, commands, &mut state, shelf, outlet, err);
    finish(end, state.compared.is_some(), outlet)
}

// Does commands as those of a script.
fn run_whole<F: Shelf, O: Sink, E: Sink>(
    alloc: Global,
    script: Script<'_>,
    commands: &[Command],
    shelf: &mut F,
    out: &mut O,
    err: &mut E,
) -> Result<Verdict, ScriptError>
    ensures runs { HasActs (setting_of script.entry.path.now
        (F.state shelf.old).files script.entry.memories) (acts_of (commands_of commands.now))
        → Runs (setting_of script.entry.path.now (F.state shelf.old).files script.entry.memories)
        (F.state shelf.old).there (F.state shelf.old).unfailing (O.state out.old) (O.state out.new)
        (E.state err.old) (E.state err.new) result }
    ensures counts { CountsScript (F.faults shelf.old) (F.faults shelf.new) (O.state out.old)
        (O.state out.new) (E.state err.old) (E.state err.new) result }
    ensures keeps { Keeps (F.state shelf.old) (F.state shelf.new) }
{
    let mut outlet = Pieces::new(out);
    run_into(alloc, script, commands, shelf, &mut outlet, err)
}

/// Does what the script at a path says: its output lines on out, its echoes on err, and how it ended. The message of that is not put. The
/// memories of chips are simulated as `memories` says, and with `simplify` the netlists that run are simplified: all that is put is the same.
pub fn run_script<F: Shelf, O: Sink, E: Sink>(
    alloc: Global,
    path: &str,
    memories: Memories,
    simplify: bool,
    shelf: &mut F,
    out: &mut O,
    err: &mut E,
) -> Result<Verdict, ScriptError>
    ensures runs { Runs (setting_of path.now (F.state shelf.old).files memories)
        (F.state shelf.old).there (F.state shelf.old).unfailing (O.state out.old) (O.state out.new)
        (E.state err.old) (E.state err.new) result }
    ensures counts { CountsScript (F.faults shelf.old) (F.faults shelf.new) (O.state out.old)
        (O.state out.new) (E.state err.old) (E.state err.new) result }
    ensures keeps { Keeps (F.state shelf.old) (F.state shelf.new) }
{
    let script = Script {
        path,
        memories,
        simplify,
    };
    let commands = load(alloc, &ScriptLanguage, path, "", shelf)?;
    run_whole(alloc, script, &commands, shelf, out, err)
}
