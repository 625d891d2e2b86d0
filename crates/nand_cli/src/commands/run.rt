//! The command `run`: a program is built and its keys are read, and then it is run and its report is put.
ghost use Rattle.std.specs.Prelude.{ℕ, option_map};
ghost use Rattle.outer_world.specs.State.{Keeps, SinkState};
ghost use Rattle.command_line.specs.Line.{of_classes, run, source_of};
ghost use Rattle.jack_compiler.specs.Resolved.{IsResolvedCore};
ghost use Rattle.key_script.specs.Codes.{code_at};
ghost use Rattle.key_script.specs.declared.keys.Keys.{Keys};
ghost use Rattle.simulation.specs.System.{IsKey};
ghost use Rattle.source_files.specs.Loads.{CountsLoad, Loads};
ghost use Rattle.nand_cli.specs.Commands.Run.{HasKeys, IsReport, LacksKeys, RunRefuses, ScriptIsRefused, TellsAtMost};
ghost use Rattle.nand_cli.specs.Inner.Parts.{Counts, Does, MissesLine};
ghost use Rattle.nand_cli.specs.Inner.Prepared.{IsAtItsStart, IsPrepared, IsReady, WantsNoMemory, level_of};
ghost use Rattle.nand_cli.specs.Inner.Reports.{CountsReport, IsPut, Reports};

use crate::failure::Failure;
use crate::jack::{image_of, load_jack};
use crate::levels::gates::{report_gates, report_words};
use crate::levels::hack::report_hack;
use crate::levels::jack::report_jack;
use crate::levels::vm::report_vm;
use crate::levels::{Machine, machine_at_start};
use command_line::{Run, Source};
use jack_core::Core;
use key_script::{KeyLanguage, Keys};
use outer_world::{Shelf, Sink};
use source_files::{LoadError, load};
use std::alloc::Global;

/// A run of a program that is built, with the keys that are read and a machine at its start.
pub struct PreparedRun {
    core: Core,
    keys: Keys,
    cycles: u32,
    machine: Machine,
}

// By hand, so that whoever drops one calls this.
impl Drop for PreparedRun {
    fn drop(self) {
        let PreparedRun {
            core: _,
            keys: _,
            cycles: _,
            machine: _,
        } = self;
    }
}

/// The keys of a run; without a script no key is ever pressed.
pub fn load_keys<F: Shelf>(
    alloc: Global,
    path: Option<&str>,
    shelf: &mut F,
) -> Result<Keys, LoadError>
    ensures loads { Loads (λ (keys : Keys). HasKeys (F.state shelf.old).files
        (option_map (λ path. path.now) path.entry) keys)
        (ScriptIsRefused (F.state shelf.old).files (option_map (λ path. path.now) path.entry))
        ((F.state shelf.old).unfailing → LacksKeys (F.state shelf.old).files
        (option_map (λ path. path.now) path.entry)) result }
    ensures counts { CountsLoad (F.faults shelf.old) (F.faults shelf.new) result }
    ensures keeps { Keeps (F.state shelf.old) (F.state shelf.new) }
{
    match path {
        None => Ok(Keys::none(alloc)),
        Some(path) => load(alloc, &KeyLanguage, path, "", shelf),
    }
}

/// Reads and builds all that a line of `run` needs. At each level the program is built first, then the keys are read, and then the machine is put at
/// its start.
///
/// Otherwise the refusal of the folder, else of the build, else of the key script; or the shelf failed, or memory was wanted.
pub fn prepare_run<F: Shelf>(
    alloc: Global,
    source: &Source<'_>,
    request: &Run<'_>,
    shelf: &mut F,
) -> Result<PreparedRun, LoadError>
    ensures loads { Loads
        (IsPrepared (F.state shelf.old).files (source_of source.now) request.now.level
        request.now.cycles (option_map (λ keys. keys.now) request.now.keys))
        (RunRefuses (F.state shelf.old).files (source_of source.now)
        (option_map (λ keys. keys.now) request.now.keys))
        (MissesLine (F.state shelf.old)
        (of_classes (source_of source.now) (run request.now.level request.now.cycles
        (option_map (λ keys. keys.now) request.now.keys)))) result }
    ensures counts { CountsLoad (F.faults shelf.old) (F.faults shelf.new) result }
    ensures keeps { Keeps (F.state shelf.old) (F.state shelf.new) }
{
    let core = load_jack(alloc, source, shelf)?;
    let image = image_of(alloc, source.folder, &core)?;
    let keys = load_keys(alloc, request.keys, shelf)?;
    let machine = machine_at_start(alloc, &core, image, request.level)?;
    Ok(PreparedRun {
        core,
        keys,
        cycles: request.cycles,
        machine,
    })
}

// Runs a machine from its start, with at most this many moves, and puts its report.
fn report_machine<O: Sink>(
    machine: &mut Machine,
    core: &Core,
    keys: &Keys,
    cycles: u32,
    out: &mut O,
) -> Result<(), Failure>
    requires resolved { IsResolvedCore core.now }
    requires words { (c : ℕ) → IsKey (code_at keys.now c) }
    requires start { IsAtItsStart core.now machine.old }
    ensures reports { Reports
        (λ text. IsReport (level_of machine.old) core.now (code_at keys.now) cycles text
        × TellsAtMost cycles text) (O.state out.old) (O.state out.new) result }
    ensures counts { CountsReport (O.state out.old) (O.state out.new) result }
    ensures put { WantsNoMemory machine.old → IsPut result }
{
    match machine {
        Machine::Jack(alloc, show) => report_jack(*alloc, core, keys, cycles, *show, out),
        Machine::Vm(vm, show) => report_vm(vm, core, keys, cycles, *show, out),
        Machine::Hack(hack, show) => report_hack(hack, core, keys, cycles, *show, out),
        Machine::Simplified(computer, show) => {
            report_words(computer, core, keys, cycles, *show, out)
        }
        Machine::Gates(computer, shown) => {
            report_gates(computer, core, keys, cycles, *shown, out)
        }
    }
}

impl PreparedRun {
    /// Runs the program, with at most as many moves as are asked for, and puts its report. No memory is wanted but at level jack, where each call of
    /// the program may want some.
    pub fn show<O: Sink>(mut self, out: &mut O) -> Result<(), Failure>
        requires { IsReady self }
        ensures reports { Reports
            (λ text. IsReport (level_of self.machine) self.core (code_at self.keys) self.cycles text
            × TellsAtMost self.cycles text) (O.state out.old) (O.state out.new) result }
        ensures counts { CountsReport (O.state out.old) (O.state out.new) result }
        ensures put { WantsNoMemory self.machine → IsPut result }
    {
        report_machine(&mut self.machine, &self.core, &self.keys, self.cycles, out)
    }
}

/// Does a line of `run`; err is left as it is.
pub fn answer_run<F: Shelf, O: Sink>(
    alloc: Global,
    source: &Source<'_>,
    request: &Run<'_>,
    shelf: &mut F,
    out: &mut O,
) -> Result<(), Failure>
    ensures does { (err : SinkState) → Does (F.state shelf.old) (of_classes (source_of source.now)
        (run request.now.level request.now.cycles (option_map (λ keys. keys.now) request.now.keys)))
        (O.state out.old) (O.state out.new) err err result }
    ensures counts { (err : SinkState) → Counts (F.faults shelf.old) (F.faults shelf.new)
        (O.state out.old) (O.state out.new) err err result }
    ensures keeps { Keeps (F.state shelf.old) (F.state shelf.new) }
{
    let prepared = prepare_run(alloc, source, request, shelf)?;
    prepared.show(out)
}
