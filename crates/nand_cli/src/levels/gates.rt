//! Level gates: the computer made of gates with the image of a program.
ghost use Rattle.std.specs.Prelude.{◌≡◌, ℕ, [], IfOk, IsSome};
ghost use Rattle.jack_core.specs.Texts.{names_of};
ghost use Rattle.jack_compiler.specs.Resolved.{IsResolvedCore};
ghost use Rattle.key_script.specs.Codes.{code_at};
ghost use Rattle.outer_world.specs.Held.{HaveSameSink, pending, sink_of};
ghost use Rattle.outer_world.specs.Written.{CountsPut};
ghost use Rattle.simulation.specs.System.{IsKey};
ghost use Rattle.image_map.specs.Map.{IsMapped};
ghost use Rattle.tower.specs.Image.{IsImageOf};
ghost use Rattle.nand_cli.specs.Commands.Gates.{IsGatesReport};
ghost use Rattle.nand_cli.specs.Inner.Reports.{CountsReport, IsAtStart, IsPut, IsSimpleAtStart, IsWholeAtStart, PutsNets, Reports, gates_head};

use crate::failure::{Failure, finished};
use crate::report::{head_of, report};
use command_line::Shown;
use gate_computer::{GateComputer, prepare_gates};
use image_map::Image;
use jack_core::Core;
use key_script::Keys;
use machine_io::{End, LevelName, Show, drive, put_head};
use outer_world::{Pieces, Put, Sink};
use std::alloc::{AllocError, Global};

/// The computer made of gates at its start, with the image of a program.
pub fn gates_at_start(alloc: Global, core: &Core, image: Image) -> Result<GateComputer, AllocError>
    requires image { IsImageOf core.now image }
    requires mapped { IsMapped image }
    ensures { IfOk result (IsWholeAtStart core.now) }
{
    prepare_gates(alloc, image, false)
}

/// The same with its netlist simplified.
pub fn simple_at_start(alloc: Global, core: &Core, image: Image) -> Result<GateComputer, AllocError>
    requires image { IsImageOf core.now image }
    requires mapped { IsMapped image }
    ensures { IfOk result (IsSimpleAtStart core.now) }
{
    prepare_gates(alloc, image, true)
}

/// Moves the computer from its start, simplified or not, and puts its report with words of the memory. It wants no
/// memory.
pub fn report_words<O: Sink>(
    computer: &mut GateComputer,
    core: &Core,
    keys: &Keys,
    cycles: u32,
    show: Show,
    out: &mut O,
) -> Result<(), Failure>
    requires resolved { IsResolvedCore core.now }
    requires words { (c : ℕ) → IsKey (code_at keys.now c) }
    requires start { IsAtStart core.now computer.old }
    ensures reports { Reports (IsGatesReport core.now (code_at keys.now) cycles (Shown.Words show))
        (O.state out.old) (O.state out.new) result }
    ensures counts { CountsReport (O.state out.old) (O.state out.new) result }
    ensures put { IsPut result }
{
    report(computer, LevelName::Gates, core, keys, cycles, show, out)
}

// Puts the five lines of a report, and after them the outputs of all parts in the cycle that comes next. It begins from
// an empty buffer, which is empty again after it.
fn put_nets<O: Sink>(
    computer: &mut GateComputer,
    core: &Core,
    end: End,
    key: u16,
    out: &mut Pieces<'_, O>,
) -> Put
    requires whole { IsSome computer.old.wiring.parts }
    requires empty { pending out.old ≡ [] }
    ensures same_sink { HaveSameSink out.old out.new }
    ensures put { PutsNets computer.old key (gates_head computer.old (names_of core.now) end)
        (O.state (sink_of out.old)) (O.state (sink_of out.new)) result }
    ensures counts { CountsPut (O.state (sink_of out.old)).faults
        (O.state (sink_of out.new)).faults result }
{
    match put_head(&head_of(computer, LevelName::Gates, core, end), out) {
        Put::Done => {}
        Put::Failed => return Put::Failed,
    }
    match computer.put_nets(key, out) {
        Put::Done => out.finish(),
        Put::Failed => Put::Failed,
    }
}

// The same, into a sink.
fn show_nets<O: Sink>(
    computer: &mut GateComputer,
    core: &Core,
    end: End,
    key: u16,
    out: &mut O,
) -> Put
    requires { IsSome computer.old.wiring.parts }
    ensures put { PutsNets computer.old key (gates_head computer.old (names_of core.now) end)
        (O.state out.old) (O.state out.new) result }
    ensures counts { CountsPut (O.state out.old).faults (O.state out.new).faults result }
{
    let mut pieces = Pieces::new(out);
    put_nets(computer, core, end, key, &mut pieces)
}

// The report with the outputs of all parts in the cycle that comes next, under its key.
fn report_nets<O: Sink>(
    computer: &mut GateComputer,
    core: &Core,
    keys: &Keys,
    cycles: u32,
    out: &mut O,
) -> Result<(), Failure>
    requires resolved { IsResolvedCore core.now }
    requires words { (c : ℕ) → IsKey (code_at keys.now c) }
    requires start { IsWholeAtStart core.now computer.old }
    ensures reports { Reports (IsGatesReport core.now (code_at keys.now) cycles Shown.Nets)
        (O.state out.old) (O.state out.new) result }
    ensures counts { CountsReport (O.state out.old) (O.state out.new) result }
    ensures put { IsPut result }
{
    let n = u64::from(cycles);
    let end = drive(computer, keys, n)?;
    let key = keys.at(n);
    finished(show_nets(computer, core, end, key, out))
}

/// Moves the computer from its start, which is not simplified, and puts its report. It wants no memory.
pub fn report_gates<O: Sink>(
    computer: &mut GateComputer,
    core: &Core,
    keys: &Keys,
    cycles: u32,
    shown: Shown,
    out: &mut O,
) -> Result<(), Failure>
    requires resolved { IsResolvedCore core.now }
    requires words { (c : ℕ) → IsKey (code_at keys.now c) }
    requires start { IsWholeAtStart core.now computer.old }
    ensures reports { Reports (IsGatesReport core.now (code_at keys.now) cycles shown)
        (O.state out.old) (O.state out.new) result }
    ensures counts { CountsReport (O.state out.old) (O.state out.new) result }
    ensures put { IsPut result }
{
    match shown {
        Shown::Words(show) => report_words(computer, core, keys, cycles, show, out),
        Shown::Nets => report_nets(computer, core, keys, cycles, out),
    }
}
