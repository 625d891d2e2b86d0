//! The acts of a script, one by one.

ghost use Rattle.std.specs.Prelude.{◌≡◌, ◌↔◌, ◌<◌, ◌+◌, ◌^◌, ◌++◌, ◌∷◌, [], Bool, List, ℕ, Option, IfOk, IsTrue, OnOk, true};
ghost use Rattle.std.specs.Str.Lossy.{utf8_lossy};
ghost use Rattle.outer_world.specs.Files.{path_in};
ghost use Rattle.outer_world.specs.Written.{CountsPut, Puts};
ghost use Rattle.outer_world.specs.Held.{HaveSameSink, pending, sink_of};
ghost use Rattle.outer_world.specs.State.{Keeps};
ghost use Rattle.script_parser.specs.declared.tree.Act.TheVariants as acts;
ghost use Rattle.script_device.specs.Devices as devices;
ghost use Rattle.script_device.specs.Devices.{IsChip, after_tock};
ghost use Rattle.script_device.specs.Running.{DeviceRuns, Stands};
ghost use Rattle.tst_runner.specs.Setting.{Setting, folder_of, setting_of};
ghost use Rattle.tst_runner.specs.Standing.{Standing};
ghost use Rattle.tst_runner.specs.Inner.Outlets.{HasPassed, PutsBehind};
ghost use Rattle.tst_runner.specs.Inner.There.{IsThere};
ghost use Rattle.tst_runner.specs.Inner.States.{Becomes, Compares, CountsStop, FindsColumns, IsFrom, IsNameStop, IsState, Misses, Performs, PutsEcho, PutsOut, Quietly, StandsThere};

use crate::files::{load_compared, load_image, path_beside};
use crate::lines::{Column, names_line, values_line};
use crate::loading::load_device;
use crate::printing::put_through;
use crate::standing::{CompareFile, Difference, State, Stop};
use hdl_tree::Memories;
use outer_world::{Detail, Diagnostic, Name, Pieces, Put, Shelf, Sink};
use script_columns::{agrees_first, past_line, past_lines};
use script_device::Device;
use script_parser::{Act, Item, Placed, Step};
use source_files::LoadError;
use std::alloc::{AllocError, Global};

/// A script: its path, how the memories of its chips are simulated, and whether their netlists are simplified.
#[derive(Clone, Copy)]
pub struct Script<'a> {
    pub path: &'a str,
    pub memories: Memories,
    pub simplify: bool,
}

// No script comes to as many steps, nor to as many lines as a count can hold; past them memory is said to be
// wanting.
const MOST_STEPS: u64 = 1 << 62;

// The refusal of a word that stands for nothing that is wanted.
fn no_name(alloc: Global, path: &str, word: &Placed) -> Stop
    ensures { IsNameStop path.now word.now result }
{
    let name = match Vec::from_slice(alloc, word.text.as_slice()) {
        Ok(name) => name,
        Err(_) => return Stop::Unloaded(LoadError::Memory),
    };
    let told = Diagnostic::at(
        word.place.line,
        word.place.column,
        "Name",
        Detail::Name(name),
    );
    Stop::Unloaded(LoadError::refused(alloc, path, told))
}

// Counts a line that was put, and compares it with that of the compare file.
fn compare(line: &[u8], state: &mut State) -> Result<(), Stop>
    requires room { state.old.lines + 1 < 2 ^ 64 }
    requires stands { (setting : Setting) × ((r : Standing) × IsState setting state.old r) }
    ensures { (setting : Setting) (r : Standing) → IsState setting state.old r
        → Compares setting r line.now state.new result }
{
    state.lines += 1;
    let Some(file) = state.compared.take() else {
        return Ok(());
    };
    let rest = &file.text[file.at..];
    if !agrees_first(rest, line) {
        return Err(Stop::Differs(Difference {
            path: file.path,
            line: state.lines,
        }));
    }
    let at = file.at + past_line(rest);
    state.compared = Some(CompareFile {
        path: file.path,
        text: file.text,
        at,
    });
    Ok(())
}

// Hands on a text, after those before it: whole pieces go out, and the rest is pending.
fn put_behind<O: Sink>(text: &[u8], out: &mut Pieces<'_, O>) -> Put
    ensures same_sink { HaveSameSink out.old out.new }
    ensures puts { (before : Option (List ℕ)) (front : List ℕ)
        → HasPassed before (O.state (sink_of out.old)).written (pending out.old) front → PutsBehind
        before (O.state (sink_of out.new)).written (pending out.new) front text.now result }
    ensures counts { CountsPut (O.state (sink_of out.old)).faults
        (O.state (sink_of out.new)).faults result }
{
    out.put(text)
}

// Puts a line, and compares it.
fn put_line<O: Sink>(line: Vec<u8>, state: &mut State, out: &mut Pieces<'_, O>) -> Result<(), Stop>
    requires { (setting : Setting) × ((r : Standing) × IsState setting state.old r) }
    ensures puts { (setting : Setting)
        (w e f : Option (List ℕ)) (r : Standing) → IsState setting state.old r
        → StandsThere w (O.state (sink_of out.old)).written e f (pending out.old) r
        → PutsOut w (O.state (sink_of out.new)).written e f (pending out.new) setting r line.items
        state.new result }
    ensures counts { (h e : ℕ) → CountsStop h h (O.state (sink_of out.old)).faults
        (O.state (sink_of out.new)).faults e e result }
    ensures same_sink { HaveSameSink out.old out.new }
{
    if state.lines == u64::MAX {
        return Err(Stop::Unloaded(LoadError::Memory));
    }
    let mut text = line;
    text.push(b'\n')?;
    match put_behind(&text, out) {
        Put::Done => compare(&text[..text.len() - 1], state),
        Put::Failed => Err(Stop::Out),
    }
}

fn tock(state: &mut State) -> Result<(), Stop>
    ensures { (setting : Setting) (s : Standing) → IsState setting state.old s
        → Becomes setting state.new (record s { device = after_tock s.device }) result }
{
    if state.device.steps() >= MOST_STEPS {
        return Err(Stop::Unloaded(LoadError::Memory));
    }
    state.device.tock();
    Ok(())
}

fn put_values<O: Sink>(
    alloc: Global,
    state: &mut State,
    out: &mut Pieces<'_, O>,
) -> Result<(), Stop>
    requires { (setting : Setting) × ((s : Standing) × IsState setting state.old s) }
    ensures does { (setting : Setting) (there : List ℕ → Bool)
        (w e f : Option (List ℕ)) (s : Standing) → IsState setting state.old s
        → StandsThere w (O.state (sink_of out.old)).written e f (pending out.old) s
        → Performs setting there ⊥ w (O.state (sink_of out.new)).written e f (pending out.new) s
        (acts.Step Step.Output) state.new result }
    ensures counts { (h e : ℕ) → CountsStop h h (O.state (sink_of out.old)).faults
        (O.state (sink_of out.new)).faults e e result }
    ensures same_sink { HaveSameSink out.old out.new }
{
    let line = values_line(alloc, &state.device, &state.columns)?;
    put_line(line, state, out)
}

fn do_step<O: Sink>(
    alloc: Global,
    step: Step,
    state: &mut State,
    out: &mut Pieces<'_, O>,
) -> Result<(), Stop>
    requires { (setting : Setting) × ((s : Standing) × IsState setting state.old s) }
    ensures does { (setting : Setting) (there : List ℕ → Bool)
        (w e f : Option (List ℕ)) (s : Standing) → IsState setting state.old s
        → StandsThere w (O.state (sink_of out.old)).written e f (pending out.old) s
        → Performs setting there ⊥ w (O.state (sink_of out.new)).written e f (pending out.new) s
        (acts.Step step) state.new result }
    ensures counts { (h e : ℕ) → CountsStop h h (O.state (sink_of out.old)).faults
        (O.state (sink_of out.new)).faults e e result }
    ensures same_sink { HaveSameSink out.old out.new }
{
    match step {
        Step::Eval => {
            state.device.eval();
            Ok(())
        }
        Step::Tick => {
            state.device.tick();
            Ok(())
        }
        Step::Tock => tock(state),
        Step::TickTock => {
            state.device.tick();
            tock(state)
        }
        Step::Output => put_values(alloc, state, out),
    }
}

// The columns of the items, whose names are looked up here alone.
fn columns_of(
    alloc: Global,
    path: &str,
    device: &Device,
    items: &[Item],
) -> Result<Vec<Column>, Stop>
    ensures { (d : devices.Device) → Stands device.now d
        → FindsColumns path.now d items.now result }
{
    let mut columns = Vec::new(alloc);
    for item in items {
        let Some(probe) = device.find(alloc, item.variable.text.as_slice())? else {
            return Err(no_name(alloc, path, &item.variable));
        };
        columns.push(Column {
            layout: item.layout,
            probe,
        })?;
    }
    Ok(columns)
}

fn do_list<O: Sink>(
    alloc: Global,
    path: &str,
    items: &[Item],
    state: &mut State,
    out: &mut Pieces<'_, O>,
) -> Result<(), Stop>
    requires { (setting : Setting) × ((s : Standing) × IsState setting state.old s) }
    ensures does { (setting : Setting) (there : List ℕ → Bool)
        (w e f : Option (List ℕ)) (s : Standing) → setting.path ≡ path.now
        → IsState setting state.old s
        → StandsThere w (O.state (sink_of out.old)).written e f (pending out.old) s
        → Performs setting there ⊥ w (O.state (sink_of out.new)).written e f (pending out.new) s
        (acts.OutputList items.now) state.new result }
    ensures counts { (h e : ℕ) → CountsStop h h (O.state (sink_of out.old)).faults
        (O.state (sink_of out.new)).faults e e result }
    ensures same_sink { HaveSameSink out.old out.new }
{
    let columns = columns_of(alloc, path, &state.device, items)?;
    let line = names_line(alloc, items)?;
    state.columns = columns;
    put_line(line, state, out)
}

fn do_set(
    alloc: Global,
    path: &str,
    variable: &Placed,
    word: u16,
    state: &mut State,
) -> Result<(), Stop>
    requires { (setting : Setting) × ((s : Standing) × IsState setting state.old s) }
    ensures { (setting : Setting) (s : Standing) → setting.path ≡ path.now
        → IsState setting state.old s
        → Quietly setting ⊥ s (acts.Set variable.now word) state.new result }
{
    if state.device.set(variable.text.as_slice(), word) {
        Ok(())
    } else {
        Err(no_name(alloc, path, variable))
    }
}

fn put_echo<E: Sink>(text: &[u8], err: &mut E) -> Put
    ensures put { Puts (E.state err.old) (E.state err.new) (text.now ++ 10 ∷ []) result }
{
    put_through(&[text, b"\n"], err)
}

fn do_echo<E: Sink>(text: &[u8], err: &mut E) -> Result<(), Stop>
    ensures puts { PutsEcho (E.state err.old).written (E.state err.new).written text.now result }
    ensures counts { (h o : ℕ)
        → CountsStop h h o o (E.state err.old).faults (E.state err.new).faults result }
{
    match put_echo(text, err) {
        Put::Done => Ok(()),
        Put::Failed => Err(Stop::Err),
    }
}

// Whether the device is the chip of a file already, with the netlist that is to run for it.
fn is_there(simplify: bool, file: &[u8], state: &State) -> bool
    ensures there { IsTrue result ↔ IsThere simplify file.now state.now }
    ensures chip { (setting : Setting) (s : Standing) → IsState setting state.now s
        → result ≡ true → IsChip s.device × IsFrom setting file.now s.device }
    ensures runs { result ≡ true → DeviceRuns simplify state.now.device }
{
    match &state.loaded {
        None => false,
        Some(loaded) => loaded.as_slice() == file && state.device.is_chip(simplify),
    }
}

fn do_load<F: Shelf>(
    alloc: Global,
    script: Script<'_>,
    file: &Placed,
    state: &mut State,
    shelf: &mut F,
) -> Result<(), Stop>
    ensures does { (s : Standing) → IsState
        (setting_of script.entry.path.now (F.state shelf.old).files script.entry.memories)
        state.old s
        → Quietly (setting_of script.entry.path.now (F.state shelf.old).files script.entry.memories)
        (Misses (setting_of script.entry.path.now (F.state shelf.old).files script.entry.memories)
        (F.state shelf.old).there (F.state shelf.old).unfailing s (acts.Load file.now))
        s (acts.Load file.now) state.new result }
    ensures runs { OnOk result (DeviceRuns script.entry.simplify state.new.device) }
    ensures again { IsThere script.entry.simplify file.now.text state.old → shelf.new ≡ shelf.old }
    ensures counts { (o e : ℕ)
        → CountsStop (F.faults shelf.old) (F.faults shelf.new) o o e e result }
    ensures keeps { Keeps (F.state shelf.old) (F.state shelf.new) }
{
    if is_there(script.simplify, file.text.as_slice(), state) {
        state.device.restart();
        state.columns = Vec::new(alloc);
        return Ok(());
    }
    state.device = load_device(alloc, script, file.text.as_slice(), shelf)?;
    state.loaded = Some(Vec::from_slice(alloc, file.text.as_slice())?);
    state.columns = Vec::new(alloc);
    Ok(())
}

// The path of a file of the script's folder.
fn name_beside(alloc: Global, path: &str, file: &[u8]) -> Result<Name, AllocError>
    ensures { IfOk result (λ name. name ≡ path_in (folder_of path.now) (utf8_lossy file.now)) }
{
    let path = path_beside(alloc, path, file)?;
    Name::new(alloc, path.as_str())
}

fn do_compare<F: Shelf>(
    alloc: Global,
    script: Script<'_>,
    file: &Placed,
    state: &mut State,
    shelf: &mut F,
) -> Result<(), Stop>
    ensures does { (s : Standing) → IsState
        (setting_of script.entry.path.now (F.state shelf.old).files script.entry.memories)
        state.old s
        → Quietly (setting_of script.entry.path.now (F.state shelf.old).files script.entry.memories)
        (Misses (setting_of script.entry.path.now (F.state shelf.old).files script.entry.memories)
        (F.state shelf.old).there (F.state shelf.old).unfailing s (acts.CompareTo file.now))
        s (acts.CompareTo file.now) state.new result }
    ensures counts { (o e : ℕ)
        → CountsStop (F.faults shelf.old) (F.faults shelf.new) o o e e result }
    ensures keeps { Keeps (F.state shelf.old) (F.state shelf.new) }
{
    let text = load_compared(alloc, script.path, file.text.as_slice(), shelf)?;
    let path = name_beside(alloc, script.path, file.text.as_slice())?;
    let at = past_lines(&text, state.lines);
    state.compared = Some(CompareFile { path, text, at });
    Ok(())
}

fn do_rom<F: Shelf>(
    alloc: Global,
    script: Script<'_>,
    word: &Placed,
    file: &Placed,
    state: &mut State,
    shelf: &mut F,
) -> Result<(), Stop>
    ensures does { (s : Standing) → IsState
        (setting_of script.entry.path.now (F.state shelf.old).files script.entry.memories)
        state.old s
        → Quietly (setting_of script.entry.path.now (F.state shelf.old).files script.entry.memories)
        (Misses (setting_of script.entry.path.now (F.state shelf.old).files script.entry.memories)
        (F.state shelf.old).there (F.state shelf.old).unfailing s (acts.LoadRom word.now file.now))
        s (acts.LoadRom word.now file.now) state.new result }
    ensures counts { (o e : ℕ)
        → CountsStop (F.faults shelf.old) (F.faults shelf.new) o o e e result }
    ensures keeps { Keeps (F.state shelf.old) (F.state shelf.new) }
{
    if !state.device.has_rom() {
        return Err(no_name(alloc, script.path, word));
    }
    let image = load_image(alloc, script.path, file.text.as_slice(), shelf)?;
    state.device.load_rom(alloc, &image)?;
    Ok(())
}

/// Does an act.
pub fn perform<F: Shelf, O: Sink, E: Sink>(
    alloc: Global,
    script: Script<'_>,
    act: &Act,
    state: &mut State,
    shelf: &mut F,
    out: &mut Pieces<'_, O>,
    err: &mut E,
) -> Result<(), Stop>
    requires { (w e : Option (List ℕ)) × ((s : Standing) × IsState
        (setting_of script.path.now (F.state shelf.old).files script.memories) state.old s
        × StandsThere w
        (O.state (sink_of out.old)).written e (E.state err.old).written (pending out.old) s) }
    ensures does { (w e : Option (List ℕ)) (s : Standing) → IsState
        (setting_of script.entry.path.now (F.state shelf.old).files script.entry.memories)
        state.old s → StandsThere w (O.state (sink_of out.old)).written e
        (E.state err.old).written (pending out.old) s → Performs (setting_of script.entry.path.now
        (F.state shelf.old).files script.entry.memories) (F.state shelf.old).there
        (F.state shelf.old).unfailing w (O.state (sink_of out.new)).written e
        (E.state err.new).written (pending out.new) s act.now state.new result }
    ensures counts { CountsStop (F.faults shelf.old)
        (F.faults shelf.new) (O.state (sink_of out.old)).faults (O.state (sink_of out.new)).faults
        (E.state err.old).faults (E.state err.new).faults result }
    ensures same_sink { HaveSameSink out.old out.new }
    ensures keeps { Keeps (F.state shelf.old) (F.state shelf.new) }
{
    match act {
        Act::Step(step) => do_step(alloc, *step, state, out),
        Act::Load(file) => do_load(alloc, script, file, state, shelf),
        Act::OutputFile(_) => Ok(()),
        Act::CompareTo(file) => do_compare(alloc, script, file, state, shelf),
        Act::OutputList(items) => do_list(alloc, script.path, items.as_slice(), state, out),
        Act::Set(variable, word) => do_set(alloc, script.path, variable, *word, state),
        Act::Echo(text) => do_echo(text.as_slice(), err),
        Act::LoadRom(word, file) => do_rom(alloc, script, word, file, state, shelf),
    }
}
