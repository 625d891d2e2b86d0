//! The command `debug`: a program is built and its keys are read, and then the computer made of gates runs it to a statement, and the view there is
//! put.
ghost use Rattle.std.specs.Prelude.{◌≡◌, ◌++◌, ◌∷◌, option_map, IfOk, IsSome, true, decimal};
ghost use Rattle.command_line.specs.Line.{debug, of_classes, source_of};
ghost use Rattle.jack_debug.specs.Text.{view_text};
ghost use Rattle.jack_debug.specs.Walk.{point_in};
ghost use Rattle.outer_world.specs.Written.{Puts};
ghost use Rattle.outer_world.specs.State.{Keeps, SinkState};
ghost use Rattle.source_files.specs.Loads.{CountsLoad, Loads, Refused};
ghost use Rattle.nand_cli.specs.Commands.Debug.{DebugRefuses, HasStatement, no_point, stop_text};
ghost use Rattle.nand_cli.specs.Inner.Debugging.{CanShow, IsPreparedDebug, LacksPoint, TellsDriven, TellsMachine};
ghost use Rattle.nand_cli.specs.Inner.Parts.{Counts, Does, MissesLine};
ghost use Rattle.nand_cli.specs.Inner.Reports.{CountsReport, Reports};

use crate::commands::run::load_keys;
use crate::failure::{Failure, finished};
use crate::levels::stop::{Statement, go_to};
use crate::placed::load_placed;
use crate::stop_lines::{print_none, print_stop};
use command_line::{DebugRun, Source};
use gate_computer::{GateComputer, prepare_gates};
use itoa::Buffer;
use jack_debug::{Places, View, print_view, view};
use key_script::Keys;
use outer_world::{Detail, Diagnostic, Put, Shelf, Sink};
use source_files::LoadError;
use std::alloc::{AllocError, Global};

/// A program that is built, with its places, the keys that are read and the computer at its start.
pub struct PreparedDebug {
    places: Places,
    keys: Keys,
    computer: GateComputer,
}

// By hand, so that whoever drops one calls this.
impl Drop for PreparedDebug {
    fn drop(self) {
        let PreparedDebug {
            places: _,
            keys: _,
            computer: _,
        } = self;
    }
}

// The word of a statement.
fn point_word(alloc: Global, sub: &str, number: u32) -> Result<Vec<u8>, AllocError>
    ensures { IfOk result (λ word. word.items ≡ sub.now ++ 58 ∷ decimal number) }
{
    let mut buffer = Buffer::new();
    let mut word = Vec::from_slice(alloc, sub.as_bytes())?;
    word.push(b':')?;
    word.extend_from_slice(buffer.format(number).as_bytes())?;
    Ok(word)
}

// The refusal of a statement that no point of the map has.
fn no_point(alloc: Global, folder: &str, sub: &str, number: u32) -> LoadError
    ensures { Refused folder.now (no_point sub.now number) result }
{
    match point_word(alloc, sub, number) {
        Ok(word) => LoadError::refused(
            alloc,
            folder,
            Diagnostic::nowhere("NoPoint", Detail::Name(word)),
        ),
        Err(_) => LoadError::Memory,
    }
}

// Whether the map has the point of a statement, or the refusal.
fn check_point(
    alloc: Global,
    folder: &str,
    places: &Places,
    request: &DebugRun<'_>,
) -> Result<(), LoadError>
    ensures { Loads (λ _. HasStatement places.now request.now.sub.now request.now.number)
        (LacksPoint places.now folder.now request.now.sub.now request.now.number) ⊥ result }
{
    let at = Statement {
        places,
        sub: request.sub,
        number: request.number,
    };
    if at.is_there() {
        Ok(())
    } else {
        Err(no_point(alloc, folder, request.sub, request.number))
    }
}

/// Reads and builds all that a line of `debug` needs. The program is built first, then the statement is looked for in its map. Then the keys are
/// read, and then the computer is put at its start.
///
/// Otherwise the refusal of the folder, else of the build, else of the statement, else of the key script; or the shelf failed, or memory was wanted.
pub fn prepare_debug<F: Shelf>(
    alloc: Global,
    source: &Source<'_>,
    request: &DebugRun<'_>,
    shelf: &mut F,
) -> Result<PreparedDebug, LoadError>
    ensures loads { Loads (IsPreparedDebug (F.state shelf.old).files (source_of source.now)
        request.now.sub.now request.now.number (option_map (λ keys. keys.now) request.now.keys))
        (DebugRefuses (F.state shelf.old).files (source_of source.now) request.now.sub.now
        request.now.number (option_map (λ keys. keys.now) request.now.keys))
        (MissesLine (F.state shelf.old)
        (of_classes (source_of source.now) (debug request.now.sub.now request.now.number
        request.now.cycles (option_map (λ keys. keys.now) request.now.keys)))) result }
    ensures counts { CountsLoad (F.faults shelf.old) (F.faults shelf.new) result }
    ensures keeps { Keeps (F.state shelf.old) (F.state shelf.new) }
{
    let program = load_placed(alloc, source, shelf)?;
    check_point(alloc, source.folder, &program.places, request)?;
    let keys = load_keys(alloc, request.keys, shelf)?;
    let (image, places) = program.into_parts();
    let computer = prepare_gates(alloc, image, false)?;
    Ok(PreparedDebug {
        places,
        keys,
        computer,
    })
}

// Puts what is shown at a statement.
fn print_found<O: Sink>(
    at: &Statement<'_>,
    computer: &GateComputer,
    view: &View,
    out: &mut O,
) -> Put
    ensures put { Puts (O.state out.old) (O.state out.new)
        (stop_text at.now.sub.now at.now.number computer.now.moves computer.now.tally.steps
        ++ view_text view.now) result }
{
    match print_stop(at.sub, at.number, computer.moves(), computer.steps(), out) {
        Put::Done => print_view(view, out),
        Put::Failed => Put::Failed,
    }
}

// Puts what is shown of a computer that is at a statement, or not.
fn show_stop<O: Sink>(
    alloc: Global,
    at: &Statement<'_>,
    computer: &GateComputer,
    found: bool,
    out: &mut O,
) -> Result<(), Failure>
    requires { found ≡ true → IsSome (point_in at.now.places.now.ranges computer.now.tally.at) }
    ensures reports { Reports
        (TellsMachine at.now.places.now at.now.sub.now at.now.number found computer.now)
        (O.state out.old) (O.state out.new) result }
    ensures counts { CountsReport (O.state out.old) (O.state out.new) result }
{
    if !found {
        return finished(print_none(computer.moves(), computer.steps(), out));
    }
    let view = view(alloc, at.places, computer, computer.pc())?;
    finished(print_found(at, computer, &view, out))
}

impl PreparedDebug {
    /// Runs the program to the statement, but this many cycles at most, and puts what is shown there; or that it did not come
    /// there.
    pub fn show<O: Sink>(
        &mut self,
        alloc: Global,
        request: &DebugRun<'_>,
        out: &mut O,
    ) -> Result<(), Failure>
        requires { CanShow self.old }
        ensures reports { Reports
            (TellsDriven self.old request.now.sub.now request.now.number request.now.cycles)
            (O.state out.old) (O.state out.new) result }
        ensures counts { CountsReport (O.state out.old) (O.state out.new) result }
    {
        let PreparedDebug {
            places,
            keys,
            computer,
        } = self;
        let at = Statement {
            places,
            sub: request.sub,
            number: request.number,
        };
        let found = go_to(computer, keys, request.cycles, &at);
        show_stop(alloc, &at, computer, found, out)
    }
}

/// Does a line of `debug`; err is left as it is.
pub fn answer_debug<F: Shelf, O: Sink>(
    alloc: Global,
    source: &Source<'_>,
    request: &DebugRun<'_>,
    shelf: &mut F,
    out: &mut O,
) -> Result<(), Failure>
    ensures does { (err : SinkState)
        → Does (F.state shelf.old) (of_classes (source_of source.now) (debug request.now.sub.now
        request.now.number request.now.cycles (option_map (λ keys. keys.now) request.now.keys)))
        (O.state out.old) (O.state out.new) err err result }
    ensures counts { (err : SinkState) → Counts (F.faults shelf.old) (F.faults shelf.new)
        (O.state out.old) (O.state out.new) err err result }
    ensures keeps { Keeps (F.state shelf.old) (F.state shelf.new) }
{
    let mut prepared = prepare_debug(alloc, source, request, shelf)?;
    prepared.show(alloc, request, out)
}
