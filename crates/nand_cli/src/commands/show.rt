//! The command `show`: the printed form of a source.
ghost use Rattle.outer_world.specs.State.{Keeps, SinkState};
ghost use Rattle.command_line.specs.Line.{of_file, show};
ghost use Rattle.nand_cli.specs.Inner.Parts.{Counts, Does};

use crate::failure::{Failure, finished};
use command_line::SourceKind;
use hdl_parser::HdlLanguage;
use jack_parser::{JackLanguage, printed_class_law};
use outer_world::{List, Shelf, Sink};
use source_files::load;
use std::alloc::Global;
use vm_parser::VmLanguage;

// Shows a VM text.
fn show_vm<F: Shelf, O: Sink>(
    alloc: Global,
    path: &str,
    shelf: &mut F,
    out: &mut O,
) -> Result<(), Failure>
    ensures does { (err : SinkState) → Does (F.state shelf.old)
        (of_file path.now (show SourceKind.Vm)) (O.state out.old) (O.state out.new) err err result }
    ensures counts { (err : SinkState) → Counts (F.faults shelf.old) (F.faults shelf.new)
        (O.state out.old) (O.state out.new) err err result }
    ensures keeps { Keeps (F.state shelf.old) (F.state shelf.new) }
{
    let file = load(alloc, &VmLanguage { bare: true }, path, "", shelf)?;
    let mut program = List::new(alloc);
    program.push(file)?;
    finished(vm_tree::print(&program, out))
}

// Shows a Jack class.
fn show_class<F: Shelf, O: Sink>(
    alloc: Global,
    path: &str,
    shelf: &mut F,
    out: &mut O,
) -> Result<(), Failure>
    ensures does { (err : SinkState)
        → Does (F.state shelf.old) (of_file path.now (show SourceKind.Jack)) (O.state out.old)
        (O.state out.new) err err result }
    ensures counts { (err : SinkState) → Counts (F.faults shelf.old) (F.faults shelf.new)
        (O.state out.old) (O.state out.new) err err result }
    ensures keeps { Keeps (F.state shelf.old) (F.state shelf.new) }
{
    printed_class_law();
    let class = load(alloc, &JackLanguage, path, "", shelf)?;
    finished(jack_parser::print(&class, out))
}

// Shows a chip.
fn show_chip<F: Shelf, O: Sink>(
    alloc: Global,
    path: &str,
    shelf: &mut F,
    out: &mut O,
) -> Result<(), Failure>
    ensures does { (err : SinkState)
        → Does (F.state shelf.old) (of_file path.now (show SourceKind.Hdl)) (O.state out.old)
        (O.state out.new) err err result }
    ensures counts { (err : SinkState) → Counts (F.faults shelf.old) (F.faults shelf.new)
        (O.state out.old) (O.state out.new) err err result }
    ensures keeps { Keeps (F.state shelf.old) (F.state shelf.new) }
{
    let chip = load(alloc, &HdlLanguage, path, "", shelf)?;
    finished(hdl_parser::print(&chip, out))
}

/// Does a line of `show`; err is left as it is.
pub fn answer_show<F: Shelf, O: Sink>(
    alloc: Global,
    path: &str,
    kind: SourceKind,
    shelf: &mut F,
    out: &mut O,
) -> Result<(), Failure>
    ensures does { (err : SinkState) → Does (F.state shelf.old) (of_file path.now (show kind))
        (O.state out.old) (O.state out.new) err err result }
    ensures counts { (err : SinkState) → Counts (F.faults shelf.old) (F.faults shelf.new)
        (O.state out.old) (O.state out.new) err err result }
    ensures keeps { Keeps (F.state shelf.old) (F.state shelf.new) }
{
    match kind {
        SourceKind::Vm => show_vm(alloc, path, shelf, out),
        SourceKind::Jack => show_class(alloc, path, shelf, out),
        SourceKind::Hdl => show_chip(alloc, path, shelf, out),
    }
}
