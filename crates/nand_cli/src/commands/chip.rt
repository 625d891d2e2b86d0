//! The command `chip`: the printed form of a shipped chip.
ghost use Rattle.outer_world.specs.State.{Keeps, SinkState};
ghost use Rattle.command_line.specs.Line.{chip};
ghost use Rattle.source_files.specs.Loads.{Refused};
ghost use Rattle.nand_cli.specs.Commands.Chip.{unknown_chip};
ghost use Rattle.nand_cli.specs.Inner.Parts.{Counts, Does};

use crate::failure::{Failure, finished};
use hack_cpu::{find_shipped, library};
use hdl_parser::print;
use outer_world::{Detail, Diagnostic, Shelf, Sink};
use source_files::LoadError;
use std::alloc::Global;

// Why no shipped chip has this name.
fn unknown(alloc: Global, name: &str) -> LoadError
    ensures { Refused name.now (unknown_chip name.now) result }
{
    match Vec::from_slice(alloc, name.as_bytes()) {
        Ok(detail) => LoadError::refused(
            alloc,
            name,
            Diagnostic::nowhere("UnknownChip", Detail::Name(detail)),
        ),
        Err(_) => LoadError::Memory,
    }
}

/// Does a line of `chip`; the shelf and err are left as they are.
pub fn answer_chip<F: Shelf, O: Sink>(
    alloc: Global,
    name: &str,
    _shelf: &mut F,
    out: &mut O,
) -> Result<(), Failure>
    ensures does { (err : SinkState) → Does (F.state _shelf.old) (chip name.now) (O.state out.old)
        (O.state out.new) err err result }
    ensures counts { (err : SinkState) → Counts (F.faults _shelf.old) (F.faults _shelf.new)
        (O.state out.old) (O.state out.new) err err result }
    ensures keeps { Keeps (F.state _shelf.old) (F.state _shelf.new) }
{
    let library = library(alloc)?;
    match find_shipped(&library, name.as_bytes()) {
        Some(entry) => finished(print(&entry.chip, out)),
        None => Err(Failure::Unloaded(unknown(alloc, name))),
    }
}
