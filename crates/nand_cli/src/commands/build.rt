//! The command `build`: the image of a folder's program.
ghost use Rattle.outer_world.specs.State.{Keeps, SinkState};
ghost use Rattle.command_line.specs.Line.{build, of_classes, source_of};
ghost use Rattle.nand_cli.specs.Inner.Parts.{Counts, Does};

use crate::failure::{Failure, finished};
use crate::jack::load_built;
use command_line::Source;
use hack_asm::write_hack;
use outer_world::{Shelf, Sink};
use std::alloc::Global;

/// Does a line of `build`; err is left as it is.
pub fn answer_build<F: Shelf, O: Sink>(
    alloc: Global,
    source: &Source<'_>,
    shelf: &mut F,
    out: &mut O,
) -> Result<(), Failure>
    ensures does { (err : SinkState)
        → Does (F.state shelf.old) (of_classes (source_of source.now) build) (O.state out.old)
        (O.state out.new) err err result }
    ensures counts { (err : SinkState) → Counts (F.faults shelf.old) (F.faults shelf.new)
        (O.state out.old) (O.state out.new) err err result }
    ensures keeps { Keeps (F.state shelf.old) (F.state shelf.new) }
{
    let program = load_built(alloc, source, shelf)?;
    finished(write_hack(program.image.words.as_slice(), out))
}
