//! The command `asm`: the words of an assembly file, as binary digits.
ghost use Rattle.outer_world.specs.State.{Keeps, SinkState};
ghost use Rattle.command_line.specs.Line.{asm, of_file};
ghost use Rattle.nand_cli.specs.Inner.Parts.{Counts, Does};

use crate::failure::{Failure, finished};
use hack_asm::{Form, ProgramLanguage, write_hack};
use outer_world::{Shelf, Sink};
use source_files::load;
use std::alloc::Global;

/// Does a line of `asm`; err is left as it is.
pub fn answer_asm<F: Shelf, O: Sink>(
    alloc: Global,
    path: &str,
    shelf: &mut F,
    out: &mut O,
) -> Result<(), Failure>
    ensures does { (err : SinkState) → Does (F.state shelf.old) (of_file path.now asm)
        (O.state out.old) (O.state out.new) err err result }
    ensures counts { (err : SinkState) → Counts (F.faults shelf.old) (F.faults shelf.new)
        (O.state out.old) (O.state out.new) err err result }
    ensures keeps { Keeps (F.state shelf.old) (F.state shelf.new) }
{
    let assembly = ProgramLanguage {
        form: Form::Assembly,
    };
    let words = load(alloc, &assembly, path, "", shelf)?;
    finished(write_hack(&words, out))
}
