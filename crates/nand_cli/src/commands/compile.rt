//! The command `compile`: the VM text of a folder's classes.
ghost use Rattle.std.specs.Prelude.{◌≤◌, IfOk, List, length, map};
ghost use Rattle.outer_world.specs.State.{Keeps, SinkState};
ghost use Rattle.command_line.specs.Line.{compile, of_classes, source_of};
ghost use Rattle.jack_tree.specs.Seen.{the_file};
ghost use Rattle.tower.specs.Compiled.{AreCompiled, AreNamed};
ghost use Rattle.tower.specs.Spelled.{AreSpelled};
ghost use Rattle.vm_tree.specs.declared.program.File.{File};
ghost use Rattle.source_files.specs.Loads.{Loads};
ghost use Rattle.nand_cli.specs.JackFolder.{IsMeaningless};
ghost use Rattle.nand_cli.specs.Inner.Parts.{Counts, Does};

use crate::failure::{Failure, finished};
use crate::jack::{ENDING, not_meant};
use command_line::Source;
use jack_parser::JackLanguage;
use jack_places::first_law;
use jack_tree::Class;
use outer_world::{Shelf, Sink};
use source_files::{LoadError, load_folder};
use std::alloc::Global;
use tower::compile_classes;
use vm_tree::{Program, print_files};

// The VM files of the program that the classes of a source mean.
fn compiled(alloc: Global, source: &Source<'_>, classes: &[Class]) -> Result<Program, LoadError>
    requires few { length classes.now ≤ 256 }
    requires spelled { AreSpelled classes.now }
    ensures makes { Loads (λ (files : List File). AreCompiled source.now.replace classes.now files)
        (IsMeaningless (source_of source.now) (map the_file classes.now)) ⊥ result }
    ensures named { IfOk result (AreNamed classes.now) }
{
    // The first fault of names is the first by its place.
    first_law();
    match compile_classes(alloc, classes, source.replace) {
        Ok(files) => Ok(files),
        Err(error) => Err(not_meant(alloc, source.folder, error)),
    }
}

/// Does a line of `compile`; err is left as it is.
pub fn answer_compile<F: Shelf, O: Sink>(
    alloc: Global,
    source: &Source<'_>,
    shelf: &mut F,
    out: &mut O,
) -> Result<(), Failure>
    ensures does { (err : SinkState)
        → Does (F.state shelf.old) (of_classes (source_of source.now) compile) (O.state out.old)
        (O.state out.new) err err result }
    ensures counts { (err : SinkState) → Counts (F.faults shelf.old) (F.faults shelf.new)
        (O.state out.old) (O.state out.new) err err result }
    ensures keeps { Keeps (F.state shelf.old) (F.state shelf.new) }
{
    let classes = load_folder(alloc, &JackLanguage, source.folder, ENDING, shelf)?;
    let files = compiled(alloc, source, &classes)?;
    finished(print_files(&files.as_slice()[..classes.len()], out))
}
