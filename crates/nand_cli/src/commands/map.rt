//! The command `map`: the map of the image of a folder's program, in either form.
ghost use Rattle.std.specs.Prelude.{◌≡◌, IfOk, map};
ghost use Rattle.outer_world.specs.State.{Keeps, SinkState};
ghost use Rattle.command_line.specs.Line.{map_image, of_classes, source_of};
ghost use Rattle.command_line.specs.declared.request.MapFormat.TheVariants.{Places, Points};
ghost use Rattle.nand_cli.specs.Inner.Parts.{Counts, Does};

use crate::failure::{Failure, finished};
use crate::jack::load_built;
use crate::placed::load_placed;
use command_line::{MapFormat, Source};
use image_map::show_map;
use jack_core::Subroutine;
use jack_debug::print_map;
use outer_world::{Shelf, Sink};
use std::alloc::{AllocError, Global};

// The names of the subroutines, by number.
fn names<'a>(alloc: Global, subroutines: &'a [Subroutine]) -> Result<Vec<&'a str>, AllocError>
    ensures { IfOk result (λ v. map (λ n. n.now) v.items ≡ map (λ s. s.name) subroutines.now) }
{
    let mut names = Vec::new(alloc);
    for subroutine in subroutines {
        names.push(subroutine.name.as_str())?;
    }
    Ok(names)
}

// Does a line of `map` in the first form.
fn answer_points<F: Shelf, O: Sink>(
    alloc: Global,
    source: &Source<'_>,
    shelf: &mut F,
    out: &mut O,
) -> Result<(), Failure>
    ensures does { (err : SinkState)
        → Does (F.state shelf.old) (of_classes (source_of source.now) (map_image Points))
        (O.state out.old) (O.state out.new) err err result }
    ensures counts { (err : SinkState) → Counts (F.faults shelf.old) (F.faults shelf.new)
        (O.state out.old) (O.state out.new) err err result }
    ensures keeps { Keeps (F.state shelf.old) (F.state shelf.new) }
{
    let program = load_built(alloc, source, shelf)?;
    let names = names(alloc, &program.core.subroutines)?;
    finished(show_map(&names, &program.image.map, out))
}

// Does a line of `map` in the second form.
fn answer_places<F: Shelf, O: Sink>(
    alloc: Global,
    source: &Source<'_>,
    shelf: &mut F,
    out: &mut O,
) -> Result<(), Failure>
    ensures does { (err : SinkState)
        → Does (F.state shelf.old) (of_classes (source_of source.now) (map_image Places))
        (O.state out.old) (O.state out.new) err err result }
    ensures counts { (err : SinkState) → Counts (F.faults shelf.old) (F.faults shelf.new)
        (O.state out.old) (O.state out.new) err err result }
    ensures keeps { Keeps (F.state shelf.old) (F.state shelf.new) }
{
    let program = load_placed(alloc, source, shelf)?;
    finished(print_map(&program.places, out))
}

/// Does a line of `map`; err is left as it is.
pub fn answer_map<F: Shelf, O: Sink>(
    alloc: Global,
    source: &Source<'_>,
    format: MapFormat,
    shelf: &mut F,
    out: &mut O,
) -> Result<(), Failure>
    ensures does { (err : SinkState)
        → Does (F.state shelf.old) (of_classes (source_of source.now) (map_image format))
        (O.state out.old) (O.state out.new) err err result }
    ensures counts { (err : SinkState) → Counts (F.faults shelf.old) (F.faults shelf.new)
        (O.state out.old) (O.state out.new) err err result }
    ensures keeps { Keeps (F.state shelf.old) (F.state shelf.new) }
{
    match format {
        MapFormat::Points => answer_points(alloc, source, shelf, out),
        MapFormat::Places => answer_places(alloc, source, shelf, out),
    }
}
