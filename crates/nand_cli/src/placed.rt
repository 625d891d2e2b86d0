//! The program of a source with its image and its places.
ghost use Rattle.std.specs.Prelude.{◌≡◌, ◌≤◌, length};
ghost use Rattle.outer_world.specs.State.{Keeps, MissesFolder};
ghost use Rattle.command_line.specs.Line.{source_of};
ghost use Rattle.source_files.specs.Loads.{CountsLoad, Loads};
ghost use Rattle.tower.specs.Spelled.{AreSpelled};
ghost use Rattle.nand_cli.specs.Commands.Build.{BuildRefuses};
ghost use Rattle.nand_cli.specs.Inner.Debugging.{FolderIsPlaced, IsPlaced};
ghost use Rattle.nand_cli.specs.Inner.Placed.{AreRefused};

use crate::jack::{ENDING, image_of, program_of};
use command_line::Source;
use image_map::Image;
use jack_debug::Places;
use jack_parser::JackLanguage;
use jack_tree::Class;
use outer_world::Shelf;
use source_files::{LoadError, load_folder};
use std::alloc::Global;
use tower::classes_beside;
use vm_debug::program_places;

/// The image of a program and its places.
pub struct PlacedProgram {
    pub image: Image,
    pub places: Places,
}

// By hand, so that whoever drops one calls this.
impl Drop for PlacedProgram {
    fn drop(self) {
        let PlacedProgram {
            image: _,
            places: _,
        } = self;
    }
}

impl PlacedProgram {
    /// The image, and the places.
    pub fn into_parts(self) -> (Image, Places)
        ensures image { result.0 ≡ self.image }
        ensures places { result.1 ≡ self.places }
    {
        let PlacedProgram { image, places } = self;
        (image, places)
    }
}

// The program that the classes of a source mean, with its image and its places.
fn placed_of(alloc: Global, source: &Source<'_>, own: &[Class]) -> Result<PlacedProgram, LoadError>
    requires few { length own.now ≤ 256 }
    requires spelled { AreSpelled own.now }
    ensures { Loads (IsPlaced source.now.replace own.now)
        (AreRefused own.now (source_of source.now)) ⊥ result }
{
    let core = program_of(alloc, source, own)?;
    let image = image_of(alloc, source.folder, &core)?;
    let system = classes_beside(alloc, own, source.replace)?;
    let places = program_places(alloc, own, &system, &core, &image.map)?;
    Ok(PlacedProgram { image, places })
}

/// The program that the Jack files of a source's folder mean, with its image and its places, or why it has no image. The trees of its classes are
/// kept until then.
pub fn load_placed<F: Shelf>(
    alloc: Global,
    source: &Source<'_>,
    shelf: &mut F,
) -> Result<PlacedProgram, LoadError>
    ensures loads { Loads (FolderIsPlaced (F.state shelf.old).files (source_of source.now))
        (BuildRefuses (F.state shelf.old).files (source_of source.now))
        (MissesFolder (F.state shelf.old) source.now.folder.now) result }
    ensures counts { CountsLoad (F.faults shelf.old) (F.faults shelf.new) result }
    ensures keeps { Keeps (F.state shelf.old) (F.state shelf.new) }
{
    let own = load_folder(alloc, &JackLanguage, source.folder, ENDING, shelf)?;
    placed_of(alloc, source, &own)
}
