//! The program that a folder's Jack files mean and its image, and why there is no program.
ghost use Rattle.std.specs.Prelude.{◌≡◌, ◌≤◌, IfOk, Ok, length, map};
ghost use Rattle.jack_compiler.specs.Resolved.{IsResolvedCore};
ghost use Rattle.jack_core.specs.declared.program.Core.{Core};
ghost use Rattle.jack_tree.specs.Seen.{the_file};
ghost use Rattle.image_map.specs.Map.{IsMapped};
ghost use Rattle.command_line.specs.Line.{source_of};
ghost use Rattle.tower.specs.Image.{IsImageOf};
ghost use Rattle.tower.specs.Program.{Means};
ghost use Rattle.tower.specs.Spelled.{AreSpelled};
ghost use Rattle.jack_names.specs.Messages.{name_message};
ghost use Rattle.outer_world.specs.Files.{path_in};
ghost use Rattle.outer_world.specs.State.{Keeps, MissesFolder};
ghost use Rattle.source_files.specs.Loads.{CountsLoad, Loads, Refused};
ghost use Rattle.nand_cli.specs.Commands.Build.{BuildRefuses, FolderBuilds};
ghost use Rattle.nand_cli.specs.Inner.Parts.{TellsWrong};
ghost use Rattle.nand_cli.specs.declared.jack.BuiltProgram.{BuiltProgram};
ghost use Rattle.nand_cli.specs.JackFolder.{BuildIsRefused, FolderIsRefused, FolderMeans, IsMeaningless, home_of};

use command_line::Source;
use image_map::Image;
use jack_core::Core;
use jack_names::NameFault;
use jack_parser::JackLanguage;
use jack_places::first_law;
use jack_tree::Class;
use outer_world::Shelf;
use source_files::{LoadError, load_folder, path_in};
use std::alloc::Global;
use tower::{ProgramError, build, program_of_classes};

/// A folder's program with its image.
pub struct BuiltProgram {
    pub core: Core,
    pub image: Image,
}

// By hand, so that whoever drops one calls this.
impl Drop for BuiltProgram {
    fn drop(self) {
        let BuiltProgram { core: _, image: _ } = self;
    }
}

/// The ending of the names of Jack files.
pub const ENDING: &str = ".jack";

// The folder in which the files of the operating system are reported.
const SYSTEM: &str = "os";

// The folder in which a file is reported.
fn home(folder: &str, shipped: bool) -> &str
    ensures { result.now ≡ home_of folder.now shipped }
{
    if shipped { SYSTEM } else { folder }
}

// The refusal of a name.
fn name_refused(alloc: Global, folder: &str, fault: NameFault) -> LoadError
    ensures { Refused (path_in (home_of folder.now fault.shipped) fault.file)
        (name_message fault) result }
{
    match path_in(alloc, home(folder, fault.shipped), fault.file.as_str()) {
        Ok(path) => LoadError::refused(alloc, path.as_str(), fault.diagnostic()),
        Err(_) => LoadError::Memory,
    }
}

/// Why the classes of a folder mean no program.
pub fn not_meant(alloc: Global, folder: &str, error: ProgramError) -> LoadError
    ensures { TellsWrong folder.now error result }
{
    match error {
        ProgramError::Memory => LoadError::Memory,
        ProgramError::Name(fault) => name_refused(alloc, folder, fault),
    }
}

/// The program that the classes of a source mean.
pub fn program_of(alloc: Global, source: &Source<'_>, classes: &[Class]) -> Result<Core, LoadError>
    requires few { length classes.now ≤ 256 }
    requires spelled { AreSpelled classes.now }
    ensures makes { Loads (λ (core : Core). Means source.now.replace classes.now (Ok core))
        (IsMeaningless (source_of source.now) (map the_file classes.now)) ⊥ result }
    ensures resolved { IfOk result IsResolvedCore }
{
    // The first fault of names is the first by its place.
    first_law();
    match program_of_classes(alloc, classes, source.replace) {
        Ok(core) => Ok(core),
        Err(error) => Err(not_meant(alloc, source.folder, error)),
    }
}

/// The program that the Jack files of a source's folder mean.
///
/// Otherwise the refusal of the files as they are read, else of the first name fault.
pub fn load_jack<F: Shelf>(
    alloc: Global,
    source: &Source<'_>,
    shelf: &mut F,
) -> Result<Core, LoadError>
    ensures loads { Loads (FolderMeans (F.state shelf.old).files (source_of source.now))
        (FolderIsRefused (F.state shelf.old).files (source_of source.now))
        (MissesFolder (F.state shelf.old) source.now.folder.now) result }
    ensures resolved { IfOk result IsResolvedCore }
    ensures counts { CountsLoad (F.faults shelf.old) (F.faults shelf.new) result }
    ensures keeps { Keeps (F.state shelf.old) (F.state shelf.new) }
{
    let classes = load_folder(alloc, &JackLanguage, source.folder, ENDING, shelf)?;
    program_of(alloc, source, &classes)
}

/// The image of a folder's program, or why there is no image.
pub fn image_of(alloc: Global, folder: &str, core: &Core) -> Result<Image, LoadError>
    requires { IsResolvedCore core.now }
    ensures loads { Loads (IsImageOf core.now) (BuildIsRefused core.now folder.now) ⊥ result }
    ensures mapped { IfOk result (λ image. IsMapped image) }
{
    match build(alloc, core) {
        Ok(image) => Ok(image),
        Err(error) => Err(LoadError::of_diagnostic(alloc, folder, error.diagnostic())),
    }
}

/// The program that the Jack files of a source's folder mean, with its image, or why there is no
/// program.
pub fn load_built<F: Shelf>(
    alloc: Global,
    source: &Source<'_>,
    shelf: &mut F,
) -> Result<BuiltProgram, LoadError>
    ensures loads { Loads (λ (p : BuiltProgram).
        FolderBuilds (F.state shelf.old).files (source_of source.now) p.core p.image)
        (BuildRefuses (F.state shelf.old).files (source_of source.now))
        (MissesFolder (F.state shelf.old) source.now.folder.now) result }
    ensures counts { CountsLoad (F.faults shelf.old) (F.faults shelf.new) result }
    ensures keeps { Keeps (F.state shelf.old) (F.state shelf.new) }
{
    let core = load_jack(alloc, source, shelf)?;
    let image = image_of(alloc, source.folder, &core)?;
    Ok(BuiltProgram { core, image })
}
