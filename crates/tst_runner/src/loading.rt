//! What a script loads.

ghost use Rattle.std.specs.Prelude.{IfOk};
ghost use Rattle.outer_world.specs.State.{Keeps, MissesFile, MissesFolder};
ghost use Rattle.source_files.specs.Loads.{CountsLoad, Loads};
ghost use Rattle.script_device.specs.Running.{DeviceRuns};
ghost use Rattle.script_device.specs.Driven.{ChipRuns};
ghost use Rattle.tst_runner.specs.Gathering.{file_of};
ghost use Rattle.tst_runner.specs.Inner.Loaded.{ChipIsLoaded, MachineIsLoaded, StandsForLoaded};
ghost use Rattle.tst_runner.specs.Inner.States.{IsNoDevice, MissesDevice};
ghost use Rattle.tst_runner.specs.Loading.{IsNoImage, IsNotLoaded};
ghost use Rattle.tst_runner.specs.Setting.{folder_of, path_of, setting_of};

use crate::acts::Script;
use crate::building::build_chip;
use crate::files::load_image;
use crate::gathering::gather;
use hdl_tree::Name;
use outer_world::Shelf;
use script_device::{Device, DrivenChip, ScriptMachine};
use source_files::LoadError;
use std::alloc::Global;

// The chip of a name, evaluated once.
fn load_chip<F: Shelf>(
    alloc: Global,
    script: Script<'_>,
    name: &[u8],
    shelf: &mut F,
) -> Result<DrivenChip, LoadError>
    ensures loads { Loads
        (ChipIsLoaded
        (setting_of script.entry.path.now (F.state shelf.old).files script.entry.memories)
        (file_of name.now))
        (IsNotLoaded
        (setting_of script.entry.path.now (F.state shelf.old).files script.entry.memories)
        (file_of name.now)) (MissesFolder (F.state shelf.old) (folder_of script.entry.path.now))
        result }
    ensures runs { IfOk result (ChipRuns script.entry.simplify) }
    ensures counts { CountsLoad (F.faults shelf.old) (F.faults shelf.new) result }
    ensures keeps { Keeps (F.state shelf.old) (F.state shelf.new) }
{
    let name = Name::from_bytes(alloc, name)?;
    let library = gather(alloc, script.path, &name, script.memories, shelf)?;
    build_chip(
        alloc,
        script.path,
        &library,
        &name,
        script.memories,
        script.simplify,
    )
}

// The instruction machine with the image of a file.
fn load_machine<F: Shelf>(
    alloc: Global,
    script: Script<'_>,
    file: &[u8],
    shelf: &mut F,
) -> Result<ScriptMachine, LoadError>
    ensures loads { Loads (MachineIsLoaded
        (setting_of script.entry.path.now (F.state shelf.old).files script.entry.memories) file.now)
        (IsNoImage
        (setting_of script.entry.path.now (F.state shelf.old).files script.entry.memories) file.now)
        (MissesFile (F.state shelf.old) (path_of
        (setting_of script.entry.path.now (F.state shelf.old).files script.entry.memories)
        file.now))
        result }
    ensures counts { CountsLoad (F.faults shelf.old) (F.faults shelf.new) result }
    ensures keeps { Keeps (F.state shelf.old) (F.state shelf.new) }
{
    let image = load_image(alloc, script.path, file, shelf)?;
    Ok(ScriptMachine::new(alloc, &image)?)
}

/// What a file of the script's folder gives: the chip of an `.hdl` file, evaluated once, else the instruction machine with an image.
///
/// Otherwise why a text or a chip is refused, that the shelf failed, or want of memory. An honest shelf fails only for what is not there.
pub fn load_device<F: Shelf>(
    alloc: Global,
    script: Script<'_>,
    file: &[u8],
    shelf: &mut F,
) -> Result<Device, LoadError>
    ensures loads { Loads (StandsForLoaded
        (setting_of script.entry.path.now (F.state shelf.old).files script.entry.memories) file.now)
        (IsNoDevice
        (setting_of script.entry.path.now (F.state shelf.old).files script.entry.memories) file.now)
        (MissesDevice (F.state shelf.old)
        (setting_of script.entry.path.now (F.state shelf.old).files script.entry.memories) file.now)
        result }
    ensures runs { IfOk result (DeviceRuns script.entry.simplify) }
    ensures counts { CountsLoad (F.faults shelf.old) (F.faults shelf.new) result }
    ensures keeps { Keeps (F.state shelf.old) (F.state shelf.new) }
{
    match file.strip_suffix(b".hdl") {
        Some(name) => Ok(Device::Chip(load_chip(alloc, script, name, shelf)?)),
        None => Ok(Device::Machine(load_machine(alloc, script, file, shelf)?)),
    }
}
