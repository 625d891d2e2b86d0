//! A chip that was gathered, built as a netlist with its directory.

ghost use Rattle.std.specs.Prelude.{◌≡◌, ◌⊎◌, ◌-◌, ◌<◌, ◌^◌, ℕ, Bool, List, [], ◌∷◌, Option, IfOk, codes, length, map};
ghost use Rattle.std.specs.List.{All, Contains};
ghost use Rattle.outer_world.specs.Files.{Files, path_in};
ghost use Rattle.outer_world.specs.Refusals.{message, message_line};
ghost use Rattle.outer_world.specs.Texts.{joined_texts};
ghost use Rattle.source_files.specs.Loads.{Loads, Refused};
ghost use Rattle.netlist.specs.Order.{AreOrdered};
ghost use Rattle.gate_sim.specs.Calls.Call.{Eval};
ghost use Rattle.hdl_check.specs.Whole.{AreDistinct};
ghost use Rattle.script_device.specs.declared.chip.DrivenChip.{DrivenChip};
ghost use Rattle.script_device.specs.declared.directory.Directory.{Directory};
ghost use Rattle.script_device.specs.Directory.{FitsNet, loaded_chip};
ghost use Rattle.script_device.specs.Driven.{ChipRuns, IsDriven, chip_of, time_of};
ghost use Rattle.tst_runner.specs.Directories.{IsDirectory, part_nodes};
ghost use Rattle.tst_runner.specs.Gathering.{file_of};
ghost use Rattle.tst_runner.specs.Inner.Sound.{IsSound};
ghost use Rattle.tst_runner.specs.Loading.{IsBuilt, IsFaultLine, IsFaulty, IsUnknown, path_of_text};
ghost use Rattle.tst_runner.specs.Setting.{Setting, setting_of};

use crate::directories::{directory_of, entry_named};
use crate::files::folder_of;
use hdl_elab::{Elab, ElaborationFault, elaborate};
use hdl_tree::{Entry, Library, Memories, Name};
use netlist::Netlist;
use outer_world::{Detail, Diagnostic};
use script_device::{Directory, DrivenChip};
use source_files::LoadError;
use std::alloc::{AllocError, Global};

// Names joined by commas.
fn joined(alloc: Global, names: &[Name]) -> Result<Vec<u8>, AllocError>
    ensures { IfOk result (λ text. text.items ≡ joined_texts names.now) }
{
    let mut text = Vec::new(alloc);
    for (k, name) in names.iter().enumerate() {
        if k > 0 {
            text.push(b',')?;
        }
        text.extend_from_slice(name.as_bytes())?;
    }
    Ok(text)
}

// The path of a chip's file in a folder.
fn file_in(alloc: Global, folder: &[u8], name: &[u8]) -> Result<Vec<u8>, AllocError>
    ensures { IfOk result (λ path. path.items ≡ path_in folder.now (file_of name.now)) }
{
    let mut path = Vec::from_slice(alloc, folder)?;
    if !folder.is_empty() {
        path.push(b'/')?;
    }
    path.extend_from_slice(name)?;
    path.extend_from_slice(b".hdl")?;
    Ok(path)
}

// The path of the text of a chip, for a script at a path.
fn path_of_text(
    alloc: Global,
    path: &str,
    library: &Library,
    name: &[u8],
) -> Result<Vec<u8>, AllocError>
    ensures { IfOk result (λ text. (setting : Setting) → setting.path ≡ path.now
        → text.items ≡ path_of_text setting library.now.entries name.now) }
{
    let Some(entry) = entry_named(library.entries.as_slice(), name) else {
        return file_in(alloc, folder_of(path).as_bytes(), name);
    };
    match &entry.shipped {
        None => file_in(alloc, folder_of(path).as_bytes(), name),
        Some(own) => file_in(alloc, b"hdl", own.as_bytes()),
    }
}

// The refusal of the text at a path.
fn refused(alloc: Global, path: Vec<u8>, told: Diagnostic) -> LoadError
    ensures { Refused path.items told result }
{
    match String::from_utf8(path) {
        Ok(path) => LoadError::refused(alloc, path.as_str(), told),
        // Chips have the names of files and of the shipped chips, which are text, so this does not come.
        Err(_) => LoadError::Memory,
    }
}

// That the chip of this name is nowhere.
fn unknown(alloc: Global, path: &str, name: &Name) -> LoadError
    ensures { Refused path.now (message 0 0 (codes "UnknownChip") name.now) result }
{
    match Vec::from_slice(alloc, name.as_bytes()) {
        Ok(name) => LoadError::refused(
            alloc,
            path,
            Diagnostic::nowhere("UnknownChip", Detail::Name(name)),
        ),
        Err(_) => LoadError::Memory,
    }
}

// The path of the text that has a fault of the chip of this name, and its diagnostic.
fn diagnostic_of(
    alloc: Global,
    path: &str,
    library: &Library,
    name: &Name,
    fault: ElaborationFault,
) -> Result<(Vec<u8>, Diagnostic), AllocError>
    ensures { IfOk result (λ r. (setting : Setting) → setting.path ≡ path.now
        → IsFaultLine setting library.now.entries name.now fault (message_line r.0.items r.1)) }
{
    match fault {
        ElaborationFault::Memory => Err(AllocError),
        ElaborationFault::Named(fault) => {
            let text = path_of_text(alloc, path, library, fault.chip.as_bytes())?;
            Ok((text, fault.diagnostic()))
        }
        ElaborationFault::Loop(nets) => {
            let text = path_of_text(alloc, path, library, name.as_bytes())?;
            let nets = joined(alloc, nets.as_slice())?;
            Ok((text, Diagnostic::nowhere("Loop", Detail::Name(nets))))
        }
        ElaborationFault::TooManyNodes(nodes) => {
            let text = path_of_text(alloc, path, library, name.as_bytes())?;
            Ok((
                text,
                Diagnostic::nowhere("TooManyNodes", Detail::Number(u64::from(nodes))),
            ))
        }
    }
}

// A chip that got no calls, its netlist simplified where that is asked for.
fn driven_chip(
    alloc: Global,
    net: Netlist,
    directory: Directory,
    simplify: bool,
) -> Result<DrivenChip, AllocError>
    requires fits { FitsNet net directory }
    requires few { length net.nodes < 2 ^ 32 - 1 }
    ensures chip { IfOk result (λ chip. chip_of chip ≡ loaded_chip net directory) }
    ensures driven { IfOk result (λ chip. IsDriven chip []) }
    ensures runs { IfOk result (ChipRuns simplify) }
{
    if simplify {
        DrivenChip::simplified(alloc, net, directory)
    } else {
        DrivenChip::new(alloc, net, directory)
    }
}

// The netlist of an elaborated chip, whose own directory is no more.
fn net_of(e: Elab) -> Netlist
    ensures { result ≡ e.net }
{
    e.net
}

// An elaborated chip with its directory, evaluated once.
fn evaluated(
    alloc: Global,
    library: &Library,
    top: &Entry,
    e: Elab,
    simplify: bool,
) -> Result<DrivenChip, AllocError>
    requires distinct { AreDistinct library.now.entries }
    requires fits { (d : Directory) → IsDirectory library.now.entries top.now e d
        → All (Contains (map (part_nodes library.now.entries) e.parts)) d.parts
        → FitsNet e.net d }
    requires few { length e.net.nodes < 2 ^ 32 - 1 }
    ensures runs { IfOk result (ChipRuns simplify) }
    ensures net { IfOk result (λ chip. (chip_of chip).net ≡ e.net) }
    ensures ordered { IfOk result
        (λ chip. AreOrdered (chip_of chip).net.nodes (chip_of chip).net.blocks) }
    ensures directory { IfOk result
        (λ chip. IsDirectory library.now.entries top.now e (chip_of chip).directory) }
    ensures among { IfOk result (λ chip. All
        (Contains (map (part_nodes library.now.entries) e.parts)) (chip_of chip).directory.parts) }
    ensures driven { IfOk result (λ chip. IsDriven chip (Eval ∷ [])) }
    ensures start { IfOk result (λ chip. time_of chip ≡ 0) }
{
    let directory = directory_of(alloc, library, top, &e)?;
    let net = net_of(e);
    net.ordered_law();
    let mut chip = driven_chip(alloc, net, directory, simplify)?;
    chip.eval();
    Ok(chip)
}

/// The chip of this name, after one evaluation alone, its netlist simplified where that is asked for.
///
/// Otherwise the refusal of a name that no chip has, of the script at this path, or of a fault of the chip, of the text that has it. Or it is
/// want of memory.
pub fn build_chip(
    alloc: Global,
    path: &str,
    library: &Library,
    name: &Name,
    memories: Memories,
    simplify: bool,
) -> Result<DrivenChip, LoadError>
    requires sound { IsSound library.now.entries }
    ensures loads { (files : Option Files) → Loads (λ (chip : DrivenChip).
        IsBuilt (setting_of path.now files memories) library.now.entries name.now (chip_of chip))
        (λ line. IsUnknown (setting_of path.now files memories) library.now.entries name.now line
        ⊎ IsFaulty (setting_of path.now files memories) library.now.entries name.now
        line) ⊥ result }
    ensures driven { IfOk result (λ chip. IsDriven chip (Eval ∷ [])) }
    ensures start { IfOk result (λ chip. time_of chip ≡ 0) }
    ensures runs { IfOk result (ChipRuns simplify) }
{
    let Some(top) = entry_named(library.entries.as_slice(), name.as_bytes()) else {
        return Err(unknown(alloc, path, name));
    };
    match elaborate(alloc, library, name, memories) {
        Ok(e) => Ok(evaluated(alloc, library, top, e, simplify)?),
        Err(fault) => {
            let (text, told) = diagnostic_of(alloc, path, library, name, fault)?;
            Err(refused(alloc, text, told))
        }
    }
}
