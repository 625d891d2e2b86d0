//! The chips that a chip needs.
ghost use Rattle.std.specs.Prelude.{◌≡◌, ◌++◌, ◌∷◌, [], ℕ, List, Option, Vec, IfOk, IfSome, MatchOption, OnOk, map, reverse};
ghost use Rattle.std.specs.declared.alloc.Global.{Global};
ghost use Rattle.outer_world.specs.Files.{Files, IsListing, path_in};
ghost use Rattle.outer_world.specs.State.{Keeps, MissesFile, MissesFolder};
ghost use Rattle.source_files.specs.Loads.{CountsLoad, Loads};
ghost use Rattle.source_files.specs.Sources.{IsFaulty, SpellsAt};
ghost use Rattle.hdl_tree.specs.declared.library.Library.{Library};
ghost use Rattle.hdl_names.specs.Names.{IsIndexed};
ghost use Rattle.hack_cpu.specs.Library.{shipped_chips};
ghost use Rattle.tst_runner.specs.Gathering.{Gather, GatherFails, IsFound, built_in, entry_of, needed_names};
ghost use Rattle.tst_runner.specs.Inner.Gathered.{IsMore, IsNext, IsNowhere, IsOrigin, IsRefusedAt, Leads, LacksFileOf, sources_of};
ghost use Rattle.tst_runner.specs.Inner.Sound.{IsSound};
ghost use Rattle.tst_runner.specs.Inner.Tables.{ListsFiles};
ghost use Rattle.tst_runner.specs.Loading.{HasFailed, HasGathered};
ghost use Rattle.tst_runner.specs.Setting.{folder_of, setting_of};
ghost use Rattle.hdl_parser.specs.Language.{RefusesHdl};
ghost use Rattle.hdl_parser.specs.Spells.{Spells};

use crate::directories::entry_named;
use crate::files::folder_of;
use crate::tables::chip_files;
use hack_cpu::{library, take_shipped};
use hdl_names::NamedChips;
use hdl_parser::HdlLanguage;
use hdl_tree::{Body, Chip, Entry, Library, Memories, Name, Part, find_end};
use name_table::Table;
use outer_world::{Listing, Shelf};
use source_files::{LoadError, load, path_in};
use std::alloc::{AllocError, Global};

// Where chips are found: the shipped ones, how the memories are simulated, the folder and the names in it.
#[derive(Clone, Copy)]
struct Places<'a> {
    shipped: &'a [Entry],
    memories: Memories,
    folder: &'a str,
    names: &'a [outer_world::Name],
}

// Where the chip of a name is found: in a file of the folder, or among the shipped ones.
#[derive(Clone, Copy)]
enum Origin<'a> {
    File(&'a outer_world::Name),
    Shipped,
}

// The names in a folder.
fn names_in<F: Shelf>(
    alloc: Global,
    folder: &str,
    shelf: &mut F,
) -> Result<Vec<outer_world::Name>, LoadError>
    ensures loads { Loads (λ (names : Vec (List ℕ) Global).
        IfSome (F.state shelf.old).files (λ told. IsListing told folder.now names.items)) (λ _. ⊥)
        (MissesFolder (F.state shelf.old) folder.now)
        result }
    ensures counts { CountsLoad (F.faults shelf.old) (F.faults shelf.new) result }
    ensures keeps { Keeps (F.state shelf.old) (F.state shelf.new) }
{
    match shelf.list(alloc, folder) {
        Listing::Names(names) => Ok(names),
        Listing::Failed => Err(LoadError::Failed),
        Listing::Memory => Err(LoadError::Memory),
    }
}

// Where the chip of a name is found, if it is anywhere.
fn find_origin<'a>(
    places: &Places<'a>,
    files: &Table<'a, &'a outer_world::Name>,
    name: &[u8],
) -> Option<Origin<'a>>
    requires { ListsFiles places.now.names.now files.now }
    ensures { (told : Option Files)
        → MatchOption result (IsNowhere (sources_of places.now told) name.now)
        (IsOrigin (sources_of places.now told) name.now) }
{
    if let Some(file) = files.find(name) {
        return Some(Origin::File(file));
    }
    match entry_named(places.shipped, name) {
        None => None,
        Some(_) => Some(Origin::Shipped),
    }
}

// The next name whose chip is to be found, and where that is: those of chips that are there, and those that are nowhere, are passed over.
fn next_new<'a>(
    places: &Places<'a>,
    files: &Table<'a, &'a outer_world::Name>,
    gathered: &NamedChips,
    stack: &mut Vec<Name>,
) -> Option<(Name, Origin<'a>)>
    requires tabled { ListsFiles places.now.names.now files.now }
    requires indexed { IsIndexed gathered.now }
    ensures { (told : Option Files) → MatchOption result (Leads (sources_of places.now told)
        (reverse stack.old.items) gathered.now.entries.items [] gathered.now.entries.items)
        (λ next. IsNext (sources_of places.now told) (reverse stack.old.items)
        gathered.now.entries.items next.0 next.1 (reverse stack.new.items)) }
{
    'names: while let Some(name) = stack.pop() {
        if gathered.has(name.as_bytes()) {
            continue;
        }
        if let Some(found) = find_origin(places, files, name.as_bytes()) {
            return Some((name, found));
        }
    }
    None
}

// The shipped chip that a chip which is built in stands for, if there is one, to keep.
fn original(alloc: Global, chip: &Chip) -> Result<Option<Entry>, AllocError>
    ensures { (name : List ℕ)
        → IfOk result (λ own. entry_of shipped_chips name chip.now ≡ built_in name chip.now own) }
{
    match &chip.body {
        Body::Parts(_) => Ok(None),
        Body::Builtin(own, _) => take_shipped(alloc, own.as_bytes()),
    }
}

// The chip of a text, under this name.
fn entry_of(alloc: Global, name: Name, chip: Chip) -> Result<Entry, AllocError>
    ensures { IfOk result (λ entry. entry ≡ entry_of shipped_chips name chip) }
{
    match original(alloc, &chip)? {
        None => Ok(Entry {
            name,
            chip,
            shipped: None,
        }),
        Some(Entry { chip, shipped, .. }) => Ok(Entry {
            name,
            chip,
            shipped,
        }),
    }
}

// The chip of a file of a folder.
fn load_chip<F: Shelf>(
    alloc: Global,
    folder: &str,
    file: &str,
    shelf: &mut F,
) -> Result<Chip, LoadError>
    ensures loads { Loads (SpellsAt Spells (F.state shelf.old).files (path_in folder.now file.now))
        (IsFaulty RefusesHdl (F.state shelf.old).files (path_in folder.now file.now))
        (MissesFile (F.state shelf.old) (path_in folder.now file.now))
        result }
    ensures counts { CountsLoad (F.faults shelf.old) (F.faults shelf.new) result }
    ensures keeps { Keeps (F.state shelf.old) (F.state shelf.new) }
{
    let path = path_in(alloc, folder, file)?;
    load(alloc, &HdlLanguage, path.as_str(), file, shelf)
}

// The chip of a name, from where it is found.
fn find<F: Shelf>(
    alloc: Global,
    places: &Places<'_>,
    name: Name,
    found: Origin<'_>,
    shelf: &mut F,
) -> Result<Entry, LoadError>
    requires shipped { places.now.shipped.now ≡ shipped_chips }
    requires origin { IsOrigin (sources_of places.now (F.state shelf.old).files) name found }
    ensures loads { Loads (IsFound (sources_of places.now (F.state shelf.old).files) name)
        (IsRefusedAt (sources_of places.now (F.state shelf.old).files) name)
        ((F.state shelf.old).unfailing
        → LacksFileOf (sources_of places.now (F.state shelf.old).files) name)
        result }
    ensures counts { CountsLoad (F.faults shelf.old) (F.faults shelf.new) result }
    ensures keeps { Keeps (F.state shelf.old) (F.state shelf.new) }
{
    match found {
        Origin::File(file) => {
            let chip = load_chip(alloc, places.folder, file.as_str(), shelf)?;
            Ok(entry_of(alloc, name, chip)?)
        }
        Origin::Shipped => match take_shipped(alloc, name.as_bytes())? {
            Some(entry) => Ok(entry),
            None => unreachable!(),
        },
    }
}

// Puts the names of the chips of parts on a stack, the first on top.
fn push_chips(stack: &mut Vec<Name>, parts: &[Part]) -> Result<(), AllocError>
    ensures { OnOk result
        (stack.new.items ≡ stack.old.items ++ reverse (map (λ part. part.chip) parts.now)) }
{
    for k in (0..parts.len()).rev() {
        stack.push(parts[k].chip.clone()?)?;
    }
    Ok(())
}

// Puts the names that a chip needs on a stack, the first on top.
fn push_needed(stack: &mut Vec<Name>, memories: Memories, entry: &Entry) -> Result<(), AllocError>
    ensures { OnOk result
        (reverse stack.new.items ≡ needed_names memories entry.now ++ reverse stack.old.items) }
{
    if find_end(memories, entry).is_some() {
        return Ok(());
    }
    match &entry.chip.body {
        Body::Parts(parts) => push_chips(stack, parts.as_slice()),
        Body::Builtin(_, _) => Ok(()),
    }
}

// The chip of a name comes to those that are gathered, and the names that it needs to the stack.
fn gather_one<F: Shelf>(
    alloc: Global,
    places: &Places<'_>,
    name: Name,
    found: Origin<'_>,
    gathered: &mut NamedChips,
    stack: &mut Vec<Name>,
    shelf: &mut F,
) -> Result<(), LoadError>
    requires shipped { places.now.shipped.now ≡ shipped_chips }
    requires origin { IsOrigin (sources_of places.now (F.state shelf.old).files) name found }
    requires indexed { IsIndexed gathered.old }
    ensures loads { Loads
        (λ _. IsMore (sources_of places.now (F.state shelf.old).files) name
        (reverse stack.old.items)
        gathered.old.entries.items (reverse stack.new.items) gathered.new.entries.items)
        (IsRefusedAt (sources_of places.now (F.state shelf.old).files) name)
        ((F.state shelf.old).unfailing
        → LacksFileOf (sources_of places.now (F.state shelf.old).files) name)
        result }
    ensures indexed { OnOk result (IsIndexed gathered.new) }
    ensures counts { CountsLoad (F.faults shelf.old) (F.faults shelf.new) result }
    ensures keeps { Keeps (F.state shelf.old) (F.state shelf.new) }
{
    let entry = find(alloc, places, name, found, shelf)?;
    push_needed(stack, places.memories, &entry)?;
    gathered.push(alloc, entry)?;
    Ok(())
}

// The chips that the chip of a name needs.
fn gather_from<'a, F: Shelf>(
    alloc: Global,
    places: &Places<'a>,
    files: &Table<'a, &'a outer_world::Name>,
    name: &Name,
    shelf: &mut F,
) -> Result<Library, LoadError>
    requires shipped { places.now.shipped.now ≡ shipped_chips }
    requires listed { IfSome (F.state shelf.old).files
        (λ told. IsListing told places.now.folder.now places.now.names.now) }
    requires tabled { ListsFiles places.now.names.now files.now }
    ensures loads { Loads (λ (library : Library). Gather
        (sources_of places.now (F.state shelf.old).files) (name.now ∷ []) [] library.entries)
        (GatherFails (sources_of places.now (F.state shelf.old).files) (name.now ∷ []) [])
        (MissesFolder (F.state shelf.old) places.now.folder.now) result }
    ensures counts { CountsLoad (F.faults shelf.old) (F.faults shelf.new) result }
    ensures keeps { Keeps (F.state shelf.old) (F.state shelf.new) }
{
    let mut gathered = NamedChips::new(alloc);
    let mut stack = Vec::new(alloc);
    stack.push(name.clone()?)?;
    'chips: while let Some((name, found)) = next_new(places, files, &gathered, &mut stack) {
        gather_one(alloc, places, name, found, &mut gathered, &mut stack, shelf)?;
    }
    Ok(Library {
        entries: gathered.into_entries(),
    })
}

// The chips that the chip of a name needs, with a table of the files of chips in the folder.
fn gather_in<F: Shelf>(
    alloc: Global,
    places: &Places<'_>,
    name: &Name,
    shelf: &mut F,
) -> Result<Library, LoadError>
    requires shipped { places.now.shipped.now ≡ shipped_chips }
    requires listed { IfSome (F.state shelf.old).files
        (λ told. IsListing told places.now.folder.now places.now.names.now) }
    ensures loads { Loads (λ (library : Library). Gather
        (sources_of places.now (F.state shelf.old).files) (name.now ∷ []) [] library.entries)
        (GatherFails (sources_of places.now (F.state shelf.old).files) (name.now ∷ []) [])
        (MissesFolder (F.state shelf.old) places.now.folder.now) result }
    ensures counts { CountsLoad (F.faults shelf.old) (F.faults shelf.new) result }
    ensures keeps { Keeps (F.state shelf.old) (F.state shelf.new) }
{
    let files = chip_files(alloc, places.names)?;
    gather_from(alloc, places, &files, name, shelf)
}

/// The chips that the chip of this name needs, by name: the files of the script's folder, read depth first in text order, each once, and else
/// the shipped chips.
///
/// Otherwise why a text is refused, that the shelf failed, or want of memory. An honest shelf fails only for a folder that is not there.
pub fn gather<F: Shelf>(
    alloc: Global,
    path: &str,
    name: &Name,
    memories: Memories,
    shelf: &mut F,
) -> Result<Library, LoadError>
    ensures loads { Loads (λ (library : Library).
        HasGathered (setting_of path.now (F.state shelf.old).files memories) name.now
        library.entries)
        (HasFailed (setting_of path.now (F.state shelf.old).files memories) name.now)
        (MissesFolder (F.state shelf.old) (folder_of path.now)) result }
    ensures sound { IfOk result (λ library. IsSound library.entries) }
    ensures counts { CountsLoad (F.faults shelf.old) (F.faults shelf.new) result }
    ensures keeps { Keeps (F.state shelf.old) (F.state shelf.new) }
{
    let folder = folder_of(path);
    let names = names_in(alloc, folder, shelf)?;
    let shipped = library(alloc)?;
    let places = Places {
        shipped: shipped.entries.as_slice(),
        memories,
        folder,
        names: &names,
    };
    gather_in(alloc, &places, name, shelf)
}
