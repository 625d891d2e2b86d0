//! The sources of a folder.
ghost use Rattle.std.specs.Prelude.{◌≡◌, ◌++◌, ℕ, List, Vec, IfOk, string_bytes};
ghost use Rattle.std.specs.List.Sorted.{IsPermutation, IsSorted};
ghost use Rattle.std.specs.Ordering.{nat_cmp};
ghost use Rattle.std.specs.Cmp.Lexicographic.{slice_cmp};
ghost use Rattle.std.specs.declared.alloc.Global.{Global};
ghost use Rattle.outer_world.specs.Files.{LacksFile, LacksFolder, path_in};
ghost use Rattle.outer_world.specs.State.{Keeps, MissesFile, MissesFolder};
ghost use Rattle.source_files.specs.Folder.{AreNames, AreSources, IsOverfull, ending_in, stem_of};
ghost use Rattle.source_files.specs.Loads.{CountsLoad, FailsFor, Loads, SpendsOne};
ghost use Rattle.source_files.specs.Inner.Limits.{LacksOne, TellsOverfull};
ghost use Rattle.source_files.specs.Sources.{FailsAtOne, FailsInOrder, FolderSpells, IsFaulty, IsFirstFaulty, IsUnread, SpellEach, SpellsAt};

use crate::error::LoadError;
use crate::language::Language;
use crate::loading::load;
use outer_world::{Detail, Diagnostic, Listing, Name, Shelf};
use std::alloc::{AllocError, Global};

const MOST_FILES: usize = 256;

// The greatest value that a refusal reports.
const MOST_TOLD: usize = 1_000_000_000;

/// The path of a name in a folder; an empty folder is the present one.
pub fn path_in(alloc: Global, folder: &str, name: &str) -> Result<String, AllocError>
    ensures { IfOk result (λ path. string_bytes path ≡ path_in folder.now name.now) }
{
    let mut path = String::from_str(alloc, folder)?;
    path.push_str(separator(folder))?;
    path.push_str(name)?;
    Ok(path)
}

// What stands between a folder and a name in it.
#[tactic(auto, using(crate::proofs::Listing::path_here, crate::proofs::Listing::path_there))]
fn separator(folder: &str) -> &'static str
    ensures { (name : List ℕ) → folder.now ++ (result.now ++ name) ≡ path_in folder.now name }
{
    if folder.is_empty() { "" } else { "/" }
}

/// A name without the ending that it has.
pub fn stem<'a>(name: &'a str, ending: &str) -> &'a str
    ensures { result.now ≡ stem_of ending.now name.now }
{
    match name.strip_suffix(ending) {
        Some(stem) => stem,
        None => name,
    }
}

// Those of some names that end so, in order.
fn in_order(names: Vec<Name>, ending: &str) -> Result<Vec<Name>, AllocError>
    ensures moved { IfOk result
        (λ kept. IsPermutation (ending_in ending.now names.items) kept.items) }
    ensures sorted { IfOk result (λ kept. IsSorted (slice_cmp nat_cmp) kept.items) }
{
    let mut kept = names;
    kept.retain(|name| name.as_bytes().ends_with(ending.as_bytes()));
    kept.sort()?;
    Ok(kept)
}

// The names of the files of a folder that end so, in order.
fn names_in<F: Shelf>(
    alloc: Global,
    folder: &str,
    ending: &str,
    shelf: &mut F,
) -> Result<Vec<Name>, LoadError>
    ensures loads { Loads (λ (names : Vec (List ℕ) Global).
        AreNames (F.state shelf.old).files folder.now ending.now names.items) (λ _. ⊥)
        (MissesFolder (F.state shelf.old) folder.now)
        result }
    ensures counts { CountsLoad (F.faults shelf.old) (F.faults shelf.new) result }
    ensures keeps { Keeps (F.state shelf.old) (F.state shelf.new) }
    ensures spends { SpendsOne (F.unfailing_for shelf.old) (F.unfailing_for shelf.new)
        (LacksFolder (F.state shelf.old).files (F.state shelf.old).there folder.now) result }
{
    let names = match shelf.list(alloc, folder) {
        Listing::Names(names) => names,
        Listing::Failed => return Err(LoadError::Failed),
        Listing::Memory => return Err(LoadError::Memory),
    };
    let kept = in_order(names, ending)?;
    Ok(kept)
}

// The refusal of a folder with this many files.
fn overfull(alloc: Global, folder: &str, files: usize) -> LoadError
    ensures { TellsOverfull folder.now files result }
{
    let told = Detail::Number(files.min(MOST_TOLD) as u64);
    LoadError::refused(alloc, folder, Diagnostic::nowhere("Range", told))
}

// The names of the files of a folder that end so, in order. There may be 256 of them.
fn sources_in<F: Shelf>(
    alloc: Global,
    folder: &str,
    ending: &str,
    shelf: &mut F,
) -> Result<Vec<Name>, LoadError>
    ensures loads { Loads (λ (names : Vec (List ℕ) Global).
        AreSources (F.state shelf.old).files folder.now ending.now names.items)
        (IsOverfull (F.state shelf.old).files folder.now ending.now)
        (MissesFolder (F.state shelf.old) folder.now)
        result }
    ensures counts { CountsLoad (F.faults shelf.old) (F.faults shelf.new) result }
    ensures keeps { Keeps (F.state shelf.old) (F.state shelf.new) }
    ensures spends { SpendsOne (F.unfailing_for shelf.old) (F.unfailing_for shelf.new)
        (LacksFolder (F.state shelf.old).files (F.state shelf.old).there folder.now) result }
{
    let names = names_in(alloc, folder, ending, shelf)?;
    if names.len() > MOST_FILES {
        return Err(overfull(alloc, folder, names.len()));
    }
    Ok(names)
}

// What the text of this name in a folder spells.
fn load_in<L: Language, F: Shelf>(
    alloc: Global,
    language: &L,
    folder: &str,
    name: &str,
    shelf: &mut F,
) -> Result<L::Source, LoadError>
    ensures loads { Loads (SpellsAt (L.spells language.now name.now)
        (F.state shelf.old).files (path_in folder.now name.now))
        (IsFaulty (L.refuses language.now) (F.state shelf.old).files (path_in folder.now name.now))
        (MissesFile (F.state shelf.old) (path_in folder.now name.now))
        result }
    ensures counts { CountsLoad (F.faults shelf.old) (F.faults shelf.new) result }
    ensures keeps { Keeps (F.state shelf.old) (F.state shelf.new) }
    ensures spends { SpendsOne (F.unfailing_for shelf.old) (F.unfailing_for shelf.new)
        (LacksFile (F.state shelf.old).files (path_in folder.now name.now)) result }
{
    let path = path_in(alloc, folder, name)?;
    load(alloc, language, path.as_str(), name, shelf)
}

// What the texts of these names in a folder spell, or why the first with a fault is refused.
fn load_each<L: Language, F: Shelf>(
    alloc: Global,
    language: &L,
    folder: &str,
    names: &[Name],
    shelf: &mut F,
) -> Result<Vec<L::Source>, LoadError>
    ensures loads { Loads (λ (sources : Vec L.Source Global).
        SpellEach (L.spells language.now)
        (F.state shelf.old).files folder.now names.now sources.items)
        (IsFirstFaulty
        (L.spells language.now) (L.refuses language.now)
        (F.state shelf.old).files folder.now names.now)
        ((F.state shelf.old).unfailing → LacksOne (F.state shelf.old).files folder.now names.now)
        result }
    ensures counts { CountsLoad (F.faults shelf.old) (F.faults shelf.new) result }
    ensures keeps { Keeps (F.state shelf.old) (F.state shelf.new) }
    ensures in_order { FailsFor (FailsAtOne (L.spells language.now) (F.unfailing_for shelf.old)
        (F.state shelf.old).files folder.now names.now) result }
{
    let mut sources = Vec::new(alloc);
    for name in names {
        let source = load_in(alloc, language, folder, name.as_str(), shelf)?;
        sources.push(source)?;
    }
    Ok(sources)
}

/// What the texts of the folder's files spell whose names end so, in order of name.
///
/// Otherwise the refusal of more than 256 files, else of the first with a fault, that the shelf failed, or want of memory. An honest shelf fails only
/// for a folder that is not there. No fault comes of a file behind one that is refused.
pub fn load_folder<L: Language, F: Shelf>(
    alloc: Global,
    language: &L,
    folder: &str,
    ending: &str,
    shelf: &mut F,
) -> Result<Vec<L::Source>, LoadError>
    ensures loads { Loads (λ (sources : Vec L.Source Global). FolderSpells
        (L.spells language.now) ending.now (F.state shelf.old).files folder.now sources.items)
        (IsUnread (L.spells language.now)
        (L.refuses language.now) ending.now (F.state shelf.old).files folder.now)
        (MissesFolder (F.state shelf.old) folder.now)
        result }
    ensures counts { CountsLoad (F.faults shelf.old) (F.faults shelf.new) result }
    ensures keeps { Keeps (F.state shelf.old) (F.state shelf.new) }
    ensures in_order { FailsFor (FailsInOrder
        (L.spells language.now) ending.now (F.unfailing_for shelf.old)
        (F.state shelf.old).files (F.state shelf.old).there folder.now) result }
{
    let names = sources_in(alloc, folder, ending, shelf)?;
    load_each(alloc, language, folder, &names, shelf)
}
