//! Libraries of shipped chips and of chips from texts.

ghost use Rattle.std.specs.Prelude.{◌≡◌, ◌⊎◌, None, IfOk};
ghost use Rattle.hack_cpu.specs.Libraries.{IsLibrary, IsShippedAs};

use chip_basic::nand_tree;
use hack_cpu::{find_shipped, library};
use hdl_elab::{Elab, ElaborationFault, elaborate};
use hdl_parser::parse;
use hdl_tree::{Chip, Entry, Library, List, Memories, Name};
use std::alloc::{AllocError, Global};
use std::test::Fail;

/// All shipped chips.
pub fn shipped_library(alloc: Global) -> Result<Library, AllocError>
    ensures { IfOk result (λ library. IsLibrary library.entries) }
{
    library(alloc)
}

/// The chip that a text spells.
pub fn read(alloc: Global, text: &[u8]) -> Result<Chip, Fail> {
    match parse(alloc, text) {
        Ok(chip) => Ok(chip),
        Err(_) => Err(Fail::from("the text is a chip")),
    }
}

// Adds a chip under a name that no other has.
fn add_entry(library: Library, entry: Entry) -> Result<Library, Fail>
    requires library { IsLibrary library.entries }
    requires known { (entry.shipped ≡ None) ⊎ IsShippedAs entry }
    ensures { IfOk result (λ library. IsLibrary library.entries) }
{
    if find_shipped(&library, entry.name.as_bytes()).is_some() {
        return Err(Fail::from("no chip has this name"));
    }
    let mut entries = library.into_entries();
    entries.push(entry)?;
    Ok(Library {
        entries: List::of(entries),
    })
}

/// Adds the chip that a text spells, which has a name of its own.
pub fn add_text(alloc: Global, library: Library, text: &[u8]) -> Result<Library, Fail>
    requires { IsLibrary library.entries }
    ensures { IfOk result (λ library. IsLibrary library.entries) }
{
    let chip = read(alloc, text)?;
    let name = chip.name.clone()?;
    add_entry(
        library,
        Entry {
            name,
            chip,
            shipped: None,
        },
    )
}

/// The shipped Nand.
pub fn shipped_nand(alloc: Global) -> Result<Entry, AllocError>
    ensures { IfOk result (λ entry. IsShippedAs entry) }
{
    let chip = nand_tree(alloc)?;
    let name = chip.name.clone()?;
    let own = chip.name.clone()?;
    Ok(Entry {
        name,
        chip,
        shipped: Some(own),
    })
}

/// The chip that a text spells, and of the shipped ones Nand alone.
pub fn library_of_own(alloc: Global, text: &[u8]) -> Result<Library, Fail>
    ensures { IfOk result (λ library. IsLibrary library.entries) }
{
    let none = Library {
        entries: List::of(Vec::new(alloc)),
    };
    let library = add_text(alloc, none, text)?;
    let nand = shipped_nand(alloc)?;
    add_entry(library, nand)
}

/// The shipped chips, and those that these texts spell.
pub fn library_with(alloc: Global, texts: &[&[u8]]) -> Result<Library, Fail>
    ensures { IfOk result (λ library. IsLibrary library.entries) }
{
    let mut library = shipped_library(alloc)?;
    for text in texts {
        library = add_text(alloc, library, *text)?;
    }
    Ok(library)
}

/// What elaboration answers for the chip of this name.
pub fn answer(
    alloc: Global,
    library: &Library,
    name: &[u8],
    memories: Memories,
) -> Result<Result<Elab, ElaborationFault>, Fail>
    requires { IsLibrary library.now.entries }
{
    let top = Name::from_bytes(alloc, name)?;
    if find_shipped(library, name).is_none() {
        return Err(Fail::from("a chip of this name is there"));
    }
    Ok(elaborate(alloc, library, &top, memories))
}
