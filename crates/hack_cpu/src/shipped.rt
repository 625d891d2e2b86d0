//! The library of shipped chips.
ghost use Rattle.std.specs.Prelude.{◌≡◌, ◌<◌, ◌++◌, ◌∷◌, [], true, Some, None, IfOk, IfSome, IfNone, length, map, slice_get};
ghost use Rattle.hdl_tree.specs.Chips.{find_entry};
ghost use Rattle.hdl_tree.specs.Writable.{chip_can};
ghost use Rattle.chip_basic.specs.Hdl.{shipped_entry};
ghost use Rattle.chip_basic.specs.Trees.{nand_tree, not_tree, and_tree, or_tree, xor_tree, mux_tree, dmux_tree, not16_tree, and16_tree, or16_tree, mux16_tree, or8way_tree, mux4way16_tree, mux8way16_tree, dmux4way_tree, dmux8way_tree};
ghost use Rattle.chip_memory.specs.Trees.{dff_tree, bit_tree, register_tree, a_register_tree, d_register_tree, pc_tree, ram8_tree, ram64_tree, ram512_tree, ram4k_tree, ram16k_tree, screen_tree};
ghost use Rattle.hack_cpu.specs.Library.{basic_chips, computing_chips, memory_chips, computer_chips, shipped_chips};

use crate::trees::{computer_tree, cpu_tree, keyboard_tree, memory_tree, rom_tree};
use chip_alu::{add16_tree, alu_tree, full_adder_tree, half_adder_tree, inc16_tree, shift_tree};
use chip_basic::{
    and_tree, and16_tree, dmux_tree, dmux4way_tree, dmux8way_tree, mux_tree, mux4way16_tree,
    mux8way16_tree, mux16_tree, nand_tree, not_tree, not16_tree, or_tree, or8way_tree, or16_tree,
    xor_tree,
};
use chip_memory::{
    a_register_tree, bit_tree, d_register_tree, dff_tree, pc_tree, ram4k_tree, ram8_tree,
    ram16k_tree, ram64_tree, ram512_tree, register_tree, screen_tree,
};
use hdl_tree::{Chip, Entry, Library, List};
use std::alloc::{AllocError, Global};

// A chip under its own name, after those that are there.
fn add_shipped(alloc: Global, entries: &mut Vec<Entry>, chip: Chip) -> Result<(), AllocError>
    ensures { IfOk result (λ _. entries.new.items ≡ entries.old.items ++ shipped_entry chip ∷ []) }
{
    let name = chip.name.clone()?;
    let own = chip.name.clone()?;
    entries.push(Entry {
        name,
        chip,
        shipped: Some(own),
    })?;
    Ok(())
}

// Nand, and the gates of one bit that the others are made of.
fn add_gates(alloc: Global, entries: &mut Vec<Entry>) -> Result<(), AllocError>
    ensures { IfOk result (λ _. entries.new.items ≡ entries.old.items
        ++ map shipped_entry (nand_tree ∷ not_tree ∷ and_tree ∷ or_tree ∷ [])) }
{
    add_shipped(alloc, entries, nand_tree(alloc)?)?;
    add_shipped(alloc, entries, not_tree(alloc)?)?;
    add_shipped(alloc, entries, and_tree(alloc)?)?;
    add_shipped(alloc, entries, or_tree(alloc)?)?;
    Ok(())
}

// The other chips of one bit.
fn add_choices(alloc: Global, entries: &mut Vec<Entry>) -> Result<(), AllocError>
    ensures { IfOk result (λ _. entries.new.items ≡ entries.old.items
        ++ map shipped_entry (xor_tree ∷ mux_tree ∷ dmux_tree ∷ [])) }
{
    add_shipped(alloc, entries, xor_tree(alloc)?)?;
    add_shipped(alloc, entries, mux_tree(alloc)?)?;
    add_shipped(alloc, entries, dmux_tree(alloc)?)?;
    Ok(())
}

// The chips of sixteen bits.
fn add_words(alloc: Global, entries: &mut Vec<Entry>) -> Result<(), AllocError>
    ensures { IfOk result (λ _. entries.new.items ≡ entries.old.items
        ++ map shipped_entry (not16_tree ∷ and16_tree ∷ or16_tree ∷ mux16_tree ∷ [])) }
{
    add_shipped(alloc, entries, not16_tree(alloc)?)?;
    add_shipped(alloc, entries, and16_tree(alloc)?)?;
    add_shipped(alloc, entries, or16_tree(alloc)?)?;
    add_shipped(alloc, entries, mux16_tree(alloc)?)?;
    Ok(())
}

// The chips of many ways.
fn add_ways(alloc: Global, entries: &mut Vec<Entry>) -> Result<(), AllocError>
    ensures { IfOk result (λ _. entries.new.items ≡ entries.old.items
        ++ map shipped_entry
        (or8way_tree ∷ mux4way16_tree ∷ mux8way16_tree ∷ dmux4way_tree ∷ dmux8way_tree ∷ [])) }
{
    add_shipped(alloc, entries, or8way_tree(alloc)?)?;
    add_shipped(alloc, entries, mux4way16_tree(alloc)?)?;
    add_shipped(alloc, entries, mux8way16_tree(alloc)?)?;
    add_shipped(alloc, entries, dmux4way_tree(alloc)?)?;
    add_shipped(alloc, entries, dmux8way_tree(alloc)?)?;
    Ok(())
}

fn basic_entries(alloc: Global) -> Result<Vec<Entry>, AllocError>
    ensures { IfOk result (λ entries. entries.items ≡ basic_chips) }
{
    let mut entries = Vec::new(alloc);
    add_gates(alloc, &mut entries)?;
    add_choices(alloc, &mut entries)?;
    add_words(alloc, &mut entries)?;
    add_ways(alloc, &mut entries)?;
    Ok(entries)
}

fn add_computing_entries(alloc: Global, entries: &mut Vec<Entry>) -> Result<(), AllocError>
    requires { entries.old.items ≡ basic_chips }
    ensures { IfOk result (λ _. entries.new.items ≡ basic_chips ++ computing_chips) }
{
    add_shipped(alloc, entries, half_adder_tree(alloc)?)?;
    add_shipped(alloc, entries, full_adder_tree(alloc)?)?;
    add_shipped(alloc, entries, add16_tree(alloc)?)?;
    add_shipped(alloc, entries, inc16_tree(alloc)?)?;
    add_shipped(alloc, entries, alu_tree(alloc)?)?;
    add_shipped(alloc, entries, shift_tree(alloc)?)?;
    Ok(())
}

// The chips that keep one word, but for the counter.
fn add_registers(alloc: Global, entries: &mut Vec<Entry>) -> Result<(), AllocError>
    ensures { IfOk result (λ _. entries.new.items ≡ entries.old.items
        ++ map shipped_entry
        (dff_tree ∷ bit_tree ∷ register_tree ∷ a_register_tree ∷ d_register_tree ∷ [])) }
{
    add_shipped(alloc, entries, dff_tree(alloc)?)?;
    add_shipped(alloc, entries, bit_tree(alloc)?)?;
    add_shipped(alloc, entries, register_tree(alloc)?)?;
    add_shipped(alloc, entries, a_register_tree(alloc)?)?;
    add_shipped(alloc, entries, d_register_tree(alloc)?)?;
    Ok(())
}

// The counter, and the memories of up to 512 words.
fn add_small_memories(alloc: Global, entries: &mut Vec<Entry>) -> Result<(), AllocError>
    ensures { IfOk result (λ _. entries.new.items ≡ entries.old.items
        ++ map shipped_entry (pc_tree ∷ ram8_tree ∷ ram64_tree ∷ ram512_tree ∷ [])) }
{
    add_shipped(alloc, entries, pc_tree(alloc)?)?;
    add_shipped(alloc, entries, ram8_tree(alloc)?)?;
    add_shipped(alloc, entries, ram64_tree(alloc)?)?;
    add_shipped(alloc, entries, ram512_tree(alloc)?)?;
    Ok(())
}

// The memories of more words.
fn add_large_memories(alloc: Global, entries: &mut Vec<Entry>) -> Result<(), AllocError>
    ensures { IfOk result (λ _. entries.new.items ≡ entries.old.items
        ++ map shipped_entry (ram4k_tree ∷ ram16k_tree ∷ screen_tree ∷ [])) }
{
    add_shipped(alloc, entries, ram4k_tree(alloc)?)?;
    add_shipped(alloc, entries, ram16k_tree(alloc)?)?;
    add_shipped(alloc, entries, screen_tree(alloc)?)?;
    Ok(())
}

fn add_memory_entries(alloc: Global, entries: &mut Vec<Entry>) -> Result<(), AllocError>
    requires { entries.old.items ≡ basic_chips ++ computing_chips }
    ensures { IfOk result
        (λ _. entries.new.items ≡ basic_chips ++ (computing_chips ++ memory_chips)) }
{
    add_registers(alloc, entries)?;
    add_small_memories(alloc, entries)?;
    add_large_memories(alloc, entries)?;
    Ok(())
}

fn add_computer_entries(alloc: Global, entries: &mut Vec<Entry>) -> Result<(), AllocError>
    requires { entries.old.items ≡ basic_chips ++ (computing_chips ++ memory_chips) }
    ensures { IfOk result (λ _. entries.new.items
        ≡ basic_chips ++ (computing_chips ++ (memory_chips ++ computer_chips))) }
{
    add_shipped(alloc, entries, rom_tree(alloc)?)?;
    add_shipped(alloc, entries, keyboard_tree(alloc)?)?;
    add_shipped(alloc, entries, cpu_tree(alloc)?)?;
    add_shipped(alloc, entries, memory_tree(alloc)?)?;
    add_shipped(alloc, entries, computer_tree(alloc)?)?;
    Ok(())
}

// All shipped chips, each under its own name.
#[tactic(auto, unfolding(crate::specs::Library::shipped_chips))]
fn shipped_entries(alloc: Global) -> Result<Vec<Entry>, AllocError>
    ensures { IfOk result (λ entries. entries.items ≡ shipped_chips) }
{
    let mut entries = basic_entries(alloc)?;
    add_computing_entries(alloc, &mut entries)?;
    add_memory_entries(alloc, &mut entries)?;
    add_computer_entries(alloc, &mut entries)?;
    Ok(entries)
}

/// All shipped chips, each under its own name.
pub fn library(alloc: Global) -> Result<Library, AllocError>
    ensures { IfOk result (λ library. library.entries ≡ shipped_chips) }
{
    Ok(Library {
        entries: List::of(shipped_entries(alloc)?),
    })
}

// Where the chip of this name stands, if there is one.
fn place_of(entries: &[Entry], name: &[u8]) -> Option<usize>
    ensures found { IfSome result (λ k. (k < length entries.now)
        × (find_entry entries.now name.now ≡ slice_get entries.now k)) }
    ensures none { IfNone result (find_entry entries.now name.now ≡ None) }
{
    for k in 0..entries.len() {
        if name == entries[k].name.as_bytes() {
            return Some(k);
        }
    }
    None
}

/// The shipped chip of this name, if there is one, to keep.
pub fn take_shipped(alloc: Global, name: &[u8]) -> Result<Option<Entry>, AllocError>
    ensures { IfOk result (λ found. found ≡ find_entry shipped_chips name.now) }
{
    let mut entries = shipped_entries(alloc)?;
    match place_of(&entries, name) {
        None => Ok(None),
        Some(k) => Ok(Some(entries.swap_remove(k))),
    }
}

/// The chip of this name in a library, if there is one. A shipped chip can be printed.
pub fn find_shipped<'a>(library: &'a Library, name: &[u8]) -> Option<&'a Entry>
    ensures found { IfSome result
        (λ entry. find_entry library.now.entries name.now ≡ Some entry.now) }
    ensures none { IfNone result (find_entry library.now.entries name.now ≡ None) }
    ensures printed { library.now.entries ≡ shipped_chips
        → IfSome result (λ entry. chip_can entry.now.chip ≡ true) }
{
    for entry in library.entries.as_slice() {
        if name == entry.name.as_bytes() {
            return Some(entry);
        }
    }
    None
}
