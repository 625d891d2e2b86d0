//! What the variables of a script stand for in a chip.

ghost use Rattle.std.specs.Prelude.{◌≡◌, ◌↔◌, ◌++◌, ℕ, List, None, Some, IsTrue, MatchOption};
ghost use Rattle.netlist.specs.Net.{Net};
ghost use Rattle.gate_sim.specs.Calls.{Call};
ghost use Rattle.script_device.specs.Directory.{AreSizes, HasBlock, HasOut, loaded_chip, pin_named};
ghost use Rattle.script_device.specs.Variables as chips;
ghost use Rattle.script_device.specs.Variables.Source.{BlockWord};
ghost use Rattle.script_device.specs.Devices.{CanSet, Denotes, Source};
ghost use Rattle.script_device.specs.Devices.Device.{Chip};
ghost use Rattle.script_device.specs.Inner.Numbers.{AreTables};
ghost use Rattle.script_device.specs.Inner.Sources.{HasSize, IsOut, source_of};

use crate::brackets::{CAP, brackets, capped_number};
use crate::directory::Directory;
use crate::tables::Tables;

/// What a variable stands for: the time, nodes of the chip, the lowest first, or a word of a block, by its block and address.
#[derive(Clone, Copy)]
pub enum Variable<'a> {
    Time,
    Bus(&'a [u32]),
    Word(u32, u32),
}

// The nodes of a pin of the chip.
fn own_bus<'a>(directory: &'a Directory, tables: &Tables, text: &[u8]) -> Option<&'a [u32]>
    requires { AreTables tables.now directory.now }
    ensures { MatchOption result
        (pin_named (directory.now.inputs ++ directory.now.outputs) text.now ≡ None)
        (λ nodes. pin_named (directory.now.inputs ++ directory.now.outputs) text.now
        ≡ Some nodes.now) }
{
    match tables.input(directory, text) {
        Some(nodes) => Some(nodes),
        None => tables.output(directory, text),
    }
}

// The nodes of `out` of the first part of a chip.
fn out_named<'a>(directory: &'a Directory, tables: &Tables, name: &[u8]) -> Option<&'a [u32]>
    requires { AreTables tables.now directory.now }
    ensures { MatchOption result ((nodes : List ℕ) → HasOut directory.now name.now nodes → ⊥)
        (λ nodes. HasOut directory.now name.now nodes.now) }
{
    let Some(part) = tables.part(directory, name) else {
        return None;
    };
    match &part.out {
        None => None,
        Some(nodes) => Some(nodes.as_slice()),
    }
}

/// The block of the first part of a chip.
pub fn block_named(directory: &Directory, tables: &Tables, name: &[u8]) -> Option<u32>
    requires { AreTables tables.now directory.now }
    ensures { MatchOption result ((block : ℕ) → HasBlock directory.now name.now block → ⊥)
        (λ block. HasBlock directory.now name.now block) }
{
    let Some(part) = tables.part(directory, name) else {
        return None;
    };
    part.block
}

// Whether a block has a word at an address.
fn has_word(sizes: &[u32], block: u32, address: u32) -> bool
    ensures { IsTrue result ↔ HasSize sizes.now block address }
{
    match sizes.get(block as usize) {
        None => false,
        Some(words) => address < *words,
    }
}

// The nodes of `Name[]`.
fn part_out<'a>(directory: &'a Directory, tables: &Tables, text: &[u8]) -> Option<&'a [u32]>
    requires { AreTables tables.now directory.now }
    ensures { MatchOption result ((nodes : List ℕ) → IsOut directory.now text.now nodes → ⊥)
        (λ nodes. IsOut directory.now text.now nodes.now) }
{
    let Some((name, inside)) = brackets(text) else {
        return None;
    };
    if inside.is_empty() {
        out_named(directory, tables, name)
    } else {
        None
    }
}

// The block and the address of `Name[k]`.
fn part_word(
    directory: &Directory,
    tables: &Tables,
    sizes: &[u32],
    text: &[u8],
) -> Option<(u32, u32)>
    requires { AreTables tables.now directory.now }
    ensures { (net : Net) → AreSizes sizes.now net → MatchOption result
        ((b a : ℕ) → chips.Denotes (loaded_chip net directory.now) text.now (BlockWord b a) → ⊥)
        (λ word. chips.Denotes (loaded_chip net directory.now) text.now (BlockWord word.0 word.1)) }
{
    let Some((name, inside)) = brackets(text) else {
        return None;
    };
    if inside.is_empty() {
        return None;
    }
    let Some(block) = block_named(directory, tables, name) else {
        return None;
    };
    let address = capped_number(inside);
    if address < CAP && has_word(sizes, block, address as u32) {
        Some((block, address as u32))
    } else {
        None
    }
}

/// What a text stands for in a chip, of whose blocks these are the numbers of words.
pub fn find_variable<'a>(
    directory: &'a Directory,
    tables: &Tables,
    sizes: &[u32],
    text: &[u8],
) -> Option<Variable<'a>>
    requires { AreTables tables.now directory.now }
    ensures { (net : Net) (calls : List Call) → AreSizes sizes.now net → MatchOption result
        ((source : Source) →
        Denotes (Chip (loaded_chip net directory.now) calls) text.now source → ⊥)
        (λ found. Denotes (Chip (loaded_chip net directory.now) calls) text.now (source_of found)) }
{
    if text == b"time".as_slice() {
        return Some(Variable::Time);
    }
    if let Some(nodes) = own_bus(directory, tables, text) {
        return Some(Variable::Bus(nodes));
    }
    if let Some(nodes) = part_out(directory, tables, text) {
        return Some(Variable::Bus(nodes));
    }
    match part_word(directory, tables, sizes, text) {
        None => None,
        Some((block, address)) => Some(Variable::Word(block, address)),
    }
}

/// What a text stands for in a chip that can be set.
pub fn find_settable<'a>(
    directory: &'a Directory,
    tables: &Tables,
    sizes: &[u32],
    text: &[u8],
) -> Option<Variable<'a>>
    requires { AreTables tables.now directory.now }
    ensures { (net : Net) (calls : List Call) → AreSizes sizes.now net → MatchOption result
        ((source : Source)
        → CanSet (Chip (loaded_chip net directory.now) calls) text.now source → ⊥)
        (λ found. CanSet (Chip (loaded_chip net directory.now) calls) text.now (source_of found)) }
{
    if text == b"time".as_slice() {
        return None;
    }
    if let Some(nodes) = tables.input(directory, text) {
        return Some(Variable::Bus(nodes));
    }
    match part_word(directory, tables, sizes, text) {
        None => None,
        Some((block, address)) => Some(Variable::Word(block, address)),
    }
}
