//! The trees of the chips that keep words.
ghost use Rattle.std.specs.Prelude.{◌≡◌, ◌<◌, ◌≤◌, ◌+◌, ◌++◌, ◌∷◌, [], Some, None, IfOk, codes};
ghost use Rattle.hdl_tree.specs.declared.tree.Connection.{Connection};
ghost use Rattle.chip_basic.specs.Hdl.{each, part, wire, ways};
ghost use Rattle.chip_memory.specs.Trees.{dff_tree, bit_tree, register_bit, register_named, register_tree, a_register_tree, d_register_tree, pc_tree, memory_named, word_part, ram8_tree, smaller, eight_of, ram64_tree, ram512_tree, ram4k_tree, ram16k_tree, screen_tree};

use chip_basic::{
    Joint, Link, Row, add_part, builtin, bus, chip, numbered_name, parts_of, pin, wire, wire_bit,
    wire_bits,
};
use hdl_tree::{Chip, List, Part};
use std::alloc::{AllocError, Global};

/// DFF, the flip-flop, which is built in.
#[tactic(auto, unfolding(crate::specs::Trees::dff_tree))]
pub fn dff_tree(alloc: Global) -> Result<Chip, AllocError>
    ensures { IfOk result (λ chip. chip ≡ dff_tree) }
{
    builtin(alloc, b"DFF", &[pin(b"in")], &[pin(b"out")])
}

// The parts of Bit.
const BIT: &[Row<'static>] = &[
    Row {
        chip: b"Mux",
        links: &[
            Link::Wire(b"a", b"now"),
            Link::Wire(b"b", b"in"),
            Link::Wire(b"sel", b"load"),
            Link::Wire(b"out", b"next"),
        ],
    },
    Row {
        chip: b"DFF",
        links: &[
            Link::Wire(b"in", b"next"),
            Link::Wire(b"out", b"now"),
            Link::Wire(b"out", b"out"),
        ],
    },
];

/// The tree of Bit.
#[tactic(auto, unfolding(crate::specs::Trees::bit_tree))]
pub fn bit_tree(alloc: Global) -> Result<Chip, AllocError>
    ensures { IfOk result (λ chip. chip ≡ bit_tree) }
{
    let parts = parts_of(alloc, BIT)?;
    chip(
        alloc,
        b"Bit",
        &[pin(b"in"), pin(b"load")],
        &[pin(b"out")],
        parts,
    )
}

fn register_bits(alloc: Global) -> Result<List<Part>, AllocError>
    ensures { IfOk result (λ parts. parts ≡ each 16 register_bit) }
{
    let mut parts = Vec::new(alloc);
    for bit in 0..16 {
        add_part(
            alloc,
            &mut parts,
            b"Bit",
            &[
                wire_bit(b"in", b"in", bit),
                wire(b"load", b"load"),
                wire_bit(b"out", b"out", bit),
            ],
        )?;
    }
    Ok(List::of(parts))
}

// Sixteen bits that are loaded together.
fn register_named(alloc: Global, name: &[u8]) -> Result<Chip, AllocError>
    ensures { IfOk result (λ chip. chip ≡ register_named name.now) }
{
    let parts = register_bits(alloc)?;
    chip(
        alloc,
        name,
        &[bus(b"in", 16), pin(b"load")],
        &[bus(b"out", 16)],
        parts,
    )
}

/// The tree of Register.
#[tactic(auto, unfolding(crate::specs::Trees::register_tree))]
pub fn register_tree(alloc: Global) -> Result<Chip, AllocError>
    ensures { IfOk result (λ chip. chip ≡ register_tree) }
{
    register_named(alloc, b"Register")
}

/// The tree of ARegister, which is that of Register.
#[tactic(auto, unfolding(crate::specs::Trees::a_register_tree))]
pub fn a_register_tree(alloc: Global) -> Result<Chip, AllocError>
    ensures { IfOk result (λ chip. chip ≡ a_register_tree) }
{
    register_named(alloc, b"ARegister")
}

/// The tree of DRegister, which is that of Register.
#[tactic(auto, unfolding(crate::specs::Trees::d_register_tree))]
pub fn d_register_tree(alloc: Global) -> Result<Chip, AllocError>
    ensures { IfOk result (λ chip. chip ≡ d_register_tree) }
{
    register_named(alloc, b"DRegister")
}

// The parts of PC.
const PC: &[Row<'static>] = &[
    Row {
        chip: b"Inc16",
        links: &[Link::Wire(b"in", b"now"), Link::Wire(b"out", b"nowPlusOne")],
    },
    Row {
        chip: b"Mux16",
        links: &[
            Link::Wire(b"a", b"now"),
            Link::Wire(b"b", b"nowPlusOne"),
            Link::Wire(b"sel", b"inc"),
            Link::Wire(b"out", b"counted"),
        ],
    },
    Row {
        chip: b"Mux16",
        links: &[
            Link::Wire(b"a", b"counted"),
            Link::Wire(b"b", b"in"),
            Link::Wire(b"sel", b"load"),
            Link::Wire(b"out", b"loaded"),
        ],
    },
    Row {
        chip: b"Mux16",
        links: &[
            Link::Wire(b"a", b"loaded"),
            Link::Constant(b"b", false),
            Link::Wire(b"sel", b"reset"),
            Link::Wire(b"out", b"next"),
        ],
    },
    Row {
        chip: b"Register",
        links: &[
            Link::Wire(b"in", b"next"),
            Link::Constant(b"load", true),
            Link::Wire(b"out", b"now"),
            Link::Wire(b"out", b"out"),
        ],
    },
];

/// The tree of PC.
#[tactic(auto, unfolding(crate::specs::Trees::pc_tree))]
pub fn pc_tree(alloc: Global) -> Result<Chip, AllocError>
    ensures { IfOk result (λ chip. chip ≡ pc_tree) }
{
    let parts = parts_of(alloc, PC)?;
    chip(
        alloc,
        b"PC",
        &[bus(b"in", 16), pin(b"load"), pin(b"inc"), pin(b"reset")],
        &[bus(b"out", 16)],
        parts,
    )
}

// A memory of 2 ^ bits words.
fn memory(alloc: Global, name: &[u8], bits: u8, parts: List<Part>) -> Result<Chip, AllocError>
    ensures { IfOk result (λ chip. chip ≡ memory_named name.now bits parts) }
{
    chip(
        alloc,
        name,
        &[bus(b"in", 16), pin(b"load"), bus(b"address", bits)],
        &[bus(b"out", 16)],
        parts,
    )
}

// The part that hands the load on to one of eight.
fn add_demux(alloc: Global, parts: &mut Vec<Part>, sel: Joint<'_>) -> Result<(), AllocError>
    ensures { IfOk result (λ _. parts.new.items
        ≡ parts.old.items ++ part "DMux8Way" (wire "in" "load" ∷ sel.entry ∷ ways 8 "load") ∷ []) }
{
    add_part(
        alloc,
        parts,
        b"DMux8Way",
        &[
            wire(b"in", b"load"),
            sel,
            wire(b"a", b"load0"),
            wire(b"b", b"load1"),
            wire(b"c", b"load2"),
            wire(b"d", b"load3"),
            wire(b"e", b"load4"),
            wire(b"f", b"load5"),
            wire(b"g", b"load6"),
            wire(b"h", b"load7"),
        ],
    )?;
    Ok(())
}

// The part that chooses one of eight words.
fn add_mux(alloc: Global, parts: &mut Vec<Part>, sel: Joint<'_>) -> Result<(), AllocError>
    ensures { IfOk result (λ _. parts.new.items
        ≡ parts.old.items
        ++ part "Mux8Way16" (ways 8 "word" ++ sel.entry ∷ wire "out" "out" ∷ []) ∷ []) }
{
    add_part(
        alloc,
        parts,
        b"Mux8Way16",
        &[
            wire(b"a", b"word0"),
            wire(b"b", b"word1"),
            wire(b"c", b"word2"),
            wire(b"d", b"word3"),
            wire(b"e", b"word4"),
            wire(b"f", b"word5"),
            wire(b"g", b"word6"),
            wire(b"h", b"word7"),
            sel,
            wire(b"out", b"out"),
        ],
    )?;
    Ok(())
}

fn add_word(alloc: Global, parts: &mut Vec<Part>, number: u8) -> Result<(), AllocError>
    ensures { IfOk result (λ _. parts.new.items ≡ parts.old.items ++ word_part number ∷ []) }
{
    let load = numbered_name(alloc, b"load", number)?;
    let word = numbered_name(alloc, b"word", number)?;
    add_part(
        alloc,
        parts,
        b"Register",
        &[
            wire(b"in", b"in"),
            wire(b"load", load.as_bytes()),
            wire(b"out", word.as_bytes()),
        ],
    )?;
    Ok(())
}

fn add_words(alloc: Global, parts: &mut Vec<Part>) -> Result<(), AllocError>
    ensures { IfOk result (λ _. parts.new.items ≡ parts.old.items ++ each 8 word_part) }
{
    for number in 0..8 {
        add_word(alloc, parts, number)?;
    }
    Ok(())
}

/// The tree of RAM8.
#[tactic(auto, unfolding(crate::specs::Trees::ram8_tree))]
pub fn ram8_tree(alloc: Global) -> Result<Chip, AllocError>
    ensures { IfOk result (λ chip. chip ≡ ram8_tree) }
{
    let mut parts = Vec::new(alloc);
    add_demux(alloc, &mut parts, wire(b"sel", b"address"))?;
    add_words(alloc, &mut parts)?;
    add_mux(alloc, &mut parts, wire(b"sel", b"address"))?;
    memory(alloc, b"RAM8", 3, List::of(parts))
}

// A smaller memory, with the lowest bits of the address.
fn add_smaller(
    alloc: Global,
    parts: &mut Vec<Part>,
    name: &[u8],
    bits: u8,
    number: u8,
) -> Result<(), AllocError>
    requires { 0 < bits }
    ensures { IfOk result
        (λ _. parts.new.items ≡ parts.old.items ++ smaller name.now bits number ∷ []) }
{
    let load = numbered_name(alloc, b"load", number)?;
    let word = numbered_name(alloc, b"word", number)?;
    add_part(
        alloc,
        parts,
        name,
        &[
            wire(b"in", b"in"),
            wire(b"load", load.as_bytes()),
            wire_bits(b"address", b"address", 0, bits - 1),
            wire(b"out", word.as_bytes()),
        ],
    )?;
    Ok(())
}

fn add_all_smaller(
    alloc: Global,
    parts: &mut Vec<Part>,
    name: &[u8],
    bits: u8,
    count: u8,
) -> Result<(), AllocError>
    requires { 0 < bits }
    ensures { IfOk result
        (λ _. parts.new.items ≡ parts.old.items ++ each count (smaller name.now bits)) }
{
    for number in 0..count {
        add_smaller(alloc, parts, name, bits, number)?;
    }
    Ok(())
}

// Eight smaller memories, one of which the three upper bits of the address choose.
fn eight_of(alloc: Global, name: &[u8], bits: u8) -> Result<List<Part>, AllocError>
    requires positive { 0 < bits }
    requires small { bits < 16 }
    ensures { IfOk result (λ parts. parts ≡ eight_of name.now bits) }
{
    let mut parts = Vec::new(alloc);
    add_demux(
        alloc,
        &mut parts,
        wire_bits(b"sel", b"address", bits, bits + 2),
    )?;
    add_all_smaller(alloc, &mut parts, name, bits, 8)?;
    add_mux(
        alloc,
        &mut parts,
        wire_bits(b"sel", b"address", bits, bits + 2),
    )?;
    Ok(List::of(parts))
}

/// The tree of RAM64.
#[tactic(auto, unfolding(crate::specs::Trees::ram64_tree))]
pub fn ram64_tree(alloc: Global) -> Result<Chip, AllocError>
    ensures { IfOk result (λ chip. chip ≡ ram64_tree) }
{
    let parts = eight_of(alloc, b"RAM8", 3)?;
    memory(alloc, b"RAM64", 6, parts)
}

/// The tree of RAM512.
#[tactic(auto, unfolding(crate::specs::Trees::ram512_tree))]
pub fn ram512_tree(alloc: Global) -> Result<Chip, AllocError>
    ensures { IfOk result (λ chip. chip ≡ ram512_tree) }
{
    let parts = eight_of(alloc, b"RAM64", 6)?;
    memory(alloc, b"RAM512", 9, parts)
}

/// The tree of RAM4K.
#[tactic(auto, unfolding(crate::specs::Trees::ram4k_tree))]
pub fn ram4k_tree(alloc: Global) -> Result<Chip, AllocError>
    ensures { IfOk result (λ chip. chip ≡ ram4k_tree) }
{
    let parts = eight_of(alloc, b"RAM512", 9)?;
    memory(alloc, b"RAM4K", 12, parts)
}

/// The tree of RAM16K.
#[tactic(auto, unfolding(crate::specs::Trees::ram16k_tree))]
pub fn ram16k_tree(alloc: Global) -> Result<Chip, AllocError>
    ensures { IfOk result (λ chip. chip ≡ ram16k_tree) }
{
    let mut parts = Vec::new(alloc);
    add_part(
        alloc,
        &mut parts,
        b"DMux4Way",
        &[
            wire(b"in", b"load"),
            wire_bits(b"sel", b"address", 12, 13),
            wire(b"a", b"load0"),
            wire(b"b", b"load1"),
            wire(b"c", b"load2"),
            wire(b"d", b"load3"),
        ],
    )?;
    add_all_smaller(alloc, &mut parts, b"RAM4K", 12, 4)?;
    add_part(
        alloc,
        &mut parts,
        b"Mux4Way16",
        &[
            wire(b"a", b"word0"),
            wire(b"b", b"word1"),
            wire(b"c", b"word2"),
            wire(b"d", b"word3"),
            wire_bits(b"sel", b"address", 12, 13),
            wire(b"out", b"out"),
        ],
    )?;
    memory(alloc, b"RAM16K", 14, List::of(parts))
}

/// The tree of Screen.
#[tactic(auto, unfolding(crate::specs::Trees::screen_tree))]
pub fn screen_tree(alloc: Global) -> Result<Chip, AllocError>
    ensures { IfOk result (λ chip. chip ≡ screen_tree) }
{
    let mut parts = Vec::new(alloc);
    add_part(
        alloc,
        &mut parts,
        b"DMux",
        &[
            wire(b"in", b"load"),
            wire_bit(b"sel", b"address", 12),
            wire(b"a", b"load0"),
            wire(b"b", b"load1"),
        ],
    )?;
    add_all_smaller(alloc, &mut parts, b"RAM4K", 12, 2)?;
    add_part(
        alloc,
        &mut parts,
        b"Mux16",
        &[
            wire(b"a", b"word0"),
            wire(b"b", b"word1"),
            wire_bit(b"sel", b"address", 12),
            wire(b"out", b"out"),
        ],
    )?;
    memory(alloc, b"Screen", 13, List::of(parts))
}
