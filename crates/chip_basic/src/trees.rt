//! The trees of the chips from Not to DMux8Way.
ghost use Rattle.std.specs.Prelude.{◌≡◌, IfOk};
ghost use Rattle.chip_basic.specs.Hdl.{each};
ghost use Rattle.chip_basic.specs.Trees.{nand_tree, not_tree, and_tree, or_tree, xor_tree, mux_tree, dmux_tree, not_bit, not16_tree, and_bit, and16_tree, or_bit, or16_tree, mux_bit, mux16_tree, or8way_tree, mux4way16_tree, mux8way16_tree, dmux4way_tree, dmux8way_tree};

use crate::hdl::{add_part, builtin, bus, chip, pin, wire, wire_bit};
use crate::table::{Link, Row, parts_of};
use hdl_tree::{Chip, List, Part};
use std::alloc::{AllocError, Global};

/// Nand, which is built in.
#[tactic(auto, unfolding(crate::specs::Trees::nand_tree))]
pub fn nand_tree(alloc: Global) -> Result<Chip, AllocError>
    ensures { IfOk result (λ chip. chip ≡ nand_tree) }
{
    builtin(alloc, b"Nand", &[pin(b"a"), pin(b"b")], &[pin(b"out")])
}

// The parts of Not.
const NOT: &[Row<'static>] = &[Row {
    chip: b"Nand",
    links: &[
        Link::Wire(b"a", b"in"),
        Link::Wire(b"b", b"in"),
        Link::Wire(b"out", b"out"),
    ],
}];

/// The tree of Not.
#[tactic(auto, unfolding(crate::specs::Trees::not_tree))]
pub fn not_tree(alloc: Global) -> Result<Chip, AllocError>
    ensures { IfOk result (λ chip. chip ≡ not_tree) }
{
    let parts = parts_of(alloc, NOT)?;
    chip(alloc, b"Not", &[pin(b"in")], &[pin(b"out")], parts)
}

// The parts of And.
const AND: &[Row<'static>] = &[
    Row {
        chip: b"Nand",
        links: &[
            Link::Wire(b"a", b"a"),
            Link::Wire(b"b", b"b"),
            Link::Wire(b"out", b"notBoth"),
        ],
    },
    Row {
        chip: b"Not",
        links: &[Link::Wire(b"in", b"notBoth"), Link::Wire(b"out", b"out")],
    },
];

/// The tree of And.
#[tactic(auto, unfolding(crate::specs::Trees::and_tree))]
pub fn and_tree(alloc: Global) -> Result<Chip, AllocError>
    ensures { IfOk result (λ chip. chip ≡ and_tree) }
{
    let parts = parts_of(alloc, AND)?;
    chip(
        alloc,
        b"And",
        &[pin(b"a"), pin(b"b")],
        &[pin(b"out")],
        parts,
    )
}

// The parts of Or.
const OR: &[Row<'static>] = &[
    Row {
        chip: b"Not",
        links: &[Link::Wire(b"in", b"a"), Link::Wire(b"out", b"notA")],
    },
    Row {
        chip: b"Not",
        links: &[Link::Wire(b"in", b"b"), Link::Wire(b"out", b"notB")],
    },
    Row {
        chip: b"Nand",
        links: &[
            Link::Wire(b"a", b"notA"),
            Link::Wire(b"b", b"notB"),
            Link::Wire(b"out", b"out"),
        ],
    },
];

/// The tree of Or.
#[tactic(auto, unfolding(crate::specs::Trees::or_tree))]
pub fn or_tree(alloc: Global) -> Result<Chip, AllocError>
    ensures { IfOk result (λ chip. chip ≡ or_tree) }
{
    let parts = parts_of(alloc, OR)?;
    chip(alloc, b"Or", &[pin(b"a"), pin(b"b")], &[pin(b"out")], parts)
}

// The parts of Xor.
const XOR: &[Row<'static>] = &[
    Row {
        chip: b"Nand",
        links: &[
            Link::Wire(b"a", b"a"),
            Link::Wire(b"b", b"b"),
            Link::Wire(b"out", b"notBoth"),
        ],
    },
    Row {
        chip: b"Nand",
        links: &[
            Link::Wire(b"a", b"a"),
            Link::Wire(b"b", b"notBoth"),
            Link::Wire(b"out", b"notOnlyA"),
        ],
    },
    Row {
        chip: b"Nand",
        links: &[
            Link::Wire(b"a", b"notBoth"),
            Link::Wire(b"b", b"b"),
            Link::Wire(b"out", b"notOnlyB"),
        ],
    },
    Row {
        chip: b"Nand",
        links: &[
            Link::Wire(b"a", b"notOnlyA"),
            Link::Wire(b"b", b"notOnlyB"),
            Link::Wire(b"out", b"out"),
        ],
    },
];

/// The tree of Xor.
#[tactic(auto, unfolding(crate::specs::Trees::xor_tree))]
pub fn xor_tree(alloc: Global) -> Result<Chip, AllocError>
    ensures { IfOk result (λ chip. chip ≡ xor_tree) }
{
    let parts = parts_of(alloc, XOR)?;
    chip(
        alloc,
        b"Xor",
        &[pin(b"a"), pin(b"b")],
        &[pin(b"out")],
        parts,
    )
}

// The parts of Mux.
const MUX: &[Row<'static>] = &[
    Row {
        chip: b"Not",
        links: &[Link::Wire(b"in", b"sel"), Link::Wire(b"out", b"notSel")],
    },
    Row {
        chip: b"Nand",
        links: &[
            Link::Wire(b"a", b"a"),
            Link::Wire(b"b", b"notSel"),
            Link::Wire(b"out", b"notFromA"),
        ],
    },
    Row {
        chip: b"Nand",
        links: &[
            Link::Wire(b"a", b"b"),
            Link::Wire(b"b", b"sel"),
            Link::Wire(b"out", b"notFromB"),
        ],
    },
    Row {
        chip: b"Nand",
        links: &[
            Link::Wire(b"a", b"notFromA"),
            Link::Wire(b"b", b"notFromB"),
            Link::Wire(b"out", b"out"),
        ],
    },
];

/// The tree of Mux.
#[tactic(auto, unfolding(crate::specs::Trees::mux_tree))]
pub fn mux_tree(alloc: Global) -> Result<Chip, AllocError>
    ensures { IfOk result (λ chip. chip ≡ mux_tree) }
{
    let parts = parts_of(alloc, MUX)?;
    chip(
        alloc,
        b"Mux",
        &[pin(b"a"), pin(b"b"), pin(b"sel")],
        &[pin(b"out")],
        parts,
    )
}

// The parts of DMux.
const DMUX: &[Row<'static>] = &[
    Row {
        chip: b"Not",
        links: &[Link::Wire(b"in", b"sel"), Link::Wire(b"out", b"notSel")],
    },
    Row {
        chip: b"And",
        links: &[
            Link::Wire(b"a", b"in"),
            Link::Wire(b"b", b"notSel"),
            Link::Wire(b"out", b"a"),
        ],
    },
    Row {
        chip: b"And",
        links: &[
            Link::Wire(b"a", b"in"),
            Link::Wire(b"b", b"sel"),
            Link::Wire(b"out", b"b"),
        ],
    },
];

/// The tree of DMux.
#[tactic(auto, unfolding(crate::specs::Trees::dmux_tree))]
pub fn dmux_tree(alloc: Global) -> Result<Chip, AllocError>
    ensures { IfOk result (λ chip. chip ≡ dmux_tree) }
{
    let parts = parts_of(alloc, DMUX)?;
    chip(
        alloc,
        b"DMux",
        &[pin(b"in"), pin(b"sel")],
        &[pin(b"a"), pin(b"b")],
        parts,
    )
}

fn not_bits(alloc: Global) -> Result<List<Part>, AllocError>
    ensures { IfOk result (λ parts. parts ≡ each 16 not_bit) }
{
    let mut parts = Vec::new(alloc);
    for bit in 0..16 {
        add_part(
            alloc,
            &mut parts,
            b"Not",
            &[wire_bit(b"in", b"in", bit), wire_bit(b"out", b"out", bit)],
        )?;
    }
    Ok(List::of(parts))
}

/// The tree of Not16.
#[tactic(auto, unfolding(crate::specs::Trees::not16_tree))]
pub fn not16_tree(alloc: Global) -> Result<Chip, AllocError>
    ensures { IfOk result (λ chip. chip ≡ not16_tree) }
{
    let parts = not_bits(alloc)?;
    chip(
        alloc,
        b"Not16",
        &[bus(b"in", 16)],
        &[bus(b"out", 16)],
        parts,
    )
}

fn and_bits(alloc: Global) -> Result<List<Part>, AllocError>
    ensures { IfOk result (λ parts. parts ≡ each 16 and_bit) }
{
    let mut parts = Vec::new(alloc);
    for bit in 0..16 {
        add_part(
            alloc,
            &mut parts,
            b"And",
            &[
                wire_bit(b"a", b"a", bit),
                wire_bit(b"b", b"b", bit),
                wire_bit(b"out", b"out", bit),
            ],
        )?;
    }
    Ok(List::of(parts))
}

/// The tree of And16.
#[tactic(auto, unfolding(crate::specs::Trees::and16_tree))]
pub fn and16_tree(alloc: Global) -> Result<Chip, AllocError>
    ensures { IfOk result (λ chip. chip ≡ and16_tree) }
{
    let parts = and_bits(alloc)?;
    chip(
        alloc,
        b"And16",
        &[bus(b"a", 16), bus(b"b", 16)],
        &[bus(b"out", 16)],
        parts,
    )
}

fn or_bits(alloc: Global) -> Result<List<Part>, AllocError>
    ensures { IfOk result (λ parts. parts ≡ each 16 or_bit) }
{
    let mut parts = Vec::new(alloc);
    for bit in 0..16 {
        add_part(
            alloc,
            &mut parts,
            b"Or",
            &[
                wire_bit(b"a", b"a", bit),
                wire_bit(b"b", b"b", bit),
                wire_bit(b"out", b"out", bit),
            ],
        )?;
    }
    Ok(List::of(parts))
}

/// The tree of Or16.
#[tactic(auto, unfolding(crate::specs::Trees::or16_tree))]
pub fn or16_tree(alloc: Global) -> Result<Chip, AllocError>
    ensures { IfOk result (λ chip. chip ≡ or16_tree) }
{
    let parts = or_bits(alloc)?;
    chip(
        alloc,
        b"Or16",
        &[bus(b"a", 16), bus(b"b", 16)],
        &[bus(b"out", 16)],
        parts,
    )
}

fn mux_bits(alloc: Global) -> Result<List<Part>, AllocError>
    ensures { IfOk result (λ parts. parts ≡ each 16 mux_bit) }
{
    let mut parts = Vec::new(alloc);
    for bit in 0..16 {
        add_part(
            alloc,
            &mut parts,
            b"Mux",
            &[
                wire_bit(b"a", b"a", bit),
                wire_bit(b"b", b"b", bit),
                wire(b"sel", b"sel"),
                wire_bit(b"out", b"out", bit),
            ],
        )?;
    }
    Ok(List::of(parts))
}

/// The tree of Mux16.
#[tactic(auto, unfolding(crate::specs::Trees::mux16_tree))]
pub fn mux16_tree(alloc: Global) -> Result<Chip, AllocError>
    ensures { IfOk result (λ chip. chip ≡ mux16_tree) }
{
    let parts = mux_bits(alloc)?;
    chip(
        alloc,
        b"Mux16",
        &[bus(b"a", 16), bus(b"b", 16), pin(b"sel")],
        &[bus(b"out", 16)],
        parts,
    )
}

// The parts of Or8Way.
const OR8WAY: &[Row<'static>] = &[
    Row {
        chip: b"Or",
        links: &[
            Link::WireBit(b"a", b"in", 0),
            Link::WireBit(b"b", b"in", 1),
            Link::Wire(b"out", b"some01"),
        ],
    },
    Row {
        chip: b"Or",
        links: &[
            Link::WireBit(b"a", b"in", 2),
            Link::WireBit(b"b", b"in", 3),
            Link::Wire(b"out", b"some23"),
        ],
    },
    Row {
        chip: b"Or",
        links: &[
            Link::WireBit(b"a", b"in", 4),
            Link::WireBit(b"b", b"in", 5),
            Link::Wire(b"out", b"some45"),
        ],
    },
    Row {
        chip: b"Or",
        links: &[
            Link::WireBit(b"a", b"in", 6),
            Link::WireBit(b"b", b"in", 7),
            Link::Wire(b"out", b"some67"),
        ],
    },
    Row {
        chip: b"Or",
        links: &[
            Link::Wire(b"a", b"some01"),
            Link::Wire(b"b", b"some23"),
            Link::Wire(b"out", b"some0to3"),
        ],
    },
    Row {
        chip: b"Or",
        links: &[
            Link::Wire(b"a", b"some45"),
            Link::Wire(b"b", b"some67"),
            Link::Wire(b"out", b"some4to7"),
        ],
    },
    Row {
        chip: b"Or",
        links: &[
            Link::Wire(b"a", b"some0to3"),
            Link::Wire(b"b", b"some4to7"),
            Link::Wire(b"out", b"out"),
        ],
    },
];

/// The tree of Or8Way.
#[tactic(auto, unfolding(crate::specs::Trees::or8way_tree))]
pub fn or8way_tree(alloc: Global) -> Result<Chip, AllocError>
    ensures { IfOk result (λ chip. chip ≡ or8way_tree) }
{
    let parts = parts_of(alloc, OR8WAY)?;
    chip(alloc, b"Or8Way", &[bus(b"in", 8)], &[pin(b"out")], parts)
}

// The parts of Mux4Way16.
const MUX4WAY16: &[Row<'static>] = &[
    Row {
        chip: b"Mux16",
        links: &[
            Link::Wire(b"a", b"a"),
            Link::Wire(b"b", b"b"),
            Link::WireBit(b"sel", b"sel", 0),
            Link::Wire(b"out", b"aOrB"),
        ],
    },
    Row {
        chip: b"Mux16",
        links: &[
            Link::Wire(b"a", b"c"),
            Link::Wire(b"b", b"d"),
            Link::WireBit(b"sel", b"sel", 0),
            Link::Wire(b"out", b"cOrD"),
        ],
    },
    Row {
        chip: b"Mux16",
        links: &[
            Link::Wire(b"a", b"aOrB"),
            Link::Wire(b"b", b"cOrD"),
            Link::WireBit(b"sel", b"sel", 1),
            Link::Wire(b"out", b"out"),
        ],
    },
];

/// The tree of Mux4Way16.
#[tactic(auto, unfolding(crate::specs::Trees::mux4way16_tree))]
pub fn mux4way16_tree(alloc: Global) -> Result<Chip, AllocError>
    ensures { IfOk result (λ chip. chip ≡ mux4way16_tree) }
{
    let parts = parts_of(alloc, MUX4WAY16)?;
    chip(
        alloc,
        b"Mux4Way16",
        &[
            bus(b"a", 16),
            bus(b"b", 16),
            bus(b"c", 16),
            bus(b"d", 16),
            bus(b"sel", 2),
        ],
        &[bus(b"out", 16)],
        parts,
    )
}

// The parts of Mux8Way16.
const MUX8WAY16: &[Row<'static>] = &[
    Row {
        chip: b"Mux4Way16",
        links: &[
            Link::Wire(b"a", b"a"),
            Link::Wire(b"b", b"b"),
            Link::Wire(b"c", b"c"),
            Link::Wire(b"d", b"d"),
            Link::WireBits(b"sel", b"sel", 0, 1),
            Link::Wire(b"out", b"aToD"),
        ],
    },
    Row {
        chip: b"Mux4Way16",
        links: &[
            Link::Wire(b"a", b"e"),
            Link::Wire(b"b", b"f"),
            Link::Wire(b"c", b"g"),
            Link::Wire(b"d", b"h"),
            Link::WireBits(b"sel", b"sel", 0, 1),
            Link::Wire(b"out", b"eToH"),
        ],
    },
    Row {
        chip: b"Mux16",
        links: &[
            Link::Wire(b"a", b"aToD"),
            Link::Wire(b"b", b"eToH"),
            Link::WireBit(b"sel", b"sel", 2),
            Link::Wire(b"out", b"out"),
        ],
    },
];

/// The tree of Mux8Way16.
#[tactic(auto, unfolding(crate::specs::Trees::mux8way16_tree))]
pub fn mux8way16_tree(alloc: Global) -> Result<Chip, AllocError>
    ensures { IfOk result (λ chip. chip ≡ mux8way16_tree) }
{
    let parts = parts_of(alloc, MUX8WAY16)?;
    chip(
        alloc,
        b"Mux8Way16",
        &[
            bus(b"a", 16),
            bus(b"b", 16),
            bus(b"c", 16),
            bus(b"d", 16),
            bus(b"e", 16),
            bus(b"f", 16),
            bus(b"g", 16),
            bus(b"h", 16),
            bus(b"sel", 3),
        ],
        &[bus(b"out", 16)],
        parts,
    )
}

// The parts of DMux4Way.
const DMUX4WAY: &[Row<'static>] = &[
    Row {
        chip: b"DMux",
        links: &[
            Link::Wire(b"in", b"in"),
            Link::WireBit(b"sel", b"sel", 1),
            Link::Wire(b"a", b"toAB"),
            Link::Wire(b"b", b"toCD"),
        ],
    },
    Row {
        chip: b"DMux",
        links: &[
            Link::Wire(b"in", b"toAB"),
            Link::WireBit(b"sel", b"sel", 0),
            Link::Wire(b"a", b"a"),
            Link::Wire(b"b", b"b"),
        ],
    },
    Row {
        chip: b"DMux",
        links: &[
            Link::Wire(b"in", b"toCD"),
            Link::WireBit(b"sel", b"sel", 0),
            Link::Wire(b"a", b"c"),
            Link::Wire(b"b", b"d"),
        ],
    },
];

/// The tree of DMux4Way.
#[tactic(auto, unfolding(crate::specs::Trees::dmux4way_tree))]
pub fn dmux4way_tree(alloc: Global) -> Result<Chip, AllocError>
    ensures { IfOk result (λ chip. chip ≡ dmux4way_tree) }
{
    let parts = parts_of(alloc, DMUX4WAY)?;
    chip(
        alloc,
        b"DMux4Way",
        &[pin(b"in"), bus(b"sel", 2)],
        &[pin(b"a"), pin(b"b"), pin(b"c"), pin(b"d")],
        parts,
    )
}

// The parts of DMux8Way.
const DMUX8WAY: &[Row<'static>] = &[
    Row {
        chip: b"DMux",
        links: &[
            Link::Wire(b"in", b"in"),
            Link::WireBit(b"sel", b"sel", 2),
            Link::Wire(b"a", b"toAD"),
            Link::Wire(b"b", b"toEH"),
        ],
    },
    Row {
        chip: b"DMux4Way",
        links: &[
            Link::Wire(b"in", b"toAD"),
            Link::WireBits(b"sel", b"sel", 0, 1),
            Link::Wire(b"a", b"a"),
            Link::Wire(b"b", b"b"),
            Link::Wire(b"c", b"c"),
            Link::Wire(b"d", b"d"),
        ],
    },
    Row {
        chip: b"DMux4Way",
        links: &[
            Link::Wire(b"in", b"toEH"),
            Link::WireBits(b"sel", b"sel", 0, 1),
            Link::Wire(b"a", b"e"),
            Link::Wire(b"b", b"f"),
            Link::Wire(b"c", b"g"),
            Link::Wire(b"d", b"h"),
        ],
    },
];

/// The tree of DMux8Way.
#[tactic(auto, unfolding(crate::specs::Trees::dmux8way_tree))]
pub fn dmux8way_tree(alloc: Global) -> Result<Chip, AllocError>
    ensures { IfOk result (λ chip. chip ≡ dmux8way_tree) }
{
    let parts = parts_of(alloc, DMUX8WAY)?;
    chip(
        alloc,
        b"DMux8Way",
        &[pin(b"in"), bus(b"sel", 3)],
        &[
            pin(b"a"),
            pin(b"b"),
            pin(b"c"),
            pin(b"d"),
            pin(b"e"),
            pin(b"f"),
            pin(b"g"),
            pin(b"h"),
        ],
        parts,
    )
}
