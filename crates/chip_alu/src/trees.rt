//! The trees of the chips from HalfAdder to the ALU, and of Shift.
ghost use Rattle.std.specs.Prelude.{◌≡◌, ◌<◌, ◌++◌, ◌∷◌, [], suc, IfOk};
ghost use Rattle.chip_basic.specs.Hdl.{each};
ghost use Rattle.chip_alu.specs.Trees.{half_adder_tree, full_adder_tree, add_bit, add16_tree, inc16_tree, alu_inputs, alu_output, alu_test, alu_tree, shift_tree};

use chip_basic::{
    Link, Row, add_part, bit_constant, bit_wire_bit, bits_wire_bits, bus, chip, numbered_name,
    parts_of, pin, wire, wire_bit,
};
use hdl_tree::{Chip, List, Part};
use std::alloc::{AllocError, Global};

// The parts of HalfAdder.
const HALF_ADDER: &[Row<'static>] = &[
    Row {
        chip: b"Xor",
        links: &[
            Link::Wire(b"a", b"a"),
            Link::Wire(b"b", b"b"),
            Link::Wire(b"out", b"sum"),
        ],
    },
    Row {
        chip: b"And",
        links: &[
            Link::Wire(b"a", b"a"),
            Link::Wire(b"b", b"b"),
            Link::Wire(b"out", b"carry"),
        ],
    },
];

/// The tree of HalfAdder.
#[tactic(auto, unfolding(crate::specs::Trees::half_adder_tree))]
pub fn half_adder_tree(alloc: Global) -> Result<Chip, AllocError>
    ensures { IfOk result (λ chip. chip ≡ half_adder_tree) }
{
    let parts = parts_of(alloc, HALF_ADDER)?;
    chip(
        alloc,
        b"HalfAdder",
        &[pin(b"a"), pin(b"b")],
        &[pin(b"sum"), pin(b"carry")],
        parts,
    )
}

// The parts of FullAdder.
const FULL_ADDER: &[Row<'static>] = &[
    Row {
        chip: b"HalfAdder",
        links: &[
            Link::Wire(b"a", b"a"),
            Link::Wire(b"b", b"b"),
            Link::Wire(b"sum", b"sumOfTwo"),
            Link::Wire(b"carry", b"carryOfTwo"),
        ],
    },
    Row {
        chip: b"HalfAdder",
        links: &[
            Link::Wire(b"a", b"sumOfTwo"),
            Link::Wire(b"b", b"c"),
            Link::Wire(b"sum", b"sum"),
            Link::Wire(b"carry", b"carryOfThird"),
        ],
    },
    Row {
        chip: b"Or",
        links: &[
            Link::Wire(b"a", b"carryOfTwo"),
            Link::Wire(b"b", b"carryOfThird"),
            Link::Wire(b"out", b"carry"),
        ],
    },
];

/// The tree of FullAdder.
#[tactic(auto, unfolding(crate::specs::Trees::full_adder_tree))]
pub fn full_adder_tree(alloc: Global) -> Result<Chip, AllocError>
    ensures { IfOk result (λ chip. chip ≡ full_adder_tree) }
{
    let parts = parts_of(alloc, FULL_ADDER)?;
    chip(
        alloc,
        b"FullAdder",
        &[pin(b"a"), pin(b"b"), pin(b"c")],
        &[pin(b"sum"), pin(b"carry")],
        parts,
    )
}

// The part of one bit above the lowest.
fn add_full_adder(alloc: Global, parts: &mut Vec<Part>, bit: u8) -> Result<(), AllocError>
    requires { bit < 16 }
    ensures { IfOk result (λ _. parts.new.items ≡ parts.old.items ++ add_bit bit ∷ []) }
{
    let carry_in = numbered_name(alloc, b"carry", bit)?;
    let carry_out = numbered_name(alloc, b"carry", bit + 1)?;
    add_part(
        alloc,
        parts,
        b"FullAdder",
        &[
            wire_bit(b"a", b"a", bit),
            wire_bit(b"b", b"b", bit),
            wire(b"c", carry_in.as_bytes()),
            wire_bit(b"sum", b"out", bit),
            wire(b"carry", carry_out.as_bytes()),
        ],
    )?;
    Ok(())
}

// The parts of the bits above the lowest, after those that are there.
fn add_full_adders(alloc: Global, parts: &mut Vec<Part>) -> Result<(), AllocError>
    ensures { IfOk result
        (λ _. parts.new.items ≡ parts.old.items ++ each 15 (λ i. add_bit (suc i))) }
{
    for below in 0..15 {
        add_full_adder(alloc, parts, below + 1)?;
    }
    Ok(())
}

/// The tree of Add16.
#[tactic(auto, unfolding(crate::specs::Trees::add16_tree))]
pub fn add16_tree(alloc: Global) -> Result<Chip, AllocError>
    ensures { IfOk result (λ chip. chip ≡ add16_tree) }
{
    let mut parts = Vec::new(alloc);
    add_part(
        alloc,
        &mut parts,
        b"HalfAdder",
        &[
            wire_bit(b"a", b"a", 0),
            wire_bit(b"b", b"b", 0),
            wire_bit(b"sum", b"out", 0),
            wire(b"carry", b"carry1"),
        ],
    )?;
    add_full_adders(alloc, &mut parts)?;
    chip(
        alloc,
        b"Add16",
        &[bus(b"a", 16), bus(b"b", 16)],
        &[bus(b"out", 16)],
        List::of(parts),
    )
}

/// The tree of Inc16.
#[tactic(auto, unfolding(crate::specs::Trees::inc16_tree))]
pub fn inc16_tree(alloc: Global) -> Result<Chip, AllocError>
    ensures { IfOk result (λ chip. chip ≡ inc16_tree) }
{
    let mut parts = Vec::new(alloc);
    add_part(
        alloc,
        &mut parts,
        b"Add16",
        &[
            wire(b"a", b"in"),
            bit_constant(b"b", 0, true),
            wire(b"out", b"out"),
        ],
    )?;
    chip(
        alloc,
        b"Inc16",
        &[bus(b"in", 16)],
        &[bus(b"out", 16)],
        List::of(parts),
    )
}

/// The part of a chip that finds whether a bit of the net `lowHalf` is 1.
pub const SOME_LOW_BIT: Row<'static> = Row {
    chip: b"Or8Way",
    links: &[
        Link::Wire(b"in", b"lowHalf"),
        Link::Wire(b"out", b"someLow"),
    ],
};

/// The part that finds whether a bit of the net `highHalf` is 1.
pub const SOME_HIGH_BIT: Row<'static> = Row {
    chip: b"Or8Way",
    links: &[
        Link::Wire(b"in", b"highHalf"),
        Link::Wire(b"out", b"someHigh"),
    ],
};

/// The part that finds whether a bit of either half is 1, after the two others.
pub const SOME_BIT: Row<'static> = Row {
    chip: b"Or",
    links: &[
        Link::Wire(b"a", b"someLow"),
        Link::Wire(b"b", b"someHigh"),
        Link::Wire(b"out", b"some"),
    ],
};

// The parts of the ALU.
const ALU: &[Row<'static>] = &[
    // the two inputs are made ready
    Row {
        chip: b"Mux16",
        links: &[
            Link::Wire(b"a", b"x"),
            Link::Constant(b"b", false),
            Link::Wire(b"sel", b"zx"),
            Link::Wire(b"out", b"zeroedX"),
        ],
    },
    Row {
        chip: b"Not16",
        links: &[Link::Wire(b"in", b"zeroedX"), Link::Wire(b"out", b"notX")],
    },
    Row {
        chip: b"Mux16",
        links: &[
            Link::Wire(b"a", b"zeroedX"),
            Link::Wire(b"b", b"notX"),
            Link::Wire(b"sel", b"nx"),
            Link::Wire(b"out", b"readyX"),
        ],
    },
    Row {
        chip: b"Mux16",
        links: &[
            Link::Wire(b"a", b"y"),
            Link::Constant(b"b", false),
            Link::Wire(b"sel", b"zy"),
            Link::Wire(b"out", b"zeroedY"),
        ],
    },
    Row {
        chip: b"Not16",
        links: &[Link::Wire(b"in", b"zeroedY"), Link::Wire(b"out", b"notY")],
    },
    Row {
        chip: b"Mux16",
        links: &[
            Link::Wire(b"a", b"zeroedY"),
            Link::Wire(b"b", b"notY"),
            Link::Wire(b"sel", b"ny"),
            Link::Wire(b"out", b"readyY"),
        ],
    },
    // what is computed
    Row {
        chip: b"Add16",
        links: &[
            Link::Wire(b"a", b"readyX"),
            Link::Wire(b"b", b"readyY"),
            Link::Wire(b"out", b"sum"),
        ],
    },
    Row {
        chip: b"And16",
        links: &[
            Link::Wire(b"a", b"readyX"),
            Link::Wire(b"b", b"readyY"),
            Link::Wire(b"out", b"both"),
        ],
    },
    Row {
        chip: b"Mux16",
        links: &[
            Link::Wire(b"a", b"both"),
            Link::Wire(b"b", b"sum"),
            Link::Wire(b"sel", b"f"),
            Link::Wire(b"out", b"result"),
        ],
    },
    Row {
        chip: b"Not16",
        links: &[
            Link::Wire(b"in", b"result"),
            Link::Wire(b"out", b"notResult"),
        ],
    },
    Row {
        chip: b"Mux16",
        links: &[
            Link::Wire(b"a", b"result"),
            Link::Wire(b"b", b"notResult"),
            Link::Wire(b"sel", b"no"),
            Link::Wire(b"out", b"out"),
            Link::BitsWire(b"out", 0, 7, b"lowHalf"),
            Link::BitsWire(b"out", 8, 15, b"highHalf"),
            Link::BitWire(b"out", 15, b"ng"),
        ],
    },
    // whether the output is 0
    SOME_LOW_BIT,
    SOME_HIGH_BIT,
    SOME_BIT,
    Row {
        chip: b"Not",
        links: &[Link::Wire(b"in", b"some"), Link::Wire(b"out", b"zr")],
    },
];

fn alu_parts(alloc: Global) -> Result<List<Part>, AllocError>
    ensures { IfOk result (λ parts. parts ≡ alu_inputs ++ (alu_output ++ alu_test)) }
{
    parts_of(alloc, ALU)
}

/// The tree of the ALU.
#[tactic(auto, unfolding(crate::specs::Trees::alu_tree))]
pub fn alu_tree(alloc: Global) -> Result<Chip, AllocError>
    ensures { IfOk result (λ chip. chip ≡ alu_tree) }
{
    let parts = alu_parts(alloc)?;
    chip(
        alloc,
        b"ALU",
        &[
            bus(b"x", 16),
            bus(b"y", 16),
            pin(b"zx"),
            pin(b"nx"),
            pin(b"zy"),
            pin(b"ny"),
            pin(b"f"),
            pin(b"no"),
        ],
        &[bus(b"out", 16), pin(b"zr"), pin(b"ng")],
        parts,
    )
}

/// The tree of Shift.
#[tactic(auto, unfolding(crate::specs::Trees::shift_tree))]
pub fn shift_tree(alloc: Global) -> Result<Chip, AllocError>
    ensures { IfOk result (λ chip. chip ≡ shift_tree) }
{
    let mut parts = Vec::new(alloc);
    add_part(
        alloc,
        &mut parts,
        b"Mux16",
        &[
            bits_wire_bits(b"a", (0, 14), b"in", (1, 15)),
            bit_wire_bit(b"a", 15, b"in", 15),
            bit_constant(b"b", 0, false),
            bits_wire_bits(b"b", (1, 15), b"in", (0, 14)),
            wire(b"sel", b"left"),
            wire(b"out", b"out"),
        ],
    )?;
    chip(
        alloc,
        b"Shift",
        &[bus(b"in", 16), pin(b"left")],
        &[bus(b"out", 16)],
        List::of(parts),
    )
}
