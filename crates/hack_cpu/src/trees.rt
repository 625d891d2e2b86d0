//! The trees of the CPU, Memory and the Computer.
ghost use Rattle.std.specs.Prelude.{◌≡◌, ◌++◌, IfOk};
ghost use Rattle.hack_cpu.specs.Trees.{rom_tree, keyboard_tree, cpu_registers, cpu_result, cpu_jump, cpu_shift, cpu_tree, memory_tree, computer_tree};

use chip_alu::{SOME_BIT, SOME_HIGH_BIT, SOME_LOW_BIT};
use chip_basic::{Link, Row, builtin, bus, chip, parts_of, pin};
use hdl_tree::{Chip, List, Part};
use std::alloc::{AllocError, Global};

// The parts of the CPU.
const CPU: &[Row<'static>] = &[
    // the registers A and D, and the inputs of the ALU
    Row {
        chip: b"Not",
        links: &[
            Link::WireBit(b"in", b"instruction", 15),
            Link::Wire(b"out", b"loadsNumber"),
        ],
    },
    Row {
        chip: b"Mux16",
        links: &[
            Link::Wire(b"a", b"result"),
            Link::Wire(b"b", b"instruction"),
            Link::Wire(b"sel", b"loadsNumber"),
            Link::Wire(b"out", b"nextA"),
        ],
    },
    Row {
        chip: b"Or",
        links: &[
            Link::Wire(b"a", b"loadsNumber"),
            Link::WireBit(b"b", b"instruction", 5),
            Link::Wire(b"out", b"loadA"),
        ],
    },
    Row {
        chip: b"ARegister",
        links: &[
            Link::Wire(b"in", b"nextA"),
            Link::Wire(b"load", b"loadA"),
            Link::Wire(b"out", b"valueA"),
            Link::BitsWire(b"out", 0, 14, b"addressM"),
        ],
    },
    Row {
        chip: b"Mux16",
        links: &[
            Link::Wire(b"a", b"valueA"),
            Link::Wire(b"b", b"inM"),
            Link::WireBit(b"sel", b"instruction", 12),
            Link::Wire(b"out", b"valueAOrM"),
        ],
    },
    Row {
        chip: b"And",
        links: &[
            Link::WireBit(b"a", b"instruction", 15),
            Link::WireBit(b"b", b"instruction", 4),
            Link::Wire(b"out", b"loadD"),
        ],
    },
    Row {
        chip: b"DRegister",
        links: &[
            Link::Wire(b"in", b"result"),
            Link::Wire(b"load", b"loadD"),
            Link::Wire(b"out", b"valueD"),
        ],
    },
    // what the ALU gives, and whether the result is written to M
    Row {
        chip: b"ALU",
        links: &[
            Link::Wire(b"x", b"valueD"),
            Link::Wire(b"y", b"valueAOrM"),
            Link::WireBit(b"zx", b"instruction", 11),
            Link::WireBit(b"nx", b"instruction", 10),
            Link::WireBit(b"zy", b"instruction", 9),
            Link::WireBit(b"ny", b"instruction", 8),
            Link::WireBit(b"f", b"instruction", 7),
            Link::WireBit(b"no", b"instruction", 6),
            Link::Wire(b"out", b"computed"),
        ],
    },
    Row {
        chip: b"And",
        links: &[
            Link::WireBit(b"a", b"instruction", 15),
            Link::WireBit(b"b", b"instruction", 3),
            Link::Wire(b"out", b"writeM"),
        ],
    },
    // the jump
    Row {
        chip: b"Or",
        links: &[
            Link::Wire(b"a", b"isZero"),
            Link::Wire(b"b", b"isNegative"),
            Link::Wire(b"out", b"isNotPositive"),
        ],
    },
    Row {
        chip: b"Not",
        links: &[
            Link::Wire(b"in", b"isNotPositive"),
            Link::Wire(b"out", b"isPositive"),
        ],
    },
    Row {
        chip: b"And",
        links: &[
            Link::Wire(b"a", b"isNegative"),
            Link::WireBit(b"b", b"instruction", 2),
            Link::Wire(b"out", b"jumpOnNegative"),
        ],
    },
    Row {
        chip: b"And",
        links: &[
            Link::Wire(b"a", b"isZero"),
            Link::WireBit(b"b", b"instruction", 1),
            Link::Wire(b"out", b"jumpOnZero"),
        ],
    },
    Row {
        chip: b"And",
        links: &[
            Link::Wire(b"a", b"isPositive"),
            Link::WireBit(b"b", b"instruction", 0),
            Link::Wire(b"out", b"jumpOnPositive"),
        ],
    },
    Row {
        chip: b"Or",
        links: &[
            Link::Wire(b"a", b"jumpOnZero"),
            Link::Wire(b"b", b"jumpOnPositive"),
            Link::Wire(b"out", b"jumpOnOther"),
        ],
    },
    Row {
        chip: b"Or",
        links: &[
            Link::Wire(b"a", b"jumpOnNegative"),
            Link::Wire(b"b", b"jumpOnOther"),
            Link::Wire(b"out", b"jumpIsAsked"),
        ],
    },
    Row {
        chip: b"And",
        links: &[
            Link::Wire(b"a", b"jumpIsAsked"),
            Link::WireBit(b"b", b"instruction", 15),
            Link::Wire(b"out", b"jump"),
        ],
    },
    Row {
        chip: b"PC",
        links: &[
            Link::Wire(b"in", b"valueA"),
            Link::Wire(b"load", b"jump"),
            Link::Constant(b"inc", true),
            Link::Wire(b"reset", b"reset"),
            Link::BitsWire(b"out", 0, 14, b"pc"),
        ],
    },
    // the shift, and the result
    Row {
        chip: b"Not",
        links: &[
            Link::WireBit(b"in", b"instruction", 14),
            Link::Wire(b"out", b"noBit14"),
        ],
    },
    Row {
        chip: b"And",
        links: &[
            Link::Wire(b"a", b"noBit14"),
            Link::WireBit(b"b", b"instruction", 13),
            Link::Wire(b"out", b"bit13Alone"),
        ],
    },
    Row {
        chip: b"And",
        links: &[
            Link::WireBit(b"a", b"instruction", 15),
            Link::Wire(b"b", b"bit13Alone"),
            Link::Wire(b"out", b"isShift"),
        ],
    },
    Row {
        chip: b"Mux16",
        links: &[
            Link::Wire(b"a", b"valueAOrM"),
            Link::Wire(b"b", b"valueD"),
            Link::WireBit(b"sel", b"instruction", 10),
            Link::Wire(b"out", b"shiftOperand"),
        ],
    },
    Row {
        chip: b"Shift",
        links: &[
            Link::Wire(b"in", b"shiftOperand"),
            Link::WireBit(b"left", b"instruction", 11),
            Link::Wire(b"out", b"shifted"),
        ],
    },
    Row {
        chip: b"Mux16",
        links: &[
            Link::Wire(b"a", b"computed"),
            Link::Wire(b"b", b"shifted"),
            Link::Wire(b"sel", b"isShift"),
            Link::Wire(b"out", b"result"),
            Link::Wire(b"out", b"outM"),
            Link::BitsWire(b"out", 0, 7, b"lowHalf"),
            Link::BitsWire(b"out", 8, 15, b"highHalf"),
            Link::BitsWire(b"out", 15, 15, b"isNegative"),
        ],
    },
    SOME_LOW_BIT,
    SOME_HIGH_BIT,
    SOME_BIT,
    Row {
        chip: b"Not",
        links: &[Link::Wire(b"in", b"some"), Link::Wire(b"out", b"isZero")],
    },
];

// The parts of Memory.
const MEMORY: &[Row<'static>] = &[
    Row {
        chip: b"DMux",
        links: &[
            Link::Wire(b"in", b"load"),
            Link::WireBit(b"sel", b"address", 14),
            Link::Wire(b"a", b"loadMain"),
            Link::Wire(b"b", b"loadUpper"),
        ],
    },
    Row {
        chip: b"Not",
        links: &[
            Link::WireBit(b"in", b"address", 13),
            Link::Wire(b"out", b"isBelowKeyboard"),
        ],
    },
    Row {
        chip: b"And",
        links: &[
            Link::Wire(b"a", b"loadUpper"),
            Link::Wire(b"b", b"isBelowKeyboard"),
            Link::Wire(b"out", b"loadScreen"),
        ],
    },
    Row {
        chip: b"RAM16K",
        links: &[
            Link::Wire(b"in", b"in"),
            Link::Wire(b"load", b"loadMain"),
            Link::WireBits(b"address", b"address", 0, 13),
            Link::Wire(b"out", b"mainWord"),
        ],
    },
    Row {
        chip: b"Screen",
        links: &[
            Link::Wire(b"in", b"in"),
            Link::Wire(b"load", b"loadScreen"),
            Link::WireBits(b"address", b"address", 0, 12),
            Link::Wire(b"out", b"screenWord"),
        ],
    },
    Row {
        chip: b"Keyboard",
        links: &[Link::Wire(b"out", b"key")],
    },
    Row {
        chip: b"Mux16",
        links: &[
            Link::Wire(b"a", b"screenWord"),
            Link::Wire(b"b", b"key"),
            Link::WireBit(b"sel", b"address", 13),
            Link::Wire(b"out", b"upperWord"),
        ],
    },
    Row {
        chip: b"Mux16",
        links: &[
            Link::Wire(b"a", b"mainWord"),
            Link::Wire(b"b", b"upperWord"),
            Link::WireBit(b"sel", b"address", 14),
            Link::Wire(b"out", b"out"),
        ],
    },
];

// The parts of the Computer.
const COMPUTER: &[Row<'static>] = &[
    Row {
        chip: b"CPU",
        links: &[
            Link::Wire(b"inM", b"wordFromMemory"),
            Link::Wire(b"instruction", b"instruction"),
            Link::Wire(b"reset", b"reset"),
            Link::Wire(b"outM", b"wordToMemory"),
            Link::Wire(b"writeM", b"write"),
            Link::Wire(b"addressM", b"address"),
            Link::Wire(b"pc", b"pc"),
        ],
    },
    Row {
        chip: b"ROM32K",
        links: &[
            Link::Wire(b"address", b"pc"),
            Link::Wire(b"out", b"instruction"),
        ],
    },
    Row {
        chip: b"Memory",
        links: &[
            Link::Wire(b"in", b"wordToMemory"),
            Link::Wire(b"load", b"write"),
            Link::Wire(b"address", b"address"),
            Link::Wire(b"out", b"wordFromMemory"),
        ],
    },
];

/// ROM32K, the instruction memory, which is built in.
#[tactic(auto, unfolding(crate::specs::Trees::rom_tree))]
pub fn rom_tree(alloc: Global) -> Result<Chip, AllocError>
    ensures { IfOk result (λ chip. chip ≡ rom_tree) }
{
    builtin(alloc, b"ROM32K", &[bus(b"address", 15)], &[bus(b"out", 16)])
}

/// Keyboard, which is built in.
#[tactic(auto, unfolding(crate::specs::Trees::keyboard_tree))]
pub fn keyboard_tree(alloc: Global) -> Result<Chip, AllocError>
    ensures { IfOk result (λ chip. chip ≡ keyboard_tree) }
{
    builtin(alloc, b"Keyboard", &[], &[bus(b"out", 16)])
}

fn cpu_parts(alloc: Global) -> Result<List<Part>, AllocError>
    ensures { IfOk result
        (λ parts. parts ≡ cpu_registers ++ (cpu_result ++ (cpu_jump ++ cpu_shift))) }
{
    parts_of(alloc, CPU)
}

/// The tree of the CPU.
#[tactic(auto, unfolding(crate::specs::Trees::cpu_tree))]
pub fn cpu_tree(alloc: Global) -> Result<Chip, AllocError>
    ensures { IfOk result (λ chip. chip ≡ cpu_tree) }
{
    let parts = cpu_parts(alloc)?;
    chip(
        alloc,
        b"CPU",
        &[bus(b"inM", 16), bus(b"instruction", 16), pin(b"reset")],
        &[
            bus(b"outM", 16),
            pin(b"writeM"),
            bus(b"addressM", 15),
            bus(b"pc", 15),
        ],
        parts,
    )
}

/// The tree of Memory.
#[tactic(auto, unfolding(crate::specs::Trees::memory_tree))]
pub fn memory_tree(alloc: Global) -> Result<Chip, AllocError>
    ensures { IfOk result (λ chip. chip ≡ memory_tree) }
{
    let parts = parts_of(alloc, MEMORY)?;
    chip(
        alloc,
        b"Memory",
        &[bus(b"in", 16), pin(b"load"), bus(b"address", 15)],
        &[bus(b"out", 16)],
        parts,
    )
}

/// The tree of the Computer.
#[tactic(auto, unfolding(crate::specs::Trees::computer_tree))]
pub fn computer_tree(alloc: Global) -> Result<Chip, AllocError>
    ensures { IfOk result (λ chip. chip ≡ computer_tree) }
{
    let parts = parts_of(alloc, COMPUTER)?;
    chip(alloc, b"Computer", &[pin(b"reset")], &[], parts)
}
