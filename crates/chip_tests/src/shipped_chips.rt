//! The library of shipped chips.

use crate::checks::{holds, is_told, printed};
use hack_cpu::{find_shipped, library};
use hdl_parser::parse;
use hdl_tree::{Body, Entry, Library};
use std::alloc::Global;
use std::process::Abort;
use std::test::Fail;

// The number of parts; a chip that is built in has none.
fn parts_of(body: &Body) -> usize {
    match body {
        Body::Parts(parts) => parts.as_slice().len(),
        Body::Builtin(_, _) => 0,
    }
}

// A chip that is shipped under its own name, made of this many parts.
fn is_shipped(entry: &Entry, name: &[u8], parts: usize) -> bool {
    let known = match &entry.shipped {
        Some(shipped) => shipped.as_bytes() == name,
        None => false,
    };
    known
        && entry.name.as_bytes() == name
        && entry.chip.name.as_bytes() == name
        && parts_of(&entry.chip.body) == parts
}

// All shipped chips in order, of the parts that the tables of docs/CHIPS.md count.
const CHIPS: &[(&str, usize)] = &[
    ("Nand", 0),
    ("Not", 1),
    ("And", 2),
    ("Or", 3),
    ("Xor", 4),
    ("Mux", 4),
    ("DMux", 3),
    ("Not16", 16),
    ("And16", 16),
    ("Or16", 16),
    ("Mux16", 16),
    ("Or8Way", 7),
    ("Mux4Way16", 3),
    ("Mux8Way16", 3),
    ("DMux4Way", 3),
    ("DMux8Way", 3),
    ("HalfAdder", 2),
    ("FullAdder", 3),
    ("Add16", 16),
    ("Inc16", 1),
    ("ALU", 15),
    ("Shift", 1),
    ("DFF", 0),
    ("Bit", 2),
    ("Register", 16),
    ("ARegister", 16),
    ("DRegister", 16),
    ("PC", 5),
    ("RAM8", 10),
    ("RAM64", 10),
    ("RAM512", 10),
    ("RAM4K", 10),
    ("RAM16K", 6),
    ("Screen", 4),
    ("ROM32K", 0),
    ("Keyboard", 0),
    ("CPU", 28),
    ("Memory", 8),
    ("Computer", 3),
];

fn chips_table() -> &'static [(&'static str, usize)] {
    CHIPS
}

fn all_are_shipped(rt: &impl Abort, library: &Library) {
    let entries = library.entries.as_slice();
    holds(rt, "count", entries.len() == chips_table().len());
    for (entry, (name, parts)) in entries.iter().zip(chips_table()) {
        holds(rt, name, is_shipped(entry, name.as_bytes(), *parts));
    }
}

// The printed form of the shipped chip of this name.
fn printed_shipped(alloc: Global, library: &Library, name: &[u8]) -> Result<String, Fail> {
    match find_shipped(library, name) {
        Some(entry) => printed(alloc, &entry.chip),
        None => Err(Fail::from("the chip is shipped")),
    }
}

// The printed form of the chip that a text spells.
fn printed_again(alloc: Global, text: &str) -> Result<String, Fail> {
    match parse(alloc, text.as_bytes()) {
        Ok(chip) => printed(alloc, &chip),
        Err(_) => Err(Fail::from("the text is a chip")),
    }
}

// The printed forms of the four chips that are built in, and of the Computer, whose parts are the CPU, the instruction
// memory and the memory.
const PRINTED: &[(&str, &str)] = &[
    (
        "Nand",
        "CHIP Nand {\nIN a , b ;\nOUT out ;\nBUILTIN Nand ;\n}\n",
    ),
    ("DFF", "CHIP DFF {\nIN in ;\nOUT out ;\nBUILTIN DFF ;\n}\n"),
    (
        "ROM32K",
        "CHIP ROM32K {\nIN address [ 15 ] ;\nOUT out [ 16 ] ;\nBUILTIN ROM32K ;\n}\n",
    ),
    (
        "Keyboard",
        "CHIP Keyboard {\nOUT out [ 16 ] ;\nBUILTIN Keyboard ;\n}\n",
    ),
    (
        "Computer",
        "CHIP Computer {\nIN reset ;\nPARTS : CPU ( inM = wordFromMemory , instruction = instruction , reset = reset , outM = wordToMemory , writeM = write , addressM = address , pc = pc ) ;\nROM32K ( address = pc , out = instruction ) ;\nMemory ( in = wordToMemory , load = write , address = address , out = wordFromMemory ) ;\n}\n",
    ),
];

fn printed_table() -> &'static [(&'static str, &'static str)] {
    PRINTED
}

fn each_is_printed(rt: &impl Abort, alloc: Global, library: &Library) -> Result<(), Fail> {
    for (name, form) in printed_table() {
        let text = printed_shipped(alloc, library, name.as_bytes())?;
        is_told(rt, name, &text, form);
    }
    Ok(())
}

// The printed form of each shipped chip is that of a chip.
fn printed_forms_are_read(rt: &impl Abort, alloc: Global, library: &Library) -> Result<(), Fail> {
    for entry in library.entries.as_slice() {
        let text = printed(alloc, &entry.chip)?;
        let again = printed_again(alloc, &text)?;
        is_told(rt, &text, &text, &again);
    }
    Ok(())
}

#[test]
fn shipped_chips(rt: HostRuntime) -> Result<(), Fail> {
    let alloc = rt.alloc();
    let library = library(alloc)?;
    all_are_shipped(&rt, &library);
    each_is_printed(&rt, alloc, &library)?;
    printed_forms_are_read(&rt, alloc, &library)?;
    holds(&rt, "Nor", find_shipped(&library, b"Nor").is_none());
    Ok(())
}
