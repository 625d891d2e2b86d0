//! Why chips have no netlist.

ghost use Rattle.std.specs.Prelude.{IfOk};
ghost use Rattle.hack_cpu.specs.Libraries.{IsLibrary};

use crate::checks::is_told;
use crate::chips::{add_text, answer, library_with, shipped_library};
use hdl_elab::ElaborationFault;
use hdl_tree::{Library, Memories, Name};
use std::alloc::{AllocError, Global};
use std::test::*;

fn nets_text(alloc: Global, nets: &[Name]) -> Result<String, AllocError> {
    let mut text = String::new(alloc);
    text.push_str("Loop")?;
    for net in nets {
        let name = String::from_utf8_lossy(alloc, net.as_bytes())?;
        text.push_str(" ")?;
        text.push_str(name.as_str())?;
    }
    Ok(text)
}

// A fault as a text.
fn fault_text(alloc: Global, fault: &ElaborationFault) -> Result<String, AllocError> {
    match fault {
        ElaborationFault::Memory => String::from_str(alloc, "Memory"),
        ElaborationFault::Named(fault) => format!(in alloc; "{fault}"),
        ElaborationFault::Loop(nets) => nets_text(alloc, nets.as_slice()),
        ElaborationFault::TooManyNodes(n) => format!(in alloc; "TooManyNodes {n}"),
    }
}

/// Why a chip has no netlist; nothing, if it has one.
pub fn why_not(
    alloc: Global,
    library: &Library,
    name: &[u8],
    memories: Memories,
) -> Result<String, Fail>
    requires { IsLibrary library.now.entries }
{
    match answer(alloc, library, name, memories)? {
        Ok(_) => Ok(String::new(alloc)),
        Err(fault) => Ok(fault_text(alloc, &fault)?),
    }
}

// The parts of a chip F, with memories as blocks, and what is reported of it.
const FAULTS: &[(&str, &str)] = &[
    // a fault of each kind
    ("Foo(in=a, out=out);", "F: UnknownChip Foo"),
    ("Nand(a=a, q=a, out=out);", "F: UnknownPin q"),
    ("Nand(a=a, b=b, out=out);", "F: Width b"),
    (
        "Nand(a=a, b=a, out=out); Nand(a=a, b=a, out=out);",
        "F: Driven out",
    ),
    ("Nand(a=a, b=n, out=out);", "F: Undriven n"),
    ("F(a=a, out=out);", "F: Recursive F"),
    // the first in the text, what stands in a part before its connections
    ("Bad(in=b, out=out);", "Bad: UnknownChip Foo"),
    ("Nand(a=a, b=n, out=n); Foo(in=a);", "F: UnknownChip Foo"),
    // each side of a connection
    ("Not16(in[0..15]=b, out[0]=out);", "F: Width b"),
    ("Not16(in[0..1]=b[1..2], out[0]=out);", "F: Width b"),
    ("Not(in[1]=a, out=out);", "F: Width in"),
    (
        "Not16(in=true, out=n); Not(in=n[0], out=out);",
        "F: Width n",
    ),
    ("Nand(a=b[2], b=a, out=out);", "F: Width b"),
    ("Not(in=a, out=n[0]);", "F: Width n"),
    ("Not(in=a, out=a);", "F: Driven a"),
    ("Not(in=a, out=true);", "F: Driven true"),
    ("Not(in=a, in=a, out=out);", "F: Driven in"),
    ("Not(in=a, out=out); Not(in=out, out=n);", "F: Driven out"),
    // loops of bits within a cycle
    ("Not(in=x, out=x);", "Loop x"),
    ("Not(in=x, out=y); Not(in=y, out=x);", "Loop x y"),
    ("Twice(in=x, out=x);", "Loop x m"),
    ("DFF(in=x, out=x);", ""),
    ("RAM8(in=true, load=a, address=x, out[0..2]=x);", "Loop x"),
    ("RAM8(in[0..2]=x, load=a, address=true, out[0..2]=x);", ""),
    ("Not16(in[0..1]=x, out[1..2]=x);", ""),
    ("Not(in=a, out=out);", ""),
];

fn faults_table() -> &'static [(&'static str, &'static str)] {
    FAULTS
}

// The chips beside F.
const BAD: &[u8] = b"CHIP Bad { IN in; OUT out; PARTS: Foo(in=in, out=out); }";

const TWICE: &[u8] =
    b"CHIP Twice { IN in; OUT out; PARTS: Not(in=in, out=m); Not(in=m, out=out); }";

// What is reported of a chip F of these parts.
fn fault_of(alloc: Global, parts: &str) -> Result<String, Fail> {
    let text = format!(in alloc; "CHIP F {{ IN a, b[2]; OUT out; PARTS: {parts} }}")?;
    let library = library_with(alloc, &[text.as_bytes(), BAD, TWICE])?;
    why_not(alloc, &library, b"F", Memories::Blocks)
}

#[test]
fn faults(rt: HostRuntime) -> Result<(), Fail> {
    for (parts, told) in faults_table() {
        let fault = fault_of(rt.alloc(), parts)?;
        is_told(&rt, parts, &fault, told);
    }
    Ok(())
}

// Chip number `k` chains two of the one before.
fn add_double(alloc: Global, library: Library, k: u32) -> Result<Library, Fail>
    requires { IsLibrary library.entries }
    ensures { IfOk result (λ library. IsLibrary library.entries) }
{
    let before = k.saturating_sub(1);
    let text = format!(in alloc;
        "CHIP C{k} {{ IN in; OUT out; PARTS: C{before}(in=in, out=x); C{before}(in=x, out=out); }}"
    )?;
    add_text(alloc, library, text.as_bytes())
}

// Forty chips after the first, each of which chains two of the one before.
fn chained(alloc: Global, first: &[u8]) -> Result<Library, Fail>
    ensures { IfOk result (λ library. IsLibrary library.entries) }
{
    let mut library = add_text(alloc, shipped_library(alloc)?, first)?;
    for k in 1..41u32 {
        library = add_double(alloc, library, k)?;
    }
    Ok(library)
}

fn fault_of_last(alloc: Global, first: &[u8]) -> Result<String, Fail> {
    let library = chained(alloc, first)?;
    why_not(alloc, &library, b"C40", Memories::Gates)
}

// The first of the forty chips, and what is reported of the last.
const CHAINS: &[(&str, &str)] = &[
    (
        "CHIP C0 { IN in; OUT out; PARTS: Nand(a=in, b=in, out=out); }",
        "TooManyNodes 1000000000",
    ),
    ("CHIP C0 { IN in; OUT out; PARTS: }", "Memory"),
];

// They are reported at once: no chip is expanded, and no directory begun.
#[test]
fn forty_chips(rt: HostRuntime) -> Result<(), Fail> {
    for (first, told) in CHAINS {
        let fault = fault_of_last(rt.alloc(), first.as_bytes())?;
        is_told(&rt, first, &fault, told);
    }
    Ok(())
}
