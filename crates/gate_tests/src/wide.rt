//! A chip of 500 inputs of 16 bits, which leads each of them through a chain to its output. What is told of its loops
//! takes no search for each pair of bits.

use crate::checks::is_told;
use crate::chips::library_with;
use crate::refusals::why_not;
use hdl_tree::Memories;
use std::alloc::{AllocError, Global};
use std::test::*;

// The inputs i0, i1, .. of 16 bits.
fn push_inputs(alloc: Global, text: &mut String, pins: u32) -> Result<(), AllocError> {
    text.push_str("IN i0[16]")?;
    for k in 1..pins {
        let pin = format!(in alloc; ", i{k}[16]")?;
        text.push_str(pin.as_str())?;
    }
    text.push_str("; ")
}

// The chip Sum, which adds so many inputs one after another.
fn sum_text(alloc: Global, pins: u32) -> Result<String, AllocError> {
    let mut text = String::from_str(alloc, "CHIP Sum { ")?;
    push_inputs(alloc, &mut text, pins)?;
    text.push_str("OUT out[16]; PARTS: Inc16(in=i0, out=n0); ")?;
    for k in 1..pins {
        let before = k - 1;
        let part = format!(in alloc; "Add16(a=n{before}, b=i{k}, out=n{k}); ")?;
        text.push_str(part.as_str())?;
    }
    let last = pins.saturating_sub(1);
    let end = format!(in alloc; "Inc16(in=n{last}, out=out); }}")?;
    text.push_str(end.as_str())?;
    Ok(text)
}

#[test]
fn chain_through_all_inputs(rt: HostRuntime) -> Result<(), Fail> {
    let alloc = rt.alloc();
    let text = sum_text(alloc, 500)?;
    let library = library_with(alloc, &[text.as_bytes()])?;
    let why = why_not(alloc, &library, b"Sum", Memories::Blocks)?;
    is_told(&rt, "Sum", &why, "");
    Ok(())
}
