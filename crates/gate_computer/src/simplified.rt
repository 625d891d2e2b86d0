//! The Computer with its netlist simplified, which keeps the nodes that get a key or are read.

ghost use Rattle.std.specs.Prelude.{◌≡◌, ◌-◌, ◌<◌, ◌^◌, IfOk, length};
ghost use Rattle.gate_computer.specs.Inner.Places.{HasPlaces};
ghost use Rattle.gate_computer.specs.Simple.{IsSimpleOf, ShowsComputer, kept_nodes};
ghost use Rattle.gate_computer.specs.Wiring.{IsWired};

use crate::wire::list_from;
use crate::wiring::{WiredComputer, Wiring};
use net_simplify::{Simple, simplify};
use std::alloc::{AllocError, Global};

// The nodes that are kept.
fn kept_nodes(alloc: Global, wiring: &Wiring) -> Result<Vec<u32>, AllocError>
    ensures { IfOk result (λ v. v.items ≡ kept_nodes wiring.now) }
{
    let mut nodes = Vec::from_slice(alloc, wiring.keyboard.as_slice())?;
    nodes.extend_from_slice(wiring.pc.as_slice())?;
    nodes.extend_from_slice(wiring.a.as_slice())?;
    Ok(nodes)
}

// The wiring with the kept nodes at these places.
fn moved_wiring(alloc: Global, wiring: &Wiring, places: &[u32]) -> Result<Wiring, AllocError>
    requires { length places.now ≡ length (kept_nodes wiring.now) }
    ensures { IfOk result (λ moved. HasPlaces wiring.now places.now moved) }
{
    let (keyboard, others) = places.split_at(wiring.keyboard.as_slice().len());
    let (pc, a) = others.split_at(wiring.pc.as_slice().len());
    Ok(Wiring {
        keyboard: list_from(alloc, keyboard)?,
        pc: list_from(alloc, pc)?,
        a: list_from(alloc, a)?,
        rom: wiring.rom,
        main: wiring.main,
        screen: wiring.screen,
        parts: None,
    })
}

/// The same computer with its netlist simplified, or memory is short.
pub(crate) fn simple_computer(
    alloc: Global,
    wired: &WiredComputer,
) -> Result<WiredComputer, AllocError>
    requires wired { IsWired wired.now.net wired.now.wiring }
    requires few { length wired.now.net.nodes < 2 ^ 32 - 1 }
    ensures { IfOk result
        (λ simple. IsSimpleOf wired.now.net wired.now.wiring simple.net simple.wiring) }
{
    let kept = kept_nodes(alloc, &wired.wiring)?;
    let Simple { net, place } = simplify(alloc, &wired.net, &kept)?;
    let wiring = moved_wiring(alloc, &wired.wiring, &place)?;
    Ok(WiredComputer { net, wiring })
}

/// What is simplified from the netlist of the Computer shows the Computer.
pub(crate) fn simple_shows(whole: &WiredComputer, simple: &WiredComputer)
    requires wired { IsWired whole.now.net whole.now.wiring }
    requires simple { IsSimpleOf whole.now.net whole.now.wiring simple.now.net simple.now.wiring }
    ensures { ShowsComputer simple.now.net simple.now.wiring }
{
    whole.net.ordered_law();
    simple.net.ordered_law();
}

/// The netlist of the Computer itself shows it.
pub(crate) fn whole_shows(whole: &WiredComputer)
    requires { IsWired whole.now.net whole.now.wiring }
    ensures { ShowsComputer whole.now.net whole.now.wiring }
{
    whole.net.ordered_law();
}
