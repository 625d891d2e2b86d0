//! The Computer made of gates at its start.

ghost use Rattle.std.specs.Prelude.{◌≡◌, [], false, true, IfOk, IsSome};
ghost use Rattle.image_map.specs.Map.{IsMapped};
ghost use Rattle.gate_computer.specs.Followed.{HasFollowed, image_in};
ghost use Rattle.gate_computer.specs.Simple.{IsSimpleComputer, ShowsComputer};

use crate::computer::GateComputer;
use crate::simplified::{simple_computer, simple_shows, whole_shows};
use crate::wire::build_computer;
use crate::wiring::WiredComputer;
use image_map::Image;
use std::alloc::{AllocError, Global};

// The computer, simplified where that is asked for.
fn computer_for(alloc: Global, simplify: bool) -> Result<WiredComputer, AllocError>
    ensures shows { IfOk result (λ wired. ShowsComputer wired.net wired.wiring) }
    ensures parts { IfOk result (λ wired. simplify ≡ false → IsSome wired.wiring.parts) }
    ensures simple { IfOk result
        (λ wired. simplify ≡ true → IsSimpleComputer wired.net wired.wiring) }
{
    let whole = build_computer(alloc)?;
    if !simplify {
        whole_shows(&whole);
        return Ok(whole);
    }
    let simple = simple_computer(alloc, &whole)?;
    simple_shows(&whole, &simple);
    Ok(simple)
}

/// The Computer made of gates at its start, with an image and its map. It has all its memory from here on. Where it is asked for, its netlist is
/// in normal form and shows the same; its wiring lists no parts then, and they can not be shown.
pub fn prepare_gates(
    alloc: Global,
    image: Image,
    simplify: bool,
) -> Result<GateComputer, AllocError>
    requires { IsMapped image }
    ensures image { IfOk result (λ g. image_in g ≡ image) }
    ensures moves { IfOk result (λ g. g.moves ≡ 0) }
    ensures stands { IfOk result (λ g. HasFollowed g []) }
    ensures parts { IfOk result (λ g. simplify ≡ false → IsSome g.wiring.parts) }
    ensures simple { IfOk result (λ g. simplify ≡ true → IsSimpleComputer g.sim.net g.wiring) }
{
    let wired = computer_for(alloc, simplify)?;
    GateComputer::new(alloc, wired, image)
}
