//! A directory whose nodes have other numbers.

ghost use Rattle.std.specs.Prelude.{◌≡◌, ◌<◌, IfOk, length, map, slice_index};
ghost use Rattle.std.specs.List.{All};
ghost use Rattle.hdl_elab.specs.Moved.{moved_pin};

use hdl_flatten::PinAt;
use hdl_tree::List;
use std::alloc::{AllocError, Global};

fn moved_nodes(alloc: Global, nodes: &[u32], places: &[u32]) -> Result<List<u32>, AllocError>
    requires { All (λ node. node < length places.now) nodes.now }
    ensures { IfOk result (λ l. l ≡ map (slice_index places.now) nodes.now) }
{
    let mut moved = Vec::new(alloc);
    for number in nodes {
        moved.push(places[*number as usize])?;
    }
    Ok(List::of(moved))
}

fn moved_pin_at(alloc: Global, pin: &PinAt, places: &[u32]) -> Result<PinAt, AllocError>
    requires { All (λ node. node < length places.now) pin.now.nodes }
    ensures { IfOk result (λ p. p ≡ moved_pin places.now pin.now) }
{
    Ok(PinAt {
        name: pin.name.clone()?,
        nodes: moved_nodes(alloc, pin.nodes.as_slice(), places)?,
    })
}

/// The pins, with the places of their nodes.
pub fn moved_pins(alloc: Global, pins: &[PinAt], places: &[u32]) -> Result<List<PinAt>, AllocError>
    requires { All (λ p. All (λ node. node < length places.now) p.nodes) pins.now }
    ensures { IfOk result (λ l. l ≡ map (moved_pin places.now) pins.now) }
{
    let mut moved = Vec::new(alloc);
    for pin in pins {
        moved.push(moved_pin_at(alloc, pin, places)?)?;
    }
    Ok(List::of(moved))
}
