//! The lines that show the outputs of the Computer's parts.

ghost use Rattle.std.specs.Prelude.{◌≡◌, ◌<◌, map, length, slice_get, ℕ, IsSome, Some};
ghost use Rattle.std.specs.List.{All};
ghost use Rattle.outer_world.specs.Held.{Buffers, HaveSameSink};
ghost use Rattle.netlist.specs.Present.{value_in};
ghost use Rattle.gate_computer.specs.declared.wiring.WiredPart.{WiredPart};
ghost use Rattle.gate_computer.specs.Parts.{digit};
ghost use Rattle.gate_computer.specs.Inner.Reading.{ArePartsThere, wired_line, wired_text};

use crate::wiring::{WiredPart, Wiring};
use gate_sim::Sim;
use outer_world::{Pieces, Put, Sink};

fn digit(bit: bool) -> u8
    ensures { result ≡ digit bit }
{
    if bit { b'1' } else { b'0' }
}

fn put_digits<S: Sink>(sim: &Sim, nodes: &[u32], out: &mut Pieces<'_, S>) -> Put
    requires { All (λ node. node < length sim.now.net.nodes) nodes.now }
    ensures same_sink { HaveSameSink out.old out.new }
    ensures passes { Buffers out.old out.new
        (map (λ node. digit (value_in sim.now.values node)) nodes.now) result }
{
    for node in nodes {
        match out.put(&[digit(sim.get(*node))]) {
            Put::Done => {}
            Put::Failed => return Put::Failed,
        }
    }
    Put::Done
}

// The line of a part.
fn put_part<S: Sink>(sim: &Sim, part: &WiredPart, out: &mut Pieces<'_, S>) -> Put
    requires { All (λ node. node < length sim.now.net.nodes) part.now.outputs }
    ensures same_sink { HaveSameSink out.old out.new }
    ensures passes { Buffers out.old out.new
        (wired_line (value_in sim.now.values) part.now) result }
{
    match out.put_all(&[part.chip.as_bytes(), b" "]) {
        Put::Done => {}
        Put::Failed => return Put::Failed,
    }
    match put_digits(sim, part.outputs.as_slice(), out) {
        Put::Done => {}
        Put::Failed => return Put::Failed,
    }
    out.put(b"\n")
}

/// The parts that a wiring lists.
pub fn told_parts(wiring: &Wiring) -> &[WiredPart]
    requires { IsSome wiring.now.parts }
    ensures { wiring.now.parts ≡ Some result.now }
{
    match &wiring.parts {
        Some(parts) => parts.as_slice(),
        None => unreachable!(),
    }
}

/// Puts the lines of the parts.
pub fn put_parts<S: Sink>(sim: &Sim, parts: &[WiredPart], out: &mut Pieces<'_, S>) -> Put
    requires { ArePartsThere (length sim.now.net.nodes) parts.now }
    ensures same_sink { HaveSameSink out.old out.new }
    ensures passes { Buffers out.old out.new
        (wired_text (value_in sim.now.values) parts.now) result }
{
    for part in parts {
        match put_part(sim, part, out) {
            Put::Done => {}
            Put::Failed => return Put::Failed,
        }
    }
    Put::Done
}
