//! Buses: what stands on their nodes, the lowest bit first.

ghost use Rattle.std.specs.Prelude.{◌≡◌, ◌<◌, ◌≤◌, ◌+◌, ◌*◌, ◌^◌, if◌then◌else◌, ℕ, Bool, List, Some, length, slice_get};
ghost use Rattle.std.specs.List.{All};
ghost use Rattle.netlist.specs.declared.node.Node.TheVariants.{Pin};
ghost use Rattle.netlist.specs.Value.{spelled_number};
ghost use Rattle.gate_sim.specs.Calls.{Call, cycle_of, evaluated_calls};
ghost use Rattle.gate_sim.specs.Values.{AreValues};
ghost use Rattle.script_device.specs.Directory.{IsInput};
ghost use Rattle.script_device.specs.Simulated.{IsSeen, WasTold, net_of, stored_at};
ghost use Rattle.script_device.specs.Driven.{set_nodes};

use crate::chip_sim::ChipSim;
use word16::bit;

/// Sets the nodes of an input to the low bits of a word.
pub fn set_bus(sim: &mut ChipSim, nodes: &[u32], word: u16)
    requires { IsInput (net_of sim.old.frame) nodes.now }
    ensures frame { sim.new.frame ≡ sim.old.frame }
    ensures stands { (calls : List Call) → WasTold sim.old calls
        → WasTold sim.new (set_nodes (net_of sim.old.frame).nodes 0 word nodes.now calls) }
{
    for (k, node) in nodes.iter().enumerate() {
        sim.set(*node, bit(word, k as u16));
    }
}

// Twice a number, and one bit more.
fn doubled(number: u16, bit: bool) -> u16
    requires { number < 2 ^ 15 }
    ensures { result ≡ (if bit then 1 else 0) + 2 * number }
{
    2 * number + u16::from(bit)
}

// The word that stands on a bus.
fn stored_word(sim: &ChipSim, nodes: &[u32]) -> u16
    requires wide { length nodes.now ≤ 16 }
    requires seen { All (IsSeen sim.now.frame) nodes.now }
    ensures { result ≡ spelled_number (stored_at sim.now) nodes.now }
{
    let mut word = 0;
    for k in (0..nodes.len()).rev() {
        word = doubled(word, sim.get(nodes[k]));
    }
    word
}

/// The word that stood on a bus at the last evaluation.
pub fn bus_word(sim: &ChipSim, nodes: &[u32]) -> u16
    requires wide { length nodes.now ≤ 16 }
    requires seen { All (IsSeen sim.now.frame) nodes.now }
    ensures { (calls told : List Call) (v : ℕ → ℕ → Bool) → WasTold sim.now calls
        → evaluated_calls calls ≡ Some told → AreValues (net_of sim.now.frame) told v
        → result ≡ spelled_number (λ i. v i (cycle_of told)) nodes.now }
{
    sim.stored_law();
    stored_word(sim, nodes)
}
