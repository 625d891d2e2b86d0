//! Telling the simulator of the Computer a key, and reading its nodes.

ghost use Rattle.std.specs.Prelude.{◌≡◌, ◌≢◌, ◌<◌, ◌≤◌, ◌+◌, ◌*◌, ◌^◌, ℕ, Bool, List, Some, length, slice_get, slice_index, if◌then◌else◌};
ghost use Rattle.std.specs.List.{All};
ghost use Rattle.netlist.specs.declared.node.Node.TheVariants.{Pin};
ghost use Rattle.netlist.specs.Present.{value_in};
ghost use Rattle.netlist.specs.Value.{spelled_number};
ghost use Rattle.gate_sim.specs.Calls.{Call, pins_of};
ghost use Rattle.gate_sim.specs.Stands.{StandsFor};
ghost use Rattle.image_map.specs.Computer.{reads_key};
ghost use Rattle.gate_computer.specs.Calls.{HoldsKey};
ghost use Rattle.gate_computer.specs.Inner.Told.{HasSet, ChangesPin};

use gate_sim::Sim;
use word16::{KEYBOARD, bit};

// Sets a pin, where it is to change.
fn set_pin(sim: &mut Sim, node: u32, old: bool, new: bool)
    requires { slice_get sim.old.net.nodes node ≡ Some Pin }
    ensures net { sim.new.net ≡ sim.old.net }
    ensures told { (calls : List Call)
        → StandsFor sim.old calls → pins_of sim.old.net.nodes calls node ≡ old
        → HasSet sim.new calls (ChangesPin sim.old.net.nodes calls node new) }
{
    if old != new {
        sim.set(node, new);
    }
}

/// Sets the pins of the keyboard from one key to another: those that are to change.
pub fn set_keyboard(sim: &mut Sim, keyboard: &[u32], old: u16, key: u16)
    requires pins { All (λ node. slice_get sim.old.net.nodes node ≡ Some Pin) keyboard.now }
    requires wide { length keyboard.now ≡ 16 }
    requires apart { (j k : ℕ) → j < k → k < length keyboard.now
        → slice_index keyboard.now j ≢ slice_index keyboard.now k }
    ensures net { sim.new.net ≡ sim.old.net }
    ensures told { (calls : List Call)
        → StandsFor sim.old calls → HoldsKey keyboard.now old (pins_of sim.old.net.nodes calls)
        → HasSet sim.new calls (HoldsKey keyboard.now key) }
{
    for k in 0..keyboard.len() {
        set_pin(sim, keyboard[k], bit(old, k as u16), bit(key, k as u16));
    }
}

// Twice a number, and one bit more.
fn doubled(number: u16, bit: bool) -> u16
    requires { number < 2 ^ 15 }
    ensures { result ≡ (if bit then 1 else 0) + 2 * number }
{
    2 * number + u16::from(bit)
}

/// The number that nodes spell, the lowest bit first.
pub fn number_at(sim: &Sim, nodes: &[u32]) -> u16
    requires wide { length nodes.now ≤ 16 }
    requires there { All (λ node. node < length sim.now.net.nodes) nodes.now }
    ensures { result ≡ spelled_number (value_in sim.now.values) nodes.now }
{
    let mut number = 0;
    for k in (0..nodes.len()).rev() {
        number = doubled(number, sim.get(nodes[k]));
    }
    number
}

// The word of an image at an address, 0 past it.
fn word_of(image: &[u16], at: u16) -> u16
    ensures { result ≡ slice_index image.now at }
{
    if (at as usize) < image.len() {
        image[at as usize]
    } else {
        0
    }
}

/// Whether the instruction at an address of the image reads the keyboard, where these nodes spell A.
pub fn hears_key(sim: &Sim, a: &[u32], image: &[u16], at: u16) -> bool
    requires wide { length a.now ≤ 16 }
    requires there { All (λ node. node < length sim.now.net.nodes) a.now }
    ensures { result
        ≡ reads_key (slice_index image.now at) (spelled_number (value_in sim.now.values) a.now) }
{
    let word = word_of(image, at);
    bit(word, 15) && bit(word, 12) && number_at(sim, a) == KEYBOARD
}
