//! An elaborated chip in the simulator: a number is set at its input bits, and one is read at its output bits, the lowest first.

ghost use Rattle.std.specs.Prelude.{◌≡◌, ◌<◌, IfOk, Some, true, length, slice_get};
ghost use Rattle.std.specs.List.{All};
ghost use Rattle.netlist.specs.declared.node.Node.TheVariants.{Pin};
ghost use Rattle.hack_cpu.specs.Libraries.{IsLibrary};

use crate::chips::answer;
use gate_sim::Sim;
use hack_cpu::find_shipped;
use hdl_elab::Elab;
use hdl_flatten::PinAt;
use hdl_tree::{Library, Memories};
use netlist::{Netlist, Node};
use std::alloc::{AllocError, Global};
use std::test::Fail;

/// A chip in the simulator, with the nodes of its input bits and of its output bits.
pub struct Bench {
    sim: Sim,
    inputs: Vec<u32>,
    outputs: Vec<u32>,
}

// By hand, so that whoever drops one calls this.
impl Drop for Bench {
    fn drop(self) {
        let Bench {
            sim: _,
            inputs: _,
            outputs: _,
        } = self;
    }
}

fn is_pin(net: &Netlist, node: u32) -> bool
    ensures { result ≡ true → slice_get net.now.nodes node ≡ Some Pin }
{
    matches!(net.nodes().get(node as usize), Some(Node::Pin))
}

fn are_pins(net: &Netlist, nodes: &[u32]) -> bool
    ensures { result ≡ true → All (λ node. slice_get net.now.nodes node ≡ Some Pin) nodes.now }
{
    for node in nodes {
        if !is_pin(net, *node) {
            return false;
        }
    }
    true
}

fn is_there(net: &Netlist, node: u32) -> bool
    ensures { result ≡ true → node < length net.now.nodes }
{
    (node as usize) < net.nodes().len()
}

fn are_there(net: &Netlist, nodes: &[u32]) -> bool
    ensures { result ≡ true → All (λ node. node < length net.now.nodes) nodes.now }
{
    for node in nodes {
        if !is_there(net, *node) {
            return false;
        }
    }
    true
}

fn nodes_of(alloc: Global, pins: &[PinAt]) -> Result<Vec<u32>, AllocError> {
    let mut nodes = Vec::new(alloc);
    for pin in pins {
        nodes.extend_from_slice(pin.nodes.as_slice())?;
    }
    Ok(nodes)
}

// The nodes of the input bits and of the output bits.
#[derive(Drop)]
struct Ends {
    inputs: Vec<u32>,
    outputs: Vec<u32>,
}

// The first of these pins are the inputs.
fn ends_of(alloc: Global, net: &Netlist, pins: &[PinAt], inputs: usize) -> Result<Ends, Fail>
    ensures pins { IfOk result
        (λ ends. All (λ node. slice_get net.now.nodes node ≡ Some Pin) ends.inputs.items) }
    ensures there { IfOk result
        (λ ends. All (λ node. node < length net.now.nodes) ends.outputs.items) }
{
    if inputs > pins.len() {
        return Err(Fail::from("the inputs are pins"));
    }
    let (inputs, outputs) = pins.split_at(inputs);
    let inputs = nodes_of(alloc, inputs)?;
    let outputs = nodes_of(alloc, outputs)?;
    if !are_pins(net, &inputs) || !are_there(net, &outputs) {
        return Err(Fail::from("the nodes of pins are there"));
    }
    Ok(Ends { inputs, outputs })
}

fn bench_of(alloc: Global, elab: Elab, inputs: usize) -> Result<Bench, Fail>
    ensures pins { IfOk result
        (λ b. All (λ node. slice_get b.sim.net.nodes node ≡ Some Pin) b.inputs.items) }
    ensures there { IfOk result (λ b. All (λ node. node < length b.sim.net.nodes) b.outputs.items) }
{
    let ends = ends_of(alloc, &elab.net, elab.pins.as_slice(), inputs)?;
    let sim = Sim::new(alloc, elab.net)?;
    Ok(Bench {
        sim,
        inputs: ends.inputs,
        outputs: ends.outputs,
    })
}

/// The chip of this name.
pub fn put_on_bench(
    alloc: Global,
    library: &Library,
    name: &[u8],
    memories: Memories,
) -> Result<Bench, Fail>
    requires { IsLibrary library.now.entries }
    ensures pins { IfOk result
        (λ b. All (λ node. slice_get b.sim.net.nodes node ≡ Some Pin) b.inputs.items) }
    ensures there { IfOk result (λ b. All (λ node. node < length b.sim.net.nodes) b.outputs.items) }
{
    let inputs = match find_shipped(library, name) {
        Some(entry) => entry.chip.inputs.as_slice().len(),
        None => return Err(Fail::from("the chip is there")),
    };
    match answer(alloc, library, name, memories)? {
        Ok(elab) => bench_of(alloc, elab, inputs),
        Err(_) => Err(Fail::from("the chip has a netlist")),
    }
}

fn set_number(sim: &mut Sim, pins: &[u32], number: u64)
    requires { All (λ node. slice_get sim.old.net.nodes node ≡ Some Pin) pins.now }
    ensures { sim.new.net ≡ sim.old.net }
{
    let mut rest = number;
    for node in pins {
        sim.set(*node, rest % 2 == 1);
        rest /= 2;
    }
}

fn number_at(sim: &Sim, nodes: &[u32]) -> u64
    requires { All (λ node. node < length sim.now.net.nodes) nodes.now }
{
    let mut number: u64 = 0;
    for node in nodes.iter().rev() {
        number = number
            .wrapping_mul(2)
            .wrapping_add(u64::from(sim.get(*node)));
    }
    number
}

impl Bench {
    /// Sets the inputs, and gives the outputs in this cycle.
    pub fn try_inputs(&mut self, number: u64) -> u64
        requires pins { All
            (λ node. slice_get self.old.sim.net.nodes node ≡ Some Pin) self.old.inputs.items }
        requires there { All (λ node. node < length self.old.sim.net.nodes) self.old.outputs.items }
        ensures pins { All
            (λ node. slice_get self.new.sim.net.nodes node ≡ Some Pin) self.new.inputs.items }
        ensures there { All (λ node. node < length self.new.sim.net.nodes) self.new.outputs.items }
    {
        set_number(&mut self.sim, &self.inputs, number);
        self.sim.eval();
        number_at(&self.sim, &self.outputs)
    }

    /// Goes on to the next cycle, and gives the outputs there with the inputs that are set.
    pub fn next_cycle(&mut self) -> u64
        requires pins { All
            (λ node. slice_get self.old.sim.net.nodes node ≡ Some Pin) self.old.inputs.items }
        requires there { All (λ node. node < length self.old.sim.net.nodes) self.old.outputs.items }
        ensures pins { All
            (λ node. slice_get self.new.sim.net.nodes node ≡ Some Pin) self.new.inputs.items }
        ensures there { All (λ node. node < length self.new.sim.net.nodes) self.new.outputs.items }
    {
        self.sim.cycle();
        number_at(&self.sim, &self.outputs)
    }
}
