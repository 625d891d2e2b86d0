//! Memories of gates beside blocks of memory.

ghost use Rattle.std.specs.Prelude.{◌≡◌, ◌<◌, Some, length, slice_get};
ghost use Rattle.std.specs.List.{All};
ghost use Rattle.netlist.specs.declared.node.Node.TheVariants.{Pin};
ghost use Rattle.hack_cpu.specs.Libraries.{IsLibrary};

use crate::bench::{Bench, put_on_bench};
use crate::checks::holds;
use crate::chips::{library_of_own, shipped_library};
use hdl_tree::{Library, Memories};
use std::alloc::Global;
use std::test::Fail;

// The next of numbers that look like chance.
fn next_number(number: u64) -> u64 {
    number
        .wrapping_mul(6364136223846793005)
        .wrapping_add(1442695040888963407)
}

// A word, whether to load it, and an address: one of eight that lie over all of a memory.
fn inputs_from(number: u64) -> u64 {
    let word = number / 65536 % 131072;
    let address = number / 17179869184 % 8 * 4681;
    address * 131072 + word
}

// Whether two chips with the inputs of a memory give the same in this many cycles of such inputs.
fn agree(one: &mut Bench, other: &mut Bench, cycles: u32) -> bool
    requires one_pins { All
        (λ node. slice_get one.old.sim.net.nodes node ≡ Some Pin) one.old.inputs.items }
    requires one_there { All (λ node. node < length one.old.sim.net.nodes) one.old.outputs.items }
    requires other_pins { All
        (λ node. slice_get other.old.sim.net.nodes node ≡ Some Pin) other.old.inputs.items }
    requires other_there { All
        (λ node. node < length other.old.sim.net.nodes) other.old.outputs.items }
{
    let mut number = 1;
    for cycle in 0..cycles {
        let _ = cycle;
        number = next_number(number);
        let inputs = inputs_from(number);
        if one.try_inputs(inputs) != other.try_inputs(inputs)
            || one.next_cycle() != other.next_cycle()
        {
            return false;
        }
    }
    true
}

// Memories, and for how many cycles each is run.
const MEMORIES: &[(&str, u32)] = &[
    ("RAM8", 300),
    ("RAM64", 300),
    ("RAM512", 300),
    ("RAM4K", 200),
    ("RAM16K", 100),
    ("Screen", 100),
];

// Whether a memory of gates gives the same as its block in this many cycles.
fn agrees_with_its_block(
    alloc: Global,
    library: &Library,
    name: &[u8],
    cycles: u32,
) -> Result<bool, Fail>
    requires { IsLibrary library.now.entries }
{
    let mut gates = put_on_bench(alloc, library, name, Memories::Gates)?;
    let mut block = put_on_bench(alloc, library, name, Memories::Blocks)?;
    Ok(agree(&mut gates, &mut block, cycles))
}

#[test]
fn gates_agree_with_blocks(rt: HostRuntime) -> Result<(), Fail> {
    let alloc = rt.alloc();
    let library = shipped_library(alloc)?;
    for (name, cycles) in MEMORIES {
        let agrees = agrees_with_its_block(alloc, &library, name.as_bytes(), *cycles)?;
        holds(&rt, name, agrees);
    }
    Ok(())
}

// The outputs of a chip at two inputs, and in the cycle after that.
fn three_outputs(chip: &mut Bench, first: u64, second: u64) -> [u64; 3]
    requires pins { All
        (λ node. slice_get chip.old.sim.net.nodes node ≡ Some Pin) chip.old.inputs.items }
    requires there { All (λ node. node < length chip.old.sim.net.nodes) chip.old.outputs.items }
{
    let at_first = chip.try_inputs(first);
    let at_second = chip.try_inputs(second);
    [at_first, at_second, chip.next_cycle()]
}

fn outputs_of_own_ram8(alloc: Global) -> Result<[u64; 3], Fail> {
    let library = library_of_own(alloc, OWN_RAM8)?;
    let mut chip = put_on_bench(alloc, &library, b"RAM8", Memories::Blocks)?;
    Ok(three_outputs(&mut chip, 65537, 65536))
}

const OWN_RAM8: &[u8] =
    b"CHIP RAM8 { IN in[16], load, address[3]; OUT out[16]; PARTS: Nand(a=in[0], b=load, out=out[0]); }";

// A folder's RAM8 with parts, which keeps nothing, is elaborated by its text, also where the shipped memories are blocks.
#[test]
fn own_ram8(rt: HostRuntime) -> Result<(), Fail> {
    let outputs = outputs_of_own_ram8(rt.alloc())?;
    holds(&rt, "own RAM8", outputs == [0, 1, 1]);
    Ok(())
}
