//! A chip with each kind of connection.

ghost use Rattle.std.specs.Prelude.{◌≡◌, ◌<◌, Some, length, slice_get};
ghost use Rattle.std.specs.List.{All};
ghost use Rattle.netlist.specs.declared.node.Node.TheVariants.{Pin};

use crate::bench::{Bench, put_on_bench};
use crate::checks::holds;
use crate::chips::library_with;
use hdl_tree::Memories;
use std::test::*;

// Bits of pins at the left and at the right, one or several; constants at one bit, at several, and at all of a pin. Inputs that nothing feeds
// and outputs that nothing reads; an output that goes to several places. Nets of one bit and of several; bits of an output that nothing
// drives.
const WIRED: &[u8] =
    b"CHIP Wired { IN a, b[3], c[4]; OUT inverted[16], some[3], one, chosen, bits[4], low, sum[16], any;
    PARTS:
    Not16(in[0..2]=b, in[4..7]=c, in[8..9]=true, in[15]=a, out=inverted, out[0..2]=some, out[15]=one);
    Mux(a=false, b=true, sel=c[2], out=chosen);
    And(a=b[2], b=c[0], out=bits[0]);
    Or(a=a, b=b[0], out=bits[3]);
    Not(in=a, out=not_a);
    Add16(a[0..2]=b, a[15]=not_a, b[0..1]=c[1..2], b[2..14]=false, out=sum, out[0..3]=part, out[0]=low);
    Or8Way(in[0..3]=part, in[4]=a, out=any);
    And16(a=true, b[5]=c[3]);
    }";

// The outputs of the chip at these inputs, by its table.
fn outputs_at(inputs: u64) -> u64 {
    let a = inputs % 2;
    let b = inputs / 2 % 8;
    let c = inputs / 16 % 16;
    let inverted = 65535 - (b + c * 16 + 768 + a * 32768);
    let bits = b / 4 * (c % 2) + 8 * a.max(b % 2);
    let sum = b + (1 - a) * 32768 + c / 2 % 4;
    let any = a.max((sum % 16).min(1));
    inverted
        + 65536 * (7 - b)
        + 524288 * (1 - a)
        + 1048576 * (c / 4 % 2)
        + 2097152 * bits
        + 33554432 * (sum % 2)
        + 67108864 * sum
        + 4398046511104 * any
}

// Whether the chip gives the outputs of its table at all inputs.
fn follows_its_table(chip: &mut Bench) -> bool
    requires pins { All
        (λ node. slice_get chip.old.sim.net.nodes node ≡ Some Pin) chip.old.inputs.items }
    requires there { All (λ node. node < length chip.old.sim.net.nodes) chip.old.outputs.items }
{
    for inputs in 0..256 {
        if chip.try_inputs(inputs) != outputs_at(inputs) {
            return false;
        }
    }
    true
}

#[test]
fn each_kind(rt: HostRuntime) -> Result<(), Fail> {
    let alloc = rt.alloc();
    let library = library_with(alloc, &[WIRED])?;
    let mut chip = put_on_bench(alloc, &library, b"Wired", Memories::Gates)?;
    holds(&rt, "Wired", follows_its_table(&mut chip));
    Ok(())
}
