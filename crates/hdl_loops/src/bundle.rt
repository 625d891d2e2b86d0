//! Hops in bundles. What leads to one output bit of a part leads to each net that it drives, so that a list of the ones and a list of the
//! others say all hops between them.

ghost use Rattle.std.specs.Prelude.{◌≡◌};
ghost use Rattle.hdl_loops.specs.Inner.Bundles.{hop_by};

use crate::hops::{Dependency, Hop};
use crate::joint::Joint;

/// The hops that go into a part, whose chip stands in this place of the library, by one of these joints, and out by one of those.
#[derive(Drop)]
pub struct Bundle<'a> {
    pub chip: usize,
    pub enters: Vec<Joint<'a>>,
    pub leaves: Vec<Joint<'a>>,
}

/// The hop that goes in by one joint and out by another.
pub(crate) fn hop_by<'a>(chip: usize, enter: &Joint<'a>, leave: &Joint<'a>) -> Hop<'a>
    ensures { result ≡ hop_by chip enter.now leave.now }
{
    Hop {
        from: enter.net,
        chip,
        through: Dependency {
            input: enter.pin.name,
            bit: enter.pin.bit,
            output: leave.pin.name,
            out: leave.pin.bit,
        },
        to: leave.net,
    }
}
