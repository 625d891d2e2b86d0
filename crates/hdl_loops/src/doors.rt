//! Which joints lead from each bit into the bundles of a graph.

ghost use Rattle.std.specs.Prelude.{◌≡◌, ◌<◌, ℕ, List, Some, OnOk, IfOk, length, slice_get};
ghost use Rattle.hdl_loops.specs.declared.bundle.Bundle.{Bundle};
ghost use Rattle.hdl_loops.specs.declared.joint.Joint.{Joint};
ghost use Rattle.hdl_loops.specs.Inner.Bundles.{AreRight, AreDoors, HasDoor, KeepsDoors, EntersAt};

use crate::bundle::Bundle;
use crate::hops::BitOf;
use crate::leaving::Leaving;
use std::alloc::{AllocError, Global};

/// The place of a bundle in a graph, and the place in it of a joint by which its hops go in.
#[derive(Clone, Copy)]
pub struct Door {
    pub bundle: usize,
    pub enter: usize,
}

/// The doors of a graph, and those that leave each bit.
#[derive(Drop)]
pub struct Doors<'a> {
    pub leaving: Leaving<'a>,
    pub doors: Vec<Door>,
}

impl<'a> Doors<'a> {
    fn new(alloc: Global) -> Doors<'a>
        ensures { (graph : List Bundle) → AreRight graph result }
    {
        Doors {
            leaving: Leaving::new(alloc),
            doors: Vec::new(alloc),
        }
    }

    /// Adds the door of joint j of bundle g, which leaves this bit.
    fn add(
        &mut self,
        graph: &[Bundle<'a>],
        g: usize,
        j: usize,
        net: BitOf<'a>,
    ) -> Result<(), AllocError>
        requires right { AreRight graph.now self.old }
        requires there { EntersAt graph.now g j net }
        ensures right { OnOk result (AreRight graph.now self.new) }
        ensures kept { OnOk result (KeepsDoors self.old self.new) }
        ensures there { OnOk result (HasDoor self.new g j) }
    {
        self.leaving.add(net)?;
        self.doors.push(Door {
            bundle: g,
            enter: j,
        })?;
        Ok(())
    }

    /// Adds the doors of bundle g.
    fn add_bundle(&mut self, graph: &[Bundle<'a>], g: usize) -> Result<(), AllocError>
        requires there { g < length graph.now }
        requires right { AreRight graph.now self.old }
        ensures right { OnOk result (AreRight graph.now self.new) }
        ensures kept { OnOk result (KeepsDoors self.old self.new) }
        ensures there { OnOk result ((j : ℕ) (b : Bundle) (e : Joint) → slice_get graph.now g ≡ Some b
            → slice_get b.enters.items j ≡ Some e → HasDoor self.new g j) }
    {
        let enters = graph[g].enters.as_slice();
        for j in 0..enters.len() {
            self.add(graph, g, j, enters[j].net)?;
        }
        Ok(())
    }

    /// The doors of a graph.
    pub(crate) fn of(alloc: Global, graph: &[Bundle<'a>]) -> Result<Doors<'a>, AllocError>
        ensures { IfOk result (λ doors. AreDoors graph.now doors) }
    {
        let mut doors = Doors::new(alloc);
        for g in 0..graph.len() {
            doors.add_bundle(graph, g)?;
        }
        Ok(doors)
    }
}
