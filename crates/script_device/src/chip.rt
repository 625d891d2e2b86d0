//! A chip that a script drives.

ghost use Rattle.std.specs.Prelude.{◌≡◌, true};
ghost use Rattle.script_device.specs.Directory.{AreSizes, OfNamed, named_of};
ghost use Rattle.script_device.specs.Simulated.{IsSeen, net_of};
ghost use Rattle.script_device.specs.Inner.Numbers.{AreTables};
ghost use Rattle.script_device.specs.Inner.Wanted.{keeps_wanted};

use crate::chip_sim::ChipSim;
use crate::directory::Directory;
use crate::tables::Tables;

/// A chip that a script drives: its simulator, its time, and what has a name.
pub struct DrivenChip {
    pub(crate) sim: ChipSim,
    pub(crate) sizes: Vec<u32>,
    pub(crate) cycle: u64,
    pub(crate) ticked: bool,
    pub(crate) directory: Directory,
    pub(crate) tables: Tables,
    ghost sized: { AreSizes sizes.items (net_of sim.frame) },
    ghost named: { OfNamed (IsSeen sim.frame) directory },
    ghost tabled: { AreTables tables directory },
    ghost wanted: { keeps_wanted (named_of directory) sim.frame.whole ≡ true },
}

// By hand, so that whoever drops one calls this.
impl Drop for DrivenChip {
    fn drop(self) {
        let DrivenChip {
            sim: _,
            sizes: _,
            cycle: _,
            ticked: _,
            directory: _,
            tables: _,
        } = self;
    }
}
