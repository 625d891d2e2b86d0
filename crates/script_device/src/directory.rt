//! What of a chip has a name.

use hdl_tree::{List, Name};

/// A pin, with the nodes of its bits, the lowest first.
#[derive(Drop)]
pub struct PinNodes {
    pub name: Name,
    pub nodes: List<u32>,
}

/// A part: its chip, the nodes of its pin `out`, the lowest first, and its block, where it has them.
#[derive(Drop)]
pub struct PartNodes {
    pub chip: Name,
    pub out: Option<List<u32>>,
    pub block: Option<u32>,
}

/// The pins of a chip, and the parts in it, depth first in text order; of each chip only the first need be there.
pub struct Directory {
    pub inputs: List<PinNodes>,
    pub outputs: List<PinNodes>,
    pub parts: List<PartNodes>,
}

// By hand, so that whoever drops one calls this.
impl Drop for Directory {
    fn drop(self) {
        let Directory {
            inputs: _,
            outputs: _,
            parts: _,
        } = self;
    }
}
