//! Where each bit stands in a list: the last place by the bit, and by each place the one before it of the same bit.

ghost use Rattle.std.specs.Prelude.{◌≡◌, ◌<◌, ◌++◌, ◌∷◌, [], List, Some, OnOk, length, slice_get};
ghost use Rattle.hdl_loops.specs.declared.hops.BitOf.{BitOf};
ghost use Rattle.hdl_loops.specs.Inner.Hops.{bit};
ghost use Rattle.hdl_loops.specs.Inner.Leaving.{latest_from, IsLinked};

use crate::hops::BitOf;
use indexmap::IndexMap;
use std::alloc::{AllocError, Global};

/// The places of each bit of a list, which stands elsewhere.
#[derive(Drop)]
pub struct Leaving<'a> {
    latest: IndexMap<BitOf<'a>, usize>,
    before: Vec<Option<usize>>,
}

impl<'a> Leaving<'a> {
    /// Those of a list of nothing.
    pub(crate) fn new(alloc: Global) -> Leaving<'a>
        ensures { IsLinked [] result }
    {
        Leaving {
            latest: IndexMap::new(alloc),
            before: Vec::new(alloc),
        }
    }

    /// Enters one more bit of the list.
    pub(crate) fn add(&mut self, from: BitOf<'a>) -> Result<(), AllocError>
        ensures { OnOk result ((bits : List BitOf) → IsLinked bits self.old
            → IsLinked (bits ++ from.entry ∷ []) self.new) }
    {
        let k = self.before.len();
        match self.latest.insert(from, k) {
            Err(_) => Err(AllocError),
            Ok(before) => {
                self.before.push(before)?;
                Ok(())
            }
        }
    }

    /// The last place of this bit.
    pub(crate) fn last(&self, from: &BitOf<'a>) -> Option<usize>
        ensures { result ≡ latest_from self.now (bit from.now) }
    {
        self.latest.get(from).copied()
    }

    /// The last of those before place k that have the same bit.
    pub(crate) fn before(&self, k: usize) -> Option<usize>
        requires { k < length self.now.before.items }
        ensures { slice_get self.now.before.items k ≡ Some result }
    {
        self.before[k]
    }
}
