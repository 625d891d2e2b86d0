//! What shows that there is no circle.

ghost use Rattle.std.specs.Prelude.{◌≡◌, true, MatchOption};
ghost use Rattle.hdl_loops.specs.Inner.Hops.{bit};
ghost use Rattle.hdl_loops.specs.Inner.Bundles.{hops_in};
ghost use Rattle.hdl_loops.specs.Inner.Ranked.{rank_at, AreUpTo, AreAbove, BundleRises, AllRise};

use crate::bundle::Bundle;
use crate::hops::BitOf;
use crate::joint::Joint;
use indexmap::IndexMap;
use std::alloc::{AllocError, Global};

/// The ranks of bits.
#[derive(Drop)]
pub struct Ranks<'a> {
    ranks: IndexMap<BitOf<'a>, u32>,
}

impl<'a> Ranks<'a> {
    pub(crate) fn new(alloc: Global) -> Ranks<'a> {
        Ranks {
            ranks: IndexMap::new(alloc),
        }
    }

    pub(crate) fn set(&mut self, of: BitOf<'a>, rank: u32) -> Result<(), AllocError> {
        match self.ranks.insert(of, rank) {
            Ok(_) => Ok(()),
            Err(_) => Err(AllocError),
        }
    }

    fn rank(&self, of: &BitOf<'a>) -> Option<u32>
        ensures { result ≡ rank_at self.now (bit of.now) }
    {
        self.ranks.get(of).copied()
    }

    /// A rank that none of the bits outside these joints is above, if each has one.
    fn highest(&self, joints: &[Joint<'a>]) -> Option<u32>
        ensures { MatchOption result (Unit {0}) (AreUpTo self.now joints.now) }
    {
        let mut highest = 0;
        for joint in joints {
            let rank = self.rank(&joint.net)?;
            if highest < rank {
                highest = rank;
            }
        }
        Some(highest)
    }

    /// Whether the bits outside these joints are all above a rank.
    fn are_above(&self, rank: u32, joints: &[Joint<'a>]) -> bool
        ensures { result ≡ true → AreAbove self.now joints.now rank }
    {
        for joint in joints {
            match self.rank(&joint.net) {
                None => return false,
                Some(other) => {
                    if other <= rank {
                        return false;
                    }
                }
            }
        }
        true
    }

    /// Whether the ranks rise along each hop of a bundle.
    fn rise(&self, bundle: &Bundle<'a>) -> bool
        ensures { result ≡ true → BundleRises self.now bundle.now }
    {
        match self.highest(bundle.enters.as_slice()) {
            None => false,
            Some(highest) => self.are_above(highest, bundle.leaves.as_slice()),
        }
    }

    /// Whether the ranks rise along each hop.
    pub(crate) fn all_rise(&self, graph: &[Bundle<'a>]) -> bool
        ensures { result ≡ true → AllRise self.now (hops_in graph.now) }
    {
        for bundle in graph {
            if !self.rise(bundle) {
                return false;
            }
        }
        true
    }
}
