//! A search of a graph: an order of its bits, or a bit of a circle. What it finds are proposals, by which those who ask come to an answer
//! at once: nothing rests on them.

use crate::bundle::Bundle;
use crate::hops::BitOf;
use crate::joint::Joint;
use crate::ranks::Ranks;
use indexmap::IndexSet;
use std::alloc::{AllocError, Global};

/// The bits of a graph by number, and after them its bundles; for each the numbers to which it leads. A bit leads into bundles, and a bundle
/// to bits.
pub(crate) struct Numbered<'a> {
    bits: IndexSet<BitOf<'a>>,
    leads_to: Vec<Vec<usize>>,
    steps: usize,
}

// By hand, so that whoever drops one calls this.
impl Drop for Numbered<'_> {
    fn drop(self) {
        let Numbered {
            bits: _,
            leads_to: _,
            steps: _,
        } = self;
    }
}

/// What a search of all bits finds: ranks, which rise along each hop where there is no circle, and else a bit of one.
pub(crate) struct Proposal<'a> {
    pub ranks: Ranks<'a>,
    pub circle: Option<BitOf<'a>>,
}

// By hand, so that whoever drops one calls this.
impl Drop for Proposal<'_> {
    fn drop(self) {
        let Proposal {
            ranks: _,
            circle: _,
        } = self;
    }
}

#[derive(Clone, Copy, PartialEq, Eq)]
enum Stage {
    New,
    Open,
    Done(u32),
}

/// A bit or bundle on the path of a search, and how many of the steps that leave it are looked at.
#[derive(Clone, Copy)]
struct Visit {
    at: usize,
    looked: usize,
}

impl<'a> Numbered<'a> {
    /// Numbers the bits outside these joints.
    fn number(&mut self, alloc: Global, joints: &[Joint<'a>]) -> Result<(), AllocError> {
        for joint in joints {
            match self.bits.insert_full(joint.net) {
                Err(_) => return Err(AllocError),
                Ok((_, new)) => {
                    if new {
                        self.leads_to.push(Vec::new(alloc))?;
                    }
                }
            }
        }
        Ok(())
    }

    fn add_step(&mut self, from: usize, to: usize) -> Result<(), AllocError> {
        if let Some(steps) = self.leads_to.get_mut(from) {
            steps.push(to)?;
            self.steps = self.steps.saturating_add(1);
        }
        Ok(())
    }

    /// Adds a bundle, whose bits have their numbers.
    fn add(&mut self, alloc: Global, bundle: &Bundle<'a>) -> Result<(), AllocError> {
        let own = self.leads_to.len();
        self.leads_to.push(Vec::new(alloc))?;
        for enter in bundle.enters.as_slice() {
            if let Some(from) = self.bits.get_index_of(&enter.net) {
                self.add_step(from, own)?;
            }
        }
        for leave in bundle.leaves.as_slice() {
            if let Some(to) = self.bits.get_index_of(&leave.net) {
                self.add_step(own, to)?;
            }
        }
        Ok(())
    }

    pub(crate) fn new(alloc: Global, graph: &[Bundle<'a>]) -> Result<Numbered<'a>, AllocError> {
        let mut numbered = Numbered {
            bits: IndexSet::new(alloc),
            leads_to: Vec::new(alloc),
            steps: 0,
        };
        for bundle in graph {
            numbered.number(alloc, bundle.enters.as_slice())?;
            numbered.number(alloc, bundle.leaves.as_slice())?;
        }
        for bundle in graph {
            numbered.add(alloc, bundle)?;
        }
        Ok(numbered)
    }

    /// Where step k of those that leave a bit or bundle leads.
    fn step(&self, at: usize, k: usize) -> Option<usize> {
        self.leads_to.get(at)?.get(k).copied()
    }

    /// More than the turns that a search takes.
    fn turns(&self) -> usize {
        self.leads_to
            .len()
            .saturating_add(self.steps)
            .saturating_mul(2)
            .saturating_add(2)
    }

    /// Of a bit or bundle on the path a bit on the path.
    fn bit_on(&self, stages: &[Stage], at: usize) -> usize {
        if at < self.bits.len() {
            return at;
        }
        for k in 0..self.leads_to.len() {
            match self.step(at, k) {
                None => break,
                Some(to) => {
                    if stages.get(to).copied() == Some(Stage::Open) {
                        return to;
                    }
                }
            }
        }
        at
    }

    /// Looks at all that is reached from a bit, depth first; a bit of a circle, if one is met.
    fn search(
        &self,
        alloc: Global,
        stages: &mut Vec<Stage>,
        done: &mut u32,
        root: usize,
    ) -> Result<Option<usize>, AllocError> {
        let mut path: Vec<Visit> = Vec::new(alloc);
        path.push(Visit {
            at: root,
            looked: 0,
        })?;
        note(stages, root, Stage::Open);
        for _ in 0..self.turns() {
            let Some(Visit { at, looked }) = path.pop() else {
                break;
            };
            match self.step(at, looked) {
                None => {
                    *done = done.saturating_add(1);
                    note(stages, at, Stage::Done(*done));
                }
                Some(to) => {
                    path.push(Visit {
                        at,
                        looked: looked.saturating_add(1),
                    })?;
                    match stages.get(to).copied() {
                        Some(Stage::New) => {
                            path.push(Visit { at: to, looked: 0 })?;
                            note(stages, to, Stage::Open);
                        }
                        Some(Stage::Open) => return Ok(Some(self.bit_on(stages, to))),
                        _ => {}
                    }
                }
            }
        }
        Ok(None)
    }

    /// The ranks of bits that are done: those that were done last are lowest.
    fn ranks(&self, alloc: Global, stages: &[Stage]) -> Result<Ranks<'a>, AllocError> {
        let mut ranks = Ranks::new(alloc);
        for (bit, stage) in self.bits.iter().zip(stages.iter()) {
            if let Stage::Done(place) = stage {
                ranks.set(*bit, u32::MAX - *place)?;
            }
        }
        Ok(ranks)
    }

    /// Ranks of the bits, or a bit of a circle.
    pub(crate) fn arrange(&self, alloc: Global) -> Result<Proposal<'a>, AllocError> {
        let n = self.leads_to.len();
        let mut stages = vec![in alloc; Stage::New; n]?;
        let mut done: u32 = 0;
        let mut circle = None;
        for root in 0..self.bits.len() {
            if stages.get(root).copied() == Some(Stage::New) {
                if let Some(bit) = self.search(alloc, &mut stages, &mut done, root)? {
                    circle = self.bits.get_index(bit).copied();
                    break;
                }
            }
        }
        let ranks = self.ranks(alloc, stages.as_slice())?;
        Ok(Proposal { ranks, circle })
    }
}

fn note(stages: &mut Vec<Stage>, at: usize, stage: Stage) {
    if let Some(old) = stages.get_mut(at) {
        *old = stage;
    }
}
