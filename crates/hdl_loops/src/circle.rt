//! A circle of a chip's own graph.

ghost use Rattle.std.specs.Prelude.{IfOk, MatchOption};
ghost use Rattle.hdl_plans.specs.Ways.{Way};
ghost use Rattle.hdl_loops.specs.declared.joint.Joint.{Joint};
ghost use Rattle.hdl_loops.specs.Inner.Hops.{bit, HasHop, IsRound, NoRound};
ghost use Rattle.hdl_loops.specs.Inner.Bundles.{AreDoors, hops_in};
ghost use Rattle.hdl_loops.specs.Inner.Ties.{In};

use crate::bundle::Bundle;
use crate::doors::Doors;
use crate::hops::{BitOf, Hop};
use crate::joint::Joint;
use crate::search::Numbered;
use crate::tree::Tree;
use std::alloc::{AllocError, Global};

/// A bit, and a way round to it.
#[derive(Drop)]
pub struct Circle<'a> {
    pub at: BitOf<'a>,
    pub way: Vec<Hop<'a>>,
}

/// A way round to this bit, if there is one.
fn circle_at<'a>(
    alloc: Global,
    graph: &[Bundle<'a>],
    doors: &Doors<'a>,
    at: BitOf<'a>,
) -> Result<Option<Circle<'a>>, AllocError>
    requires { AreDoors graph.now doors.now }
    ensures { IfOk result (λ r. MatchOption r
        (Way (HasHop (hops_in graph.now)) (bit at.entry) (bit at.entry) → ⊥)
        (IsRound (hops_in graph.now))) }
{
    let tree = Tree::of(alloc, graph, doors, at)?;
    match tree.way_to(alloc, graph, &at)? {
        None => Ok(None),
        Some(way) => Ok(Some(Circle { at, way })),
    }
}

/// A circle, looked for from each bit outside these joints.
fn circle_by<'a>(
    alloc: Global,
    graph: &[Bundle<'a>],
    doors: &Doors<'a>,
    enters: &[Joint<'a>],
) -> Result<Option<Circle<'a>>, AllocError>
    requires { AreDoors graph.now doors.now }
    ensures { IfOk result (λ r. MatchOption r ((e : Joint) → In e enters.now
        → Way (HasHop (hops_in graph.now)) (bit e.net) (bit e.net) → ⊥)
        (IsRound (hops_in graph.now))) }
{
    for enter in enters {
        if let Some(circle) = circle_at(alloc, graph, doors, enter.net)? {
            return Ok(Some(circle));
        }
    }
    Ok(None)
}

/// A circle, looked for from each bit.
fn circle_anywhere<'a>(
    alloc: Global,
    graph: &[Bundle<'a>],
    doors: &Doors<'a>,
) -> Result<Option<Circle<'a>>, AllocError>
    requires { AreDoors graph.now doors.now }
    ensures { IfOk result
        (λ r. MatchOption r (NoRound (hops_in graph.now)) (IsRound (hops_in graph.now))) }
{
    for bundle in graph {
        if let Some(circle) = circle_by(alloc, graph, doors, bundle.enters.as_slice())? {
            return Ok(Some(circle));
        }
    }
    Ok(None)
}

/// A circle, looked for first from this bit.
fn circle_near<'a>(
    alloc: Global,
    graph: &[Bundle<'a>],
    near: Option<BitOf<'a>>,
) -> Result<Option<Circle<'a>>, AllocError>
    ensures { IfOk result
        (λ r. MatchOption r (NoRound (hops_in graph.now)) (IsRound (hops_in graph.now))) }
{
    let doors = Doors::of(alloc, graph)?;
    if let Some(at) = near {
        if let Some(circle) = circle_at(alloc, graph, &doors, at)? {
            return Ok(Some(circle));
        }
    }
    circle_anywhere(alloc, graph, &doors)
}

/// A circle, if there is one. A search proposes ranks, or a bit of a circle; whatever it proposes, the answer is right.
pub(crate) fn circle_in<'a>(
    alloc: Global,
    graph: &[Bundle<'a>],
) -> Result<Option<Circle<'a>>, AllocError>
    ensures { IfOk result
        (λ r. MatchOption r (NoRound (hops_in graph.now)) (IsRound (hops_in graph.now))) }
{
    let proposal = Numbered::new(alloc, graph)?.arrange(alloc)?;
    if proposal.ranks.all_rise(graph) {
        return Ok(None);
    }
    circle_near(alloc, graph, proposal.circle)
}
