//! The own graph of a chip: the hops between the bits of its nets and pins, each through a part.

ghost use Rattle.std.specs.Prelude.{◌≡◌, ◌<◌, ℕ, OnOk, IfOk, MatchOption, length};
ghost use Rattle.hdl_check.specs.Whole.{chips_in};
ghost use Rattle.hdl_loops.specs.Inner.Bundles.{hops_in};
ghost use Rattle.hdl_loops.specs.Inner.Leaving.{IsLinked};
ghost use Rattle.hdl_loops.specs.Inner.Ties.{tie_of, ties_of, gather, HasSides};
ghost use Rattle.hdl_loops.specs.Inner.Knowing.{ArePlaces, leads_through, leaps_between, leaps_through, part_leaps, through_pair, outputs_of, KnownAs, IsBy, AreEnters, AddsEnters, BundlesLast, AreLeaps, AddsOnly, AddsLeaps};

use crate::bundle::Bundle;
use crate::find::is_end;
use crate::joint::{Joint, joints_of};
use crate::known::{Known, crosses};
use crate::leaving::Leaving;
use crate::pairs::Pair;
use crate::pins::{Sides, add_if, joints_at, sides_of};
use crate::places::{Places, pins_at, place};
use hdl_tree::{Entry, Memories, Part};
use std::alloc::{AllocError, Global};

/// Whether a way goes in by one joint and out by another, through the part's chip.
fn goes_through<'a>(
    entries: &[Entry],
    memories: Memories,
    known: &[Option<Known<'a>>],
    chip: usize,
    enter: &Joint<'a>,
    leave: &Joint<'a>,
) -> bool
    requires { chip < length entries.now }
    ensures { result
        ≡ leads_through (chips_in entries.now memories) known.now chip (tie_of enter.now)
        (tie_of leave.now) }
{
    enter.input && !leave.input && crosses(entries, memories, known, chip, &enter.pin, &leave.pin)
}

/// Adds those of some joints from which a way leads through the part's chip and out by this one.
fn add_enters<'a>(
    entries: &[Entry],
    memories: Memories,
    known: &[Option<Known<'a>>],
    chip: usize,
    some: &[Joint<'a>],
    leave: &Joint<'a>,
    enters: &mut Vec<Joint<'a>>,
) -> Result<(), AllocError>
    requires { chip < length entries.now }
    ensures { OnOk result (AddsEnters (chips_in entries.now memories) known.now chip some.now
        leave.now enters.old.items enters.new.items) }
{
    for enter in some {
        let leads = goes_through(entries, memories, known, chip, enter, leave);
        add_if(enter, leads, enters)?;
    }
    Ok(())
}

/// The pair of an input bit and an output bit.
fn through_pair<'a>(turned: bool, found: &Pair<'a>) -> Pair<'a>
    ensures { result ≡ through_pair turned found.now }
{
    if turned {
        Pair {
            from: found.to,
            to: found.from,
        }
    } else {
        *found
    }
}

/// How those joints are found: by the pairs of the part's chip, and where each output bit stands among them, or by a look at all.
#[derive(Drop)]
pub enum By<'k, 'a> {
    Pairs(&'k Known<'a>, Leaving<'a>),
    Joints,
}

/// Where each output bit stands among the pairs of a chip.
fn outputs_of<'a>(alloc: Global, inside: &Known<'a>) -> Result<Leaving<'a>, AllocError>
    ensures { IfOk result (IsLinked (outputs_of inside.now)) }
{
    let mut outputs = Leaving::new(alloc);
    let pairs = inside.pairs.as_slice();
    for found in pairs {
        let pair = through_pair(inside.turned, found);
        outputs.add(pair.to)?;
    }
    Ok(outputs)
}

/// What is known of the chip, if it has fewer pairs than this many joints.
fn few_pairs<'k, 'a>(
    entries: &[Entry],
    memories: Memories,
    known: &'k [Option<Known<'a>>],
    chip: usize,
    joints: usize,
) -> Option<&'k Known<'a>>
    requires { chip < length entries.now }
    ensures { MatchOption result (Unit {0})
        (λ inside. KnownAs (chips_in entries.now memories) known.now chip inside.now) }
{
    if is_end(entries, memories, chip) {
        return None;
    }
    match known.get(chip) {
        Some(Some(inside)) => {
            if inside.pairs.len() < joints.saturating_mul(joints) {
                Some(inside)
            } else {
                None
            }
        }
        _ => None,
    }
}

/// By what the joints of a part are found: by the pairs of its chip, if they are fewer than those of this many joints.
fn by_of<'k, 'a>(
    alloc: Global,
    entries: &[Entry],
    memories: Memories,
    known: &'k [Option<Known<'a>>],
    chip: usize,
    joints: usize,
) -> Result<By<'k, 'a>, AllocError>
    requires { chip < length entries.now }
    ensures { IfOk result (IsBy (chips_in entries.now memories) known.now chip) }
{
    match few_pairs(entries, memories, known, chip, joints) {
        None => Ok(By::Joints),
        Some(inside) => {
            let outputs = outputs_of(alloc, inside)?;
            Ok(By::Pairs(inside, outputs))
        }
    }
}

/// The joints from which a way leads through the part's chip and out by this one, by the pairs of the chip.
fn enters_by_pairs<'a>(
    alloc: Global,
    entries: &[Entry],
    memories: Memories,
    known: &[Option<Known<'a>>],
    chip: usize,
    inside: &Known<'a>,
    outputs: &Leaving<'a>,
    sides: &Sides<'a>,
    leave: &Joint<'a>,
) -> Result<Vec<Joint<'a>>, AllocError>
    requires there { chip < length entries.now }
    requires inside { KnownAs (chips_in entries.now memories) known.now chip inside.now }
    requires outputs { IsLinked (outputs_of inside.now) outputs.now }
    requires sides { HasSides sides.now }
    ensures { IfOk result (λ v. AreEnters (chips_in entries.now memories) known.now chip
        sides.now.enters.items leave.now v.items) }
{
    let pairs = inside.pairs.as_slice();
    let mut enters = Vec::new(alloc);
    let mut at = outputs.last(&leave.pin);
    while let Some(k) = at {
        let pair = through_pair(inside.turned, &pairs[k]);
        let some = joints_at(alloc, &sides.enters, &sides.enters_at, &pair.from)?;
        let list = some.as_slice();
        add_enters(entries, memories, known, chip, list, leave, &mut enters)?;
        at = outputs.before(k);
    }
    enters.reverse();
    Ok(enters)
}

/// The joints from which a way leads through the part's chip and out by this one.
fn enters_of<'a>(
    alloc: Global,
    entries: &[Entry],
    memories: Memories,
    known: &[Option<Known<'a>>],
    chip: usize,
    by: &By<'_, 'a>,
    sides: &Sides<'a>,
    leave: &Joint<'a>,
) -> Result<Vec<Joint<'a>>, AllocError>
    requires there { chip < length entries.now }
    requires by { IsBy (chips_in entries.now memories) known.now chip by.now }
    requires sides { HasSides sides.now }
    ensures { IfOk result (λ v. AreEnters (chips_in entries.now memories) known.now chip
        sides.now.enters.items leave.now v.items) }
{
    match by {
        By::Pairs(inside, outputs) => enters_by_pairs(
            alloc, entries, memories, known, chip, inside, outputs, sides, leave,
        ),
        By::Joints => {
            let mut enters = Vec::new(alloc);
            let all = sides.enters.as_slice();
            add_enters(entries, memories, known, chip, all, leave, &mut enters)?;
            Ok(enters)
        }
    }
}

/// The joints in no more memory than they take.
fn fitted<'a>(joints: Vec<Joint<'a>>) -> Vec<Joint<'a>>
    ensures { result.items ≡ joints.entry.items }
{
    let mut joints = joints;
    joints.shrink_to_fit();
    joints
}

/// Adds the bundle of an output bit, if place k is its last among the joints that go out.
fn add_bundle<'a>(
    alloc: Global,
    entries: &[Entry],
    memories: Memories,
    known: &[Option<Known<'a>>],
    chip: usize,
    by: &By<'_, 'a>,
    sides: &Sides<'a>,
    k: usize,
    graph: &mut Vec<Bundle<'a>>,
) -> Result<(), AllocError>
    requires there { chip < length entries.now }
    requires place { k < length sides.now.leaves.items }
    requires by { IsBy (chips_in entries.now memories) known.now chip by.now }
    requires sides { HasSides sides.now }
    ensures right { OnOk result (AddsOnly (hops_in graph.old.items) (hops_in graph.new.items)
        (leaps_between (chips_in entries.now memories) known.now chip
        (ties_of sides.now.enters.items) (ties_of sides.now.leaves.items))) }
    ensures there { OnOk result (BundlesLast (chips_in entries.now memories) known.now chip
        sides.now (hops_in graph.new.items) k) }
{
    let leave = &sides.leaves[k];
    match sides.leaves_at.last(&leave.pin) {
        None => return Ok(()),
        Some(last) => {
            if last != k {
                return Ok(());
            }
        }
    }
    let enters = enters_of(alloc, entries, memories, known, chip, by, sides, leave)?;
    if enters.is_empty() {
        return Ok(());
    }
    let leaves = joints_at(alloc, &sides.leaves, &sides.leaves_at, &leave.pin)?;
    graph.push(Bundle {
        chip,
        enters: fitted(enters),
        leaves: fitted(leaves),
    })?;
    Ok(())
}

/// Adds the bundles of the output bits of a part with these sides.
fn add_bundles<'a>(
    alloc: Global,
    entries: &[Entry],
    memories: Memories,
    known: &[Option<Known<'a>>],
    chip: usize,
    by: &By<'_, 'a>,
    sides: &Sides<'a>,
    graph: &mut Vec<Bundle<'a>>,
) -> Result<(), AllocError>
    requires there { chip < length entries.now }
    requires by { IsBy (chips_in entries.now memories) known.now chip by.now }
    requires sides { HasSides sides.now }
    ensures right { OnOk result (AddsOnly (hops_in graph.old.items) (hops_in graph.new.items)
        (leaps_between (chips_in entries.now memories) known.now chip
        (ties_of sides.now.enters.items) (ties_of sides.now.leaves.items))) }
    ensures there { OnOk result ((k : ℕ) → k < length sides.now.leaves.items
        → BundlesLast (chips_in entries.now memories) known.now chip sides.now
        (hops_in graph.new.items) k) }
{
    for k in 0..sides.leaves.len() {
        add_bundle(alloc, entries, memories, known, chip, by, sides, k, graph)?;
    }
    Ok(())
}

/// Adds the hops through a part with these joints: a bundle for each output bit.
fn hops_through<'a>(
    alloc: Global,
    entries: &[Entry],
    memories: Memories,
    known: &[Option<Known<'a>>],
    chip: usize,
    joints: &[Joint<'a>],
    graph: &mut Vec<Bundle<'a>>,
) -> Result<(), AllocError>
    requires { chip < length entries.now }
    ensures { OnOk result (AddsLeaps (hops_in graph.old.items) (hops_in graph.new.items)
        (leaps_through (chips_in entries.now memories) known.now chip (ties_of joints.now))) }
{
    let by = by_of(alloc, entries, memories, known, chip, joints.len())?;
    let sides = sides_of(alloc, joints)?;
    add_bundles(alloc, entries, memories, known, chip, &by, &sides, graph)?;
    Ok(())
}

/// Adds the hops through a part, if there is its chip.
fn hops_of_part<'a>(
    alloc: Global,
    entries: &[Entry],
    places: &Places<'a>,
    memories: Memories,
    known: &[Option<Known<'a>>],
    part: &'a Part,
    graph: &mut Vec<Bundle<'a>>,
) -> Result<(), AllocError>
    requires { ArePlaces places.now entries.now }
    ensures { OnOk result (AddsLeaps (hops_in graph.old.items) (hops_in graph.new.items)
        (part_leaps (chips_in entries.now memories) known.now part.now)) }
{
    match place(places, part.chip.as_bytes()) {
        None => Ok(()),
        Some(k) => {
            let joints = joints_of(alloc, pins_at(places, k), part)?;
            let list = joints.as_slice();
            hops_through(alloc, entries, memories, known, k, list, graph)?;
            Ok(())
        }
    }
}

/// The own graph of a chip with these parts.
pub(crate) fn graph_of<'a>(
    alloc: Global,
    entries: &[Entry],
    places: &Places<'a>,
    memories: Memories,
    known: &[Option<Known<'a>>],
    parts: &'a [Part],
) -> Result<Vec<Bundle<'a>>, AllocError>
    requires { ArePlaces places.now entries.now }
    ensures { IfOk result (λ v. AreLeaps (hops_in v.items)
        (gather (part_leaps (chips_in entries.now memories) known.now) parts.now)) }
{
    let mut graph = Vec::new(alloc);
    for part in parts {
        hops_of_part(alloc, entries, places, memories, known, part, &mut graph)?;
    }
    Ok(graph)
}
