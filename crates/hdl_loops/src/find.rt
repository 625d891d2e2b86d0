//! A loop of a chip, found in the own graphs of the chips in it.

ghost use Rattle.std.specs.Prelude.{◌≡◌, ℕ, List, ◌+◌, ◌<◌, None, Some, true, OnOk, IfOk, MatchOption, is_some, length, slice_get};
ghost use Rattle.hdl_tree.specs.declared.library.Entry.{Entry};
ghost use Rattle.hdl_tree.specs.Chips.{end_of, find_chip, find_entry};
ghost use Rattle.hdl_tree.specs.Chips.{parts_of as parts_in};
ghost use Rattle.hdl_check.specs.Whole.{chips_in, TopIsFaultless};
ghost use Rattle.hdl_plans.specs.Loops.{IsLoop};
ghost use Rattle.hdl_plans.specs.Ways.{TreeFits};
ghost use Rattle.hdl_loops.specs.Inner.Hops.{NoRound};
ghost use Rattle.hdl_loops.specs.Inner.Bundles.{hops_in};
ghost use Rattle.hdl_loops.specs.Inner.Looked.{LooksRight, TellsLoop, EndsLook};
ghost use Rattle.hdl_loops.specs.Inner.Stacked.{IsStack, IsEntered, HasOnlyLast, weight};
ghost use Rattle.hdl_loops.specs.Inner.Knowing.{ArePlaces, AreHops, IsFull, AreKnown, IsKnown, IsDone, Notes, Nests, PartsDone, StaysKnown, KnowNothing, NestsAt, TreeClear};

use crate::bundle::Bundle;
use crate::circle::circle_in;
use crate::graph::graph_of;
use crate::known::{Known, known_of};
use crate::names::nets_of;
use crate::places::{Places, place, places_of};
use hdl_tree::{Body, Entry, Library, Memories, Name, Part, find_end};
use std::alloc::{AllocError, Global};

/// The parts of a chip; an end has none.
pub(crate) fn parts_of<'a>(memories: Memories, entry: &'a Entry) -> &'a [Part]
    ensures { (entries : List Entry) → result.now ≡ parts_in (chips_in entries memories) entry.now }
{
    if find_end(memories, entry).is_some() {
        return &[];
    }
    match &entry.chip.body {
        Body::Parts(parts) => parts.as_slice(),
        Body::Builtin(_, _) => &[],
    }
}

/// A chip that is looked at, how many of its parts are, and what chips nest in it less deep than.
#[derive(Clone, Copy)]
pub struct Frame {
    pub chip: usize,
    pub next: usize,
    pub depth: usize,
}

/// Whether chip k is an end.
pub(crate) fn is_end(entries: &[Entry], memories: Memories, k: usize) -> bool
    requires { k < length entries.now }
    ensures { (chip : Entry) → slice_get entries.now k ≡ Some chip
        → result ≡ is_some (end_of memories chip) }
{
    find_end(memories, &entries[k]).is_some()
}

/// What a look at one chip gives: what is known of it, or the nets of a loop.
#[derive(Drop)]
pub(crate) enum Look<'a> {
    Fine(Known<'a>),
    Loop(Vec<Name>),
}

/// The nets of a circle in the own graph of a chip, if it has one.
fn loop_in<'a>(
    alloc: Global,
    entries: &'a [Entry],
    memories: Memories,
    known: &[Option<Known<'a>>],
    entry: &'a Entry,
    graph: &[Bundle<'a>],
    depth: usize,
) -> Result<Option<Vec<Name>>, AllocError>
    requires known { AreKnown (chips_in entries.now memories) known.now }
    requires hops { AreHops (chips_in entries.now memories) known.now entry.now
        (hops_in graph.now) }
    requires full { IsFull (chips_in entries.now memories) entry.now (hops_in graph.now) }
    requires nests { Nests depth (chips_in entries.now memories) entry.now }
    ensures { IfOk result (λ r. MatchOption r (NoRound (hops_in graph.now))
        (λ nets. IsLoop (chips_in entries.now memories) entry.now nets.items)) }
{
    match circle_in(alloc, graph)? {
        None => Ok(None),
        Some(circle) => {
            let nets = nets_of(alloc, entries, memories, known, entry, &circle, depth)?;
            Ok(Some(nets))
        }
    }
}

/// Looks at a chip that is no end, after those of its parts.
fn look_at<'a>(
    alloc: Global,
    entries: &'a [Entry],
    places: &Places<'a>,
    memories: Memories,
    known: &[Option<Known<'a>>],
    entry: &'a Entry,
    depth: usize,
) -> Result<Look<'a>, AllocError>
    requires placed { ArePlaces places.now entries.now }
    requires no_end { end_of memories entry.now ≡ None }
    requires right { AreKnown (chips_in entries.now memories) known.now }
    requires done { PartsDone (chips_in entries.now memories) known.now entry.now }
    requires nests { Nests depth (chips_in entries.now memories) entry.now }
    ensures { IfOk result (LooksRight (chips_in entries.now memories) known.now entry.now) }
{
    let graph = graph_of(
        alloc,
        entries,
        places,
        memories,
        known,
        parts_of(memories, entry),
    )?;
    let list = graph.as_slice();
    match loop_in(alloc, entries, memories, known, entry, list, depth)? {
        Some(nets) => Ok(Look::Loop(nets)),
        None => {
            let inside = known_of(alloc, entry, graph)?;
            Ok(Look::Fine(inside))
        }
    }
}

fn is_known(known: &[Option<Known>], k: usize) -> bool
    requires { k < length known.now }
    ensures { result ≡ true → IsKnown known.now k }
{
    match &known[k] {
        None => false,
        Some(_inside) => true,
    }
}

/// Notes what is known of chip k, unless that is noted.
fn note<'a>(known: &mut [Option<Known<'a>>], k: usize, inside: Known<'a>)
    requires { k < length known.old }
    ensures { Notes known.old known.new k inside.entry }
{
    match &known[k] {
        Some(_inside) => {}
        None => known[k] = Some(inside),
    }
}

/// Looks at chip k, which is no end, and whose parts are known.
fn find_here<'a>(
    alloc: Global,
    entries: &'a [Entry],
    places: &Places<'a>,
    memories: Memories,
    known: &mut [Option<Known<'a>>],
    k: usize,
    depth: usize,
) -> Result<Option<Vec<Name>>, AllocError>
    requires placed { ArePlaces places.now entries.now }
    requires long { length known.old ≡ length entries.now }
    requires there { k < length entries.now }
    requires right { AreKnown (chips_in entries.now memories) known.old }
    requires no_end { (entry : Entry) → slice_get entries.now k ≡ Some entry
        → end_of memories entry ≡ None }
    requires done { (entry : Entry) → slice_get entries.now k ≡ Some entry
        → PartsDone (chips_in entries.now memories) known.old entry }
    requires nests { NestsAt depth (chips_in entries.now memories) k }
    ensures right { OnOk result (AreKnown (chips_in entries.now memories) known.new) }
    ensures stay { OnOk result (StaysKnown known.old known.new) }
    ensures done { IfOk result (λ r. r ≡ None → IsKnown known.new k) }
    ensures told { IfOk result (λ r. (chip : Entry) → slice_get entries.now k ≡ Some chip
        → TellsLoop (chips_in entries.now memories) chip r) }
{
    match look_at(alloc, entries, places, memories, known, &entries[k], depth)? {
        Look::Loop(nets) => Ok(Some(nets)),
        Look::Fine(inside) => {
            note(known, k, inside);
            Ok(None)
        }
    }
}

/// Puts the chip of a part on the stack, unless there is no such chip, it is known, or it is an
/// end.
fn enter<'a>(
    entries: &[Entry],
    places: &Places<'a>,
    memories: Memories,
    known: &[Option<Known>],
    part: &'a Part,
    depth: usize,
    stack: &mut Vec<Frame>,
) -> Result<(), AllocError>
    requires placed { ArePlaces places.now entries.now }
    requires long { length known.now ≡ length entries.now }
    ensures { OnOk result (IsEntered (chips_in entries.now memories) known.now part.now depth
        stack.old.items stack.new.items) }
{
    let Some(k) = place(places, part.chip.as_bytes()) else {
        return Ok(());
    };
    if is_known(known, k) {
        return Ok(());
    }
    if is_end(entries, memories, k) {
        return Ok(());
    }
    stack.push(Frame {
        chip: k,
        next: 0,
        depth,
    })?;
    Ok(())
}

/// Goes on from the chip on top of the stack to its next part, or looks at it where its parts are known. The nets of a loop, if it has one.
fn step<'a>(
    alloc: Global,
    entries: &'a [Entry],
    places: &Places<'a>,
    memories: Memories,
    known: &mut [Option<Known<'a>>],
    top: usize,
    stack: &mut Vec<Frame>,
) -> Result<Option<Vec<Name>>, AllocError>
    requires placed { ArePlaces places.now entries.now }
    requires long { length known.old ≡ length entries.now }
    requires right { AreKnown (chips_in entries.now memories) known.old }
    requires some { 0 < length stack.old.items }
    requires stack { IsStack (chips_in entries.now memories) known.old top stack.old.items }
    ensures right { OnOk result (AreKnown (chips_in entries.now memories) known.new) }
    ensures stack { IfOk result
        (λ r. r ≡ None → IsStack (chips_in entries.now memories) known.new top stack.new.items) }
    ensures less { IfOk result
        (λ r. r ≡ None → weight (chips_in entries.now memories) stack.new.items
        < weight (chips_in entries.now memories) stack.old.items) }
    ensures told { IfOk result (λ r. (chip : Entry) → slice_get entries.now top ≡ Some chip
        → TellsLoop (chips_in entries.now memories) chip r) }
{
    let Some(frame) = stack.pop() else {
        return Ok(None);
    };
    let parts = parts_of(memories, &entries[frame.chip]);
    if frame.next < parts.len() {
        stack.push(Frame {
            chip: frame.chip,
            next: frame.next + 1,
            depth: frame.depth,
        })?;
        let part = &parts[frame.next];
        enter(
            entries,
            places,
            memories,
            known,
            part,
            frame.depth - 1,
            stack,
        )?;
        return Ok(None);
    }
    find_here(
        alloc,
        entries,
        places,
        memories,
        known,
        frame.chip,
        frame.depth,
    )
}

/// The nets of a loop of chip k, which is no end and whose parts are known. Nothing else is known of it afterwards.
fn look_last<'a>(
    alloc: Global,
    entries: &'a [Entry],
    places: &Places<'a>,
    memories: Memories,
    known: &[Option<Known<'a>>],
    k: usize,
    depth: usize,
) -> Result<Option<Vec<Name>>, AllocError>
    requires placed { ArePlaces places.now entries.now }
    requires there { k < length entries.now }
    requires right { AreKnown (chips_in entries.now memories) known.now }
    requires no_end { (entry : Entry) → slice_get entries.now k ≡ Some entry
        → end_of memories entry ≡ None }
    requires done { (entry : Entry) → slice_get entries.now k ≡ Some entry
        → PartsDone (chips_in entries.now memories) known.now entry }
    requires nests { NestsAt depth (chips_in entries.now memories) k }
    ensures { IfOk result (λ r. (chip : Entry) → slice_get entries.now k ≡ Some chip
        → EndsLook (chips_in entries.now memories) chip r) }
{
    let entry = &entries[k];
    let parts = parts_of(memories, entry);
    let graph = graph_of(alloc, entries, places, memories, known, parts)?;
    loop_in(alloc, entries, memories, known, entry, &graph, depth)
}

/// Whether chip k alone stands on the stack, with no part left.
fn is_last(entries: &[Entry], memories: Memories, k: usize, stack: &[Frame]) -> bool
    requires { k < length entries.now }
    ensures { result ≡ true
        → HasOnlyLast (chips_in entries.now memories) k stack.now }
{
    if stack.len() != 1 {
        return false;
    }
    let frame = stack[0];
    frame.chip == k && parts_of(memories, &entries[k]).len() <= frame.next
}

/// The nets of a loop in chip k, in which chips nest less deep than this; none, and it has no loop. The chips on the way to the one that
/// is looked at stand on a stack, so that no depth is too deep. Which bits of chip k itself lead to which is not asked for.
fn find_in<'a>(
    alloc: Global,
    entries: &'a [Entry],
    places: &Places<'a>,
    memories: Memories,
    known: &mut [Option<Known<'a>>],
    k: usize,
    depth: usize,
) -> Result<Option<Vec<Name>>, AllocError>
    requires placed { ArePlaces places.now entries.now }
    requires long { length known.old ≡ length entries.now }
    requires there { k < length entries.now }
    requires right { AreKnown (chips_in entries.now memories) known.old }
    requires nests { NestsAt depth (chips_in entries.now memories) k }
    ensures none { IfOk result (λ r. r ≡ None → (chip : Entry) → slice_get entries.now k ≡ Some chip
        → TreeFits (chips_in entries.now memories) chip
        → TreeClear (chips_in entries.now memories) chip) }
    ensures told { IfOk result (λ r. (chip : Entry) → slice_get entries.now k ≡ Some chip
        → TellsLoop (chips_in entries.now memories) chip r) }
{
    if is_end(entries, memories, k) {
        return Ok(None);
    }
    let mut stack = Vec::new(alloc);
    stack.push(Frame {
        chip: k,
        next: 0,
        depth,
    })?;
    while !stack.is_empty() {
        if is_last(entries, memories, k, &stack) {
            return look_last(alloc, entries, places, memories, known, k, depth);
        }
        if let Some(nets) = step(alloc, entries, places, memories, known, k, &mut stack)? {
            return Ok(Some(nets));
        }
    }
    Ok(None)
}

/// Notes that nothing is known of one more chip.
fn note_none<'a>(known: &mut Vec<Option<Known<'a>>>) -> Result<(), AllocError>
    requires none { KnowNothing known.old.items }
    ensures none { OnOk result (KnowNothing known.new.items) }
    ensures long { OnOk result (length known.new.items ≡ length known.old.items + 1) }
{
    known.push(None)?;
    Ok(())
}

fn nothing_known<'a>(alloc: Global, n: usize) -> Result<Vec<Option<Known<'a>>>, AllocError>
    ensures long { IfOk result (λ v. length v.items ≡ n) }
    ensures none { IfOk result (λ v. KnowNothing v.items) }
{
    let mut known = Vec::new(alloc);
    for k in 0..n {
        let _ = k;
        note_none(&mut known)?;
    }
    Ok(known)
}

/// Looks for a loop of the chip of this name, which has no other fault. None is answered only where it has no loop, and
/// nets only where it has a loop with these nets, in the order of one circle of bits that passes none twice. Each is named
/// as in the outermost chip that has a name for it, and each name stands once. Only want of memory is an error.
pub fn find_loop(
    alloc: Global,
    library: &Library,
    top: &Name,
    memories: Memories,
) -> Result<Option<Vec<Name>>, AllocError>
    requires { TopIsFaultless (chips_in library.now.entries memories) top.now }
    ensures none { IfOk result (λ r. r ≡ None → (entry : Entry) (nets : List (List ℕ))
        → find_chip (chips_in library.now.entries memories) top.now ≡ Some entry
        → IsLoop (chips_in library.now.entries memories) entry nets → ⊥) }
    ensures told { IfOk result (λ r. MatchOption r (Unit {0}) (λ nets. (entry : Entry)
        × (find_chip (chips_in library.now.entries memories) top.now ≡ Some entry)
        × (IsLoop (chips_in library.now.entries memories) entry nets.items))) }
{
    let entries = library.entries.as_slice();
    let places = places_of(alloc, entries)?;
    let Some(k) = place(&places, top.as_bytes()) else {
        return Ok(None);
    };
    let mut known = nothing_known(alloc, entries.len())?;
    find_in(
        alloc,
        entries,
        &places,
        memories,
        &mut known,
        k,
        entries.len(),
    )
}
