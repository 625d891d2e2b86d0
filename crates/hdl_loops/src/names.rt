//! The nets of a circle: those of the chip, and between them those of the ways through its parts, each once.

ghost use Rattle.std.specs.Prelude.{◌≡◌, ◌<◌, ◌∷◌, ◌++◌, true, OnOk, IfOk, length, reverse, slice_get};
ghost use Rattle.hdl_check.specs.Whole.{chips_in};
ghost use Rattle.hdl_plans.specs.Loops.{IsLoop};
ghost use Rattle.hdl_loops.specs.Inner.Hops.{input_of, output_of, WayRound};
ghost use Rattle.hdl_loops.specs.Inner.Knowing.{HasWays, AreKnown, AreHops, IsStraight, Nests, leads_in, IsWayIn};
ghost use Rattle.hdl_loops.specs.Inner.Report.{names_of, AreTold};
ghost use Rattle.hdl_loops.specs.Inner.Tasks.{passage_of, pass_task, way_tasks, IsTask, AreTasks, IsSure, GoesOn, room, tasks_weight};

use crate::circle::Circle;
use crate::find::is_end;
use crate::hops::{BitOf, Dependency, Hop};
use crate::known::Known;
use crate::report::{Passage, Report};
use hdl_tree::{Entry, Memories, Name};
use std::alloc::{AllocError, Global};

/// A way through chip k between these bits.
fn way_through<'a>(
    alloc: Global,
    known: &[Option<Known<'a>>],
    k: usize,
    through: &Dependency<'a>,
) -> Result<Vec<Hop<'a>>, AllocError>
    requires right { HasWays known.now k }
    requires leads { leads_in (slice_get known.now k) (input_of through.now) (output_of through.now)
        ≡ true }
    ensures { IfOk result (λ v. IsWayIn (slice_get known.now k) (input_of through.now) v.items
        (output_of through.now)) }
{
    let from = BitOf {
        name: through.input,
        bit: through.bit,
    };
    let to = BitOf {
        name: through.output,
        bit: through.out,
    };
    match &known[k] {
        None => unreachable!(),
        Some(inside) => inside.way(alloc, &from, &to),
    }
}

/// What is still to be reported: a net, or the nets of a way through a chip in which chips nest less deep than this. Or no more of such
/// a way.
#[derive(Clone, Copy)]
pub enum Task<'a> {
    Net(&'a [u8]),
    Pass(Passage<'a>, usize),
    Passed(Passage<'a>),
}

/// Puts what a hop passes on the stack.
fn put_pass<'a>(hop: &Hop<'a>, depth: usize, tasks: &mut Vec<Task<'a>>) -> Result<(), AllocError>
    ensures { OnOk result
        (reverse tasks.new.items ≡ pass_task (passage_of hop.now) depth ∷ reverse tasks.old.items) }
{
    let passage = Passage {
        chip: hop.chip,
        through: hop.through,
    };
    tasks.push(Task::Pass(passage, depth))?;
    Ok(())
}

/// Puts the hops of a way and the nets between them on the stack, the first on top.
fn put_way<'a>(way: &[Hop<'a>], depth: usize, tasks: &mut Vec<Task<'a>>) -> Result<(), AllocError>
    requires { 0 < length way.now }
    ensures { OnOk result
        (reverse tasks.new.items ≡ way_tasks depth way.now ++ reverse tasks.old.items) }
{
    let mut k = way.len() - 1;
    while k > 0 {
        put_pass(&way[k], depth, tasks)?;
        tasks.push(Task::Net(way[k].from.name))?;
        k -= 1;
    }
    put_pass(&way[0], depth, tasks)?;
    Ok(())
}

/// Puts what a way through a chip passes on the stack, unless it is reported, or the chip is an
/// end.
fn pass<'a>(
    alloc: Global,
    entries: &'a [Entry],
    memories: Memories,
    known: &[Option<Known<'a>>],
    passage: Passage<'a>,
    depth: usize,
    tasks: &mut Vec<Task<'a>>,
    told: &Report<'a>,
) -> Result<(), AllocError>
    requires known { AreKnown (chips_in entries.now memories) known.now }
    requires task { IsTask (chips_in entries.now memories) known.now (pass_task passage depth) }
    requires tasks { AreTasks (chips_in entries.now memories) known.now (reverse tasks.old.items) }
    requires right { AreTold (chips_in entries.now memories) told.now }
    ensures tasks { OnOk result
        (AreTasks (chips_in entries.now memories) known.now (reverse tasks.new.items)) }
    ensures goes { OnOk result (GoesOn (chips_in entries.now memories)
        (pass_task passage.entry depth ∷ reverse tasks.old.items) (names_of told.now)
        (reverse tasks.new.items) (names_of told.now)) }
    ensures less { OnOk result (tasks_weight (room known.now) (reverse tasks.new.items)
        < tasks_weight (room known.now) (pass_task passage.entry depth ∷ reverse tasks.old.items)) }
{
    if told.has_passed(&passage) {
        return Ok(());
    }
    if is_end(entries, memories, passage.chip) {
        return Ok(());
    }
    let way = way_through(alloc, known, passage.chip, &passage.through)?;
    tasks.push(Task::Passed(passage))?;
    put_way(way.as_slice(), depth - 1, tasks)?;
    Ok(())
}

/// Tells what comes next.
fn tell_next<'a>(
    alloc: Global,
    entries: &'a [Entry],
    memories: Memories,
    known: &[Option<Known<'a>>],
    tasks: &mut Vec<Task<'a>>,
    told: &mut Report<'a>,
) -> Result<(), AllocError>
    requires some { 0 < length tasks.old.items }
    requires known { AreKnown (chips_in entries.now memories) known.now }
    requires tasks { AreTasks (chips_in entries.now memories) known.now (reverse tasks.old.items) }
    requires right { AreTold (chips_in entries.now memories) told.old }
    requires sure { IsSure (chips_in entries.now memories) (reverse tasks.old.items)
        (names_of told.old) }
    ensures tasks { OnOk result
        (AreTasks (chips_in entries.now memories) known.now (reverse tasks.new.items)) }
    ensures right { OnOk result (AreTold (chips_in entries.now memories) told.new) }
    ensures goes { OnOk result (GoesOn (chips_in entries.now memories) (reverse tasks.old.items)
        (names_of told.old) (reverse tasks.new.items) (names_of told.new)) }
    ensures less { OnOk result (tasks_weight (room known.now) (reverse tasks.new.items)
        < tasks_weight (room known.now) (reverse tasks.old.items)) }
{
    match tasks.pop() {
        None => Ok(()),
        Some(Task::Net(name)) => {
            told.add(name)?;
            Ok(())
        }
        Some(Task::Passed(passage)) => {
            told.note(passage)?;
            Ok(())
        }
        Some(Task::Pass(passage, depth)) => {
            pass(alloc, entries, memories, known, passage, depth, tasks, told)?;
            Ok(())
        }
    }
}

/// The nets of a circle in the own graph of a chip.
pub(crate) fn nets_of<'a>(
    alloc: Global,
    entries: &'a [Entry],
    memories: Memories,
    known: &[Option<Known<'a>>],
    entry: &'a Entry,
    circle: &Circle<'a>,
    depth: usize,
) -> Result<Vec<Name>, AllocError>
    requires known { AreKnown (chips_in entries.now memories) known.now }
    requires hops { AreHops
        (chips_in entries.now memories) known.now entry.now circle.now.way.items }
    requires round { WayRound circle.now }
    requires straight { IsStraight (chips_in entries.now memories) entry.now circle.now.way.items }
    requires nests { Nests depth (chips_in entries.now memories) entry.now }
    ensures { IfOk result (λ nets. IsLoop (chips_in entries.now memories) entry.now nets.items) }
{
    let mut told = Report::new(alloc);
    told.add(circle.at.name)?;
    let mut tasks = Vec::new(alloc);
    put_way(circle.way.as_slice(), depth - 1, &mut tasks)?;
    while !tasks.is_empty() {
        tell_next(alloc, entries, memories, known, &mut tasks, &mut told)?;
    }
    told.copied(alloc)
}
