//! The parts of what comes first of a text, in the order in which they become values.

ghost use Rattle.std.specs.Prelude.{◌≡◌, ◌≤◌, ◌+◌, ◌^◌, ◌++◌, Some, OnOk, OnErr, MatchResult, slice_get};
ghost use Rattle.jack_core.specs.Heights.{takes};
ghost use Rattle.jack_machine.specs.Parts.{parts_in, parts_of};
ghost use Rattle.jack_machine.specs.Inner.Fronts.{IsPut, IsSameFront, IsFilled, IsBegun};

use crate::fronts::{First, Front};
use jack_core::{Expression, Part, Statement};
use std::alloc::AllocError;

/// How many operands a part has.
pub(crate) fn operands(part: Part) -> u16
    ensures { result ≡ takes part }
{
    match part {
        Part::Literal(_) => 0,
        Part::Argument(_) => 0,
        Part::Local(_) => 0,
        Part::Static(_) => 0,
        Part::This => 0,
        Part::Field(_) => 0,
        Part::Unary(_) => 1,
        Part::Binary(_) => 2,
        Part::Load => 2,
        Part::Call { arguments, .. } => arguments,
    }
}

fn part_in(e: &Expression, k: usize) -> Option<Part>
    ensures { result ≡ slice_get e.now.parts k }
{
    e.parts.get(k)
}

// The same of three expressions, one after the other.
fn part_in_store(
    base: &Expression,
    index: &Expression,
    value: &Expression,
    k: usize,
) -> Option<Part>
    ensures { result
        ≡ slice_get (base.now.parts ++ index.now.parts ++ value.now.parts) k }
{
    if k < base.parts.len() {
        return part_in(base, k);
    }
    let k = k - base.parts.len();
    if k < index.parts.len() {
        return part_in(index, k);
    }
    part_in(value, k - index.parts.len())
}

fn part_in_statement(s: &Statement, k: usize) -> Option<Part>
    ensures { result ≡ slice_get (parts_in s.now) k }
{
    match s {
        Statement::Let { value, .. } => part_in(value, k),
        Statement::LetField { value, .. } => part_in(value, k),
        Statement::LetThis { value, .. } => part_in(value, k),
        Statement::Store {
            base,
            index,
            value,
            ..
        } => part_in_store(base, index, value, k),
        Statement::Do { call, .. } => part_in(call, k),
        Statement::If { condition, .. } => part_in(condition, k),
        Statement::While { condition, .. } => part_in(condition, k),
        Statement::Return { value, .. } => part_in(value, k),
    }
}

/// The part that is next, if one is left.
pub(crate) fn next_part(front: &Front) -> Option<Part>
    ensures { result ≡ slice_get (parts_of front.now.first) front.now.done }
{
    match front.first {
        First::Start(init) => {
            if front.done == 0 {
                Some(Part::Call {
                    arguments: 0,
                    number: init,
                })
            } else {
                None
            }
        }
        First::Statement(s) => part_in_statement(s, front.done),
        First::Nothing => None,
    }
}

// One more part is done. Memory is wanted only where a word does not count them: no memory holds so many.
fn one_more(done: usize) -> Result<usize, AllocError>
    ensures { MatchResult result (λ n. n ≡ done + 1) (λ _. 2 ^ 64 ≤ done + 1) }
{
    done.checked_add(1).ok_or(AllocError)
}

/// The part that is next is done: its value stands in place of its operands. Where memory is wanted nothing has
/// changed.
pub(crate) fn put(front: &mut Front, part: Part, w: u16) -> Result<(), AllocError>
    requires { slice_get (parts_of front.old.first) front.old.done ≡ Some part }
    ensures done { OnOk result (IsPut part w front.old front.new) }
    ensures refused { OnErr result (IsSameFront front.old front.new) }
{
    let done = one_more(front.done)?;
    front.values.reserve(1)?;
    let kept = front.values.len() - operands(part) as usize;
    front.values.truncate(kept);
    front.values.push_reserved(w);
    front.done = done;
    Ok(())
}

/// The value of a call stands where its place was kept.
pub(crate) fn fill(front: &mut Front, w: u16)
    ensures { IsFilled w front.old front.new }
{
    if let Some(last) = front.values.last_mut() {
        *last = w;
    }
}

/// Something else comes first, with nothing done.
pub(crate) fn begin<'a>(front: &mut Front<'a>, first: First<'a>)
    ensures { IsBegun first.entry front.new }
{
    front.values.clear();
    front.done = 0;
    front.first = first;
}
