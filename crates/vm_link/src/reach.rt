//! The functions that are reached by calls.
ghost use Rattle.std.specs.Prelude.{◌≡◌, ◌<◌, ℕ, true, false, length, IfOk, OnOk, option_map};
ghost use Rattle.vm_link.specs.Inner.Marks.{AreBelow, AreCalling, AreReached, IsNumber, Marks, is_marked};
ghost use Rattle.vm_link.specs.Inner.Maps.{AreNumbers, all_seen};

use crate::numbers::Numbers;
use crate::section::{Part, called};
use crate::text_faults::SYS_INIT;
use std::alloc::{AllocError, Global};
use vm_tree::Line;

// Marks a section, which then waits, if it is not marked.
fn mark(place: usize, marks: &mut Vec<bool>, pending: &mut Vec<usize>) -> Result<(), AllocError>
    requires { place < length marks.old.items }
    ensures marks { OnOk result (Marks (λ i. i ≡ place) marks.old.items marks.new.items
        pending.old.items pending.new.items) }
    ensures marked { OnOk result (is_marked marks.new.items place ≡ true) }
{
    if marks[place] {
        return Ok(());
    }
    pending.push(place)?;
    marks[place] = true;
    Ok(())
}

// Marks the function of a name.
fn mark_function(
    name: Option<&str>,
    numbers: &Numbers<'_>,
    marks: &mut Vec<bool>,
    pending: &mut Vec<usize>,
) -> Result<(), AllocError>
    requires { AreBelow numbers.now (length marks.old.items) }
    ensures marks { OnOk result (Marks (IsNumber numbers.now (option_map (λ n. n.now) name.entry))
        marks.old.items marks.new.items pending.old.items pending.new.items) }
    ensures marked { OnOk result
        ((i : ℕ) → IsNumber numbers.now (option_map (λ n. n.now) name.entry) i
        → is_marked marks.new.items i ≡ true) }
{
    let Some(text) = name else {
        return Ok(());
    };
    let Some(place) = numbers.get(text) else {
        return Ok(());
    };
    mark(*place, marks, pending)
}

// Marks the functions that lines call.
fn visit(
    lines: &[Line],
    numbers: &Numbers<'_>,
    marks: &mut Vec<bool>,
    pending: &mut Vec<usize>,
) -> Result<(), AllocError>
    requires { AreBelow numbers.now (length marks.old.items) }
    ensures marks { OnOk result (Marks (AreCalling numbers.now lines.now) marks.old.items
        marks.new.items pending.old.items pending.new.items) }
    ensures all { OnOk result
        ((i : ℕ) → AreCalling numbers.now lines.now i → is_marked marks.new.items i ≡ true) }
{
    for line in lines {
        mark_function(called(&line.command), numbers, marks, pending)?;
    }
    Ok(())
}

// As many marks as there are sections, none of them set.
fn no_marks(alloc: Global, parts: &[Part<'_>]) -> Result<Vec<bool>, AllocError>
    ensures same_length { IfOk result (λ marks. length marks.items ≡ length parts.now) }
    ensures unset { IfOk result (λ marks. (i : ℕ) → is_marked marks.items i ≡ false) }
{
    let mut marks = Vec::new(alloc);
    for _part in parts {
        marks.push(false)?;
    }
    Ok(marks)
}

/// Marks at the sections that are reached from Sys.init by calls.
pub fn reached(
    alloc: Global,
    parts: &[Part<'_>],
    numbers: &Numbers<'_>,
) -> Result<Vec<bool>, AllocError>
    requires { AreNumbers numbers.now (all_seen parts.now) }
    ensures { IfOk result (λ marks. AreReached (all_seen parts.now) marks.items) }
{
    let mut marks = no_marks(alloc, parts)?;
    let mut pending = Vec::new(alloc);
    mark_function(Some(SYS_INIT), numbers, &mut marks, &mut pending)?;
    'waiting: while let Some(place) = pending.pop() {
        visit(parts[place].lines, numbers, &mut marks, &mut pending)?;
    }
    Ok(marks)
}
