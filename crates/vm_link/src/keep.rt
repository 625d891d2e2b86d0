//! The sections that are kept.
ghost use Rattle.std.specs.Prelude.{◌≡◌, IfOk, false, length};
ghost use Rattle.vm_link.specs.Reached.{AreKept};
ghost use Rattle.vm_link.specs.Inner.Marks.{selected_sections};
ghost use Rattle.vm_link.specs.Inner.Maps.{AreNumbers, all_seen};

use crate::numbers::Numbers;
use crate::reach::reached;
use crate::section::Part;
use std::alloc::{AllocError, Global};

// The sections that are marked.
fn select<'a>(
    alloc: Global,
    parts: &[Part<'a>],
    marks: &[bool],
) -> Result<Vec<Part<'a>>, AllocError>
    requires { length marks.now ≡ length parts.now }
    ensures { IfOk result
        (λ kept. all_seen kept.items ≡ selected_sections marks.now (all_seen parts.now)) }
{
    let mut kept = Vec::new(alloc);
    for (place, part) in parts.iter().enumerate() {
        if marks[place] {
            kept.push(*part)?;
        }
    }
    Ok(kept)
}

fn reached_parts<'a>(
    alloc: Global,
    parts: &[Part<'a>],
    numbers: &Numbers<'_>,
) -> Result<Vec<Part<'a>>, AllocError>
    requires { AreNumbers numbers.now (all_seen parts.now) }
    ensures { IfOk result (λ kept. AreKept false (all_seen parts.now) (all_seen kept.items)) }
{
    let marks = reached(alloc, parts, numbers)?;
    let kept = select(alloc, parts, &marks)?;
    Ok(kept)
}

/// The sections that are reached, and with `bare` all.
pub fn keep<'a>(
    alloc: Global,
    parts: Vec<Part<'a>>,
    numbers: &Numbers<'_>,
    bare: bool,
) -> Result<Vec<Part<'a>>, AllocError>
    requires { AreNumbers numbers.now (all_seen parts.items) }
    ensures { IfOk result
        (λ kept. AreKept bare (all_seen parts.entry.items) (all_seen kept.items)) }
{
    if bare {
        return Ok(parts);
    }
    reached_parts(alloc, &parts, numbers)
}
