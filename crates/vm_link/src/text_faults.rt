//! What is wrong with the text of a program.
ghost use Rattle.std.specs.Prelude.{◌≡◌, IfOk, List, option_map};
ghost use Rattle.std.specs.List.{list_any};
ghost use Rattle.vm_link.specs.Sections.{Section, called_name, is_named, target};
ghost use Rattle.vm_link.specs.Faults.{sys_init, first_of, lacking, label_twice, no_label, no_function, no_start, text_fault};
ghost use Rattle.vm_link.specs.Inner.Maps.{seen_section, all_seen, AreNumbers, has_number};

use crate::LinkFault;
use crate::numbers::{Numbers, first_repeat, label_places};
use crate::section::{Part, called, labels, names, target};
use outer_world::Name;
use std::alloc::{AllocError, Global};
use vm_tree::Line;

/// Where a program starts.
pub const SYS_INIT: &str = "Sys.init";

// The first label that stands twice in a section.
fn label_twice<'a>(alloc: Global, parts: &[Part<'a>]) -> Result<Option<&'a str>, AllocError>
    ensures { IfOk result
        (λ name. option_map (λ n. n.now) name ≡ first_of label_twice (all_seen parts.now)) }
{
    for part in parts {
        let labels = labels(alloc, part.lines)?;
        let repeated = first_repeat(alloc, &labels)?;
        if repeated.is_some() {
            return Ok(repeated);
        }
    }
    Ok(None)
}

// A name that has no number.
fn lacking<'a>(name: Option<&'a str>, numbers: &Numbers<'_>) -> Option<&'a str>
    ensures { option_map (λ n. n.now) result
        ≡ lacking (has_number numbers.now) (option_map (λ n. n.now) name.entry) }
{
    let text = name?;
    if numbers.contains_key(text) {
        None
    } else {
        Some(text)
    }
}

// The first label that lines go to and that has no place.
fn target_lacking<'a>(lines: &'a [Line], places: &Numbers<'_>) -> Option<&'a str>
    ensures { option_map (λ n. n.now) result
        ≡ first_of (λ x. lacking (has_number places.now) (target x.command)) lines.now }
{
    for line in lines {
        let missing = lacking(target(&line.command), places);
        if missing.is_some() {
            return missing;
        }
    }
    None
}

// The first name that lines call and that has no number.
fn call_lacking<'a>(lines: &'a [Line], numbers: &Numbers<'_>) -> Option<&'a str>
    ensures { option_map (λ n. n.now) result
        ≡ first_of (λ x. lacking (has_number numbers.now) (called_name x.command)) lines.now }
{
    for line in lines {
        let missing = lacking(called(&line.command), numbers);
        if missing.is_some() {
            return missing;
        }
    }
    None
}

// The first label that a section goes to and has not.
fn label_missing<'a>(alloc: Global, part: &Part<'a>) -> Result<Option<&'a str>, AllocError>
    ensures { IfOk result
        (λ name. option_map (λ n. n.now) name ≡ no_label (seen_section part.now)) }
{
    let places = label_places(alloc, part)?;
    Ok(target_lacking(part.lines, &places))
}

// The first label that some section goes to and has not.
fn no_label<'a>(alloc: Global, parts: &[Part<'a>]) -> Result<Option<&'a str>, AllocError>
    ensures { IfOk result
        (λ name. option_map (λ n. n.now) name ≡ first_of no_label (all_seen parts.now)) }
{
    for part in parts {
        let missing = label_missing(alloc, part)?;
        if missing.is_some() {
            return Ok(missing);
        }
    }
    Ok(None)
}

/// The first fault of a program's text: a function twice defined, then a label that stands twice, then a label that is
/// not there, then a missing start.
pub fn text_fault(
    alloc: Global,
    parts: &[Part<'_>],
    numbers: &Numbers<'_>,
    bare: bool,
) -> Result<Option<LinkFault>, AllocError>
    requires { AreNumbers numbers.now (all_seen parts.now) }
    ensures { IfOk result (λ fault. fault ≡ text_fault bare (all_seen parts.now)) }
{
    let names = names(alloc, parts)?;
    if let Some(name) = first_repeat(alloc, &names)? {
        return Ok(Some(LinkFault::TwiceDefined(Name::new(alloc, name)?)));
    }
    if let Some(label) = label_twice(alloc, parts)? {
        return Ok(Some(LinkFault::LabelTwice(Name::new(alloc, label)?)));
    }
    if let Some(label) = no_label(alloc, parts)? {
        return Ok(Some(LinkFault::NoLabel(Name::new(alloc, label)?)));
    }
    Ok(start_fault(numbers, bare))
}

// Whether Sys.init is there.
fn has_start(numbers: &Numbers<'_>) -> bool
    ensures { (ss : List Section) → AreNumbers numbers.now ss
        → result ≡ list_any (is_named sys_init) ss }
{
    numbers.contains_key(SYS_INIT)
}

// No start, where one is wanted.
fn start_fault(numbers: &Numbers<'_>, bare: bool) -> Option<LinkFault>
    ensures { (ss : List Section) → AreNumbers numbers.now ss → result ≡ no_start bare ss }
{
    if bare {
        return None;
    }
    if has_start(numbers) {
        return None;
    }
    Some(LinkFault::NoSysInit)
}

// The first name that a section calls and no function has.
fn function_missing<'a>(part: &Part<'a>, numbers: &Numbers<'_>) -> Option<&'a str>
    ensures { (ss : List Section) → AreNumbers numbers.now ss
        → option_map (λ n. n.now) result ≡ no_function ss (seen_section part.now) }
{
    call_lacking(part.lines, numbers)
}

/// The first name that some section calls and no function has.
pub fn no_function<'a>(kept: &[Part<'a>], numbers: &Numbers<'_>) -> Option<&'a str>
    ensures { (ss : List Section) → AreNumbers numbers.now ss
        → option_map (λ n. n.now) result ≡ first_of (no_function ss) (all_seen kept.now) }
{
    for part in kept {
        let missing = function_missing(part, numbers);
        if missing.is_some() {
            return missing;
        }
    }
    None
}
