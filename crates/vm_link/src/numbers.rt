//! Maps from names to numbers.
ghost use Rattle.std.specs.Prelude.{◌≡◌, List, ℕ, Some, None, OnOk, IfOk, is_none, option_map, if◌then◌else◌};
ghost use Rattle.std.specs.Option.{option_or};
ghost use Rattle.std.specs.Str.{bytes_eq};
ghost use Rattle.vm_link.specs.Faults.{first_repeat};
ghost use Rattle.vm_link.specs.Resolved.{label_place, first_place};
ghost use Rattle.vm_link.specs.Inner.Maps.{number, texts, seen_section, all_seen, AreNumbers};

use crate::section::{Part, label};
use std::alloc::{AllocError, Global};
use std::collections::BTreeMap;

/// Numbers by name. The names are a text's own, so the map is an ordered one: no choice of names makes it slow.
pub type Numbers<'a> = BTreeMap<&'a str, usize>;

// A name that has a number keeps it. Whether the name is new.
fn note<'a>(numbers: &mut Numbers<'a>, name: &'a str, value: usize) -> Result<bool, AllocError>
    ensures added { IfOk result (λ is_new. is_new ≡ is_none (number numbers.old name.now)) }
    ensures numbers { OnOk result ((q : List ℕ) → number numbers.new q
        ≡ option_or (number numbers.old q) (if bytes_eq q name.now then Some value else None)) }
{
    if numbers.contains_key(name) {
        return Ok(false);
    }
    match numbers.insert(name, value) {
        Ok(_) => Ok(true),
        Err(_) => Err(AllocError),
    }
}

/// The first name that stands there before itself.
pub fn first_repeat<'a>(alloc: Global, names: &[&'a str]) -> Result<Option<&'a str>, AllocError>
    ensures { IfOk result (λ name. option_map (λ n. n.now) name ≡ first_repeat (texts names.now)) }
{
    let mut seen = BTreeMap::new(alloc);
    for name in names {
        let is_new = note(&mut seen, name, 0)?;
        if !is_new {
            return Ok(Some(name));
        }
    }
    Ok(None)
}

/// The numbers of functions: their places among these sections, from 0.
pub fn function_numbers<'a>(alloc: Global, parts: &[Part<'a>]) -> Result<Numbers<'a>, AllocError>
    ensures { IfOk result (λ m. AreNumbers m (all_seen parts.now)) }
{
    let mut numbers = BTreeMap::new(alloc);
    for (place, part) in parts.iter().enumerate() {
        if let Some(name) = part.name {
            note(&mut numbers, name, place)?;
        }
    }
    Ok(numbers)
}

/// The places of a section's labels. A label is no step, and before a function's lines stands its `function` line.
pub fn label_places<'a>(alloc: Global, part: &Part<'a>) -> Result<Numbers<'a>, AllocError>
    ensures { IfOk result (λ m. (q : List ℕ) → number m q
        ≡ label_place q (first_place (seen_section part.now)) (seen_section part.now).lines) }
{
    let mut places = BTreeMap::new(alloc);
    let mut place = if part.name.is_some() { 1 } else { 0 };
    for line in part.lines {
        if let Some(label) = label(&line.command) {
            note(&mut places, label, place)?;
        } else {
            place += 1;
        }
    }
    Ok(places)
}
