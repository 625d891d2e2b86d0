//! Linking.
ghost use Rattle.std.specs.Prelude.{◌≡◌, ◌≤◌, ◌<◌, ℕ, List, Some, None, IfOk, length, map, min, slice_index, ◌-◌, ◌^◌};
ghost use Rattle.std.specs.List.{list_any, position_from};
ghost use Rattle.vm_link.specs.Sections.{Section, is_named};
ghost use Rattle.vm_link.specs.Faults.{sys_init, kept_fault, too_many, words_before};
ghost use Rattle.vm_link.specs.Resolved.{files_from, function_of, is_marked, linked_of};
ghost use Rattle.vm_link.specs.Links.{Links};
ghost use Rattle.vm_link.specs.Sound.{IsSound};
ghost use Rattle.vm_link.specs.Inner.Words.{AreBases, AreFitting, AreWords, IsFitting};
ghost use Rattle.vm_link.specs.Inner.Maps.{AreNumbers, all_seen, seen_section};

use crate::keep::keep;
use crate::numbers::{Numbers, function_numbers};
use crate::resolve::function_of;
use crate::section::{Part, parts};
use crate::statics::{all_words, bases, file_words};
use crate::text_faults::{SYS_INIT, no_function, text_fault};
use crate::{LinkFault, Linked, LinkedFile, LinkedFunction};
use outer_world::{List, Name};
use std::alloc::{AllocError, Global};
use vm_tree::{File, Line, Program};

// More static words than there are.
fn too_many(words: u64) -> Option<LinkFault>
    ensures { (n : ℕ) → words ≡ min n (2 ^ 64 - 1) → result ≡ too_many n }
{
    if words > 240 {
        Some(LinkFault::TooManyStatics(words))
    } else {
        None
    }
}

// The first fault of what is kept.
fn kept_fault(
    alloc: Global,
    kept: &[Part<'_>],
    numbers: &Numbers<'_>,
    words: &[u32],
) -> Result<Option<LinkFault>, AllocError>
    requires { AreWords (all_seen kept.now) (length words.now) words.now }
    ensures { IfOk result (λ fault. (ss : List Section) → AreNumbers numbers.now ss
        → fault ≡ kept_fault (length words.now) ss (all_seen kept.now)) }
{
    if let Some(name) = no_function(kept, numbers) {
        let name = Name::new(alloc, name)?;
        return Ok(Some(LinkFault::NoFunction(name)));
    }
    Ok(too_many(all_words(words)))
}

// The static words of the files before a section's own.
fn before_of(part: &Part<'_>, bases: &[u64]) -> u16
    requires below { part.now.file < length bases.now }
    requires room { slice_index bases.now part.now.file ≤ 240 }
    ensures { result ≡ slice_index bases.now part.now.file }
{
    bases[part.file] as u16
}

fn functions(
    alloc: Global,
    kept: &[Part<'_>],
    numbers: &Numbers<'_>,
    bases: &[u64],
) -> Result<Vec<LinkedFunction>, AllocError>
    requires numbers { AreNumbers numbers.now (all_seen kept.now) }
    requires fits { AreFitting (all_seen kept.now) bases.now }
    ensures { IfOk result
        (λ v. v.items ≡ map (function_of (all_seen kept.now)) (all_seen kept.now)) }
{
    let mut functions = Vec::new(alloc);
    for part in kept {
        let before = before_of(part, bases);
        let function = function_of(alloc, part, numbers, before)?;
        functions.push(function)?;
    }
    Ok(functions)
}

fn linked_files(alloc: Global, files: &[File], words: &[u32]) -> Result<Vec<LinkedFile>, AllocError>
    requires { length words.now ≡ length files.now }
    ensures { IfOk result (λ v. (kept : List Section) → AreWords kept (length words.now) words.now
        → v.items ≡ files_from kept 0 files.now) }
{
    let mut linked = Vec::new(alloc);
    for (place, file) in files.iter().enumerate() {
        let name = Name::new(alloc, file.name.as_str())?;
        linked.push(LinkedFile {
            name,
            statics: words[place],
        })?;
    }
    Ok(linked)
}

fn start_of(numbers: &Numbers<'_>) -> Option<usize>
    ensures { (ss : List Section) → AreNumbers numbers.now ss
        → result ≡ position_from (is_named sys_init) 0 ss }
{
    numbers.get(SYS_INIT).copied()
}

// Whether some line is a commit.
fn has_commit(lines: &[Line]) -> bool
    ensures { result ≡ list_any (λ x. x.commit) lines.now }
{
    lines.iter().any(|line| line.commit)
}

// Whether some line of what is kept is a commit.
fn is_marked(kept: &[Part<'_>]) -> bool
    ensures { result ≡ is_marked (all_seen kept.now) }
{
    for part in kept {
        if has_commit(part.lines) {
            return true;
        }
    }
    false
}

/// Links a program: without `bare` the functions that are reached from Sys.init by calls, with `bare` all functions and
/// opening texts.
pub fn link(alloc: Global, program: Program, bare: bool) -> Result<Linked, LinkFault>
    ensures links { Links bare program result }
    ensures sound { IfOk result IsSound }
{
    link_files(alloc, program.as_slice(), bare)
}

fn link_files(alloc: Global, files: &[File], bare: bool) -> Result<Linked, LinkFault>
    ensures { Links bare files.now result }
{
    let parts = parts(alloc, files, bare)?;
    let numbers = function_numbers(alloc, &parts)?;
    if let Some(fault) = text_fault(alloc, &parts, &numbers, bare)? {
        return Err(fault);
    }
    let kept = keep(alloc, parts, &numbers, bare)?;
    let words = file_words(alloc, &kept, files.len())?;
    if let Some(fault) = kept_fault(alloc, &kept, &numbers, &words)? {
        return Err(fault);
    }
    let linked = linked(alloc, files, &kept, &words, bare)?;
    Ok(linked)
}

fn linked(
    alloc: Global,
    files: &[File],
    kept: &[Part<'_>],
    words: &[u32],
    bare: bool,
) -> Result<Linked, AllocError>
    requires words { AreWords (all_seen kept.now) (length files.now) words.now }
    requires fits { (bases : List ℕ) → AreBases (all_seen kept.now) (length files.now) bases
        → AreFitting (all_seen kept.now) bases }
    ensures { IfOk result (λ l. l ≡ linked_of bare files.now (all_seen kept.now)) }
{
    let numbers = function_numbers(alloc, kept)?;
    let bases = bases(alloc, words)?;
    let functions = functions(alloc, kept, &numbers, &bases)?;
    let files = linked_files(alloc, files, words)?;
    Ok(Linked {
        functions: List::of(functions),
        files: List::of(files),
        start: start_of(&numbers),
        bare,
        marked: is_marked(kept),
    })
}
