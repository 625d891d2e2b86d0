//! The sections of a program, and the names in them.
ghost use Rattle.std.specs.Prelude.{◌≡◌, ◌≤◌, ◌+◌, ◌^◌, ◌++◌, OnOk, IfOk, MatchResult, option_map, length};
ghost use Rattle.vm_link.specs.Sections.{file_sections, functions_from, function_section, opening_section, sections, called_name, target, label, labels};
ghost use Rattle.vm_link.specs.Faults.{names};
ghost use Rattle.vm_link.specs.Inner.Maps.{seen_section, all_seen, texts};

use std::alloc::{AllocError, Global};
use vm_tree::{Command, File, Function, Line};

/// A function, or the opening text of a file, which has no name.
#[derive(Clone, Copy)]
pub struct Part<'a> {
    pub file: usize,
    pub number: u32,
    pub name: Option<&'a str>,
    pub locals: u16,
    pub lines: &'a [Line],
}

// The number of the next section. Memory is wanted only where 32 bits do not have it. Sections of texts within their
// limits are fewer (`count_laws`).
fn next_number(parts: &[Part<'_>]) -> Result<u32, AllocError>
    ensures { MatchResult result (λ n. n ≡ length parts.now + 1)
        (λ _. 2 ^ 32 ≤ length parts.now + 1) }
{
    if parts.len() < u32::MAX as usize {
        Ok(parts.len() as u32 + 1)
    } else {
        Err(AllocError)
    }
}

fn function_part(file: usize, number: u32, function: &Function) -> Part<'_>
    ensures { seen_section result ≡ function_section file number function.now }
{
    Part {
        file,
        number,
        name: Some(function.name.as_str()),
        locals: function.locals,
        lines: function.lines.as_slice(),
    }
}

fn opening_part(file: usize, number: u32, text: &File) -> Part<'_>
    ensures { seen_section result ≡ opening_section file number text.now }
{
    Part {
        file,
        number,
        name: None,
        locals: 0,
        lines: text.opening.as_slice(),
    }
}

fn add_functions<'a>(
    parts: &mut Vec<Part<'a>>,
    file: usize,
    functions: &'a [Function],
) -> Result<(), AllocError>
    ensures { OnOk result (all_seen parts.new.items ≡ all_seen parts.old.items
        ++ functions_from file (length parts.old.items + 1) functions.now) }
{
    for function in functions {
        let number = next_number(parts)?;
        parts.push(function_part(file, number, function))?;
    }
    Ok(())
}

fn add_file<'a>(
    parts: &mut Vec<Part<'a>>,
    file: usize,
    text: &'a File,
    bare: bool,
) -> Result<(), AllocError>
    ensures { OnOk result (all_seen parts.new.items ≡ all_seen parts.old.items
        ++ file_sections bare file (length parts.old.items + 1) text.now) }
{
    if bare {
        let number = next_number(parts)?;
        parts.push(opening_part(file, number, text))?;
    }
    add_functions(parts, file, text.functions.as_slice())
}

/// The sections of a program, in order of file and text.
pub fn parts(alloc: Global, files: &[File], bare: bool) -> Result<Vec<Part<'_>>, AllocError>
    ensures { IfOk result (λ v. all_seen v.items ≡ sections bare files.now) }
{
    let mut parts = Vec::new(alloc);
    for (file, text) in files.iter().enumerate() {
        add_file(&mut parts, file, text, bare)?;
    }
    Ok(parts)
}

/// The name that a command calls.
pub fn called(command: &Command) -> Option<&str>
    ensures { option_map (λ n. n.now) result ≡ called_name command.now }
{
    match command {
        Command::Call(name, _) => Some(name.as_str()),
        _ => None,
    }
}

/// The label that a command goes to.
pub fn target(command: &Command) -> Option<&str>
    ensures { option_map (λ n. n.now) result ≡ target command.now }
{
    match command {
        Command::Goto(label) | Command::IfGoto(label) => Some(label.as_str()),
        _ => None,
    }
}

/// The label that a command is.
pub fn label(command: &Command) -> Option<&str>
    ensures { option_map (λ n. n.now) result ≡ label command.now }
{
    match command {
        Command::Label(label) => Some(label.as_str()),
        _ => None,
    }
}

/// The names of the functions.
pub fn names<'a>(alloc: Global, parts: &[Part<'a>]) -> Result<Vec<&'a str>, AllocError>
    ensures { IfOk result (λ v. texts v.items ≡ names (all_seen parts.now)) }
{
    let mut names = Vec::new(alloc);
    for part in parts {
        if let Some(name) = part.name {
            names.push(name)?;
        }
    }
    Ok(names)
}

/// The labels among lines.
pub fn labels(alloc: Global, lines: &[Line]) -> Result<Vec<&str>, AllocError>
    ensures { IfOk result (λ v. texts v.items ≡ labels lines.now) }
{
    let mut labels = Vec::new(alloc);
    for line in lines {
        if let Some(label) = label(&line.command) {
            labels.push(label)?;
        }
    }
    Ok(labels)
}
