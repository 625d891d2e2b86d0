//! The command `vm`: the assembly of a folder's VM files.
ghost use Rattle.std.specs.Prelude.{◌≡◌, ◌≤◌, All, IfOk, Ok, length};
ghost use Rattle.outer_world.specs.State.{Keeps, MissesFolder, SinkState};
ghost use Rattle.command_line.specs.Line.{vm};
ghost use Rattle.hack_isa.specs.Machine.{image_words};
ghost use Rattle.source_files.specs.Loads.{CountsLoad, Loads};
ghost use Rattle.vm_link.specs.Links.{Links};
ghost use Rattle.vm_link.specs.Sound.{IsSound};
ghost use Rattle.vm_link.specs.declared.linked.Linked.{Linked};
ghost use Rattle.vm_translator.specs.Image.{image_of};
ghost use Rattle.vm_translator.specs.Plain.{IsPlain};
ghost use Rattle.vm_translator.specs.declared.coded.Coded.{Coded};
ghost use Rattle.nand_cli.specs.Commands.Vm.{HasProgram, IsNoCode, VmRefuses};
ghost use Rattle.nand_cli.specs.Inner.Parts.{Counts, Does};

use crate::failure::{Failure, finished};
use hack_asm::write_asm;
use outer_world::{List, Shelf, Sink};
use source_files::{LoadError, load_folder};
use std::alloc::Global;
use vm_link::{Linked, link};
use vm_parser::VmLanguage;
use vm_translator::{Coded, translate};
use vm_tree::Program;

const ENDING: &str = ".vm";

// The program that the VM files of a folder spell.
fn load_program<F: Shelf>(
    alloc: Global,
    folder: &str,
    bare: bool,
    shelf: &mut F,
) -> Result<Program, LoadError>
    ensures loads { Loads (HasProgram bare (F.state shelf.old).files folder.now)
        (VmRefuses (F.state shelf.old).files folder.now bare)
        (MissesFolder (F.state shelf.old) folder.now)
        result }
    ensures counts { CountsLoad (F.faults shelf.old) (F.faults shelf.new) result }
    ensures keeps { Keeps (F.state shelf.old) (F.state shelf.new) }
{
    let files = load_folder(alloc, &VmLanguage { bare }, folder, ENDING, shelf)?;
    Ok(List::of(files))
}

// The linked program.
fn linked(alloc: Global, folder: &str, program: Program, bare: bool) -> Result<Linked, LoadError>
    ensures links { Loads (λ (linked : Linked). Links bare program (Ok linked))
        (IsNoCode bare folder.now program) ⊥ result }
    ensures sound { IfOk result IsSound }
    ensures bare { IfOk result (λ linked. bare ≡ linked.bare) }
{
    match link(alloc, program, bare) {
        Ok(linked) => Ok(linked),
        Err(fault) => Err(LoadError::of_diagnostic(alloc, folder, fault.diagnostic())),
    }
}

// The code of a program.
fn code_of(alloc: Global, folder: &str, program: Program, bare: bool) -> Result<Coded, LoadError>
    ensures codes { Loads (λ (coded : Coded). (linked : Linked) × Links bare program (Ok linked)
        × (coded.instrs ≡ image_of linked) × (length (image_of linked) ≤ image_words))
        (IsNoCode bare folder.now program) ⊥ result }
    ensures plain { IfOk result (λ coded. All IsPlain coded.instrs) }
{
    let linked = linked(alloc, folder, program, bare)?;
    match translate(alloc, &linked, bare) {
        Ok(coded) => Ok(coded),
        Err(fault) => Err(LoadError::of_diagnostic(alloc, folder, fault.diagnostic())),
    }
}

/// Does a line of `vm`; err is left as it is.
pub fn answer_vm<F: Shelf, O: Sink>(
    alloc: Global,
    folder: &str,
    bare: bool,
    shelf: &mut F,
    out: &mut O,
) -> Result<(), Failure>
    ensures does { (err : SinkState) → Does (F.state shelf.old) (vm folder.now bare)
        (O.state out.old) (O.state out.new) err err result }
    ensures counts { (err : SinkState) → Counts (F.faults shelf.old) (F.faults shelf.new)
        (O.state out.old) (O.state out.new) err err result }
    ensures keeps { Keeps (F.state shelf.old) (F.state shelf.new) }
{
    let program = load_program(alloc, folder, bare, shelf)?;
    let coded = code_of(alloc, folder, program, bare)?;
    finished(write_asm(coded.instrs.as_slice(), out))
}
