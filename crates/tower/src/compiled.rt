//! The VM files of a folder's classes.
ghost use Rattle.std.specs.Prelude.{◌≤◌, IfErr, IfOk, Err, length};
ghost use Rattle.tower.specs.Compiled.{AreCompiled, AreNamed};
ghost use Rattle.tower.specs.Program.{IsProgram};
ghost use Rattle.tower.specs.Spelled.{AreSpelled};

use crate::program::{ProgramError, program_of_classes};
use jack_compiler::compile;
use jack_tree::Class;
use std::alloc::Global;
use vm_tree::Program;

/// The VM files of the program that a folder's classes, in order of file name, mean with those of the operating system beside them.
/// There is a file for each class, with every subroutine of it, whether something calls it or not. The files of the folder's classes
/// come first.
///
/// Otherwise the first name fault.
pub fn compile_classes(alloc: Global, own: &[Class], replace: bool) -> Result<Program, ProgramError>
    requires few { length own.now ≤ 256 }
    requires spelled { AreSpelled own.now }
    ensures compiled { IfOk result (AreCompiled replace own.now) }
    ensures named { IfOk result (AreNamed own.now) }
    ensures fault { IfErr result (λ e. IsProgram replace own.now (Err e)) }
{
    let core = program_of_classes(alloc, own, replace)?;
    let files = compile(alloc, &core)?;
    Ok(files)
}
