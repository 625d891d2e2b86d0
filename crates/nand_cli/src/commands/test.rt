//! The command `test`: a test script.
ghost use Rattle.std.specs.Prelude.{◌≡◌};
ghost use Rattle.outer_world.specs.State.{Keeps};
ghost use Rattle.command_line.specs.Line.{test};
ghost use Rattle.nand_cli.specs.Inner.Parts.{CountsTest, Does, end_result};
ghost use Rattle.nand_cli.specs.Commands.Test.{memories_of};

use crate::failure::Failure;
use hdl_tree::Memories;
use outer_world::{Shelf, Sink};
use std::alloc::Global;
use tst_runner::{ScriptError, Verdict, run_script};

// How a line of `test` ends.
fn ended(script: Result<Verdict, ScriptError>) -> Result<(), Failure>
    ensures { result ≡ end_result script }
{
    match script {
        Ok(Verdict::Same | Verdict::NoCompare) => Ok(()),
        Ok(Verdict::Differs(difference)) => Err(Failure::Differs(difference)),
        Err(ScriptError::Unloaded(error)) => Err(Failure::Unloaded(error)),
        Err(ScriptError::Out) => Err(Failure::Out),
        Err(ScriptError::Err) => Err(Failure::Echo),
    }
}

// How the memories of chips are simulated, by the option `--gates`.
fn memories_of(gates: bool) -> Memories
    ensures { result ≡ memories_of gates }
{
    if gates {
        Memories::Gates
    } else {
        Memories::Blocks
    }
}

/// Does a line of `test`; the message of how it ended is not put.
pub fn answer_test<F: Shelf, O: Sink, E: Sink>(
    alloc: Global,
    path: &str,
    gates: bool,
    simplify: bool,
    shelf: &mut F,
    out: &mut O,
    err: &mut E,
) -> Result<(), Failure>
    ensures does { Does (F.state shelf.old) (test path.now gates simplify) (O.state out.old)
        (O.state out.new) (E.state err.old) (E.state err.new) result }
    ensures counts { CountsTest (F.faults shelf.old) (F.faults shelf.new) (O.state out.old)
        (O.state out.new) (E.state err.old) (E.state err.new) result }
    ensures keeps { Keeps (F.state shelf.old) (F.state shelf.new) }
{
    ended(run_script(alloc, path, memories_of(gates), simplify, shelf, out, err))
}
