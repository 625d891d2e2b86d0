//! The command `exec`: words of the memory after a run of the instruction machine.
ghost use Rattle.std.specs.Prelude.{◌≡◌, ◌≤◌, IfOk, length};
ghost use Rattle.outer_world.specs.State.{Keeps, SinkState};
ghost use Rattle.command_line.specs.Line.{exec, of_file};
ghost use Rattle.hack_isa.specs.Machine.{machine_at, image_words};
ghost use Rattle.hack_machine.specs.Loaded.{machine_of};
ghost use Rattle.nand_cli.specs.Commands.Exec.{form_of};
ghost use Rattle.nand_cli.specs.Inner.Parts.{Counts, Does};

use crate::failure::{Failure, finished};
use command_line::Exec;
use hack_asm::{Form, ProgramLanguage};
use hack_machine::{Hack, cycles_law};
use key_script::Keys;
use machine_io::{Keyboard, drive, show_words};
use outer_world::{Shelf, Sink};
use source_files::load;
use std::alloc::{AllocError, Global};

/// The form that the path of a file names: `.hack` ends the path of an image, and any other is that of assembly.
pub fn form_of(path: &str) -> Form
    ensures { result ≡ form_of path.now }
{
    if path.as_bytes().ends_with(b".hack") {
        Form::Image
    } else {
        Form::Assembly
    }
}

// The instruction machine after this many cycles, each under its key.
fn machine_after<K: Keyboard>(
    alloc: Global,
    image: &[u16],
    keys: &K,
    cycles: u32,
) -> Result<Hack, AllocError>
    requires { length image.now ≤ image_words }
    ensures { IfOk result
        (λ hack. machine_of hack ≡ machine_at image.now (K.code keys.now) cycles) }
{
    let mut hack = Hack::new(alloc, image)?;
    // It acts under each key, so all the moves are made.
    drive(&mut hack, keys, u64::from(cycles))?;
    cycles_law();
    Ok(hack)
}

/// Does a line of `exec`; err is left as it is.
pub fn answer_exec<F: Shelf, O: Sink>(
    alloc: Global,
    path: &str,
    request: &Exec,
    shelf: &mut F,
    out: &mut O,
) -> Result<(), Failure>
    ensures does { (err : SinkState) → Does (F.state shelf.old)
        (of_file path.now (exec request.now.cycles request.now.from request.now.to))
        (O.state out.old) (O.state out.new) err err result }
    ensures counts { (err : SinkState) → Counts (F.faults shelf.old) (F.faults shelf.new)
        (O.state out.old) (O.state out.new) err err result }
    ensures keeps { Keeps (F.state shelf.old) (F.state shelf.new) }
{
    let language = ProgramLanguage {
        form: form_of(path),
    };
    let program = load(alloc, &language, path, "", shelf)?;
    let keys = Keys::none(alloc);
    let hack = machine_after(alloc, &program, &keys, request.cycles)?;
    finished(show_words(
        |a| hack.word_seen(0, a),
        request.from,
        request.to,
        true,
        out,
    ))
}
