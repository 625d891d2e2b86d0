//! The command `soak`: the summary of generated programs.
ghost use Rattle.std.specs.Prelude.{◌≡◌, ◌+◌, ◌%◌, ◌<◌, ◌≤◌, [], IfOk, if◌then◌else◌};
ghost use Rattle.command_line.specs.Line.{soak};
ghost use Rattle.outer_world.specs.Held.{Buffers, HaveSameSink, pending, sink_of};
ghost use Rattle.outer_world.specs.Written.{Puts};
ghost use Rattle.outer_world.specs.State.{Keeps, SinkState};
ghost use Rattle.source_files.specs.Loads.{Loads};
ghost use Rattle.nand_cli.specs.Commands.Soak.{AreOutcomes, HasNoImage, HasOutcome, SoakRefuses, soak_files, summary_text};
ghost use Rattle.nand_cli.specs.Inner.Parts.{Counts, Does};
ghost use Rattle.nand_cli.specs.declared.commands.soak.Summary.{Summary};
ghost use Rattle.nand_cli.specs.declared.soak.Outcome.{Outcome};

use crate::failure::{Failure, finished};
use crate::jack::{image_of, load_jack};
use crate::soak::{Outcome, outcome_at_levels};
use command_line::Source;
use itoa::Buffer;
use outer_world::{MemoryShelf, Name, Pieces, Put, Shelf, Sink};
use soak_program::program;
use source_files::LoadError;
use std::alloc::{AllocError, Global};

// The folder of a generated program.
const FOLDER: &str = "soak";

/// Of some programs: how many agree, the sum of their steps, and that of their words to 16 bits.
#[derive(Clone, Copy)]
pub struct Summary {
    agree: u32,
    steps: u64,
    sum: u16,
}

// The folder of a generated program with its text.
fn shelf_with(alloc: Global, text: Vec<u8>) -> Result<MemoryShelf, AllocError>
    ensures { IfOk result (λ shelf. shelf
        ≡ record { files = soak_files text.items; fails = []; calls = 0; faults = 0 }) }
{
    let mut files = Vec::new(alloc);
    files.push((Name::new(alloc, "soak/Main.jack")?, text))?;
    Ok(MemoryShelf::new(files, Vec::new(alloc)))
}

// What is reported of the program that a seed has at a number, or why it has no image.
fn outcome_of(alloc: Global, seed: u32, number: u32) -> Result<Outcome, LoadError>
    ensures { Loads (λ (told : Outcome). HasOutcome seed number told.steps told.sum told.agrees)
        (HasNoImage seed number) ⊥ result }
{
    let text = program(alloc, seed, number)?;
    let mut shelf = shelf_with(alloc, text)?;
    let source = Source {
        folder: FOLDER,
        replace: false,
    };
    let core = load_jack(alloc, &source, &mut shelf)?;
    let image = image_of(alloc, FOLDER, &core)?;
    Ok(outcome_at_levels(alloc, &core, image)?)
}

// The totals with one more program.
fn with_one(told: &Summary, one: &Outcome) -> Summary
    requires agree { told.now.agree < 4294967295 }
    requires steps { told.now.steps ≤ 18446744069414584320 }
    ensures agree { result.agree ≡ told.now.agree + (if one.now.agrees then 1 else 0) }
    ensures steps { result.steps ≡ told.now.steps + one.now.steps }
    ensures sum { result.sum ≡ (told.now.sum + one.now.sum) % 65536 }
    ensures few_agree { result.agree ≤ told.now.agree + 1 }
    ensures few_steps { result.steps ≤ told.now.steps + 4294967295 }
{
    let agree = if one.agrees {
        told.agree + 1
    } else {
        told.agree
    };
    Summary {
        agree,
        steps: told.steps + u64::from(one.steps),
        sum: told.sum.wrapping_add(one.sum),
    }
}

// What is reported of the first programs of a seed, this many.
fn summary_of(alloc: Global, seed: u32, count: u32) -> Result<Summary, LoadError>
    ensures { Loads (λ (told : Summary). AreOutcomes seed count told.agree told.steps told.sum)
        (SoakRefuses seed count) ⊥ result }
{
    let mut told = Summary {
        agree: 0,
        steps: 0,
        sum: 0,
    };
    for before in 0..count {
        let one = outcome_of(alloc, seed, before + 1)?;
        told = with_one(&told, &one);
    }
    Ok(told)
}

// Puts the four lines.
fn put_summary<S: Sink>(seed: u32, count: u32, told: &Summary, out: &mut Pieces<'_, S>) -> Put
    ensures same_sink { HaveSameSink out.old out.new }
    ensures passes { Buffers out.old out.new
        (summary_text seed count told.now.agree told.now.steps told.now.sum) result }
{
    let mut seeds = Buffer::new();
    let mut counts = Buffer::new();
    let mut agree = Buffer::new();
    let mut steps = Buffer::new();
    let mut sum = Buffer::new();
    out.put_all(&[
        b"soak ",
        seeds.format(seed).as_bytes(),
        b" ",
        counts.format(count).as_bytes(),
        b"\nagree ",
        agree.format(told.agree).as_bytes(),
        b"\nsteps ",
        steps.format(told.steps).as_bytes(),
        b"\nsum ",
        sum.format(told.sum).as_bytes(),
        b"\n",
    ])
}

// The same from an empty buffer, which is empty again after it.
fn put_whole<S: Sink>(seed: u32, count: u32, told: &Summary, out: &mut Pieces<'_, S>) -> Put
    requires { pending out.old ≡ [] }
    ensures same_sink { HaveSameSink out.old out.new }
    ensures put { Puts (S.state (sink_of out.old)) (S.state (sink_of out.new))
        (summary_text seed count told.now.agree told.now.steps told.now.sum) result }
{
    match put_summary(seed, count, told, out) {
        Put::Done => out.finish(),
        Put::Failed => Put::Failed,
    }
}

// The same, into a sink.
fn show_summary<O: Sink>(seed: u32, count: u32, told: &Summary, out: &mut O) -> Put
    ensures put { Puts (O.state out.old) (O.state out.new)
        (summary_text seed count told.now.agree told.now.steps told.now.sum) result }
{
    let mut pieces = Pieces::new(out);
    put_whole(seed, count, told, &mut pieces)
}

/// Does a line of `soak`; the shelf and err are left as they are.
pub fn answer_soak<F: Shelf, O: Sink>(
    alloc: Global,
    seed: u32,
    count: u32,
    _shelf: &mut F,
    out: &mut O,
) -> Result<(), Failure>
    ensures does { (err : SinkState) → Does (F.state _shelf.old) (soak seed count) (O.state out.old)
        (O.state out.new) err err result }
    ensures counts { (err : SinkState) → Counts (F.faults _shelf.old) (F.faults _shelf.new)
        (O.state out.old) (O.state out.new) err err result }
    ensures keeps { Keeps (F.state _shelf.old) (F.state _shelf.new) }
{
    let told = summary_of(alloc, seed, count)?;
    finished(show_summary(seed, count, &told, out))
}
