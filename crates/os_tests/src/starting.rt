//! How the operating system starts.
ghost use Rattle.jack_core.specs.Texts.{the_program};
ghost use Rattle.jack_compiler.specs.Resolved.{IsResolvedCore};
ghost use Rattle.jack_machine.specs.Calls.{CallsAreThere};

use crate::checks::{holds, is_told};
use crate::programs::{only, program_of};
use jack_core::Core;
use jack_machine::Jack;
use jack_names::NameKind;
use key_script::{Keys, read_keys};
use machine_io::{Level, drive};
use outer_world::Point;
use std::alloc::Global;
use std::process::Abort;
use std::test::Fail;
use tower::{ProgramError, build, prepare_hack, program_of_classes};

// A folder has no class of the system's names.
#[test]
fn no_class_is_there_twice(rt: HostRuntime) -> Result<(), Fail> {
    let alloc = rt.alloc();
    let own = only(alloc, "Math.jack", b"class Math { }")?;
    match program_of_classes(alloc, &own, false) {
        Err(ProgramError::Name(fault)) => {
            holds(&rt, "Math", fault.kind == NameKind::ClassTwice);
            Ok(())
        }
        _ => Err(Fail::from("a class is there twice")),
    }
}

fn no_keys(alloc: Global) -> Result<Keys, Fail> {
    Ok(read_keys(alloc, b"").ok().ok_or("no line is a script")?)
}

// After this many moves from its start the meaning is at this statement.
fn comes_to(
    rt: &impl Abort,
    alloc: Global,
    core: &Core,
    moves: u32,
    name: &str,
    number: u32,
) -> Result<(), Fail>
    requires { CallsAreThere (the_program core.now) }
{
    let keys = no_keys(alloc)?;
    let mut jack = Jack::new(alloc, core)?;
    drive(&mut jack, &keys, u64::from(moves))?;
    let point = jack.point();
    let at = core
        .subroutines
        .get(point.sub as usize)
        .ok_or("the point is in a subroutine")?;
    is_told(rt, "the statement", at.name.as_str(), name);
    holds(rt, name, point.number == number);
    Ok(())
}

// Where the computer is after 200,000 cycles.
fn point_on_computer(alloc: Global, core: &Core) -> Result<Point, Fail>
    requires { IsResolvedCore core.now }
{
    let Ok(image) = build(alloc, core) else {
        return Err(Fail::from("the program has no image"));
    };
    let mut hack = prepare_hack(alloc, image)?;
    drive(&mut hack, &no_keys(alloc)?, 200_000)?;
    Ok(hack.point())
}

// The first steps of the system, and that the program begins within 200,000 cycles.
#[test]
fn the_system_starts(rt: HostRuntime) -> Result<(), Fail> {
    let alloc = rt.alloc();
    let main = b"class Main { function void main() { while (true) { } } }";
    let core = program_of(alloc, main.as_slice())?;
    for (moves, name, number) in [
        (1, "Sys.init", 1),
        (2, "Memory.init", 1),
        (9, "Memory.init", 3),
        (10, "Memory.init", 4),
    ] {
        comes_to(&rt, alloc, &core, moves, name, number)?;
    }
    let point = point_on_computer(alloc, &core)?;
    holds(&rt, "the computer", point == Point { sub: 1, number: 1 });
    Ok(())
}

// The program begins after 1,735 steps, and six later stands at the loop. A round is six steps, and the last test two.
#[test]
fn wait_counts_down(rt: HostRuntime) -> Result<(), Fail> {
    let main = b"class Main { function void main() { do Sys.wait(1000); return; } }";
    let core = program_of(rt.alloc(), main.as_slice())?;
    comes_to(&rt, rt.alloc(), &core, 7_743, "Sys.wait", 5)
}
