//! `resolve` over a system of one class, which does nothing but call `Main.main`: the folder brings all else that it
//! calls.
ghost use Rattle.std.specs.Prelude.{◌≡◌, ◌≤◌, IfOk, length};
ghost use Rattle.jack_core.specs.Texts.{the_program};
ghost use Rattle.jack_machine.specs.Calls.{CallsAreThere};
ghost use Rattle.tower.specs.Spelled.{AreSpelled, IsSpelled};

use crate::programs::NoKeys;
use jack_core::Core;
use jack_machine::Jack;
use jack_names::{NameError, resolve};
use jack_parser::parse_class;
use jack_tree::Class;
use machine_io::{End, Level, drive};
use outer_world::Name;
use std::alloc::Global;
use std::test::*;
use tower::read_law;

// A file: its name and its text.
#[derive(Clone, Copy)]
struct File<'a>(&'a str, &'a [u8]);

fn class_of(alloc: Global, file: File<'_>) -> Result<Class, Fail>
    ensures { IfOk result IsSpelled }
{
    let name = Name::new(alloc, file.0)?;
    match parse_class(alloc, &name, file.1) {
        Ok(class) => Ok(class),
        Err(_) => Err(Fail::from("the text is a class")),
    }
}

fn system(alloc: Global) -> Result<Vec<Class>, Fail>
    ensures one { IfOk result (λ v. length v.items ≡ 1) }
    ensures spelled { IfOk result (λ v. AreSpelled v.items) }
{
    let text = b"class Sys { function void init() { do Main.main(); return; } }";
    let class = class_of(alloc, File("Sys.jack", text.as_slice()))?;
    Ok(vec![in alloc; class]?)
}

// The program of a few classes and of those of a system, or the first fault.
fn core_of(alloc: Global, own: &[Class], os: &[Class]) -> Result<Core, NameError>
    requires few { length own.now ≤ 2 }
    requires one { length os.now ≤ 1 }
    requires own { AreSpelled own.now }
    requires os { AreSpelled os.now }
    ensures { IfOk result (λ core. CallsAreThere (the_program core)) }
{
    read_law();
    match resolve(alloc, own, os) {
        Ok(core) => Ok(core),
        Err(e) => Err(e),
    }
}

// The folder brings the call that a constructor makes.
fn made(alloc: Global) -> Result<Core, Fail>
    ensures { IfOk result (λ core. CallsAreThere (the_program core)) }
{
    let main =
        b"class Main { field int x; constructor Main new() { let x = 5; return this; } function void main() { var Main m; let m = Main.new(); return; } }";
    let memory = b"class Memory { function int alloc(int n) { return 2048; } }";
    let main = class_of(alloc, File("Main.jack", main.as_slice()))?;
    let memory = class_of(alloc, File("Memory.jack", memory.as_slice()))?;
    let own = vec![in alloc; main, memory]?;
    match core_of(alloc, &own, &system(alloc)?) {
        Ok(core) => Ok(core),
        Err(_) => Err(Fail::from("the classes are a program")),
    }
}

// After 19 steps all calls have come back, and the field of the object has its value.
#[test]
fn a_constructor_takes_memory(rt: HostRuntime) -> Result<(), Fail> {
    let core = made(rt.alloc())?;
    let mut jack = Jack::new(rt.alloc(), &core)?;
    let end = drive(&mut jack, &NoKeys, 100)?;
    let counted = (jack.moves(), jack.steps());
    let point = jack.point();
    assert!(rt; end == End::Done && counted == (19, 19));
    assert!(rt; point.sub == 0 && point.number == 2 && jack.word_at(2048) == 5);
    Ok(())
}

// The third step comes to where a constructor takes the memory of its object.
#[test]
fn a_constructor_begins_at_0(rt: HostRuntime) -> Result<(), Fail> {
    let core = made(rt.alloc())?;
    let mut jack = Jack::new(rt.alloc(), &core)?;
    drive(&mut jack, &NoKeys, 3)?;
    let point = jack.point();
    let sub = core
        .subroutines
        .get(point.sub as usize)
        .ok_or("the point is in a subroutine")?;
    assert!(rt; sub.name.as_str() == "Main.new" && point.number == 0);
    Ok(())
}

// A product is a call of Math, which neither the folder nor this system has; it is reported at its operator.
#[test]
fn a_product_wants_math(rt: HostRuntime) -> Result<(), Fail> {
    let text = b"class Main { function void main() { var int x; let x = 2 * 3; return; } }";
    let alloc = rt.alloc();
    let main = class_of(alloc, File("Main.jack", text.as_slice()))?;
    let own = vec![in alloc; main]?;
    match core_of(alloc, &own, &system(alloc)?) {
        Err(NameError::Fault(fault)) => {
            let told = format!(in alloc; "{fault}")?;
            assert!(rt; told.as_str() == "Main.jack:1:58: UnknownClass Math");
            Ok(())
        }
        _ => Err(Fail::from("a name has a fault")),
    }
}
