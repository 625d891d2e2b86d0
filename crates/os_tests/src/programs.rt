//! Programs of one class over the operating system.
ghost use Rattle.std.specs.Prelude.{◌≡◌, IfOk, length};
ghost use Rattle.jack_core.specs.Texts.{the_program};
ghost use Rattle.jack_compiler.specs.Resolved.{IsResolvedCore};
ghost use Rattle.jack_machine.specs.Calls.{CallsAreThere};
ghost use Rattle.tower.specs.Spelled.{AreSpelled};

use jack_core::Core;
use jack_parser::parse_class;
use jack_tree::Class;
use outer_world::Name;
use std::alloc::Global;
use std::test::Fail;
use tower::program_of_classes;

/// The class that the text of a file spells, as the only class of a folder.
pub fn only(alloc: Global, file: &str, text: &[u8]) -> Result<Vec<Class>, Fail>
    ensures one { IfOk result (λ v. length v.items ≡ 1) }
    ensures spelled { IfOk result (λ v. AreSpelled v.items) }
{
    let file = Name::new(alloc, file)?;
    match parse_class(alloc, &file, text) {
        Ok(class) => Ok(vec![in alloc; class]?),
        Err(_) => Err(Fail::from("the text is a class")),
    }
}

/// The program of this class Main alone.
pub fn program_of(alloc: Global, text: &[u8]) -> Result<Core, Fail>
    ensures resolved { IfOk result IsResolvedCore }
    ensures there { IfOk result (λ core. CallsAreThere (the_program core)) }
{
    let own = only(alloc, "Main.jack", text)?;
    match program_of_classes(alloc, &own, false) {
        Ok(core) => Ok(core),
        Err(_) => Err(Fail::from("the class is a program")),
    }
}
