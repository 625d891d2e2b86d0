ghost use Rattle.std.specs.Prelude.{◌≡◌, IfOk, length};
ghost use Rattle.jack_compiler.specs.Resolved.{IsResolvedCore};
ghost use Rattle.tower.specs.Spelled.{AreSpelled};

use crate::checks::{holds, is_told};
use jack_core::Core;
use jack_names::{NameFault, NameKind};
use jack_parser::parse_class;
use jack_tree::Class;
use machine_io::{End, Keyboard, Level, drive};
use outer_world::{MemorySink, Name, Point, Put};
use scan_text::Place;
use std::alloc::Global;
use std::process::Abort;
use std::test::Fail;
use tower::{ProgramError, build, compile_classes, prepare_hack, program_of_classes};
use vm_tree::{File, print_files};

// The class Main that a text spells, as the only class of a folder.
fn only(alloc: Global, text: &[u8]) -> Result<Vec<Class>, Fail>
    ensures one { IfOk result (λ v. length v.items ≡ 1) }
    ensures spelled { IfOk result (λ v. AreSpelled v.items) }
{
    let file = Name::new(alloc, "Main.jack")?;
    match parse_class(alloc, &file, text) {
        Ok(class) => Ok(vec![in alloc; class]?),
        Err(_) => Err(Fail::from("the text is a class")),
    }
}

pub(crate) struct NoKeys;

impl Keyboard for NoKeys {
    ghost code = { λ _ c. 0 };

    fn at(&self, _c: u64) -> u16 {
        0
    }
}

fn is_unknown(rt: &impl Abort, fault: &NameFault) {
    let place = Place {
        line: 1,
        column: 41,
    };
    holds(rt, "the kind", fault.kind == NameKind::UnknownVariable);
    holds(rt, "the place", fault.place == place);
}

#[test]
fn unknown_variable(rt: HostRuntime) -> Result<(), Fail> {
    let own = only(
        rt.alloc(),
        b"class Main { function void main() { let x = 1; return; } }",
    )?;
    match program_of_classes(rt.alloc(), &own, false) {
        Err(ProgramError::Name(fault)) => {
            is_unknown(&rt, &fault);
            let text = format!(in rt.alloc(); "{}", ProgramError::Name(fault))?;
            is_told(&rt, "x", &text, "Main.jack:1:41: UnknownVariable x");
            Ok(())
        }
        _ => Err(Fail::from("a name has a fault")),
    }
}

fn has_its_names(rt: &impl Abort, core: &Core) {
    holds(rt, "how many", core.subroutines.len() == 63);
    if let Some(subroutine) = core.subroutines.get(1) {
        is_told(rt, "subroutine", subroutine.name.as_str(), "Main.add");
    }
    match core.classes.first() {
        Some(class) => is_told(rt, "class", class.name.as_str(), "Main"),
        None => holds(rt, "class", false),
    }
}

// How a run of 30,000 cycles ends, and what stands there then.
#[derive(Clone, Copy)]
struct Seen {
    end: End,
    first: u16,
    second: u16,
    point: Point,
}

fn seen_at_end(alloc: Global, core: &Core) -> Result<Seen, Fail>
    requires { IsResolvedCore core.now }
{
    let Ok(image) = build(alloc, core) else {
        return Err(Fail::from("the program has no image"));
    };
    let mut hack = prepare_hack(alloc, image)?;
    let end = drive(&mut hack, &NoKeys, 30000)?;
    Ok(Seen {
        end,
        first: hack.word_at(16384),
        second: hack.word_at(16385),
        point: hack.point(),
    })
}

// The object is the first two words of the screen. At the end the system halts: `Sys` has the last of the 63
// subroutines, `init`, `halt`, `error` and `wait`.
#[test]
fn method_and_static(rt: HostRuntime) -> Result<(), Fail> {
    let own = only(
        rt.alloc(),
        b"class Main { static int n; field int sum, last;
        method void add(int k) { let sum = sum + k; let last = n; return; }
        function void main() { var Main m; let m = 16384;
            while (n < 3) { let n = n + 1; do m.add(n); } return; } }",
    )?;
    let Ok(core) = program_of_classes(rt.alloc(), &own, false) else {
        return Err(Fail::from("the class is a program"));
    };
    has_its_names(&rt, &core);
    let seen = seen_at_end(rt.alloc(), &core)?;
    holds(&rt, "the end", seen.end == End::Bound);
    holds(&rt, "the words", (seen.first, seen.second) == (6, 3));
    holds(&rt, "the point", seen.point == Point { sub: 60, number: 1 });
    Ok(())
}

const TWO: &[u8] =
    b"// file Main.vm\nfunction Main.main 0\npush constant 0\nreturn\nfunction Main.two 0\npush constant 2\nreturn\n";

fn has_its_text(rt: &impl Abort, alloc: Global, file: &File) -> Result<(), Fail> {
    is_told(rt, "file", file.name.as_str(), "Main");
    holds(rt, "functions", file.functions.as_slice().len() == 2);
    let mut sink = MemorySink::new(alloc, 1000, Vec::new(alloc))?;
    let put = print_files(std::slice::from_ref(file), &mut sink);
    holds(rt, "put", put == Put::Done);
    holds(rt, "text", sink.bytes() == TWO);
    Ok(())
}

// The VM text of a class, also of a subroutine that nothing calls.
#[test]
fn class_compiled(rt: HostRuntime) -> Result<(), Fail> {
    let own = only(
        rt.alloc(),
        b"class Main { function void main() { } function int two() { return 2; } }",
    )?;
    let Ok(files) = compile_classes(rt.alloc(), &own, false) else {
        return Err(Fail::from("the class is a program"));
    };
    match files.as_slice().first() {
        Some(first) => has_its_text(&rt, rt.alloc(), first),
        None => Err(Fail::from("a class has a file")),
    }
}

// However many operators stand in a row, neither reading nor resolving them needs more of the stack.
#[test]
fn many_operators(rt: HostRuntime) -> Result<(), Fail> {
    let mut text = String::from_str(
        rt.alloc(),
        "class Main { function void main() { var int x; let x = 0",
    )?;
    for _ in 0..300_000 {
        text.push_str("+1")?;
    }
    text.push_str("; return; } }")?;
    let own = only(rt.alloc(), text.as_bytes())?;
    let is_program = program_of_classes(rt.alloc(), &own, false).is_ok();
    holds(&rt, "many operators", is_program);
    Ok(())
}
