//! How large the operating system is in an image.
ghost use Rattle.std.specs.Prelude.{◌≡◌};
ghost use Rattle.vm_templates.specs.Budgets.{most_words};
ghost use Rattle.vm_templates.specs.Templates.{operation_words};

use crate::programs::program_of;
use jack_compiler::link_core;
use std::alloc::Global;
use std::test::Fail;
use vm_link::{Linked, Step};
use vm_tree::Operation;

// The most words that an operation may have.
fn operation_words(operation: Operation) -> u64
    ensures { result ≡ operation_words operation }
{
    match operation {
        Operation::Add => 5,
        Operation::Sub => 5,
        Operation::And => 5,
        Operation::Or => 5,
        Operation::Neg => 3,
        Operation::Not => 3,
        Operation::ShiftLeft => 3,
        Operation::ShiftRight => 3,
        Operation::Eq => 4,
        Operation::Gt => 4,
        Operation::Lt => 4,
    }
}

// The most words that a command may have.
fn most_words(step: Step) -> u64
    ensures { result ≡ most_words step }
{
    match step {
        Step::Operate(operation) => operation_words(operation),
        Step::Push(_, _) => 9,
        Step::Pop(_, _) => 12,
        Step::Goto(_) => 2,
        Step::IfGoto(_) => 5,
        Step::Function(locals) => 14 + 4 * u64::from(locals),
        Step::Call(_, _) => 12,
        Step::Return => 8,
    }
}

// The budget of linked code by its commands.
fn budget_of(linked: &Linked) -> u64 {
    let mut words = 256u64;
    for function in linked.functions.as_slice() {
        for code in function.code.as_slice() {
            words = words.saturating_add(most_words(code.step));
        }
    }
    words
}

fn budget(alloc: Global, main: &[u8]) -> Result<u64, Fail> {
    let core = program_of(alloc, main)?;
    let linked = link_core(alloc, &core).ok().ok_or("the program is linked")?;
    Ok(budget_of(&linked))
}

// The operating system's own part of an image, at most.
#[test]
fn system_is_small(rt: HostRuntime) -> Result<(), Fail> {
    let words = budget(rt.alloc(), b"class Main { function void main() { } }")?;
    assert!(rt; words <= 10_000);
    Ok(())
}

// A program that calls each subroutine of the system.
const EACH: &str = "class Main {
    function void main() {
        var Array s;
        var String t;
        let s = 16384;
        let s[0] = 1;
        if (s[0] = 2) {
            do Sys.wait(Math.abs(Math.min(1, Math.max(2, Math.sqrt(3 * 4 / 5)))));
            let t = String.new(5);
            do t.appendChar(String.backSpace());
            do t.setCharAt(0, String.doubleQuote());
            do t.setInt(t.length() + t.intValue() + t.charAt(0));
            do t.eraseLastChar();
            do t.dispose();
            let s = Array.new(3);
            do s.dispose();
            do Output.moveCursor(1, 2);
            do Output.printChar(String.newLine());
            do Output.printString(t);
            do Output.printInt(7);
            do Output.println();
            do Output.backSpace();
            do Screen.clearScreen();
            do Screen.setColor(true);
            do Screen.drawPixel(1, 2);
            do Screen.drawLine(1, 2, 3, 4);
            do Screen.drawRectangle(1, 2, 3, 4);
            do Screen.drawCircle(9, 9, 3);
            do Screen.drawPixel(Keyboard.keyPressed(), Keyboard.readChar());
            let t = Keyboard.readLine(t);
            do Memory.poke(Memory.peek(Memory.alloc(2)), Keyboard.readInt(t));
            do Memory.deAlloc(s);
            do Sys.error(7);
        }
        return;
    }
}
";

// The image of a program that calls each of them, at most.
#[test]
fn whole_system_is_small(rt: HostRuntime) -> Result<(), Fail> {
    let words = budget(rt.alloc(), EACH.as_bytes())?;
    assert!(rt; words <= 28_000);
    Ok(())
}
