//! Small programs, translated and run on the machine. Their words are counted by hand from the book's chapters 7 and 8.

ghost use Rattle.std.specs.Prelude.{◌≤◌, IfOk, length};
ghost use Rattle.vm_link.specs.Sound.{IsSound};

use crate::checks::{is_told, is_word};
use crate::programs::{EVERY_COMMAND, EVERY_COMMAND_WORDS, FunctionRow, Written, linked, sound};
use hack_isa::{Instr, encode};
use hack_machine::Hack;
use std::alloc::{AllocError, Global};
use std::process::Abort;
use std::test::*;
use vm_link::Linked;
use vm_translator::*;
use vm_tree::{Operation, Segment};

fn word_of(instr: Instr) -> Result<u16, Fail> {
    match instr {
        Instr::Address(n) => {
            if n >= 32768 {
                return Err(Fail::from("a number past an instruction"));
            }
            Ok(encode(&Instr::Address(n)))
        }
        Instr::Compute {
            memory,
            comp,
            dest,
            jump,
        } => {
            if comp >= 64 || dest >= 8 || jump >= 8 {
                return Err(Fail::from("bits past an instruction"));
            }
            Ok(encode(&Instr::Compute {
                memory,
                comp,
                dest,
                jump,
            }))
        }
        Instr::Shift {
            memory,
            left,
            of_d,
            dest,
            jump,
        } => {
            if of_d && memory || dest >= 8 || jump >= 8 {
                return Err(Fail::from("bits past an instruction"));
            }
            Ok(encode(&Instr::Shift {
                memory,
                left,
                of_d,
                dest,
                jump,
            }))
        }
    }
}

fn coded(alloc: Global, linked: &Linked) -> Result<Coded, CodeFault>
    requires { IsSound linked.now }
{
    translate(alloc, linked, linked.bare)
}

// The words of a program's image.
fn image(alloc: Global, coded: &Coded) -> Result<Vec<u16>, Fail>
    ensures { IfOk result (λ v. length v.items ≤ 32768) }
{
    let mut words = Vec::new(alloc);
    for instr in coded.instrs.as_slice() {
        words.push(word_of(*instr)?)?;
    }
    if words.len() > 32768 {
        return Err(Fail::from("too many words"));
    }
    Ok(words)
}

fn go_on(machine: &mut Hack, steps: u16) -> Result<(), Fail> {
    for _ in 0..steps {
        if machine.moves() > 100000 {
            return Err(Fail::from("too many moves"));
        }
        machine.step(0);
    }
    Ok(())
}

// The machine with an image, after this many steps.
fn machine(alloc: Global, words: &[u16], steps: u16) -> Result<Hack, Fail>
    requires { length words.now ≤ 32768 }
{
    let mut machine = Hack::new(alloc, words)?;
    go_on(&mut machine, steps)?;
    Ok(machine)
}

// Functions, and after this many steps words at their addresses.
struct Case<'a> {
    functions: &'a [FunctionRow<'a>],
    steps: u16,
    words: &'a [(u16, u16)],
}

const CASES: &[Case<'static>] = &[
    // The frames of two calls: the return address and the caller's four pointers, and then what the call pushes.
    // Sys.seven's value 7 stands where its frame began, and goes to the temp word 0.
    Case {
        functions: &[
            (
                "Sys.init",
                0,
                &[
                    Written::Call("Sys.seven", 0),
                    Written::Pop(Segment::Temp, 0),
                    Written::Label("END"),
                    Written::Goto("END"),
                ],
                &[],
            ),
            (
                "Sys.seven",
                0,
                &[Written::Push(Segment::Constant, 7), Written::Return],
                &[],
            ),
        ],
        steps: 1000,
        words: &[
            (0, 261),
            (1, 261),
            (2, 256),
            (257, 0),
            (258, 0),
            (259, 0),
            (260, 0),
            (261, 7),
            (262, 261),
            (263, 256),
            (266, 7),
            (5, 7),
        ],
    },
    // 20000 < -20000, and -20000 < 20000: the differences are past a word. The answers go to the last two statics,
    // which are the words 254 and 255, below the stack.
    Case {
        functions: &[(
            "Sys.init",
            0,
            &[
                Written::Push(Segment::Constant, 20000),
                Written::Push(Segment::Constant, 20000),
                Written::Operate(Operation::Neg),
                Written::Operate(Operation::Lt),
                Written::Pop(Segment::Static, 238),
                Written::Push(Segment::Constant, 20000),
                Written::Operate(Operation::Neg),
                Written::Push(Segment::Constant, 20000),
                Written::Operate(Operation::Lt),
                Written::Pop(Segment::Static, 239),
                Written::Label("END"),
                Written::Goto("END"),
            ],
            &[],
        )],
        steps: 1000,
        words: &[(254, 0), (255, 65535), (0, 261)],
    },
    // the words of the virtual machine
    Case {
        functions: EVERY_COMMAND,
        steps: 3000,
        words: EVERY_COMMAND_WORDS,
    },
];

// The words of these functions, of the row of this number.
fn words(alloc: Global, number: usize, functions: &[FunctionRow<'_>]) -> Result<Vec<u16>, Fail>
    ensures { IfOk result (λ v. length v.items ≤ 32768) }
{
    let linked = sound(alloc, number, functions)?;
    match coded(alloc, &linked) {
        Ok(coded) => image(alloc, &coded),
        Err(fault) => Err(Fail::new(format!(in alloc; "row {number}: {fault}")?)),
    }
}

fn runs(rt: &impl Abort, alloc: Global, number: usize, case: &Case<'_>) -> Result<(), Fail> {
    let words = words(alloc, number, case.functions)?;
    let machine = machine(alloc, &words, case.steps)?;
    for (address, word) in case.words {
        assert!(rt; *address < 24576);
        is_word(rt, number, *address, machine.ram(*address), *word);
    }
    Ok(())
}

// Commands of a program without start code.
const COMPARISON: &[Written] = &[
    Written::Push(Segment::Constant, 17),
    Written::Push(Segment::Constant, 17),
    Written::Operate(Operation::Eq),
];

fn comparison(alloc: Global) -> Result<Linked, Fail>
    ensures { IfOk result IsSound }
{
    match linked(alloc, &[("Eq", COMPARISON, &[])], true) {
        Ok(linked) => Ok(linked),
        Err(fault) => Err(Fail::new(format!(in alloc; "{fault}")?)),
    }
}

fn comparison_words(alloc: Global) -> Result<Vec<u16>, Fail>
    ensures { IfOk result (λ v. length v.items ≤ 32768) }
{
    let linked = comparison(alloc)?;
    match coded(alloc, &linked) {
        Ok(coded) => image(alloc, &coded),
        Err(_) => Err(Fail::from("no code")),
    }
}

// The stack pointer and the word below it after this many steps.
fn stack_after(alloc: Global, words: &[u16], steps: u16) -> Result<(u16, u16), Fail>
    requires { length words.now ≤ 32768 }
{
    let mut machine = Hack::new(alloc, words)?;
    machine.set_ram(0, 256);
    go_on(&mut machine, steps)?;
    Ok((machine.ram(0), machine.ram(256)))
}

// Its stack stays as it is after its last command, also long after that.
fn comparison_stays(rt: &impl Abort, alloc: Global) -> Result<(), Fail> {
    let words = comparison_words(alloc)?;
    for steps in [60u16, 1000] {
        let (pointer, word) = stack_after(alloc, &words, steps)?;
        is_word(rt, usize::from(steps), 0, pointer, 257);
        is_word(rt, usize::from(steps), 256, word, 65535);
    }
    Ok(())
}

// Sys.init with `negs` commands `neg` and then `adds` commands `add` has 58 + 3 * negs + 5 * adds words. Of these 23
// are of the start and 34 of the routine of calls. Here stands what is reported of them.
const IMAGES: [(u16, u16, &str); 2] = [(10900, 2, "32768 words"), (10902, 1, "TooLarge 32769")];

fn operations(alloc: Global, negs: u16, adds: u16) -> Result<Vec<Written>, AllocError> {
    let mut lines = Vec::new(alloc);
    for _ in 0..negs {
        lines.push(Written::Operate(Operation::Neg))?;
    }
    for _ in 0..adds {
        lines.push(Written::Operate(Operation::Add))?;
    }
    Ok(lines)
}

fn told(alloc: Global, negs: u16, adds: u16) -> Result<String, Fail> {
    let lines = operations(alloc, negs, adds)?;
    let linked = sound(alloc, 0, &[("Sys.init", 0, lines.as_slice(), &[])])?;
    match coded(alloc, &linked) {
        Ok(coded) => {
            let words = image(alloc, &coded)?.len();
            Ok(format!(in alloc; "{words} words")?)
        }
        Err(fault) => Ok(format!(in alloc; "{fault}")?),
    }
}

fn cases_table() -> &'static [Case<'static>] {
    CASES
}

#[test]
fn images(rt: HostRuntime) -> Result<(), Fail> {
    for (number, case) in cases_table().iter().enumerate() {
        runs(&rt, rt.alloc(), number, case)?;
    }
    comparison_stays(&rt, rt.alloc())
}

#[test]
fn images_at_the_limit(rt: HostRuntime) -> Result<(), Fail> {
    for (row, (negs, adds, wanted)) in IMAGES.iter().enumerate() {
        let found = told(rt.alloc(), *negs, *adds)?;
        is_told(&rt, "images", row, &found, wanted);
    }
    Ok(())
}
