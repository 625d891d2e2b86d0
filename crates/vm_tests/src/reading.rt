use crate::checks::{holds, is_told};
use crate::programs::shown;
use grammar::ReadError;
use outer_world::Name;
use std::alloc::Global;
use std::process::Abort;
use std::test::Fail;
use vm_parser::*;
use vm_tree::Program;

const EVERY_COMMAND: &str =
    "push constant 1\nfunction Sys.init 0\ncall Sys.f 2\npop temp 0\nlabel END\nif-goto END\ngoto END\nfunction Sys.f 3\npush argument 0\npush local 1\npop static 32767\npop this 2\npop that 3\npush pointer 1\npush temp 7\nadd\nsub\nneg\neq\ngt\nlt\nand\nor\nnot\nshiftleft\nshiftright\nreturn\n";

// texts, whether they are read bare, and what their programs are printed as; how many lines stand before the first
// function, and how many functions there are
const READ: &[(&str, bool, &str, (usize, usize))] = &[
    // every command is printed as it stands
    (EVERY_COMMAND, true, EVERY_COMMAND, (1, 2)),
    // comments, CRLF, tabs, empty lines, no line end at the end, leading zeros, and words of commands as names
    (
        "\r\n// a\rb\n\n function\tif 007 // c\r\nif-gotoX\nlabel add\nlabel a_1.b$c:d\n\npush temp 7\r\npop pointer 1\nnot\npush static 32767",
        false,
        "function if 7\nif-goto X\nlabel add\nlabel a_1.b$c:d\npush temp 7\npop pointer 1\nnot\npush static 32767\n",
        (0, 1),
    ),
    ("", false, "", (0, 0)),
    ("add", true, "add\n", (1, 0)),
];

// texts that are refused, whether they are read bare, and their faults
const REFUSED: &[(&str, bool, &str)] = &[
    (EVERY_COMMAND, false, "1:1: Grammar"),
    ("pop constant 1", true, "1:5: Grammar"),
    ("push pointer 2", true, "1:14: Range 2"),
    ("pop temp 8", true, "1:10: Range 8"),
    ("\nadd\n", false, "2:1: Grammar"),
    ("add\radd", true, "1:4: Grammar"),
    ("function f 0\nadd sub", false, "2:5: Grammar"),
    ("push constant", true, "1:14: Grammar"),
    ("label if-goto", true, "1:7: Grammar"),
    ("label 1x", true, "1:7: Grammar"),
    // a number over 32,767 comes before what stands before it
    ("push push\npush constant 32768", true, "2:15: Range 32768"),
    ("call f 9999999999", true, "1:8: Range 1000000000"),
];

fn read(alloc: Global, text: &[u8], bare: bool) -> Result<Program, ReadError> {
    let name = Name::new(alloc, "Sys")?;
    parse(alloc, &name, text, bare)
}

// What the program of a text is printed as, or the text's fault.
fn told(alloc: Global, text: &[u8], bare: bool) -> Result<String, Fail> {
    match read(alloc, text, bare) {
        Ok(program) => Ok(shown(alloc, &program)?),
        Err(fault) => Ok(format!(in alloc; "{fault}")?),
    }
}

// How many lines and functions a file Sys has, where a text is one.
fn shape(alloc: Global, text: &[u8], bare: bool) -> Option<(usize, usize)> {
    let program = read(alloc, text, bare).ok()?;
    let file = program.as_slice().first()?;
    if file.name.as_str() != "Sys" {
        return None;
    }
    Some((
        file.opening.as_slice().len(),
        file.functions.as_slice().len(),
    ))
}

fn read_table() -> &'static [(&'static str, bool, &'static str, (usize, usize))] {
    READ
}

fn refused_table() -> &'static [(&'static str, bool, &'static str)] {
    REFUSED
}

fn tells(
    rt: &impl Abort,
    alloc: Global,
    table: &str,
    row: usize,
    (text, bare, wanted): (&[u8], bool, &str),
) -> Result<(), Fail> {
    let found = told(alloc, text, bare)?;
    is_told(rt, table, row, &found, wanted);
    Ok(())
}

#[test]
fn texts(rt: HostRuntime) -> Result<(), Fail> {
    let alloc = rt.alloc();
    for (row, (text, bare, wanted, counts)) in read_table().iter().enumerate() {
        let text = text.as_bytes();
        tells(&rt, alloc, "read", row, (text, *bare, *wanted))?;
        holds(&rt, "read", row, shape(alloc, text, *bare) == Some(*counts));
    }
    for (row, (text, bare, wanted)) in refused_table().iter().enumerate() {
        tells(
            &rt,
            alloc,
            "refused",
            row,
            (text.as_bytes(), *bare, *wanted),
        )?;
    }
    Ok(())
}

// The longest text.
#[test]
fn lengths(rt: HostRuntime) -> Result<(), Fail> {
    let alloc = rt.alloc();
    let mut blanks = vec![in alloc; b' '; 1048576]?;
    tells(&rt, alloc, "blanks", 0, (&blanks, false, ""))?;
    blanks.push(b' ')?;
    tells(
        &rt,
        alloc,
        "blanks",
        1,
        (&blanks, false, "0:0: Range 1048577"),
    )
}

// The fronts of a text that are read: nothing, and those that end with a line.
#[test]
fn fronts(rt: HostRuntime) -> Result<(), Fail> {
    let text: &[u8] = b"function f 1\npush temp 7\n";
    for n in 0..text.len() {
        let ends = n == 0 || n == 12 || n == 13 || n == 24;
        let is_read = read(rt.alloc(), &text[..n], false).is_ok();
        holds(&rt, "fronts", n, is_read == ends);
    }
    let is_read = read(rt.alloc(), text, false).is_ok();
    holds(&rt, "fronts", text.len(), is_read);
    Ok(())
}
