use crate::checks::{holds, is_told};
use grammar::ReadError;
use jack_parser::*;
use jack_tree::{Class, Constant, Expression, Form, Operator, Statement, Subroutine, Term};
use outer_world::{MemorySink, Name, Put};
use scan_text::Place;
use std::alloc::{AllocError, Global};
use std::process::Abort;
use std::test::Fail;

// classes, the calls of the sink that fail, and what is printed
const PRINTED: &[(&str, &[(u64, u32)], Put, &str)] = &[
    (
        "class C { field int x; method int get() { return x*(x+1); } }",
        &[],
        Put::Done,
        "class C {\nfield int x ;\nmethod int get ( ) {\nreturn x * ( x + 1 ) ;\n}\n}\n",
    ),
    (
        "class Main { function void main() { } }",
        &[],
        Put::Done,
        "class Main {\nfunction void main ( ) {\n}\n}\n",
    ),
    (
        "class A{function void f(){if(~a[1]){do b.g(1,\"s t\");}else{let a[0]=-2;}}}",
        &[],
        Put::Done,
        "class A {\nfunction void f ( ) {\nif ( ~ a [ 1 ] ) {\ndo b . g ( 1 , \"s t\" ) ;\n}\nelse {\nlet a [ 0 ] = - 2 ;\n}\n}\n}\n",
    ),
    // shifts
    (
        "class A{function int f(int x){return ^x+##(1);}}",
        &[],
        Put::Done,
        "class A {\nfunction int f ( int x ) {\nreturn ^ x + # # ( 1 ) ;\n}\n}\n",
    ),
    // the first call fails after three bytes
    ("class C { }", &[(1, 3)], Put::Failed, "cla"),
];

// texts, and their faults, or nothing where they are classes
const FAULTS: &[(&str, &str)] = &[
    (
        "class C { function void f() { let x = ; } }",
        "1:39: Grammar",
    ),
    ("/* a", "1:1: Grammar"),
    ("", "1:1: Grammar"),
    ("class C { } }", "1:13: Grammar"),
    ("class C { function void f() { do x; } }", "1:35: Grammar"),
    // a token's fault comes first
    ("class { 32768", "1:9: Range 32768"),
    // `if` and `else`, `while`, calls, elements, strings and signs
    (
        "class Main { static Array a, b; constructor Main new(int x, char y) { var int i; var boolean p, q; let a[i] = -b[~1]; if (x) { } else { while (true) { do f(); do Main.g(1, \"s\", this); } } return; } }",
        "",
    ),
    ("class C {}", ""),
];

// parts of texts, each this many times; and the faults of the texts, or nothing where they are
// classes
const LARGE: &[(&[(u32, &str)], &str)] = &[
    // 16,384 of each are the most, on all lines together; the place is that of the name, or of the argument
    (
        &[
            (1, "class C { field int "),
            (16383, "a,"),
            (1, "a; static int b; }"),
        ],
        "",
    ),
    (
        &[
            (1, "class C { static int "),
            (16383, "a,"),
            (1, "a; static int b; }"),
        ],
        "1:32802: Range 16385",
    ),
    (
        &[
            (1, "class C { function int f(int a) { return g("),
            (16384, "a,"),
            (1, "a); } }"),
        ],
        "1:32812: Range 16385",
    ),
    // 256 parentheses inside a statement are one level too many; the place is that of the token inside
    (
        &[
            (1, "class C { function int f() { return "),
            (256, "("),
            (1, "1"),
            (256, ")"),
            (1, "; } }"),
        ],
        "1:293: Range 257",
    ),
    (
        &[
            (1, "class C { function int f() { return "),
            (255, "("),
            (1, "1"),
            (256, ")"),
            (1, "; } }"),
        ],
        "1:548: Grammar",
    ),
    (
        &[
            (1, "class C { function int f() { return "),
            (255, "("),
            (1, "1"),
            (255, ")"),
            (1, "; } }"),
        ],
        "",
    ),
    // a string of 16,384 bytes is the longest; the place is that of its opening quote
    (
        &[
            (1, "class C { function void f() { do g(\""),
            (16384, "a"),
            (1, "\"); } }"),
        ],
        "",
    ),
    (
        &[
            (1, "class C { function void f() { do g(\""),
            (16385, "a"),
            (1, "\"); } }"),
        ],
        "1:36: Range 16385",
    ),
];

fn read(alloc: Global, text: &[u8]) -> Result<Class, ReadError> {
    let file = Name::new(alloc, "C")?;
    parse_class(alloc, &file, text)
}

// The fault of a text, or nothing where it is a class.
fn told(alloc: Global, text: &[u8]) -> Result<String, Fail> {
    match read(alloc, text) {
        Ok(_) => Ok(String::new(alloc)),
        Err(fault) => Ok(format!(in alloc; "{fault}")?),
    }
}

fn repeat(text: &mut Vec<u8>, times: u32, part: &str) -> Result<(), AllocError> {
    for _ in 0..times {
        text.extend_from_slice(part.as_bytes())?;
    }
    Ok(())
}

fn large(alloc: Global, parts: &[(u32, &str)]) -> Result<Vec<u8>, AllocError> {
    let mut text = Vec::new(alloc);
    for (times, part) in parts {
        repeat(&mut text, *times, part)?;
    }
    Ok(text)
}

// How the class of a text is printed into a sink with these failing calls, and what is there then.
fn shown(alloc: Global, text: &str, fails: &[(u64, u32)]) -> Result<(Put, String), Fail> {
    let class = read(alloc, text.as_bytes())?;
    let mut sink = MemorySink::new(alloc, 10000, fails.to_vec(alloc)?)?;
    let put = print(&class, &mut sink);
    Ok((put, String::from_utf8_lossy(alloc, sink.bytes())?))
}

fn printed_table() -> &'static [(&'static str, &'static [(u64, u32)], Put, &'static str)] {
    PRINTED
}

fn faults_table() -> &'static [(&'static str, &'static str)] {
    FAULTS
}

fn large_table() -> &'static [(&'static [(u32, &'static str)], &'static str)] {
    LARGE
}

fn is_printed(
    rt: &impl Abort,
    alloc: Global,
    row: usize,
    (text, fails, put, wanted): (&str, &[(u64, u32)], Put, &str),
) -> Result<(), Fail> {
    let (found, printed) = shown(alloc, text, fails)?;
    holds(rt, "puts", row, found == put);
    is_told(rt, "printed", row, &printed, wanted);
    Ok(())
}

fn tells(
    rt: &impl Abort,
    alloc: Global,
    table: &str,
    row: usize,
    (text, wanted): (&[u8], &str),
) -> Result<(), Fail> {
    let found = told(alloc, text)?;
    is_told(rt, table, row, &found, wanted);
    Ok(())
}

#[test]
fn texts(rt: HostRuntime) -> Result<(), Fail> {
    for (row, printed) in printed_table().iter().enumerate() {
        is_printed(&rt, rt.alloc(), row, *printed)?;
    }
    for (row, (text, wanted)) in faults_table().iter().enumerate() {
        tells(&rt, rt.alloc(), "faults", row, (text.as_bytes(), *wanted))?;
    }
    Ok(())
}

#[test]
fn large_texts(rt: HostRuntime) -> Result<(), Fail> {
    for (row, (parts, wanted)) in large_table().iter().enumerate() {
        let text = large(rt.alloc(), parts)?;
        tells(&rt, rt.alloc(), "large", row, (&text, *wanted))?;
    }
    Ok(())
}

fn at(line: u32, column: u32) -> Place {
    Place { line, column }
}

// `x*(x+1)-2`: operators are taken from left to right.
fn has_its_operators(rt: &impl Abort, value: &Expression) {
    match value.rest.as_slice() {
        [times, minus] => {
            holds(rt, "times", 0, times.operator == Operator::Times);
            holds(rt, "times", 1, times.place == at(1, 51));
            holds(rt, "minus", 0, minus.operator == Operator::Minus);
            holds(rt, "minus", 1, minus.place == at(1, 57));
            let is_two = matches!(&minus.term, Term::Constant(Constant::Integer(2)));
            holds(rt, "minus", 2, is_two);
        }
        _ => holds(rt, "operators", 2, false),
    }
}

fn has_its_statement(rt: &impl Abort, get: &Subroutine) {
    holds(rt, "get", 0, get.form == Form::Method);
    holds(rt, "get", 1, get.name.place == at(1, 35));
    match get.statements.as_slice() {
        [Statement::Return(place, Some(value))] => {
            holds(rt, "return", 0, *place == at(1, 43));
            has_its_operators(rt, value);
        }
        _ => holds(rt, "return", 1, false),
    }
}

#[test]
fn tree(rt: HostRuntime) -> Result<(), Fail> {
    let text = b"class C { field int x; method int get() { return x*(x+1)-2; } }";
    let class = read(rt.alloc(), text)?;
    holds(&rt, "name", 0, class.name.text.as_str() == "C");
    holds(&rt, "variables", 1, class.variables.len() == 1);
    match class.subroutines.as_slice() {
        [get] => has_its_statement(&rt, get),
        _ => holds(&rt, "subroutines", 1, false),
    }
    Ok(())
}
