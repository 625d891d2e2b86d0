use crate::checks::{holds, is_told, printed};
use grammar::ReadError;
use hdl_parser::parse;
use hdl_tree::{Body, Chip, Connection, Part, Source, Subscript};
use std::alloc::{AllocError, Global};
use std::process::Abort;
use std::test::Fail;

fn read(alloc: Global, text: &[u8]) -> Result<Chip, Fail> {
    match parse(alloc, text) {
        Ok(chip) => Ok(chip),
        Err(_) => Err(Fail::from("the text is a chip")),
    }
}

const SOME: &[u8] =
    b"CHIP Some { IN a[16], b;\n OUT out;\n PARTS: And(a=a[0], b = a[1..3], out[2]=true);\n Or(x=false); }";

fn has_its_inputs(chip: &Chip) -> bool {
    match chip.inputs.as_slice() {
        [first, second] => {
            first.width == Some(16)
                && second.width == None
                && second.name.as_bytes() == b"b".as_slice()
        }
        _ => false,
    }
}

fn parts_of(chip: &Chip) -> &[Part] {
    match &chip.body {
        Body::Parts(parts) => parts.as_slice(),
        Body::Builtin(_, _) => &[],
    }
}

// The source is these bits of a net.
fn is_of_net(source: &Source, subscript: Subscript) -> bool {
    match source {
        Source::Net(selection) => selection.subscript == Some(subscript),
        Source::Constant(_) => false,
    }
}

fn is_named(source: &Source, name: &[u8]) -> bool {
    match source {
        Source::Net(selection) => selection.name.as_bytes() == name,
        Source::Constant(_) => false,
    }
}

fn is_constant(source: &Source, value: bool) -> bool {
    match source {
        Source::Net(_) => false,
        Source::Constant(constant) => *constant == value,
    }
}

fn first_is_connected(connections: &[Connection]) -> bool {
    match connections {
        [first, second, third] => {
            is_of_net(&first.source, Subscript::Bit(0))
                && is_named(&second.source, b"a")
                && is_of_net(&second.source, Subscript::Bits(1, 3))
                && third.pin.subscript == Some(Subscript::Bit(2))
                && is_constant(&third.source, true)
        }
        _ => false,
    }
}

fn second_is_connected(connections: &[Connection]) -> bool {
    match connections {
        [only] => is_constant(&only.source, false),
        _ => false,
    }
}

fn has_its_parts(rt: &impl Abort, parts: &[Part]) {
    match parts {
        [first, second] => {
            holds(rt, "And", first.chip.as_bytes() == b"And".as_slice());
            holds(rt, "And", first_is_connected(first.connections.as_slice()));
            holds(rt, "Or", second_is_connected(second.connections.as_slice()));
        }
        _ => holds(rt, "two parts", false),
    }
}

// The pins, the parts and the connections of a chip.
#[test]
fn tree(rt: HostRuntime) -> Result<(), Fail> {
    let chip = read(rt.alloc(), SOME)?;
    holds(&rt, "name", chip.name.as_bytes() == b"Some".as_slice());
    holds(&rt, "inputs", has_its_inputs(&chip));
    holds(&rt, "outputs", chip.outputs.as_slice().len() == 1);
    has_its_parts(&rt, parts_of(&chip));
    Ok(())
}

// It has no pins, is DFF, and has two pins that are clocked.
fn is_dff(chip: &Chip) -> bool {
    let Body::Builtin(name, clocked) = &chip.body else {
        return false;
    };
    chip.inputs.as_slice().is_empty()
        && chip.outputs.as_slice().is_empty()
        && name.as_bytes() == b"DFF".as_slice()
        && clocked.as_slice().len() == 2
}

// A chip that is built in, with pins that are clocked.
#[test]
fn builtin(rt: HostRuntime) -> Result<(), Fail> {
    let chip = read(rt.alloc(), b"CHIP D { BUILTIN DFF; CLOCKED in, load; }")?;
    holds(&rt, "DFF", is_dff(&chip));
    Ok(())
}

// The chip Not, a chip with every form, and chips without parts, and how they are printed.
const PRINTED: &[(&str, &str)] = &[
    (
        "CHIP Not{IN in;OUT out;PARTS:Nand(a=in,b=in,out=out);}",
        "CHIP Not {\nIN in ;\nOUT out ;\nPARTS : Nand ( a = in , b = in , out = out ) ;\n}\n",
    ),
    (
        "CHIP X // x\n { /* y */ IN a[016], b[1]; PARTS:\r\n\tY(a[0..015]=b[3..3], c[7]=true, d=false); Z(a=b); }",
        "CHIP X {\nIN a [ 16 ] , b [ 1 ] ;\nPARTS : Y ( a [ 0 .. 15 ] = b [ 3 .. 3 ] , c [ 7 ] = true , d = false ) ;\nZ ( a = b ) ;\n}\n",
    ),
    ("CHIP X { PARTS: }", "CHIP X {\nPARTS : }\n"),
    (
        "CHIP X { BUILTIN DFF; CLOCKED in,b; }",
        "CHIP X {\nBUILTIN DFF ;\nCLOCKED in , b ;\n}\n",
    ),
];

fn printed_table() -> &'static [(&'static str, &'static str)] {
    PRINTED
}

// Texts, and what is reported of them: each kind of fault, at its place, or that it is a chip.
const TEXTS: &[(&str, &str)] = &[
    ("", "1:1: Grammar"),
    ("CHIP", "1:5: Grammar"),
    ("chip X { PARTS: }", "1:1: Grammar"),
    ("CHIP IN { PARTS: }", "1:6: Grammar"),
    ("CHIP X { }", "1:10: Grammar"),
    ("CHIP X { IN ; PARTS: }", "1:13: Grammar"),
    ("CHIP X { OUT a; IN b; PARTS: }", "1:17: Grammar"),
    ("CHIP X { PARTS: A(); }", "1:19: Grammar"),
    ("CHIP X { PARTS: A(a=1); }", "1:21: Grammar"),
    ("CHIP X { PARTS: A(true=a); }", "1:19: Grammar"),
    ("CHIP X { PARTS: A(a=b) }", "1:24: Grammar"),
    ("CHIP X { PARTS: } CHIP", "1:19: Grammar"),
    ("CHIP X { BUILTIN Y; CLOCKED ; }", "1:29: Grammar"),
    ("CHIP X { PARTS: A(a=b[]); }", "1:23: Grammar"),
    ("CHIP X { PARTS: A(a=b[1,2]); }", "1:24: Grammar"),
    ("CHIP X { PARTS: A(a=b[1..]); }", "1:26: Grammar"),
    // the first number of a subscript is at most the second
    ("CHIP X { PARTS: A(a=b[3..2]); }", "1:26: Grammar"),
    ("CHIP X { PARTS: A(a[1..0]=b[5]); }", "1:24: Grammar"),
    // limits
    ("CHIP X { IN a[17]; PARTS: }", "1:15: Range 17"),
    (
        "CHIP X { IN a[99999999999]; PARTS: }",
        "1:15: Range 1000000000",
    ),
    ("CHIP X { PARTS: A(a=b[16]); }", "1:23: Range 16"),
    ("CHIP X { PARTS: A(a=b[15..16]); }", "1:27: Range 16"),
    ("CHIP X { PARTS: A(a=b[16..3]); }", "1:23: Range 16"),
    (
        "CHIP X { IN a[16], b[0]; OUT c[1]; PARTS: A(a[15]=b[0..15], c[15..15]=d[0]); }",
        "a chip",
    ),
    // a fault of a token comes before all of these
    ("CHIP X { IN a[17]; PARTS: } -", "1:29: Grammar"),
    ("X\n ...", "2:4: Grammar"),
    ("X\n /* ", "2:2: Grammar"),
    // clocked pins may be left out
    ("CHIP D { OUT q; BUILTIN DFF; }", "a chip"),
];

fn texts_table() -> &'static [(&'static str, &'static str)] {
    TEXTS
}

// What is reported of a text.
fn told_of(alloc: Global, text: &[u8]) -> Result<String, AllocError> {
    match parse(alloc, text) {
        Ok(_) => String::from_str(alloc, "a chip"),
        Err(ReadError::Fault(fault)) => Ok(format!(in alloc; "{fault}")?),
        Err(ReadError::Memory) => String::from_str(alloc, "memory"),
    }
}

fn text_is_told(
    rt: &impl Abort,
    alloc: Global,
    row: &str,
    text: &[u8],
    told: &str,
) -> Result<(), Fail> {
    let found = told_of(alloc, text)?;
    is_told(rt, row, &found, told);
    Ok(())
}

fn is_printed(rt: &impl Abort, alloc: Global, text: &str, form: &str) -> Result<(), Fail> {
    let chip = read(alloc, text.as_bytes())?;
    let found = printed(alloc, &chip)?;
    is_told(rt, text, &found, form);
    Ok(())
}

#[test]
fn printed_forms_and_faults(rt: HostRuntime) -> Result<(), Fail> {
    for (text, form) in printed_table() {
        is_printed(&rt, rt.alloc(), text, form)?;
    }
    for (text, told) in texts_table() {
        text_is_told(&rt, rt.alloc(), text, text.as_bytes(), told)?;
    }
    Ok(())
}

// A text of blanks stops at its end.
#[test]
fn texts_of_blanks(rt: HostRuntime) -> Result<(), Fail> {
    let alloc = rt.alloc();
    let mut blanks = vec![in alloc; b' '; 1048576]?;
    text_is_told(&rt, alloc, "fits", &blanks, "1:1048577: Grammar")?;
    blanks.push(b' ')?;
    text_is_told(&rt, alloc, "too long", &blanks, "0:0: Range 1048577")
}
