ghost use Rattle.std.specs.Prelude.{◌≡◌};

use crate::checks::{are_words, holds, is_told};
use grammar::{Fault, ReadError};
use hack_asm::*;
use hack_isa::{Instr, encode};
use itoa::Buffer;
use outer_world::{MemorySink, Put};
use scan_text::Place;
use std::alloc::{AllocError, Global};
use std::process::Abort;
use std::test::Fail;

fn words(alloc: Global, text: &[u8], is_image: bool) -> Result<Vec<u16>, AsmFault> {
    if is_image {
        return read_hack(alloc, text);
    }
    assemble(alloc, text)
}

const ADD: &str =
    "0000000000000010\n1110110000010000\n0000000000000011\n1110000010010000\n0000000000000000\n1110001100001000\n";

const ADD_WORDS: &[u16] = &[2, 60432, 3, 57488, 0, 58120];

// texts, whether they are images or assembly, and their words
const PROGRAMS: &[(&str, bool, &[u16])] = &[
    // the program of the book's chapter 4 that adds 2 and 3
    ("@2\nD=A\n@3\nD=D+A\n@0\nM=D\n", false, ADD_WORDS),
    // a label and a variable
    (
        " @i // a variable\r\n\tM = 1\n(LOOP)\n\n@LOOP\n0;JMP",
        false,
        &[16, 61384, 2, 60039],
    ),
    (
        "@SCREEN\n@KBD\n@R15\n@b\n@a\n@b\n@32767\n@007\nDAM=A+D;JLE\n",
        false,
        &[16384, 24576, 15, 16, 17, 16, 32767, 7, 57534],
    ),
    // shifts of registers, with blanks between tokens
    (
        "D=D<<\nD = D >>\nA=A>>\nM=M<<\nD>>;JLT\n",
        false,
        &[44048, 42000, 40992, 47112, 41988],
    ),
    ("// a\r\n// b\r\n", false, &[]),
    (ADD, true, ADD_WORDS),
    // CRLF, empty lines, and no line end after the last word
    (
        "\r\n1000000000000001\r\n\n\n0111111111111110",
        true,
        &[32769, 32766],
    ),
    ("", true, &[]),
];

// texts that are refused, whether they are images or assembly, and their faults
const REFUSED: &[(&str, bool, &str)] = &[
    ("@32768", false, "1:2: Range 32768"),
    ("(X)\n(X)\n@X", false, "2:2: LabelTwice X"),
    ("@1\n(R1)", false, "2:2: LabelTwice R1"),
    ("@1x", false, "1:3: Grammar"),
    ("D=00", false, "1:3: Grammar"),
    ("D=D+0", false, "1:5: Grammar"),
    ("AA=D", false, "1:1: Grammar"),
    ("D\r", false, "1:2: Grammar"),
    // one `<` begins no token, only a register is shifted, and by one place
    ("D=D<", false, "1:4: Grammar"),
    ("D=1<<", false, "1:4: Grammar"),
    ("D=D<<1", false, "1:6: Grammar"),
    ("D=D<<<<", false, "1:6: Grammar"),
    ("D / A", false, "1:3: Grammar"),
    ("D;JXX\n40000", false, "2:1: Range 40000"),
    ("(A", false, "1:3: Grammar"),
    ("(X)\n(X)\n", false, "2:2: LabelTwice X"),
    ("00000000000000001", true, "1:17: Grammar"),
    ("000000000000000\n", true, "1:16: Grammar"),
    ("000000000000000", true, "1:16: Grammar"),
    ("0000000000000000\n0000000200000000\n", true, "2:8: Grammar"),
    ("0000000000000000 \n", true, "1:17: Grammar"),
    (
        "0000000000000000\r0000000000000000\n",
        true,
        "1:17: Grammar",
    ),
    // a byte that is no token comes before a line that is no word
    ("01\n@", true, "2:1: Grammar"),
];

// a line, how often it stands, whether these lines are an image or assembly, and what is reported of
// them
const LINES: &[(&str, u32, bool, &str)] = &[
    ("0\n", 32_768, false, "32768 words, the last 60032"),
    ("0\n", 32_769, false, "TooLarge 32769"),
    (
        "1110101010000000\n",
        32_768,
        true,
        "32768 words, the last 60032",
    ),
    ("1110101010000000\n", 32_769, true, "TooLarge 32769"),
    ("\n", 1_048_577, true, "0:0: Range 1048577"),
];

// this many different symbols, and what is reported of them
const SYMBOLS: [(u32, &str); 2] = [
    (16_368, "16368 words, the last 16383"),
    (16_369, "TooManyVariables 16369"),
];

// How many words a text has, and the last; or its fault.
fn told(alloc: Global, text: &[u8], is_image: bool) -> Result<String, Fail> {
    match words(alloc, text, is_image) {
        Ok(words) => {
            let last = words.last().copied().unwrap_or(0);
            Ok(format!(in alloc; "{} words, the last {last}", words.len())?)
        }
        Err(fault) => Ok(format!(in alloc; "{fault}")?),
    }
}

// A line, this many times.
fn lines(alloc: Global, line: &str, count: u32) -> Result<Vec<u8>, AllocError> {
    let mut text = Vec::new(alloc);
    for _ in 0..count {
        text.extend_from_slice(line.as_bytes())?;
    }
    Ok(text)
}

// A text of this many different symbols.
fn symbols(alloc: Global, count: u32) -> Result<Vec<u8>, AllocError> {
    let mut text = Vec::new(alloc);
    for n in 0..count {
        let mut digits = Buffer::new();
        text.extend_from_slice(b"@v")?;
        text.extend_from_slice(digits.format(n).as_bytes())?;
        text.push(b'\n')?;
    }
    Ok(text)
}

fn programs_table() -> &'static [(&'static str, bool, &'static [u16])] {
    PROGRAMS
}

fn refused_table() -> &'static [(&'static str, bool, &'static str)] {
    REFUSED
}

// A text has these words.
fn makes(
    rt: &impl Abort,
    alloc: Global,
    row: usize,
    (text, is_image, wanted): (&str, bool, &[u16]),
) -> Result<(), Fail> {
    let found = words(alloc, text.as_bytes(), is_image)?;
    are_words(rt, "programs", row, &found, wanted);
    Ok(())
}

fn tells(
    rt: &impl Abort,
    alloc: Global,
    (table, row): (&str, usize),
    (text, is_image, wanted): (&[u8], bool, &str),
) -> Result<(), Fail> {
    let found = told(alloc, text, is_image)?;
    is_told(rt, table, row, &found, wanted);
    Ok(())
}

#[test]
fn texts(rt: HostRuntime) -> Result<(), Fail> {
    for (row, program) in programs_table().iter().enumerate() {
        makes(&rt, rt.alloc(), row, *program)?;
    }
    for (row, (text, is_image, wanted)) in refused_table().iter().enumerate() {
        let refused = (text.as_bytes(), *is_image, *wanted);
        tells(&rt, rt.alloc(), ("refused", row), refused)?;
    }
    Ok(())
}

#[test]
fn long_texts(rt: HostRuntime) -> Result<(), Fail> {
    let alloc = rt.alloc();
    for (row, (line, count, is_image, wanted)) in LINES.iter().enumerate() {
        let text = lines(alloc, line, *count)?;
        tells(&rt, alloc, ("lines", row), (&text, *is_image, *wanted))?;
    }
    for (row, (count, wanted)) in SYMBOLS.iter().enumerate() {
        let text = symbols(alloc, *count)?;
        tells(&rt, alloc, ("symbols", row), (&text, false, *wanted))?;
    }
    Ok(())
}

// The places where the last token of a text begins, and where the text ends. It has no blanks.
fn last_places(text: &[u8]) -> (Place, Place) {
    let mut end = Place { line: 1, column: 1 };
    let mut last = end;
    let mut within = false;
    for byte in text {
        let goes_on = byte.is_ascii_alphanumeric();
        if !within || !goes_on {
            last = end;
        }
        within = goes_on;
        end = if *byte == b'\n' {
            Place {
                line: end.line.wrapping_add(1),
                column: 1,
            }
        } else {
            Place {
                line: end.line,
                column: end.column.wrapping_add(1),
            }
        };
    }
    (last, end)
}

// The sign of a text: `+` for a program, or `-` for one that is refused where it breaks off.
fn sign(alloc: Global, text: &[u8]) -> u8 {
    let (last, end) = last_places(text);
    match words(alloc, text, false) {
        Ok(_) => b'+',
        Err(AsmFault::Grammar(at)) if at == last || at == end => b'-',
        Err(_) => b'?',
    }
}

// texts, and the signs of their fronts, from the empty one on
const FRONTS: &[(&[u8], &str)] = &[
    (
        b"@i\nM=1\n(LOOP)\n@LOOP\n0;JMP\n",
        "+-+++-++-----++-++++++---+",
    ),
    (
        b"(END)\r\n@7\r\nAMD=D-1;JLE\r\n!M\r\n",
        "+----+-+-+-++---+-+---+-+-+-",
    ),
];

fn signs(alloc: Global, text: &[u8]) -> Result<String, AllocError> {
    let mut signs = Vec::new(alloc);
    for n in 0..text.len() {
        signs.push(sign(alloc, &text[..n]))?;
    }
    String::from_utf8_lossy(alloc, &signs)
}

#[test]
fn prefixes(rt: HostRuntime) -> Result<(), Fail> {
    for (row, (text, wanted)) in FRONTS.iter().enumerate() {
        let found = signs(rt.alloc(), text)?;
        is_told(&rt, "fronts", row, &found, wanted);
    }
    Ok(())
}

fn compute(memory: bool, comp: u8, dest: u8, jump: u8) -> Instr
    ensures { result ≡ Instr.Compute memory comp dest jump }
{
    Instr::Compute {
        memory,
        comp,
        dest,
        jump,
    }
}

fn shift(memory: bool, left: bool, of_d: bool, dest: u8, jump: u8) -> Instr
    ensures { result ≡ Instr.Shift memory left of_d dest jump }
{
    Instr::Shift {
        memory,
        left,
        of_d,
        dest,
        jump,
    }
}

const WRITTEN: &[u8] = b"@0\n@32767\nD=A\nAM=M-1\n0;JMP\nADM=D|M;JLT\nDM=A-D;JGE\nD=D<<\nM>>;JGT\n";

#[test]
fn written(rt: HostRuntime) -> Result<(), Fail> {
    let alloc = rt.alloc();
    let instrs = [
        Instr::Address(0),
        Instr::Address(32767),
        compute(false, 0b110000, 0b010, 0),
        compute(true, 0b110010, 0b101, 0),
        compute(false, 0b101010, 0, 0b111),
        compute(true, 0b010101, 0b111, 0b100),
        compute(false, 0b000111, 0b011, 0b011),
        shift(false, true, true, 0b010, 0),
        shift(true, false, false, 0, 0b001),
    ];
    let mut out = MemorySink::new(alloc, 1_000, Vec::new(alloc))?;
    let put = write_asm(&instrs, &mut out);
    holds(&rt, "written", 0, put == Put::Done);
    holds(&rt, "written", 1, out.bytes() == WRITTEN);
    let words = words(alloc, out.bytes(), false)?;
    let mut encoded = Vec::new(alloc);
    for instr in &instrs {
        encoded.push(encode(instr))?;
    }
    are_words(&rt, "written", 2, &words, &encoded);
    Ok(())
}

#[test]
fn written_words(rt: HostRuntime) -> Result<(), Fail> {
    let mut out = MemorySink::new(rt.alloc(), 1_000, Vec::new(rt.alloc()))?;
    let put = write_hack(ADD_WORDS, &mut out);
    holds(&rt, "words", 0, put == Put::Done);
    holds(&rt, "words", 1, out.bytes() == ADD.as_bytes());
    Ok(())
}

#[test]
fn written_fault(rt: HostRuntime) -> Result<(), Fail> {
    let fault = Fault::Range(Place { line: 1, column: 2 }, 32_768);
    let text = format!(in rt.alloc(); "{}", ReadError::Fault(fault))?;
    is_told(&rt, "faults", 0, &text, "1:2: Range 32768");
    Ok(())
}
