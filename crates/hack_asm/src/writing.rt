//! Instructions written in assembly.

ghost use Rattle.std.specs.Prelude.{◌≡◌, ◌≤◌, [], length};
ghost use Rattle.hack_isa.specs.Machine.{image_words};
ghost use Rattle.hack_isa.specs.Table.{word_of};
ghost use Rattle.outer_world.specs.Held.{Buffers, HaveSameSink, pending, sink_of};
ghost use Rattle.outer_world.specs.Written.{Puts};
ghost use Rattle.hack_asm.specs.Comps.{computations, text_in};
ghost use Rattle.hack_asm.specs.Written.{destinations, jumps, computed_text, instr_text, asm_text, AreSpelled, WrittenMeans};

use hack_isa::Instr;
use itoa::Buffer;
use outer_world::{Pieces, Put, Sink};

// The text of a computation, by its word without destination and jump.
fn comp_text(word: u32) -> &'static [u8]
    ensures { result.now ≡ text_in computations word }
{
    match word {
        0b1110101010000000 => b"0",
        0b1110111111000000 => b"1",
        0b1110111010000000 => b"-1",
        0b1110001100000000 => b"D",
        0b1110110000000000 => b"A",
        0b1110001101000000 => b"!D",
        0b1110110001000000 => b"!A",
        0b1110001111000000 => b"-D",
        0b1110110011000000 => b"-A",
        0b1110011111000000 => b"D+1",
        0b1110110111000000 => b"A+1",
        0b1110001110000000 => b"D-1",
        0b1110110010000000 => b"A-1",
        0b1110000010000000 => b"D+A",
        0b1110010011000000 => b"D-A",
        0b1110000111000000 => b"A-D",
        0b1110000000000000 => b"D&A",
        0b1110010101000000 => b"D|A",
        0b1111110000000000 => b"M",
        0b1111110001000000 => b"!M",
        0b1111110011000000 => b"-M",
        0b1111110111000000 => b"M+1",
        0b1111110010000000 => b"M-1",
        0b1111000010000000 => b"D+M",
        0b1111010011000000 => b"D-M",
        0b1111000111000000 => b"M-D",
        0b1111000000000000 => b"D&M",
        0b1111010101000000 => b"D|M",
        0b1010110000000000 => b"D<<",
        0b1010010000000000 => b"D>>",
        0b1010100000000000 => b"A<<",
        0b1010000000000000 => b"A>>",
        0b1011100000000000 => b"M<<",
        0b1011000000000000 => b"M>>",
        _ => b"",
    }
}

fn dest_text(dest: u8) -> &'static [u8]
    ensures { result.now ≡ text_in destinations dest }
{
    match dest {
        0b001 => b"M=",
        0b010 => b"D=",
        0b011 => b"DM=",
        0b100 => b"A=",
        0b101 => b"AM=",
        0b110 => b"AD=",
        0b111 => b"ADM=",
        _ => b"",
    }
}

fn jump_text(jump: u8) -> &'static [u8]
    ensures { result.now ≡ text_in jumps jump }
{
    match jump {
        0b001 => b";JGT",
        0b010 => b";JEQ",
        0b011 => b";JGE",
        0b100 => b";JLT",
        0b101 => b";JNE",
        0b110 => b";JLE",
        0b111 => b";JMP",
        _ => b"",
    }
}

// The word of a computation of the ALU, without destination and jump.
fn word_of_compute(memory: bool, comp: u8) -> u32
    ensures { result ≡ word_of (Instr.Compute memory comp 0 0) }
{
    let m: u32 = if memory { 4096 } else { 0 };
    57344 + m + comp as u32 * 64
}

// The word of a shift, without destination and jump.
fn word_of_shift(memory: bool, left: bool, of_d: bool) -> u32
    ensures { result ≡ word_of (Instr.Shift memory left of_d 0 0) }
{
    let m: u32 = if memory { 4096 } else { 0 };
    let l: u32 = if left { 2048 } else { 0 };
    let d: u32 = if of_d { 1024 } else { 0 };
    40960 + m + l + d
}

// A computation, by its word without destination and jump, with those.
fn put_computed<S: Sink>(word: u32, dest: u8, jump: u8, out: &mut Pieces<'_, S>) -> Put
    ensures same_sink { HaveSameSink out.old out.new }
    ensures passes { Buffers out.old out.new (computed_text word dest jump) result }
{
    out.put_all(&[dest_text(dest), comp_text(word), jump_text(jump), b"\n"])
}

// The line of an instruction.
fn put_instr<S: Sink>(instr: &Instr, out: &mut Pieces<'_, S>) -> Put
    ensures same_sink { HaveSameSink out.old out.new }
    ensures passes { Buffers out.old out.new (instr_text instr.now) result }
{
    match *instr {
        Instr::Address(n) => {
            let mut digits = Buffer::new();
            out.put_all(&[b"@", digits.format(n).as_bytes(), b"\n"])
        }
        Instr::Compute {
            memory,
            comp,
            dest,
            jump,
        } => {
            let word = word_of_compute(memory, comp);
            put_computed(word, dest, jump, out)
        }
        Instr::Shift {
            memory,
            left,
            of_d,
            dest,
            jump,
        } => {
            let word = word_of_shift(memory, left, of_d);
            put_computed(word, dest, jump, out)
        }
    }
}

// The lines of instructions.
fn put_asm<S: Sink>(instrs: &[Instr], out: &mut Pieces<'_, S>) -> Put
    ensures same_sink { HaveSameSink out.old out.new }
    ensures passes { Buffers out.old out.new (asm_text instrs.now) result }
{
    for instr in instrs {
        match put_instr(instr, out) {
            Put::Done => {}
            Put::Failed => return Put::Failed,
        }
    }
    Put::Done
}

// The same from an empty buffer, which is empty again after it.
fn put_all_asm<S: Sink>(instrs: &[Instr], out: &mut Pieces<'_, S>) -> Put
    requires { pending out.old ≡ [] }
    ensures same_sink { HaveSameSink out.old out.new }
    ensures put { Puts (S.state (sink_of out.old)) (S.state (sink_of out.new))
        (asm_text instrs.now) result }
{
    match put_asm(instrs, out) {
        Put::Done => out.finish(),
        Put::Failed => Put::Failed,
    }
}

/// Writes instructions in assembly, one a line: `@n`, or `dest=comp;jump` without the parts that are absent, the letters of a
/// destination in the order A, D, M. Each computation is to be one of the table of comp.
pub fn write_asm<S: Sink>(instrs: &[Instr], out: &mut S) -> Put
    requires spelled { AreSpelled instrs.now }
    requires few { length instrs.now ≤ image_words }
    ensures put { Puts (S.state out.old) (S.state out.new) (asm_text instrs.now) result }
{
    let mut pieces = Pieces::new(out);
    put_all_asm(instrs, &mut pieces)
}

/// The law of written assembly: what `write_asm` writes means the words of its instructions. No code, only the statement.
#[tactic(auto, using(crate::proofs::WrittenLaw::written_means))]
pub fn written_law()
    ensures { WrittenMeans }
{}
