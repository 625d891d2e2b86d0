//! The Hack instruction set: the ALU, and instructions as words. (The book, chapters 2 and 4; shifts are not the book's.)
#![tactic(auto)]

ghost use Rattle.std.specs.Prelude.{◌≡◌, ◌<◌, ◌≤◌, ◌<ℤ◌, ◌↔◌, ◌^◌, ℕ, IsTrue};
ghost use Rattle.hack_isa.specs.Table.{preset, combine, alu_out, DecodesBack, WellFormed, word_of, shift_of, instr_of};

use word16::bit;

/// How many words instruction memory has: no image is longer.
pub const IMAGE_WORDS: usize = 32768;

/// One instruction of the machine.
#[derive(Clone, Copy, PartialEq, Eq, Debug)]
pub enum Instr {
    /// `@n`: loads `n`, a number below 32,768, into A.
    Address(u16),
    /// `dest=comp;jump`, as the fields of the word `111 a cccccc ddd jjj`.
    Compute {
        /// The bit `a`: M stands in the computation for A.
        memory: bool,
        /// The six bits of the ALU: zx nx zy ny f no, from bit 5 down to bit 0.
        comp: u8,
        /// Where the output goes: A is bit 2, D is bit 1, M is bit 0.
        dest: u8,
        /// Where it jumps, by the output: below 0 is bit 2, 0 is bit 1, above 0 is bit 0.
        jump: u8,
    },
    /// `dest=X<<;jump` or `dest=X>>;jump`, as the fields of the word `101 a l d 0000 ddd jjj`.
    Shift {
        /// The bit `a`: M is shifted, not A.
        memory: bool,
        /// The bit `l`: to the left, else to the right.
        left: bool,
        /// The bit `d`: D is shifted, neither A nor M; `memory` is false then.
        of_d: bool,
        /// Where the output goes, as that of a computation.
        dest: u8,
        /// Where it jumps, by the output, as by that of a computation.
        jump: u8,
    },
}

fn prepare(zero: bool, negate: bool, x: u16) -> u16
    ensures { result ≡ preset zero negate x }
{
    let zeroed = if zero { 0 } else { x };
    if negate { word16::not(zeroed) } else { zeroed }
}

fn joined(sum: bool, inverted: bool, x: u16, y: u16) -> u16
    ensures { result ≡ combine sum inverted x y }
{
    let out = if sum {
        word16::add(x, y)
    } else {
        word16::and(x, y)
    };
    if inverted { word16::not(out) } else { out }
}

/// The ALU's output, whether it is zero, and whether it is negative.
///
/// The bits are zx nx zy ny f no, from bit 5 down to bit 0; higher bits are not looked at.
#[tactic(auto, unfolding(crate::specs::Table::alu_out))]
pub fn alu(x: u16, y: u16, bits: u8) -> (u16, bool, bool)
    ensures out { result.0 ≡ alu_out bits x y }
    ensures zero { IsTrue result.1 ↔ (alu_out bits x y ≡ 0) }
    ensures negative { IsTrue result.2 ↔ (32768 ≤ alu_out bits x y) }
{
    let bits = u16::from(bits);
    let x = prepare(bit(bits, 5), bit(bits, 4), x);
    let y = prepare(bit(bits, 3), bit(bits, 2), y);
    let out = joined(bit(bits, 1), bit(bits, 0), x, y);
    (out, out == 0, out >= 32768)
}

/// The word of an instruction.
#[tactic(auto, using(crate::proofs::RoundTrip::encoded))]
pub fn encode(instr: &Instr) -> u16
    requires { WellFormed instr.now }
    ensures word { result ≡ word_of instr.now }
    ensures back { instr_of result ≡ instr.now }
{
    match *instr {
        Instr::Address(n) => n,
        Instr::Compute {
            memory,
            comp,
            dest,
            jump,
        } => {
            let m: u16 = if memory { 4096 } else { 0 };
            57344 + m + comp as u16 * 64 + dest as u16 * 8 + jump as u16
        }
        Instr::Shift {
            memory,
            left,
            of_d,
            dest,
            jump,
        } => {
            let m: u16 = if memory { 4096 } else { 0 };
            let l: u16 = if left { 2048 } else { 0 };
            let d: u16 = if of_d { 1024 } else { 0 };
            40960 + m + l + d + dest as u16 * 8 + jump as u16
        }
    }
}

// A shift, by the bits of its word.
#[tactic(auto, using(crate::proofs::RoundTrip::never_both))]
fn decode_shift(word: u16) -> Instr
    ensures instr { result ≡ shift_of word }
    ensures well_formed { WellFormed result }
{
    let of_d = bit(word, 10);
    Instr::Shift {
        memory: bit(word, 12) && !of_d,
        left: bit(word, 11),
        of_d,
        dest: (word / 8 % 8) as u8,
        jump: (word % 8) as u8,
    }
}

/// The instruction of a word; each word is one. Where the top bit is 1 it is a shift if the next two bits are 0 and 1, and
/// else these two are not looked at.
#[tactic(auto, unfolding(crate::specs::Table::instr_of))]
pub fn decode(word: u16) -> Instr
    ensures instr { result ≡ instr_of word }
    ensures well_formed { WellFormed result }
{
    if word < 32768 {
        Instr::Address(word)
    } else if !bit(word, 14) && bit(word, 13) {
        decode_shift(word)
    } else {
        Instr::Compute {
            memory: bit(word, 12),
            comp: (word / 64 % 64) as u8,
            dest: (word / 8 % 8) as u8,
            jump: (word % 8) as u8,
        }
    }
}

/// The law of encode and decode: no code, only the statement.
#[tactic(auto, using(crate::proofs::RoundTrip::decodes_back))]
pub fn round_trip_law()
    ensures { DecodesBack }
{}
