use crate::checks::{holds, is_word};
use hack_isa::{Instr, alu, decode, encode};

// words, their instructions, and the words of these again, where bits that mean nothing are as they are written
const WORDS: &[(u16, Instr, u16)] = &[
    // the program of chapter 4 that puts 2 + 3 into the word 0: @2, D=A, @3, D=D+A, @0, M=D
    (2, Instr::Address(2), 2),
    (
        60432,
        Instr::Compute {
            memory: false,
            comp: 0b110000,
            dest: 0b010,
            jump: 0,
        },
        60432,
    ),
    (3, Instr::Address(3), 3),
    (
        57488,
        Instr::Compute {
            memory: false,
            comp: 0b000010,
            dest: 0b010,
            jump: 0,
        },
        57488,
    ),
    (
        58120,
        Instr::Compute {
            memory: false,
            comp: 0b001100,
            dest: 0b001,
            jump: 0,
        },
        58120,
    ),
    // AM=M-1, whose bits 14 and 13 change nothing
    (
        0b1111_1100_1010_1000,
        Instr::Compute {
            memory: true,
            comp: 0b110010,
            dest: 0b101,
            jump: 0,
        },
        0b1111_1100_1010_1000,
    ),
    (
        0b1001_1100_1010_1000,
        Instr::Compute {
            memory: true,
            comp: 0b110010,
            dest: 0b101,
            jump: 0,
        },
        0b1111_1100_1010_1000,
    ),
    // D=D<<, D=D>>, A=A>> and M=M<<
    (
        44048,
        Instr::Shift {
            memory: false,
            left: true,
            of_d: true,
            dest: 0b010,
            jump: 0,
        },
        44048,
    ),
    (
        42000,
        Instr::Shift {
            memory: false,
            left: false,
            of_d: true,
            dest: 0b010,
            jump: 0,
        },
        42000,
    ),
    (
        40992,
        Instr::Shift {
            memory: false,
            left: false,
            of_d: false,
            dest: 0b100,
            jump: 0,
        },
        40992,
    ),
    (
        47112,
        Instr::Shift {
            memory: true,
            left: true,
            of_d: false,
            dest: 0b001,
            jump: 0,
        },
        47112,
    ),
    // in a shift bits 9 to 6 change nothing, and in one of D bit 12
    (
        0b1010_1111_1101_0000,
        Instr::Shift {
            memory: false,
            left: true,
            of_d: true,
            dest: 0b010,
            jump: 0,
        },
        44048,
    ),
    (
        0b1011_1100_0001_0000,
        Instr::Shift {
            memory: false,
            left: true,
            of_d: true,
            dest: 0b010,
            jump: 0,
        },
        44048,
    ),
    // 0;JMP
    (
        60039,
        Instr::Compute {
            memory: false,
            comp: 0b101010,
            dest: 0,
            jump: 0b111,
        },
        60039,
    ),
];

// two values, the bits of an operation, and what it makes: the value, and whether it is zero and below zero
const OPERATIONS: &[(u16, u16, u8, (u16, bool, bool))] = &[
    (0, 1, 0b010011, (65535, false, true)),
    (7, 7, 0b010011, (0, true, false)),
    (12, 10, 0b010101, (14, false, false)),
];

fn words_table() -> &'static [(u16, Instr, u16)] {
    WORDS
}

#[test]
fn instructions(rt: HostRuntime) {
    for (row, (word, instr, again)) in words_table().iter().enumerate() {
        let found = decode(*word);
        holds(&rt, "words", row, found == *instr);
        is_word(&rt, "words", row, encode(&found), *again);
    }
    for (row, (x, y, bits, wanted)) in OPERATIONS.iter().enumerate() {
        holds(&rt, "operations", row, alu(*x, *y, *bits) == *wanted);
    }
}
