use crate::checks::{holds, is_word};
use hack_machine::Hack;
use machine_io::{Level, Moved};
use std::alloc::{AllocError, Global};
use std::process::Abort;

// This many steps under a key, and then: A, D and the program counter, words at their addresses, and what is seen under
// a key at an address.
struct Look<'a> {
    steps: u16,
    key: u16,
    registers: (u16, u16, u16),
    words: &'a [(u16, u16)],
    seen: &'a [(u16, u16, u16)],
}

// An image, and what is put from outside: A, D and the program counter, and words at their addresses.
struct Case<'a> {
    image: &'a [u16],
    registers: (u16, u16, u16),
    words: &'a [(u16, u16)],
    looks: &'a [Look<'a>],
}

const CASES: &[Case<'static>] = &[
    // the program of chapter 4 that puts 2 + 3 into the word 0: @2, D=A, @3, D=D+A, @0, M=D
    Case {
        image: &[2, 60432, 3, 57488, 0, 58120],
        registers: (0, 0, 0),
        words: &[],
        looks: &[
            Look {
                steps: 5,
                key: 0,
                registers: (0, 5, 5),
                words: &[(0, 0)],
                seen: &[],
            },
            Look {
                steps: 1,
                key: 0,
                registers: (0, 5, 6),
                words: &[(0, 5), (1, 0)],
                seen: &[],
            },
        ],
    },
    // M=D stands at 1; what is put is there, and the instruction finds it
    Case {
        image: &[0, 58120],
        registers: (5, 3, 1),
        words: &[(5, 7)],
        looks: &[
            Look {
                steps: 0,
                key: 0,
                registers: (5, 3, 1),
                words: &[(5, 7)],
                seen: &[],
            },
            Look {
                steps: 1,
                key: 0,
                registers: (5, 3, 2),
                words: &[(5, 3)],
                seen: &[],
            },
        ],
    },
    // @24576, D=M, @1, M=D, @32767, 0;JMP: the key into the word 1, then to the last address, whose word is 0
    Case {
        image: &[24576, 64528, 1, 58120, 32767, 60039],
        registers: (0, 0, 0),
        words: &[],
        looks: &[
            Look {
                steps: 6,
                key: 65,
                registers: (32767, 65, 32767),
                words: &[(1, 65)],
                seen: &[(66, 1, 65), (66, 24576, 66)],
            },
            Look {
                steps: 1,
                key: 0,
                registers: (0, 65, 0),
                words: &[],
                seen: &[],
            },
        ],
    },
    // M=M>>, D=M>>;JLT: -5 to -3, whose half is -2, below 0, so that it jumps to 5; and there D=D<<
    Case {
        image: &[45064, 45076, 0, 0, 0, 44048],
        registers: (5, 0, 0),
        words: &[(5, 65531)],
        looks: &[
            Look {
                steps: 1,
                key: 0,
                registers: (5, 0, 1),
                words: &[(5, 65533)],
                seen: &[],
            },
            Look {
                steps: 1,
                key: 0,
                registers: (5, 65534, 5),
                words: &[(5, 65533)],
                seen: &[],
            },
            Look {
                steps: 1,
                key: 0,
                registers: (5, 65532, 6),
                words: &[(5, 65533)],
                seen: &[],
            },
        ],
    },
    // D=M<< at the keyboard's address: twice the key; D=D>> with the bit of M beside that of D: no key
    Case {
        image: &[47120, 46096],
        registers: (24576, 0, 0),
        words: &[],
        looks: &[
            Look {
                steps: 1,
                key: 65,
                registers: (24576, 130, 1),
                words: &[],
                seen: &[],
            },
            Look {
                steps: 1,
                key: 3,
                registers: (24576, 65, 2),
                words: &[],
                seen: &[],
            },
        ],
    },
];

fn cases_table() -> &'static [Case<'static>] {
    CASES
}

// The machine of an image, with what is put from outside.
fn machine(rt: &impl Abort, alloc: Global, case: &Case<'_>) -> Result<Hack, AllocError> {
    assert!(rt; case.image.len() <= 32768);
    let mut hack = Hack::new(alloc, case.image)?;
    let (a, d, pc) = case.registers;
    assert!(rt; pc < 32768);
    hack.set_a(a);
    hack.set_d(d);
    hack.set_pc(pc);
    for (address, word) in case.words {
        assert!(rt; *address < 24576);
        hack.set_ram(*address, *word);
    }
    Ok(hack)
}

fn step(rt: &impl Abort, hack: &mut Hack, steps: u16, key: u16) {
    for _ in 0..steps {
        assert!(rt; hack.moves() < 100000);
        hack.step(key);
    }
}

fn stands(rt: &impl Abort, number: usize, hack: &Hack, look: &Look<'_>) {
    let registers = (hack.a(), hack.d(), hack.pc());
    holds(rt, "registers", number, registers == look.registers);
    for (address, word) in look.words {
        assert!(rt; *address < 24576);
        is_word(rt, "words", number, hack.ram(*address), *word);
    }
    for (key, address, word) in look.seen {
        is_word(rt, "seen", number, hack.word_seen(*key, *address), *word);
    }
}

fn goes(rt: &impl Abort, alloc: Global, number: usize, case: &Case<'_>) -> Result<(), AllocError> {
    let mut hack = machine(rt, alloc, case)?;
    let mut moves = 0u64;
    for look in case.looks {
        step(rt, &mut hack, look.steps, look.key);
        stands(rt, number, &hack, look);
        moves = moves.wrapping_add(u64::from(look.steps));
        holds(rt, "moves", number, hack.moves() == moves);
    }
    Ok(())
}

fn two_moves<L: Level>(rt: &impl Abort, level: &mut L) -> Result<u16, AllocError> {
    for _ in 0..2 {
        assert!(rt; level.moves() < 2);
        let answer = level.step(0)?;
        holds(rt, "a level", 0, answer == Moved::Acted);
    }
    Ok(level.word_at(2048))
}

#[test]
fn steps(rt: HostRuntime) -> Result<(), AllocError> {
    for (number, case) in cases_table().iter().enumerate() {
        goes(&rt, rt.alloc(), number, case)?;
    }
    Ok(())
}

// @2048, M=1, moved as a level
#[test]
fn steps_of_a_level(rt: HostRuntime) -> Result<(), AllocError> {
    let mut hack = Hack::new(rt.alloc(), &[2048, 61384])?;
    let word = two_moves(&rt, &mut hack)?;
    is_word(&rt, "a level", 0, word, 1);
    holds(&rt, "a level", 0, (hack.steps(), hack.point()) == (0, 2));
    Ok(())
}
