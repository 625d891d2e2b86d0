//! Small programs, stepped. Their moves, words and refusals are counted by hand from the book's chapters 7 and 8.

ghost use Rattle.std.specs.Prelude.{◌≡◌, ◌+◌, ◌%◌, ℕ};

use crate::checks::{holds, is_word};
use crate::programs::{EVERY_COMMAND, EVERY_COMMAND_WORDS, FunctionRow, Written, sound};
use machine_io::{End, Keyboard, Stray, drive};
use outer_world::Point;
use std::alloc::Global;
use std::process::Abort;
use std::test::Fail;
use vm_machine::Vm;
use vm_tree::{Operation, Segment};

// The key of a move is its number, from 1 to 100 and again.
struct Counting;

impl Keyboard for Counting {
    ghost code = { λ _ c. 1 + c % 100 };

    fn at(&self, c: u64) -> u16 {
        1 + (c % 100) as u16
    }
}

// How a drive of this many moves ends, and then: the moves and steps so far, the control point where it is looked at,
// and words at their addresses.
#[derive(Clone, Copy)]
struct Look<'a> {
    bound: u16,
    end: End,
    moves: u64,
    steps: u64,
    point: Option<Point>,
    words: &'a [(u16, u16)],
}

struct Case<'a> {
    functions: &'a [FunctionRow<'a>],
    looks: &'a [Look<'a>],
}

const CASES: &[Case<'static>] = &[
    // Sys.init calls Sys.seven, stores its value at 2048, and is then in a jump to itself
    Case {
        functions: &[
            (
                "Sys.init",
                0,
                &[
                    Written::Push(Segment::Constant, 2048),
                    Written::Pop(Segment::Pointer, 1),
                    Written::Call("Sys.seven", 0),
                    Written::Pop(Segment::That, 0),
                    Written::Label("END"),
                    Written::Goto("END"),
                ],
                &[],
            ),
            (
                "Sys.seven",
                0,
                &[Written::Push(Segment::Constant, 7), Written::Return],
                &[],
            ),
        ],
        looks: &[
            Look {
                bound: 8,
                end: End::Bound,
                moves: 8,
                steps: 0,
                point: None,
                words: &[(2048, 0)],
            },
            Look {
                bound: 1,
                end: End::Bound,
                moves: 9,
                steps: 0,
                point: None,
                words: &[(2048, 7)],
            },
            Look {
                bound: 1000,
                end: End::Bound,
                moves: 1009,
                steps: 0,
                point: None,
                words: &[],
            },
        ],
    },
    // Sys.init calls itself
    Case {
        functions: &[("Sys.init", 0, &[Written::Call("Sys.init", 0)], &[])],
        looks: &[
            Look {
                bound: 1000,
                end: End::Full(1795),
                moves: 716,
                steps: 0,
                point: None,
                words: &[],
            },
            Look {
                bound: 1,
                end: End::Full(1795),
                moves: 716,
                steps: 0,
                point: None,
                words: &[],
            },
        ],
    },
    // 20000 < -20000, and -20000 < 20000: the differences are past a signed word
    Case {
        functions: &[(
            "Sys.init",
            0,
            &[
                Written::Push(Segment::Constant, 2048),
                Written::Pop(Segment::Pointer, 1),
                Written::Push(Segment::Constant, 20000),
                Written::Push(Segment::Constant, 20000),
                Written::Operate(Operation::Neg),
                Written::Operate(Operation::Lt),
                Written::Pop(Segment::That, 0),
                Written::Push(Segment::Constant, 20000),
                Written::Operate(Operation::Neg),
                Written::Push(Segment::Constant, 20000),
                Written::Operate(Operation::Lt),
                Written::Pop(Segment::That, 1),
            ],
            &[],
        )],
        looks: &[Look {
            bound: 14,
            end: End::Bound,
            moves: 14,
            steps: 0,
            point: None,
            words: &[(2048, 0), (2049, 65535)],
        }],
    },
    // the load from 24576 is the seventh move, and its key goes to address 2048
    Case {
        functions: &[(
            "Sys.init",
            0,
            &[
                Written::Push(Segment::Constant, 2048),
                Written::Pop(Segment::Pointer, 0),
                Written::Push(Segment::Constant, 24576),
                Written::Pop(Segment::Pointer, 1),
                Written::Push(Segment::That, 0),
                Written::Pop(Segment::This, 0),
            ],
            &[],
        )],
        looks: &[Look {
            bound: 8,
            end: End::Bound,
            moves: 8,
            steps: 0,
            point: None,
            words: &[(2048, 7)],
        }],
    },
    // two statements, the second of which returns; with the call of Sys.init and the drop of its value the steps are
    // four
    Case {
        functions: &[(
            "Sys.init",
            0,
            &[
                Written::Push(Segment::Constant, 0),
                Written::Pop(Segment::Static, 3),
                Written::Push(Segment::Constant, 0),
                Written::Return,
            ],
            &[(1, false), (1, true), (2, false), (2, true)],
        )],
        looks: &[
            Look {
                bound: 0,
                end: End::Bound,
                moves: 0,
                steps: 0,
                point: Some(Point { sub: 0, number: 1 }),
                words: &[],
            },
            Look {
                bound: 4,
                end: End::Bound,
                moves: 4,
                steps: 2,
                point: Some(Point { sub: 1, number: 2 }),
                words: &[],
            },
            Look {
                bound: 100,
                end: End::Done,
                moves: 7,
                steps: 4,
                point: Some(Point { sub: 0, number: 2 }),
                words: &[],
            },
        ],
    },
    Case {
        functions: EVERY_COMMAND,
        looks: &[Look {
            bound: 300,
            end: End::Bound,
            moves: 300,
            steps: 0,
            point: None,
            words: EVERY_COMMAND_WORDS,
        }],
    },
];

// The number of the first row that strays.
const STRAYS_FROM: usize = 100;

// After `function Sys.init 0` and these lines the machine strays, and again; what it says, and the number of its moves.
const STRAYS: &[(&[Written], Stray, u64)] = &[
    (&[Written::Pop(Segment::Temp, 0)], Stray::Values, 2),
    (&[Written::Push(Segment::Local, 0)], Stray::Local, 2),
    (&[Written::Push(Segment::Argument, 0)], Stray::Argument, 2),
    (&[], Stray::Code, 2),
    (
        &[
            Written::Push(Segment::Constant, 5),
            Written::Pop(Segment::Pointer, 0),
            Written::Push(Segment::This, 0),
        ],
        Stray::Address(5),
        4,
    ),
];

fn cases_table() -> &'static [Case<'static>] {
    CASES
}

fn strays_table() -> &'static [(&'static [Written], Stray, u64)] {
    STRAYS
}

fn stands(rt: &impl Abort, number: usize, vm: &Vm, end: End, look: &Look<'_>) {
    let counts = (end, vm.moves(), vm.steps());
    holds(
        rt,
        "counts",
        number,
        counts == (look.end, look.moves, look.steps),
    );
    if let Some(point) = look.point {
        holds(rt, "points", number, vm.point() == point);
    }
    for (address, word) in look.words {
        assert!(rt; 2048 <= *address && *address < 24576);
        is_word(rt, number, *address, vm.word_at(*address), *word);
    }
}

fn goes(
    rt: &impl Abort,
    alloc: Global,
    number: usize,
    functions: &[FunctionRow<'_>],
    looks: &[Look<'_>],
) -> Result<(), Fail> {
    let mut vm = Vm::new(alloc, sound(alloc, number, functions)?)?;
    for look in looks {
        let bound = u64::from(look.bound);
        if bound > 100000 || vm.moves() > 100000 {
            return Err(Fail::from("too many moves"));
        }
        let end = drive(&mut vm, &Counting, bound)?;
        stands(rt, number, &vm, end, look);
    }
    Ok(())
}

fn strays(
    rt: &impl Abort,
    alloc: Global,
    number: usize,
    (lines, stray, moves): (&[Written], Stray, u64),
) -> Result<(), Fail> {
    let look = Look {
        bound: 30,
        end: End::Stray(stray),
        moves,
        steps: 0,
        point: None,
        words: &[],
    };
    goes(
        rt,
        alloc,
        number,
        &[("Sys.init", 0, lines, &[])],
        &[look, look],
    )
}

#[test]
fn programs(rt: HostRuntime) -> Result<(), Fail> {
    for (number, case) in cases_table().iter().enumerate() {
        goes(&rt, rt.alloc(), number, case.functions, case.looks)?;
    }
    Ok(())
}

#[test]
fn programs_that_stray(rt: HostRuntime) -> Result<(), Fail> {
    for (number, row) in strays_table().iter().enumerate() {
        strays(&rt, rt.alloc(), STRAYS_FROM.saturating_add(number), *row)?;
    }
    Ok(())
}
