//! Small programs, stepped. Their points and words are those of the book's chapters 9 and 12.

ghost use Rattle.std.specs.Prelude.{◌≡◌, ◌+◌, ◌%◌, ℕ};

use crate::checks::{holds, is_word};
use crate::programs::{Main, Written, core, left_nested, right_nested};
use jack_core::{Operator, Part, Sign};
use jack_machine::Jack;
use machine_io::{End, Keyboard, Level, Stray, drive};
use outer_world::Point;
use std::alloc::Global;
use std::process::Abort;
use std::test::Fail;

// The key of a move is its number, from 1 to 100 and again.
struct Counting;

impl Keyboard for Counting {
    ghost code = { λ _ c. 1 + c % 100 };

    fn at(&self, c: u64) -> u16 {
        1 + (c % 100) as u16
    }
}

// How a drive of this many moves ends, and then: the moves so far, the control point and the steps where they are
// looked at, and words at their addresses.
#[derive(Clone, Copy)]
struct Look<'a> {
    bound: u32,
    end: End,
    moves: u64,
    point: Option<(Point, u64)>,
    words: &'a [(u16, u16)],
}

struct Case<'a> {
    main: Main<'a>,
    looks: &'a [Look<'a>],
}

// a method that returns 0
const ZERO: &[Part] = &[Part::Literal(0)];

// s and i
const S: &[Part] = &[Part::Local(0)];

const I: &[Part] = &[Part::Local(1)];

// i[0]
const FIRST_OF_I: &[Part] = &[Part::Local(1), Part::Literal(0), Part::Load];

const CASES: &[Case<'static>] = &[
    // let s = 16384; let s[0] = 1; return;
    Case {
        main: Main {
            locals: 1,
            body: &[
                Written::Let(1, 0, &[Part::Literal(16384)]),
                Written::Store(2, S, &[Part::Literal(0)], &[Part::Literal(1)]),
            ],
            turns: &[],
            last: 3,
            method: ZERO,
        },
        looks: &[
            Look {
                bound: 0,
                end: End::Bound,
                moves: 0,
                point: Some((Point { sub: 0, number: 1 }, 0)),
                words: &[],
            },
            Look {
                bound: 100,
                end: End::Done,
                moves: 14,
                point: Some((Point { sub: 0, number: 2 }, 14)),
                words: &[(16384, 1), (16385, 0)],
            },
            Look {
                bound: 100,
                end: End::Done,
                moves: 14,
                point: None,
                words: &[],
            },
        ],
    },
    // let s = 100; let s[0] = 1; return;
    Case {
        main: Main {
            locals: 1,
            body: &[
                Written::Let(1, 0, &[Part::Literal(100)]),
                Written::Store(2, S, &[Part::Literal(0)], &[Part::Literal(1)]),
            ],
            turns: &[],
            last: 3,
            method: ZERO,
        },
        looks: &[
            Look {
                bound: 100,
                end: End::Stray(Stray::Address(100)),
                moves: 7,
                point: Some((Point { sub: 2, number: 2 }, 7)),
                words: &[],
            },
            Look {
                bound: 100,
                end: End::Stray(Stray::Address(100)),
                moves: 7,
                point: None,
                words: &[],
            },
        ],
    },
    // let s = 2048; let i = 3; while (i) { let s[i] = ~i; let i = i - 1; } return;
    Case {
        main: Main {
            locals: 2,
            body: &[
                Written::Let(1, 0, &[Part::Literal(2048)]),
                Written::Let(2, 1, &[Part::Literal(3)]),
            ],
            turns: &[(
                3,
                I,
                &[
                    Written::Store(4, S, I, &[Part::Local(1), Part::Unary(Sign::Complement)]),
                    Written::Let(
                        5,
                        1,
                        &[
                            Part::Local(1),
                            Part::Literal(1),
                            Part::Binary(Operator::Subtract),
                        ],
                    ),
                ],
            )],
            last: 6,
            method: ZERO,
        },
        looks: &[Look {
            bound: 100,
            end: End::Done,
            moves: 47,
            point: None,
            words: &[(2048, 0), (2049, 65534), (2051, 65532)],
        }],
    },
    // let s = 16384; let s[0] = ^5; let s[1] = #(-5); return; the half of -5 is rounded down to -3
    Case {
        main: Main {
            locals: 1,
            body: &[
                Written::Let(1, 0, &[Part::Literal(16384)]),
                Written::Store(
                    2,
                    S,
                    &[Part::Literal(0)],
                    &[Part::Literal(5), Part::Unary(Sign::ShiftLeft)],
                ),
                Written::Store(
                    3,
                    S,
                    &[Part::Literal(1)],
                    &[
                        Part::Literal(5),
                        Part::Unary(Sign::Minus),
                        Part::Unary(Sign::ShiftRight),
                    ],
                ),
            ],
            turns: &[],
            last: 4,
            method: ZERO,
        },
        looks: &[Look {
            bound: 100,
            end: End::Done,
            moves: 21,
            point: None,
            words: &[(16384, 10), (16385, 65533)],
        }],
    },
    // two keys: let s = 16384; let i = 24576; let s[0] = i[0]; let s[1] = i[0]; return;
    Case {
        main: Main {
            locals: 2,
            body: &[
                Written::Let(1, 0, &[Part::Literal(16384)]),
                Written::Let(2, 1, &[Part::Literal(24576)]),
                Written::Store(3, S, &[Part::Literal(0)], FIRST_OF_I),
                Written::Store(4, S, &[Part::Literal(1)], FIRST_OF_I),
            ],
            turns: &[],
            last: 5,
            method: ZERO,
        },
        looks: &[Look {
            bound: 100,
            end: End::Done,
            moves: 24,
            point: None,
            words: &[(16384, 11), (16385, 17)],
        }],
    },
    // let s = 16384; let s[0] = 1 - 100.get(58); return; so the value 1 waits for the call. get(x) is: return this - x;
    Case {
        main: Main {
            locals: 1,
            body: &[
                Written::Let(1, 0, &[Part::Literal(16384)]),
                Written::Store(
                    2,
                    S,
                    &[Part::Literal(0)],
                    &[
                        Part::Literal(1),
                        Part::Literal(100),
                        Part::Literal(58),
                        Part::Call {
                            arguments: 2,
                            number: 3,
                        },
                        Part::Binary(Operator::Subtract),
                    ],
                ),
            ],
            turns: &[],
            last: 3,
            method: &[
                Part::This,
                Part::Argument(1),
                Part::Binary(Operator::Subtract),
            ],
        },
        looks: &[Look {
            bound: 100,
            end: End::Done,
            moves: 22,
            point: None,
            words: &[(16384, 65495)],
        }],
    },
];

fn cases_table() -> &'static [Case<'static>] {
    CASES
}

fn stands(rt: &impl Abort, number: usize, jack: &Jack<'_>, end: End, look: &Look<'_>) {
    holds(
        rt,
        "ends",
        number,
        (end, jack.moves()) == (look.end, look.moves),
    );
    if let Some(point) = look.point {
        holds(rt, "points", number, (jack.point(), jack.steps()) == point);
    }
    for (address, word) in look.words {
        assert!(rt; 2048 <= *address && *address < 24576);
        is_word(rt, number, *address, jack.word_at(*address), *word);
    }
}

fn goes(
    rt: &impl Abort,
    alloc: Global,
    number: usize,
    main: &Main<'_>,
    looks: &[Look<'_>],
) -> Result<(), Fail> {
    let core = core(alloc, main)?;
    let mut jack = Jack::new(alloc, &core)?;
    for look in looks {
        let bound = u64::from(look.bound);
        if bound > 1000000 || jack.moves() > 1000000 {
            return Err(Fail::from("too many moves"));
        }
        let end = drive(&mut jack, &Counting, bound)?;
        stands(rt, number, &jack, end, look);
    }
    Ok(())
}

// let s = 16384; let s[0] = value; return; where the value is of 50,000 operators, and comes to this word
fn is_deep(
    rt: &impl Abort,
    alloc: Global,
    number: usize,
    value: &[Part],
    word: u16,
) -> Result<(), Fail> {
    let body = [
        Written::Let(1, 0, &[Part::Literal(16384)]),
        Written::Store(2, S, &[Part::Literal(0)], value),
    ];
    let main = Main {
        locals: 1,
        body: &body,
        turns: &[],
        last: 3,
        method: ZERO,
    };
    let look = Look {
        bound: 200_000,
        end: End::Done,
        moves: 100_014,
        point: None,
        words: &[(16384, word)],
    };
    goes(rt, alloc, number, &main, &[look])
}

#[test]
fn programs(rt: HostRuntime) -> Result<(), Fail> {
    for (number, case) in cases_table().iter().enumerate() {
        goes(&rt, rt.alloc(), number, &case.main, case.looks)?;
    }
    Ok(())
}

// An expression is as deep as it is long, to the left and to the right.
#[test]
fn deep_expressions(rt: HostRuntime) -> Result<(), Fail> {
    let left = left_nested(rt.alloc(), 50_000)?;
    is_deep(&rt, rt.alloc(), 100, &left, 15_537)?;
    let right = right_nested(rt.alloc(), 50_000)?;
    is_deep(&rt, rt.alloc(), 101, &right, 1)
}
