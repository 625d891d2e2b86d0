use crate::checks::{holds, is_told};
use crate::programs::{FileRow, Written, linked, program, shown};
use std::alloc::{AllocError, Global};
use std::process::Abort;
use std::test::*;
use vm_link::{Linked, Step};
use vm_tree::{Operation, Segment};

// programs that are not linked, and what is reported of them
const REFUSED: &[(&[FileRow<'static>], &str)] = &[
    (&[], "NoSysInit"),
    // a function that is not there
    (
        &[(
            "Sys",
            &[],
            &[("Sys.init", 0, &[Written::Call("A.f", 0)], &[])],
        )],
        "NoFunction A.f",
    ),
    // a label that is not there
    (
        &[("Sys", &[], &[("Sys.init", 0, &[Written::Goto("X")], &[])])],
        "NoLabel X",
    ),
    // a label that stands twice
    (
        &[(
            "Sys",
            &[],
            &[(
                "Sys.init",
                0,
                &[Written::Label("X"), Written::Label("X")],
                &[],
            )],
        )],
        "LabelTwice X",
    ),
    // functions that are defined twice
    (
        &[(
            "Sys",
            &[],
            &[("Sys.init", 0, &[], &[]), ("Sys.init", 0, &[], &[])],
        )],
        "TwiceDefined Sys.init",
    ),
    (
        &[
            ("A", &[], &[("A.f", 0, &[], &[]), ("A.f", 0, &[], &[])]),
            ("Sys", &[], &[("Sys.init", 0, &[], &[])]),
        ],
        "TwiceDefined A.f",
    ),
    (
        &[(
            "Sys",
            &[],
            &[("Sys.init", 0, &[Written::Push(Segment::Static, 240)], &[])],
        )],
        "TooManyStatics 241",
    ),
];

// A program, and what it is linked to: how many functions, the first to run, the static words of each file, and the
// steps of each function in turn.
struct Case<'a> {
    files: &'a [FileRow<'a>],
    bare: bool,
    functions: usize,
    start: Option<usize>,
    statics: &'a [u32],
    steps: &'a [Step],
}

// sets the first static word
const SETTING: &[Written] = &[
    Written::Push(Segment::Constant, 7),
    Written::Pop(Segment::Static, 0),
    Written::Call("A.f", 0),
];

const LINKED: &[Case<'static>] = &[
    Case {
        files: &[],
        bare: true,
        functions: 0,
        start: None,
        statics: &[],
        steps: &[],
    },
    // the last static word
    Case {
        files: &[(
            "Sys",
            &[],
            &[(
                "Sys.init",
                0,
                &[
                    Written::Push(Segment::Static, 239),
                    Written::Label("E"),
                    Written::Goto("E"),
                ],
                &[],
            )],
        )],
        bare: false,
        functions: 1,
        start: Some(0),
        statics: &[240],
        steps: &[
            Step::Function(0),
            Step::Push(Segment::Static, 239),
            Step::Goto(2),
        ],
    },
    // two files that each set `static 0` set two words
    Case {
        files: &[
            ("A", &[], &[("A.f", 0, SETTING, &[])]),
            ("Sys", &[], &[("Sys.init", 0, SETTING, &[])]),
        ],
        bare: false,
        functions: 2,
        start: Some(1),
        statics: &[1, 1],
        steps: &[
            Step::Function(0),
            Step::Push(Segment::Constant, 7),
            Step::Pop(Segment::Static, 0),
            Step::Call(0, 0),
            Step::Function(0),
            Step::Push(Segment::Constant, 7),
            Step::Pop(Segment::Static, 1),
            Step::Call(0, 0),
        ],
    },
    // a function that is not reached is dropped, and its missing callee is no fault
    Case {
        files: &[(
            "Sys",
            &[],
            &[
                (
                    "Sys.init",
                    0,
                    &[
                        Written::Label("E"),
                        Written::Push(Segment::Constant, 7),
                        Written::Goto("E"),
                    ],
                    &[],
                ),
                ("Sys.other", 0, &[Written::Call("A.f", 0)], &[]),
            ],
        )],
        bare: false,
        functions: 1,
        start: Some(0),
        statics: &[0],
        steps: &[
            Step::Function(0),
            Step::Push(Segment::Constant, 7),
            Step::Goto(1),
        ],
    },
];

// What is reported of these files, which is nothing where they are linked.
fn told(alloc: Global, files: &[FileRow<'_>]) -> Result<String, Fail> {
    match linked(alloc, files, false) {
        Ok(_) => Ok(String::new(alloc)),
        Err(fault) => Ok(format!(in alloc; "{fault}")?),
    }
}

fn statics(alloc: Global, linked: &Linked) -> Result<Vec<u32>, AllocError> {
    let mut statics = Vec::new(alloc);
    for file in linked.files.as_slice() {
        statics.push(file.statics)?;
    }
    Ok(statics)
}

fn steps(alloc: Global, linked: &Linked) -> Result<Vec<Step>, AllocError> {
    let mut steps = Vec::new(alloc);
    for function in linked.functions.as_slice() {
        for line in function.code.as_slice() {
            steps.push(line.step)?;
        }
    }
    Ok(steps)
}

fn is_linked(rt: &impl Abort, alloc: Global, number: usize, case: &Case<'_>) -> Result<(), Fail> {
    match linked(alloc, case.files, case.bare) {
        Ok(linked) => {
            let start = (linked.functions.as_slice().len(), linked.start);
            holds(rt, "linked", number, start == (case.functions, case.start));
            let statics = statics(alloc, &linked)?;
            holds(rt, "statics", number, statics.as_slice() == case.statics);
            let steps = steps(alloc, &linked)?;
            holds(rt, "steps", number, steps.as_slice() == case.steps);
            Ok(())
        }
        Err(fault) => Err(Fail::new(format!(in alloc; "row {number}: {fault}")?)),
    }
}

// What is printed of a file with these lines.
const PRINTED: &[FileRow<'static>] = &[(
    "Sys",
    &[Written::Push(Segment::Constant, 7)],
    &[(
        "Sys.init",
        3,
        &[
            Written::Label("E"),
            Written::Call("Sys.f", 2),
            Written::Pop(Segment::Temp, 0),
            Written::IfGoto("E"),
            Written::Goto("E"),
            Written::Operate(Operation::Neg),
            Written::Return,
        ],
        &[],
    )],
)];

const TEXT: &str =
    "push constant 7\nfunction Sys.init 3\nlabel E\ncall Sys.f 2\npop temp 0\nif-goto E\ngoto E\nneg\nreturn\n";

fn linked_table() -> &'static [Case<'static>] {
    LINKED
}

fn printed(alloc: Global) -> Result<String, AllocError> {
    let program = program(alloc, PRINTED)?;
    shown(alloc, &program)
}

#[test]
fn trees(rt: HostRuntime) -> Result<(), Fail> {
    for (number, case) in linked_table().iter().enumerate() {
        is_linked(&rt, rt.alloc(), number, case)?;
    }
    let text = printed(rt.alloc())?;
    is_told(&rt, "printed", 0, &text, TEXT);
    Ok(())
}

#[test]
fn trees_that_are_refused(rt: HostRuntime) -> Result<(), Fail> {
    for (number, (files, wanted)) in REFUSED.iter().enumerate() {
        let found = told(rt.alloc(), files)?;
        is_told(&rt, "refused", number, &found, wanted);
    }
    Ok(())
}
