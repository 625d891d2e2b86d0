//! The instructions of a step, by its shape.
ghost use Rattle.std.specs.Prelude.{◌≡◌, ◌≤◌, ◌<◌, ◌+◌, ◌++◌, OnOk};
ghost use Rattle.vm_templates.specs.Templates.{begin_compare, by_difference, call_by, call_routine, compare_by, decide, endless, equal_routine, function_code, go_back, go_to, if_go_to, join, load, load_again, operation_code, operation_words, order_routine, pop_at, pop_d, pop_first, pop_word, push_at, push_constant, push_d, push_first, push_word, put_d, put_result, restore, restore_lcl, return_code, routine_code, routine_size, save, save_return, set_pointers, size, start_code, template, turn};
ghost use Rattle.vm_translator.specs.Tables.{IsInLimit};

use hack_isa::Instr;
use std::alloc::AllocError;
use vm_templates::instructions::{
    A_IS_A_MINUS_1, A_IS_D_MINUS_A, A_IS_D_PLUS_M, A_IS_M, A_IS_M_MINUS_1, AM_IS_M_MINUS_1,
    AM_IS_M_PLUS_1, D_IS_A, D_IS_D_AND_M, D_IS_D_MINUS_M, D_IS_D_OR_M, D_IS_D_PLUS_M, D_IS_M,
    D_IS_M_MINUS_D, D_IS_M_PLUS_1, D_IS_NOT_A, IF_D_EQUAL, IF_D_GREATER, IF_D_LESS, IF_D_NOT_EQUAL,
    IF_D_NOT_LESS, JUMP, M_IS_0, M_IS_D, M_IS_D_AND_M, M_IS_D_OR_M, M_IS_D_PLUS_M, M_IS_M_MINUS_D,
    M_IS_M_SHIFTED_LEFT, M_IS_M_SHIFTED_RIGHT, M_IS_MINUS_1, M_IS_MINUS_M, M_IS_NOT_M,
    MD_IS_M_PLUS_1,
};
use vm_templates::{ENDLESS_LOOP, Routine, Routines, Shape};
use vm_tree::Operation;

/// Adds instructions.
pub fn put(out: &mut Vec<Instr>, block: &[Instr]) -> Result<(), AllocError>
    ensures { OnOk result (out.new.items ≡ out.old.items ++ block.now) }
{
    out.extend_from_slice(block)
}

fn push_d(out: &mut Vec<Instr>) -> Result<(), AllocError>
    ensures { OnOk result (out.new.items ≡ out.old.items ++ push_d) }
{
    put(
        out,
        &[Instr::Address(0), AM_IS_M_PLUS_1, A_IS_A_MINUS_1, M_IS_D],
    )
}

fn push_constant(out: &mut Vec<Instr>, number: u16) -> Result<(), AllocError>
    ensures { OnOk result (out.new.items ≡ out.old.items ++ push_constant number) }
{
    put(out, &[Instr::Address(number), D_IS_A])?;
    push_d(out)
}

fn push_word(out: &mut Vec<Instr>, address: u16) -> Result<(), AllocError>
    ensures { OnOk result (out.new.items ≡ out.old.items ++ push_word address) }
{
    put(out, &[Instr::Address(address), D_IS_M])?;
    push_d(out)
}

fn push_at(out: &mut Vec<Instr>, base: u16, index: u16) -> Result<(), AllocError>
    ensures { OnOk result (out.new.items ≡ out.old.items ++ push_at base index) }
{
    put(
        out,
        &[
            Instr::Address(index),
            D_IS_A,
            Instr::Address(base),
            A_IS_D_PLUS_M,
            D_IS_M,
        ],
    )?;
    push_d(out)
}

fn push_first(out: &mut Vec<Instr>, base: u16) -> Result<(), AllocError>
    ensures { OnOk result (out.new.items ≡ out.old.items ++ push_first base) }
{
    put(out, &[Instr::Address(base), A_IS_M, D_IS_M])?;
    push_d(out)
}

fn pop_d(out: &mut Vec<Instr>) -> Result<(), AllocError>
    ensures { OnOk result (out.new.items ≡ out.old.items ++ pop_d) }
{
    put(out, &[Instr::Address(0), AM_IS_M_MINUS_1, D_IS_M])
}

fn pop_word(out: &mut Vec<Instr>, address: u16) -> Result<(), AllocError>
    ensures { OnOk result (out.new.items ≡ out.old.items ++ pop_word address) }
{
    pop_d(out)?;
    put(out, &[Instr::Address(address), M_IS_D])
}

fn pop_at(out: &mut Vec<Instr>, base: u16, index: u16) -> Result<(), AllocError>
    ensures { OnOk result (out.new.items ≡ out.old.items ++ pop_at base index) }
{
    put(
        out,
        &[
            Instr::Address(index),
            D_IS_A,
            Instr::Address(base),
            D_IS_D_PLUS_M,
            Instr::Address(13),
            M_IS_D,
        ],
    )?;
    pop_d(out)?;
    put(out, &[Instr::Address(13), A_IS_M, M_IS_D])
}

fn pop_first(out: &mut Vec<Instr>, base: u16) -> Result<(), AllocError>
    ensures { OnOk result (out.new.items ≡ out.old.items ++ pop_first base) }
{
    pop_d(out)?;
    put(out, &[Instr::Address(base), A_IS_M, M_IS_D])
}

fn join(out: &mut Vec<Instr>, operation: Instr) -> Result<(), AllocError>
    ensures { OnOk result (out.new.items ≡ out.old.items ++ join operation) }
{
    pop_d(out)?;
    put(out, &[A_IS_A_MINUS_1, operation])
}

fn turn(out: &mut Vec<Instr>, operation: Instr) -> Result<(), AllocError>
    ensures { OnOk result (out.new.items ≡ out.old.items ++ turn operation) }
{
    put(out, &[Instr::Address(0), A_IS_M_MINUS_1, operation])
}

fn go_to(out: &mut Vec<Instr>, target: u16) -> Result<(), AllocError>
    ensures { OnOk result (out.new.items ≡ out.old.items ++ go_to target) }
{
    put(out, &[Instr::Address(target), JUMP])
}

fn if_go_to(out: &mut Vec<Instr>, target: u16) -> Result<(), AllocError>
    ensures { OnOk result (out.new.items ≡ out.old.items ++ if_go_to target) }
{
    pop_d(out)?;
    put(out, &[Instr::Address(target), IF_D_NOT_EQUAL])
}

// A number goes to D: an instruction names it, or the word with the other bits.
fn load(out: &mut Vec<Instr>, number: u16) -> Result<(), AllocError>
    ensures { OnOk result (out.new.items ≡ out.old.items ++ load number) }
{
    if number < 32768 {
        put(out, &[Instr::Address(number), D_IS_A])
    } else {
        put(out, &[Instr::Address(!number), D_IS_NOT_A])
    }
}

// The call's own instructions, before those of its routine.
fn call_by(
    out: &mut Vec<Instr>,
    routine: u16,
    back: u16,
    target: u16,
    arguments: u16,
) -> Result<(), AllocError>
    requires { arguments ≤ 32767 }
    ensures { OnOk result (out.new.items ≡ out.old.items ++ call_by routine back target arguments) }
{
    put(
        out,
        &[Instr::Address(target), D_IS_A, Instr::Address(13), M_IS_D],
    )?;
    load(out, 5 + arguments)?;
    put(
        out,
        &[Instr::Address(14), M_IS_D, Instr::Address(back), D_IS_A],
    )?;
    go_to(out, routine)
}

// The comparison's own instructions, before those of its routine.
fn compare_by(out: &mut Vec<Instr>, routine: u16, back: u16) -> Result<(), AllocError>
    ensures { OnOk result (out.new.items ≡ out.old.items ++ compare_by routine back) }
{
    put(out, &[Instr::Address(back), D_IS_A])?;
    go_to(out, routine)
}

fn put_d(out: &mut Vec<Instr>) -> Result<(), AllocError>
    ensures { OnOk result (out.new.items ≡ out.old.items ++ put_d) }
{
    put(out, &[Instr::Address(0), A_IS_M, M_IS_D])
}

fn save(out: &mut Vec<Instr>, register: u16) -> Result<(), AllocError>
    ensures { OnOk result (out.new.items ≡ out.old.items ++ save register) }
{
    put(
        out,
        &[
            Instr::Address(register),
            D_IS_M,
            Instr::Address(0),
            AM_IS_M_PLUS_1,
            M_IS_D,
        ],
    )
}

fn set_pointers(out: &mut Vec<Instr>) -> Result<(), AllocError>
    ensures { OnOk result (out.new.items ≡ out.old.items ++ set_pointers) }
{
    put(
        out,
        &[
            Instr::Address(0),
            MD_IS_M_PLUS_1,
            Instr::Address(1),
            M_IS_D,
            Instr::Address(14),
            D_IS_D_MINUS_M,
            Instr::Address(2),
            M_IS_D,
        ],
    )
}

fn call_routine(out: &mut Vec<Instr>) -> Result<(), AllocError>
    ensures { OnOk result (out.new.items ≡ out.old.items ++ call_routine) }
{
    put_d(out)?;
    save(out, 1)?;
    save(out, 2)?;
    save(out, 3)?;
    save(out, 4)?;
    set_pointers(out)?;
    put(out, &[Instr::Address(13), A_IS_M, JUMP])
}

fn function_code(out: &mut Vec<Instr>, locals: u16) -> Result<(), AllocError>
    ensures { OnOk result (out.new.items ≡ out.old.items ++ function_code locals) }
{
    for _local in 0..locals {
        put(
            out,
            &[Instr::Address(0), AM_IS_M_PLUS_1, A_IS_A_MINUS_1, M_IS_0],
        )?;
    }
    put(out, &[Instr::Address(0)])
}

fn save_return(out: &mut Vec<Instr>) -> Result<(), AllocError>
    ensures { OnOk result (out.new.items ≡ out.old.items ++ save_return) }
{
    put(
        out,
        &[
            Instr::Address(1),
            D_IS_M,
            Instr::Address(5),
            A_IS_D_MINUS_A,
            D_IS_M,
            Instr::Address(14),
            M_IS_D,
        ],
    )
}

fn put_result(out: &mut Vec<Instr>) -> Result<(), AllocError>
    ensures { OnOk result (out.new.items ≡ out.old.items ++ put_result) }
{
    pop_d(out)?;
    put(
        out,
        &[
            Instr::Address(2),
            A_IS_M,
            M_IS_D,
            Instr::Address(2),
            D_IS_M_PLUS_1,
            Instr::Address(0),
            M_IS_D,
        ],
    )
}

fn restore(out: &mut Vec<Instr>, register: u16) -> Result<(), AllocError>
    ensures { OnOk result (out.new.items ≡ out.old.items ++ restore register) }
{
    put(
        out,
        &[
            Instr::Address(1),
            AM_IS_M_MINUS_1,
            D_IS_M,
            Instr::Address(register),
            M_IS_D,
        ],
    )
}

fn restore_lcl(out: &mut Vec<Instr>) -> Result<(), AllocError>
    ensures { OnOk result (out.new.items ≡ out.old.items ++ restore_lcl) }
{
    put(
        out,
        &[
            Instr::Address(1),
            A_IS_M_MINUS_1,
            D_IS_M,
            Instr::Address(1),
            M_IS_D,
        ],
    )
}

fn go_back(out: &mut Vec<Instr>) -> Result<(), AllocError>
    ensures { OnOk result (out.new.items ≡ out.old.items ++ go_back) }
{
    put(out, &[Instr::Address(14), A_IS_M, JUMP])
}

fn return_code(out: &mut Vec<Instr>) -> Result<(), AllocError>
    ensures { OnOk result (out.new.items ≡ out.old.items ++ return_code) }
{
    save_return(out)?;
    put_result(out)?;
    restore(out, 4)?;
    restore(out, 3)?;
    restore(out, 2)?;
    restore_lcl(out)?;
    go_back(out)
}

fn begin_compare(out: &mut Vec<Instr>) -> Result<(), AllocError>
    ensures { OnOk result (out.new.items ≡ out.old.items ++ begin_compare) }
{
    put(
        out,
        &[
            Instr::Address(14),
            M_IS_D,
            Instr::Address(0),
            AM_IS_M_MINUS_1,
            D_IS_M,
            A_IS_A_MINUS_1,
        ],
    )
}

// The -1 that is the topmost word stays there if the jump is taken, else 0 goes over it. Then back.
fn decide(out: &mut Vec<Instr>, jump: Instr, here: u16) -> Result<(), AllocError>
    requires { here + 8 ≤ 32768 }
    ensures { OnOk result (out.new.items ≡ out.old.items ++ decide jump here) }
{
    put(
        out,
        &[
            Instr::Address(here + 5),
            jump,
            Instr::Address(0),
            A_IS_M_MINUS_1,
            M_IS_0,
        ],
    )?;
    go_back(out)
}

fn by_difference(out: &mut Vec<Instr>, jump: Instr, here: u16) -> Result<(), AllocError>
    requires { here + 10 ≤ 32768 }
    ensures { OnOk result (out.new.items ≡ out.old.items ++ by_difference jump here) }
{
    put(out, &[D_IS_M_MINUS_D, M_IS_MINUS_1])?;
    decide(out, jump, here + 2)
}

fn equal_routine(out: &mut Vec<Instr>, at: u16) -> Result<(), AllocError>
    requires { at + 16 ≤ 32768 }
    ensures { OnOk result (out.new.items ≡ out.old.items ++ equal_routine at) }
{
    begin_compare(out)?;
    by_difference(out, IF_D_EQUAL, at + 6)
}

fn load_again(out: &mut Vec<Instr>) -> Result<(), AllocError>
    ensures { OnOk result (out.new.items ≡ out.old.items ++ load_again) }
{
    put(out, &[Instr::Address(0), A_IS_M, D_IS_M, A_IS_A_MINUS_1])
}

// By the difference where both values are negative, or neither is; else the jump `by_sign` decides it by the lower
// value.
fn order_routine(
    out: &mut Vec<Instr>,
    jump: Instr,
    by_sign: Instr,
    at: u16,
) -> Result<(), AllocError>
    requires { at + 38 ≤ 32768 }
    ensures { OnOk result (out.new.items ≡ out.old.items ++ order_routine jump by_sign at) }
{
    begin_compare(out)?;
    put(out, &[D_IS_D_OR_M, Instr::Address(at + 24), IF_D_NOT_LESS])?;
    load_again(out)?;
    put(
        out,
        &[
            D_IS_D_AND_M,
            Instr::Address(at + 24),
            IF_D_LESS,
            Instr::Address(0),
            A_IS_M_MINUS_1,
            D_IS_M,
            M_IS_MINUS_1,
            Instr::Address(at + 35),
            by_sign,
            Instr::Address(at + 32),
            JUMP,
        ],
    )?;
    load_again(out)?;
    by_difference(out, jump, at + 28)
}

/// Adds the instructions of a routine that stands at this address.
pub fn routine_code(out: &mut Vec<Instr>, routine: Routine, at: u16) -> Result<(), AllocError>
    requires { at + routine_size routine ≤ 32768 }
    ensures { OnOk result (out.new.items ≡ out.old.items ++ routine_code routine at) }
{
    match routine {
        Routine::Call => call_routine(out),
        Routine::Back => return_code(out),
        Routine::Equal => equal_routine(out, at),
        Routine::Greater => order_routine(out, IF_D_GREATER, IF_D_NOT_LESS, at),
        Routine::Less => order_routine(out, IF_D_LESS, IF_D_LESS, at),
    }
}

// Adds the instructions of an operation that stands at this address.
fn operate(
    out: &mut Vec<Instr>,
    at: Routines,
    here: u16,
    operation: Operation,
) -> Result<(), AllocError>
    requires { here + operation_words operation ≤ 32768 }
    ensures { OnOk result (out.new.items ≡ out.old.items ++ operation_code at here operation) }
{
    match operation {
        Operation::Add => join(out, M_IS_D_PLUS_M),
        Operation::Sub => join(out, M_IS_M_MINUS_D),
        Operation::And => join(out, M_IS_D_AND_M),
        Operation::Or => join(out, M_IS_D_OR_M),
        Operation::Neg => turn(out, M_IS_MINUS_M),
        Operation::Not => turn(out, M_IS_NOT_M),
        Operation::ShiftLeft => turn(out, M_IS_M_SHIFTED_LEFT),
        Operation::ShiftRight => turn(out, M_IS_M_SHIFTED_RIGHT),
        Operation::Eq => compare_by(out, at.equal, (here + 4) % 32768),
        Operation::Gt => compare_by(out, at.greater, (here + 4) % 32768),
        Operation::Lt => compare_by(out, at.less, (here + 4) % 32768),
    }
}

/// Adds the instructions of a step that stands at this address.
pub fn template(
    out: &mut Vec<Instr>,
    at: Routines,
    here: u16,
    shape: Shape,
) -> Result<(), AllocError>
    requires room { here + size shape ≤ 32768 }
    requires limit { IsInLimit shape }
    ensures { OnOk result (out.new.items ≡ out.old.items ++ template at here shape) }
{
    match shape {
        Shape::PushConstant(number) => push_constant(out, number),
        Shape::PushAt { base, index } => push_at(out, base, index),
        Shape::PushFirst { base } => push_first(out, base),
        Shape::PushWord(address) => push_word(out, address),
        Shape::PopAt { base, index } => pop_at(out, base, index),
        Shape::PopFirst { base } => pop_first(out, base),
        Shape::PopWord(address) => pop_word(out, address),
        Shape::Operate(operation) => operate(out, at, here, operation),
        Shape::Goto(target) => go_to(out, target),
        Shape::IfGoto(target) => if_go_to(out, target),
        Shape::Call { target, arguments } => {
            call_by(out, at.call, (here + 12) % 32768, target, arguments)
        }
        Shape::Function { locals } => function_code(out, locals),
        Shape::Return => go_to(out, at.back),
    }
}

/// Adds the endless loop at this address.
pub fn endless(out: &mut Vec<Instr>, here: u16) -> Result<(), AllocError>
    ensures { OnOk result (out.new.items ≡ out.old.items ++ endless here) }
{
    put(out, &[Instr::Address(here), JUMP])
}

/// Adds the start code, which calls the function at this address.
pub fn start_code(out: &mut Vec<Instr>, at: Routines, entry: u16) -> Result<(), AllocError>
    ensures { OnOk result (out.new.items ≡ out.old.items ++ start_code at entry) }
{
    put(
        out,
        &[Instr::Address(256), D_IS_A, Instr::Address(0), M_IS_D],
    )?;
    call_by(out, at.call, 16, entry, 0)?;
    pop_word(out, 5)?;
    endless(out, ENDLESS_LOOP)
}
