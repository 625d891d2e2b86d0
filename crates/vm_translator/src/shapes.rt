//! The shapes of steps, and their sizes.
ghost use Rattle.std.specs.Prelude.{◌≡◌, ◌<◌, ◌≤◌};
ghost use Rattle.vm_templates.specs.Templates.{compared_by, size};
ghost use Rattle.vm_link.specs.Uniform.{is_shared};
ghost use Rattle.vm_translator.specs.Shared.{routine_for};
ghost use Rattle.vm_translator.specs.Shapes.{named_index, push_from, pop_to, push_shape, pop_shape, shape_of, step_size};

use vm_link::Step;
use vm_templates::{Routine, Shape};
use vm_tree::{Operation, Segment};

// The greatest number that an instruction names stands for those that are greater.
fn named(number: u16) -> u16
    ensures { result ≡ named_index number }
{
    number.min(32767)
}

// A push from a segment that begins where the register `base` points.
fn push_from(base: u16, index: u16) -> Shape
    ensures { result ≡ push_from base index }
{
    if index == 0 {
        Shape::PushFirst { base }
    } else {
        Shape::PushAt {
            base,
            index: named(index),
        }
    }
}

// A pop to such a segment.
fn pop_to(base: u16, index: u16) -> Shape
    ensures { result ≡ pop_to base index }
{
    if index == 0 {
        Shape::PopFirst { base }
    } else {
        Shape::PopAt {
            base,
            index: named(index),
        }
    }
}

fn pushed(segment: Segment, index: u16) -> Shape
    ensures { result ≡ push_shape segment index }
{
    match segment {
        Segment::Argument => push_from(2, index),
        Segment::Local => push_from(1, index),
        Segment::Static => Shape::PushWord(named(index.saturating_add(16))),
        Segment::Constant => Shape::PushConstant(named(index)),
        Segment::This => push_from(3, index),
        Segment::That => push_from(4, index),
        Segment::Pointer => Shape::PushWord(named(index.saturating_add(3))),
        Segment::Temp => Shape::PushWord(named(index.saturating_add(5))),
    }
}

fn popped(segment: Segment, index: u16) -> Shape
    ensures { result ≡ pop_shape segment index }
{
    match segment {
        Segment::Argument => pop_to(2, index),
        Segment::Local => pop_to(1, index),
        Segment::Static => Shape::PopWord(named(index.saturating_add(16))),
        Segment::Constant => Shape::PopWord(13),
        Segment::This => pop_to(3, index),
        Segment::That => pop_to(4, index),
        Segment::Pointer => Shape::PopWord(named(index.saturating_add(3))),
        Segment::Temp => Shape::PopWord(named(index.saturating_add(5))),
    }
}

/// The shape of a step that leads to this address, where it leads anywhere.
pub fn shape_of(to: u16, step: Step) -> Shape
    ensures { result ≡ shape_of to step }
{
    match step {
        Step::Operate(operation) => Shape::Operate(operation),
        Step::Push(segment, index) => pushed(segment, index),
        Step::Pop(segment, index) => popped(segment, index),
        Step::Goto(_) => Shape::Goto(to),
        Step::IfGoto(_) => Shape::IfGoto(to),
        Step::Function(locals) => Shape::Function { locals },
        Step::Call(_, arguments) => Shape::Call {
            target: to,
            arguments: named(arguments),
        },
        Step::Return => Shape::Return,
    }
}

// The routine that an operation goes through.
fn compared_by(operation: Operation) -> Option<Routine>
    ensures { result ≡ compared_by operation }
{
    match operation {
        Operation::Eq => Some(Routine::Equal),
        Operation::Gt => Some(Routine::Greater),
        Operation::Lt => Some(Routine::Less),
        _ => None,
    }
}

/// The routine that a step goes through.
pub fn routine_for(step: Step) -> Option<Routine>
    ensures { result ≡ routine_for step }
{
    match step {
        Step::Operate(operation) => compared_by(operation),
        Step::Call(_, _) => Some(Routine::Call),
        Step::Return => Some(Routine::Back),
        _ => None,
    }
}

/// Whether a step is a call, a return or a comparison.
pub fn is_shared(step: Step) -> bool
    ensures { result ≡ is_shared step }
{
    match step {
        Step::Operate(Operation::Eq | Operation::Gt | Operation::Lt) => true,
        Step::Call(_, _) | Step::Return => true,
        _ => false,
    }
}

// The number of a push's instructions.
fn push_size(segment: Segment, index: u16) -> u32
    ensures size { result ≡ size (push_shape segment index) }
    ensures some { 0 < result }
    ensures small { result < 10 }
{
    match segment {
        Segment::Argument | Segment::Local | Segment::This | Segment::That => {
            if index == 0 { 7 } else { 9 }
        }
        _ => 6,
    }
}

// The number of a pop's instructions.
fn pop_size(segment: Segment, index: u16) -> u32
    ensures size { result ≡ size (pop_shape segment index) }
    ensures some { 0 < result }
    ensures small { result < 13 }
{
    match segment {
        Segment::Argument | Segment::Local | Segment::This | Segment::That => {
            if index == 0 { 6 } else { 12 }
        }
        _ => 5,
    }
}

/// The number of a step's instructions.
pub fn step_size(step: Step) -> u32
    ensures size { result ≡ step_size step }
    ensures some { 0 < result }
    ensures small { result < 262144 }
{
    match step {
        Step::Operate(
            Operation::Neg | Operation::Not | Operation::ShiftLeft | Operation::ShiftRight,
        ) => 3,
        Step::Operate(Operation::Eq | Operation::Gt | Operation::Lt) => 4,
        Step::Operate(_) => 5,
        Step::Push(segment, index) => push_size(segment, index),
        Step::Pop(segment, index) => pop_size(segment, index),
        Step::Goto(_) => 2,
        Step::IfGoto(_) => 5,
        Step::Function(locals) => 4 * locals as u32 + 1,
        Step::Call(_, _) => 12,
        Step::Return => 2,
    }
}
