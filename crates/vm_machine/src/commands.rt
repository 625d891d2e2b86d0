//! What each command does.
ghost use Rattle.std.specs.Prelude.{◌≡◌, ◌≤◌, ◌<◌, ◌+◌, ◌^◌, ◌∷◌, [], Bool, false, Option, Some, None, length, drop, slice_get, nat_eq, if◌then◌else◌};
ghost use Rattle.word16.specs.Words.{word_add};
ghost use Rattle.vm_machine.specs.State.{State, words_in_use};
ghost use Rattle.vm_machine.specs.Step.{Acts, after, act, begin, call, goes, load, on_top, on_word, operate, pop, push, push_outcome, return, store, write_outcome};
ghost use Rattle.vm_tree.specs.declared.command.Segment.{Segment};
ghost use Rattle.vm_machine.specs.Inner.Performs.{Performs, takes_one, word_of};

use crate::memory::Memory;
use crate::stack::{ROOM, Stack};
use machine_io::{Moved, Stray};
use vm_link::Step;
use vm_tree::{Operation, Segment};
use word16::{HEAP, KEYBOARD};

/// The machine without its program: the calls in progress, and the words that are no stack.
#[derive(Drop)]
pub struct Machine {
    pub stack: Stack,
    pub memory: Memory,
}

// In place of the `n` topmost values stands `w`, and the next command follows.
fn give(machine: &mut Machine, n: usize, w: u16) -> Moved
    requires count { n ≤ length machine.old.stack.top.values }
    requires place { machine.old.stack.top.place + 1 < 2 ^ 64 }
    ensures { (heard : Bool) → Performs
        (λ s f below. Acts heard (record s { frames = after f (w ∷ drop n f.values) ∷ below }))
        machine.old result machine.new }
{
    let used = machine.stack.words_in_use();
    if used + 1 > ROOM + n {
        return Moved::Full((used + 1 - n) as u32);
    }
    let place = machine.stack.place() + 1;
    machine.stack.replace(n, w, place);
    Moved::Acted
}

// The topmost value is taken away, and the command at a place follows.
fn take(machine: &mut Machine, place: usize) -> Moved
    requires { 1 ≤ length machine.old.stack.top.values }
    ensures acts { result ≡ Moved.Acted }
    ensures top { machine.new.stack.top ≡ record machine.old.stack.top {
      place = place;
      values = drop 1 machine.old.stack.top.values;
    } }
    ensures below { machine.new.stack.below ≡ machine.old.stack.below }
    ensures memory { machine.new.memory ≡ machine.old.memory }
    ensures room { words_in_use (machine.new.stack.top ∷ machine.new.stack.below) ≤ 1792 }
{
    machine.stack.discard(place);
    prove!(machine.stack.words_in_use() <= ROOM);
    Moved::Acted
}

fn takes_one(o: Operation) -> bool
    ensures { result ≡ takes_one o }
{
    match o {
        Operation::Neg => true,
        Operation::Not => true,
        Operation::ShiftLeft => true,
        Operation::ShiftRight => true,
        _ => false,
    }
}

fn word_of(o: Operation, x: u16, y: u16) -> u16
    ensures { result ≡ word_of o x y }
{
    match o {
        Operation::Add => word16::add(x, y),
        Operation::Sub => word16::sub(x, y),
        Operation::Neg => word16::neg(y),
        Operation::Eq => word16::word_eq(x, y),
        Operation::Gt => word16::word_gt(x, y),
        Operation::Lt => word16::word_lt(x, y),
        Operation::And => word16::and(x, y),
        Operation::Or => word16::or(x, y),
        Operation::Not => word16::not(y),
        Operation::ShiftLeft => word16::shl(y),
        Operation::ShiftRight => word16::shr(y),
    }
}

fn operate(machine: &mut Machine, o: Operation) -> Moved
    requires { machine.old.stack.top.place + 1 < 2 ^ 64 }
    ensures { Performs (operate o) machine.old result machine.new }
{
    let Some(y) = machine.stack.value(0) else {
        return Moved::Stray(Stray::Values);
    };
    if takes_one(o) {
        return give(machine, 1, word_of(o, 0, y));
    }
    let Some(x) = machine.stack.value(1) else {
        return Moved::Stray(Stray::Values);
    };
    give(machine, 2, word_of(o, x, y))
}

// One more value, if it is there.
fn push_found(machine: &mut Machine, word: Option<u16>, why: Stray) -> Moved
    requires { machine.old.stack.top.place + 1 < 2 ^ 64 }
    ensures { Performs (λ s f below. on_word why word (push_outcome false s f below)) machine.old
        result machine.new }
{
    match word {
        Some(w) => give(machine, 0, w),
        None => Moved::Stray(why),
    }
}

// The word at an address is pushed.
fn load(machine: &mut Machine, key: u16, a: u16) -> Moved
    requires { machine.old.stack.top.place + 1 < 2 ^ 64 }
    ensures { Performs (load key a) machine.old result machine.new }
{
    if a < HEAP || a > KEYBOARD {
        return Moved::Stray(Stray::Address(a));
    }
    if a == KEYBOARD {
        return give(machine, 0, key);
    }
    let w = machine.memory.word(a);
    give(machine, 0, w)
}

fn pointer(stack: &Stack, i: u16) -> Option<u16>
    ensures { result ≡ slice_get (stack.now.top.this ∷ stack.now.top.that ∷ []) i }
{
    match i {
        0 => Some(stack.this()),
        1 => Some(stack.that()),
        _ => None,
    }
}

// The word at an index from a base address is pushed.
fn push_word(machine: &mut Machine, key: u16, base: u16, i: u16) -> Moved
    requires { machine.old.stack.top.place + 1 < 2 ^ 64 }
    ensures { Performs (λ s f below. write_outcome i (load key (word_add base i) s f below))
        machine.old result machine.new }
{
    if i >= 32768 {
        return Moved::Stray(Stray::Code);
    }
    load(machine, key, word16::add(base, i))
}

fn push_constant(machine: &mut Machine, i: u16) -> Moved
    requires { machine.old.stack.top.place + 1 < 2 ^ 64 }
    ensures { Performs (λ s f below. write_outcome i (push_outcome false s f below i)) machine.old
        result machine.new }
{
    if i >= 32768 {
        return Moved::Stray(Stray::Code);
    }
    give(machine, 0, i)
}

fn push(machine: &mut Machine, key: u16, segment: Segment, i: u16) -> Moved
    requires { machine.old.stack.top.place + 1 < 2 ^ 64 }
    ensures { Performs (push key segment i) machine.old result machine.new }
{
    match segment {
        Segment::Constant => push_constant(machine, i),
        Segment::Argument => {
            let word = machine.stack.argument(i);
            push_found(machine, word, Stray::Argument)
        }
        Segment::Local => {
            let word = machine.stack.local(i);
            push_found(machine, word, Stray::Local)
        }
        Segment::Static => {
            let word = machine.memory.static_word(i);
            push_found(machine, word, Stray::Code)
        }
        Segment::Temp => {
            let word = machine.memory.temp(i);
            push_found(machine, word, Stray::Code)
        }
        Segment::Pointer => {
            let word = pointer(&machine.stack, i);
            push_found(machine, word, Stray::Code)
        }
        Segment::This => {
            let base = machine.stack.this();
            push_word(machine, key, base, i)
        }
        Segment::That => {
            let base = machine.stack.that();
            push_word(machine, key, base, i)
        }
    }
}

// The word at an address gets another value, and the topmost value is taken away.
fn store(machine: &mut Machine, a: u16, w: u16) -> Moved
    requires values { 1 ≤ length machine.old.stack.top.values }
    requires place { machine.old.stack.top.place + 1 < 2 ^ 64 }
    ensures { Performs (λ s f below. store a w (drop 1 f.values) s f below) machine.old result
        machine.new }
{
    if a < HEAP || a >= KEYBOARD {
        return Moved::Stray(Stray::Address(a));
    }
    machine.memory.set_word(a, w);
    let place = machine.stack.place() + 1;
    take(machine, place)
}

fn pop_word(machine: &mut Machine, base: u16, i: u16, w: u16) -> Moved
    requires values { 1 ≤ length machine.old.stack.top.values }
    requires place { machine.old.stack.top.place + 1 < 2 ^ 64 }
    ensures { Performs
        (λ s f below. write_outcome i (store (word_add base i) w (drop 1 f.values) s f below))
        machine.old result machine.new }
{
    if i >= 32768 {
        return Moved::Stray(Stray::Code);
    }
    store(machine, word16::add(base, i), w)
}

fn pop_argument(machine: &mut Machine, i: u16, w: u16) -> Moved
    requires values { 1 ≤ length machine.old.stack.top.values }
    requires place { machine.old.stack.top.place + 1 < 2 ^ 64 }
    ensures { Performs (λ s f below. pop Segment.Argument i s f below w (drop 1 f.values))
        machine.old result machine.new }
{
    if !machine.stack.set_argument(i, w) {
        return Moved::Stray(Stray::Argument);
    }
    let place = machine.stack.place() + 1;
    take(machine, place)
}

fn pop_local(machine: &mut Machine, i: u16, w: u16) -> Moved
    requires values { 1 ≤ length machine.old.stack.top.values }
    requires place { machine.old.stack.top.place + 1 < 2 ^ 64 }
    ensures { Performs (λ s f below. pop Segment.Local i s f below w (drop 1 f.values)) machine.old
        result machine.new }
{
    if !machine.stack.set_local(i, w) {
        return Moved::Stray(Stray::Local);
    }
    let place = machine.stack.place() + 1;
    take(machine, place)
}

fn pop_static(machine: &mut Machine, i: u16, w: u16) -> Moved
    requires values { 1 ≤ length machine.old.stack.top.values }
    requires place { machine.old.stack.top.place + 1 < 2 ^ 64 }
    ensures { Performs (λ s f below. pop Segment.Static i s f below w (drop 1 f.values)) machine.old
        result machine.new }
{
    if !machine.memory.set_static(i, w) {
        return Moved::Stray(Stray::Code);
    }
    let place = machine.stack.place() + 1;
    take(machine, place)
}

fn pop_temp(machine: &mut Machine, i: u16, w: u16) -> Moved
    requires values { 1 ≤ length machine.old.stack.top.values }
    requires place { machine.old.stack.top.place + 1 < 2 ^ 64 }
    ensures { Performs (λ s f below. pop Segment.Temp i s f below w (drop 1 f.values)) machine.old
        result machine.new }
{
    if !machine.memory.set_temp(i, w) {
        return Moved::Stray(Stray::Code);
    }
    let place = machine.stack.place() + 1;
    take(machine, place)
}

fn pop_pointer(machine: &mut Machine, i: u16, w: u16) -> Moved
    requires values { 1 ≤ length machine.old.stack.top.values }
    requires place { machine.old.stack.top.place + 1 < 2 ^ 64 }
    ensures { Performs (λ s f below. pop Segment.Pointer i s f below w (drop 1 f.values))
        machine.old result machine.new }
{
    if i > 1 {
        return Moved::Stray(Stray::Code);
    }
    let this = if i == 0 { w } else { machine.stack.this() };
    let that = if i == 0 { machine.stack.that() } else { w };
    machine.stack.point(this, that);
    let place = machine.stack.place() + 1;
    take(machine, place)
}

// The word `w`, the topmost value, goes to a segment.
fn pop_to(machine: &mut Machine, segment: Segment, i: u16, w: u16) -> Moved
    requires values { 1 ≤ length machine.old.stack.top.values }
    requires place { machine.old.stack.top.place + 1 < 2 ^ 64 }
    ensures { Performs (λ s f below. pop segment i s f below w (drop 1 f.values)) machine.old result
        machine.new }
{
    match segment {
        Segment::Constant => Moved::Stray(Stray::Code),
        Segment::Argument => pop_argument(machine, i, w),
        Segment::Local => pop_local(machine, i, w),
        Segment::Static => pop_static(machine, i, w),
        Segment::Temp => pop_temp(machine, i, w),
        Segment::Pointer => pop_pointer(machine, i, w),
        Segment::This => {
            let base = machine.stack.this();
            pop_word(machine, base, i, w)
        }
        Segment::That => {
            let base = machine.stack.that();
            pop_word(machine, base, i, w)
        }
    }
}

fn pop(machine: &mut Machine, segment: Segment, i: u16) -> Moved
    requires { machine.old.stack.top.place + 1 < 2 ^ 64 }
    ensures { Performs (λ s f below. on_top f.values (pop segment i s f below)) machine.old result
        machine.new }
{
    match machine.stack.value(0) {
        Some(w) => pop_to(machine, segment, i, w),
        None => Moved::Stray(Stray::Values),
    }
}

fn call(machine: &mut Machine, function: usize, n: u16) -> Moved
    requires { machine.old.stack.top.place + 1 < 2 ^ 64 }
    ensures { Performs (call function n) machine.old result machine.new }
{
    if machine.stack.count() < n as usize {
        return Moved::Stray(Stray::Values);
    }
    let used = machine.stack.words_in_use() + 5;
    if used > ROOM {
        return Moved::Full(used as u32);
    }
    let place = machine.stack.place() + 1;
    machine.stack.call(function, n as usize, place);
    prove!(machine.stack.words_in_use() <= ROOM);
    Moved::Acted
}

// The start of a function, which makes its locals.
fn begin(machine: &mut Machine, n: u16) -> Moved
    requires { machine.old.stack.top.place + 1 < 2 ^ 64 }
    ensures { Performs (λ s f below. begin n f.locals f.values s f below) machine.old result
        machine.new }
{
    let is_new = machine.stack.local_count() == 0 && machine.stack.count() == 0;
    if !is_new || machine.stack.depth() == 0 {
        return Moved::Stray(Stray::Code);
    }
    let used = machine.stack.words_in_use() + n as usize;
    if used > ROOM {
        return Moved::Full(used as u32);
    }
    let place = machine.stack.place() + 1;
    machine.stack.make_locals(n as usize, place);
    prove!(machine.stack.words_in_use() <= ROOM);
    Moved::Acted
}

fn leave(machine: &mut Machine) -> Moved
    ensures { Performs (λ s f below. on_top f.values (return below s)) machine.old result
        machine.new }
{
    let Some(w) = machine.stack.value(0) else {
        return Moved::Stray(Stray::Values);
    };
    if machine.stack.depth() == 0 {
        return Moved::Stray(Stray::Code);
    }
    machine.stack.leave(w);
    prove!(machine.stack.words_in_use() <= ROOM);
    Moved::Acted
}

fn goto(machine: &mut Machine, place: usize) -> Moved
    ensures { Performs (λ s f below. goes s below (record f { place = place })) machine.old result
        machine.new }
{
    machine.stack.go_to(place);
    prove!(machine.stack.words_in_use() <= ROOM);
    Moved::Acted
}

// Any word but 0 jumps.
fn if_goto(machine: &mut Machine, place: usize) -> Moved
    requires { machine.old.stack.top.place + 1 < 2 ^ 64 }
    ensures { Performs (λ s f below. on_top f.values (λ w values. goes s below
        (record f { place = if nat_eq w 0 then f.place + 1 else place; values = values })))
        machine.old result machine.new }
{
    let Some(w) = machine.stack.value(0) else {
        return Moved::Stray(Stray::Values);
    };
    let next = machine.stack.place() + 1;
    take(machine, if w == 0 { next } else { place })
}

/// Does a command, where this key is held.
pub fn act(machine: &mut Machine, key: u16, step: Step) -> Moved
    requires { machine.old.stack.top.place + 1 < 2 ^ 64 }
    ensures { Performs (act key step) machine.old result machine.new }
{
    match step {
        Step::Operate(o) => operate(machine, o),
        Step::Push(segment, i) => push(machine, key, segment, i),
        Step::Pop(segment, i) => pop(machine, segment, i),
        Step::Goto(place) => goto(machine, place),
        Step::IfGoto(place) => if_goto(machine, place),
        Step::Function(n) => begin(machine, n),
        Step::Call(function, n) => call(machine, function, n),
        Step::Return => leave(machine),
    }
}
