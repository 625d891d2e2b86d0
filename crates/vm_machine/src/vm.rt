//! The machine with its program.
ghost use Rattle.std.specs.Prelude.{◌≡◌, ◌≤◌, ◌<◌, ◌+◌, ◌-◌, ◌^◌, ◌++◌, ◌∷◌, [], List, ℕ, true, IfOk, IfSome, Some, slice_get, slice_index};
ghost use Rattle.word16.specs.Memory.{heap, keyboard};
ghost use Rattle.machine_io.specs.History.{moves_in, OnStop};
ghost use Rattle.vm_machine.specs.Step.{code_in, end_outcome, start, start_code, step};
ghost use Rattle.vm_machine.specs.Level.{end_statement, is_commit, last_statement, next_of, point_of, subroutine_of};
ghost use Rattle.vm_machine.specs.Moves.{Makes, answer_of, state_of};
ghost use Rattle.vm_machine.specs.Loaded.{LoadedVm, HasTaken, steps_in};

use crate::commands::{Machine, act};
use crate::memory::Memory;
use crate::stack::Stack;
use machine_io::{Level, Moved, Stray};
use outer_world::Point;
use std::alloc::{AllocError, Global};
use std::marker::Model;
use vm_link::{Code, Linked, Step};
use vm_tree::Segment;

/// A linked program in its run on the virtual machine.
pub struct Vm {
    linked: Linked,
    machine: Machine,
    moves: u64,
    steps: u64,
}

// By hand, so that whoever drops one calls this.
impl Drop for Vm {
    fn drop(self) {
        let Vm {
            linked: _,
            machine: _,
            moves: _,
            steps: _,
        } = self;
    }
}

impl Model for Vm {
    ghost Value = { LoadedVm };

    ghost view = { λ v. record {
      linked = v.linked;
      state = state_of v.machine.stack v.machine.memory;
      moves = v.moves;
      steps = v.steps;
    } };

    ghost invariant = { λ v. v.steps ≤ v.moves };
}

// The code of `start`: a call of Sys.init, whose value is dropped.
fn start_code(marked: bool, init: usize, place: usize) -> Option<Code>
    ensures { result ≡ slice_get (start_code marked init) place }
{
    match place {
        0 => Some(Code {
            step: Step::Call(init, 0),
            statement: 1,
            commit: marked,
        }),
        1 => Some(Code {
            step: Step::Pop(Segment::Temp, 0),
            statement: 1,
            commit: marked,
        }),
        _ => None,
    }
}

// The code of a function; none for a number that no function has.
fn code_of(linked: &Linked, k: usize) -> &[Code]
    ensures { result.now ≡ code_in linked.now (Some k) }
{
    match linked.functions.as_slice().get(k) {
        Some(function) => function.code.as_slice(),
        None => &[],
    }
}

// The command at a place of a function, or of `start`.
fn command_at(linked: &Linked, function: Option<usize>, place: usize) -> Option<Code>
    ensures code { result ≡ slice_get (code_in linked.now function) place }
    ensures place { IfSome result (λ _. place + 1 < 2 ^ 64) }
{
    match function {
        None => start_code(linked.marked, linked.start.unwrap_or(0), place),
        Some(k) => {
            let code = code_of(linked, k);
            if place < code.len() {
                Some(code[place])
            } else {
                None
            }
        }
    }
}

// The next command.
fn fetch(linked: &Linked, stack: &Stack) -> Option<Code>
    ensures code { result ≡ next_of linked.now (stack.now.top ∷ stack.now.below) }
    ensures place { IfSome result (λ _. stack.now.top.place + 1 < 2 ^ 64) }
{
    command_at(linked, stack.function(), stack.place())
}

// What is answered where no command is left.
fn ended(function: Option<usize>) -> Moved
    ensures { result ≡ answer_of (end_outcome function) }
{
    match function {
        None => Moved::Done,
        Some(_) => Moved::Stray(Stray::Code),
    }
}

// What the next command answers, and whether it is a commit.
fn proceed(linked: &Linked, machine: &mut Machine, key: u16) -> (Moved, bool)
    ensures makes { Makes (step linked.now key (state_of machine.old.stack machine.old.memory))
        (state_of machine.old.stack machine.old.memory) result.0
        (state_of machine.new.stack machine.new.memory) }
    ensures commit { result.1
        ≡ is_commit (next_of linked.now (machine.old.stack.top ∷ machine.old.stack.below)) }
{
    match fetch(linked, &machine.stack) {
        Some(code) => (act(machine, key, code.step), code.commit),
        None => (ended(machine.stack.function()), false),
    }
}

fn subroutine_of(linked: &Linked, function: Option<usize>) -> u32
    ensures { result ≡ subroutine_of linked.now function }
{
    match function {
        None => 0,
        Some(k) => linked.functions.as_slice().get(k).map_or(0, |f| f.number),
    }
}

fn last_statement(code: &[Code]) -> u32
    ensures { result ≡ last_statement code.now }
{
    match code.last() {
        Some(last) => last.statement,
        None => 0,
    }
}

// Where no command is left: `start` is at 2, and a function where its last command was.
fn end_statement(linked: &Linked, function: Option<usize>) -> u32
    ensures { result ≡ end_statement linked.now function }
{
    match function {
        None => 2,
        Some(k) => last_statement(code_of(linked, k)),
    }
}

impl Vm {
    /// The machine at the start of a program: a call of Sys.init comes next, and all words are 0.
    pub fn new(alloc: Global, linked: Linked) -> Result<Vm, AllocError>
        ensures linked { IfOk result (λ vm. vm.linked ≡ linked) }
        ensures start { IfOk result (λ vm. vm.state ≡ start) }
        ensures counts { IfOk result (λ vm. (vm.moves ≡ 0) × (vm.steps ≡ 0)) }
        ensures stands { IfOk result (λ vm. HasTaken vm []) }
    {
        Ok(Vm {
            linked,
            machine: Machine {
                stack: Stack::new(alloc)?,
                memory: Memory::new(alloc)?,
            },
            moves: 0,
            steps: 0,
        })
    }

    /// Makes the next move, in which `key` is held. After any answer but `Acted` the machine is as it was.
    pub fn step(&mut self, key: u16) -> Moved
        requires { self.old.moves < 2 ^ 63 }
        ensures makes { Makes (step self.old.linked key self.old.state) self.old.state result
            self.new.state }
        ensures linked { self.new.linked ≡ self.old.linked }
        ensures moves { self.new.moves ≡ moves_in result + self.old.moves }
        ensures steps { self.new.steps
            ≡ steps_in (next_of self.old.linked self.old.state.frames) result + self.old.steps }
        ensures still { OnStop result (self.new ≡ self.old) }
    {
        let (answer, is_commit) = proceed(&self.linked, &mut self.machine, key);
        if matches!(answer, Moved::Acted) {
            self.moves += 1;
            if is_commit {
                self.steps += 1;
            }
        }
        answer
    }

    /// The number of moves made.
    pub fn moves(&self) -> u64
        ensures { result ≡ self.now.moves }
    {
        self.moves
    }

    /// The number of commits among them.
    pub fn steps(&self) -> u64
        ensures { result ≡ self.now.steps }
    {
        self.steps
    }

    /// The word at an address of heap or screen.
    pub fn word_at(&self, a: u16) -> u16
        requires from { heap ≤ a }
        requires below { a < keyboard }
        ensures { result ≡ slice_index self.now.state.words (a - heap) }
    {
        self.machine.memory.word(a)
    }

    /// The control point: the innermost call's subroutine, and the statement of its next command.
    pub fn point(&self) -> Point
        ensures { result ≡ point_of self.now.linked self.now.state.frames }
    {
        let function = self.machine.stack.function();
        let number = match fetch(&self.linked, &self.machine.stack) {
            Some(code) => code.statement,
            None => end_statement(&self.linked, function),
        };
        Point {
            sub: subroutine_of(&self.linked, function),
            number,
        }
    }
}

impl Level for Vm {
    ghost use Rattle.vm_link.specs.declared.linked.Linked.{Linked};

    type Point = Point;

    ghost stands = { λ vm turns. HasTaken vm turns };

    ghost reading = { λ vm. record {
      moves = vm.moves;
      steps = vm.steps;
      point = point_of vm.linked vm.state.frames;
      word = λ a. slice_index vm.state.words (a - heap);
    } };

    ghost reply = { λ vm key. answer_of (step vm.linked key vm.state) };

    ghost sure = { true };

    ghost Program = { Linked };

    ghost program = { λ vm. vm.linked };

    fn step(&mut self, key: u16) -> Result<Moved, AllocError> {
        Ok(Vm::step(self, key))
    }

    fn moves(&self) -> u64 {
        Vm::moves(self)
    }

    fn word_at(&self, a: u16) -> u16 {
        Vm::word_at(self, a)
    }

    fn steps(&self) -> u64 {
        Vm::steps(self)
    }

    fn point(&self) -> Point {
        Vm::point(self)
    }
}
