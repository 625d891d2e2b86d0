//! The machine.

ghost use Rattle.std.specs.Prelude.{◌≡◌, ◌∷◌, IfOk, replicate, sum_by};
ghost use Rattle.jack_core.specs.Texts.{the_program};
ghost use Rattle.jack_machine.specs.Calls.{CallsAreThere};
ghost use Rattle.jack_machine.specs.Frames.{the_frame};
ghost use Rattle.jack_machine.specs.Inner.Reached.{AreReached};
ghost use Rattle.jack_machine.specs.Machine.{start_frame, the_stack};

use crate::calling::{call, enter, last_values, leave};
use crate::frames::{Act, Frame, step_top};
use crate::fronts::First;
use crate::looking::{Memory, Variables, word_in};
use crate::texts::{first_number, text_with};
use jack_core::{Class, Core, Part};
use machine_io::{Level, Moved, Stray};
use outer_world::Point;
use std::alloc::{AllocError, Global};
use word16::{HEAP, HEAP_AND_SCREEN_SIZE};

/// A machine that steps a program by its meaning. Its frames point into the program.
pub struct Jack<'a> {
    core: &'a Core,
    top: Frame<'a>,
    below: Vec<Frame<'a>>,
    memory: Memory,
    moves: u64,
    alloc: Global,
    // Each subroutine that the program can come to is there, and what is left to do calls no others.
    ghost there: { CallsAreThere (the_program core.now) },
    ghost reached: { ∥ AreReached (the_program core.now)
        (the_frame top ∷ the_stack below.items) ∥₁ },
}

// By hand, so that whoever drops one calls this.
impl Drop for Jack<'_> {
    fn drop(self) {
        let Jack {
            core: _,
            top: _,
            below: _,
            memory: _,
            moves: _,
            alloc: _,
        } = self;
    }
}

// The words of all statics, 0.
fn new_statics(alloc: Global, classes: &[Class]) -> Result<Vec<u16>, AllocError>
    ensures { IfOk result
        (λ statics. statics.items ≡ replicate (sum_by (λ c. c.statics) classes.now) 0) }
{
    let mut statics = Vec::new(alloc);
    for class in classes {
        let mut zeros = vec![in alloc; 0u16; class.statics as usize]?;
        statics.append(&mut zeros)?;
    }
    Ok(statics)
}

// The frame `start`, whose text is `do Sys.init();`.
fn first_frame<'a>(alloc: Global, init: u32) -> Frame<'a>
    ensures { the_frame result ≡ start_frame init }
{
    let text = text_with(alloc, First::Start(init), Vec::new(alloc));
    Frame {
        subroutine: 0,
        variables: Variables {
            arguments: Vec::new(alloc),
            locals: Vec::new(alloc),
            this: 0,
        },
        text,
    }
}

impl<'a> Jack<'a> {
    ghost use Rattle.std.specs.Prelude.{◌+◌, ◌<◌, ◌≤◌, ◌^◌, [], OnOk, OnErr, length};
    ghost use Rattle.machine_io.specs.History.{moves_in};
    ghost use Rattle.jack_meaning.specs.Meaning.{start};
    ghost use Rattle.jack_core.specs.declared.tree.Part.TheVariants as part;
    ghost use Rattle.jack_core.specs.Texts.{the_subroutines};
    ghost use Rattle.jack_machine.specs.Frames.{called_state, IsNext};
    ghost use Rattle.jack_machine.specs.Whole.{IsCalled, IsSame, JackStep, Stands, jack_state};

    /// The machine at the start of a program, where each subroutine is there that the program can come to: `do Sys.init();`, and
    /// all words 0.
    pub fn new(alloc: Global, core: &'a Core) -> Result<Self, AllocError>
        requires there { CallsAreThere (the_program core.now) }
        ensures start { IfOk result (λ j. jack_state j ≡ start (the_program core.now)) }
        ensures core { IfOk result (λ j. j.core.now ≡ core.now) }
        ensures moves { IfOk result (λ j. j.moves ≡ 0) }
        ensures stands { IfOk result (λ j. Stands j []) }
    {
        let statics = new_statics(alloc, &core.classes)?;
        let words = vec![in alloc; 0u16; HEAP_AND_SCREEN_SIZE]?;
        Ok(Self {
            core,
            top: first_frame(alloc, core.init),
            below: Vec::new(alloc),
            memory: Memory { statics, words },
            moves: 0,
            alloc,
        })
    }

    /// The number of frames: the top one, and those that wait for it.
    pub fn frames(&self) -> usize
        ensures frames { result ≡ length (jack_state self.now).frames }
        ensures few { result ≤ 2 ^ 63 }
    {
        self.below.len() + 1
    }

    // A new frame for the call that is next in the top frame, with this many arguments.
    fn make_call(&mut self, g: u32, n: u16) -> Result<(), AllocError>
        requires next { IsNext (part.Call n g) self.old.top }
        requires reached { ∥ AreReached (the_program self.old.core.now)
            (called_state (the_subroutines self.old.core.now) self.old.top self.old.memory
            (the_stack self.old.below.items) g n).frames ∥₁ }
        ensures done { OnOk result (IsCalled g n self.old self.new) }
        ensures refused { OnErr result (IsSame self.old self.new) }
        ensures core { self.new.core ≡ self.old.core }
        ensures moves { self.new.moves ≡ self.old.moves }
    {
        let arguments = last_values(self.alloc, &self.top.text.front.values, n as usize)?;
        let entered = enter(self.alloc, &self.core.subroutines, g, arguments)?;
        let part = Part::Call {
            arguments: n,
            number: g,
        };
        call(&mut self.top, &mut self.below, part, entered)
    }

    /// One step of the meaning under a key. Where memory is wanted, and after any answer but `Acted`, the machine
    /// stands for the same state as before.
    pub fn make_step(&mut self, key: u16) -> Result<Moved, AllocError>
        requires { self.old.moves < 2 ^ 63 }
        ensures step { IfOk result (λ answer. JackStep key self.old answer self.new) }
        ensures refused { OnErr result (IsSame self.old self.new) }
        ensures core { self.new.core ≡ self.old.core }
        ensures counts { IfOk result (λ answer. self.new.moves ≡ moves_in answer + self.old.moves) }
        ensures refused_count { OnErr result (self.new.moves ≡ self.old.moves) }
    {
        match step_top(&mut self.top, &mut self.memory, key)? {
            Act::Acted => {
                self.moves += 1;
                Ok(Moved::Acted)
            }
            Act::Heard => {
                self.moves += 1;
                Ok(Moved::Acted)
            }
            Act::Calls(g, n) => {
                self.make_call(g, n)?;
                self.moves += 1;
                Ok(Moved::Acted)
            }
            Act::Returns(w) => {
                if !leave(&mut self.top, &mut self.below, w) {
                    return Ok(Moved::Done);
                }
                self.moves += 1;
                Ok(Moved::Acted)
            }
            Act::Strays(a) => Ok(Moved::Stray(Stray::Address(a))),
            Act::Done => Ok(Moved::Done),
        }
    }
}

impl<'a> Level for Jack<'a> {
    ghost use Rattle.std.specs.Prelude.{false};
    ghost use Rattle.jack_core.specs.declared.program.Core.{Core};
    ghost use Rattle.jack_machine.specs.Whole.{Stands, jack_point, jack_reply, jack_word};

    type Point = Point;

    ghost stands = { Stands };

    ghost reading = { λ j. record {
      moves = j.moves;
      steps = j.moves;
      point = jack_point j;
      word = jack_word j;
    } };

    ghost reply = { jack_reply };

    ghost sure = { false };

    ghost Program = { Core };

    ghost program = { λ j. j.core.now };

    fn step(&mut self, key: u16) -> Result<Moved, AllocError> {
        self.make_step(key)
    }

    fn moves(&self) -> u64 {
        self.moves
    }

    fn word_at(&self, a: u16) -> u16 {
        word_in(&self.memory.words, a as usize - HEAP as usize)
    }

    fn steps(&self) -> u64 {
        self.moves
    }

    fn point(&self) -> Point {
        Point {
            sub: self.top.subroutine,
            number: first_number(&self.top.text),
        }
    }
}
