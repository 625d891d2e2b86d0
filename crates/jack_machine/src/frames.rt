//! The top frame and its step.

ghost use Rattle.std.specs.Prelude.{◌≡◌, ℕ, List, slice_get, slice_set, IfOk, OnErr, Some, None};
ghost use Rattle.jack_meaning.specs.Meaning.{Frame as AFrame};
ghost use Rattle.jack_meaning.specs.Text.{Subroutine as ASubroutine};
ghost use Rattle.jack_core.specs.Reading.{the_variable};
ghost use Rattle.jack_machine.specs.Looks.{the_view, Sees, IsOfCall};
ghost use Rattle.jack_machine.specs.Parts.{parts_of};
ghost use Rattle.jack_machine.specs.Frames.{Assigns, StoresAt, Applies, IsNext, TopStep, IsSameTop};

use crate::effects::{Effect, effect_of};
use crate::fronts::First;
use crate::looking::{Memory, Sight, Variables, look_at};
use crate::parts::{next_part, operands, put};
use crate::texts::{Text, advance, choose};
use jack_core::{Part, Statement, Variable};
use std::alloc::AllocError;
use word16::{HEAP, KEYBOARD};

/// A call that was made and has not returned: its variables, and the rest of its text.
#[derive(Drop)]
pub(crate) struct Frame<'a> {
    pub subroutine: u32,
    pub variables: Variables,
    pub text: Text<'a>,
}

/// What a step of the top frame did, or what is left to be done. That is a call of a subroutine with this number
/// of arguments, a return, or nothing because of an address outside the memory or because no statement is left.
#[derive(Clone, Copy)]
pub(crate) enum Act {
    Acted,
    Heard,
    Calls(u32, u16),
    Returns(u16),
    Strays(u16),
    Done,
}

fn set(words: &mut [u16], k: usize, w: u16)
    ensures { words.new ≡ slice_set words.old k w }
{
    if k < words.len() {
        words[k] = w;
    }
}

// A variable gets a value.
fn assign(variables: &mut Variables, memory: &mut Memory, x: Variable, w: u16)
    ensures { Assigns (the_variable x) w variables.old memory.old variables.new memory.new }
{
    match x {
        Variable::Argument(k) => set(&mut variables.arguments, k as usize, w),
        Variable::Local(k) => set(&mut variables.locals, k as usize, w),
        Variable::Static(k) => set(&mut memory.statics, k as usize, w),
    }
}

// The word at an address of heap or screen is replaced; at any other address nothing is done.
fn store(memory: &mut Memory, address: u16, w: u16) -> bool
    ensures { StoresAt address w memory.old result memory.new }
{
    if address < HEAP || address >= KEYBOARD {
        return false;
    }
    set(&mut memory.words, address as usize - HEAP as usize, w);
    true
}

// The first statement, all parts of which are values, has this effect, and is taken off.
fn apply<'a>(
    top: &mut Frame<'a>,
    memory: &mut Memory,
    first: &'a Statement,
    effect: Effect,
) -> Result<Act, AllocError>
    ensures done { IfOk result
        (λ act. Applies first.now effect top.old memory.old act top.new memory.new) }
    ensures refused { OnErr result (IsSameTop top.old memory.old top.new memory.new) }
{
    match effect {
        Effect::Assigns(x, w) => {
            assign(&mut top.variables, memory, x, w);
            advance(&mut top.text);
            Ok(Act::Acted)
        }
        Effect::Stores(address, w) => {
            if !store(memory, address, w) {
                return Ok(Act::Strays(address));
            }
            advance(&mut top.text);
            Ok(Act::Acted)
        }
        Effect::SetsThis(w) => {
            top.variables.this = w;
            advance(&mut top.text);
            Ok(Act::Acted)
        }
        Effect::Drops => {
            advance(&mut top.text);
            Ok(Act::Acted)
        }
        Effect::Chooses(w) => {
            choose(&mut top.text.after, first, w)?;
            advance(&mut top.text);
            Ok(Act::Acted)
        }
        Effect::Returns(w) => Ok(Act::Returns(w)),
    }
}

// The first statement acts; all its parts are values.
fn act_first(top: &mut Frame, memory: &mut Memory) -> Result<Act, AllocError>
    requires { slice_get (parts_of top.old.text.front.first) top.old.text.front.done ≡ None }
    ensures done { IfOk result (λ act. (subs : List ASubroutine) (below : List AFrame) (key : ℕ)
        → TopStep subs below key top.old memory.old act top.new memory.new) }
    ensures refused { OnErr result (IsSameTop top.old memory.old top.new memory.new) }
{
    match top.text.front.first {
        First::Nothing => Ok(Act::Done),
        First::Start(_) => {
            advance(&mut top.text);
            Ok(Act::Acted)
        }
        First::Statement(first) => {
            let effect = effect_of(top.variables.this, first, &top.text.front.values);
            apply(top, memory, first, effect)
        }
    }
}

// What the part that is next makes of the values before it.
fn look(top: &Frame, memory: &Memory, part: Part) -> Sight
    requires { IsNext part top.now }
    ensures sees { (key : ℕ) → Sees
        (the_view top.now.variables memory.now key) part top.now.text.front.values.items result }
    ensures call { IsOfCall part result }
{
    look_at(&top.variables, memory, &top.text.front.values, part)
}

// The part that is next becomes a value, or it comes to a call.
fn step_part(top: &mut Frame, memory: &Memory, part: Part, key: u16) -> Result<Act, AllocError>
    requires { IsNext part top.old }
    ensures done { IfOk result (λ act. (subs : List ASubroutine) (below : List AFrame)
        → TopStep subs below key top.old memory.now act top.new memory.now) }
    ensures refused { OnErr result (IsSameTop top.old memory.now top.new memory.now) }
{
    match look(top, memory, part) {
        Sight::Puts(w) => {
            put(&mut top.text.front, part, w)?;
            Ok(Act::Acted)
        }
        Sight::Hears => {
            put(&mut top.text.front, part, key)?;
            Ok(Act::Heard)
        }
        Sight::Calls(g) => Ok(Act::Calls(g, operands(part))),
        Sight::Strays(a) => Ok(Act::Strays(a)),
    }
}

/// The next step of the top frame. A call or a return is left to the caller.
pub(crate) fn step_top(top: &mut Frame, memory: &mut Memory, key: u16) -> Result<Act, AllocError>
    ensures done { IfOk result (λ act. (subs : List ASubroutine) (below : List AFrame)
        → TopStep subs below key top.old memory.old act top.new memory.new) }
    ensures refused { OnErr result (IsSameTop top.old memory.old top.new memory.new) }
{
    match next_part(&top.text.front) {
        Some(part) => step_part(top, memory, part, key),
        None => act_first(top, memory),
    }
}
