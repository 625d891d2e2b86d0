//! What a part makes of its operands. Nothing is changed here.

ghost use Rattle.std.specs.Prelude.{◌≡◌, ◌-◌, ◌≤◌, ◌<◌, ℕ, length, slice_index};
ghost use Rattle.jack_meaning.specs.Expressions.{View};
ghost use Rattle.jack_core.specs.Heights.{takes};
ghost use Rattle.jack_machine.specs.Looks.{the_view, Sees, IsOfCall, Loads};

use crate::words::{operate, sign};
use jack_core::Part;
use word16::{HEAP, KEYBOARD};

/// A frame's arguments and locals, and its `this`.
#[derive(Drop)]
pub(crate) struct Variables {
    pub arguments: Vec<u16>,
    pub locals: Vec<u16>,
    pub this: u16,
}

/// The statics, and the words of heap and screen.
#[derive(Drop)]
pub(crate) struct Memory {
    pub statics: Vec<u16>,
    pub words: Vec<u16>,
}

/// What a part comes to: it becomes a value, it becomes the key, a call is made, or there is no step because of an
/// address outside the memory.
#[derive(Clone, Copy)]
pub(crate) enum Sight {
    Puts(u16),
    Hears,
    Calls(u32),
    Strays(u16),
}

/// The word at a place, and 0 where there is no word.
pub(crate) fn word_in(words: &[u16], k: usize) -> u16
    ensures { result ≡ slice_index words.now k }
{
    words.get(k).copied().unwrap_or(0)
}

/// The last value (1), the one before it (2) and so on.
pub(crate) fn from_end(values: &[u16], k: usize) -> u16
    requires some { 0 < k }
    requires within { k ≤ length values.now }
    ensures { result ≡ slice_index values.now (length values.now - k) }
{
    values[values.len() - k]
}

// The word at an address of heap or screen, or the key.
fn load(memory: &Memory, address: u16) -> Sight
    ensures { (v : View) → v.words ≡ memory.now.words.items → Loads v address result }
{
    if address < HEAP || address > KEYBOARD {
        Sight::Strays(address)
    } else if address == KEYBOARD {
        Sight::Hears
    } else {
        Sight::Puts(word_in(&memory.words, address as usize - HEAP as usize))
    }
}

/// What a part makes of the last of these values.
pub(crate) fn look_at(variables: &Variables, memory: &Memory, values: &[u16], part: Part) -> Sight
    requires { takes part ≤ length values.now }
    ensures sees { (key : ℕ) → Sees (the_view variables.now memory.now key) part values.now result }
    ensures call { IsOfCall part result }
{
    match part {
        Part::Literal(n) => Sight::Puts(n),
        Part::Argument(k) => Sight::Puts(word_in(&variables.arguments, k as usize)),
        Part::Local(k) => Sight::Puts(word_in(&variables.locals, k as usize)),
        Part::Static(k) => Sight::Puts(word_in(&memory.statics, k as usize)),
        Part::This => Sight::Puts(variables.this),
        Part::Field(k) => load(memory, word16::add(variables.this, k)),
        Part::Unary(o) => Sight::Puts(sign(o, from_end(values, 1))),
        Part::Binary(o) => Sight::Puts(operate(o, from_end(values, 2), from_end(values, 1))),
        Part::Load => {
            let base = from_end(values, 2);
            let index = from_end(values, 1);
            load(memory, word16::add(base, index))
        }
        Part::Call { number, .. } => Sight::Calls(number),
    }
}
