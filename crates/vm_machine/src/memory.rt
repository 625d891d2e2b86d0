//! Statics, temp words, heap and screen.
ghost use Rattle.std.specs.Prelude.{◌≡◌, ◌≤◌, ◌<◌, ◌-◌, length, slice_get, slice_index, slice_set, nat_lt, replicate, IfOk};
ghost use Rattle.word16.specs.Memory.{heap, keyboard, heap_and_screen_size};
ghost use Rattle.vm_machine.specs.Moves.{Words};

use std::alloc::{AllocError, Global};
use std::marker::Model;
use word16::{HEAP, HEAP_AND_SCREEN_SIZE};

/// The words that are no stack: the statics by number, the eight temp words, and heap and screen from `HEAP` on.
pub struct Memory {
    statics: Vec<u16>,
    temps: Vec<u16>,
    words: Vec<u16>,
}

// By hand, so that whoever drops one calls this.
impl Drop for Memory {
    fn drop(self) {
        let Memory {
            statics: _,
            temps: _,
            words: _,
        } = self;
    }
}

impl Model for Memory {
    ghost Value = { Words };

    ghost view = { λ m. record {
      statics = m.statics.items;
      temps = m.temps.items;
      heap_and_screen = m.words.items;
    } };

    ghost invariant = { λ m. (length m.words.items ≡ heap_and_screen_size)
        × (length m.statics.items ≡ 240) × (length m.temps.items ≡ 8) };
}

fn zeros(alloc: Global, n: usize) -> Result<Vec<u16>, AllocError>
    ensures { IfOk result (λ v. v.items ≡ replicate n 0) }
{
    vec![in alloc; 0; n]
}

impl Memory {
    /// All words 0.
    pub fn new(alloc: Global) -> Result<Memory, AllocError>
        ensures { IfOk result (λ m. m ≡ record {
          statics = replicate 240 0;
          temps = replicate 8 0;
          heap_and_screen = replicate heap_and_screen_size 0;
        }) }
    {
        Ok(Memory {
            statics: zeros(alloc, 240)?,
            temps: zeros(alloc, 8)?,
            words: zeros(alloc, HEAP_AND_SCREEN_SIZE)?,
        })
    }

    /// The word at an address of heap or screen.
    pub fn word(&self, a: u16) -> u16
        requires from { heap ≤ a }
        requires below { a < keyboard }
        ensures { result ≡ slice_index self.now.heap_and_screen (a - heap) }
    {
        self.words[(a - HEAP) as usize]
    }

    /// That word gets another value.
    pub fn set_word(&mut self, a: u16, w: u16)
        requires from { heap ≤ a }
        requires below { a < keyboard }
        ensures { self.new ≡ record self.old {
          heap_and_screen = slice_set self.old.heap_and_screen (a - heap) w;
        } }
    {
        self.words[(a - HEAP) as usize] = w;
    }

    /// A static word.
    pub fn static_word(&self, i: u16) -> Option<u16>
        ensures { result ≡ slice_get self.now.statics i }
    {
        self.statics.get(i as usize).copied()
    }

    /// A temp word.
    pub fn temp(&self, i: u16) -> Option<u16>
        ensures { result ≡ slice_get self.now.temps i }
    {
        self.temps.get(i as usize).copied()
    }

    /// A static word gets another value, if it is there.
    pub fn set_static(&mut self, i: u16, w: u16) -> bool
        ensures there { result ≡ nat_lt i (length self.old.statics) }
        ensures new { self.new ≡ record self.old { statics = slice_set self.old.statics i w } }
    {
        let is_there = (i as usize) < self.statics.len();
        if is_there {
            self.statics[i as usize] = w;
        }
        is_there
    }

    /// A temp word gets another value, if it is there.
    pub fn set_temp(&mut self, i: u16, w: u16) -> bool
        ensures there { result ≡ nat_lt i (length self.old.temps) }
        ensures new { self.new ≡ record self.old { temps = slice_set self.old.temps i w } }
    {
        let is_there = (i as usize) < self.temps.len();
        if is_there {
            self.temps[i as usize] = w;
        }
        is_there
    }
}
