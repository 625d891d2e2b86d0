//! The calls in progress, on one stack of words.
ghost use Rattle.std.specs.Prelude.{◌≡◌, ◌≤◌, ◌<◌, ◌+◌, ◌-◌, ◌∷◌, [], ℕ, List, Some, length, drop, take, reverse, replicate, slice_get, slice_index, slice_set, IfOk, nat_lt};
ghost use Rattle.vm_machine.specs.State.{Frame, words_in_use};
ghost use Rattle.vm_machine.specs.Step.{start_frame, called_frame};
ghost use Rattle.vm_machine.specs.Calls.{Calls, IsStack, calls_of};

use std::alloc::{AllocError, Global};
use std::marker::Model;

/// The stack has this many words.
pub const ROOM: usize = 1792;

/// A call: its function, the place of its next command, where its arguments, locals and values begin on the stack, and
/// its pointers.
#[derive(Clone, Copy)]
pub struct Call {
    pub function: Option<usize>,
    pub place: usize,
    pub arguments: usize,
    pub locals: usize,
    pub values: usize,
    pub this: u16,
    pub that: u16,
}

const START: Call = Call {
    function: None,
    place: 0,
    arguments: 0,
    locals: 0,
    values: 0,
    this: 0,
    that: 0,
};

/// The calls in progress, which contracts see as frames.
#[derive(Drop)]
pub struct Stack {
    words: Vec<u16>,
    calls: Vec<Call>,
    depth: usize,
    top: Call,
    end: usize,
}

impl Model for Stack {
    ghost Value = { Calls };

    ghost view = { λ s. calls_of s.words.items s.calls.items s.depth s.top s.end };

    ghost invariant = { λ s. IsStack s.words.items s.calls.items s.depth s.top s.end };
}

fn no_words(alloc: Global, n: usize) -> Result<Vec<u16>, AllocError>
    ensures { IfOk result (λ v. length v.items ≡ n) }
{
    vec![in alloc; 0; n]
}

fn no_calls(alloc: Global, n: usize) -> Result<Vec<Call>, AllocError>
    ensures { IfOk result (λ v. length v.items ≡ n) }
{
    vec![in alloc; START; n]
}

// The n words from a place on become 0.
fn clear(words: &mut Vec<u16>, from: usize, n: usize)
    requires { from + n ≤ length words.old.items }
    ensures length { length words.new.items ≡ length words.old.items }
    ensures before { (k : ℕ) → k < from
        → slice_index words.new.items k ≡ slice_index words.old.items k }
    ensures zeros { (k : ℕ) → k < n → slice_index words.new.items (from + k) ≡ 0 }
{
    for k in 0..n {
        words[from + k] = 0;
    }
}

impl Stack {
    /// The frame `start` alone.
    pub fn new(alloc: Global) -> Result<Stack, AllocError>
        ensures { IfOk result (λ s. s ≡ record { top = start_frame; below = [] }) }
    {
        Ok(Stack {
            words: no_words(alloc, ROOM)?,
            calls: no_calls(alloc, 358)?,
            depth: 0,
            top: START,
            end: 0,
        })
    }

    /// The words in use.
    #[tactic(auto, using(crate::proofs::Laying::used))]
    pub fn words_in_use(&self) -> usize
        ensures value { result ≡ words_in_use (self.now.top ∷ self.now.below) }
        ensures bound { result ≤ 1792 }
    {
        self.end
    }

    /// The function of the innermost frame.
    pub fn function(&self) -> Option<usize>
        ensures { result ≡ self.now.top.function }
    {
        self.top.function
    }

    /// The place of its next command.
    pub fn place(&self) -> usize
        ensures { result ≡ self.now.top.place }
    {
        self.top.place
    }

    /// Its pointer `this`.
    pub fn this(&self) -> u16
        ensures { result ≡ self.now.top.this }
    {
        self.top.this
    }

    /// Its pointer `that`.
    pub fn that(&self) -> u16
        ensures { result ≡ self.now.top.that }
    {
        self.top.that
    }

    /// An argument.
    pub fn argument(&self, i: u16) -> Option<u16>
        ensures { result ≡ slice_get self.now.top.arguments i }
    {
        let at = self.top.arguments + i as usize;
        if at + 5 < self.top.locals {
            Some(self.words[at])
        } else {
            None
        }
    }

    /// A local.
    pub fn local(&self, i: u16) -> Option<u16>
        ensures { result ≡ slice_get self.now.top.locals i }
    {
        let at = self.top.locals + i as usize;
        if at < self.top.values {
            Some(self.words[at])
        } else {
            None
        }
    }

    /// The number of values.
    #[tactic(auto, using(crate::proofs::Laying::length_values))]
    pub fn count(&self) -> usize
        ensures { result ≡ length self.now.top.values }
    {
        self.end - self.top.values
    }

    /// The number of locals.
    pub fn local_count(&self) -> usize
        ensures { result ≡ length self.now.top.locals }
    {
        self.top.values - self.top.locals
    }

    /// The number of calls below.
    pub fn depth(&self) -> usize
        ensures { result ≡ length self.now.below }
    {
        self.depth
    }

    /// A value, where the topmost is 0.
    pub fn value(&self, i: usize) -> Option<u16>
        ensures { result ≡ slice_get self.now.top.values i }
    {
        if i < self.end - self.top.values {
            Some(self.words[self.end - 1 - i])
        } else {
            None
        }
    }

    /// Goes on at a place.
    pub fn go_to(&mut self, place: usize)
        ensures top { self.new.top ≡ record self.old.top { place = place } }
        ensures below { self.new.below ≡ self.old.below }
    {
        self.top.place = place;
    }

    /// The topmost value is taken away.
    pub fn discard(&mut self, place: usize)
        requires { 1 ≤ length self.old.top.values }
        ensures top { self.new.top
            ≡ record self.old.top { place = place; values = drop 1 self.old.top.values } }
        ensures below { self.new.below ≡ self.old.below }
    {
        self.top.place = place;
        self.end -= 1;
    }

    /// In place of the `n` topmost values stands `w`.
    pub fn replace(&mut self, n: usize, w: u16, place: usize)
        requires count { n ≤ length self.old.top.values }
        requires room { words_in_use (self.old.top ∷ self.old.below) + 1 ≤ 1792 + n }
        ensures top { self.new.top
            ≡ record self.old.top { place = place; values = w ∷ drop n self.old.top.values } }
        ensures below { self.new.below ≡ self.old.below }
    {
        let at = self.end - n;
        self.words[at] = w;
        self.end = at + 1;
        self.top.place = place;
    }

    /// An argument gets another word, if it is there.
    pub fn set_argument(&mut self, i: u16, w: u16) -> bool
        ensures there { result ≡ nat_lt i (length self.old.top.arguments) }
        ensures top { self.new.top
            ≡ record self.old.top { arguments = slice_set self.old.top.arguments i w } }
        ensures below { self.new.below ≡ self.old.below }
    {
        let at = self.top.arguments + i as usize;
        let is_there = at + 5 < self.top.locals;
        if is_there {
            self.words[at] = w;
        }
        is_there
    }

    /// A local gets another word, if it is there.
    pub fn set_local(&mut self, i: u16, w: u16) -> bool
        ensures there { result ≡ nat_lt i (length self.old.top.locals) }
        ensures top { self.new.top
            ≡ record self.old.top { locals = slice_set self.old.top.locals i w } }
        ensures below { self.new.below ≡ self.old.below }
    {
        let at = self.top.locals + i as usize;
        let is_there = at < self.top.values;
        if is_there {
            self.words[at] = w;
        }
        is_there
    }

    /// The pointers get these words.
    pub fn point(&mut self, this: u16, that: u16)
        ensures top { self.new.top ≡ record self.old.top { this = this; that = that } }
        ensures below { self.new.below ≡ self.old.below }
    {
        self.top.this = this;
        self.top.that = that;
    }

    /// A call of a function, whose arguments are the `n` topmost values. Its caller goes on at a place.
    pub fn call(&mut self, function: usize, n: usize, place: usize)
        requires count { n ≤ length self.old.top.values }
        requires room { words_in_use (self.old.top ∷ self.old.below) + 5 ≤ 1792 }
        ensures top { self.new.top ≡ called_frame function n self.old.top }
        ensures below { self.new.below
            ≡ record self.old.top { place = place; values = drop n self.old.top.values }
            ∷ self.old.below }
    {
        let caller = Call { place, ..self.top };
        self.calls[self.depth] = caller;
        self.depth += 1;
        self.top = Call {
            function: Some(function),
            place: 0,
            arguments: self.end - n,
            locals: self.end + 5,
            values: self.end + 5,
            this: caller.this,
            that: caller.that,
        };
        self.end += 5;
    }

    /// The locals of a new call: `n` words 0.
    pub fn make_locals(&mut self, n: usize, place: usize)
        requires inner { 1 ≤ length self.old.below }
        requires no_locals { length self.old.top.locals ≡ 0 }
        requires no_values { length self.old.top.values ≡ 0 }
        requires room { words_in_use (self.old.top ∷ self.old.below) + n ≤ 1792 }
        ensures top { self.new.top ≡ record self.old.top { place = place; locals = replicate n 0 } }
        ensures below { self.new.below ≡ self.old.below }
    {
        clear(&mut self.words, self.end, n);
        self.end += n;
        self.top.values = self.end;
        self.top.place = place;
    }

    /// The innermost call returns: its frame is taken off, and `w` is a value of its caller.
    pub fn leave(&mut self, w: u16)
        requires { 1 ≤ length self.old.below }
        ensures top { (f : Frame) (rest : List Frame) → self.old.below ≡ f ∷ rest
            → self.new.top ≡ record f { values = w ∷ f.values } }
        ensures below { (f : Frame) (rest : List Frame) → self.old.below ≡ f ∷ rest
            → self.new.below ≡ rest }
    {
        let first = self.top.arguments;
        self.words[first] = w;
        self.depth -= 1;
        self.top = self.calls[self.depth];
        self.end = first + 1;
    }
}
