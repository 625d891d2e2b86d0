//! A machine that is moved by keys.
ghost use Rattle.std.specs.Prelude.{◌≡◌, ◌+◌, ◌<◌, ◌≤◌, ◌^◌, ◌++◌, [], ◌∷◌, List, ℕ, Bool, true, IfOk, OnErr, IsOk};
ghost use Rattle.word16.specs.Memory.{heap, keyboard};
ghost use Rattle.machine_io.specs.History.{Turn, turn, moves_in, OnStop};
ghost use Rattle.machine_io.specs.Reading.{Reading, IsSameReading};
ghost use Rattle.machine_io.specs.declared.machine.Moved.{Moved};

use std::alloc::AllocError;

/// Why a machine can't make its next move. It is a load or store at this address outside the memory, too few
/// values on the stack, a missing argument or local, or no command to be done.
#[derive(Clone, Copy, PartialEq, Eq)]
pub enum Stray {
    Address(u16),
    Values,
    Argument,
    Local,
    Code,
}

/// What a machine answers to a key. `Full` carries the number of words that the stack would have.
#[derive(Clone, Copy, PartialEq, Eq)]
pub enum Moved {
    Acted,
    Stray(Stray),
    Full(u32),
    Done,
}

/// A machine that makes one move at a time.
///
/// What a machine has done is given by its history: the list of its turns from the start, each a key with
/// the answer to it. An impl says by `stands` which histories lead to which of its values.
pub trait Level {
    /// What a control point is given by.
    type Point;

    /// The machine stands where this history leads.
    ghost stands: { Self → List Turn → Type 0 };

    /// What can be read of the machine: the numbers of its moves and of its program's steps, the control point,
    /// and the words of heap and screen.
    ghost reading: { Self → Reading Self.Point };

    /// The answer that the machine has for each key, as it stands.
    ghost reply: { Self → ℕ → Moved };

    /// Whether the machine's step never wants memory.
    ghost sure: { Bool };

    /// What the program of a machine is given by.
    ghost Program: { Type 0 };

    /// The program that the machine runs.
    ghost program: { Self → Program };

    /// Makes the next move, in which `key` is held. After an error, and after any answer but `Acted`, what can
    /// be read of the machine is as it was. So is its answer to each key: the same key gets the same answer
    /// again. The program stays what it is.
    fn step(&mut self, key: u16) -> Result<Moved, AllocError>
        requires { (reading self.old).moves < 2 ^ 63 }
        ensures stands { IfOk result
            (λ answer. (turns : List Turn) → stands self.old turns
            → stands self.new (turns ++ turn key answer ∷ [])) }
        ensures counts { IfOk result
            (λ answer. (reading self.new).moves ≡ moves_in answer + (reading self.old).moves) }
        ensures still { IfOk result
            (λ answer. OnStop answer (IsSameReading (reading self.old) (reading self.new))) }
        ensures replies { IfOk result (λ answer. answer ≡ reply self.old key) }
        ensures again { IfOk result
            (λ answer. OnStop answer ((k : ℕ) → reply self.new k ≡ reply self.old k)) }
        ensures refused { OnErr result
            ((turns : List Turn) → stands self.old turns → stands self.new turns) }
        ensures refused_still { OnErr result (IsSameReading (reading self.old) (reading self.new)) }
        ensures refused_again { OnErr result ((k : ℕ) → reply self.new k ≡ reply self.old k) }
        ensures sure { sure ≡ true → IsOk result }
        ensures program { program self.new ≡ program self.old };

    /// The number of moves made.
    fn moves(&self) -> u64
        ensures { result ≡ (reading self.now).moves };

    /// The word at an address of heap or screen.
    fn word_at(&self, a: u16) -> u16
        requires from { heap ≤ a }
        requires below { a < keyboard }
        ensures { result ≡ (reading self.now).word a };

    /// The number of steps of the program's meaning that were made.
    fn steps(&self) -> u64
        ensures { result ≡ (reading self.now).steps };

    /// The control point.
    fn point(&self) -> Self::Point
        ensures { result ≡ (reading self.now).point };
}
