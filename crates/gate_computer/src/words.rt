//! The words of the computer made of gates, for who shows them.

ghost use Rattle.gate_computer.specs.Followed.{word_in};

use crate::GateComputer;
use jack_debug::Words;

impl Words for GateComputer {
    ghost words = { λ g. word_in g };

    fn word(&self, a: u16) -> u16 {
        self.word_at(a)
    }
}
