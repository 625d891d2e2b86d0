//! The machine as a level. Each of its moves is one instruction, and its control point is the program counter.
//! Without a map none of its moves is reported as a step of a program's meaning. Its program is its image.
ghost use Rattle.std.specs.Prelude.{true, List, ℕ};
ghost use Rattle.hack_machine.specs.Loaded.{machine_of};
ghost use Rattle.hack_machine.specs.Turns.{HasTaken};

use crate::Hack;
use machine_io::{Level, Moved};
use std::alloc::AllocError;

impl Level for Hack {
    ghost use Rattle.machine_io.specs.declared.machine.Moved.TheVariants.{Acted};

    type Point = u16;

    ghost stands = { λ h turns. HasTaken h turns };

    ghost reading = { λ h. record {
      moves = h.moves;
      steps = 0;
      point = h.pc;
      word = (machine_of h).memory;
    } };

    ghost reply = { λ _ _. Acted };

    ghost sure = { true };

    ghost Program = { List ℕ };

    ghost program = { λ h. h.image };

    #[inline(always)]
    fn step(&mut self, key: u16) -> Result<Moved, AllocError> {
        Ok(Hack::step(self, key))
    }

    fn moves(&self) -> u64 {
        Hack::moves(self)
    }

    fn word_at(&self, a: u16) -> u16 {
        self.ram(a)
    }

    fn steps(&self) -> u64 {
        0
    }

    fn point(&self) -> u16 {
        self.pc()
    }
}
