//! The Computer made of gates as a level: it acts in each of its turns, and never wants memory.

ghost use Rattle.std.specs.Prelude.{true};
ghost use Rattle.gate_computer.specs.Followed.{HasFollowed, image_in, word_in};

use crate::GateComputer;
use machine_io::{Level, Moved};
use outer_world::Point;
use std::alloc::AllocError;

impl Level for GateComputer {
    ghost use Rattle.machine_io.specs.declared.machine.Moved.TheVariants.{Acted};
    ghost use Rattle.image_map.specs.declared.map.Image.{Image};
    ghost use Rattle.gate_computer.specs.declared.wiring.Wiring.{Wiring};

    type Point = Point;

    ghost stands = { λ g turns. HasFollowed g turns };

    ghost reading = { λ g. record {
      moves = g.moves;
      steps = g.tally.steps;
      point = g.tally.point;
      word = word_in g;
    } };

    ghost reply = { λ _ _. Acted };

    ghost sure = { true };

    ghost Program = { Image × Wiring };

    ghost program = { λ g. (image_in g, g.wiring) };

    fn step(&mut self, key: u16) -> Result<Moved, AllocError> {
        self.cycle(key);
        Ok(Moved::Acted)
    }

    fn moves(&self) -> u64 {
        GateComputer::moves(self)
    }

    fn word_at(&self, a: u16) -> u16 {
        GateComputer::word_at(self, a)
    }

    fn steps(&self) -> u64 {
        GateComputer::steps(self)
    }

    fn point(&self) -> Point {
        GateComputer::point(self)
    }
}
