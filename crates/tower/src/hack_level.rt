//! The computer as a level of the tower: the Hack machine with the map of its image. It counts the steps of the
//! program's meaning and knows its control point.
ghost use Rattle.std.specs.Prelude.{◌≡◌, ◌+◌, ◌<◌, ◌^◌, ◌++◌, [], ◌∷◌, List, true, IfOk};
ghost use Rattle.hack_isa.specs.Machine.{step};
ghost use Rattle.hack_machine.specs.Loaded.{machine_of};
ghost use Rattle.image_map.specs.Map.{IsMapped};
ghost use Rattle.machine_io.specs.History.{Turn, turn};
ghost use Rattle.machine_io.specs.declared.machine.Moved.TheVariants.{Acted};
ghost use Rattle.tower.specs.Mapped.{HasFollowed, image_in};

use hack_machine::Hack;
use image_map::{Image, Tally};
use machine_io::{Level, Moved};
use outer_world::Point;
use std::alloc::{AllocError, Global};
use std::marker::Model;

/// The machine with an image, and the tally of its run by the map of that image.
pub struct HackLevel {
    hack: Hack,
    tally: Tally,
}

// By hand, so that whoever drops one calls this.
impl Drop for HackLevel {
    fn drop(self) {
        let HackLevel { hack: _, tally: _ } = self;
    }
}

impl Model for HackLevel {
    ghost use Rattle.tower.specs.Mapped.{IsKeptWell, MappedMachine};

    ghost Value = { MappedMachine };

    ghost view = { λ h. record { hack = h.hack; tally = h.tally } };

    ghost invariant = { λ h. IsKeptWell h.hack h.tally };
}

impl HackLevel {
    /// The computer at its start, with an image and its map.
    pub fn new(alloc: Global, image: Image) -> Result<HackLevel, AllocError>
        requires { IsMapped image }
        ensures image { IfOk result (λ h. image_in h ≡ image) }
        ensures moves { IfOk result (λ h. h.hack.moves ≡ 0) }
        ensures stands { IfOk result (λ h. HasFollowed h []) }
    {
        let Image { words, map } = image;
        Ok(HackLevel {
            hack: Hack::new(alloc, words.as_slice())?,
            tally: Tally::new(alloc, map)?,
        })
    }

    /// One move: the instruction at the program counter, while `key` is held. There is always one.
    #[inline(always)]
    pub fn step(&mut self, key: u16) -> Moved
        requires { self.old.hack.moves < 2 ^ 63 }
        ensures image { image_in self.new ≡ image_in self.old }
        ensures moves { self.new.hack.moves ≡ self.old.hack.moves + 1 }
        ensures machine { machine_of self.new.hack
            ≡ step self.old.hack.image key (machine_of self.old.hack) }
        ensures acts { result ≡ Acted }
        ensures stands { (turns : List Turn) → HasFollowed self.old turns
            → HasFollowed self.new (turns ++ turn key Acted ∷ []) }
    {
        let answer = self.hack.step(key);
        self.tally.go(self.hack.pc());
        answer
    }
}

impl Level for HackLevel {
    ghost use Rattle.image_map.specs.declared.map.Image.{Image};
    ghost use Rattle.machine_io.specs.declared.machine.Moved.TheVariants.{Acted};

    type Point = Point;

    ghost stands = { λ h turns. HasFollowed h turns };

    ghost reading = { λ h. record {
      moves = h.hack.moves;
      steps = h.tally.steps;
      point = h.tally.point;
      word = (machine_of h.hack).memory;
    } };

    ghost reply = { λ _ _. Acted };

    ghost sure = { true };

    ghost Program = { Image };

    ghost program = { λ h. image_in h };

    #[inline(always)]
    fn step(&mut self, key: u16) -> Result<Moved, AllocError> {
        Ok(HackLevel::step(self, key))
    }

    fn moves(&self) -> u64 {
        self.hack.moves()
    }

    fn word_at(&self, a: u16) -> u16 {
        self.hack.ram(a)
    }

    fn steps(&self) -> u64 {
        self.tally.steps()
    }

    fn point(&self) -> Point {
        self.tally.point()
    }
}
