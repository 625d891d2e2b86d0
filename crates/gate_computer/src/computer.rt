//! The Computer made of gates, moved by keys.

ghost use Rattle.std.specs.Prelude.{◌≡◌, ◌<◌, ◌≤◌, ◌+◌, ◌^◌, ◌++◌, ◌∷◌, [], ℕ, List, suc, if◌then◌else◌, length, slice_index, IfOk, IsSome};
ghost use Rattle.word16.specs.Memory.{keyboard};
ghost use Rattle.machine_io.specs.History.{Turn, turn};
ghost use Rattle.machine_io.specs.declared.machine.Moved.TheVariants.{Acted};
ghost use Rattle.gate_computer.specs.Simple.{ShowsComputer};
ghost use Rattle.outer_world.specs.Held.{HaveSameSink, pending, sink_of};
ghost use Rattle.outer_world.specs.Written.{CountsPut};
ghost use Rattle.simulation.specs.System.{IsKey};
ghost use Rattle.image_map.specs.Map.{IsMapped};
ghost use Rattle.image_map.specs.Turns.{HoldsKeys};
ghost use Rattle.gate_computer.specs.Followed.{HasFollowed, PassesParts, image_in, word_in};

use crate::reading::{hears_key, number_at, set_keyboard};
use crate::showing::{put_parts, told_parts};
use crate::wiring::{WiredComputer, Wiring};
use gate_sim::Sim;
use image_map::{Image, Tally};
use outer_world::{List, Pieces, Point, Put, Sink};
use std::alloc::{AllocError, Global};
use std::marker::Model;
use word16::SCREEN;

/// The simulator of the Computer, with an image in its instruction memory and the map of that image. A move is one cycle under a key.
pub struct GateComputer {
    sim: Sim,
    wiring: Wiring,
    // The words of the image.
    image: List<u16>,
    tally: Tally,
    // What the pins of the keyboard hold.
    key: u16,
    moves: u64,
    heard: u64,
}

// By hand, so that whoever drops a computer calls this.
impl Drop for GateComputer {
    fn drop(self) {
        let GateComputer {
            sim: _,
            wiring: _,
            image: _,
            tally: _,
            key: _,
            moves: _,
            heard: _,
        } = self;
    }
}

impl Model for GateComputer {
    ghost use Rattle.gate_computer.specs.Followed.{GateMachine};
    ghost use Rattle.gate_computer.specs.Inner.Readable.{IsKeptWell};

    ghost Value = { GateMachine };

    ghost view = { λ g. record {
      sim = g.sim;
      wiring = g.wiring;
      image = g.image;
      tally = g.tally;
      key = g.key;
      moves = g.moves;
      heard = g.heard;
    } };

    ghost invariant = { λ g. IsKeptWell g.sim.net g.wiring g.tally.steps g.heard g.moves };
}

fn counted(hears: bool, heard: u64) -> u64
    requires { heard < 2 ^ 63 }
    ensures { result ≡ (if hears then suc heard else heard) }
{
    if hears { heard + 1 } else { heard }
}

// Each word of an image is one of 16 bits.
fn words_fit(words: &[u16])
    ensures { (a : ℕ) → slice_index words.now a < 65536 }
{}

impl GateComputer {
    /// The Computer at its start, with an image and its map. All memory is taken here.
    pub fn new(
        alloc: Global,
        wired: WiredComputer,
        image: Image,
    ) -> Result<GateComputer, AllocError>
        requires shows { ShowsComputer wired.net wired.wiring }
        requires mapped { IsMapped image }
        ensures image { IfOk result (λ g. image_in g ≡ image) }
        ensures moves { IfOk result (λ g. g.moves ≡ 0) }
        ensures stands { IfOk result (λ g. HasFollowed g []) }
        ensures wiring { IfOk result (λ g. g.wiring ≡ wired.wiring) }
        ensures net { IfOk result (λ g. g.sim.net ≡ wired.net) }
    {
        let Image { words, map } = image;
        let WiredComputer { net, wiring } = wired;
        net.ordered_law();
        let mut sim = Sim::new(alloc, net)?;
        sim.load_block(wiring.rom, 0, words.as_slice());
        words_fit(words.as_slice());
        Ok(GateComputer {
            sim,
            wiring,
            image: words,
            tally: Tally::new(alloc, map)?,
            key: 0,
            moves: 0,
            heard: 0,
        })
    }

    /// One cycle, in which the keyboard holds a key.
    pub fn cycle(&mut self, key: u16)
        requires { self.old.moves < 2 ^ 63 }
        ensures image { image_in self.new ≡ image_in self.old }
        ensures moves { self.new.moves ≡ self.old.moves + 1 }
        ensures stands { (turns : List Turn) → HasFollowed self.old turns
            → HasFollowed self.new (turns ++ turn key Acted ∷ []) }
        ensures wiring { self.new.wiring ≡ self.old.wiring }
        ensures net { self.new.sim.net ≡ self.old.sim.net }
    {
        set_keyboard(
            &mut self.sim,
            self.wiring.keyboard.as_slice(),
            self.key,
            key,
        );
        self.key = key;
        self.sim.tick();
        let hears = hears_key(
            &self.sim,
            self.wiring.a.as_slice(),
            self.image.as_slice(),
            self.tally.at(),
        );
        self.sim.tock();
        self.tally
            .go(number_at(&self.sim, self.wiring.pc.as_slice()));
        self.heard = counted(hears, self.heard);
        self.moves += 1;
    }

    /// Puts the outputs of all parts in the cycle that comes next, in which the keyboard holds a key. It puts a line for each part, depth first in
    /// the order of the texts, with its chip's name, a space, and the bits of its outputs. Only the pins of the keyboard change. The netlist is not
    /// simplified.
    pub fn put_nets<S: Sink>(&mut self, key: u16, out: &mut Pieces<'_, S>) -> Put
        requires { IsSome self.old.wiring.parts }
        ensures image { image_in self.new ≡ image_in self.old }
        ensures net { self.new.sim.net ≡ self.old.sim.net }
        ensures wiring { self.new.wiring ≡ self.old.wiring }
        ensures moves { self.new.moves ≡ self.old.moves }
        ensures stands { (turns : List Turn) → HasFollowed self.old turns
            → HasFollowed self.new turns }
        ensures same_sink { HaveSameSink out.old out.new }
        ensures passes { (turns : List Turn) → HasFollowed self.old turns → (keys : ℕ → ℕ)
            → ((c : ℕ) → IsKey (keys c)) → HoldsKeys keys 0 turns → keys (length turns) ≡ key
            → PassesParts self.old.image keys (length turns) (S.state (sink_of out.old))
            (pending out.old) (S.state (sink_of out.new)) (pending out.new) result }
        ensures counts { CountsPut (S.state (sink_of out.old)).faults
            (S.state (sink_of out.new)).faults result }
    {
        set_keyboard(
            &mut self.sim,
            self.wiring.keyboard.as_slice(),
            self.key,
            key,
        );
        self.key = key;
        self.sim.eval();
        put_parts(&self.sim, told_parts(&self.wiring), out)
    }

    /// The number of cycles so far.
    pub fn moves(&self) -> u64
        ensures { result ≡ self.now.moves }
    {
        self.moves
    }

    /// The number of steps of the program's meaning so far.
    pub fn steps(&self) -> u64
        ensures { result ≡ self.now.tally.steps }
    {
        self.tally.steps()
    }

    /// The number of keys heard so far.
    pub fn heard(&self) -> u64
        ensures { result ≡ self.now.heard }
    {
        self.heard
    }

    /// The control point.
    pub fn point(&self) -> Point
        ensures { result ≡ self.now.tally.point }
    {
        self.tally.point()
    }

    /// The address of the instruction of the cycle that comes next.
    pub fn pc(&self) -> u16
        ensures { result ≡ self.now.tally.at }
    {
        self.tally.at()
    }

    /// The word at an address of main memory or of the screen.
    pub fn word_at(&self, a: u16) -> u16
        requires { a < keyboard }
        ensures { result ≡ word_in self.now a }
    {
        if a < SCREEN {
            self.sim.block_word(self.wiring.main, u32::from(a))
        } else {
            self.sim
                .block_word(self.wiring.screen, u32::from(a - SCREEN))
        }
    }
}
