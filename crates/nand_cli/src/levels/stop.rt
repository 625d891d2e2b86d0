//! The computer made of gates, moved to a statement of its program.
ghost use Rattle.std.specs.Prelude.{◌≡◌, ◌<◌, ◌+◌, ◌^◌, ◌&&◌, ◌↔◌, ℕ, [], nat_lt, IsTrue};
ghost use Rattle.jack_debug.specs.Walk.{point_in};
ghost use Rattle.key_script.specs.Codes.{code_at};
ghost use Rattle.image_map.specs.declared.map.Image.{Image};
ghost use Rattle.gate_computer.specs.Followed.{HasFollowed, image_in};
ghost use Rattle.nand_cli.specs.Commands.Debug.{HasStatement};
ghost use Rattle.nand_cli.specs.Inner.Debugging.{HasComeTo, HasGone, is_among, is_statement, is_statement_at};

use gate_computer::GateComputer;
use jack_debug::Places;
use key_script::Keys;
use machine_io::Keyboard;
use outer_world::Point;

/// A statement of a program, by the name of its subroutine and its number there.
#[derive(Clone, Copy)]
pub struct Statement<'a> {
    pub places: &'a Places,
    pub sub: &'a str,
    pub number: u32,
}

impl Statement<'_> {
    // Whether a point is its own.
    fn has(&self, point: Point) -> bool
        ensures { result ≡ is_statement self.now.places.now self.now.sub.now self.now.number point }
    {
        point.number == self.number && self.places.name(point.sub) == self.sub
    }

    // Whether an address has its point.
    fn is_at(&self, address: u16) -> bool
        ensures { result ≡ is_statement_at self.now.places.now self.now.sub.now self.now.number
            (point_in self.now.places.now.ranges address) }
    {
        match self.places.point(address) {
            Some(point) => self.has(point),
            None => false,
        }
    }

    // Whether one of the map's ranges has its point.
    fn is_among(&self) -> bool
        ensures { result ≡ is_among self.now.places.now self.now.sub.now self.now.number
            self.now.places.now.ranges }
    {
        for range in self.places.ranges.as_slice() {
            if self.has(range.point) {
                return true;
            }
        }
        false
    }

    /// Whether the map has its point.
    pub fn is_there(&self) -> bool
        ensures { IsTrue result
            ↔ HasStatement self.now.places.now self.now.sub.now self.now.number }
    {
        self.is_among()
    }
}

// One cycle under its key. Answers whether a step of the program's meaning has ended in it.
fn go(computer: &mut GateComputer, keys: &Keys) -> bool
    requires { computer.old.moves < 2 ^ 63 }
    ensures gone { (image : Image) (n : ℕ) → HasGone image (code_at keys.now) n computer.old
        → HasGone image (code_at keys.now) (n + 1) computer.new }
    ensures between { result ≡ nat_lt computer.old.tally.steps computer.new.tally.steps }
{
    let steps = computer.steps();
    let key = keys.at(computer.moves());
    computer.cycle(key);
    steps < computer.steps()
}

// Whether it stops here: a step has just ended, and it is at the statement.
fn stops(between: bool, at: &Statement<'_>, computer: &GateComputer) -> bool
    ensures { result ≡ between && is_statement_at at.now.places.now at.now.sub.now at.now.number
        (point_in at.now.places.now.ranges computer.now.tally.at) }
{
    between && at.is_at(computer.pc())
}

/// Moves a computer from its start, each cycle under its key, until it is at a statement and a step of the program's
/// meaning has just ended. It makes at most this many cycles. Answers whether it is there.
pub fn go_to(computer: &mut GateComputer, keys: &Keys, cycles: u32, at: &Statement<'_>) -> bool
    requires start { computer.old.moves ≡ 0 }
    requires stands { HasFollowed computer.old [] }
    ensures { HasComeTo at.now.places.now at.now.sub.now at.now.number (image_in computer.old)
        (code_at keys.now) cycles result computer.new }
{
    let mut between = true;
    for _i in 0..cycles {
        if stops(between, at, computer) {
            return true;
        }
        between = go(computer, keys);
    }
    stops(between, at, computer)
}
