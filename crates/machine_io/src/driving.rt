//! The loop that moves a machine.
ghost use Rattle.std.specs.Prelude.{◌≡◌, ◌+◌, ◌<◌, ◌≤◌, ◌^◌, ℕ, Bool, true, false, IfOk, OnErr, IsOk};
ghost use Rattle.machine_io.specs.Driven.{IsDriven, IsCutShort};
ghost use Rattle.machine_io.specs.Reading.{Reading};
ghost use Rattle.machine_io.specs.Until.{IsDrivenUntil, IsCutBefore};

use crate::machine::{Level, Moved, Stray};
use std::alloc::AllocError;

/// The keys that are held: one for each move, by the number of moves before it.
pub trait Keyboard {
    /// The code of the key that is held at a move.
    ghost code: { Self → ℕ → ℕ };

    /// The code of the key that is held at move `c`, or 0 where none is.
    fn at(&self, c: u64) -> u16
        ensures { result ≡ code self.now c };
}

/// A test of what can be read of a machine, at which a drive stops.
pub trait Until<L: Level> {
    /// Whether it holds of a machine that had made this many steps before its last move, and has this
    /// reading.
    ghost test: { Self → ℕ → Reading L.Point → Bool };

    /// Whether it holds of a machine that had made this many steps before its last move.
    fn holds(&self, steps: u64, level: &L) -> bool
        ensures { result ≡ test self.now steps (L.reading level.now) };
}

/// How a drive ends: all moves were made, or the machine gave another answer than `Acted`.
#[derive(Clone, Copy, PartialEq, Eq)]
pub enum End {
    Bound,
    Stray(Stray),
    Full(u32),
    Done,
}

/// How a drive stops that has a test: the test holds, or the drive ends before.
#[derive(Clone, Copy, PartialEq, Eq)]
pub enum Stop {
    Found,
    Ended(End),
}

/// Makes moves, each under its key, until the test holds: `n` at most, and those before the first answer that is
/// no move. The test is asked before the first move too. After an error the machine stands where the moves made so
/// far have led. The program stays what it is.
pub fn drive_until<L: Level, K: Keyboard, U: Until<L>>(
    level: &mut L,
    keys: &K,
    n: u64,
    until: &U,
) -> Result<Stop, AllocError>
    requires { (L.reading level.old).moves + n ≤ 2 ^ 63 }
    ensures driven { IfOk result
        (λ stop. IsDrivenUntil (U.test until.now) L.stands L.reading (K.code keys.now) level.old n
        stop level.new) }
    ensures refused { OnErr result
        (IsCutBefore (U.test until.now) L.stands L.reading (K.code keys.now) level.old n
        level.new) }
    ensures sure { L.sure ≡ true → IsOk result }
    ensures program { L.program level.new ≡ L.program level.old }
{
    let mut steps = level.steps();
    for _i in 0..n {
        if until.holds(steps, level) {
            return Ok(Stop::Found);
        }
        let key = keys.at(level.moves());
        steps = level.steps();
        match level.step(key)? {
            Moved::Acted => {}
            Moved::Stray(s) => return Ok(Stop::Ended(End::Stray(s))),
            Moved::Full(w) => return Ok(Stop::Ended(End::Full(w))),
            Moved::Done => return Ok(Stop::Ended(End::Done)),
        }
    }
    if until.holds(steps, level) {
        return Ok(Stop::Found);
    }
    Ok(Stop::Ended(End::Bound))
}

// The test that never holds.
struct Never;

impl<L: Level> Until<L> for Never {
    ghost test = { λ _ _ _. false };

    #[inline(always)]
    fn holds(&self, _steps: u64, _level: &L) -> bool {
        false
    }
}

/// Makes `n` moves, each under its key, or those before the first answer that is no move. After an error the
/// machine stands where the moves made so far have led. The program stays what it is.
pub fn drive<L: Level, K: Keyboard>(level: &mut L, keys: &K, n: u64) -> Result<End, AllocError>
    requires { (L.reading level.old).moves + n ≤ 2 ^ 63 }
    ensures driven { IfOk result
        (λ end. IsDriven (K.code keys.now) (L.stands level.old) (L.reading level.old).moves n end
        (L.stands level.new) (L.reading level.new).moves) }
    ensures refused { OnErr result
        (IsCutShort (K.code keys.now) (L.stands level.old) (L.reading level.old).moves n
        (L.stands level.new) (L.reading level.new).moves) }
    ensures sure { L.sure ≡ true → IsOk result }
    ensures program { L.program level.new ≡ L.program level.old }
{
    match drive_until(level, keys, n, &Never)? {
        Stop::Ended(end) => Ok(end),
        Stop::Found => unreachable!(),
    }
}
