//! Steps of the machine under key 0.

ghost use Rattle.std.specs.Prelude.{◌+◌, ◌≤◌, ◌^◌, ℕ, IfOk, OnErr};
ghost use Rattle.jack_meaning.specs.Meaning.{State};
ghost use Rattle.os_laws.specs.Machine.{GoesOn, IsCut};
ghost use Rattle.os_laws.specs.Inner.Stepping.{StopsAt, Comes};

use jack_machine::Jack;
use std::alloc::AllocError;

/// Steps the machine under key 0 until it has this many frames, which it comes to within `most` steps; the number of
/// steps.
pub(crate) fn step_until(machine: &mut Jack, frames: usize, most: u64) -> Result<u64, AllocError>
    requires stops { (n : ℕ) × (n ≤ most) × (s : State) × StopsAt machine.old frames n s }
    requires moves { machine.old.moves + most ≤ 2 ^ 63 }
    ensures comes { IfOk result (λ k. Comes machine.old frames k machine.new) }
    ensures stands { IfOk result (λ k. GoesOn machine.old k machine.new) }
    ensures refused { OnErr result (IsCut machine.old most machine.new) }
{
    for i in 0..most {
        machine.make_step(0)?;
        if machine.frames() == frames {
            return Ok(i + 1);
        }
    }
    Ok(most)
}
