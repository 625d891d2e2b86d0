//! The laws of the kernel on the machine.

ghost use Rattle.std.specs.Prelude.{◌≡◌, ◌≤◌, ◌^◌, ◌⊎◌, IfOk, OnErr};
ghost use Rattle.os_laws.specs.Machine.{CallsMultiply, CallsDivide, CallsDivideByZero, CallsInit, CallsAlloc, CallsAllocOfNothing, CallsAllocOfTooMuch, CallsDeAlloc};
ghost use Rattle.os_laws.specs.Machine.{HasMultiplied, HasDivided, HasRefusedZero, HasRefusedSize, HasRefusedRoom, HasLaid, HasAllocated, HasFreed, GoesOn, IsCut};

use crate::stepping::step_until;
use jack_machine::Jack;
use std::alloc::AllocError;

// More steps than a call of the heap takes, however many free parts there are.
const MOST_STEPS: u64 = 300_000;

// At the first statement of `Sys.error` two frames stand above the caller's: the routine's, which waits, and that of
// `Sys.error`.
const ERROR_FRAMES: usize = 2;

/// The next step is a call of `Math.multiply`: it is stepped until its place holds the product. The answer is the
/// number of steps.
pub fn multiply_law(machine: &mut Jack) -> Result<u64, AllocError>
    requires call { CallsMultiply machine.old }
    requires moves { machine.old.moves ≤ 2 ^ 62 }
    ensures product { IfOk result (λ n. HasMultiplied machine.old n machine.new) }
    ensures few { IfOk result (λ n. n ≤ 500) }
    ensures stands { IfOk result (λ n. GoesOn machine.old n machine.new) }
    ensures refused { OnErr result (IsCut machine.old 500 machine.new) }
{
    let frames = machine.frames();
    step_until(machine, frames, 500)
}

/// The next step is a call of `Math.divide` by another number than 0: it is stepped until its place holds the quotient.
pub fn divide_law(machine: &mut Jack) -> Result<u64, AllocError>
    requires call { CallsDivide machine.old }
    requires moves { machine.old.moves ≤ 2 ^ 62 }
    ensures quotient { IfOk result (λ n. HasDivided machine.old machine.new) }
    ensures few { IfOk result (λ n. n ≤ 800) }
    ensures stands { IfOk result (λ n. GoesOn machine.old n machine.new) }
    ensures refused { OnErr result (IsCut machine.old 800 machine.new) }
{
    let frames = machine.frames();
    step_until(machine, frames, 800)
}

/// The next step is a call of `Math.divide` by 0: it is stepped until its first call, of `Sys.error` with 3.
pub fn divide_zero_law(machine: &mut Jack) -> Result<u64, AllocError>
    requires call { CallsDivideByZero machine.old }
    requires moves { machine.old.moves ≤ 2 ^ 62 }
    ensures error { IfOk result (λ n. HasRefusedZero machine.old machine.new) }
    ensures steps { IfOk result (λ n. n ≡ 7) }
    ensures stands { IfOk result (λ n. GoesOn machine.old n machine.new) }
    ensures refused { OnErr result (IsCut machine.old 7 machine.new) }
{
    let frames = machine.frames() + ERROR_FRAMES;
    step_until(machine, frames, 7)
}

/// The next step is a call of `Memory.alloc` with a size below 1: it is stepped until its first call, of `Sys.error`
/// with 5.
pub fn size_law(machine: &mut Jack) -> Result<u64, AllocError>
    requires call { CallsAllocOfNothing machine.old }
    requires moves { machine.old.moves ≤ 2 ^ 62 }
    ensures error { IfOk result (λ n. HasRefusedSize machine.old machine.new) }
    ensures steps { IfOk result (λ n. n ≡ 7) }
    ensures stands { IfOk result (λ n. GoesOn machine.old n machine.new) }
    ensures refused { OnErr result (IsCut machine.old 7 machine.new) }
{
    let frames = machine.frames() + ERROR_FRAMES;
    step_until(machine, frames, 7)
}

/// The next step is a call of `Memory.alloc` with a size for which there is no room: it is stepped until its first
/// call, of `Sys.error` with 6.
pub fn full_law(machine: &mut Jack) -> Result<u64, AllocError>
    requires call { CallsAllocOfTooMuch machine.old }
    requires moves { machine.old.moves ≤ 2 ^ 62 }
    ensures error { IfOk result (λ n. HasRefusedRoom machine.old machine.new) }
    ensures stands { IfOk result (λ n. GoesOn machine.old n machine.new) }
    ensures refused { OnErr result (IsCut machine.old MOST_STEPS machine.new) }
{
    let frames = machine.frames() + ERROR_FRAMES;
    step_until(machine, frames, MOST_STEPS)
}

/// The next step is a call of `Memory.init`: it is stepped until it has come back, and the heap is a heap without live
/// blocks.
pub fn heap_start_law(machine: &mut Jack) -> Result<u64, AllocError>
    requires call { CallsInit machine.old }
    requires moves { machine.old.moves ≤ 2 ^ 62 }
    ensures heap { IfOk result (λ n. HasLaid machine.old machine.new) }
    ensures steps { IfOk result (λ n. n ≡ 15) }
    ensures stands { IfOk result (λ n. GoesOn machine.old n machine.new) }
    ensures refused { OnErr result (IsCut machine.old 15 machine.new) }
{
    let frames = machine.frames();
    step_until(machine, frames, 15)
}

/// The next step is a call of `Memory.alloc` for which there is room, or one of `Memory.deAlloc` with a live block.
/// It is stepped until it has come back, and the heap is a heap with the new block, or without the old one.
pub fn heap_law(machine: &mut Jack) -> Result<u64, AllocError>
    requires call { CallsAlloc machine.old ⊎ CallsDeAlloc machine.old }
    requires moves { machine.old.moves ≤ 2 ^ 62 }
    ensures allocated { IfOk result (λ n. HasAllocated machine.old n machine.new) }
    ensures freed { IfOk result (λ n. HasFreed machine.old n machine.new) }
    ensures stands { IfOk result (λ n. GoesOn machine.old n machine.new) }
    ensures refused { OnErr result (IsCut machine.old MOST_STEPS machine.new) }
{
    let frames = machine.frames();
    step_until(machine, frames, MOST_STEPS)
}
