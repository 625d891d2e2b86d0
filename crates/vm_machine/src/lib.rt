//! The virtual machine of the book's chapters 7 and 8: its state, and what each command does.
#![tactic(auto)]

mod commands;
mod memory;
mod stack;
mod vm;

ghost use Rattle.vm_machine.specs.Laws.{EndLaw, KeyLaw, SoundLaw};

pub use vm::Vm;

/// The start is sound, and a step leads from a sound state to a sound one. A step that does not hear the key is the same under every key, and whether
/// the key is heard does not depend on which key it is. A machine that has come to its end stays there.
pub fn vm_law()
    ensures sound { SoundLaw }
    ensures keys { KeyLaw }
    ensures ends { EndLaw }
{}
