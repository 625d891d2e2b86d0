//! The instruction machine as a script drives it.

ghost use Rattle.std.specs.Prelude.{◌≡◌};

use hack_machine::Hack;

/// What a variable of the machine stands for: a register, a word of memory, or the key.
#[derive(Clone, Copy)]
pub enum Register {
    A,
    D,
    Pc,
    Word(u16),
    Key,
}

/// The instruction machine with the key that is held, and its time.
#[derive(Drop)]
pub struct ScriptMachine {
    pub(crate) hack: Hack,
    pub(crate) key: u16,
    pub(crate) cycle: u64,
    pub(crate) ticked: bool,
    ghost counted: { hack.moves ≡ cycle },
}
