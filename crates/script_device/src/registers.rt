//! What the variables of a script stand for in the instruction machine.

ghost use Rattle.std.specs.Prelude.{◌≡◌, ◌<◌, ℕ, MatchOption, codes};
ghost use Rattle.word16.specs.Memory.{keyboard};
ghost use Rattle.script_device.specs.Variables.{HasNumber};
ghost use Rattle.script_device.specs.Inner.Registers.{StandsAt};
ghost use Rattle.script_device.specs.Running.{register_of};
ghost use Rattle.script_device.specs.Machines as machines;
ghost use Rattle.script_device.specs.Machines.{Denotes};

use crate::brackets::{brackets, capped_number};
use crate::machine::Register;
use word16::KEYBOARD;

// What stands at an address: a word of memory, or the key at the address of the keyboard.
fn register_at(address: u64) -> Option<Register>
    ensures { MatchOption result (keyboard < address) (λ r. StandsAt address (register_of r)) }
{
    if address < u64::from(KEYBOARD) {
        Some(Register::Word(address as u16))
    } else if address == u64::from(KEYBOARD) {
        Some(Register::Key)
    } else {
        None
    }
}

// The word of memory, or the key, of `RAM[k]`.
fn find_word(text: &[u8]) -> Option<Register>
    ensures { MatchOption result ((k : ℕ) → HasNumber text.now (codes "RAM") k → keyboard < k)
        (λ r. (k : ℕ) × HasNumber text.now (codes "RAM") k × StandsAt k (register_of r)) }
{
    let Some((name, inside)) = brackets(text) else {
        return None;
    };
    if name == b"RAM".as_slice() && !inside.is_empty() {
        register_at(capped_number(inside))
    } else {
        None
    }
}

/// The register of the machine that a text stands for.
pub fn find_register(text: &[u8]) -> Option<Register>
    ensures { MatchOption result ((r : machines.Register) → Denotes text.now r → ⊥)
        (λ r. Denotes text.now (register_of r)) }
{
    if text == b"A".as_slice() {
        return Some(Register::A);
    }
    if text == b"D".as_slice() {
        return Some(Register::D);
    }
    if text == b"PC".as_slice() {
        return Some(Register::Pc);
    }
    find_word(text)
}
