//! The keys of a script as a keyboard.
ghost use Rattle.key_script.specs.Codes.{code_at};

use crate::Keys;
use machine_io::Keyboard;

impl Keyboard for Keys {
    ghost code = { code_at };

    fn at(&self, c: u64) -> u16 {
        Keys::at(self, c)
    }
}
