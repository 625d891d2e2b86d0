//! What a script does to the instruction machine, and what it sees of it.

ghost use Rattle.std.specs.Prelude.{◌≡◌, ◌≤◌, ◌<◌, ◌+◌, ◌^◌, IfOk, length};
ghost use Rattle.hack_isa.specs.Machine.{image_words};
ghost use Rattle.script_device.specs.Inner.Registers.{IsStored};
ghost use Rattle.script_device.specs.Running.{register_of, running_of};
ghost use Rattle.script_device.specs.Machines.{after_set, after_tick, after_tock, loaded_machine, time_of, value_of};

use crate::machine::{Register, ScriptMachine};
use hack_machine::Hack;
use script_columns::Value;
use std::alloc::{AllocError, Global};

impl ScriptMachine {
    /// The machine with an image, at its start.
    pub fn new(alloc: Global, image: &[u16]) -> Result<ScriptMachine, AllocError>
        requires { length image.now ≤ image_words }
        ensures { IfOk result (λ m. running_of m ≡ loaded_machine image.now) }
    {
        Ok(ScriptMachine {
            hack: Hack::new(alloc, image)?,
            key: 0,
            cycle: 0,
            ticked: false,
        })
    }

    /// Sets a register, a word below the address of the keyboard, or the key. The program counter takes the low fifteen bits.
    pub(crate) fn set(&mut self, register: Register, word: u16)
        requires { IsStored register }
        ensures { running_of self.new
            ≡ after_set (running_of self.old) (register_of register) word }
    {
        match register {
            Register::A => self.hack.set_a(word),
            Register::D => self.hack.set_d(word),
            Register::Pc => self.hack.set_pc(word % 32768),
            Register::Word(address) => self.hack.set_ram(address, word),
            Register::Key => self.key = word,
        }
    }

    /// Marks the time.
    pub(crate) fn tick(&mut self)
        ensures { running_of self.new ≡ after_tick (running_of self.old) }
    {
        self.ticked = true;
    }

    /// One step, under the key that is held.
    pub(crate) fn tock(&mut self)
        requires { (running_of self.old).cycle + 1 < 2 ^ 63 }
        ensures { running_of self.new ≡ after_tock (running_of self.old) }
    {
        self.hack.step(self.key);
        self.cycle += 1;
        self.ticked = false;
    }

    /// How many steps were made.
    pub(crate) fn steps(&self) -> u64
        ensures { result ≡ (running_of self.now).cycle }
    {
        self.cycle
    }

    /// The time: the steps that were made, and whether a tick came after the last.
    pub(crate) fn time(&self) -> Value
        ensures { result ≡ time_of (running_of self.now) }
    {
        Value::Time(self.cycle, self.ticked)
    }

    /// What is seen of a register, of a word below the address of the keyboard, or of the key.
    pub(crate) fn value(&self, register: Register) -> Value
        requires { IsStored register }
        ensures { result ≡ value_of (running_of self.now) (register_of register) }
    {
        match register {
            Register::A => Value::Wide(self.hack.a()),
            Register::D => Value::Wide(self.hack.d()),
            Register::Pc => Value::Narrow(self.hack.pc()),
            Register::Word(address) => Value::Wide(self.hack.ram(address)),
            Register::Key => Value::Wide(self.key),
        }
    }
}
