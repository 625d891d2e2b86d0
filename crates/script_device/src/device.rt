//! What a script drives, and what it sees of it.

ghost use Rattle.std.specs.Prelude.{◌≡◌, ◌≤◌, ◌<◌, ◌+◌, ◌^◌, ◌↔◌, ℕ, Bool, IfOk, IsTrue, List, MatchOption, codes, length, take, true};
ghost use Rattle.gate_sim.specs.Calls.{Call};
ghost use Rattle.script_device.specs.Directory.{FitsNet};
ghost use Rattle.script_device.specs.Driven.{ChipRuns, IsDriven, Sees, chip_of, time_of};
ghost use Rattle.script_device.specs.Devices as devices;
ghost use Rattle.script_device.specs.Devices.{IsChip, SeesAll, after_eval, after_restart, after_tick, after_tock, value_of, whole_memory};
ghost use Rattle.script_device.specs.Devices.Device.{Chip, Machine};
ghost use Rattle.script_device.specs.Inner.Driving.{HasMemory, IsWhole, SetsChip, SetsMachine};
ghost use Rattle.script_device.specs.Inner.Sources.{source_of};
ghost use Rattle.script_device.specs.Running.{CanSee, DeviceRuns, Finds, RunsAs, Stands, TellsImage, TellsMemory, TellsSet, probe_source, running_of, steps_of};
ghost use Rattle.script_device.specs.Machines.{RunningMachine};

use crate::chip::DrivenChip;
use crate::machine::ScriptMachine;
use crate::probe::Probe;
use crate::registers::find_register;
use crate::variables::{Variable, block_named, find_settable, find_variable};
use hdl_tree::List;
use script_columns::Value;
use std::alloc::{AllocError, Global};

/// What a script drives: before the first load nothing, then a chip or the instruction machine.
#[derive(Drop)]
pub enum Device {
    Empty,
    Chip(DrivenChip),
    Machine(ScriptMachine),
}

fn is_time(text: &[u8]) -> bool
    ensures { IsTrue result ↔ (text.now ≡ codes "time") }
{
    text == b"time".as_slice()
}

// ---- chips

// The probe of a variable of a chip.
fn probe_of(alloc: Global, variable: Variable<'_>) -> Result<Probe, AllocError>
    ensures { IfOk result (λ probe. probe_source probe ≡ source_of variable.entry) }
{
    match variable {
        Variable::Time => Ok(Probe::Time),
        Variable::Bus(nodes) => Ok(Probe::Bus(List::of(Vec::from_slice(alloc, nodes)?))),
        Variable::Word(block, address) => Ok(Probe::Word(block, address)),
    }
}

// What a text stands for in a chip.
fn find_in_chip(alloc: Global, chip: &DrivenChip, text: &[u8]) -> Result<Option<Probe>, AllocError>
    ensures { (calls : List Call) → IfOk result (Finds (Chip (chip_of chip.now) calls) text.now) }
{
    match find_variable(chip.directory(), chip.tables(), chip.sizes(), text) {
        None => Ok(None),
        Some(variable) => Ok(Some(probe_of(alloc, variable)?)),
    }
}

// What is seen of a chip.
fn chip_value(chip: &DrivenChip, probe: &Probe) -> Value
    requires fits { FitsNet (chip_of chip.now).net (chip_of chip.now).directory }
    requires seen { (calls : List Call) × CanSee (Chip (chip_of chip.now) calls) probe.now }
    ensures { (calls told : List Call) (v : ℕ → ℕ → Bool) → IsDriven chip.now calls
        → Sees (chip_of chip.now) calls told v
        → result ≡ value_of (Chip (chip_of chip.now) calls) told v (probe_source probe.now) }
{
    match probe {
        Probe::Bus(nodes) => chip.bus(nodes.as_slice()),
        Probe::Word(block, address) => chip.word(*block, *address),
        Probe::Time | Probe::Register(_) => chip.time(),
    }
}

// A copy of the nodes of a bus, and how many they are.
fn copied(nodes: &[u32]) -> ([u32; 16], usize)
    requires { length nodes.now ≤ 16 }
    ensures count { result.1 ≡ length nodes.now }
    ensures nodes { take result.1 result.0 ≡ nodes.now }
{
    let mut copy = [0; 16];
    copy[..nodes.len()].copy_from_slice(nodes);
    (copy, nodes.len())
}

// Sets what a text stands for in a chip, if it can be set.
fn set_variable(chip: &mut DrivenChip, text: &[u8], word: u16) -> bool
    requires { FitsNet (chip_of chip.old).net (chip_of chip.old).directory }
    ensures kept { chip_of chip.new ≡ chip_of chip.old }
    ensures time { time_of chip.new ≡ time_of chip.old }
    ensures runs { (simplify : Bool) → ChipRuns simplify chip.old → ChipRuns simplify chip.new }
    ensures set { (calls : List Call) → IsDriven chip.old calls
        → SetsChip (chip_of chip.old) calls chip.new text.now word result }
{
    match find_settable(chip.directory(), chip.tables(), chip.sizes(), text) {
        None => false,
        Some(Variable::Time) => false,
        Some(Variable::Bus(nodes)) => {
            let (copy, count) = copied(nodes);
            chip.set_bus(&copy[..count], word);
            true
        }
        Some(Variable::Word(block, address)) => {
            chip.set_word(block, address, word);
            true
        }
    }
}

// Whether a block has 32,768 words.
fn is_whole(sizes: &[u32], block: u32) -> bool
    ensures { IsTrue result ↔ IsWhole sizes.now block }
{
    match sizes.get(block as usize) {
        None => false,
        Some(words) => *words == 32768,
    }
}

// The block of the instruction memory of a chip.
fn memory_block(chip: &DrivenChip) -> Option<u32>
    ensures { MatchOption result ((block : ℕ) → HasMemory (chip_of chip.now) block → ⊥)
        (λ block. HasMemory (chip_of chip.now) block) }
{
    let Some(block) = block_named(chip.directory(), chip.tables(), b"ROM32K".as_slice()) else {
        return None;
    };
    if is_whole(chip.sizes(), block) {
        Some(block)
    } else {
        None
    }
}

// The words of an image in an instruction memory: 0 past it.
fn whole_memory(alloc: Global, image: &[u16]) -> Result<Vec<u16>, AllocError>
    requires { length image.now ≤ 32768 }
    ensures words { IfOk result (λ words. words.items ≡ whole_memory image.now) }
    ensures count { IfOk result (λ words. length words.items ≡ 32768) }
{
    let mut words = Vec::from_slice(alloc, image)?;
    words.resize(32768, 0)?;
    Ok(words)
}

// ---- the instruction machine

// What a text stands for in the machine.
fn find_in_machine(text: &[u8]) -> Option<Probe>
    ensures { (machine : RunningMachine) → Finds (Machine machine) text.now result }
{
    if is_time(text) {
        return Some(Probe::Time);
    }
    match find_register(text) {
        None => None,
        Some(register) => Some(Probe::Register(register)),
    }
}

// What is seen of the machine.
fn machine_value(machine: &ScriptMachine, probe: &Probe) -> Value
    requires { CanSee (Machine (running_of machine.now)) probe.now }
    ensures { (told : List Call) (v : ℕ → ℕ → Bool)
        → result ≡ value_of (Machine (running_of machine.now)) told v (probe_source probe.now) }
{
    match probe {
        Probe::Register(register) => machine.value(*register),
        Probe::Time | Probe::Bus(_) | Probe::Word(_, _) => machine.time(),
    }
}

// Sets what a text stands for in the machine.
fn set_register(machine: &mut ScriptMachine, text: &[u8], word: u16) -> bool
    ensures cycle { (running_of machine.new).cycle ≡ (running_of machine.old).cycle }
    ensures set { SetsMachine (running_of machine.old)
        (running_of machine.new) text.now word result }
{
    match find_register(text) {
        None => false,
        Some(register) => {
            machine.set(register, word);
            true
        }
    }
}

impl Device {
    /// How many cycles or steps are over.
    pub fn steps(&self) -> u64
        ensures { result ≡ steps_of self.now }
    {
        match self {
            Device::Empty => 0,
            Device::Chip(chip) => chip.cycles(),
            Device::Machine(machine) => machine.steps(),
        }
    }

    /// What a text stands for, to be seen again and again.
    pub fn find(&self, alloc: Global, text: &[u8]) -> Result<Option<Probe>, AllocError>
        ensures { (d : devices.Device) → Stands self.now d → IfOk result (Finds d text.now) }
    {
        match self {
            Device::Empty => Ok(is_time(text).then_some(Probe::Time)),
            Device::Chip(chip) => find_in_chip(alloc, chip, text),
            Device::Machine(_) => Ok(find_in_machine(text)),
        }
    }

    /// Sets what a text stands for, if it can be set.
    pub fn set(&mut self, text: &[u8], word: u16) -> bool
        requires { (d : devices.Device) × Stands self.old d }
        ensures stands { (d : devices.Device) → Stands self.old d
            → TellsSet d self.new text.now word result }
        ensures runs { (simplify : Bool) → DeviceRuns simplify self.old
            → DeviceRuns simplify self.new }
        ensures steps { steps_of self.new ≡ steps_of self.old }
    {
        match self {
            Device::Empty => false,
            Device::Chip(chip) => set_variable(chip, text, word),
            Device::Machine(machine) => set_register(machine, text, word),
        }
    }

    /// Puts a chip back to where its load left it: at its start, and evaluated once. What is no chip stays as it is.
    pub fn restart(&mut self)
        ensures stands { (d : devices.Device) → Stands self.old d
            → Stands self.new (after_restart d) }
        ensures runs { (simplify : Bool) → DeviceRuns simplify self.old
            → DeviceRuns simplify self.new }
    {
        if let Device::Chip(chip) = self {
            chip.reset();
            chip.eval();
        }
    }

    /// Whether it is a chip, whose netlist that runs is a simplified one with `simplify`, and its own without.
    pub fn is_chip(&self, simplify: bool) -> bool
        ensures chip { (d : devices.Device) → Stands self.now d → result ≡ true → IsChip d }
        ensures runs { result ≡ true → DeviceRuns simplify self.now }
        ensures exact { IsTrue result ↔ RunsAs simplify self.now }
    {
        match self {
            Device::Empty | Device::Machine(_) => false,
            Device::Chip(chip) => chip.is_simplified() == simplify,
        }
    }

    /// Evaluates a chip.
    pub fn eval(&mut self)
        ensures stands { (d : devices.Device) → Stands self.old d → Stands self.new (after_eval d) }
        ensures runs { (simplify : Bool) → DeviceRuns simplify self.old
            → DeviceRuns simplify self.new }
        ensures steps { steps_of self.new ≡ steps_of self.old }
    {
        if let Device::Chip(chip) = self {
            chip.eval();
        }
    }

    /// A tick: of a chip, or marked in the time of the machine.
    pub fn tick(&mut self)
        ensures stands { (d : devices.Device) → Stands self.old d → Stands self.new (after_tick d) }
        ensures runs { (simplify : Bool) → DeviceRuns simplify self.old
            → DeviceRuns simplify self.new }
        ensures steps { steps_of self.new ≡ steps_of self.old }
    {
        match self {
            Device::Empty => {}
            Device::Chip(chip) => chip.tick(),
            Device::Machine(machine) => machine.tick(),
        }
    }

    /// A tock of a chip, or one step of the machine.
    pub fn tock(&mut self)
        requires { steps_of self.old + 1 < 2 ^ 63 }
        ensures stands { (d : devices.Device) → Stands self.old d → Stands self.new (after_tock d) }
        ensures runs { (simplify : Bool) → DeviceRuns simplify self.old
            → DeviceRuns simplify self.new }
        ensures steps { steps_of self.new ≤ steps_of self.old + 1 }
    {
        match self {
            Device::Empty => {}
            Device::Chip(chip) => chip.tock(),
            Device::Machine(machine) => machine.tock(),
        }
    }

    /// Whether it is a chip with an instruction memory.
    pub fn has_rom(&self) -> bool
        ensures { (d : devices.Device) → Stands self.now d → TellsMemory d result }
    {
        match self {
            Device::Empty | Device::Machine(_) => false,
            Device::Chip(chip) => memory_block(chip).is_some(),
        }
    }

    /// Puts an image into the instruction memory of a chip, and 0 after it, if it has one.
    pub fn load_rom(&mut self, alloc: Global, image: &[u16]) -> Result<bool, AllocError>
        requires { length image.now ≤ 32768 }
        ensures stands { (d : devices.Device) → Stands self.old d
            → TellsImage d self.new image.now result }
        ensures runs { (simplify : Bool) → DeviceRuns simplify self.old
            → DeviceRuns simplify self.new }
        ensures steps { steps_of self.new ≡ steps_of self.old }
    {
        let Device::Chip(chip) = self else {
            return Ok(false);
        };
        let Some(block) = memory_block(chip) else {
            return Ok(false);
        };
        let words = whole_memory(alloc, image)?;
        chip.load_words(block, &words);
        Ok(true)
    }

    /// What is seen of it now.
    pub fn value(&self, probe: &Probe) -> Value
        requires { (d : devices.Device) × Stands self.now d × CanSee d probe.now }
        ensures { (d : devices.Device) (told : List Call) (v : ℕ → ℕ → Bool) → Stands self.now d
            → SeesAll d told v → result ≡ value_of d told v (probe_source probe.now) }
    {
        match self {
            Device::Empty => Value::Time(0, false),
            Device::Chip(chip) => chip_value(chip, probe),
            Device::Machine(machine) => machine_value(machine, probe),
        }
    }

    /// Something is seen of it.
    pub fn values_law(&self)
        ensures { (d : devices.Device) → Stands self.now d
            → (told : List Call) × ((v : ℕ → ℕ → Bool) × SeesAll d told v) }
    {
        if let Device::Chip(chip) = self {
            chip.values_law();
        }
    }
}
