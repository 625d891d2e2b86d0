//! Laws of the chips of the Computer: what Memory does at its pins, which part is which, and what all chips come down
//! to. No code, only laws.
#![tactic(auto)]

ghost use Rattle.computer_laws.specs.Cycle.{WholeCycleLaw};
ghost use Rattle.computer_laws.specs.Down.{DownLaw};
ghost use Rattle.computer_laws.specs.Memory.{MemoryLaw};
ghost use Rattle.computer_laws.specs.Places.{PlacesLaw};

/// Law: Memory is the memory map at its pins: RAM, screen and keyboard.
pub fn memory_law()
    ensures { MemoryLaw }
{}

/// Law: one cycle of the Computer is one step of the instruction machine, also where RAM and Screen are made of gates.
pub fn whole_cycle_law()
    ensures { WholeCycleLaw }
{}

/// Law: the parts of the Computer that the laws name by number are those of their names, and the only ones.
pub fn places_law()
    ensures { PlacesLaw }
{}

/// Law: each chip without faults comes down to Nand gates, flip-flops, keyboard, ROM and, in a library of blocks,
/// memories as blocks.
pub fn down_law()
    ensures { DownLaw }
{
    hack_cpu::faultless_law();
}
