//! What the CPU and the Computer do.

ghost use Rattle.hack_cpu.specs.Cpu.{CpuLaw, RegistersLaw};
ghost use Rattle.hack_cpu.specs.Computer.{CycleLaw};
ghost use Rattle.hack_cpu.specs.Libraries.{LibrariesLaw};
ghost use Rattle.hack_cpu.specs.Library.{LibraryLaw, ComputerTextsLaw, TextsLaw};
ghost use Rattle.hack_cpu.specs.Pins.{PinsLaw};
ghost use Rattle.hack_cpu.specs.Dependencies.{FaultlessLaw, LooplessLaw};
ghost use Rattle.hack_cpu.specs.Existence.{ExistenceLaw, RunsLaw};

/// What the CPU gives in a cycle, and what its registers hold next.
pub fn cpu_law()
    ensures { CpuLaw }
{}

/// The CPU has exactly one ARegister, one DRegister and one PC.
pub fn registers_law()
    ensures { RegistersLaw }
{}

/// One cycle of the Computer is one step of the instruction machine: A, D, the program counter and the words below 24,576 are equal at each cycle.
pub fn cycle_law()
    ensures { CycleLaw }
{}

/// The library of shipped chips has all chips that the laws ask for.
pub fn library_law()
    ensures { LibraryLaw }
{}

/// Each of the chips of the computer can be written as a text.
pub fn computer_texts_law()
    ensures { ComputerTextsLaw }
{}

/// Each shipped chip can be written as a text.
pub fn texts_law()
    ensures { TextsLaw }
{}

/// The shipped chips have the pins of the table, and their names are distinct.
pub fn pins_law()
    ensures { PinsLaw }
{}

/// No shipped chip has a fault, with blocks or with memories of gates.
pub fn faultless_law()
    ensures { FaultlessLaw }
{}

/// No shipped chip has a loop, with blocks or with memories of gates, and no output depends on an input but as the table says.
pub fn loopless_law()
    ensures { LooplessLaw }
{}

/// Each shipped chip has a behaviour, with blocks or with memories of gates, whatever comes in.
pub fn existence_law()
    ensures { ExistenceLaw }
{}

/// The Computer has a behaviour with each image, all keys and no reset.
pub fn runs_law()
    ensures { RunsLaw }
{}

/// The ends in a library of shipped chips and of chips from texts have their pins, as elaboration asks.
pub fn libraries_law()
    ensures { LibrariesLaw }
{}
