//! What the chips do.

ghost use Rattle.chip_memory.specs.Laws.{BitLaw, RegisterLaw, ARegisterLaw, DRegisterLaw, PcLaw, Ram8Law, Ram64Law, Ram512Law, Ram4kLaw, Ram16kLaw, ScreenLaw, MemoryTextsLaw};

/// Bit keeps a bit until the next is loaded.
pub fn bit_law()
    ensures { BitLaw }
{}

/// Register keeps a word until the next is loaded.
pub fn register_law()
    ensures { RegisterLaw }
{}

/// ARegister is a register.
pub fn a_register_law()
    ensures { ARegisterLaw }
{}

/// DRegister is a register.
pub fn d_register_law()
    ensures { DRegisterLaw }
{}

/// PC is set to 0, loaded, counted up by one or kept, in this order of its pins `reset`, `load` and `inc`.
pub fn pc_law()
    ensures { PcLaw }
{}

/// RAM8 of registers is a block of 8 words.
pub fn ram8_law()
    ensures { Ram8Law }
{}

/// RAM64 of gates is a block of 64 words.
pub fn ram64_law()
    ensures { Ram64Law }
{}

/// RAM512 of gates is a block of 512 words.
pub fn ram512_law()
    ensures { Ram512Law }
{}

/// RAM4K of gates is a block of 4,096 words.
pub fn ram4k_law()
    ensures { Ram4kLaw }
{}

/// RAM16K of gates is a block of 16,384 words.
pub fn ram16k_law()
    ensures { Ram16kLaw }
{}

/// Screen of gates is a block of 8,192 words.
pub fn screen_law()
    ensures { ScreenLaw }
{}

/// Each of these chips can be written as a text.
pub fn memory_texts_law()
    ensures { MemoryTextsLaw }
{}
