//! What the chips do.

ghost use Rattle.chip_alu.specs.Laws.{HalfAdderLaw, FullAdderLaw, Add16Law, Inc16Law, AluLaw, ShiftLaw, AluTextsLaw};

/// HalfAdder gives the two binary digits of `a + b`.
pub fn half_adder_law()
    ensures { HalfAdderLaw }
{}

/// FullAdder gives the two binary digits of `a + b + c`.
pub fn full_adder_law()
    ensures { FullAdderLaw }
{}

/// Add16 is the sum modulo 65,536.
pub fn add16_law()
    ensures { Add16Law }
{}

/// Inc16 is `in + 1` modulo 65,536.
pub fn inc16_law()
    ensures { Inc16Law }
{}

/// The ALU is that of the instruction table, with `zr` where `out` is 0 and `ng` where it is below 0.
pub fn alu_law()
    ensures { AluLaw }
{}

/// Shift gives the word one place to the left where `left` is 1, else one place to the right, where the sign stays.
pub fn shift_law()
    ensures { ShiftLaw }
{}

/// Each of these chips can be written as a text.
pub fn alu_texts_law()
    ensures { AluTextsLaw }
{}
