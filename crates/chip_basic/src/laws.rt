//! What the chips do.

ghost use Rattle.chip_basic.specs.Laws.{NotLaw, AndLaw, OrLaw, XorLaw, MuxLaw, DMuxLaw, Not16Law, And16Law, Or16Law, Mux16Law, Or8WayLaw, Mux4Way16Law, Mux8Way16Law, DMux4WayLaw, DMux8WayLaw, BasicTextsLaw};

/// Not is 1 where `in` is 0.
pub fn not_law()
    ensures { NotLaw }
{}

/// And is 1 where both inputs are.
pub fn and_law()
    ensures { AndLaw }
{}

/// Or is 1 where one of the inputs is, or both.
pub fn or_law()
    ensures { OrLaw }
{}

/// Xor is 1 where one of the inputs is, and not both.
pub fn xor_law()
    ensures { XorLaw }
{}

/// Mux is `a` where `sel` is 0, else `b`.
pub fn mux_law()
    ensures { MuxLaw }
{}

/// DMux hands `in` to `a` where `sel` is 0, else to `b`, and 0 to the other.
pub fn dmux_law()
    ensures { DMuxLaw }
{}

/// Not16 turns each bit over.
pub fn not16_law()
    ensures { Not16Law }
{}

/// And16 is And bit by bit.
pub fn and16_law()
    ensures { And16Law }
{}

/// Or16 is Or bit by bit.
pub fn or16_law()
    ensures { Or16Law }
{}

/// Mux16 is the word `a` where `sel` is 0, else the word `b`.
pub fn mux16_law()
    ensures { Mux16Law }
{}

/// Or8Way is 1 where some bit of `in` is.
pub fn or8way_law()
    ensures { Or8WayLaw }
{}

/// Mux4Way16 is the word of `a` to `d` that `sel` numbers.
pub fn mux4way16_law()
    ensures { Mux4Way16Law }
{}

/// Mux8Way16 is the word of `a` to `h` that `sel` numbers.
pub fn mux8way16_law()
    ensures { Mux8Way16Law }
{}

/// DMux4Way hands `in` to the one of `a` to `d` that `sel` numbers, and 0 to the others.
pub fn dmux4way_law()
    ensures { DMux4WayLaw }
{}

/// DMux8Way hands `in` to the one of `a` to `h` that `sel` numbers, and 0 to the others.
pub fn dmux8way_law()
    ensures { DMux8WayLaw }
{}

/// Each of these chips can be written as a text.
pub fn basic_texts_law()
    ensures { BasicTextsLaw }
{}
