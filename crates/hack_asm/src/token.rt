use scan_text::Place;

/// What a token is. A sign is given by its byte, `<<` and `>>` by the byte that stands twice.
#[derive(Clone, Copy)]
pub enum Kind {
    Sign(u8),
    Number(u16),
    Symbol,
    LineEnd,
}

/// What a computation is made of: the constants, and the registers.
#[derive(Clone, Copy)]
pub enum Letter {
    Zero,
    One,
    A,
    D,
    M,
}

#[derive(Clone, Copy)]
pub enum Operator {
    Plus,
    Minus,
    And,
    Or,
}

/// What a token can be in an instruction, by its bytes. It is a letter, an operator, several letters of a destination
/// (as their bits), a jump (as its bits), or a shift, which is one to the left or not.
#[derive(Clone, Copy)]
pub enum Role {
    Letter(Letter),
    Operator(Operator),
    Several(u8),
    Jump(u8),
    Shift(bool),
    Plain,
}

/// A token: its bytes in the source, and the place where it begins. A line end keeps no bytes.
#[derive(Clone, Copy)]
pub struct Token<'a> {
    pub kind: Kind,
    pub role: Role,
    pub text: &'a [u8],
    pub place: Place,
}
