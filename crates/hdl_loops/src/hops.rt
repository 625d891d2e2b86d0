//! Ways in a chip as hops, each from a bit of the chip into a part, through it, and out to a bit of the chip.

/// A bit of a net or pin.
#[derive(Clone, Copy, PartialEq, Eq, Hash)]
pub struct BitOf<'a> {
    pub name: &'a [u8],
    pub bit: u32,
}

/// An output bit of a chip that depends on an input bit.
#[derive(Clone, Copy, PartialEq, Eq, Hash)]
pub struct Dependency<'a> {
    pub input: &'a [u8],
    pub bit: u32,
    pub output: &'a [u8],
    pub out: u32,
}

/// A way into a part, whose chip stands in this place of the library, through it, and out.
#[derive(Clone, Copy)]
pub struct Hop<'a> {
    pub from: BitOf<'a>,
    pub chip: usize,
    pub through: Dependency<'a>,
    pub to: BitOf<'a>,
}
