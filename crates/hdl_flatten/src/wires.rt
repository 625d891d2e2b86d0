//! What feeds the bits of pins and nets.

ghost use Rattle.std.specs.Prelude.{◌≡◌, ◌<◌, [], ◌∷◌, ◌++◌, OnOk, IfOk, Some, length, map, slice_get};
ghost use Rattle.hdl_check.specs.Tables.{bits_of};
ghost use Rattle.hdl_flatten.specs.Trees.{all_bits};
ghost use Rattle.hdl_flatten.specs.Inner.Wired.{found_bit, wires_of, bit_of, origin_at, origins_at, FindsMore};

use hdl_tree::Pin;
use indexmap::IndexMap;
use std::alloc::{AllocError, Global};

/// A bit of a pin or net.
#[derive(Clone, Copy, PartialEq, Eq, Hash)]
pub(crate) struct Bit<'a> {
    pub name: &'a [u8],
    pub bit: u32,
}

/// What feeds a bit: 0, 1, an input bit of the chip by its number, or a node, counted from the chip's first.
#[derive(Clone, Copy)]
pub(crate) enum Origin {
    Low,
    High,
    Input(usize),
    Gate(u32),
}

/// What feeds each bit of a chip's pins and nets; what was entered first for a bit is found.
pub(crate) struct Wires<'a> {
    entries: IndexMap<Bit<'a>, Origin>,
}

// By hand, so that whoever drops one calls this.
impl Drop for Wires<'_> {
    fn drop(self) {
        let Wires { entries: _ } = self;
    }
}

impl<'a> Wires<'a> {
    pub(crate) fn new(alloc: Global) -> Wires<'a>
        ensures { wires_of result ≡ [] }
    {
        Wires {
            entries: IndexMap::new(alloc),
        }
    }

    fn find(&self, bit: Bit<'a>) -> Option<Origin>
        ensures { result ≡ found_bit bit.entry.name.now bit.entry.bit (wires_of self.now) }
    {
        self.entries.get(&bit).copied()
    }

    /// What feeds the bit; a bit that was not entered is 0.
    pub(crate) fn origin(&self, bit: Bit<'a>) -> Origin
        ensures { result ≡ origin_at (wires_of self.now) bit.entry.name.now bit.entry.bit }
    {
        self.find(bit).unwrap_or(Origin::Low)
    }

    /// How many bits were entered.
    pub(crate) fn len(&self) -> usize
        ensures { result ≡ length (wires_of self.now) }
    {
        self.entries.len()
    }

    /// The bit that was entered in place k, and what feeds it.
    pub(crate) fn entry(&self, k: usize) -> (Bit<'a>, Origin)
        requires { k < length (wires_of self.now) }
        ensures there { slice_get (wires_of self.now) k ≡ Some (bit_of result.0, result.1) }
        ensures found { origin_at (wires_of self.now) result.0.name.now result.0.bit ≡ result.1 }
    {
        match self.entries.get_index(k) {
            Some((bit, origin)) => (*bit, *origin),
            None => unreachable!(),
        }
    }

    /// Enters what feeds a bit, unless it was entered before.
    pub(crate) fn enter(&mut self, bit: Bit<'a>, origin: Origin) -> Result<(), AllocError>
        ensures { OnOk result
            (FindsMore (wires_of self.old) (wires_of self.new) ((bit_of bit.entry, origin) ∷ [])) }
    {
        match self.find(bit) {
            Some(_) => Ok(()),
            None => match self.entries.insert(bit, origin) {
                Ok(_) => Ok(()),
                Err(_) => Err(AllocError),
            },
        }
    }
}

fn push_bits<'a>(bits: &mut Vec<Bit<'a>>, name: &'a [u8], width: u8) -> Result<(), AllocError>
    ensures { OnOk result
        (map bit_of bits.new.items ≡ map bit_of bits.old.items ++ bits_of name.now 0 width) }
{
    for bit in 0..u32::from(width) {
        bits.push(Bit { name, bit })?;
    }
    Ok(())
}

/// The bits of pins in order, lowest bits first.
pub(crate) fn bits_of_pins<'a>(alloc: Global, pins: &'a [Pin]) -> Result<Vec<Bit<'a>>, AllocError>
    ensures { IfOk result (λ v. map bit_of v.items ≡ all_bits pins.now) }
{
    let mut bits = Vec::new(alloc);
    let mut rest = pins;
    while let Some((pin, others)) = rest.split_first() {
        push_bits(&mut bits, pin.name.as_bytes(), pin.width.unwrap_or(1))?;
        rest = others;
    }
    Ok(bits)
}

/// What the bits are fed from, one after another.
pub(crate) fn origins_of<'a>(
    alloc: Global,
    wires: &Wires<'a>,
    bits: &[Bit<'a>],
) -> Result<Vec<Origin>, AllocError>
    ensures { IfOk result (λ v. v.items ≡ origins_at (wires_of wires.now) (map bit_of bits.now)) }
{
    let mut origins = Vec::new(alloc);
    for bit in bits {
        origins.push(wires.origin(*bit))?;
    }
    Ok(origins)
}
