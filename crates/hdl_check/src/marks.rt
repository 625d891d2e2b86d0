//! Sets of bits of names.

ghost use Rattle.std.specs.Prelude.{◌≡◌, [], ◌∷◌, ◌+◌, ◌<◌, ◌^◌, OnOk};
ghost use Rattle.hdl_check.specs.Tables.{bits_of};
ghost use Rattle.hdl_check.specs.Inner.Marked.{is_marked, some_marked, HasMarks, MarksMore};

use indexmap::IndexSet;
use std::alloc::{AllocError, Global};

/// A bit of a pin or net.
#[derive(Clone, Copy, PartialEq, Eq, Hash)]
pub(crate) struct Mark<'a> {
    pub name: &'a [u8],
    pub bit: u32,
}

/// Bits that are marked.
pub(crate) struct Marks<'a> {
    bits: IndexSet<Mark<'a>>,
}

// By hand, so that whoever drops one calls this.
impl Drop for Marks<'_> {
    fn drop(self) {
        let Marks { bits: _ } = self;
    }
}

impl<'a> Marks<'a> {
    pub(crate) fn new(alloc: Global) -> Marks<'a>
        ensures { HasMarks result [] }
    {
        Marks {
            bits: IndexSet::new(alloc),
        }
    }

    /// Whether the bit is marked.
    pub(crate) fn has(&self, name: &'a [u8], bit: u32) -> bool
        ensures { result ≡ is_marked self.now name.now bit }
    {
        self.bits.contains(&Mark { name, bit })
    }

    /// Marks one more bit.
    pub(crate) fn mark(&mut self, name: &'a [u8], bit: u32) -> Result<(), AllocError>
        ensures { OnOk result
            (MarksMore self.old self.new (record { name = name.now; bit = bit } ∷ [])) }
    {
        match self.bits.insert(Mark { name, bit }) {
            Ok(_) => Ok(()),
            Err(_) => Err(AllocError),
        }
    }

    /// Whether one of this many bits from the first on is marked.
    pub(crate) fn has_some(&self, name: &'a [u8], first: u32, count: u32) -> bool
        requires { first + count < 2 ^ 32 }
        ensures { result ≡ some_marked self.now (bits_of name.now first count) }
    {
        for k in 0..count {
            if self.has(name, first + k) {
                return true;
            }
        }
        false
    }

    /// Marks this many bits from the first on.
    pub(crate) fn mark_all(
        &mut self,
        name: &'a [u8],
        first: u32,
        count: u32,
    ) -> Result<(), AllocError>
        requires { first + count < 2 ^ 32 }
        ensures { OnOk result (MarksMore self.old self.new (bits_of name.now first count)) }
    {
        for k in 0..count {
            self.mark(name, first + k)?;
        }
        Ok(())
    }
}
