//! What has a name in a chip, found by tables.

ghost use Rattle.std.specs.Prelude.{◌≡◌, None, Some, IfOk, MatchOption};
ghost use Rattle.script_device.specs.Directory.{part_named, pin_named};
ghost use Rattle.script_device.specs.Inner.Numbers.{AreNumbers, AreTables, pin_names};

use crate::directory::{Directory, PartNodes, PinNodes};
use crate::numbering::Numbers;
use std::alloc::{AllocError, Global};

/// The numbers of the pins and parts of a directory.
pub struct Tables {
    inputs: Numbers,
    outputs: Numbers,
    parts: Numbers,
}

// By hand, so that whoever drops one calls this.
impl Drop for Tables {
    fn drop(self) {
        let Tables {
            inputs: _,
            outputs: _,
            parts: _,
        } = self;
    }
}

// The nodes of the pin of this name.
fn pin_named<'a>(numbers: &Numbers, pins: &'a [PinNodes], name: &[u8]) -> Option<&'a [u32]>
    requires { AreNumbers numbers.now (pin_names pins.now) }
    ensures { MatchOption result (pin_named pins.now name.now ≡ None)
        (λ nodes. pin_named pins.now name.now ≡ Some nodes.now) }
{
    match numbers.find(name) {
        None => None,
        Some(place) => Some(pins[place].nodes.as_slice()),
    }
}

impl Tables {
    /// Those of a directory.
    pub fn new(alloc: Global, directory: &Directory) -> Result<Tables, AllocError>
        ensures { IfOk result (λ tables. AreTables tables directory.now) }
    {
        Ok(Tables {
            inputs: Numbers::of_pins(alloc, directory.inputs.as_slice())?,
            outputs: Numbers::of_pins(alloc, directory.outputs.as_slice())?,
            parts: Numbers::of_parts(alloc, directory.parts.as_slice())?,
        })
    }

    /// The nodes of the input of this name.
    pub fn input<'a>(&self, directory: &'a Directory, name: &[u8]) -> Option<&'a [u32]>
        requires { AreTables self.now directory.now }
        ensures { MatchOption result (pin_named directory.now.inputs name.now ≡ None)
            (λ nodes. pin_named directory.now.inputs name.now ≡ Some nodes.now) }
    {
        pin_named(&self.inputs, directory.inputs.as_slice(), name)
    }

    /// The nodes of the output of this name.
    pub fn output<'a>(&self, directory: &'a Directory, name: &[u8]) -> Option<&'a [u32]>
        requires { AreTables self.now directory.now }
        ensures { MatchOption result (pin_named directory.now.outputs name.now ≡ None)
            (λ nodes. pin_named directory.now.outputs name.now ≡ Some nodes.now) }
    {
        pin_named(&self.outputs, directory.outputs.as_slice(), name)
    }

    /// The first part of the chip of this name.
    pub fn part<'a>(&self, directory: &'a Directory, name: &[u8]) -> Option<&'a PartNodes>
        requires { AreTables self.now directory.now }
        ensures { MatchOption result (part_named directory.now.parts name.now ≡ None)
            (λ part. part_named directory.now.parts name.now ≡ Some part.now) }
    {
        match self.parts.find(name) {
            None => None,
            Some(place) => Some(&directory.parts.as_slice()[place]),
        }
    }
}
