//! Tables of names: the number of a name is the first place where it stands in a list.

ghost use Rattle.std.specs.Prelude.{◌≡◌, ◌++◌, [], ◌∷◌, ℕ, List, IfOk, OnOk, length};
ghost use Rattle.script_device.specs.Inner.Numbers.{AreNumbers, number_in, part_names, pin_names};

use crate::directory::{PartNodes, PinNodes};
use indexmap::IndexMap;
use std::alloc::{AllocError, Global};

/// For each name of a list its number: the first place where it stands, counted from 0.
pub struct Numbers {
    places: IndexMap<Vec<u8>, usize>,
}

// By hand, so that whoever drops one calls this.
impl Drop for Numbers {
    fn drop(self) {
        let Numbers { places: _ } = self;
    }
}

impl Numbers {
    /// Those of no names.
    fn new(alloc: Global) -> Numbers
        ensures { AreNumbers result [] }
    {
        Numbers {
            places: IndexMap::new(alloc),
        }
    }

    /// The number of a name.
    pub fn find(&self, name: &[u8]) -> Option<usize>
        ensures { result ≡ number_in self.now name.now }
    {
        self.places.get(name).copied()
    }

    /// One name more, with its place. A name that is there keeps its number.
    fn enter(&mut self, alloc: Global, name: &[u8], place: usize) -> Result<(), AllocError>
        ensures { OnOk result ((names : List (List ℕ)) → place ≡ length names
            → AreNumbers self.old names → AreNumbers self.new (names ++ name.now ∷ [])) }
    {
        let known = self.find(name).is_some();
        if known {
            return Ok(());
        }
        let key = Vec::from_slice(alloc, name)?;
        match self.places.insert(key, place) {
            Err(_) => return Err(AllocError),
            Ok(_) => {}
        }
        Ok(())
    }

    /// Those of the names of pins.
    pub fn of_pins(alloc: Global, pins: &[PinNodes]) -> Result<Numbers, AllocError>
        ensures { IfOk result (λ numbers. AreNumbers numbers (pin_names pins.now)) }
    {
        let mut numbers = Numbers::new(alloc);
        for (place, pin) in pins.iter().enumerate() {
            numbers.enter(alloc, pin.name.as_bytes(), place)?;
        }
        Ok(numbers)
    }

    /// Those of the names of the chips of parts.
    pub fn of_parts(alloc: Global, parts: &[PartNodes]) -> Result<Numbers, AllocError>
        ensures { IfOk result (λ numbers. AreNumbers numbers (part_names parts.now)) }
    {
        let mut numbers = Numbers::new(alloc);
        for (place, part) in parts.iter().enumerate() {
            numbers.enter(alloc, part.chip.as_bytes(), place)?;
        }
        Ok(numbers)
    }
}
