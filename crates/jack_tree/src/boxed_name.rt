//! Names in a box of their own, where they are rare, so that what holds them is no larger.

ghost use Rattle.std.specs.Prelude.{◌≡◌, IfOk};
ghost use Rattle.jack_tree.specs.declared.tree.Name as names;

use crate::tree::Name;
use std::alloc::{AllocError, Global};
use std::marker::Model;

/// A name in a box.
#[derive(Debug, Drop)]
pub struct BoxedName {
    held: Box<Name>,
}

impl Model for BoxedName {
    ghost Value = { names.Name };

    ghost view = { λ b. b.held.value };
}

impl BoxedName {
    /// The name, in a box.
    pub fn new(alloc: Global, name: Name) -> Result<BoxedName, AllocError>
        ensures { IfOk result (λ b. b ≡ name) }
    {
        Ok(BoxedName {
            held: Box::new(alloc, name)?,
        })
    }

    /// The name.
    pub fn get(&self) -> &Name
        ensures { result.now ≡ self.now }
    {
        &self.held
    }
}
