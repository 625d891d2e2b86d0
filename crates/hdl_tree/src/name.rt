//! Names, which contracts see as their bytes.
ghost use Rattle.std.specs.Prelude.{◌≡◌, List, ℕ, IfOk, refl};
ghost use Rattle.std.specs.Str.{bytes_eq};
ghost use Rattle.std.specs.Cmp.{partial_equiv_from_equiv};
ghost use Rattle.std.specs.Cmp.Lexicographic.{nat_list_eq_equiv};

use std::alloc::{AllocError, Global};
use std::marker::Model;

/// The name of a chip, a pin or a net.
#[derive(Drop)]
pub struct Name {
    text: Vec<u8>,
}

impl Model for Name {
    ghost Value = { List ℕ };

    ghost view = { λ n. n.text.items };
}

impl Name {
    /// The name of these bytes.
    pub fn new(text: Vec<u8>) -> Name
        ensures { result ≡ text.items }
    {
        Name { text }
    }

    /// A name with a copy of these bytes.
    pub fn from_bytes(alloc: Global, text: &[u8]) -> Result<Name, AllocError>
        ensures { IfOk result (λ n. n ≡ text.now) }
    {
        Ok(Name {
            text: Vec::from_slice(alloc, text)?,
        })
    }

    pub fn as_bytes(&self) -> &[u8]
        ensures { result.now ≡ self.now }
    {
        self.text.as_slice()
    }

    /// The bytes of the name, which is no more.
    pub fn into_bytes(self) -> Vec<u8>
        ensures { result.items ≡ self }
    {
        self.text
    }
}

impl Clone for Name {
    ghost is_clone = { λ name copy. copy ≡ name };

    fn clone(&self) -> Result<Name, AllocError> {
        Ok(Name {
            text: self.text.clone()?,
        })
    }
}

impl PartialEq for Name {
    ghost eq = { bytes_eq };

    ghost laws = { partial_equiv_from_equiv nat_list_eq_equiv };

    fn eq(&self, other: &Name) -> bool {
        self.as_bytes() == other.as_bytes()
    }
}

impl Eq for Name {
    ghost laws = { nat_list_eq_equiv };
}
