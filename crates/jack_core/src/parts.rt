//! Lists of parts. A single part, as most expressions are, stands in the value itself.

ghost use Rattle.std.specs.Prelude.{◌≡◌, [], ◌∷◌, List, IfOk, length, slice_get};
ghost use Rattle.jack_core.specs.declared.tree.Part.{Part};
ghost use Rattle.jack_core.specs.Kept.{kept_parts};

use crate::tree::Part;
use std::alloc::{AllocError, Global};
use std::marker::Model;
use std::slice;

#[derive(Drop)]
enum Kept {
    One(Part),
    Many(Box<Vec<Part>>),
}

/// Parts in their order. A single one keeps no memory of its own.
#[derive(Drop)]
pub struct Parts {
    kept: Kept,
}

impl Model for Parts {
    ghost Value = { List Part };

    ghost view = { λ p. kept_parts p.kept };
}

// There are more expressions than anything else, and many of them have one part.
const _: () = prove!(size_of::<Parts>() == 16);

impl Parts {
    /// A single part, which wants no memory.
    pub fn one(part: Part) -> Parts
        ensures { result ≡ part ∷ [] }
    {
        Parts {
            kept: Kept::One(part),
        }
    }

    /// These parts.
    pub fn new(alloc: Global, parts: Vec<Part>) -> Result<Parts, AllocError>
        ensures { IfOk result (λ p. p ≡ parts.items) }
    {
        let kept = if parts.len() == 1 {
            Kept::One(parts[0])
        } else {
            let mut parts = parts;
            parts.shrink_to_fit();
            Kept::Many(Box::new(alloc, parts)?)
        };
        Ok(Parts { kept })
    }

    /// The parts.
    #[inline]
    pub fn as_slice(&self) -> &[Part]
        ensures { result.now ≡ self.now }
    {
        match &self.kept {
            Kept::One(part) => slice::from_ref(part),
            Kept::Many(parts) => parts.as_slice(),
        }
    }

    /// How many parts there are.
    #[inline]
    pub fn len(&self) -> usize
        ensures { result ≡ length self.now }
    {
        self.as_slice().len()
    }

    /// The part of this number, from 0.
    #[inline]
    pub fn get(&self, k: usize) -> Option<Part>
        ensures { result ≡ slice_get self.now k }
    {
        self.as_slice().get(k).copied()
    }
}
