//! Why a chip is not elaborated.

ghost use Rattle.std.specs.Prelude.{◌≡◌};
ghost use Rattle.hdl_elab.specs.declared.fault.ElaborationFault.TheVariants.{Memory};

use hdl_check::NamedFault;
use hdl_tree::{List, Name};
use std::alloc::AllocError;
use std::fmt;
use thiserror::Error;

/// Why a chip is not elaborated.
#[derive(Drop, Error)]
pub enum ElaborationFault {
    #[error("want of memory")]
    Memory,
    /// A fault in the text of the chip or of a chip in it.
    #[error("{0}")]
    Named(NamedFault),
    /// These nets are a loop.
    #[error("a loop")]
    Loop(List<Name>),
    /// The chip needs this many nodes; a number past 1,000,000,000 is given as that.
    #[error("{0} nodes are too many")]
    TooManyNodes(u32),
}

impl fmt::Debug for ElaborationFault {
    fn fmt<W: fmt::Write>(&self, f: &mut fmt::Formatter<W>) -> fmt::Result {
        fmt::Display::fmt(self, f)
    }
}

impl From<AllocError> for ElaborationFault {
    ghost from_gives = { λ _ e. e ≡ Memory };

    fn from(_e: AllocError) -> ElaborationFault {
        ElaborationFault::Memory
    }
}
