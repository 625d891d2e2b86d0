//! What can be wrong with chips.

ghost use Rattle.std.specs.Prelude.{◌≡◌, Some, IfOk};
ghost use Rattle.hdl_check.specs.declared.fault.ElabFault.TheVariants.{Memory};
ghost use Rattle.hdl_check.specs.Faults.{fault_in};
ghost use Rattle.hdl_check.specs.Inner.Checked.{Checks};
ghost use Rattle.hdl_check.specs.Whole.{Tells};
ghost use Rattle.hdl_check.specs.Messages.{kind_word, named_message};

use hdl_tree::Name;
use outer_world::{Detail, Diagnostic};
use std::alloc::{AllocError, Global};
use std::fmt;
use thiserror::Error;

/// What is wrong with a named chip, pin or net.
#[derive(Clone, Copy, Debug, PartialEq, Eq)]
pub enum FaultKind {
    /// No chip of this name is there.
    UnknownChip,
    /// The chip of the part has no pin of this name.
    UnknownPin,
    /// The two sides of a connection differ in bits, a subscript lies past its pin's width, or an internal net carries a subscript.
    Width,
    /// A pin stands twice, or a bit is driven twice. A part's output goes to an input or to a constant, or a part's input is fed from
    /// an output of the chip.
    Driven,
    /// A net that a part reads and nothing drives.
    Undriven,
    /// The part's chip is one of the chips that the part stands in.
    Recursive,
}

impl FaultKind {
    fn word(&self) -> &'static str
        ensures { result.now ≡ kind_word self.now }
    {
        match self {
            FaultKind::UnknownChip => "UnknownChip",
            FaultKind::UnknownPin => "UnknownPin",
            FaultKind::Width => "Width",
            FaultKind::Driven => "Driven",
            FaultKind::Undriven => "Undriven",
            FaultKind::Recursive => "Recursive",
        }
    }
}

/// A fault, with the name of the chip whose text has it.
#[derive(Drop, Error)]
#[error("{chip}: {kind:?} {name}", chip = .chip.as_bytes().escape_ascii(), name = .name.as_bytes().escape_ascii())]
pub struct NamedFault {
    pub kind: FaultKind,
    pub chip: Name,
    pub name: Name,
}

impl fmt::Debug for NamedFault {
    fn fmt<W: fmt::Write>(&self, f: &mut fmt::Formatter<W>) -> fmt::Result {
        fmt::Display::fmt(self, f)
    }
}

impl NamedFault {
    /// The diagnostic of the fault, beside the path of its chip's text.
    pub fn diagnostic(self) -> Diagnostic
        ensures { result ≡ named_message self }
    {
        Diagnostic::nowhere(self.kind.word(), Detail::Name(self.name.into_bytes()))
    }
}

/// Why a chip is not elaborated.
#[derive(Debug, Drop, Error)]
pub enum ElabFault {
    #[error("want of memory")]
    Memory,
    #[error(transparent)]
    Named(NamedFault),
}

impl From<AllocError> for ElabFault {
    ghost from_gives = { λ _ e. e ≡ Memory };

    fn from(_e: AllocError) -> ElabFault {
        ElabFault::Memory
    }
}

fn name_fault(
    alloc: Global,
    kind: FaultKind,
    chip: &[u8],
    name: &[u8],
) -> Result<NamedFault, AllocError>
    ensures { IfOk result (λ f. f ≡ fault_in chip.now kind name.now) }
{
    let chip = Name::from_bytes(alloc, chip)?;
    let name = Name::from_bytes(alloc, name)?;
    Ok(NamedFault { kind, chip, name })
}

/// What is wrong.
pub(crate) fn fault_of(alloc: Global, kind: FaultKind, chip: &[u8], name: &[u8]) -> ElabFault
    ensures { Tells (λ f. f ≡ fault_in chip.now kind name.now) result }
{
    match name_fault(alloc, kind, chip, name) {
        Ok(fault) => ElabFault::Named(fault),
        Err(_) => ElabFault::Memory,
    }
}

/// Tells what is wrong.
pub(crate) fn tell(
    alloc: Global,
    kind: FaultKind,
    chip: &[u8],
    name: &[u8],
) -> Result<(), ElabFault>
    ensures { Checks (Some (fault_in chip.now kind name.now)) result }
{
    Err(fault_of(alloc, kind, chip, name))
}
