//! Laws of elaborated chips, in pairs: two netlists of one chip show the same. No code, only laws.
#![tactic(auto)]

ghost use Rattle.elab_laws.specs.Same.{SameLaw};

/// Law: two elaborated netlists of a chip, one of them in order, show the same after calls that do the same.
pub fn same_law()
    ensures { SameLaw }
{}
