//! The operating system is well named by itself, whatever the folder's classes are. No code, only a law.
#![tactic(auto)]

ghost use Rattle.os_named.specs.Laws.{SystemNamedLaw};

/// Law: the first name fault of a program is reported of its folder. Where none is reported of the folder, there is
/// no fault.
pub fn system_named_law()
    ensures { SystemNamedLaw }
{}
