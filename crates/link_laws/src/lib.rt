//! What linking a VM program comes to, in words of its functions, labels and statics: each fault by itself, and which
//! is reported. No code, only laws.
#![tactic(auto)]

ghost use Rattle.link_laws.specs.Linking.{LinkingLaw};
ghost use Rattle.link_laws.specs.Rows.{LinkRows};

/// Law: what `link` answers is the linked code, or the first fault, each of which is reported by
/// itself.
pub fn link_law()
    ensures { LinkingLaw }
{}

/// Rows: small programs and their first faults, by computation.
pub fn rows_law()
    ensures { LinkRows }
{}
