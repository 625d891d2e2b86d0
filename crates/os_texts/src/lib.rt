//! What else of the operating system's texts is fixed: how it starts, and the static of Memory. No code, only a law.
#![tactic(auto)]

ghost use Rattle.os_texts.specs.Texts.{FixedTextsLaw};

/// Law: in the classes that the shipped texts spell, Sys.init and the static of Memory are these.
pub fn texts_law()
    ensures { FixedTextsLaw }
{}
