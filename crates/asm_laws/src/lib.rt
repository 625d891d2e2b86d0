//! What assembly means, in the words of the book: labels, variables and predefined symbols have their values, and a
//! program its words or its first fault. No code, only laws.
#![tactic(auto)]

ghost use Rattle.asm_laws.specs.Assembly.{AssemblyLaw, TextLaw};
ghost use Rattle.asm_laws.specs.Rows.{AssemblyRows};

/// Law: what the assembler's two passes give for the lines of a program is what the values of its symbols say, and
/// nothing else.
pub fn assembly_law()
    ensures lines { AssemblyLaw }
    ensures texts { TextLaw }
{}

/// Rows: small programs and their words, by computation.
pub fn rows_law()
    ensures { AssemblyRows }
{}
