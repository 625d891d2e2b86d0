//! A small program from its texts to its meaning, by computation. No code, only a law.
#![tactic(auto)]

ghost use Rattle.core_rows.specs.Rows.{MeansRow};

/// Row: the texts of a small program spell classes that are well named, and mean the program that is written out.
pub fn rows_law()
    ensures { MeansRow }
{}
