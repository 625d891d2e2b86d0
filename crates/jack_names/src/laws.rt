//! What holds of the names of every program.

ghost use Rattle.jack_names.specs.Existence.{ExistenceLaw};
ghost use Rattle.jack_names.specs.Laws.{NamesLaw, MeantLaw};
ghost use Rattle.jack_names.specs.Rows.{NameRows};

/// The first fault of a program's names is the one that fails and that comes before every other. There is no first fault
/// exactly where none of the fourteen kinds fails. Small programs, with the first of their faults.
pub fn names_law()
    ensures law { NamesLaw }
    ensures rows { NameRows }
{}

/// The program that classes mean is the one that their abstract syntax means.
pub fn meant_law()
    ensures { MeantLaw }
{}

/// Each class is what some tree says, and classes mean some program, unless they are longer than any memory.
pub fn existence_law()
    ensures { ExistenceLaw }
{}
