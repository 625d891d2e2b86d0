//! The compiler of the book's chapters 10 and 11: the virtual machine's program of a program with resolved names, and that
//! its linked code does what the program means.
//!
//! `compile` makes the program; what it is stands in `specs/`: `Lines` (the templates, with names) and `Files`. Of the other definitions
//! `Postfix` has the lines of each part of an expression, and `Templates` the code that linking makes of the templates. `Fits` says what a
//! program with resolved names meets as far as it is linked, and `Resolved` what the checks of names see to. `Places` and `Match` say which
//! states of the meaning and of the virtual machine match. Beside them stand `Astray`, `Runs`, `Linked`, `Laws`, `Rows` and `Small`.
//! `link_core` compiles only what `reached` finds (`Inner`: `Searched`, `Hollow`). The functions that are laws do nothing; their contracts say
//! what holds of the definitions.
#![tactic(auto)]

ghost use Rattle.jack_compiler.specs.Laws.{SimulationLaw};
ghost use Rattle.jack_compiler.specs.Linked.{CodeIsUniform, CompiledLaw};
ghost use Rattle.jack_compiler.specs.Rows.{RowsLaw};
ghost use Rattle.jack_compiler.specs.Runs.{VmRunLaw};
ghost use Rattle.jack_compiler.specs.Seen.{SeenLaw};
ghost use Rattle.jack_compiler.specs.Small.{SmallLaw};

mod bodies;
mod expressions;
mod lines;
mod linking;
mod program;
mod reached;

pub use linking::link_core;
pub use program::compile;

/// Each step of a program's meaning is made by commands of the virtual machine that runs its code. The last of them alone is a
/// commit, and they are within the gap less 16. Where the meaning strays, the machine does in the same way, at the same
/// address. Matching states have one point; the machine has no more words on the stack than the meaning, and about as many.
pub fn simulation_law()
    ensures { SimulationLaw }
{}

/// Matching states show the same: the point, the variables and statics, and where the callers go on.
pub fn seen_law()
    ensures { SeenLaw }
{}

/// After any number of moves of the virtual machine over a program's code, heap and screen and the point are those of the
/// meaning after as many steps as there were commits. The machine goes on where the meaning does, and ends or strays only
/// where the meaning does.
pub fn vm_run_law()
    ensures { VmRunLaw }
{}

/// Where a program's names are resolved, what linking answers for its compiled files is the code of just the subroutines that
/// the program can come to, and the program fits. The only fault of linking is that there are too many static words.
pub fn compiled_law()
    ensures { CompiledLaw }
{}

/// Small subroutines have the code that the templates of chapters 7 to 11 say, and there is a program with code
/// that `simulation_law` speaks of.
pub fn rows_law()
    ensures { RowsLaw }
{}

/// Small subroutines have the VM text that the templates say, and there is a program whose names are resolved as
/// `compiled_law` wants.
pub fn small_law()
    ensures { SmallLaw }
{}

/// In the linked code of each program the calls, the returns and the comparisons end steps of the meaning, all of them.
pub fn uniform_law()
    ensures { CodeIsUniform }
{}
