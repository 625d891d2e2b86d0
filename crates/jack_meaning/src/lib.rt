//! The meaning of Jack programs: what each step of a program does, before any compiler or machine.
//!
//! The definitions are in `specs/`: `Text` has programs, `Words` operators, `Expressions` and `Meaning` the step,
//! and `StackWords` the room that calls want. `Level` has the meaning as a machine that moves in steps, and its runs
//! over keys. `Linked` has the subroutines that a program can come to, and `Gap` the bound on the length of a step
//! in machine code. Last come `Laws` and `Rows`. The two functions here do nothing; their contracts say what holds
//! of the definitions.
#![tactic(auto)]

ghost use Rattle.jack_meaning.specs.Laws.{MeaningLaw};
ghost use Rattle.jack_meaning.specs.Rows.{RowsLaw};

/// A step that does not hear the key is the same under every key. A program that has come to its end makes no step
/// under any key. The start is at `start 1`, and a program has one gap.
pub fn meaning_law()
    ensures { MeaningLaw }
{}

/// Small programs make the steps that the book's chapters 9 and 12 say. And what no code computes is so for small
/// cases: which keys are heard, the words of the stack, and how long a run is tame. So are how deep statements are
/// nested, which subroutines are linked, and the gap.
pub fn rows_law()
    ensures { RowsLaw }
{}
