//! Laws: no code, only the statements.

ghost use Rattle.tower.specs.Budget.{BudgetLaw};
ghost use Rattle.tower.specs.BudgetRows.{BudgetRows};
ghost use Rattle.tower.specs.Existence.{ProgramLaw};
ghost use Rattle.tower.specs.Image.{ComputerLaw};
ghost use Rattle.tower.specs.Headline.{BehindLaw, HeadlineLaw};
ghost use Rattle.tower.specs.OneProgram.{OneProgramLaw};
ghost use Rattle.tower.specs.Resolved.{ResolvedLaw};
ghost use Rattle.tower.specs.Spelled.{ReadLaw};
ghost use Rattle.tower.specs.VmRun.{DrivenLaw, VmLaw};

/// Each class that some text spells keeps to the limits of the language: its names, its integers and its strings, and how
/// many things it declares.
pub fn read_law()
    ensures { ReadLaw }
{}

/// A well named program of spelled classes is one whose names are resolved: each name in it is there, and the
/// names of its subroutines are apart.
pub fn resolved_law()
    ensures { ResolvedLaw }
{}

/// Well named classes that texts spell mean a program.
pub fn program_law()
    ensures { ProgramLaw }
{
    jack_names::existence_law();
}

/// Classes with the same abstract syntax mean one program, with the same names.
pub fn one_program_law()
    ensures { OneProgramLaw }
{}

/// The computer with the image of a program follows the program's meaning, cycle by cycle, under all keys.
pub fn headline_law()
    ensures { HeadlineLaw }
{}

/// The image of a program whose names are resolved, with its map, is one with which the computer follows the program's meaning.
pub fn computer_law()
    ensures { ComputerLaw }
{}

/// A virtual machine that was driven from its start has made the moves of the run of its code under the keys. It has counted
/// the commits among them, and has ended as the run does.
pub fn vm_driven_law()
    ensures { DrivenLaw }
{}

/// The virtual machine with the code of a program whose names are resolved follows the program's meaning, after any number of
/// moves and under all keys.
pub fn vm_run_law()
    ensures { VmLaw }
{}

/// A program has one budget by its text, and its image has no more words. The budgets of three programs, by
/// computation.
pub fn budget_law()
    ensures budgets { BudgetLaw }
    ensures rows { BudgetRows }
{}

/// Law: just after a commit, as long as the meaning is tame, the computer holds a state of the virtual machine that matches
/// the meaning's.
pub fn behind_law()
    ensures { BehindLaw }
{}
