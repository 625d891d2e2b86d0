//! Statics, choices, loops and sections, which the code counts in 31 or 32 bits: the limits of texts and folders keep
//! each below 2^31 or 2^32. No code, only laws.
#![tactic(auto)]

ghost use Rattle.count_laws.specs.Counts.{ProgramLaw, StaticsLaw, VmLaw};

/// Law: the statics of a folder's classes and of the operating system's are fewer than 2^31.
pub fn statics_law()
    ensures { StaticsLaw }
{
    tower::read_law();
}

/// Law: so are those of each program, and its sections, and the choices and loops of a subroutine, are fewer than 2^32.
pub fn program_law()
    ensures { ProgramLaw }
{
    tower::read_law();
    tower::resolved_law();
}

/// Law: the sections of a folder's VM files are fewer than 2^32.
pub fn vm_law()
    ensures { VmLaw }
{}
