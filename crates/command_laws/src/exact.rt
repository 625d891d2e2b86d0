//! Over known files a line has at most one answer.
ghost use Rattle.command_laws.specs.Exact.{ChipExactLaw, ClassesExactLaw, ExactLaw, FileExactLaw, OneProgramLaw, SoakExactLaw, TestExactLaw, VmExactLaw};

/// Law: over known files a line that reads the Jack classes of a folder prints at most one text, is refused with at
/// most one line, and not both. What `--show nets` prints is left open.
pub fn classes_exact_law()
    ensures { ClassesExactLaw }
{
    jack_parser::class_law();
    key_script::reading_law();
}

/// Law: so does a line that reads one file.
pub fn file_exact_law()
    ensures { FileExactLaw }
{
    hack_asm::assembly_law();
    hack_asm::hack_law();
    vm_parser::reading_law();
    jack_parser::class_law();
    hdl_parser::reading_law();
}

/// Law: so does a line of `vm`.
pub fn vm_exact_law()
    ensures { VmExactLaw }
{
    vm_parser::reading_law();
}

/// Law: so does a line of `chip`.
#[tactic(auto, using(crate::proofs::Exactly::chip_exact))]
pub fn chip_exact_law()
    ensures { ChipExactLaw }
{}

/// Law: so does a line of `soak`.
pub fn soak_exact_law()
    ensures { SoakExactLaw }
{
    jack_parser::class_law();
    soak_program::one_text_law();
    classes_exact_law();
}

/// Law: over known files a test script prints at most one thing. It is refused for at most one, but for the nets of a
/// loop, and differs in at most one line. It is at most one of these.
pub fn test_exact_law()
    ensures { TestExactLaw }
{
    script_laws::script_exact_law();
}

/// Law: over known files a line that is no test script prints at most one thing, is refused for at most one, and not
/// both. What `--show nets` prints is left open.
pub fn exact_law()
    ensures { ExactLaw }
{
    classes_exact_law();
    file_exact_law();
    vm_exact_law();
    chip_exact_law();
    soak_exact_law();
}

/// Law: a folder whose files are known means at most one program.
pub fn one_program_law()
    ensures { OneProgramLaw }
{
    jack_parser::class_law();
}
