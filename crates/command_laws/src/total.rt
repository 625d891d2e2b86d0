//! Over known files a line has an answer.
ghost use Rattle.command_laws.specs.Answered.{AnsweredLaw, ChipAnsweredLaw, ClassesAnsweredLaw, FileAnsweredLaw, FolderAnsweredLaw, FolderMeansLaw, SoakAnsweredLaw, VmAnsweredLaw};

/// Law: over known files a line that reads one file prints a text or is refused, or its file is not there.
pub fn file_answered_law()
    ensures { FileAnsweredLaw }
{
    hack_asm::assembly_total_law();
    hack_asm::hack_total_law();
    vm_parser::total_law();
    jack_parser::total_law();
    hdl_parser::total_law();
}

/// Law: over known files a line of `vm` prints a text or is refused.
pub fn vm_answered_law()
    ensures { VmAnsweredLaw }
{
    vm_parser::total_law();
    vm_translator::size_law();
}

/// Law: a line of `chip` prints a chip or is refused.
pub fn chip_answered_law()
    ensures { ChipAnsweredLaw }
{}

/// Law: a folder whose files are known has classes that are well named, or is refused.
pub fn folder_answered_law()
    ensures { FolderAnsweredLaw }
{
    jack_parser::total_law();
    jack_places::first_law();
    jack_os::system_law();
}

/// Law: a folder with well named classes means a program.
pub fn folder_means_law()
    ensures { FolderMeansLaw }
{
    tower::program_law();
}

/// Law: over known files each line that reads the Jack classes of a folder has an answer.
pub fn classes_answered_law()
    ensures { ClassesAnsweredLaw }
{
    tower::resolved_law();
    jack_compiler::compiled_law();
    vm_translator::size_law();
    key_script::total_law();
    hack_cpu::runs_law();
    folder_answered_law();
    folder_means_law();
}

/// Law: a line of `soak` prints a summary or is refused.
pub fn soak_answered_law()
    ensures { SoakAnsweredLaw }
{
    soak_program::one_text_law();
    classes_answered_law();
}

/// Law: over known files each line that is no test script has an answer.
pub fn answered_law()
    ensures { AnsweredLaw }
{
    classes_answered_law();
    file_answered_law();
    vm_answered_law();
    chip_answered_law();
    soak_answered_law();
}
