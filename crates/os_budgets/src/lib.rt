//! The words of the operating system in an image.
#![tactic(auto)]

ghost use Rattle.os_budgets.specs.Laws.{EachFolderLaw, EachLaw, EmptyLaw};

/// The program of an empty class, with the operating system, has a budget of 8,140 words.
pub fn empty_law()
    ensures { EmptyLaw }
{}

/// The program of a class whose calls lead to every subroutine of the operating system has a budget of 18,717 words.
pub fn each_law()
    ensures { EachLaw }
{}

/// Besides its own subroutines the program of a folder has a budget of at most 17,498 words, whatever the folder is.
pub fn each_folder_law()
    ensures { EachFolderLaw }
{
    tower::resolved_law();
}
