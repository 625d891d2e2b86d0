//! Laws of the summaries of generated programs: the levels of each agree as far as it is tame, and none is refused. No
//! code.
#![tactic(auto)]

ghost use Rattle.soak_outcome.specs.Fits.{FitsLaw};
ghost use Rattle.soak_outcome.specs.Laws.{AgreeLaw};
ghost use Rattle.soak_outcome.specs.Unrefused.{UnrefusedLaw};

/// Law: the image of a generated program is never too large.
pub fn fits_law()
    ensures { FitsLaw }
{
    jack_parser::printed_class_law();
    jack_parser::class_law();
    soak_program::length_law();
    tower::resolved_law();
    tower::budget_law();
    os_budgets::each_folder_law();
}

/// Law: a generated program agrees at the four levels as far as it is tame.
pub fn agree_law()
    ensures { AgreeLaw }
{
    tower::resolved_law();
    tower::computer_law();
    tower::vm_run_law();
    gate_computer::seen_law();
}

/// Law: no line of `soak` is refused.
pub fn unrefused_law()
    ensures { UnrefusedLaw }
{
    jack_parser::printed_class_law();
    jack_parser::class_law();
    soak_program::length_law();
    tower::resolved_law();
    soak_laws::spelled_law();
    soak_laws::named_law();
    fits_law();
}
