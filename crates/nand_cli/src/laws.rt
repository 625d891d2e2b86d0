//! The law of lines with which nothing is wrong, rows of what it wants, and the law of how many moves a run reports. (The
//! other laws of lines stand in `command_laws`.)
ghost use Rattle.nand_cli.specs.Complete.{SoundLaw};
ghost use Rattle.nand_cli.specs.CompleteRows.{CompleteRows};
ghost use Rattle.nand_cli.specs.Commands.Run.{RunIsShort};

/// Law: over known files a line that reads Jack classes, and with which nothing is wrong, is not refused.
pub fn sound_law()
    ensures { SoundLaw }
{
    jack_parser::class_law();
    key_script::reading_law();
    tower::resolved_law();
    tower::budget_law();
    os_named::system_named_law();
}

/// Law: what a run prints reports as many moves at most as are asked for.
pub fn short_run_law()
    ensures { RunIsShort }
{}

/// Rows: VM files with as many static words as there is room for, and a program with as many words of budget, by
/// computation.
#[tactic(auto, using(crate::proofs::CompleteRows::rows))]
pub fn complete_rows()
    ensures { CompleteRows }
{}
