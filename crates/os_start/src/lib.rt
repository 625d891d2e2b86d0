//! From the start of a program to its Main.main: tame steps, and a number of cycles of the computer (book, chapters 4,
//! 5, 8, 11 and 12).
#![tactic(auto)]

ghost use Rattle.os_start.specs.Laws.{ReachedLaw, ShippedLaw, TameLaw};

/// Of the 1,735 steps that lead to Main.main all but the last are tame, whatever the program is.
pub fn tame_law()
    ensures { TameLaw }
{}

/// The computer with the image of a program is at Main.main within 200,000 cycles, whatever keys are held. Heap and
/// screen are those of the meaning there.
pub fn reached_law()
    ensures reached { ReachedLaw }
    ensures shipped { ShippedLaw }
{
    tower::resolved_law();
}
