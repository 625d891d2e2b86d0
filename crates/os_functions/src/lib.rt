//! Laws of functions of the operating system, in the meaning of Jack (book, chapter 12).
#![tactic(auto)]

ghost use Rattle.os_functions.specs.MathLaws.{MathLaws, MathRows};
ghost use Rattle.os_functions.specs.MemoryLaws.{MemoryLaws, ArrayLaws};
ghost use Rattle.os_functions.specs.StringLaws.{StringLaws};
ghost use Rattle.os_functions.specs.ScreenLaws.{ScreenLaws};
ghost use Rattle.os_functions.specs.RectangleLaws.{RectangleLaws};
ghost use Rattle.os_functions.specs.LineLaws.{LineLaws};
ghost use Rattle.os_functions.specs.CircleLaws.{CircleLaws};
ghost use Rattle.os_functions.specs.CursorLaws.{CursorLaws};
ghost use Rattle.os_functions.specs.PrintLaws.{PrintLaws};
ghost use Rattle.os_functions.specs.ErrorLaws.{ErrorLaws};
ghost use Rattle.os_functions.specs.StartLaws.{StartLaws};
ghost use Rattle.os_functions.specs.Calls.{StaticLaws};

/// Math gives the distance from 0, the lesser, the greater and the root.
pub fn math_laws()
    ensures { MathLaws }
{}

/// Worked values of these functions.
pub fn math_rows()
    ensures { MathRows }
{}

/// Memory gives the word at an address, and sets it.
pub fn memory_laws()
    ensures { MemoryLaws }
{}

/// An array is a block of the heap, from its making until it is given back.
pub fn array_laws()
    ensures { ArrayLaws }
{}

/// A string has its characters in order, and room for more.
pub fn string_laws()
    ensures { StringLaws }
{}

/// A pixel drawn is that bit of that word.
pub fn screen_laws()
    ensures { ScreenLaws }
{}

/// A rectangle drawn is the points between its corners; the screen cleared is white.
pub fn rectangle_laws()
    ensures { RectangleLaws }
{}

/// A line drawn is the points beside the true line.
pub fn line_laws()
    ensures { LineLaws }
{}

/// A circle drawn is the points not farther from the centre than the radius.
pub fn circle_laws()
    ensures { CircleLaws }
{}

/// The cursor goes to a cell.
pub fn cursor_laws()
    ensures { CursorLaws }
{}

/// Characters are drawn in the cell of the cursor, which goes on.
pub fn print_laws()
    ensures { PrintLaws }
{}

/// The statics of which the laws speak are there.
pub fn static_laws()
    ensures { StaticLaws }
{}

/// An error prints its number, and then the program stands still.
pub fn error_laws()
    ensures { ErrorLaws }
{}

/// Each program comes to Main.main: the heap has the font alone, the screen is white and no key is read.
pub fn start_laws()
    ensures { StartLaws }
{}
