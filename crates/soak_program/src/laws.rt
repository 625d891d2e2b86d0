//! Laws of the generator.

ghost use Rattle.soak_program.specs.Laws.{LengthLaw, OneTextLaw};
ghost use Rattle.soak_program.specs.Rows.{RowsLaw};

/// In each state a program is generated, and no second one.
pub fn one_text_law()
    ensures { OneTextLaw }
{}

/// No text is longer than 1,169 bytes.
pub fn length_law()
    ensures { LengthLaw }
{}

/// The first draws of the first program of seed 1.
pub fn rows_law()
    ensures { RowsLaw }
{}
