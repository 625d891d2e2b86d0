//! The text of what a test script puts: columns, heads, and lines that are compared. (The book, appendix 3.)
#![tactic(auto)]

ghost use Rattle.script_columns.specs.Columns.{WidthLaw};
ghost use Rattle.script_columns.specs.Rows.{RowsLaw};

mod columns;
mod comparison;
mod layout;

pub use columns::{head_line, push_cell, push_column, push_head, value_line, value_text};
pub use comparison::{agrees, agrees_first, past_line, past_lines};
pub use layout::{Cell, Format, Head, Layout, Value};

/// A column of values is as wide as that of its name.
pub fn width_law()
    ensures { WidthLaw }
{}

/// Lines of a few scripts.
pub fn rows_law()
    ensures { RowsLaw }
{}
