//! What a debugger shows of a computer that runs a program: the variables of the innermost call, and its callers.
//!
//! It reads the words of the computer's memory and the program's `Places`, and nothing else. What it reads there is `Walk`
//! in `specs/`, which says it of any words, also of those of a stack that a program has overwritten.
#![tactic(auto)]

ghost use Rattle.jack_debug.specs.Laws.{ByNameLaw, WalkLaw};
ghost use Rattle.jack_debug.specs.Rows.{RowsLaw};

mod map_printing;
mod order;
mod places;
mod printing;
mod seen;
mod statements;
mod walking;
mod words;

pub use map_printing::print_map;
pub use order::classes_by_name;
pub use places::{ClassPlaces, PlacedRange, PlacedStatic, Places, SubPlaces};
pub use printing::print_view;
pub use seen::{Caller, Variable, View};
pub use statements::subroutine_places;
pub use walking::view;
pub use words::Words;

/// Law: at each address a memory has at most one view, with at most 358 callers, and it depends on the words from 0 to 24575
/// alone.
pub fn walk_law()
    ensures { WalkLaw }
{}

/// Law: classes by name are in order of name, and they are those that have a linked subroutine, each once.
pub fn by_name_law()
    ensures { ByNameLaw }
{}

/// Law: the order of some classes, and the places of nested statements.
pub fn rows_law()
    ensures { RowsLaw }
{}
