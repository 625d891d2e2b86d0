//! Laws of the printed form of a Jack class: its text spells that class but for places. No code, only laws.
#![tactic(auto)]

ghost use Rattle.print_laws.specs.Reprinted.{PrintLaw};
ghost use Rattle.print_laws.specs.Rows.{PrintRows};

/// Law: the printed form of a class that a text can hold spells that class but for places, and no other.
pub fn print_law()
    ensures { PrintLaw }
{
    jack_parser::class_law();
    jack_parser::spelled_law();
    jack_parser::printed_class_law();
}

/// Row: a class that was made by code, its printed form, and the class that this spells.
pub fn rows_law()
    ensures { PrintRows }
{}
