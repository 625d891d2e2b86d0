//! What holds of generated programs: their texts spell classes, which are well named and mean programs. No code, only
//! laws.
#![tactic(auto)]

ghost use Rattle.soak_laws.specs.Meant.{MeantLaw};
ghost use Rattle.soak_laws.specs.Named.{NamedLaw};
ghost use Rattle.soak_laws.specs.Spelled.{SpelledLaw};

/// Law: the text of each generated program spells a class.
pub fn spelled_law()
    ensures { SpelledLaw }
{
    jack_parser::printed_class_law();
    soak_program::length_law();
}

/// Law: the class that the text of a generated program spells is well named beside those of the operating system.
pub fn named_law()
    ensures { NamedLaw }
{
    jack_parser::printed_class_law();
    jack_parser::class_law();
    soak_program::length_law();
}

/// Law: in a folder with no other class it means a program.
pub fn meant_law()
    ensures { MeantLaw }
{
    named_law();
    jack_os::system_law();
    tower::program_law();
}
