//! In each class that a text spells the places of what it declares and uses rise in the order of the text. So the first fault of names is
//! the first by its place. No code, only laws.
#![tactic(auto)]

ghost use Rattle.jack_places.specs.Rising.{RisesLaw, FirstLaw};

/// Law: in files that texts spell places rise from name to name.
pub fn rises_law()
    ensures { RisesLaw }
{}

/// Law: where each file of the folder is spelled by a text, the first fault of names is the first by file, place and kind.
pub fn first_law()
    ensures { FirstLaw }
{
    jack_names::names_law();
}
