//! What the debugger knows of a program: the places of its image, with the names of its text. And laws of what it shows of a computer
//! whose memory holds a state of the virtual machine, and of the state of the program's meaning that it matches.
#![tactic(auto)]

ghost use Rattle.vm_debug.specs.Program.{PlacesLaw, SamePlacesLaw};
ghost use Rattle.vm_debug.specs.Numbers.{NumbersLaw, StandingLaw};
ghost use Rattle.vm_debug.specs.Laws.{ViewOfLaw, WalkOfLaw};
ghost use Rattle.vm_debug.specs.Linked.{LinkedLaw};

mod built;
mod places;

pub use built::program_places;
pub use places::places_of;

/// Law: where the memory holds a state, and the places are those of the image, the walk of the memory's words is the view of the
/// state.
pub fn walk_of_law()
    ensures { WalkOfLaw }
{}

/// Law: where the memory holds a state that matches one of the program's meaning, the walk of the memory's words is the view of the
/// meaning's state.
pub fn view_of_law()
    ensures { ViewOfLaw }
{}

/// Law: the places of a program's classes, of its linked code and of its image are those of the program, and name its variables.
pub fn places_law()
    ensures { PlacesLaw }
{}

/// Law: classes that mean the same as abstract syntax have the same places.
#[tactic(auto, using(crate::proofs::SeenPlaces::same_places))]
pub fn same_places_law()
    ensures { SamePlacesLaw }
{}

/// Law: the linked subroutines are exactly those that have a point, in order of their first address.
pub fn linked_law()
    ensures { LinkedLaw }
{}

/// Law: a number is that of one statement of a body, and the place of this number is that of its first token. Each statement of
/// the body's meaning stands at the place of its number. So a range of the image is at the place where the statement of its
/// point stands.
pub fn numbers_law()
    ensures numbers { NumbersLaw }
    ensures standing { StandingLaw }
{}
