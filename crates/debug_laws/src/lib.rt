//! Laws of what the debugger shows of a computer that runs a program.
#![tactic(auto)]

ghost use Rattle.debug_laws.specs.Debugged.{DebuggedLaw, DebuggedProgramLaw};
ghost use Rattle.debug_laws.specs.Shown.{ClassPlacesLaw};

/// Law: just after a commit, as long as the meaning is tame, the debugger's walk of the computer's words is the view of
/// the meaning's state. A view has the point, `this`, arguments, locals, statics and callers. So it is with any places
/// of the image, and with the places of the program.
pub fn debugged_law()
    ensures image { DebuggedLaw }
    ensures program { DebuggedProgramLaw }
{}

/// Law: the places of a folder's classes, which texts spell, are those of the program that they mean. Each address has
/// its control point, each subroutine the names of its variables, and each static the address of the word that stands
/// for it.
pub fn class_places_law()
    ensures { ClassPlacesLaw }
{
    tower::resolved_law();
}
