//! Laws of what one netlist shows of another.

ghost use Rattle.net_simplify.specs.Same.{ItselfLaw};

/// A netlist in order shows of itself what it shows, of any nodes that it has.
pub fn itself_law()
    ensures { ItselfLaw }
{}
