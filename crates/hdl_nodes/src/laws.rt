//! Laws of numberings.

ghost use Rattle.hdl_nodes.specs.Numbering.{NumberingLaw};
ghost use Rattle.hdl_nodes.specs.Renaming.{RenamingLaw};

/// The values of a netlist at the nodes of a numbering of a chip are a behaviour of the chip.
pub fn numbering_law()
    ensures { NumberingLaw }
{}

/// The places of the nodes of a numbering are a numbering in the netlist whose nodes have these places.
pub fn renaming_law()
    ensures { RenamingLaw }
{}
