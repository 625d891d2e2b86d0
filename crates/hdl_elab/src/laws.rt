//! Laws of elaborated chips.

ghost use Rattle.hdl_elab.specs.Behaviour.{BehaviourLaw};
ghost use Rattle.hdl_elab.specs.Directory.{ThereLaw};
ghost use Rattle.hdl_elab.specs.Elaborated.{ElaboratedLaw};
ghost use Rattle.hdl_elab.specs.Hearing.{DirectoryLaw, EndAloneLaw, HearingLaw};
ghost use Rattle.hdl_elab.specs.Orderly.{OrderlyLaw};

/// A flat chip without faults and without a loop can be put in order.
pub fn orderly_law()
    ensures { OrderlyLaw }
{}

/// A flat chip whose nodes stand at other places, in order, is elaborated.
pub fn elaborated_law()
    ensures { ElaboratedLaw }
{}

/// The values of the netlist of an elaborated chip, at the nodes that its directory names, are a behaviour of the chip.
pub fn behaviour_law()
    ensures { BehaviourLaw }
{}

/// What the ends in the directory are given is what the world gives to the ends in the chip.
pub fn hearing_law()
    ensures { HearingLaw }
{}

/// Where the ends in the directory are given what the world gives, the values of the netlist, at the nodes that the directory names, are a behaviour
/// of the chip.
pub fn directory_law()
    ensures { DirectoryLaw }
{}

/// Let a chip that is an end itself be given what the world gives it. Then the values of the netlist, at the nodes of its pins, are a behaviour of
/// the chip.
pub fn end_alone_law()
    ensures { EndAloneLaw }
{}

/// What the directory of an elaborated chip names is there, and the nodes of the chip's inputs come in from outside.
pub fn there_law()
    ensures { ThereLaw }
{}
