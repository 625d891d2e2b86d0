//! What holds of the instruction machine holds of the Computer.

ghost use Rattle.gate_computer.specs.Elaborated.{BuildableLaw};
ghost use Rattle.gate_computer.specs.Laws.{GatesLaw, SeenLaw};
ghost use Rattle.gate_computer.specs.Nodes.{NodesLaw};

/// Every behaviour of the Computer is seen as the instruction machine is. Its counted steps, the keys heard, its control point and the words of main
/// memory and screen are equal at each cycle.
pub fn seen_law()
    ensures { SeenLaw }
{}

/// Where the run of the instruction machine follows a meaning, with states of any type, so does every behaviour of the Computer that is long enough.
pub fn gates_law<S>()
    ensures { GatesLaw S }
{}

/// How many nodes the Computer needs, with its memories as blocks and with memories of gates. No shipped chip needs more, and none has a
/// fault of its texts, a loop or too many nodes.
pub fn nodes_law()
    ensures { NodesLaw }
{}

/// The Computer among the shipped chips has all that a netlist of it asks for, with its memories as blocks and with memories of gates.
pub fn buildable_law()
    ensures { BuildableLaw }
{}
