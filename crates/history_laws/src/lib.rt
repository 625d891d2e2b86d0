//! Laws of elaborated chips in whatever stands around them: keys, instruction memories and words before the first
//! cycle, each told by path. No code, only laws.
#![tactic(auto)]

ghost use Rattle.history_laws.specs.Laws.{EveryLaw, HistoryLaw, InputsLaw, OnlyLaw, WorldLaw};

/// Law: whatever comes in and stands in memories before the first cycle, the values of an elaborated chip's netlist are
/// a behaviour of the chip.
pub fn history_law()
    ensures { HistoryLaw }
{}

/// Law: each history of inputs and loaded words tells what is outside.
pub fn every_law()
    ensures { EveryLaw }
{}

/// Law: there are inputs and loaded words for each outside and for all bits of the chip's inputs.
pub fn inputs_law()
    ensures { InputsLaw }
{}

/// Law: each behaviour of the chip in which the same comes in shows the same.
pub fn only_law()
    ensures { OnlyLaw }
{}

/// Law: where keyboards, instruction memories and memories are told the same everywhere, and memories begin with zeros,
/// these are the behaviours in a world.
pub fn world_law()
    ensures { WorldLaw }
{}
