//! What it means that one machine does what another does, step by step, and that such layers compose: the
//! definitions are in `specs/`. The law is for states of any three types, and for relations between them that a
//! test decides, since a clause cannot speak of every relation. The proofs for those are in `proofs/`.
#![tactic(auto)]

ghost use Rattle.simulation.specs.Laws.{LayersCompose, RunsFollow, RunsMeet, CountsAreTold};
ghost use Rattle.simulation.specs.Rows.{RowsLaw};

/// Two layers, one on the other, are one layer. A machine that carries the run of a program's meaning agrees
/// with it at each cycle, and makes each of its steps within the gap. After each commit it is in a state that
/// is related to the meaning's. What is counted of a run up to a cycle depends on the cycles so far alone.
pub fn layers_law<U, V, L>()
    ensures compose { LayersCompose U V L }
    ensures follow { RunsFollow U L }
    ensures meet { RunsMeet U L }
    ensures counts { CountsAreTold }
{}

/// What is counted of a short run: its steps, the keys heard and the points, cycle by cycle.
pub fn rows_law()
    ensures { RowsLaw }
{}
