//! Laws of plans and of loops.

ghost use Rattle.hdl_plans.specs.Planned.{PlanLaw, SoundLaw};
ghost use Rattle.hdl_plans.specs.Rows.{RowsLaw};
ghost use Rattle.hdl_plans.specs.Ways.{CircleLaw, FitLaw, RankLaw};

/// A chip without faults that is no end has the plan of its text.
pub fn plan_law()
    ensures { PlanLaw }
{}

/// A chip of the library without faults is sound: its parts nest no deeper than there are chips, and each has the plan of its text.
pub fn sound_law()
    ensures { SoundLaw }
{}

/// In a chip without faults connections join bits of pins that the parts have.
pub fn fit_law()
    ensures { FitLaw }
{}

/// There is a circle of bits in a tree exactly where the own graph of a chip in it has one, and one in each walk that comes back.
pub fn circle_law()
    ensures { CircleLaw }
{}

/// Where the bits of each chip's own graph can be put in order, there is no loop.
pub fn rank_law()
    ensures { RankLaw }
{}

/// Facts about small chips: the sizes of memories, inputs and outputs that nothing is joined to, and loops.
pub fn rows_law()
    ensures { RowsLaw }
{}
