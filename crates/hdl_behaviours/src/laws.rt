//! Laws of behaviours and of loops, and what the two tests show.

ghost use Rattle.hdl_behaviours.specs.Existence.{ExistLaw};
ghost use Rattle.hdl_behaviours.specs.Laws.{CleanLaw, LevelLaw};
ghost use Rattle.hdl_behaviours.specs.Loopless.{LooplessLaw};
ghost use Rattle.hdl_behaviours.specs.Reads.{ReadsLaw};
ghost use Rattle.hdl_behaviours.specs.Rows.{RowsLaw};

/// A chip of the library without faults and without a loop has a behaviour, whatever comes in.
pub fn exist_law()
    ensures { ExistLaw }
{}

/// A chip of the library without faults that has a numbering in a netlist in order has no loop.
pub fn loopless_law()
    ensures { LooplessLaw }
{}

/// A chip of the library without faults has a loop, where nodes of its numbering have a circle of reads within a cycle.
pub fn reads_law()
    ensures { ReadsLaw }
{}

/// Ends as they are shipped have the pins that the laws ask for.
pub fn rows_law()
    ensures { RowsLaw }
{}

/// Where the text of each chip of a library passes the test, and parts stand before the chips that have them, none has a fault.
pub fn clean_law()
    ensures { CleanLaw }
{}

/// Where the chips of such a library have levels that rise, none has a loop, and outputs depend on inputs at most as a table says.
pub fn level_law()
    ensures { LevelLaw }
{}
