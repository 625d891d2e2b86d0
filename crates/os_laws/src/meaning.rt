//! The same laws in the meaning, without a machine, and worked cases.

ghost use Rattle.os_laws.specs.Laws.{MultiplyLaw, DivideLaw, AllocLaw, FreeLaw, InitLaw, ErrorLaws, StoreLaw, DistinctLaw};
ghost use Rattle.os_laws.specs.Rows.{HeapRows};
ghost use Rattle.os_laws.specs.StepRows.{StepRows};
ghost use Rattle.os_laws.specs.RunRows.{RunRows};

/// A call of `Math.multiply` gives the product back.
pub fn multiply_meaning()
    ensures { MultiplyLaw }
{}

/// A call of `Math.divide` gives the quotient back.
pub fn divide_meaning()
    ensures { DivideLaw }
{}

/// A call of `Memory.init` lays the heap.
pub fn init_meaning()
    ensures { InitLaw }
{}

/// A call of `Memory.alloc` gives a block, where a free part is long enough, and the heap is a heap with it.
pub fn alloc_meaning()
    ensures { AllocLaw }
{}

/// A call of `Memory.deAlloc` takes a live block off.
pub fn free_meaning()
    ensures { FreeLaw }
{}

/// The calls whose first call is one of `Sys.error`.
pub fn error_meaning()
    ensures { ErrorLaws }
{}

/// A store into a live block's words or the screen keeps the heap.
pub fn store_meaning()
    ensures { StoreLaw }
{}

/// No free part comes twice in the list.
pub fn distinct_meaning()
    ensures { DistinctLaw }
{}

/// Heaps, right and wrong.
pub fn heap_rows()
    ensures { HeapRows }
{}

/// Worked calls.
pub fn step_rows()
    ensures { StepRows }
{}

/// A run that uses the heap, stores that use it well, and one that does not.
pub fn run_rows()
    ensures { RunRows }
{}
