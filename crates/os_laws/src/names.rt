//! What the names of the kernel's routines lead to, and what holds over runs of programs that have them.

ghost use Rattle.os_laws.specs.NameLaws.{KernelLaw, NamedLaw, ShippedLaw, HeapRunLaw};

/// In a program that is well named, the names of a class of the operating system and of a routine in it lead to its
/// meaning.
pub fn named_law()
    ensures { NamedLaw }
{}

/// The kernel's routines mean the texts that the laws over the meaning speak of.
pub fn kernel_law()
    ensures { KernelLaw }
{}

/// What is resolved over the classes of the operating system as it is shipped has the kernel.
pub fn shipped_law()
    ensures { ShippedLaw }
{}

/// Wherever a run has come that stores only into blocks in use and the screen, and frees only blocks in use, it has a
/// heap.
pub fn heap_run_law()
    ensures { HeapRunLaw }
{}
