//! What the image of VM files does.
ghost use Rattle.command_laws.specs.VmDoes.{VmDoesLaw};

/// Law: the image of the program of a folder's VM files does what the program does.
pub fn vm_does_law()
    ensures { VmDoesLaw }
{}
