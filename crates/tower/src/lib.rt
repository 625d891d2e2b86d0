//! The tower from the classes of a folder down to each machine.
#![tactic(auto)]

mod building;
mod compiled;
mod computer;
mod hack_level;
mod laws;
mod program;
mod sources;
mod vm_level;

pub use building::BuildError;
pub use compiled::compile_classes;
pub use computer::{build, prepare_hack};
pub use hack_level::HackLevel;
pub use laws::{
    behind_law, budget_law, computer_law, headline_law, one_program_law, program_law, read_law,
    resolved_law, vm_driven_law, vm_run_law,
};
pub use program::{ProgramError, program_of_classes};
pub use sources::classes_beside;
pub use vm_level::prepare_vm;
