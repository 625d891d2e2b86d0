//! Laws of the lines that `nand_cli` does: over known files a line has at most one answer, and the image of a folder of
//! VM files does what its program does.
#![tactic(auto)]

mod exact;
mod images;
mod total;

pub use exact::{
    chip_exact_law, classes_exact_law, exact_law, file_exact_law, one_program_law, soak_exact_law,
    test_exact_law, vm_exact_law,
};
pub use images::vm_does_law;
pub use total::{
    answered_law, chip_answered_law, classes_answered_law, file_answered_law, folder_answered_law,
    folder_means_law, soak_answered_law, vm_answered_law,
};
