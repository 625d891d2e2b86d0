//! Laws of the operating system's kernel: multiplication, division and the heap, in the meaning of Jack (book, chapter
//! 12).
#![tactic(auto)]

mod laws;
mod meaning;
mod names;
mod stepping;

pub use laws::{
    divide_law, divide_zero_law, full_law, heap_law, heap_start_law, multiply_law, size_law,
};
pub use meaning::{
    alloc_meaning, distinct_meaning, divide_meaning, error_meaning, free_meaning, heap_rows,
    init_meaning, multiply_meaning, run_rows, step_rows, store_meaning,
};
pub use names::{heap_run_law, kernel_law, named_law, shipped_law};
