//! The program, as it is tried.
use line_trials::Program;
use nand_cli::run;
use outer_world::{MemoryShelf, MemorySink};
use std::alloc::Global;

/// The program.
pub struct Nand;

impl Program for Nand {
    fn call(
        &self,
        alloc: Global,
        words: &[String],
        shelf: &mut MemoryShelf,
        out: &mut MemorySink,
        err: &mut MemorySink,
    ) -> u8 {
        run(alloc, words, shelf, out, err).code()
    }
}
