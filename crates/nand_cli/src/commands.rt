//! The commands: each does its line, and leaves to the caller what comes on err after a failure.
pub mod asm;
pub mod build;
pub mod chip;
pub mod compile;
pub mod debug;
pub mod exec;
pub mod map;
pub mod run;
pub mod show;
pub mod soak;
pub mod test;
pub mod vm;
