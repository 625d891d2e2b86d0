//! Test scripts: what a script puts on out and on err, as definitions, what its variables stand for, and what it drives. (The book, appendix 3.)
#![tactic(auto)]

ghost use Rattle.tst_runner.specs.Rows.{ScriptRowsLaw};

mod acts;
mod building;
mod commands;
mod directories;
mod files;
mod gathering;
mod lines;
mod loading;
mod printing;
mod script;
mod standing;
mod tables;

pub use script::{ScriptError, Verdict, run_script};
pub use standing::Difference;

/// Small scripts.
pub fn rows_law()
    ensures { ScriptRowsLaw }
{}
