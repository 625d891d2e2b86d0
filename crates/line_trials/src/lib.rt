//! Trials of lines: tables, as texts, of what a program does with lines over files and sinks in memory.
//!
//! The README says how a table is written.
#![tactic(auto)]

mod checking;
mod numbers;
mod outside;
mod pieces;
mod statuses;
mod tables;
mod trying;

pub use outside::{Fails, Outcome, Program, outcome_of, outcome_over};
pub use trying::{trials, trials_with};
