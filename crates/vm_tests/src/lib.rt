//! Tests of the virtual machine: its trees and texts, linking, the machine, and the translation to the computer (book,
//! chapters 7 and 8).
#![tactic(auto)]

#[cfg(test)]
mod checks;
#[cfg(test)]
mod linking;
#[cfg(test)]
mod programs;
#[cfg(test)]
mod reading;
#[cfg(test)]
mod stepping;
#[cfg(test)]
mod translating;
