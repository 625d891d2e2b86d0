//! Tests of the Hack machine: words, instructions, assembly and steps (book, chapters 4 to 6).
#![tactic(auto)]

#[cfg(test)]
mod assembling;
#[cfg(test)]
mod checks;
#[cfg(test)]
mod instructions;
#[cfg(test)]
mod machine;
#[cfg(test)]
mod words;
