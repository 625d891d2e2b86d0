//! Tests of the generator: whole texts.
#![tactic(auto)]

#[cfg(test)]
mod texts;
