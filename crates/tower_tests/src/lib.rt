//! Tests of the tower: programs from their classes down to each machine.
#![tactic(auto)]

#[cfg(test)]
mod checks;
#[cfg(test)]
mod programs;
#[cfg(test)]
mod resolving;
