//! Tests of elaborated chips (book, chapters 1 to 5): why a chip has no netlist, what chips do in the simulator, and
//! the Computer made of gates.
#![tactic(auto)]

#[cfg(test)]
mod bench;
#[cfg(test)]
mod checks;
#[cfg(test)]
mod chips;
#[cfg(test)]
mod connections;
#[cfg(test)]
mod deep;
#[cfg(test)]
mod memories;
#[cfg(test)]
mod ordering;
#[cfg(test)]
mod refusals;
#[cfg(test)]
mod running;
#[cfg(test)]
mod wide;
