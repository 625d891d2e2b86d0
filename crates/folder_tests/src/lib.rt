//! Tests of whole lines of the program over folders of classes, with a shelf and sinks in memory.
#![tactic(auto)]

#[cfg(test)]
mod building;
#[cfg(test)]
mod checks;
#[cfg(test)]
mod computing;
#[cfg(test)]
mod debugging;
#[cfg(test)]
mod folders;
#[cfg(test)]
mod mapping;
#[cfg(test)]
mod names;
#[cfg(test)]
mod nand;
#[cfg(test)]
mod pieces;
#[cfg(test)]
mod replacing;
#[cfg(test)]
mod running;
#[cfg(test)]
mod soaking;
#[cfg(test)]
mod wired;
