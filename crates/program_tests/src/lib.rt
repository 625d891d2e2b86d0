//! Tests of whole lines of the program over files of their own and scripts, with a shelf and sinks in memory.
#![tactic(auto)]

#[cfg(test)]
mod checks;
#[cfg(test)]
mod executing;
#[cfg(test)]
mod failing;
#[cfg(test)]
mod fronts;
#[cfg(test)]
mod letters;
#[cfg(test)]
mod limits;
#[cfg(test)]
mod nand;
#[cfg(test)]
mod scripts;
#[cfg(test)]
mod showing;
#[cfg(test)]
mod telling;
#[cfg(test)]
mod translating;
