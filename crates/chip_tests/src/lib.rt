//! Tests of chips (book, chapters 1 to 5): their texts, the simulator, the simplifier, and the shipped chips.
#![tactic(auto)]

#[cfg(test)]
mod checks;
#[cfg(test)]
mod chip_texts;
#[cfg(test)]
mod shipped_chips;
#[cfg(test)]
mod simplifying;
#[cfg(test)]
mod simulating;
