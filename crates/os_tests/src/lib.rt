//! Tests of the operating system (book, chapter 12).
#![tactic(auto)]

#[cfg(test)]
mod calls;
#[cfg(test)]
mod checks;
#[cfg(test)]
mod drawing;
#[cfg(test)]
mod programs;
#[cfg(test)]
mod screen;
#[cfg(test)]
mod size;
#[cfg(test)]
mod starting;
#[cfg(test)]
mod text;
