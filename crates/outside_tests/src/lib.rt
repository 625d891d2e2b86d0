//! Tests of what stands between programs and the outside: shelves and sinks, key scripts, reports and command lines.
#![tactic(auto)]

#[cfg(test)]
mod checks;
#[cfg(test)]
mod entries;
#[cfg(test)]
mod keys;
#[cfg(test)]
mod lines;
#[cfg(test)]
mod reports;
#[cfg(test)]
mod shelves_and_sinks;
