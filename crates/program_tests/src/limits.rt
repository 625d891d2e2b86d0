//! Limits, each at its number and past it, by the lines that read what is limited.
//!
//! Those of scripts stand with the lines of `test` (`scripts`).
mod assembly;
mod counts;
mod lengths;
mod nesting;
mod numbers;
mod programs;
