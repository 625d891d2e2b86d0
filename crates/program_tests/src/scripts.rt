//! Lines of `test`: scripts over a shelf and sinks in memory. Each of these calls, but for limits and those where the
//! outside fails, is tried with `--simplify` too, and ends the same.
mod chains;
mod chips;
mod comparing;
mod limits;
mod machines;
mod refusals;
