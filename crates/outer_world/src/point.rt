//! A control point.

/// A control point: a place in a program at which two layers can be compared. `sub` is the
/// subroutine's number in the table of names, and `number` the statement's number in it.
#[derive(Clone, Copy, Debug, PartialEq, Eq)]
pub struct Point {
    pub sub: u32,
    pub number: u32,
}
