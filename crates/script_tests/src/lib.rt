//! Tests of test scripts (book, appendix 3).
#![tactic(auto)]

#[cfg(test)]
mod reading;
