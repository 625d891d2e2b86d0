//! Tests of Jack: tokens, texts and the machine of its meaning (book, chapters 9 to 11).
#![tactic(auto)]

#[cfg(test)]
mod checks;
#[cfg(test)]
mod programs;
#[cfg(test)]
mod stepping;
#[cfg(test)]
mod texts;
#[cfg(test)]
mod tokens_of_texts;
