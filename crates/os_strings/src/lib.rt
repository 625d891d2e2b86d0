//! Laws of strings that are made, given back and read as numbers, and of the keyboard, in the meaning of Jack (book,
//! chapter 12).
#![tactic(auto)]

ghost use Rattle.os_strings.specs.KeyLaws.{KeyLaws};
ghost use Rattle.os_strings.specs.MakingLaws.{MakingLaws};
ghost use Rattle.os_strings.specs.NumberLaws.{NumberLaws};
ghost use Rattle.os_strings.specs.QuoteLaws.{QuoteLaws};

/// A new string is empty, of new blocks of the heap; dispose gives them back.
pub fn making_laws()
    ensures { MakingLaws }
{}

/// Where String.new makes a string for a text in quotes, it becomes one of just this text; three places where one may
/// stand.
pub fn quote_laws()
    ensures { QuoteLaws }
{}

/// A string is set to the decimal of a number, and read as the number that it begins with.
pub fn number_laws()
    ensures { NumberLaws }
{}

/// The key of the moment; a key that goes down and up again.
pub fn key_laws()
    ensures { KeyLaws }
{}
