//! The law of the tokens.

ghost use Rattle.grammar.specs.Between.{IsBetweenInLine};
ghost use Rattle.grammar.specs.Longest.{IsLongestMatch, IsOver, HasNoLimit};
ghost use Rattle.hack_asm.specs.HackTokens as hack_tokens;
ghost use Rattle.hack_asm.specs.OneHackToken.{IsOneHack, HasNoneBetween};
ghost use Rattle.hack_asm.specs.OneToken.{IsOne};
ghost use Rattle.hack_asm.specs.Tokens.{piece};

/// What is cut off of an assembly text is one token, the longest that begins where it begins. What is passed over is what may stand
/// between tokens: no more and no less. None is missed. So it is of a `.hack` text, where nothing may stand between.
pub fn longest_law()
    ensures asm { IsLongestMatch IsOne IsBetweenInLine (IsOver 32767) piece }
    ensures hack { IsLongestMatch IsOneHack HasNoneBetween HasNoLimit hack_tokens.piece }
{}
