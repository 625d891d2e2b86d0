//! The law of the tokens.

ghost use Rattle.grammar.specs.Between.{IsBetween};
ghost use Rattle.grammar.specs.Cutting.{past_blanks};
ghost use Rattle.grammar.specs.Longest.{IsLongestMatch, IsOver};
ghost use Rattle.jack_lexer.specs.Tokens.{piece};
ghost use Rattle.jack_lexer.specs.OneToken.{IsOne};

/// What is cut off is one token, the longest that begins where it begins, and what is passed over is what may stand between tokens: no more
/// and no less. None is missed.
pub fn longest_law()
    ensures { IsLongestMatch IsOne IsBetween (IsOver 32767) (past_blanks piece) }
{}
