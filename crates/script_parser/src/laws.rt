//! Laws of the tokens and of the grammar, and small scripts.

ghost use Rattle.scan_text.specs.declared.Place.{Place};
ghost use Rattle.grammar.specs.Rules.{IsLawful};
ghost use Rattle.script_parser.specs.declared.nesting.Nesting.{Nesting};
ghost use Rattle.grammar.specs.Between.{IsBetween};
ghost use Rattle.grammar.specs.Cutting.{past_blanks};
ghost use Rattle.grammar.specs.Longest.{IsLongestMatch, HasNoLimit};
ghost use Rattle.script_parser.specs.OneToken.{IsOne};
ghost use Rattle.script_parser.specs.Tokens.{Word, piece};
ghost use Rattle.script_parser.specs.Grammar.{Part, Said, script};
ghost use Rattle.script_parser.specs.Trees.{ReadingLaw, TotalLaw};
ghost use Rattle.script_parser.specs.Rows.{RowsLaw};

/// What is cut off is one token, the longest that begins where it begins, and what is passed over is what may stand between tokens: no more
/// and no less. None is missed.
pub fn longest_law()
    ensures { IsLongestMatch IsOne IsBetween HasNoLimit (past_blanks piece) }
{}

/// The table of first tokens is that of the rules, each named rule takes a token, and none comes to itself before it has taken one.
pub fn first_tokens_law()
    ensures { (end : Place) → IsLawful Word Nesting Part Said (script end) }
{}

/// A text spells at most one script, has at most one first fault, and not both.
pub fn reading_law()
    ensures { ReadingLaw }
{}

/// Each text spells a script or is refused with a fault.
pub fn total_law()
    ensures { TotalLaw }
{}

/// Small scripts, what they spell and their first faults.
pub fn rows_law()
    ensures { RowsLaw }
{}
