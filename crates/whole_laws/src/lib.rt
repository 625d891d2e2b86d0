//! The headline for the Computer whose RAM and Screen are made of gates. No code, only laws.
#![tactic(auto)]

ghost use Rattle.whole_laws.specs.Whole.{WholeFollowsLaw, WholeHeadlineLaw, WholeRunsLaw};

/// Law: where the instruction machine with an image follows a meaning, so does each behaviour of the Computer that is
/// long enough. Its memories may be blocks or made of gates, and the meaning's states are of any type.
pub fn whole_follows_law<S>()
    ensures { WholeFollowsLaw S }
{}

/// Law: with the image of a program whose names are resolved, the Computer follows the program's meaning, under all
/// keys, whether its memories are blocks or made of gates.
pub fn whole_headline_law()
    ensures { WholeHeadlineLaw }
{}

/// Law: the Computer of shipped chips has behaviours over any number of cycles, with memories of gates too.
pub fn whole_runs_law()
    ensures { WholeRunsLaw }
{}
