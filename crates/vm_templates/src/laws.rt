//! Laws of the templates: no code, only the statements.
ghost use Rattle.vm_templates.specs.Budgets.{TakesStepsForWords};
ghost use Rattle.vm_templates.specs.Commands.{CommandsGo};
ghost use Rattle.vm_templates.specs.Laws.{TemplatesFit, InstructionsStand, Starts, LoopsIdle};
ghost use Rattle.vm_templates.specs.Ways.{StepsAreWays};

/// Law: the instructions of each command do what the command does, in any image and at any place.
#[tactic(auto, using(crate::proofs::Shapes::commands_go))]
pub fn commands_law()
    ensures { CommandsGo }
{}

/// Law: templates have as many words as is said, and stand in an image of their words.
#[tactic(auto, using(crate::proofs::Placed::templates_fit, crate::proofs::Placed::instructions_stand))]
pub fn templates_law()
    ensures fit { TemplatesFit }
    ensures stand { InstructionsStand }
{}

/// Law: the start comes to the call of Sys.init, and in its endless loop the computer does nothing that can be seen.
#[tactic(auto, using(crate::proofs::Placed::starts, crate::proofs::Loop::loops_idle))]
pub fn start_law()
    ensures starts { Starts }
    ensures idle { LoopsIdle }
{}

/// Law: what goes by steps of the computer is a way of the layers, whatever the upper machine's states are.
pub fn ways_law<U>()
    ensures { StepsAreWays U }
{}

/// Law: a command may take at least as many steps as its own instructions may have words.
#[tactic(auto, using(crate::proofs::Budgets::takes_steps_for_words))]
pub fn budgets_law()
    ensures { TakesStepsForWords }
{}
