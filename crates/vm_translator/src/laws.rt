//! Laws of what the image of a linked program does: no code, only the statements.
ghost use Rattle.std.specs.Prelude.{◌≡◌, ◌≤◌, false, length, map};
ghost use Rattle.hack_isa.specs.Machine.{image_words};
ghost use Rattle.image_map.specs.Computer.{endless_loop};
ghost use Rattle.hack_isa.specs.Table.{word_of};
ghost use Rattle.vm_link.specs.declared.linked.Linked.{Linked};
ghost use Rattle.vm_link.specs.Sound.{IsSound};
ghost use Rattle.vm_link.specs.Uniform.{IsUniform};
ghost use Rattle.vm_translator.specs.Pieces.{PiecesFit};
ghost use Rattle.vm_translator.specs.Image.{commits_of, image_of, points_of, shared_at, shared_ranges};
ghost use Rattle.vm_translator.specs.Laws.{AllStepsCarry};
ghost use Rattle.image_map.specs.Map.{map_of, Covers, CoversShared};
ghost use Rattle.vm_translator.specs.Seen.{SeenLaw};
ghost use Rattle.vm_translator.specs.Translated.{IsTranslated};

/// Law: where the memory holds a state of the virtual machine, the effect of a step's instructions is the next state.
#[tactic(auto, using(crate::proofs::Keys::all_steps_carry))]
pub fn steps_carry_law()
    ensures { AllStepsCarry }
{}

/// Law: the image of a sound and uniform linked program that has start code and fits does, with its map, what the program does. Its
/// endless loop is at `endless_loop`. The points cover each address before the routines once, and the routines each one
/// from there to the end.
#[tactic(auto, using(crate::proofs::Covered::covers))]
pub fn translated_law()
    ensures does { (l : Linked) → IsSound l → IsUniform l → l.bare ≡ false
        → length (image_of l) ≤ image_words
        → IsTranslated l (map word_of (image_of l))
        (map_of (commits_of l) (points_of l)) endless_loop }
    ensures covers { (l : Linked) → Covers 0 (points_of l) (shared_at l) }
    ensures shared_covers { (l : Linked)
        → CoversShared (shared_at l) (shared_ranges l) (length (image_of l)) }
{}

/// Law: the commands of a compiled program's pieces have at most this many words together.
#[tactic(auto, using(crate::proofs::PieceSizes::pieces_fit))]
pub fn pieces_law()
    ensures { PiecesFit }
{}

/// Law: where the memory holds a state, its words show the variables of the innermost frame and where those below it go on. The map
/// has the point of each place, and the addresses at which a function makes its locals.
pub fn seen_law()
    ensures { SeenLaw }
{}
