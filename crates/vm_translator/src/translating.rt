//! Translating.
ghost use Rattle.std.specs.Prelude.{◌≡◌, ◌≤◌, ◌+◌, ℕ, All, IfOk, IfErr, false, length, map};
ghost use Rattle.hack_isa.specs.Machine.{image_words};
ghost use Rattle.image_map.specs.Computer.{endless_loop};
ghost use Rattle.hack_isa.specs.Table.{word_of};
ghost use Rattle.vm_link.specs.declared.linked.Linked.{Linked};
ghost use Rattle.vm_link.specs.Sound.{IsSound};
ghost use Rattle.vm_link.specs.Uniform.{IsUniform};
ghost use Rattle.vm_translator.specs.Image.{budget_of, closing_size, image_of, image_map_of, shared_at, IsTooLarge};
ghost use Rattle.image_map.specs.Map.{the_map, Covers, CoversShared};
ghost use Rattle.vm_translator.specs.Plain.{IsPlain};
ghost use Rattle.vm_translator.specs.Translated.{IsTranslated};

use crate::emit::instrs;
use crate::ends::{Closing, base_of, closing_of, words};
use crate::layout::lay_out;
use crate::map::{commits, entries, points};
use crate::shared::{shared_ranges, shared_words, used};
use crate::statics::statics;
use crate::{CodeFault, Coded};
use hack_isa::IMAGE_WORDS;
use image_map::ImageMap;
use outer_world::List;
use std::alloc::Global;
use vm_link::Linked;

/// The code of a linked program and its map. A program that keeps its opening texts has no start code.
pub fn translate(alloc: Global, linked: &Linked, bare: bool) -> Result<Coded, CodeFault>
    requires sound { IsSound linked.now }
    requires bare { bare ≡ linked.now.bare }
    ensures image { IfOk result (λ coded. coded.instrs ≡ image_of linked.now) }
    ensures map { IfOk result (λ coded. coded.map ≡ image_map_of linked.now) }
    ensures fits { IfOk result (λ coded. length (image_of linked.now) ≤ image_words) }
    ensures well_formed { IfOk result (λ coded. All IsPlain coded.instrs) }
    ensures covers { IfOk result (λ coded. Covers 0 coded.map.points (shared_at linked.now)) }
    ensures shared_covers { IfOk result
        (λ coded. CoversShared (shared_at linked.now) coded.map.shared (length coded.instrs)) }
    ensures translated { linked.now.bare ≡ false → IsUniform linked.now
        → IfOk result (λ coded. IsTranslated linked.now
        (map word_of coded.instrs) (the_map coded.map) endless_loop) }
    ensures too_large { IfErr result
        (λ e. (w : ℕ) → e ≡ CodeFault.TooLarge w → IsTooLarge linked.now w) }
{
    let used = used(alloc, linked)?;
    let closing = closing_of(linked, &used);
    let words = words(linked, closing, shared_words(&used));
    if words > IMAGE_WORDS as u64 {
        return Err(CodeFault::TooLarge(words));
    }
    let layout = lay_out(alloc, linked.functions.as_slice(), base_of(bare))?;
    let from = after(layout.end, closing);
    let instrs = instrs(alloc, linked, &layout, closing, &used, from)?;
    let commits = commits(alloc, linked, &layout, &used, from)?;
    let points = points(alloc, linked, &layout, from)?;
    let shared = shared_ranges(alloc, &used, from)?;
    let entries = entries(alloc, linked, &layout)?;
    let statics = statics(alloc, linked)?;
    Ok(Coded {
        instrs: List::of(instrs),
        map: ImageMap {
            points: List::of(points),
            commits: List::of(commits),
            shared: List::of(shared),
            entries: List::of(entries),
            statics: List::of(statics),
        },
    })
}

// The address after what closes the code.
fn after(end: u16, closing: Closing) -> u16
    requires { end ≤ 32768 }
    ensures { result ≡ end + closing_size closing }
{
    end + closing.size()
}

/// Law: no image has more words than its program's budget by commands.
#[tactic(auto, using(crate::proofs::Answering::image_within))]
pub fn size_law()
    ensures { (l : Linked) → length (image_of l) ≤ budget_of l }
{}
