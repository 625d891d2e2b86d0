//! The addresses of static words.
ghost use Rattle.std.specs.Prelude.{◌≡◌, ◌+◌, ◌-◌, ◌^◌, ◌++◌, ℕ, IfOk, OnOk, map, min};
ghost use Rattle.std.specs.List.{range_with_len};
ghost use Rattle.vm_link.specs.declared.linked.Linked.{Linked};
ghost use Rattle.vm_translator.specs.Shapes.{named_index};
ghost use Rattle.vm_translator.specs.Statics.{static_word, statics_of, words_before};

use image_map::StaticWord;
use std::alloc::{AllocError, Global};
use vm_link::Linked;

// The address of a static, before which there are this many of other files.
fn address(before: u64, index: u32) -> u16
    ensures { (b : ℕ) → before ≡ min b (2 ^ 64 - 1) → result ≡ named_index (16 + (b + index)) }
{
    before.saturating_add(16 + index as u64).min(32767) as u16
}

// Adds the static words of a file.
fn add_statics(
    statics: &mut Vec<StaticWord>,
    file: usize,
    before: u64,
    words: u32,
) -> Result<(), AllocError>
    ensures { OnOk result
        ((l : Linked) → before ≡ min (words_before l file) (2 ^ 64 - 1) → statics.new.items
        ≡ statics.old.items ++ map (static_word l file) (range_with_len 0 words)) }
{
    for index in 0..words {
        statics.push(StaticWord {
            file,
            index,
            address: address(before, index),
        })?;
    }
    Ok(())
}

/// The static words of all files.
pub fn statics(alloc: Global, linked: &Linked) -> Result<Vec<StaticWord>, AllocError>
    ensures { IfOk result (λ v. v.items ≡ statics_of linked.now) }
{
    let mut statics = Vec::new(alloc);
    let mut before: u64 = 0;
    for (number, file) in linked.files.as_slice().iter().enumerate() {
        add_statics(&mut statics, number, before, file.statics)?;
        before = before.saturating_add(file.statics as u64);
    }
    Ok(statics)
}
