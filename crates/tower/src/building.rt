//! From linked code to the image that the computer runs.
ghost use Rattle.std.specs.Prelude.{◌≡◌, ◌≤◌, All, IfOk, IfErr, false, length, map};
ghost use Rattle.hack_isa.specs.Machine.{image_words};
ghost use Rattle.hack_isa.specs.Table.{word_of};
ghost use Rattle.image_map.specs.Map.{IsMapped, the_map};
ghost use Rattle.image_map.specs.Computer.{endless_loop};
ghost use Rattle.vm_link.specs.Sound.{IsSound};
ghost use Rattle.vm_link.specs.Uniform.{IsUniform};
ghost use Rattle.vm_translator.specs.Plain.{IsPlain};
ghost use Rattle.vm_translator.specs.Translated.{IsTranslated};
ghost use Rattle.tower.specs.declared.building.BuildError.TheVariants.{Memory};
ghost use Rattle.tower.specs.Image.{IsUnbuilt, image_for};
ghost use Rattle.tower.specs.Messages.{build_message};

use hack_isa::{Instr, encode};
use image_map::Image;
use outer_world::{Detail, Diagnostic, List};
use std::alloc::{AllocError, Global};
use thiserror::Error;
use vm_link::Linked;
use vm_translator::{CodeFault, Coded, translate};

/// Why a program has no image. Memory ran out, or its files have this number of static words, which is more than 240, or
/// it would have this number of words, which is more than 32,768.
#[derive(Debug, Drop, Error)]
pub enum BuildError {
    #[error("want of memory")]
    Memory,
    #[error("TooManyStatics {0}")]
    TooManyStatics(u64),
    #[error("TooLarge {0}")]
    TooLarge(u64),
}

impl BuildError {
    /// The diagnostic of the fault. Want of memory has none.
    pub fn diagnostic(self) -> Option<Diagnostic>
        ensures { result ≡ build_message self }
    {
        match self {
            BuildError::TooManyStatics(words) => {
                Some(Diagnostic::nowhere("TooManyStatics", Detail::Number(words)))
            }
            BuildError::TooLarge(words) => Some(Diagnostic::nowhere(
                "TooLarge",
                Detail::Number(words),
            )),
            BuildError::Memory => None,
        }
    }
}

impl From<AllocError> for BuildError {
    ghost from_gives = { λ _ e. e ≡ Memory };

    fn from(_e: AllocError) -> BuildError {
        BuildError::Memory
    }
}

// The words of instructions.
fn words(alloc: Global, instrs: &[Instr]) -> Result<Vec<u16>, AllocError>
    requires { All IsPlain instrs.now }
    ensures { IfOk result (λ v. v.items ≡ map word_of instrs.now) }
{
    let mut words = Vec::new(alloc);
    for instr in instrs {
        words.push(encode(instr))?;
    }
    Ok(words)
}

// The image of translated code, with its map.
fn image_of(alloc: Global, coded: Coded) -> Result<Image, AllocError>
    requires plain { All IsPlain coded.instrs }
    requires mapped { IsMapped (record { words = map word_of coded.instrs; map = coded.map }) }
    ensures image { IfOk result
        (λ image. image ≡ record { words = map word_of coded.instrs; map = coded.map }) }
    ensures mapped { IfOk result (λ image. IsMapped image) }
{
    let words = words(alloc, coded.instrs.as_slice())?;
    Ok(Image {
        words: List::of(words),
        map: coded.map,
    })
}

/// The image of linked code, with its map.
pub(crate) fn build_linked(alloc: Global, linked: &Linked) -> Result<Image, BuildError>
    requires sound { IsSound linked.now }
    requires uniform { IsUniform linked.now }
    requires starts { linked.now.bare ≡ false }
    ensures image { IfOk result (λ image. image ≡ image_for linked.now) }
    ensures translated { IfOk result
        (λ image. IsTranslated linked.now image.words (the_map image.map) endless_loop) }
    ensures mapped { IfOk result (λ image. IsMapped image) }
    ensures fits { IfOk result (λ image. length image.words ≤ image_words) }
    ensures unbuilt { IfErr result (IsUnbuilt linked.now) }
{
    match translate(alloc, linked, false) {
        Ok(coded) => Ok(image_of(alloc, coded)?),
        Err(CodeFault::TooLarge(words)) => Err(BuildError::TooLarge(words)),
        Err(CodeFault::Memory) => Err(BuildError::Memory),
    }
}
