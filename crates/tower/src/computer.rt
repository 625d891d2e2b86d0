//! From a program to its image, and from there to the computer at its start.
ghost use Rattle.std.specs.Prelude.{◌≡◌, [], IfOk};
ghost use Rattle.jack_compiler.specs.Resolved.{IsResolvedCore};
ghost use Rattle.image_map.specs.Map.{IsMapped};
ghost use Rattle.tower.specs.Image.{Builds};
ghost use Rattle.tower.specs.Mapped.{HasFollowed, image_in};

use crate::building::{BuildError, build_linked};
use crate::hack_level::HackLevel;
use image_map::Image;
use jack_compiler::link_core;
use jack_core::Core;
use std::alloc::{AllocError, Global};
use vm_link::LinkFault;

/// The image of a program with its map, by the compiler, the linker and the translator.
///
/// TooManyStatics where the linked files have more than 240 static words, else TooLarge where the image would have more than
/// 32,768 words.
pub fn build(alloc: Global, core: &Core) -> Result<Image, BuildError>
    requires resolved { IsResolvedCore core.now }
    ensures builds { Builds core.now result }
    ensures mapped { IfOk result (λ image. IsMapped image) }
{
    match link_core(alloc, core) {
        Ok(linked) => build_linked(alloc, &linked),
        Err(LinkFault::TooManyStatics(words)) => Err(BuildError::TooManyStatics(words)),
        Err(LinkFault::Memory) => Err(BuildError::Memory),
        // Where names are resolved there is no other fault.
        Err(_) => unreachable!(),
    }
}

/// The computer at its start with the image of a program. It has all its memory from here on.
pub fn prepare_hack(alloc: Global, image: Image) -> Result<HackLevel, AllocError>
    requires { IsMapped image }
    ensures image { IfOk result (λ h. image_in h ≡ image) }
    ensures moves { IfOk result (λ h. h.hack.moves ≡ 0) }
    ensures stands { IfOk result (λ h. HasFollowed h []) }
{
    HackLevel::new(alloc, image)
}
