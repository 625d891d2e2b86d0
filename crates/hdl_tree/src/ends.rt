//! Chips that have no parts.

ghost use Rattle.std.specs.Prelude.{◌≡◌};
ghost use Rattle.hdl_tree.specs.Chips.{are_blocks, end_named, end_of};

use crate::Entry;

/// What a chip is that has no parts: a Nand gate, a flip-flop, the keyboard, the instruction memory of 32,768 words, or a block of
/// memory, which has 2^k words.
#[derive(Clone, Copy, Debug, PartialEq, Eq)]
pub enum End {
    Nand,
    Dff,
    Keyboard,
    Rom,
    Block(u8),
}

/// How the memories of a chip are simulated: RAM8 to RAM16K and Screen.
#[derive(Clone, Copy, Debug, PartialEq, Eq)]
pub enum Memories {
    /// As blocks of words.
    Blocks,
    /// As chips of gates and flip-flops.
    Gates,
}

fn are_blocks(memories: Memories) -> bool
    ensures { result ≡ are_blocks memories }
{
    match memories {
        Memories::Blocks => true,
        Memories::Gates => false,
    }
}

fn named_end(memories: Memories, name: &[u8]) -> Option<End>
    ensures { result ≡ end_named memories name.now }
{
    let blocks = are_blocks(memories);
    if name == b"Nand".as_slice() {
        Some(End::Nand)
    } else if name == b"DFF".as_slice() {
        Some(End::Dff)
    } else if name == b"Keyboard".as_slice() {
        Some(End::Keyboard)
    } else if name == b"ROM32K".as_slice() {
        Some(End::Rom)
    } else if name == b"RAM8".as_slice() && blocks {
        Some(End::Block(3))
    } else if name == b"RAM64".as_slice() && blocks {
        Some(End::Block(6))
    } else if name == b"RAM512".as_slice() && blocks {
        Some(End::Block(9))
    } else if name == b"RAM4K".as_slice() && blocks {
        Some(End::Block(12))
    } else if name == b"RAM16K".as_slice() && blocks {
        Some(End::Block(14))
    } else if name == b"Screen".as_slice() && blocks {
        Some(End::Block(13))
    } else {
        None
    }
}

/// What the chip is, if it is an end. A chip is an end by the name that it is shipped under; the memories RAM8 to RAM16K and Screen are
/// ends where they are blocks.
#[tactic(auto, unfolding(crate::specs::Chips::end_of))]
pub fn find_end(memories: Memories, entry: &Entry) -> Option<End>
    ensures { result ≡ end_of memories entry.now }
{
    match &entry.shipped {
        None => None,
        Some(name) => named_end(memories, name.as_bytes()),
    }
}
