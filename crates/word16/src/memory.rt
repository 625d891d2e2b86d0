//! Where the words of memory stand. (The book, chapters 4 and 7.)

/// The heap's first word.
pub const HEAP: u16 = 2048;

/// The screen's first word; the heap ends before it.
pub const SCREEN: u16 = 16384;

/// The keyboard's word; the screen ends before it, and nothing is stored from here on.
pub const KEYBOARD: u16 = 24576;

/// How many words heap and screen have: those from the heap's first up to the keyboard.
pub const HEAP_AND_SCREEN_SIZE: usize = 22528;
