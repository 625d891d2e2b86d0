//! Words of 16 bits: sums, comparisons and bits, by 16-bit operations, and where words stand in memory. (The book, chapter 2.)
#![tactic(auto)]

ghost use Rattle.std.specs.Prelude.{◌≡◌, ◌<◌, ◌<ℤ◌, ◌↔◌, IsTrue, bit_and, bit_or, if◌then◌else◌};
ghost use Rattle.word16.specs.Words.{word_add, word_sub, word_neg, word_not, word_shl, word_shr, IsHalf, signed_value, truth, word_eq, word_lt, word_gt, has_bit, bit_list, number_of, binary_text};

mod memory;

pub use memory::{HEAP, HEAP_AND_SCREEN_SIZE, KEYBOARD, SCREEN};

/// The sum modulo 65,536.
pub fn add(a: u16, b: u16) -> u16
    ensures { result ≡ word_add a b }
{
    a.wrapping_add(b)
}

/// The difference modulo 65,536.
pub fn sub(a: u16, b: u16) -> u16
    ensures { result ≡ word_sub a b }
{
    a.wrapping_sub(b)
}

/// The word that gives 0 when `w` is added to it.
pub fn neg(w: u16) -> u16
    ensures { result ≡ word_neg w }
{
    w.wrapping_neg()
}

/// Each bit the other one.
pub fn not(w: u16) -> u16
    ensures { result ≡ word_not w }
{
    !w
}

/// Twice the word, modulo 65,536: each bit one place up.
pub fn shl(w: u16) -> u16
    ensures { result ≡ word_shl w }
{
    w.wrapping_add(w)
}

/// The word whose signed reading is half of that of `w`, rounded down: each bit one place down, the sign stays.
#[tactic(auto, using(crate::proofs::Halves::halved))]
pub fn shr(w: u16) -> u16
    ensures word { result ≡ word_shr w }
    ensures half { IsHalf (signed_value result) (signed_value w) }
{
    let half = w / 2;
    if w < 32768 { half } else { 32768 + half }
}

/// The bits that both words have.
pub fn and(a: u16, b: u16) -> u16
    ensures { result ≡ bit_and a b }
{
    a & b
}

/// The bits that either word has.
pub fn or(a: u16, b: u16) -> u16
    ensures { result ≡ bit_or a b }
{
    a | b
}

/// Whether `a` is less than `b` as signed numbers.
pub fn lt(a: u16, b: u16) -> bool
    ensures { IsTrue result ↔ (signed_value a <ℤ signed_value b) }
{
    // With the top bit turned over, the order of the signed readings is that of the words.
    a ^ 32768 < b ^ 32768
}

/// Whether `a` is greater than `b` as signed numbers.
pub fn gt(a: u16, b: u16) -> bool
    ensures { IsTrue result ↔ (signed_value b <ℤ signed_value a) }
{
    lt(b, a)
}

/// Whether the two words are the same.
pub fn eq(a: u16, b: u16) -> bool
    ensures { IsTrue result ↔ (a ≡ b) }
{
    a == b
}

/// The word of a truth value: -1 for true, 0 for false.
pub fn truth(holds: bool) -> u16
    ensures { result ≡ truth holds }
{
    if holds { 65535 } else { 0 }
}

/// True, as a word, where the two words are the same.
pub fn word_eq(a: u16, b: u16) -> u16
    ensures { result ≡ word_eq a b }
{
    truth(eq(a, b))
}

/// True, as a word, where `a` is less than `b` as signed numbers.
pub fn word_lt(a: u16, b: u16) -> u16
    ensures { result ≡ word_lt a b }
{
    truth(lt(a, b))
}

/// True, as a word, where `a` is greater than `b` as signed numbers.
pub fn word_gt(a: u16, b: u16) -> u16
    ensures { result ≡ word_gt a b }
{
    truth(gt(a, b))
}

/// Bit `k` of a word; bit 0 is the lowest.
pub fn bit(w: u16, k: u16) -> bool
    requires { k < 16 }
    ensures { result ≡ has_bit w k }
{
    w >> k & 1 == 1
}

/// The bits of a word: bit `k` at place `k`.
#[tactic(auto, using(crate::proofs::Bits::written))]
pub fn bits_of(w: u16) -> [bool; 16]
    ensures bits { result ≡ bit_list w }
    ensures back { number_of result ≡ w }
{
    [
        bit(w, 0),
        bit(w, 1),
        bit(w, 2),
        bit(w, 3),
        bit(w, 4),
        bit(w, 5),
        bit(w, 6),
        bit(w, 7),
        bit(w, 8),
        bit(w, 9),
        bit(w, 10),
        bit(w, 11),
        bit(w, 12),
        bit(w, 13),
        bit(w, 14),
        bit(w, 15),
    ]
}

/// The word with these bits: bit `k` is that at place `k`.
#[tactic(auto, using(crate::proofs::Bits::reading, crate::proofs::Bits::short_tail))]
pub fn word_of(bits: [bool; 16]) -> u16
    ensures number { result ≡ number_of bits }
    ensures back { bit_list result ≡ bits }
{
    let mut word = 0;
    for k in (0..16).rev() {
        word = 2 * word + u16::from(bits[k]);
    }
    word
}

fn digit(word: u16, k: u16) -> u8
    requires { k < 16 }
    ensures { result ≡ (if has_bit word k then 49 else 48) }
{
    if bit(word, k) { b'1' } else { b'0' }
}

/// The sixteen binary digits of a word, the highest first.
pub fn binary_digits(word: u16) -> [u8; 16]
    ensures { result ≡ binary_text word }
{
    [
        digit(word, 15),
        digit(word, 14),
        digit(word, 13),
        digit(word, 12),
        digit(word, 11),
        digit(word, 10),
        digit(word, 9),
        digit(word, 8),
        digit(word, 7),
        digit(word, 6),
        digit(word, 5),
        digit(word, 4),
        digit(word, 3),
        digit(word, 2),
        digit(word, 1),
        digit(word, 0),
    ]
}
