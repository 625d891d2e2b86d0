use crate::checks::{holds, is_word};
use word16::{bits_of, eq, gt, lt, sub, word_of};

// Two words, and whether the first is below and above the second. -20000 is the word 45536; each difference is past a
// signed word.
const ORDERED: &[(u16, u16, (bool, bool))] = &[
    (20000, 45536, (false, true)),
    (45536, 20000, (true, false)),
    (32767, 32768, (false, true)),
    (32768, 32767, (true, false)),
];

#[test]
fn words(rt: HostRuntime) {
    for (row, (x, y, wanted)) in ORDERED.iter().enumerate() {
        holds(&rt, "ordered", row, (lt(*x, *y), gt(*x, *y)) == *wanted);
    }
    holds(&rt, "eq", 0, eq(sub(0, 1), 65535));
    // 60432 is 1110110000010000, the instruction D=A
    let bits = bits_of(60432);
    let four = (bits[0], bits[4], bits[12], bits[15]);
    holds(&rt, "bits", 0, four == (false, true, false, true));
    is_word(&rt, "bits", 0, word_of(bits), 60432);
}
