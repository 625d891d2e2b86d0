//! Texts of few bytes.

ghost use Rattle.std.specs.Prelude.{◌≡◌, ◌≤◌, take, length};
ghost use Rattle.std.specs.Str.{IsUtf8};

/// How many bytes stand in a short text.
pub const MOST_SHORT: usize = 14;

/// A text of at most 14 bytes.
#[derive(Debug, Drop)]
pub struct Short {
    pub length: u8,
    pub bytes: [u8; 14],
    pub ghost fits: { length ≤ 14 },
    pub ghost utf8: { ∥ IsUtf8 (take length bytes) ∥₁ },
}

/// The short text that a string is.
pub fn make_short(text: &str) -> Short
    requires { length text.now ≤ 14 }
    ensures { take result.length result.bytes ≡ text.now }
{
    let mut bytes = [0; 14];
    bytes[..text.len()].copy_from_slice(text.as_bytes());
    Short {
        length: text.len() as u8,
        bytes,
    }
}

/// The bytes of a short text.
pub fn bytes_of(short: &Short) -> &[u8]
    ensures { result.now ≡ take short.now.length short.now.bytes }
{
    &short.bytes[..short.length as usize]
}

/// The string that a short text is.
pub fn str_of(short: &Short) -> &str
    ensures { result.now ≡ take short.now.length short.now.bytes }
{
    str::from_utf8(bytes_of(short)).unwrap()
}
