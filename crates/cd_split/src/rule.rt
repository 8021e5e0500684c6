// By what a stream is cut, and where the next separator stands.
ghost use Rattle.std.specs.Prelude.{◌≡◌, ◌≤◌, ◌==◌, IsTrue, length, take};
ghost use Rattle.std.specs.List.{position_or_len};
ghost use Rattle.cd_elem.specs.Chunks.{is_cut};
ghost use Rattle.cd_split.specs.Cutting.{SeparatorFits, is_end};

use cd_elem::Chunk;
use memchr::memchr;

/// By what a stream is cut into pieces.
#[derive(Clone, Copy)]
pub struct CutRule {
    /// It ends a line. Without it there are no lines.
    pub separator: Option<char>,
    /// Whether the rest at the end of the input is a piece too.
    pub short: bool,
    /// The greatest length of a piece.
    pub most: usize,
}

/// How many bytes stand before the first that is this one.
#[inline]
fn before_byte(byte: u8, bytes: &[u8]) -> usize
    ensures value { result ≡ position_or_len (λ x. x == byte) bytes.now }
    ensures within { result ≤ length bytes.now }
{
    match memchr(byte, bytes) {
        Some(place) => place,
        None => bytes.len(),
    }
}

/// How many characters stand before the first that is this one.
#[inline]
fn before_char(character: char, chars: &[char]) -> usize
    ensures value { result ≡ position_or_len (λ x. x == character) chars.now }
    ensures within { result ≤ length chars.now }
{
    for (place, other) in chars.iter().enumerate() {
        if *other == character {
            return place;
        }
    }
    chars.len()
}

/// How many of the first `reach` elements stand before a separator: all of them where there is none.
#[inline]
pub fn before_end(separator: Option<char>, chunk: &Chunk, reach: usize) -> usize
    requires cut { IsTrue (is_cut chunk.now.0) }
    requires fits { SeparatorFits separator chunk.now.0 }
    requires within { reach ≤ length chunk.now.1 }
    ensures value { result ≡ position_or_len (is_end separator) (take reach chunk.now.1) }
    ensures within { result ≤ reach }
{
    match separator {
        None => reach,
        Some(separator) => match chunk.as_bytes() {
            Some(bytes) => before_byte(separator as u8, &bytes[..reach]),
            None => match chunk.as_chars() {
                Some(chars) => before_char(separator, &chars[..reach]),
                None => unreachable!(),
            },
        },
    }
}
