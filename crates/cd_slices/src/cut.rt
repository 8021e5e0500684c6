// By what bytes are cut into pieces, and where the next piece ends.
ghost use Rattle.std.specs.Prelude.{◌≡◌, ◌+◌, ◌≤◌, ◌<◌, ◌==◌, ℕ, Bool, List, length, take};
ghost use Rattle.std.specs.List.{position_or_len};
ghost use Rattle.cd_split.specs.Cutting.{is_end};
ghost use Rattle.cd_slices.specs.Stages.{IsNext};

use memchr::memchr;

/// By what bytes are cut into pieces.
#[derive(Clone, Copy)]
pub struct SliceRule {
    /// It ends a line. Without it there are no lines.
    pub separator: Option<u8>,
    /// Whether the rest at the end of the input is a piece too.
    pub short: bool,
    /// The greatest length of a piece.
    pub most: usize,
}

/// What comes first of some bytes.
#[derive(Clone, Copy)]
pub enum Cut {
    /// A piece that ends with the first `len` of them. It goes on behind `used`, where the line has given no piece yet
    /// if `fresh`.
    Piece {
        len: usize,
        used: usize,
        fresh: bool,
    },
    /// A separator that directly follows a full piece: it ends the piece's line, and gives nothing.
    LineEnd,
    /// No piece ends there.
    Rest,
}

/// How many bytes stand before a separator: all of them where there is none.
#[inline]
fn before_end(separator: Option<u8>, bytes: &[u8]) -> usize
    ensures value { result ≡ position_or_len (is_end separator) bytes.now }
    ensures within { result ≤ length bytes.now }
{
    match separator {
        None => bytes.len(),
        Some(byte) => match memchr(byte, bytes) {
            Some(place) => place,
            None => bytes.len(),
        },
    }
}

/// What comes first of these bytes, where so many stand since the last piece.
#[inline]
pub fn next_cut(rule: SliceRule, fresh: bool, held: usize, bytes: &[u8]) -> Cut
    requires { held < rule.most }
    ensures { (l : List ℕ) → length l ≡ held → IsNext rule fresh l bytes.now result }
{
    let want = rule.most - held;
    let reach = bytes.len().min(want);
    let place = before_end(rule.separator, &bytes[..reach]);
    if place < reach {
        if place == 0 && held == 0 && !fresh {
            return Cut::LineEnd;
        }
        return Cut::Piece {
            len: place,
            used: place + 1,
            fresh: true,
        };
    }
    if reach == want {
        return Cut::Piece {
            len: want,
            used: want,
            fresh: false,
        };
    }
    Cut::Rest
}
