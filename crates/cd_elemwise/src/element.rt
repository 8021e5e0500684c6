// The elements of cut streams.
ghost use Rattle.std.specs.Prelude.{◌≡◌, ◌<◌, ◌≤◌, ℕ, length, map};
ghost use Rattle.cd_elem.specs.Limits.{chunk_limit};
ghost use Rattle.cd_elem.specs.declared.kind.Sort.{Sort};
ghost use Rattle.cd_elem.specs.declared.kind.Sort.TheVariants as sort;
ghost use Rattle.cd_elem.specs.declared.word.ByteMap.{ByteMap};
ghost use Rattle.cd_meaning.specs.Classes.{element_mapped};
ghost use Rattle.cd_elemwise.specs.Carried.{IsLetters};

use crate::class::{map_byte, map_char};
use cd_elem::{ByteMap, Chunk, Items};

/// A byte or a character.
pub trait Element: Copy + Drop {
    // its number
    ghost number: { Self → ℕ };

    // the sort of a chunk of such
    ghost sort: { Sort };

    // the maps that it has
    ghost has: { ByteMap → Type 0 };

    fn number(self) -> u32
        ensures { result ≡ number self };

    fn mapped(self, by: ByteMap) -> Self
        requires { has by }
        ensures { number result ≡ element_mapped by (number self) };

    fn chunk_of(list: Items<Self>) -> Chunk
        requires some { 0 < length list }
        requires most { length list ≤ chunk_limit }
        ensures { result ≡ (sort, map number list) };
}

impl Element for u8 {
    ghost number = { λ byte. byte };

    ghost sort = { sort.Bytes };

    ghost has = { λ by. Unit {0} };

    fn number(self) -> u32 {
        u32::from(self)
    }

    fn mapped(self, by: ByteMap) -> u8 {
        map_byte(by, self)
    }

    fn chunk_of(list: Items<u8>) -> Chunk
        requires some { 0 < length list }
        requires most { length list ≤ chunk_limit }
        ensures { result ≡ (sort.Bytes, map (λ byte. byte) list) }
    {
        Chunk::bytes_of(list)
    }
}

impl Element for char {
    ghost number = { λ character. character };

    ghost sort = { sort.Chars };

    ghost has = { IsLetters };

    fn number(self) -> u32 {
        u32::from(self)
    }

    fn mapped(self, by: ByteMap) -> char {
        map_char(by, self)
    }

    fn chunk_of(list: Items<char>) -> Chunk
        requires some { 0 < length list }
        requires most { length list ≤ chunk_limit }
        ensures { result ≡ (sort.Chars, map (λ character. character) list) }
    {
        Chunk::chars_of(list)
    }
}
