// Classes and maps of elements, by their numbers.
ghost use Rattle.std.specs.Prelude.{◌≡◌, ◌+◌, ◌<◌, ◌≤◌};
ghost use Rattle.cd_meaning.specs.Classes.{from_to, is_named, is_in_class, element_mapped, rot13, turned};
ghost use Rattle.cd_elemwise.specs.Carried.{IsLetters};

use cd_elem::{ByteMap, Class, ClassName};

fn is_from_to(low: u32, high: u32, number: u32) -> bool
    ensures { result ≡ from_to low high number }
{
    low <= number && number <= high
}

fn is_of_name(name: ClassName, number: u32) -> bool
    ensures { result ≡ is_named name number }
{
    match name {
        ClassName::Digit => is_from_to(48, 57, number),
        ClassName::Upper => is_from_to(65, 90, number),
        ClassName::Lower => is_from_to(97, 122, number),
        ClassName::Alpha => is_from_to(65, 90, number) || is_from_to(97, 122, number),
        ClassName::Alnum => {
            is_from_to(65, 90, number) || is_from_to(97, 122, number) || is_from_to(48, 57, number)
        }
        ClassName::Hexdigit => {
            is_from_to(48, 57, number) || is_from_to(65, 70, number) || is_from_to(97, 102, number)
        }
        ClassName::Space => is_from_to(9, 13, number) || number == 32,
        ClassName::Newline => number == 10,
        ClassName::Is(one) => number == u32::from(one),
        ClassName::Below(bound) => u64::from(number) < bound,
    }
}

/// Whether the element with this number is in the class.
pub fn is_in(class: Class, number: u32) -> bool
    ensures { result ≡ is_in_class class number }
{
    if class.negated {
        !is_of_name(class.what, number)
    } else {
        is_of_name(class.what, number)
    }
}

/// The letter 13 places on, in a circle of 26 that starts at `first`.
fn turn(first: u8, byte: u8) -> u8
    requires start { first ≤ 97 }
    requires above { first ≤ byte }
    requires within { byte ≤ first + 25 }
    ensures { result ≡ turned first byte }
{
    first + (byte - first + 13) % 26
}

/// Letters of a case 13 places on.
fn turn_letter(byte: u8) -> u8
    ensures { result ≡ rot13 byte }
{
    if is_from_to(65, 90, u32::from(byte)) {
        turn(65, byte)
    } else if is_from_to(97, 122, u32::from(byte)) {
        turn(97, byte)
    } else {
        byte
    }
}

/// What the map makes of a byte.
pub fn map_byte(map: ByteMap, byte: u8) -> u8
    ensures { result ≡ element_mapped map byte }
{
    match map {
        ByteMap::Xor(other) => byte ^ other,
        ByteMap::Add(other) => byte.wrapping_add(other),
        ByteMap::Rot13 => turn_letter(byte),
    }
}

/// What the map of letters makes of a character.
pub fn map_char(map: ByteMap, character: char) -> char
    requires { IsLetters map }
    ensures { result ≡ element_mapped map character }
{
    match map {
        ByteMap::Rot13 => {
            let number = u32::from(character);
            if number < 128 {
                char::from(turn_letter(number as u8))
            } else {
                character
            }
        }
        ByteMap::Xor(_) | ByteMap::Add(_) => character,
    }
}
