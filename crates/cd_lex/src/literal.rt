// The literal at the front of a text.
ghost use Rattle.std.specs.Prelude.{◌≡◌, ◌<◌, ◌≤◌, ◌+◌, ◌*◌, ◌++◌, ◌∷◌, [], length, encode_utf8, IfOk};
ghost use Rattle.std.specs.Str.{IsUtf8};
ghost use Rattle.cd_elem.specs.Base16 as base16;
ghost use Rattle.cd_lex.specs.Quotes as quotes;
ghost use Rattle.cd_grammar.specs.Literals as spec;

use cd_elem::{ByteList, Items, Literal, NoMemory, Token};
use std::alloc::Global;

/// The literal whose opening quote stands before this text, and its length.
pub fn read_literal(alloc: Global, text: &[u8]) -> Result<Option<(Token, usize)>, NoMemory>
    requires { IsUtf8 text.now }
    ensures { IfOk result (λ found. found ≡ quotes.literal_found text.now) }
{
    match read_quoted(alloc, text)? {
        None => Ok(None),
        Some((bytes, size)) => match String::from_utf8(bytes.into_vec()) {
            Ok(text) => Ok(Some((Token::Text(Literal::from(text)), size + 1))),
            Err(_) => unreachable!(),
        },
    }
}

/// Where in a literal the next byte stands: behind how many digits of a number, and its value so far.
#[derive(Clone, Copy)]
enum LiteralState {
    Plain,
    Escape,
    Unicode,
    Digits(u32, u32),
}

/// What a byte makes of it. Behind a byte or a character of the value the next one is plain.
#[derive(Clone, Copy)]
enum LiteralStep {
    Closes,
    Fails,
    Goes(LiteralState),
    Byte(u8),
    Char(char),
}

/// The value of the literal whose opening quote stands before this text, and its bytes behind that quote.
fn read_quoted(alloc: Global, text: &[u8]) -> Result<Option<(ByteList, usize)>, NoMemory>
    ensures value { IfOk result (λ found. found ≡ quotes.literal_from quotes.plain text.now) }
    ensures within { IfOk result (λ found. quotes.IsFoundWithin found (length text.now)) }
{
    let mut bytes: ByteList = Items::new(alloc);
    let mut reading = LiteralState::Plain;
    for (place, byte) in text.iter().enumerate() {
        match read_byte(reading, *byte) {
            LiteralStep::Closes => return Ok(Some((bytes, place + 1))),
            LiteralStep::Fails => {
                drop(bytes);
                return Ok(None);
            }
            LiteralStep::Goes(next) => reading = next,
            LiteralStep::Byte(meant) => {
                bytes = with_byte(bytes, meant)?;
                reading = LiteralState::Plain;
            }
            LiteralStep::Char(scalar) => {
                bytes = with_char(bytes, scalar)?;
                reading = LiteralState::Plain;
            }
        }
    }
    drop(bytes);
    Ok(None)
}

fn read_byte(reading: LiteralState, byte: u8) -> LiteralStep
    requires { quotes.Fits reading }
    ensures value { result ≡ quotes.read_byte reading byte }
    ensures fits { quotes.Continues result }
{
    match reading {
        LiteralState::Plain => read_plain(byte),
        LiteralState::Escape => read_escape(byte),
        LiteralState::Unicode => read_unicode(byte),
        LiteralState::Digits(count, value) => read_digit(count, value, byte),
    }
}

fn read_plain(byte: u8) -> LiteralStep
    ensures { result ≡ quotes.read_plain byte }
{
    match byte {
        b'"' => LiteralStep::Closes,
        b'\\' => LiteralStep::Goes(LiteralState::Escape),
        b'\n' => LiteralStep::Fails,
        _ => LiteralStep::Byte(byte),
    }
}

fn read_escape(byte: u8) -> LiteralStep
    ensures { result ≡ quotes.read_escape byte }
{
    match short_escape(byte) {
        Some(meant) => LiteralStep::Byte(meant),
        None if byte == b'u' => LiteralStep::Goes(LiteralState::Unicode),
        None => LiteralStep::Fails,
    }
}

fn short_escape(byte: u8) -> Option<u8>
    ensures { result ≡ spec.short_escape byte }
{
    match byte {
        b'\\' => Some(b'\\'),
        b'"' => Some(b'"'),
        b'n' => Some(b'\n'),
        b'r' => Some(b'\r'),
        b't' => Some(b'\t'),
        _ => None,
    }
}

fn read_unicode(byte: u8) -> LiteralStep
    ensures { result ≡ quotes.read_unicode byte }
{
    match byte {
        b'{' => LiteralStep::Goes(LiteralState::Digits(0, 0)),
        _ => LiteralStep::Fails,
    }
}

fn read_digit(count: u32, value: u32, byte: u8) -> LiteralStep
    requires { quotes.HasDigits count value }
    ensures value { result ≡ quotes.read_digit count value byte }
    ensures fits { quotes.Continues result }
{
    if byte == b'}' {
        return scalar_of(count, value);
    }
    if count >= 6 {
        return LiteralStep::Fails;
    }
    match hex_value(byte) {
        None => LiteralStep::Fails,
        Some(digit) => LiteralStep::Goes(LiteralState::Digits(
            count + 1,
            value * 16 + u32::from(digit),
        )),
    }
}

fn hex_value(byte: u8) -> Option<u8>
    ensures value { result ≡ base16.hex_value byte }
    ensures small { quotes.IsSmall result }
{
    match byte {
        b'0'..=b'9' => Some(byte - b'0'),
        b'a'..=b'f' => Some(byte - b'a' + 10),
        b'A'..=b'F' => Some(byte - b'A' + 10),
        _ => None,
    }
}

/// The character of so many digits.
fn scalar_of(count: u32, value: u32) -> LiteralStep
    ensures { result ≡ quotes.scalar_of count value }
{
    if count == 0 {
        return LiteralStep::Fails;
    }
    match char::from_u32(value) {
        Some(scalar) => LiteralStep::Char(scalar),
        None => LiteralStep::Fails,
    }
}

fn with_byte(mut bytes: ByteList, byte: u8) -> Result<ByteList, NoMemory>
    ensures { IfOk result (λ longer. longer ≡ bytes ++ byte ∷ []) }
{
    match bytes.push(byte) {
        Ok(()) => Ok(bytes),
        Err(_) => {
            drop(bytes);
            Err(NoMemory)
        }
    }
}

fn with_char(mut bytes: ByteList, scalar: char) -> Result<ByteList, NoMemory>
    ensures { IfOk result (λ longer. longer ≡ bytes ++ encode_utf8 scalar) }
{
    let mut room = [0; 4];
    match bytes.extend_from_slice(scalar.encode_utf8(&mut room).as_bytes()) {
        Ok(()) => Ok(bytes),
        Err(NoMemory) => {
            drop(bytes);
            Err(NoMemory)
        }
    }
}
