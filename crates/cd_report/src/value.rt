// The text of a value.
ghost use Rattle.std.specs.Prelude.{◌≡◌, ◌++◌, ◌∷◌, ◌<◌, ◌≤◌, [], OnOk, IfOk, string_bytes, decimal, codes, encode_utf8, map};
ghost use Rattle.std.specs.List.{flat_map};
ghost use Rattle.cd_elem.specs.Base16.{hex_digit, hex_digits};
ghost use Rattle.cd_meaning.specs.ValueText as meaning;
ghost use Rattle.cd_meaning.specs.Values.{value_meaning};
ghost use Rattle.cd_report.specs.ValueText as spec;

use cd_elem::{NoMemory, Value};
use std::alloc::Global;

/// The text of a value, as a line of results shows it. Numbers are decimal. Bytes and characters stand in double quotes, with
/// escapes for quotes, backslashes and control characters, and for bytes that are not ASCII.
pub fn value_text(alloc: Global, value: &Value) -> Result<String, NoMemory>
    ensures { IfOk result (λ text. string_bytes text ≡ meaning.value_text (value_meaning value.now)) }
{
    let mut text = String::new(alloc);
    push_value(&mut text, value)?;
    Ok(text)
}

fn push(text: &mut String, more: &str) -> Result<(), NoMemory>
    ensures { OnOk result (string_bytes text.new ≡ string_bytes text.old ++ more.now) }
{
    text.push_str(more)?;
    Ok(())
}

fn push_number(text: &mut String, number: u64) -> Result<(), NoMemory>
    ensures { OnOk result (string_bytes text.new ≡ string_bytes text.old ++ decimal number) }
{
    write!(text, "{number}")?;
    Ok(())
}

fn push_itself(text: &mut String, one: char) -> Result<(), NoMemory>
    ensures { OnOk result (string_bytes text.new ≡ string_bytes text.old ++ encode_utf8 one) }
{
    text.push(one)?;
    Ok(())
}

/// A digit of base 16.
#[tactic(auto, using(std::proofs::lemmas::Fmt::hex_one_digit))]
fn push_digit(text: &mut String, digit: u8) -> Result<(), NoMemory>
    requires { digit < 16 }
    ensures { OnOk result (string_bytes text.new ≡ string_bytes text.old ++ hex_digit digit ∷ []) }
{
    write!(text, "{digit:x}")?;
    Ok(())
}

/// The two digits of a byte.
fn push_digits(text: &mut String, byte: u8) -> Result<(), NoMemory>
    ensures { OnOk result (string_bytes text.new ≡ string_bytes text.old ++ hex_digits byte) }
{
    push_digit(text, byte / 16)?;
    push_digit(text, byte % 16)
}

/// As few digits as serve.
fn push_fewest(text: &mut String, byte: u8) -> Result<(), NoMemory>
    ensures { OnOk result (string_bytes text.new ≡ string_bytes text.old ++ spec.fewest_digits byte) }
{
    if byte < 16 {
        push_digit(text, byte)
    } else {
        push_digits(text, byte)
    }
}

/// A control character.
fn push_control(text: &mut String, code: u8) -> Result<(), NoMemory>
    ensures { OnOk result (string_bytes text.new ≡ string_bytes text.old ++ (codes "\\u{" ++ spec.fewest_digits code ++ codes "}")) }
{
    push(text, "\\u{")?;
    push_fewest(text, code)?;
    push(text, "}")
}

/// A character of a text.
fn push_char(text: &mut String, one: char) -> Result<(), NoMemory>
    ensures { OnOk result (string_bytes text.new ≡ string_bytes text.old ++ spec.char_text one) }
{
    match one {
        '"' => push(text, "\\\""),
        '\\' => push(text, "\\\\"),
        '\x7f' => push(text, "\\u{7f}"),
        _ if (one as u32) < 32 => push_control(text, one as u8),
        _ => push_itself(text, one),
    }
}

/// A byte of a block.
#[tactic(auto, using(std::proofs::lemmas::Str::encode_ascii))]
fn push_byte(text: &mut String, byte: u8) -> Result<(), NoMemory>
    ensures { OnOk result (string_bytes text.new ≡ string_bytes text.old ++ spec.byte_text byte) }
{
    match byte {
        b'"' => push(text, "\\\""),
        b'\\' => push(text, "\\\\"),
        32..=126 => push_itself(text, byte as char),
        _ => {
            push(text, "\\x")?;
            push_digits(text, byte)
        }
    }
}

fn push_chars(text: &mut String, chars: &[char]) -> Result<(), NoMemory>
    ensures { OnOk result (string_bytes text.new ≡ string_bytes text.old ++ flat_map spec.char_text chars.now) }
{
    for one in chars {
        push_char(text, *one)?;
    }
    Ok(())
}

fn push_bytes(text: &mut String, bytes: &[u8]) -> Result<(), NoMemory>
    ensures { OnOk result (string_bytes text.new ≡ string_bytes text.old ++ flat_map spec.byte_text bytes.now) }
{
    for byte in bytes {
        push_byte(text, *byte)?;
    }
    Ok(())
}

fn push_quoted_chars(text: &mut String, chars: &[char]) -> Result<(), NoMemory>
    ensures { OnOk result (string_bytes text.new ≡ string_bytes text.old ++ spec.quoted (flat_map spec.char_text chars.now)) }
{
    push(text, "\"")?;
    push_chars(text, chars)?;
    push(text, "\"")
}

fn push_quoted_bytes(text: &mut String, bytes: &[u8]) -> Result<(), NoMemory>
    ensures { OnOk result (string_bytes text.new ≡ string_bytes text.old ++ spec.quoted (flat_map spec.byte_text bytes.now)) }
{
    push(text, "\"")?;
    push_bytes(text, bytes)?;
    push(text, "\"")
}

#[cycle(values)]
#[tactic(auto, using(crate::proofs::ValueTexts::value_texts))]
fn push_value(text: &mut String, value: &Value) -> Result<(), NoMemory>
    ensures { OnOk result (string_bytes text.new ≡ string_bytes text.old ++ meaning.value_text (value_meaning value.now)) }
{
    match value {
        Value::Unit => push(text, "()"),
        Value::Num(number) => push_number(text, *number),
        Value::Bool(true) => push(text, "true"),
        Value::Bool(false) => push(text, "false"),
        Value::Byte(byte) => push_number(text, *byte as u64),
        Value::Char(one) => push_quoted_chars(text, &[*one]),
        Value::BytesV(bytes) => push_quoted_bytes(text, bytes.as_slice()),
        Value::TextV(chars) => push_quoted_chars(text, chars.as_slice()),
        Value::Maybe(None) => push(text, "none"),
        Value::Maybe(Some(inner)) => {
            push(text, "some ")?;
            push_value(text, inner.get())
        }
        Value::Pair(first, second) => {
            push(text, "(")?;
            push_value(text, first.get())?;
            push(text, ", ")?;
            push_value(text, second.get())?;
            push(text, ")")
        }
        Value::ListV(values) => push_list(text, values.as_slice()),
    }
}

#[cycle(values)]
fn push_list(text: &mut String, values: &[Value]) -> Result<(), NoMemory>
    ensures { OnOk result (string_bytes text.new ≡ string_bytes text.old ++ (codes "[" ++ spec.separated [] (map spec.text_of values.now) ++ codes "]")) }
{
    push(text, "[")?;
    push_values(text, values)?;
    push(text, "]")
}

/// What stands before the value at this place of a list.
fn push_comma(text: &mut String, place: usize) -> Result<(), NoMemory>
    ensures { OnOk result (string_bytes text.new ≡ string_bytes text.old ++ spec.comma_before place) }
{
    if place == 0 { Ok(()) } else { push(text, ", ") }
}

#[cycle(values)]
fn push_values(text: &mut String, values: &[Value]) -> Result<(), NoMemory>
    ensures { OnOk result (string_bytes text.new ≡ string_bytes text.old ++ spec.separated [] (map spec.text_of values.now)) }
{
    for (place, value) in values.iter().enumerate() {
        push_comma(text, place)?;
        push_value(text, value)?;
    }
    Ok(())
}
