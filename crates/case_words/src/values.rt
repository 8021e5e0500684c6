// How a case writes a value.
use case_notation::CaseError;
use cd_elem::Value;

#[cycle(values)]
pub fn push_value(text: &mut String, value: &Value) -> Result<(), CaseError> {
    match value {
        Value::Unit => text.push_str("unit")?,
        Value::Num(number) => write!(text, "num {number}")?,
        Value::Bool(answer) => write!(text, "{answer}")?,
        Value::Byte(byte) => write!(text, "byte {byte}")?,
        Value::Char(character) => write!(text, "char {}", u32::from(*character))?,
        Value::Maybe(None) => text.push_str("none")?,
        Value::Maybe(Some(inner)) => {
            text.push_str("some ")?;
            push_value(text, inner.get())?;
        }
        Value::BytesV(bytes) => push_bytes(text, bytes.as_slice())?,
        Value::TextV(chars) => push_chars(text, chars.as_slice())?,
        Value::Pair(first, second) => {
            text.push_str("pair ")?;
            push_value(text, first.get())?;
            text.push_str(", ")?;
            push_value(text, second.get())?;
        }
        Value::ListV(values) => push_list(text, values.as_slice())?,
    }
    Ok(())
}

#[cycle(values)]
fn push_list(text: &mut String, values: &[Value]) -> Result<(), CaseError> {
    text.push_str("list [")?;
    push_values(text, values)?;
    text.push_str("]")?;
    Ok(())
}

#[cycle(values)]
fn push_values(text: &mut String, values: &[Value]) -> Result<(), CaseError> {
    for (place, value) in values.iter().enumerate() {
        text.push_str(if place == 0 { "" } else { ", " })?;
        push_value(text, value)?;
    }
    Ok(())
}

fn push_bytes(text: &mut String, bytes: &[u8]) -> Result<(), CaseError> {
    text.push_str("bytes")?;
    for byte in bytes {
        write!(text, " {byte}")?;
    }
    Ok(())
}

fn push_chars(text: &mut String, chars: &[char]) -> Result<(), CaseError> {
    text.push_str("text")?;
    for character in chars {
        write!(text, " {}", u32::from(*character))?;
    }
    Ok(())
}
