// How tokens are written.
ghost use Rattle.std.specs.Prelude.{◌≡◌, ◌++◌, OnOk, false, string_bytes, decimal, encode_utf8};
ghost use Rattle.std.specs.Fmt.{digits};
ghost use Rattle.std.specs.List.{flat_map};
ghost use Rattle.cd_grammar.specs.CanonicalText as layout;
ghost use Rattle.cd_grammar.specs.Spelling as spec;

use crate::keywords::spelled_word;
use cd_elem::{Join, Keyword, NoMemory, Sign, Token};

fn spelled_join(join: Join) -> &'static str
    ensures { result.now ≡ spec.spelled_join join }
{
    match join {
        Join::Plain => "|",
        Join::Keep => "|=",
        Join::Return => "|+",
        Join::Both => "|&",
        Join::Up => "|<",
        Join::Asked => "|?",
    }
}

fn spelled_sign(sign: Sign) -> &'static str
    ensures { result.now ≡ spec.spelled_sign sign }
{
    match sign {
        Sign::Operator(join) => spelled_join(join),
        Sign::OpenBrace => "{",
        Sign::CloseBrace => "}",
        Sign::OpenParen => "(",
        Sign::CloseParen => ")",
        Sign::OpenSquare => "[",
        Sign::CloseSquare => "]",
        Sign::Comma => ",",
        Sign::Semicolon => ";",
        Sign::Equals => "=",
    }
}

fn push_number(text: &mut String, number: u64) -> Result<(), NoMemory>
    ensures { OnOk result (string_bytes text.new ≡ string_bytes text.old ++ decimal number) }
{
    write!(text, "{number}")?;
    Ok(())
}

/// An escape by as few hexadecimal digits as serve.
fn push_by_digits(text: &mut String, code: u8) -> Result<(), NoMemory>
    ensures { OnOk result (string_bytes text.new ≡ string_bytes text.old ++ spec.by_digits (digits 16 false code)) }
{
    text.push_str("\\u{")?;
    write!(text, "{code:x}")?;
    text.push_str("}")?;
    Ok(())
}

/// A character of a literal.
fn push_escaped(text: &mut String, scalar: char) -> Result<(), NoMemory>
    ensures { OnOk result (string_bytes text.new ≡ string_bytes text.old ++ flat_map spec.escaped (encode_utf8 scalar)) }
{
    match scalar {
        '\\' => text.push_str("\\\\")?,
        '"' => text.push_str("\\\"")?,
        '\n' => text.push_str("\\n")?,
        '\r' => text.push_str("\\r")?,
        '\t' => text.push_str("\\t")?,
        _ if scalar.is_ascii_control() => push_by_digits(text, scalar as u8)?,
        _ => text.push(scalar)?,
    }
    Ok(())
}

fn push_inside(text: &mut String, value: &str) -> Result<(), NoMemory>
    ensures { OnOk result (string_bytes text.new ≡ string_bytes text.old ++ flat_map spec.escaped value.now) }
{
    for scalar in value.chars() {
        push_escaped(text, scalar)?;
    }
    Ok(())
}

fn push_quoted(text: &mut String, value: &str) -> Result<(), NoMemory>
    ensures { OnOk result (string_bytes text.new ≡ string_bytes text.old ++ spec.quoted value.now) }
{
    text.push_str("\"")?;
    push_inside(text, value)?;
    text.push_str("\"")?;
    Ok(())
}

fn push_token(text: &mut String, token: &Token) -> Result<(), NoMemory>
    ensures { OnOk result (string_bytes text.new ≡ string_bytes text.old ++ spec.spelled token.now) }
{
    match token {
        Token::Word(word) => text.push_str(spelled_word(*word))?,
        Token::Sign(sign) => text.push_str(spelled_sign(*sign))?,
        Token::Number(Some(number)) => push_number(text, *number)?,
        Token::Number(None) => {}
        Token::Text(literal) => push_quoted(text, literal.as_str())?,
        Token::Named(name) => text.push_str(name.as_str())?,
    }
    Ok(())
}

/// No blank stands before these.
fn takes_no_blank_before(token: &Token) -> bool
    ensures { result ≡ layout.takes_no_blank_before token.now }
{
    matches!(
        token,
        Token::Sign(Sign::Comma | Sign::Semicolon | Sign::CloseParen | Sign::CloseSquare)
    )
}

/// Nor behind these.
fn takes_no_blank_behind(token: &Token) -> bool
    ensures { result ≡ layout.takes_no_blank_behind token.now }
{
    matches!(token, Token::Sign(Sign::OpenParen | Sign::OpenSquare))
}

/// Nor between one of these words and its parenthesis.
fn is_call(token: &Token) -> bool
    ensures { result ≡ layout.is_call token.now }
{
    matches!(token, Token::Word(Keyword::Tee | Keyword::Zip(_)))
}

fn is_paren(token: &Token) -> bool
    ensures { result ≡ layout.is_paren token.now }
{
    matches!(token, Token::Sign(Sign::OpenParen))
}

fn blank_between(before: &Token, behind: &Token) -> &'static str
    ensures { result.now ≡ layout.blank_between before.now behind.now }
{
    if takes_no_blank_behind(before)
        || takes_no_blank_before(behind)
        || (is_call(before) && is_paren(behind))
    {
        ""
    } else {
        " "
    }
}

fn push_behind(text: &mut String, first: &Token, rest: &[Token]) -> Result<(), NoMemory>
    ensures { OnOk result (string_bytes text.new ≡ string_bytes text.old ++ layout.spelled_behind first.now rest.now) }
{
    let mut before = first;
    for token in rest {
        text.push_str(blank_between(before, token))?;
        push_token(text, token)?;
        before = token;
    }
    Ok(())
}

/// Adds the tokens to the end of a text, with blanks between them where the canonical text has blanks. After an error
/// some of them may stand there.
pub fn push_spaced(text: &mut String, tokens: &[Token]) -> Result<(), NoMemory>
    ensures { OnOk result (string_bytes text.new ≡ string_bytes text.old ++ layout.spaced tokens.now) }
{
    match tokens {
        [] => Ok(()),
        [first, rest @ ..] => {
            push_token(text, first)?;
            push_behind(text, first, rest)
        }
    }
}
