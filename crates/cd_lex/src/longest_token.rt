// The longest token at the front of a text.
ghost use Rattle.std.specs.Prelude.{◌≡◌, ◌≤◌, length, take, IfOk};
ghost use Rattle.std.specs.Char.{is_ascii_alphanumeric, is_ascii_digit};
ghost use Rattle.std.specs.List.{prefix_len};
ghost use Rattle.std.specs.Str.{IsAscii};
ghost use Rattle.cd_lex.specs.LongestToken as scanner;
ghost use Rattle.cd_grammar.specs.Keywords as words;
ghost use Rattle.cd_grammar.specs.Tokens as spec;

use crate::keywords::reserved;
use crate::literal::read_literal;
use cd_elem::{Join, Name, NoMemory, Sign, Token};
use std::alloc::Global;

/// The longest token at the front of a text, and its length. Where the front is a quote, all of it has to be a text.
pub fn longest_token(alloc: Global, text: &[u8]) -> Result<Option<(Token, usize)>, NoMemory>
    requires { scanner.IsQuoted text.now }
    ensures { IfOk result (λ found. scanner.FindsLongest text.now found) }
{
    find_token(alloc, text)
}

fn find_token(alloc: Global, text: &[u8]) -> Result<Option<(Token, usize)>, NoMemory>
    requires { scanner.IsQuoted text.now }
    ensures { IfOk result (λ found. found ≡ scanner.token_found text.now) }
{
    match text {
        [] => Ok(None),
        [first, rest @ ..] => match *first {
            first if first.is_ascii_alphabetic() => {
                find_name(alloc, text, count_alphanumerics(rest) + 1)
            }
            b'0' => Ok(Some((Token::Number(Some(0)), 1))),
            first if first.is_ascii_digit() => Ok(find_number(text, count_digits(rest) + 1)),
            b'"' => read_literal(alloc, rest),
            first => Ok(find_sign(first, rest)),
        },
    }
}

fn find_name(alloc: Global, text: &[u8], size: usize) -> Result<Option<(Token, usize)>, NoMemory>
    requires within { size ≤ length text.now }
    requires ascii { IsAscii (take size text.now) }
    ensures { IfOk result (λ found. found ≡ scanner.name_found text.now size) }
{
    let token = name_or_keyword(alloc, &text[..size])?;
    Ok(Some((token, size)))
}

#[tactic(auto, using(std::proofs::lemmas::List::Sums::prefix_len_is))]
fn count_alphanumerics(text: &[u8]) -> usize
    ensures value { result ≡ prefix_len is_ascii_alphanumeric text.now }
    ensures within { result ≤ length text.now }
{
    for (place, byte) in text.iter().enumerate() {
        if !byte.is_ascii_alphanumeric() {
            return place;
        }
    }
    text.len()
}

fn name_or_keyword(alloc: Global, name: &[u8]) -> Result<Token, NoMemory>
    requires { IsAscii name.now }
    ensures { IfOk result (λ token. token ≡ spec.name_or_keyword name.now (words.reserved name.now)) }
{
    match reserved(name) {
        Some(word) => Ok(Token::Word(word)),
        None => match str::from_utf8(name) {
            Ok(name) => Ok(Token::Named(Name::new(alloc, name)?)),
            Err(_) => unreachable!(),
        },
    }
}

fn find_number(text: &[u8], size: usize) -> Option<(Token, usize)>
    requires { size ≤ length text.now }
    ensures { result ≡ scanner.number_found text.now size }
{
    Some((Token::Number(number_value(&text[..size])), size))
}

#[tactic(auto, using(std::proofs::lemmas::List::Sums::prefix_len_is))]
fn count_digits(text: &[u8]) -> usize
    ensures value { result ≡ prefix_len is_ascii_digit text.now }
    ensures within { result ≤ length text.now }
{
    for (place, byte) in text.iter().enumerate() {
        if !byte.is_ascii_digit() {
            return place;
        }
    }
    text.len()
}

/// The number that decimal digits are. None where it passes 64 bits.
#[tactic(auto, using(crate::proofs::Digits::numbers))]
pub fn number_value(digits: &[u8]) -> Option<u64>
    ensures { result ≡ spec.number_value digits.now }
{
    let mut value: u64 = 0;
    for byte in digits {
        let digit = u64::from(byte.saturating_sub(b'0'));
        value = value.checked_mul(10)?.checked_add(digit)?;
    }
    Some(value)
}

fn find_sign(first: u8, rest: &[u8]) -> Option<(Token, usize)>
    ensures { result ≡ scanner.sign_found first rest.now }
{
    match rest {
        [second, ..] if first == b'|' => match bar_sign(*second) {
            None => Some((Token::Sign(Sign::Operator(Join::Plain)), 1)),
            Some(sign) => Some((Token::Sign(sign), 2)),
        },
        _ => sign_of_size(1, one_sign(first)),
    }
}

fn one_sign(sign: u8) -> Option<Sign>
    ensures { result ≡ spec.one_sign sign }
{
    match sign {
        b'|' => Some(Sign::Operator(Join::Plain)),
        b'{' => Some(Sign::OpenBrace),
        b'}' => Some(Sign::CloseBrace),
        b'(' => Some(Sign::OpenParen),
        b')' => Some(Sign::CloseParen),
        b'[' => Some(Sign::OpenSquare),
        b']' => Some(Sign::CloseSquare),
        b',' => Some(Sign::Comma),
        b';' => Some(Sign::Semicolon),
        b'=' => Some(Sign::Equals),
        _ => None,
    }
}

fn bar_sign(sign: u8) -> Option<Sign>
    ensures { result ≡ spec.bar_sign sign }
{
    match sign {
        b'=' => Some(Sign::Operator(Join::Keep)),
        b'+' => Some(Sign::Operator(Join::Return)),
        b'&' => Some(Sign::Operator(Join::Both)),
        b'<' => Some(Sign::Operator(Join::Up)),
        b'?' => Some(Sign::Operator(Join::Asked)),
        _ => None,
    }
}

fn sign_of_size(size: usize, sign: Option<Sign>) -> Option<(Token, usize)>
    ensures { result ≡ scanner.sign_of_size size sign }
{
    sign.map(|sign| (Token::Sign(sign), size))
}
