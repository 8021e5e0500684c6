// The tokens of a text, one behind another.
ghost use Rattle.std.specs.Prelude.{◌≡◌, ◌≤◌, false, length, IfOk};
ghost use Rattle.cd_grammar.specs.Lexemes as spec;
ghost use Rattle.cd_grammar.specs.Limits.{text_limit};
ghost use Rattle.std.specs.Str.{IsUtf8};
ghost use Rattle.cd_lex.specs.NextLexeme.{FindsNext};

use crate::longest_token::longest_token;
use cd_elem::{Items, Lexeme, NoMemory, Token};
use std::alloc::Global;

/// The tokens of a text, up to its end or to the first place where none begins.
#[derive(Drop)]
pub struct Lexed {
    pub lexemes: Items<Lexeme>,
    pub stop: u32,
    pub whole: bool,
}

/// The tokens of a text. A `lexed.stop` is the text's length where the tokens are those of the whole text, and else
/// the first place where no token begins.
pub fn lex(alloc: Global, text: &str) -> Result<Lexed, NoMemory>
    requires { length text.now ≤ text_limit }
    ensures { IfOk result (λ it. spec.Tokenizes text.now it.lexemes it.stop it.whole) }
{
    let text = text.as_bytes();
    let mut lexemes: Items<Lexeme> = Items::new(alloc);
    let mut at = 0;
    let mut zero = false;
    // The proof calls the loop by its label.
    'tokens: loop {
        match next_lexeme(alloc, text, at, zero) {
            Err(NoMemory) => {
                drop(lexemes);
                return Err(NoMemory);
            }
            Ok(NextLexeme::Stop(place, whole)) => {
                return Ok(Lexed {
                    lexemes,
                    stop: place as u32,
                    whole,
                });
            }
            Ok(NextLexeme::Next(lexeme, size)) => {
                at = lexeme.at as usize + size;
                zero = is_zero(&lexeme.token);
                if let Err(lexeme) = lexemes.push(lexeme) {
                    drop((lexeme, lexemes));
                    return Err(NoMemory);
                }
            }
        }
    }
}

/// What stands next in a text: a token and its size, or the place where none begins.
#[derive(Drop)]
enum NextLexeme {
    Next(Lexeme, usize),
    Stop(usize, bool),
}

fn next_lexeme(alloc: Global, text: &[u8], at: usize, zero: bool) -> Result<NextLexeme, NoMemory>
    requires at { at ≤ length text.now }
    requires short { length text.now ≤ text_limit }
    requires utf8 { IsUtf8 text.now }
    ensures { IfOk result (λ look. FindsNext text.now at zero look) }
{
    let rest = &text[at..];
    let start = at + gap_length(rest);
    if start == text.len() {
        return Ok(NextLexeme::Stop(start, true));
    }
    if zero && begins_digit(rest) {
        return Ok(NextLexeme::Stop(start, false));
    }
    match longest_token(alloc, &text[start..])? {
        None => Ok(NextLexeme::Stop(start, false)),
        Some((token, size)) => {
            let at = start as u32;
            Ok(NextLexeme::Next(Lexeme { token, at }, size))
        }
    }
}

#[tactic(auto, using(crate::proofs::Gaps::gaps))]
fn gap_length(text: &[u8]) -> usize
    ensures value { result ≡ spec.gap_length false text.now }
    ensures within { result ≤ length text.now }
{
    let mut comment = false;
    for (place, byte) in text.iter().enumerate() {
        if !is_in_gap(comment, *byte) {
            return place;
        }
        comment = comment_goes_on(comment, *byte);
    }
    text.len()
}

fn is_in_gap(comment: bool, byte: u8) -> bool
    ensures { result ≡ spec.is_in_gap comment byte }
{
    comment || matches!(byte, b' ' | b'\t' | b'\r' | b'\n' | b'#')
}

fn comment_goes_on(comment: bool, byte: u8) -> bool
    ensures { result ≡ spec.comment_goes_on comment byte }
{
    if comment {
        return byte != b'\n';
    }
    byte == b'#'
}

fn begins_digit(text: &[u8]) -> bool
    ensures { result ≡ spec.begins_digit text.now }
{
    match text {
        [first, ..] => first.is_ascii_digit(),
        [] => false,
    }
}

fn is_zero(token: &Token) -> bool
    ensures { result ≡ spec.is_zero token.now }
{
    match token {
        Token::Number(Some(number)) => *number == 0,
        _ => false,
    }
}
