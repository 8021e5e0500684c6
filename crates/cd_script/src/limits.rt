// Limits on the tokens.
ghost use Rattle.std.specs.Prelude.{◌≡◌, ◌≤◌, ◌+◌};
ghost use Rattle.cd_grammar.specs.Limits as spec;
ghost use Rattle.cd_script.specs.Reader.{bounds_of};

use cd_elem::{CountedWord, Keyword, LimitKind, Sign, Token};

/// How many bytes a script's text has at most.
pub const TEXT_LIMIT: usize = 65_536;

/// How many tokens it has at most.
pub const TOKEN_LIMIT: usize = 8192;

/// How many brackets are open at most.
pub const DEPTH_LIMIT: usize = 32;

/// How many bytes the value of a literal has at most.
pub const LITERAL_LIMIT: usize = 4096;

/// How many bytes a name has at most.
pub const NAME_LIMIT: usize = 64;

/// The greatest number of times that something is repeated.
pub const REPEAT_LIMIT: u64 = 4096;

/// The greatest length of pieces.
pub const LENGTH_LIMIT: u64 = 65_536;

/// The greatest number of elements or pieces that are collected.
pub const COLLECT_LIMIT: u64 = 16_777_216;

/// The greatest byte.
pub const BYTE_LIMIT: u64 = 255;

/// The greatest number of copies of a piece.
pub const COPY_LIMIT: u64 = 1_099_511_627_776;

/// The numbers that may stand in a place, both ends included.
#[derive(Clone, Copy)]
pub struct Bounds {
    pub least: u64,
    pub most: u64,
}

/// The first limit that this token passes, behind so many tokens and open brackets.
pub fn limit_of(count: usize, opened: usize, bounds: Bounds, token: &Token) -> Option<LimitKind>
    ensures { result ≡ spec.limit_of count opened (bounds_of bounds) token.now }
{
    if count >= TOKEN_LIMIT {
        return Some(LimitKind::Tokens);
    }
    if opened >= DEPTH_LIMIT && opens_bracket(token) {
        return Some(LimitKind::Depth);
    }
    if is_too_long(token) {
        return Some(LimitKind::Literal);
    }
    if is_outside(bounds, token) {
        return Some(LimitKind::Number);
    }
    None
}

fn opens_bracket(token: &Token) -> bool
    ensures { result ≡ spec.opens_bracket token.now }
{
    match token {
        Token::Sign(sign) => sign_opens_bracket(*sign),
        _ => false,
    }
}

fn sign_opens_bracket(sign: Sign) -> bool
    ensures { result ≡ spec.sign_opens_bracket sign }
{
    matches!(sign, Sign::OpenBrace | Sign::OpenParen | Sign::OpenSquare)
}

fn is_too_long(token: &Token) -> bool
    ensures { result ≡ spec.is_too_long token.now }
{
    match token {
        Token::Text(text) => text.as_str().len() > LITERAL_LIMIT,
        Token::Named(name) => name.as_str().len() > NAME_LIMIT,
        _ => false,
    }
}

fn is_outside(bounds: Bounds, token: &Token) -> bool
    ensures { result ≡ spec.is_outside (bounds_of bounds) token.now }
{
    match token {
        Token::Number(None) => true,
        Token::Number(Some(number)) => *number < bounds.least || *number > bounds.most,
        _ => false,
    }
}

/// How many brackets are open behind this token.
pub fn brackets_with(opened: usize, token: &Token) -> usize
    requires { opened + 1 ≤ usize.MAX }
    ensures value { result ≡ spec.brackets_with opened token.now }
    ensures within { result ≤ opened + 1 }
{
    match token {
        Token::Sign(sign) => brackets_with_sign(opened, *sign),
        _ => opened,
    }
}

fn brackets_with_sign(opened: usize, sign: Sign) -> usize
    requires { opened + 1 ≤ usize.MAX }
    ensures value { result ≡ spec.brackets_with_sign opened sign }
    ensures within { result ≤ opened + 1 }
{
    match sign {
        Sign::OpenBrace | Sign::OpenParen | Sign::OpenSquare => opened + 1,
        Sign::CloseBrace | Sign::CloseParen | Sign::CloseSquare => opened.saturating_sub(1),
        _ => opened,
    }
}

/// The numbers that may stand behind this token.
pub fn bounds_behind(token: &Token) -> Bounds
    ensures { bounds_of result ≡ spec.bounds_behind token.now }
{
    match token {
        Token::Word(word) => keyword_bounds(*word),
        Token::Text(_) => length_bounds(),
        _ => every_number(),
    }
}

fn keyword_bounds(word: Keyword) -> Bounds
    ensures { bounds_of result ≡ spec.keyword_bounds word }
{
    match word {
        Keyword::Counted(word) => counted_bounds(word),
        Keyword::NumberMap(_) => up_to(BYTE_LIMIT),
        Keyword::Replicate => up_to(COPY_LIMIT),
        _ => every_number(),
    }
}

fn counted_bounds(word: CountedWord) -> Bounds
    ensures { bounds_of result ≡ spec.counted_bounds word }
{
    match word {
        CountedWord::TakeE => every_number(),
        CountedWord::RepeatE => up_to(REPEAT_LIMIT),
        CountedWord::DropE => every_number(),
        CountedWord::CollectE => up_to(COLLECT_LIMIT),
        CountedWord::Take => every_number(),
        CountedWord::Repeat => up_to(REPEAT_LIMIT),
        CountedWord::Drop => every_number(),
        CountedWord::Collect => up_to(COLLECT_LIMIT),
        CountedWord::Lines => length_bounds(),
        CountedWord::Exact => length_bounds(),
        CountedWord::ChunksOf => length_bounds(),
    }
}

fn length_bounds() -> Bounds
    ensures { bounds_of result ≡ spec.length_bounds }
{
    Bounds {
        least: 1,
        most: LENGTH_LIMIT,
    }
}

fn up_to(most: u64) -> Bounds
    ensures { bounds_of result ≡ spec.bounds 0 most }
{
    Bounds { least: 0, most }
}

pub fn every_number() -> Bounds
    ensures { bounds_of result ≡ spec.every_number }
{
    Bounds {
        least: 0,
        most: u64::MAX,
    }
}
