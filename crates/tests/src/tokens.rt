// A text with its tokens.
use cd_elem::{Join, Keyword, Literal, Name, NoMemory, PlainWord, Sign, Token, Zip};
use cd_lex::{lex, push_spaced};
use std::alloc::Global;

#[test]
fn tokens(rt: HostRuntime) {
    let text = "let a1 = # all\n \"\\u{41}\" 20 |&";
    let lexed = lex(rt.alloc(), text).expect(&rt, "memory");
    assert!(rt; lexed.whole);
    assert!(rt; lexed.stop == 30);
    let places = [0, 4, 7, 16, 25, 28];
    assert!(rt; lexed.lexemes.len() == places.len());
    for (lexeme, place) in lexed.lexemes.as_slice().iter().zip(places) {
        assert!(rt; lexeme.at == place);
    }
}

/// How tokens are spelled, one behind the other.
const SPELLINGS: [&str; 11] = [
    "zipSink",
    "(",
    "utf8Lenient",
    " |&",
    " 0",
    " 18446744073709551615",
    " ",
    ")",
    " a1",
    " \"~\u{e9}\\\\\\\"\\n\\r\\t\\u{f}\\u{10}\\u{1f}\\u{7f}\"",
    ";",
];

/// The token that is spelled at a place.
fn token_at(alloc: Global, place: usize) -> Result<Token, NoMemory> {
    let token = match place {
        0 => Token::Word(Keyword::Zip(Zip::Sink)),
        1 => Token::Sign(Sign::OpenParen),
        2 => Token::Word(Keyword::Plain(PlainWord::Utf8Lenient)),
        3 => Token::Sign(Sign::Operator(Join::Both)),
        4 => Token::Number(Some(0)),
        5 => Token::Number(Some(18446744073709551615)),
        6 => Token::Number(None),
        7 => Token::Sign(Sign::CloseParen),
        8 => Token::Named(Name::new(alloc, "a1")?),
        9 => Token::Text(Literal::new(alloc, "~\u{e9}\\\"\n\r\t\u{f}\u{10}\u{1f}\u{7f}")?),
        _ => Token::Sign(Sign::Semicolon),
    };
    Ok(token)
}

#[test]
fn spellings(rt: HostRuntime) {
    let alloc = rt.alloc();
    let mut tokens = Vec::new(alloc);
    let mut wanted = String::from_str(alloc, "# ").expect(&rt, "memory");
    for (place, spelling) in SPELLINGS.iter().enumerate() {
        let token = token_at(alloc, place).expect(&rt, "memory");
        tokens
            .push(token)
            .map_err(|_| NoMemory)
            .expect(&rt, "memory");
        wanted.push_str(spelling).expect(&rt, "memory");
    }
    let mut text = String::from_str(alloc, "# ").expect(&rt, "memory");
    push_spaced(&mut text, &tokens).expect(&rt, "memory");
    assert!(rt; text.as_str() == wanted.as_str());
}
