// The fronts of words and of forms.
ghost use Rattle.std.specs.Prelude.{◌≡◌, ◌∷◌, ◌++◌, [], IfOk, Some};
ghost use Rattle.cd_parser.specs.Machine as spec;

use crate::allocation::{let_go, with_last};
use crate::state::{Block, Extension, Frame, Head};
use crate::word_trees::{
    byte_of, classed_word, counted_word, file_word, list_word, literal_word, map_by_number,
    map_by_text, number_of, only_char, plain_class, plain_word, test_of_end, tested_word,
};
use cd_elem::{
    ByteMap, Class, ClassName, ClassedWord, ElemWord, FileWord, Items, Keyword, ListWord, Literal,
    LiteralList, NoMemory, PieceMap, PieceTest, PieceWord, Sign, SourceWord, SplitWord, TestName,
    TestedWord, Token, Word,
};
use std::alloc::Global;

/// What a token makes of the place where a part is to begin.
pub fn begin_part(alloc: Global, token: &Token) -> Option<Extension>
    ensures { result ≡ spec.begin_part token.now }
{
    match token {
        Token::Word(word) => begin_by_word(*word),
        Token::Sign(sign) => begin_by_sign(alloc, *sign),
        _ => None,
    }
}

fn begin_by_word(word: Keyword) -> Option<Extension>
    ensures { result ≡ spec.begin_by_word word }
{
    match word {
        Keyword::Plain(word) => Some(Extension::Ends(plain_word(word))),
        Keyword::Counted(word) => Some(Extension::Goes(Head::Counted(word))),
        Keyword::Classed(word) => Some(Extension::Goes(Head::Classed(word))),
        Keyword::Tested(word) => Some(Extension::Goes(Head::Tested(word))),
        Keyword::Literal(word) => Some(Extension::Goes(Head::Literal(word))),
        Keyword::File(word) => Some(Extension::Goes(Head::File(word))),
        Keyword::List(word) => Some(Extension::Goes(Head::List(word))),
        Keyword::MapE => Some(Extension::Goes(Head::MapE)),
        Keyword::Map => Some(Extension::Goes(Head::Map)),
        Keyword::Split => Some(Extension::Goes(Head::Split)),
        Keyword::Replicate => Some(Extension::Goes(Head::Replicate)),
        Keyword::Range => Some(Extension::Goes(Head::Range)),
        Keyword::Section(section) => Some(Extension::Goes(Head::Section(section))),
        Keyword::LineE => Some(Extension::Goes(Head::Block(Block::LineE))),
        Keyword::Mark => Some(Extension::Goes(Head::Mark)),
        Keyword::Tee => Some(Extension::Goes(Head::Tee)),
        Keyword::Zip(zip) => Some(Extension::Goes(Head::Zip(zip))),
        _ => None,
    }
}

fn begin_by_sign(alloc: Global, sign: Sign) -> Option<Extension>
    ensures { result ≡ spec.begin_by_sign sign }
{
    match sign {
        Sign::OpenParen => Some(Extension::Opens(Frame::Parens)),
        Sign::OpenBrace => Some(Extension::Opens(Frame::Braces(Items::new(alloc)))),
        _ => None,
    }
}

/// What a token makes of the front of a word or of a form.
pub fn extend(alloc: Global, head: Head, token: &Token) -> Result<Option<Extension>, NoMemory>
    ensures { IfOk result (λ extension. extension ≡ spec.extend head token.now) }
{
    match token {
        Token::Word(word) => Ok(extend_by_word(head, *word)),
        Token::Sign(sign) => Ok(extend_by_sign(alloc, head, *sign)),
        Token::Number(number) => Ok(extend_by_number(head, *number)),
        Token::Text(text) => extend_by_text(alloc, head, text.as_str()),
        Token::Named(_) => {
            drop(head);
            Ok(None)
        }
    }
}

fn extend_by_word(head: Head, next: Keyword) -> Option<Extension>
    ensures { result ≡ spec.extend_by_word head next }
{
    match head {
        Head::Classed(word) => begin_class_or_not(word, next),
        Head::ClassedNot(word) => begin_class(word, true, next),
        Head::Tested(word) => begin_test_or_not(word, next),
        Head::TestedNot(word) => begin_test(word, true, next),
        Head::MapE => begin_element_map(next),
        Head::Map => begin_piece_map(next),
        head => {
            drop(head);
            None
        }
    }
}

fn begin_class_or_not(word: ClassedWord, next: Keyword) -> Option<Extension>
    ensures { result ≡ spec.begin_class_or_not word next }
{
    match next {
        Keyword::Not => Some(Extension::Goes(Head::ClassedNot(word))),
        _ => begin_class(word, false, next),
    }
}

fn begin_class(word: ClassedWord, negated: bool, next: Keyword) -> Option<Extension>
    ensures { result ≡ spec.begin_class word negated next }
{
    match next {
        Keyword::Class(class) => Some(end_with_class(word, negated, plain_class(class))),
        Keyword::Is => Some(Extension::Goes(Head::Is(word, negated))),
        Keyword::Below => Some(Extension::Goes(Head::Below(word, negated))),
        _ => None,
    }
}

fn begin_test_or_not(word: TestedWord, next: Keyword) -> Option<Extension>
    ensures { result ≡ spec.begin_test_or_not word next }
{
    match next {
        Keyword::Not => Some(Extension::Goes(Head::TestedNot(word))),
        _ => begin_test(word, false, next),
    }
}

fn begin_test(word: TestedWord, negated: bool, next: Keyword) -> Option<Extension>
    ensures { result ≡ spec.begin_test word negated next }
{
    match next {
        Keyword::Empty => Some(end_with_test(word, negated, TestName::Empty)),
        Keyword::EndTest(test) => Some(Extension::Goes(Head::AtEnd(word, negated, test))),
        Keyword::Shorter => Some(Extension::Goes(Head::Shorter(word, negated))),
        _ => None,
    }
}

fn begin_element_map(next: Keyword) -> Option<Extension>
    ensures { result ≡ spec.begin_element_map next }
{
    match next {
        Keyword::NumberMap(map) => Some(Extension::Goes(Head::NumberMap(map))),
        Keyword::Rot13 => Some(Extension::Ends(Word::Elem(ElemWord::MapE(ByteMap::Rot13)))),
        _ => None,
    }
}

fn begin_piece_map(next: Keyword) -> Option<Extension>
    ensures { result ≡ spec.begin_piece_map next }
{
    match next {
        Keyword::EndMap(map) => Some(Extension::Goes(Head::EndMap(map))),
        Keyword::Reverse => Some(Extension::Ends(Word::Piece(PieceWord::Map(PieceMap::Reverse)))),
        _ => None,
    }
}

fn extend_by_sign(alloc: Global, head: Head, sign: Sign) -> Option<Extension>
    ensures { result ≡ spec.extend_by_sign head sign }
{
    match (head, sign) {
        (Head::List(word), Sign::OpenSquare) => Some(Extension::Goes(Head::ListOpen(word))),
        (Head::ListOpen(word), Sign::CloseSquare) => {
            Some(Extension::Ends(list_word(word, Items::new(alloc))))
        }
        (Head::ListEnded(word, texts), Sign::Comma) => {
            Some(Extension::Goes(Head::ListGoes(word, texts)))
        }
        (Head::ListEnded(word, texts), Sign::CloseSquare) => {
            Some(Extension::Ends(list_word(word, texts)))
        }
        (Head::Block(block), Sign::OpenBrace) => Some(Extension::Opens(Frame::Block(block))),
        (Head::Tee, Sign::OpenParen) => Some(Extension::Opens(Frame::Tee)),
        (Head::Zip(zip), Sign::OpenParen) => Some(Extension::Opens(Frame::ZipFirst(zip))),
        (head, _) => {
            drop(head);
            None
        }
    }
}

fn extend_by_number(head: Head, number: Option<u64>) -> Option<Extension>
    ensures { result ≡ spec.extend_by_number head number }
{
    match head {
        Head::Counted(word) => Some(Extension::Ends(counted_word(word, number_of(number)))),
        Head::Below(word, negated) => {
            Some(end_with_class(word, negated, ClassName::Below(number_of(number))))
        }
        Head::Shorter(word, negated) => {
            Some(end_with_test(word, negated, TestName::Shorter(number_of(number))))
        }
        Head::NumberMap(map) => {
            let map = map_by_number(map, byte_of(number));
            Some(Extension::Ends(Word::Elem(ElemWord::MapE(map))))
        }
        Head::SplitAt(at) => {
            let word = SplitWord::Split(at, number_of(number));
            Some(Extension::Ends(Word::Split(word)))
        }
        Head::Replicate => Some(Extension::Goes(Head::Replicated(number))),
        Head::Range => Some(Extension::Goes(Head::RangeFrom(number))),
        Head::RangeFrom(from) => {
            let word = SourceWord::Range(number_of(from), number_of(number));
            Some(Extension::Ends(Word::Source(word)))
        }
        Head::Section(section) => Some(Extension::Goes(Head::Block(Block::Counts(
            section, number,
        )))),
        head => {
            drop(head);
            None
        }
    }
}

fn extend_by_text(alloc: Global, head: Head, text: &str) -> Result<Option<Extension>, NoMemory>
    ensures { IfOk result (λ extension. extension ≡ spec.extend_by_text head text.now) }
{
    let Ok(literal) = Literal::new(alloc, text) else {
        return Err(let_go(head));
    };
    match head {
        Head::Is(word, negated) => {
            drop(literal);
            Ok(end_with_scalar(word, negated, only_char(text)))
        }
        Head::AtEnd(word, negated, test) => {
            Ok(Some(end_with_test(word, negated, test_of_end(test, literal))))
        }
        Head::EndMap(map) => {
            let map = map_by_text(map, literal);
            Ok(Some(Extension::Ends(Word::Piece(PieceWord::Map(map)))))
        }
        Head::Literal(word) => Ok(Some(Extension::Ends(literal_word(word, literal)))),
        Head::File(word) => Ok(end_with_file(word, literal)),
        Head::Split => {
            drop(literal);
            Ok(split_at(only_char(text)))
        }
        Head::ListOpen(word) => extend_list(word, Items::new(alloc), literal),
        Head::ListGoes(word, texts) => extend_list(word, texts, literal),
        Head::Replicated(times) => {
            let word = SourceWord::Replicate(number_of(times), literal);
            Ok(Some(Extension::Ends(Word::Source(word))))
        }
        Head::Mark => Ok(begin_mark(literal)),
        head => {
            drop((head, literal));
            Ok(None)
        }
    }
}

fn end_with_scalar(word: ClassedWord, negated: bool, scalar: Option<char>) -> Option<Extension>
    ensures { result ≡ spec.end_with_scalar word negated scalar }
{
    scalar.map(|scalar| end_with_class(word, negated, ClassName::Is(scalar)))
}

fn end_with_file(word: FileWord, name: Literal) -> Option<Extension>
    ensures { result ≡ spec.end_with_file word name }
{
    if name.as_str().is_empty() {
        drop(name);
        None
    } else {
        Some(Extension::Ends(file_word(word, name)))
    }
}

fn split_at(scalar: Option<char>) -> Option<Extension>
    ensures { result ≡ spec.split_at scalar }
{
    scalar.map(|scalar| Extension::Goes(Head::SplitAt(scalar)))
}

fn extend_list(
    word: ListWord,
    texts: LiteralList,
    text: Literal,
) -> Result<Option<Extension>, NoMemory>
    ensures { IfOk result (λ extension. extension ≡ Some (Extension.Goes (Head.ListEnded word (texts ++ text ∷ [])))) }
{
    let texts = with_last(texts, text)?;
    Ok(Some(Extension::Goes(Head::ListEnded(word, texts))))
}

fn begin_mark(name: Literal) -> Option<Extension>
    ensures { result ≡ spec.begin_mark name }
{
    if name.as_str().is_empty() {
        drop(name);
        None
    } else {
        Some(Extension::Goes(Head::Block(Block::Mark(name))))
    }
}

fn end_with_class(word: ClassedWord, negated: bool, what: ClassName) -> Extension
    ensures { result ≡ spec.end_with_class word negated what }
{
    Extension::Ends(classed_word(word, Class { negated, what }))
}

fn end_with_test(word: TestedWord, negated: bool, what: TestName) -> Extension
    ensures { result ≡ spec.end_with_test word negated what }
{
    Extension::Ends(tested_word(word, PieceTest { negated, what }))
}
