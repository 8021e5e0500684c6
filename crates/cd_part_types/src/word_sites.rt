// Words that reach the outside, and words that show how their input was cut.
ghost use Rattle.std.specs.Prelude.{◌≡◌, is_some};
ghost use Rattle.cd_types.specs.WordTypes.{shows_cuts, word_site};

use cd_elem::{BaseWord, SinkWord, SourceWord, TextWord, Word};

/// It is a site.
pub fn is_site(word: &Word) -> bool
    ensures { result ≡ is_some (word_site word.now) }
{
    match word {
        Word::Source(SourceWord::SourceFile(_) | SourceWord::Stdin) => true,
        Word::Sink(_) => true,
        _ => false,
    }
}

/// Its fault or the order of its reads would show how its input was cut.
pub fn word_shows_cuts(word: &Word) -> bool
    ensures { result ≡ shows_cuts word.now }
{
    match word {
        Word::Text(TextWord::Utf8) => true,
        Word::Base(BaseWord::HexDecode | BaseWord::Base64Decode) => true,
        Word::Source(SourceWord::SourceFile(_) | SourceWord::Stdin) => true,
        _ => false,
    }
}
