// Which pipes are built.
ghost use Rattle.std.specs.Prelude.{◌≡◌, map};
ghost use Rattle.cd_build.specs.Built as spec;

use cd_elem::{ElemWord, Join, PieceWord, Pipe, SplitWord, Word};

/// The most that something is repeated.
const REPEAT_LIMIT: u64 = 4_096;

/// The most that is collected.
const COLLECT_LIMIT: u64 = 16_777_216;

/// The greatest length of a piece that elements are cut into.
const LENGTH_LIMIT: u64 = 65_536;

fn is_in_range(word: ElemWord) -> bool
    ensures { result ≡ spec.is_in_range word }
{
    match word {
        ElemWord::RepeatE(times) => times <= REPEAT_LIMIT,
        ElemWord::CollectE(count) => count <= COLLECT_LIMIT,
        _ => true,
    }
}

fn is_piece_in_range(word: &PieceWord) -> bool
    ensures { result ≡ spec.is_piece_in_range word.now }
{
    match word {
        PieceWord::Repeat(times) => *times <= REPEAT_LIMIT,
        PieceWord::Collect(count) => *count <= COLLECT_LIMIT,
        _ => true,
    }
}

fn is_split_in_range(word: SplitWord) -> bool
    ensures { result ≡ spec.is_split_in_range word }
{
    match word {
        SplitWord::Lines(most)
        | SplitWord::Split(_, most)
        | SplitWord::Exact(most)
        | SplitWord::ChunksOf(most) => 0 < most && most <= LENGTH_LIMIT,
        SplitWord::Flat | SplitWord::Unlines => true,
    }
}

fn is_built_word(word: &Word) -> bool
    ensures { result ≡ spec.is_built_word word.now }
{
    match word {
        Word::Elem(word) => is_in_range(*word),
        Word::Piece(word) => is_piece_in_range(word),
        Word::Split(word) => is_split_in_range(*word),
        Word::Source(_) | Word::Sink(_) => true,
        _ => false,
    }
}

/// Whether the node of a pipe is built: that of element words, piece words, splitters, sources and sinks with numbers in
/// their ranges, of `mark`, of chains by `|`, and of sequences. Each part is looked at once.
#[cycle(built)]
pub fn is_built(pipe: &Pipe) -> bool
    ensures { result ≡ spec.is_built pipe.now }
{
    match pipe {
        Pipe::Word(word) => is_built_word(word),
        Pipe::Chain(Join::Plain, members) => !members.is_empty() && are_built(members.as_slice()),
        Pipe::Sequence(parts) => !parts.is_empty() && are_built(parts.as_slice()),
        Pipe::Mark(_, body) => is_built(body.get()),
        _ => false,
    }
}

#[cycle(built)]
fn are_built(pipes: &[Pipe]) -> bool
    ensures { result ≡ spec.all_true (map spec.is_built pipes.now) }
{
    for pipe in pipes {
        if !is_built(pipe) {
            return false;
        }
    }
    true
}
