// Chains of a splitter of bytes, words that pass pieces on or drop them, and a word that takes the pieces: each is one
// leaf of the tree.
ghost use Rattle.std.specs.Prelude.{◌≡◌, ◌≤◌, ◌<◌, ◌++◌, ◌∷◌, [], IfOk, IfSome, Some, length, map, true};
ghost use Rattle.cd_elem.specs.declared.kind.Kind.TheVariants as kind;
ghost use Rattle.cd_elem.specs.declared.script.Pipe.TheVariants as pipes;
ghost use Rattle.cd_elem.specs.declared.word.Word.TheVariants as words;
ghost use Rattle.cd_slices.specs.Chains.{IsCutter, IsFirst, bound_of, end_word, sieve_word};
ghost use Rattle.cd_slices.specs.Stages.{MayJoin, gives_of};
ghost use Rattle.cd_types.specs.Fitting.{FitInChain};
ghost use Rattle.cd_types.specs.Trees.{part};
ghost use Rattle.cd_build.specs.Builds.{AreBuilt, chain_meaning, chain_of};
ghost use Rattle.cd_build.specs.BuiltNodes.{IsBuiltPart};

use crate::pipes::Built;
use cd_elem::{Kind, NoMemory, PieceWord, Pipe, SplitWord, Word};
use cd_node::Node;
use cd_slices::{Sieve, SliceEnd};
use cd_types::parts_fit;
use std::alloc::Global;

/// Pieces of this length are a chunk, so that none of them is joined to others with what ends it.
const CHUNK: u64 = 65_536;

// ---- members

/// The splitter, where the pipe is one that cuts elements into pieces.
fn cutter_of(pipe: &Pipe) -> Option<SplitWord>
    ensures { IfSome result (λ word. (pipe.now ≡ pipes.Word (words.Split word)) × IsCutter word) }
{
    match pipe {
        Pipe::Word(Word::Split(word)) => match word {
            SplitWord::Flat | SplitWord::Unlines => None,
            _ => Some(*word),
        },
        _ => None,
    }
}

/// What the pipe makes of pieces, where it counts or joins them.
fn end_of(pipe: &Pipe) -> Option<SliceEnd>
    ensures { IfSome result (λ end. (pipe.now ≡ pipes.Word (end_word end)) × IsFirst end) }
{
    match pipe {
        Pipe::Word(Word::Piece(PieceWord::Length)) => Some(SliceEnd::Count(0)),
        Pipe::Word(Word::Split(SplitWord::Flat)) => Some(SliceEnd::Join(false)),
        Pipe::Word(Word::Split(SplitWord::Unlines)) => Some(SliceEnd::Join(true)),
        _ => None,
    }
}

/// Whether the pipe is a word that passes pieces on or drops them.
fn is_sieve(pipe: &Pipe) -> bool {
    match pipe {
        Pipe::Word(Word::Piece(word)) => matches!(
            word,
            PieceWord::Pass | PieceWord::Take(_) | PieceWord::TakeWhile(_) | PieceWord::Filter(_)
        ),
        _ => false,
    }
}

/// The pipe as a word that passes pieces on or drops them, where it is one.
fn sieve_of(alloc: Global, pipe: &Pipe) -> Result<Option<Sieve>, NoMemory>
    ensures { IfOk result (λ made. IfSome made (λ sieve. pipe.now ≡ pipes.Word (sieve_word sieve))) }
{
    match pipe {
        Pipe::Word(Word::Piece(word)) => Sieve::of(alloc, word),
        _ => Ok(None),
    }
}

/// All of them as such words, where each is one.
fn sieves_of(alloc: Global, members: &[Pipe]) -> Result<Option<Vec<Sieve>>, NoMemory>
    ensures { IfOk result (λ made. IfSome made (λ sieves. members.now ≡ map (λ sieve. pipes.Word (sieve_word sieve)) sieves.items)) }
{
    let mut sieves = Vec::new(alloc);
    for member in members {
        match sieve_of(alloc, member)? {
            Some(sieve) => sieves.push(sieve)?,
            None => return Ok(None),
        }
    }
    Ok(Some(sieves))
}

/// The first member, those between, and the last one.
fn parts_of(members: &[Pipe]) -> Option<(&Pipe, &[Pipe], &Pipe)>
    ensures { IfSome result (λ parts. members.now ≡ parts.0.now ∷ parts.1.now ++ parts.2.now ∷ []) }
{
    let (last, front) = members.split_last()?;
    let (first, between) = front.split_first()?;
    Some((first, between, last))
}

// ---- leaves

fn are_bytes(takes: Option<Kind>) -> bool
    ensures { result ≡ true → takes ≡ Some kind.Bytes }
{
    match takes {
        Some(Kind::Bytes) => true,
        _ => false,
    }
}

/// Whether the pieces of the splitter may go to this word.
fn may_join(end: SliceEnd, word: SplitWord) -> bool
    ensures { result ≡ true → MayJoin end (bound_of word) }
{
    match end {
        SliceEnd::Count(_) => true,
        SliceEnd::Join(_) => match word {
            SplitWord::Lines(most)
            | SplitWord::Split(_, most)
            | SplitWord::Exact(most)
            | SplitWord::ChunksOf(most) => most < CHUNK,
            SplitWord::Flat | SplitWord::Unlines => true,
        },
    }
}

/// What is given behind this word.
fn given_by(end: SliceEnd) -> Option<Kind>
    ensures { result ≡ gives_of end }
{
    match end {
        SliceEnd::Count(_) => None,
        SliceEnd::Join(_) => Some(Kind::Bytes),
    }
}

/// The leaf of the members, where bytes come to them and they are a splitter, sieves, and a word that takes the pieces.
pub fn build_sliced(
    alloc: Global,
    members: &[Pipe],
    takes: Option<Kind>,
    site: u32,
) -> Result<Option<Built>, NoMemory>
    requires built { AreBuilt members.now }
    requires typed { FitInChain takes (map part members.now) }
    ensures { IfOk result (λ made. IfSome made (IsBuiltPart (chain_of members.now) (chain_meaning members.now) takes site)) }
{
    parts_fit();
    if !are_bytes(takes) {
        return Ok(None);
    }
    let Some((first, between, last)) = parts_of(members) else {
        return Ok(None);
    };
    let (Some(word), Some(end)) = (cutter_of(first), end_of(last)) else {
        return Ok(None);
    };
    if !may_join(end, word) {
        return Ok(None);
    }
    match sieves_of(alloc, between)? {
        Some(sieves) => {
            let node = Node::slices(alloc, word, sieves, end);
            Ok(Some(Built {
                node,
                gives: given_by(end),
                next: site,
            }))
        }
        None => Ok(None),
    }
}

// ---- where a row is cut in two

/// The place of the last splitter behind which there are only sieves.
fn open_group(members: &[Pipe]) -> Option<usize>
    ensures { IfSome result (λ place. place < length members.now) }
{
    let mut group = None;
    for (place, member) in members.iter().enumerate() {
        if cutter_of(member).is_some() {
            group = Some(place);
        } else if !is_sieve(member) {
            group = None;
        }
    }
    group
}

/// How many of the members are sieves, up to the first one that is none.
fn leading_sieves(members: &[Pipe]) -> usize
    ensures { result ≤ length members.now }
{
    for (place, member) in members.iter().enumerate() {
        if !is_sieve(member) {
            return place;
        }
    }
    members.len()
}

/// Where a row of members is cut in two: in the middle, or else before what may be one leaf round the middle, or behind
/// it where nothing is before it.
pub fn halving_place(members: &[Pipe]) -> usize
    requires { 1 < length members.now }
    ensures some { 0 < result }
    ensures rest { result < length members.now }
{
    let middle = members.len() / 2;
    match open_group(&members[..middle]) {
        None => middle,
        Some(0) => {
            let behind = middle + leading_sieves(&members[middle..]) + 1;
            if behind < members.len() {
                behind
            } else {
                middle
            }
        }
        Some(place) => place,
    }
}
