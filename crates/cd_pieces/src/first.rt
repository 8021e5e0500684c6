// What a word carries at first, and its bound.
ghost use Rattle.std.specs.Prelude.{◌≡◌, ◌+◌, ◌*◌, IfOk};
ghost use Rattle.cd_elem.specs.declared.word.PieceWord.TheVariants as word;
ghost use Rattle.cd_pieces.specs.Carried.{IsInRange, bound_of, first_state};
ghost use Rattle.cd_pieces.specs.Spelling.{change_for, question_for, test_for};
ghost use Rattle.cd_step.specs.Parts.{bound_at, sort_at};

use crate::collected::Collected;
use crate::spelled::Spelled;
use crate::state::{Answering, Change, Keeping, Making, Question, Sifting, Test, WordState};
use cd_elem::{Kind, Literal, NoMemory, PieceMap, PieceTest, PieceWord, TestName};
use std::alloc::Global;

fn question_of(alloc: Global, what: &TestName, kind: Kind) -> Result<Question, NoMemory>
    ensures { IfOk result (λ made. made ≡ question_for (sort_at kind) what.now) }
{
    match what {
        TestName::Empty => Ok(Question::Empty),
        TestName::Begins(literal) => Ok(Question::Begins(Spelled::new(alloc, literal, kind)?)),
        TestName::Ends(literal) => Ok(Question::Ends(Spelled::new(alloc, literal, kind)?)),
        TestName::Shorter(count) => Ok(Question::Shorter(*count)),
    }
}

fn test_of(alloc: Global, test: &PieceTest, kind: Kind) -> Result<Test, NoMemory>
    ensures { IfOk result (λ made. made ≡ test_for (sort_at kind) test.now) }
{
    let what = question_of(alloc, &test.what, kind)?;
    Ok(Test {
        negated: test.negated,
        what,
    })
}

fn change_of(alloc: Global, map: &PieceMap, kind: Kind) -> Result<Change, NoMemory>
    ensures { IfOk result (λ made. made ≡ change_for (sort_at kind) map.now) }
{
    match map {
        PieceMap::Prefix(literal) => Ok(Change::Prefix(Spelled::new(alloc, literal, kind)?)),
        PieceMap::Suffix(literal) => Ok(Change::Suffix(Spelled::new(alloc, literal, kind)?)),
        PieceMap::Reverse => Ok(Change::Reverse),
    }
}

fn take_while_of(alloc: Global, test: &PieceTest, kind: Kind) -> Result<WordState, NoMemory>
    ensures { IfOk result (λ state. state ≡ first_state (word.TakeWhile test.now) (sort_at kind)) }
{
    let test = test_of(alloc, test, kind)?;
    Ok(WordState::Sift(Sifting::TakeWhile(test)))
}

fn filter_of(alloc: Global, test: &PieceTest, kind: Kind) -> Result<WordState, NoMemory>
    ensures { IfOk result (λ state. state ≡ first_state (word.Filter test.now) (sort_at kind)) }
{
    let test = test_of(alloc, test, kind)?;
    Ok(WordState::Sift(Sifting::Filter(test)))
}

fn drop_while_of(alloc: Global, test: &PieceTest, kind: Kind) -> Result<WordState, NoMemory>
    ensures { IfOk result (λ state. state ≡ first_state (word.DropWhile test.now) (sort_at kind)) }
{
    let test = test_of(alloc, test, kind)?;
    Ok(WordState::Sift(Sifting::DropWhile(test)))
}

fn map_of(alloc: Global, map: &PieceMap, kind: Kind) -> Result<WordState, NoMemory>
    ensures { IfOk result (λ state. state ≡ first_state (word.Map map.now) (sort_at kind)) }
{
    let change = change_of(alloc, map, kind)?;
    Ok(WordState::Make(Making::Change(change)))
}

fn intersperse_of(alloc: Global, literal: &Literal, kind: Kind) -> Result<WordState, NoMemory>
    ensures { IfOk result (λ state. state ≡ first_state (word.Intersperse literal.now) (sort_at kind)) }
{
    let between = Spelled::new(alloc, literal, kind)?;
    let first = true;
    Ok(WordState::Make(Making::Intersperse(between, first)))
}

/// What a word carries at first, where pieces of this kind come to it.
pub fn state_of(alloc: Global, word: &PieceWord, kind: Kind) -> Result<WordState, NoMemory>
    ensures { IfOk result (λ state. state ≡ first_state word.now (sort_at kind)) }
{
    match word {
        PieceWord::Pass => Ok(WordState::Sift(Sifting::Pass)),
        PieceWord::Take(count) => Ok(WordState::Sift(Sifting::Take(*count))),
        PieceWord::TakeWhile(test) => take_while_of(alloc, test, kind),
        PieceWord::Filter(test) => filter_of(alloc, test, kind),
        PieceWord::Repeat(times) => Ok(WordState::Make(Making::Repeat(*times))),
        PieceWord::Map(map) => map_of(alloc, map, kind),
        PieceWord::Intersperse(literal) => intersperse_of(alloc, literal, kind),
        PieceWord::Drop(count) => Ok(WordState::Sift(Sifting::Drop(*count))),
        PieceWord::DropWhile(test) => drop_while_of(alloc, test, kind),
        PieceWord::Head => Ok(WordState::Answer(Answering::Head)),
        PieceWord::Peek => Ok(WordState::Answer(Answering::Peek)),
        PieceWord::Last => Ok(WordState::Keep(Keeping::Last(None))),
        PieceWord::Length => Ok(WordState::Sift(Sifting::Length(0))),
        PieceWord::Null => Ok(WordState::Sift(Sifting::Null)),
        PieceWord::Collect(count) => {
            let collected = Collected::new(alloc, *count);
            Ok(WordState::Keep(Keeping::Collect(collected)))
        }
    }
}

/// The greatest number of elements in a piece.
fn piece_bound(kind: Kind) -> u32
    ensures { result ≡ bound_at kind }
{
    match kind {
        Kind::Bytes | Kind::Chars => 0,
        Kind::Blocks(most) | Kind::Texts(most) => most,
    }
}

/// How much a word may carry, where pieces of this kind come to it.
pub fn most_of(word: &PieceWord, kind: Kind) -> u64
    requires { IsInRange word.now }
    ensures { result ≡ bound_of word.now kind }
{
    let one = piece_bound(kind) as u64 + 1;
    match word {
        PieceWord::Last => one,
        PieceWord::Collect(count) => *count * one,
        _ => 0,
    }
}
