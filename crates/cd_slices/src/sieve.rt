// The words that pass pieces on or drop them.
ghost use Rattle.std.specs.Prelude.{◌≡◌, ◌↔◌, IsTrue, IfOk, IfSome};
ghost use Rattle.cd_elem.specs.declared.kind.Sort.TheVariants as sort;
ghost use Rattle.cd_elem.specs.declared.word.Word.TheVariants as words;
ghost use Rattle.cd_meaning.specs.Classes.{holds_of, passes_test};
ghost use Rattle.cd_slices.specs.Chains.{sieve_word};
ghost use Rattle.cd_slices.specs.Slicing.{behind, is_spent, left_of, sieved, takes_none, verdict};

use cd_elem::{Literal, NoMemory, PieceTest, PieceWord, TestName};
use std::alloc::Global;

/// A word that passes pieces on or drops them, with what is left of its number.
#[derive(Drop)]
pub enum Sieve {
    Pass,
    Take(u64),
    TakeWhile(PieceTest),
    Filter(PieceTest),
}

/// What becomes of a piece.
#[derive(Clone, Copy, PartialEq, Eq)]
pub enum Verdict {
    /// It goes on.
    Keeps,
    Drops,
    /// It is refused, and no further one is taken.
    Refuses,
}

// ---- tests

#[inline]
fn holds(what: &TestName, piece: &[u8]) -> bool
    ensures { result ≡ holds_of what.now sort.Block piece.now }
{
    match what {
        TestName::Empty => piece.len() == 0,
        TestName::Begins(literal) => piece.starts_with(literal.as_str().as_bytes()),
        TestName::Ends(literal) => piece.ends_with(literal.as_str().as_bytes()),
        TestName::Shorter(count) => (piece.len() as u64) < *count,
    }
}

#[inline]
fn passes(test: &PieceTest, piece: &[u8]) -> bool
    ensures { result ≡ passes_test test.now sort.Block piece.now }
{
    holds(&test.what, piece) != test.negated
}

// ---- sieves

/// What becomes of a piece that comes to the sieve.
#[inline]
fn meet(sieve: &mut Sieve, piece: &[u8]) -> Verdict
    ensures verdict { result ≡ verdict sieve.old piece.now }
    ensures after { sieve.new ≡ behind sieve.old }
{
    match sieve {
        Sieve::Pass => Verdict::Keeps,
        Sieve::Take(left) => {
            if *left == 0 {
                return Verdict::Drops;
            }
            *left -= 1;
            Verdict::Keeps
        }
        Sieve::TakeWhile(test) => {
            if passes(test, piece) {
                Verdict::Keeps
            } else {
                Verdict::Refuses
            }
        }
        Sieve::Filter(test) => {
            if passes(test, piece) {
                Verdict::Keeps
            } else {
                Verdict::Drops
            }
        }
    }
}

/// What becomes of a piece that comes to the first of these.
#[inline]
pub fn sift(sieves: &mut [Sieve], piece: &[u8]) -> Verdict
    ensures verdict { result ≡ sieved sieves.old piece.now }
    ensures after { sieves.new ≡ left_of sieves.old piece.now }
{
    for sieve in sieves.iter_mut() {
        let met = meet(sieve, piece);
        if met != Verdict::Keeps {
            return met;
        }
    }
    Verdict::Keeps
}

#[inline]
fn takes_no_more(sieve: &Sieve) -> bool
    ensures { result ≡ takes_none sieve.now }
{
    match sieve {
        Sieve::Take(left) => *left == 0,
        _ => false,
    }
}

/// Whether one of them takes no further piece.
#[inline]
pub fn spent(sieves: &[Sieve]) -> bool
    ensures { result ≡ is_spent sieves.now }
{
    for sieve in sieves {
        if takes_no_more(sieve) {
            return true;
        }
    }
    false
}

// ---- words

fn copied_name(alloc: Global, what: &TestName) -> Result<TestName, NoMemory>
    ensures { IfOk result (λ made. made ≡ what.now) }
{
    match what {
        TestName::Empty => Ok(TestName::Empty),
        TestName::Begins(literal) => Ok(TestName::Begins(Literal::new(alloc, literal.as_str())?)),
        TestName::Ends(literal) => Ok(TestName::Ends(Literal::new(alloc, literal.as_str())?)),
        TestName::Shorter(count) => Ok(TestName::Shorter(*count)),
    }
}

fn copied(alloc: Global, test: &PieceTest) -> Result<PieceTest, NoMemory>
    ensures { IfOk result (λ made. made ≡ test.now) }
{
    let what = copied_name(alloc, &test.what)?;
    Ok(PieceTest {
        negated: test.negated,
        what,
    })
}

impl Sieve {
    /// The word as a sieve, where it only passes pieces on or drops them.
    pub fn of(alloc: Global, word: &PieceWord) -> Result<Option<Sieve>, NoMemory>
        ensures { IfOk result (λ made. IfSome made (λ sieve. sieve_word sieve ≡ words.Piece word.now)) }
    {
        match word {
            PieceWord::Pass => Ok(Some(Sieve::Pass)),
            PieceWord::Take(count) => Ok(Some(Sieve::Take(*count))),
            PieceWord::TakeWhile(test) => Ok(Some(Sieve::TakeWhile(copied(alloc, test)?))),
            PieceWord::Filter(test) => Ok(Some(Sieve::Filter(copied(alloc, test)?))),
            _ => Ok(None),
        }
    }
}
