// The type of a part, and what its result is.
ghost use Rattle.std.specs.Prelude.{◌≡◌, IfOk, IsOkAnd};
ghost use Rattle.cd_types.specs.Flows.{is_unit};
ghost use Rattle.cd_part_types.specs.Results.{result_of};

use cd_elem::{Boxed, Kind, NoMemory, Sort};
use std::alloc::Global;

/// A result, by what its value is.
#[derive(Drop)]
pub enum ResultKind {
    Unit,
    Num,
    Bool,
    Byte,
    Char,
    BytesV,
    TextV,
    /// A value that may be missing.
    Maybe(Boxed<ResultKind>),
    Pair(Boxed<ResultKind>, Boxed<ResultKind>),
    /// A list of pieces of this sort.
    ListV(Sort),
}

/// The type of a part, for what comes to it.
#[derive(Drop)]
pub struct PartType {
    /// What comes to it, and what it gives. None where that is nothing.
    pub from: Option<Kind>,
    pub to: Option<Kind>,
    pub result: ResultKind,
    /// Its unread rest does not depend on how the input was cut.
    pub exact: bool,
    /// It asks for nothing of what comes to it.
    pub idle: bool,
    /// So many elements it may hold: one for a piece and one for each element in it, and one for any other element.
    pub bound: u64,
}

fn boxed(alloc: Global, kind: ResultKind) -> Result<Boxed<ResultKind>, NoMemory>
    ensures { IfOk result (λ boxed. boxed ≡ kind) }
{
    match Boxed::new(alloc, kind) {
        Ok(boxed) => Ok(boxed),
        Err(_) => Err(NoMemory),
    }
}

/// A result that may be missing.
pub fn maybe(alloc: Global, kind: ResultKind) -> Result<ResultKind, NoMemory>
    ensures { IfOk result (λ made. made ≡ ResultKind.Maybe kind) }
{
    Ok(ResultKind::Maybe(boxed(alloc, kind)?))
}

/// Two results, that of the first part in front.
pub fn pair(alloc: Global, first: ResultKind, second: ResultKind) -> Result<ResultKind, NoMemory>
    ensures { IfOk result (λ made. made ≡ ResultKind.Pair first second) }
{
    match (boxed(alloc, first), boxed(alloc, second)) {
        (Ok(first), Ok(second)) => Ok(ResultKind::Pair(first, second)),
        (first, second) => {
            drop(first);
            drop(second);
            Err(NoMemory)
        }
    }
}

/// Two results, of which there may have been no memory for the second.
fn copied_pair(
    alloc: Global,
    first: ResultKind,
    second: Result<ResultKind, NoMemory>,
) -> Result<ResultKind, NoMemory>
    ensures { IfOk result (λ made. IsOkAnd second (λ other. made ≡ ResultKind.Pair first other)) }
{
    match second {
        Ok(second) => pair(alloc, first, second),
        Err(wanting) => {
            drop(first);
            Err(wanting)
        }
    }
}

impl ResultKind {
    pub fn is_unit(&self) -> bool
        ensures { result ≡ is_unit (result_of self.now) }
    {
        match self {
            ResultKind::Unit => true,
            ResultKind::Num | ResultKind::Bool | ResultKind::Byte | ResultKind::Char => false,
            ResultKind::BytesV | ResultKind::TextV | ResultKind::ListV(_) => false,
            ResultKind::Maybe(_) | ResultKind::Pair(_, _) => false,
        }
    }

    /// A copy. It takes memory for what stands in a `Maybe` or a `Pair`.
    pub fn copy(&self, alloc: Global) -> Result<ResultKind, NoMemory>
        ensures { IfOk result (λ copied. copied ≡ self.now) }
    {
        match self {
            ResultKind::Unit => Ok(ResultKind::Unit),
            ResultKind::Num => Ok(ResultKind::Num),
            ResultKind::Bool => Ok(ResultKind::Bool),
            ResultKind::Byte => Ok(ResultKind::Byte),
            ResultKind::Char => Ok(ResultKind::Char),
            ResultKind::BytesV => Ok(ResultKind::BytesV),
            ResultKind::TextV => Ok(ResultKind::TextV),
            ResultKind::Maybe(kind) => maybe(alloc, kind.get().copy(alloc)?),
            ResultKind::Pair(first, second) => {
                let first = first.get().copy(alloc)?;
                copied_pair(alloc, first, second.get().copy(alloc))
            }
            ResultKind::ListV(sort) => Ok(ResultKind::ListV(*sort)),
        }
    }
}

impl PartType {
    /// A copy, which takes the memory that its result takes.
    pub fn copy(&self, alloc: Global) -> Result<PartType, NoMemory>
        ensures { IfOk result (λ copied. copied ≡ self.now) }
    {
        Ok(PartType {
            from: self.from,
            to: self.to,
            result: self.result.copy(alloc)?,
            exact: self.exact,
            idle: self.idle,
            bound: self.bound,
        })
    }
}
