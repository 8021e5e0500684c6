// Owned values that grow, unless memory runs out.
ghost use Rattle.std.specs.Prelude.{◌≡◌, ◌∷◌, ◌++◌, [], IfOk};

use crate::stack::Stack;
use cd_elem::{Boxed, Items, NoMemory, Pipe};
use std::alloc::Global;

/// The list with one more member.
pub fn with_last<T: Drop>(mut items: Items<T>, last: T) -> Result<Items<T>, NoMemory>
    ensures { IfOk result (λ longer. longer ≡ items ++ last ∷ []) }
{
    match items.push(last) {
        Ok(()) => Ok(items),
        Err(last) => Err(let_go((items, last))),
    }
}

/// The stack with one more member on top.
pub fn with_top<T: Drop>(mut stack: Stack<T>, top: T) -> Result<Stack<T>, NoMemory>
    ensures { IfOk result (λ higher. higher ≡ top ∷ stack) }
{
    match stack.push(top) {
        Ok(()) => Ok(stack),
        Err(top) => Err(let_go((stack, top))),
    }
}

pub fn box_both(
    alloc: Global,
    first: Pipe,
    second: Pipe,
) -> Result<(Boxed<Pipe>, Boxed<Pipe>), NoMemory>
    ensures { IfOk result (λ both. (both.0 ≡ first) × (both.1 ≡ second)) }
{
    match box_pipe(alloc, first) {
        Ok(first) => match box_pipe(alloc, second) {
            Ok(second) => Ok((first, second)),
            Err(NoMemory) => Err(let_go(first)),
        },
        Err(NoMemory) => Err(let_go(second)),
    }
}

pub fn box_pipe(alloc: Global, pipe: Pipe) -> Result<Boxed<Pipe>, NoMemory>
    ensures { IfOk result (λ it. it ≡ pipe) }
{
    Boxed::new(alloc, pipe).map_err(let_go)
}

/// Lets go of a value on the way to the answer for want of memory. A `?` where a large value is live would do the same,
/// and cost the proof many times as much.
pub fn let_go<T: Drop>(value: T) -> NoMemory {
    drop(value);
    NoMemory
}
