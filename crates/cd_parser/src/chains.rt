// Parts and the operators between them.
ghost use Rattle.std.specs.Prelude.{◌≡◌, IfOk};
ghost use Rattle.cd_parser.specs.Machine as spec;

use crate::allocation::with_last;
use crate::state::Chain;
use cd_elem::{Items, Join, NoMemory, Pipe, Sign};
use std::alloc::Global;

pub fn operator_of(sign: Sign) -> Option<Join>
    ensures { result ≡ spec.operator_of sign }
{
    match sign {
        Sign::Operator(join) => Some(join),
        _ => None,
    }
}

/// The chain with one more part, if this is its operator.
pub fn join_part(
    alloc: Global,
    chain: Chain,
    join: Join,
    part: Pipe,
) -> Result<Option<Chain>, NoMemory>
    ensures { IfOk result (λ longer. longer ≡ spec.join_part chain join part) }
{
    match chain {
        Chain::Alone => {
            let parts = with_last(Items::new(alloc), part)?;
            Ok(Some(Chain::Joined(join, parts)))
        }
        Chain::Joined(first, parts) => {
            if first == join {
                let parts = with_last(parts, part)?;
                Ok(Some(Chain::Joined(first, parts)))
            } else {
                drop((parts, part));
                Ok(None)
            }
        }
    }
}

/// The pipe that this part ends.
pub fn close_chain(chain: Chain, part: Pipe) -> Result<Pipe, NoMemory>
    ensures { IfOk result (λ pipe. pipe ≡ spec.close_chain chain part) }
{
    match chain {
        Chain::Alone => Ok(part),
        Chain::Joined(join, parts) => {
            let parts = with_last(parts, part)?;
            Ok(Pipe::Chain(join, parts))
        }
    }
}
