// The value of a whole, of those of its parts.
ghost use Rattle.std.specs.Prelude.{◌≡◌, IfOk};
ghost use Rattle.cd_meaning.specs.Fusion.{both};
ghost use Rattle.cd_meaning.specs.Stream.{Value as Meaning, present as present_meaning};
ghost use Rattle.cd_meaning.specs.Values.{value_meaning};
ghost use Rattle.cd_step.specs.Flows.{made_of};

use cd_elem::{Boxed, NoMemory, Value};
use cd_step::Made;
use std::alloc::Global;

fn boxed(alloc: Global, value: Value) -> Result<Boxed<Value>, NoMemory>
    ensures { IfOk result (λ boxed. boxed ≡ value) }
{
    match Boxed::new(alloc, value) {
        Ok(boxed) => Ok(boxed),
        Err(refused) => {
            drop(refused);
            Err(NoMemory)
        }
    }
}

fn pair(alloc: Global, first: Value, second: Value) -> Result<Value, NoMemory>
    ensures { IfOk result (λ value. value_meaning value ≡ Meaning.Pair (value_meaning first) (value_meaning second)) }
{
    match boxed(alloc, first) {
        Ok(front) => match boxed(alloc, second) {
            Ok(back) => Ok(Value::Pair(front, back)),
            Err(error) => {
                drop(front);
                Err(error)
            }
        },
        Err(error) => {
            drop(second);
            Err(error)
        }
    }
}

/// Both values, or none where both are none.
fn both_of(alloc: Global, first: Value, second: Value) -> Result<Value, NoMemory>
    ensures { IfOk result (λ value. value_meaning value ≡ both (value_meaning first) (value_meaning second)) }
{
    if matches!(&first, Value::Unit) && matches!(&second, Value::Unit) {
        drop(first);
        drop(second);
        Ok(Value::Unit)
    } else {
        pair(alloc, first, second)
    }
}

/// A value that is there.
fn present(alloc: Global, value: Value) -> Result<Value, NoMemory>
    ensures { IfOk result (λ some. value_meaning some ≡ present_meaning (value_meaning value)) }
{
    match boxed(alloc, value) {
        Ok(there) => Ok(Value::Maybe(Some(there))),
        Err(error) => Err(error),
    }
}

/// The value that is made of this.
pub fn value_of(alloc: Global, made: Made) -> Result<Value, NoMemory>
    ensures { IfOk result (λ value. value_meaning value ≡ made_of made) }
{
    match made {
        Made::One(value) => Ok(value),
        Made::Both(first, second) => both_of(alloc, first, second),
        Made::Early(second) => pair(alloc, Value::Maybe(None), second),
        Made::Late(first, second) => match present(alloc, first) {
            Ok(some) => pair(alloc, some, second),
            Err(error) => {
                drop(second);
                Err(error)
            }
        },
    }
}
