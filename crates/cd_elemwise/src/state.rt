// What a word carries from one element to the next.
ghost use Rattle.std.specs.Prelude.{◌≡◌, [], ◌++◌, length, IfOk, OnOk, OnErr};
ghost use Rattle.cd_meaning.specs.Values.{value_meaning};
ghost use Rattle.cd_elemwise.specs.Carried.{gathered, list_sort, list_value, single_plain, single_value};

use crate::class_table::ClassTable;
use cd_elem::{Boxed, ByteList, ByteMap, CharList, NoMemory, Value};
use std::alloc::Global;
use std::mem;

/// One element.
#[derive(Clone, Copy)]
pub enum Single {
    Byte(u8),
    Char(char),
}

/// A word with what is left of its number, or what it carries beside a list.
#[derive(Drop)]
pub enum WordState {
    Pass,
    Take(u64),
    TakeWhile(ClassTable),
    Filter(ClassTable),
    Map(ByteMap),
    Repeat(u64),
    Drop(u64),
    DropWhile(ClassTable),
    Head,
    Peek,
    Last(Option<Single>),
    Length(u64),
    Sum(u64),
    /// It ends with this answer at the first element that is not in the class, and else with its opposite.
    All(ClassTable, bool),
    Null,
    Collect(u64),
    SinkNull,
}

/// The elements that a word keeps in a list.
#[derive(Drop)]
pub enum Gathered {
    Bytes(ByteList),
    Chars(CharList),
}

/// One element as a result.
fn plain_of(single: Single) -> Value
    ensures { value_meaning result ≡ single_plain single }
{
    match single {
        Single::Byte(byte) => Value::Byte(byte),
        Single::Char(character) => Value::Char(character),
    }
}

/// One element as a result that may be missing.
pub fn present_of(alloc: Global, single: Single) -> Result<Value, NoMemory>
    ensures { IfOk result (λ value. value_meaning value ≡ single_value single) }
{
    match Boxed::new(alloc, plain_of(single)) {
        Ok(boxed) => Ok(Value::Maybe(Some(boxed))),
        Err(_) => Err(NoMemory),
    }
}
