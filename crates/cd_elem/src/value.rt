// Results of pipes.
use crate::boxed::Boxed;
use crate::items::Items;
use crate::{ByteList, CharList};

/// The result that a part of a pipe ends with.
#[derive(Drop)]
pub enum Value {
    Unit,
    /// A count or a sum, which stays at 2^64 - 1 where it would pass it.
    Num(u64),
    Bool(bool),
    Byte(u8),
    Char(char),
    BytesV(ByteList),
    TextV(CharList),
    /// A value that may be missing.
    Maybe(Option<Boxed<Value>>),
    Pair(Boxed<Value>, Boxed<Value>),
    ListV(ValueList),
}

/// A list of values.
pub type ValueList = Items<Value>;
