// Places of a script that reach the outside.

/// A place of a script that opens, reads or writes, counted from 1 in the order of the script.
/// Site 0 stands for the lines of results.
#[derive(Clone, Copy, PartialEq, Eq)]
pub struct Site(pub u32);
