// What a run is held to.

/// How many bytes a read asks for at most, 1 to 65,536, and how many bytes a source has at most, 1 to 1,099,511,627,776.
#[derive(Clone, Copy, PartialEq, Eq)]
pub struct Options {
    pub chunk: u32,
    pub limit: u64,
}
