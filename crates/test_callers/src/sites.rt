// Files in memory and sites on them, for scopes.
ghost use Rattle.std.specs.Prelude.{◌≡◌, IfOk};

use cd_elem::{Items, Literal, NoMemory};
use cd_scope::AcquireError;
use cd_typed::{SiteInfo, SiteUse};
use cd_world::{Fail, FailList, MemoryFile, MemoryFiles, MemoryWorld};
use std::alloc::Global;

/// A file, or a standard stream, as a world in memory begins with it.
#[derive(Clone, Copy)]
pub struct Member<'a> {
    pub name: &'a str,
    pub bytes: &'a str,
    /// How many bytes the i-th read gives at most. Later reads are not cut.
    pub cuts: &'a [u32],
    /// The call on it that fails.
    pub failing: Option<Fail>,
}

fn fails_of(alloc: Global, failing: Option<Fail>) -> Result<FailList, NoMemory> {
    match failing {
        Some(fail) => Items::from_slice(alloc, &[fail]),
        None => Ok(Items::new(alloc)),
    }
}

impl Member<'_> {
    fn file(self, alloc: Global) -> Result<MemoryFile, NoMemory> {
        let name = Literal::new(alloc, self.name)?;
        let bytes = Items::from_slice(alloc, self.bytes.as_bytes())?;
        let read_cuts = Items::from_slice(alloc, self.cuts)?;
        let fails = fails_of(alloc, self.failing)?;
        Ok(MemoryFile {
            name,
            bytes,
            read_cuts,
            write_cuts: Items::new(alloc),
            fails,
        })
    }
}

/// A world with these files and streams.
pub fn world_of(alloc: Global, members: &[Member<'_>]) -> Result<MemoryWorld, NoMemory> {
    let mut files: MemoryFiles = Items::new(alloc);
    for member in members {
        let file = member.file(alloc)?;
        files.push(file).map_err(|_| NoMemory)?;
    }
    MemoryWorld::new(alloc, files)
}

/// An empty file, of which one call may fail.
pub fn file_of(alloc: Global, name: &str, failing: Option<Fail>) -> Result<MemoryFile, NoMemory> {
    let member = Member {
        name,
        bytes: "",
        cuts: &[],
        failing,
    };
    member.file(alloc)
}

/// A site on a file.
pub fn site_of(alloc: Global, use_of: SiteUse, name: &str) -> Result<SiteInfo, NoMemory>
    ensures { IfOk result (λ info. info.use_of ≡ use_of) }
{
    let name = Literal::new(alloc, name)?;
    Ok(SiteInfo {
        use_of,
        name,
        statement: 1,
        part: 0,
    })
}

/// Whether a resource was refused for want of memory.
pub fn lacks_memory<T>(answer: &Result<T, AcquireError>) -> bool {
    matches!(answer, Err(AcquireError::NoMemory))
}
