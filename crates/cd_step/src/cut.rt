// Chunks of cut streams.
ghost use Rattle.std.specs.Prelude.{◌≤◌, IsTrue, length, drop};
ghost use Rattle.cd_elem.specs.Chunks.{is_cut};
ghost use Rattle.cd_step.specs.CutChunks.{IsChunkOf};

use cd_elem::Chunk;

/// What stands behind the first `count` elements, None where there is nothing.
pub fn behind(mut chunk: Chunk, count: usize) -> Option<Chunk>
    requires cut { IsTrue (is_cut chunk.0) }
    requires within { count ≤ length chunk.1 }
    ensures { IsChunkOf chunk.0 (drop count chunk.1) result }
{
    if count == chunk.len() {
        return None;
    }
    chunk.skip(count);
    Some(chunk)
}
