// The standard streams that are written to.
ghost use Rattle.std.specs.Prelude.{◌≡◌, ◌≢◌, IsTrue, OnErr, []};
ghost use Rattle.cd_world.specs.Causes.{HasCause};
ghost use Rattle.cd_cli.specs.Streams.{LogsFront, WritesFront, descriptor_of};

use cd_world::{Descriptor, World, WorldError};

/// A standard stream that is written to.
#[derive(Clone, Copy)]
pub enum Stream {
    Output,
    Errors,
}

impl Stream {
    fn descriptor(self) -> Descriptor
        ensures { result ≡ descriptor_of self }
    {
        match self {
            Stream::Output => Descriptor::STDOUT,
            Stream::Errors => Descriptor::STDERR,
        }
    }
}

/// Writes all of `bytes` to a standard stream, in as many calls as it takes.
pub fn write_all<W: World>(world: &mut W, to: Stream, bytes: &[u8]) -> Result<(), WorldError>
    ensures cause { HasCause (W.faults world.old) (W.faults world.new) result }
    ensures empty { OnErr result (bytes.now ≢ []) }
    ensures live { W.live world.new ≡ W.live world.old }
    ensures files { IsTrue W.tells_files → WritesFront to bytes.now result (W.files world.old) (W.files world.new) }
    ensures log { IsTrue W.tells_log → LogsFront to bytes.now result (W.log world.old) (W.log world.new) }
{
    let descriptor = to.descriptor();
    let mut done = 0;
    while done < bytes.len() {
        let count = world.write(descriptor, &bytes[done..])?;
        done += count;
    }
    Ok(())
}
