// Calls of a world, of which no more is said than that what they need is open.
ghost use Rattle.std.specs.Prelude.{◌≡◌, ◌<◌, ◌⊎◌, [], ◌∷◌, ◌++◌, length};
ghost use Rattle.cd_world.specs.declared.event.Use.TheVariants.{Reading, Writing};
ghost use Rattle.cd_world.specs.Live.{IsLive, Removes, open_as};

use cd_world::{Descriptor, Use, World};
use std::process::Abort;

/// The descriptor under which a file is opened.
pub fn opened<W: World>(rt: &impl Abort, world: &mut W, use_of: Use, name: &str) -> Descriptor
    ensures live { IsLive use_of result (W.live world.new) }
    ensures last { W.live world.new ≡ W.live world.old ++ open_as use_of result name.now ∷ [] }
{
    let answer = match use_of {
        Use::Reading => world.open_read(name),
        Use::Writing => world.create(name),
        Use::Marking => world.mark(name),
    };
    answer.expect(rt, "a file that is opened")
}

/// Whether a file is closed, and the close does not fail.
pub fn closes<W: World>(world: &mut W, use_of: Use, which: Descriptor) -> bool
    requires { IsLive use_of which (W.live world.old) }
    ensures { Removes which (W.live world.old) (W.live world.new) }
{
    world.close(which).is_ok()
}

/// Whether reads into this room give so many bytes, each read the next ones, and then leave the room with this front.
pub fn gives<W: World>(
    world: &mut W,
    from: Descriptor,
    room: &mut [u8],
    reads: &[(usize, &str)],
) -> bool
    requires readable { (from.0 ≡ 0) ⊎ IsLive Reading from (W.live world.old) }
    requires room { 0 < length room.old }
    ensures live { W.live world.new ≡ W.live world.old }
{
    for (count, front) in reads {
        let given = world.read(from, room);
        if given != Ok(*count) || !room.starts_with(front.as_bytes()) {
            return false;
        }
    }
    true
}

/// Whether writes of these bytes, none of which are empty, take so many of them.
pub fn takes<W: World>(world: &mut W, to: Descriptor, writes: &[(&str, usize)]) -> bool
    requires writable { (to.0 ≡ 1) ⊎ (to.0 ≡ 2) ⊎ IsLive Writing to (W.live world.old) }
    ensures live { W.live world.new ≡ W.live world.old }
{
    for (bytes, count) in writes {
        if bytes.is_empty() || world.write(to, bytes.as_bytes()) != Ok(*count) {
            return false;
        }
    }
    true
}
