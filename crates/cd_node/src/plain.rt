// Words of a node with a site, and those without, as stages and controllers have them.
ghost use Rattle.std.specs.Prelude.{◌≡◌};
ghost use Rattle.cd_node.specs.PlainWords.{IsHeard, IsPlain, IsSaid, node_input as input_seen, node_move as move_seen};

use crate::protocol::{NodeInput, NodeMove};
use cd_step::{Input, Move};

/// What a node is given: what a part without sites is given, or the answer of a site.
pub(crate) enum Heard {
    Plain(Input),
    Site(NodeInput),
}

/// What a node answers: what a part without sites answers, or what it asks of a site.
pub(crate) enum Said {
    Plain(Move),
    Site(NodeMove),
}

#[inline(always)]
pub(crate) fn hear(input: NodeInput) -> Heard
    ensures { IsHeard input result }
{
    match input {
        NodeInput::Start => Heard::Plain(Input::Start),
        NodeInput::Chunk(chunk) => Heard::Plain(Input::Chunk(chunk)),
        NodeInput::End => Heard::Plain(Input::End),
        NodeInput::Next => Heard::Plain(Input::Next),
        NodeInput::Acquired(ticket) => Heard::Site(NodeInput::Acquired(ticket)),
        NodeInput::Gave(chunk) => Heard::Site(NodeInput::Gave(chunk)),
        NodeInput::GaveEnd => Heard::Site(NodeInput::GaveEnd),
        NodeInput::Wrote => Heard::Site(NodeInput::Wrote),
        NodeInput::Closed => Heard::Site(NodeInput::Closed),
    }
}

#[inline(always)]
pub(crate) fn say(made: NodeMove) -> Said
    ensures { IsSaid made result }
{
    match made {
        NodeMove::Emit(chunk) => Said::Plain(Move::Emit(chunk)),
        NodeMove::Need => Said::Plain(Move::Need),
        NodeMove::Acquire(site) => Said::Site(NodeMove::Acquire(site)),
        NodeMove::Read { site, descriptor } => Said::Site(NodeMove::Read { site, descriptor }),
        NodeMove::Write {
            site,
            descriptor,
            chunk,
        } => Said::Site(NodeMove::Write {
            site,
            descriptor,
            chunk,
        }),
        NodeMove::Release(ticket) => Said::Site(NodeMove::Release(ticket)),
        NodeMove::Done { value, rest } => Said::Plain(Move::Done { value, rest }),
        NodeMove::Fault(fault) => Said::Plain(Move::Fault(fault)),
    }
}

/// What a part without sites is given.
#[inline(always)]
pub(crate) fn plain(input: NodeInput) -> Input
    requires { IsPlain input }
    ensures { input ≡ input_seen result }
{
    match hear(input) {
        Heard::Plain(plain) => plain,
        Heard::Site(_answer) => unreachable!(),
    }
}

#[inline(always)]
pub(crate) fn node_input(input: Input) -> NodeInput
    ensures { result ≡ input_seen input }
{
    match input {
        Input::Start => NodeInput::Start,
        Input::Chunk(chunk) => NodeInput::Chunk(chunk),
        Input::End => NodeInput::End,
        Input::Next => NodeInput::Next,
    }
}

#[inline(always)]
pub(crate) fn node_move(made: Move) -> NodeMove
    ensures { result ≡ move_seen made }
{
    match made {
        Move::Emit(chunk) => NodeMove::Emit(chunk),
        Move::Need => NodeMove::Need,
        Move::Done { value, rest } => NodeMove::Done { value, rest },
        Move::Fault(fault) => NodeMove::Fault(fault),
    }
}
