// How inputs and moves of nodes are written down.
use crate::lines::{StepError, push_back, push_chunk, push_value};
use cd_elem::Site;
use cd_node::{NodeInput, NodeMove};
use cd_world::Descriptor;

/// The front of a line: what a node is given.
pub fn push_given(text: &mut String, input: &NodeInput) -> Result<(), StepError> {
    match input {
        NodeInput::Start => text.push_str("start = ")?,
        NodeInput::Chunk(chunk) | NodeInput::Gave(chunk) => {
            push_chunk(text, chunk)?;
            text.push_str(" = ")?;
        }
        NodeInput::End | NodeInput::GaveEnd => text.push_str("end = ")?,
        NodeInput::Next => text.push_str("next = ")?,
        NodeInput::Acquired(_) => text.push_str("acquired = ")?,
        NodeInput::Wrote => text.push_str("wrote = ")?,
        NodeInput::Closed => text.push_str("closed = ")?,
    }
    Ok(())
}

fn push_number(text: &mut String, number: u64) -> Result<(), StepError> {
    write!(text, "{number}").map_err(|_| StepError::NoMemory)
}

/// A name with a site behind it.
pub fn push_site(text: &mut String, name: &str, site: Site) -> Result<(), StepError> {
    text.push_str(name)?;
    push_number(text, u64::from(site.0))
}

fn push_reached(
    text: &mut String,
    name: &str,
    site: Site,
    descriptor: Descriptor,
) -> Result<(), StepError> {
    push_site(text, name, site)?;
    text.push_str(" at ")?;
    push_number(text, descriptor.0)
}

/// The rest of it: the node's move.
pub fn push_made(text: &mut String, made: &NodeMove) -> Result<(), StepError> {
    match made {
        NodeMove::Emit(chunk) => {
            text.push_str("emit ")?;
            push_chunk(text, chunk)?;
        }
        NodeMove::Need => text.push_str("need")?,
        NodeMove::Acquire(site) => push_site(text, "acquire ", *site)?,
        NodeMove::Read { site, descriptor } => push_reached(text, "read ", *site, *descriptor)?,
        NodeMove::Write {
            site,
            descriptor,
            chunk,
        } => {
            push_reached(text, "write ", *site, *descriptor)?;
            text.push_str(" ")?;
            push_chunk(text, chunk)?;
        }
        NodeMove::Release(ticket) => push_site(text, "release ", ticket.site())?,
        NodeMove::Done { value, rest } => {
            text.push_str("done ")?;
            push_value(text, value)?;
            text.push_str(", ")?;
            return push_back(text, rest);
        }
        NodeMove::Fault(_) => text.push_str("fault")?,
    }
    text.push_str("\n")?;
    Ok(())
}
