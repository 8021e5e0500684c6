// What a sign makes of the innermost bracket.
ghost use Rattle.std.specs.Prelude.{◌≡◌, IfOk};
ghost use Rattle.cd_parser.specs.Machine as spec;

use crate::allocation::{box_both, box_pipe, let_go, with_last};
use crate::state::{Block, Exit, Frame};
use crate::word_trees::number_of;
use cd_elem::{NoMemory, Pipe, PipeList, Section, Sign, Zip};
use std::alloc::Global;

/// What a sign makes of the innermost bracket, where a pipe has ended in it.
pub fn leave_bracket(
    alloc: Global,
    frame: Frame,
    pipe: Pipe,
    sign: Sign,
) -> Result<Option<Exit>, NoMemory>
    ensures { IfOk result (λ exit. exit ≡ spec.leave_bracket frame pipe sign) }
{
    match frame {
        Frame::Parens => Ok(leave_parens(pipe, sign)),
        Frame::Braces(pipes) => leave_braces(pipes, pipe, sign),
        Frame::Block(block) => leave_block(alloc, block, pipe, sign),
        Frame::Tee => leave_tee(alloc, pipe, sign),
        Frame::ZipFirst(zip) => Ok(leave_first(zip, pipe, sign)),
        Frame::ZipSecond(zip, first) => leave_zip(alloc, zip, first, pipe, sign),
    }
}

fn leave_parens(pipe: Pipe, sign: Sign) -> Option<Exit>
    ensures { result ≡ spec.leave_bracket Frame.Parens pipe sign }
{
    match sign {
        Sign::CloseParen => Some(Exit::Closes(pipe)),
        _ => {
            drop(pipe);
            None
        }
    }
}

fn leave_braces(pipes: PipeList, pipe: Pipe, sign: Sign) -> Result<Option<Exit>, NoMemory>
    ensures { IfOk result (λ exit. exit ≡ spec.leave_bracket (Frame.Braces pipes) pipe sign) }
{
    match sign {
        Sign::Semicolon => {
            let pipes = with_last(pipes, pipe)?;
            Ok(Some(Exit::Stays(Frame::Braces(pipes))))
        }
        Sign::CloseBrace => {
            let pipes = with_last(pipes, pipe)?;
            Ok(Some(Exit::Closes(Pipe::Sequence(pipes))))
        }
        _ => {
            drop((pipes, pipe));
            Ok(None)
        }
    }
}

fn leave_block(
    alloc: Global,
    block: Block,
    pipe: Pipe,
    sign: Sign,
) -> Result<Option<Exit>, NoMemory>
    ensures { IfOk result (λ exit. exit ≡ spec.leave_bracket (Frame.Block block) pipe sign) }
{
    match sign {
        Sign::CloseBrace => {
            let form = close_block(alloc, block, pipe)?;
            Ok(Some(Exit::Closes(form)))
        }
        _ => {
            drop((block, pipe));
            Ok(None)
        }
    }
}

fn close_block(alloc: Global, block: Block, pipe: Pipe) -> Result<Pipe, NoMemory>
    ensures { IfOk result (λ form. form ≡ spec.close_block block pipe) }
{
    let Ok(body) = box_pipe(alloc, pipe) else {
        return Err(let_go(block));
    };
    match block {
        Block::Counts(Section::Exactly, count) => Ok(Pipe::Exactly(number_of(count), body)),
        Block::Counts(Section::ExactlyE, count) => Ok(Pipe::ExactlyE(number_of(count), body)),
        Block::LineE => Ok(Pipe::LineE(body)),
        Block::Mark(name) => Ok(Pipe::Mark(name, body)),
    }
}

fn leave_tee(alloc: Global, pipe: Pipe, sign: Sign) -> Result<Option<Exit>, NoMemory>
    ensures { IfOk result (λ exit. exit ≡ spec.leave_bracket Frame.Tee pipe sign) }
{
    match sign {
        Sign::CloseParen => {
            let body = box_pipe(alloc, pipe)?;
            Ok(Some(Exit::Closes(Pipe::Tee(body))))
        }
        _ => {
            drop(pipe);
            Ok(None)
        }
    }
}

fn leave_first(zip: Zip, pipe: Pipe, sign: Sign) -> Option<Exit>
    ensures { result ≡ spec.leave_bracket (Frame.ZipFirst zip) pipe sign }
{
    match sign {
        Sign::Comma => Some(Exit::Stays(Frame::ZipSecond(zip, pipe))),
        _ => {
            drop(pipe);
            None
        }
    }
}

fn leave_zip(
    alloc: Global,
    zip: Zip,
    first: Pipe,
    second: Pipe,
    sign: Sign,
) -> Result<Option<Exit>, NoMemory>
    ensures { IfOk result (λ exit. exit ≡ spec.leave_zip zip first second sign) }
{
    match (zip, sign) {
        (Zip::Source, Sign::Comma) => Ok(Some(Exit::Asks(first, second))),
        (Zip::Sink, Sign::CloseParen) => {
            let (first, second) = box_both(alloc, first, second)?;
            Ok(Some(Exit::Closes(Pipe::ZipSink(first, second))))
        }
        (Zip::Conduit, Sign::CloseParen) => {
            let (first, second) = box_both(alloc, first, second)?;
            Ok(Some(Exit::Closes(Pipe::ZipConduit(first, second))))
        }
        _ => {
            drop((first, second));
            Ok(None)
        }
    }
}
