// What stands in a pipe.
ghost use Rattle.std.specs.Prelude.{◌≡◌, map};
ghost use Rattle.cd_types.specs.Parts.{any_shows, any_site};
ghost use Rattle.cd_types.specs.Trees.{part};

use crate::word_sites::{is_site, word_shows_cuts};
use cd_elem::Pipe;

/// Some word in it has a fault or an order of reads that would show how its input was cut. Each part is looked at once.
#[cycle(cuts)]
#[tactic(auto, using(crate::proofs::Nodes::nodes))]
pub fn shows_cuts(pipe: &Pipe) -> bool
    ensures { result ≡ (part pipe.now).shows_cuts }
{
    match pipe {
        Pipe::Word(word) => word_shows_cuts(word),
        Pipe::Chain(_, pipes) => any_shows_cuts(pipes.as_slice()),
        Pipe::Sequence(pipes) => any_shows_cuts(pipes.as_slice()),
        Pipe::Exactly(_, inner) => shows_cuts(inner.get()),
        Pipe::ExactlyE(_, inner) => shows_cuts(inner.get()),
        Pipe::LineE(inner) => shows_cuts(inner.get()),
        Pipe::Mark(_, inner) => shows_cuts(inner.get()),
        Pipe::Tee(inner) => shows_cuts(inner.get()),
        Pipe::ZipSource(first, second, _) => shows_cuts(first.get()) || shows_cuts(second.get()),
        Pipe::ZipSink(first, second) => shows_cuts(first.get()) || shows_cuts(second.get()),
        Pipe::ZipConduit(first, second) => shows_cuts(first.get()) || shows_cuts(second.get()),
    }
}

#[cycle(cuts)]
fn any_shows_cuts(pipes: &[Pipe]) -> bool
    ensures { result ≡ any_shows (map part pipes.now) }
{
    for pipe in pipes {
        if shows_cuts(pipe) {
            return true;
        }
    }
    false
}

/// Some part in it is a site. Each part is looked at once.
#[cycle(sites)]
#[tactic(auto, using(crate::proofs::Nodes::nodes))]
pub fn has_site(pipe: &Pipe) -> bool
    ensures { result ≡ (part pipe.now).has_site }
{
    match pipe {
        Pipe::Word(word) => is_site(word),
        Pipe::Chain(_, pipes) => any_has_site(pipes.as_slice()),
        Pipe::Sequence(pipes) => any_has_site(pipes.as_slice()),
        Pipe::Exactly(_, inner) => has_site(inner.get()),
        Pipe::ExactlyE(_, inner) => has_site(inner.get()),
        Pipe::LineE(inner) => has_site(inner.get()),
        Pipe::Mark(_, _) => true,
        Pipe::Tee(inner) => has_site(inner.get()),
        Pipe::ZipSource(first, second, _) => has_site(first.get()) || has_site(second.get()),
        Pipe::ZipSink(first, second) => has_site(first.get()) || has_site(second.get()),
        Pipe::ZipConduit(first, second) => has_site(first.get()) || has_site(second.get()),
    }
}

#[cycle(sites)]
fn any_has_site(pipes: &[Pipe]) -> bool
    ensures { result ≡ any_site (map part pipes.now) }
{
    for pipe in pipes {
        if has_site(pipe) {
            return true;
        }
    }
    false
}
