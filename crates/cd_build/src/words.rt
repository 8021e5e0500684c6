// The nodes of words.
ghost use Rattle.std.specs.Prelude.{◌≡◌, ◌+◌, ◌<◌, ◌^◌, IfOk, IsTrue, Some, false, length};
ghost use Rattle.cd_elem.specs.declared.kind.Kind.TheVariants as kind;
ghost use Rattle.cd_elem.specs.declared.word.Word.TheVariants as words;
ghost use Rattle.cd_meaning.specs.WordMeanings.{word_meaning};
ghost use Rattle.cd_types.specs.declared.refusal.RefusalKind.TheVariants.{BoundTooLarge};
ghost use Rattle.cd_types.specs.Fitting.{Fits};
ghost use Rattle.cd_types.specs.Flows.{is_nothing};
ghost use Rattle.cd_types.specs.Parts.{word_part};
ghost use Rattle.cd_types.specs.WordTypes.{word_fails, word_gives};
ghost use Rattle.cd_build.specs.Built.{is_built_word, is_in_range};
ghost use Rattle.cd_build.specs.Builds.{IsPassed};
ghost use Rattle.cd_build.specs.BuiltNodes.{IsBuiltPart, IsWordNode};

use crate::pipes::Built;
use cd_elem::{ElemWord, Kind, NoMemory, SinkWord, Site, Sort, SourceWord, Word};
use cd_node::Node;
use cd_part_types::gives;
use cd_types::parts_fit;
use std::alloc::Global;

/// What a word gives.
fn output(word: &Word, takes: Option<Kind>) -> Option<Kind>
    requires { word_fails word.now takes BoundTooLarge ≡ false }
    ensures { result ≡ word_gives word.now takes }
{
    match gives(word, takes) {
        Some(to) => to,
        None => unreachable!(),
    }
}

/// The kind of what comes to a word that reads.
fn input(takes: Option<Kind>) -> Kind
    requires { is_nothing takes ≡ false }
    ensures { takes ≡ Some result }
{
    match takes {
        Some(kind) => kind,
        None => unreachable!(),
    }
}

/// The node of a word that is this site.
fn at_site(node: Node, gives: Option<Kind>, site: u32) -> Built
    requires { site + 1 < 2 ^ 32 }
    ensures node { result.node ≡ node }
    ensures gives { result.gives ≡ gives }
    ensures next { result.next ≡ site + 1 }
{
    Built {
        node,
        gives,
        next: site + 1,
    }
}

/// The node of a source, which is this site where it is one.
fn build_source(
    alloc: Global,
    word: &SourceWord,
    takes: Option<Kind>,
    gives: Option<Kind>,
    site: u32,
) -> Result<Built, NoMemory>
    requires passed { IsPassed (words.Source word.now) takes }
    requires gives { gives ≡ word_gives (words.Source word.now) takes }
    requires room { site + length (word_meaning (words.Source word.now)).places < 2 ^ 32 }
    ensures { IfOk result (IsBuiltPart (word_part (words.Source word.now)) (word_meaning (words.Source word.now)) takes site) }
{
    match word {
        SourceWord::SourceFile(_) => Ok(at_site(Node::source_file(Site(site)), gives, site)),
        SourceWord::Stdin => Ok(at_site(Node::stdin(Site(site)), gives, site)),
        _ => {
            let node = Node::literal(alloc, word)?;
            Ok(Built {
                node,
                gives,
                next: site,
            })
        }
    }
}

/// The node of a sink that is this site.
fn build_sink(word: &SinkWord, takes: Option<Kind>, gives: Option<Kind>, site: u32) -> Built
    requires bytes { takes ≡ Some kind.Bytes }
    requires gives { gives ≡ word_gives (words.Sink word.now) takes }
    requires room { site + length (word_meaning (words.Sink word.now)).places < 2 ^ 32 }
    ensures { IsBuiltPart (word_part (words.Sink word.now)) (word_meaning (words.Sink word.now)) takes site result }
{
    match word {
        SinkWord::SinkFile(_) => at_site(Node::sink_file(Site(site)), gives, site),
        SinkWord::Stdout => at_site(Node::stdout(Site(site)), gives, site),
    }
}

/// The node of an element word. Pieces come to it only where it is `sinkNull`.
fn elem_node(alloc: Global, word: &ElemWord, kind: Kind) -> Result<Node, NoMemory>
    requires built { IsTrue (is_in_range word.now) }
    requires passed { IsPassed (words.Elem word.now) (Some kind) }
    ensures { IfOk result (IsWordNode (words.Elem word.now) (Some kind)) }
{
    match kind {
        Kind::Bytes => {
            let node = Node::elem(alloc, word, Sort::Bytes)?;
            Ok(node)
        }
        Kind::Chars => {
            let node = Node::elem(alloc, word, Sort::Chars)?;
            Ok(node)
        }
        Kind::Blocks(_) | Kind::Texts(_) => Ok(Node::sink_null(kind)),
    }
}

/// The node of a word, for what comes to it. Where it is a site, it is this one.
pub fn build_word(
    alloc: Global,
    word: &Word,
    takes: Option<Kind>,
    site: u32,
) -> Result<Built, NoMemory>
    requires built { IsTrue (is_built_word word.now) }
    requires typed { Fits takes (word_part word.now) }
    requires room { site + length (word_meaning word.now).places < 2 ^ 32 }
    ensures { IfOk result (IsBuiltPart (word_part word.now) (word_meaning word.now) takes site) }
{
    parts_fit();
    let gives = output(word, takes);
    // what a word leaves that is no site
    let next = site;
    match word {
        Word::Elem(word) => {
            let node = elem_node(alloc, word, input(takes))?;
            Ok(Built { node, gives, next })
        }
        Word::Piece(word) => {
            let node = Node::piece(alloc, word, input(takes))?;
            Ok(Built { node, gives, next })
        }
        Word::Split(word) => {
            let node = Node::split(alloc, word, input(takes))?;
            Ok(Built { node, gives, next })
        }
        Word::Source(word) => build_source(alloc, word, takes, gives, site),
        Word::Sink(word) => Ok(build_sink(word, takes, gives, site)),
        _ => unreachable!(),
    }
}
