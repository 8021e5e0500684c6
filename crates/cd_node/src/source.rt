// The words that read a site.
ghost use Rattle.std.specs.Prelude.{◌≡◌, ◌+◌, ◌<◌, ◌≤◌, ℕ, ◌==◌, List, IfOk, IsOk, Some, None, length};
ghost use Rattle.cd_elem.specs.Limits.{chunk_limit};
ghost use Rattle.cd_elem.specs.declared.kind.Kind.TheVariants as kind;
ghost use Rattle.cd_elem.specs.declared.kind.Sort.TheVariants as sort;
ghost use Rattle.cd_elem.specs.declared.word.SourceWord.TheVariants as sources;
ghost use Rattle.cd_elem.specs.declared.word.Word.TheVariants as words;
ghost use Rattle.cd_meaning.specs.Places.{Place, Reads, ReadsInput};
ghost use Rattle.cd_meaning.specs.RunShapes.{Seen};
ghost use Rattle.cd_meaning.specs.Stream.{End, Flow, Item};
ghost use Rattle.cd_meaning.specs.WordMeanings.{word_meaning};
ghost use Rattle.cd_scope.specs.State.{held_in};
ghost use Rattle.cd_step.specs.Flows.{Retires};
ghost use Rattle.cd_step.specs.Parts.{Kept, IsHeld, Fresh as IsFresh};
ghost use Rattle.cd_node.specs.Nodes.{AnswersNode, AreHeld, GivesBack, HasNoTicket, NodeStepped, fed_node};
ghost use Rattle.cd_node.specs.Ports.{IsOpenPort};
ghost use Rattle.cd_node.specs.Sources.{IsReadOf, SourceReads, seen_source, source_fits, standing};
ghost use Rattle.cd_node.specs.declared.port.Medium.TheVariants as medium;
ghost use Rattle.cd_node.specs.declared.protocol.NodeInput.TheVariants as given;
ghost use Rattle.cd_node.specs.declared.source.SourceStand.TheVariants as stand;

use crate::port::{Medium, Port};
use crate::protocol::{NodeInput, NodeMove};
use cd_elem::{Chunk, NoMemory, Site, Value};
use cd_scope::{Scope, Ticket};
use cd_world::Descriptor;
use std::alloc::Global;

/// Where a source stands between two steps.
#[derive(Clone, Copy, PartialEq, Eq)]
pub enum SourceStand {
    Fresh,
    /// It waits for its file.
    Opening,
    /// It waits for bytes.
    Reading,
    Gave,
    /// It waits for the close of its file.
    Closing,
    Over,
}

/// `sourceFile` or `stdin` between two steps. A file is opened when the source is first asked, and closed when a read told
/// the end.
pub struct Source {
    port: Port,
    stand: SourceStand,
}

impl Source {
    /// `sourceFile`, at this site. It has not started.
    pub fn file(site: Site) -> Source
        ensures fit { source_fits result }
        ensures fresh { (seen_source result).at ≡ IsFresh }
        ensures gives { (seen_source result).gives ≡ Some kind.Bytes }
        ensures takes { (seen_source result).takes ≡ None }
        ensures sites { (t : ℕ) → (seen_source result).sites t ≡ (t == site.0) }
        ensures no_ticket { HasNoTicket (seen_source result) }
        ensures none_held { (seen_source result).held ≡ 0 }
        ensures places { (place : ℕ → Place) (name : List ℕ) → place site.0 ≡ Reads name → SourceReads result place }
        ensures means { (name : List ℕ) (flow : Flow) (z : Seen) (xs : List Item) (end : End)
            → (seen_source result).run z xs end ≡ (word_meaning (words.Source (sources.SourceFile name))).run flow site.0 z xs end }
    {
        Source {
            port: Port::new(site, Medium::File),
            stand: SourceStand::Fresh,
        }
    }

    /// `stdin`, at this site. It has not started.
    pub fn stdin(site: Site) -> Source
        ensures fit { source_fits result }
        ensures fresh { (seen_source result).at ≡ IsFresh }
        ensures gives { (seen_source result).gives ≡ Some kind.Bytes }
        ensures takes { (seen_source result).takes ≡ None }
        ensures sites { (t : ℕ) → (seen_source result).sites t ≡ (t == site.0) }
        ensures no_ticket { HasNoTicket (seen_source result) }
        ensures none_held { (seen_source result).held ≡ 0 }
        ensures places { (place : ℕ → Place) → place site.0 ≡ ReadsInput → SourceReads result place }
        ensures means { (flow : Flow) (z : Seen) (xs : List Item) (end : End)
            → (seen_source result).run z xs end ≡ (word_meaning (words.Source sources.Stdin)).run flow site.0 z xs end }
    {
        Source {
            port: Port::new(site, Medium::Standard),
            stand: SourceStand::Fresh,
        }
    }

    /// It asks for bytes, where its file is open.
    fn read(&mut self) -> NodeMove
        requires open { IsOpenPort self.old.port }
        ensures law { IsReadOf self.old result }
        ensures after { self.new ≡ standing stand.Reading self.old }
    {
        self.stand = SourceStand::Reading;
        NodeMove::Read {
            site: self.port.site,
            descriptor: self.port.descriptor(Descriptor::STDIN),
        }
    }

    fn start(&mut self) -> NodeMove
        requires stand { self.old.stand ≡ stand.Fresh }
        requires fit { source_fits self.old }
        ensures law { (place : ℕ → Place) → SourceReads self.old place → NodeStepped place (seen_source self.old) given.Start result (seen_source self.new) }
        ensures fit { source_fits self.new }
        ensures port { self.new.port ≡ self.old.port }
    {
        match self.port.medium {
            Medium::File => {
                self.stand = SourceStand::Opening;
                NodeMove::Acquire(self.port.site)
            }
            Medium::Standard => self.read(),
        }
    }

    fn next(&mut self) -> NodeMove
        requires stand { self.old.stand ≡ stand.Gave }
        requires fit { source_fits self.old }
        ensures law { (place : ℕ → Place) → SourceReads self.old place → NodeStepped place (seen_source self.old) given.Next result (seen_source self.new) }
        ensures fit { source_fits self.new }
        ensures port { self.new.port ≡ self.old.port }
    {
        self.read()
    }

    fn acquired(&mut self, ticket: Ticket) -> NodeMove
        requires stand { self.old.stand ≡ stand.Opening }
        requires site { self.old.port.site.0 ≡ ticket.site.0 }
        requires fit { source_fits self.old }
        ensures law { (place : ℕ → Place) → SourceReads self.old place → NodeStepped place (seen_source self.old) (given.Acquired ticket) result (seen_source self.new) }
        ensures fit { source_fits self.new }
        ensures kept { Kept (fed_node (given.Acquired ticket) (seen_source self.old)) (seen_source self.new) }
        ensures medium { self.new.port.medium ≡ self.old.port.medium }
        ensures same { self.new.port.site ≡ self.old.port.site }
    {
        self.port.put(ticket);
        self.read()
    }

    fn gave(&mut self, chunk: Chunk) -> NodeMove
        requires stand { self.old.stand ≡ stand.Reading }
        requires fit { source_fits self.old }
        requires bytes { chunk.0 ≡ sort.Bytes }
        requires some { 0 < length chunk.1 }
        requires most { length chunk.1 ≤ chunk_limit }
        ensures law { (place : ℕ → Place) → NodeStepped place (seen_source self.old) (given.Gave chunk) result (seen_source self.new) }
        ensures fit { source_fits self.new }
        ensures port { self.new.port ≡ self.old.port }
    {
        self.stand = SourceStand::Gave;
        NodeMove::Emit(chunk)
    }

    fn ended(&mut self) -> NodeMove
        requires stand { self.old.stand ≡ stand.Reading }
        requires fit { source_fits self.old }
        ensures law { (place : ℕ → Place) → NodeStepped place (seen_source self.old) given.GaveEnd result (seen_source self.new) }
        ensures fit { source_fits self.new }
        ensures kept { Kept (seen_source self.old) (seen_source self.new) }
        ensures medium { self.new.port.medium ≡ self.old.port.medium }
        ensures same { self.new.port.site ≡ self.old.port.site }
    {
        match self.port.medium {
            Medium::File => {
                self.stand = SourceStand::Closing;
                NodeMove::Release(self.port.take())
            }
            Medium::Standard => {
                self.stand = SourceStand::Over;
                NodeMove::Done {
                    value: Value::Unit,
                    rest: None,
                }
            }
        }
    }

    fn closed(&mut self) -> NodeMove
        requires stand { self.old.stand ≡ stand.Closing }
        requires fit { source_fits self.old }
        ensures law { (place : ℕ → Place) → NodeStepped place (seen_source self.old) given.Closed result (seen_source self.new) }
        ensures fit { source_fits self.new }
        ensures port { self.new.port ≡ self.old.port }
    {
        self.stand = SourceStand::Over;
        NodeMove::Done {
            value: Value::Unit,
            rest: None,
        }
    }

    /// One step. It takes no memory.
    pub fn step(&mut self, _alloc: Global, input: NodeInput) -> Result<NodeMove, NoMemory>
        requires fit { source_fits self.old }
        requires answers { AnswersNode (seen_source self.old) input }
        ensures taken { IsOk result }
        ensures law { (place : ℕ → Place) → SourceReads self.old place → IfOk result (λ m. NodeStepped place (seen_source self.old) input m (seen_source self.new)) }
        ensures fit { source_fits self.new }
        ensures kept { Kept (fed_node input (seen_source self.old)) (seen_source self.new) }
        ensures held { IsHeld (seen_source self.new) }
        ensures places { (place : ℕ → Place) → SourceReads self.old place → SourceReads self.new place }
    {
        match input {
            NodeInput::Start => Ok(self.start()),
            NodeInput::Next => Ok(self.next()),
            NodeInput::Acquired(ticket) => Ok(self.acquired(ticket)),
            NodeInput::Gave(chunk) => Ok(self.gave(chunk)),
            NodeInput::GaveEnd => Ok(self.ended()),
            NodeInput::Closed => Ok(self.closed()),
            NodeInput::Chunk(_) | NodeInput::End | NodeInput::Wrote => unreachable!(),
        }
    }

    /// How many elements it holds: none.
    pub fn held(&self) -> u64
        ensures { result ≡ (seen_source self.now).held }
    {
        0
    }

    /// How many elements it may hold beside one chunk: none.
    pub fn bound(&self) -> u64
        ensures { (seen_source self.now).room ≡ result + chunk_limit }
    {
        0
    }

    /// What it has not read: nothing. No step follows.
    pub fn give_back(&mut self) -> Option<Chunk>
        ensures law { Retires (seen_source self.old) result (seen_source self.new) }
        ensures same { self.new ≡ self.old }
    {
        None
    }

    /// Leaves its ticket to the scope. It gives nothing back.
    pub fn retire(self, scope: &mut Scope) -> Option<Chunk>
        requires held { AreHeld (held_in scope.old) (seen_source self) }
        ensures scope { scope.new ≡ scope.old }
        ensures back { GivesBack (seen_source self) result }
    {
        let Source { port, stand: _ } = self;
        port.leave(scope);
        None
    }

    /// Gives up a source that has no ticket, where no scope is at hand.
    pub fn give_up(self)
        requires { HasNoTicket (seen_source self) }
    {
        let Source { port, stand: _ } = self;
        port.give_up();
    }
}
