// The words that write a site.
ghost use Rattle.std.specs.Prelude.{◌≡◌, ◌+◌, ℕ, ◌==◌, List, IfOk, IsOk, Some, None};
ghost use Rattle.cd_elem.specs.Limits.{chunk_limit};
ghost use Rattle.cd_elem.specs.declared.kind.Kind.TheVariants as kind;
ghost use Rattle.cd_elem.specs.declared.word.SinkWord.TheVariants as sinks;
ghost use Rattle.cd_elem.specs.declared.word.Word.TheVariants as words;
ghost use Rattle.cd_meaning.specs.Places.{Place, Writes, WritesOutput};
ghost use Rattle.cd_meaning.specs.RunShapes.{Seen};
ghost use Rattle.cd_meaning.specs.Stream.{End, Flow, Item};
ghost use Rattle.cd_meaning.specs.WordMeanings.{word_meaning};
ghost use Rattle.cd_scope.specs.State.{held_in};
ghost use Rattle.cd_step.specs.Flows.{Retires};
ghost use Rattle.cd_step.specs.Parts.{IsChunk, Kept, IsHeld, Fresh as IsFresh};
ghost use Rattle.cd_node.specs.Nodes.{AnswersNode, AreHeld, GivesBack, HasNoTicket, NodeStepped, fed_node};
ghost use Rattle.cd_node.specs.Sinks.{SinkWrites, seen_sink, sink_fits};
ghost use Rattle.cd_node.specs.declared.protocol.NodeInput.TheVariants as given;
ghost use Rattle.cd_node.specs.declared.sink.SinkStand.TheVariants as stand;

use crate::port::{Medium, Port};
use crate::protocol::{NodeInput, NodeMove};
use cd_elem::{Chunk, NoMemory, Site, Value};
use cd_scope::{Scope, Ticket};
use cd_world::Descriptor;
use std::alloc::Global;

/// Where a sink stands between two steps.
#[derive(Clone, Copy, PartialEq, Eq)]
pub enum SinkStand {
    Fresh,
    /// It waits for its file.
    Opening,
    /// It waits for values.
    Waiting,
    /// It waits for its write.
    Writing,
    /// It waits for the close of its file.
    Closing,
    Over,
}

/// `sinkFile` or `stdout` between two steps. A file is created when the sink starts, and closed at the end of its input.
pub struct Sink {
    port: Port,
    stand: SinkStand,
}

impl Sink {
    /// `sinkFile`, at this site. It has not started.
    pub fn file(site: Site) -> Sink
        ensures fit { sink_fits result }
        ensures fresh { (seen_sink result).at ≡ IsFresh }
        ensures gives { (seen_sink result).gives ≡ None }
        ensures takes { (seen_sink result).takes ≡ Some kind.Bytes }
        ensures sites { (t : ℕ) → (seen_sink result).sites t ≡ (t == site.0) }
        ensures no_ticket { HasNoTicket (seen_sink result) }
        ensures none_held { (seen_sink result).held ≡ 0 }
        ensures places { (place : ℕ → Place) (name : List ℕ) → place site.0 ≡ Writes name → SinkWrites result place }
        ensures means { (name : List ℕ) (flow : Flow) (z : Seen) (xs : List Item) (end : End)
            → (seen_sink result).run z xs end ≡ (word_meaning (words.Sink (sinks.SinkFile name))).run flow site.0 z xs end }
    {
        Sink {
            port: Port::new(site, Medium::File),
            stand: SinkStand::Fresh,
        }
    }

    /// `stdout`, at this site. It has not started.
    pub fn stdout(site: Site) -> Sink
        ensures fit { sink_fits result }
        ensures fresh { (seen_sink result).at ≡ IsFresh }
        ensures gives { (seen_sink result).gives ≡ None }
        ensures takes { (seen_sink result).takes ≡ Some kind.Bytes }
        ensures sites { (t : ℕ) → (seen_sink result).sites t ≡ (t == site.0) }
        ensures no_ticket { HasNoTicket (seen_sink result) }
        ensures none_held { (seen_sink result).held ≡ 0 }
        ensures places { (place : ℕ → Place) → place site.0 ≡ WritesOutput → SinkWrites result place }
        ensures means { (flow : Flow) (z : Seen) (xs : List Item) (end : End)
            → (seen_sink result).run z xs end ≡ (word_meaning (words.Sink sinks.Stdout)).run flow site.0 z xs end }
    {
        Sink {
            port: Port::new(site, Medium::Standard),
            stand: SinkStand::Fresh,
        }
    }

    fn start(&mut self) -> NodeMove
        requires stand { self.old.stand ≡ stand.Fresh }
        requires fit { sink_fits self.old }
        ensures law { (place : ℕ → Place) → SinkWrites self.old place → NodeStepped place (seen_sink self.old) given.Start result (seen_sink self.new) }
        ensures fit { sink_fits self.new }
        ensures port { self.new.port ≡ self.old.port }
    {
        match self.port.medium {
            Medium::File => {
                self.stand = SinkStand::Opening;
                NodeMove::Acquire(self.port.site)
            }
            Medium::Standard => {
                self.stand = SinkStand::Waiting;
                NodeMove::Need
            }
        }
    }

    fn acquired(&mut self, ticket: Ticket) -> NodeMove
        requires stand { self.old.stand ≡ stand.Opening }
        requires site { self.old.port.site.0 ≡ ticket.site.0 }
        requires fit { sink_fits self.old }
        ensures law { (place : ℕ → Place) → NodeStepped place (seen_sink self.old) (given.Acquired ticket) result (seen_sink self.new) }
        ensures fit { sink_fits self.new }
        ensures kept { Kept (fed_node (given.Acquired ticket) (seen_sink self.old)) (seen_sink self.new) }
        ensures medium { self.new.port.medium ≡ self.old.port.medium }
        ensures same { self.new.port.site ≡ self.old.port.site }
    {
        self.port.put(ticket);
        self.stand = SinkStand::Waiting;
        NodeMove::Need
    }

    fn write(&mut self, chunk: Chunk) -> NodeMove
        requires stand { self.old.stand ≡ stand.Waiting }
        requires fit { sink_fits self.old }
        requires bytes { IsChunk kind.Bytes chunk }
        ensures law { (place : ℕ → Place) → SinkWrites self.old place → NodeStepped place (seen_sink self.old) (given.Chunk chunk) result (seen_sink self.new) }
        ensures fit { sink_fits self.new }
        ensures port { self.new.port ≡ self.old.port }
    {
        self.stand = SinkStand::Writing;
        NodeMove::Write {
            site: self.port.site,
            descriptor: self.port.descriptor(Descriptor::STDOUT),
            chunk,
        }
    }

    fn wrote(&mut self) -> NodeMove
        requires stand { self.old.stand ≡ stand.Writing }
        requires fit { sink_fits self.old }
        ensures law { (place : ℕ → Place) → NodeStepped place (seen_sink self.old) given.Wrote result (seen_sink self.new) }
        ensures fit { sink_fits self.new }
        ensures port { self.new.port ≡ self.old.port }
    {
        self.stand = SinkStand::Waiting;
        NodeMove::Need
    }

    fn ended(&mut self) -> NodeMove
        requires stand { self.old.stand ≡ stand.Waiting }
        requires fit { sink_fits self.old }
        ensures law { (place : ℕ → Place) → NodeStepped place (seen_sink self.old) given.End result (seen_sink self.new) }
        ensures fit { sink_fits self.new }
        ensures kept { Kept (seen_sink self.old) (seen_sink self.new) }
        ensures medium { self.new.port.medium ≡ self.old.port.medium }
        ensures same { self.new.port.site ≡ self.old.port.site }
    {
        match self.port.medium {
            Medium::File => {
                self.stand = SinkStand::Closing;
                NodeMove::Release(self.port.take())
            }
            Medium::Standard => {
                self.stand = SinkStand::Over;
                NodeMove::Done {
                    value: Value::Unit,
                    rest: None,
                }
            }
        }
    }

    fn closed(&mut self) -> NodeMove
        requires stand { self.old.stand ≡ stand.Closing }
        requires fit { sink_fits self.old }
        ensures law { (place : ℕ → Place) → NodeStepped place (seen_sink self.old) given.Closed result (seen_sink self.new) }
        ensures fit { sink_fits self.new }
        ensures port { self.new.port ≡ self.old.port }
    {
        self.stand = SinkStand::Over;
        NodeMove::Done {
            value: Value::Unit,
            rest: None,
        }
    }

    /// One step. It takes no memory.
    pub fn step(&mut self, _alloc: Global, input: NodeInput) -> Result<NodeMove, NoMemory>
        requires fit { sink_fits self.old }
        requires answers { AnswersNode (seen_sink self.old) input }
        ensures taken { IsOk result }
        ensures law { (place : ℕ → Place) → SinkWrites self.old place → IfOk result (λ m. NodeStepped place (seen_sink self.old) input m (seen_sink self.new)) }
        ensures fit { sink_fits self.new }
        ensures kept { Kept (fed_node input (seen_sink self.old)) (seen_sink self.new) }
        ensures held { IsHeld (seen_sink self.new) }
        ensures places { (place : ℕ → Place) → SinkWrites self.old place → SinkWrites self.new place }
    {
        match input {
            NodeInput::Start => Ok(self.start()),
            NodeInput::Chunk(chunk) => Ok(self.write(chunk)),
            NodeInput::End => Ok(self.ended()),
            NodeInput::Acquired(ticket) => Ok(self.acquired(ticket)),
            NodeInput::Wrote => Ok(self.wrote()),
            NodeInput::Closed => Ok(self.closed()),
            NodeInput::Next | NodeInput::Gave(_) | NodeInput::GaveEnd => unreachable!(),
        }
    }

    /// How many elements it holds: none.
    pub fn held(&self) -> u64
        ensures { result ≡ (seen_sink self.now).held }
    {
        0
    }

    /// How many elements it may hold beside one chunk: none.
    pub fn bound(&self) -> u64
        ensures { (seen_sink self.now).room ≡ result + chunk_limit }
    {
        0
    }

    /// What it has not read: nothing. No step follows.
    pub fn give_back(&mut self) -> Option<Chunk>
        ensures law { Retires (seen_sink self.old) result (seen_sink self.new) }
        ensures same { self.new ≡ self.old }
    {
        None
    }

    /// Leaves its ticket to the scope. It gives nothing back.
    pub fn retire(self, scope: &mut Scope) -> Option<Chunk>
        requires held { AreHeld (held_in scope.old) (seen_sink self) }
        ensures scope { scope.new ≡ scope.old }
        ensures back { GivesBack (seen_sink self) result }
    {
        let Sink { port, stand: _ } = self;
        port.leave(scope);
        None
    }

    /// Gives up a sink that has no ticket, where no scope is at hand.
    pub fn give_up(self)
        requires { HasNoTicket (seen_sink self) }
    {
        let Sink { port, stand: _ } = self;
        port.give_up();
    }
}
