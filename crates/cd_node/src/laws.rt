// Laws of nodes. Each is the contract of a function that does nothing.
ghost use Rattle.std.specs.Prelude.{◌≡◌, ◌≢◌, ◌+◌, ◌++◌, ◌∷◌, [], ℕ, Contains, List};
ghost use Rattle.cd_meaning.specs.Known.{known};
ghost use Rattle.cd_meaning.specs.Places.{Place};
ghost use Rattle.cd_meaning.specs.RunShapes.{Seen, Told};
ghost use Rattle.cd_scope.specs.Calls.{held_at};
ghost use Rattle.cd_scope.specs.Table.{IsHeldBy};
ghost use Rattle.cd_scope.specs.declared.table.Held.{Held as HeldItem};
ghost use Rattle.cd_scope.specs.declared.table.Ticket.{Ticket as TicketSeen};
ghost use Rattle.cd_step.specs.Parts.{IsHeld, IsSound, Kept, Part, site};
ghost use Rattle.cd_node.specs.Marks.{mark_stands, whole_mark};
ghost use Rattle.cd_node.specs.Nodes.{AreHeld, Closing, Ignores, Waiting, fed_node};
ghost use Rattle.cd_node.specs.Sinks.{seen_sink, sink_fits};
ghost use Rattle.cd_node.specs.Sources.{seen_source, source_fits};
ghost use Rattle.cd_node.specs.Trees.{IsWell, bound_of, chunks_of, seen};
ghost use Rattle.cd_node.specs.declared.mark.Mark.{Mark as MarkSeen};
ghost use Rattle.cd_node.specs.declared.node.Node.{Node as NodeSeen};
ghost use Rattle.cd_node.specs.declared.protocol.NodeInput.TheVariants as given;
ghost use Rattle.cd_node.specs.declared.sink.Sink.{Sink as SinkSeen};
ghost use Rattle.cd_node.specs.declared.source.Source.{Source as SourceSeen};

/// What holds of every part holds of the words with sites, and of a bracket round a part, between any two steps.
pub fn sound_leaves()
    ensures sources { (l : SourceSeen) → source_fits l → IsSound (seen_source l) }
    ensures sinks { (l : SinkSeen) → sink_fits l → IsSound (seen_sink l) }
    ensures brackets { (m : MarkSeen) (p : Part) → mark_stands m → IsSound p → IsSound (whole_mark m p) }
{}

/// What holds of every part holds of every node between two steps, and it holds what its room allows: what its words may
/// carry, and one chunk for each.
pub fn sound_nodes()
    ensures sound { (n : NodeSeen) → IsWell n → IsSound (seen n) }
    ensures held { (n : NodeSeen) → IsWell n → IsHeld (seen n) }
    ensures room { (n : NodeSeen) → (seen n).room ≡ bound_of n + chunks_of n }
{}

/// Once the end of a site was told, what is left is the same whatever is to come there; and a part of which that is so
/// never waits for the site.
pub fn ended_site()
    ensures ignores { (p : Part) → Ignores (site p.at) (fed_node given.GaveEnd p) }
    ensures never_read { (place : ℕ → Place) (s d : ℕ) (p q : Part) → Ignores s p → Waiting place s d p q → ⊥ }
{}

/// A scope that made each ticket of a part made those of the part behind a move, where it adds a resource that is acquired
/// and keeps those of other sites when one is released; and the ticket that a part gives up is of that scope.
pub fn held_tickets()
    ensures kept { (table : List HeldItem) (p q : Part) → Kept p q → AreHeld table p → AreHeld table q }
    ensures acquired { (table : List HeldItem) (t : TicketSeen) (p : Part) → AreHeld table p → AreHeld (table ++ held_at t.site.0 t.descriptor ∷ []) (fed_node (given.Acquired t) p) }
    ensures given_up { (table : List HeldItem) (t : TicketSeen) (p q : Part) → AreHeld table p → Closing t p q → IsHeldBy t table }
    ensures released { (table behind : List HeldItem) (t : TicketSeen) (p q : Part) → AreHeld table p → Kept p q → Closing t p q
        → ((h : HeldItem) → h.site.0 ≢ t.site.0 → Contains table h → Contains behind h) → AreHeld behind q }
{}
