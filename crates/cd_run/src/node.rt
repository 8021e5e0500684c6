// What the driver needs of a statement's node.
ghost use Rattle.std.specs.Prelude.{◌≡◌, ℕ, IfOk};
ghost use Rattle.cd_meaning.specs.Places.{Place};
ghost use Rattle.cd_step.specs.Parts.{Part, Kept};
ghost use Rattle.cd_scope.specs.State.{held_in};
ghost use Rattle.cd_node.specs.Nodes.{AnswersNode, AreHeld, NodeStepped, fed_node};

use cd_elem::NoMemory;
use cd_node::{Node, NodeInput, NodeMove};
use cd_scope::Scope;
use std::alloc::Global;

/// The node of a statement.
pub trait StatementNode {
    // what is seen of it
    ghost seen: { Self → Part };

    // it stands between two steps; nothing is known of this after a refusal
    ghost well: { Self → Type 0 };

    // where the sites have these places, each word in it reads or writes what its own is
    ghost stands: { Self → (ℕ → Place) → Type 0 };

    /// One step. Nothing comes after `Done`, `Fault` or want of memory.
    fn step(&mut self, alloc: Global, input: NodeInput) -> Result<NodeMove, NoMemory>
        requires well { well self.old }
        requires answers { AnswersNode (seen self.old) input }
        ensures law { (place : ℕ → Place) → stands self.old place → IfOk result (λ m. NodeStepped place (seen self.old) input m (seen self.new)) }
        ensures well { IfOk result (λ m. well self.new) }
        ensures kept { Kept (fed_node input (seen self.old)) (seen self.new) }
        ensures places { (place : ℕ → Place) → stands self.old place → stands self.new place };

    /// Gives it up, after a refusal too, and leaves its tickets to the scope.
    fn abandon(self, scope: &mut Scope)
        requires held { AreHeld (held_in scope.old) (seen self) }
        ensures scope { scope.new ≡ scope.old };
}

impl StatementNode for Node {
    ghost use Rattle.cd_node.specs.Trees.{IsWell, StandsAt, seen as seen_node};

    ghost seen = { seen_node };

    ghost well = { IsWell };

    ghost stands = { StandsAt };

    fn step(&mut self, alloc: Global, input: NodeInput) -> Result<NodeMove, NoMemory> {
        Node::step(self, alloc, input)
    }

    fn abandon(self, scope: &mut Scope) {
        Node::abandon(self, scope)
    }
}
