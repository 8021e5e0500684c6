// Every controller of two parts, by cases.
ghost use Rattle.std.specs.Prelude.{◌≡◌, ◌+◌};
ghost use Rattle.cd_step.specs.Parts.{Part};
ghost use Rattle.cd_node.specs.Controls.{whole_pair};

use cd_elem::Chunk;
use cd_fuse::{Follow, Fuse};
use cd_step::{Control, Flow, Found, Input, Move, Turn};

/// What decides which of two nodes steps.
#[derive(Drop)]
pub enum PairControl {
    Fusion(Fuse),
    Sequence(Follow),
}

impl Control for PairControl {
    ghost use Rattle.cd_node.specs.Controls.{whole_pair, pair_is_at, pair_fits, pair_left, pair_copying};

    ghost whole = { whole_pair };

    ghost is_at = { pair_is_at };

    ghost fits = { pair_fits };

    ghost left = { pair_left };

    ghost copying = { pair_copying };

    fn copies(&self) -> bool {
        match self {
            PairControl::Fusion(control) => control.copies(),
            PairControl::Sequence(control) => control.copies(),
        }
    }

    fn begin(&mut self, input: Input, copy: Option<Chunk>) -> Turn {
        match self {
            PairControl::Fusion(control) => control.begin(input, copy),
            PairControl::Sequence(control) => control.begin(input, copy),
        }
    }

    fn up(&mut self, made: Move) -> Flow {
        match self {
            PairControl::Fusion(control) => control.up(made),
            PairControl::Sequence(control) => control.up(made),
        }
    }

    fn down(&mut self, made: Move) -> Flow {
        match self {
            PairControl::Fusion(control) => control.down(made),
            PairControl::Sequence(control) => control.down(made),
        }
    }

    fn retire(&mut self) -> Found {
        match self {
            PairControl::Fusion(control) => control.retire(),
            PairControl::Sequence(control) => control.retire(),
        }
    }
}

impl PairControl {
    /// What it keeps beside its parts: what one of them gave back.
    pub fn held(&self) -> u64
        ensures { (a b : Part) → (whole_pair self.now a b).held ≡ a.held + b.held + result }
    {
        match self {
            PairControl::Fusion(control) => control.held(),
            PairControl::Sequence(control) => control.held(),
        }
    }
}
