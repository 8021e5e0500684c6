// A piece that is still to be given.
ghost use Rattle.std.specs.Prelude.{◌≡◌, ◌<◌, ◌∷◌, IfOk, Some, false};
ghost use Rattle.cd_elem.specs.Chunks.{is_cut};
ghost use Rattle.cd_meaning.specs.Stream.{Out};
ghost use Rattle.cd_pieces.specs.Stages.{due_acts, IsLeftDue};
ghost use Rattle.cd_pieces.specs.Values.{piece_of};

use crate::piece::copy_of;
use cd_elem::{Chunk, NoMemory};
use std::alloc::Global;

/// A piece, and how many times it is still to be given.
#[derive(Drop)]
pub struct Due {
    pub piece: Chunk,
    pub times: u64,
}

impl Due {
    /// The piece for the next time, and what is due behind it. The last time it is the piece itself, and else a copy.
    pub fn next(self, alloc: Global) -> Result<(Chunk, Option<Due>), NoMemory>
        requires pieces { is_cut self.piece.0 ≡ false }
        requires some { 0 < self.times }
        ensures piece { IfOk result (λ next. next.0 ≡ self.piece) }
        ensures acts { IfOk result (λ next. Out (piece_of self.piece) ∷ due_acts next.1 ≡ due_acts (Some self)) }
        ensures left { IfOk result (λ next. IsLeftDue self next.1) }
    {
        let Due { piece, times } = self;
        if times == 1 {
            return Ok((piece, None));
        }
        match copy_of(alloc, &piece) {
            Ok(copy) => Ok((
                copy,
                Some(Due {
                    piece,
                    times: times - 1,
                }),
            )),
            Err(refused) => {
                drop(piece);
                Err(refused)
            }
        }
    }
}
