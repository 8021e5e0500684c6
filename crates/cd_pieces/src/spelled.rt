// Literals as the elements of pieces.
ghost use Rattle.std.specs.Prelude.{◌≡◌, ◌+◌, ◌<◌, ◌≤◌, ◌++◌, IfOk, length, false, true};
ghost use Rattle.std.specs.Str.{chars};
ghost use Rattle.cd_elem.specs.Limits.{piece_limit};
ghost use Rattle.cd_elem.specs.declared.kind.Sort.TheVariants as sort;
ghost use Rattle.cd_pieces.specs.Spelling.{spelled, spells_chars, spelled_for};
ghost use Rattle.cd_step.specs.Parts.{sort_at};

use cd_elem::{ByteList, CharList, Chunk, Items, Kind, Literal, NoMemory};
use std::alloc::Global;

/// A literal: its bytes, or its characters.
#[derive(Drop)]
pub enum Spelled {
    Bytes(ByteList),
    Chars(CharList),
}

fn chars_of(alloc: Global, text: &str) -> Result<CharList, NoMemory>
    ensures { IfOk result (λ list. list ≡ chars text.now) }
{
    let list = text.chars().collect(alloc)?;
    Ok(Items::from_vec(list))
}

impl Spelled {
    /// The literal as pieces of this kind are.
    pub fn new(alloc: Global, literal: &Literal, kind: Kind) -> Result<Spelled, NoMemory>
        ensures { IfOk result (λ made. made ≡ spelled_for (sort_at kind) literal.now) }
    {
        let text = literal.as_str();
        match kind {
            Kind::Bytes | Kind::Blocks(_) => {
                let bytes = Items::from_slice(alloc, text.as_bytes())?;
                Ok(Spelled::Bytes(bytes))
            }
            Kind::Chars | Kind::Texts(_) => {
                let chars = chars_of(alloc, text)?;
                Ok(Spelled::Chars(chars))
            }
        }
    }

    /// A copy as a piece.
    pub fn piece(&self, alloc: Global) -> Result<Chunk, NoMemory>
        requires { length (spelled self.now) ≤ piece_limit }
        ensures numbers { IfOk result (λ chunk. chunk.1 ≡ spelled self.now) }
        ensures blocks { spells_chars self.now ≡ false → IfOk result (λ chunk. chunk.0 ≡ sort.Block) }
        ensures texts { spells_chars self.now ≡ true → IfOk result (λ chunk. chunk.0 ≡ sort.Text) }
    {
        match self {
            Spelled::Bytes(bytes) => Chunk::block(alloc, bytes.as_slice()),
            Spelled::Chars(chars) => Chunk::text(alloc, chars.as_slice()),
        }
    }
}
