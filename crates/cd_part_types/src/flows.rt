// What flows between parts.
ghost use Rattle.std.specs.Prelude.{◌≡◌, ◌+◌, ◌<◌, ◌≤◌, MatchOption};
ghost use Rattle.cd_elem.specs.Limits.{piece_limit};
ghost use Rattle.cd_types.specs.Chains as chains;
ghost use Rattle.cd_types.specs.Flows as spec;
ghost use Rattle.cd_part_types.specs.Outputs.{IsWithin};

use cd_elem::{Kind, Sort};

/// What comes to a part or from it: a kind or nothing.
pub type Flow = Option<Kind>;

/// The greatest number of elements in a piece.
pub const PIECE_LIMIT: u32 = 1_048_576;

/// Bytes or characters.
pub fn is_cut(flow: Flow) -> bool
    ensures { result ≡ spec.is_cut flow }
{
    match flow {
        Some(Kind::Bytes | Kind::Chars) => true,
        Some(Kind::Blocks(_) | Kind::Texts(_)) | None => false,
    }
}

/// Blocks or texts.
pub fn is_pieces(flow: Flow) -> bool
    ensures { result ≡ spec.is_pieces flow }
{
    match flow {
        Some(Kind::Bytes | Kind::Chars) | None => false,
        Some(Kind::Blocks(_) | Kind::Texts(_)) => true,
    }
}

pub fn is_nothing(flow: Flow) -> bool
    ensures { result ≡ spec.is_nothing flow }
{
    match flow {
        None => true,
        Some(_) => false,
    }
}

pub fn is_bytes(flow: Flow) -> bool
    ensures { result ≡ spec.is_bytes flow }
{
    match flow {
        Some(Kind::Bytes) => true,
        _ => false,
    }
}

pub fn is_chars(flow: Flow) -> bool
    ensures { result ≡ spec.is_chars flow }
{
    match flow {
        Some(Kind::Chars) => true,
        _ => false,
    }
}

/// What one value of this kind is.
pub fn kind_sort(kind: Kind) -> Sort
    ensures { result ≡ spec.kind_sort kind }
{
    match kind {
        Kind::Bytes => Sort::Bytes,
        Kind::Chars => Sort::Chars,
        Kind::Blocks(_) => Sort::Block,
        Kind::Texts(_) => Sort::Text,
    }
}

/// The greatest number of elements in a piece, or 0 where no pieces flow.
pub fn piece_bound(flow: Flow) -> u32
    ensures { result ≡ spec.piece_bound flow }
{
    match flow {
        Some(Kind::Blocks(most) | Kind::Texts(most)) => most,
        Some(Kind::Bytes | Kind::Chars) | None => 0,
    }
}

/// How much a part holds that keeps one piece of what comes: its length and one more, or 0 where nothing comes.
pub fn held_piece(flow: Flow) -> u64
    ensures holds { result ≡ chains.held_piece flow }
    ensures within { result ≤ 4294967296 }
{
    match flow {
        None => 0,
        Some(_) => piece_bound(flow) as u64 + 1,
    }
}

fn same_sort(first: Sort, second: Sort) -> bool
    ensures { result ≡ spec.same_sort first second }
{
    match (first, second) {
        (Sort::Bytes, Sort::Bytes) => true,
        (Sort::Chars, Sort::Chars) => true,
        (Sort::Block, Sort::Block) => true,
        (Sort::Text, Sort::Text) => true,
        _ => false,
    }
}

/// Whether one of them is nothing, or both have one kind apart from the bound.
pub fn agree(first: Flow, second: Flow) -> bool
    ensures { result ≡ spec.agree first second }
{
    match (first, second) {
        (Some(first), Some(second)) => same_sort(kind_sort(first), kind_sort(second)),
        (None, _) | (Some(_), None) => true,
    }
}

fn kind_with(kind: Kind, most: u32) -> Kind
    ensures { result ≡ spec.kind_with kind most }
{
    match kind {
        Kind::Bytes => Kind::Bytes,
        Kind::Chars => Kind::Chars,
        Kind::Blocks(_) => Kind::Blocks(most),
        Kind::Texts(_) => Kind::Texts(most),
    }
}

/// The same kind with another bound of its pieces.
pub fn with_bound(flow: Flow, most: u32) -> Flow
    ensures { result ≡ spec.with_bound flow most }
{
    match flow {
        None => None,
        Some(kind) => Some(kind_with(kind, most)),
    }
}

fn larger(first: u32, second: u32) -> u32
    ensures { result ≡ spec.larger first second }
{
    if first < second { second } else { first }
}

/// Of two that agree, the other one or the larger bound.
pub fn join(first: Flow, second: Flow) -> Flow
    ensures { result ≡ spec.join first second }
{
    match (first, second) {
        (None, other) => other,
        (Some(kind), None) => Some(kind),
        (Some(kind), Some(other)) => {
            let most = larger(piece_bound(Some(kind)), piece_bound(Some(other)));
            Some(kind_with(kind, most))
        }
    }
}

/// The elements of pieces.
pub fn flattened(flow: Flow) -> Flow
    ensures { result ≡ spec.flattened flow }
{
    match flow {
        Some(Kind::Blocks(_)) => Some(Kind::Bytes),
        Some(Kind::Texts(_)) => Some(Kind::Chars),
        Some(Kind::Bytes | Kind::Chars) | None => None,
    }
}

/// This flow, or nothing where its pieces may be too long.
pub fn within(flow: Flow) -> Option<Flow>
    ensures { MatchOption result (piece_limit < spec.piece_bound flow) (λ to. IsWithin to flow) }
{
    if piece_bound(flow) > PIECE_LIMIT {
        None
    } else {
        Some(flow)
    }
}

/// The same kind with another bound of its pieces, or nothing where that is too large.
pub fn bounded(flow: Flow, most: u128) -> Option<Flow>
    ensures { MatchOption result (piece_limit < spec.piece_bound (spec.with_bound flow most)) (λ to. IsWithin to (spec.with_bound flow most)) }
{
    match flow {
        Some(Kind::Blocks(_)) if most <= PIECE_LIMIT as u128 => {
            Some(Some(Kind::Blocks(most as u32)))
        }
        Some(Kind::Texts(_)) if most <= PIECE_LIMIT as u128 => {
            Some(Some(Kind::Texts(most as u32)))
        }
        Some(Kind::Blocks(_) | Kind::Texts(_)) => None,
        Some(Kind::Bytes | Kind::Chars) | None => Some(flow),
    }
}
