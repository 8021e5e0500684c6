// Forms: what is asked of what comes to them and of their parts, and their types.
ghost use Rattle.std.specs.Prelude.{◌≡◌, ◌<◌, List, ℕ, None, Some, nat_lt, IfOk, MatchOption, ◌&&◌, ◌||◌, not};
ghost use Rattle.cd_elem.specs.Limits.{piece_limit};
ghost use Rattle.cd_types.specs.Conditions.{fails_where, lowest};
ghost use Rattle.cd_types.specs.Flows as flows;
ghost use Rattle.cd_types.specs.Forms as spec;
ghost use Rattle.cd_types.specs.Parts.{Part};
ghost use Rattle.cd_types.specs.Trees.{part};
ghost use Rattle.cd_types.specs.declared.refusal.RefusalKind.TheVariants.{BoundTooLarge, KindMismatch, NeedsElements, OpenEnd, SeesChunks};
ghost use Rattle.cd_part_types.specs.Forms.{zipped_flow};
ghost use Rattle.cd_part_types.specs.Outputs.{GivesOrFails, IsWithin};
ghost use Rattle.cd_part_types.specs.Types.{type_of};

use crate::chains::both_results;
use crate::contents::{has_site, shows_cuts};
use crate::flows::{Flow, agree, bounded, is_cut, is_nothing, is_pieces, join, piece_bound};
use crate::part_type::{PartType, ResultKind};
use crate::word_outputs::length_in;
use cd_elem::{Kind, Literal, NoMemory, Pipe};
use cd_types::RefusalKind;
use std::alloc::Global;

// ---- what comes to them

/// A form that reads elements begins.
pub fn refused_on_pieces(flow: Flow) -> Option<RefusalKind>
    ensures { result ≡ lowest (spec.input_fails NeedsElements flows.is_pieces flow) }
{
    match flow {
        None => Some(RefusalKind::OpenEnd),
        Some(Kind::Blocks(_) | Kind::Texts(_)) => Some(RefusalKind::NeedsElements),
        Some(Kind::Bytes | Kind::Chars) => None,
    }
}

/// A form that reads pieces begins.
pub fn refused_on_elements(flow: Flow) -> Option<RefusalKind>
    ensures { result ≡ lowest (spec.input_fails SeesChunks flows.is_cut flow) }
{
    match flow {
        None => Some(RefusalKind::OpenEnd),
        Some(Kind::Bytes | Kind::Chars) => Some(RefusalKind::SeesChunks),
        Some(Kind::Blocks(_) | Kind::Texts(_)) => None,
    }
}

/// A form that reads anything begins.
pub fn refused_on_nothing(flow: Flow) -> Option<RefusalKind>
    ensures { result ≡ lowest (fails_where OpenEnd (flows.is_nothing flow)) }
{
    if is_nothing(flow) {
        Some(RefusalKind::OpenEnd)
    } else {
        None
    }
}

// ---- forms of one part

/// The type of `exactly`, `exactlyE` or `lineE` for what comes to it, from the type of its part.
pub fn section_type(flow: Flow, inside: PartType) -> PartType
    ensures { (a : Part) → type_of inside ≡ a.type flow → type_of result ≡ spec.section_type a flow }
{
    PartType {
        from: flow,
        to: inside.to,
        result: inside.result,
        exact: true,
        idle: false,
        bound: 0,
    }
}

/// The type of `mark` for what comes to it, from the type of its part.
pub fn mark_type(flow: Flow, inside: PartType) -> PartType
    ensures { (a : Part) → type_of inside ≡ a.type flow → type_of result ≡ spec.mark_type a flow }
{
    PartType {
        from: flow,
        to: inside.to,
        result: inside.result,
        exact: inside.exact,
        idle: inside.idle,
        bound: 0,
    }
}

/// Behind the part of `tee`.
pub fn refused_in_tee(typed: &PartType) -> Option<RefusalKind>
    ensures { result ≡ lowest (spec.tee_fails (type_of typed.now)) }
{
    if !is_nothing(typed.to) {
        Some(RefusalKind::KindMismatch)
    } else if !typed.result.is_unit() {
        Some(RefusalKind::ResultLost)
    } else {
        None
    }
}

/// The type of `tee` for what comes to it.
pub fn tee_type(flow: Flow) -> PartType
    ensures { type_of result ≡ spec.tee_type flow }
{
    PartType {
        from: flow,
        to: flow,
        result: ResultKind::Unit,
        exact: true,
        idle: false,
        bound: 0,
    }
}

// ---- zipSource

/// Behind the first part of `zipSource`.
pub fn refused_in_zip_source(typed: &PartType) -> Option<RefusalKind>
    ensures { result ≡ lowest (spec.zip_source_fails (type_of typed.now)) }
{
    if is_cut(typed.to) {
        Some(RefusalKind::SeesChunks)
    } else if !typed.result.is_unit() {
        Some(RefusalKind::ResultLost)
    } else if is_nothing(typed.to) {
        Some(RefusalKind::OpenEnd)
    } else {
        None
    }
}

/// Behind the second part of `zipSource`.
pub fn refused_in_zip_source_second(first: &PartType, typed: &PartType) -> Option<RefusalKind>
    ensures { result ≡ lowest (spec.zip_source_second_fails (type_of first.now) (type_of typed.now)) }
{
    if is_pieces(typed.to) && !agree(first.to, typed.to) {
        Some(RefusalKind::KindMismatch)
    } else {
        refused_in_zip_source(typed)
    }
}

/// What `zipSource` gives of parts that give this, or nothing where its pieces may be too long.
fn zipped(first: Flow, second: Flow, literal: &Literal) -> Option<Flow>
    ensures { MatchOption result (piece_limit < flows.piece_bound (zipped_flow first second literal.now)) (λ to. IsWithin to (zipped_flow first second literal.now)) }
{
    let pair = piece_bound(first) as u128 + piece_bound(second) as u128;
    bounded(first, pair + length_in(first, literal) as u128)
}

/// What `zipSource` gives of parts with these types, or the refusal at its end.
pub fn zip_source_output(
    first: &PartType,
    second: &PartType,
    literal: &Literal,
) -> Result<Flow, RefusalKind>
    ensures { (a b : Part) → type_of first.now ≡ a.type None → type_of second.now ≡ b.type None
        → GivesOrFails (spec.zipped a b literal.now) (fails_where BoundTooLarge (nat_lt piece_limit (flows.piece_bound (spec.zipped a b literal.now)))) result }
{
    match zipped(first.to, second.to, literal) {
        Some(to) => Ok(to),
        None => Err(RefusalKind::BoundTooLarge),
    }
}

/// The type of `zipSource` for what comes to it, from the type of its first part and what it gives
/// (`zip_source_output`).
pub fn zip_source_type(flow: Flow, first: PartType, to: Flow) -> PartType
    ensures { (a b : Part) (literal : List ℕ) → type_of first ≡ a.type None → to ≡ spec.zipped a b literal → type_of result ≡ spec.zip_source_type a b literal flow }
{
    PartType {
        from: flow,
        to,
        result: ResultKind::Unit,
        exact: true,
        idle: true,
        bound: piece_bound(first.to) as u64 + 1,
    }
}

// ---- zipSink

/// Behind a part of `zipSink`.
pub fn refused_in_zip_sink(typed: &PartType) -> Option<RefusalKind>
    ensures { result ≡ lowest (spec.zip_sink_fails (type_of typed.now)) }
{
    if is_nothing(typed.to) {
        None
    } else {
        Some(RefusalKind::KindMismatch)
    }
}

/// At the end of a `zipSink` of these parts. On pieces it does not look into them.
pub fn refused_by_cuts(flow: Flow, first: &Pipe, second: &Pipe) -> Option<RefusalKind>
    ensures { result ≡ lowest (fails_where SeesChunks (flows.is_cut flow && ((part first.now).shows_cuts || (part second.now).shows_cuts
        || ((part first.now).has_site && (part second.now).has_site)))) }
{
    if !is_cut(flow) {
        None
    } else if shows_cuts(first) || shows_cuts(second) || has_site(first) && has_site(second) {
        Some(RefusalKind::SeesChunks)
    } else {
        None
    }
}

/// The type of `zipSink` for what comes to it, from the types of its parts.
pub fn zip_sink_type(
    alloc: Global,
    flow: Flow,
    first: PartType,
    second: PartType,
) -> Result<PartType, NoMemory>
    ensures { IfOk result (λ typed. (a b : Part) → type_of first ≡ a.type flow → type_of second ≡ b.type flow → type_of typed ≡ spec.zip_sink_type a b flow) }
{
    Ok(PartType {
        from: flow,
        to: None,
        result: both_results(alloc, first.result, second.result)?,
        exact: is_pieces(flow),
        idle: false,
        bound: 0,
    })
}

// ---- zipConduit

/// Behind the second part of `zipConduit`.
pub fn refused_in_zip_conduit_second(first: &PartType, typed: &PartType) -> Option<RefusalKind>
    ensures { result ≡ lowest (fails_where KindMismatch (not (flows.agree first.now.to typed.now.to))) }
{
    if agree(first.to, typed.to) {
        None
    } else {
        Some(RefusalKind::KindMismatch)
    }
}

/// The type of `zipConduit` for what comes to it, from the types of its parts.
pub fn zip_conduit_type(
    alloc: Global,
    flow: Flow,
    first: PartType,
    second: PartType,
) -> Result<PartType, NoMemory>
    ensures { IfOk result (λ typed. (a b : Part) → type_of first ≡ a.type flow → type_of second ≡ b.type flow → type_of typed ≡ spec.zip_conduit_type a b flow) }
{
    let to = join(first.to, second.to);
    Ok(PartType {
        from: flow,
        to,
        result: both_results(alloc, first.result, second.result)?,
        exact: true,
        idle: false,
        bound: 0,
    })
}
