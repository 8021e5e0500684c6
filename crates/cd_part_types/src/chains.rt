// Chains: what an operator asks of a member, and the type of a chain of the types of its members.
ghost use Rattle.std.specs.Prelude.{◌≡◌, ◌++◌, ◌∷◌, ◌&&◌, ◌≤◌, [], map, IfOk, OnOk, OnErr, IfErr};
ghost use Rattle.cd_meaning.specs.LawfulTrees.{is_map as is_map_spec};
ghost use Rattle.cd_types.specs.Chains as spec;
ghost use Rattle.cd_types.specs.Conditions.{lowest};
ghost use Rattle.cd_types.specs.Flows as flows;
ghost use Rattle.cd_types.specs.Parts.{all_invertible};
ghost use Rattle.cd_types.specs.Trees.{part};
ghost use Rattle.cd_part_types.specs.Results.{result_of};
ghost use Rattle.cd_part_types.specs.Types.{type_of};

use crate::flows::{Flow, held_piece, is_cut, is_pieces, kind_sort};
use crate::part_type::{PartType, ResultKind, maybe, pair};
use cd_elem::{ElemWord, Items, Join, NoMemory, PieceWord, Pipe, Sort, Word};
use cd_types::RefusalKind;
use std::alloc::Global;

/// Adds the type of a member. For want of memory the list stays as it was.
pub fn put_type(members: &mut Items<PartType>, typed: PartType) -> Result<(), NoMemory>
    ensures ok { OnOk result (members.new ≡ members.old ++ typed ∷ []) }
    ensures err { OnErr result (members.new ≡ members.old) }
{
    match members.push(typed) {
        Ok(()) => Ok(()),
        Err(refused) => {
            drop(refused);
            Err(NoMemory)
        }
    }
}

fn is_map_word(word: &Word) -> bool
    ensures { result ≡ is_map_spec word.now }
{
    match word {
        Word::Elem(ElemWord::PassE | ElemWord::MapE(_)) => true,
        Word::Piece(PieceWord::Pass | PieceWord::Map(_)) => true,
        _ => false,
    }
}

/// An invertible map: `passE`, `pass`, `mapE`, `map`, or a chain of such by `|`. It looks into chains by `|` alone.
#[cycle(maps)]
#[tactic(auto, using(crate::proofs::Nodes::nodes))]
pub fn is_map(pipe: &Pipe) -> bool
    ensures { result ≡ (part pipe.now).invertible }
{
    match pipe {
        Pipe::Word(word) => is_map_word(word),
        Pipe::Chain(operator, pipes) => chain_is_map(*operator, pipes.as_slice()),
        Pipe::Sequence(_) => false,
        Pipe::Exactly(_, _) => false,
        Pipe::ExactlyE(_, _) => false,
        Pipe::LineE(_) => false,
        Pipe::Mark(_, _) => false,
        Pipe::Tee(_) => false,
        Pipe::ZipSource(_, _, _) => false,
        Pipe::ZipSink(_, _) => false,
        Pipe::ZipConduit(_, _) => false,
    }
}

#[cycle(maps)]
fn chain_is_map(operator: Join, pipes: &[Pipe]) -> bool
    ensures { result ≡ (spec.is_plain operator && all_invertible (map part pipes.now)) }
{
    match operator {
        Join::Plain => are_maps(pipes),
        Join::Keep | Join::Return | Join::Both | Join::Up | Join::Asked => false,
    }
}

#[cycle(maps)]
fn are_maps(pipes: &[Pipe]) -> bool
    ensures { result ≡ all_invertible (map part pipes.now) }
{
    for pipe in pipes {
        if !is_map(pipe) {
            return false;
        }
    }
    true
}

/// Behind a member of a chain.
pub fn refused_in_chain(
    operator: Join,
    pipe: &Pipe,
    typed: &PartType,
    is_first: bool,
    is_last: bool,
) -> Option<RefusalKind>
    ensures { result ≡ lowest (spec.member_fails operator (part pipe.now).invertible (type_of typed.now) is_first is_last) }
{
    let loses = !typed.result.is_unit();
    match operator {
        Join::Both | Join::Asked => None,
        Join::Up if !is_first && loses => Some(RefusalKind::ResultLost),
        Join::Up => None,
        _ if is_last => None,
        Join::Return if is_cut(typed.to) => Some(RefusalKind::SeesChunks),
        Join::Keep if !is_map(pipe) => Some(RefusalKind::NotInvertible),
        Join::Plain | Join::Keep | Join::Return if loses => Some(RefusalKind::ResultLost),
        Join::Plain | Join::Keep | Join::Return => None,
    }
}

fn pieces_list(flow: Flow) -> ResultKind
    ensures { result_of result ≡ flows.pieces_list flow }
{
    match flow {
        None => ResultKind::ListV(Sort::Block),
        Some(kind) => ResultKind::ListV(kind_sort(kind)),
    }
}

/// Both results, or unit where both are unit.
pub fn both_results(
    alloc: Global,
    first: ResultKind,
    second: ResultKind,
) -> Result<ResultKind, NoMemory>
    ensures { IfOk result (λ kind. result_of kind ≡ flows.both_results (result_of first) (result_of second)) }
{
    if first.is_unit() && second.is_unit() {
        drop(first);
        drop(second);
        Ok(ResultKind::Unit)
    } else {
        pair(alloc, first, second)
    }
}

/// The first result where it is there, and the second.
fn asked_results(
    alloc: Global,
    first: ResultKind,
    second: ResultKind,
) -> Result<ResultKind, NoMemory>
    ensures { IfOk result (λ kind. result_of kind ≡ flows.Pair (flows.Maybe (result_of first)) (result_of second)) }
{
    match maybe(alloc, first) {
        Ok(first) => pair(alloc, first, second),
        Err(wanting) => {
            drop(second);
            Err(wanting)
        }
    }
}

fn joined_result(
    alloc: Global,
    operator: Join,
    member: PartType,
    rest: ResultKind,
) -> Result<ResultKind, NoMemory>
    ensures { IfOk result (λ kind. result_of kind ≡ spec.joined_result operator (type_of member) (result_of rest)) }
{
    let PartType { to, result, .. } = member;
    match operator {
        Join::Plain | Join::Keep => {
            drop(result);
            Ok(rest)
        }
        Join::Return => {
            drop(result);
            pair(alloc, rest, pieces_list(to))
        }
        Join::Both => both_results(alloc, result, rest),
        Join::Up => {
            drop(rest);
            Ok(result)
        }
        Join::Asked => asked_results(alloc, result, rest),
    }
}

/// The result of a chain, of which the last member's is taken first.
#[tactic(auto, using(crate::proofs::ChainTypes::taken))]
fn chain_result(
    alloc: Global,
    operator: Join,
    mut members: Items<PartType>,
) -> Result<ResultKind, NoMemory>
    ensures { IfOk result (λ kind. result_of kind ≡ spec.chain_result operator (map type_of members)) }
{
    let Some(last) = members.pop() else {
        return Ok(ResultKind::Unit);
    };
    let mut result = last.result;
    while let Some(member) = members.pop() {
        result = joined_result(alloc, operator, member, result)?;
    }
    Ok(result)
}

fn first_idle(members: &[PartType]) -> bool
    ensures { result ≡ (spec.first_type (map type_of members.now)).idle }
{
    match members.first() {
        None => false,
        Some(first) => first.idle,
    }
}

fn first_exact(members: &[PartType]) -> bool
    ensures { result ≡ (spec.first_type (map type_of members.now)).exact }
{
    match members.first() {
        None => false,
        Some(first) => first.exact,
    }
}

fn last_exact(members: &[PartType]) -> bool
    ensures { result ≡ (spec.last_type (map type_of members.now)).exact }
{
    match members.last() {
        None => false,
        Some(last) => last.exact,
    }
}

/// What the last one gives, or what comes where there is none.
fn last_output(flow: Flow, members: &[PartType]) -> Flow
    ensures { result ≡ spec.last_output flow (map type_of members.now) }
{
    match members.last() {
        None => flow,
        Some(last) => last.to,
    }
}

fn keeps_exact(operator: Join, members: &[PartType]) -> bool
    ensures { result ≡ spec.keeps_exact operator (spec.first_type (map type_of members.now)) (spec.last_type (map type_of members.now)) }
{
    match operator {
        Join::Keep => last_exact(members),
        Join::Both | Join::Up => first_exact(members),
        Join::Plain | Join::Return | Join::Asked => false,
    }
}

/// For each member behind which another one stands, a piece that it gives.
fn held_pieces(members: &[PartType]) -> u128
    ensures { result ≡ spec.held_pieces (map type_of members.now) }
{
    let mut held = 0;
    let mut last = 0;
    for member in members {
        held += last;
        last = held_piece(member.to) as u128;
    }
    held
}

/// How many elements a chain holds, of the types of its members.
pub fn chain_bound(operator: Join, members: &[PartType]) -> u128
    ensures { result ≡ spec.chain_bound operator (map type_of members.now) }
{
    match operator {
        Join::Return => held_pieces(members),
        Join::Plain | Join::Keep | Join::Both | Join::Up | Join::Asked => 0,
    }
}

/// The type of a chain for what comes to it, from the types of its members and its bound (`chain_bound`).
pub fn chain_type(
    alloc: Global,
    operator: Join,
    flow: Flow,
    members: Items<PartType>,
    bound: u64,
) -> Result<PartType, NoMemory>
    requires { bound ≡ spec.chain_bound operator (map type_of members) }
    ensures { IfOk result (λ typed. type_of typed ≡ spec.chain_type_of operator flow (map type_of members)) }
{
    let idle = first_idle(members.as_slice());
    let exact = idle || is_pieces(flow) || keeps_exact(operator, members.as_slice());
    let to = last_output(flow, members.as_slice());
    Ok(PartType {
        from: flow,
        to,
        result: chain_result(alloc, operator, members)?,
        exact,
        idle,
        bound,
    })
}
