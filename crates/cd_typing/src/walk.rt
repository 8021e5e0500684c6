// A walk over a script.
ghost use Rattle.std.specs.Prelude.{◌≡◌, ◌≤◌, ◌+◌, ◌-◌, [], ◌∷◌, ◌++◌, length, IfOk, OnOk, slice_set};
ghost use Rattle.cd_part_types.specs.Types.{type_of};
ghost use Rattle.cd_types.specs.Chains.{no_type};
ghost use Rattle.cd_types.specs.Conditions.{Fails, lowest};
ghost use Rattle.cd_types.specs.Moments as moments;
ghost use Rattle.cd_types.specs.Moments.{end_part};
ghost use Rattle.cd_typing.specs.Walking.{Moves, spot, types_of};

use crate::asking::ask;
use crate::refusal::{CheckRefusal, refused};
use cd_elem::{Items, NoMemory};
use cd_part_types::{PartType, ResultKind};
use cd_typed::{PartList, SiteList};
use cd_types::RefusalKind;
use std::alloc::Global;

/// The greatest sum of the bounds of all parts.
pub const TOTAL_LIMIT: u64 = 268_435_456;

/// What the walk has reached: the sites so far, the sum of the bounds so far, and the types of the parts of the statement
/// so far. A part that has begun and has no type yet has a place among them.
#[derive(Drop)]
pub struct Walk {
    pub sites: SiteList,
    pub total: u64,
    pub parts: Vec<PartType>,
}

impl Walk {
    pub fn new(alloc: Global) -> Walk
        ensures sites { result.sites ≡ [] }
        ensures total { result.total ≡ 0 }
        ensures parts { result.parts.items ≡ [] }
    {
        Walk {
            sites: Items::new(alloc),
            total: 0,
            parts: Vec::new(alloc),
        }
    }

    /// Makes a place for the type of the part that begins, and tells its number. No tree in memory has 2^32 parts.
    pub fn next_part(&mut self) -> Result<u32, NoMemory>
        ensures number { IfOk result (λ part. part ≡ length self.old.parts.items + 1) }
        ensures types { OnOk result (types_of self.new ≡ types_of self.old ++ no_type ∷ []) }
        ensures spot { spot self.new ≡ spot self.old }
    {
        let Ok(part) = u32::try_from(self.parts.len() + 1) else {
            return Err(NoMemory);
        };
        self.parts.push(PartType {
            from: None,
            to: None,
            result: ResultKind::Unit,
            exact: false,
            idle: false,
            bound: 0,
        })?;
        Ok(part)
    }

    /// Writes the type of a part to its place, and hands it back with its number.
    pub fn place(
        &mut self,
        alloc: Global,
        part: u32,
        typed: PartType,
    ) -> Result<(u32, PartType), NoMemory>
        requires begun { 1 ≤ part }
        requires stands { part ≤ length self.old.parts.items }
        ensures written { OnOk result (types_of self.new ≡ slice_set (types_of self.old) (part - 1) (type_of typed)) }
        ensures given { IfOk result (λ next. next ≡ (part, typed)) }
        ensures count { OnOk result (length self.new.parts.items ≡ length self.old.parts.items) }
        ensures spot { spot self.new ≡ spot self.old }
    {
        match typed.copy(alloc) {
            Ok(copied) => {
                self.parts[part as usize - 1] = copied;
                Ok((part, typed))
            }
            Err(NoMemory) => {
                drop(typed);
                Err(NoMemory)
            }
        }
    }

    /// Takes the types of the parts of a statement that is behind the walk.
    pub fn take_parts(&mut self, alloc: Global) -> PartList
        ensures taken { result ≡ self.old.parts.items }
        ensures empty { self.new.parts.items ≡ [] }
        ensures spot { spot self.new ≡ spot self.old }
    {
        let parts = std::mem::replace(&mut self.parts, Vec::new(alloc));
        Items::from_vec(parts)
    }

    /// Adds the bound of a part that has its type.
    #[tactic(auto, using(crate::proofs::Steps::bounds))]
    pub fn finish(&mut self, statement: u32, part: u32, bound: u128) -> Result<u64, CheckRefusal>
        ensures moves { Moves (spot self.old) (end_part statement part bound ∷ []) (spot self.new) result }
        ensures bound { IfOk result (λ same. same ≡ bound) }
        ensures parts { self.new.parts ≡ self.old.parts }
    {
        if bound > TOTAL_LIMIT as u128 || self.total as u128 + bound > TOTAL_LIMIT as u128 {
            return Err(refused(RefusalKind::BoundTooLarge, statement, part));
        }
        self.total += bound as u64;
        Ok(bound as u64)
    }

    /// Asks something at a part, and then ends the part around it.
    pub fn ask_and_finish(
        &mut self,
        condition: Option<RefusalKind>,
        statement: u32,
        number: u32,
        part: u32,
        bound: u128,
    ) -> Result<u64, CheckRefusal>
        ensures moves { (fails : Fails) → condition ≡ lowest fails → Moves (spot self.old) (moments.ask statement number fails ∷ end_part statement part bound ∷ []) (spot self.new) result }
        ensures bound { IfOk result (λ same. same ≡ bound) }
        ensures parts { self.new.parts ≡ self.old.parts }
    {
        ask(condition, statement, number)?;
        self.finish(statement, part, bound)
    }

    /// Asks something at a part, then at the part around it, and ends that.
    pub fn ask_twice_and_finish(
        &mut self,
        behind: Option<RefusalKind>,
        statement: u32,
        number: u32,
        whole: Option<RefusalKind>,
        part: u32,
        bound: u128,
    ) -> Result<u64, CheckRefusal>
        ensures moves { (first second : Fails) → behind ≡ lowest first → whole ≡ lowest second
            → Moves (spot self.old) (moments.ask statement number first ∷ moments.ask statement part second ∷ end_part statement part bound ∷ []) (spot self.new) result }
        ensures bound { IfOk result (λ same. same ≡ bound) }
        ensures parts { self.new.parts ≡ self.old.parts }
    {
        ask(behind, statement, number)?;
        self.ask_and_finish(whole, statement, part, part, bound)
    }
}
