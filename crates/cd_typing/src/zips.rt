// The ends of `zipSource`, `zipSink` and `zipConduit`.
ghost use Rattle.std.specs.Prelude.{◌≡◌, [], ◌∷◌, not, nat_lt, None};
ghost use Rattle.cd_elem.specs.Limits.{piece_limit};
ghost use Rattle.cd_part_types.specs.Types.{type_of};
ghost use Rattle.cd_types.specs.Conditions.{Fails, fails_where, lowest, none_fails};
ghost use Rattle.cd_types.specs.Flows as flows;
ghost use Rattle.cd_types.specs.Forms as forms;
ghost use Rattle.cd_types.specs.Moments as moments;
ghost use Rattle.cd_types.specs.Parts.{Part};
ghost use Rattle.cd_types.specs.declared.refusal.RefusalKind.TheVariants.{BoundTooLarge, KindMismatch};
ghost use Rattle.cd_typing.specs.Walking.{EndAnswers};

use crate::asking::refused_by;
use crate::refusal::CheckRefusal;
use crate::walk::Walk;
use cd_elem::{Kind, Literal};
use cd_part_types::{
    PartType, piece_bound, refused_in_zip_conduit_second, refused_in_zip_sink,
    refused_in_zip_source_second, zip_conduit_type, zip_sink_type, zip_source_output,
    zip_source_type,
};
use cd_types::RefusalKind;
use std::alloc::Global;

/// The types of both parts.
#[derive(Drop)]
pub struct Sides {
    pub first: PartType,
    pub second: PartType,
}

impl Walk {
    /// Asks what a `zipSource` asks of its second part, which has this number, and ends it.
    pub fn end_zip_source(
        &mut self,
        statement: u32,
        part: u32,
        between: &Literal,
        flow: Option<Kind>,
        number: u32,
        sides: Sides,
    ) -> Result<PartType, CheckRefusal>
        ensures { (a b : Part) → type_of sides.first ≡ a.type None → type_of sides.second ≡ b.type None
            → EndAnswers (forms.zip_source_type a b between.now flow)
            (moments.ask statement number (forms.zip_source_second_fails (a.type None) (b.type None))
            ∷ moments.ask statement part (fails_where BoundTooLarge (nat_lt piece_limit (flows.piece_bound (forms.zipped a b between.now))))
            ∷ moments.end_part statement part (forms.zip_source_type a b between.now flow).bound ∷ []) self.old self.new result }
    {
        let condition = refused_in_zip_source_second(&sides.first, &sides.second);
        match zip_source_output(&sides.first, &sides.second, between) {
            Ok(to) => {
                let bound = piece_bound(sides.first.to) as u128 + 1;
                match self.ask_twice_and_finish(condition, statement, number, None, part, bound) {
                    Ok(_) => {
                        let Sides { first, second } = sides;
                        drop(second);
                        Ok(zip_source_type(flow, first, to))
                    }
                    Err(refusal) => {
                        drop(sides);
                        Err(refusal)
                    }
                }
            }
            Err(kind) => {
                drop(sides);
                Err(refused_by(condition, statement, number, kind, part))
            }
        }
    }

    /// Asks what a `zipSink` asks of its second part, which has this number, then what it asks of both, and ends it.
    pub fn end_zip_sink(
        &mut self,
        alloc: Global,
        statement: u32,
        part: u32,
        whole: Option<RefusalKind>,
        flow: Option<Kind>,
        number: u32,
        sides: Sides,
    ) -> Result<PartType, CheckRefusal>
        ensures { (a b : Part) (fails : Fails) → type_of sides.first ≡ a.type flow → type_of sides.second ≡ b.type flow → whole ≡ lowest fails
            → EndAnswers (forms.zip_sink_type a b flow)
            (moments.ask statement number (forms.zip_sink_fails (b.type flow)) ∷ moments.ask statement part fails ∷ moments.end_part statement part 0 ∷ []) self.old self.new result }
    {
        let condition = refused_in_zip_sink(&sides.second);
        match self.ask_twice_and_finish(condition, statement, number, whole, part, 0) {
            Ok(_) => Ok(zip_sink_type(alloc, flow, sides.first, sides.second)?),
            Err(refusal) => {
                drop(sides);
                Err(refusal)
            }
        }
    }

    /// Asks what a `zipConduit` asks of its second part, which has this number, and ends it.
    pub fn end_zip_conduit(
        &mut self,
        alloc: Global,
        statement: u32,
        part: u32,
        flow: Option<Kind>,
        number: u32,
        sides: Sides,
    ) -> Result<PartType, CheckRefusal>
        ensures { (a b : Part) → type_of sides.first ≡ a.type flow → type_of sides.second ≡ b.type flow
            → EndAnswers (forms.zip_conduit_type a b flow)
            (moments.ask statement number (fails_where KindMismatch (not (flows.agree (a.type flow).to (b.type flow).to)))
            ∷ moments.ask statement part none_fails ∷ moments.end_part statement part 0 ∷ []) self.old self.new result }
    {
        let condition = refused_in_zip_conduit_second(&sides.first, &sides.second);
        match self.ask_twice_and_finish(condition, statement, number, None, part, 0) {
            Ok(_) => Ok(zip_conduit_type(alloc, flow, sides.first, sides.second)?),
            Err(refusal) => {
                drop(sides);
                Err(refusal)
            }
        }
    }
}
