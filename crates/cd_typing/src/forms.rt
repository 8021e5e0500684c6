// Forms of one part and of two: what they ask, and their ends.
ghost use Rattle.std.specs.Prelude.{◌≡◌, [], ◌∷◌, IfOk, List, ℕ, None};
ghost use Rattle.cd_part_types.specs.Types.{type_of};
ghost use Rattle.cd_types.specs.Conditions.{Fails, lowest};
ghost use Rattle.cd_types.specs.Flows.{Flow};
ghost use Rattle.cd_types.specs.Moments as moments;
ghost use Rattle.cd_types.specs.Parts.{Part};
ghost use Rattle.cd_typing.specs.PartForms as spec;
ghost use Rattle.cd_typing.specs.Spots.{Spot};
ghost use Rattle.cd_typing.specs.Walking.{EndAnswers, Moves, spot};

use crate::asking::ask;
use crate::refusal::CheckRefusal;
use crate::walk::Walk;
use cd_elem::Kind;
use cd_part_types::{
    PartType, mark_type, refused_in_tee, refused_in_zip_sink, refused_in_zip_source,
    refused_on_elements, refused_on_nothing, refused_on_pieces, section_type, tee_type,
};
use cd_types::RefusalKind;

/// A form of one part.
#[derive(Clone, Copy)]
pub enum OneForm {
    /// `exactlyE` and `lineE`.
    Elements,
    /// `exactly`.
    Pieces,
    Mark,
    Tee,
}

/// A form of two parts.
#[derive(Clone, Copy)]
pub enum TwoForm {
    Source,
    Sink,
    Conduit,
}

// ---- of one part

/// What a form of one part asks of what comes to it. A mark asks nothing of it.
pub fn refused_at_one(form: OneForm, flow: Option<Kind>) -> Option<RefusalKind>
    ensures { result ≡ lowest (spec.one_conditions form flow) }
{
    match form {
        OneForm::Elements => refused_on_pieces(flow),
        OneForm::Pieces | OneForm::Tee => refused_on_elements(flow),
        OneForm::Mark => None,
    }
}

/// What it asks of its part.
fn refused_behind_one(form: OneForm, inside: &PartType) -> Option<RefusalKind>
    ensures { result ≡ lowest (spec.one_asked form (type_of inside.now)) }
{
    match form {
        OneForm::Elements | OneForm::Pieces | OneForm::Mark => None,
        OneForm::Tee => refused_in_tee(inside),
    }
}

/// Its type, from that of its part.
fn type_of_one(form: OneForm, flow: Option<Kind>, inside: PartType) -> PartType
    ensures { (a : Part) → type_of inside ≡ a.type flow → type_of result ≡ spec.one_type form a flow }
{
    match form {
        OneForm::Elements | OneForm::Pieces => section_type(flow, inside),
        OneForm::Mark => mark_type(flow, inside),
        OneForm::Tee => {
            drop(inside);
            tee_type(flow)
        }
    }
}

impl Walk {
    /// Asks what a form of one part asks of its part, which has this number, and ends the form.
    pub fn end_one(
        &mut self,
        statement: u32,
        part: u32,
        form: OneForm,
        flow: Option<Kind>,
        number: u32,
        inside: PartType,
    ) -> Result<PartType, CheckRefusal>
        ensures { (a : Part) → type_of inside ≡ a.type flow
            → EndAnswers (spec.one_type form a flow) (moments.ask statement number (spec.one_asked form (a.type flow)) ∷ moments.end_part statement part 0 ∷ []) self.old self.new result }
    {
        let condition = refused_behind_one(form, &inside);
        match self.ask_and_finish(condition, statement, number, part, 0) {
            Ok(_) => Ok(type_of_one(form, flow, inside)),
            Err(refusal) => {
                drop(inside);
                Err(refusal)
            }
        }
    }
}

// ---- of two parts

/// What comes to the parts of a form of two parts.
pub fn input_of_two(form: TwoForm, flow: Option<Kind>) -> Option<Kind>
    ensures { result ≡ spec.two_input form flow }
{
    match form {
        TwoForm::Source => None,
        TwoForm::Sink | TwoForm::Conduit => flow,
    }
}

/// What such a form asks of what comes to it.
pub fn refused_at_two(form: TwoForm, flow: Option<Kind>) -> Option<RefusalKind>
    ensures { result ≡ lowest (spec.two_conditions form flow) }
{
    match form {
        TwoForm::Source => None,
        TwoForm::Sink => refused_on_nothing(flow),
        TwoForm::Conduit => refused_on_elements(flow),
    }
}

fn refused_behind_first(form: TwoForm, first: &PartType) -> Option<RefusalKind>
    ensures { result ≡ lowest (spec.two_first form (type_of first.now)) }
{
    match form {
        TwoForm::Source => refused_in_zip_source(first),
        TwoForm::Sink => refused_in_zip_sink(first),
        TwoForm::Conduit => None,
    }
}

/// Asks what such a form asks of its first part, which has this number, and hands it back.
pub fn ask_first(
    form: TwoForm,
    statement: u32,
    number: u32,
    first: PartType,
) -> Result<PartType, CheckRefusal>
    ensures moves { (at : Spot) → Moves at (moments.ask statement number (spec.two_first form (type_of first)) ∷ []) at result }
    ensures same { IfOk result (λ same. same ≡ first) }
{
    match ask(refused_behind_first(form, &first), statement, number) {
        Ok(()) => Ok(first),
        Err(refusal) => {
            drop(first);
            Err(refusal)
        }
    }
}
