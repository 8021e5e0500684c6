// Typing the parts of a pipe, each for what comes to it.
ghost use Rattle.std.specs.Prelude.{◌≡◌, ◌+◌, [], ◌∷◌, List, length, map, None, Option};
ghost use Rattle.cd_meaning.specs.Places.{Place};
ghost use Rattle.cd_types.specs.Chains.{chain_part};
ghost use Rattle.cd_types.specs.Conditions.{Fails, lowest};
ghost use Rattle.cd_types.specs.Flows.{Flow, PartType as PartTypeOf};
ghost use Rattle.cd_types.specs.Forms.{form_of_one, mark_part, zip_conduit_part, zip_sink_part, zip_source_part};
ghost use Rattle.cd_types.specs.Moments as moments;
ghost use Rattle.cd_types.specs.Parts.{Part};
ghost use Rattle.cd_types.specs.Sequences.{sequence_part};
ghost use Rattle.cd_types.specs.Trees as trees;
ghost use Rattle.cd_typing.specs.PartForms as spec;
ghost use Rattle.cd_typing.specs.Spots.{Passes, Spot};
ghost use Rattle.cd_typing.specs.Walking.{Answers, NextAnswers, spot, start, start_at, types_of};

use crate::asking::ask;
use crate::forms::{OneForm, TwoForm, ask_first, input_of_two, refused_at_one, refused_at_two};
use crate::members::{join_part, put_member};
use crate::refusal::CheckRefusal;
use crate::walk::Walk;
use crate::zips::Sides;
use cd_elem::{Items, Join, Kind, Literal, Pipe};
use cd_part_types::{JoinedParts, PartType, refused_by_cuts, refused_in_chain};
use cd_types::RefusalKind;
use std::alloc::Global;

impl Walk {
    /// Types the next part, and tells its number.
    #[cycle(typing)]
    pub fn type_next(
        &mut self,
        alloc: Global,
        statement: u32,
        pipe: &Pipe,
        flow: Option<Kind>,
    ) -> Result<(u32, PartType), CheckRefusal>
        ensures { NextAnswers (trees.part pipe.now) (start statement (length self.old.parts.items + 1) flow self.old) self.new result }
    {
        let part = self.next_part()?;
        let typed = self.type_pipe(alloc, statement, part, pipe, flow)?;
        Ok(self.place(alloc, part, typed)?)
    }

    /// Types a part of a statement, which has this number and a place in the table.
    #[cycle(typing)]
    fn type_pipe(
        &mut self,
        alloc: Global,
        statement: u32,
        part: u32,
        pipe: &Pipe,
        flow: Option<Kind>,
    ) -> Result<PartType, CheckRefusal>
        requires { part ≡ length self.old.parts.items }
        ensures { Answers (trees.part pipe.now) (start statement part flow self.old) self.new result }
    {
        match pipe {
            Pipe::Word(word) => self.type_word(alloc, statement, part, word, flow),
            Pipe::Exactly(_, inner) => {
                self.type_one(alloc, statement, part, OneForm::Pieces, inner.get(), flow)
            }
            Pipe::ExactlyE(_, inner) => {
                self.type_one(alloc, statement, part, OneForm::Elements, inner.get(), flow)
            }
            Pipe::LineE(inner) => {
                self.type_one(alloc, statement, part, OneForm::Elements, inner.get(), flow)
            }
            Pipe::Tee(inner) => {
                self.type_one(alloc, statement, part, OneForm::Tee, inner.get(), flow)
            }
            Pipe::Mark(name, inner) => {
                self.type_mark(alloc, statement, part, name, inner.get(), flow)
            }
            Pipe::Sequence(pipes) => {
                self.type_sequence(alloc, statement, part, pipes.as_slice(), flow)
            }
            Pipe::Chain(operator, pipes) => {
                self.type_chain(alloc, statement, part, *operator, pipes.as_slice(), flow)
            }
            Pipe::ZipSource(first, second, between) => {
                let form = TwoForm::Source;
                let first = self.type_first(alloc, statement, part, form, first.get(), flow);
                self.type_zip_source(alloc, statement, part, between, first, second.get(), flow)
            }
            Pipe::ZipSink(first, second) => {
                let whole = refused_by_cuts(flow, first.get(), second.get());
                let form = TwoForm::Sink;
                let first = self.type_first(alloc, statement, part, form, first.get(), flow);
                self.type_zip_sink(alloc, statement, part, whole, first, second.get(), flow)
            }
            Pipe::ZipConduit(first, second) => {
                let form = TwoForm::Conduit;
                let first = self.type_first(alloc, statement, part, form, first.get(), flow);
                self.type_zip_conduit(alloc, statement, part, first, second.get(), flow)
            }
        }
    }

    /// A form of one part that is no site.
    #[cycle(typing)]
    fn type_one(
        &mut self,
        alloc: Global,
        statement: u32,
        part: u32,
        form: OneForm,
        inner: &Pipe,
        flow: Option<Kind>,
    ) -> Result<PartType, CheckRefusal>
        requires { part ≡ length self.old.parts.items }
        ensures { Answers (form_of_one (spec.one_type form (trees.part inner.now)) (spec.one_conditions form) None (spec.one_asked form) (trees.part inner.now)) (start statement part flow self.old) self.new result }
    {
        ask(refused_at_one(form, flow), statement, part)?;
        self.type_inside(alloc, statement, part, form, inner, flow)
    }

    #[cycle(typing)]
    fn type_mark(
        &mut self,
        alloc: Global,
        statement: u32,
        part: u32,
        name: &Literal,
        inner: &Pipe,
        flow: Option<Kind>,
    ) -> Result<PartType, CheckRefusal>
        requires { part ≡ length self.old.parts.items }
        ensures { Answers (mark_part name.now (trees.part inner.now)) (start statement part flow self.old) self.new result }
    {
        self.begin_mark(alloc, statement, part, name, false)?;
        self.type_inside(alloc, statement, part, OneForm::Mark, inner, flow)
    }

    /// A form of one part behind its beginning.
    #[cycle(typing)]
    fn type_inside(
        &mut self,
        alloc: Global,
        statement: u32,
        part: u32,
        form: OneForm,
        inner: &Pipe,
        flow: Option<Kind>,
    ) -> Result<PartType, CheckRefusal>
        requires { part ≡ length self.old.parts.items }
        ensures { (conditions : Flow → Fails) (site : Option Place) (from : Spot)
            → Passes from (moments.begin_part statement part (conditions flow) site ∷ []) (spot self.old)
            → Answers (form_of_one (spec.one_type form (trees.part inner.now)) conditions site (spec.one_asked form) (trees.part inner.now))
            (start_at statement part flow from (types_of self.old)) self.new result }
    {
        let (number, inside) = self.type_next(alloc, statement, inner, flow)?;
        self.end_one(statement, part, form, flow, number, inside)
    }

    /// The first part of a form of two parts.
    #[cycle(typing)]
    fn type_first(
        &mut self,
        alloc: Global,
        statement: u32,
        part: u32,
        form: TwoForm,
        pipe: &Pipe,
        flow: Option<Kind>,
    ) -> Result<PartType, CheckRefusal>
        requires { part ≡ length self.old.parts.items }
        ensures { spec.FirstAnswers form (trees.part pipe.now) (start statement part flow self.old) self.new result }
    {
        ask(refused_at_two(form, flow), statement, part)?;
        let (number, typed) = self.type_next(alloc, statement, pipe, input_of_two(form, flow))?;
        ask_first(form, statement, number, typed)
    }

    /// A `zipSource` behind its first part, which may have been refused. This is the second.
    #[cycle(typing)]
    fn type_zip_source(
        &mut self,
        alloc: Global,
        statement: u32,
        part: u32,
        between: &Literal,
        first: Result<PartType, CheckRefusal>,
        pipe: &Pipe,
        flow: Option<Kind>,
    ) -> Result<PartType, CheckRefusal>
        ensures { (a : Part) (from : Spot) (types : List PartTypeOf) → spec.FirstAnswers TwoForm.Source a (start_at statement part flow from types) self.old first
            → Answers (zip_source_part a (trees.part pipe.now) between.now) (start_at statement part flow from types) self.new result }
    {
        let first = first?;
        match self.type_next(alloc, statement, pipe, None) {
            Ok((number, second)) => {
                let sides = Sides { first, second };
                self.end_zip_source(statement, part, between, flow, number, sides)
            }
            Err(refusal) => {
                drop(first);
                Err(refusal)
            }
        }
    }

    /// A `zipSink` behind its first part, which may have been refused. This is the second.
    #[cycle(typing)]
    fn type_zip_sink(
        &mut self,
        alloc: Global,
        statement: u32,
        part: u32,
        whole: Option<RefusalKind>,
        first: Result<PartType, CheckRefusal>,
        pipe: &Pipe,
        flow: Option<Kind>,
    ) -> Result<PartType, CheckRefusal>
        ensures { (a : Part) (from : Spot) (types : List PartTypeOf) → spec.FirstAnswers TwoForm.Sink a (start_at statement part flow from types) self.old first
            → whole ≡ lowest (spec.sink_whole a (trees.part pipe.now) flow)
            → Answers (zip_sink_part a (trees.part pipe.now)) (start_at statement part flow from types) self.new result }
    {
        let first = first?;
        match self.type_next(alloc, statement, pipe, flow) {
            Ok((number, second)) => {
                let sides = Sides { first, second };
                self.end_zip_sink(alloc, statement, part, whole, flow, number, sides)
            }
            Err(refusal) => {
                drop(first);
                Err(refusal)
            }
        }
    }

    /// A `zipConduit` behind its first part, which may have been refused. This is the second.
    #[cycle(typing)]
    fn type_zip_conduit(
        &mut self,
        alloc: Global,
        statement: u32,
        part: u32,
        first: Result<PartType, CheckRefusal>,
        pipe: &Pipe,
        flow: Option<Kind>,
    ) -> Result<PartType, CheckRefusal>
        ensures { (a : Part) (from : Spot) (types : List PartTypeOf) → spec.FirstAnswers TwoForm.Conduit a (start_at statement part flow from types) self.old first
            → Answers (zip_conduit_part a (trees.part pipe.now)) (start_at statement part flow from types) self.new result }
    {
        let first = first?;
        match self.type_next(alloc, statement, pipe, flow) {
            Ok((number, second)) => {
                let sides = Sides { first, second };
                self.end_zip_conduit(alloc, statement, part, flow, number, sides)
            }
            Err(refusal) => {
                drop(first);
                Err(refusal)
            }
        }
    }

    /// The parts of a sequence, each for what comes to it.
    #[cycle(typing)]
    fn type_sequence(
        &mut self,
        alloc: Global,
        statement: u32,
        part: u32,
        pipes: &[Pipe],
        flow: Option<Kind>,
    ) -> Result<PartType, CheckRefusal>
        requires { part ≡ length self.old.parts.items }
        ensures { Answers (sequence_part (map trees.part pipes.now)) (start statement part flow self.old) self.new result }
    {
        let mut joined = JoinedParts::new();
        for (place, pipe) in pipes.iter().enumerate() {
            let (number, inside) = self.type_next(alloc, statement, pipe, flow)?;
            let is_last = place + 1 == pipes.len();
            joined = join_part(statement, number, flow, joined, inside, is_last)?;
        }
        self.end_sequence(statement, part, flow, joined, pipes.is_empty())
    }

    /// The members of a chain, each for what the one before gives.
    #[cycle(typing)]
    fn type_chain(
        &mut self,
        alloc: Global,
        statement: u32,
        part: u32,
        operator: Join,
        pipes: &[Pipe],
        flow: Option<Kind>,
    ) -> Result<PartType, CheckRefusal>
        requires { part ≡ length self.old.parts.items }
        ensures { Answers (chain_part operator (map trees.part pipes.now)) (start statement part flow self.old) self.new result }
    {
        let mut members: Items<PartType> = Items::new(alloc);
        let mut to = flow;
        for (place, pipe) in pipes.iter().enumerate() {
            let (number, inside) = self.type_next(alloc, statement, pipe, to)?;
            let is_last = place + 1 == pipes.len();
            let condition = refused_in_chain(operator, pipe, &inside, place == 0, is_last);
            to = inside.to;
            put_member(statement, number, condition, &mut members, inside)?;
        }
        self.end_chain(alloc, statement, part, operator, flow, members)
    }
}
