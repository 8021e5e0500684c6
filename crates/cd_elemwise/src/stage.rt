// A suspended element word.
ghost use Rattle.std.specs.Prelude.{◌≡◌, ◌≤◌, ◌+◌, ℕ, List, IfOk, OnErr, IsTrue, None, Some, false, true, length, []};
ghost use Rattle.cd_elem.specs.Chunks.{is_cut};
ghost use Rattle.cd_meaning.specs.Stream.{End, Item};
ghost use Rattle.cd_meaning.specs.RunShapes.{Seen};
ghost use Rattle.cd_meaning.specs.WordMeanings.{word_meaning};
ghost use Rattle.cd_elem.specs.declared.word.Word.TheVariants as words;
ghost use Rattle.cd_step.specs.Parts.{Goes, Fresh};
ghost use Rattle.cd_step.specs.declared.protocol.Stand.TheVariants as stand;
ghost use Rattle.cd_elemwise.specs.Carried.{Carried, HasType, bound_of, first_state, gathered, gives_of, kind_of, list_sort, opposite, state_value};
ghost use Rattle.cd_elemwise.specs.Plans.{IsPlan};
ghost use Rattle.cd_elemwise.specs.Stages.{asks_of, carried, seen_stage, stage_fits, stage_most, with_chunk, held_of, seen_from, IsFinal, IsPlanned, IsSameStage, KeepsBounds, StateFits, Went};
ghost use Rattle.cd_meaning.specs.Values.{value_meaning};

use crate::chunks::{mapped_of, passing_of};
use crate::class_table::ClassTable;
use crate::collect::{collect, collected};
use crate::plan::{ChunkPlan, planned};
use crate::state::{Gathered, WordState, present_of};
use cd_elem::{Chunk, Class, ElemWord, Items, NoMemory, Sort, Value};
use cd_step::{Input, Move, Stage, Stand, behind, weight_of};
use std::alloc::Global;

/// An element word between two steps.
#[derive(Drop)]
pub struct ElemStage {
    stand: Stand,
    // whether it was told the end
    told: bool,
    // of the chunks that it takes
    sort: Sort,
    // the bound of the word
    most: u64,
    state: WordState,
    list: Gathered,
    // what is unread of the last chunk
    keep: Option<Chunk>,
}

fn asks(state: &WordState) -> bool
    ensures { result ≡ asks_of state.now }
{
    match state {
        WordState::Take(left) | WordState::Drop(left) | WordState::Collect(left) => *left != 0,
        _ => true,
    }
}

impl ElemStage {
    /// The value with which it ends, where it asks for nothing more or was told the end.
    fn value(&mut self, alloc: Global) -> Result<Value, NoMemory>
        requires listed { StateFits self.old.state self.old.sort (list_sort self.old.list) }
        requires within { KeepsBounds self.old }
        ensures law { IfOk result (λ value. value_meaning value ≡ state_value self.old.sort self.old.state (gathered self.old.list)) }
        ensures same { IsSameStage self.old self.new }
        ensures fits { StateFits self.new.state self.new.sort (list_sort self.new.list) }
        ensures within { KeepsBounds self.new }
        ensures keep { self.new.keep ≡ self.old.keep }
        ensures told { self.new.told ≡ self.old.told }
        ensures err { OnErr result (self.new ≡ self.old) }
    {
        match &mut self.state {
            WordState::Head | WordState::Peek => Ok(Value::Maybe(None)),
            WordState::Last(last) => match *last {
                Some(single) => {
                    let value = present_of(alloc, single)?;
                    *last = None;
                    Ok(value)
                }
                None => Ok(Value::Maybe(None)),
            },
            WordState::Length(count) => Ok(Value::Num(*count)),
            WordState::Sum(total) => Ok(Value::Num(*total)),
            WordState::All(_, answer) => Ok(Value::Bool(!*answer)),
            WordState::Null => Ok(Value::Bool(true)),
            WordState::Collect(_) => Ok(collected(alloc, &mut self.list)),
            _ => Ok(Value::Unit),
        }
    }

    /// It ends with its value, and gives nothing back.
    #[cold]
    #[inline(never)]
    fn finish(&mut self, alloc: Global) -> Result<Move, NoMemory>
        requires listed { StateFits self.old.state self.old.sort (list_sort self.old.list) }
        requires within { KeepsBounds self.old }
        ensures law { IfOk result (IsFinal self.old) }
        ensures stand { IfOk result (λ made. self.new.stand ≡ stand.Over) }
        ensures same { IsSameStage self.old self.new }
        ensures fits { StateFits self.new.state self.new.sort (list_sort self.new.list) }
        ensures within { KeepsBounds self.new }
        ensures keep { self.new.keep ≡ self.old.keep }
        ensures told { self.new.told ≡ self.old.told }
        ensures err { OnErr result (self.new ≡ self.old) }
    {
        let value = self.value(alloc)?;
        self.stand = Stand::Over;
        Ok(Move::Done { value, rest: None })
    }

    /// A step with nothing unread.
    fn ask(&mut self, alloc: Global) -> Result<Move, NoMemory>
        requires told { self.old.told ≡ false }
        requires keep { self.old.keep ≡ None }
        requires listed { StateFits self.old.state self.old.sort (list_sort self.old.list) }
        requires within { KeepsBounds self.old }
        ensures law { IfOk result (λ made. Went self.old made self.new) }
        ensures fit { IfOk result (λ made. stage_fits self.new) }
        ensures same { IsSameStage self.old self.new }
        ensures within { KeepsBounds self.new }
        ensures err { OnErr result (self.new ≡ self.old) }
    {
        if asks(&self.state) {
            self.stand = Stand::Wait;
            return Ok(Move::Need);
        }
        let made = self.finish(alloc)?;
        Ok(made)
    }

    /// It does with its chunk what was planned.
    #[inline(never)]
    fn act(&mut self, alloc: Global, mut chunk: Chunk, plan: ChunkPlan) -> Result<Move, NoMemory>
        requires told { self.old.told ≡ false }
        requires keep { self.old.keep ≡ None }
        requires listed { StateFits self.old.state self.old.sort (list_sort self.old.list) }
        requires within { KeepsBounds self.old }
        requires cut { IsTrue (is_cut self.old.sort) }
        requires sort { chunk.0 ≡ self.old.sort }
        requires planned { IsPlanned self.old chunk plan }
        ensures law { IfOk result (λ made. (s : Carried) → IsPlan self.old.sort s chunk.1 plan (carried self.old) → Goes made (seen_from s chunk self.old) (seen_stage self.new)) }
        ensures fit { IfOk result (λ made. stage_fits self.new) }
        ensures same { IsSameStage self.old self.new }
        ensures state { self.new.state ≡ self.old.state }
        ensures list { self.new.list ≡ self.old.list }
        ensures within { KeepsBounds self.new }
        ensures err { OnErr result (self.new.keep ≡ None) }
    {
        let len = chunk.len();
        match plan {
            ChunkPlan::Need => {
                drop(chunk);
                self.stand = Stand::Wait;
                Ok(Move::Need)
            }
            ChunkPlan::Pass(count) => {
                self.stand = Stand::Gave;
                if count == len {
                    return Ok(Move::Emit(chunk));
                }
                let first = chunk.cut(alloc, count)?;
                self.keep = Some(chunk);
                Ok(Move::Emit(first))
            }
            ChunkPlan::Give(made, count) => {
                self.stand = Stand::Gave;
                self.keep = behind(chunk, count);
                Ok(Move::Emit(made))
            }
            ChunkPlan::End(value, count) => {
                self.stand = Stand::Over;
                Ok(Move::Done {
                    value,
                    rest: behind(chunk, count),
                })
            }
        }
    }

    /// A step with a chunk, by the plan of its word unless it changes the chunk itself.
    #[inline(never)]
    fn read_planned(&mut self, alloc: Global, chunk: Chunk) -> Result<Move, NoMemory>
        requires told { self.old.told ≡ false }
        requires keep { self.old.keep ≡ None }
        requires listed { StateFits self.old.state self.old.sort (list_sort self.old.list) }
        requires within { KeepsBounds (with_chunk chunk self.old) }
        ensures law { IfOk result (λ made. Went (with_chunk chunk self.old) made self.new) }
        ensures fit { IfOk result (λ made. stage_fits self.new) }
        ensures same { IsSameStage self.old self.new }
        ensures within { KeepsBounds self.new }
        ensures err { OnErr result (held_of self.new ≤ held_of (with_chunk chunk self.old)) }
    {
        match &mut self.state {
            WordState::SinkNull => {
                drop(chunk);
                self.stand = Stand::Wait;
                Ok(Move::Need)
            }
            WordState::Filter(table) => {
                let len = chunk.len();
                match passing_of(table, chunk) {
                    Some(made) => {
                        self.stand = Stand::Gave;
                        Ok(Move::Emit(made))
                    }
                    None => {
                        self.stand = Stand::Wait;
                        Ok(Move::Need)
                    }
                }
            }
            WordState::Map(by) => {
                let len = chunk.len();
                let made = mapped_of(*by, chunk);
                self.stand = Stand::Gave;
                Ok(Move::Emit(made))
            }
            WordState::Collect(left) => {
                let (rest, plan) = collect(alloc, &mut self.list, *left, &chunk)?;
                *left = rest;
                let made = self.act(alloc, chunk, plan)?;
                Ok(made)
            }
            _ => {
                let plan = planned(alloc, &mut self.state, &chunk)?;
                let made = self.act(alloc, chunk, plan)?;
                Ok(made)
            }
        }
    }

    /// A step with a chunk. Where the word passes it on whole, no plan is made.
    fn read(&mut self, alloc: Global, chunk: Chunk) -> Result<Move, NoMemory>
        requires told { self.old.told ≡ false }
        requires keep { self.old.keep ≡ None }
        requires listed { StateFits self.old.state self.old.sort (list_sort self.old.list) }
        requires within { KeepsBounds (with_chunk chunk self.old) }
        ensures law { IfOk result (λ made. Went (with_chunk chunk self.old) made self.new) }
        ensures fit { IfOk result (λ made. stage_fits self.new) }
        ensures same { IsSameStage self.old self.new }
        ensures within { KeepsBounds self.new }
        ensures err { OnErr result (held_of self.new ≤ held_of (with_chunk chunk self.old)) }
    {
        match &mut self.state {
            WordState::Pass => {
                let len = chunk.len();
                self.stand = Stand::Gave;
                Ok(Move::Emit(chunk))
            }
            WordState::Take(left) => {
                let len = chunk.len();
                if len as u64 <= *left {
                    *left -= len as u64;
                    self.stand = Stand::Gave;
                    return Ok(Move::Emit(chunk));
                }
                self.read_planned(alloc, chunk)
            }
            _ => self.read_planned(alloc, chunk),
        }
    }

    fn go(&mut self, alloc: Global) -> Result<Move, NoMemory>
        requires told { self.old.told ≡ false }
        requires listed { StateFits self.old.state self.old.sort (list_sort self.old.list) }
        requires within { KeepsBounds self.old }
        ensures law { IfOk result (λ made. Went self.old made self.new) }
        ensures fit { IfOk result (λ made. stage_fits self.new) }
        ensures same { IsSameStage self.old self.new }
        ensures within { KeepsBounds self.new }
        ensures err { OnErr result (held_of self.new ≤ held_of self.old) }
    {
        match self.keep.take() {
            Some(chunk) => {
                let made = self.read(alloc, chunk)?;
                Ok(made)
            }
            None => {
                let made = self.ask(alloc)?;
                Ok(made)
            }
        }
    }
}

impl Stage for ElemStage {
    ghost use Rattle.cd_elemwise.specs.Stages.{stage_one};

    ghost seen = { seen_stage };

    ghost fits = { stage_fits };

    ghost most = { stage_most };

    ghost one = { stage_one };

    fn step(&mut self, alloc: Global, input: Input) -> Result<Move, NoMemory> {
        match input {
            Input::Chunk(chunk) => {
                let made = self.read(alloc, chunk)?;
                Ok(made)
            }
            Input::End => {
                self.told = true;
                let made = self.finish(alloc)?;
                Ok(made)
            }
            Input::Start | Input::Next => {
                let made = self.go(alloc)?;
                Ok(made)
            }
        }
    }

    fn held(&self) -> u64 {
        let carried = match &self.state {
            WordState::Last(Some(_)) => 1,
            _ => 0,
        };
        let listed = match &self.list {
            Gathered::Bytes(bytes) => bytes.len(),
            Gathered::Chars(chars) => chars.len(),
        };
        let unread = match &self.keep {
            Some(chunk) => weight_of(chunk),
            None => 0,
        };
        carried + listed as u64 + unread
    }

    fn bound(&self) -> u64 {
        self.most
    }

    fn retire(&mut self) -> Option<Chunk> {
        self.stand = Stand::Over;
        self.keep.take()
    }
}

fn opposite_of(class: Class) -> Class
    ensures { result ≡ opposite class }
{
    Class {
        negated: !class.negated,
        what: class.what,
    }
}

fn state_of(alloc: Global, word: ElemWord) -> Result<WordState, NoMemory>
    ensures { IfOk result (λ state. state ≡ first_state word) }
{
    match word {
        ElemWord::PassE => Ok(WordState::Pass),
        ElemWord::TakeE(count) => Ok(WordState::Take(count)),
        ElemWord::TakeWhileE(class) => Ok(WordState::TakeWhile(ClassTable::new(alloc, class)?)),
        ElemWord::FilterE(class) => Ok(WordState::Filter(ClassTable::new(alloc, class)?)),
        ElemWord::MapE(by) => Ok(WordState::Map(by)),
        ElemWord::RepeatE(times) => Ok(WordState::Repeat(times)),
        ElemWord::DropE(count) => Ok(WordState::Drop(count)),
        ElemWord::DropWhileE(class) => Ok(WordState::DropWhile(ClassTable::new(alloc, class)?)),
        ElemWord::HeadE => Ok(WordState::Head),
        ElemWord::PeekE => Ok(WordState::Peek),
        ElemWord::LastE => Ok(WordState::Last(None)),
        ElemWord::LengthE => Ok(WordState::Length(0)),
        ElemWord::SumE => Ok(WordState::Sum(0)),
        ElemWord::AllE(class) => Ok(WordState::All(ClassTable::new(alloc, class)?, false)),
        ElemWord::AnyE(class) => {
            let table = ClassTable::new(alloc, opposite_of(class))?;
            Ok(WordState::All(table, true))
        }
        ElemWord::NullE => Ok(WordState::Null),
        ElemWord::CollectE(count) => Ok(WordState::Collect(count)),
        ElemWord::SinkNull => Ok(WordState::SinkNull),
    }
}

fn most_of(word: ElemWord) -> u64
    ensures { result ≡ bound_of word }
{
    match word {
        ElemWord::LastE => 1,
        ElemWord::CollectE(count) => count,
        _ => 0,
    }
}

fn list_of(alloc: Global, sort: Sort) -> Gathered
    ensures list { gathered result ≡ [] }
    ensures sort { IsTrue (is_cut sort) → list_sort result ≡ sort }
{
    match sort {
        Sort::Bytes | Sort::Block => Gathered::Bytes(Items::new(alloc)),
        Sort::Chars | Sort::Text => Gathered::Chars(Items::new(alloc)),
    }
}

/// The stage of an element word on a stream of this sort. It has not started, and its run is the word's.
pub fn elem_stage(alloc: Global, word: &ElemWord, sort: Sort) -> Result<ElemStage, NoMemory>
    requires { HasType word.now sort }
    ensures fit { IfOk result stage_fits }
    ensures fresh { IfOk result (λ e. (seen_stage e).at ≡ Fresh) }
    ensures none_held { IfOk result (λ e. (seen_stage e).held ≡ 0) }
    ensures takes { IfOk result (λ e. (seen_stage e).takes ≡ Some (kind_of sort)) }
    ensures gives { IfOk result (λ e. (seen_stage e).gives ≡ gives_of (first_state word.now) sort) }
    ensures bound { IfOk result (λ e. stage_most e ≡ bound_of word.now) }
    ensures means { IfOk result (λ e. (z : Seen) (site : ℕ) (seen : Seen) (xs : List Item) (end : End)
        → (seen_stage e).run z xs end ≡ (word_meaning (words.Elem word.now)).run (Some sort) site seen xs end) }
{
    let state = state_of(alloc, *word)?;
    Ok(ElemStage {
        stand: Stand::Fresh,
        told: false,
        sort,
        most: most_of(*word),
        state,
        list: list_of(alloc, sort),
        keep: None,
    })
}
