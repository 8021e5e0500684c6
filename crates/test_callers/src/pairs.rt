// Two element words on bytes under a controller, with a line for each input and each move.
ghost use Rattle.std.specs.Prelude.{◌≡◌, ◌<◌, ◌≤◌, IfOk, IsTrue, Some, length};
ghost use Rattle.cd_elem.specs.Limits.{chunk_limit};
ghost use Rattle.cd_elem.specs.declared.kind.Kind.TheVariants as kind;
ghost use Rattle.cd_elem.specs.declared.kind.Sort.TheVariants as sort;
ghost use Rattle.cd_elemwise.specs.Carried.{HasType};
ghost use Rattle.cd_step.specs.Parts.{AnswersAt, Goes, Part, part_at};
ghost use Rattle.test_callers.specs.Placed.{are_placed, is_placed};

use crate::given::{Coming, Given};
use crate::lines::{StepError, push_back, push_input, push_move, push_value};
use cd_elem::{CHUNK_LIMIT, Chunk, ElemWord, Sort};
use cd_elemwise::{ElemStage, elem_stage};
use cd_step::{Control, Flow, Found, Input, Made, Move, Stage, Stand, Turn};
use std::alloc::Global;

/// More turns and steps than any row has.
const MOST: u32 = 100;

/// A stage on bytes, and where it stands by its last move.
#[derive(Drop)]
pub struct Placed {
    stage: ElemStage,
    stand: Stand,
}

/// The two parts of a whole.
#[derive(Drop)]
pub struct Pair {
    upper: Placed,
    lower: Placed,
}

fn stand_of(made: &Move) -> Stand
    ensures { (p q : Part) → Goes made.now p q → q.at ≡ part_at result }
{
    match made {
        Move::Emit(_) => Stand::Gave,
        Move::Need => Stand::Wait,
        Move::Done { .. } | Move::Fault(_) => Stand::Over,
    }
}

/// Whether a stage on bytes that stands there may be given this.
fn may_take(stand: Stand, input: &Input) -> bool
    ensures { IsTrue result → AnswersAt (part_at stand) (Some kind.Bytes) input.now }
{
    match (input, stand) {
        (Input::Start, Stand::Fresh) | (Input::End, Stand::Wait) | (Input::Next, Stand::Gave) => {
            true
        }
        (Input::Chunk(chunk), Stand::Wait) => {
            chunk.sort() == Sort::Bytes && chunk.len() > 0 && chunk.len() <= CHUNK_LIMIT
        }
        _ => false,
    }
}

/// Whether it is one of the words of the rows, each of which has a type on bytes.
pub fn reads_bytes(word: ElemWord) -> bool
    ensures { IsTrue result → HasType word sort.Bytes }
{
    matches!(
        word,
        ElemWord::PassE
            | ElemWord::TakeE(_)
            | ElemWord::DropE(_)
            | ElemWord::HeadE
            | ElemWord::LengthE
    )
}

impl Placed {
    fn new(alloc: Global, word: ElemWord) -> Result<Placed, StepError>
        ensures { IfOk result is_placed }
    {
        if !reads_bytes(word) {
            return Err(StepError::OutOfTurn);
        }
        let stage = elem_stage(alloc, &word, Sort::Bytes)?;
        Ok(Placed {
            stage,
            stand: Stand::Fresh,
        })
    }

    /// One step, unless the stage does not stand where it may be given this.
    fn step(&mut self, alloc: Global, input: Input) -> Result<Move, StepError>
        requires { is_placed self.old }
        ensures { IfOk result (λ made. is_placed self.new) }
    {
        if !may_take(self.stand, &input) {
            drop(input);
            return Err(StepError::OutOfTurn);
        }
        let made = self.stage.step(alloc, input)?;
        self.stand = stand_of(&made);
        Ok(made)
    }

    /// The same with a line for it.
    fn told_step(
        &mut self,
        alloc: Global,
        name: &str,
        input: Input,
        text: &mut String,
    ) -> Result<Move, StepError>
        requires { is_placed self.old }
        ensures { IfOk result (λ made. is_placed self.new) }
    {
        let told = push_turn(text, name, &input);
        let made = self.step(alloc, input)?;
        match told.and(push_move(text, &made)) {
            Ok(()) => Ok(made),
            Err(error) => {
                drop(made);
                Err(error)
            }
        }
    }
}

fn push_turn(text: &mut String, name: &str, input: &Input) -> Result<(), StepError> {
    text.push_str(name)?;
    push_input(text, input)?;
    text.push_str(" = ")?;
    Ok(())
}

impl Pair {
    /// Two words on bytes that have not begun.
    fn new(alloc: Global, words: (ElemWord, ElemWord)) -> Result<Pair, StepError>
        ensures { IfOk result are_placed }
    {
        let upper = Placed::new(alloc, words.0)?;
        match Placed::new(alloc, words.1) {
            Ok(lower) => Ok(Pair { upper, lower }),
            Err(error) => {
                drop(upper);
                Err(error)
            }
        }
    }

    /// What stands where it was found. No step follows.
    fn back_from(&mut self, found: Found) -> Option<Chunk>
        requires { are_placed self.old }
    {
        match found {
            Found::Own(rest) => rest,
            Found::AtUpper => self.upper.stage.retire(),
            Found::AtLower => self.lower.stage.retire(),
        }
    }

    /// What the whole comes to with this input, with a line for each turn of a part.
    fn answer<C: Control>(
        &mut self,
        alloc: Global,
        control: &mut C,
        input: Input,
        text: &mut String,
    ) -> Result<Flow, StepError>
        requires { are_placed self.old }
        ensures { IfOk result (λ flow. are_placed self.new) }
    {
        let mut turn = control.begin(input, None);
        for _ in 0..MOST {
            let flow = match turn {
                Turn::Up(input) => control.up(self.upper.told_step(alloc, "up ", input, text)?),
                Turn::Down(input) => control.down(
                    self.lower.told_step(alloc, "down ", input, text)?,
                ),
            };
            match flow {
                Flow::Again(next) => turn = next,
                other => return Ok(other),
            }
        }
        drop(turn);
        Err(StepError::Unending)
    }

    /// The moves of a whole that is given this. Where nothing comes, no step follows.
    fn play<C: Control>(
        &mut self,
        alloc: Global,
        control: &mut C,
        mut given: Given<'_>,
    ) -> Result<String, StepError>
        requires { are_placed self.old }
    {
        let mut text = String::from_str(alloc, "\n")?;
        let mut input = Input::Start;
        for _ in 0..MOST {
            match self.answer(alloc, control, input, &mut text)? {
                Flow::Return(made) => {
                    push_answer(&mut text, &made)?;
                    match follow_up(alloc, made, &mut given)? {
                        Some(next) => input = next,
                        None => {
                            let rest = self.back_from(control.retire());
                            let told = push_back(&mut text, &rest);
                            drop(rest);
                            return told.and(Ok(text));
                        }
                    }
                }
                Flow::Finish(made, found) => {
                    let rest = self.back_from(found);
                    let told = push_end(&mut text, &made, &rest);
                    drop((made, rest));
                    return told.and(Ok(text));
                }
                other => {
                    drop(other);
                    return Err(StepError::OutOfTurn);
                }
            }
        }
        drop(input);
        Err(StepError::Unending)
    }
}

/// The moves of a whole of two words under this controller, which has not begun and is given this.
pub fn moves_of<C: Control>(
    alloc: Global,
    control: &mut C,
    words: (ElemWord, ElemWord),
    given: Given<'_>,
) -> Result<String, StepError> {
    let mut pair = Pair::new(alloc, words)?;
    let moves = pair.play(alloc, control, given);
    drop(pair);
    moves
}

fn push_answer(text: &mut String, made: &Move) -> Result<(), StepError> {
    text.push_str("= ")?;
    push_move(text, made)
}

/// A line of the end of a whole.
fn push_end(text: &mut String, made: &Made, rest: &Option<Chunk>) -> Result<(), StepError> {
    text.push_str("= done ")?;
    match made {
        Made::One(value) => push_value(text, value)?,
        _ => text.push_str("other")?,
    }
    text.push_str(", ")?;
    push_back(text, rest)
}

/// What answers a move; None where nothing comes.
fn follow_up(alloc: Global, made: Move, given: &mut Given<'_>) -> Result<Option<Input>, StepError> {
    match made {
        Move::Emit(chunk) => {
            drop(chunk);
            Ok(Some(Input::Next))
        }
        Move::Need => match given.next(alloc)? {
            Coming::Bytes(chunk) => Ok(Some(Input::Chunk(chunk))),
            Coming::End => Ok(Some(Input::End)),
            Coming::Nothing => Ok(None),
        },
        other => {
            drop(other);
            Err(StepError::OutOfTurn)
        }
    }
}
