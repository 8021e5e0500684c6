// What a token makes of the place in a pipe.
ghost use Rattle.std.specs.Prelude.{◌≡◌, ◌∷◌, [], IfOk, Some};
ghost use Rattle.cd_parser.specs.Machine as spec;

use crate::allocation::{box_both, let_go, with_top};
use crate::brackets::leave_bracket;
use crate::chains::{close_chain, join_part, operator_of};
use crate::heads::{begin_part, extend};
use crate::stack::Stack;
use crate::state::{
    Chain, Exit, Expected, Extension, Frame, Level, OpenPipe, Owner, Position, Progress,
};
use cd_elem::{Join, Literal, NoMemory, Pipe, Sign, Stmt, Token};
use std::alloc::Global;

/// The place where a statement's pipe begins.
pub fn begin_pipe(alloc: Global, owner: Owner) -> Progress
    ensures { result ≡ spec.begin_pipe owner }
{
    let pipe = OpenPipe {
        owner,
        levels: Stack::new(alloc),
        chain: Chain::Alone,
    };
    pipe.reach(Expected::Part)
}

impl OpenPipe {
    /// What a token makes of the place in this pipe where this is expected.
    pub fn step(
        self,
        alloc: Global,
        expected: Expected,
        token: &Token,
    ) -> Result<Option<Progress>, NoMemory>
        ensures { IfOk result (λ progress. progress ≡ spec.step_within self expected token.now) }
    {
        match expected {
            Expected::Part => self.go_on(begin_part(alloc, token)),
            Expected::Further(head) => match extend(alloc, head, token) {
                Ok(extension) => self.go_on(extension),
                Err(NoMemory) => Err(let_go(self)),
            },
            Expected::Ended(part) => self.follow_part(alloc, part, token),
            Expected::ZipText(first, second) => self.read_zip_text(alloc, first, second, token),
            Expected::ZipEnd(first, second, text) => match box_both(alloc, first, second) {
                Ok((first, second)) => {
                    Ok(self.close_zip(Pipe::ZipSource(first, second, text), token))
                }
                Err(NoMemory) => Err(let_go((self, text))),
            },
        }
    }

    /// The place in this pipe where this is expected.
    fn reach(self, expected: Expected) -> Progress
        ensures { result ≡ spec.reach self expected }
    {
        Progress::Reaches(Position::Inside(self, expected))
    }

    /// The place behind a token that a part begins or goes on with, if it is one.
    fn go_on(self, extension: Option<Extension>) -> Result<Option<Progress>, NoMemory>
        ensures { IfOk result (λ progress. progress ≡ spec.after_extension_if_any self extension) }
    {
        match extension {
            None => {
                drop(self);
                Ok(None)
            }
            Some(Extension::Goes(head)) => Ok(Some(self.reach(Expected::Further(head)))),
            Some(Extension::Ends(word)) => Ok(Some(self.reach(Expected::Ended(Pipe::Word(word))))),
            Some(Extension::Opens(frame)) => self.enter_bracket(frame),
        }
    }

    /// The place behind a bracket that opens in this pipe.
    fn enter_bracket(self, frame: Frame) -> Result<Option<Progress>, NoMemory>
        ensures { IfOk result (λ progress. progress ≡ Some (spec.enter_bracket self frame)) }
    {
        let OpenPipe {
            owner,
            levels,
            chain,
        } = self;
        let level = Level {
            frame,
            outer: chain,
        };
        match with_top(levels, level) {
            Ok(levels) => {
                let pipe = OpenPipe {
                    owner,
                    levels,
                    chain: Chain::Alone,
                };
                Ok(Some(pipe.reach(Expected::Part)))
            }
            Err(NoMemory) => Err(let_go(owner)),
        }
    }

    /// The place behind a part and what stands behind it.
    fn follow_part(
        self,
        alloc: Global,
        part: Pipe,
        token: &Token,
    ) -> Result<Option<Progress>, NoMemory>
        ensures { IfOk result (λ progress. progress ≡ spec.follow_part self part token.now) }
    {
        match token {
            Token::Sign(sign) => match operator_of(*sign) {
                None => self.end(alloc, part, *sign),
                Some(join) => self.join(alloc, join, part),
            },
            _ => {
                drop((self, part));
                Ok(None)
            }
        }
    }

    /// The place behind a part and an operator.
    fn join(self, alloc: Global, join: Join, part: Pipe) -> Result<Option<Progress>, NoMemory>
        ensures { IfOk result (λ progress. progress
            ≡ spec.after_join_if_any self.owner self.levels (spec.join_part self.chain join part)) }
    {
        let OpenPipe {
            owner,
            levels,
            chain,
        } = self;
        match join_part(alloc, chain, join, part) {
            Ok(Some(chain)) => {
                let pipe = OpenPipe {
                    owner,
                    levels,
                    chain,
                };
                Ok(Some(pipe.reach(Expected::Part)))
            }
            Ok(None) => {
                drop((owner, levels));
                Ok(None)
            }
            Err(NoMemory) => Err(let_go((owner, levels))),
        }
    }

    /// What a sign makes of the pipe that this part ends.
    fn end(self, alloc: Global, part: Pipe, sign: Sign) -> Result<Option<Progress>, NoMemory>
        ensures { IfOk result (λ progress. progress
            ≡ spec.end_pipe self.owner self.levels (spec.close_chain self.chain part) sign) }
    {
        let OpenPipe {
            owner,
            mut levels,
            chain,
        } = self;
        match (close_chain(chain, part), levels.pop()) {
            (Ok(pipe), None) => {
                drop(levels);
                Ok(finish_statement(owner, pipe, sign))
            }
            (Ok(pipe), Some(Level { frame, outer })) => {
                let around = OpenPipe {
                    owner,
                    levels,
                    chain: outer,
                };
                around.leave_bracket(alloc, frame, pipe, sign)
            }
            (Err(NoMemory), level) => Err(let_go((owner, levels, level))),
        }
    }

    /// What a sign makes of the bracket in this pipe where a pipe has ended.
    fn leave_bracket(
        self,
        alloc: Global,
        frame: Frame,
        inner: Pipe,
        sign: Sign,
    ) -> Result<Option<Progress>, NoMemory>
        ensures { IfOk result (λ progress. progress ≡ spec.after_exit_if_any self (spec.leave_bracket frame inner sign)) }
    {
        match leave_bracket(alloc, frame, inner, sign) {
            Ok(None) => {
                drop(self);
                Ok(None)
            }
            Ok(Some(Exit::Stays(frame))) => self.enter_bracket(frame),
            Ok(Some(Exit::Closes(part))) => Ok(Some(self.reach(Expected::Ended(part)))),
            Ok(Some(Exit::Asks(first, second))) => {
                Ok(Some(self.reach(Expected::ZipText(first, second))))
            }
            Err(NoMemory) => Err(let_go(self)),
        }
    }

    /// The place behind the literal of `zipSource`.
    fn read_zip_text(
        self,
        alloc: Global,
        first: Pipe,
        second: Pipe,
        token: &Token,
    ) -> Result<Option<Progress>, NoMemory>
        ensures { IfOk result (λ progress. progress ≡ spec.read_zip_text self first second token.now) }
    {
        match token {
            Token::Text(text) => match Literal::new(alloc, text.as_str()) {
                Ok(text) => Ok(Some(self.reach(Expected::ZipEnd(first, second, text)))),
                Err(NoMemory) => Err(let_go((self, first, second))),
            },
            _ => {
                drop((self, first, second));
                Ok(None)
            }
        }
    }

    /// The place behind the bracket that closes `zipSource`.
    fn close_zip(self, zip: Pipe, token: &Token) -> Option<Progress>
        ensures { result ≡ spec.close_zip self zip token.now }
    {
        match token {
            Token::Sign(Sign::CloseParen) => Some(self.reach(Expected::Ended(zip))),
            _ => {
                drop((self, zip));
                None
            }
        }
    }
}

fn finish_statement(owner: Owner, pipe: Pipe, sign: Sign) -> Option<Progress>
    ensures { result ≡ spec.finish_statement owner pipe sign }
{
    match sign {
        Sign::Semicolon => Some(Progress::Ends(owned_statement(owner, pipe))),
        _ => {
            drop((owner, pipe));
            None
        }
    }
}

fn owned_statement(owner: Owner, pipe: Pipe) -> Stmt
    ensures { result ≡ spec.owned_statement owner pipe }
{
    match owner {
        Owner::Run => Stmt::Run(pipe),
        Owner::Seal(name) => Stmt::Seal(name, pipe),
        Owner::Feed(name) => Stmt::Feed(name, pipe),
        Owner::CloseSeal(name) => Stmt::CloseSeal(name, pipe),
    }
}
