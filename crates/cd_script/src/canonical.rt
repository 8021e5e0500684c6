// From trees to their canonical tokens.
ghost use Rattle.std.specs.Prelude.{◌≡◌, ◌∷◌, ◌++◌, [], map, true, IfOk, OnOk};
ghost use Rattle.std.specs.List.{list_all};
ghost use Rattle.cd_grammar.specs.Canonical as spec;
ghost use Rattle.cd_grammar.specs.CanonicalWords.{separated};
ghost use Rattle.cd_grammar.specs.Grammar.{operator};
ghost use Rattle.cd_script.specs.Ranges as ranges;

use crate::canonical_words::{
    put, put_keyword, put_sign, put_text, put_with_number, put_with_text, put_word,
};
use cd_elem::{
    Items, Join, Keyword, Literal, Name, NoMemory, Opening, Pipe, Section, Sign, Stmt, Token, Zip,
};
use std::alloc::Global;

/// The tokens of a statement in the canonical text.
pub fn canonical_statement(alloc: Global, statement: &Stmt) -> Result<Items<Token>, NoMemory>
    ensures tokens { IfOk result (λ tokens. tokens ≡ spec.canonical_statement statement.now) }
    // Each character of the statement is one, and so is each byte.
    ensures range { OnOk result (ranges.statement statement.now ≡ true) }
{
    let mut tokens = Items::new(alloc);
    put_statement(alloc, &mut tokens, statement)?;
    Ok(tokens)
}

/// Adds the tokens of a statement.
fn put_statement(alloc: Global, out: &mut Items<Token>, statement: &Stmt) -> Result<(), NoMemory>
    ensures tokens { OnOk result (out.new ≡ out.old ++ spec.canonical_statement statement.now) }
    ensures range { OnOk result (ranges.statement statement.now ≡ true) }
{
    match statement {
        Stmt::Run(pipe) => {
            put_keyword(out, Keyword::Run)?;
            put_until(alloc, out, pipe, Sign::Semicolon)
        }
        Stmt::Seal(name, pipe) => put_seal(alloc, out, name, pipe),
        Stmt::Feed(name, pipe) => put_feeding(alloc, out, Opening::Feed, name, pipe),
        Stmt::CloseSeal(name, pipe) => put_feeding(alloc, out, Opening::Close, name, pipe),
        Stmt::Hold(name, file) => {
            put_opening(alloc, out, Opening::Hold, name)?;
            put_file(alloc, out, file)
        }
        Stmt::Release(name) => {
            put_opening(alloc, out, Opening::Release, name)?;
            put_sign(out, Sign::Semicolon)
        }
    }
}

/// Adds a statement that gives a name to a source.
fn put_seal(alloc: Global, out: &mut Items<Token>, name: &Name, pipe: &Pipe) -> Result<(), NoMemory>
    ensures tokens { OnOk result (out.new ≡ out.old ++ spec.canonical_statement (Stmt.Seal name.now pipe.now)) }
    ensures range { OnOk result (ranges.is_in_range pipe.now ≡ true) }
{
    put_opening(alloc, out, Opening::Let, name)?;
    put_sign(out, Sign::Equals)?;
    put_keyword(out, Keyword::Seal)?;
    put_until(alloc, out, pipe, Sign::Semicolon)
}

/// Adds a statement that runs a seal into a pipe, by its first word.
fn put_feeding(
    alloc: Global,
    out: &mut Items<Token>,
    opening: Opening,
    name: &Name,
    pipe: &Pipe,
) -> Result<(), NoMemory>
    ensures tokens { OnOk result (out.new ≡ out.old ++ Token.Word (Keyword.Opening opening) ∷ Token.Named name.now
        ∷ operator Join.Plain ∷ (spec.canonical_pipe pipe.now).tokens ++ Token.Sign Sign.Semicolon ∷ []) }
    ensures range { OnOk result (ranges.is_in_range pipe.now ≡ true) }
{
    put_opening(alloc, out, opening, name)?;
    put_sign(out, Sign::Operator(Join::Plain))?;
    put_until(alloc, out, pipe, Sign::Semicolon)
}

/// Adds what stands for a key's file behind its name.
fn put_file(alloc: Global, out: &mut Items<Token>, file: &Literal) -> Result<(), NoMemory>
    ensures { OnOk result (out.new ≡ out.old ++ Token.Sign Sign.Equals ∷ Token.Word Keyword.Mark
        ∷ Token.Text file.now ∷ Token.Sign Sign.Semicolon ∷ []) }
{
    put_sign(out, Sign::Equals)?;
    put_with_text(alloc, out, Keyword::Mark, file)?;
    put_sign(out, Sign::Semicolon)
}

/// Adds the first word of a statement and the name behind it.
fn put_opening(
    alloc: Global,
    out: &mut Items<Token>,
    opening: Opening,
    name: &Name,
) -> Result<(), NoMemory>
    ensures { OnOk result (out.new
        ≡ out.old ++ Token.Word (Keyword.Opening opening) ∷ Token.Named name.now ∷ []) }
{
    put_keyword(out, Keyword::Opening(opening))?;
    put(out, Token::Named(Name::new(alloc, name.as_str())?))
}

/// Adds the tokens of a pipe.
#[cycle(canonical)]
#[tactic(auto, using(crate::proofs::Tactics::pieces))]
fn put_pipe(alloc: Global, out: &mut Items<Token>, pipe: &Pipe) -> Result<(), NoMemory>
    ensures tokens { OnOk result (out.new ≡ out.old ++ (spec.canonical_pipe pipe.now).tokens) }
    ensures range { OnOk result (ranges.is_in_range pipe.now ≡ true) }
{
    match pipe {
        Pipe::Word(word) => put_word(alloc, out, word),
        Pipe::Chain(join, members) => put_chain(alloc, out, *join, members.as_slice()),
        Pipe::Sequence(pipes) => put_sequence(alloc, out, pipes.as_slice()),
        Pipe::Exactly(n, inner) => put_section(alloc, out, Section::Exactly, *n, inner.get()),
        Pipe::ExactlyE(n, inner) => put_section(alloc, out, Section::ExactlyE, *n, inner.get()),
        Pipe::LineE(inner) => {
            put_keyword(out, Keyword::LineE)?;
            put_block(alloc, out, inner.get())
        }
        Pipe::Mark(name, inner) => {
            put_with_text(alloc, out, Keyword::Mark, name)?;
            put_block(alloc, out, inner.get())
        }
        Pipe::Tee(inner) => {
            put_keyword(out, Keyword::Tee)?;
            put_sign(out, Sign::OpenParen)?;
            put_until(alloc, out, inner.get(), Sign::CloseParen)
        }
        Pipe::ZipSource(first, second, between) => {
            put_first(alloc, out, Zip::Source, first.get())?;
            put_until(alloc, out, second.get(), Sign::Comma)?;
            put_text(alloc, out, between)?;
            put_sign(out, Sign::CloseParen)
        }
        Pipe::ZipSink(first, second) => {
            put_first(alloc, out, Zip::Sink, first.get())?;
            put_until(alloc, out, second.get(), Sign::CloseParen)
        }
        Pipe::ZipConduit(first, second) => {
            put_first(alloc, out, Zip::Conduit, first.get())?;
            put_until(alloc, out, second.get(), Sign::CloseParen)
        }
    }
}

/// Adds the members of a chain, with its operator between them.
#[cycle(canonical)]
fn put_chain(
    alloc: Global,
    out: &mut Items<Token>,
    join: Join,
    members: &[Pipe],
) -> Result<(), NoMemory>
    ensures tokens { OnOk result (out.new
        ≡ out.old ++ separated (operator join) (map (λ p. spec.wrapped (spec.canonical_pipe p)) members.now)) }
    ensures range { OnOk result (list_all ranges.is_in_range members.now ≡ true) }
{
    for (place, member) in members.iter().enumerate() {
        if place > 0 {
            put_sign(out, Sign::Operator(join))?;
        }
        put_member(alloc, out, member)?;
    }
    Ok(())
}

/// Adds a member of a chain, in parentheses where it is a chain itself.
#[cycle(canonical)]
#[tactic(auto, using(crate::proofs::Tactics::members))]
fn put_member(alloc: Global, out: &mut Items<Token>, pipe: &Pipe) -> Result<(), NoMemory>
    ensures tokens { OnOk result (out.new ≡ out.old ++ spec.wrapped (spec.canonical_pipe pipe.now)) }
    ensures range { OnOk result (ranges.is_in_range pipe.now ≡ true) }
{
    match pipe {
        Pipe::Chain(_, _) => {
            put_sign(out, Sign::OpenParen)?;
            put_until(alloc, out, pipe, Sign::CloseParen)
        }
        _ => put_pipe(alloc, out, pipe),
    }
}

/// Adds pipes with semicolons between them, in braces.
#[cycle(canonical)]
fn put_sequence(alloc: Global, out: &mut Items<Token>, pipes: &[Pipe]) -> Result<(), NoMemory>
    ensures tokens { OnOk result (out.new ≡ out.old
        ++ spec.braced (separated (Token.Sign Sign.Semicolon) (map (λ p. (spec.canonical_pipe p).tokens) pipes.now))) }
    ensures range { OnOk result (list_all ranges.is_in_range pipes.now ≡ true) }
{
    put_sign(out, Sign::OpenBrace)?;
    for (place, pipe) in pipes.iter().enumerate() {
        if place > 0 {
            put_sign(out, Sign::Semicolon)?;
        }
        put_pipe(alloc, out, pipe)?;
    }
    put_sign(out, Sign::CloseBrace)
}

/// Adds a section with its number and its pipe.
#[cycle(canonical)]
fn put_section(
    alloc: Global,
    out: &mut Items<Token>,
    section: Section,
    number: u64,
    pipe: &Pipe,
) -> Result<(), NoMemory>
    ensures tokens { OnOk result (out.new ≡ out.old ++ Token.Word (Keyword.Section section) ∷ Token.Number (Some number)
        ∷ spec.braced (spec.canonical_pipe pipe.now).tokens) }
    ensures range { OnOk result (ranges.is_in_range pipe.now ≡ true) }
{
    put_with_number(out, Keyword::Section(section), number)?;
    put_block(alloc, out, pipe)
}

/// Adds a pipe in braces.
#[cycle(canonical)]
fn put_block(alloc: Global, out: &mut Items<Token>, pipe: &Pipe) -> Result<(), NoMemory>
    ensures tokens { OnOk result (out.new ≡ out.old ++ spec.braced (spec.canonical_pipe pipe.now).tokens) }
    ensures range { OnOk result (ranges.is_in_range pipe.now ≡ true) }
{
    put_sign(out, Sign::OpenBrace)?;
    put_until(alloc, out, pipe, Sign::CloseBrace)
}

/// Adds a form of two pipes up to the second one.
#[cycle(canonical)]
fn put_first(alloc: Global, out: &mut Items<Token>, zip: Zip, pipe: &Pipe) -> Result<(), NoMemory>
    ensures tokens { OnOk result (out.new ≡ out.old ++ Token.Word (Keyword.Zip zip) ∷ Token.Sign Sign.OpenParen
        ∷ (spec.canonical_pipe pipe.now).tokens ++ Token.Sign Sign.Comma ∷ []) }
    ensures range { OnOk result (ranges.is_in_range pipe.now ≡ true) }
{
    put_keyword(out, Keyword::Zip(zip))?;
    put_sign(out, Sign::OpenParen)?;
    put_until(alloc, out, pipe, Sign::Comma)
}

/// Adds a pipe and the sign behind it.
#[cycle(canonical)]
fn put_until(alloc: Global, out: &mut Items<Token>, pipe: &Pipe, sign: Sign) -> Result<(), NoMemory>
    ensures tokens { OnOk result (out.new ≡ out.old ++ (spec.canonical_pipe pipe.now).tokens ++ Token.Sign sign ∷ []) }
    ensures range { OnOk result (ranges.is_in_range pipe.now ≡ true) }
{
    put_pipe(alloc, out, pipe)?;
    put_sign(out, sign)
}
