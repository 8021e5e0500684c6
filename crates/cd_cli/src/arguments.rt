// The words of the command line.
ghost use Rattle.std.specs.Prelude.{◌≡◌, ◌<◌, ◌≤◌, IfOk, IfSome, map, option_map};
ghost use Rattle.std.specs.String.{string_bytes};
ghost use Rattle.cd_run.specs.Runners.{AreOptions};
ghost use Rattle.cd_cli.specs.Arguments as spec;

use cd_elem::{Literal, NoMemory};
use cd_lex::number_value;
use cd_run::Options;
use std::alloc::Global;
use thiserror::Error;

/// How many bytes a read asks for where the words do not say it.
const DEFAULT_CHUNK: u32 = 32_768;

/// How many bytes a read may ask for.
const GREATEST_CHUNK: u64 = 65_536;

/// How many bytes a source may have, which is also the limit where the words do not say it.
const GREATEST_LIMIT: u64 = 1_099_511_627_776;

/// What the words ask for. Each script is the word as it was given.
#[derive(Drop)]
pub enum Command {
    /// `run [--chunk N] [--limit N] SCRIPT`
    Run { script: Literal, options: Options },
    /// `check SCRIPT`
    Check { script: Literal },
    /// `show SCRIPT`
    Show { script: Literal },
}

impl Command {
    /// The word that names the script.
    pub fn script(&self) -> &str
        ensures { result.now ≡ spec.script_of self.now }
    {
        match self {
            Command::Run { script, .. } | Command::Check { script } | Command::Show { script } =>
                script.as_str(),
        }
    }
}

/// Why words are not read.
#[derive(Clone, Copy, Debug, PartialEq, Eq, Error)]
pub enum WordsRefusal {
    #[error("the words are none that the command takes")]
    Usage,
    #[error("out of memory")]
    NoMemory,
}

impl From<NoMemory> for WordsRefusal {
    ghost use Rattle.cd_cli.specs.declared.arguments.WordsRefusal.TheVariants as refusals;

    ghost from_gives = { λ _ refusal. refusal ≡ refusals.NoMemory };

    fn from(_: NoMemory) -> WordsRefusal {
        WordsRefusal::NoMemory
    }
}

/// What the next word may be: any, one that is no option, or the number of an option.
#[derive(Clone, Copy)]
enum Next {
    Any,
    NoOption,
    Chunk,
    Limit,
}

/// What the words behind the verb have given so far.
#[derive(Clone, Copy)]
struct Given<'a> {
    script: Option<&'a str>,
    chunk: Option<u32>,
    limit: Option<u64>,
    next: Next,
}

/// Reads the words of the command line, which come without the program's name: `run SCRIPT`, `check SCRIPT` or
/// `show SCRIPT`. SCRIPT is not empty.
///
/// `run` takes `--chunk N`, with N from 1 to 65,536, and `--limit N`, with N from 1 to 1,099,511,627,776, before or
/// behind SCRIPT, in any order, each at most once, and also in one word as `--chunk=N`. N is one or more decimal digits.
/// Behind a first `--` no word is an option; before it each word is one that begins with `-`, unless it is `-` alone.
pub fn read_words(alloc: Global, words: &[String]) -> Result<Command, WordsRefusal>
    ensures command { spec.AreArguments (map string_bytes words.now) result }
    ensures options { IfOk result (λ command. spec.HasOptions command) }
{
    match words {
        [verb, words @ ..] => {
            let nothing = Given {
                script: None,
                chunk: None,
                limit: None,
                next: Next::Any,
            };
            match read_on(words, nothing) {
                Some(given) => command_of(alloc, verb.as_str(), given),
                None => Err(WordsRefusal::Usage),
            }
        }
        [] => Err(WordsRefusal::Usage),
    }
}

/// The command of a verb and of what is given to it.
fn command_of(alloc: Global, verb: &str, given: Given<'_>) -> Result<Command, WordsRefusal>
    requires range { spec.InRange (spec.seen given) }
    ensures command { spec.IsCommandOf verb.now (spec.seen given.entry) result }
    ensures options { IfOk result (λ command. spec.HasOptions command) }
{
    let Some(script) = whole_script(given) else {
        return Err(WordsRefusal::Usage);
    };
    if verb == "run" {
        let script = Literal::new(alloc, script)?;
        let options = options_of(given);
        Ok(Command::Run { script, options })
    } else if given.chunk.is_some() || given.limit.is_some() {
        Err(WordsRefusal::Usage)
    } else if verb == "check" {
        let script = Literal::new(alloc, script)?;
        Ok(Command::Check { script })
    } else if verb == "show" {
        let script = Literal::new(alloc, script)?;
        Ok(Command::Show { script })
    } else {
        Err(WordsRefusal::Usage)
    }
}

/// The script, where no number is still to come.
fn whole_script(given: Given<'_>) -> Option<&str>
    ensures { option_map (λ script. script.now) result ≡ spec.whole_script (spec.seen given.entry) }
{
    match given.next {
        Next::Any | Next::NoOption => given.script,
        Next::Chunk | Next::Limit => None,
    }
}

/// The options of a run, where what is not given is as the words have it that do not say it.
fn options_of(given: Given<'_>) -> Options
    requires range { spec.InRange (spec.seen given) }
    ensures value { result ≡ spec.options_of (spec.seen given.entry) }
    ensures options { AreOptions result }
{
    Options {
        chunk: given.chunk.unwrap_or(DEFAULT_CHUNK),
        limit: given.limit.unwrap_or(GREATEST_LIMIT),
    }
}

/// Reads on. None where a word is none that may stand there, so that few words are read of many.
fn read_on<'a>(words: &'a [String], given: Given<'a>) -> Option<Given<'a>>
    requires range { spec.InRange (spec.seen given) }
    ensures value { option_map spec.seen result ≡ spec.read_on (map string_bytes words.now) (spec.seen given.entry) }
    ensures range { IfSome result (λ given. spec.InRange (spec.seen given)) }
{
    match words {
        [word, words @ ..] => match read_word(word.as_str(), given) {
            Some(given) => read_on(words, given),
            None => None,
        },
        [] => Some(given),
    }
}

/// Reads a word.
fn read_word<'a>(word: &'a str, given: Given<'a>) -> Option<Given<'a>>
    requires range { spec.InRange (spec.seen given) }
    ensures value { option_map spec.seen result ≡ spec.read_word word.now (spec.seen given.entry) }
    ensures range { IfSome result (λ given. spec.InRange (spec.seen given)) }
{
    match given.next {
        Next::Any => read_any(word, given),
        Next::NoOption => with_script(given, word),
        Next::Chunk => with_chunk(given, word.as_bytes()),
        Next::Limit => with_limit(given, word.as_bytes()),
    }
}

/// Reads a word that may be an option.
fn read_any<'a>(word: &'a str, given: Given<'a>) -> Option<Given<'a>>
    requires range { spec.InRange (spec.seen given) }
    ensures value { option_map spec.seen result ≡ spec.read_any word.now (spec.seen given.entry) }
    ensures range { IfSome result (λ given. spec.InRange (spec.seen given)) }
{
    if word == "--" {
        Some(with_next(given, Next::NoOption))
    } else if word == "--chunk" {
        Some(with_next(given, Next::Chunk))
    } else if word == "--limit" {
        Some(with_next(given, Next::Limit))
    } else if let Some(number) = word.as_bytes().strip_prefix(b"--chunk=") {
        with_chunk(given, number)
    } else if let Some(number) = word.as_bytes().strip_prefix(b"--limit=") {
        with_limit(given, number)
    } else if is_option(word.as_bytes()) {
        None
    } else {
        with_script(given, word)
    }
}

fn with_next(given: Given<'_>, next: Next) -> Given<'_>
    requires range { spec.InRange (spec.seen given) }
    ensures value { spec.seen result ≡ spec.with_next (spec.seen given.entry) next }
    ensures range { spec.InRange (spec.seen result) }
{
    Given { next, ..given }
}

/// Whether a word begins with `-`, and is longer.
fn is_option(word: &[u8]) -> bool
    ensures { result ≡ spec.is_option word.now }
{
    matches!(word, [b'-', _, ..])
}

/// Gives the script, which is not empty, once.
fn with_script<'a>(given: Given<'a>, word: &'a str) -> Option<Given<'a>>
    requires range { spec.InRange (spec.seen given) }
    ensures value { option_map spec.seen result ≡ spec.with_script (spec.seen given.entry) word.now }
    ensures range { IfSome result (λ given. spec.InRange (spec.seen given)) }
{
    if word.is_empty() || given.script.is_some() {
        return None;
    }
    Some(Given {
        script: Some(word),
        ..given
    })
}

/// Gives how many bytes a read asks for, once.
fn with_chunk<'a>(given: Given<'a>, digits: &[u8]) -> Option<Given<'a>>
    requires range { spec.InRange (spec.seen given) }
    ensures value { option_map spec.seen result ≡ spec.with_chunk (spec.seen given.entry) digits.now }
    ensures range { IfSome result (λ given. spec.InRange (spec.seen given)) }
{
    if given.chunk.is_some() {
        return None;
    }
    let number = number_within(GREATEST_CHUNK, digits)?;
    Some(Given {
        chunk: Some(number as u32),
        next: Next::Any,
        ..given
    })
}

/// Gives how many bytes a source may have, once.
fn with_limit<'a>(given: Given<'a>, digits: &[u8]) -> Option<Given<'a>>
    requires range { spec.InRange (spec.seen given) }
    ensures value { option_map spec.seen result ≡ spec.with_limit (spec.seen given.entry) digits.now }
    ensures range { IfSome result (λ given. spec.InRange (spec.seen given)) }
{
    if given.limit.is_some() {
        return None;
    }
    let number = number_within(GREATEST_LIMIT, digits)?;
    Some(Given {
        limit: Some(number),
        next: Next::Any,
        ..given
    })
}

/// The number of one or more digits, from 1 to this one.
fn number_within(most: u64, digits: &[u8]) -> Option<u64>
    ensures value { result ≡ spec.number_within most digits.now }
    ensures within { IfSome result (λ number. (0 < number) × (number ≤ most)) }
{
    if digits.is_empty() || !are_digits(digits) {
        return None;
    }
    let number = number_value(digits)?;
    if number == 0 || number > most {
        return None;
    }
    Some(number)
}

fn are_digits(word: &[u8]) -> bool
    ensures { result ≡ spec.are_digits word.now }
{
    word.iter().all(|byte| byte.is_ascii_digit())
}
