// Reads the words of a command line.
ghost use Rattle.std.specs.Prelude.{◌≡◌, ◌↔◌, ◌⊎◌, ◌≤◌, ℕ, List, ◌∷◌, Option, Some, None, Err, IsTrue, IfOk, IfErr, MatchResult, codes, decimal, option_and_then};
ghost use Rattle.std.specs.Result.{result_err};
ghost use Rattle.clap.specs.Words.{first_value, found_of};
ghost use Rattle.job_text.specs.declared.words.WordFault.TheVariants.{Memory, Usage};
ghost use Rattle.job_text.specs.Words.{IsRun, IsScript, NameLines, IsGen, IsSelfRun, IsInspect, IsCommand, HasRanges, IsUsage, has_dash, is_operand, operand_fault, number_fault, run_fault, no_options_fault, lines_fault, usage_fault, whole_number};

use crate::options::{check_options, options_in, stray_fault};
use crate::parser;
use crate::spelling::whole_number;
use clap::ArgMatches;
use flow_defs::{ListOf, Word};
use std::alloc::{AllocError, Global};
use thiserror::Error;

/// What the program is to do.
#[derive(Debug, Drop)]
pub enum Command {
    /// Run the job whose text is in this file.
    Run { job: Word, options: RunOptions },
    /// Run the script whose text is in this file.
    Script { file: Word },
    /// Make so many lines, from 0 to 2,000,000, of a seed.
    Gen { lines: u64, seed: u64 },
    /// Run the job of the words of so many lines, from 0 to 2,000,000, that are made of a seed.
    SelfRun { lines: u64, seed: u64 },
    /// Show the last image that the keeper holds.
    Inspect,
}

/// The most lines that are made of a seed.
pub const LINES_MAX: u64 = 2_000_000;

/// How a job is run.
#[derive(Clone, Copy, Debug, PartialEq, Eq)]
pub struct RunOptions {
    /// How many lines of a source lie between two of its checkpoints, from 1 to 1,099,511,627,776;
    /// without it there is one checkpoint, the last.
    pub every: Option<u64>,
    /// The length of a segment of network memory in bytes, from 64 to 65,536.
    pub segment: u32,
    /// How many segments the pool of network memory has, from 1 to 16,384.
    pub pool: u32,
}

/// What is wrong with the words of a command line.
#[derive(Clone, Copy, Debug, PartialEq, Eq, Error)]
pub enum UsageKind {
    #[error("no command")]
    NoCommand,
    #[error("unknown command")]
    UnknownCommand,
    /// An operand is wanted where there is no word, an empty one, or one that begins with `-`.
    #[error("missing operand")]
    MissingOperand,
    /// An operand is no number in its range, or an option has no such value.
    #[error("bad value")]
    BadValue,
    /// A word behind the operand begins with `-`, and is no option of the command.
    #[error("unknown option")]
    UnknownOption,
    /// A word behind the operand does not begin with `-`, and is no option's value.
    #[error("extra word")]
    ExtraWord,
    /// An option that was given before. Its value is not looked at.
    #[error("option twice")]
    OptionTwice,
    /// An option is the last word.
    #[error("missing value")]
    MissingValue,
}

/// Why the words are no command.
#[derive(Clone, Copy, Debug, PartialEq, Eq, Error)]
pub enum WordFault {
    /// The first fault of the words, from the left.
    #[error("usage: {kind}")]
    Usage { kind: UsageKind },
    #[error("out of memory")]
    Memory,
}

impl From<AllocError> for WordFault {
    ghost from_gives = { λ _ e. e ≡ Memory };

    fn from(_: AllocError) -> Self {
        WordFault::Memory
    }
}

// What `clap` refuses of words that are accepted is told as want of memory.
impl From<clap::Error> for WordFault {
    ghost from_gives = { λ _ e. e ≡ Memory };

    fn from(_: clap::Error) -> Self {
        WordFault::Memory
    }
}

impl From<UsageKind> for WordFault {
    ghost from_gives = { λ kind e. e ≡ Usage kind };

    fn from(kind: UsageKind) -> Self {
        WordFault::Usage { kind }
    }
}

/// Reads the command that the words after the program's name are.
pub fn read_words(alloc: Global, words: &ListOf<Word>) -> Result<Command, WordFault>
    ensures command { IfOk result (IsCommand words.now.items) }
    ensures ranges { IfOk result HasRanges }
    ensures usage { (kind : UsageKind) →
        (result ≡ Err (WordFault.Usage kind)) ↔ (usage_fault words.now.items ≡ Some kind) }

    // The words without a fault are those of a command.
    ensures accepted { (usage_fault words.now.items ≡ None)
        ↔ (((job : List ℕ) × (options : RunOptions) × IsRun words.now.items job options)
        ⊎ ((file : List ℕ) × IsScript words.now.items file)
        ⊎ ((lines : ℕ) × (seed : ℕ) × IsGen words.now.items lines seed)
        ⊎ ((lines : ℕ) × (seed : ℕ) × IsSelfRun words.now.items lines seed)
        ⊎ IsInspect words.now.items) }
{
    let [command, words @ ..] = words.as_slice() else {
        return Err(UsageKind::NoCommand.into());
    };
    if command.text() == "run" {
        read_run(alloc, words)
    } else if command.text() == "script" {
        read_script(alloc, words)
    } else if command.text() == "gen" {
        read_gen(alloc, words)
    } else if command.text() == "selfrun" {
        read_selfrun(alloc, words)
    } else if command.text() == "inspect" {
        read_inspect(alloc, words)
    } else {
        Err(UsageKind::UnknownCommand.into())
    }
}

// Reads the words behind `run`.
fn read_run(alloc: Global, words: &[Word]) -> Result<Command, WordFault>
    ensures command { IfOk result (IsCommand (codes "run" ∷ words.now)) }
    ensures fault { IfErr result (λ told. IsUsage told (operand_fault run_fault words.now)) }
{
    let (_, behind) = operand(words)?;
    check_options(behind)?;
    let texts = parser::texts_of(alloc, words)?;
    let found = parser::run(alloc, texts.as_slice())?;
    let Some(job) = found.get_str("job") else {
        unreachable!();
    };
    let job = Word::of(alloc, job)?;
    let options = options_in(&found);
    Ok(Command::Run { job, options })
}

// Reads the words behind `script`.
fn read_script(alloc: Global, words: &[Word]) -> Result<Command, WordFault>
    ensures command { IfOk result (IsCommand (codes "script" ∷ words.now)) }
    ensures fault { IfErr result (λ told. IsUsage told (operand_fault no_options_fault words.now)) }
{
    let (_, behind) = operand(words)?;
    no_options(behind)?;
    let texts = parser::texts_of(alloc, words)?;
    let found = parser::script(alloc, texts.as_slice())?;
    let Some(file) = found.get_str("file") else {
        unreachable!();
    };
    let file = Word::of(alloc, file)?;
    Ok(Command::Script { file })
}

// Reads the words behind `gen`.
fn read_gen(alloc: Global, words: &[Word]) -> Result<Command, WordFault>
    ensures command { IfOk result (IsCommand (codes "gen" ∷ words.now)) }
    ensures fault { IfErr result (λ told. IsUsage told (lines_fault words.now)) }
{
    let (lines, seed) = lines_and_seed(alloc, "gen", words)?;
    Ok(Command::Gen { lines, seed })
}

// Reads the words behind `selfrun`.
fn read_selfrun(alloc: Global, words: &[Word]) -> Result<Command, WordFault>
    ensures command { IfOk result (IsCommand (codes "selfrun" ∷ words.now)) }
    ensures fault { IfErr result (λ told. IsUsage told (lines_fault words.now)) }
{
    let (lines, seed) = lines_and_seed(alloc, "selfrun", words)?;
    Ok(Command::SelfRun { lines, seed })
}

// Reads the words behind `inspect`.
fn read_inspect(alloc: Global, words: &[Word]) -> Result<Command, WordFault>
    ensures command { IfOk result (IsCommand (codes "inspect" ∷ words.now)) }
    ensures fault { IfErr result (λ told. IsUsage told (no_options_fault words.now)) }
{
    no_options(words)?;
    let texts = parser::texts_of(alloc, words)?;
    parser::inspect(alloc, texts.as_slice())?;
    Ok(Command::Inspect)
}

// How many lines are to be made, and of which seed, where the words behind a command say no more.
fn lines_and_seed(alloc: Global, name: &str, words: &[Word]) -> Result<(u64, u64), WordFault>
    ensures { MatchResult result
        (λ made. (command : List ℕ) → NameLines command (command ∷ words.now) made.0 made.1)
        (λ told. IsUsage told (lines_fault words.now)) }
{
    let behind = number_operand(words, LINES_MAX)?;
    let behind = number_operand(behind, u64::MAX)?;
    no_options(behind)?;
    let texts = parser::texts_of(alloc, words)?;
    let found = parser::lines(alloc, name, texts.as_slice())?;
    let Some(lines) = number_in(&found, "lines", LINES_MAX) else {
        unreachable!();
    };
    let Some(seed) = number_in(&found, "seed", u64::MAX) else {
        unreachable!();
    };
    Ok((lines, seed))
}

// The number up to the most that was found by the name.
fn number_in(found: &ArgMatches<'_>, name: &str, most: u64) -> Option<u64>
    ensures { result
        ≡ option_and_then (whole_number most) (first_value (found_of found.now) name.now) }
{
    whole_number(found.get_str(name)?.as_bytes(), most)
}

// The words behind a number up to the most, which stands first.
fn number_operand(words: &[Word], most: u64) -> Result<&[Word], UsageKind>
    ensures { MatchResult result
        (λ behind. (n : ℕ) × (words.now ≡ decimal n ∷ behind.now) × (n ≤ most) × ((fault : List (List ℕ) → Option UsageKind) → number_fault most fault words.now ≡ fault behind.now))
        (λ kind. (fault : List (List ℕ) → Option UsageKind) → number_fault most fault words.now ≡ Some kind) }
{
    let (word, behind) = match operand(words) {
        Ok(found) => found,
        Err(kind) => return Err(kind),
    };
    match whole_number(word.text().as_bytes(), most) {
        Some(_) => Ok(behind),
        None => Err(UsageKind::BadValue),
    }
}

// The operand that stands first, and the words behind it.
fn operand(words: &[Word]) -> Result<(&Word, &[Word]), UsageKind>
    ensures { MatchResult result
        (λ found. (words.now ≡ found.0.now ∷ found.1.now) × IsTrue (is_operand found.0.now))
        (λ kind. (fault : List (List ℕ) → Option UsageKind) → operand_fault fault words.now ≡ Some kind) }
{
    match words {
        [word, behind @ ..] if is_operand(word.text()) => Ok((word, behind)),
        _ => Err(UsageKind::MissingOperand),
    }
}

// Nothing may stand behind the operands of a command that has no options.
fn no_options(words: &[Word]) -> Result<(), UsageKind>
    ensures { result_err result ≡ no_options_fault words.now }
{
    match words {
        [] => Ok(()),
        [word, ..] => Err(stray_fault(word.text())),
    }
}

// Whether the word may stand in an operand's place.
fn is_operand(word: &str) -> bool
    ensures { result ≡ is_operand word.now }
{
    match word.as_bytes() {
        [] => false,
        [first, ..] => *first != b'-',
    }
}

// Whether the word begins as an option does.
pub(crate) fn has_dash(word: &str) -> bool
    ensures { result ≡ has_dash word.now }
{
    word.as_bytes().first() == Some(&b'-')
}
