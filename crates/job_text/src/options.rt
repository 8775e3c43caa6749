// The options of `run`: which words are its options, and the values that are found of them.
ghost use Rattle.std.specs.Prelude.{◌≡◌, ok_or, option_and_then};
ghost use Rattle.std.specs.Result.{result_err};
ghost use Rattle.clap.specs.Words.{first_value, found_of};
ghost use Rattle.job_text.specs.declared.words.UsageKind.TheVariants.{BadValue};
ghost use Rattle.job_text.specs.JobFaults.{number_of};
ghost use Rattle.job_text.specs.Words.{stray_fault, option_of, number_within, nothing, was_given, with_value, option_behind, run_fault};
ghost use Rattle.job_text.specs.Matches.{options_by};

use crate::spelling::{long_number_of, number_of};
use crate::words::has_dash;
use crate::{RunOptions, UsageKind};
use clap::ArgMatches;
use flow_defs::Word;

// An option of `run`.
#[derive(Clone, Copy)]
pub(crate) enum RunOption {
    Every,
    Mode,
    Segment,
    Pool,
    Links,
}

// What the options gave so far. The mode and the links have one value each, so of them it is only
// known whether they were given.
#[derive(Clone, Copy)]
pub(crate) struct Given {
    every: Option<u64>,
    mode: bool,
    segment: Option<u32>,
    pool: Option<u32>,
    links: bool,
}

impl Given {
    fn nothing() -> Self
        ensures { result ≡ nothing }
    {
        Given {
            every: None,
            mode: false,
            segment: None,
            pool: None,
            links: false,
        }
    }

    // The option that the word names behind those that were given.
    fn option_behind(&self, word: &str) -> Result<RunOption, UsageKind>
        ensures { result ≡ option_behind self.now word.now }
    {
        let option = option_of(word).ok_or(stray_fault(word))?;
        if self.has(option) {
            return Err(UsageKind::OptionTwice);
        }
        Ok(option)
    }

    // Whether the option was given.
    fn has(&self, option: RunOption) -> bool
        ensures { result ≡ was_given self.now option }
    {
        match option {
            RunOption::Every => self.every.is_some(),
            RunOption::Mode => self.mode,
            RunOption::Segment => self.segment.is_some(),
            RunOption::Pool => self.pool.is_some(),
            RunOption::Links => self.links,
        }
    }

    // What was given with this value of the option besides.
    fn with(self, option: RunOption, value: &str) -> Result<Self, UsageKind>
        ensures { result ≡ ok_or (with_value self option value.now) BadValue }
    {
        let mut given = self;
        match option {
            RunOption::Every => given.every = Some(number_to(value, 1_099_511_627_776)?),
            RunOption::Mode if value == "inline" => given.mode = true,
            RunOption::Mode => return Err(UsageKind::BadValue),
            RunOption::Segment => given.segment = Some(number_within(value, 64, 65_536)?),
            RunOption::Pool => given.pool = Some(number_within(value, 1, 16_384)?),
            RunOption::Links if value == "memory" => given.links = true,
            RunOption::Links => return Err(UsageKind::BadValue),
        }
        Ok(given)
    }
}

// Whether the words behind the operand of `run` are its options.
pub(crate) fn check_options(words: &[Word]) -> Result<(), UsageKind>
    ensures { result_err result ≡ run_fault words.now }
{
    let mut given = Given::nothing();
    let mut rest = words;
    'options: while let [word, behind @ ..] = rest {
        let option = given.option_behind(word.text())?;
        let [value, behind @ ..] = behind else {
            return Err(UsageKind::MissingValue);
        };
        given = given.with(option, value.text())?;
        rest = behind;
    }
    Ok(())
}

// The options of a run, of which these values were found.
pub(crate) fn options_in(found: &ArgMatches<'_>) -> RunOptions
    ensures { result ≡ options_by (first_value (found_of found.now)) }
{
    RunOptions {
        every: number_in(found, "every", 1_099_511_627_776),
        segment: size_in(found, "segment", 64, 65_536).unwrap_or(32_768),
        pool: size_in(found, "pool", 1, 16_384).unwrap_or(2_048),
    }
}

// The number from 1 to the most that was found by the name.
fn number_in(found: &ArgMatches<'_>, name: &str, most: u64) -> Option<u64>
    ensures { result ≡ option_and_then (number_of most) (first_value (found_of found.now) name.now) }
{
    long_number_of(found.get_str(name)?.as_bytes(), most)
}

// The number from the least, which is not 0, to the most that was found by the name.
fn size_in(found: &ArgMatches<'_>, name: &str, least: u32, most: u32) -> Option<u32>
    ensures { result ≡ option_and_then (number_within least most) (first_value (found_of found.now) name.now) }
{
    number_within(found.get_str(name)?, least, most).ok()
}

// The option that the word names.
fn option_of(word: &str) -> Option<RunOption>
    ensures { result ≡ option_of word.now }
{
    if word == "--every" {
        Some(RunOption::Every)
    } else if word == "--mode" {
        Some(RunOption::Mode)
    } else if word == "--segment" {
        Some(RunOption::Segment)
    } else if word == "--pool" {
        Some(RunOption::Pool)
    } else if word == "--links" {
        Some(RunOption::Links)
    } else {
        None
    }
}

// The number from 1 to the most that the word spells in decimal.
fn number_to(word: &str, most: u64) -> Result<u64, UsageKind>
    ensures { result ≡ ok_or (number_of most word.now) BadValue }
{
    long_number_of(word.as_bytes(), most).ok_or(UsageKind::BadValue)
}

// The number from the least, which is not 0, to the most that the word spells in decimal.
fn number_within(word: &str, least: u32, most: u32) -> Result<u32, UsageKind>
    ensures { result ≡ ok_or (number_within least most word.now) BadValue }
{
    let number = number_of(word.as_bytes(), most).ok_or(UsageKind::BadValue)?;
    if number < least {
        return Err(UsageKind::BadValue);
    }
    Ok(number)
}

// The fault of a word behind the operand that is no option of the command.
pub(crate) fn stray_fault(word: &str) -> UsageKind
    ensures { result ≡ stray_fault word.now }
{
    if has_dash(word) {
        UsageKind::UnknownOption
    } else {
        UsageKind::ExtraWord
    }
}
