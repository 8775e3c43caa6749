// The values of an accepted command, which the crate `clap` takes out of its words.
//
// To clap each command is a simple one without subcommands: an operand is a positional, and an
// option has one value. It is given the words behind the command's name.
// The grammar alone refuses words: of accepted ones clap refuses none but for want of memory, and finds just
// their values, as `Finds` says.
ghost use Rattle.std.specs.Prelude.{◌≡◌, [], IfOk, false};
ghost use Rattle.clap.specs.Words.{app_of, rule_of};
ghost use Rattle.clap.specs.Walk.{texts};
ghost use Rattle.job_text.specs.Matches.{Finds, bare, operand_rule, option_rule, run_values, script_values, lines_values};
ghost use Rattle.job_text.specs.Words.{lines_fault, no_options_fault, operand_fault, run_fault};

use clap::{Arg, ArgAction, ArgMatches, Command, Error};
use flow_defs::Word;
use std::alloc::{AllocError, Global};

// The texts of the words.
pub(crate) fn texts_of<'w>(alloc: Global, words: &'w [Word]) -> Result<Vec<&'w str>, AllocError>
    ensures { IfOk result (λ list. texts list.items ≡ words.now) }
{
    let mut texts = Vec::new(alloc);
    for word in words {
        texts.push(word.text())?;
    }
    Ok(texts)
}

// What the words behind `run` give.
pub(crate) fn run<'a>(alloc: Global, words: &'a [&'a str]) -> Result<ArgMatches<'a>, Error>
    ensures { Finds (operand_fault run_fault (texts words.now)) (run_values (texts words.now)) result }
{
    let command = bare(alloc, "run")
        .arg(operand(alloc, "job"))?
        .arg(option(alloc, "every"))?
        .arg(option(alloc, "mode"))?
        .arg(option(alloc, "segment"))?
        .arg(option(alloc, "pool"))?
        .arg(option(alloc, "links"))?;
    command.try_get_matches_from(words)
}

// What the words behind `script` give.
pub(crate) fn script<'a>(alloc: Global, words: &'a [&'a str]) -> Result<ArgMatches<'a>, Error>
    ensures { Finds (operand_fault no_options_fault (texts words.now)) (script_values (texts words.now)) result }
{
    let command = bare(alloc, "script").arg(operand(alloc, "file"))?;
    command.try_get_matches_from(words)
}

// What the words behind `gen` or `selfrun`, which is the name, give.
pub(crate) fn lines<'a>(
    alloc: Global,
    name: &'a str,
    words: &'a [&'a str],
) -> Result<ArgMatches<'a>, Error>
    ensures { Finds (lines_fault (texts words.now)) (lines_values (texts words.now)) result }
{
    let command = bare(alloc, name)
        .arg(operand(alloc, "lines"))?
        .arg(operand(alloc, "seed"))?;
    command.try_get_matches_from(words)
}

// What the words behind `inspect` give, which is nothing.
pub(crate) fn inspect<'a>(alloc: Global, words: &'a [&'a str]) -> Result<ArgMatches<'a>, Error>
    ensures { Finds (no_options_fault (texts words.now)) [] result }
{
    bare(alloc, "inspect").try_get_matches_from(words)
}

// A command that has no help or version words. Its own name is not among the words.
fn bare<'a>(alloc: Global, name: &'a str) -> Command<'a>
    ensures { app_of result ≡ bare name.entry.now }
{
    Command::new(alloc, name)
        .no_binary_name(true)
        .disable_help_flag(true)
        .disable_version_flag(true)
}

// An operand is a positional.
fn operand<'a>(alloc: Global, name: &'a str) -> Arg<'a>
    ensures rule { rule_of result ≡ operand_rule name.entry.now }
    ensures own { result.global ≡ false }
{
    Arg::new(alloc, name).action(ArgAction::Set).required(true)
}

// An option has one value.
fn option<'a>(alloc: Global, name: &'a str) -> Arg<'a>
    ensures rule { rule_of result ≡ option_rule name.entry.now }
    ensures own { result.global ≡ false }
{
    Arg::new(alloc, name).action(ArgAction::Set).long(name)
}
