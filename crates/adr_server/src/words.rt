//! The command line's grammar.
ghost use Rattle.std.specs.Prelude.{◌≡◌, ◌<◌, ◌≤◌, ◌^◌, ◌∷◌, [], ℕ, List, Some, false, codes, map, option_map, IfOk, string_bytes};
ghost use Rattle.std.specs.Str.Parse.{IsNumeral, digits_value, without_leading_plus};
ghost use Rattle.clap.specs.Words.{FailsBy, app_of, fault_of, found_of, rows_of, rule_of, subcommand_rows_of, with_subcommand};
ghost use Rattle.clap.specs.declared.builder.command.Command.TheViews.{out-Command};
ghost use Rattle.adr_server.specs.Grammar.{ByTheGrammar, Places, adr_grammar, bare_grammar, command_grammar, count_in, count_rule, is_fan_in, tie_in, tie_named, tie_rule};
ghost use Rattle.adr_server.specs.Task.{count_of_job, is_fan_job, tie_of_job, IsAsked, IsJob};

use crate::Job;
use crate::release::RELEASE;
use adr_model::Tie;
use clap::{Arg, ArgMatches, Command, Error, value_parser};
use std::alloc::{AllocError, Global};

/// The words that name a rule for ties.
static TIES: [&str; 2] = ["newest", "latest-start"];

/// The end of the help: a line for each command.
const EXAMPLES: &str = "Examples:
  adr run < examples/first.adr
  adr fan --readers 4 < examples/first.adr";

/// Reads the words after the program's name.
///
/// # Errors
///
/// The `clap` error holds the text to print and the status to end with: a usage error, or the help or the version that
/// was asked for.
pub fn job(alloc: Global, words: Vec<String>) -> Result<Job, Error>
    ensures job { IfOk result IsJob }

    // An `Ok` comes only where the grammar has no fault in the words, and is the job, with the workers or readers and
    // the rule for ties, that they ask for; an `Err` is one of those faults, or want of memory.
    ensures asked { ByTheGrammar (λ adr. FailsBy (fault_of adr (map string_bytes words.items)) result
        × IfOk result (IsAsked adr (map string_bytes words.items))) }
{
    let adr = grammar(alloc)?;
    let matches = adr.try_get_matches_from(words.as_slice())?;
    let count = count_asked(&matches);
    let tie = tie_of(&matches);
    let is_fan = is_fan(&matches);
    Ok(job_with(is_fan, count, tie))
}

/// The job with so many workers or, where readers are to answer, readers.
fn job_with(is_fan: bool, count: usize, tie: Tie) -> Job
    ensures fan { is_fan_job result ≡ is_fan }
    ensures count { count_of_job result ≡ count }
    ensures tie { tie_of_job result ≡ tie }
{
    if is_fan {
        Job::Fan(count, tie)
    } else {
        Job::Run(count, tie)
    }
}

/// The subcommand that was named, and what follows it.
fn entered<'m, 'a>(matches: &'m ArgMatches<'a>) -> Option<(&'a str, &'m ArgMatches<'a>)>
    ensures { option_map (λ own. (own.0.now, rows_of (found_of own.1.now))) result ≡ subcommand_rows_of matches.now }
{
    matches.subcommand()
}

/// Whether readers are to answer the script.
fn is_fan(matches: &ArgMatches) -> bool
    ensures { result ≡ is_fan_in (subcommand_rows_of matches.now) }
{
    match entered(matches) {
        Some((name, _)) => name == "fan",
        None => false,
    }
}

/// The number of workers or readers, which is 1 to 64, and one where none is named.
fn count_asked(matches: &ArgMatches) -> usize
    ensures bounds { (1 ≤ result) × (result ≤ 64) }
    ensures asked { (text : List ℕ) → count_in (subcommand_rows_of matches.now) ≡ Some text
        → let number = without_leading_plus text in IsNumeral 10 number
        → 1 ≤ digits_value 10 number → digits_value 10 number ≤ 64 → result ≡ digits_value 10 number }
{
    usize::from(count_of(matches).unwrap_or(1)).clamp(1, 64)
}

/// The number of workers or, of `fan`, of readers.
fn count_of(matches: &ArgMatches) -> Option<u8>
    ensures { (text : List ℕ) → count_in (subcommand_rows_of matches.now) ≡ Some text
        → let number = without_leading_plus text in IsNumeral 10 number → digits_value 10 number < 2 ^ 8
        → result ≡ Some (digits_value 10 number) }
{
    let (name, own) = entered(matches)?;
    if name == "fan" {
        own.get_one("readers")
    } else {
        own.get_one("workers")
    }
}

/// The rule for ties.
fn tie_of(matches: &ArgMatches) -> Tie
    ensures { result ≡ tie_named (tie_in (subcommand_rows_of matches.now)) }
{
    if tie_word(matches) == Some("latest-start") {
        Tie::LatestStart
    } else {
        Tie::Newest
    }
}

/// The word for it.
fn tie_word<'a>(matches: &ArgMatches<'a>) -> Option<&'a str>
    ensures { option_map (λ word. word.now) result ≡ tie_in (subcommand_rows_of matches.now) }
{
    let entered = matches.subcommand()?;
    entered.1.get_str("tie")
}

/// The words of a command: its name and what it does, its option for a number and what that counts.
#[derive(Clone, Copy)]
struct CommandWords<'a> {
    name: &'a str,
    about: &'a str,
    count: &'a str,
    count_help: &'a str,
}

/// What `adr` understands.
fn grammar<'a>(alloc: Global) -> Result<Command<'a>, AllocError>
    ensures { IfOk result (λ adr. (places : Places) × (app_of adr ≡ adr_grammar places)) }
{
    let ties = TIES.as_slice();
    let run = CommandWords {
        name: "run",
        about: "Answers a script: adr run < SCRIPT",
        count: "workers",
        count_help: "How many workers share the repair of timelines, 1 to 64; no reply depends on it",
    };
    let fan = CommandWords {
        name: "fan",
        about: "Has many readers answer a script: adr fan < SCRIPT",
        count: "readers",
        count_help: "How many readers answer each query, 1 to 64",
    };
    let adr = with_command(alloc, bare(alloc)?, run, ties)?;
    with_command(alloc, adr, fan, ties)
}

/// `adr` without its commands.
fn bare<'a>(alloc: Global) -> Result<Command<'a>, AllocError>
    ensures { IfOk result (λ adr. app_of adr ≡ bare_grammar) }
{
    let adr = Command::new(alloc, "adr")
        .about("Resolves events to timelines")
        .version(RELEASE)
        .after_help(EXAMPLES)
        .bin_name("adr")?;
    Ok(adr.no_binary_name(true).subcommand_required(true))
}

/// The program with one command more, as [`command`] makes it.
fn with_command<'a>(
    alloc: Global,
    adr: Command<'a>,
    words: CommandWords<'a>,
    ties: &'a [&'a str],
) -> Result<Command<'a>, AllocError>
    ensures { IfOk result (λ more. app_of more ≡ with_subcommand (app_of adr.entry) (command_grammar words.entry.name.now words.entry.count.now ties.entry).top) }
{
    let own = command(alloc, words, ties)?;
    adr.subcommand(own)
}

/// A command of that name, with an option for a number and one for the rule for ties.
fn command<'a>(
    alloc: Global,
    words: CommandWords<'a>,
    ties: &'a [&'a str],
) -> Result<Command<'a>, AllocError>
    ensures grammar { IfOk result (λ command. app_of command ≡ command_grammar words.entry.name.now words.entry.count.now ties.entry) }
    ensures local { IfOk result (λ command. (out-Command command).has_globals ≡ false) }
{
    Command::new(alloc, words.name)
        .about(words.about)
        .arg(count_option(alloc, words.count, words.count_help))?
        .arg(tie_option(alloc, ties))
}

fn count_option<'a>(alloc: Global, name: &'a str, help: &'a str) -> Arg<'a>
    ensures rule { rule_of result ≡ count_rule name.now }
    ensures local { result.global ≡ false }
{
    Arg::new(alloc, name)
        .long(name)
        .value_name("N")
        .help(help)
        .value_parser(value_parser!(u8).range(1..=64))
        .default_value("1")
}

fn tie_option<'a>(alloc: Global, ties: &'a [&'a str]) -> Arg<'a>
    ensures rule { rule_of result ≡ tie_rule ties.entry }
    ensures local { result.global ≡ false }
{
    Arg::new(alloc, "tie")
        .long("tie")
        .value_name("RULE")
        .help("Of two intervals of one priority the later written governs, or the later to start")
        .value_parser(ties)
        .default_value("newest")
}
