//! What the words of the command line ask for.
#![tactic(auto)]

ghost use Rattle.std.specs.Prelude.{◌≡◌, ◌≤◌, Some, None, false, IfOk, IfSome, IfErr, map, string_bytes};
ghost use Rattle.command_words.specs.Words.{agenda_by, agenda_of, asked, command_app, option_rule, options_by, options_of};
ghost use Rattle.fd_language.specs.declared.TheConstants.{INFINITY as TOP};
ghost use Rattle.clap.specs.Words.{app_of, first_value, found_of, kind_of, rule_of};
ghost use Rattle.clap.specs.declared.error.kind.ErrorKind.TheVariants as kind;
ghost use Rattle.command_words.specs.declared.WordsFault.TheVariants as fault;

mod form;

use crate::form::{agenda, has_form, infinity, limit, size};
use clap::error::ErrorKind;
use clap::{Arg, ArgAction, ArgMatches, Command, Error};
use fd_language::INFINITY;
use std::alloc::{AllocError, Global};

/// What the words ask for.
#[derive(Clone, Copy, Debug, PartialEq, Eq)]
pub struct Options {
    /// How many reductions each query may take.
    pub steps: u64,
    /// How many answers each query may give, where that is limited.
    pub answers: Option<u64>,
    /// The order in which posted ranges are activated.
    pub agenda: AgendaName,
    /// The greatest number that a variable may have.
    pub infinity: u32,
    /// The size of the text that is made in place of the one that is read.
    pub generate: Option<u32>,
}

/// The order in which posted ranges that wait are activated.
#[derive(Clone, Copy, Debug, PartialEq, Eq)]
pub enum AgendaName {
    /// The one that waits longest first.
    Fifo,
    /// One of least cost first.
    Cheapest,
}

/// Why words ask for nothing.
#[derive(Clone, Copy, Debug, PartialEq, Eq, Drop, thiserror::Error)]
pub enum WordsFault {
    /// They aren't accepted.
    #[error("words that aren't accepted")]
    Usage,
    /// Memory was wanting.
    #[error("out of memory")]
    NoMemory,
}

impl From<AllocError> for WordsFault {
    ghost from_gives = { λ _ e. e ≡ fault.NoMemory };

    fn from(_error: AllocError) -> WordsFault {
        WordsFault::NoMemory
    }
}

impl From<Error> for WordsFault {
    ghost from_gives = { λ error e. kind_of error ≡ kind.OutOfMemory → e ≡ fault.NoMemory };

    fn from(error: Error) -> WordsFault {
        match error.kind() {
            ErrorKind::OutOfMemory => WordsFault::NoMemory,
            _ => WordsFault::Usage,
        }
    }
}

/// What is asked for without words.
const USUAL: Options = Options {
    steps: 1_000_000,
    answers: None,
    agenda: AgendaName::Fifo,
    infinity: INFINITY,
    generate: None,
};

/// An option that is spelled as its id behind `--`, and takes one value.
fn option<'a>(alloc: Global, id: &'a str) -> Arg<'a>
    ensures rule { rule_of result ≡ option_rule id.entry.now }
    ensures local { result.global ≡ false }
{
    Arg::new(alloc, id).long(id).action(ArgAction::Set)
}

/// The command that the words are read by.
fn command<'a>(alloc: Global) -> Result<Command<'a>, AllocError>
    ensures { IfOk result (λ c. app_of c ≡ command_app) }
{
    Command::new(alloc, "clpfd")
        .no_binary_name(true)
        .disable_help_flag(true)
        .disable_version_flag(true)
        .arg(option(alloc, "steps"))?
        .arg(option(alloc, "answers"))?
        .arg(option(alloc, "agenda"))?
        .arg(option(alloc, "infinity"))?
        .arg(option(alloc, "gen"))
}

/// The options by the values that were found.
fn found_options(matches: &ArgMatches<'_>) -> Options
    ensures asked { asked result ≡ options_by (first_value (found_of matches.now)) }
    ensures agenda { result.agenda ≡ agenda_by (first_value (found_of matches.now)) }
{
    Options {
        steps: matches
            .get_str("steps")
            .and_then(limit)
            .unwrap_or(USUAL.steps),
        answers: matches.get_str("answers").and_then(limit),
        agenda: matches
            .get_str("agenda")
            .and_then(agenda)
            .unwrap_or(USUAL.agenda),
        infinity: matches
            .get_str("infinity")
            .and_then(infinity)
            .unwrap_or(USUAL.infinity),
        generate: matches.get_str("gen").and_then(size),
    }
}

/// Reads the words of the command line, without the program's own name.
///
/// They are pairs of an option's name and its value, in any order; each option stands at most once, and one that is left out has
/// its usual value. `--steps` and `--answers` have a number up to 1,000,000,000,000, `--infinity` has one up to the greatest of the
/// universe, `--gen` has one from 4 to 12, and `--agenda` is `fifo` or `cheapest`.
pub fn read_words(alloc: Global, words: &[String]) -> Result<Options, WordsFault>
    ensures accepted { IfOk result (λ o. options_of (map string_bytes words.now) ≡ Some (asked o)) }
    ensures agenda { IfOk result (λ o. o.agenda ≡ agenda_of (map string_bytes words.now)) }
    ensures refused { IfErr result (λ e.
        e ≡ fault.Usage → options_of (map string_bytes words.now) ≡ None) }
    ensures answers { IfOk result (λ o. IfSome o.answers (λ n. (1 ≤ n) × (n ≤ 1000000000000))) }
    ensures infinity { IfOk result (λ o. (1 ≤ o.infinity) × (o.infinity ≤ TOP)) }
    ensures generate { IfOk result (λ o. IfSome o.generate (λ n. (4 ≤ n) × (n ≤ 12))) }
{
    if words.is_empty() {
        return Ok(USUAL);
    }
    if !has_form(words) {
        return Err(WordsFault::Usage);
    }
    let matches = command(alloc)?.try_get_matches_from(words)?;
    Ok(found_options(&matches))
}
