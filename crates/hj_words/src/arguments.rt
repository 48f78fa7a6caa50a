//! What `clap` makes of the words after a command.
ghost use Rattle.std.specs.Prelude.{◌≡◌, IfOk, IfErr, None, false, map, string_bytes};
ghost use Rattle.std.specs.List.{fold};
ghost use Rattle.clap.specs.Simple.{with_rule};
ghost use Rattle.clap.specs.Words.{app_of, rule_of};
ghost use Rattle.hj_words.specs.Arguments.{Accepts, Carries, Refuses, bare_app, command_app, rule_at};
ghost use Rattle.hj_words.specs.Values.{given};
ghost use Rattle.hj_words.specs.Verbs.{names_of, options_of};

use crate::order::Usage;
use crate::verb::Verb;
use clap::{Arg, ArgAction, ArgMatches, Command};
use std::alloc::{AllocError, Global};

/// Where a value stands among the words.
#[derive(Clone, Copy)]
enum ValuePlace {
    /// Anywhere, behind its name: `--name VALUE` or `--name=VALUE`.
    Free,
    /// In its turn among the words without a name.
    InTurn,
}

/// Reads the values of the words after a command.
pub fn values_after<'a>(
    alloc: Global,
    verb: Verb,
    words: &'a [String],
) -> Result<ArgMatches<'a>, Usage>
    ensures ok { IfOk result (Carries (options_of verb) (names_of verb) (map string_bytes words.entry.now)) }
    ensures err { IfErr result (λ fault. fault ≡ Usage.Words
        → given (options_of verb) (names_of verb) (map string_bytes words.entry.now) ≡ None) }
{
    matches(alloc, verb.title(), verb.options(), verb.names(), words)
}

/// Reads the values of the words after a command with these options, and these names for words by their place.
fn matches<'a>(
    alloc: Global,
    name: &'a str,
    options: &[&'a str],
    names: &[&'a str],
    words: &'a [String],
) -> Result<ArgMatches<'a>, Usage>
    ensures ok { IfOk result (Accepts (command_app name.entry.now (map (λ o. o.now) options.now)
        (map (λ n. n.now) names.now)) (map string_bytes words.entry.now)) }
    ensures err { IfErr result (λ fault. fault ≡ Usage.Words
        → Refuses (command_app name.entry.now (map (λ o. o.now) options.now) (map (λ n. n.now) names.now))
        (map string_bytes words.entry.now)) }
{
    let command = with_args(alloc, bare(alloc, name), ValuePlace::Free, options)?;
    let command = with_args(alloc, command, ValuePlace::InTurn, names)?;
    Ok(command.try_get_matches_from(words)?)
}

/// Adds arguments with these names to a command, after its own.
fn with_args<'a>(
    alloc: Global,
    mut command: Command<'a>,
    place: ValuePlace,
    names: &[&'a str],
) -> Result<Command<'a>, AllocError>
    ensures { IfOk result (λ new. app_of new
        ≡ fold with_rule (app_of command.entry) (map (rule_at place) (map (λ n. n.now) names.now))) }
{
    for name in names {
        command = command.arg(argument(alloc, place, name))?;
    }
    Ok(command)
}

/// Makes a command that reads every word, and has no word of its own.
fn bare<'a>(alloc: Global, name: &'a str) -> Command<'a>
    ensures { app_of result ≡ bare_app name.entry.now }
{
    Command::new(alloc, name)
        .no_binary_name(true)
        .disable_help_flag(true)
}

/// Makes the argument of a name.
fn argument<'a>(alloc: Global, place: ValuePlace, name: &'a str) -> Arg<'a>
    ensures rule { rule_of result ≡ rule_at place name.entry.now }
    ensures local { result.global ≡ false }
{
    let argument = Arg::new(alloc, name).action(ArgAction::Set);
    match place {
        ValuePlace::Free => argument.long(name),
        ValuePlace::InTurn => argument,
    }
}
