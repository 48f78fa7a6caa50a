//! The names of a join's query and of its streams.
ghost use Rattle.std.specs.Prelude.{◌≡◌, IfOk, IfErr, Some, None, option_map};
ghost use Rattle.clap.specs.Words.{first_value, found_of};
ghost use Rattle.hj_words.specs.Orders.{name_in, names_among};

use crate::order::Usage;
use crate::values::name;
use clap::ArgMatches;
use hj_base::Name;
use std::alloc::Global;

/// The names of a join's query and of its streams.
#[derive(Drop)]
pub struct JoinNames {
    pub query: Name,
    pub left: Name,
    pub right: Name,
}

/// Reads the names of a join's query and of its streams. `Words` if one of them is missing, empty or `-`.
#[tactic(auto, unfolding(crate::specs::Orders::names_in))]
pub fn names_among(alloc: Global, matches: &ArgMatches<'_>) -> Result<JoinNames, Usage>
    ensures ok { IfOk result (λ names. names_among (first_value (found_of matches.now)) ≡ Some names) }
    ensures err { IfErr result (λ fault. fault ≡ Usage.Words → names_among (first_value (found_of matches.now)) ≡ None) }
{
    let query = named(alloc, matches.get_str("query"))?;
    let left = named(alloc, matches.get_str("left"))?;
    let right = named(alloc, matches.get_str("right"))?;
    Ok(JoinNames { query, left, right })
}

/// Reads the name of a word. `Words` if there is no word, or it is empty or `-`.
pub fn named(alloc: Global, word: Option<&str>) -> Result<Name, Usage>
    ensures ok { IfOk result (λ name. name_in (option_map (λ w. w.now) word.entry) ≡ Some name) }
    ensures err { IfErr result (λ fault. fault ≡ Usage.Words
        → name_in (option_map (λ w. w.now) word.entry) ≡ None) }
{
    name(alloc, word)?.ok_or(Usage::Words)
}
