//! The numbers of a join's options.
ghost use Rattle.std.specs.Prelude.{◌≡◌, ◌≤◌, IfSome, option_map};
ghost use Rattle.clap.specs.Words.{first_value, found_of};
ghost use Rattle.hj_words.specs.Orders.{all_numbers, numbers_among};
ghost use Rattle.hj_words.specs.Ranges.{AreOptions};

use crate::values::{number_or, schedule};
use clap::ArgMatches;
use hj_base::Setup;

const MOST_EVENTS: u64 = 4_294_967_295;

/// The numbers of a join's options.
#[derive(Clone, Copy)]
pub struct JoinNumbers {
    pub setup: Setup,
    pub limit: u64,
    pub schedule: Option<u64>,
}

/// Reads the numbers of all options of `join`. None if one is out of its range, or a schedule goes with threads.
pub fn all_numbers(matches: &ArgMatches<'_>) -> Option<JoinNumbers>
    ensures value { result ≡ all_numbers (first_value (found_of matches.now)) }
    ensures range { IfSome result (λ numbers. AreOptions 0 numbers.setup numbers.limit) }
{
    numbers_among(
        matches,
        0,
        matches.get_str("threads"),
        matches.get_str("schedule"),
    )
}

/// Reads the numbers of a join's options, with these words for its threads, at least `fewest`, and for its schedule. None if
/// one is out of its range, or a schedule goes with threads.
#[tactic(auto, unfolding(crate::specs::Orders::join_numbers))]
pub fn numbers_among(
    matches: &ArgMatches<'_>,
    fewest: u64,
    threads: Option<&str>,
    seed: Option<&str>,
) -> Option<JoinNumbers>
    requires { fewest ≤ 4 }
    ensures value { result ≡ numbers_among fewest (option_map (λ w. w.now) threads.entry) (option_map (λ w. w.now) seed.entry) (first_value (found_of matches.now)) }
    ensures range { IfSome result (λ numbers. AreOptions fewest numbers.setup numbers.limit) }
{
    let cores = number_or(matches.get_str("cores"), 4, 1, 64)?;
    let threads = number_or(threads, 4, fewest, 64)?;
    let flight = number_or(matches.get_str("flight"), 32, 1, 256)?;
    let limit = number_or(matches.get_str("max-events"), MOST_EVENTS, 1, MOST_EVENTS)?;
    let schedule = schedule(seed, threads)?;
    let setup = Setup {
        cores: cores as u16,
        threads: threads as u16,
        flight: flight as u16,
    };
    Some(JoinNumbers {
        setup,
        limit,
        schedule,
    })
}
