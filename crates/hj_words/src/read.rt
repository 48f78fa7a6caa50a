ghost use Rattle.std.specs.Prelude.{◌≡◌, IfOk, IfErr, IfSome, Some, None, map, option_map, string_bytes};
ghost use Rattle.clap.specs.Words.{first_value, found_of};
ghost use Rattle.hj_words.specs.Orders.{check_of, equi_of, gen_of, gen_order, join_of, order_among, order_of, raw_of, trace_of, twice_of, verify_of};
ghost use Rattle.hj_words.specs.Ranges.{IsInRange};
ghost use Rattle.hj_words.specs.Reading.{ReadsOrder};

use crate::arguments::values_after;
use crate::names::{named, names_among};
use crate::numbers::{all_numbers, numbers_among};
use crate::order::{Order, Usage};
use crate::values::number;
use crate::verb::Verb;
use clap::ArgMatches;
use std::alloc::Global;

const MOST_ROWS: u64 = 1_000_000;

/// Reads the order that the words after the program's name spell. `Words` only if they spell none.
pub fn read_words(alloc: Global, words: &[String]) -> Result<Order, Usage>
    ensures ok { IfOk result (λ order. order_of (map string_bytes words.now) ≡ Some order) }
    ensures ranges { IfOk result IsInRange }
    ensures err { IfErr result (λ fault. fault ≡ Usage.Words → order_of (map string_bytes words.now) ≡ None) }
{
    let [command, rest @ ..] = words else {
        return Err(Usage::Words);
    };
    let Some(verb) = Verb::of(command.as_str()) else {
        return Err(Usage::Words);
    };
    let matches = values_after(alloc, verb, rest)?;
    read_order(alloc, verb, &matches)
}

/// Reads the order of a command whose words gave these values.
fn read_order(alloc: Global, verb: Verb, matches: &ArgMatches<'_>) -> Result<Order, Usage>
    ensures { ReadsOrder (order_among verb (first_value (found_of matches.now))) result }
{
    match verb {
        Verb::Equi => read_equi(alloc, matches),
        Verb::Join => read_join(alloc, matches),
        Verb::Check => read_check(alloc, matches),
        Verb::Gen => read_gen(matches),
        Verb::Raw => read_raw(alloc, matches),
        Verb::Trace => read_trace(alloc, matches),
        Verb::Verify => read_verify(alloc, matches),
        Verb::Twice => read_twice(alloc, matches),
    }
}

/// Reads the order of `equi`.
fn read_equi(alloc: Global, matches: &ArgMatches<'_>) -> Result<Order, Usage>
    ensures { ReadsOrder (equi_of (first_value (found_of matches.now))) result }
{
    let w = number(matches.get_str("w"), 1, MOST_ROWS).ok_or(Usage::Words)?;
    let left = named(alloc, matches.get_str("left"))?;
    let right = named(alloc, matches.get_str("right"))?;
    Ok(Order::Equi {
        w: w as u32,
        left,
        right,
    })
}

/// Reads the order of `join`.
fn read_join(alloc: Global, matches: &ArgMatches<'_>) -> Result<Order, Usage>
    ensures { ReadsOrder (join_of (first_value (found_of matches.now))) result }
{
    let numbers = all_numbers(matches).ok_or(Usage::Words)?;
    let names = names_among(alloc, matches)?;
    Ok(Order::Join {
        setup: numbers.setup,
        limit: numbers.limit,
        schedule: numbers.schedule,
        query: names.query,
        left: names.left,
        right: names.right,
    })
}

/// Reads the order of `check`.
fn read_check(alloc: Global, matches: &ArgMatches<'_>) -> Result<Order, Usage>
    ensures { ReadsOrder (check_of (first_value (found_of matches.now))) result }
{
    let query = named(alloc, matches.get_str("query"))?;
    Ok(Order::Check { query })
}

/// Reads the order of `gen`.
fn read_gen(matches: &ArgMatches<'_>) -> Result<Order, Usage>
    ensures { ReadsOrder (gen_of (first_value (found_of matches.now))) result }
{
    gen_order(
        matches.get_str("n"),
        matches.get_str("keys"),
        matches.get_str("seed"),
        matches.get_str("w"),
    )
    .ok_or(Usage::Words)
}

/// Makes the order of the words of `gen`.
#[tactic(auto, unfolding(crate::specs::Orders::gen_order))]
fn gen_order(
    n: Option<&str>,
    keys: Option<&str>,
    seed: Option<&str>,
    w: Option<&str>,
) -> Option<Order>
    ensures order { result ≡ gen_order (option_map (λ w. w.now) n.entry) (option_map (λ w. w.now) keys.entry)
        (option_map (λ w. w.now) seed.entry) (option_map (λ w. w.now) w.entry) }
    ensures ranges { IfSome result IsInRange }
{
    let n = number(n, 0, 100_000)?;
    let keys = number(keys, 1, 1_000_000_000)?;
    let seed = number(seed, 0, u64::MAX)?;
    let w = number(w, 1, MOST_ROWS)?;
    Some(Order::Gen {
        n: n as u32,
        keys: keys as u32,
        seed,
        w: w as u32,
    })
}

/// Reads the order of `raw`.
fn read_raw(alloc: Global, matches: &ArgMatches<'_>) -> Result<Order, Usage>
    ensures { ReadsOrder (raw_of (first_value (found_of matches.now))) result }
{
    let numbers = numbers_among(matches, 1, matches.get_str("threads"), None).ok_or(Usage::Words)?;
    let names = names_among(alloc, matches)?;
    Ok(Order::Raw {
        setup: numbers.setup,
        limit: numbers.limit,
        query: names.query,
        left: names.left,
        right: names.right,
    })
}

/// Reads the order of `trace`.
fn read_trace(alloc: Global, matches: &ArgMatches<'_>) -> Result<Order, Usage>
    ensures { ReadsOrder (trace_of (first_value (found_of matches.now))) result }
{
    let numbers = numbers_among(matches, 0, Some("0"), matches.get_str("schedule")).ok_or(
        Usage::Words,
    )?;
    let names = names_among(alloc, matches)?;
    Ok(Order::Trace {
        cores: numbers.setup.cores,
        flight: numbers.setup.flight,
        limit: numbers.limit,
        schedule: numbers.schedule,
        query: names.query,
        left: names.left,
        right: names.right,
    })
}

/// Reads the order of `verify`.
fn read_verify(alloc: Global, matches: &ArgMatches<'_>) -> Result<Order, Usage>
    ensures { ReadsOrder (verify_of (first_value (found_of matches.now))) result }
{
    let trace = named(alloc, matches.get_str("trace"))?;
    let output = named(alloc, matches.get_str("output"))?;
    let numbers = numbers_among(matches, 0, Some("0"), None).ok_or(Usage::Words)?;
    let names = names_among(alloc, matches)?;
    Ok(Order::Verify {
        cores: numbers.setup.cores,
        flight: numbers.setup.flight,
        limit: numbers.limit,
        query: names.query,
        left: names.left,
        right: names.right,
        trace,
        output,
    })
}

/// Reads the order of `twice`.
fn read_twice(alloc: Global, matches: &ArgMatches<'_>) -> Result<Order, Usage>
    ensures { ReadsOrder (twice_of (first_value (found_of matches.now))) result }
{
    let second = named(alloc, matches.get_str("second"))?;
    let third = named(alloc, matches.get_str("third"))?;
    let numbers = all_numbers(matches).ok_or(Usage::Words)?;
    let names = names_among(alloc, matches)?;
    Ok(Order::Twice {
        setup: numbers.setup,
        limit: numbers.limit,
        schedule: numbers.schedule,
        query: names.query,
        left: names.left,
        right: names.right,
        second,
        third,
    })
}
