//! Words of the command line.

use crate::texts::same;
use hj_base::{Name, Setup};
use hj_words::{Order, read_words};
use std::alloc::{AllocError, Global};
use std::process::Abort;

/// Splits a line into its words, which blanks separate; `.` stands for an empty word.
fn split(rt: &impl Abort, alloc: Global, line: &str) -> Vec<String> {
    let mut words = Vec::new(alloc);
    for word in line.split(' ') {
        let word = if word == "." { "" } else { word };
        let word = String::from_str(alloc, word).expect(rt, "memory");
        words.push(word).expect(rt, "memory");
    }
    words
}

/// Lines that spell no order.
const REFUSED: &str = "\
.
Equi 1 a b
equi 0 a b
equi 1000001 a b
equi 1 a
equi 1 a b c
equi -1 a b
equi +1 a b
equi 1 - b
equi 1 . b
equi 1 a -b
equi --w=1 a b
equi 000000000000000000001 a b
equi 99999999999999999999 a b
join --cores 65 q a b
join --cores 0 q a b
join --cores +2 q a b
join --cores -1 q a b
join --cores= q a b
join --cores - q a b
join --cores -- q a b
join --cores
join --core 2 q a b
join --cores 2 --cores 2 q a b
join --cores=2 q a b --cores 2
join --threads 65 q a b
join --flight 0 q a b
join --flight 257 q a b
join --max-events 0 q a b
join --max-events 4294967296 q a b
join --schedule 3 q a b
join --schedule 3 --threads 1 q a b
join --schedule 18446744073709551616 --threads 0 q a b
join -- --cores 2 q a b
join -c q a b
join q a
join q a -- -
join q --cores a b
check
check -q
check q --help
check -h
gen 100001 1 0 1
gen 1 0 0 1
gen 1 1000000001 0 1
gen 1 1 18446744073709551616 1
gen 1 1 1
raw --threads 0 q a b
raw --threads 65 q a b
raw --schedule 1 q a b
raw --schedule 1 --threads 0 q a b
raw q a
raw q a b c
trace --threads 0 q a b
trace --cores 0 q a b
trace --schedule x q a b
trace q a b c
verify q a b t
verify q a b - o
verify q a b t .
verify q a b t o p
verify --schedule 1 q a b t o
verify --threads 0 q a b t o
twice q a b r
twice q a b . c
twice q a b r -
twice q a b r c d
twice --schedule 1 q a b r c
twice --threads 65 q a b r c";

/// Names the command of an order.
fn command(order: &Order) -> &'static str {
    match order {
        Order::Equi { .. } => "equi",
        Order::Join { .. } => "join",
        Order::Check { .. } => "check",
        Order::Gen { .. } => "gen",
        Order::Raw { .. } => "raw",
        Order::Trace { .. } => "trace",
        Order::Verify { .. } => "verify",
        Order::Twice { .. } => "twice",
    }
}

/// Writes the numbers of an order, with each that may be left out.
fn numbers(alloc: Global, order: &Order) -> Result<String, AllocError> {
    match order {
        Order::Equi { w, .. } => format!(in alloc; " {w}"),
        Order::Join {
            setup,
            limit,
            schedule,
            ..
        }
        | Order::Twice {
            setup,
            limit,
            schedule,
            ..
        } => {
            let (setup, seed) = (told_setup(alloc, setup)?, schedule.unwrap_or(0));
            format!(in alloc; " {setup} {limit} {seed}")
        }
        Order::Check { .. } => Ok(String::new(alloc)),
        Order::Gen { n, keys, seed, w } => format!(in alloc; " {n} {keys} {seed} {w}"),
        Order::Raw { setup, limit, .. } => {
            let setup = told_setup(alloc, setup)?;
            format!(in alloc; " {setup} {limit}")
        }
        Order::Trace {
            cores,
            flight,
            limit,
            schedule,
            ..
        } => {
            let seed = schedule.unwrap_or(0);
            format!(in alloc; " {cores} {flight} {limit} {seed}")
        }
        Order::Verify {
            cores,
            flight,
            limit,
            ..
        } => format!(in alloc; " {cores} {flight} {limit}"),
    }
}

fn told_setup(alloc: Global, setup: &Setup) -> Result<String, AllocError> {
    let (cores, threads, flight) = (setup.cores, setup.threads, setup.flight);
    format!(in alloc; "{cores} {threads} {flight}")
}

/// Writes the names of an order.
fn names(alloc: Global, order: &Order) -> Result<String, AllocError> {
    match order {
        Order::Equi { left, right, .. } => listed(alloc, &[left, right]),
        Order::Join {
            query,
            left,
            right,
            ..
        }
        | Order::Raw {
            query,
            left,
            right,
            ..
        }
        | Order::Trace {
            query,
            left,
            right,
            ..
        } => listed(alloc, &[query, left, right]),
        Order::Check { query } => listed(alloc, &[query]),
        Order::Gen { .. } => Ok(String::new(alloc)),
        Order::Verify {
            query,
            left,
            right,
            trace,
            output,
            ..
        } => listed(alloc, &[query, left, right, trace, output]),
        Order::Twice {
            query,
            left,
            right,
            second,
            third,
            ..
        } => listed(alloc, &[query, left, right, second, third]),
    }
}

/// Writes names, with a blank before each.
fn listed(alloc: Global, names: &[&Name]) -> Result<String, AllocError> {
    let mut list = String::new(alloc);
    for name in names {
        list.push(' ')?;
        list.push_str(name.text())?;
    }
    Ok(list)
}

/// Writes an order as a line that spells it, with each number that may be left out.
fn told(alloc: Global, order: &Order) -> Result<String, AllocError> {
    let (command, numbers, names) = (command(order), numbers(alloc, order)?, names(alloc, order)?);
    format!(in alloc; "{command}{numbers}{names}")
}

/// Tells what words spell: an order, or why there is none.
fn judgement(rt: &impl Abort, alloc: Global, words: &[String]) -> String {
    match read_words(alloc, words) {
        Ok(order) => told(alloc, &order).expect(rt, "memory"),
        Err(usage) => usage.to_string(alloc).expect(rt, "memory"),
    }
}

/// Asserts what the words of a line spell.
fn spells(rt: &impl Abort, alloc: Global, words: &str, want: &str) {
    let found = judgement(rt, alloc, &split(rt, alloc, words));
    same(rt, words, found.as_bytes(), want.as_bytes());
}

#[test]
fn refuses_what_spells_no_order(rt: HostRuntime) {
    for words in REFUSED.lines() {
        spells(&rt, rt.alloc(), words, "usage");
    }
    let none = judgement(&rt, rt.alloc(), &[]);
    assert_eq!(rt; none.as_str(), "usage");
}

/// Lines of words, and what each spells: for a join first cores, threads, flight, most events and seed, as far as it has them.
const ORDERS: &str = "\
join q a b | join 4 4 32 4294967295 0 q a b
join --cores=2 -- q -a b | join 2 4 32 4294967295 0 q -a b
join q --cores 1 a b --threads=0 | join 1 0 32 4294967295 0 q a b
join q a b -- | join 4 4 32 4294967295 0 q a b
join -- -- a --cores | join 4 4 32 4294967295 0 -- a --cores
join --schedule 18446744073709551615 --threads 00 --max-events 1 --flight 256 q a= b | \
join 4 0 256 1 18446744073709551615 q a= b
equi 00000000000001000000 a -- -b | equi 1000000 a -b
check q- | check q-
gen 0 1000000000 18446744073709551615 1 | gen 0 1000000000 18446744073709551615 1
raw q a b | raw 4 4 32 4294967295 q a b
raw --cores=64 q --threads 1 a --max-events 7 --flight=1 b | raw 64 1 1 7 q a b
trace q a b | trace 4 32 4294967295 0 q a b
trace --schedule 5 --cores 2 q a b --flight 1 --max-events 9 | trace 2 1 9 5 q a b
verify q a b t o | verify 4 32 4294967295 q a b t o
verify q a b -- -t o | verify 4 32 4294967295 q a b -t o
verify --max-events 9 --flight=256 q a b t o --cores 1 | verify 1 256 9 q a b t o
twice q a b r c | twice 4 4 32 4294967295 0 q a b r c
twice --schedule 3 q --threads=0 a b --cores 1 r --flight 2 c --max-events 1 | twice 1 0 2 1 3 q a b r c";

#[test]
fn reads_orders(rt: HostRuntime) {
    for line in ORDERS.lines() {
        let (words, order) = line.split_once(" | ").expect(&rt, "a case");
        spells(&rt, rt.alloc(), words, order);
    }
}
