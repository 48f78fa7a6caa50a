ghost use Rattle.std.specs.Prelude.{◌≡◌};
ghost use Rattle.hj_base.specs.declared.numbers.Side.TheVariants as sides;

use crate::lines::{halves, numbers_of, same, shows, words};
use crate::rows::sent;
use hj_base::{EventNo, Side};
use hj_columns::ColumnStore;
use hj_eval::{QueryJoin, ReadyQuery, StorePlan, filters, plan};
use hj_index::{HashStore, ListStore, OrderedStore};
use hj_msg::{Partners, Store};
use hj_query::{Query, parse};
use hj_value::{Field, Row, SharedRow, Text};
use std::alloc::Global;
use std::process::Abort;

const OF_NUMBERS: &str =
    "left (ts int, k int) right (ts int, k int) window left rows 1 window right rows 1 on l.k = r.k";

const OF_TEXTS: &str =
    "left (ts int, k text) right (ts int, k text) window left rows 1 window right rows 1 on l.k = r.k";

const OF_NEAR_NUMBERS: &str =
    "left (ts int, k int) right (ts int, k int) window left rows 1 window right rows 1 on l.k within 10 of r.k";

fn query(rt: &impl Abort, alloc: Global, text: &str) -> Query {
    parse(alloc, text.as_bytes()).expect(rt, "a query")
}

fn ready<'q>(rt: &impl Abort, alloc: Global, query: &'q Query) -> ReadyQuery<'q>
    ensures { result ≡ query.now }
{
    ReadyQuery::new(alloc, query).expect(rt, "memory")
}

/// Makes a row of a time and a value: a text in quotes, or a number, or `none`.
fn row(rt: &impl Abort, alloc: Global, value: &str) -> SharedRow {
    let mut row = Row::new(alloc);
    row.push(Field::Int(1)).expect(rt, "memory");
    if value != "none" {
        row.push(field(rt, value)).expect(rt, "memory");
    }
    SharedRow::new(alloc, row).expect(rt, "memory")
}

fn field<'a>(rt: &impl Abort, value: &'a str) -> Field<'a> {
    match value.strip_prefix('\'') {
        Some(quoted) => {
            let text = quoted.strip_suffix('\'').expect(rt, "a quote");
            Field::Text(Text::from_bytes(text.as_bytes()).expect(rt, "a text"))
        }
        None => Field::Int(value.parse::<i64>().expect(rt, "a number")),
    }
}

fn number(rt: &impl Abort, text: &str) -> EventNo {
    EventNo(text.parse::<u64>().expect(rt, "a number"))
}

fn insert<'q, S: Store<SharedRow, QueryJoin<'q>>>(
    rt: &impl Abort,
    store: &mut S,
    join: &QueryJoin<'q>,
    no: EventNo,
    row: SharedRow,
    settled: bool,
)
    requires { S.suits store.old sides.Left join.now }
    ensures { S.suits store.new sides.Left join.now }
{
    store.reserve(no, &row).expect(rt, "memory");
    store.insert(no, row, settled);
}

/// Returns the numbers of the left rows that a right row finds.
fn found<'q, S: Store<SharedRow, QueryJoin<'q>>>(
    rt: &impl Abort,
    alloc: Global,
    store: &S,
    join: &QueryJoin<'q>,
    against: &SharedRow,
) -> String
    requires { S.suits store.now sides.Left join.now }
{
    let mut partners = Partners::new(alloc);
    store
        .probe(Side::Left, against, join, &mut partners)
        .expect(rt, "memory");
    numbers_of(rt, alloc, &partners)
}

/// Holds the left rows that a right row of this value finds to be those of these numbers.
fn finds<'q, S: Store<SharedRow, QueryJoin<'q>>>(
    rt: &impl Abort,
    alloc: Global,
    store: &S,
    join: &QueryJoin<'q>,
    value: &str,
    want: &str,
)
    requires { S.suits store.now sides.Left join.now }
{
    let found = found(rt, alloc, store, join, &row(rt, alloc, value));
    same(rt, value, &found, want);
}

/// Makes a step: a row comes with its value, settled or not; or a number of a left row is settled or removed, where the store has
/// it; or the left rows are found that a right row of this value joins, by their numbers.
fn run_step<'q, S: Store<SharedRow, QueryJoin<'q>>>(
    rt: &impl Abort,
    alloc: Global,
    store: &mut S,
    join: &QueryJoin<'q>,
    step: &str,
)
    requires { S.suits store.old sides.Left join.now }
    ensures { S.suits store.new sides.Left join.now }
{
    let (call, want) = halves(rt, step);
    let (name, what) = words(rt, call);
    match name {
        "settled" | "unsettled" => {
            let row = row(rt, alloc, want);
            insert(rt, store, join, number(rt, what), row, name == "settled");
        }
        "settle" => shows(rt, alloc, step, &store.settle(number(rt, what)), want),
        "remove" => shows(rt, alloc, step, &store.remove(number(rt, what)), want),
        "find" => finds(rt, alloc, store, join, what, want),
        _ => panic!(rt; "no step: {step}"),
    }
}

fn run<'q, S: Store<SharedRow, QueryJoin<'q>>>(
    rt: &impl Abort,
    alloc: Global,
    store: &mut S,
    join: &QueryJoin<'q>,
    steps: &str,
)
    requires { S.suits store.old sides.Left join.now }
{
    for step in steps.lines() {
        run_step(rt, alloc, store, join, step);
    }
}

fn run_hash(rt: &impl Abort, alloc: Global, text: &str, steps: &str) {
    let query = query(rt, alloc, text);
    let StorePlan::Equal { left, right } = plan(&query) else {
        panic!(rt; "another plan");
    };
    let ready = ready(rt, alloc, &query);
    let join = QueryJoin::new(&ready);
    let mut store = sent(HashStore::new(alloc, left, right));
    run(rt, alloc, &mut store, &join, steps);
}

const EQUAL_NUMBERS: &str = "\
settled 4: 7
settled 2: 7
unsettled 9: 7
settled 6: none
find 7: [2, 4]
find 8: []
find none: []
settle 9: true
settle 8: false
find 7: [2, 4, 9]
remove 2: true
remove 2: false
settled 4: -7
find 7: [9]
find -7: [4]";

#[test]
fn equal_numbers_are_found(rt: HostRuntime) {
    run_hash(&rt, rt.alloc(), OF_NUMBERS, EQUAL_NUMBERS);
}

/// The bits of the number are the mix of no bytes.
const EQUAL_TEXTS: &str = "\
settled 1: 'ab'
settled 2: ''
settled 3: 'ba'
settled 4: -3750763034362895579
find 'ab': [1]
find '': [2]
find 'abc': []
find -3750763034362895579: []";

#[test]
fn equal_texts_are_found(rt: HostRuntime) {
    run_hash(&rt, rt.alloc(), OF_TEXTS, EQUAL_TEXTS);
}

fn run_ordered(rt: &impl Abort, alloc: Global, steps: &str) {
    let query = query(rt, alloc, OF_NEAR_NUMBERS);
    let StorePlan::Band {
        left,
        right,
        within,
    } = plan(&query)
    else {
        panic!(rt; "another plan");
    };
    let ready = ready(rt, alloc, &query);
    let join = QueryJoin::new(&ready);
    let mut store = sent(OrderedStore::new(alloc, left, right, within));
    run(rt, alloc, &mut store, &join, steps);
}

const NEAR_NUMBERS: &str = "\
settled 0: -9223372036854775808
settled 1: 5
settled 2: 15
settled 3: 16
settled 4: '5'
find 5: [1, 2]
find -9223372036854775808: [0]
find 9223372036854775807: []
find '5': []
find none: []
unsettled 9: -5
find 5: [1, 2]
settle 9: true
find 5: [1, 2, 9]
settled 1: 26
find 16: [1, 2, 3]
remove 2: true
remove 2: false
find 5: [9]";

#[test]
fn near_numbers_are_found(rt: HostRuntime) {
    run_ordered(&rt, rt.alloc(), NEAR_NUMBERS);
}

fn run_columns(rt: &impl Abort, alloc: Global, text: &str, steps: &str) {
    let query = query(rt, alloc, text);
    let filters = filters(alloc, &query).expect(rt, "memory");
    let ready = ready(rt, alloc, &query);
    let join = QueryJoin::new(&ready);
    let mut store = sent(ColumnStore::new(alloc, Side::Left, filters.as_slice()).expect(
        rt, "memory",
    ));
    run(rt, alloc, &mut store, &join, steps);
}

fn run_list(rt: &impl Abort, alloc: Global, text: &str, steps: &str) {
    let query = query(rt, alloc, text);
    let ready = ready(rt, alloc, &query);
    let join = QueryJoin::new(&ready);
    let mut store = ListStore::new(alloc);
    run(rt, alloc, &mut store, &join, steps);
}

fn run_both(rt: &impl Abort, alloc: Global, text: &str, steps: &str) {
    run_columns(rt, alloc, text, steps);
    run_list(rt, alloc, text, steps);
}

const OF_SUMS: &str =
    "left (ts int, k int) right (ts int, k int) window left rows 1 window right rows 1 \
    on l.k < r.k and 100 >= l.k + r.k";

/// Rows are removed until their places are swept out, and put again.
const SUMS: &str = "\
settled 1: 5
settled 2: 60
unsettled 3: 7
settled 4: none
settled 5: '6'
settled 6: 45
find 50: [1, 6]
find 5: []
find none: []
settle 3: true
find 50: [1, 3, 6]
remove 1: true
remove 4: true
remove 5: true
remove 2: true
find 50: [3, 6]
settled 1: 8
settled 7: 9
settled 3: 70
find 50: [1, 6, 7]
find 40: [1, 7]
remove 6: true
settled 6: 1
find 50: [1, 6, 7]";

const OF_FAR_SUM: &str =
    "left (ts int, k int) right (ts int, k int) window left rows 1 window right rows 1 \
    on l.k + 9223372036854775807 < r.k";

const FAR_SUM: &str = "\
settled 0: -9223372036854775808
settled 1: 9223372036854775807
settled 2: -1
settled 3: 0
settled 4: none
find 9223372036854775807: [0, 2]
find 0: [0]
find -1: []
find -9223372036854775808: []";

const OF_FAR_NUMBERS: &str =
    "left (ts int, k int) right (ts int, k int) window left rows 1 window right rows 1 \
    on l.k within 9223372036854775807 of r.k";

const FAR_NUMBERS: &str = "\
settled 0: -9223372036854775808
settled 1: 9223372036854775807
settled 2: -1
find 0: [1, 2]
find -1: [0, 2]
find -9223372036854775808: [0, 2]
find 9223372036854775807: [1]
find none: []";

const OF_NAMES: &str =
    "left (ts int, k text) right (ts int, k text) window left rows 1 window right rows 1 on l.k < r.k and l.ts >= r.ts";

const NAMES: &str = "\
settled 1: 'a'
settled 2: 'c'
settled 3: ''
settled 4: 7
find 'b': [1, 3]
find '': []
find 7: []";

#[test]
fn columns_find_what_a_list_finds(rt: HostRuntime) {
    run_both(&rt, rt.alloc(), OF_NUMBERS, EQUAL_NUMBERS);
    run_both(&rt, rt.alloc(), OF_TEXTS, EQUAL_TEXTS);
    run_both(&rt, rt.alloc(), OF_NEAR_NUMBERS, NEAR_NUMBERS);
    run_both(&rt, rt.alloc(), OF_SUMS, SUMS);
    run_both(&rt, rt.alloc(), OF_FAR_SUM, FAR_SUM);
    run_both(&rt, rt.alloc(), OF_FAR_NUMBERS, FAR_NUMBERS);
    run_both(&rt, rt.alloc(), OF_NAMES, NAMES);
}
