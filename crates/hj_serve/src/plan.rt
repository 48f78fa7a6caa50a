ghost use Rattle.std.specs.Prelude.{◌≡◌, ◌≤◌, None, Some};
ghost use Rattle.hj_words.specs.Orders.{most_rows};
ghost use Rattle.hj_words.specs.Ranges.{AreNumbers, IsFrom, IsInRange};
ghost use Rattle.hj_serve.specs.Crew.{crew_of, crew_with, threads_of, usual_crew};
ghost use Rattle.hj_serve.specs.Serial.{serial_of, serial_with};
ghost use Rattle.hj_serve.specs.OrderPlan.{asked_plan, crew_seen, crew_plan, serial_plan, threads_plan};
ghost use Rattle.hj_serve.specs.OrderPlan.{crew_twice, serial_twice, threads_twice, twice_of, twice_plan};
ghost use Rattle.hj_opening.specs.Orders.{chain_seen, join_seen, source_seen};
ghost use Rattle.hj_opening.specs.RunTwice.{twice_names};
ghost use Rattle.hj_opening.specs.Words.{TextKind, chooser_of, join_streams, join_twice, keyed, most_events, named, pair_lines, raw_items, sum_up};

use crate::recipe::Recipe;
use hj_base::{ChainSize, Name, Setup};
use hj_chain::Chooser;
use hj_crew::CrewSize;
use hj_opening::{CheckOrder, EquiWindow, JoinOrder, QuerySource, TwiceOrder};
use hj_replay::TracePlan;
use hj_words::Order;

/// How many events a join numbers at most, where no option says otherwise.
pub const MOST_EVENTS: u64 = 4_294_967_295;

/// Who does what an order says, with the parts of it that they take.
#[derive(Clone, Copy)]
pub enum OrderPlan<'a> {
    /// The calling thread alone.
    Alone(AloneOrder<'a>),
    /// Threads turn the cores of a chain of this size, while the calling thread reads and writes.
    Threads(ThreadsOrder<'a>, CrewSize),
    /// The calling thread alone, which writes each step of a join.
    Trace(JoinOrder<'a>, TracePlan),
    /// The calling thread alone, which checks a trace and an output of a join.
    Verify(CheckOrder<'a>),
    /// Two joins in a row, each by this plan.
    Twice(TwiceOrder<'a>, TwicePlan),
}

/// What the calling thread does alone.
#[derive(Clone, Copy, Debug)]
pub enum AloneOrder<'a> {
    /// The check of the query under this name.
    Check(&'a str),
    /// A join, along a chain of this size.
    Join {
        join: JoinOrder<'a>,
        size: ChainSize,
        /// The order of the chain's steps.
        chooser: Chooser,
    },
}

/// What is done on threads.
#[derive(Clone, Copy, Debug)]
pub enum ThreadsOrder<'a> {
    /// A join of two streams.
    Join(JoinOrder<'a>, Writing),
    /// The summary of a join of two streams that are made.
    Gen(Recipe),
}

/// When a join on threads writes a pair.
#[derive(Clone, Copy, Debug)]
pub enum Writing {
    /// In the order of the join.
    InOrder,
    /// As it is met, with marks between the pairs.
    AsMet,
}

/// Who makes each of two joins in a row.
#[derive(Clone, Copy, Debug)]
pub enum TwicePlan {
    /// The calling thread alone, along a chain of this size.
    Alone {
        size: ChainSize,
        /// The order of the chain's steps.
        chooser: Chooser,
    },
    /// Threads turn the cores of a chain of this size.
    Threads(CrewSize),
}

impl<'a> OrderPlan<'a> {
    ghost use Rattle.hj_opening.specs.Words.{asked_by};

    /// Gives the one who does what an order says: threads for `equi`, `gen`, `raw` and a `join` with threads, and the calling thread
    /// for every other order but `twice`, whose plan says who makes its joins.
    pub fn of(order: &'a Order) -> OrderPlan<'a>
        requires { IsInRange order.now }
        ensures asked { asked_plan result ≡ asked_by order.now }
        ensures crew { crew_plan result ≡ crew_of order.now }
        ensures threads { threads_plan result ≡ threads_of order.now }
        ensures serial { serial_plan result ≡ serial_of order.now }
        ensures twice { twice_plan result ≡ twice_of order.now }
    {
        match order {
            Order::Equi { w, left, right } => equi_plan(*w, left, right),
            Order::Join {
                setup,
                limit,
                schedule,
                query,
                left,
                right,
            } => join_plan(named_join(query, left, right, *limit), setup, *schedule),
            Order::Raw {
                setup,
                limit,
                query,
                left,
                right,
            } => raw_plan(named_join(query, left, right, *limit), setup),
            Order::Trace {
                cores,
                flight,
                limit,
                schedule,
                query,
                left,
                right,
            } => OrderPlan::Trace(
                named_join(query, left, right, *limit),
                trace_plan(*cores, *flight, *schedule),
            ),
            Order::Verify {
                cores,
                flight,
                limit,
                query,
                left,
                right,
                trace,
                output,
            } => OrderPlan::Verify(CheckOrder {
                size: chain_size(*cores, *flight),
                query: query.text(),
                left: left.text(),
                right: right.text(),
                trace: trace.text(),
                output: output.text(),
                limit: *limit,
            }),
            Order::Check { query } => OrderPlan::Alone(AloneOrder::Check(query.text())),
            Order::Gen { n, keys, seed, w } => gen_plan(*n, *keys, *seed, *w),
            Order::Twice {
                setup,
                limit,
                schedule,
                query,
                left,
                right,
                second,
                third,
            } => OrderPlan::Twice(
                two_joins(query, left, right, second, third, *limit),
                twice_plan(setup, *schedule),
            ),
        }
    }
}

/// Gives the one who makes a join on equal keys, over windows of so many rows.
fn equi_plan<'a>(w: u32, left: &'a Name, right: &'a Name) -> OrderPlan<'a>
    requires { IsFrom 1 most_rows w }
    ensures asked { asked_plan result ≡ join_streams pair_lines (keyed w) (record { left = left.now; right = right.now }) most_events }
    ensures crew { crew_plan result ≡ Some usual_crew }
    ensures threads { threads_plan result ≡ 4 }
    ensures serial { serial_plan result ≡ None }
    ensures twice { twice_plan result ≡ None }
{
    let source = QuerySource::Keyed(EquiWindow { rows: w });
    let join = join_of(source, left, right, MOST_EVENTS);
    OrderPlan::Threads(ThreadsOrder::Join(join, Writing::InOrder), usual_size())
}

/// Gives the one who makes a join whose pairs are written as they are met, with these numbers.
fn raw_plan<'a>(join: JoinOrder<'a>, setup: &Setup) -> OrderPlan<'a>
    requires cores { IsFrom 1 64 setup.now.cores }
    requires flight { IsFrom 1 256 setup.now.flight }
    requires threads { 1 ≤ setup.now.threads }
    ensures asked { asked_plan result ≡ join_seen raw_items join.entry }
    ensures crew { crew_plan result ≡ Some (record { cores = setup.now.cores; flight = setup.now.flight }) }
    ensures threads { threads_plan result ≡ setup.now.threads }
    ensures serial { serial_plan result ≡ None }
    ensures twice { twice_plan result ≡ None }
{
    OrderPlan::Threads(ThreadsOrder::Join(join, Writing::AsMet), crew_size(setup))
}

/// Gives the one who makes two streams of so many rows, and sums up their join.
fn gen_plan<'a>(n: u32, keys: u32, seed: u64, w: u32) -> OrderPlan<'a>
    requires { AreNumbers n keys w }
    ensures asked { asked_plan result ≡ sum_up (record { rows = n; keys = keys; seed = seed; window = w }) }
    ensures crew { crew_plan result ≡ Some usual_crew }
    ensures threads { threads_plan result ≡ 4 }
    ensures serial { serial_plan result ≡ None }
    ensures twice { twice_plan result ≡ None }
{
    let recipe = Recipe {
        rows: n,
        keys,
        seed,
        window: EquiWindow { rows: w },
    };
    OrderPlan::Threads(ThreadsOrder::Gen(recipe), usual_size())
}

/// Gives the one who makes two joins in a row with these numbers: the calling thread where there are no threads.
fn twice_plan(setup: &Setup, schedule: Option<u64>) -> TwicePlan
    requires cores { IsFrom 1 64 setup.now.cores }
    requires flight { IsFrom 1 256 setup.now.flight }
    ensures crew { crew_twice result ≡ crew_with setup.now }
    ensures threads { threads_twice result ≡ setup.now.threads }
    ensures serial { serial_twice result ≡ serial_with setup.now schedule }
{
    if setup.threads > 0 {
        return TwicePlan::Threads(crew_size(setup));
    }
    TwicePlan::Alone {
        size: chain_size(setup.cores, setup.flight),
        chooser: chooser(schedule),
    }
}

/// Gives the one who makes a join with these numbers: the calling thread where there are no threads.
fn join_plan<'a>(join: JoinOrder<'a>, setup: &Setup, schedule: Option<u64>) -> OrderPlan<'a>
    requires cores { IsFrom 1 64 setup.now.cores }
    requires flight { IsFrom 1 256 setup.now.flight }
    ensures asked { asked_plan result ≡ join_seen pair_lines join.entry }
    ensures crew { crew_plan result ≡ crew_with setup.now }
    ensures threads { threads_plan result ≡ setup.now.threads }
    ensures serial { serial_plan result ≡ serial_with setup.now schedule }
    ensures twice { twice_plan result ≡ None }
{
    if setup.threads > 0 {
        return OrderPlan::Threads(ThreadsOrder::Join(join, Writing::InOrder), crew_size(setup));
    }
    OrderPlan::Alone(AloneOrder::Join {
        join,
        size: chain_size(setup.cores, setup.flight),
        chooser: chooser(schedule),
    })
}

/// Gives the size of the crew that these numbers name.
fn crew_size(setup: &Setup) -> CrewSize
    requires cores { IsFrom 1 64 setup.now.cores }
    requires flight { IsFrom 1 256 setup.now.flight }
    requires threads { 1 ≤ setup.now.threads }
    ensures crew { crew_seen result ≡ record { cores = setup.now.cores; flight = setup.now.flight } }
    ensures threads { result.threads ≡ setup.now.threads }
{
    CrewSize {
        chain: chain_size(setup.cores, setup.flight),
        threads: setup.threads,
    }
}

/// Gives the chain of a trace, and the order of its steps.
fn trace_plan(cores: u16, flight: u16, schedule: Option<u64>) -> TracePlan
    requires cores { IsFrom 1 64 cores }
    requires flight { IsFrom 1 256 flight }
    ensures chain { chain_seen result.size ≡ record { cores = cores; flight = flight } }
    ensures chooser { result.chooser ≡ chooser_of schedule }
{
    TracePlan {
        size: chain_size(cores, flight),
        chooser: chooser(schedule),
    }
}

/// Gives the size of the chain that these numbers name.
fn chain_size(cores: u16, flight: u16) -> ChainSize
    requires cores { IsFrom 1 64 cores }
    requires flight { IsFrom 1 256 flight }
    ensures cores { result.cores ≡ cores }
    ensures flight { result.flight ≡ flight }
{
    ChainSize { cores, flight }
}

/// Gives the join of the streams under two names, by the query under a name, with this many events at most.
fn named_join<'a>(query: &'a Name, left: &'a Name, right: &'a Name, limit: u64) -> JoinOrder<'a>
    ensures { (kind : TextKind) → join_seen kind result ≡ join_streams kind (named query.now) (record { left = left.now; right = right.now }) limit }
{
    join_of(QuerySource::Named(query.text()), left, right, limit)
}

/// Gives the join of the streams under two names, by the query from this source, with this many events at most.
fn join_of<'a>(
    source: QuerySource<'a>,
    left: &'a Name,
    right: &'a Name,
    limit: u64,
) -> JoinOrder<'a>
    ensures { (kind : TextKind) → join_seen kind result ≡ join_streams kind (source_seen source.entry) (record { left = left.now; right = right.now }) limit }
{
    JoinOrder {
        source,
        left: left.text(),
        right: right.text(),
        limit,
    }
}

/// Gives two joins in a row: of the streams under two names, by the query under a name, and of their pairs with the stream under a
/// third name, by a second query, with this many events at most in each.
fn two_joins<'a>(
    query: &'a Name,
    left: &'a Name,
    right: &'a Name,
    second: &'a Name,
    third: &'a Name,
    limit: u64,
) -> TwiceOrder<'a>
    ensures { join_twice (twice_names result) result.limit
        ≡ join_twice (record { query = query.now; streams = record { left = left.now; right = right.now }; second = second.now; third = third.now }) limit }
{
    TwiceOrder {
        query: query.text(),
        left: left.text(),
        right: right.text(),
        second: second.text(),
        third: third.text(),
        limit,
    }
}

/// Gives the size of a join's crew, where no option says otherwise.
pub fn usual_size() -> CrewSize
    ensures crew { crew_seen result ≡ usual_crew }
    ensures threads { result.threads ≡ 4 }
{
    CrewSize {
        chain: ChainSize {
            cores: 4,
            flight: 32,
        },
        threads: 4,
    }
}

/// Gives the order of the steps: a seed draws it; where none is given, the actors take turns.
fn chooser(schedule: Option<u64>) -> Chooser
    ensures { result ≡ chooser_of schedule }
{
    match schedule {
        Some(seed) => Chooser::Seeded(seed),
        None => Chooser::InTurn,
    }
}
