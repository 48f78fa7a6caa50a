//! What a run is made of, before any thread is started.
ghost use Rattle.std.specs.Prelude.{◌≡◌, ◌+◌, ◌<◌, ◌≤◌, ◌∷◌, [], false, All, length, IfOk};
ghost use Rattle.hj_base.specs.declared.numbers.Side.TheVariants.{Left, Right};
ghost use Rattle.hj_msg.specs.Core.{empty_state};
ghost use Rattle.hj_msg.specs.Feed.{FeedState, IsFresh};
ghost use Rattle.hj_msg.specs.ReadyStores.{AreReadyOn};
ghost use Rattle.hj_core.specs.Contents.{state_of};
ghost use Rattle.hj_desk.specs.Desk.{StandsFor, nothing_happened};
ghost use Rattle.hj_crew.specs.Cores.{AreCrew, AreEndsFor, AreForDesk, AreUnused, GivesEnds, MakesTeams};
ghost use Rattle.hj_crew.specs.Room.{IsRoomOf};

use crate::deal::{deal, empty_teams, team_of};
use crate::ends::ChainEnds;
use crate::plan::{CrewSize, Stores};
use crate::team::{Signals, Team};
use hj_base::{ChainSize, CoreNo, Memory, Share};
use hj_core::Core;
use hj_desk::Desk;
use hj_link::RightEnd;
use hj_msg::{Join, Msg, Store};
use hj_worker::Worker;
use std::alloc::Global;

/// All that turns the chain in a run, before it starts.
#[derive(Drop)]
pub(crate) struct Crew<P: Drop, J: Join<P>, S: Store<P, J>> {
    pub(crate) desk: Desk<P>,
    pub(crate) teams: Vec<Team<P, J, S>>,
    /// What the thread of each team is told.
    pub(crate) signals: Vec<Signals>,
    /// Room for the teams that the calling thread turns itself, and for those that came back.
    pub(crate) own: Vec<Team<P, J, S>>,
    pub(crate) done: Vec<Team<P, J, S>>,
}

impl<P: Share + Drop, J: Join<P> + Drop, S: Store<P, J> + Drop> Crew<P, J, S> {
    ghost use Rattle.hj_crew.specs.Begun.{IsManned};

    /// Makes the crew of a chain of this size over these stores, in as many teams as there are threads and cores.
    pub(crate) fn new(
        alloc: Global,
        size: CrewSize,
        join: &J,
        stores: Stores<S>,
    ) -> Result<Self, Memory>
        requires left { AreReadyOn S.entries S.suits Left join.now size.chain.cores stores.left.items }
        requires right { AreReadyOn S.entries S.suits Right join.now size.chain.cores stores.right.items }
        ensures { IfOk result (IsManned join.now size) }
    {
        let count = usize::from(size.threads.min(size.chain.cores));
        let (signals, own, done) = signals_and_room(alloc, count)?;
        let (desk, teams) = desk_and_teams(alloc, size.chain, join, stores, count)?;
        Ok(Crew {
            desk,
            teams,
            signals,
            own,
            done,
        })
    }
}

/// Makes what this many threads are told, and room for their teams: for those that the calling thread turns itself,
/// and for those that came back.
fn signals_and_room<T: Drop>(
    alloc: Global,
    count: usize,
) -> Result<(Vec<Signals>, Vec<T>, Vec<T>), Memory>
    ensures signals { IfOk result (λ made. length made.0.items ≡ count) }
    ensures own { IfOk result (λ made. IsRoomOf count made.1) }
    ensures done { IfOk result (λ made. IsRoomOf count made.2) }
{
    let signals = make_signals(alloc, count)?;
    let own = Vec::with_capacity(alloc, count)?;
    let done = Vec::with_capacity(alloc, count)?;
    Ok((signals, own, done))
}

/// Makes the signals of this many threads.
fn make_signals(alloc: Global, count: usize) -> Result<Vec<Signals>, Memory>
    ensures { IfOk result (λ signals. length signals.items ≡ count) }
{
    let mut signals = Vec::with_capacity(alloc, count)?;
    for _team in 0..count {
        signals.push(Signals::new())?;
    }
    Ok(signals)
}

/// Makes the desk of a chain, and its workers in this many teams.
fn desk_and_teams<P: Share + Drop, J: Join<P> + Drop, S: Store<P, J> + Drop>(
    alloc: Global,
    size: ChainSize,
    join: &J,
    stores: Stores<S>,
    count: usize,
) -> Result<(Desk<P>, Vec<Team<P, J, S>>), Memory>
    requires left { AreReadyOn S.entries S.suits Left join.now size.cores stores.left.items }
    requires right { AreReadyOn S.entries S.suits Right join.now size.cores stores.right.items }
    requires teams { (0 < count) × (count ≤ 64) }
    ensures crew { IfOk result (λ made.
        AreCrew join.now size.cores size.flight made.0 made.1.items) }
    ensures stands { IfOk result (λ made. (feed : FeedState) → IsFresh feed
        → StandsFor made.0 feed nothing_happened) }
    ensures going { IfOk result (λ made. made.0.over ≡ false) }
    ensures count { IfOk result (λ made. length made.1.items ≡ count) }
{
    let (mut ends, last) = ChainEnds::new(alloc, size.cores, size.flight)?;
    let Stores { left, right } = stores;
    let teams = make_teams(alloc, join, left, right, &mut ends, count)?;
    let desk = desk_at(alloc, size.flight, ends, last)?;
    Ok((desk, teams))
}

/// Makes the desk of a chain with at most `flight` events outstanding, at the one left end that its workers left, and
/// at the last right end.
fn desk_at<P: Share + Drop>(
    alloc: Global,
    flight: u16,
    ends: ChainEnds<P>,
    last: RightEnd<Msg<P>>,
) -> Result<Desk<P>, Memory>
    requires { AreForDesk ends last }
    ensures stands { IfOk result (λ desk. (feed : FeedState) → IsFresh feed
        → StandsFor desk feed nothing_happened) }
    ensures going { IfOk result (λ desk. desk.over ≡ false) }
    ensures left { IfOk result (λ desk. ends.left.items ≡ desk.ports.left ∷ []) }
    ensures right { IfOk result (λ desk. desk.ports.right ≡ last) }
    ensures reports { IfOk result (λ desk. desk.reports ≡ ends.receivers) }
    ensures flight { IfOk result (λ desk. desk.driver.flight ≡ flight) }
{
    let ChainEnds {
        mut left,
        receivers,
        ..
    } = ends;
    let Some(first) = left.pop() else {
        unreachable!()
    };
    Desk::new(alloc, flight, first, last, receivers)
}

/// Makes the workers of a chain, each with its core and its ends, dealt to this many teams. The last core gets the
/// last ends, and the first left end is left.
pub(crate) fn make_teams<P: Share + Drop, J: Join<P> + Drop, S: Store<P, J> + Drop>(
    alloc: Global,
    join: &J,
    mut left: Vec<S>,
    mut right: Vec<S>,
    ends: &mut ChainEnds<P>,
    count: usize,
) -> Result<Vec<Team<P, J, S>>, Memory>
    requires cores { (1 ≤ length left.items) × (length left.items ≤ 64) }
    requires same { length right.items ≡ length left.items }
    requires left_empty { All (λ store. S.entries store ≡ []) left.items }
    requires right_empty { All (λ store. S.entries store ≡ []) right.items }
    requires left_suits { All (λ store. S.suits store Left join.now) left.items }
    requires right_suits { All (λ store. S.suits store Right join.now) right.items }
    requires unused { AreUnused ends.old }
    requires ends { AreEndsFor (length left.items) ends.old }
    requires teams { (0 < count) × (count ≤ 64) }
    ensures count { IfOk result (λ teams. length teams.items ≡ count) }
    ensures teams { IfOk result (λ teams.
        MakesTeams join.now (length left.items) 0 ends.old ends.new teams.items) }
{
    let cores = left.len();
    let mut teams = empty_teams(alloc, count)?;
    while let Some(left_store) = left.pop() {
        let Some(right_store) = right.pop() else {
            unreachable!()
        };
        let place = left.len();
        let core = make_core(alloc, join, left_store, right_store, place, cores as u16)?;
        let team = team_of(place, cores, count);
        deal(teams.as_mut_slice(), team, last_worker(core, ends))?;
    }
    Ok(teams)
}

/// Makes the core at a place of this many, with a share of the join, over these stores.
fn make_core<P: Share + Drop, J: Join<P> + Drop, S: Store<P, J> + Drop>(
    alloc: Global,
    join: &J,
    left: S,
    right: S,
    place: usize,
    cores: u16,
) -> Result<Core<P, J, S>, Memory>
    requires place { (place < cores) × (cores ≤ 64) }
    requires left { (S.entries left ≡ []) × S.suits left Left join.now }
    requires right { (S.entries right ≡ []) × S.suits right Right join.now }
    ensures state { IfOk result (λ core. state_of S.entries core ≡ empty_state) }
    ensures core { IfOk result (λ core. (core.join ≡ join.now) × (core.place ≡ place) × (core.cores ≡ cores)) }
{
    let share = join.share()?;
    Ok(Core::new(share, left, right, CoreNo(place as u16), cores, alloc))
}

/// Makes the worker of a core, which gets the last ones of the ends.
fn last_worker<P: Share + Drop, J: Join<P> + Drop, S: Store<P, J> + Drop>(
    core: Core<P, J, S>,
    ends: &mut ChainEnds<P>,
) -> Worker<P, J, S>
    requires core { state_of S.entries core ≡ empty_state }
    requires unused { AreUnused ends.old }
    requires left { 0 < length ends.old.left.items }
    requires right { 0 < length ends.old.right.items }
    requires senders { 0 < length ends.old.senders.items }
    ensures core { (result.join ≡ core.join) × (result.place ≡ core.place)
        × (result.cores ≡ core.cores) }
    ensures ends { GivesEnds (result ∷ []) ends.old ends.new }
{
    let Some(left) = ends.right.pop() else {
        unreachable!()
    };
    let Some(right) = ends.left.pop() else {
        unreachable!()
    };
    let Some(reports) = ends.senders.pop() else {
        unreachable!()
    };
    Worker::new(core, left, right, reports)
}
