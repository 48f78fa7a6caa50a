//! Workers dealt to teams, and gathered again.
ghost use Rattle.std.specs.Prelude.{◌≡◌, ◌+◌, ◌*◌, ◌/◌, ◌<◌, ◌≤◌, ◌++◌, length, replicate, reverse, vec_capacity, vec_len, [], ◌∷◌, IfOk, OnOk};
ghost use Rattle.hj_crew.specs.Deal.{AreEmpty, gathered};
ghost use Rattle.hj_crew.specs.Room.{IsRoomOf};
ghost use Rattle.hj_crew.specs.Teams.{workers_in};

use crate::team::Team;
use hj_base::Memory;
use hj_msg::{Join, Store};
use hj_worker::Worker;
use std::alloc::Global;

/// Makes this many teams without workers.
pub(crate) fn empty_teams<P: Drop, J: Join<P> + Drop, S: Store<P, J> + Drop>(
    alloc: Global,
    count: usize,
) -> Result<Vec<Team<P, J, S>>, Memory>
    ensures { IfOk result (λ teams. workers_in teams.items ≡ replicate count []) }
{
    let mut teams = Vec::with_capacity(alloc, count)?;
    for _team in 0..count {
        teams.push(Team {
            workers: Vec::new(alloc),
        })?;
    }
    Ok(teams)
}

/// Returns the team, by its place, that turns the core at a place, of this many teams and cores. So each team turns a
/// run of neighbours.
pub(crate) fn team_of(place: usize, cores: usize, teams: usize) -> usize
    requires place { place < cores }
    requires few { cores ≤ 64 }
    requires teams { teams ≤ 64 }
    ensures { result ≡ place * teams / cores }
{
    place * teams / cores
}

/// Deals a worker to a team, after those that it has. So each team has its workers from the last one to the first,
/// and the first one comes off by `pop`. The workers of later places were dealt, and none to an earlier team.
pub(crate) fn deal<P: Drop, J: Join<P> + Drop, S: Store<P, J> + Drop>(
    teams: &mut [Team<P, J, S>],
    team: usize,
    worker: Worker<P, J, S>,
) -> Result<(), Memory>
    requires in_range { team < length teams.old }
    requires empty { AreEmpty team (workers_in teams.old) }
    ensures dealt { OnOk result (gathered (workers_in teams.new) ≡ worker ∷ gathered (workers_in teams.old)) }
    ensures empty { OnOk result (AreEmpty team (workers_in teams.new)) }
{
    teams[team].workers.push(worker)?;
    Ok(())
}

/// Gathers the workers that were dealt to teams, in the order of their places, into a list that has
/// room for them.
pub(crate) fn gather<P: Drop, J: Join<P> + Drop, S: Store<P, J> + Drop>(
    teams: Vec<Team<P, J, S>>,
    mut workers: Vec<Worker<P, J, S>>,
) -> Vec<Worker<P, J, S>>
    requires { IsRoomOf (length (gathered (workers_in teams.items))) workers }
    ensures { result.items ≡ gathered (workers_in teams.items) }
{
    for team in teams {
        take_over(team, &mut workers);
    }
    workers
}

/// Takes over the workers of a team, from the first to the last one, into a list that has room for them.
fn take_over<P: Drop, J: Join<P> + Drop, S: Store<P, J> + Drop>(
    team: Team<P, J, S>,
    workers: &mut Vec<Worker<P, J, S>>,
)
    requires { vec_len workers.old + length team.workers.items ≤ vec_capacity workers.old }
    ensures workers { workers.new.items ≡ workers.old.items ++ reverse team.workers.items }
    ensures capacity { vec_capacity workers.new ≡ vec_capacity workers.old }
{
    let mut team = team;
    while let Some(worker) = team.workers.pop() {
        workers.push_reserved(worker);
    }
}
