//! The end of a run: what the desk and the workers had is closed. It takes no memory.
ghost use Rattle.std.specs.Prelude.{◌≡◌, ℕ, ◌+◌, ◌∷◌, [], All, length};
ghost use Rattle.hj_crew.specs.Cores.{AreClosed, AreCrew, GivesEnds, TakesItsTurns, left_of, reports_of, right_of};
ghost use Rattle.hj_crew.specs.Ends.{FormChain};
ghost use Rattle.hj_crew.specs.Room.{HasEndRoom, IsChainRoomFor, IsRoomFor};

use crate::deal::gather;
use crate::ends::ChainEnds;
use crate::ran::Ran;
use crate::room::{ChainRoom, Room};
use crate::team::Team;
use hj_base::{ChainSize, Share};
use hj_desk::Desk;
use hj_msg::{Fin, Join, Store};
use hj_worker::Worker;

/// Returns the run of a crew that came back, over a chain of this size.
pub(crate) fn close_crew<P: Share + Drop, J: Join<P> + Drop, S: Store<P, J> + Drop>(
    desk: Desk<P>,
    teams: Vec<Team<P, J, S>>,
    size: ChainSize,
    ended: Fin,
    room: Room<P, J, S>,
) -> Ran<P>
    requires crew { (join : J) × AreCrew join size.cores size.flight desk teams.items }
    requires room { IsRoomFor size.cores room }
    ensures closed { (join : J) → (crew : AreCrew join size.cores size.flight desk teams.items)
        → AreClosed J.predicate desk crew.workers result }
    ensures flight { result.flight ≡ size.flight }
    ensures ended { result.ended ≡ ended }
{
    let Room { workers, chain } = room;
    let workers = gather(teams, workers);
    close_run(desk, workers, size.flight, ended, chain)
}

/// Returns the run of a desk and workers, in the order of their cores.
fn close_run<P: Share + Drop, J: Join<P> + Drop, S: Store<P, J> + Drop>(
    desk: Desk<P>,
    workers: Vec<Worker<P, J, S>>,
    flight: u16,
    ended: Fin,
    room: ChainRoom<P>,
) -> Ran<P>
    requires chain { FormChain desk (left_of workers.items) (right_of workers.items)
        (reports_of workers.items) }
    requires room { IsChainRoomFor (length workers.items) room }
    ensures closed { AreClosed J.predicate desk workers.items result }
    ensures flight { result.flight ≡ flight }
    ensures ended { result.ended ≡ ended }
{
    let Desk { ports, reports, .. } = desk;
    let ChainRoom {
        left,
        right,
        senders,
        links,
        queues,
    } = room;
    let mut ends = ChainEnds {
        left,
        right,
        senders,
        receivers: reports,
    };
    ends.left.push_reserved(ports.left);
    hand_in_all(&mut ends, workers);
    ends.right.push_reserved(ports.right);
    ends.close(flight, ended, links, queues)
}

/// Hands in the ends of these workers, in the order of their cores, into lists that have room for them and for one right end more.
fn hand_in_all<P: Share + Drop, J: Join<P> + Drop, S: Store<P, J> + Drop>(
    ends: &mut ChainEnds<P>,
    workers: Vec<Worker<P, J, S>>,
)
    requires { HasEndRoom (length workers.items) ends.old }
    ensures ends { GivesEnds workers.items ends.new ends.old }
    ensures turns { All (TakesItsTurns J.predicate) workers.items }
    ensures room { HasEndRoom 0 ends.new }
{
    for worker in workers {
        hand_in(ends, worker);
    }
}

/// Hands in the ends of a worker, after those of the cores before it, into lists that have room for them.
fn hand_in<P: Share + Drop, J: Join<P> + Drop, S: Store<P, J> + Drop>(
    ends: &mut ChainEnds<P>,
    worker: Worker<P, J, S>,
)
    requires { HasEndRoom 1 ends.old }
    ensures ends { GivesEnds (worker ∷ []) ends.new ends.old }
    ensures turns { TakesItsTurns J.predicate worker }
    ensures room { (more : ℕ) → HasEndRoom (more + 1) ends.old → HasEndRoom more ends.new }
{
    let parts = worker.parts();
    ends.right.push_reserved(parts.left);
    ends.left.push_reserved(parts.right);
    ends.senders.push_reserved(parts.reports);
}
