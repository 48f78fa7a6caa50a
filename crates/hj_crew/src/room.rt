//! Room for what the end of a run puts into lists.
ghost use Rattle.std.specs.Prelude.{IfOk};

use hj_base::{Memory, Share};
use hj_link::{Closed, ClosedWay, LeftEnd, RightEnd, Sender};
use hj_msg::{Join, Msg, Report, Store};
use hj_worker::Worker;
use std::alloc::Global;

/// The lists that the end of a run fills. They are made before the run starts, so that its end
/// takes no memory.
#[derive(Drop)]
pub(crate) struct Room<P: Drop, J: Join<P>, S: Store<P, J>> {
    /// For the workers, by the places of their cores.
    pub(crate) workers: Vec<Worker<P, J, S>>,
    pub(crate) chain: ChainRoom<P>,
}

impl<P: Share + Drop, J: Join<P> + Drop, S: Store<P, J> + Drop> Room<P, J, S> {
    ghost use Rattle.hj_crew.specs.Room.{IsRoomFor};

    /// Makes room for a chain of this many cores.
    pub(crate) fn new(alloc: Global, cores: u16) -> Result<Self, Memory>
        ensures { IfOk result (IsRoomFor cores) }
    {
        Ok(Room {
            workers: Vec::with_capacity(alloc, usize::from(cores))?,
            chain: ChainRoom::new(alloc, cores)?,
        })
    }
}

/// The lists for the ends of a chain's links and queues that are handed in, but for those of the
/// receivers, and for the links and queues that are closed.
#[derive(Drop)]
pub(crate) struct ChainRoom<P: Drop> {
    pub(crate) left: Vec<LeftEnd<Msg<P>>>,
    pub(crate) right: Vec<RightEnd<Msg<P>>>,
    pub(crate) senders: Vec<Sender<Report<P>>>,
    pub(crate) links: Vec<Closed<Msg<P>>>,
    pub(crate) queues: Vec<ClosedWay<Report<P>>>,
}

impl<P: Drop> ChainRoom<P> {
    ghost use Rattle.hj_crew.specs.Room.{IsChainRoomFor};

    /// Makes room for a chain of this many cores.
    pub(crate) fn new(alloc: Global, cores: u16) -> Result<Self, Memory>
        ensures { IfOk result (IsChainRoomFor cores) }
    {
        let cores = usize::from(cores);
        Ok(ChainRoom {
            left: Vec::with_capacity(alloc, cores + 1)?,
            right: Vec::with_capacity(alloc, cores + 1)?,
            senders: Vec::with_capacity(alloc, cores)?,
            links: Vec::with_capacity(alloc, cores + 1)?,
            queues: Vec::with_capacity(alloc, cores)?,
        })
    }
}
