ghost use Rattle.std.specs.Prelude.{◌≡◌, ◌+◌, ◌≤◌, replicate, IfOk};
ghost use Rattle.hj_driver.specs.Driver.{new_driver};
ghost use Rattle.hj_collect.specs.Collector.{nothing_taken};
ghost use Rattle.hj_chain.specs.Queues.{no_messages};
ghost use Rattle.hj_chain.specs.Chain.{capacity};
ghost use Rattle.hj_chain.specs.Reports.{no_reports};

use crate::links::Links;
use crate::reports::Reports;
use hj_base::Memory;
use hj_collect::Collector;
use hj_driver::Driver;
use std::alloc::Global;

/// What lies around the cores of a chain: its driver, the links, the queues of reports, and the collector.
#[derive(Drop)]
pub(super) struct Surroundings<P> {
    pub(super) driver: Driver,
    pub(super) links: Links<P>,
    pub(super) reports: Reports<P>,
    pub(super) collector: Collector,
}

impl<P: Drop> Surroundings<P> {
    /// Makes those of this many cores, in which nothing was done yet.
    pub(super) fn new(alloc: Global, cores: usize, flight: u16) -> Result<Self, Memory>
        requires { cores ≤ 64 }
        ensures driver { IfOk result (λ around. around.driver ≡ new_driver flight) }
        ensures links { IfOk result (λ around. around.links ≡ replicate (cores + 1) (no_messages (capacity flight))) }
        ensures reports { IfOk result (λ around. around.reports ≡ no_reports cores (capacity flight)) }
        ensures collector { IfOk result (λ around. around.collector ≡ nothing_taken cores) }
    {
        let capacity = 2 * usize::from(flight) + 2;
        let driver = Driver::new(alloc, cores as u16, flight)?;
        let links = Links::new(alloc, cores, capacity)?;
        let reports = Reports::new(alloc, cores, capacity)?;
        let collector = Collector::new(alloc, cores as u16)?;
        Ok(Surroundings {
            driver,
            links,
            reports,
            collector,
        })
    }
}
