ghost use Rattle.std.specs.Prelude.{ℕ, false};
ghost use Rattle.hj_base.specs.declared.outside.Role.TheVariants as role;
ghost use Rattle.hj_query.specs.QueryParts.{QueryParts};
ghost use Rattle.hj_eval.specs.Holds.{holds};
ghost use Rattle.hj_event.specs.Roles.{IsInStep};
ghost use Rattle.hj_chain.specs.Steps.{GoesWith};
ghost use Rattle.hj_stream.specs.Ends.{IsUnasked};
ghost use Rattle.hj_stream.specs.Feeding.{Feeding};
ghost use Rattle.hj_stores.specs.Stores.{AreReady};
ghost use Rattle.hj_replay.specs.Feeds.{SameOutside, roles_of, state_of};
ghost use Rattle.hj_verify.specs.Checked.{ChecksRun, IsUnplayed, feeding};

use crate::Verdict;
use crate::line::go_on;
use crate::lines::check_lines;
use crate::output::OutputCheck;
use crate::texts::ComparedTexts;
use hj_base::{ChainSize, Outside, Role};
use hj_chain::Chain;
use hj_eval::{QueryJoin, ReadyQuery};
use hj_msg::Store;
use hj_replay::AlwaysReady;
use hj_stores::ChainStores;
use hj_stream::Outcome;
use hj_trace::TextStream;
use hj_value::SharedRow;
use std::alloc::Global;

/// Checks the trace and the output against the steps of a new chain over these stores, one of each side for each core. The error is
/// the verdict where something is wrong, a read failed or memory ran out.
pub(crate) fn check_over<'r, 'q, S: Store<SharedRow, QueryJoin<'r>> + Drop, O: Outside>(
    alloc: Global,
    query: &'r ReadyQuery<'q>,
    size: ChainSize,
    stores: ChainStores<S>,
    feed: &mut AlwaysReady<'_, O>,
) -> Result<(), Verdict>
    requires unasked { (limit : ℕ) × IsUnasked query.now limit feed.old.feed }
    requires trace { IsInStep false (roles_of feed.old role.Trace) }
    requires output { IsInStep false (roles_of feed.old role.Output) }
    requires stores { AreReady S.entries S.suits query.now size.cores stores }
    ensures outside { SameOutside feed.old feed.new }
    ensures checks { ChecksRun result query.now size.cores size.flight (feeding feed.old) (feeding feed.new) }
{
    let join = QueryJoin::new(query);
    let Ok(mut chain) = Chain::new(alloc, join, stores.left, stores.right, size.flight, feed) else {
        return Err(Verdict::Ended(Outcome::Memory));
    };
    let checked = check_begun(alloc, &mut chain, feed);
    // Dropped by a call, so that how its parts are let go is proved once for its type.
    drop(chain);
    checked
}

/// Checks the trace and the output against the steps of a chain that made none.
fn check_begun<'r, S: Store<SharedRow, QueryJoin<'r>> + Drop, O: Outside>(
    alloc: Global,
    chain: &mut Chain<SharedRow, QueryJoin<'r>, S>,
    feed: &mut AlwaysReady<'_, O>,
) -> Result<(), Verdict>
    requires goes { GoesWith holds chain.old (state_of feed.old) }
    requires trace { IsInStep false (roles_of feed.old role.Trace) }
    requires output { IsInStep false (roles_of feed.old role.Output) }
    ensures outside { SameOutside feed.old feed.new }
    ensures checks { (query : QueryParts) (n flight : ℕ) (start : Feeding) → IsUnplayed query n flight start chain.old (feeding feed.old)
        → ChecksRun result query n flight start (feeding feed.new) }
{
    go_on(feed)?;
    let trace = TextStream::new(Role::Trace);
    let output = OutputCheck::new();
    let line = Vec::new(alloc);
    let mut texts = ComparedTexts {
        trace,
        output,
        line,
    };
    check_lines(chain, feed, &mut texts)
}
