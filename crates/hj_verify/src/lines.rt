ghost use Rattle.std.specs.Prelude.{◌≡◌, ℕ, List};
ghost use Rattle.hj_query.specs.QueryParts.{QueryParts};
ghost use Rattle.hj_eval.specs.Holds.{holds};
ghost use Rattle.hj_chain.specs.Progress.{IsDone};
ghost use Rattle.hj_chain.specs.Steps.{GoesWith};
ghost use Rattle.hj_stream.specs.Feeding.{Feeding};
ghost use Rattle.hj_replay.specs.Feeds.{SameOutside, roles_of, state_of};
ghost use Rattle.hj_verify.specs.Checked.{AreOpen, ChecksAll, Checking, NumbersOn, feeding};

use crate::Verdict;
use crate::beside::{next_pairs, output_end, trace_end};
use crate::line::check_line;
use crate::texts::ComparedTexts;
use hj_base::Outside;
use hj_chain::Chain;
use hj_eval::QueryJoin;
use hj_msg::Store;
use hj_replay::AlwaysReady;
use hj_stream::Outcome;
use hj_value::SharedRow;

/// Checks a trace, line by line, and an output, against the steps of a chain that made none. The error is the verdict where
/// something is wrong, a read failed or memory ran out.
pub(crate) fn check_lines<'r, S: Store<SharedRow, QueryJoin<'r>> + Drop, O: Outside>(
    chain: &mut Chain<SharedRow, QueryJoin<'r>, S>,
    feed: &mut AlwaysReady<'_, O>,
    texts: &mut ComparedTexts,
) -> Result<(), Verdict>
    requires goes { GoesWith holds chain.old (state_of feed.old) }
    requires are_open { AreOpen (roles_of feed.old) texts.old.trace texts.old.output.stream }
    ensures outside { SameOutside feed.old feed.new }
    ensures checks { (query : QueryParts) (n flight : ℕ) (start : Feeding)
        → Checking query n flight start 1 chain.old (feeding feed.old) texts.old.trace texts.old.output
        → ChecksAll result query n flight start (feeding feed.new) texts.new.trace texts.new.output.stream }
{
    let mut number = 1;
    while !chain.done() {
        check_line(chain, feed, texts, number)?;
        number = next_number(number)?;
    }
    check_ends(chain, feed, texts, number)
}

/// Returns the number of the next line. A trace of 2^64 lines and more is given up as one for which there is no memory.
fn next_number(number: u64) -> Result<u64, Verdict>
    ensures { NumbersOn result number }
{
    match number.checked_add(1) {
        Some(next) => Ok(next),
        None => Err(Verdict::Ended(Outcome::Memory)),
    }
}

/// Checks that a trace ends where the line of this number would begin, and the output with the lines of the pairs, where the chain is
/// done.
fn check_ends<'r, S: Store<SharedRow, QueryJoin<'r>> + Drop, O: Outside>(
    chain: &mut Chain<SharedRow, QueryJoin<'r>, S>,
    feed: &mut AlwaysReady<'_, O>,
    texts: &mut ComparedTexts,
    number: u64,
) -> Result<(), Verdict>
    requires goes { GoesWith holds chain.old (state_of feed.old) }
    requires are_open { AreOpen (roles_of feed.old) texts.old.trace texts.old.output.stream }
    ensures outside { SameOutside feed.old feed.new }
    ensures checks { (query : QueryParts) (n flight : ℕ) (start : Feeding)
        → Checking query n flight start number chain.old (feeding feed.old) texts.old.trace texts.old.output
        → IsDone chain.old.state → ChecksAll result query n flight start (feeding feed.new) texts.new.trace texts.new.output.stream }
{
    next_pairs(chain, &mut texts.output, &mut texts.line, &mut feed.feed)?;
    trace_end(&mut texts.trace, number, &mut feed.feed)?;
    output_end(&mut texts.output, &mut feed.feed)
}
