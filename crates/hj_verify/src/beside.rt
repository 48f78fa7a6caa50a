#![tactic(auto, using(crate::proofs::Open::others_stay, crate::proofs::Open::in_step_beside))]

ghost use Rattle.std.specs.Prelude.{◌≡◌, ℕ, List, false, take};
ghost use Rattle.hj_base.specs.Outside.{RoleState};
ghost use Rattle.hj_base.specs.declared.outside.Role.TheVariants as role;
ghost use Rattle.hj_value.specs.declared.field.Field.{Field};
ghost use Rattle.hj_msg.specs.declared.event.Event.{Event};
ghost use Rattle.hj_msg.specs.declared.event.Pair.{Pair};
ghost use Rattle.hj_msg.specs.Feed.{FeedState};
ghost use Rattle.hj_eval.specs.Holds.{holds};
ghost use Rattle.hj_chain.specs.declared.actor.Actor.{Actor as Actors};
ghost use Rattle.hj_chain.specs.Steps.{GoesWith};
ghost use Rattle.hj_stream.specs.JoinText.{text as lines_of};
ghost use Rattle.hj_trace.specs.Stream.{GoesWithRole as IsReadOf, TextStreamState, Uses};
ghost use Rattle.hj_verify.specs.Beside.{ReadsBeside};
ghost use Rattle.hj_verify.specs.Due.{ChecksDue, ChainHasGiven};
ghost use Rattle.hj_verify.specs.Lines.{EndsTrace, ReadsMaker, ReadsRest};
ghost use Rattle.hj_verify.specs.Output.{OutputAgrees, EndsOutput};

use crate::Verdict;
use crate::output::OutputCheck;
use crate::pairs::check_due;
use crate::trace::{read_end, read_maker, read_rest};
use hj_base::Outside;
use hj_chain::{Actor, Chain};
use hj_eval::QueryJoin;
use hj_msg::Store;
use hj_stream::EventFeed;
use hj_trace::TextStream;
use hj_value::SharedRow;

/// Does what `read_maker` does in the outside of a feed.
pub(crate) fn next_maker<O: Outside>(
    trace: &mut TextStream,
    number: u64,
    feed: &mut EventFeed<'_, O>,
) -> Result<Actor, Verdict>
    requires of { trace.old.role ≡ role.Trace }
    requires goes { IsReadOf trace.old (O.state feed.old.outside.now trace.old.role) }
    ensures beside { ReadsBeside role.Trace feed.old feed.new }
    ensures role { trace.new.role ≡ trace.old.role }
    ensures read { IsReadOf trace.new (O.state feed.new.outside.now trace.new.role) }
    ensures reads { (text : List ℕ) (start : TextStreamState) (before : RoleState)
        → Uses false text start before trace.old (O.state feed.old.outside.now trace.old.role)
        → ReadsMaker result number text start before trace.new (O.state feed.new.outside.now trace.new.role) }
{
    read_maker(trace, number, feed.outside)
}

/// Does what `read_rest` does in the outside of a feed.
pub(crate) fn next_rest<O: Outside>(
    trace: &mut TextStream,
    expected: &[u8],
    number: u64,
    feed: &mut EventFeed<'_, O>,
) -> Result<(), Verdict>
    requires of { trace.old.role ≡ role.Trace }
    requires goes { IsReadOf trace.old (O.state feed.old.outside.now trace.old.role) }
    ensures beside { ReadsBeside role.Trace feed.old feed.new }
    ensures role { trace.new.role ≡ trace.old.role }
    ensures read { IsReadOf trace.new (O.state feed.new.outside.now trace.new.role) }
    ensures reads { (text : List ℕ) (start : TextStreamState) (before : RoleState)
        → Uses false text start before trace.old (O.state feed.old.outside.now trace.old.role)
        → ReadsRest result expected.now number text start before trace.new (O.state feed.new.outside.now trace.new.role) }
{
    read_rest(trace, expected, number, feed.outside)
}

/// Does what `read_end` does in the outside of a feed.
pub(crate) fn trace_end<O: Outside>(
    trace: &mut TextStream,
    number: u64,
    feed: &mut EventFeed<'_, O>,
) -> Result<(), Verdict>
    requires of { trace.old.role ≡ role.Trace }
    requires goes { IsReadOf trace.old (O.state feed.old.outside.now trace.old.role) }
    ensures beside { ReadsBeside role.Trace feed.old feed.new }
    ensures reads { (text : List ℕ) (start : TextStreamState) (before : RoleState)
        → Uses false text start before trace.old (O.state feed.old.outside.now trace.old.role)
        → EndsTrace result number text start before trace.new (O.state feed.new.outside.now trace.new.role) }
{
    read_end(trace, number, feed.outside)
}

/// Does what `check_due` does in the outside of a feed.
pub(crate) fn next_pairs<'r, S: Store<SharedRow, QueryJoin<'r>> + Drop, O: Outside>(
    chain: &mut Chain<SharedRow, QueryJoin<'r>, S>,
    output: &mut OutputCheck,
    line: &mut Vec<u8>,
    feed: &mut EventFeed<'_, O>,
) -> Result<(), Verdict>
    requires chain { (state : FeedState) × GoesWith holds chain.old state }
    requires of { output.old.stream.role ≡ role.Output }
    requires goes { IsReadOf output.old.stream (O.state feed.old.outside.now output.old.stream.role) }
    ensures state { chain.new.state ≡ chain.old.state }
    ensures join { chain.new.join ≡ chain.old.join }
    ensures goes { (state : FeedState) → GoesWith holds chain.old state → GoesWith holds chain.new state }
    ensures beside { ReadsBeside role.Output feed.old feed.new }
    ensures role { output.new.stream.role ≡ output.old.stream.role }
    ensures read { IsReadOf output.new.stream (O.state feed.new.outside.now output.new.stream.role) }
    ensures checks { (schedule : List Actors) (events : List (Event (List Field))) (given : ℕ) (pairs : List (Pair (List Field)))
        (start : TextStreamState) (before : RoleState)
        → ChainHasGiven chain.old schedule events given pairs
        → OutputAgrees (lines_of (take given pairs)) start before output.old (O.state feed.old.outside.now output.old.stream.role)
        → ChecksDue result chain.new schedule events pairs start before output.new (O.state feed.new.outside.now output.new.stream.role) }
{
    check_due(chain, output, line, feed.outside)
}

/// Does what `OutputCheck::end` does in the outside of a feed.
pub(crate) fn output_end<O: Outside>(
    output: &mut OutputCheck,
    feed: &mut EventFeed<'_, O>,
) -> Result<(), Verdict>
    requires of { output.old.stream.role ≡ role.Output }
    requires goes { IsReadOf output.old.stream (O.state feed.old.outside.now output.old.stream.role) }
    ensures beside { ReadsBeside role.Output feed.old feed.new }
    ensures ends { (text : List ℕ) (start : TextStreamState) (before : RoleState)
        → OutputAgrees text start before output.old (O.state feed.old.outside.now output.old.stream.role)
        → EndsOutput result text start before output.new.stream (O.state feed.new.outside.now output.new.stream.role) }
{
    output.end(feed.outside)
}
