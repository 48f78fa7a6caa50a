ghost use Rattle.std.specs.Prelude.{◌≡◌, ◌≢◌, ◌≤◌, ℕ, List, None, Some, true, IfSome};
ghost use Rattle.hj_base.specs.declared.output.Sent.TheVariants as sent;
ghost use Rattle.hj_base.specs.declared.outside.Role.{Role as Roles};
ghost use Rattle.hj_base.specs.Output.{CountsFaults, SendsPiece};
ghost use Rattle.hj_value.specs.declared.field.Field.{Field};
ghost use Rattle.hj_msg.specs.declared.feed.Given.{Given};
ghost use Rattle.hj_msg.specs.Feed.{Answers, FeedState, event_in};
ghost use Rattle.hj_chain.specs.declared.actor.Stepped.TheVariants as stepped;
ghost use Rattle.hj_chain.specs.Chain.{cause, empty_chain};
ghost use Rattle.hj_chain.specs.Steps.{GoesWith, Steps, was_asked};
ghost use Rattle.hj_eval.specs.Holds.{holds};
ghost use Rattle.hj_stream.specs.declared.outcome.Outcome.TheVariants as outcome;
ghost use Rattle.hj_trace.specs.Line.{line_text};
ghost use Rattle.hj_replay.specs.Feeds.{Fed, gives, state_of};
ghost use Rattle.hj_replay.specs.Writing.{WritesLines};

use crate::AlwaysReady;
use hj_base::{Outside, Sent, Sink, put_all};
use hj_chain::{Actor, Chain, Chooser};
use hj_eval::QueryJoin;
use hj_msg::Store;
use hj_stream::Outcome;
use hj_trace::{Naming, Played, play, push_maker};
use hj_value::SharedRow;
use std::alloc::Global;

/// Makes the steps of a chain that made none, in the order of a rule, and writes the line of each one.
pub(crate) fn write_lines<'r, S: Store<SharedRow, QueryJoin<'r>> + Drop, O: Outside, K: Sink>(
    alloc: Global,
    chain: &mut Chain<SharedRow, QueryJoin<'r>, S>,
    chooser: Chooser,
    feed: &mut AlwaysReady<'_, O>,
    out: &mut K,
) -> Sent
    requires { GoesWith holds chain.old (state_of feed.old) }
    ensures writes { (n flight : ℕ) (first : Given (List Field)) → 1 ≤ n → 1 ≤ flight
        → chain.old.state ≡ empty_chain n flight first
        → WritesLines (holds chain.old.join) chooser n flight (event_in (Some first)) result feed.old feed.new
        (K.told out.old) (K.told out.new) }
    ensures feed { Fed feed.old feed.new }
    ensures faults { CountsFaults result (K.faults out.old) (K.faults out.new) }
{
    if feed.feed.ended() == Some(Outcome::Memory) {
        return Sent::Memory;
    }
    let mut naming = Naming::new(chooser);
    let mut line = Vec::new(alloc);
    while let Some(actor) = naming.name(chain) {
        match write_line(chain, actor, feed, &mut line, out) {
            Sent::Whole => {}
            other => return other,
        }
    }
    Sent::Whole
}

/// Makes the step of an actor that is enabled, and writes its line. The pairs that are due then are let go.
fn write_line<'r, S: Store<SharedRow, QueryJoin<'r>> + Drop, O: Outside, K: Sink>(
    chain: &mut Chain<SharedRow, QueryJoin<'r>, S>,
    actor: Actor,
    feed: &mut AlwaysReady<'_, O>,
    line: &mut Vec<u8>,
    out: &mut K,
) -> Sent
    requires goes { GoesWith holds chain.old (state_of feed.old) }
    requires enabled { cause chain.old.state actor ≡ None }
    ensures feed { Fed feed.old feed.new }
    ensures sends { SendsPiece result (line_text (holds chain.old.join) chain.old.state actor) (K.told out.old) (K.told out.new) }
    ensures faults { CountsFaults result (K.faults out.old) (K.faults out.new) }
    ensures step { result ≡ sent.Whole
        → Steps gives (λ _. true) (holds chain.old.join) actor chain.old.state feed.old stepped.Did chain.new.state feed.new }
    ensures answers { result ≡ sent.Whole
        → was_asked actor chain.old.state.next true stepped.Did ≡ true
        → IfSome chain.new.state.next (λ given. Answers given (state_of feed.old) (state_of feed.new)) }
    ensures ran { result ≡ sent.Whole → feed.new.feed.ended ≢ Some outcome.Memory }
    ensures join { chain.new.join ≡ chain.old.join }
    ensures goes { GoesWith holds chain.new (state_of feed.new) }
{
    line.clear();
    if push_maker(line, actor).is_err() {
        return Sent::Memory;
    }
    match play(chain, actor, feed, line) {
        Played::Did => {}
        Played::NotEnabled => unreachable!(),
        Played::Memory => return Sent::Memory,
    }
    if feed.feed.ended() == Some(Outcome::Memory) {
        return Sent::Memory;
    }
    if let Actor::Collect(_) = actor {
        drop_due(chain);
    }
    put_all(out, line)
}

/// Takes the pairs that are due of a chain.
fn drop_due<'r, S: Store<SharedRow, QueryJoin<'r>> + Drop>(
    chain: &mut Chain<SharedRow, QueryJoin<'r>, S>,
)
    requires { (feed : FeedState) × GoesWith holds chain.old feed }
    ensures state { chain.new.state ≡ chain.old.state }
    ensures join { chain.new.join ≡ chain.old.join }
    ensures goes { (feed : FeedState) → GoesWith holds chain.old feed → GoesWith holds chain.new feed }
{
    while let Some(_) = chain.pair() {}
}
