ghost use Rattle.std.specs.Prelude.{◌≡◌, ◌<◌, ℕ, List, true, Some, IfOk, IfSome};
ghost use Rattle.hj_value.specs.declared.field.Field.{Field};
ghost use Rattle.hj_msg.specs.declared.feed.Given.{Given};
ghost use Rattle.hj_msg.specs.Feed.{Answers, GoesOverAnswers};
ghost use Rattle.hj_query.specs.QueryParts.{QueryParts};
ghost use Rattle.hj_eval.specs.Holds.{holds};
ghost use Rattle.hj_chain.specs.declared.actor.Stepped.TheVariants as stepped;
ghost use Rattle.hj_chain.specs.Progress.{IsDone};
ghost use Rattle.hj_chain.specs.Steps.{GoesWith, was_asked};
ghost use Rattle.hj_stream.specs.Feeding.{Feeding};
ghost use Rattle.hj_replay.specs.Feeds.{SameOutside, gives, roles_of, state_of};
ghost use Rattle.hj_verify.specs.Checked.{AreOpen, ChecksLine, Checking, feeding, steps_left};
ghost use Rattle.hj_verify.specs.Making.{GoesOnOver, IsGivenUp, MakesStep};

use crate::Verdict;
use crate::beside::{next_maker, next_pairs, next_rest};
use crate::texts::ComparedTexts;
use hj_base::Outside;
use hj_chain::{Actor, Chain};
use hj_eval::QueryJoin;
use hj_msg::Store;
use hj_replay::AlwaysReady;
use hj_stream::Outcome;
use hj_trace::{Played, TraceFault, play};
use hj_value::SharedRow;

/// Makes the step of the actor of the line of this number, and makes in `line` what the line says behind the actor.
fn make_step<'r, S: Store<SharedRow, QueryJoin<'r>> + Drop, O: Outside>(
    chain: &mut Chain<SharedRow, QueryJoin<'r>, S>,
    actor: Actor,
    number: u64,
    feed: &mut AlwaysReady<'_, O>,
    line: &mut Vec<u8>,
) -> Result<(), Verdict>
    requires { GoesWith holds chain.old (state_of feed.old) }
    ensures asked { (answers : List (Given (List Field))) × GoesOverAnswers gives feed.old answers feed.new }
    ensures makes { MakesStep result number actor chain.old chain.new feed.old feed.new line.new.items }
    ensures answers { IfOk result (λ _. was_asked actor chain.old.state.next true stepped.Did ≡ true
        → IfSome chain.new.state.next (λ given. Answers given (state_of feed.old) (state_of feed.new))) }
    ensures join { chain.new.join ≡ chain.old.join }
    ensures goes { GoesWith holds chain.new (state_of feed.new) }
{
    line.clear();
    match play(chain, actor, feed, line) {
        Played::Did => go_on(feed),
        Played::NotEnabled => Err(Verdict::Refused(TraceFault::NotEnabled(number))),
        Played::Memory => Err(given_up(feed)),
    }
}

/// Goes on as long as no read of the events failed, and memory didn't run out for them.
pub(crate) fn go_on<O: Outside>(feed: &AlwaysReady<'_, O>) -> Result<(), Verdict>
    ensures { GoesOnOver feed.now.feed.ended result }
{
    match feed.feed.ended() {
        Some(outcome) => go_on_behind(outcome),
        None => Ok(()),
    }
}

/// Goes on over events that have ended so, unless a read of them failed or memory ran out for them.
fn go_on_behind(ended: Outcome) -> Result<(), Verdict>
    ensures { GoesOnOver (Some ended) result }
{
    match ended {
        Outcome::SourceFault(_) => Err(Verdict::Ended(ended)),
        Outcome::Memory => Err(Verdict::Ended(ended)),
        _ => Ok(()),
    }
}

/// Returns the verdict where memory ran out: that, or how the events failed before.
fn given_up<O: Outside>(feed: &AlwaysReady<'_, O>) -> Verdict
    ensures { IsGivenUp feed.now.feed.ended result }
{
    match go_on(feed) {
        Ok(()) => Verdict::Ended(Outcome::Memory),
        Err(verdict) => verdict,
    }
}

/// Checks the line of this number of a trace, where the chain isn't done, and makes its step: who makes it and the rest of the line
/// are read, and the lines of the pairs that are due then are compared with the output. The error is the verdict where something is
/// wrong, a read failed or memory ran out.
pub(crate) fn check_line<'r, S: Store<SharedRow, QueryJoin<'r>> + Drop, O: Outside>(
    chain: &mut Chain<SharedRow, QueryJoin<'r>, S>,
    feed: &mut AlwaysReady<'_, O>,
    texts: &mut ComparedTexts,
    number: u64,
) -> Result<(), Verdict>
    requires goes { GoesWith holds chain.old (state_of feed.old) }
    requires are_open { AreOpen (roles_of feed.old) texts.old.trace texts.old.output.stream }
    ensures outside { SameOutside feed.old feed.new }
    ensures goes { GoesWith holds chain.new (state_of feed.new) }
    ensures are_open { AreOpen (roles_of feed.new) texts.new.trace texts.new.output.stream }
    ensures fewer { IfOk result (λ _. steps_left chain.new.state (state_of feed.new) < steps_left chain.old.state (state_of feed.old)) }
    ensures checks { (query : QueryParts) (n flight : ℕ) (start : Feeding)
        → Checking query n flight start number chain.old (feeding feed.old) texts.old.trace texts.old.output
        → (IsDone chain.old.state → ⊥)
        → ChecksLine result query n flight start number chain.new (feeding feed.new) texts.new.trace texts.new.output }
{
    let actor = next_maker(&mut texts.trace, number, &mut feed.feed)?;
    make_step(chain, actor, number, feed, &mut texts.line)?;
    next_rest(&mut texts.trace, &texts.line, number, &mut feed.feed)?;
    match actor {
        Actor::Collect(_) => next_pairs(chain, &mut texts.output, &mut texts.line, &mut feed.feed),
        _ => Ok(()),
    }
}
