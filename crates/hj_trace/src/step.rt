ghost use Rattle.std.specs.Prelude.{◌≡◌, ◌++◌, [], ◌∷◌, ℕ, List, true, length, None, IfSome};
ghost use Rattle.std.specs.Option.{option_copied};
ghost use Rattle.hj_msg.specs.declared.event.Event.{Event as Events};
ghost use Rattle.hj_msg.specs.declared.feed.Given.{Given as Answer};
ghost use Rattle.hj_msg.specs.Feed.{Answers, GoesOverAnswers};
ghost use Rattle.hj_chain.specs.declared.actor.Actor.{Actor as Actors};
ghost use Rattle.hj_chain.specs.declared.actor.Stepped.{Stepped as Step};
ghost use Rattle.hj_chain.specs.Chain.{cause};
ghost use Rattle.hj_chain.specs.Reached.{StandsFor};
ghost use Rattle.hj_chain.specs.Reports.{queue_at};
ghost use Rattle.hj_chain.specs.Steps.{Gathers, GoesWith, StandsFurther, was_asked};
ghost use Rattle.hj_trace.specs.Steps.{Plays, added_at, waiting_at};

use crate::line::{push_front, push_reported};
use crate::looking::next_action;
use hj_base::Share;
use hj_chain::{Actor, Chain, Stepped};
use hj_msg::{Feed, Join, Report, Store};

/// Says how a step went that was to be made and told.
#[derive(Clone, Copy, Debug, PartialEq, Eq)]
pub enum Played {
    /// It was made, and its text was appended.
    Did,
    /// The actor isn't enabled.
    NotEnabled,
    /// Memory ran out.
    Memory,
}

/// Makes a step of an actor, if it is enabled, and appends to a line what it says behind the actor: what is taken, what is put to
/// the left and to the right, and what is reported. Where the actor isn't enabled, or memory runs out, anything may be appended.
pub fn play<P: Share + Drop, J: Join<P> + Drop, S: Store<P, J> + Drop, F: Feed<P>>(
    chain: &mut Chain<P, J, S>,
    actor: Actor,
    feed: &mut F,
    line: &mut Vec<u8>,
) -> Played
    requires { GoesWith J.predicate chain.old (F.state feed.old) }
    ensures plays { Plays F.gives F.ready (J.predicate chain.old.join) actor result chain.old feed.old chain.new feed.new line.old.items line.new.items }
    ensures asked { (answers : List (Answer P)) × GoesOverAnswers F.gives feed.old answers feed.new }
    ensures answers { result ≡ Played.Did → was_asked actor chain.old.state.next (F.ready feed.old) Step.Did ≡ true → IfSome chain.new.state.next (λ given. Answers given (F.state feed.old) (F.state feed.new)) }
    ensures join { chain.new.join ≡ chain.old.join }
    ensures gathers { result ≡ Played.Did → Gathers actor chain.old Step.Did chain.new }
    ensures goes { GoesWith J.predicate chain.new (F.state feed.new) }
    ensures stands { (schedule : List Actors) (events : List (Events P)) (given : ℕ) → StandsFor J.predicate chain.old schedule events given → result ≡ Played.Did
        → StandsFurther F.gives J.predicate (schedule ++ actor ∷ []) events given feed.old chain.new feed.new }
{
    let Some(next) = next_action(chain, actor) else {
        return Played::NotEnabled;
    };
    if push_front(line, &next, chain.cores()).is_err() {
        return Played::Memory;
    }
    let waited = waiting(chain, actor);
    match chain.step(actor, feed) {
        Stepped::NotEnabled(_) => return Played::NotEnabled,
        Stepped::Memory => return Played::Memory,
        Stepped::Did => {}
    }
    match push_reported(line, added(chain, actor, waited)) {
        Ok(()) => Played::Did,
        Err(_) => Played::Memory,
    }
}

/// Returns how many reports wait to be collected of the core that an actor is an end of.
fn waiting<P: Share + Drop, J: Join<P> + Drop, S: Store<P, J> + Drop>(
    chain: &Chain<P, J, S>,
    actor: Actor,
) -> usize
    ensures { result ≡ waiting_at actor chain.now.state.reports }
{
    match actor {
        Actor::Core(core, _) => chain.reports_waiting(core),
        _ => 0,
    }
}

/// Lends the report that was put last at the core that an actor is an end of, where more wait than these.
fn added<'a, P: Share + Drop, J: Join<P> + Drop, S: Store<P, J> + Drop>(
    chain: &'a Chain<P, J, S>,
    actor: Actor,
    waited: usize,
) -> Option<&'a Report<P>>
    ensures { option_copied result ≡ added_at actor waited chain.now.state.reports }
{
    let Actor::Core(core, _) = actor else {
        return None;
    };
    if chain.reports_waiting(core) > waited {
        chain.last_report(core)
    } else {
        None
    }
}
