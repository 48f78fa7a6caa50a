ghost use Rattle.std.specs.Prelude.{◌≡◌, List, ℕ, false};
ghost use Rattle.hj_base.specs.Outside.{ChangesOnly, RoleState, NamesStay};
ghost use Rattle.hj_base.specs.declared.outside.Role.TheVariants as role;
ghost use Rattle.hj_trace.specs.Stream.{GoesWithRole as IsReadOf, TextStreamState, Uses};
ghost use Rattle.hj_verify.specs.Lines.{EndsTrace, ReadsMaker, ReadsRest};

use crate::Verdict;
use hj_base::{Outside, Role};
use hj_chain::Actor;
use hj_stream::Outcome;
use hj_trace::{ActorFound, Compared, NextByte, TextStream, TraceFault};

/// What is to be thought of a trace of which a read failed.
const UNREAD: Verdict = Verdict::Ended(Outcome::SourceFault(Role::Trace));

/// Reads who makes the step of the line of this number, and the comma behind. The trace isn't to end before.
pub(crate) fn read_maker<O: Outside>(
    trace: &mut TextStream,
    number: u64,
    outside: &mut O,
) -> Result<Actor, Verdict>
    requires { IsReadOf trace.old (O.state outside.old trace.old.role) }
    ensures role { trace.new.role ≡ trace.old.role }
    ensures read { IsReadOf trace.new (O.state outside.new trace.new.role) }
    ensures reads { (text : List ℕ) (start : TextStreamState) (before : RoleState)
        → Uses false text start before trace.old (O.state outside.old trace.old.role)
        → ReadsMaker result number text start before trace.new (O.state outside.new trace.new.role) }
    ensures others { ChangesOnly trace.old.role (O.state outside.old) (O.state outside.new) }
    ensures names { NamesStay (O.under outside.old) (O.under outside.new) }
{
    match trace.look(outside) {
        NextByte::Byte(_) => {}
        NextByte::End => return Err(Verdict::Refused(TraceFault::Early(number))),
        NextByte::Failed => return Err(UNREAD),
    }
    match trace.actor(outside) {
        ActorFound::Actor(actor) => Ok(actor),
        ActorFound::Other => Err(Verdict::Refused(TraceFault::Form(number))),
        ActorFound::Failed => Err(UNREAD),
    }
}

/// Reads the rest of the line of this number, which is to be this.
pub(crate) fn read_rest<O: Outside>(
    trace: &mut TextStream,
    expected: &[u8],
    number: u64,
    outside: &mut O,
) -> Result<(), Verdict>
    requires { IsReadOf trace.old (O.state outside.old trace.old.role) }
    ensures role { trace.new.role ≡ trace.old.role }
    ensures read { IsReadOf trace.new (O.state outside.new trace.new.role) }
    ensures reads { (text : List ℕ) (start : TextStreamState) (before : RoleState)
        → Uses false text start before trace.old (O.state outside.old trace.old.role)
        → ReadsRest result expected.now number text start before trace.new (O.state outside.new trace.new.role) }
    ensures others { ChangesOnly trace.old.role (O.state outside.old) (O.state outside.new) }
    ensures names { NamesStay (O.under outside.old) (O.under outside.new) }
{
    match trace.compare(expected, outside) {
        Compared::Same => Ok(()),
        Compared::Differs(_) => Err(Verdict::Refused(TraceFault::Text(number))),
        Compared::Failed => Err(UNREAD),
    }
}

/// Reads the end of a trace, which is to stand where the line of this number would begin.
pub(crate) fn read_end<O: Outside>(
    trace: &mut TextStream,
    number: u64,
    outside: &mut O,
) -> Result<(), Verdict>
    requires { IsReadOf trace.old (O.state outside.old trace.old.role) }
    ensures reads { (text : List ℕ) (start : TextStreamState) (before : RoleState)
        → Uses false text start before trace.old (O.state outside.old trace.old.role)
        → EndsTrace result number text start before trace.new (O.state outside.new trace.new.role) }
    ensures others { ChangesOnly trace.old.role (O.state outside.old) (O.state outside.new) }
    ensures names { NamesStay (O.under outside.old) (O.under outside.new) }
{
    match trace.look(outside) {
        NextByte::End => Ok(()),
        NextByte::Byte(_) => Err(Verdict::Refused(TraceFault::Late(number))),
        NextByte::Failed => Err(UNREAD),
    }
}
