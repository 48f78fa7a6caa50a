ghost use Rattle.std.specs.Prelude.{◌≡◌, ◌++◌, List, ℕ, take};
ghost use Rattle.hj_base.specs.Outside.{ChangesOnly, RoleState, NamesStay};
ghost use Rattle.hj_value.specs.declared.field.Field.{Field};
ghost use Rattle.hj_msg.specs.declared.event.Event.{Event};
ghost use Rattle.hj_msg.specs.declared.event.Pair.{Pair as Pairs};
ghost use Rattle.hj_msg.specs.Feed.{FeedState};
ghost use Rattle.hj_eval.specs.Holds.{holds};
ghost use Rattle.hj_chain.specs.declared.actor.Actor.{Actor as Actors};
ghost use Rattle.hj_chain.specs.Steps.{GoesWith};
ghost use Rattle.hj_stream.specs.JoinText.{pair_line, text as lines_of};
ghost use Rattle.hj_trace.specs.Stream.{GoesWithRole as IsReadOf, TextStreamState};
ghost use Rattle.hj_verify.specs.Due.{ChecksDue, ChainHasGiven};
ghost use Rattle.hj_verify.specs.Output.{OutputAgrees, ComparesOn};

use crate::Verdict;
use crate::output::OutputCheck;
use hj_base::{Memory, Outside};
use hj_chain::Chain;
use hj_eval::QueryJoin;
use hj_msg::{Pair, Store};
use hj_stream::{JoinedLine, Outcome, PairLine};
use hj_value::SharedRow;

/// Takes the pairs that are due of a chain, and compares their lines with the output.
pub(crate) fn check_due<'r, S: Store<SharedRow, QueryJoin<'r>> + Drop, O: Outside>(
    chain: &mut Chain<SharedRow, QueryJoin<'r>, S>,
    output: &mut OutputCheck,
    line: &mut Vec<u8>,
    outside: &mut O,
) -> Result<(), Verdict>
    requires chain { (feed : FeedState) × GoesWith holds chain.old feed }
    requires output { IsReadOf output.old.stream (O.state outside.old output.old.stream.role) }
    ensures state { chain.new.state ≡ chain.old.state }
    ensures join { chain.new.join ≡ chain.old.join }
    ensures goes { (feed : FeedState) → GoesWith holds chain.old feed → GoesWith holds chain.new feed }
    ensures role { output.new.stream.role ≡ output.old.stream.role }
    ensures read { IsReadOf output.new.stream (O.state outside.new output.new.stream.role) }
    ensures checks { (schedule : List Actors) (events : List (Event (List Field))) (given : ℕ) (pairs : List (Pairs (List Field)))
        (start : TextStreamState) (before : RoleState)
        → ChainHasGiven chain.old schedule events given pairs
        → OutputAgrees (lines_of (take given pairs)) start before output.old (O.state outside.old output.old.stream.role)
        → ChecksDue result chain.new schedule events pairs start before output.new (O.state outside.new output.new.stream.role) }
    ensures others { ChangesOnly output.old.stream.role (O.state outside.old) (O.state outside.new) }
    ensures names { NamesStay (O.under outside.old) (O.under outside.new) }
{
    while let Some(pair) = chain.pair() {
        check_pair(&pair, output, line, outside)?;
    }
    Ok(())
}

/// Compares the line of a pair with the output. The line is made in `line`, which keeps nothing of what it held.
fn check_pair<O: Outside>(
    pair: &Pair<SharedRow>,
    output: &mut OutputCheck,
    line: &mut Vec<u8>,
    outside: &mut O,
) -> Result<(), Verdict>
    requires { IsReadOf output.old.stream (O.state outside.old output.old.stream.role) }
    ensures role { output.new.stream.role ≡ output.old.stream.role }
    ensures read { IsReadOf output.new.stream (O.state outside.new output.new.stream.role) }
    ensures compares { (text : List ℕ) (start : TextStreamState) (before : RoleState)
        → OutputAgrees text start before output.old (O.state outside.old output.old.stream.role)
        → ComparesOn result (text ++ pair_line pair.now) start before output.new (O.state outside.new output.new.stream.role) }
    ensures others { ChangesOnly output.old.stream.role (O.state outside.old) (O.state outside.new) }
    ensures names { NamesStay (O.under outside.old) (O.under outside.new) }
{
    match JoinedLine.fill(line, pair) {
        Ok(start) => output.compare(&line[start..], outside),
        Err(Memory) => Err(Verdict::Ended(Outcome::Memory)),
    }
}
