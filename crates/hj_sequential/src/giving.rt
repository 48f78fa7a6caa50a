ghost use Rattle.hj_msg.specs.declared.message.Report.TheVariants.{Handled};
ghost use Rattle.hj_msg.specs.Met.{pairs_of};
ghost use Rattle.hj_sequential.specs.Giving.{GivesListed};

use hj_base::{EventNo, Share, Side};
use hj_msg::{Drain, Drained, Fin, Pair, Partners};

/// Gives the pairs of a row of `side` and of its partners to a drain, one after the other, up to the first one that it refuses.
#[inline(always)]
pub(crate) fn give<P: Share + Drop, D: Drain<P>>(
    no: EventNo,
    side: Side,
    row: &P,
    partners: &Partners<P>,
    drain: &mut D,
) -> Fin
    ensures { GivesListed D.takes (pairs_of (Handled no side row.now partners.now)) result drain.old drain.new }
{
    for at in 0..partners.len() {
        let Some(partner) = partners.get(at) else {
            unreachable!()
        };
        let Ok(pair) = Pair::of(no, side, row, partner) else {
            return Fin::Memory;
        };
        if drain.pair(pair) == Drained::Refused {
            return Fin::Refused;
        }
    }
    Fin::Done
}
