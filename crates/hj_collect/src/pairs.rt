ghost use Rattle.std.specs.Prelude.{◌≡◌, ◌≢◌, ◌++◌, [], ◌∷◌, length, IfNone, IfOk, IfSome, OnOk};
ghost use Rattle.hj_msg.specs.Met.{pairs_of};

use hj_base::{Memory, Share};
use hj_msg::{Pair, Report};
use std::alloc::Global;

/// Makes the pairs of a report, each with rows of its own. Takes memory only if there are some.
pub(crate) fn pairs_of<P: Share + Drop>(
    alloc: Global,
    report: &Report<P>,
) -> Result<Vec<Pair<P>>, Memory>
    ensures { IfOk result (λ pairs. pairs.items ≡ pairs_of report.now) }
{
    let mut pairs = Vec::new(alloc);
    push_pairs(&mut pairs, report)?;
    Ok(pairs)
}

/// Puts the pairs of a report behind those of a list, each with rows of its own. Takes memory only if there are some; after an error
/// a part of them may be there.
pub(crate) fn push_pairs<P: Share + Drop>(
    pairs: &mut Vec<Pair<P>>,
    report: &Report<P>,
) -> Result<(), Memory>
    ensures { OnOk result (pairs.new.items ≡ pairs.old.items ++ pairs_of report.now) }
{
    let Report::Handled {
        no,
        side,
        row,
        partners,
    } = report
    else {
        return Ok(());
    };
    pairs.reserve(partners.len())?;
    for at in 0..partners.len() {
        let Some(partner) = partners.get(at) else {
            unreachable!()
        };
        pairs.push(Pair::of(*no, *side, row, partner)?)?;
    }
    Ok(())
}

/// Makes the pair of a report that has one, with rows of its own. None where there is none, or where there are several.
pub(crate) fn only_pair<P: Share + Drop>(report: &Report<P>) -> Result<Option<Pair<P>>, Memory>
    ensures one { IfOk result (λ found. IfSome found (λ pair. pairs_of report.now ≡ pair ∷ [])) }
    ensures none { IfOk result (λ found. IfNone found (length (pairs_of report.now) ≢ 1)) }
{
    let Report::Handled {
        no,
        side,
        row,
        partners,
    } = report
    else {
        return Ok(None);
    };
    if partners.len() != 1 {
        return Ok(None);
    }
    let Some(partner) = partners.get(0) else {
        unreachable!()
    };
    Ok(Some(Pair::of(*no, *side, row, partner)?))
}
