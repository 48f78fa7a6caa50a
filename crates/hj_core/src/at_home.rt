ghost use Rattle.std.specs.Prelude.{◌≡◌, ◌↔◌, ℕ, true, OnErr, OnOk, IfOk, MatchOption};
ghost use Rattle.std.specs.Option.{ForSome};
ghost use Rattle.hj_base.specs.declared.numbers.Side.{Side as Sides};
ghost use Rattle.hj_msg.specs.Core.{is_home};
ghost use Rattle.hj_msg.specs.Store.{with_entry, with_settled, without_entry};
ghost use Rattle.hj_core.specs.Homes.{AreAtHome};
ghost use Rattle.hj_core.specs.Ready.{IsReadyRow};

use crate::place::CorePlace;
use hj_base::{EventNo, Memory, Share};
use hj_msg::{Join, Store};

/// Makes a row equal to this one, and a place for it in a store, if this is its home.
#[inline(always)]
pub(crate) fn share_at_home<P: Share + Drop, J: Join<P>, S: Store<P, J>>(
    store: &mut S,
    place: &CorePlace,
    no: EventNo,
    row: &P,
) -> Result<Option<P>, Memory>
    ensures entries { S.entries store.new ≡ S.entries store.old }
    ensures suits { (side : Sides) (join : J) → S.suits store.new side join ↔ S.suits store.old side join }
    ensures ready { IfOk result (IsReadyRow (is_home place.now.place place.now.cores no.0) row.now (S.has_place store.new no.0 row.now)) }
{
    if place.is_home(no) {
        store.reserve(no, row)?;
        Ok(Some(row.share()?))
    } else {
        Ok(None)
    }
}

/// Puts the row that rests here, if one does, into its store.
#[inline(always)]
pub(crate) fn rest_at_home<P: Drop, J: Join<P>, S: Store<P, J>>(
    store: &mut S,
    no: EventNo,
    resting: Option<P>,
    settled: bool,
)
    requires { ForSome resting (S.has_place store.old no.0) }
    ensures entries { MatchOption resting (S.entries store.new ≡ S.entries store.old)
        (λ row. S.entries store.new ≡ with_entry (record { no = no.0; row = row; settled = settled }) (S.entries store.old)) }
    ensures home { (place cores : ℕ) → ForSome resting (λ row. is_home place cores no.0 ≡ true)
        → AreAtHome place cores (S.entries store.old) → AreAtHome place cores (S.entries store.new) }
    ensures suits { (side : Sides) (join : J) → S.suits store.new side join ↔ S.suits store.old side join }
{
    if let Some(row) = resting {
        store.insert(no, row, settled);
    }
}

/// Puts a row that is equal to this one at rest in a store. After an error the store has the rows that it had.
#[inline(always)]
pub(crate) fn put_at_rest<P: Drop, J: Join<P>, S: Store<P, J>>(
    store: &mut S,
    no: EventNo,
    row: &P,
    resting: P,
    settled: bool,
) -> Result<(), Memory>
    requires { resting ≡ row.now }
    ensures entries { OnOk result (S.entries store.new ≡ with_entry (record { no = no.0; row = row.now; settled = settled }) (S.entries store.old)) }
    ensures unchanged { OnErr result (S.entries store.new ≡ S.entries store.old) }
    ensures home { (place cores : ℕ) → is_home place cores no.0 ≡ true → AreAtHome place cores (S.entries store.old) → AreAtHome place cores (S.entries store.new) }
    ensures suits { (side : Sides) (join : J) → S.suits store.new side join ↔ S.suits store.old side join }
{
    store.reserve(no, row)?;
    store.insert(no, resting, settled);
    Ok(())
}

/// Settles the row of a number in a store, which has none but those whose home is here.
#[inline(always)]
pub(crate) fn settle_at_home<P: Drop, J: Join<P>, S: Store<P, J>>(
    store: &mut S,
    place: &CorePlace,
    no: EventNo,
)
    requires { AreAtHome place.now.place place.now.cores (S.entries store.old) }
    ensures entries { S.entries store.new ≡ with_settled no.0 (S.entries store.old) }
    ensures home { AreAtHome place.now.place place.now.cores (S.entries store.new) }
    ensures suits { (side : Sides) (join : J) → S.suits store.new side join ↔ S.suits store.old side join }
{
    if place.is_home(no) {
        store.settle(no);
    }
}

/// Removes the row of a number from a store, which has none but those whose home is here.
#[inline(always)]
pub(crate) fn remove_at_home<P: Drop, J: Join<P>, S: Store<P, J>>(
    store: &mut S,
    place: &CorePlace,
    no: EventNo,
)
    requires { AreAtHome place.now.place place.now.cores (S.entries store.old) }
    ensures entries { S.entries store.new ≡ without_entry no.0 (S.entries store.old) }
    ensures home { AreAtHome place.now.place place.now.cores (S.entries store.new) }
    ensures suits { (side : Sides) (join : J) → S.suits store.new side join ↔ S.suits store.old side join }
{
    if place.is_home(no) {
        store.remove(no);
    }
}
