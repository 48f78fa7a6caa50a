ghost use Rattle.std.specs.Prelude.{◌≡◌, ◌++◌, Bool, List};
ghost use Rattle.hj_msg.specs.declared.event.Event.{Event};
ghost use Rattle.hj_msg.specs.Event.{IsWellFormed};
ghost use Rattle.hj_msg.specs.Feed.{GoesOver};
ghost use Rattle.hj_msg.specs.GoesOn.{GoesOnWith};
ghost use Rattle.hj_msg.specs.Kang.{kang, kang_from, windows_after};
ghost use Rattle.hj_msg.specs.Valid.{IsListOfMatches};

use crate::Feed;

/// Shows that the sequential join of any well-formed events, by any predicate, is exactly the list of the valid pairs
/// that satisfy it: each once, by the later number and then by the earlier one.
pub fn join_lists_each_match_once<P>()
    ensures { (matches : P → P → Bool) (events : List (Event P)) → IsWellFormed events → IsListOfMatches matches events }
{}

/// Shows that the join of the first events begins the join of all: the rest is what the later events list, from the
/// windows that the first ones leave.
#[tactic(auto, using(crate::proofs::Windows::join_of_both))]
pub fn join_of_prefix_is_prefix<P>()
    ensures { (matches : P → P → Bool) (front rest : List (Event P)) → kang matches (front ++ rest) ≡ kang matches front ++ kang_from matches (windows_after front) rest }
{}

/// Shows that a prefix of a well-formed list of events is well formed.
#[tactic(auto, using(crate::proofs::Numbered::front_is_well_formed))]
pub fn prefix_is_well_formed<P>()
    ensures { (front rest : List (Event P)) → IsWellFormed (front ++ rest) → IsWellFormed front }
{}

/// Shows of every feed: where its numbering goes on with well-formed events, those with what it gives next behind them are well
/// formed too, and its numbering goes on with these.
pub fn feeds_stay_well_formed<P, F: Feed<P>>()
    ensures { (events taken : List (Event P)) (from to : F) → GoesOnWith events (F.state from) → GoesOver F.gives from taken to → GoesOnWith (events ++ taken) (F.state to) }
{}
