ghost use Rattle.std.specs.Prelude.{◌≡◌, ◌↔◌, ℕ, List, [], OnOk};
ghost use Rattle.hj_base.specs.declared.numbers.Side.{Side};
ghost use Rattle.hj_msg.specs.Store.{Resting, AreDistinct, holds, settled_matches, with_entry, with_settled, without_entry};

use crate::{Join, Partners};
use hj_base::{EventNo, Memory, Side};

/// The rows of one stream that rest at a core, seen as the list of them. Each has the number of its arrival, which no
/// other one has, and is settled or unsettled.
pub trait Store<P, J: Join<P>> {
    /// The rows at rest.
    ghost entries: { Self → List (Resting P) };

    /// There is a place for a row under a number, so that it is inserted without memory.
    ghost has_place: { Self → ℕ → P → Type 0 };

    /// Probes may be made by this join, of rows of this side.
    ghost suits: { Self → Side → J → Type 0 };

    /// Makes a place for a row. A place made before may be gone then, also if memory ran out.
    fn reserve(&mut self, no: EventNo, row: &P) -> Result<(), Memory>
        ensures entries { entries self.new ≡ entries self.old }
        ensures place { OnOk result (has_place self.new no.0 row.now) }
        ensures distinct { AreDistinct (entries self.new) }
        ensures suits { (side : Side) (join : J) → suits self.new side join ↔ suits self.old side join };

    /// Puts a row under its number: in place of the one that has it, or else after all others.
    fn insert(&mut self, no: EventNo, row: P, settled: bool)
        requires { has_place self.old no.0 row }
        ensures entries { entries self.new ≡ with_entry (record { no = no.0; row = row; settled = settled }) (entries self.old) }
        ensures distinct { AreDistinct (entries self.new) }
        ensures suits { (side : Side) (join : J) → suits self.new side join ↔ suits self.old side join };

    /// Settles the row of a number; false exactly if there is none.
    fn settle(&mut self, no: EventNo) -> bool
        ensures held { result ≡ holds no.0 (entries self.old) }
        ensures entries { entries self.new ≡ with_settled no.0 (entries self.old) }
        ensures distinct { AreDistinct (entries self.new) }
        ensures suits { (side : Side) (join : J) → suits self.new side join ↔ suits self.old side join };

    /// Removes the row of a number; false exactly if there is none.
    fn remove(&mut self, no: EventNo) -> bool
        ensures held { result ≡ holds no.0 (entries self.old) }
        ensures entries { entries self.new ≡ without_entry no.0 (entries self.old) }
        ensures distinct { AreDistinct (entries self.new) }
        ensures suits { (side : Side) (join : J) → suits self.new side join ↔ suits self.old side join };

    /// Puts the settled rows that join with a row of the other stream into an empty list of partners, by ascending number. `side` is
    /// that of the rows at rest. After an error some of them may be there.
    fn probe(
        &self,
        side: Side,
        against: &P,
        join: &J,
        found: &mut Partners<P>,
    ) -> Result<(), Memory>
        requires suits { suits self.now side join.now }
        requires empty { found.old ≡ [] }
        ensures { OnOk result (found.new ≡ settled_matches (J.predicate join.now) side against.now (entries self.now)) };
}
