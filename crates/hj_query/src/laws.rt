ghost use Rattle.std.specs.Prelude.{List, ℕ};
ghost use Rattle.hj_query.specs.Readings.{HasOneReading, HasReading};

/// States that each text spells a query or has a first fault: one of the two, and in one way.
pub fn text_is_query_or_fault()
    ensures some { (text : List ℕ) → HasReading text }
    ensures one { (text : List ℕ) → HasOneReading text }
{}
