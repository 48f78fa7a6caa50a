ghost use Rattle.std.specs.Prelude.{List, ℕ};
ghost use Rattle.hj_lex.specs.Tokens.{HasOneReading, HasReading};

/// Shows that each text is a list of tokens or has a first fault: one of the two, and in one way.
pub fn text_has_one_reading()
    ensures some { (text : List ℕ) → HasReading text }
    ensures one { (text : List ℕ) → HasOneReading text }
{}
