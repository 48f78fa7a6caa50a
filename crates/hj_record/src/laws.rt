ghost use Rattle.std.specs.Prelude.{◌≡◌, ℕ, List, false, All, Ok, None};
ghost use Rattle.hj_record.specs.Blank.{IsBlank};
ghost use Rattle.hj_record.specs.Pieces.{Split, split, IsCutAtLineEnds};
ghost use Rattle.hj_record.specs.Records.{record_of};

/// Shows that bytes are cut after each line feed with an even number of double quotes between the piece's start and it,
/// and in no other way.
pub fn cuts_at_line_ends()
    ensures cut { (bytes : List ℕ) → IsCutAtLineEnds bytes (split false bytes) }
    ensures only { (bytes : List ℕ) (cut : Split) → IsCutAtLineEnds bytes cut → cut ≡ split false bytes }
{}

/// Shows that a piece without a record has no bytes but those of line ends and of byte order marks.
pub fn only_blanks_are_no_record()
    ensures { (piece : List ℕ) → record_of piece ≡ Ok None → All IsBlank piece }
{}
