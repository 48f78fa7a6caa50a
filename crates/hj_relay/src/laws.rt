ghost use Rattle.std.specs.Prelude.{ℕ, All};
ghost use Rattle.hj_query.specs.QueryParts.{QueryParts};
ghost use Rattle.hj_record.specs.Pieces.{Stream};
ghost use Rattle.hj_event.specs.Rows.{rows_of};
ghost use Rattle.hj_relay.specs.Fits.{Fits};
ghost use Rattle.hj_relay.specs.Relay.{relay, relay_pairs, whole};
ghost use Rattle.hj_relay.specs.Rows.{AreReadBack, ReadsBack, TimesNeverFall};

/// States that the times of the pairs of any join never fall.
pub fn relay_times_never_fall()
    ensures { (query : QueryParts) (left right : Stream) (limit : ℕ) → TimesNeverFall (relay_pairs query left right limit) }
{}

/// States that each line of a relay of at most 65,536 bytes, read under a query that fits, is one row: the time of the later row, and
/// then the fields of both rows.
pub fn relay_lines_read_back()
    ensures { (first second : QueryParts) → Fits first second → (left right : Stream) (limit : ℕ) → All (ReadsBack second) (relay_pairs first left right limit) }
{}

/// States that a relay, read as a stream under a query that fits, gives these rows in the order of its pairs: of all pairs, or of those
/// before a line of more than 65,536 bytes or before byte 2^62 + 1.
pub fn relay_reads_back()
    ensures { (first second : QueryParts) → Fits first second → (left right : Stream) (limit : ℕ)
        → AreReadBack (relay_pairs first left right limit) (rows_of second.left.columns second.slack (whole (relay first left right limit))) }
{}
