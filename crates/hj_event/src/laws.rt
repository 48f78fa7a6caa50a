ghost use Rattle.std.specs.Prelude.{◌≡◌, ◌≤◌, ◌⊎◌, ℕ, ℤ, List, [], ◌∷◌, ◌++◌};
ghost use Rattle.std.specs.List.{filter};
ghost use Rattle.hj_base.specs.declared.numbers.Side.{Side};
ghost use Rattle.hj_base.specs.declared.numbers.Side.TheVariants.{Left, Right};
ghost use Rattle.hj_base.specs.declared.outside.Role.{Role};
ghost use Rattle.hj_base.specs.Journals.{IsPrefix};
ghost use Rattle.hj_base.specs.Outside.{RoleState};
ghost use Rattle.hj_msg.specs.declared.event.Event.{Event};
ghost use Rattle.hj_msg.specs.Event.{IsWellFormed};
ghost use Rattle.hj_msg.specs.Quiet.{IsQuietWithin};
ghost use Rattle.hj_event.specs.Merger.{Merging, IsNewMerger, TakesNext, fails_next};
ghost use Rattle.hj_event.specs.Sides.{in_front, Follows};
ghost use Rattle.hj_event.specs.declared.merger.Next.{Next};
ghost use Rattle.hj_event.specs.declared.merger.Next.TheVariants as next;
ghost use Rattle.hj_query.specs.QueryParts.{QueryParts};
ghost use Rattle.hj_value.specs.declared.column.Column.{Column};
ghost use Rattle.hj_value.specs.declared.field.Field.{Field};
ghost use Rattle.hj_record.specs.Pieces.{Stream};
ghost use Rattle.hj_event.specs.Arrivals.{unread};
ghost use Rattle.hj_event.specs.Calls.{HasGiven, GivesAll};
ghost use Rattle.hj_event.specs.Cut.{IsCutOf};
ghost use Rattle.hj_event.specs.Events.{all_events_of, events_of};
ghost use Rattle.hj_event.specs.Rows.{put_all, read_of, rows_of};
ghost use Rattle.hj_event.specs.Silences.{IsQuietOnlyAfter};
ghost use Rattle.hj_event.specs.Waiting.{is_of_time, AreInOrder};
ghost use Rattle.hj_event.specs.Windows.{RowsExpireInTurn};

/// States that the rows of any stream are in order of time, and rows of equal time in the order in which they were read.
/// Without a slack all are in the order in which they were read.
pub fn rows_are_in_order()
    ensures in_order { (columns : List Column) (slack : ℕ) (stream : Stream) → AreInOrder (rows_of columns slack stream).rows }
    ensures ties { (rows : List (List Field)) (time : ℤ) → filter (is_of_time time) (put_all [] rows) ≡ filter (is_of_time time) rows }
    ensures without { (columns : List Column) (stream : Stream) → rows_of columns 0 stream ≡ read_of columns 0 stream }
{}

/// States that the events of any two streams are numbered from 0, one after another, and each expiry names a live row of its side.
pub fn events_are_well_formed()
    ensures { (query : QueryParts) (left right : Stream) (limit : ℕ) → IsWellFormed (events_of query left right limit).events }
{}

/// States that in the events of any two streams, where no limit cuts them off, a side under `rows W` never has more than W live
/// rows, but for one that expires next, and it is the oldest one. A row under `time T` has expired before each arrival at a time T or
/// more above its own, and expires only before such an arrival.
pub fn rows_expire_in_turn()
    ensures { (query : QueryParts) (left right : Stream) → RowsExpireInTurn query (all_events_of query left right).events }
{}

/// States that where the quiet number of a query is at least 1, at most that many rows of a side arrive between two arrivals or
/// quiet events of the other side. A quiet event comes only where that many did, so none comes where the number is 0.
pub fn silence_is_told()
    ensures within { (query : QueryParts) (left right : Stream) (limit : ℕ) → 1 ≤ query.quiet → IsQuietWithin query.quiet (events_of query left right limit).events }
    ensures only_after { (query : QueryParts) (left right : Stream) (limit : ℕ) → IsQuietOnlyAfter query.quiet (events_of query left right limit).events }
{}

/// States that streams that were cut off, one of them or both, give the first of the events of the whole ones: all of them,
/// with the same ending, or those before a missing read.
pub fn cut_stream_gives_prefix()
    ensures events { (query : QueryParts) (limit : ℕ) (cut_left cut_right left right : Stream) → IsCutOf cut_left left → IsCutOf cut_right right → IsPrefix (events_of query cut_left cut_right limit).events (events_of query left right limit).events }
    ensures ending { (query : QueryParts) (limit : ℕ) (cut_left cut_right left right : Stream) → IsCutOf cut_left left → IsCutOf cut_right right → (events_of query cut_left cut_right limit ≡ events_of query left right limit) ⊎ ((side : Side) × ((events_of query cut_left cut_right limit).ending ≡ unread side)) }
{}

/// States that all calls of a merger together give the events of both streams. A new one has given none; each event that it
/// gives is the next one of the streams whose bytes it read, whatever comes after these bytes; and an answer that is no event
/// says how the events end.
pub fn calls_give_events()
    ensures begins { (query : QueryParts) (limit : ℕ) (now : Merging) → IsNewMerger query limit now → HasGiven query limit [] [] [] now }
    ensures goes_on { (query : QueryParts) (limit : ℕ) (left right : List ℕ) (events : List (Event (List Field))) (event : Event (List Field)) (old new : Merging) (before now : Role → RoleState)
        → HasGiven query limit left right events old → (takes : TakesNext (next.Event event) old new before now)
        → HasGiven query limit (left ++ takes.left_bytes) (right ++ takes.right_bytes) (events ++ event ∷ []) new }
    ensures ends { (query : QueryParts) (limit : ℕ) (left right : List ℕ) (events : List (Event (List Field))) (answer : Next) (old new : Merging) (before now : Role → RoleState)
        → HasGiven query limit left right events old → (takes : TakesNext answer old new before now) → (l r : Stream)
        → Follows (fails_next answer Left) new.sides.left.reading.ended l → Follows (fails_next answer Right) new.sides.right.reading.ended r
        → GivesAll answer events (events_of query (in_front (left ++ takes.left_bytes) l) (in_front (right ++ takes.right_bytes) r) limit) }
{}
