ghost use Rattle.std.specs.Prelude.{◌≡◌, Err, None};

use hj_crew::Ran;
use hj_notes::Note;
use hj_value::SharedRow;

/// How an order ended whose join is made on threads.
#[derive(Drop)]
pub struct OrderEnd {
    /// Well, or for the reason that the note gives.
    pub end: Result<(), Note>,
    /// The run of the threads, where the join was made.
    pub ran: Option<Ran<SharedRow>>,
}

impl OrderEnd {
    /// Ends an order before its join.
    pub fn early(note: Note) -> OrderEnd
        ensures { result ≡ record { end = Err note; ran = None } }
    {
        OrderEnd {
            end: Err(note),
            ran: None,
        }
    }
}
