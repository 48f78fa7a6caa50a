ghost use Rattle.std.specs.Prelude.{◌≡◌, List, ℕ};
ghost use Rattle.hj_notes.specs.NoteText.{status_by, text_by};
ghost use Rattle.hj_notes.specs.NoteWritten.{NoteWritten};

use hj_base::Sink;

/// Says why a run didn't end well.
pub trait Reason {
    /// The exit status that goes with it.
    ghost status_of: { Self → ℕ };

    /// The text of its note.
    ghost text_of: { Self → List ℕ };

    /// Gives the exit status that goes with it, from 1 to 8.
    fn status(&self) -> u8
        ensures { result ≡ status_of self.now };

    /// Writes its note. It takes no memory, and stops at the first refusal.
    fn write<N: Sink>(&self, notes: &mut N)
        ensures { NoteWritten (text_of self.now) (N.told notes.old) (N.told notes.new) (N.refusals notes.old) (N.refusals notes.new) };
}

/// Writes the note of an ending, and answers its status.
pub fn report<N: Sink, R: Reason + Copy>(notes: &mut N, ended: Result<(), R>) -> u8
    ensures status { result ≡ status_by R.status_of ended }
    ensures note { NoteWritten (text_by R.text_of ended) (N.told notes.old) (N.told notes.new) (N.refusals notes.old) (N.refusals notes.new) }
{
    match ended {
        Ok(()) => 0,
        Err(reason) => {
            reason.write(notes);
            reason.status()
        }
    }
}
