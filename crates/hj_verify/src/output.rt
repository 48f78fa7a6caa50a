ghost use Rattle.std.specs.Prelude.{◌≡◌, ◌++◌, List, ℕ, [], false};
ghost use Rattle.hj_base.specs.Outside.{ChangesOnly, RoleState, NamesStay};
ghost use Rattle.hj_base.specs.declared.outside.Role.TheVariants as role;
ghost use Rattle.hj_trace.specs.Stream.{GoesWithRole as IsReadOf, TextStreamState};
ghost use Rattle.hj_verify.specs.Output.{OutputAgrees, ComparesOn, CountsBytes, EndsOutput};

use crate::Verdict;
use hj_base::{Outside, Role};
use hj_stream::Outcome;
use hj_trace::{Compared, NextByte, TextStream, TraceFault};

/// Compares an output with a text that comes part by part, and keeps where they differ first.
#[derive(Drop)]
pub(crate) struct OutputCheck {
    pub(crate) stream: TextStream,
    /// How many bytes are the same so far.
    same: u64,
    /// Behind those the output has another byte than the text, or has ended.
    differs: bool,
}

impl OutputCheck {
    /// Begins with an output of which nothing was read.
    pub(crate) fn new() -> Self
        ensures stream { result.stream ≡ record { role = role.Output; unused = []; ended = false } }
        ensures same { result.same ≡ 0 }
        ensures differs { result.differs ≡ false }
    {
        OutputCheck {
            stream: TextStream::new(Role::Output),
            same: 0,
            differs: false,
        }
    }

    /// Compares the next part of the text, unless the output has differed. A text of 2^64 bytes and more is given up as one for which
    /// there is no memory.
    pub(crate) fn compare<O: Outside>(
        &mut self,
        expected: &[u8],
        outside: &mut O,
    ) -> Result<(), Verdict>
        requires { IsReadOf self.old.stream (O.state outside.old self.old.stream.role) }
        ensures role { self.new.stream.role ≡ self.old.stream.role }
        ensures read { IsReadOf self.new.stream (O.state outside.new self.new.stream.role) }
        ensures compares { (text : List ℕ) (start : TextStreamState) (before : RoleState)
            → OutputAgrees text start before self.old (O.state outside.old self.old.stream.role)
            → ComparesOn result (text ++ expected.now) start before self.new (O.state outside.new self.new.stream.role) }
        ensures others { ChangesOnly self.old.stream.role (O.state outside.old) (O.state outside.new) }
        ensures names { NamesStay (O.under outside.old) (O.under outside.new) }
    {
        if self.differs {
            return Ok(());
        }
        match self.stream.compare(expected, outside) {
            Compared::Same => self.count(expected.len()),
            Compared::Differs(at) => {
                self.differs = true;
                self.count(at)
            }
            Compared::Failed => Err(Verdict::Ended(Outcome::SourceFault(Role::Output))),
        }
    }

    /// Counts bytes more that are the same.
    fn count(&mut self, more: usize) -> Result<(), Verdict>
        ensures { CountsBytes result more self.old self.new }
    {
        let Some(same) = self.same.checked_add(more as u64) else {
            return Err(Verdict::Ended(Outcome::Memory));
        };
        self.same = same;
        Ok(())
    }

    /// Compares the end of the output with that of the text.
    pub(crate) fn end<O: Outside>(&mut self, outside: &mut O) -> Result<(), Verdict>
        requires { IsReadOf self.old.stream (O.state outside.old self.old.stream.role) }
        ensures ends { (text : List ℕ) (start : TextStreamState) (before : RoleState)
            → OutputAgrees text start before self.old (O.state outside.old self.old.stream.role)
            → EndsOutput result text start before self.new.stream (O.state outside.new self.new.stream.role) }
        ensures others { ChangesOnly self.old.stream.role (O.state outside.old) (O.state outside.new) }
        ensures names { NamesStay (O.under outside.old) (O.under outside.new) }
    {
        if self.differs {
            return Err(Verdict::Refused(TraceFault::Output(self.same)));
        }
        match self.stream.look(outside) {
            NextByte::End => Ok(()),
            NextByte::Byte(_) => Err(Verdict::Refused(TraceFault::Output(self.same))),
            NextByte::Failed => Err(Verdict::Ended(Outcome::SourceFault(Role::Output))),
        }
    }
}
