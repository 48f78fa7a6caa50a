ghost use Rattle.std.specs.Prelude.{◌≡◌, ◌<◌, false, length, replicate, slice_set, IfOk, None};
ghost use Rattle.hj_collect.specs.Marks.{least_of, with_raised, with_end};
ghost use Rattle.hj_collect.specs.Reach.{reached};

use crate::least::LeastMark;
use crate::reach::Reach;
use hj_base::{EventNo, Memory};
use std::alloc::Global;
use std::marker::Model;
use std::mem;

/// The marks of all cores for one side, with the least of them. A core that reported nothing has none.
#[derive(Debug, Drop)]
pub(crate) struct Marks {
    of_cores: Vec<Reach>,
    least: LeastMark,
}

impl Model for Marks {
    ghost use Rattle.std.specs.Prelude.{List, map};
    ghost use Rattle.std.specs.declared.option.Option.{Option};
    ghost use Rattle.hj_msg.specs.Punctuation.{Mark as Meaning};
    ghost use Rattle.hj_collect.specs.Reach.{reached};
    ghost use Rattle.hj_collect.specs.Least.{IsLeast};

    ghost Value = { List (Option Meaning) };

    ghost view = { λ marks. map reached marks.of_cores.items };

    ghost invariant = { λ marks. IsLeast marks.least (map reached marks.of_cores.items) };
}

impl Marks {
    /// Makes the list for `cores` cores, with no marks.
    pub(crate) fn new(alloc: Global, cores: u16) -> Result<Self, Memory>
        ensures { IfOk result (λ marks. marks ≡ replicate cores None) }
    {
        let of_cores = vec![in alloc; Reach::Nowhere; usize::from(cores)]?;
        let least = LeastMark::of(&of_cores);
        Ok(Marks { of_cores, least })
    }

    /// Returns the least mark.
    #[inline(always)]
    pub(crate) fn least(&self) -> Reach
        ensures { reached result ≡ least_of self.now }
    {
        self.least.mark
    }

    /// Takes note that a core reported an arrival or a quiet event. If it has ended, its mark stays past every number. Returns false
    /// only where the least mark stays.
    #[inline(always)]
    pub(crate) fn raise(&mut self, core: usize, no: EventNo) -> bool
        requires { core < length self.old }
        ensures marks { self.new ≡ with_raised core no.0 self.old }
        ensures least { result ≡ false → least_of self.new ≡ least_of self.old }
    {
        let before = self.of_cores[core];
        if !before.rises(self.least.mark, no) {
            self.raise_other(core, no);
            return true;
        }
        let held = before.is_same(self.least.mark);
        self.of_cores[core] = Reach::UpTo(no);
        // the least one is below the new one: it stays, unless this core alone had it
        if !held {
            return false;
        }
        if self.least.holders > 1 {
            self.least.holders -= 1;
            return false;
        }
        self.least.look_anew(&self.of_cores);
        true
    }

    /// Takes note of the same, whatever the marks are.
    #[inline(never)]
    fn raise_other(&mut self, core: usize, no: EventNo)
        requires { core < length self.old }
        ensures { self.new ≡ with_raised core no.0 self.old }
    {
        match self.of_cores[core] {
            Reach::Nowhere | Reach::UpTo(_) => self.set(core, Reach::UpTo(no)),
            Reach::All => {}
        }
    }

    /// Takes note that a core reported its end.
    pub(crate) fn mark_ended(&mut self, core: usize)
        requires { core < length self.old }
        ensures { self.new ≡ with_end core self.old }
    {
        self.set(core, Reach::All);
    }

    /// Gives a core another mark. If its last one was the only least one, the least is looked for anew.
    fn set(&mut self, core: usize, mark: Reach)
        requires { core < length self.old }
        ensures { self.new ≡ slice_set self.old core (reached mark) }
    {
        let before = mem::replace(&mut self.of_cores[core], mark);
        self.least = match self.least.without(before) {
            Some(least) => least.with(mark),
            None => LeastMark::of(&self.of_cores),
        };
    }
}
