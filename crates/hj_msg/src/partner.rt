ghost use Rattle.std.specs.Prelude.{◌≡◌, ◌++◌, [], ◌∷◌, length, slice_get, reverse, OnOk, OnErr};
ghost use Rattle.std.specs.Option.{option_copied};

use hj_base::{EventNo, Memory};
use std::alloc::Global;
use std::marker::Model;
use std::mem;

/// A row that joins with another one, with the number of its arrival.
#[derive(Debug, Drop)]
pub struct Partner<P> {
    pub no: EventNo,
    pub row: P,
}

/// The partners that were found, of which one takes no block of memory.
#[derive(Debug, Drop)]
enum Found<P> {
    Nothing,
    One(Partner<P>),
    Several(Vec<Partner<P>>),
}

/// The partners that were found for a row, seen as the list of them.
#[derive(Debug, Drop)]
pub struct Partners<P> {
    alloc: Global,
    found: Found<P>,
}

impl<P> Model for Partners<P> {
    ghost use Rattle.std.specs.Prelude.{List};
    ghost use Rattle.hj_msg.specs.declared.partner.Partner.{Partner};
    ghost use Rattle.hj_msg.specs.Found.{partners_of};

    ghost Value = { List (Partner P) };

    ghost view = { λ p. partners_of p.found };
}

impl<P> Partners<P> {
    /// Makes an empty list of partners.
    #[inline(always)]
    pub fn new(alloc: Global) -> Self
        ensures { result ≡ [] }
    {
        Partners {
            alloc,
            found: Found::Nothing,
        }
    }

    /// Returns how many there are.
    #[inline(always)]
    pub fn len(&self) -> usize
        ensures { result ≡ length self.now }
    {
        match &self.found {
            Found::Nothing => 0,
            Found::One(_) => 1,
            Found::Several(found) => found.len(),
        }
    }

    /// Returns the partner at a place, counted from 0; None exactly at or past the length.
    #[inline(always)]
    pub fn get(&self, at: usize) -> Option<&Partner<P>>
        ensures { option_copied result ≡ slice_get self.now at }
    {
        match &self.found {
            Found::One(partner) if at == 0 => Some(partner),
            Found::Nothing | Found::One(_) => None,
            Found::Several(found) => found.get(at),
        }
    }

    /// Appends a partner. An error changes nothing, and drops the partner.
    #[inline(always)]
    pub fn push(&mut self, partner: Partner<P>) -> Result<(), Memory>
    where
        P: Drop,
        ensures ok { OnOk result (self.new ≡ self.old ++ partner ∷ []) }
        ensures err { OnErr result (self.new ≡ self.old) }
    {
        if matches!(self.found, Found::Nothing) {
            self.found = Found::One(partner);
            return Ok(());
        }
        self.push_behind(partner)
    }

    /// Appends a partner to those that are there.
    fn push_behind(&mut self, partner: Partner<P>) -> Result<(), Memory>
    where
        P: Drop,
        ensures ok { OnOk result (self.new ≡ self.old ++ partner ∷ []) }
        ensures err { OnErr result (self.new ≡ self.old) }
    {
        if let Found::Several(found) = &mut self.found {
            found.push(partner)?;
            return Ok(());
        }
        let mut several = Vec::with_capacity(self.alloc, 4)?;
        let first = mem::replace(&mut self.found, Found::Nothing);
        if let Found::One(first) = first {
            several.push_reserved(first);
        }
        several.push_reserved(partner);
        self.found = Found::Several(several);
        Ok(())
    }

    /// Turns the partners round, so that the last one comes first.
    #[inline(always)]
    pub fn reverse(&mut self)
        ensures { self.new ≡ reverse self.old }
    {
        if let Found::Several(found) = &mut self.found {
            found.reverse();
        }
    }
}
