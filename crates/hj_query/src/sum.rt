ghost use Rattle.std.specs.Prelude.{◌≡◌, ◌++◌, [], ◌∷◌, length, slice_get, OnOk, OnErr};
ghost use Rattle.std.specs.Option.{option_copied};

use hj_base::{Memory, Side};
use hj_value::TextBytes;
use std::alloc::Global;
use std::marker::Model;

/// What a sum is made of.
#[derive(Debug, Drop)]
pub enum Term {
    /// A column of one side's rows, counted from 0.
    Column(Side, u16),
    Number(i64),
    Text(TextBytes),
}

/// A term that is added to a sum, or taken off it.
#[derive(Debug, Drop)]
pub struct SignedTerm {
    /// Whether the term is added.
    pub plus: bool,
    pub term: Term,
}

/// The terms of a sum after its first, seen as the list of them.
#[derive(Debug, Drop)]
pub struct FurtherTerms {
    parts: Vec<SignedTerm>,
}

impl Model for FurtherTerms {
    ghost use Rattle.std.specs.Prelude.{List};
    ghost use Rattle.hj_query.specs.declared.sum.SignedTerm.{SignedTerm};

    ghost Value = { List SignedTerm };

    ghost view = { λ r. r.parts.items };
}

impl FurtherTerms {
    /// Makes a list of no terms.
    pub fn new(alloc: Global) -> Self
        ensures { result ≡ [] }
    {
        FurtherTerms {
            parts: Vec::new(alloc),
        }
    }

    /// Returns how many terms there are.
    pub fn len(&self) -> usize
        ensures { result ≡ length self.now }
    {
        self.parts.len()
    }

    /// Returns the term at a place, counted from 0; None exactly at or past the length.
    pub fn get(&self, at: usize) -> Option<&SignedTerm>
        ensures { option_copied result ≡ slice_get self.now at }
    {
        self.parts.get(at)
    }

    /// Adds a term at the end. After a refusal nothing changed.
    pub fn push(&mut self, part: SignedTerm) -> Result<(), Memory>
        ensures ok { OnOk result (self.new ≡ self.old ++ part ∷ []) }
        ensures err { OnErr result (self.new ≡ self.old) }
    {
        self.parts.push(part)?;
        Ok(())
    }
}

/// A term, and the terms that are added to it and taken off it. A text stands alone.
#[derive(Debug, Drop)]
pub struct Sum {
    pub first: Term,
    pub rest: FurtherTerms,
}
