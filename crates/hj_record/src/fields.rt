ghost use Rattle.std.specs.Prelude.{◌≡◌, ◌<◌, ◌++◌, [], ◌∷◌, length, slice_get, OnOk, OnErr};
ghost use Rattle.std.specs.Option.{option_copied};
ghost use Rattle.hj_record.specs.Fields.{fields_in, start_at, extend_last, AreEnds};

use hj_base::Memory;
use std::alloc::Global;
use std::marker::Model;

/// The fields of a record, in order, seen as a list of byte lists. They lie in one buffer.
#[derive(Drop)]
pub struct Fields {
    bytes: Vec<u8>,
    ends: Vec<usize>,
}

impl Model for Fields {
    ghost use Rattle.std.specs.Prelude.{List, ℕ, length};
    ghost use Rattle.hj_record.specs.Fields.{fields_in, AreEnds};

    ghost Value = { List (List ℕ) };

    ghost view = { λ f. fields_in f.bytes.items f.ends.items };

    ghost invariant = { λ f. AreEnds f.ends.items (length f.bytes.items) };
}

impl Fields {
    /// Makes an empty list of fields.
    pub fn new(alloc: Global) -> Self
        ensures { result ≡ [] }
    {
        Fields {
            bytes: Vec::new(alloc),
            ends: Vec::new(alloc),
        }
    }

    /// Returns how many fields there are.
    pub fn len(&self) -> usize
        ensures { result ≡ length self.now }
    {
        self.ends.len()
    }

    /// Returns the bytes of the field at a place, counted from 0; None exactly at or past the length.
    pub fn get(&self, at: usize) -> Option<&[u8]>
        ensures { option_copied result ≡ slice_get self.now at }
    {
        field_at(&self.bytes, &self.ends, at)
    }

    /// Removes all fields, and keeps the memory.
    pub fn clear(&mut self)
        ensures { self.new ≡ [] }
    {
        self.bytes.clear();
        self.ends.clear();
    }

    /// Appends a field. An error changes nothing.
    #[inline(always)]
    pub fn push(&mut self, field: &[u8]) -> Result<(), Memory>
        ensures ok { OnOk result (self.new ≡ self.old ++ field.now ∷ []) }
        ensures err { OnErr result (self.new ≡ self.old) }
    {
        self.ends.reserve(1)?;
        self.bytes.extend_from_slice(field)?;
        let end = self.bytes.len();
        self.ends.push(end)?;
        Ok(())
    }

    /// Appends bytes to the last field. An error changes nothing.
    pub(crate) fn extend_last(&mut self, more: &[u8]) -> Result<(), Memory>
        requires { 0 < length self.old }
        ensures ok { OnOk result (self.new ≡ extend_last self.old more.now) }
        ensures err { OnErr result (self.new ≡ self.old) }
    {
        self.bytes.extend_from_slice(more)?;
        let last = self.ends.len() - 1;
        self.ends[last] = self.bytes.len();
        Ok(())
    }

    /// Returns the allocator that the memory comes from.
    pub(crate) fn allocator(&self) -> Global {
        *self.bytes.allocator()
    }
}

/// Returns the field at a place among those in a buffer, by their ends.
fn field_at<'a>(bytes: &'a [u8], ends: &[usize], at: usize) -> Option<&'a [u8]>
    requires { AreEnds ends.now (length bytes.now) }
    ensures { option_copied result ≡ slice_get (fields_in bytes.now ends.now) at }
{
    if at >= ends.len() {
        return None;
    }
    let start = start_of(ends, at);
    Some(&bytes[start..ends[at]])
}

/// Returns where the field at a place begins: at the end of the one before it.
fn start_of(ends: &[usize], at: usize) -> usize
    requires { at < length ends.now }
    ensures { result ≡ start_at ends.now at }
{
    if at == 0 { 0 } else { ends[at - 1] }
}
