ghost use Rattle.std.specs.Prelude.{◌≡◌, ◌++◌, ◌≤◌, [], ◌∷◌, false, length, map, slice_get, OnOk, OnErr, IfOk, IfSome};
ghost use Rattle.std.specs.Bool.{OnTrue};
ghost use Rattle.hj_value.specs.declared.field.Field.TheVariants as field;
ghost use Rattle.hj_value.specs.Row.{time_of};

use crate::Field;
use crate::stored_fields::StoredFields;
use arrayvec::ArrayVec;
use hj_base::Memory;
use std::alloc::Global;
use std::marker::Model;

/// How many numbers a row holds in itself.
const MOST_NUMBERS: usize = 4;

/// The fields of a row.
#[derive(Drop)]
enum RowFields {
    /// A few numbers, which take no block of memory.
    Numbers(ArrayVec<i64, 4>),
    /// Any others.
    Stored(StoredFields),
}

/// A row, seen as the list of its fields, in the order of the columns.
#[derive(Drop)]
pub struct Row {
    alloc: Global,
    fields: RowFields,
}

impl Model for Row {
    ghost use Rattle.std.specs.Prelude.{List};
    ghost use Rattle.hj_value.specs.declared.field.Field.{Field};
    ghost use Rattle.hj_value.specs.Held.{fields_in};

    ghost Value = { List Field };

    ghost view = { λ r. fields_in r.fields };
}

impl Row {
    /// Makes a row with no fields.
    #[inline(always)]
    pub fn new(alloc: Global) -> Self
        ensures { result ≡ [] }
    {
        Row {
            alloc,
            fields: RowFields::Numbers(ArrayVec::new()),
        }
    }

    /// Makes a row with no fields, and room for `fields` of them, whose texts have `text_bytes` bytes together.
    #[inline(always)]
    pub fn with_capacity(alloc: Global, fields: usize, text_bytes: usize) -> Result<Self, Memory>
        ensures { IfOk result (λ row. row ≡ []) }
    {
        if fields <= MOST_NUMBERS && text_bytes == 0 {
            return Ok(Row::new(alloc));
        }
        Ok(Row {
            alloc,
            fields: RowFields::Stored(StoredFields::with_capacity(alloc, fields, text_bytes)?),
        })
    }

    /// Returns how many fields it has.
    #[inline(always)]
    pub fn len(&self) -> usize
        ensures { result ≡ length self.now }
    {
        match &self.fields {
            RowFields::Numbers(numbers) => numbers.len(),
            RowFields::Stored(stored) => stored.len(),
        }
    }

    /// Returns the field at a place, counted from 0; None exactly at or past the length.
    #[inline(always)]
    pub fn get(&self, at: usize) -> Option<Field<'_>>
        ensures { result ≡ slice_get self.now at }
    {
        match &self.fields {
            RowFields::Numbers(numbers) => match numbers.as_slice().get(at) {
                Some(number) => Some(Field::Int(*number)),
                None => None,
            },
            RowFields::Stored(stored) => stored.get(at),
        }
    }

    /// Returns its fields, if they are a few numbers. None says nothing of them.
    #[inline(always)]
    pub fn numbers(&self) -> Option<&[i64]>
        ensures fields { IfSome result (λ numbers. self.now ≡ map field.Int numbers.now) }
        ensures few { IfSome result (λ numbers. length numbers.now ≤ 4) }
    {
        match &self.fields {
            RowFields::Numbers(numbers) => Some(numbers.as_slice()),
            RowFields::Stored(_) => None,
        }
    }

    /// Appends a field. A row's texts have less than 2^32 bytes together; beyond that it fails as if memory ran out. An
    /// error changes nothing.
    #[inline(always)]
    pub fn push(&mut self, field: Field<'_>) -> Result<(), Memory>
        ensures ok { OnOk result (self.new ≡ self.old ++ field.entry ∷ []) }
        ensures err { OnErr result (self.new ≡ self.old) }
    {
        if let RowFields::Stored(stored) = &mut self.fields {
            return stored.push(field);
        }
        match field {
            Field::Int(number) if self.push_number(number) => Ok(()),
            field => self.push_stored(field),
        }
    }

    /// Appends a number, if only a few numbers are there so far; false changes nothing.
    #[inline(always)]
    fn push_number(&mut self, number: i64) -> bool
        ensures yes { OnTrue result (self.new ≡ self.old ++ field.Int number ∷ []) }
        ensures no { result ≡ false → self.new ≡ self.old }
    {
        match &mut self.fields {
            RowFields::Numbers(numbers) => numbers.try_push(number).is_ok(),
            RowFields::Stored(_) => false,
        }
    }

    /// Appends a field to stored ones, in which the numbers that are there are put first.
    #[cold]
    fn push_stored(&mut self, field: Field<'_>) -> Result<(), Memory>
        ensures ok { OnOk result (self.new ≡ self.old ++ field.entry ∷ []) }
        ensures err { OnErr result (self.new ≡ self.old) }
    {
        match &mut self.fields {
            RowFields::Stored(stored) => stored.push(field),
            RowFields::Numbers(numbers) => {
                let mut stored = stored_of(self.alloc, numbers.as_slice())?;
                stored.push(field)?;
                self.fields = RowFields::Stored(stored);
                Ok(())
            }
        }
    }

    /// Returns the row's time, in the stream's own units: its first field; 0 if that is no number.
    #[inline(always)]
    pub fn time(&self) -> i64
        ensures { result ≡ time_of self.now }
    {
        match &self.fields {
            RowFields::Numbers(numbers) => match numbers.as_slice().first() {
                Some(time) => *time,
                None => 0,
            },
            RowFields::Stored(stored) => stored.time(),
        }
    }
}

/// Stores a few numbers, with room for as many fields again.
fn stored_of(alloc: Global, numbers: &[i64]) -> Result<StoredFields, Memory>
    requires { length numbers.now ≤ 4 }
    ensures { IfOk result (λ fields. fields ≡ map field.Int numbers.now) }
{
    let mut stored = StoredFields::with_capacity(alloc, 2 * MOST_NUMBERS, 0)?;
    for number in numbers {
        stored.push(Field::Int(*number))?;
    }
    Ok(stored)
}
