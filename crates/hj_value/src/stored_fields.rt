ghost use Rattle.std.specs.Prelude.{◌≡◌, ◌+◌, ◌++◌, ◌<◌, ◌^◌, [], ◌∷◌, List, length, slice_get, OnOk, OnErr, IfOk};
ghost use Rattle.hj_value.specs.Row.{time_of};
ghost use Rattle.hj_value.specs.declared.stored_fields.StoredField.TheVariants as stored;

use crate::{Field, Text};
use hj_base::Memory;
use std::alloc::Global;
use std::marker::Model;

/// The value of one column, or where its bytes stand among the texts of the row: at `from..to`.
#[derive(Clone, Copy)]
pub(crate) enum StoredField {
    Int(i64),
    Text { from: u32, to: u32 },
}

/// Fields of any kind and count, seen as the list of them.
#[derive(Drop)]
pub(crate) struct StoredFields {
    fields: Vec<StoredField>,
    /// The bytes of all texts, one text after another, so that they take one block of memory.
    texts: Vec<u8>,
}

impl Model for StoredFields {
    ghost use Rattle.std.specs.Prelude.{List, All};
    ghost use Rattle.hj_value.specs.declared.field.Field.{Field};
    ghost use Rattle.hj_value.specs.StoredFields.{fields_of, IsPlace};

    ghost Value = { List Field };

    ghost view = { λ r. fields_of r.texts.items r.fields.items };

    ghost invariant = { λ r. All (IsPlace r.texts.items) r.fields.items };
}

impl StoredFields {
    /// Makes room for `fields` fields, whose texts have `text_bytes` bytes together.
    pub(crate) fn with_capacity(
        alloc: Global,
        fields: usize,
        text_bytes: usize,
    ) -> Result<Self, Memory>
        ensures { IfOk result (λ fields. fields ≡ []) }
    {
        Ok(StoredFields {
            fields: Vec::with_capacity(alloc, fields)?,
            texts: Vec::with_capacity(alloc, text_bytes)?,
        })
    }

    /// Returns how many fields there are.
    #[inline(always)]
    pub(crate) fn len(&self) -> usize
        ensures { result ≡ length self.now }
    {
        self.fields.len()
    }

    /// Returns the field at a place, counted from 0; None exactly at or past the length.
    #[inline(always)]
    pub(crate) fn get(&self, at: usize) -> Option<Field<'_>>
        ensures { result ≡ slice_get self.now at }
    {
        match self.fields.get(at) {
            Some(StoredField::Int(value)) => Some(Field::Int(*value)),
            Some(StoredField::Text { from, to }) => {
                let bytes = &self.texts[*from as usize..*to as usize];
                Some(Field::Text(Text::new(bytes)))
            }
            None => None,
        }
    }

    /// Appends a field. The texts have less than 2^32 bytes together; beyond that it fails as if memory ran out. An error
    /// changes nothing.
    pub(crate) fn push(&mut self, field: Field<'_>) -> Result<(), Memory>
        ensures ok { OnOk result (self.new ≡ self.old ++ field.entry ∷ []) }
        ensures err { OnErr result (self.new ≡ self.old) }
    {
        match field {
            Field::Int(value) => self.fields.push(StoredField::Int(value))?,
            Field::Text(text) => {
                self.fields.reserve(1)?;
                let stored = add_text(&mut self.texts, text.bytes())?;
                self.fields.push_reserved(stored);
            }
        }
        Ok(())
    }

    /// Returns the first field; 0 if that is no number.
    #[inline(always)]
    pub(crate) fn time(&self) -> i64
        ensures { result ≡ time_of self.now }
    {
        match self.fields.first() {
            Some(StoredField::Int(time)) => *time,
            Some(StoredField::Text { .. }) | None => 0,
        }
    }
}

/// Appends a text to the others, and returns where it stands.
fn add_text(texts: &mut Vec<u8>, text: &[u8]) -> Result<StoredField, Memory>
    ensures texts { OnOk result (texts.new.items ≡ texts.old.items ++ text.now) }
    ensures place { IfOk result (λ one. one
        ≡ stored.Text (length texts.old.items) (length texts.old.items + length text.now)) }
    ensures err { OnErr result (texts.new.items ≡ texts.old.items) }
{
    let from = u32::try_from(texts.len()).map_err(|_| Memory)?;
    let to = u32::try_from(texts.len() + text.len()).map_err(|_| Memory)?;
    texts.extend_from_slice(text)?;
    Ok(StoredField::Text { from, to })
}
