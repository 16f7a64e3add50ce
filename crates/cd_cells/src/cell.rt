//! The cells of a table, and what a value in them is.
ghost use Rattle.std.specs.Prelude.{◌≡◌, IfOk};

use std::alloc::AllocError;

/// The number of a value in its table.
#[derive(Clone, Copy, PartialEq, Eq)]
pub struct ValueId(pub usize);

/// A field of a record, or a name that a closure sees with its value.
#[derive(Clone, Copy)]
pub struct Part {
    /// The number of its name.
    pub label: u32,
    /// The number of its value.
    pub value: u32,
}

impl Part {
    /// The field with this label and this value.
    ///
    /// # Errors
    ///
    /// Want of memory, where the number of the value is none of 32 bits.
    pub fn of(label: u32, value: ValueId) -> Result<Part, AllocError>
        ensures label { IfOk result (λ part. part.label ≡ label) }
        ensures value { IfOk result (λ part. part.value ≡ value.0) }
    {
        let value = small(value.0)?;
        Ok(Part { label, value })
    }

    /// The number of its value.
    pub fn id(self) -> ValueId
        ensures { result.0 ≡ self.value }
    {
        ValueId(self.value as usize)
    }
}

/// A value as it is stored.
#[derive(Clone, Copy)]
pub(crate) enum Stored {
    /// The pair of two values.
    Pair(u32, u32),
    /// The XML value of a tag, attributes and a content.
    Xml(u32, u32, u32),
    /// An integer of 64 bits.
    Short(i64),
    /// The integer with this number in the list of integers.
    Wide(u32),
    /// A character.
    Letter(char),
    /// The atom with this name.
    Atom(u32),
    /// The record whose fields begin here in the list of fields, and are so many.
    Record(u32, u32),
    /// The closure of this function. What it sees begins here in the list of fields, and is so
    /// many names.
    Closure(u32, u32, u32),
}

/// What a value is, over the values of its table.
#[derive(Clone, Copy)]
pub enum Look<'v> {
    /// An integer.
    Int(i128),
    /// A character.
    Char(char),
    /// The atom whose name has this number.
    Atom(u32),
    /// A pair.
    Pair(ValueId, ValueId),
    /// The XML value of a tag, attributes and a content.
    Xml(ValueId, ValueId, ValueId),
    /// The record of these fields, by rising label.
    Record(&'v [Part]),
    /// The closure of the function with this number, and the values of the names that it sees.
    Closure(usize, &'v [Part]),
}

/// A number in 32 bits.
///
/// # Errors
///
/// Want of memory, where the number is none of 32 bits.
pub(crate) fn small(n: usize) -> Result<u32, AllocError>
    ensures { IfOk result (λ small. small ≡ n) }
{
    match u32::try_from(n) {
        Ok(small) => Ok(small),
        Err(_) => Err(AllocError),
    }
}
