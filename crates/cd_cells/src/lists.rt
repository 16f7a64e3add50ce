//! What stands beside the cells of a table.
ghost use Rattle.std.specs.Prelude.{◌≡◌, ◌<◌, ◌≤◌, ◌+◌, [], List, length, slice_index_or, pos, IfOk};
ghost use Rattle.std.specs.Str.{chars};
ghost use Rattle.cd_model.specs.Thing.{Thing};
ghost use Rattle.cd_cells.specs.Cells.{name_at, parts_at, thing_by, IsStored};
ghost use Rattle.cd_cells.specs.Looked.{looked, ArePartsBelow};
ghost use Rattle.cd_cells.specs.Inner.Growing.{ListsGrow};

use crate::cell::{Look, Part, Stored, ValueId, small};
use crate::text_table::TextTable;
use std::alloc::{AllocError, Global};

/// Names, integers of more than 64 bits, and the fields of records and of closures.
#[derive(Drop)]
pub(crate) struct Lists {
    pub(crate) names: TextTable,
    pub(crate) wide: Vec<i128>,
    pub(crate) parts: Vec<Part>,
}

impl Lists {
    /// Nothing.
    pub(crate) fn new(alloc: Global) -> Lists
        ensures { result.names ≡ [] }
    {
        Lists {
            names: TextTable::new(alloc),
            wide: Vec::new(alloc),
            parts: Vec::new(alloc),
        }
    }

    /// The number of a name.
    pub(crate) fn keep_name(&mut self, text: &str) -> Result<u32, AllocError>
        ensures found { IfOk result (λ number. name_at self.new.names number ≡ chars text.now) }
        ensures grows { ListsGrow self.old self.new }
    {
        small(self.names.number(text)?)
    }

    /// Keeps an integer.
    pub(crate) fn keep_integer(&mut self, n: i128) -> Result<u32, AllocError>
        ensures within { IfOk result (λ at. at < length self.new.wide.items) }
        ensures found { IfOk result (λ at. slice_index_or self.new.wide.items at (pos 0) ≡ n) }
        ensures names { self.new.names ≡ self.old.names }
        ensures grows { ListsGrow self.old self.new }
    {
        let at = small(self.wide.len())?;
        self.wide.push(n)?;
        Ok(at)
    }

    /// Keeps fields, and gives where they begin and how many they are.
    pub(crate) fn keep_parts(&mut self, parts: &[Part]) -> Result<(u32, u32), AllocError>
        ensures within { IfOk result (λ range. range.0 + range.1 ≤ length self.new.parts.items) }
        ensures found { IfOk result (λ range.
            parts_at self.new.parts.items range.0 range.1 ≡ parts.now) }
        ensures names { self.new.names ≡ self.old.names }
        ensures grows { ListsGrow self.old self.new }
    {
        let from = small(self.parts.len())?;
        let count = small(parts.len())?;
        self.parts.extend_from_slice(parts)?;
        Ok((from, count))
    }

    // The fields that begin here and are so many.
    fn parts(&self, from: u32, count: u32) -> &[Part]
        requires { from + count ≤ length self.now.parts.items }
        ensures { result.now ≡ parts_at self.now.parts.items from count }
    {
        let (_, rest) = self.parts.as_slice().split_at(from as usize);
        let (parts, _) = rest.split_at(count as usize);
        parts
    }

    /// What the value of a cell is.
    pub(crate) fn shown(&self, cell: Stored) -> Look<'_>
        requires { (table : List Thing) × IsStored self.now table cell }
        ensures thing { (table : List Thing) → IsStored self.now table cell
            → looked self.now.names table result ≡ thing_by self.now table cell }
        ensures below { (table : List Thing) → IsStored self.now table cell
            → ArePartsBelow self.now.names (length table) result }
    {
        match cell {
            Stored::Pair(first, second) => {
                Look::Pair(ValueId(first as usize), ValueId(second as usize))
            }
            Stored::Xml(tag, attributes, content) => Look::Xml(
                ValueId(tag as usize),
                ValueId(attributes as usize),
                ValueId(content as usize),
            ),
            Stored::Short(n) => Look::Int(i128::from(n)),
            Stored::Wide(at) => Look::Int(self.wide[at as usize]),
            Stored::Letter(c) => Look::Char(c),
            Stored::Atom(name) => Look::Atom(name),
            Stored::Record(from, count) => Look::Record(self.parts(from, count)),
            Stored::Closure(function, from, count) => {
                Look::Closure(function as usize, self.parts(from, count))
            }
        }
    }
}
