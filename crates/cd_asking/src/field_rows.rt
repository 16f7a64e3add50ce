//! Rows of fields, each once.
ghost use Rattle.std.specs.Prelude.{◌≡◌, ◌<◌, ◌≤◌, ◌+◌, ◌++◌, [], ◌∷◌, length, IfOk, MatchOption};
ghost use Rattle.cd_asking.specs.Inner.Rows.{row_at};
ghost use Rattle.cd_asking.specs.Inner.Asked.{AddsOnly};

use crate::row::{Answered, Longer, RowId};
use indexmap::IndexSet;
use std::alloc::{AllocError, Global};
use std::marker::Model;

/// Rows of fields, each once. A contract sees those that have fields in a list: the first one has
/// the number 1, and the row without fields has the number 0.
#[derive(Drop)]
pub(crate) struct FieldRows {
    rows: IndexSet<Longer>,
}

impl Model for FieldRows {
    ghost use Rattle.std.specs.Prelude.{List, []};
    ghost use Rattle.cd_asking.specs.Inner.Rows.{rows_from, AreLonger};
    ghost use Rattle.cd_asking.specs.declared.row.Answered.{Answered as AField};

    ghost Value = { List (List AField) };

    ghost view = { λ table. rows_from [] table.rows.keys };

    ghost invariant = { λ table. AreLonger 0 table.rows.keys };
}

impl FieldRows {
    /// No rows but the one without fields.
    pub(crate) fn new(alloc: Global) -> FieldRows
        ensures { result ≡ [] }
    {
        FieldRows {
            rows: IndexSet::new(alloc),
        }
    }

    /// The number of a row with one field more, which is added if it is not there.
    pub(crate) fn longer(&mut self, row: RowId, field: Answered) -> Result<RowId, AllocError>
        requires { row.0 ≤ length self.old }
        ensures found { IfOk result
            (λ new. row_at self.new new ≡ row_at self.old row ++ field ∷ []) }
        ensures within { IfOk result (λ new. new.0 ≤ length self.new) }
        ensures adds { AddsOnly (row_at self.old row ++ field ∷ []) self.old self.new }
    {
        let (place, _) = self.rows.insert_full(Longer { row, field })?;
        number_at(place)
    }

    /// The fields of a row.
    pub(crate) fn fields(&self, row: RowId) -> Result<Vec<Answered>, AllocError>
        ensures { IfOk result (λ fields. fields.items ≡ row_at self.now row) }
    {
        let mut fields = Vec::new(*self.rows.allocator());
        let mut row = row;
        while let Some(longer) = self.parts(row) {
            fields.push(longer.field)?;
            row = longer.row;
        }
        fields.reverse();
        Ok(fields)
    }

    // The row and the field that make a row, if it has fields.
    fn parts(&self, row: RowId) -> Option<Longer>
        ensures { MatchOption result (row_at self.now row ≡ [])
            (λ is. (row_at self.now row ≡ row_at self.now is.row ++ is.field ∷ [])
            × (is.row.0 < row.0)) }
    {
        if row.0 == 0 {
            return None;
        }
        self.rows.get_index(row.0 as usize - 1).copied()
    }
}

// The number of the row at this place.
fn number_at(place: usize) -> Result<RowId, AllocError>
    ensures { IfOk result (λ row. row.0 ≡ place + 1) }
{
    match u32::try_from(place) {
        Ok(place) => match place.checked_add(1) {
            Some(number) => Ok(RowId(number)),
            None => Err(AllocError),
        },
        Err(_) => Err(AllocError),
    }
}
