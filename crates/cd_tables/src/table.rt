ghost use Rattle.std.specs.Prelude.{◌≡◌, IsTrue};
ghost use Rattle.cd_tables.specs.Spelling.{rises};
ghost use Rattle.cd_tables.specs.Rows.{row_of, rows_of, fields_of};
ghost use Rattle.cd_tables.specs.Memory.{FitInMemory};

use crate::row::TableRow;
use crate::spelling::{compare, is_above, is_spelling};
use std::marker::Model;

/// Whether each row has a spelling of this form, and the spellings rise by their bytes.
pub fn rising<V: Copy, const N: usize>(rows: &[TableRow<V>; N]) -> bool
    ensures { result ≡ rises (fields_of rows.now) }
{
    let mut before = None;
    for row in rows {
        if !(is_spelling(&row.spelling) && is_above(before, &row.spelling)) {
            return false;
        }
        before = Some(&row.spelling);
    }
    true
}

/// A table of rows whose spellings rise. A contract sees it as its rows.
#[derive(Drop)]
pub struct Table<'a, V: Copy, const N: usize> {
    // A slice: that an array of generic rows fits in memory is known in `new` alone.
    rows: &'a [TableRow<V>],
}

impl<'a, V: Copy, const N: usize> Model for Table<'a, V, N> {
    ghost use Rattle.std.specs.Prelude.{ℕ, List, IsTrue};
    ghost use Rattle.cd_tables.specs.Spelling.{rises};
    ghost use Rattle.cd_tables.specs.Rows.{rows_of, fields_of};

    ghost Value = { List (List ℕ × V) };

    ghost view = { λ table. rows_of table.rows.now };

    ghost invariant = { λ table. IsTrue (rises (fields_of table.rows.now)) };
}

impl<'a, V: Copy, const N: usize> Table<'a, V, N> {
    /// The table of these rows.
    pub fn new(rows: &'a [TableRow<V>; N]) -> Table<'a, V, N>
        requires rising { IsTrue (rises (fields_of rows.now)) }
        requires fits { FitInMemory V.row N }
        ensures { result ≡ rows_of rows.now }
    {
        Table { rows }
    }

    /// The value of the row with this spelling, if there is one.
    pub fn find(&self, spelling: &str) -> Option<V>
        ensures { result ≡ row_of self.now spelling.now }
    {
        let word = spelling.as_bytes();
        let rows = self.rows;
        match rows.binary_search_by(|row| compare(&row.spelling, word)) {
            Ok(place) => Some(rows[place].value),
            Err(_) => None,
        }
    }
}
