use cd_graph::fields::Fields;
use cd_needs::row::Row;

/// A clause of records as a row, and record types: what is in the row is in the clause where it is
/// outside each type.
#[derive(Drop)]
pub(crate) struct RowClause {
    pub(crate) row: Row,
    pub(crate) refused: Vec<Fields>,
}
