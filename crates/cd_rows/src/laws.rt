//! Laws of rows.
ghost use Rattle.std.specs.Prelude.{◌≡◌, Some, true};
ghost use Rattle.cd_syntax.specs.Name.{Name, IsLabel};
ghost use Rattle.cd_model.specs.Formula.{Graph, asked, in_node};
ghost use Rattle.cd_model.specs.Thing.{Thing, Fields, Record, IsElement};
ghost use Rattle.cd_rules.specs.InRow.{thing_at};
ghost use Rattle.cd_rules.specs.Rows.{Row};
ghost use Rattle.cd_rows.specs.RecordRows.{InRecordRow, RowHasWitnesses, asked_at};

/// A row whose questions have witnesses has a record.
pub fn rows_are_inhabited()
    ensures { (graph : Graph) (row : Row) → RowHasWitnesses (in_node graph) IsElement row
        → (fields : Fields) × IsElement (Record fields)
        × InRecordRow (in_node graph) fields row }
{}

/// A row whose questions have witnesses has a record with any element at a label that is in what
/// the row asks there.
pub fn rows_pick()
    ensures { (graph : Graph) (row : Row) (label : Name) (e : Thing)
        → RowHasWitnesses (in_node graph) IsElement row → IsLabel label → IsElement e
        → asked (in_node graph e) (asked_at row label) true
        → (fields : Fields) × IsElement (Record fields)
        × InRecordRow (in_node graph) fields row × (thing_at fields label ≡ Some e) }
{}
