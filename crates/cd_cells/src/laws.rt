//! Laws of the definitions in `specs/`. Each is the contract of a function that does nothing.
ghost use Rattle.std.specs.Prelude.{◌≡◌, ◌∷◌, ◌++◌, ◌<◌, ℕ, List, [], length};
ghost use Rattle.cd_syntax.specs.Name.{Name, IsLabel};
ghost use Rattle.cd_model.specs.AllOf.{AllOf};
ghost use Rattle.cd_model.specs.Thing.{Thing};
ghost use Rattle.cd_cells.specs.Cells.{thing_at, name_at, fields_of, things_from, IsPart};
ghost use Rattle.cd_cells.specs.Examples.{Beside, cells, things};
ghost use Rattle.cd_cells.specs.declared.cell.Part.{Part};
ghost use Rattle.cd_cells.specs.declared.lists.Lists.{Lists};

/// What stands in a table stands there when it has grown.
pub fn growth()
    ensures things { (table more : List Thing) (number : ℕ) → number < length table
        → thing_at (table ++ more) number ≡ thing_at table number }
    ensures names { (names more : List Name) (number : ℕ) → IsLabel (name_at names number)
        → name_at (names ++ more) number ≡ name_at names number }
    ensures fields { (names more_names : List Name) (table more : List Thing) (parts : List Part)
        → AllOf (IsPart names (length table)) parts
        → fields_of (names ++ more_names) (table ++ more) parts ≡ fields_of names table parts }
{}

/// Six cells and what they stand for: `1`, the atom `a`, their pair, a record with them under `a`
/// and `b`, the XML value with that tag and those attributes, and a closure that sees the pair.
pub fn example()
    ensures { (lists : Lists) → Beside lists → things_from lists [] cells ≡ things }
{}
