//! Pairs, and what ends a sequence.
ghost use Rattle.std.specs.Prelude.{◌≡◌, ◌<◌, [], length, MatchOption};
ghost use Rattle.cd_cells.specs.Cells.{thing_at};
ghost use Rattle.cd_cells.specs.Table.{table};
ghost use Rattle.cd_operations.specs.Along.{items_along};
ghost use Rattle.cd_operations.specs.Pairs.{IsPairAt, is_empty};

use cd_cells::names::is_named;
use cd_cells::{Look, ValueId, Values};

/// The parts of a pair.
#[inline]
pub fn pair_at(values: &Values, id: ValueId) -> Option<(ValueId, ValueId)>
    requires { id.0 < length (table values.now) }
    ensures { MatchOption result (items_along (thing_at (table values.now) id.0) ≡ [])
        (IsPairAt (table values.now) id.0) }
{
    match values.look(id) {
        Look::Pair(first, second) => Some((first, second)),
        _ => None,
    }
}

/// Whether a value is the empty sequence.
#[tactic(auto, using(crate::proofs::Literals::nil_characters))]
pub fn is_nil(values: &Values, id: ValueId) -> bool
    requires { id.0 < length (table values.now) }
    ensures { result ≡ is_empty (thing_at (table values.now) id.0) }
{
    match values.look(id) {
        Look::Atom(name) => is_named(values, name, "nil"),
        _ => false,
    }
}
