//! Truth values.
ghost use Rattle.std.specs.Prelude.{◌≡◌, ◌<◌, length, IfOk};
ghost use Rattle.cd_cells.specs.Cells.{thing_at};
ghost use Rattle.cd_cells.specs.Table.{table, IsAt, Grows};
ghost use Rattle.cd_typing.specs.Operators as operators;
ghost use Rattle.cd_evaluation.specs.Operations as operations;

use cd_cells::names::is_named;
use cd_cells::{Look, ValueId, Values};
use std::alloc::AllocError;

/// The truth value that a value is, if it is one.
pub fn truth_of(values: &Values, value: ValueId) -> Option<bool>
    requires { value.0 < length (table values.now) }
    ensures { result ≡ operations.truth_of (thing_at (table values.now) value.0) }
{
    let Look::Atom(name) = values.look(value) else {
        return None;
    };
    if is_named(values, name, "true") {
        return Some(true);
    }
    if is_named(values, name, "false") {
        return Some(false);
    }
    None
}

/// A truth value, which is added if no cell of it is known.
///
/// # Errors
///
/// Want of memory.
pub fn truth(values: &mut Values, is_true: bool) -> Result<ValueId, AllocError>
    ensures is { IfOk result (λ id. IsAt (table values.new) id.0 (operators.truth is_true)) }
    ensures grows { Grows values.old values.new }
{
    if is_true {
        return values.atom("true");
    }
    values.atom("false")
}
