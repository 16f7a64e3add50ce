//! Words before a value.
ghost use Rattle.std.specs.Prelude.{◌≡◌, ◌<◌, length, codes, IfOk};
ghost use Rattle.cd_model.specs.Thing.{Atom};
ghost use Rattle.cd_cells.specs.Cells.{thing_at};
ghost use Rattle.cd_cells.specs.Table.{table, IsAt, Grows};
ghost use Rattle.cd_evaluation.specs.Lists.{characters_of};
ghost use Rattle.cd_evaluation.specs.Operations as operations;
ghost use Rattle.cd_evaluation.specs.Operations.{word_outcome};
ghost use Rattle.cd_operations.specs.Endings.{plain_ending, IsEnding};

use crate::added::integer;
use crate::ending::Ending;
use crate::extremes::{Extreme, extreme_of};
use crate::joins::flattened;
use crate::spelling::spelled;
use crate::texts::{collect, decimal_of};
use crate::truths::{truth, truth_of};
use cd_cells::{Look, ValueId, Values};
use cd_program::operator::BuiltIn;
use std::alloc::{AllocError, Global};

/// What a word makes of a value.
///
/// # Errors
///
/// Want of memory.
pub fn say(
    alloc: Global,
    values: &mut Values,
    word: BuiltIn,
    value: ValueId,
) -> Result<Ending, AllocError>
    requires { value.0 < length (table values.old) }
    ensures is { IfOk result (λ ending. plain_ending (table values.new) ending
        ≡ word_outcome word (thing_at (table values.old) value.0)) }
    ensures within { IfOk result (IsEnding (length (table values.new))) }
    ensures grows { Grows values.old values.new }
{
    match word {
        BuiltIn::Not => inverted(values, value),
        BuiltIn::Flatten => flattened(alloc, values, value),
        BuiltIn::IntOf => int_of(alloc, values, value),
        BuiltIn::StringOf => string_of(alloc, values, value),
        BuiltIn::MinOf => Ok(extreme_of(values, Extreme::Least, value)),
        BuiltIn::MaxOf => Ok(extreme_of(values, Extreme::Greatest, value)),
        BuiltIn::Raise => Ok(Ending::Raised(value)),
    }
}

fn inverted(values: &mut Values, value: ValueId) -> Result<Ending, AllocError>
    requires { value.0 < length (table values.old) }
    ensures is { IfOk result (λ ending. plain_ending (table values.new) ending
        ≡ operations.inverted (operations.truth_of (thing_at (table values.old) value.0))) }
    ensures within { IfOk result (IsEnding (length (table values.new))) }
    ensures grows { Grows values.old values.new }
{
    match truth_of(values, value) {
        Some(is) => Ok(Ending::Done(truth(values, !is)?)),
        None => Ok(Ending::Stuck),
    }
}

// A text that spells no integer raises `Invalid_int`.
fn int_of(alloc: Global, values: &mut Values, value: ValueId) -> Result<Ending, AllocError>
    requires { value.0 < length (table values.old) }
    ensures is { IfOk result (λ ending. plain_ending (table values.new) ending
        ≡ operations.int_of (characters_of (thing_at (table values.old) value.0))) }
    ensures within { IfOk result (IsEnding (length (table values.new))) }
    ensures grows { Grows values.old values.new }
{
    let mut text = Vec::new(alloc);
    if collect(values, value, &mut text)? {
        return integer_or_fault(values, spelled(text.as_slice()));
    }
    Ok(Ending::Stuck)
}

fn integer_or_fault(values: &mut Values, found: Option<i128>) -> Result<Ending, AllocError>
    ensures is { IfOk result (λ ending.
        plain_ending (table values.new) ending ≡ operations.if_spelled found) }
    ensures within { IfOk result (IsEnding (length (table values.new))) }
    ensures grows { Grows values.old values.new }
{
    match found {
        Some(n) => Ok(Ending::Done(integer(values, n)?)),
        None => Ok(Ending::Raised(invalid_int(values)?)),
    }
}

fn invalid_int(values: &mut Values) -> Result<ValueId, AllocError>
    ensures is { IfOk result (λ id. IsAt (table values.new) id.0 (Atom (codes "Invalid_int"))) }
    ensures grows { Grows values.old values.new }
{
    Ok(values.atom("Invalid_int")?)
}

fn string_of(alloc: Global, values: &mut Values, value: ValueId) -> Result<Ending, AllocError>
    requires { value.0 < length (table values.old) }
    ensures is { IfOk result (λ ending. plain_ending (table values.new) ending
        ≡ operations.string_of (thing_at (table values.old) value.0)) }
    ensures within { IfOk result (IsEnding (length (table values.new))) }
    ensures grows { Grows values.old values.new }
{
    match values.look(value) {
        Look::Int(n) => Ok(Ending::Done(decimal_of(alloc, values, n)?)),
        _ => Ok(Ending::Stuck),
    }
}
