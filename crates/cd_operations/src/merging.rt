//! The fields of two records.
ghost use Rattle.std.specs.Prelude.{◌≡◌, ◌∷◌, [], IfOk, MatchOption, length};
ghost use Rattle.std.specs.Cmp.Lexicographic.{slice_cmp};
ghost use Rattle.std.specs.Ordering.{nat_cmp};
ghost use Rattle.cd_model.specs.AllOf.{AllOf};
ghost use Rattle.cd_model.specs.Thing.{NoField};
ghost use Rattle.cd_cells.specs.Cells.{name_at, IsPart};
ghost use Rattle.cd_cells.specs.Table.{table, names};
ghost use Rattle.cd_evaluation.specs.RecordFields.{merged};
ghost use Rattle.cd_operations.specs.Inner.Merging.{fields_by, fields_of_both, AreOfRecord};
ghost use Rattle.cd_operations.specs.Inner.Merging.{AreOfRecords, IsNext};

use cd_cells::{Part, Values};
use std::alloc::{AllocError, Global};
use std::cmp::Ordering;

/// What is left of the fields of two records.
#[derive(Clone, Copy)]
pub(crate) struct Both<'v> {
    pub(crate) first: &'v [Part],
    pub(crate) second: &'v [Part],
}

/// The fields of both records, by rising label. At a label of both it is that of the second.
pub(crate) fn merge(
    alloc: Global,
    values: &Values,
    first: &[Part],
    second: &[Part],
) -> Result<Vec<Part>, AllocError>
    requires first { AreOfRecord values.now first.now }
    requires second { AreOfRecord values.now second.now }
    ensures parts { IfOk result (λ made. AreOfRecord values.now made.items) }
    ensures fields { IfOk result (λ made. fields_by values.now made.items
        ≡ merged (fields_by values.now first.now) (fields_by values.now second.now)) }
{
    let mut made = Vec::new(alloc);
    let mut both = Both { first, second };
    while let Some((part, rest)) = next_part(values, both) {
        made.push(part)?;
        both = rest;
    }
    Ok(made)
}

fn next_part<'v>(values: &Values, both: Both<'v>) -> Option<(Part, Both<'v>)>
    requires { AreOfRecords values.now both }
    ensures { MatchOption result (fields_of_both values.now both.entry ≡ NoField)
        (IsNext values.now both.entry) }
{
    let Some((one, first)) = split(both.first) else {
        return last_part(values, both);
    };
    let Some((other, second)) = split(both.second) else {
        let second = both.second;
        return Some((one, Both { first, second }));
    };
    match compare(values, other, one) {
        Ordering::Less => {
            let first = both.first;
            Some((other, Both { first, second }))
        }
        Ordering::Equal => Some((other, Both { first, second })),
        Ordering::Greater => {
            let second = both.second;
            Some((one, Both { first, second }))
        }
    }
}

// The next field where none is left of the first record.
fn last_part<'v>(values: &Values, both: Both<'v>) -> Option<(Part, Both<'v>)>
    requires records { AreOfRecords values.now both }
    requires none { both.first.now ≡ [] }
    ensures { MatchOption result (fields_of_both values.now both.entry ≡ NoField)
        (IsNext values.now both.entry) }
{
    let (other, second) = split(both.second)?;
    let first = both.first;
    Some((other, Both { first, second }))
}

/// The first part, and those after it.
pub(crate) fn split(parts: &[Part]) -> Option<(Part, &[Part])>
    ensures { MatchOption result (parts.now ≡ [])
        (λ first. parts.now ≡ first.0 ∷ first.1.now) }
{
    match parts {
        [] => None,
        [first, rest @ ..] => Some((*first, rest)),
    }
}

// The order of the labels of two fields.
fn compare(values: &Values, one: Part, other: Part) -> Ordering
    ensures { let name = name_at (names values.now) in
        result ≡ slice_cmp nat_cmp (name one.label) (name other.label) }
{
    let name = values.name_of(one.label);
    let other = values.name_of(other.label);
    name.chars().cmp(other.chars())
}
