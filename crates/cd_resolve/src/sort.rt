//! Fields in the order of their labels.
ghost use Rattle.std.specs.Prelude.{◌≡◌, ◌≤◌, length, IfOk, OnOk};
ghost use Rattle.std.specs.Option.{IfSome};
ghost use Rattle.cd_graph.specs.PlainFormula.{plain_named};
ghost use Rattle.cd_resolve.specs.Inner.Leaves.{inserted, sorted};
ghost use Rattle.cd_resolve.specs.Inner.PlainState.{put, plain_one};

use cd_graph::fields::Field;
use cd_syntax::name::Name;
use cd_syntax::order::compare;
use std::alloc::{AllocError, Global};
use std::cmp::Ordering;

// Where a field is to stand among fields whose labels rise; nowhere, if one of them has its label.
fn place_for(sorted: &[(Name, Field)], field: &(Name, Field)) -> Option<usize>
    ensures within { IfSome result (λ index. index ≤ length sorted.now) }
    ensures put { inserted (plain_one field.now) (plain_named sorted.now)
        ≡ put (plain_one field.now) result (plain_named sorted.now) }
{
    for index in 0..sorted.len() {
        match compare(&field.0, &sorted[index].0) {
            Ordering::Less => return Some(index),
            Ordering::Equal => return None,
            Ordering::Greater => {}
        }
    }
    Some(sorted.len())
}

// Puts a field among fields whose labels rise, and drops it if one of them has its label.
fn insert(sorted: &mut Vec<(Name, Field)>, field: (Name, Field)) -> Result<(), AllocError>
    ensures { OnOk result (plain_named sorted.new.items
        ≡ inserted (plain_one field) (plain_named sorted.old.items)) }
{
    if let Some(index) = place_for(sorted.as_slice(), &field) {
        sorted.insert(index, field)?;
    }
    Ok(())
}

/// The fields in the order of their labels. Where several have one label, the first is kept.
pub(crate) fn sort(
    alloc: Global,
    fields: Vec<(Name, Field)>,
) -> Result<Vec<(Name, Field)>, AllocError>
    ensures { IfOk result (λ all. plain_named all.items ≡ sorted (plain_named fields.items)) }
{
    let mut all = Vec::new(alloc);
    for field in fields {
        insert(&mut all, field)?;
    }
    Ok(all)
}
