//! Fields in the order of their labels.
ghost use Rattle.std.specs.Prelude.{◌≡◌, ◌≤◌, ◌++◌, ◌∷◌, [], length, take, drop, IfOk, OnOk};
ghost use Rattle.cd_matching.specs.PlainKernel.{plain_kernel_field};
ghost use Rattle.cd_model.specs.SortedFields.{inserted};
ghost use Rattle.cd_kernel.specs.Inner.Building.{sorted_over};
ghost use Rattle.cd_kernel.specs.Inner.PlainSteps.{plain_kernel_fields};

use cd_matching::kernel::KernelField;
use cd_syntax::order::compare;
use std::alloc::{AllocError, Global};
use std::cmp::Ordering;

// Where a field is to stand among fields in order: before the first whose label is above its own.
fn place_for(sorted: &[KernelField], field: &KernelField) -> usize
    ensures within { result ≤ length sorted.now }
    ensures put { inserted (plain_kernel_field field.now) (plain_kernel_fields sorted.now)
        ≡ take result (plain_kernel_fields sorted.now)
        ++ plain_kernel_field field.now ∷ drop result (plain_kernel_fields sorted.now) }
{
    for index in 0..sorted.len() {
        match compare(&field.label, &sorted[index].label) {
            Ordering::Less => return index,
            Ordering::Equal => {}
            Ordering::Greater => {}
        }
    }
    sorted.len()
}

// Puts a field among fields in order.
fn insert(sorted: &mut Vec<KernelField>, field: KernelField) -> Result<(), AllocError>
    ensures { OnOk result (plain_kernel_fields sorted.new.items
        ≡ inserted (plain_kernel_field field) (plain_kernel_fields sorted.old.items)) }
{
    let index = place_for(sorted.as_slice(), &field);
    sorted.insert(index, field)?;
    Ok(())
}

/// The fields in the order of their labels.
#[tactic(auto, using(crate::proofs::FieldsSorted::one_back))]
pub(crate) fn sort(alloc: Global, fields: Vec<KernelField>) -> Result<Vec<KernelField>, AllocError>
    ensures { IfOk result (λ all.
        plain_kernel_fields all.items ≡ sorted_over (plain_kernel_fields fields.items) []) }
{
    let mut left = fields;
    let mut all = Vec::new(alloc);
    while let Some(field) = left.pop() {
        insert(&mut all, field)?;
    }
    Ok(all)
}
