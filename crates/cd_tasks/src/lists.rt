ghost use Rattle.std.specs.Prelude.{◌≡◌, ◌<◌, ◌∷◌, ◌++◌, length, IfOk};
ghost use Rattle.std.specs.List.{remove};

use std::alloc::{AllocError, Global};
use std::rc::Rc;

/// These with one before them.
pub(crate) fn prepended<T: Copy + Drop>(
    alloc: Global,
    one: T,
    others: &[T],
) -> Result<Vec<T>, AllocError>
    ensures { IfOk result (λ all. all.items ≡ one ∷ others.now) }
{
    let mut all = Vec::with_capacity(alloc, others.len().saturating_add(1))?;
    all.push(one)?;
    all.extend_from_slice(others)?;
    Ok(all)
}

/// Those of two lists.
pub(crate) fn joined<T: Copy + Drop>(
    alloc: Global,
    some: &[T],
    others: &[T],
) -> Result<Vec<T>, AllocError>
    ensures { IfOk result (λ all. all.items ≡ some.now ++ others.now) }
{
    let mut all = Vec::with_capacity(alloc, some.len().saturating_add(others.len()))?;
    all.extend_from_slice(some)?;
    all.extend_from_slice(others)?;
    Ok(all)
}

// These without the one at a place.
fn without<T: Copy + Drop>(alloc: Global, items: &[T], place: usize) -> Result<Vec<T>, AllocError>
    requires { place < length items.now }
    ensures { IfOk result (λ rest. rest.items ≡ remove items.now place) }
{
    let mut rest = Vec::from_slice(alloc, items)?;
    let _one = rest.remove(place);
    Ok(rest)
}

/// These without the one at a place, to be shared.
pub(crate) fn shared_without<T: Copy + Drop>(
    alloc: Global,
    items: &[T],
    place: usize,
) -> Result<Rc<Vec<T>>, AllocError>
    requires { place < length items.now }
    ensures { IfOk result (λ rest. rest.value.items ≡ remove items.now place) }
{
    let rest = without(alloc, items, place)?;
    Ok(Rc::new(alloc, rest)?)
}
