//! Rows that grow.
ghost use Rattle.std.specs.Prelude.{◌≡◌, [], ◌∷◌, ◌++◌, IfOk};

use std::alloc::{AllocError, Global};

/// A row of one.
///
/// # Errors
///
/// Want of memory.
pub fn row_of<T: Drop>(alloc: Global, one: T) -> Result<Vec<T>, AllocError>
    ensures { IfOk result (λ all. all.items ≡ one ∷ []) }
{
    let mut all = Vec::with_capacity(alloc, 1)?;
    all.push(one)?;
    Ok(all)
}

/// A row of two.
///
/// # Errors
///
/// Want of memory.
pub fn row_of_two<T: Drop>(alloc: Global, one: Box<T>, other: Box<T>) -> Result<Vec<T>, AllocError>
    ensures { IfOk result (λ all. all.items ≡ one.value ∷ other.value ∷ []) }
{
    let mut all = Vec::with_capacity(alloc, 2)?;
    all.push(Box::into_inner(one))?;
    all.push(Box::into_inner(other))?;
    Ok(all)
}

/// One, and a row after it.
///
/// # Errors
///
/// Want of memory.
pub fn in_front<T: Drop>(one: T, mut all: Vec<T>) -> Result<Vec<T>, AllocError>
    ensures { IfOk result (λ longer. longer.items ≡ one ∷ all.items) }
{
    all.insert(0, one)?;
    Ok(all)
}

/// A row, and one after it.
///
/// # Errors
///
/// Want of memory.
pub fn added<T: Drop>(mut all: Vec<T>, last: T) -> Result<Vec<T>, AllocError>
    ensures { IfOk result (λ longer. longer.items ≡ all.items ++ last ∷ []) }
{
    all.push(last)?;
    Ok(all)
}

/// A row, and those after it.
///
/// # Errors
///
/// Want of memory.
pub fn joined<T: Drop>(mut all: Vec<T>, mut rest: Vec<T>) -> Result<Vec<T>, AllocError>
    ensures { IfOk result (λ longer. longer.items ≡ all.items ++ rest.items) }
{
    all.append(&mut rest)?;
    Ok(all)
}
