//! Numbers of nodes, each once.
ghost use Rattle.std.specs.Prelude.{◌≡◌, IfOk};
ghost use Rattle.cd_filter.specs.Inner.Forming.{is_among, joined};

use std::alloc::{AllocError, Global};

/// The numbers of one list, and those of another that are not among them.
pub(crate) fn joined(
    alloc: Global,
    one: &[usize],
    other: &[usize],
) -> Result<Vec<usize>, AllocError>
    ensures { IfOk result (λ all. all.items ≡ joined one.now other.now) }
{
    let mut all = Vec::new(alloc);
    all.extend_from_slice(one)?;
    for number in other {
        if !is_among(one, *number) {
            all.push(*number)?;
        }
    }
    Ok(all)
}

// Whether the number is one of these.
fn is_among(numbers: &[usize], number: usize) -> bool
    ensures { result ≡ is_among numbers.now number }
{
    numbers.iter().any(|one| *one == number)
}
