//! The kernel of a pattern.
ghost use Rattle.std.specs.Prelude.{◌≡◌, ◌<◌, ◌≤◌, ℕ, length, IfOk};
ghost use Rattle.cd_model.specs.BuiltIns.{built_ins};
ghost use Rattle.cd_matching.specs.Kernel.{IsSound};
ghost use Rattle.cd_matching.specs.Naming.{IsNamed};
ghost use Rattle.cd_matching.specs.PlainKernel.{plain_kernel};
ghost use Rattle.cd_matching.specs.PlainPattern.{plain};
ghost use Rattle.cd_kernel.specs.Alternatives.{HasAlternatives};
ghost use Rattle.cd_kernel.specs.Inner.Building.{kernel_of};
ghost use Rattle.cd_kernel.specs.Labelled.{HasLabels};
ghost use Rattle.cd_kernel.specs.Making.{IsMade, TakesAlike};
ghost use Rattle.cd_kernel.specs.WellMade.{IsWellMade};

use crate::complete::complete;
use crate::names::variables;
use crate::nodes::put_pattern;
use cd_matching::kernel::Kernel;
use cd_matching::pattern::Pat;
use std::alloc::{AllocError, Global};

/// The kernel of a pattern, which takes what the pattern takes, with the same captures. It is sound
/// in a graph of the built-in nodes at least, where the pattern's types are nodes and its constants
/// are elements. No variable of the pattern is at fault, and its labels are labels.
///
/// # Errors
///
/// Want of memory, also where the number of a node would be no word.
pub fn kernel(alloc: Global, pattern: &Pat) -> Result<Kernel, AllocError>
    requires named { IsNamed (plain pattern.now) }
    requires labels { HasLabels (plain pattern.now) }
    ensures takes { IfOk result (λ kernel. TakesAlike (plain pattern.now) (plain_kernel kernel)) }
    ensures sound { IfOk result (λ kernel. (nodes : ℕ) → length built_ins ≤ nodes
        → IsWellMade (λ id. id.0 < nodes) (plain pattern.now)
        → IsSound (λ id. id.0 < nodes) (plain_kernel kernel)) }
{
    let complete = complete(alloc, pattern)?;
    Ok(kernel_made(alloc, &complete)?)
}

// The kernel that is made of a pattern. It is sound where each choice in a sequence has an
// alternative.
fn kernel_made(alloc: Global, pattern: &Pat) -> Result<Kernel, AllocError>
    requires named { IsNamed (plain pattern.now) }
    requires labels { HasLabels (plain pattern.now) }
    ensures made { IfOk result (λ kernel. IsMade (plain pattern.now) (plain_kernel kernel)) }
    ensures sound { IfOk result (λ kernel. (nodes : ℕ) → length built_ins ≤ nodes
        → IsWellMade (λ id. id.0 < nodes) (plain pattern.now)
        → HasAlternatives (plain pattern.now)
        → IsSound (λ id. id.0 < nodes) (plain_kernel kernel)) }
{
    Ok(make(alloc, pattern)?)
}

fn make(alloc: Global, pattern: &Pat) -> Result<Kernel, AllocError>
    ensures { IfOk result (λ kernel. plain_kernel kernel ≡ kernel_of (plain pattern.now)) }
{
    let variables = variables(alloc, pattern)?;
    let mut nodes = Vec::new(alloc);
    let root = put_pattern(alloc, variables.as_slice(), true, pattern, &mut nodes)?;
    Ok(Kernel {
        nodes,
        root,
        variables,
    })
}
