//! Kernels whose nodes that lead alike are one.
ghost use Rattle.std.specs.Prelude.{◌≡◌, ◌<◌, ◌≤◌, ℕ, length, IfOk};
ghost use Rattle.std.specs.Option.{IfSome};
ghost use Rattle.cd_model.specs.BuiltIns.{built_ins};
ghost use Rattle.cd_matching.specs.Kernel.{IsSound};
ghost use Rattle.cd_matching.specs.Naming.{IsNamed};
ghost use Rattle.cd_matching.specs.PlainKernel.{plain_kernel, plain_nodes};
ghost use Rattle.cd_matching.specs.PlainPattern.{plain};
ghost use Rattle.cd_kernel.specs.Labelled.{HasLabels};
ghost use Rattle.cd_kernel.specs.Making.{TakesAlike};
ghost use Rattle.cd_kernel.specs.WellMade.{IsWellMade};
ghost use Rattle.cd_merged.specs.Inner.Classes.{AreMerged, IsMerged};

use crate::alike::are_alike;
use crate::classes::{Classes, class_of, classes_of};
use crate::falling::are_falling;
use crate::renamed::renamed_nodes;
use cd_matching::kernel::{Kernel, KernelNode};
use cd_matching::pattern::Pat;
use std::alloc::{AllocError, Global};

/// The kernel of a pattern, in which nodes that lead alike are one. It takes what the pattern
/// takes, with the same captures. It is sound in a graph of the built-in nodes at least, where the
/// pattern's types are nodes and its constants are elements. No variable of the pattern is at
/// fault, and its labels are labels.
///
/// # Errors
///
/// Want of memory, also where the number of a node would be no word.
pub fn kernel(alloc: Global, pattern: &Pat) -> Result<Kernel, AllocError>
    requires named { IsNamed (plain pattern.now) }
    requires labels { HasLabels (plain pattern.now) }
    ensures takes { IfOk result (λ kernel. TakesAlike (plain pattern.now) (plain_kernel kernel)) }
    ensures sound { IfOk result (λ kernel. (nodes : ℕ) → length built_ins ≤ nodes
        → IsWellMade (λ id. id.0 < nodes) (plain pattern.now)
        → IsSound (λ id. id.0 < nodes) (plain_kernel kernel)) }
{
    let kernel = cd_kernel::kernel(alloc, pattern)?;
    Ok(merged(alloc, kernel)?)
}

// The kernel in which nodes that lead alike are one, or the kernel itself if they are not found.
fn merged(alloc: Global, kernel: Kernel) -> Result<Kernel, AllocError>
    ensures { IfOk result (λ merged. IsMerged (plain_kernel kernel) (plain_kernel merged)) }
{
    let classes = classes_of(alloc, kernel.nodes.as_slice())?;
    match merged_nodes(alloc, kernel.nodes.as_slice(), &classes)? {
        None => Ok(kernel),
        Some(nodes) => Ok(Kernel {
            nodes,
            root: class_of(classes.numbers.as_slice(), kernel.root),
            variables: kernel.variables,
        }),
    }
}

// A node for each class, if the classes are found right.
fn merged_nodes(
    alloc: Global,
    nodes: &[KernelNode],
    classes: &Classes,
) -> Result<Option<Vec<KernelNode>>, AllocError>
    ensures { IfOk result (λ found. IfSome found (λ merged.
        AreMerged (plain_nodes nodes.now) classes.now.numbers.items (plain_nodes merged.items))) }
{
    if !are_falling(nodes) || !are_alike(nodes, classes) {
        return Ok(None);
    }
    let numbers = classes.numbers.as_slice();
    let merged = renamed_nodes(alloc, nodes, numbers, classes.firsts.as_slice())?;
    if !are_falling(merged.as_slice()) {
        return Ok(None);
    }
    Ok(Some(merged))
}
