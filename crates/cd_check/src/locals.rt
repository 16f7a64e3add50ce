//! The variables that an expression sees, with the nodes of their types. The innermost come first.
ghost use Rattle.std.specs.Prelude.{◌≡◌, ◌++◌, IfOk};
ghost use Rattle.cd_check.specs.Inner.Environment.{with_node};

use cd_sets::node_id::NodeId;
use cd_syntax::name::Name;
use std::alloc::{AllocError, Global};

/// Variables, and after them those that were seen before.
pub(crate) fn with_outer(
    own: Vec<(Name, NodeId)>,
    outer: &[(Name, NodeId)],
) -> Result<Vec<(Name, NodeId)>, AllocError>
    ensures { IfOk result (λ all. all.items ≡ own.items ++ outer.now) }
{
    let mut all = own;
    for (name, id) in outer {
        all.push((name.copy()?, *id))?;
    }
    Ok(all)
}

/// A name, if there is one, and after it the variables that were seen before.
pub(crate) fn with_own_name(
    alloc: Global,
    name: &Option<Name>,
    id: NodeId,
    outer: &[(Name, NodeId)],
) -> Result<Vec<(Name, NodeId)>, AllocError>
    ensures { IfOk result (λ all. all.items ≡ with_node name.now id outer.now) }
{
    let mut own = Vec::new(alloc);
    if let Some(name) = name {
        own.push((name.copy()?, id))?;
    }
    with_outer(own, outer)
}
