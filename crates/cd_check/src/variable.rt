//! Variables, and functions by their names.
ghost use Rattle.std.specs.Prelude.{◌≡◌};
ghost use Rattle.cd_check.specs.Inner.Environment.{node_at, declared};
ghost use Rattle.cd_check.specs.Inner.Ready.{seen_by};

use crate::base::Base;
use cd_sets::node_id::NodeId;
use cd_syntax::name::Name;

/// The node of a variable that is seen, or else of a function that is declared.
pub(crate) fn find(
    base: &Base<'_, '_, '_>,
    locals: &[(Name, NodeId)],
    name: &Name,
) -> Option<NodeId>
    ensures { result ≡ node_at (seen_by base.now locals.now) name.now }
{
    match local(locals, name) {
        Some(id) => Some(id),
        None => function(base, name),
    }
}

// The node of the first variable of this name.
fn local(locals: &[(Name, NodeId)], name: &Name) -> Option<NodeId>
    ensures { result ≡ node_at locals.now name.now }
{
    for (other, id) in locals {
        if other == name {
            return Some(*id);
        }
    }
    None
}

// The node of the function of this name.
fn function(base: &Base<'_, '_, '_>, name: &Name) -> Option<NodeId>
    ensures { result ≡ node_at (declared base.now.functions.now base.now.interfaces.now) name.now }
{
    match base.functions.find(name) {
        Some(number) => base.interfaces.get(number).copied(),
        None => None,
    }
}
