//! The types of what the variables of a pattern capture.
ghost use Rattle.std.specs.Prelude.{◌≡◌, ◌<◌, [], length, IfOk, OnErr};
ghost use Rattle.cd_syntax.specs.TypeTree.{Tree};
ghost use Rattle.cd_model.specs.AllOf.{AllOf};
ghost use Rattle.cd_model.specs.Formula.{IsGraph};
ghost use Rattle.cd_model.specs.Scope.{Scope};
ghost use Rattle.cd_empty.specs.Growth.{Grows};
ghost use Rattle.cd_empty.specs.Seen.{graph_of};
ghost use Rattle.cd_meaning.specs.Sets.{elements_of};
ghost use Rattle.cd_typing.specs.Branches.{HoldCaptured};
ghost use Rattle.cd_coming.specs.CapturedTypes.{types_of, HoldNoMore};
ghost use Rattle.cd_sites.specs.Sites.{IsAccepted, IsSite};

use cd_captured::captured;
use cd_empty::World;
use cd_sets::node_id::NodeId;
use cd_sites::Site;
use cd_syntax::name::Name;
use std::alloc::{AllocError, Global};

/// The types of what the variables of a site's pattern capture from what is in a node: each holds
/// exactly the elements that its variable captures.
///
/// # Errors
///
/// Want of memory. The graph stays as it was.
pub(crate) fn types_captured(
    alloc: Global,
    world: &mut World,
    matched: NodeId,
    site: &Site<'_>,
) -> Result<Vec<(Name, NodeId)>, AllocError>
    requires site { IsAccepted (graph_of world.old) site.now }
    requires matched { matched.0 < length (graph_of world.old) }
    ensures hold { IfOk result (λ captured. (scope : Scope) (written : Tree)
        → IsSite (graph_of world.old) scope written site.now
        → HoldCaptured scope (types_of (graph_of world.new) captured.items) [] written
        (elements_of (graph_of world.old) matched)) }
    ensures only { IfOk result (λ captured. (scope : Scope) (written : Tree)
        → IsSite (graph_of world.old) scope written site.now
        → HoldNoMore scope (types_of (graph_of world.new) captured.items) written
        (elements_of (graph_of world.old) matched)) }
    ensures nodes { IfOk result (λ captured.
        AllOf (λ one. one.1.0 < length (graph_of world.new)) captured.items) }
    ensures unchanged { OnErr result (graph_of world.new ≡ graph_of world.old) }
    ensures sound { IsGraph (graph_of world.new) }
    ensures grows { Grows world.old world.new }
{
    Ok(captured(alloc, world, matched, site.kernel, site.accepted)?)
}
