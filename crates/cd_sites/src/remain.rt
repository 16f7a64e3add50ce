//! What a pattern leaves of a type.
ghost use Rattle.std.specs.Prelude.{◌≡◌, ◌<◌, length, IfOk};
ghost use Rattle.cd_syntax.specs.TypeTree.{Tree};
ghost use Rattle.cd_model.specs.Formula.{IsGraph};
ghost use Rattle.cd_model.specs.Scope.{Scope};
ghost use Rattle.cd_empty.specs.Growth.{Grows};
ghost use Rattle.cd_empty.specs.Seen.{graph_of};
ghost use Rattle.cd_meaning.specs.Sets.{◌⊆◌, elements_of};
ghost use Rattle.cd_sites.specs.Sites.{IsAccepted, IsSite};
ghost use Rattle.cd_sites.specs.TakenElements.{left_of};

use crate::difference::difference;
use crate::site::Site;
use cd_empty::World;
use cd_sets::node_id::NodeId;
use std::alloc::{AllocError, Global};

/// A node that holds exactly the elements of a node that the pattern of a site does not take. Where
/// it takes none of them it is that node, and where it takes all, the empty one. Of a union it is a
/// union of what is left of each member.
///
/// # Errors
///
/// Want of memory. The graph is sound then, and begins with what it was.
pub fn remaining(
    alloc: Global,
    world: &mut World,
    matched: NodeId,
    site: &Site<'_>,
) -> Result<NodeId, AllocError>
    requires site { IsAccepted (graph_of world.old) site.now }
    requires matched { matched.0 < length (graph_of world.old) }
    ensures left { IfOk result (λ id. (scope : Scope) (written : Tree)
        → IsSite (graph_of world.old) scope written site.now
        → elements_of (graph_of world.new) id
        ⊆ left_of scope written (elements_of (graph_of world.old) matched)) }
    ensures all_left { IfOk result (λ id. (scope : Scope) (written : Tree)
        → IsSite (graph_of world.old) scope written site.now
        → left_of scope written (elements_of (graph_of world.old) matched)
        ⊆ elements_of (graph_of world.new) id) }
    ensures node { IfOk result (λ id. id.0 < length (graph_of world.new)) }
    ensures sound { IsGraph (graph_of world.new) }
    ensures grows { Grows world.old world.new }
{
    difference(alloc, world, matched, site.accepted.root)
}
