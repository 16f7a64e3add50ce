//! What comes to a branch.
ghost use Rattle.std.specs.Prelude.{◌≡◌, ◌<◌, length, IfOk, MatchOption, OnErr};
ghost use Rattle.cd_model.specs.Formula.{IsGraph};
ghost use Rattle.cd_empty.specs.Growth.{Grows};
ghost use Rattle.cd_empty.specs.Seen.{graph_of};
ghost use Rattle.cd_sites.specs.Sites.{IsAccepted};
ghost use Rattle.cd_coming.specs.Coming.{NothingComes, SomethingComes};

use crate::capture::types_captured;
use crate::take::taken;
use cd_empty::World;
use cd_sets::node_id::NodeId;
use cd_sites::Site;
use cd_syntax::name::Name;
use std::alloc::{AllocError, Global};

/// The types of what the variables of a site's pattern capture from what is in a node, if the
/// pattern takes anything of it: each holds exactly the elements that its variable captures. A branch
/// that nothing comes to is not typed.
///
/// # Errors
///
/// Want of memory. The graph stays as it was.
pub fn captures(
    alloc: Global,
    world: &mut World,
    matched: NodeId,
    site: &Site<'_>,
) -> Result<Option<Vec<(Name, NodeId)>>, AllocError>
    requires site { IsAccepted (graph_of world.old) site.now }
    requires matched { matched.0 < length (graph_of world.old) }
    ensures comes { IfOk result (λ found. MatchOption found
        (NothingComes (graph_of world.old) matched site.now)
        (λ own. SomethingComes (graph_of world.old) matched site.now (graph_of world.new)
        own.items)) }
    ensures unchanged { OnErr result (graph_of world.new ≡ graph_of world.old) }
    ensures sound { IsGraph (graph_of world.new) }
    ensures grows { Grows world.old world.new }
{
    match taken(world, matched, site)? {
        None => Ok(None),
        Some(_) => Ok(Some(types_captured(alloc, world, matched, site)?)),
    }
}
