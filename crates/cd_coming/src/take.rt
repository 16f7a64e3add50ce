//! Whether a pattern takes something of a type.
ghost use Rattle.std.specs.Prelude.{◌≡◌, ◌<◌, [], length, IfOk, MatchOption};
ghost use Rattle.cd_syntax.specs.TypeTree.{Tree};
ghost use Rattle.cd_model.specs.Formula.{IsGraph};
ghost use Rattle.cd_model.specs.Scope.{Scope};
ghost use Rattle.cd_elements.specs.Table.{Names, element_at};
ghost use Rattle.cd_empty.specs.Growth.{Grows};
ghost use Rattle.cd_empty.specs.Seen.{graph_of, table_of};
ghost use Rattle.cd_meaning.specs.Sets.{elements_of};
ghost use Rattle.cd_sites.specs.Sites.{IsAccepted, IsSite};
ghost use Rattle.cd_sites.specs.TakenElements.{IsTakenFrom, TakesNone};

use cd_elements::ElementId;
use cd_empty::World;
use cd_needs::asking::question;
use cd_sets::node_id::NodeId;
use cd_sites::Site;
use cd_verdicts::Verdict;
use std::alloc::AllocError;

/// An element of what is in a node that the pattern of a site takes, if there is one. The graph
/// stays.
///
/// # Errors
///
/// Want of memory.
pub(crate) fn taken(
    world: &mut World,
    matched: NodeId,
    site: &Site<'_>,
) -> Result<Option<ElementId>, AllocError>
    requires site { IsAccepted (graph_of world.old) site.now }
    requires matched { matched.0 < length (graph_of world.old) }
    ensures taken { IfOk result (λ found. MatchOption found
        ((scope : Scope) (written : Tree) → IsSite (graph_of world.old) scope written site.now
        → TakesNone scope written (elements_of (graph_of world.old) matched))
        (λ id. Names (table_of world.new) id × ((scope : Scope) (written : Tree)
        → IsSite (graph_of world.old) scope written site.now
        → IsTakenFrom scope written (elements_of (graph_of world.old) matched)
        (element_at (table_of world.new) id)))) }
    ensures graph { graph_of world.new ≡ graph_of world.old }
    ensures sound { IsGraph (graph_of world.new) }
    ensures grows { Grows world.old world.new }
{
    // The contract of this call says that the graph is sound.
    world.graph();
    let alloc = *site.kernel.nodes.allocator();
    let both = question(alloc, &[matched, site.accepted.root], &[])?;
    match world.decide(&both)? {
        Verdict::Empty => Ok(None),
        Verdict::Inhabited(id) => Ok(Some(id)),
    }
}
