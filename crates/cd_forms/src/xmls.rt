ghost use Rattle.std.specs.Prelude.{◌≡◌, ◌<◌, length, IfOk, OnErr};
ghost use Rattle.cd_model.specs.Formula.{IsGraph};
ghost use Rattle.cd_meaning.specs.Sets.{◌⊆◌, elements_of};
ghost use Rattle.cd_typing.specs.Results.{IsXmlOf};
ghost use Rattle.cd_empty.specs.Growth.{Grows};
ghost use Rattle.cd_empty.specs.Seen.{graph_of};

use cd_builders::put;
use cd_empty::World;
use cd_graph::Formula;
use cd_sets::node_id::NodeId;
use std::alloc::{AllocError, Global};

/// A node that holds exactly the XML elements of a tag, attributes and a content in these nodes.
///
/// # Errors
///
/// Want of memory. The graph stays as it was.
pub fn xml(
    alloc: Global,
    world: &mut World,
    tag: NodeId,
    attributes: NodeId,
    content: NodeId,
) -> Result<NodeId, AllocError>
    requires tag { tag.0 < length (graph_of world.old) }
    requires attributes { attributes.0 < length (graph_of world.old) }
    requires content { content.0 < length (graph_of world.old) }
    ensures has { IfOk result (λ id. IsXmlOf (elements_of (graph_of world.old) tag)
        (elements_of (graph_of world.old) attributes) (elements_of (graph_of world.old) content)
        ⊆ elements_of (graph_of world.new) id) }
    ensures only { IfOk result (λ id. elements_of (graph_of world.new) id
        ⊆ IsXmlOf (elements_of (graph_of world.old) tag)
        (elements_of (graph_of world.old) attributes)
        (elements_of (graph_of world.old) content)) }
    ensures node { IfOk result (λ id. id.0 < length (graph_of world.new)) }
    ensures unchanged { OnErr result (graph_of world.new ≡ graph_of world.old) }
    ensures sound { IsGraph (graph_of world.new) }
    ensures grows { Grows world.old world.new }
{
    put(alloc, world, Formula::xml(tag, attributes, content))
}
