//! Nodes in a world of what texts read as.
ghost use Rattle.std.specs.Prelude.{◌≡◌, ◌++◌, IfOk, IfErr, OnOk};
ghost use Rattle.cd_model.specs.Formula.{Graph as PlainGraph, IsGraph};
ghost use Rattle.cd_resolve.specs.Named.{AreNamed, plain_names, declared_by};
ghost use Rattle.cd_empty.specs.Seen.{graph_of};
ghost use Rattle.cd_replies.specs.Naming.{AreNamedWell, StandsForText};
ghost use Rattle.cd_replies.specs.Refusals.{IfRefused};
ghost use Rattle.cd_replies.specs.Texts.{RefusesType};

use cd_empty::World;
use cd_replies::reader::read_type;
use cd_replies::refusal::RefusalError;
use cd_resolve::Names;
use cd_sets::node_id::NodeId;
use std::alloc::Global;

/// Puts a node of the type that a text reads as into a world.
///
/// # Errors
///
/// What stands against the text, or want of memory.
pub(crate) fn node(
    alloc: Global,
    world: &mut World,
    names: &Names<'_>,
    text: &str,
) -> Result<NodeId, RefusalError>
    requires names_sound { AreNamedWell (declared_by names.now) }
    requires named { AreNamed (graph_of world.old) (plain_names names.now) }
    ensures graph { OnOk result (IsGraph (graph_of world.new)) }
    ensures grows { OnOk result
        ((more : PlainGraph) × (graph_of world.new ≡ graph_of world.old ++ more)) }
    ensures read { IfOk result
        (λ id. StandsForText (graph_of world.new) id (declared_by names.now) text.now) }
    ensures refused { IfErr result
        (λ error. IfRefused error (RefusesType (declared_by names.now) text.now)) }
{
    let batch = read_type(alloc, world.graph(), names, text)?;
    world.extend(batch.formulas)?;
    Ok(batch.root)
}
