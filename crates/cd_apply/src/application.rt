//! The application of what is in one node to what is in another.
ghost use Rattle.std.specs.Prelude.{◌≡◌, ◌<◌, length, IfOk, OnErr};
ghost use Rattle.cd_model.specs.Formula.{IsGraph};
ghost use Rattle.cd_meaning.specs.Sets.{◌⊆◌, elements_of};
ghost use Rattle.cd_meaning.specs.Functions.{IsFunction};
ghost use Rattle.cd_empty.specs.Growth.{Grows};
ghost use Rattle.cd_empty.specs.Seen.{graph_of, table_of};
ghost use Rattle.cd_apply.specs.Applications.{AreMappedInto, AreResultsAlone, IsResultNode};
ghost use Rattle.cd_apply.specs.Applications.{NamesNoFunction, NamesOutside};
ghost use Rattle.cd_apply.specs.Inner.Applied.{IsApplied};

use crate::clauses::function_clauses;
use crate::image::{Image, image_of};
use cd_builders::union;
use cd_elements::ElementId;
use cd_empty::World;
use cd_graph::built_in::ARROW;
use cd_sets::node_id::NodeId;
use cd_verdicts::Verdict;
use std::alloc::{AllocError, Global};

/// What functions give for arguments.
#[derive(Clone, Copy)]
pub enum Applied {
    /// A node that holds exactly the results.
    Results(NodeId),
    /// Something is no function: this element.
    NotFunction(ElementId),
    /// Some function fails at this argument.
    OutsideDomain(ElementId),
}

/// Applies what is in the one node to what is in the other. The results are in a node that was
/// there before, where one of those that the functions lead to is found to hold them alone.
///
/// # Errors
///
/// Want of memory. The graph stays as it was.
pub fn apply(
    alloc: Global,
    world: &mut World,
    function: NodeId,
    argument: NodeId,
) -> Result<Applied, AllocError>
    requires function { function.0 < length (graph_of world.old) }
    requires argument { argument.0 < length (graph_of world.old) }
    ensures into { IfOk result
        (AreMappedInto (graph_of world.old) function argument (graph_of world.new)) }
    ensures only { IfOk result
        (AreResultsAlone (graph_of world.old) function argument (graph_of world.new)) }
    ensures node { IfOk result (IsResultNode (graph_of world.new)) }
    ensures not_function { IfOk result
        (NamesNoFunction (graph_of world.old) function (table_of world.new)) }
    ensures outside { IfOk result
        (NamesOutside (graph_of world.old) function argument (table_of world.new)) }
    ensures unchanged { OnErr result (graph_of world.new ≡ graph_of world.old) }
    ensures sound { IsGraph (graph_of world.new) }
    ensures grows { Grows world.old world.new }
{
    // The contract of this call says that the graph begins with the built-in nodes.
    world.graph();
    match world.subtype(function, ARROW)? {
        Verdict::Inhabited(element) => Ok(Applied::NotFunction(element)),
        Verdict::Empty => apply_functions(alloc, world, function, argument),
    }
}

// Applies functions, where all that is in the one node are functions.
fn apply_functions(
    alloc: Global,
    world: &mut World,
    function: NodeId,
    argument: NodeId,
) -> Result<Applied, AllocError>
    requires function { function.0 < length (graph_of world.old) }
    requires argument { argument.0 < length (graph_of world.old) }
    requires functions { elements_of (graph_of world.old) function ⊆ IsFunction }
    ensures applied { IfOk result (IsApplied (graph_of world.old) function argument
        (graph_of world.new) (table_of world.new)) }
    ensures unchanged { OnErr result (graph_of world.new ≡ graph_of world.old) }
    ensures sound { IsGraph (graph_of world.new) }
    ensures grows { Grows world.old world.new }
{
    let clauses = function_clauses(alloc, world.graph(), function)?;
    match image_of(alloc, world, clauses.as_slice(), argument)? {
        Image::Fails(element) => Ok(Applied::OutsideDomain(element)),
        Image::Union(questions) => {
            let id = union(alloc, world, questions.as_slice())?;
            Ok(Applied::Results(id))
        }
    }
}
