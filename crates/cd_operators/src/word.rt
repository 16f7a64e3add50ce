//! Words before an operand.
ghost use Rattle.std.specs.Prelude.{◌≡◌, ◌<◌, length, IfOk, IfErr};
ghost use Rattle.cd_model.specs.Formula.{IsGraph};
ghost use Rattle.cd_meaning.specs.Sets.{elements_of};
ghost use Rattle.cd_empty.specs.Growth.{Grows};
ghost use Rattle.cd_empty.specs.Seen.{graph_of, table_of};
ghost use Rattle.cd_operators.specs.Misfits.{IsMisfitOfWord};
ghost use Rattle.cd_operators.specs.ResultTypes.{IsLeastResultOfWord};
ghost use Rattle.cd_operators.specs.Tools.{AreTools};

use crate::misfit::{Side, Stop};
use crate::need::need;
use crate::tools::Tools;
use cd_empty::World;
use cd_forms::{items, list_of};
use cd_graph::built_in::{BOOL, DATA, EMPTY, INT, STRING};
use cd_program::operator::BuiltIn;
use cd_sets::node_id::NodeId;
use cd_typing::rule::Rule;
use std::alloc::Global;

/// A node of what a word gives for an operand of this type.
///
/// # Errors
///
/// The operand is refused, with the rule and an element that shows it; or want of memory.
pub fn call(
    alloc: Global,
    world: &mut World,
    tools: &Tools,
    word: BuiltIn,
    operand: NodeId,
) -> Result<NodeId, Stop>
    requires tools { AreTools (graph_of world.old) tools.now }
    requires operand { operand.0 < length (graph_of world.old) }
    ensures least { IfOk result (λ id. IsLeastResultOfWord word
        (elements_of (graph_of world.old) operand) (elements_of (graph_of world.new) id)) }
    ensures node { IfOk result (λ id. id.0 < length (graph_of world.new)) }
    ensures misfit { IfErr result
        (IsMisfitOfWord (graph_of world.old) (table_of world.new) word operand) }
    ensures sound { IsGraph (graph_of world.new) }
    ensures grows { Grows world.old world.new }
{
    // The contract of this call says that the graph is sound and begins with the built-in nodes.
    world.graph();
    match word {
        BuiltIn::Not => {
            need(world, Side::First, operand, BOOL, Rule::Condition)?;
            Ok(BOOL)
        }
        BuiltIn::Flatten => flatten(alloc, world, tools, operand),
        BuiltIn::IntOf => {
            need(world, Side::First, operand, STRING, Rule::Text)?;
            Ok(INT)
        }
        BuiltIn::StringOf => {
            need(world, Side::First, operand, INT, Rule::Operand)?;
            Ok(STRING)
        }
        BuiltIn::MinOf | BuiltIn::MaxOf => {
            need(world, Side::First, operand, tools.numbers, Rule::Numbers)?;
            Ok(items(alloc, world, operand)?)
        }
        BuiltIn::Raise => {
            need(world, Side::First, operand, DATA, Rule::Exception)?;
            Ok(EMPTY)
        }
    }
}

// The sequences of the items of the sequences in a sequence.
fn flatten(alloc: Global, world: &mut World, tools: &Tools, operand: NodeId) -> Result<NodeId, Stop>
    requires tools { AreTools (graph_of world.old) tools.now }
    requires operand { operand.0 < length (graph_of world.old) }
    ensures least { IfOk result (λ id. IsLeastResultOfWord BuiltIn.Flatten
        (elements_of (graph_of world.old) operand) (elements_of (graph_of world.new) id)) }
    ensures node { IfOk result (λ id. id.0 < length (graph_of world.new)) }
    ensures misfit { IfErr result
        (IsMisfitOfWord (graph_of world.old) (table_of world.new) BuiltIn.Flatten operand) }
    ensures sound { IsGraph (graph_of world.new) }
    ensures grows { Grows world.old world.new }
{
    // The contract of this call says that the graph is sound and begins with the built-in nodes.
    world.graph();
    need(world, Side::First, operand, tools.lists, Rule::Sequence)?;
    let lists = items(alloc, world, operand)?;
    let inner = items(alloc, world, lists)?;
    Ok(list_of(alloc, world, inner)?)
}
