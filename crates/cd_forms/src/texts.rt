//! Nodes of texts.
ghost use Rattle.std.specs.Prelude.{◌≡◌, ◌<◌, map, length, IfOk, OnErr};
ghost use Rattle.cd_model.specs.Formula.{IsGraph};
ghost use Rattle.cd_meaning.specs.Sets.{◌⊆◌, elements_of};
ghost use Rattle.cd_graph.specs.PlainFormula.{plain};
ghost use Rattle.cd_empty.specs.Growth.{Grows};
ghost use Rattle.cd_empty.specs.Seen.{graph_of};
ghost use Rattle.cd_forms.specs.Inner.Chains.{IsTextBefore};
ghost use Rattle.cd_forms.specs.Inner.Letters.{IsTextBatch};

use crate::letters::Letters;
use crate::nodes::after;
use crate::pairs::{add_pairs, begin};
use cd_builders::characters;
use cd_empty::World;
use cd_graph::{Formula, Formulas};
use cd_sets::node_id::NodeId;
use cd_syntax::name::Name;
use std::alloc::{AllocError, Global};

/// A node that holds the characters of a text, and then an element of the end, as pairs in a row.
///
/// # Errors
///
/// Want of memory. The graph stays as it was.
pub(crate) fn text_before(
    alloc: Global,
    world: &mut World,
    text: &Name,
    end: NodeId,
) -> Result<NodeId, AllocError>
    requires { end.0 < length (graph_of world.old) }
    ensures has { IfOk result (λ id.
        IsTextBefore text.now (elements_of (graph_of world.old) end)
        ⊆ elements_of (graph_of world.new) id) }
    ensures only { IfOk result (λ id. elements_of (graph_of world.new) id
        ⊆ IsTextBefore text.now (elements_of (graph_of world.old) end)) }
    ensures node { IfOk result (λ id. id.0 < length (graph_of world.new)) }
    ensures unchanged { OnErr result (graph_of world.new ≡ graph_of world.old) }
    ensures sound { IsGraph (graph_of world.new) }
    ensures grows { Grows world.old world.new }
{
    let first = world.graph().len();
    let (formulas, id) = text_batch(alloc, first, text, end)?;
    world.extend(Formulas::of(formulas)?)?;
    Ok(id)
}

// The formulas for a text, which are to stand from a number on, and the node where it begins.
fn text_batch(
    alloc: Global,
    first: usize,
    text: &Name,
    end: NodeId,
) -> Result<(Vec<Formula>, NodeId), AllocError>
    ensures { IfOk result
        (λ made. IsTextBatch first text.now end (map plain made.0.items) made.1) }
{
    let characters = characters(alloc, text)?;
    let mut letters = Letters::new(alloc);
    let heads = letters.nodes_of(alloc, first, characters.as_slice())?;
    let mut formulas = letters.formulas(alloc)?;
    let number = after(first, letters.len())?;
    add_pairs(&mut formulas, number, heads.as_slice(), end)?;
    let id = begin(number, heads.as_slice(), end);
    Ok((formulas, id))
}
