//! Nodes that have nothing in common.
ghost use Rattle.std.specs.Prelude.{◌≡◌, ◌<◌, ◌∷◌, [], length, IfOk, IsTrue};
ghost use Rattle.std.specs.Option.{IfSome};
ghost use Rattle.cd_graph.specs.Nodes.{nodes};
ghost use Rattle.cd_graph.specs.PlainFormula.{plain};
ghost use Rattle.cd_model.specs.Formula.{IsGraph, Atoms};
ghost use Rattle.cd_rules.specs.Needs.{question};
ghost use Rattle.cd_empty.specs.Growth.{Grows};
ghost use Rattle.cd_empty.specs.Seen.{graph_of};
ghost use Rattle.cd_verdicts.specs.Verdicts.{HasNoElement};
ghost use Rattle.cd_products.specs.Inner.Apart.{AreApart, HasTagsIn};

use cd_empty::World;
use cd_graph::{Formula, Graph};
use cd_needs::asking::question;
use cd_sets::atom_set::AtomSet;
use cd_sets::node_id::NodeId;
use cd_verdicts::Verdict;
use std::alloc::{AllocError, Global};

/// Whether nothing is in both nodes.
///
/// # Errors
///
/// Want of memory.
pub fn are_disjoint(
    alloc: Global,
    world: &mut World,
    one: NodeId,
    other: NodeId,
) -> Result<bool, AllocError>
    requires one { one.0 < length (graph_of world.old) }
    requires other { other.0 < length (graph_of world.old) }
    ensures disjoint { IfOk result (λ answer. IsTrue answer
        → HasNoElement (graph_of world.old) (question (one ∷ other ∷ []) [])) }
    ensures graph { graph_of world.new ≡ graph_of world.old }
    ensures sound { IsGraph (graph_of world.new) }
    ensures grows { Grows world.old world.new }
{
    // The contract of this call says that the graph is sound.
    if are_seen_apart(world.graph(), one, other)? {
        return Ok(true);
    }
    let both = question(alloc, &[one, other], &[])?;
    match world.decide(&both)? {
        Verdict::Empty => Ok(true),
        Verdict::Inhabited(_) => Ok(false),
    }
}

/// Whether two nodes are seen to have nothing in common: they hold atoms of disjoint sets, or XML
/// elements with tags of such. So most of many elements that are told apart by their tags are no
/// questions.
pub(crate) fn are_seen_apart(graph: &Graph, one: NodeId, other: NodeId) -> Result<bool, AllocError>
    requires one { one.0 < length (nodes graph.now) }
    requires other { other.0 < length (nodes graph.now) }
    ensures { IfOk result (λ answer. IsTrue answer → AreApart (nodes graph.now) one other) }
{
    match (tags_of(graph, one), tags_of(graph, other)) {
        (Some(tags), Some(others)) => have_disjoint_sets(graph, tags, others),
        _ => have_disjoint_sets(graph, one, other),
    }
}

// Whether two nodes hold atoms alone, of disjoint sets.
fn have_disjoint_sets(graph: &Graph, one: NodeId, other: NodeId) -> Result<bool, AllocError>
    requires one { one.0 < length (nodes graph.now) }
    requires other { other.0 < length (nodes graph.now) }
    ensures { IfOk result (λ answer. IsTrue answer → AreApart (nodes graph.now) one other) }
{
    match (atoms_of(graph.formula(one)), atoms_of(graph.formula(other))) {
        (Some(atoms), Some(others)) => Ok(atoms.intersect(others)?.is_empty()),
        _ => Ok(false),
    }
}

// The node of the tags, where a node holds XML elements alone.
fn tags_of(graph: &Graph, id: NodeId) -> Option<NodeId>
    requires { id.0 < length (nodes graph.now) }
    ensures { IfSome result (λ tags. HasTagsIn (nodes graph.now) id tags) }
{
    match graph.formula(id) {
        Formula::Xml(tags, _, _) => Some(*tags),
        _ => None,
    }
}

// The set of a formula of atoms.
fn atoms_of(formula: &Formula) -> Option<&AtomSet>
    ensures { IfSome result (λ atoms. plain formula.now ≡ Atoms atoms.now) }
{
    match formula {
        Formula::Atoms(atoms) => Some(atoms),
        _ => None,
    }
}
