//! Questions that are seen to have no element, before any is decided.
ghost use Rattle.std.specs.Prelude.{◌<◌, false, length, IfOk, IsTrue};
ghost use Rattle.cd_graph.specs.Nodes.{nodes};
ghost use Rattle.cd_model.specs.AllOf.{AllOf};
ghost use Rattle.cd_rules.specs.Family.{AsksNodes};
ghost use Rattle.cd_products.specs.Inner.Apart.{HasNone, ShareNothing, OneIsApart};
ghost use Rattle.cd_products.specs.Inner.Tests.{IsTested};

use crate::disjoint::are_seen_apart;
use cd_graph::Graph;
use cd_sets::node_id::NodeId;
use cd_sets::question::Question;
use cd_verdicts::look::contradicts_itself;
use std::alloc::AllocError;

// So many of the nodes that a question wants are each compared with all later ones.
const COMPARED: usize = 8;

/// Whether one of these questions is seen to have no element, so that none of the others has to be
/// decided.
pub(crate) fn one_is_seen_empty(graph: &Graph, questions: &[Question]) -> Result<bool, AllocError>
    requires { AllOf (AsksNodes (length (nodes graph.now))) questions.now }
    ensures { IfOk result
        (λ answer. IsTrue answer → IsTested (nodes graph.now) questions.now false) }
{
    match questions {
        [] => Ok(false),
        [first, rest @ ..] => {
            if is_seen_empty(graph, first)? {
                return Ok(true);
            }
            one_is_seen_empty(graph, rest)
        }
    }
}

// Whether a question wants a node that it refuses, or two that are seen to have nothing in common.
fn is_seen_empty(graph: &Graph, question: &Question) -> Result<bool, AllocError>
    requires { AsksNodes (length (nodes graph.now)) question.now }
    ensures { IfOk result (λ answer. IsTrue answer → HasNone (nodes graph.now) question.now) }
{
    if contradicts_itself(question) {
        return Ok(true);
    }
    share_nothing(graph, question.pos.ids(), COMPARED)
}

// Whether two of some nodes are seen to have nothing in common, of which the first is one of the
// first ones, at most so many.
fn share_nothing(graph: &Graph, ids: &[NodeId], most: usize) -> Result<bool, AllocError>
    requires { AllOf (λ id. id.0 < length (nodes graph.now)) ids.now }
    ensures { IfOk result (λ answer. IsTrue answer → ShareNothing (nodes graph.now) ids.now) }
{
    match ids {
        [first, rest @ ..] if most > 0 => {
            if one_is_apart(graph, *first, rest)? {
                return Ok(true);
            }
            share_nothing(graph, rest, most - 1)
        }
        _ => Ok(false),
    }
}

// Whether a node is seen to have nothing in common with one of others.
fn one_is_apart(graph: &Graph, one: NodeId, others: &[NodeId]) -> Result<bool, AllocError>
    requires one { one.0 < length (nodes graph.now) }
    requires others { AllOf (λ id. id.0 < length (nodes graph.now)) others.now }
    ensures { IfOk result
        (λ answer. IsTrue answer → OneIsApart (nodes graph.now) one others.now) }
{
    for other in others {
        if are_seen_apart(graph, one, *other)? {
            return Ok(true);
        }
    }
    Ok(false)
}
