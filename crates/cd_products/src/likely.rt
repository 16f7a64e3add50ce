//! What is worth a question. No clause speaks of it: where it is wrong, a question is asked in vain,
//! or a node is not found to hold the same.
ghost use Rattle.std.specs.Prelude.{◌<◌, ◌≤◌, length};
ghost use Rattle.cd_graph.specs.Nodes.{nodes};

use crate::basic::one_node_is_basic;
use crate::covered::{are_sets_within, step};
use cd_graph::{Formula, Graph};
use cd_sets::node_id::NodeId;

// So deep parts are looked at, and so many steps at most are taken for two nodes. Where they are used
// up, a question is worth it.
const MOST_DEPTH: usize = 5;

const MOST_STEPS: usize = 600;

/// Whether two nodes are likely to hold the same.
pub(crate) fn are_likely_same(graph: &Graph, one: NodeId, other: NodeId) -> bool
    requires one { one.0 < length (nodes graph.now) }
    requires other { other.0 < length (nodes graph.now) }
{
    let is_basic = one_node_is_basic(graph, &[one]);
    if is_basic || one_node_is_basic(graph, &[other]) {
        return is_basic && one_node_is_basic(graph, &[other]);
    }
    is_likely_within(graph, one, other) && is_likely_within(graph, other, one)
}

/// Whether what is in the one node is likely to be in the other, by their forms and those of their
/// parts.
pub fn is_likely_within(graph: &Graph, one: NodeId, other: NodeId) -> bool {
    let mut steps = MOST_STEPS;
    is_node_likely(graph, one, other, MOST_DEPTH, &mut steps)
}

// The same of two nodes that may be parts.
#[cycle(is_likely)]
fn is_node_likely(
    graph: &Graph,
    one: NodeId,
    other: NodeId,
    depth: usize,
    steps: &mut usize,
) -> bool
    ensures { steps.new ≤ steps.old }
{
    let count = graph.len();
    if one.0 == other.0 || one.0 >= count || other.0 >= count || depth == 0 || !step(steps) {
        return true;
    }
    let (one, other) = (graph.formula(one), graph.formula(other));
    is_likely(graph, one, other, depth - 1, steps)
}

// The same of two formulas.
#[cycle(is_likely)]
fn is_likely(graph: &Graph, one: &Formula, other: &Formula, depth: usize, steps: &mut usize) -> bool
    ensures { steps.new ≤ steps.old }
{
    if !step(steps) {
        return true;
    }
    match one {
        Formula::None | Formula::Not(_) => true,
        Formula::And(formulas) => one_is_likely(graph, formulas.items(), other, depth, steps),
        Formula::Or(formulas) => all_are_likely(graph, formulas.items(), other, depth, steps),
        _ => is_likely_in(graph, one, other, depth, steps),
    }
}

// The same of one of some formulas.
#[cycle(is_likely)]
fn one_is_likely(
    graph: &Graph,
    formulas: &[Formula],
    other: &Formula,
    depth: usize,
    steps: &mut usize,
) -> bool
    ensures { steps.new ≤ steps.old }
{
    match formulas {
        [] => false,
        [first, rest @ ..] => {
            !step(steps)
                || is_likely(graph, first, other, depth, steps)
                || one_is_likely(graph, rest, other, depth, steps)
        }
    }
}

// The same of all of some formulas.
#[cycle(is_likely)]
fn all_are_likely(
    graph: &Graph,
    formulas: &[Formula],
    other: &Formula,
    depth: usize,
    steps: &mut usize,
) -> bool
    ensures { steps.new ≤ steps.old }
{
    match formulas {
        [] => true,
        [first, rest @ ..] => {
            !step(steps)
                || is_likely(graph, first, other, depth, steps)
                    && all_are_likely(graph, rest, other, depth, steps)
        }
    }
}

// The same of a formula that is no connective.
#[cycle(is_likely)]
fn is_likely_in(
    graph: &Graph,
    one: &Formula,
    other: &Formula,
    depth: usize,
    steps: &mut usize,
) -> bool
    ensures { steps.new ≤ steps.old }
{
    if !step(steps) {
        return true;
    }
    match other {
        Formula::All | Formula::Not(_) => true,
        Formula::And(formulas) => is_likely_in_all(graph, one, formulas.items(), depth, steps),
        Formula::Or(formulas) => is_likely_in_one(graph, one, formulas.items(), depth, steps),
        _ => are_parts_likely(graph, one, other, depth, steps),
    }
}

// The same within each of some formulas.
#[cycle(is_likely)]
fn is_likely_in_all(
    graph: &Graph,
    one: &Formula,
    formulas: &[Formula],
    depth: usize,
    steps: &mut usize,
) -> bool
    ensures { steps.new ≤ steps.old }
{
    match formulas {
        [] => true,
        [first, rest @ ..] => {
            !step(steps)
                || is_likely_in(graph, one, first, depth, steps)
                    && is_likely_in_all(graph, one, rest, depth, steps)
        }
    }
}

// The same within one of some formulas.
#[cycle(is_likely)]
fn is_likely_in_one(
    graph: &Graph,
    one: &Formula,
    formulas: &[Formula],
    depth: usize,
    steps: &mut usize,
) -> bool
    ensures { steps.new ≤ steps.old }
{
    match formulas {
        [] => false,
        [first, rest @ ..] => {
            !step(steps)
                || is_likely_in(graph, one, first, depth, steps)
                || is_likely_in_one(graph, one, rest, depth, steps)
        }
    }
}

// The same of two formulas that are no connectives: of pairs and of XML elements by their parts.
#[cycle(is_likely)]
fn are_parts_likely(
    graph: &Graph,
    one: &Formula,
    other: &Formula,
    depth: usize,
    steps: &mut usize,
) -> bool
    ensures { steps.new ≤ steps.old }
{
    if !step(steps) {
        return true;
    }
    match (one, other) {
        (Formula::Pair(first, second), Formula::Pair(third, fourth)) => {
            is_node_likely(graph, *first, *third, depth, steps)
                && is_node_likely(graph, *second, *fourth, depth, steps)
        }
        (Formula::Xml(tag, attributes, content), Formula::Xml(tags, all, contents)) => {
            is_node_likely(graph, *tag, *tags, depth, steps)
                && is_node_likely(graph, *attributes, *all, depth, steps)
                && is_node_likely(graph, *content, *contents, depth, steps)
        }
        (Formula::Record(_), Formula::Record(_)) | (Formula::Arrow(_, _), Formula::Arrow(_, _)) => {
            true
        }
        _ => are_sets_within(one, other),
    }
}
