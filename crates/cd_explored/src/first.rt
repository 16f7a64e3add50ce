//! The steps of a node that takes what the first of two nodes takes, or else the second.
ghost use Rattle.std.specs.Prelude.{◌≡◌, ◌<◌, [], ◌∷◌, true, false, length, Some, IfOk};
ghost use Rattle.std.specs.List.{slice_get};
ghost use Rattle.cd_matching.specs.Kernel.{First};
ghost use Rattle.cd_matching.specs.PlainKernel.{plain_kernel};
ghost use Rattle.cd_rules.specs.Family.{AsksNodes};
ghost use Rattle.cd_rules.specs.Needs.{question};
ghost use Rattle.cd_empty.specs.Growth.{Grows};
ghost use Rattle.cd_empty.specs.Seen.{graph_of};
ghost use Rattle.cd_filter.specs.Accepting.{IsAcceptedFrom};
ghost use Rattle.cd_explored.specs.Inner.Choices.{IsChoice, IsSwapped, HasNothing};
ghost use Rattle.cd_explored.specs.Inner.NodeSteps.{AreNodeSteps, AreNarrowed};
ghost use Rattle.cd_explored.specs.Inner.PlainSteps.{all_steps};

use crate::base::Base;
use crate::lead::{Lead, lead_to_two};
use crate::swapped::swapped;
use cd_empty::World;
use cd_needs::asking::question;
use cd_products::{within, without};
use cd_sets::node_id::NodeId;
use cd_sets::question::Question;
use cd_verdicts::Verdict;
use std::alloc::{AllocError, Global};

// Nodes of the graph: the first holds what is in the two others.
#[derive(Clone, Copy)]
struct Choice {
    own: NodeId,
    first: NodeId,
    second: NodeId,
}

/// What the first node takes comes to it, and the rest to the second. Where the question wants the
/// node that accepts what both take, it wants theirs in its place, so that questions do not grow.
pub(crate) fn first_steps<'k>(
    base: &Base<'k>,
    world: &mut World,
    number: usize,
    question: &Question,
    first: usize,
    second: usize,
) -> Result<Vec<Lead<'k>>, AllocError>
    requires asks { AsksNodes (length (graph_of world.old)) question.now }
    requires accepted { IsAcceptedFrom (graph_of world.old) (plain_kernel base.now.kernel.now)
        base.now.first }
    requires there { slice_get (plain_kernel base.now.kernel.now).nodes number
        ≡ Some (First first second) }
    requires first { first < length (plain_kernel base.now.kernel.now).nodes }
    requires second { second < length (plain_kernel base.now.kernel.now).nodes }
    ensures steps { IfOk result (λ leads. AreNodeSteps (graph_of world.old)
        (plain_kernel base.now.kernel.now).nodes base.now.first question.now (First first second)
        (all_steps leads.items)) }
    ensures graph { graph_of world.new ≡ graph_of world.old }
    ensures grows { Grows world.old world.new }
{
    let graph = world.graph();
    let choice = Choice {
        own: base.accepting(graph, number),
        first: base.accepting(graph, first),
        second: base.accepting(graph, second),
    };
    let wanted = swapped(base.alloc, choice.own, choice.first, question)?;
    let taken = within(choice.first, &wanted)?;
    let others = others(base.alloc, world, choice, question, &taken)?;
    lead_to_two(base.alloc, first, taken, second, others)
}

// What of a question is outside the first node, by what is in it. Where the question wants the
// union of both, the second node is wanted in its place.
fn others(
    alloc: Global,
    world: &mut World,
    choice: Choice,
    question: &Question,
    taken: &Question,
) -> Result<Question, AllocError>
    requires asks { AsksNodes (length (graph_of world.old)) question.now }
    requires choice { IsChoice (graph_of world.old) choice.own choice.first choice.second }
    requires taken { AreNarrowed (graph_of world.old) true choice.first question.now taken.now }
    ensures others { IfOk result
        (λ others. AreNarrowed (graph_of world.old) false choice.first question.now others) }
    ensures graph { graph_of world.new ≡ graph_of world.old }
    ensures grows { Grows world.old world.new }
{
    let rest = swapped(alloc, choice.own, choice.second, question)?;
    if is_outside(alloc, world, choice, question, taken, &rest)? {
        Ok(rest)
    } else {
        without(choice.first, &rest)
    }
}

// Whether it is found that nothing of the rest of a question is in the first node: the rest wants
// the second node, which has nothing in common with the first, or nothing is taken. The two nodes
// alone come first, since they are the same for many questions.
fn is_outside(
    alloc: Global,
    world: &mut World,
    choice: Choice,
    question: &Question,
    taken: &Question,
    rest: &Question,
) -> Result<bool, AllocError>
    requires asks { AsksNodes (length (graph_of world.old)) question.now }
    requires choice { IsChoice (graph_of world.old) choice.own choice.first choice.second }
    requires taken { AreNarrowed (graph_of world.old) true choice.first question.now taken.now }
    requires rest { IsSwapped choice.own choice.second question.now rest.now }
    ensures outside { IfOk result (λ outside. outside ≡ true
        → AreNarrowed (graph_of world.old) false choice.first question.now rest.now) }
    ensures graph { graph_of world.new ≡ graph_of world.old }
    ensures grows { Grows world.old world.new }
{
    // The contract of this call says that the graph begins with the built-in nodes.
    world.graph();
    if !question.pos.contains(choice.own) {
        return has_nothing(world, taken);
    }
    if are_apart(alloc, world, choice.first, choice.second)? {
        return Ok(true);
    }
    has_nothing(world, taken)
}

// Whether nothing is in both nodes.
fn are_apart(
    alloc: Global,
    world: &mut World,
    one: NodeId,
    other: NodeId,
) -> Result<bool, AllocError>
    requires one { one.0 < length (graph_of world.old) }
    requires other { other.0 < length (graph_of world.old) }
    ensures apart { IfOk result (λ apart. apart ≡ true
        → HasNothing (graph_of world.old) (question (one ∷ other ∷ []) [])) }
    ensures graph { graph_of world.new ≡ graph_of world.old }
    ensures grows { Grows world.old world.new }
{
    let both = question(alloc, &[one, other], &[])?;
    has_nothing(world, &both)
}

// Whether nothing is in a question.
fn has_nothing(world: &mut World, question: &Question) -> Result<bool, AllocError>
    requires { AsksNodes (length (graph_of world.old)) question.now }
    ensures nothing { IfOk result
        (λ answer. answer ≡ true → HasNothing (graph_of world.old) question.now) }
    ensures graph { graph_of world.new ≡ graph_of world.old }
    ensures grows { Grows world.old world.new }
{
    match world.decide(question)? {
        Verdict::Empty => Ok(true),
        Verdict::Inhabited(_) => Ok(false),
    }
}
