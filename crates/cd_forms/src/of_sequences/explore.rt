//! The states that sequences go through.
ghost use Rattle.std.specs.Prelude.{◌≡◌, ◌<◌, map, length, IfOk};
ghost use Rattle.cd_rules.specs.Family.{AsksNodes};
ghost use Rattle.cd_empty.specs.Growth.{Grows};
ghost use Rattle.cd_empty.specs.Seen.{graph_of};
ghost use Rattle.cd_forms.specs.Inner.Numbered.{AreNumbered};
ghost use Rattle.cd_forms.specs.Inner.States.{plain_state, IsStateAfter, AreExplored};

use crate::of_sequences::asking::{asking, has_nil};
use crate::of_sequences::numbered::Numbered;
use crate::of_sequences::state::State;
use crate::of_sequences::step::Step;
use cd_empty::World;
use cd_products::pair_products;
use cd_sets::node_id::NodeId;
use cd_sets::question::Question;
use std::alloc::{AllocError, Global};

/// The questions that sequences and their rests are asked, and a state for each.
#[derive(Drop)]
pub(crate) struct Explored {
    pub(crate) questions: Numbered,
    pub(crate) states: Vec<State>,
}

/// Explores from what is in a node on.
pub(crate) fn explore(
    alloc: Global,
    world: &mut World,
    start: NodeId,
) -> Result<Explored, AllocError>
    requires { start.0 < length (graph_of world.old) }
    ensures explored { IfOk result (λ explored. AreExplored (graph_of world.old) start
        explored.questions (map plain_state explored.states.items)) }
    ensures graph { graph_of world.new ≡ graph_of world.old }
    ensures grows { Grows world.old world.new }
{
    let mut questions = Numbered::new(alloc);
    questions.number(asking(alloc, start)?)?;
    let mut states = Vec::new(alloc);
    while let Some(question) = questions.get(states.len()) {
        let question = question.copy()?;
        states.push(state_of(alloc, world, &question, &mut questions)?)?;
    }
    Ok(Explored { questions, states })
}

// The state of a question. The questions that rests are asked are numbered.
fn state_of(
    alloc: Global,
    world: &mut World,
    question: &Question,
    questions: &mut Numbered,
) -> Result<State, AllocError>
    requires { AsksNodes (length (graph_of world.old)) question.now }
    ensures state { IfOk result (λ state. IsStateAfter (graph_of world.old) questions.old
        questions.new question.now (plain_state state)) }
    ensures graph { graph_of world.new ≡ graph_of world.old }
    ensures grows { Grows world.old world.new }
{
    let ends = has_nil(world, question)?;
    let products = pair_products(alloc, world, question)?;
    let steps = number_all(alloc, questions, products)?;
    Ok(State { ends, steps })
}

// The steps of products.
fn number_all(
    alloc: Global,
    questions: &mut Numbered,
    products: Vec<(Question, Question)>,
) -> Result<Vec<Step>, AllocError>
    ensures { IfOk result
        (λ steps. AreNumbered questions.old questions.new steps.items products.items) }
{
    let mut steps = Vec::new(alloc);
    for (item, rest) in products {
        let rest = questions.number(rest)?;
        steps.push(Step { item, rest })?;
    }
    Ok(steps)
}
