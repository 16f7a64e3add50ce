//! Nodes that were there before, in the place of made ones.
ghost use Rattle.std.specs.Prelude.{◌≡◌, ◌<◌, ℕ, length};
ghost use Rattle.cd_model.specs.AllOf.{AllOf};
ghost use Rattle.cd_rules.specs.Family.{AsksNodes};
ghost use Rattle.cd_products.specs.Keeping.{HoldSame};
ghost use Rattle.cd_empty.specs.Growth.{Grows};
ghost use Rattle.cd_empty.specs.Seen.{graph_of};
ghost use Rattle.cd_captured.specs.Inner.Known.{StandFor};
ghost use Rattle.cd_explored.specs.Inner.PlainSteps.{plain_places};

use cd_empty::World;
use cd_explored::explore::Explored;
use cd_explored::givers::gives;
use cd_explored::step::Step;
use cd_products::known_node;
use cd_sets::node_id::NodeId;
use cd_syntax::name::Name;

/// Puts in the place of each variable's node one that was there before, where one is found that
/// holds the same. So what is captured does not make the graph grow each time.
pub(crate) fn use_known(
    world: &mut World,
    explored: &Explored<'_>,
    captured: &mut Vec<(Name, NodeId)>,
)
    requires asks { AllOf (λ place. AsksNodes (length (graph_of world.old)) place.question)
        (plain_places explored.now.places) }
    requires nodes { AllOf (λ one. one.1.0 < length (graph_of world.old)) captured.old.items }
    ensures stand { StandFor (graph_of world.old) captured.old.items captured.new.items }
    ensures graph { graph_of world.new ≡ graph_of world.old }
    ensures grows { Grows world.old world.new }
{
    let mut variable = 0;
    while let Some(one) = captured.get_mut(variable) {
        use_known_node(world, likely(explored, variable), one);
        variable += 1;
    }
}

// Puts one of these nodes in the place of a variable's, where one is found that holds the same.
fn use_known_node(world: &mut World, likely: &[NodeId], one: &mut (Name, NodeId))
    requires likely { AllOf (λ id. id.0 < length (graph_of world.old)) likely.now }
    requires node { one.old.1.0 < length (graph_of world.old) }
    ensures name { one.new.0 ≡ one.old.0 }
    ensures same { HoldSame (graph_of world.old) one.old.1 one.new.1 }
    ensures node { one.new.1.0 < length (graph_of world.old) }
    ensures graph { graph_of world.new ≡ graph_of world.old }
    ensures grows { Grows world.old world.new }
{
    let id = one.1;
    one.1 = known_node(world, id, likely);
}

// Nodes that a variable's is likely to be: those that are asked at the first place that gives the
// variable something.
fn likely<'e>(explored: &'e Explored<'_>, variable: usize) -> &'e [NodeId]
    ensures { (count : ℕ) → AllOf (λ place. AsksNodes count place.question)
        (plain_places explored.now.places) → AllOf (λ id. id.0 < count) result.now }
{
    for (number, row) in explored.steps.iter().enumerate() {
        if gives_one(row.as_slice(), variable) {
            return asked_at(explored, number);
        }
    }
    &[]
}

// The nodes that are asked at a place.
fn asked_at<'e>(explored: &'e Explored<'_>, number: usize) -> &'e [NodeId]
    ensures { (count : ℕ) → AllOf (λ place. AsksNodes count place.question)
        (plain_places explored.now.places) → AllOf (λ id. id.0 < count) result.now }
{
    match explored.places.get(number) {
        Some(place) => place.question.pos.ids(),
        None => &[],
    }
}

// Whether one of these steps gives a variable something.
fn gives_one(row: &[Step<'_>], variable: usize) -> bool {
    row.iter().any(|step| gives(step, variable))
}
