//! Whether the classes that were found are right.
ghost use Rattle.std.specs.Prelude.{◌≡◌, ◌<◌, ◌-◌, ◌⊎◌, Some, IsTrue};
ghost use Rattle.std.specs.List.{slice_get};
ghost use Rattle.cd_shared.specs.Equation.{plain_equation, plain_equations};
ghost use Rattle.cd_shared.specs.Inner.Found.{HasSame, HasLeader, FitsClass, IsClass, IsClassified};
ghost use Rattle.cd_shared.specs.Inner.Found.{AreClassified};
ghost use Rattle.cd_shared.specs.Shared.{class_in};

use crate::alike::{Joined, are_alike};
use crate::classes::Classes;
use crate::equation::Equation;
use cd_sets::node_id::NodeId;

/// Whether all nodes are classified.
pub(crate) fn are_classified(
    equations: &[Option<Equation>],
    classes: &Classes,
    leaders: &[usize],
) -> bool
    ensures { IsTrue result → AreClassified classes.now.first classes.now.ids.items
        leaders.now (plain_equations equations.now) }
{
    let count = equations.len();
    if classes.ids.len() != count {
        return false;
    }
    for number in 0..count {
        if !is_classified(equations, classes, leaders, number) {
            return false;
        }
    }
    true
}

fn is_classified(
    equations: &[Option<Equation>],
    classes: &Classes,
    leaders: &[usize],
    number: usize,
) -> bool
    ensures { IsTrue result → IsClassified classes.now.first classes.now.ids.items
        leaders.now (plain_equations equations.now) number }
{
    match classes.ids.get(number) {
        Some(class) => {
            is_class(classes, equations.len(), *class)
                && fits_at(equations, classes, leaders, number, *class)
        }
        None => false,
    }
}

// Whether a class is a node, and a class of its own.
fn is_class(classes: &Classes, count: usize, class: NodeId) -> bool
    ensures own { IsTrue result → class_in classes.now class ≡ class }
    ensures node { IsTrue result → (class.0 < classes.now.first)
        ⊎ (class.0 - classes.now.first < count) }
{
    classes.class(class) == class && (class.0 < classes.first || class.0 - classes.first < count)
}

// Whether the class of the node with this number is right.
fn fits_at(
    equations: &[Option<Equation>],
    classes: &Classes,
    leaders: &[usize],
    number: usize,
    class: NodeId,
) -> bool
    ensures { IsTrue result → FitsClass classes.now.first classes.now.ids.items
        leaders.now (plain_equations equations.now)
        (slice_get (plain_equations equations.now) number) class }
{
    match equations.get(number) {
        Some(Some(Equation::Same(id))) => classes.class(*id) == class,
        Some(Some(equation)) => has_leader(equations, classes, leaders, number, equation, class),
        _ => false,
    }
}

// Whether the leader of a class has this equation, which is that of the node with this number.
fn has_leader(
    equations: &[Option<Equation>],
    classes: &Classes,
    leaders: &[usize],
    number: usize,
    equation: &Equation,
    class: NodeId,
) -> bool
    ensures { IsTrue result
        → slice_get (plain_equations equations.now) number
        ≡ Some (Some (plain_equation equation.now))
        → HasLeader classes.now.first classes.now.ids.items leaders.now
        (plain_equations equations.now) (plain_equation equation.now) class }
{
    if class.0 < classes.first {
        return false;
    }
    match leaders.get(class.0 - classes.first) {
        Some(leader) => {
            *leader == number || has_same(equations, classes, class, *leader, equation)
        }
        None => false,
    }
}

fn has_same(
    equations: &[Option<Equation>],
    classes: &Classes,
    class: NodeId,
    leader: usize,
    equation: &Equation,
) -> bool
    ensures { IsTrue result → HasSame (class_in classes.now) (plain_equations equations.now)
        leader (plain_equation equation.now) }
{
    match equations.get(leader) {
        Some(Some(other)) => {
            let joined = Joined {
                one: class,
                other: class,
            };
            are_alike(classes, joined, equation, other)
        }
        _ => false,
    }
}
