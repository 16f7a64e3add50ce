//! Equations in which equal nodes are named by one number.
ghost use Rattle.std.specs.Prelude.{IfOk};
ghost use Rattle.cd_shared.specs.Equation.{plain_equations};
ghost use Rattle.cd_shared.specs.Shared.{class_in, AreShared};

use crate::classes::Classes;
use crate::equation::Equation;
use crate::renamed::rename;
use crate::search::{Found, find};
use crate::tested::are_classified;
use std::alloc::{AllocError, Global};

/// Equations in whose formulas equal nodes are named by one number, and the classes of the nodes.
#[derive(Drop)]
pub struct Shared {
    /// The equations, of the same nodes in the same order.
    pub equations: Vec<Option<Equation>>,
    /// The classes.
    pub classes: Classes,
}

/// The equations of nodes from the number `first` on, with one number for all nodes of a class.
///
/// Nodes of a class have the same formula or connective, but for the classes of the nodes in it, and
/// a name is in the class of what it stands for. No node is removed. In a graph that solves these
/// equations a node holds what it holds in a graph that solves the given ones, and so does its
/// class: such graphs are images (`IsImage`), of which `shared_nodes_hold_the_same` speaks.
///
/// Numbers are replaced only in formulas. Names and connectives stand over the nodes that they stood
/// over: their formulas are made later, as copies of formulas in which numbers were replaced. So
/// the work does not grow with the number of copies.
///
/// Not all nodes that hold the same are in one class: a formula and a connective never are, nor are
/// two nodes that lead back to themselves through other nodes. Where the classes that were found do
/// not pass the test, which should not be, each node is a class of its own.
///
/// # Errors
///
/// Want of memory.
pub fn share(
    alloc: Global,
    first: usize,
    mut equations: Vec<Option<Equation>>,
) -> Result<Shared, AllocError>
    ensures { IfOk result (λ shared. AreShared (class_in shared.classes) first
        (plain_equations equations.items) (plain_equations shared.equations.items)) }
{
    let Found { ids, leaders } = find(alloc, first, equations.as_slice())?;
    let classes = Classes { first, ids };
    if !are_classified(equations.as_slice(), &classes, leaders.as_slice()) {
        return Ok(Shared {
            equations,
            classes: Classes::none(alloc),
        });
    }
    rename(alloc, &classes, &mut equations)?;
    Ok(Shared { equations, classes })
}
