//! What may follow in a state.
ghost use Rattle.std.specs.Prelude.{◌≡◌, ◌++◌, map, IfOk, OnOk};
ghost use Rattle.cd_graph.specs.PlainFormula.{plain};
ghost use Rattle.cd_regex.specs.Automaton.{finish, edge_formula, end_formulas, state_formula};

use cd_graph::{Formula, Formulas};
use cd_sets::atom_set::AtomSet;
use cd_sets::node_id::NodeId;
use std::alloc::{AllocError, Global};
use std::marker::Model;

/// An item of a node, which leads to the state of another node.
#[derive(Clone, Copy, PartialEq, Eq)]
pub(crate) struct Edge {
    pub(crate) item: NodeId,
    pub(crate) to: NodeId,
}

/// What may follow in a state: the items that lead to other states, and whether the state is
/// accepting.
#[derive(Drop)]
pub(crate) struct Follow {
    edges: Vec<Edge>,
    accepting: bool,
}

impl Model for Follow {
    ghost use Rattle.cd_regex.specs.Automaton.{Follow as APlainFollow};

    ghost Value = { APlainFollow };

    ghost view = { λ follow. record { edges = follow.edges.items; accepting = follow.accepting } };
}

impl Follow {
    /// These edges, and whether the state is accepting.
    pub(crate) fn of(edges: Vec<Edge>, accepting: bool) -> Follow
        ensures { result ≡ record { edges = edges.items; accepting = accepting } }
    {
        Follow { edges, accepting }
    }

    /// The end, where no item comes.
    pub(crate) fn finish(alloc: Global) -> Follow
        ensures { result ≡ finish }
    {
        Follow::of(Vec::new(alloc), true)
    }

    /// The edges.
    pub(crate) fn edges(&self) -> &[Edge]
        ensures { result.now ≡ self.now.edges }
    {
        self.edges.as_slice()
    }

    /// Whether the state is accepting.
    pub(crate) fn accepting(&self) -> bool
        ensures { result ≡ self.now.accepting }
    {
        self.accepting
    }

    /// The formula of the state.
    pub(crate) fn formula(&self, alloc: Global) -> Result<Formula, AllocError>
        ensures { IfOk result (λ is. plain is ≡ state_formula self.now) }
    {
        let mut items = Vec::new(alloc);
        for edge in self.edges() {
            items.push(Formula::pair(edge.item, edge.to))?;
        }
        add_end(alloc, self.accepting(), &mut items)?;
        Ok(Formula::or(Formulas::of(items)?))
    }
}

// Adds the end of a sequence, where the state is accepting.
fn add_end(alloc: Global, accepting: bool, items: &mut Vec<Formula>) -> Result<(), AllocError>
    ensures { OnOk result (map plain items.new.items
        ≡ map plain items.old.items ++ end_formulas accepting) }
{
    if accepting {
        items.push(Formula::atoms(AtomSet::one(alloc, "nil")?))?;
    }
    Ok(())
}
