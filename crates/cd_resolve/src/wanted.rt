//! Nodes of several types at once.
ghost use Rattle.std.specs.Prelude.{◌+◌, ◌++◌, [], ◌∷◌, length, map, IfOk};
ghost use Rattle.cd_syntax.specs.WellMadePattern.{IsWellMadePattern};
ghost use Rattle.cd_model.specs.AllOf.{AllOf};
ghost use Rattle.cd_model.specs.Formula.{IsFormula};
ghost use Rattle.cd_model.specs.StandsFor.{StandsFor};
ghost use Rattle.cd_graph.specs.Nodes.{nodes};
ghost use Rattle.cd_graph.specs.PlainFormula.{plain_list};
ghost use Rattle.cd_resolve.specs.Faults.{Fault, IsFaultOfType, IsFaultOfDeclarations};
ghost use Rattle.cd_resolve.specs.Named.{AreNamed, plain_names, declared_by};
ghost use Rattle.cd_resolve.specs.Wanted.{wanted_tree, wanted_type, Pairwise};

use crate::names::Names;
use crate::read::read_types;
use crate::solve::solve;
use cd_graph::{Formulas, Graph};
use cd_sets::node_id::NodeId;
use cd_syntax::type_tree::{FieldTrees, Tree};
use std::alloc::{AllocError, Global};

/// A type that is wanted of a tree.
#[derive(Clone, Copy)]
pub struct WantedType<'t> {
    /// The tree.
    pub tree: &'t Tree,
    /// What is wanted of it.
    pub what: Want<'t>,
}

/// What is wanted of a tree.
#[derive(Clone, Copy)]
pub enum Want<'t> {
    /// Its type.
    Itself,
    /// What is outside its type.
    Outside,
    /// The records that have at other labels than those of these fields nothing, or something of
    /// its type.
    Others(&'t FieldTrees),
}

/// Formulas to be put after those of a graph, and the nodes of types.
#[derive(Drop)]
pub struct TypesBatch {
    /// The formulas.
    pub formulas: Formulas,
    /// The nodes of the types, in turn.
    pub roots: Vec<NodeId>,
}

/// Nodes, for this graph, of types that see declared names.
///
/// Each type is well made as a pattern is, no naming fault stands in it nor in the declarations,
/// and the nodes of their names stand for what they declare. Where the formulas are put after those
/// of the graph, each root stands for the type at its place.
///
/// # Errors
///
/// Want of memory.
pub fn resolve_types(
    alloc: Global,
    graph: &Graph,
    names: &Names<'_>,
    wanted: &[WantedType<'_>],
) -> Result<TypesBatch, AllocError>
    requires well_made { AllOf (λ one. IsWellMadePattern (wanted_tree one)) wanted.now }
    requires names_sound { (fault : Fault) → IsFaultOfDeclarations (declared_by names.now) fault
        → ⊥ }
    requires named { AreNamed (nodes graph.now) (plain_names names.now) }
    requires sound { AllOf (λ one. (fault : Fault)
        → IsFaultOfType (declared_by names.now) (wanted_tree one) fault → ⊥) wanted.now }
    ensures formulas { IfOk result (λ batch.
        AllOf (IsFormula (length (nodes graph.now) + length (plain_list batch.formulas)))
        (plain_list batch.formulas)) }
    ensures stand { IfOk result (λ batch.
        Pairwise (StandsFor (nodes graph.now ++ plain_list batch.formulas)) batch.roots.items
        (map (wanted_type (declared_by names.now ∷ [])) wanted.now)) }
{
    graph.knows();
    let first = graph.len();
    let (equations, roots) = read_types(alloc, first, names, wanted)?;
    let solution = solve(alloc, graph, first, equations)?;
    let roots = solution.classes.classes_of(alloc, roots.as_slice())?;
    Ok(TypesBatch {
        formulas: solution.formulas,
        roots,
    })
}
