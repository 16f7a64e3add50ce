//! Nodes of written types.
ghost use Rattle.std.specs.Prelude.{◌≡◌, ◌+◌, ◌≤◌, ◌++◌, [], ◌∷◌, length, IfOk, OnOk};
ghost use Rattle.std.specs.Prelude.{IfErr};
ghost use Rattle.cd_syntax.specs.PlainTree.{plain, plain_declarations};
ghost use Rattle.cd_syntax.specs.WellMade.{IsWellMade, AreWellMadeDeclarations};
ghost use Rattle.cd_model.specs.AllOf.{AllOf};
ghost use Rattle.cd_model.specs.BuiltIns.{built_ins};
ghost use Rattle.cd_model.specs.Formula.{Graph as PlainGraph, IsFormula};
ghost use Rattle.cd_model.specs.StandsFor.{StandsFor};
ghost use Rattle.cd_graph.specs.Nodes.{nodes};
ghost use Rattle.cd_graph.specs.PlainFormula.{plain_list};
ghost use Rattle.cd_resolve.specs.Faults.{Fault, IsFaultOfType, IsFaultOfDeclarations};
ghost use Rattle.cd_resolve.specs.Errors.{IsReportedError};
ghost use Rattle.cd_resolve.specs.Named.{AreNamed, plain_names, declared_by};

use crate::error::NameError;
use crate::names::Names;
use crate::read::{read_declarations, read_type};
use crate::solve::solve;
use cd_graph::{Formulas, Graph};
use cd_sets::node_id::NodeId;
use cd_syntax::type_tree::{Declarations, Tree};
use std::alloc::Global;

/// Formulas to be put after those of a graph, and the nodes of the declared names.
#[derive(Drop)]
pub struct Batch<'t> {
    /// The formulas.
    pub formulas: Formulas,
    /// The names.
    pub names: Names<'t>,
}

/// Formulas to be put after those of a graph, and the node of a type.
#[derive(Drop)]
pub struct TypeBatch {
    /// The formulas.
    pub formulas: Formulas,
    /// The node of the type.
    pub root: NodeId,
}

/// Nodes for type declarations, which see one another and no others.
///
/// The declarations are well made. Where the formulas are put after those of a graph of `first`
/// nodes that begins with the built-in ones, the node of each name stands for its type.
///
/// # Errors
///
/// Of all naming faults of the declarations the one with the least place, at one place in the order
/// of `NameFault`; or want of memory.
pub fn resolve<'t>(
    alloc: Global,
    first: usize,
    declared: &'t Declarations,
) -> Result<Batch<'t>, NameError>
    requires well_made { AreWellMadeDeclarations (plain_declarations declared.now) }
    requires built_ins { 14 ≤ first }
    ensures sound { OnOk result ((fault : Fault)
        → IsFaultOfDeclarations (plain_declarations declared.now) fault → ⊥) }
    ensures fault { IfErr result
        (λ error. IsReportedError (IsFaultOfDeclarations (plain_declarations declared.now)) error) }
    ensures formulas { IfOk result
        (λ batch. AllOf (IsFormula (first + length (plain_list batch.formulas)))
        (plain_list batch.formulas)) }
    ensures names { IfOk result (λ batch. plain_names batch.names
        ≡ record { declarations = plain_declarations declared.now; first = first }) }
    ensures stand { IfOk result
        (λ batch. (graph : PlainGraph) → length graph ≡ first
        → ((more : PlainGraph) × (graph ≡ built_ins ++ more))
        → AreNamed (graph ++ plain_list batch.formulas) (plain_names batch.names)) }
{
    let (equations, names) = read_declarations(alloc, first, declared)?;
    let solution = solve(alloc, &Graph::new(alloc)?, first, equations)?;
    Ok(Batch {
        formulas: solution.formulas,
        names,
    })
}

/// A node, for this graph, of a type that sees declared names.
///
/// The type is well made, no naming fault stands in the declarations, and the nodes of their names
/// stand for what they declare. Where the formulas are put after those of the graph, the root
/// stands for the type.
///
/// # Errors
///
/// Of all naming faults of the type the one with the least place, at one place in the order of
/// `NameFault`; or want of memory. Faults of the declarations are not reported here.
pub fn resolve_type(
    alloc: Global,
    graph: &Graph,
    names: &Names<'_>,
    tree: &Tree,
) -> Result<TypeBatch, NameError>
    requires well_made { IsWellMade (plain tree.now) }
    requires names_sound { (fault : Fault) → IsFaultOfDeclarations (declared_by names.now) fault
        → ⊥ }
    requires named { AreNamed (nodes graph.now) (plain_names names.now) }
    ensures sound { OnOk result ((fault : Fault)
        → IsFaultOfType (declared_by names.now) (plain tree.now) fault → ⊥) }
    ensures fault { IfErr result
        (λ error. IsReportedError (IsFaultOfType (declared_by names.now) (plain tree.now)) error) }
    ensures formulas { IfOk result (λ batch.
        AllOf (IsFormula (length (nodes graph.now) + length (plain_list batch.formulas)))
        (plain_list batch.formulas)) }
    ensures stands { IfOk result (λ batch.
        StandsFor (nodes graph.now ++ plain_list batch.formulas) batch.root
        (record { scope = declared_by names.now ∷ []; tree = plain tree.now })) }
{
    let first = graph.len();
    resolve_type_from(alloc, graph, first, names, tree)
}

/// The same for each graph of `first` nodes that begins with this one.
///
/// Where the formulas are put after those of such a graph, the root stands for the type: so what
/// comes between need not be there yet. This graph is asked for the formulas of its own nodes
/// alone, which connectives over names copy.
///
/// # Errors
///
/// As of [`resolve_type`].
pub fn resolve_type_from(
    alloc: Global,
    graph: &Graph,
    first: usize,
    names: &Names<'_>,
    tree: &Tree,
) -> Result<TypeBatch, NameError>
    requires well_made { IsWellMade (plain tree.now) }
    requires names_sound { (fault : Fault) → IsFaultOfDeclarations (declared_by names.now) fault
        → ⊥ }
    requires named { AreNamed (nodes graph.now) (plain_names names.now) }
    requires first { length (nodes graph.now) ≤ first }
    ensures sound { OnOk result ((fault : Fault)
        → IsFaultOfType (declared_by names.now) (plain tree.now) fault → ⊥) }
    ensures fault { IfErr result
        (λ error. IsReportedError (IsFaultOfType (declared_by names.now) (plain tree.now)) error) }
    ensures formulas { IfOk result (λ batch.
        AllOf (IsFormula (first + length (plain_list batch.formulas)))
        (plain_list batch.formulas)) }
    ensures stands { IfOk result (λ batch.
        (more : PlainGraph) → length (nodes graph.now ++ more) ≡ first
        → StandsFor (nodes graph.now ++ more ++ plain_list batch.formulas) batch.root
        (record { scope = declared_by names.now ∷ []; tree = plain tree.now })) }
{
    graph.knows();
    let (equations, root) = read_type(alloc, first, names, tree)?;
    let solution = solve(alloc, graph, first, equations)?;
    let root = solution.classes.class(root);
    Ok(TypeBatch {
        formulas: solution.formulas,
        root,
    })
}
