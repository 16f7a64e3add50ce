//! Nodes of the arrows of an interface.
ghost use Rattle.std.specs.Prelude.{◌≡◌, ◌+◌, ◌++◌, [], ◌∷◌, length, IfOk};
ghost use Rattle.cd_syntax.specs.PlainTree.{plain};
ghost use Rattle.cd_syntax.specs.WellMadePattern.{IsWellMadePattern};
ghost use Rattle.cd_model.specs.AllOf.{AllOf};
ghost use Rattle.cd_model.specs.Formula.{IsFormula};
ghost use Rattle.cd_graph.specs.Nodes.{nodes};
ghost use Rattle.cd_graph.specs.PlainFormula.{plain_list};
ghost use Rattle.cd_program.specs.PlainExpr.{plain_interface};
ghost use Rattle.cd_resolve.specs.Faults.{Fault, IsFaultOfType, IsFaultOfDeclarations};
ghost use Rattle.cd_resolve.specs.Named.{AreNamed, plain_names, declared_by};
ghost use Rattle.cd_resolve.specs.Wanted.{wanted_tree};
ghost use Rattle.cd_names.specs.Arrows.{AreArrows};
ghost use Rattle.cd_names.specs.ProgramFaults.{arrow_types};
ghost use Rattle.cd_names.specs.Inner.TwoByTwo.{two_by_two};

use cd_graph::{Formulas, Graph};
use cd_program::expr::Interface;
use cd_resolve::{Names, TypesBatch, Want, WantedType, resolve_types};
use cd_sets::node_id::NodeId;
use cd_syntax::type_tree::Tree;
use std::alloc::{AllocError, Global};

/// Formulas to be put after those of a graph, and the nodes of arrows.
#[derive(Drop)]
pub struct ArrowsBatch {
    /// The formulas.
    pub formulas: Formulas,
    /// The nodes of what each arrow takes and of what it gives, in turn.
    pub arrows: Vec<(NodeId, NodeId)>,
}

/// Nodes, for this graph, of the types of an interface, which see declared names.
///
/// Each type is well made as a pattern is, no naming fault stands in it nor in the declarations,
/// and the nodes of their names stand for what they declare. Where the formulas are put after those
/// of the graph, each node stands for the type at its place.
///
/// # Errors
///
/// Want of memory.
pub fn resolve_arrows(
    alloc: Global,
    graph: &Graph,
    names: &Names<'_>,
    interface: &Interface,
) -> Result<ArrowsBatch, AllocError>
    requires well_made { AllOf IsWellMadePattern (arrow_types (plain_interface interface.now)) }
    requires names_sound { (fault : Fault) → IsFaultOfDeclarations (declared_by names.now) fault
        → ⊥ }
    requires named { AreNamed (nodes graph.now) (plain_names names.now) }
    requires sound { AllOf (λ t. (fault : Fault)
        → IsFaultOfType (declared_by names.now) t fault → ⊥)
        (arrow_types (plain_interface interface.now)) }
    ensures formulas { IfOk result (λ batch.
        AllOf (IsFormula (length (nodes graph.now) + length (plain_list batch.formulas)))
        (plain_list batch.formulas)) }
    ensures stand { IfOk result (λ batch. AreArrows (declared_by names.now ∷ [])
        (nodes graph.now ++ plain_list batch.formulas) (plain_interface interface.now)
        batch.arrows.items) }
{
    let mut wanted = Vec::new(alloc);
    for signature in interface.items() {
        wanted.push(in_itself(&signature.takes))?;
        wanted.push(in_itself(&signature.gives))?;
    }
    let TypesBatch { formulas, roots } = resolve_types(alloc, graph, names, wanted.as_slice())?;
    let arrows = pairs(alloc, roots.as_slice())?;
    Ok(ArrowsBatch { formulas, arrows })
}

// A type, and not what is outside it.
fn in_itself(tree: &Tree) -> WantedType<'_>
    ensures { wanted_tree result ≡ plain tree.now }
{
    let what = Want::Itself;
    WantedType { tree, what }
}

// Numbers two by two.
fn pairs(alloc: Global, ids: &[NodeId]) -> Result<Vec<(NodeId, NodeId)>, AllocError>
    ensures { IfOk result (λ pairs. pairs.items ≡ two_by_two ids.now) }
{
    let mut all = Vec::new(alloc);
    let mut left = ids;
    while let [first, second, rest @ ..] = left {
        all.push((*first, *second))?;
        left = rest;
    }
    Ok(all)
}
