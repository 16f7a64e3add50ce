//! Patterns over the nodes of a graph.
ghost use Rattle.std.specs.Prelude.{◌<◌, ◌+◌, ◌++◌, [], ◌∷◌, length, IfOk};
ghost use Rattle.cd_syntax.specs.PlainTree.{plain as plain_tree};
ghost use Rattle.cd_syntax.specs.WellMadePattern.{IsWellMadePattern};
ghost use Rattle.cd_model.specs.AllOf.{AllOf};
ghost use Rattle.cd_model.specs.Formula.{IsFormula};
ghost use Rattle.cd_graph.specs.Nodes.{nodes};
ghost use Rattle.cd_graph.specs.PlainFormula.{plain_list};
ghost use Rattle.cd_resolve.specs.Faults.{Fault, IsFaultOfType, IsFaultOfDeclarations};
ghost use Rattle.cd_resolve.specs.Named.{AreNamed, plain_names, declared_by};
ghost use Rattle.cd_matching.specs.Naming.{IsNamed};
ghost use Rattle.cd_matching.specs.PlainPattern.{plain};
ghost use Rattle.cd_matching.specs.Takes.{IsResolved, PatternStandsFor};
ghost use Rattle.cd_matching.specs.WrittenPattern.{pattern_of};
ghost use Rattle.cd_kernel.specs.Labelled.{HasLabels};
ghost use Rattle.cd_kernel.specs.WellMade.{IsWellMade};

use crate::build::build;
use crate::constants::constants_fit;
use crate::roots::Roots;
use crate::wanted::want;
use cd_graph::{Formulas, Graph};
use cd_matching::pattern::Pat;
use cd_resolve::{Names, TypesBatch, resolve_types};
use cd_syntax::type_tree::Tree;
use std::alloc::{AllocError, Global};

/// Formulas to be put after those of a graph, and a pattern over its nodes then.
#[derive(Drop)]
pub struct PatternBatch {
    /// The formulas.
    pub formulas: Formulas,
    /// The pattern.
    pub pattern: Pat,
}

/// A pattern over nodes, for this graph, of a written one that sees declared names.
///
/// The written one is well made, no fault stands in it, of names or of its variables, nor in the
/// declarations, and the nodes of their names stand for what they declare. Where the formulas are
/// put after those of the graph, the nodes stand for the types of the written one, and the pattern
/// stands for it.
///
/// # Errors
///
/// Want of memory.
pub fn resolve_pattern(
    alloc: Global,
    graph: &Graph,
    names: &Names<'_>,
    pattern: &Tree,
) -> Result<PatternBatch, AllocError>
    requires well_made { IsWellMadePattern (plain_tree pattern.now) }
    requires names_sound { (fault : Fault) → IsFaultOfDeclarations (declared_by names.now) fault
        → ⊥ }
    requires named { AreNamed (nodes graph.now) (plain_names names.now) }
    requires sound { (fault : Fault)
        → IsFaultOfType (declared_by names.now) (plain_tree pattern.now) fault → ⊥ }
    requires variables { IsNamed (pattern_of (declared_by names.now ∷ [])
        (plain_tree pattern.now)) }
    ensures formulas { IfOk result (λ batch.
        AllOf (IsFormula (length (nodes graph.now) + length (plain_list batch.formulas)))
        (plain_list batch.formulas)) }
    ensures resolved { IfOk result (λ batch.
        IsResolved (nodes graph.now ++ plain_list batch.formulas) (plain batch.pattern)
        (declared_by names.now ∷ []) (plain_tree pattern.now)) }
    ensures labels { IfOk result (λ batch. HasLabels (plain batch.pattern)) }
    ensures made { IfOk result (λ batch.
        IsWellMade (λ id. id.0 < length (nodes graph.now ++ plain_list batch.formulas))
        (plain batch.pattern)) }
    ensures stands { IfOk result (λ batch.
        PatternStandsFor (nodes graph.now ++ plain_list batch.formulas) (plain batch.pattern)
        (declared_by names.now ∷ []) (plain_tree pattern.now)) }
{
    let mut wanted = Vec::new(alloc);
    want(pattern, &mut wanted)?;
    let TypesBatch { formulas, roots } = resolve_types(alloc, graph, names, wanted.as_slice())?;
    let mut roots = Roots {
        left: roots.as_slice(),
    };
    let pattern = build(alloc, pattern, &mut roots)?;
    constants_fit(&pattern);
    Ok(PatternBatch { formulas, pattern })
}
