//! The patterns of a program, and what comes to branches.
ghost use Rattle.std.specs.Prelude.{◌≡◌, ◌<◌, map, length, IfOk, IfErr, OnOk};
ghost use Rattle.cd_syntax.specs.PlainTree.{plain};
ghost use Rattle.cd_model.specs.BuiltIns.{EMPTY};
ghost use Rattle.cd_model.specs.Formula.{Graph, IsGraph};
ghost use Rattle.cd_model.specs.Scope.{Scope};
ghost use Rattle.cd_model.specs.Thing.{Thing, IsElement};
ghost use Rattle.cd_program.specs.PlainExpr.{plain_branches};
ghost use Rattle.cd_names.specs.ProgramFaults.{patterns};
ghost use Rattle.cd_meaning.specs.Sets.{elements_of};
ghost use Rattle.cd_typing.specs.Typed.{scope_of as scope_of_program};
ghost use Rattle.cd_empty.specs.Growth.{Grows};
ghost use Rattle.cd_empty.specs.Seen.{graph_of, table_of};
ghost use Rattle.cd_placed.specs.Patterns.{all_patterns};
ghost use Rattle.cd_resolved.specs.Parts.{IsPatternOf};
ghost use Rattle.cd_resolved.specs.Resolved.{IsResolved, Extends};
ghost use Rattle.cd_resolved.specs.Resolved.{program_of as program_in};
ghost use Rattle.cd_check.specs.Inner.Divided.{IsSited, AreSited, IsDivision};
ghost use Rattle.cd_check.specs.Inner.Divided.{sited_pattern, accepted_root, coming_pattern};
ghost use Rattle.cd_check.specs.Inner.Known.{IsOutside};
ghost use Rattle.cd_check.specs.Inner.Ready.{program_of, scope_of};
ghost use Rattle.cd_check.specs.Inner.SoundNames.{ArePatternsOf};

use crate::base::Base;
use crate::fault::CheckError;
use crate::needing::need_at;
use cd_empty::World;
use cd_graph::built_in::EMPTY;
use cd_names::laws::captured_names_are_bound;
use cd_program::expr::Branches;
use cd_resolved::Resolved;
use cd_sets::node_id::NodeId;
use cd_sites::{Site, remaining, site_of};
use cd_syntax::type_tree::Tree;
use cd_typing::rule::Rule;
use std::alloc::{AllocError, Global};

/// A pattern, and its site.
#[derive(Clone, Copy)]
pub(crate) struct Sited<'k, 't> {
    pub(crate) pattern: &'t Tree,
    pub(crate) site: Site<'k>,
}

/// A pattern, and what comes to it.
#[derive(Clone, Copy)]
pub(crate) struct Coming<'b, 'k, 't> {
    pub(crate) sited: &'b Sited<'k, 't>,
    pub(crate) matched: NodeId,
}

/// What is matched, divided among patterns: to each comes what those before it leave.
#[derive(Drop)]
pub(crate) struct Division<'b, 'k, 't> {
    pub(crate) matched: NodeId,
    pub(crate) comings: Vec<Coming<'b, 'k, 't>>,
    /// What they all leave.
    pub(crate) rest: NodeId,
}

/// The sites of all patterns of a program, one by one.
pub(crate) fn sites_of<'k, 't>(
    alloc: Global,
    world: &mut World,
    program: &'k Resolved<'t>,
) -> Result<Vec<Sited<'k, 't>>, AllocError>
    requires resolved { IsResolved program.now }
    requires begins { Extends program.now (graph_of world.old) }
    ensures sited { IfOk result (λ sites. AreSited (graph_of world.new)
        (scope_of_program (program_in program.now)) sites.items) }
    ensures patterns { IfOk result (λ sites.
        map sited_pattern sites.items ≡ all_patterns (program_in program.now)) }
    ensures sound { IsGraph (graph_of world.new) }
    ensures grows { Grows world.old world.new }
{
    // The contracts of these calls say that the variables of a pattern are the names it binds, and
    // that the graph is sound.
    captured_names_are_bound();
    world.graph();
    let mut sites = Vec::new(alloc);
    for one in program.kernels() {
        let site = site_of(alloc, world, &one.kernel)?;
        sites.push(Sited {
            pattern: one.pattern,
            site,
        })?;
    }
    Ok(sites)
}

/// The nodes of what the patterns of sites take, one by one.
pub(crate) fn accepted_of(alloc: Global, sites: &[Sited<'_, '_>]) -> Result<Vec<NodeId>, AllocError>
    ensures { IfOk result (λ ids. ids.items ≡ map accepted_root sites.now) }
{
    let mut ids = Vec::new(alloc);
    for sited in sites {
        ids.push(sited.site.accepted.root)?;
    }
    Ok(ids)
}

/// A pattern of the program, and its site.
pub(crate) fn site_at<'b, 'k, 't>(base: &Base<'b, 'k, 't>, pattern: &Tree) -> &'b Sited<'k, 't>
    requires resolved { IsResolved base.now.resolved.now }
    requires patterns { map sited_pattern base.now.sites.now ≡ all_patterns (program_of base.now) }
    requires pattern { IsPatternOf (program_of base.now) (plain pattern.now) }
    ensures pattern { sited_pattern result.now ≡ plain pattern.now }
    ensures sited { (graph : Graph) (scope : Scope) → AreSited graph scope base.now.sites.now
        → IsSited graph scope result.now }
{
    let number = base.resolved.pattern_number(pattern);
    let all = base.sites;
    &all[number]
}

/// What is in a node, divided among the patterns of branches.
pub(crate) fn divide<'b, 'k, 't>(
    base: &Base<'b, 'k, 't>,
    world: &mut World,
    matched: NodeId,
    branches: &Branches,
) -> Result<Division<'b, 'k, 't>, AllocError>
    requires matched { matched.0 < length (graph_of world.old) }
    requires resolved { IsResolved base.now.resolved.now }
    requires patterns { map sited_pattern base.now.sites.now ≡ all_patterns (program_of base.now) }
    requires sited { AreSited (graph_of world.old) (scope_of base.now) base.now.sites.now }
    requires branches { ArePatternsOf (program_of base.now) (plain_branches branches.now) }
    requires sound { IsGraph (graph_of world.old) }
    ensures division { IfOk result (IsDivision (graph_of world.new) (scope_of base.now)) }
    ensures matched { IfOk result (λ division. division.matched ≡ matched) }
    ensures patterns { IfOk result (λ division.
        map coming_pattern division.comings.items ≡ patterns (plain_branches branches.now)) }
    ensures sound { IsGraph (graph_of world.new) }
    ensures grows { Grows world.old world.new }
{
    let mut comings = Vec::new(base.alloc);
    let mut rest = matched;
    for branch in branches.items() {
        let sited = site_at(base, &branch.pattern);
        comings.push(Coming {
            sited,
            matched: rest,
        })?;
        rest = remaining(base.alloc, world, rest, &sited.site)?;
    }
    Ok(Division {
        matched,
        comings,
        rest,
    })
}

/// Refuses a form at this place whose patterns leave something.
pub(crate) fn cover(world: &mut World, rest: NodeId, at: usize) -> Result<(), CheckError>
    requires rest { rest.0 < length (graph_of world.old) }
    ensures nothing { OnOk result
        ((e : Thing) → IsElement e → elements_of (graph_of world.old) rest e → ⊥) }
    ensures fault { IfErr result
        (IsOutside (graph_of world.old) (table_of world.new) rest EMPTY at Rule.NoBranch) }
    ensures graph { graph_of world.new ≡ graph_of world.old }
    ensures grows { Grows world.old world.new }
{
    // The contract of this call says that the graph is sound and begins with the built-in nodes.
    world.graph();
    need_at(world, rest, EMPTY, Rule::NoBranch, at)
}
