//! Nodes of what may come to the sites of a program.
ghost use Rattle.std.specs.Prelude.{◌≡◌, length, IfOk};
ghost use Rattle.cd_syntax.specs.PlainTree.{plain};
ghost use Rattle.cd_model.specs.AllOf.{AllOf};
ghost use Rattle.cd_model.specs.Formula.{Graph, IsGraph};
ghost use Rattle.cd_model.specs.Scope.{Scope};
ghost use Rattle.cd_program.specs.PlainExpr.{plain_branches};
ghost use Rattle.cd_typing.specs.Branches.{patterns_of};
ghost use Rattle.cd_typing.specs.Sites.{all_sites, IsMatched, AreMatched};
ghost use Rattle.cd_typing.specs.Typed.{scope_of};
ghost use Rattle.cd_placed.specs.Patterns.{all_patterns};
ghost use Rattle.cd_empty.specs.Growth.{Grows};
ghost use Rattle.cd_empty.specs.Seen.{graph_of};
ghost use Rattle.cd_resolved.specs.Parts.{IsPatternOf};
ghost use Rattle.cd_resolved.specs.PlainSite.{plain_site};
ghost use Rattle.cd_resolved.specs.Resolved.{program_of, IsResolved};
ghost use Rattle.cd_matched.specs.Accepted.{closed, IsAccepted, AreAccepted};
ghost use Rattle.cd_matched.specs.Inner.AsksTaken.{AskTaken};

use cd_builders::{put, union_formula};
use cd_empty::World;
use cd_graph::built_in::{ANY, DATA};
use cd_needs::asking::question;
use cd_program::expr::Branches;
use cd_resolved::{Resolved, SiteTree};
use cd_sets::node_id::NodeId;
use cd_sets::question::Question;
use cd_syntax::type_tree::Tree;
use std::alloc::{AllocError, Global};

/// A node of what may come to each site of a program, one by one, from nodes of what its patterns
/// take. A closed site with one pattern has the node of this, and one with several a new node.
///
/// # Errors
///
/// Want of memory.
pub fn matched_nodes(
    alloc: Global,
    world: &mut World,
    program: &Resolved<'_>,
    accepted: &[NodeId],
) -> Result<Vec<NodeId>, AllocError>
    requires resolved { IsResolved program.now }
    requires accepted { AreAccepted (scope_of (program_of program.now)) (graph_of world.old)
        (all_patterns (program_of program.now)) accepted.now }
    ensures matched { IfOk result (λ ids. AreMatched (scope_of (program_of program.now))
        (graph_of world.new) (all_sites (program_of program.now)) ids.items) }
    ensures sound { IsGraph (graph_of world.new) }
    ensures grows { Grows world.old world.new }
{
    // The contract of this call says that the graph is sound.
    world.graph();
    let mut ids = Vec::new(alloc);
    for site in program.sites() {
        ids.push(matched_at(alloc, world, program, accepted, *site)?)?;
    }
    Ok(ids)
}

// A node of what may come to a site.
fn matched_at(
    alloc: Global,
    world: &mut World,
    program: &Resolved<'_>,
    accepted: &[NodeId],
    site: SiteTree<'_>,
) -> Result<NodeId, AllocError>
    requires resolved { IsResolved program.now }
    requires accepted { AreAccepted (scope_of (program_of program.now)) (graph_of world.old)
        (all_patterns (program_of program.now)) accepted.now }
    requires patterns { AllOf (IsPatternOf (program_of program.now)) (plain_site site).patterns }
    ensures matched { IfOk result (IsMatched (scope_of (program_of program.now))
        (graph_of world.new) (plain_site site.entry)) }
    ensures sound { IsGraph (graph_of world.new) }
    ensures grows { Grows world.old world.new }
{
    // The contract of this call says that the graph is sound and begins with the built-in nodes.
    world.graph();
    match site {
        SiteTree::Branches(branches) => of_branches(alloc, world, program, accepted, branches),
        SiteTree::Let(pattern) => Ok(accepted_at(program, accepted, pattern)),
        SiteTree::Try(_) => Ok(DATA),
        SiteTree::Transform(_) => Ok(ANY),
    }
}

// A node of what one of these branches takes.
fn of_branches(
    alloc: Global,
    world: &mut World,
    program: &Resolved<'_>,
    accepted: &[NodeId],
    branches: &Branches,
) -> Result<NodeId, AllocError>
    requires resolved { IsResolved program.now }
    requires accepted { AreAccepted (scope_of (program_of program.now)) (graph_of world.old)
        (all_patterns (program_of program.now)) accepted.now }
    requires patterns { AllOf (IsPatternOf (program_of program.now))
        (patterns_of (plain_branches branches.now)) }
    ensures matched { IfOk result (IsMatched (scope_of (program_of program.now))
        (graph_of world.new) (closed (patterns_of (plain_branches branches.now)))) }
    ensures sound { IsGraph (graph_of world.new) }
    ensures grows { Grows world.old world.new }
{
    // The contract of this call says that the graph is sound and begins with the built-in nodes.
    world.graph();
    match branches.items() {
        [only] => Ok(accepted_at(program, accepted, &only.pattern)),
        _ => put_union(alloc, world, program, accepted, branches),
    }
}

// A new node of what one of these branches takes.
fn put_union(
    alloc: Global,
    world: &mut World,
    program: &Resolved<'_>,
    accepted: &[NodeId],
    branches: &Branches,
) -> Result<NodeId, AllocError>
    requires resolved { IsResolved program.now }
    requires accepted { AreAccepted (scope_of (program_of program.now)) (graph_of world.old)
        (all_patterns (program_of program.now)) accepted.now }
    requires patterns { AllOf (IsPatternOf (program_of program.now))
        (patterns_of (plain_branches branches.now)) }
    ensures matched { IfOk result (IsMatched (scope_of (program_of program.now))
        (graph_of world.new) (closed (patterns_of (plain_branches branches.now)))) }
    ensures sound { IsGraph (graph_of world.new) }
    ensures grows { Grows world.old world.new }
{
    // The contract of this call says that the graph is sound and begins with the built-in nodes.
    world.graph();
    let questions = questions_of(alloc, program, accepted, branches)?;
    let formula = union_formula(alloc, world.graph(), questions.as_slice())?;
    let id = put(alloc, world, formula)?;
    Ok(id)
}

// A question of what each of these branches takes.
fn questions_of(
    alloc: Global,
    program: &Resolved<'_>,
    accepted: &[NodeId],
    branches: &Branches,
) -> Result<Vec<Question>, AllocError>
    requires resolved { IsResolved program.now }
    requires count { length accepted.now ≡ length (all_patterns (program_of program.now)) }
    requires patterns { AllOf (IsPatternOf (program_of program.now))
        (patterns_of (plain_branches branches.now)) }
    ensures { IfOk result (λ questions. (scope : Scope) (graph : Graph)
        → AreAccepted scope graph (all_patterns (program_of program.now)) accepted.now
        → AskTaken scope graph (patterns_of (plain_branches branches.now)) questions.items) }
{
    let mut questions = Vec::new(alloc);
    for branch in branches.items() {
        let id = accepted_at(program, accepted, &branch.pattern);
        questions.push(question(alloc, &[id], &[])?)?;
    }
    Ok(questions)
}

// The node of what a pattern takes.
fn accepted_at(program: &Resolved<'_>, accepted: &[NodeId], pattern: &Tree) -> NodeId
    requires resolved { IsResolved program.now }
    requires count { length accepted.now ≡ length (all_patterns (program_of program.now)) }
    requires pattern { IsPatternOf (program_of program.now) (plain pattern.now) }
    ensures { (scope : Scope) (graph : Graph)
        → AreAccepted scope graph (all_patterns (program_of program.now)) accepted.now
        → IsAccepted scope graph (plain pattern.now) result }
{
    accepted[program.pattern_number(pattern)]
}
