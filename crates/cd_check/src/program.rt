//! The types of programs.
ghost use Rattle.std.specs.Prelude.{◌≡◌, ◌<◌, ◌++◌, List, [], map, length, IfOk, IfErr, OnOk};
ghost use Rattle.std.specs.Str.{chars};
ghost use Rattle.cd_syntax.specs.Name.{IsLabel};
ghost use Rattle.cd_model.specs.AllOf.{AllOf};
ghost use Rattle.cd_model.specs.Formula.{IsGraph};
ghost use Rattle.cd_program.specs.PlainExpr.{plain_function};
ghost use Rattle.cd_empty.specs.Growth.{Grows};
ghost use Rattle.cd_empty.specs.Seen.{graph_of, table_of};
ghost use Rattle.cd_typing.specs.Typed.{IsTyped, scope_of as scope_of_program};
ghost use Rattle.cd_least.specs.ProgramFaults.{ProgramFault};
ghost use Rattle.cd_placed.specs.Patterns.{all_patterns};
ghost use Rattle.cd_resolved.specs.Resolved.{IsResolved, Extends, function_of, function_nodes};
ghost use Rattle.cd_resolved.specs.Resolved.{program_of as program_in};
ghost use Rattle.cd_resolved.specs.declared.function_nodes.FunctionNodes.{FunctionNodes as Nodes};
ghost use Rattle.cd_check.specs.Checked.{IsChecked};
ghost use Rattle.cd_check.specs.Faults.{Reports};
ghost use Rattle.cd_check.specs.Inner.Divided.{AreSited, sited_pattern};
ghost use Rattle.cd_check.specs.Inner.Environment.{AreNodesOf, declared};
ghost use Rattle.cd_check.specs.Inner.Giving.{PromiseKept};
ghost use Rattle.cd_check.specs.Inner.FunctionNames.{function_names, is_main};
ghost use Rattle.cd_check.specs.Inner.Programs.{MainGives, ResultsAreData};
ghost use Rattle.cd_check.specs.Inner.Programs.{IsSoundFunction, HasArrows, IsAtomNode};
ghost use Rattle.cd_check.specs.Inner.Programs.{FunctionsFail, MainsFault, ResultsFault};
ghost use Rattle.cd_check.specs.Inner.Promises.{ArePairs, IsPromised};
ghost use Rattle.cd_check.specs.Inner.Ready.{IsReady, IsAfter, scope_of, program_of, names_seen};

use crate::base::Base;
use crate::fault::CheckError;
use crate::function::check_promise;
use crate::needing::need_at;
use crate::sites::{Sited, accepted_of, sites_of};
use cd_empty::World;
use cd_forms::constant;
use cd_graph::built_in::DATA;
use cd_matched::matched_nodes;
use cd_operators::tools::put_tools;
use cd_program::expr::FunctionTree;
use cd_resolve::NameIndex;
use cd_resolved::{FunctionNodes, Resolved};
use cd_sets::node_id::NodeId;
use cd_syntax::constant::Constant;
use cd_syntax::name::Name;
use cd_typing::rule::Rule;
use std::alloc::{AllocError, Global};

/// Whether a program has types, in a world whose graph begins with its nodes: then a node for each
/// of its sites, of what may come to it.
///
/// # Errors
///
/// A rule that is not met: in the order of the text, but that the operands of a form come before
/// the form itself. Or want of memory.
pub fn check_types(
    alloc: Global,
    world: &mut World,
    program: &Resolved<'_>,
) -> Result<Vec<NodeId>, CheckError>
    requires resolved { IsResolved program.now }
    requires begins { Extends program.now (graph_of world.old) }
    ensures typed { OnOk result (IsTyped (program_in program.now)) }
    ensures checked { IfOk result
        (λ ids. IsChecked (program_in program.now) (graph_of world.new) ids.items) }
    ensures begins { OnOk result (Extends program.now (graph_of world.new)) }
    ensures grows { Grows world.old world.new }
    ensures fault { IfErr result
        (Reports (table_of world.new) (ProgramFault (program_in program.now))) }
{
    // The contract of this call says that the graph is sound and begins with the built-in nodes.
    world.graph();
    let declared = declare(alloc, program.program().functions.items())?;
    let functions = declared_nodes(program);
    let interfaces = interfaces_of(alloc, functions)?;
    let sites = sites_of(alloc, world, program)?;
    let base = base_of(
        alloc,
        world,
        program,
        sites.as_slice(),
        &declared,
        interfaces.as_slice(),
    )?;
    check_functions(&base, world, functions)?;
    check_main(world, functions)?;
    let accepted = accepted_of(alloc, sites.as_slice())?;
    let matched = matched_nodes(alloc, world, program, accepted.as_slice())?;
    Ok(matched)
}

// The names of the functions.
fn declare<'t>(alloc: Global, functions: &'t [FunctionTree]) -> Result<NameIndex<'t>, AllocError>
    ensures { IfOk result
        (λ names. names ≡ function_names (map plain_function functions.now)) }
{
    let mut names = NameIndex::new(alloc);
    for function in functions {
        if let Some(name) = &function.name {
            names.add(name)?;
        }
    }
    Ok(names)
}

// The functions that are declared, with their nodes: they are the first of all.
fn declared_nodes<'b, 't>(program: &'b Resolved<'t>) -> &'b [FunctionNodes<'t>]
    requires { IsResolved program.now }
    ensures functions { map function_of result.now ≡ (program_in program.now).functions }
    ensures first { (rest : List Nodes) × (function_nodes program.now ≡ result.now ++ rest) }
{
    let count = program.program().functions.items().len();
    &program.interfaces()[..count]
}

// The nodes of the interfaces, one by one.
fn interfaces_of(alloc: Global, functions: &[FunctionNodes<'_>]) -> Result<Vec<NodeId>, AllocError>
    ensures { IfOk result (λ ids. ids.items ≡ map (λ one. one.whole) functions.now) }
{
    let mut ids = Vec::new(alloc);
    for one in functions {
        ids.push(one.whole)?;
    }
    Ok(ids)
}

// What the check of functions goes by, where these have names and nodes, and the patterns their
// sites.
fn base_of<'b, 'k, 't>(
    alloc: Global,
    world: &mut World,
    resolved: &'k Resolved<'t>,
    sites: &'b [Sited<'k, 't>],
    functions: &'b NameIndex<'t>,
    interfaces: &'b [NodeId],
) -> Result<Base<'b, 'k, 't>, AllocError>
    requires nodes { AreNodesOf (graph_of world.old) (declared functions.now interfaces.now) }
    requires resolved { IsResolved resolved.now }
    requires patterns { map sited_pattern sites.now ≡ all_patterns (program_in resolved.now) }
    requires sited { AreSited (graph_of world.old) (scope_of_program (program_in resolved.now))
        sites.now }
    requires promised { AllOf (IsPromised (scope_of_program (program_in resolved.now))
        (graph_of world.old)) (function_nodes resolved.now) }
    ensures ready { IfOk result (λ base. IsReady base (graph_of world.new) []) }
    ensures resolved { IfOk result (λ base. base.resolved.now ≡ resolved.now) }
    ensures functions { IfOk result (λ base. base.functions.now ≡ functions.now) }
    ensures interfaces { IfOk result (λ base. base.interfaces.now ≡ interfaces.now) }
    ensures sound { IsGraph (graph_of world.new) }
    ensures grows { Grows world.old world.new }
{
    // The contract of this call says that the graph is sound and begins with the built-in nodes.
    world.graph();
    let tools = put_tools(alloc, world)?;
    let yes = truth(alloc, world, "true")?;
    let no = truth(alloc, world, "false")?;
    Ok(Base {
        alloc,
        resolved,
        sites,
        functions,
        interfaces,
        tools,
        yes,
        no,
    })
}

// A node of the truth value of this name.
fn truth(alloc: Global, world: &mut World, name: &str) -> Result<NodeId, AllocError>
    requires label { IsLabel (chars name.now) }
    ensures atom { IfOk result (IsAtomNode (graph_of world.new) (chars name.now)) }
    ensures node { IfOk result (λ id. id.0 < length (graph_of world.new)) }
    ensures sound { IsGraph (graph_of world.new) }
    ensures grows { Grows world.old world.new }
{
    // The contract of this call says that the graph is sound.
    world.graph();
    let atom = Name::of(alloc, name)?;
    constant(alloc, world, &Constant::Atom(atom))
}

// Whether each function keeps what it promises.
fn check_functions(
    base: &Base<'_, '_, '_>,
    world: &mut World,
    functions: &[FunctionNodes<'_>],
) -> Result<(), CheckError>
    requires ready { IsReady base.now (graph_of world.old) [] }
    requires promised { AllOf (IsPromised (scope_of base.now) (graph_of world.old)) functions.now }
    requires sound { AllOf (IsSoundFunction (program_of base.now) (names_seen base.now []))
        functions.now }
    ensures kept { OnOk result (AllOf (λ one. PromiseKept base.now (graph_of world.old) []
        (function_of one) one) functions.now) }
    ensures after { IsAfter base.now [] world.old world.new }
    ensures fault { IfErr result (FunctionsFail base.now (graph_of world.old) (table_of world.new)
        functions.now) }
{
    for one in functions {
        check_promise(base, world, &[], one.function, one)?;
    }
    Ok(())
}

// Whether what `main` gives is data.
fn check_main(world: &mut World, functions: &[FunctionNodes<'_>]) -> Result<(), CheckError>
    requires { AllOf (HasArrows (graph_of world.old)) functions.now }
    ensures main { OnOk result (AllOf (MainGives (graph_of world.old)) functions.now) }
    ensures fault { IfErr result
        (Reports (table_of world.new) (MainsFault (graph_of world.old) functions.now)) }
    ensures graph { graph_of world.new ≡ graph_of world.old }
    ensures grows { Grows world.old world.new }
{
    for one in functions {
        if is_main(one.function) {
            check_results(world, one.arrows.as_slice(), one.function.at)?;
        }
    }
    Ok(())
}

// Whether a function has the name `main`.
fn is_main(function: &FunctionTree) -> bool
    ensures { result ≡ is_main (plain_function function.now) }
{
    match &function.name {
        Some(name) => name.is_spelled(&['m', 'a', 'i', 'n']),
        None => false,
    }
}

// Refuses a function at this place some of whose results are not data.
fn check_results(
    world: &mut World,
    arrows: &[(NodeId, NodeId)],
    at: usize,
) -> Result<(), CheckError>
    requires { ArePairs (graph_of world.old) arrows.now }
    ensures data { OnOk result (ResultsAreData (graph_of world.old) arrows.now) }
    ensures fault { IfErr result
        (Reports (table_of world.new) (ResultsFault (graph_of world.old) at arrows.now)) }
    ensures graph { graph_of world.new ≡ graph_of world.old }
    ensures grows { Grows world.old world.new }
{
    // The contract of this call says that the graph begins with the built-in nodes.
    world.graph();
    for arrow in arrows {
        need_at(world, arrow.1, DATA, Rule::MainResult, at)?;
    }
    Ok(())
}
