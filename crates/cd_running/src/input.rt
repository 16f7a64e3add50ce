//! Whether a program takes a document.
ghost use Rattle.std.specs.Prelude.{◌≡◌, ◌<◌, length, option_map, IfOk, IfSome, Some};
ghost use Rattle.cd_cells.specs.Cells.{thing_at};
ghost use Rattle.cd_cells.specs.Table.{table};
ghost use Rattle.cd_graph.specs.Nodes.{nodes};
ghost use Rattle.cd_program.specs.Expr.{FunctionTree as AFunction};
ghost use Rattle.cd_program.specs.PlainExpr.{plain_function};
ghost use Rattle.cd_names.specs.Arrows.{AreArrows};
ghost use Rattle.cd_typing.specs.Typed.{scope_of};
ghost use Rattle.cd_evaluation.specs.ProgramInterfaces.{interface_of};
ghost use Rattle.cd_resolved.specs.Parts.{IsFunctionOf};
ghost use Rattle.cd_resolved.specs.Resolved.{program_of, program_graph, IsResolved};
ghost use Rattle.cd_safety.specs.SafeProgram.{IsMain, IsDocument};
ghost use Rattle.cd_running.specs.Inner.Inputs.{AnswersAsInput, AnswersAt, AnswersAtArguments};
ghost use Rattle.cd_running.specs.Inner.Inputs.{TakeNodes};

use cd_asking::{Maps, is_in};
use cd_cells::{ValueId, Values};
use cd_graph::Graph;
use cd_program::expr::FunctionTree;
use cd_resolved::Resolved;
use cd_sets::node_id::NodeId;
use std::alloc::{AllocError, Global};

/// Whether a document is in the argument of an arrow of the function `main` of a program.
pub(crate) fn is_input(
    alloc: Global,
    program: &Resolved<'_>,
    values: &Values,
    value: ValueId,
) -> Result<bool, AllocError>
    requires resolved { IsResolved program.now }
    requires value { value.0 < length (table values.now) }
    requires document { IsDocument (thing_at (table values.now) value.0) }
    ensures { IfOk result (λ answer. (main : AFunction) → IsMain (program_of program.now) main
        → AnswersAsInput (program_of program.now) main (thing_at (table values.now) value.0)
        answer) }
{
    match main_of(program) {
        Some(main) => {
            let arrows = arrows_of(program, main);
            takes(alloc, program.graph(), arrows, values, value)
        }
        None => Ok(false),
    }
}

// The function that is declared as `main`.
fn main_of<'p>(program: &Resolved<'p>) -> Option<&'p FunctionTree>
    ensures main { (main : AFunction) → IsMain (program_of program.now) main
        → option_map (λ f. plain_function f.now) result ≡ Some main }
    ensures among { IfSome result
        (λ f. IsFunctionOf (program_of program.now) (plain_function f.now)) }
{
    match program.declared("main") {
        Some(at) => program.function(at),
        None => None,
    }
}

// The nodes of the arrows of a function.
fn arrows_of<'r>(program: &'r Resolved<'_>, function: &FunctionTree) -> &'r [(NodeId, NodeId)]
    requires resolved { IsResolved program.now }
    requires function { IsFunctionOf (program_of program.now) (plain_function function.now) }
    ensures { AreArrows (scope_of (program_of program.now)) (program_graph program.now)
        (interface_of (plain_function function.now)) result.now }
{
    let number = program.function_number(function);
    program.interfaces()[number].arrows.as_slice()
}

// Whether a document is in what one of these arrows takes.
fn takes(
    alloc: Global,
    graph: &Graph,
    arrows: &[(NodeId, NodeId)],
    values: &Values,
    value: ValueId,
) -> Result<bool, AllocError>
    requires arrows { TakeNodes (nodes graph.now) arrows.now }
    requires value { value.0 < length (table values.now) }
    requires document { IsDocument (thing_at (table values.now) value.0) }
    ensures { IfOk result (AnswersAtArguments (nodes graph.now)
        (thing_at (table values.now) value.0) arrows.now) }
{
    let mut left = arrows;
    while let Some((arrow, rest)) = left.split_first() {
        if is_in_node(alloc, graph, arrow.0, values, value)? {
            return Ok(true);
        }
        left = rest;
    }
    Ok(false)
}

// Whether a document is in a node.
fn is_in_node(
    alloc: Global,
    graph: &Graph,
    node: NodeId,
    values: &Values,
    value: ValueId,
) -> Result<bool, AllocError>
    requires node { node.0 < length (nodes graph.now) }
    requires value { value.0 < length (table values.now) }
    requires document { IsDocument (thing_at (table values.now) value.0) }
    ensures { IfOk result (AnswersAt (nodes graph.now) (thing_at (table values.now) value.0)
        node) }
{
    // A document holds no closure.
    let maps = Maps::new(alloc);
    is_in(alloc, graph, &maps, values, value, node)
}
