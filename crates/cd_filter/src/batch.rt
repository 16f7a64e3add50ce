//! A formula for each node of a kernel.
ghost use Rattle.std.specs.Prelude.{◌≡◌, ◌<◌, IfOk, OnOk, map, length, slice_set};
ghost use Rattle.std.specs.Option.{IfSome};
ghost use Rattle.cd_graph.specs.Nodes.{nodes};
ghost use Rattle.cd_graph.specs.PlainFormula.{plain};
ghost use Rattle.cd_matching.specs.Kernel.{IsSound};
ghost use Rattle.cd_matching.specs.PlainKernel.{plain_kernel, plain_node, plain_nodes};
ghost use Rattle.cd_filter.specs.Inner.Forming.{IsFormOf, HasTypes, IsFormed, AreFormed, IsBatch};

use crate::combining::{meet, union};
use crate::formed::Formed;
use crate::own::{pair, record, xml};
use crate::rows::{alone, are_full, formulas, is_there};
use cd_graph::{Formula, Graph};
use cd_matching::kernel::{Kernel, KernelNode};
use std::alloc::{AllocError, Global};

/// Formulas for the nodes of a kernel, which are to stand in the graph from this number on.
///
/// # Errors
///
/// Want of memory.
pub(crate) fn batch_of(
    alloc: Global,
    graph: &Graph,
    kernel: &Kernel,
    first: usize,
) -> Result<Vec<Formula>, AllocError>
    requires { IsSound (λ id. id.0 < length (nodes graph.now)) (plain_kernel kernel.now) }
    ensures { IfOk result (λ batch. IsBatch (nodes graph.now)
        (plain_nodes kernel.now.nodes.items) first (map plain batch.items)) }
{
    let rows = all_rows(alloc, graph, kernel, first)?;
    // Each is formed at last, since the ways through the nodes that lead to others end.
    if !are_full(rows.as_slice()) {
        return Err(AllocError);
    }
    formulas(alloc, rows.as_slice())
}

// The rows of all nodes. Where the nodes that others lead to come first, they are formed at once,
// and else each time some more.
fn all_rows(
    alloc: Global,
    graph: &Graph,
    kernel: &Kernel,
    first: usize,
) -> Result<Vec<Option<Formed>>, AllocError>
    requires { IsSound (λ id. id.0 < length (nodes graph.now)) (plain_kernel kernel.now) }
    ensures formed { IfOk result (λ rows. AreFormed (nodes graph.now)
        (plain_nodes kernel.now.nodes.items) first rows.items) }
    ensures count { IfOk result (λ rows. length rows.items ≡ length kernel.now.nodes.items) }
{
    let mut rows = first_rows(alloc, graph, kernel, first)?;
    for _count in 0..kernel.nodes.len() {
        if are_full(rows.as_slice()) {
            return Ok(rows);
        }
        form_more(alloc, graph, kernel, first, &mut rows)?;
    }
    Ok(rows)
}

// A row for each node.
fn first_rows(
    alloc: Global,
    graph: &Graph,
    kernel: &Kernel,
    first: usize,
) -> Result<Vec<Option<Formed>>, AllocError>
    requires { IsSound (λ id. id.0 < length (nodes graph.now)) (plain_kernel kernel.now) }
    ensures formed { IfOk result (λ rows. AreFormed (nodes graph.now)
        (plain_nodes kernel.now.nodes.items) first rows.items) }
    ensures count { IfOk result (λ rows. length rows.items ≡ length kernel.now.nodes.items) }
{
    let mut rows = Vec::new(alloc);
    for number in 0..kernel.nodes.len() {
        let row = form(alloc, graph, kernel, first, rows.as_slice(), number)?;
        rows.push(row)?;
    }
    Ok(rows)
}

// Forms those that are not there yet, where the ones that they are made of are.
fn form_more(
    alloc: Global,
    graph: &Graph,
    kernel: &Kernel,
    first: usize,
    rows: &mut Vec<Option<Formed>>,
) -> Result<(), AllocError>
    requires sound { IsSound (λ id. id.0 < length (nodes graph.now)) (plain_kernel kernel.now) }
    requires formed { AreFormed (nodes graph.now)
        (plain_nodes kernel.now.nodes.items) first rows.old.items }
    ensures formed { OnOk result (AreFormed (nodes graph.now)
        (plain_nodes kernel.now.nodes.items) first rows.new.items) }
    ensures count { OnOk result (length rows.new.items ≡ length rows.old.items) }
{
    for number in 0..rows.len() {
        if !is_there(rows.as_slice(), number) {
            let row = form(alloc, graph, kernel, first, rows.as_slice(), number)?;
            put(rows, number, row);
        }
    }
    Ok(())
}

// Puts a row in the place of another one.
fn put(rows: &mut Vec<Option<Formed>>, number: usize, row: Option<Formed>)
    ensures { rows.new.items ≡ slice_set rows.old.items number row }
{
    if let Some(place) = rows.get_mut(number) {
        *place = row;
    }
}

// Forms what is for one node, where the ones that it is made of are there.
fn form(
    alloc: Global,
    graph: &Graph,
    kernel: &Kernel,
    first: usize,
    rows: &[Option<Formed>],
    number: usize,
) -> Result<Option<Formed>, AllocError>
    requires sound { IsSound (λ id. id.0 < length (nodes graph.now)) (plain_kernel kernel.now) }
    requires formed { AreFormed (nodes graph.now)
        (plain_nodes kernel.now.nodes.items) first rows.now }
    ensures { IfOk result (λ row. IfSome row (IsFormed (nodes graph.now)
        (plain_nodes kernel.now.nodes.items) first number)) }
{
    match kernel.nodes.get(number) {
        Some(node) => form_node(alloc, graph, first, rows, number, node),
        None => Ok(None),
    }
}

// Forms what is for this node.
fn form_node(
    alloc: Global,
    graph: &Graph,
    first: usize,
    rows: &[Option<Formed>],
    number: usize,
    node: &KernelNode,
) -> Result<Option<Formed>, AllocError>
    requires { HasTypes (length (nodes graph.now)) (plain_node node.now) }
    ensures { IfOk result (λ row. IfSome row
        (IsFormOf (nodes graph.now) first rows.now number (plain_node node.now))) }
{
    match node {
        KernelNode::Test(id) => alone(alloc, number, graph.formula(*id).copy()?),
        KernelNode::Bind(_) | KernelNode::Put(_, _) => alone(alloc, number, Formula::all()),
        KernelNode::Pair(p, q) | KernelNode::Gather(_, p, q) => {
            alone(alloc, number, pair(first, *p, *q)?)
        }
        KernelNode::Xml(tag, attributes, content) => {
            alone(alloc, number, xml(first, *tag, *attributes, *content)?)
        }
        KernelNode::Record(fields, more) => {
            alone(
                alloc,
                number,
                record(alloc, first, fields.as_slice(), *more)?,
            )
        }
        KernelNode::Both(p, q) => meet(alloc, rows, number, *p, *q),
        KernelNode::First(p, q) => union(alloc, rows, *p, *q),
    }
}
