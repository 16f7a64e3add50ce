//! How the nodes of a kernel look at values.
ghost use Rattle.std.specs.Prelude.{◌≡◌, ◌<◌, Some, IfOk, length, slice_get};
ghost use Rattle.cd_matching.specs.Kernel as plain;
ghost use Rattle.cd_matching.specs.PlainKernel.{plain_node, plain_nodes};
ghost use Rattle.cd_matching.specs.Sequences.{thing_of};
ghost use Rattle.cd_model.specs.Thing.{IsElement};
ghost use Rattle.cd_graph.specs.Nodes.{nodes};
ghost use Rattle.cd_cells.specs.Table.{table, names, Grows};
ghost use Rattle.cd_asking.specs.Known.{KnowsOf};
ghost use Rattle.cd_taking.specs.declared.frame.Next.TheVariants.{Look};
ghost use Rattle.cd_taking.specs.Inner.Coded.{plain_record, IsWithin};
ghost use Rattle.cd_taking.specs.Inner.Machine.{pair_node, xml_node, record_node};
ghost use Rattle.cd_taking.specs.Inner.Stepping.{IsKernelOf, Moves, Steps, TestsStay};

use crate::ask::ask;
use crate::constants::constant;
use crate::failures::Failure;
use crate::fields::may_have;
use crate::frame::{Frame, Next};
use crate::node_parts::{PairNode, node_at};
use crate::taker::Taker;
use crate::type_tests::Tests;
use crate::views::{fields_of, pair_of, xml_of};
use cd_cells::{ValueId, Values};
use cd_matching::kernel::{Kernel, KernelField, KernelNode};
use cd_syntax::constant::Constant;
use std::alloc::AllocError;

/// A node looks at a value.
pub(crate) fn look(
    taker: &mut Taker,
    kernel: &Kernel,
    tests: &mut Tests,
    values: &mut Values,
    value: ValueId,
    node: usize,
) -> Result<Next, AllocError>
    requires kernel { IsKernelOf tests.old kernel.now }
    requires value { value.0 < length (table values.old) }
    requires within { IsWithin (length (table values.old)) taker.old }
    requires knows { KnowsOf (nodes tests.old.graph) (names values.old) tests.old.asker }
    ensures step { IfOk result (Steps (nodes tests.old.graph) tests.old.maps
        (plain_nodes kernel.now.nodes.items) (table values.old) (table values.new) taker.old
        taker.new (Look value node)) }
    ensures stays { TestsStay tests.old tests.new values.old values.new }
{
    match node_at(kernel, node) {
        Some(found) => look_by(taker, kernel, tests, values, value, node, found),
        None => Ok(Next::No),
    }
}

fn look_by(
    taker: &mut Taker,
    kernel: &Kernel,
    tests: &mut Tests,
    values: &mut Values,
    value: ValueId,
    node: usize,
    found: &KernelNode,
) -> Result<Next, AllocError>
    requires is { slice_get (plain_nodes kernel.now.nodes.items) node
        ≡ Some (plain_node found.now) }
    requires kernel { IsKernelOf tests.old kernel.now }
    requires value { value.0 < length (table values.old) }
    requires within { IsWithin (length (table values.old)) taker.old }
    requires knows { KnowsOf (nodes tests.old.graph) (names values.old) tests.old.asker }
    ensures step { IfOk result (Steps (nodes tests.old.graph) tests.old.maps
        (plain_nodes kernel.now.nodes.items) (table values.old) (table values.new) taker.old
        taker.new (Look value node)) }
    ensures stays { TestsStay tests.old tests.new values.old values.new }
{
    match found {
        KernelNode::Test(type_id) => {
            let answer = ask(tests, values, value, *type_id)?;
            Ok(Next::answered(answer))
        }
        KernelNode::Put(variable, is) => put(taker, kernel, values, value, node, *variable, is),
        KernelNode::Bind(variable) => bind(taker, kernel, values, value, node, *variable),
        KernelNode::Both(first, second) => {
            both(taker, kernel, values, value, node, (*first, *second))
        }
        KernelNode::First(first, second) => {
            choose(taker, kernel, values, value, node, (*first, *second))
        }
        KernelNode::Pair(first, second) => {
            let parts = PairNode {
                variable: None,
                first: *first,
                second: *second,
            };
            open_pair(taker, kernel, values, value, node, parts)
        }
        KernelNode::Gather(variable, first, second) => {
            let parts = PairNode {
                variable: Some(*variable),
                first: *first,
                second: *second,
            };
            open_pair(taker, kernel, values, value, node, parts)
        }
        KernelNode::Xml(tag, attributes, content) => {
            let parts = (*tag, *attributes, *content);
            open_xml(taker, kernel, values, value, node, parts)
        }
        KernelNode::Record(fields, more) => {
            let parts = (fields.as_slice(), *more);
            open_record(taker, kernel, values, value, node, parts)
        }
    }
}

// A variable captures the value.
fn bind(
    taker: &mut Taker,
    kernel: &Kernel,
    values: &Values,
    value: ValueId,
    node: usize,
    variable: usize,
) -> Result<Next, AllocError>
    requires is { slice_get (plain_nodes kernel.now.nodes.items) node ≡ Some (plain.Bind variable) }
    requires value { value.0 < length (table values.now) }
    requires within { IsWithin (length (table values.now)) taker.old }
    ensures { IfOk result (Moves kernel.now (table values.now) (table values.now) taker.old
        taker.new (Look value node)) }
{
    taker.capture(variable, value)?;
    Ok(Next::Yes)
}

// A variable is a constant.
fn put(
    taker: &mut Taker,
    kernel: &Kernel,
    values: &mut Values,
    value: ValueId,
    node: usize,
    variable: usize,
    is: &Constant,
) -> Result<Next, AllocError>
    requires is { slice_get (plain_nodes kernel.now.nodes.items) node
        ≡ Some (plain.Put variable is.now) }
    requires constant { IsElement (thing_of is.now) }
    requires value { value.0 < length (table values.old) }
    requires within { IsWithin (length (table values.old)) taker.old }
    ensures step { IfOk result (Moves kernel.now (table values.old) (table values.new) taker.old
        taker.new (Look value node)) }
    ensures grows { Grows values.old values.new }
{
    let made = constant(values, is)?;
    taker.capture(variable, made)?;
    Ok(Next::Yes)
}

// Two nodes both have to take the value.
fn both(
    taker: &mut Taker,
    kernel: &Kernel,
    values: &Values,
    value: ValueId,
    node: usize,
    parts: (usize, usize),
) -> Result<Next, AllocError>
    requires is { slice_get (plain_nodes kernel.now.nodes.items) node
        ≡ Some (plain.Both parts.0 parts.1) }
    requires value { value.0 < length (table values.now) }
    requires within { IsWithin (length (table values.now)) taker.old }
    ensures { IfOk result (Moves kernel.now (table values.now) (table values.now) taker.old
        taker.new (Look value node)) }
{
    taker.push(Frame::And(value, parts.1))?;
    Ok(Next::Look(value, parts.0))
}

// One of two nodes has to take the value.
fn choose(
    taker: &mut Taker,
    kernel: &Kernel,
    values: &Values,
    value: ValueId,
    node: usize,
    parts: (usize, usize),
) -> Result<Next, AllocError>
    requires is { slice_get (plain_nodes kernel.now.nodes.items) node
        ≡ Some (plain.First parts.0 parts.1) }
    requires value { value.0 < length (table values.now) }
    requires within { IsWithin (length (table values.now)) taker.old }
    ensures { IfOk result (Moves kernel.now (table values.now) (table values.now) taker.old
        taker.new (Look value node)) }
{
    let mark = taker.captures.as_slice().len();
    taker.push(Frame::Or(value, parts.1, mark))?;
    Ok(Next::Look(value, parts.0))
}

// A node of pairs looks at a value.
fn open_pair(
    taker: &mut Taker,
    kernel: &Kernel,
    values: &Values,
    value: ValueId,
    node: usize,
    parts: PairNode,
) -> Result<Next, AllocError>
    requires is { pair_node (slice_get (plain_nodes kernel.now.nodes.items) node) ≡ Some parts }
    requires value { value.0 < length (table values.now) }
    requires within { IsWithin (length (table values.now)) taker.old }
    ensures { IfOk result (Moves kernel.now (table values.now) (table values.now) taker.old
        taker.new (Look value node)) }
{
    let failure = Failure {
        pair: value.0,
        node,
    };
    if taker.failures.has(failure) {
        return Ok(Next::No);
    }
    match pair_of(values, value) {
        Some((first, _)) => {
            taker.push(Frame::First(value, node))?;
            Ok(Next::Look(first, parts.first))
        }
        None => Ok(Next::No),
    }
}

// A node of XML values looks at a value.
fn open_xml(
    taker: &mut Taker,
    kernel: &Kernel,
    values: &Values,
    value: ValueId,
    node: usize,
    parts: (usize, usize, usize),
) -> Result<Next, AllocError>
    requires is { xml_node (slice_get (plain_nodes kernel.now.nodes.items) node) ≡ Some parts }
    requires value { value.0 < length (table values.now) }
    requires within { IsWithin (length (table values.now)) taker.old }
    ensures { IfOk result (Moves kernel.now (table values.now) (table values.now) taker.old
        taker.new (Look value node)) }
{
    match xml_of(values, value) {
        Some((tag, _, _)) => {
            taker.push(Frame::Tag(value, node))?;
            Ok(Next::Look(tag, parts.0))
        }
        None => Ok(Next::No),
    }
}

// A node of records looks at a value.
fn open_record(
    taker: &mut Taker,
    kernel: &Kernel,
    values: &Values,
    value: ValueId,
    node: usize,
    parts: (&[KernelField], bool),
) -> Result<Next, AllocError>
    requires is { record_node (slice_get (plain_nodes kernel.now.nodes.items) node)
        ≡ Some (plain_record parts) }
    requires value { value.0 < length (table values.now) }
    requires within { IsWithin (length (table values.now)) taker.old }
    ensures { IfOk result (Moves kernel.now (table values.now) (table values.now) taker.old
        taker.new (Look value node)) }
{
    match fields_of(values, value) {
        Some(fields) => {
            if may_have(values, parts.0, parts.1, fields) {
                return Ok(Next::Fields(value, node, 0));
            }
            Ok(Next::No)
        }
        None => Ok(Next::No),
    }
}
