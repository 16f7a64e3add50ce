//! The nodes of patterns, put after others.
ghost use Rattle.std.specs.Prelude.{◌≡◌, ◌++◌, ◌∷◌, [], false, map, IfOk, OnOk};
ghost use Rattle.cd_matching.specs.Pattern.{patterns_of, regulars_of};
ghost use Rattle.cd_matching.specs.PlainKernel.{plain_nodes, plain_kind};
ghost use Rattle.cd_matching.specs.PlainPattern.{plain, plain_field, plain_regular, fields_of};
ghost use Rattle.cd_kernel.specs.Inner.Building.{built, built_all, built_fields, built_items};
ghost use Rattle.cd_kernel.specs.Inner.Building.{built_items_all, put_sequence, put_copies};
ghost use Rattle.cd_kernel.specs.Inner.Building.{put_copy, put_record};
ghost use Rattle.cd_kernel.specs.Inner.PlainGroups.{plain_group, plain_groups};
ghost use Rattle.cd_kernel.specs.Inner.PlainSteps.{plain_kernel_fields};
ghost use Rattle.cd_kernel.specs.Inner.Plans.{IsPlanOf};

use crate::chain::{Joint, chain, put, put_bind, put_default};
use crate::copies::{Plan, make_plan, put_copy};
use crate::gathering::{Group, groups};
use crate::names::number;
use crate::sort::sort;
use cd_graph::built_in::{ANY, EMPTY};
use cd_matching::kernel::{FieldKind, KernelField, KernelNode};
use cd_matching::pattern::{Pat, PatField, RegPat};
use cd_syntax::name::Name;
use std::alloc::{AllocError, Global};

/// Puts the node of a pattern after these, where its variables are kept or not, and gives its
/// number.
#[cycle(put_pattern)]
pub(crate) fn put_pattern(
    alloc: Global,
    variables: &[Name],
    kept: bool,
    pattern: &Pat,
    nodes: &mut Vec<KernelNode>,
) -> Result<usize, AllocError>
    ensures { IfOk result (λ number. (number, plain_nodes nodes.new.items)
        ≡ built variables.now kept (plain pattern.now) (plain_nodes nodes.old.items)) }
{
    match pattern {
        Pat::OfType(id) => put(KernelNode::Test(*id), nodes),
        Pat::Bind(name) => put_bind(kept, number(variables, name), nodes),
        Pat::Default(name, constant) => {
            put_default(kept, number(variables, name), constant, nodes)
        }
        Pat::Pair(first, second) => {
            let first = put_pattern(alloc, variables, kept, first, nodes)?;
            let second = put_pattern(alloc, variables, kept, second, nodes)?;
            Ok(put(KernelNode::Pair(first, second), nodes)?)
        }
        Pat::Xml(tag, attributes, content) => {
            let tag = put_pattern(alloc, variables, kept, tag, nodes)?;
            let attributes = put_pattern(alloc, variables, kept, attributes, nodes)?;
            let content = put_pattern(alloc, variables, kept, content, nodes)?;
            Ok(put(KernelNode::Xml(tag, attributes, content), nodes)?)
        }
        Pat::Record(fields, more) => {
            let made = put_fields(alloc, variables, kept, fields.items.as_slice(), nodes)?;
            Ok(put_record(alloc, made, *more, nodes)?)
        }
        Pat::Both(all) => {
            let numbers = put_all(alloc, variables, kept, all.items.as_slice(), nodes)?;
            Ok(chain(Joint::Both, ANY, numbers.as_slice(), nodes)?)
        }
        Pat::First(all) => {
            let numbers = put_all(alloc, variables, kept, all.items.as_slice(), nodes)?;
            Ok(chain(Joint::First, EMPTY, numbers.as_slice(), nodes)?)
        }
        Pat::Sequence(is) => put_sequence(alloc, variables, kept, is, nodes),
    }
}

// The numbers of these patterns' nodes.
#[cycle(put_pattern)]
fn put_all(
    alloc: Global,
    variables: &[Name],
    kept: bool,
    all: &[Pat],
    nodes: &mut Vec<KernelNode>,
) -> Result<Vec<usize>, AllocError>
    ensures { IfOk result (λ numbers. (numbers.items, plain_nodes nodes.new.items)
        ≡ built_all variables.now kept (patterns_of (map plain all.now)) []
        (plain_nodes nodes.old.items)) }
{
    let mut numbers = Vec::new(alloc);
    for pattern in all {
        let one = put_pattern(alloc, variables, kept, pattern, nodes)?;
        numbers.push(one)?;
    }
    Ok(numbers)
}

// The fields in the order of the pattern.
#[cycle(put_pattern)]
fn put_fields(
    alloc: Global,
    variables: &[Name],
    kept: bool,
    fields: &[PatField],
    nodes: &mut Vec<KernelNode>,
) -> Result<Vec<KernelField>, AllocError>
    ensures { IfOk result (λ made. (plain_kernel_fields made.items, plain_nodes nodes.new.items)
        ≡ built_fields variables.now kept (fields_of (map plain_field fields.now)) []
        (plain_nodes nodes.old.items)) }
{
    let mut made = Vec::new(alloc);
    for field in fields {
        match field {
            PatField::Present(label, pattern) => {
                let node = put_pattern(alloc, variables, kept, pattern, nodes)?;
                add_field(label, FieldKind::Present(node), &mut made)?;
            }
            PatField::Optional(label, id) => {
                add_field(label, FieldKind::Optional(*id), &mut made)?;
            }
        }
    }
    Ok(made)
}

fn add_field(label: &Name, kind: FieldKind, made: &mut Vec<KernelField>) -> Result<(), AllocError>
    ensures { OnOk result (plain_kernel_fields made.new.items
        ≡ plain_kernel_fields made.old.items ++ (label.now, plain_kind kind) ∷ []) }
{
    let label = label.copy()?;
    made.push(KernelField { label, kind })?;
    Ok(())
}

// A record of these fields, in the order of their labels.
fn put_record(
    alloc: Global,
    made: Vec<KernelField>,
    more: bool,
    nodes: &mut Vec<KernelNode>,
) -> Result<usize, AllocError>
    ensures { IfOk result (λ number. (number, plain_nodes nodes.new.items)
        ≡ put_record more (plain_kernel_fields made.items, plain_nodes nodes.old.items)) }
{
    let fields = sort(alloc, made)?;
    Ok(put(KernelNode::Record(fields, more), nodes)?)
}

// A sequence: copies of its automaton.
#[cycle(put_pattern)]
fn put_sequence(
    alloc: Global,
    variables: &[Name],
    kept: bool,
    is: &RegPat,
    nodes: &mut Vec<KernelNode>,
) -> Result<usize, AllocError>
    ensures { IfOk result (λ number. (number, plain_nodes nodes.new.items)
        ≡ put_sequence variables.now kept (plain_regular is.now)
        (built_items variables.now kept (plain_regular is.now) [])
        (built_items variables.now false (plain_regular is.now) [])
        (plain_nodes nodes.old.items)) }
{
    let plan = make_plan(alloc, is)?;
    let groups = groups(alloc, kept, is)?;
    let starts = put_copies(alloc, variables, kept, is, &plan, groups.as_slice(), nodes)?;
    Ok(chain(Joint::Both, ANY, starts.as_slice(), nodes)?)
}

// The first states of the copies for these groups. Variables inside of items are kept in the first
// copy alone.
#[cycle(put_pattern)]
fn put_copies(
    alloc: Global,
    variables: &[Name],
    kept: bool,
    is: &RegPat,
    plan: &Plan,
    groups: &[Group],
    nodes: &mut Vec<KernelNode>,
) -> Result<Vec<usize>, AllocError>
    requires { IsPlanOf (plain_regular is.now) plan.now }
    ensures { IfOk result (λ starts. (starts.items, plain_nodes nodes.new.items)
        ≡ put_copies variables.now (plain_regular is.now)
        (built_items variables.now kept (plain_regular is.now) [])
        (built_items variables.now false (plain_regular is.now) [])
        (plain_groups groups.now) [] (plain_nodes nodes.old.items)) }
{
    let mut starts = Vec::new(alloc);
    let mut keeps = kept;
    for group in groups {
        let start = put_items_and_copy(alloc, variables, keeps, is, plan, group, nodes)?;
        starts.push(start)?;
        keeps = false;
    }
    Ok(starts)
}

#[cycle(put_pattern)]
fn put_items_and_copy(
    alloc: Global,
    variables: &[Name],
    kept: bool,
    is: &RegPat,
    plan: &Plan,
    group: &Group,
    nodes: &mut Vec<KernelNode>,
) -> Result<usize, AllocError>
    requires { IsPlanOf (plain_regular is.now) plan.now }
    ensures { IfOk result (λ start. (start, plain_nodes nodes.new.items)
        ≡ put_copy variables.now (plain_regular is.now) (plain_group group.now)
        (built_items variables.now kept (plain_regular is.now) [] (plain_nodes nodes.old.items))) }
{
    let mut items = Vec::new(alloc);
    put_items(alloc, variables, kept, is, &mut items, nodes)?;
    Ok(put_copy(alloc, variables, is, plan, group, items, nodes)?)
}

// Adds the numbers of the items' nodes.
#[cycle(put_pattern)]
fn put_items(
    alloc: Global,
    variables: &[Name],
    kept: bool,
    is: &RegPat,
    numbers: &mut Vec<usize>,
    nodes: &mut Vec<KernelNode>,
) -> Result<(), AllocError>
    ensures { OnOk result ((numbers.new.items, plain_nodes nodes.new.items)
        ≡ built_items variables.now kept (plain_regular is.now) numbers.old.items
        (plain_nodes nodes.old.items)) }
{
    match is {
        RegPat::Nothing => Ok(()),
        RegPat::Item(pattern) => {
            let one = put_pattern(alloc, variables, kept, pattern, nodes)?;
            numbers.push(one)?;
            Ok(())
        }
        RegPat::Seq(all) | RegPat::Alt(all) => {
            put_parts(alloc, variables, kept, all.items.as_slice(), numbers, nodes)
        }
        RegPat::Repeat(is, _) | RegPat::Capture(_, is) => {
            put_items(alloc, variables, kept, is, numbers, nodes)
        }
    }
}

#[cycle(put_pattern)]
fn put_parts(
    alloc: Global,
    variables: &[Name],
    kept: bool,
    all: &[RegPat],
    numbers: &mut Vec<usize>,
    nodes: &mut Vec<KernelNode>,
) -> Result<(), AllocError>
    ensures { OnOk result ((numbers.new.items, plain_nodes nodes.new.items)
        ≡ built_items_all variables.now kept (regulars_of (map plain_regular all.now))
        numbers.old.items (plain_nodes nodes.old.items)) }
{
    for is in all {
        put_items(alloc, variables, kept, is, numbers, nodes)?;
    }
    Ok(())
}
