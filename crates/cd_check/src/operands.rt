//! Tuples, sequences, records and XML elements.
ghost use Rattle.std.specs.Prelude.{IfOk, IfErr};
ghost use Rattle.cd_program.specs.Expr.{Tuple, Sequence, Record, Xml};
ghost use Rattle.cd_program.specs.PlainExpr.{plain, plain_exprs, plain_items, plain_item};
ghost use Rattle.cd_program.specs.PlainExpr.{plain_fields};
ghost use Rattle.cd_empty.specs.Seen.{graph_of, table_of};
ghost use Rattle.cd_check.specs.Inner.Failing.{FormFails, OperandsFail, ItemsFail, ItemFails};
ghost use Rattle.cd_check.specs.Inner.Failing.{FieldsFail};
ghost use Rattle.cd_check.specs.Inner.Giving.{KindGives, OperandsGive, ItemsGive, ItemGives};
ghost use Rattle.cd_check.specs.Inner.Giving.{FieldsGive};
ghost use Rattle.cd_check.specs.Inner.LeastNodes.{KindLeast, OperandsLeast, ItemsLeast, ItemLeast};
ghost use Rattle.cd_check.specs.Inner.LeastNodes.{FieldsLeast};
ghost use Rattle.cd_check.specs.Inner.Ready.{IsReady, IsAfter, program_of, names_seen};
ghost use Rattle.cd_check.specs.Inner.SoundNames.{IsSound, AreSound, ItemsAreSound, ItemIsSound};
ghost use Rattle.cd_check.specs.Inner.SoundNames.{FieldsAreSound};

use crate::base::Base;
use crate::expr::check;
use crate::fault::CheckError;
use crate::needing::{add, need_at};
use cd_empty::World;
use cd_forms::{record, sequence, tuple, xml};
use cd_graph::built_in::{ATOM, RECORD};
use cd_program::expr::{Expr, Exprs, FieldExprs, Item, Items};
use cd_sets::node_id::NodeId;
use cd_syntax::name::Name;
use cd_typing::rule::Rule;

/// A tuple.
#[cycle(check)]
pub(crate) fn check_tuple(
    base: &Base<'_, '_, '_>,
    world: &mut World,
    locals: &[(Name, NodeId)],
    exprs: &Exprs,
) -> Result<NodeId, CheckError>
    requires ready { IsReady base.now (graph_of world.old) locals.now }
    requires sound { AreSound (program_of base.now) (names_seen base.now locals.now)
        (plain_exprs exprs.now) }
    ensures gives { IfOk result (KindGives base.now (graph_of world.old) locals.now
        (graph_of world.new) (Tuple (plain_exprs exprs.now))) }
    ensures after { IsAfter base.now locals.now world.old world.new }
    ensures least { IfOk result (KindLeast base.now (graph_of world.old) locals.now
        (graph_of world.new) (Tuple (plain_exprs exprs.now))) }
    ensures fault { IfErr result (FormFails base.now (graph_of world.old) locals.now
        (table_of world.new) (Tuple (plain_exprs exprs.now))) }
{
    let parts = check_exprs(base, world, locals, exprs)?;
    Ok(tuple(base.alloc, world, parts.as_slice())?)
}

// Expressions in turn.
#[cycle(check)]
fn check_exprs(
    base: &Base<'_, '_, '_>,
    world: &mut World,
    locals: &[(Name, NodeId)],
    exprs: &Exprs,
) -> Result<Vec<NodeId>, CheckError>
    requires ready { IsReady base.now (graph_of world.old) locals.now }
    requires sound { AreSound (program_of base.now) (names_seen base.now locals.now)
        (plain_exprs exprs.now) }
    ensures gives { IfOk result (λ parts. OperandsGive base.now (graph_of world.old) locals.now
        (graph_of world.new) (plain_exprs exprs.now) parts.items) }
    ensures after { IsAfter base.now locals.now world.old world.new }
    ensures least { IfOk result (λ parts. OperandsLeast base.now (graph_of world.old) locals.now
        (graph_of world.new) (plain_exprs exprs.now) parts.items) }
    ensures fault { IfErr result (OperandsFail base.now (graph_of world.old) locals.now
        (table_of world.new) (plain_exprs exprs.now)) }
{
    let mut parts = Vec::new(base.alloc);
    for expr in exprs.items() {
        let id = check(base, world, locals, expr)?;
        add(&mut parts, id)?;
    }
    Ok(parts)
}

/// A sequence.
#[cycle(check)]
pub(crate) fn check_sequence(
    base: &Base<'_, '_, '_>,
    world: &mut World,
    locals: &[(Name, NodeId)],
    items: &Items,
) -> Result<NodeId, CheckError>
    requires ready { IsReady base.now (graph_of world.old) locals.now }
    requires sound { ItemsAreSound (program_of base.now) (names_seen base.now locals.now)
        (plain_items items.now) }
    ensures gives { IfOk result (KindGives base.now (graph_of world.old) locals.now
        (graph_of world.new) (Sequence (plain_items items.now))) }
    ensures after { IsAfter base.now locals.now world.old world.new }
    ensures least { IfOk result (KindLeast base.now (graph_of world.old) locals.now
        (graph_of world.new) (Sequence (plain_items items.now))) }
    ensures fault { IfErr result (FormFails base.now (graph_of world.old) locals.now
        (table_of world.new) (Sequence (plain_items items.now))) }
{
    let parts = check_items(base, world, locals, items)?;
    Ok(sequence(base.alloc, world, items.items(), parts)?)
}

// The items that are expressions, in turn.
#[cycle(check)]
fn check_items(
    base: &Base<'_, '_, '_>,
    world: &mut World,
    locals: &[(Name, NodeId)],
    items: &Items,
) -> Result<Vec<NodeId>, CheckError>
    requires ready { IsReady base.now (graph_of world.old) locals.now }
    requires sound { ItemsAreSound (program_of base.now) (names_seen base.now locals.now)
        (plain_items items.now) }
    ensures gives { IfOk result (λ parts. ItemsGive base.now (graph_of world.old) locals.now
        (graph_of world.new) (plain_items items.now) parts.items) }
    ensures after { IsAfter base.now locals.now world.old world.new }
    ensures least { IfOk result (λ parts. ItemsLeast base.now (graph_of world.old) locals.now
        (graph_of world.new) (plain_items items.now) parts.items) }
    ensures fault { IfErr result (ItemsFail base.now (graph_of world.old) locals.now
        (table_of world.new) (plain_items items.now)) }
{
    let mut parts = Vec::new(base.alloc);
    for item in items.items() {
        if let Some(id) = check_item(base, world, locals, item)? {
            add(&mut parts, id)?;
        }
    }
    Ok(parts)
}

// One item, if it is an expression.
#[cycle(check)]
fn check_item(
    base: &Base<'_, '_, '_>,
    world: &mut World,
    locals: &[(Name, NodeId)],
    item: &Item,
) -> Result<Option<NodeId>, CheckError>
    requires ready { IsReady base.now (graph_of world.old) locals.now }
    requires sound { ItemIsSound (program_of base.now) (names_seen base.now locals.now)
        (plain_item item.now) }
    ensures gives { IfOk result (ItemGives base.now (graph_of world.old) locals.now
        (graph_of world.new) (plain_item item.now)) }
    ensures after { IsAfter base.now locals.now world.old world.new }
    ensures least { IfOk result (ItemLeast base.now (graph_of world.old) locals.now
        (graph_of world.new) (plain_item item.now)) }
    ensures fault { IfErr result (ItemFails base.now (graph_of world.old) locals.now
        (table_of world.new) (plain_item item.now)) }
{
    match item {
        Item::One(expr) => Ok(Some(check(base, world, locals, expr)?)),
        Item::Splice(expr) => {
            let id = check(base, world, locals, expr)?;
            need_at(
                world,
                id,
                base.tools.sequences,
                Rule::Splice,
                expr.span.from,
            )?;
            Ok(Some(id))
        }
        Item::Run(_) => Ok(None),
    }
}

/// A record.
#[cycle(check)]
pub(crate) fn check_record(
    base: &Base<'_, '_, '_>,
    world: &mut World,
    locals: &[(Name, NodeId)],
    fields: &FieldExprs,
) -> Result<NodeId, CheckError>
    requires ready { IsReady base.now (graph_of world.old) locals.now }
    requires sound { FieldsAreSound (program_of base.now) (names_seen base.now locals.now)
        (plain_fields fields.now) }
    ensures gives { IfOk result (KindGives base.now (graph_of world.old) locals.now
        (graph_of world.new) (Record (plain_fields fields.now))) }
    ensures after { IsAfter base.now locals.now world.old world.new }
    ensures least { IfOk result (KindLeast base.now (graph_of world.old) locals.now
        (graph_of world.new) (Record (plain_fields fields.now))) }
    ensures fault { IfErr result (FormFails base.now (graph_of world.old) locals.now
        (table_of world.new) (Record (plain_fields fields.now))) }
{
    let parts = check_fields(base, world, locals, fields)?;
    Ok(record(base.alloc, world, fields.items(), parts.as_slice())?)
}

// What is in fields, in turn.
#[cycle(check)]
fn check_fields(
    base: &Base<'_, '_, '_>,
    world: &mut World,
    locals: &[(Name, NodeId)],
    fields: &FieldExprs,
) -> Result<Vec<NodeId>, CheckError>
    requires ready { IsReady base.now (graph_of world.old) locals.now }
    requires sound { FieldsAreSound (program_of base.now) (names_seen base.now locals.now)
        (plain_fields fields.now) }
    ensures gives { IfOk result (λ parts. FieldsGive base.now (graph_of world.old) locals.now
        (graph_of world.new) (plain_fields fields.now) parts.items) }
    ensures after { IsAfter base.now locals.now world.old world.new }
    ensures least { IfOk result (λ parts. FieldsLeast base.now (graph_of world.old) locals.now
        (graph_of world.new) (plain_fields fields.now) parts.items) }
    ensures fault { IfErr result (FieldsFail base.now (graph_of world.old) locals.now
        (table_of world.new) (plain_fields fields.now)) }
{
    let mut parts = Vec::new(base.alloc);
    for field in fields.items() {
        let id = check(base, world, locals, &field.expr)?;
        add(&mut parts, id)?;
    }
    Ok(parts)
}

/// An XML element.
#[cycle(check)]
pub(crate) fn check_xml(
    base: &Base<'_, '_, '_>,
    world: &mut World,
    locals: &[(Name, NodeId)],
    tag: &Expr,
    attributes: &Expr,
    content: &Expr,
) -> Result<NodeId, CheckError>
    requires ready { IsReady base.now (graph_of world.old) locals.now }
    requires tag { IsSound (program_of base.now) (names_seen base.now locals.now)
        (plain tag.now) }
    requires attributes { IsSound (program_of base.now) (names_seen base.now locals.now)
        (plain attributes.now) }
    requires content { IsSound (program_of base.now) (names_seen base.now locals.now)
        (plain content.now) }
    ensures gives { IfOk result (KindGives base.now (graph_of world.old) locals.now
        (graph_of world.new) (Xml (plain tag.now) (plain attributes.now) (plain content.now))) }
    ensures after { IsAfter base.now locals.now world.old world.new }
    ensures least { IfOk result (KindLeast base.now (graph_of world.old) locals.now
        (graph_of world.new) (Xml (plain tag.now) (plain attributes.now) (plain content.now))) }
    ensures fault { IfErr result (FormFails base.now (graph_of world.old) locals.now
        (table_of world.new) (Xml (plain tag.now) (plain attributes.now) (plain content.now))) }
{
    let first = check(base, world, locals, tag)?;
    let second = check(base, world, locals, attributes)?;
    let third = check(base, world, locals, content)?;
    need_at(world, first, ATOM, Rule::Tag, tag.span.from)?;
    need_at(
        world,
        second,
        RECORD,
        Rule::Attributes,
        attributes.span.from,
    )?;
    Ok(xml(base.alloc, world, first, second, third)?)
}
