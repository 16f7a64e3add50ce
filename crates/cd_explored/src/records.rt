//! The steps of nodes that take records.
ghost use Rattle.std.specs.Prelude.{◌≡◌, ◌++◌, ◌<◌, None, map, length, IfOk, OnOk};
ghost use Rattle.cd_matching.specs.Kernel.{Record, field_nodes};
ghost use Rattle.cd_model.specs.Formula.{AreRisingLabels};
ghost use Rattle.cd_matching.specs.PlainKernel.{plain_kernel, plain_kernel_field};
ghost use Rattle.cd_model.specs.AllOf.{AllOf};
ghost use Rattle.cd_needs.specs.RecordTypes.{plain_row};
ghost use Rattle.cd_rules.specs.Family.{AsksNodes};
ghost use Rattle.cd_rows.specs.RecordRows.{asked_at as asked_at_of};
ghost use Rattle.cd_empty.specs.Growth.{Grows};
ghost use Rattle.cd_empty.specs.Seen.{graph_of};
ghost use Rattle.cd_filter.specs.Table.{cell_steps, row_steps};
ghost use Rattle.cd_explored.specs.Inner.FieldRows.{asked_fields};
ghost use Rattle.cd_explored.specs.Inner.NodeSteps.{AreNodeSteps};
ghost use Rattle.cd_explored.specs.Inner.PlainSteps.{all_steps};

use crate::base::Base;
use crate::lead::Lead;
use crate::place::Place;
use cd_empty::World;
use cd_graph::fields::is_same;
use cd_matching::kernel::{FieldKind, KernelField};
use cd_needs::row::Row;
use cd_rows::record_rows;
use cd_sets::question::Question;
use cd_syntax::name::Name;
use std::alloc::{AllocError, Global};

/// Those of a node with these fields.
pub(crate) fn record_steps<'k>(
    base: &Base<'k>,
    world: &mut World,
    question: &Question,
    fields: &[KernelField],
    more: bool,
) -> Result<Vec<Lead<'k>>, AllocError>
    requires asks { AsksNodes (length (graph_of world.old)) question.now }
    requires rising { AreRisingLabels None (map plain_kernel_field fields.now) }
    requires parts { AllOf (λ number. number < length (plain_kernel base.now.kernel.now).nodes)
        (field_nodes (map plain_kernel_field fields.now)) }
    ensures steps { IfOk result (λ leads. AreNodeSteps (graph_of world.old)
        (plain_kernel base.now.kernel.now).nodes base.now.first question.now
        (Record (map plain_kernel_field fields.now) more) (all_steps leads.items)) }
    ensures graph { graph_of world.new ≡ graph_of world.old }
    ensures grows { Grows world.old world.new }
{
    let rows = record_rows(base.alloc, world, question)?;
    lead_to_fields(base.alloc, fields, rows.as_slice())
}

// To what rows ask at fields.
fn lead_to_fields<'k>(
    alloc: Global,
    fields: &[KernelField],
    rows: &[Row],
) -> Result<Vec<Lead<'k>>, AllocError>
    ensures { IfOk result (λ leads. all_steps leads.items
        ≡ row_steps (map plain_kernel_field fields.now)
        (map (asked_fields (map plain_kernel_field fields.now)) (map plain_row rows.now))) }
{
    let mut leads = Vec::new(alloc);
    for row in rows {
        lead_to_row(fields, row, &mut leads)?;
    }
    Ok(leads)
}

// To what one row asks.
fn lead_to_row<'k>(
    fields: &[KernelField],
    row: &Row,
    leads: &mut Vec<Lead<'k>>,
) -> Result<(), AllocError>
    ensures { OnOk result (all_steps leads.new.items ≡ all_steps leads.old.items
        ++ cell_steps (map plain_kernel_field fields.now)
        (asked_fields (map plain_kernel_field fields.now) (plain_row row.now))) }
{
    for field in fields {
        if let FieldKind::Present(number) = field.kind {
            let question = asked_at(row, &field.label).copy()?;
            leads.push(Lead::Leads(Place::at(number, question)))?;
        }
    }
    Ok(())
}

// What a value at a label is in.
fn asked_at<'r>(row: &'r Row, label: &Name) -> &'r Question
    ensures { result.now ≡ asked_at_of (plain_row row.now) label.now }
{
    for (name, cell) in row.fields.iter() {
        if is_same(name, label) {
            return &cell.value;
        }
    }
    &row.every
}
